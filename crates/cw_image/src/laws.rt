//! Laws of the definitions.
ghost use Rattle.cw_image.specs.ImageFormat.{HasOneSpelling};

/// Images are read as they are spelled, and nothing else is read.
#[tactic(auto, using(crate::proofs::Spelling::one_spelling))]
pub fn image_format()
    ensures { HasOneSpelling }
{}
