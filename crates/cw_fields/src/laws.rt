//! Laws of the definitions.
ghost use Rattle.cw_fields.specs.Spelling.{HaveOneSpelling};

/// Each field is read as it is spelled, and nothing else is read as it.
pub fn fields()
    ensures { HaveOneSpelling }
{}
