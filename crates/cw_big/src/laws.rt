//! Laws of the texts of a large program.
ghost use Rattle.std.specs.Prelude.{ℕ, ◌≤◌, Bool, length};
ghost use Rattle.cw_big.specs.LargeProgram.{large_text};

/// Each text is far shorter than a source file may be.
pub fn short_texts()
    ensures { (number : ℕ) (is_last : Bool) → number ≤ 100 → length (large_text number is_last) ≤ 1000 }
{}
