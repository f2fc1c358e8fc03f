//! Laws of the units of texts.
ghost use Rattle.std.specs.Prelude.{ℕ, List, All};
ghost use Rattle.cw_unit.specs.declared.unit.Unit.{Unit as SourceUnit};
ghost use Rattle.cw_build.specs.Compiled.{IsCompilable};
ghost use Rattle.cw_files.specs.Texts.{HasUnit};
ghost use Rattle.cw_files.specs.Reading.{HaveValues};

use cw_sound::laws::texts::text_units;

/// The units of texts can be compiled.
pub fn compiled_units()
    ensures { (texts : List (List ℕ)) (us : List SourceUnit) → HaveValues HasUnit texts us → All IsCompilable us }
{
    text_units();
}
