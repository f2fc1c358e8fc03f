//! Storage of units, laid out, placed and listed by the definitions; and the faults of placing.
#![tactic(auto)]

#[cfg(test)]
mod faults;

ghost use Rattle.std.specs.Prelude.{◌≡◌, map};
ghost use Rattle.cw_checks_storage.specs.Units.{result_of, wanted_of};
ghost use Rattle.cw_checks_storage.specs.Examples.{overlays, tables_and_strings, presets, frames, absolutes, commons};

/// Each example has the map and the words that are wanted.
pub fn examples()
    ensures overlays { map result_of overlays ≡ map wanted_of overlays }
    ensures tables_and_strings { map result_of tables_and_strings ≡ map wanted_of tables_and_strings }
    ensures presets { map result_of presets ≡ map wanted_of presets }
    ensures frames { map result_of frames ≡ map wanted_of frames }
    ensures absolutes { map result_of absolutes ≡ map wanted_of absolutes }
    ensures commons { map result_of commons ≡ map wanted_of commons }
{}
