//! Example programs, carried out by the definitions of the source semantics.
#![tactic(auto)]

ghost use Rattle.std.specs.Prelude.{◌≡◌, [], ◌∷◌, map, replicate, false, IsTrue};
ghost use Rattle.cw_unit.specs.Allocation.{storage_map};
ghost use Rattle.cw_unit.specs.StackBound.{control_need};
ghost use Rattle.cw_checks_meaning.specs.WellFormed.{well_formed, are_well_formed, not_well_formed};
ghost use Rattle.cw_checks_meaning.specs.MoreExamples.{more_examples};
ghost use Rattle.cw_checks_meaning.specs.Examples.{Example, result_of, wanted_of, before_of, running_of, expressions, addresses, control, procedures};
ghost use Rattle.cw_checks_meaning.specs.Examples.{frame_area_full, several_segments, counted, calls_300, filter_and_control, first_sum, packed_table_overlay};
ghost use Rattle.cw_checks_meaning.specs.Examples.{map_of_example, absolute_word, absolute_map, filter_map, packed_map};

/// Each example shows what is wanted of it.
pub fn examples()
    ensures expressions { map result_of expressions ≡ map wanted_of expressions }
    ensures addresses { map result_of addresses ≡ map wanted_of addresses }
    ensures control { map result_of control ≡ map wanted_of control }
    ensures procedures { map result_of procedures ≡ map wanted_of procedures }
    ensures frames { result_of frame_area_full ≡ wanted_of frame_area_full }
    ensures segments { map result_of several_segments ≡ map wanted_of several_segments }
    ensures more { map result_of more_examples ≡ map wanted_of more_examples }
{}

/// These examples are running up to just before the step with which they end.
pub fn counted_steps()
    ensures { map before_of counted ≡ map running_of counted }
{}

/// So do the long ones.
pub fn long_examples()
    ensures calls { result_of calls_300 ≡ wanted_of calls_300 }
    ensures filter { result_of filter_and_control ≡ wanted_of filter_and_control }
{}

/// Storage maps, and a need of control stack words.
pub fn sizes()
    ensures absolute { storage_map (absolute_word ∷ []) ≡ absolute_map }
    ensures packed { map_of_example packed_table_overlay ≡ packed_map }
    ensures filter { map_of_example filter_and_control ≡ filter_map }
    ensures need { control_need first_sum.segments 4096 ≡ 49228 }
{}

/// The segments of all these examples are well-formed units, of which the laws of `cw_safety` tell.
pub fn well_formed()
    ensures expressions { IsTrue (are_well_formed expressions) }
    ensures addresses { IsTrue (are_well_formed addresses) }
    ensures control { IsTrue (are_well_formed control) }
    ensures procedures { IsTrue (are_well_formed procedures) }
    ensures segments { IsTrue (are_well_formed several_segments) }
    ensures more { IsTrue (are_well_formed more_examples) }
    ensures frames { IsTrue (are_well_formed (frame_area_full ∷ [])) }
    ensures calls { IsTrue (are_well_formed (calls_300 ∷ [])) }
    ensures filter { IsTrue (are_well_formed (filter_and_control ∷ [])) }
{}

/// These are not, and their runs are stuck.
pub fn ill_formed()
    ensures refused { map well_formed not_well_formed ≡ replicate 5 false }
    ensures stuck { map result_of not_well_formed ≡ map wanted_of not_well_formed }
{}
