//! The orders of a program do what its source means.
ghost use Rattle.std.specs.Prelude.{◌<◌, ℕ, List, [], All, IsTrue};
ghost use Rattle.cw_track.specs.{Tracking.Tracks, Watching.watched};
ghost use Rattle.cw_unit.specs.{declared.unit.Unit.Unit as SourceUnit, declared.layout.Limits.Limits, declared.layout.Map.Map, Program.program_at, Behaviour.is_running};
ghost use Rattle.cw_unit.specs.{Behaviour.initial_configuration, Begun.begins};
ghost use Rattle.cw_order.specs.{OrderMachine.order_machine, Starting.starts, FittingWords.ConstantsFit, Spans.SpansInside, BeginsStatement.StatementsBegin};
ghost use Rattle.cw_safety.specs.WellFormed.{WellFormed};
ghost use Rattle.cw_gen_unit.specs.{BuiltUnits.AllBuilt, BuiltUnits.Suits, BuiltUnits.are_built, ReferenceUnits.meaning, ReferenceUnits.orders_program, ReferenceUnits.first_order};

use cw_order::laws::words;
use cw_safety::{coherent, never_stuck, words_within_need};
use cw_unit::laws::configurations;

/// The machine of the orders of well-formed units shows what they mean, where the checks of each unit hold and storage map, limits
/// and room suit them: nothing else, and all of it, where each step of the source pays for the orders that carry it out. Beside what
/// is shown stand the statements that have begun so far: the same ones begin, in the same order, and each at the same words of memory.
/// At every input of bytes.
pub fn orders_follow_meaning()
    ensures { (us : List SourceUnit) (m : Map) (limits : Limits) (room : ℕ) (input : List ℕ)
        → WellFormed (program_at us m limits) → AllBuilt us → Suits us m limits room → All (λ b. b < 256) input →
        Tracks (λ o. is_running o.0) (watched (meaning (program_at us m limits)) begins) (initial_configuration (program_at us m limits) input, [])
        (watched (order_machine (orders_program us m limits room)) (starts (orders_program us m limits room))) (first_order us m limits room input, []) }
{
    words();
    never_stuck();
    coherent();
    words_within_need();
    configurations();
}

/// The test tells units that are built.
pub fn tested()
    ensures { (us : List SourceUnit) → IsTrue (are_built us) → AllBuilt us }
{}

/// The constants in the orders of units are words.
pub fn order_words()
    ensures { (us : List SourceUnit) (m : Map) (limits : Limits) (room : ℕ) → ConstantsFit (orders_program us m limits room) }
{}

/// What the orders of references count on is in the data area, where the storage map suits the units.
pub fn order_spans()
    ensures { (us : List SourceUnit) (m : Map) (limits : Limits) (room : ℕ) → Suits us m limits room → SpansInside (orders_program us m limits room) }
{}

/// Behind each Start in the orders of units stands an order that begins a statement.
pub fn order_beginnings()
    ensures { (us : List SourceUnit) (m : Map) (limits : Limits) (room : ℕ) → StatementsBegin (orders_program us m limits room) }
{}
