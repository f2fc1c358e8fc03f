//! The joined law.
ghost use Rattle.std.specs.Prelude.{◌≡◌, ◌<◌, ℕ, ℤ, List, [], All};
ghost use Rattle.cw_track.specs.{Machine.shown_after, Watching.watched};
ghost use Rattle.cw_i86.specs.{State.State, MachineRun.Observed, MachineRun.Shows};
ghost use Rattle.cw_unit.specs.{declared.unit.Unit.Unit as SourceUnit, declared.layout.Limits.Limits, declared.layout.Map.Map, Program.program_at, Begun.Begun};
ghost use Rattle.cw_run86.specs.Processor.{processor_machine, processor_start};
ghost use Rattle.cw_image.specs.Begun.{StatementPlace, Begins};
ghost use Rattle.cw_follow.specs.{Showing.shown_as, Passing.passes};
ghost use Rattle.cw_sim.specs.{Preservation.IsLoaded, Preservation.Preserves, Preservation.Completes, Statements.image_places, Statements.BeginsStatements};

use cw_carry::laws::runs::orders_follow_meaning;
use cw_cpu86::laws::one_observation;
use cw_dec86::no_instruction_begins_another;
use cw_follow::laws::{code_follows_orders, places_stand};
use cw_run86::laws::{keeps_to_the_run, shows_the_run};
use cw_safety::never_stuck;

/// Semantic preservation. Begun with the image of a program, the 8086 shows after each number of instructions what the source
/// means after some number of its steps, and all that the source means, within 256 instructions a step. So it never meets bad
/// code or a division that faults. After as many steps the source has begun the same statements, in the same order, at the same
/// words of memory: those of the image begin at the places that its segments' code tells.
pub fn preservation()
    ensures preserves { (us : List SourceUnit) (m : Map) (limits : Limits) (input : List ℕ) (s : State) (k : ℕ) (shown : Observed) →
        IsLoaded us m limits input s → Shows s input k shown → Preserves (program_at us m limits) input k shown }
    ensures completes { (us : List SourceUnit) (m : Map) (limits : Limits) (input : List ℕ) (s : State) (steps : ℕ) →
        IsLoaded us m limits input s → Completes (program_at us m limits) input steps s }
    ensures statements { (us : List SourceUnit) (m : Map) (limits : Limits) (input : List ℕ) (s : State) (k : ℕ) (shown : Observed) (started : List Begun) →
        IsLoaded us m limits input s → Shows s input k shown
        → Begins (image_places us m limits) limits.area s input k started
        → BeginsStatements (program_at us m limits) input k shown started }
{
    one_observation();
    never_stuck();
    orders_follow_meaning();
    shows_the_run();
    code_follows_orders();
    places_stand();
    beginnings();
}

/// The statements that a run begins are those that the processor passes. There are such for each number of instructions.
pub fn beginnings()
    ensures are { (places : List StatementPlace) (area : ℕ) (s : State) (input : List ℕ) (n : ℕ) (begun : List (ℕ × ℕ × List ℤ)) →
        All (λ b. b < 256) input → Begins places area s input n begun →
        begun ≡ (shown_after (watched (processor_machine shown_as) (passes places area)) n (processor_start s input, [])).1 }
    ensures some { (places : List StatementPlace) (area : ℕ) (s : State) (input : List ℕ) (n : ℕ) →
        All (λ b. b < 256) input → (begun : List (ℕ × ℕ × List ℤ)) × Begins places area s input n begun }
{
    no_instruction_begins_another();
    one_observation();
    shows_the_run();
    keeps_to_the_run();
}
