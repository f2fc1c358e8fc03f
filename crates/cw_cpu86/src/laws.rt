//! Laws of the machine's runs, each the contract of a function that does nothing.
ghost use Rattle.std.specs.Prelude.{◌≡◌, ℕ, Bool, List, Option, Some};
ghost use Rattle.cw_io.specs.Bytes.{after_told};
ghost use Rattle.cw_i86.specs.State.{State};
ghost use Rattle.cw_i86.specs.MachineRun.{Event, Outcome, Steps, TakeAlike, left_behind, FitsInput, Observed, Shows, IsStart};
ghost use Rattle.cw_cpu86.specs.Ports.{Device, AreBytes, MayBeLeft, FitsUntold, at_end_behind};
ghost use Rattle.cw_cpu86.specs.Answers.{RunAnswers, NoneTold, steps_shown, end_shown};
ghost use Rattle.cw_cpu86.specs.declared.cpu.RunEnd.{RunEnd};

use cw_dec86::no_instruction_begins_another;

/// A step has one outcome for the byte that a port gives.
pub fn one_outcome()
    ensures { (s : State) (o p : Outcome) → Steps s o → Steps s p → TakeAlike o p → o ≡ p }
{
    no_instruction_begins_another();
}

/// What a run shows is a function of the state, the input and the number of steps.
pub fn one_observation()
    ensures { (s : State) (input : List ℕ) (n : ℕ) (a b : Observed) → Shows s input n a → Shows s input n b → a ≡ b }
{
    no_instruction_begins_another();
}

/// The state in which a program begins is a function of its code and its words.
pub fn one_start()
    ensures { (code words : List ℕ) (s t : State) → IsStart code words s → IsStart code words t → s ≡ t }
{}

/// What the ports tell after a run is what shows after its steps, where they tell their input and no stop was told before.
pub fn observed_run()
    ensures { (end : RunEnd) (limit : ℕ) (s s' : State) (d d' : Device) (input : List ℕ) →
        RunAnswers end limit s d s' d' → d.left ≡ Some input → NoneTold d →
        (output : List ℕ) × Shows s input (steps_shown end limit) (record { output = output; end = end_shown end d' })
        × (d'.held ≡ after_told d.held output) }
{}

/// Bytes that fit by what is known of the end of an input that isn't told are those of some input, which goes on with any bytes that may be left then.
pub fn fitting_input()
    ensures { (events : List Event) (at_end : Option Bool) (later : List ℕ) →
        FitsUntold at_end events → AreBytes later → MayBeLeft (at_end_behind events at_end) later →
        (input : List ℕ) × AreBytes input × MayBeLeft at_end input × FitsInput input events × (left_behind events input ≡ later) }
{}
