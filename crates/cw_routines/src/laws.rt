//! Laws of the routines. Each holds of every code in which the library stands, and counts the instructions. At each of them the processor is
//! at work at a place of the library, or of the code that the law names, and has told no more output.
ghost use Rattle.std.specs.Prelude.{◌≡◌, ◌≢◌, ◌≤◌, ◌<◌, ℕ, suc, ◌+◌, ◌%◌, ℤ, pos, negsuc, Bool, true, unsigned_abs, int_rem, length, List, ◌++◌};
ghost use Rattle.cw_word.specs.Word.{unsigned};
ghost use Rattle.cw_word.specs.FixedPoint.{FitsWord, scaled_product, scaled_quotient};
ghost use Rattle.cw_run86.specs.Processor.{Processor, processor_step, with_end};
ghost use Rattle.cw_run86.specs.Views.{View, Sees, Has, Goes, register, on, with_register, with_pair, sign_of};
ghost use Rattle.cw_i86.specs.MachineRun.{Bad};
ghost use Rattle.cw_i86.specs.declared.instr.Instr.TheVariants as i86;
ghost use Rattle.cw_unit.specs.Stop.{Overflow, ZeroDivisor, SwitchRange, AddressRange, IndexRange};
ghost use Rattle.cw_tmpl.specs.Mnemonics.{divide_signed};
ghost use Rattle.cw_tmpl.specs.Library.{library_bytes, retired_place, start_place, stop_place, enter_place, read_place};
ghost use Rattle.cw_tmpl.specs.Library.{set_variable_place, add_step_place, put_variable_place};
ghost use Rattle.cw_tmpl.specs.Library.{exhausted_place, next_step_place, product_place, quotient_down_place, quotient_up_place, enter_stop_place};
ghost use Rattle.cw_routines.specs.WordLaws.{NumberLaws};
ghost use Rattle.cw_routines.specs.Ways.{HasAll, HasWord, QuietAll};
ghost use Rattle.cw_routines.specs.Results.{Stands, Quiet, InLibrary, StartRoutine, StopRoutine, ToldStop};
ghost use Rattle.cw_routines.specs.Results.{EnterRoutine, begin, Beginning, leave, Leaving, ReadRoutine};
ghost use Rattle.cw_routines.specs.Results.{SetRoutine, StepRoutine, PutRoutine, ExhaustedRoutine, NextStepRoutine, WordRoutine, divisor_test, DivisorTest};

use cw_run86::laws::fetching;
use cw_word::laws::{many_places, products, quotients, readings, scaling, sums};

/// The library is small.
pub fn sizes()
    ensures { length library_bytes ≤ 4096 }
{}

/// The library stands in each code that begins with its bytes. At the entries of earlier libraries no instruction begins there: the run is over as
/// bad code.
pub fn standing()
    ensures library { (code behind : List ℕ) → code ≡ library_bytes ++ behind → Stands code }
    ensures retired { (code behind : List ℕ) (v : View) (p : Processor) → code ≡ library_bytes ++ behind → v.place ≡ retired_place → Sees code v p →
        processor_step p ≡ with_end (Bad retired_place) p }
{}

/// The start of a body, the stops that tell the line behind their call, and that of a switch, with the line in DX.
pub fn bodies()
    ensures start { (quiet : ℕ → Bool) (code : List ℕ) → Stands code → InLibrary quiet → StartRoutine (Quiet quiet) code start_place 10 }
    ensures overflow { (quiet : ℕ → Bool) (code : List ℕ) → Stands code → InLibrary quiet → StopRoutine (Quiet quiet) code (stop_place Overflow) 12 Overflow }
    ensures zero_divisor { (quiet : ℕ → Bool) (code : List ℕ) → Stands code → InLibrary quiet
        → StopRoutine (Quiet quiet) code (stop_place ZeroDivisor) 12 ZeroDivisor }
    ensures address { (quiet : ℕ → Bool) (code : List ℕ) → Stands code → InLibrary quiet
        → StopRoutine (Quiet quiet) code (stop_place AddressRange) 12 AddressRange }
    ensures bounds { (quiet : ℕ → Bool) (code : List ℕ) → Stands code → InLibrary quiet → StopRoutine (Quiet quiet) code (stop_place IndexRange) 12 IndexRange }
    ensures switch { (quiet : ℕ → Bool) (code : List ℕ) → Stands code → InLibrary quiet → ToldStop (Quiet quiet) code (stop_place SwitchRange) 10 SwitchRange }
{
    fetching();
}

/// Activations begin, by the routine or by the code of a segment, or stop with Depth or Frames, and end in the code of a segment. A byte is read.
pub fn calls()
    ensures enter { (quiet : ℕ → Bool) (code : List ℕ) → Stands code → InLibrary quiet → EnterRoutine (Quiet quiet) code enter_place 18 }
    ensures beginning { (quiet : ℕ → Bool) (code : List ℕ) → Stands code → InLibrary quiet
        → (at size place number by : ℕ) → (at + 22 + by) % 65536 ≡ enter_stop_place →
        HasWord code place number → QuietAll (Quiet quiet) at (begin size place by)
        → HasAll code at (begin size place by) → Beginning (Quiet quiet) code at size number 20 }
    ensures leaving { (quiet : ℕ → Bool) (code : List ℕ) (at words : ℕ) → QuietAll (Quiet quiet) at (leave words) → HasAll code at (leave words) →
        Leaving (Quiet quiet) code at words }
    ensures read { (quiet : ℕ → Bool) (code : List ℕ) → Stands code → InLibrary quiet → ReadRoutine (Quiet quiet) code read_place 6 }
{
    fetching();
}

/// What the laws of words say, in one.
pub fn word_laws()
    ensures { NumberLaws }
{
    readings();
    sums();
    products();
    quotients();
    scaling();
    many_places();
}

/// Products and quotients of words are scaled, rounded as those of the source, and tell by OF whether they fit a word.
pub fn numbers()
    ensures product { (quiet : ℕ → Bool) (code : List ℕ) → Stands code → InLibrary quiet → (x y : ℤ) (j : ℕ) → FitsWord x → FitsWord y → j < 15 →
        WordRoutine (Quiet quiet) code product_place 15 (suc j) x y (scaled_product x y (negsuc j)) }
    ensures quotient_down { (quiet : ℕ → Bool) (code : List ℕ) → Stands code → InLibrary quiet → (x y : ℤ) (j : ℕ)
        → FitsWord x → FitsWord y → y ≢ pos 0 → j < 15 →
        WordRoutine (Quiet quiet) code quotient_down_place 24 (suc j) x y (scaled_quotient x y (negsuc j)) }
    ensures quotient_up { (quiet : ℕ → Bool) (code : List ℕ) → Stands code → InLibrary quiet → (x y : ℤ) (k : ℕ)
        → FitsWord x → FitsWord y → y ≢ pos 0 → k ≤ 16 →
        WordRoutine (Quiet quiet) code quotient_up_place 26 k x y (scaled_quotient x y (pos k)) }
{
    fetching();
    word_laws();
}

/// The routines of loops: the control variable is set, the step is added to it, its value is put on the stack, a value is compared with the
/// limit, and what follows the body of a loop of one STEP element.
pub fn loops()
    ensures set_variable { (quiet : ℕ → Bool) (code : List ℕ) → Stands code → InLibrary quiet → SetRoutine (Quiet quiet) code set_variable_place 16 }
    ensures add_step { (quiet : ℕ → Bool) (code : List ℕ) → Stands code → InLibrary quiet → StepRoutine (Quiet quiet) code add_step_place 19 }
    ensures put_variable { (quiet : ℕ → Bool) (code : List ℕ) → Stands code → InLibrary quiet → PutRoutine (Quiet quiet) code put_variable_place 16 }
    ensures exhausted { (quiet : ℕ → Bool) (code : List ℕ) → Stands code → InLibrary quiet → ExhaustedRoutine (Quiet quiet) code exhausted_place 15 }
    ensures next_step { (quiet : ℕ → Bool) (code : List ℕ) → Stands code → InLibrary quiet → NextStepRoutine (Quiet quiet) code next_step_place 28 }
{
    fetching();
    word_laws();
}

/// Code of segments: AX exchanged with another register, a word divided behind CWD by a number whose magnitude
/// is 2 or more, which never faults, and the test of a divisor.
pub fn pieces()
    ensures exchange { (code : List ℕ) (v : View) (r : ℕ) → Has code v.place (i86.XchgAx r)
        → Goes code v (with_register 0 (register v r) (with_register r (register v 0) (on (i86.XchgAx r) v))) }
    ensures quotient { (code : List ℕ) (v : View) (r : ℕ) (x n : ℤ) → Has code v.place (divide_signed r) → FitsWord x → FitsWord n → 2 ≤ unsigned_abs n →
        register v 0 ≡ unsigned x → register v 2 ≡ sign_of (unsigned x) → register v r ≡ unsigned n →
        Goes code v (with_pair (unsigned (scaled_quotient x n (pos 0))) (unsigned (int_rem x n)) (on (divide_signed r) v)) }
    ensures quotient_fits { (x n : ℤ) → FitsWord x → 2 ≤ unsigned_abs n → FitsWord (scaled_quotient x n (pos 0)) }
    ensures divisor { (quiet : ℕ → Bool) (code : List ℕ) (at by : ℕ) → QuietAll (Quiet quiet) at (divisor_test by)
        → HasAll code at (divisor_test by) → by < 128 →
        DivisorTest (Quiet quiet) code at by }
{
    fetching();
    readings();
}
