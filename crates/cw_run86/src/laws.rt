//! Laws of the machine.
ghost use Rattle.std.specs.Prelude.{◌≡◌, ◌≢◌, ◌≤◌, ◌<◌, ℕ, suc, ◌+◌, ◌-◌, ◌*◌, ◌/◌, ◌%◌, Bool, true, false, not};
ghost use Rattle.std.specs.Prelude.{nat_lt, List, All, length, Some, slice_index, bit_and, bit_or, bit_xor};
ghost use Rattle.cw_i86.specs.Encoding.{bytes_of, IsInstr};
ghost use Rattle.cw_i86.specs.State.{State, sign_extended};
ghost use Rattle.cw_i86.specs.MachineRun.{Stands, Shows, IsStart, Running, end_told, taken, left_after};
ghost use Rattle.cw_i86.specs.declared.instr.Instr.{Instr};
ghost use Rattle.cw_i86.specs.declared.instr.Instr.TheVariants as i86;
ghost use Rattle.cw_i86.specs.declared.instr.Imm.TheVariants as imm;
ghost use Rattle.cw_i86.specs.declared.instr.Rm.TheVariants as rms;
ghost use Rattle.cw_i86.specs.declared.instr.Place.TheVariants as places;
ghost use Rattle.cw_run86.specs.Fetching.{instruction_at};
ghost use Rattle.cw_run86.specs.Processor.{Processor, processor_step, processor_after, processor_start, observed, with_given};
ghost use Rattle.cw_run86.specs.Reaching.{IsReached};
ghost use Rattle.cw_run86.specs.Views.{View, Sees, Has, Goes, IsTop, starting_view, register, on, with_place, with_register, with_result, with_cell, with_stack};
ghost use Rattle.cw_run86.specs.Views.{with_told, sum_overflows, difference_overflows, word_sum, word_difference, with_other, with_memory, with_number, at_offset};
ghost use Rattle.cw_run86.specs.Views.{Compared, Compares, Comparison, condition_of, words_compare, double_overflows, word_up, word_down, word_down_signed, product_low};
ghost use Rattle.cw_run86.specs.Views.{product_high, product_overflows, sign_of, with_pair, with_overflow, with_input, shift_overflow};

use cw_dec86::rows_read_back;

/// Fetching finds exactly the instruction that stands at CS:IP.
pub fn fetching()
    ensures finds { (s : State) (i : Instr) → Stands s i → instruction_at s ≡ Some i }
    ensures only { (s : State) (i : Instr) → instruction_at s ≡ Some i → Stands s i }
{
    rows_read_back();
}

/// After each number of steps the machine shows what the 8086 shows.
pub fn shows_the_run()
    ensures { (s : State) (input : List ℕ) (n : ℕ) → All (λ b. b < 256) input → Shows s input n (observed (processor_after n (processor_start s input))) }
{
    fetching();
}

/// After each number of steps the machine is where the run of the 8086 is.
pub fn keeps_to_the_run()
    ensures { (s : State) (input : List ℕ) (n : ℕ) → All (λ b. b < 256) input → IsReached s input n (processor_after n (processor_start s input)) }
{
    fetching();
}

/// At the start the code stands in the code segment, the words in the data segment, all other words are 0, and nothing was told.
pub fn starting()
    ensures { (code words input : List ℕ) (s : State) → length code ≤ 65536 → length words ≤ 32768 → IsStart code words s →
        Sees code (starting_view words input) (processor_start s input) }
{}

/// Moves between registers, and of numbers to registers.
pub fn moves()
    ensures number { (code : List ℕ) (v : View) (r w : ℕ) → Has code v.place (i86.MovImm r (imm.Word w))
        → Goes code v (with_register r w (on (i86.MovImm r (imm.Word w)) v)) }
    ensures low_byte { (code : List ℕ) (v : View) (b : ℕ) → Has code v.place (i86.MovImm 0 (imm.Byte b))
        → Goes code v (with_register 0 (register v 0 / 256 * 256 + b) (on (i86.MovImm 0 (imm.Byte b)) v)) }
    ensures register { (code : List ℕ) (v : View) (r q : ℕ) → Has code v.place (i86.Mov true true r (rms.Reg q))
        → Goes code v (with_register r (register v q) (on (i86.Mov true true r (rms.Reg q)) v)) }
    ensures high_byte { (code : List ℕ) (v : View) → Has code v.place (i86.Mov false true 0 (rms.Reg 4))
        → Goes code v (with_register 0 (register v 0 / 256 * 256 + register v 0 / 256)
        (on (i86.Mov false true 0 (rms.Reg 4)) v)) }
{
    fetching();
}

/// The stack. An empty place is below the top, and the top is not past the last word, where a word is popped.
pub fn stacking()
    ensures push { (code : List ℕ) (v : View) (r n : ℕ) → Has code v.place (i86.Push r) → n < 32768 → IsTop v (suc n) →
        Goes code v (with_register 4 (2 * n) (with_stack n (register v r) (on (i86.Push r) v))) }
    ensures pop { (code : List ℕ) (v : View) (r n : ℕ) → Has code v.place (i86.Pop r) → n < 32768 → IsTop v n →
        Goes code v (with_register r (v.stack n) (with_register 4 (2 * suc n % 65536) (on (i86.Pop r) v))) }
{
    fetching();
}

/// Words of the data segment through BX, and words of the stack segment through BP, by a displacement of one byte.
pub fn memory()
    ensures load { (code : List ℕ) (v : View) (r k : ℕ)
        → Has code v.place (i86.Mov true true r (rms.Mem (record { cs = false; place = places.Plain 7 })))
        → k < 32768 → register v 3 ≡ 2 * k →
        Goes code v (with_register r (v.cells k) (on (i86.Mov true true r (rms.Mem (record { cs = false; place = places.Plain 7 }))) v)) }
    ensures store { (code : List ℕ) (v : View) (r k : ℕ)
        → Has code v.place (i86.Mov true false r (rms.Mem (record { cs = false; place = places.Plain 7 })))
        → k < 32768 → register v 3 ≡ 2 * k →
        Goes code v (with_cell k (register v r) (on (i86.Mov true false r (rms.Mem (record { cs = false; place = places.Plain 7 }))) v)) }
    ensures load_slot { (code : List ℕ) (v : View) (r by k : ℕ)
        → Has code v.place (i86.Mov true true r (rms.Mem (record { cs = false; place = places.Near 6 by })))
        → k < 32768 → (register v 5 + sign_extended by) % 65536 ≡ 2 * k →
        Goes code v (with_register r (v.stack k) (on (i86.Mov true true r (rms.Mem (record { cs = false; place = places.Near 6 by }))) v)) }
    ensures set_slot { (code : List ℕ) (v : View) (by w k : ℕ)
        → Has code v.place (i86.MovRm (rms.Mem (record { cs = false; place = places.Near 6 by })) (imm.Word w))
        → k < 32768 → (register v 5 + sign_extended by) % 65536 ≡ 2 * k →
        Goes code v (with_stack k w (on (i86.MovRm (rms.Mem (record { cs = false; place = places.Near 6 by })) (imm.Word w)) v)) }
{
    fetching();
}

/// Words of the stack segment through BP and of the data segment through BX, by a displacement of a word.
pub fn fields()
    ensures load_argument { (code : List ℕ) (v : View) (r by k : ℕ)
        → Has code v.place (i86.Mov true true r (rms.Mem (record { cs = false; place = places.Far 6 by })))
        → k < 32768 → (register v 5 + by) % 65536 ≡ 2 * k →
        Goes code v (with_register r (v.stack k) (on (i86.Mov true true r (rms.Mem (record { cs = false; place = places.Far 6 by }))) v)) }
    ensures store_field { (code : List ℕ) (v : View) (r by k : ℕ)
        → Has code v.place (i86.Mov true false r (rms.Mem (record { cs = false; place = places.Far 7 by })))
        → k < 32768 → (register v 3 + by) % 65536 ≡ 2 * k →
        Goes code v (with_cell k (register v r) (on (i86.Mov true false r (rms.Mem (record { cs = false; place = places.Far 7 by }))) v)) }
    ensures load_field { (code : List ℕ) (v : View) (r by k : ℕ)
        → Has code v.place (i86.Mov true true r (rms.Mem (record { cs = false; place = places.Near 7 by })))
        → k < 32768 → (register v 3 + sign_extended by) % 65536 ≡ 2 * k →
        Goes code v (with_register r (v.cells k) (on (i86.Mov true true r (rms.Mem (record { cs = false; place = places.Near 7 by }))) v)) }
    ensures store_slot { (code : List ℕ) (v : View) (r by k : ℕ)
        → Has code v.place (i86.Mov true false r (rms.Mem (record { cs = false; place = places.Near 6 by })))
        → k < 32768 → (register v 5 + sign_extended by) % 65536 ≡ 2 * k →
        Goes code v (with_stack k (register v r) (on (i86.Mov true false r (rms.Mem (record { cs = false; place = places.Near 6 by }))) v)) }
{
    fetching();
}

/// Sums and differences of registers that hold words, negatives, and doubling.
pub fn arithmetic()
    ensures add { (code : List ℕ) (v : View) (r q : ℕ) → Has code v.place (i86.AluRm 0 true true r (rms.Reg q)) →
        Goes code v (with_result r (word_sum (register v r) (register v q)) (sum_overflows (register v r) (register v q)) (on (i86.AluRm 0 true true r (rms.Reg q)) v)) }
    ensures subtract { (code : List ℕ) (v : View) (r q : ℕ) → Has code v.place (i86.AluRm 5 true true r (rms.Reg q)) →
        Goes code v (with_result r (word_difference (register v r) (register v q)) (difference_overflows (register v r) (register v q)) (on (i86.AluRm 5 true true r (rms.Reg q)) v)) }
    ensures negate { (code : List ℕ) (v : View) (r : ℕ) → Has code v.place (i86.Unary 3 true (rms.Reg r)) →
        Goes code v (with_result r (word_difference 0 (register v r)) (difference_overflows 0 (register v r)) (on (i86.Unary 3 true (rms.Reg r)) v)) }
    ensures double { (code : List ℕ) (v : View) (r : ℕ) → Has code v.place (i86.Shift 4 true false (rms.Reg r)) → register v r < 32768 →
        Goes code v (with_result r (2 * register v r) (double_overflows (register v r)) (on (i86.Shift 4 true false (rms.Reg r)) v)) }
{
    fetching();
}

/// Bit by bit.
pub fn logic()
    ensures both { (code : List ℕ) (v : View) (r q : ℕ) → Has code v.place (i86.AluRm 4 true true r (rms.Reg q)) →
        Goes code v (with_result r (bit_and (register v r) (register v q)) false (on (i86.AluRm 4 true true r (rms.Reg q)) v)) }
    ensures either { (code : List ℕ) (v : View) (r q : ℕ) → Has code v.place (i86.AluRm 1 true true r (rms.Reg q)) →
        Goes code v (with_result r (bit_or (register v r) (register v q)) false (on (i86.AluRm 1 true true r (rms.Reg q)) v)) }
    ensures one { (code : List ℕ) (v : View) (r q : ℕ) → Has code v.place (i86.AluRm 6 true true r (rms.Reg q)) →
        Goes code v (with_result r (bit_xor (register v r) (register v q)) false (on (i86.AluRm 6 true true r (rms.Reg q)) v)) }
{
    fetching();
}

/// Shifts of registers that hold words by the count in CL.
pub fn shifting()
    ensures up { (code : List ℕ) (v : View) (r : ℕ) → Has code v.place (i86.Shift 4 true true (rms.Reg r)) → register v r < 65536 →
        Goes code v (with_result r (word_up (register v r) (register v 1 % 256)) (shift_overflow 4 (register v r) (register v 1 % 256) v.overflow) (on (i86.Shift 4 true true (rms.Reg r)) v)) }
    ensures down { (code : List ℕ) (v : View) (r : ℕ) → Has code v.place (i86.Shift 5 true true (rms.Reg r)) →
        Goes code v (with_result r (word_down (register v r) (register v 1 % 256)) (shift_overflow 5 (register v r) (register v 1 % 256) v.overflow) (on (i86.Shift 5 true true (rms.Reg r)) v)) }
    ensures down_signed { (code : List ℕ) (v : View) (r : ℕ) → Has code v.place (i86.Shift 7 true true (rms.Reg r)) → register v r < 65536 →
        Goes code v (with_result r (word_down_signed (register v r) (register v 1 % 256)) (shift_overflow 7 (register v r) (register v 1 % 256) v.overflow) (on (i86.Shift 7 true true (rms.Reg r)) v)) }
{
    fetching();
}

/// Products of words as signed numbers, quotients of DX and AX without a sign where they fit, and the sign of AX in DX.
pub fn multiplying()
    ensures multiply { (code : List ℕ) (v : View) (r : ℕ) → Has code v.place (i86.Unary 5 true (rms.Reg r)) →
        Goes code v (with_overflow (product_overflows (register v 0) (register v r)) (with_pair (product_low (register v 0) (register v r)) (product_high (register v 0) (register v r)) (on (i86.Unary 5 true (rms.Reg r)) v))) }
    ensures divide { (code : List ℕ) (v : View) (r : ℕ) → Has code v.place (i86.Unary 6 true (rms.Reg r))
        → 0 < register v r → (65536 * register v 2 + register v 0) / register v r < 65536 →
        Goes code v (with_pair ((65536 * register v 2 + register v 0) / register v r) ((65536 * register v 2 + register v 0) % register v r) (on (i86.Unary 6 true (rms.Reg r)) v)) }
    ensures extend { (code : List ℕ) (v : View) → Has code v.place i86.Cwd → Goes code v (with_register 2 (sign_of (register v 0)) (on i86.Cwd v)) }
{
    fetching();
}

/// Jumps and calls. A call pushes the place behind it.
pub fn jumps()
    ensures near { (code : List ℕ) (v : View) (by : ℕ) → Has code v.place (i86.Jump by) → Goes code v (with_place ((v.place + 3 + by) % 65536) v) }
    ensures short { (code : List ℕ) (v : View) (by : ℕ) → Has code v.place (i86.JumpShort by)
        → Goes code v (with_place ((v.place + 2 + sign_extended by) % 65536) v) }
    ensures register { (code : List ℕ) (v : View) (r : ℕ) → Has code v.place (i86.JumpRm (rms.Reg r)) → Goes code v (with_place (register v r) v) }
    ensures no_overflow { (code : List ℕ) (v : View) (by : ℕ) → Has code v.place (i86.JumpIf 1 by)
        → v.overflow ≡ false → Goes code v (with_place ((v.place + 2 + sign_extended by) % 65536) v) }
    ensures passes { (code : List ℕ) (v : View) (by : ℕ) → Has code v.place (i86.JumpIf 1 by) → v.overflow ≡ true → Goes code v (on (i86.JumpIf 1 by) v) }
    ensures call { (code : List ℕ) (v : View) (by n : ℕ) → Has code v.place (i86.Call by) → n < 32768 → IsTop v (suc n) →
        Goes code v (with_place ((v.place + 3 + by) % 65536) (with_register 4 (2 * n) (with_stack n ((v.place + 3) % 65536) v))) }
    ensures back { (code : List ℕ) (v : View) (n : ℕ) → Has code v.place i86.Ret → n < 32768 → IsTop v n
        → Goes code v (with_place (v.stack n) (with_register 4 (2 * suc n % 65536) v)) }
{
    fetching();
}

/// The word of the data segment at an offset that an instruction names.
pub fn offsets()
    ensures load { (code : List ℕ) (v : View) (at k : ℕ) → Has code v.place (i86.MovAcc false true false at) → k < 32768 → at ≡ 2 * k →
        Goes code v (with_register 0 (v.cells k) (on (i86.MovAcc false true false at) v)) }
    ensures store { (code : List ℕ) (v : View) (at k : ℕ) → Has code v.place (i86.MovAcc false true true at) → k < 32768 → at ≡ 2 * k →
        Goes code v (with_cell k (register v 0) (on (i86.MovAcc false true true at) v)) }
    ensures set { (code : List ℕ) (v : View) (at w k : ℕ) → Has code v.place (i86.MovRm (at_offset at) (imm.Word w)) → k < 32768 → at ≡ 2 * k →
        Goes code v (with_cell k w (on (i86.MovRm (at_offset at) (imm.Word w)) v)) }
    ensures add { (code : List ℕ) (v : View) (r at k : ℕ) → Has code v.place (with_memory 0 r at) → k < 32768 → at ≡ 2 * k →
        Goes code v (with_result r (word_sum (register v r) (v.cells k)) (sum_overflows (register v r) (v.cells k)) (on (with_memory 0 r at) v)) }
    ensures subtract { (code : List ℕ) (v : View) (r at k : ℕ) → Has code v.place (with_memory 5 r at) → k < 32768 → at ≡ 2 * k →
        Goes code v (with_result r (word_difference (register v r) (v.cells k)) (difference_overflows (register v r) (v.cells k)) (on (with_memory 5 r at) v)) }
{
    fetching();
}

/// Sums and differences of AX and a number.
pub fn numbers()
    ensures add { (code : List ℕ) (v : View) (w : ℕ) → Has code v.place (with_number 0 w) →
        Goes code v (with_result 0 (word_sum (register v 0) w) (sum_overflows (register v 0) w) (on (with_number 0 w) v)) }
    ensures subtract { (code : List ℕ) (v : View) (w : ℕ) → Has code v.place (with_number 5 w) →
        Goes code v (with_result 0 (word_difference (register v 0) w) (difference_overflows (register v 0) w) (on (with_number 5 w) v)) }
{
    fetching();
}

/// Comparisons of words as signed numbers: CMP, what keeps its flags, and where a conditional jump behind it leads.
pub fn comparing()
    ensures registers { (code : List ℕ) (v : View) (r q : ℕ) → Has code v.place (with_other 7 r q)
        → Compares code (register v r) (register v q) (with_other 7 r q) v }
    ensures offset { (code : List ℕ) (v : View) (r at k : ℕ) → Has code v.place (with_memory 7 r at) → k < 32768 → at ≡ 2 * k →
        Compares code (register v r) (v.cells k) (with_memory 7 r at) v }
    ensures number { (code : List ℕ) (v : View) (w : ℕ) → Has code v.place (with_number 7 w) → Compares code (register v 0) w (with_number 7 w) v }
    ensures pop { (code : List ℕ) (v : View) (r a b : ℕ) (p : Processor) → Has code v.place (i86.Pop r)
        → Sees code v p → Compared a b p → Compared a b (processor_step p) }
    ensures jumps { (code : List ℕ) (v : View) (c : Comparison) (by a b : ℕ) (p : Processor) → Has code v.place (i86.JumpIf (condition_of c) by) →
        a < 65536 → b < 65536 → words_compare c a b ≡ true → Sees code v p → Compared a b p →
        Sees code (with_place ((v.place + 2 + sign_extended by) % 65536) v) (processor_step p) }
    ensures passes { (code : List ℕ) (v : View) (c : Comparison) (by a b : ℕ) (p : Processor) → Has code v.place (i86.JumpIf (condition_of c) by) →
        a < 65536 → b < 65536 → words_compare c a b ≡ false → Sees code v p → Compared a b p →
        Sees code (on (i86.JumpIf (condition_of c) by) v) (processor_step p) }
{
    fetching();
}

/// Where JB leads behind a comparison of words as numbers from 0 on.
pub fn comparing_below()
    ensures jumps { (code : List ℕ) (v : View) (by a b : ℕ) (p : Processor) → Has code v.place (i86.JumpIf 2 by) → a < b → Sees code v p → Compared a b p →
        Sees code (with_place ((v.place + 2 + sign_extended by) % 65536) v) (processor_step p) }
    ensures passes { (code : List ℕ) (v : View) (by a b : ℕ) (p : Processor) → Has code v.place (i86.JumpIf 2 by) → b ≤ a → Sees code v p → Compared a b p →
        Sees code (on (i86.JumpIf 2 by) v) (processor_step p) }
{
    fetching();
}

/// A jump by a word of a table in the code, through BX.
pub fn tables()
    ensures { (code : List ℕ) (v : View) (by at to : ℕ)
        → Has code v.place (i86.JumpRm (rms.Mem (record { cs = true; place = places.Far 7 by })))
        → (register v 3 + by) % 65536 ≡ at → at + 2 ≤ length code →
        slice_index code at + 256 * slice_index code (at + 1) ≡ to → Goes code v (with_place to v) }
{
    fetching();
}

/// The ports, and the end.
pub fn ports()
    ensures take { (code : List ℕ) (v : View) (port : ℕ) → Has code v.place (i86.In port) →
        Goes code v (with_input (left_after port v.input) (with_register 0 (register v 0 / 256 * 256 + taken port v.input) (on (i86.In port) v))) }
    ensures out { (code : List ℕ) (v : View) (port : ℕ) → Has code v.place (i86.Out port)
        → Goes code v (with_told (with_given port (register v 0 % 256) v.told) (on (i86.Out port) v)) }
    ensures halts { (code : List ℕ) (v : View) (p : Processor) → Has code v.place i86.Hlt → Sees code v p →
        observed (processor_step p) ≡ record { output = v.told.output; end = end_told v.told.kind v.told.segment (v.told.line_low + 256 * v.told.line_high) } }
    ensures rests { (code : List ℕ) (v : View) (p : Processor) → Has code v.place i86.Hlt → Sees code v p
        → processor_step (processor_step p) ≡ processor_step p }
    ensures runs { (code : List ℕ) (v : View) (p : Processor) → Sees code v p → observed p ≡ record { output = v.told.output; end = Running } }
{
    fetching();
}
