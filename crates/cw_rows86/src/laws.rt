//! Laws of instructions: what each does to a view and to the flags.
ghost use Rattle.std.specs.Prelude.{◌≡◌, ℕ, suc, ◌+◌, ◌-◌, ◌*◌, ◌/◌, ◌%◌, ◌<◌, ◌≤◌, ◌==◌, Bool, true, false};
ghost use Rattle.std.specs.Prelude.{not, nat_lt, nat_le, List, length, Some, slice_index, bit_and, bit_or};
ghost use Rattle.std.specs.Int.{w16, w32};
ghost use Rattle.cw_i86.specs.Encoding.{bytes_of};
ghost use Rattle.cw_i86.specs.Effect.{holds};
ghost use Rattle.cw_i86.specs.Products.{product_flags, quotient_of, signed_quotient_of};
ghost use Rattle.cw_i86.specs.State.{sign_extended};
ghost use Rattle.cw_i86.specs.Sums.{logic_flags};
ghost use Rattle.cw_i86.specs.declared.flags.Flags.{Flags};
ghost use Rattle.cw_i86.specs.declared.instr.Instr.TheVariants as i86;
ghost use Rattle.cw_i86.specs.declared.instr.Imm.TheVariants as imm;
ghost use Rattle.cw_i86.specs.declared.instr.Mem.{Mem};
ghost use Rattle.cw_i86.specs.declared.instr.Rm.{Rm};
ghost use Rattle.cw_i86.specs.declared.instr.Rm.TheVariants as rms;
ghost use Rattle.cw_i86.specs.declared.instr.Place.{Place};
ghost use Rattle.cw_i86.specs.declared.instr.Place.TheVariants as places;
ghost use Rattle.cw_run86.specs.Addressing.{offset_in};
ghost use Rattle.cw_run86.specs.Processor.{Processor, Told, processor_step, processor_after};
ghost use Rattle.cw_run86.specs.Views.{View, Sees, put_word, Has, IsTop, register, on, with_place, with_register, with_pair, with_stack};
ghost use Rattle.cw_run86.specs.Views.{with_overflow, word_sum, word_difference, difference_overflows, product_low, product_high, product_overflows};
ghost use Rattle.cw_run86.specs.Views.{shift_overflow, sign_of, Compared, Comparison, condition_of, words_compare};
ghost use Rattle.cw_rows86.specs.Locations.{Location, InRegister, InData, InStack, InCode, contents, with_contents, IsWritable};
ghost use Rattle.cw_rows86.specs.Locations.{Denotes, in_memory, in_code, HasWord, GoesWith, Lands, same_flags};
ghost use Rattle.cw_rows86.specs.Operations.{WordOperation, Subtract, Compare, Or, And, Xor, Up, low_of, with_low};
ghost use Rattle.cw_rows86.specs.Operations.{byte_operated_on, byte_flags_after, number_of, result_of};
ghost use Rattle.cw_rows86.specs.Operations.{flags_after, Operates, counted_to, flags_counted, Counts, Shifting};
ghost use Rattle.cw_rows86.specs.Operations.{shift_number, shifted_word, flags_shifted, places_of};
ghost use Rattle.cw_rows86.specs.Acts.{Act, instruction, Needs, after, flags_of, HasActs, NeedsAll, after_all, flags_of_all, behind};
ghost use Rattle.cw_rows86.specs.AddressCode.{index_code, behind_test};
ghost use Rattle.cw_run86.specs.Views.{view};

use cw_run86::laws::fetching;

/// Which word each way of addressing denotes. In the code it is the one at the offset, by whatever registers that is reckoned.
pub fn denoting()
    ensures of_register { (code rs : List ℕ) (r : ℕ) → Denotes code rs (rms.Reg r) (InRegister r) }
    ensures at_offset { (code rs : List ℕ) (k : ℕ) → k < 32768 → Denotes code rs (in_memory (places.Direct (2 * k))) (InData k) }
    ensures at_bx { (code rs : List ℕ) (k : ℕ) → k < 32768 → slice_index rs 3 ≡ 2 * k → Denotes code rs (in_memory (places.Plain 7)) (InData k) }
    ensures at_si { (code rs : List ℕ) (k : ℕ) → k < 32768 → slice_index rs 6 ≡ 2 * k → Denotes code rs (in_memory (places.Plain 4)) (InData k) }
    ensures near_bx { (code rs : List ℕ) (by k : ℕ) → k < 32768
        → (slice_index rs 3 + sign_extended by) % 65536 ≡ 2 * k
        → Denotes code rs (in_memory (places.Near 7 by)) (InData k) }
    ensures far_bx { (code rs : List ℕ) (by k : ℕ) → k < 32768 → (slice_index rs 3 + by) % 65536 ≡ 2 * k
        → Denotes code rs (in_memory (places.Far 7 by)) (InData k) }
    ensures near_bp { (code rs : List ℕ) (by k : ℕ) → k < 32768
        → (slice_index rs 5 + sign_extended by) % 65536 ≡ 2 * k
        → Denotes code rs (in_memory (places.Near 6 by)) (InStack k) }
    ensures far_bp { (code rs : List ℕ) (by k : ℕ) → k < 32768 → (slice_index rs 5 + by) % 65536 ≡ 2 * k
        → Denotes code rs (in_memory (places.Far 6 by)) (InStack k) }
    ensures at_code { (code rs : List ℕ) (place : Place) (at : ℕ) → at + 2 ≤ length code → offset_in rs place ≡ at
        → Denotes code rs (in_code place) (InCode at) }
    ensures read_there { (code : List ℕ) (v : View) (at w : ℕ) → HasWord code at w → contents code v (InCode at) ≡ w }
{}

/// Moves: of a number to a register or its low byte, of any operand to a register, of a register or a number to any that can be
/// written, and of an offset to a register.
pub fn moving()
    ensures number { (code : List ℕ) (v : View) (r w : ℕ) → Has code v.place (i86.MovImm r (imm.Word w))
        → GoesWith code same_flags v (with_register r w (on (i86.MovImm r (imm.Word w)) v)) }
    ensures low_byte { (code : List ℕ) (v : View) (r n : ℕ) → r < 4 → Has code v.place (i86.MovImm r (imm.Byte n))
        → GoesWith code same_flags v (with_register r (register v r / 256 * 256 + n)
        (on (i86.MovImm r (imm.Byte n)) v)) }
    ensures into { (code : List ℕ) (v : View) (r : ℕ) (rm : Rm) (o : Location) → Has code v.place (i86.Mov true true r rm) → Denotes code v.registers rm o →
        GoesWith code same_flags v (with_register r (contents code v o) (on (i86.Mov true true r rm) v)) }
    ensures out_of { (code : List ℕ) (v : View) (r : ℕ) (rm : Rm) (o : Location)
        → Has code v.place (i86.Mov true false r rm) → Denotes code v.registers rm o → IsWritable o →
        GoesWith code same_flags v (with_contents o (register v r) (on (i86.Mov true false r rm) v)) }
    ensures number_to { (code : List ℕ) (v : View) (rm : Rm) (w : ℕ) (o : Location)
        → Has code v.place (i86.MovRm rm (imm.Word w)) → Denotes code v.registers rm o → IsWritable o →
        GoesWith code same_flags v (with_contents o w (on (i86.MovRm rm (imm.Word w)) v)) }
    ensures load { (code : List ℕ) (v : View) (cs : Bool) (at : ℕ) (o : Location)
        → Has code v.place (i86.MovAcc cs true false at)
        → Denotes code v.registers (rms.Mem (record { cs = cs; place = places.Direct at })) o →
        GoesWith code same_flags v (with_register 0 (contents code v o) (on (i86.MovAcc cs true false at) v)) }
    ensures store { (code : List ℕ) (v : View) (cs : Bool) (at : ℕ) (o : Location)
        → Has code v.place (i86.MovAcc cs true true at)
        → Denotes code v.registers (rms.Mem (record { cs = cs; place = places.Direct at })) o → IsWritable o →
        GoesWith code same_flags v (with_contents o (register v 0) (on (i86.MovAcc cs true true at) v)) }
    ensures offset { (code : List ℕ) (v : View) (r : ℕ) (m : Mem) → Has code v.place (i86.Lea r m)
        → GoesWith code same_flags v (with_register r (offset_in v.registers m.place) (on (i86.Lea r m) v)) }
{
    fetching();
}

/// ADD, OR, AND, SUB, XOR and CMP: of a register and any operand, of any operand and a register, of AX and a number, and of any operand
/// and a number or a byte that is sign-extended.
pub fn operating()
    ensures into { (code : List ℕ) (v : View) (op : WordOperation) (r : ℕ) (rm : Rm) (o : Location)
        → Has code v.place (i86.AluRm (number_of op) true true r rm) → Denotes code v.registers rm o →
        Operates code v op (i86.AluRm (number_of op) true true r rm) (InRegister r) (contents code v o) }
    ensures onto { (code : List ℕ) (v : View) (op : WordOperation) (r : ℕ) (rm : Rm) (o : Location)
        → Has code v.place (i86.AluRm (number_of op) true false r rm) → Denotes code v.registers rm o → IsWritable o →
        Operates code v op (i86.AluRm (number_of op) true false r rm) o (register v r) }
    ensures number { (code : List ℕ) (v : View) (op : WordOperation) (w : ℕ)
        → Has code v.place (i86.AluAcc (number_of op) (imm.Word w))
        → Operates code v op (i86.AluAcc (number_of op) (imm.Word w)) (InRegister 0) w }
    ensures number_onto { (code : List ℕ) (v : View) (op : WordOperation) (w : ℕ) (rm : Rm) (o : Location)
        → Has code v.place (i86.AluImm (number_of op) rm (imm.Word w)) → Denotes code v.registers rm o → IsWritable o
        →
        Operates code v op (i86.AluImm (number_of op) rm (imm.Word w)) o w }
    ensures byte_onto { (code : List ℕ) (v : View) (op : WordOperation) (n : ℕ) (rm : Rm) (o : Location)
        → Has code v.place (i86.AluShort (number_of op) rm n) → Denotes code v.registers rm o → IsWritable o →
        Operates code v op (i86.AluShort (number_of op) rm n) o (sign_extended n) }
    ensures negate { (code : List ℕ) (v : View) (rm : Rm) (o : Location) → Has code v.place (i86.Unary 3 true rm)
        → Denotes code v.registers rm o → IsWritable o →
        GoesWith code (flags_after Subtract 0 (contents code v o)) v (with_overflow (difference_overflows 0 (contents code v o)) (with_contents o (word_difference 0 (contents code v o)) (on (i86.Unary 3 true rm) v))) }
{
    fetching();
}

/// INC and DEC of a register, and of any operand. The carry stays.
pub fn counting()
    ensures increment { (code : List ℕ) (v : View) (r : ℕ) → Has code v.place (i86.Inc r) → Counts code v false (i86.Inc r) (InRegister r) }
    ensures decrement { (code : List ℕ) (v : View) (r : ℕ) → Has code v.place (i86.Dec r) → Counts code v true (i86.Dec r) (InRegister r) }
    ensures count { (code : List ℕ) (v : View) (down : Bool) (rm : Rm) (o : Location)
        → Has code v.place (i86.IncDec down true rm) → Denotes code v.registers rm o → IsWritable o
        → Counts code v down (i86.IncDec down true rm) o }
{
    fetching();
}

/// AX times any operand as signed numbers, DX and AX by any operand, without signs or with them, where the quotient is there, and the
/// sign of AX in DX.
pub fn multiplying()
    ensures multiply { (code : List ℕ) (v : View) (rm : Rm) (o : Location) → Has code v.place (i86.Unary 5 true rm) → Denotes code v.registers rm o →
        GoesWith code (product_flags (product_overflows (register v 0) (contents code v o))) v
        (with_overflow (product_overflows (register v 0) (contents code v o)) (with_pair (product_low (register v 0) (contents code v o)) (product_high (register v 0) (contents code v o)) (on (i86.Unary 5 true rm) v))) }
    ensures divide { (code : List ℕ) (v : View) (rm : Rm) (o : Location) (q r : ℕ) → Has code v.place (i86.Unary 6 true rm) → Denotes code v.registers rm o →
        quotient_of 32768 (65536 * register v 2 + register v 0) (contents code v o) ≡ Some (q, r)
        → GoesWith code same_flags v (with_pair q r (on (i86.Unary 6 true rm) v)) }
    ensures signed_divide { (code : List ℕ) (v : View) (rm : Rm) (o : Location) (q r : ℕ)
        → Has code v.place (i86.Unary 7 true rm) → Denotes code v.registers rm o →
        signed_quotient_of w32 w16 32768 (65536 * register v 2 + register v 0) (contents code v o) ≡ Some (q, r)
        → GoesWith code same_flags v (with_pair q r (on (i86.Unary 7 true rm) v)) }
    ensures extend { (code : List ℕ) (v : View) → Has code v.place i86.Cwd
        → GoesWith code same_flags v (with_register 2 (sign_of (register v 0)) (on i86.Cwd v)) }
{
    fetching();
}

/// SHL, SHR and SAR of any operand that holds a word, by one place or by as many as CL says.
pub fn shifting()
    ensures { (code : List ℕ) (v : View) (op : Shifting) (by_cl : Bool) (rm : Rm) (o : Location)
        → Has code v.place (i86.Shift (shift_number op) true by_cl rm) → Denotes code v.registers rm o → IsWritable o
        → contents code v o < 65536 →
        GoesWith code (flags_shifted op (contents code v o) (places_of by_cl v)) v
        (with_overflow (shift_overflow (shift_number op) (contents code v o) (places_of by_cl v) v.overflow) (with_contents o (shifted_word op (contents code v o) (places_of by_cl v)) (on (i86.Shift (shift_number op) true by_cl rm) v))) }
{
    fetching();
}

/// PUSH of a register and of any operand, and POP. An empty place is below the top, and the top is not past the last word, where a word is popped.
pub fn stacking()
    ensures push { (code : List ℕ) (v : View) (r n : ℕ) → Has code v.place (i86.Push r) → n < 32768 → IsTop v (suc n)
        → GoesWith code same_flags v (with_register 4 (2 * n) (with_stack n (register v r) (on (i86.Push r) v))) }
    ensures push_any { (code : List ℕ) (v : View) (rm : Rm) (o : Location) (n : ℕ) → Has code v.place (i86.PushRm rm)
        → Denotes code v.registers rm o → n < 32768 → IsTop v (suc n) →
        GoesWith code same_flags v (with_register 4 (2 * n) (with_stack n (contents code v o) (on (i86.PushRm rm) v))) }
    ensures pop { (code : List ℕ) (v : View) (r n : ℕ) → Has code v.place (i86.Pop r) → n < 32768 → IsTop v n
        → GoesWith code same_flags v (with_register r (v.stack n)
        (with_register 4 (2 * suc n % 65536) (on (i86.Pop r) v))) }
{
    fetching();
}

/// Acts: instructions that go on at the next one, each stated once for every operand. One leads from a view at its place to that behind it;
/// several that stand in the code one after another lead to what they leave together.
pub fn acting()
    ensures one { (code : List ℕ) (a : Act) (n : ℕ) (v : View) (p : Processor) → Has code n (instruction a) → Needs code a v → Sees code (with_place n v) p →
        Sees code (with_place ((n + length (bytes_of (instruction a))) % 65536) (after a v)) (processor_step p)
        × ((processor_step p).state.flags ≡ flags_of a v p.state.flags) }
    ensures several { (code : List ℕ) (acts : List Act) (at : ℕ) (v : View) (p : Processor) → HasActs code at acts
        → NeedsAll code acts v → Sees code (with_place (at % 65536) v) p →
        Sees code (with_place (behind acts at % 65536) (after_all acts v)) (processor_after (length acts) p)
        × ((processor_after (length acts) p).state.flags ≡ flags_of_all acts v p.state.flags) }
{
    fetching();
}

/// Acts and a jump, for a sample: the code of an index and its one test, where a check of seven bytes follows: JB past the CALL and its word.
pub fn address_tests()
    ensures { (code : List ℕ) (at j x k area : ℕ) (ax cx dx bx sp bp si : ℕ) (overflow : Bool)
        (cells stack : ℕ → ℕ) (input : List ℕ) (told : Told) (p : Processor) (inside : Bool) →
        HasActs code at (index_code j x k area) → Has code (at + 10) (i86.JumpIf 2 5) → j < 32768 → cells j ≡ x
        → at + 17 < 65536 → nat_lt (word_sum x k) area ≡ inside →
        Sees code (view at ax cx dx bx sp bp si area overflow cells stack input told) p →
        Sees code (view (behind_test inside at) ax cx dx (word_sum x k) sp bp si area (difference_overflows (word_sum x k) area) cells stack input told) (processor_after 4 p) }
{
    fetching();
}

/// Jumps by a distance, to what any operand holds, and on a condition of the flags.
pub fn jumping()
    ensures near { (code : List ℕ) (v : View) (by : ℕ) → Has code v.place (i86.Jump by)
        → GoesWith code same_flags v (with_place ((v.place + 3 + by) % 65536) v) }
    ensures short { (code : List ℕ) (v : View) (by : ℕ) → Has code v.place (i86.JumpShort by)
        → GoesWith code same_flags v (with_place ((v.place + 2 + sign_extended by) % 65536) v) }
    ensures through { (code : List ℕ) (v : View) (rm : Rm) (o : Location) → Has code v.place (i86.JumpRm rm)
        → Denotes code v.registers rm o → GoesWith code same_flags v (with_place (contents code v o) v) }
    ensures jumps { (code : List ℕ) (v : View) (condition by : ℕ) (p : Processor)
        → Has code v.place (i86.JumpIf condition by) → Sees code v p → holds p.state.flags condition ≡ true →
        Lands code (with_place ((v.place + 2 + sign_extended by) % 65536) v) p }
    ensures passes { (code : List ℕ) (v : View) (condition by : ℕ) (p : Processor)
        → Has code v.place (i86.JumpIf condition by) → Sees code v p → holds p.state.flags condition ≡ false →
        Lands code (on (i86.JumpIf condition by) v) p }
{
    fetching();
}

/// Operations on the low bytes of the first four registers, TEST of two of them, moves of and to high bytes of these, and XCHG of AX and
/// AX, which does nothing.
pub fn bytes()
    ensures operates { (code : List ℕ) (v : View) (op : WordOperation) (r q : ℕ) → r < 4 → q < 4
        → Has code v.place (i86.AluRm (number_of op) false true r (rms.Reg q)) →
        GoesWith code (byte_flags_after op (low_of v r) (low_of v q)) v (byte_operated_on op r (low_of v r) (low_of v q) (on (i86.AluRm (number_of op) false true r (rms.Reg q)) v)) }
    ensures test { (code : List ℕ) (v : View) (r q : ℕ) → r < 4 → q < 4 → Has code v.place (i86.TestRm false r (rms.Reg q)) →
        GoesWith code (logic_flags 128 (bit_and (low_of v q) (low_of v r))) v (with_overflow false (on (i86.TestRm false r (rms.Reg q)) v)) }
    ensures high { (code : List ℕ) (v : View) (r n : ℕ) → Has code v.place (i86.MovImm (r + 4) (imm.Byte n))
        → GoesWith code same_flags v (with_register r (n * 256 + low_of v r)
        (on (i86.MovImm (r + 4) (imm.Byte n)) v)) }
    ensures high_to_low { (code : List ℕ) (v : View) → Has code v.place (i86.Mov false true 0 (rms.Reg 4))
        → GoesWith code same_flags v (with_low 0 (register v 0 / 256) (on (i86.Mov false true 0 (rms.Reg 4)) v)) }
    ensures nothing { (code : List ℕ) (v : View) → Has code v.place (i86.XchgAx 0) → GoesWith code same_flags v (on (i86.XchgAx 0) v) }
{
    fetching();
}

/// A word and itself, and a word shifted up by one place where it has a double.
pub fn same_words()
    ensures both { (a : ℕ) → result_of And a a ≡ a }
    ensures either { (a : ℕ) → result_of Or a a ≡ a }
    ensures one { (a : ℕ) → result_of Xor a a ≡ 0 }
    ensures twice { (a : ℕ) → a < 32768 → shifted_word Up a 1 ≡ 2 * a }
{}

/// A word that stands behind a CALL, which is read and never run: where the callee begins with POP BX and MOV DX,CS:[BX], DX gets it.
pub fn words_behind_calls()
    ensures { (code : List ℕ) (at to by n word : ℕ) (ax cx dx bx bp si di : ℕ) (overflow : Bool)
        (cells stack : ℕ → ℕ) (input : List ℕ) (told : Told) (p : Processor) →
        Has code at (i86.Call by) → HasWord code (at + 3) word → (at + 3 + by) % 65536 ≡ to → to + 4 < 65536
        → Has code to (i86.Pop 3) → Has code (to + 1) (i86.Mov true true 2 (in_code (places.Plain 7)))
        → n < 32767 →
        Sees code (view at ax cx dx bx (2 * suc n) bp si di overflow cells stack input told) p →
        Sees code (view (to + 4) ax cx word (at + 3) (2 * suc n) bp si di overflow cells (put_word stack n (at + 3)) input told) (processor_after 3 p) }
{
    fetching();
}

/// Where a displacement of a byte leads.
pub fn distances()
    ensures forward { (place n : ℕ) → n < 128 → (place + 2 + sign_extended n) % 65536 ≡ (place + 2 + n) % 65536 }
    ensures backward { (place n to : ℕ) → 1 ≤ n → n ≤ 128 → to + n ≡ place + 2 → (place + 2 + sign_extended (256 - n)) % 65536 ≡ to % 65536 }
{}

/// Calls push the place behind them; RET n takes so many bytes more.
pub fn calling()
    ensures call { (code : List ℕ) (v : View) (by n : ℕ) → Has code v.place (i86.Call by) → n < 32768 → IsTop v (suc n) →
        GoesWith code same_flags v (with_place ((v.place + 3 + by) % 65536) (with_register 4 (2 * n) (with_stack n ((v.place + 3) % 65536) v))) }
    ensures call_through { (code : List ℕ) (v : View) (rm : Rm) (o : Location) (n : ℕ)
        → Has code v.place (i86.CallRm rm) → Denotes code v.registers rm o → n < 32768 → IsTop v (suc n) →
        GoesWith code same_flags v (with_place (contents code v o) (with_register 4 (2 * n) (with_stack n ((v.place + length (bytes_of (i86.CallRm rm))) % 65536) v))) }
    ensures back { (code : List ℕ) (v : View) (top : ℕ) → Has code v.place i86.Ret → top < 32768 → IsTop v top
        → GoesWith code same_flags v (with_place (v.stack top) (with_register 4 (2 * suc top % 65536) v)) }
    ensures back_over { (code : List ℕ) (v : View) (n top : ℕ) → Has code v.place (i86.RetAdd n) → top < 32768
        → IsTop v top → GoesWith code same_flags v
        (with_place (v.stack top) (with_register 4 ((2 * suc top + n) % 65536) v)) }
{
    fetching();
}

/// What the flags tell behind an operation, to the conditions by their numbers: O 0, B 2, Z 4 and S 8, each before its opposite, and the
/// comparisons as signed numbers.
pub fn conditions()
    ensures compared { (c : Comparison) (a b : ℕ) (flags : Flags) → a < 65536 → b < 65536
        → holds (flags_after Compare a b flags) (condition_of c) ≡ words_compare c a b }
    ensures subtracted { (c : Comparison) (a b : ℕ) (flags : Flags) → a < 65536 → b < 65536
        → holds (flags_after Subtract a b flags) (condition_of c) ≡ words_compare c a b }
    ensures as_compared { (a b : ℕ) (flags : Flags) (p : Processor) → p.state.flags ≡ flags_after Compare a b flags → Compared a b p }
    ensures as_subtracted { (a b : ℕ) (flags : Flags) (p : Processor) → p.state.flags ≡ flags_after Subtract a b flags → Compared a b p }
    ensures compared_below { (a b : ℕ) (flags : Flags) → holds (flags_after Compare a b flags) 2 ≡ nat_lt a b }
    ensures compared_not_below { (a b : ℕ) (flags : Flags) → holds (flags_after Compare a b flags) 3 ≡ nat_le b a }
    ensures subtracted_below { (a b : ℕ) (flags : Flags) → holds (flags_after Subtract a b flags) 2 ≡ nat_lt a b }
    ensures subtracted_not_below { (a b : ℕ) (flags : Flags) → holds (flags_after Subtract a b flags) 3 ≡ nat_le b a }
    ensures overflow { (flags : Flags) → holds flags 0 ≡ flags.of }
    ensures no_overflow { (flags : Flags) → holds flags 1 ≡ not flags.of }
    ensures zero { (op : WordOperation) (a b : ℕ) (flags : Flags) → holds (flags_after op a b flags) 4 ≡ (result_of op a b == 0) }
    ensures sign { (op : WordOperation) (a b : ℕ) (flags : Flags) → holds (flags_after op a b flags) 8 ≡ nat_le 32768 (result_of op a b) }
    ensures counted_zero { (down : Bool) (a : ℕ) (flags : Flags) → holds (flags_counted down a flags) 4 ≡ (counted_to down a == 0) }
    ensures counted_sign { (down : Bool) (a : ℕ) (flags : Flags) → holds (flags_counted down a flags) 8 ≡ nat_le 32768 (counted_to down a) }
    ensures not_zero { (flags : Flags) → holds flags 5 ≡ not (holds flags 4) }
    ensures not_sign { (flags : Flags) → holds flags 9 ≡ not (holds flags 8) }
    ensures byte_zero { (n : ℕ) (flags : Flags) → holds (logic_flags 128 n flags) 4 ≡ (n == 0) }
    ensures byte_not_zero { (n : ℕ) (flags : Flags) → holds (logic_flags 128 n flags) 5 ≡ not (n == 0) }
    ensures or_tested { (c : Comparison) (a b : ℕ) (flags : Flags) → bit_or a b < 65536
        → holds (flags_after Or a b flags) (condition_of c) ≡ words_compare c (bit_or a b) 0 }
    ensures and_tested { (c : Comparison) (a b : ℕ) (flags : Flags) → bit_and a b < 65536
        → holds (flags_after And a b flags) (condition_of c) ≡ words_compare c (bit_and a b) 0 }
{}
