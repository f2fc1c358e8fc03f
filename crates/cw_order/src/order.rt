//! The orders.
//!
//! An order works on the operand stack, whose words are the operands of the expression at work, and on one memory of
//! words. An address counts words from 0. Descriptors, labels, switches and procedures are named by their numbers in the
//! unit. A parameter is named by how many words of arguments follow its own on the stack, where a label, switch or
//! procedure takes two: so its place is known where it is used. Marks number the code labels of the unit.
//!
//! The top operand is in the accumulator, or all operands are on the stack and the accumulator is free. An order that puts
//! a word wants it free and loads it, one that takes the last word frees it, and `Save` frees it for the next operand.
//! Arguments are put on the stack. An order that can stop, and one that calls, names the line that the stop tells.
use cw_unit::unit::{Def, Goal};
use cw_word::List;

/// The comparisons of two words as signed numbers, the operand below with the top one.
#[derive(Clone, Copy, PartialEq, Eq)]
pub enum Comparator {
    Less,
    LessEqual,
    Equal,
    GreaterEqual,
    Greater,
    Unequal,
}

/// The place of a word of memory.
#[derive(Clone, Copy)]
pub enum Place {
    /// A word of a storage family.
    Word { family: u16, offset: u16 },
    /// A word of the frame of the activation.
    Frame(u16),
}

/// One order. "Takes" removes operands from the top of the stack, "puts" adds one; words of memory stay where nothing
/// is said of them.
#[derive(Drop)]
pub enum Order {
    /// Puts the accumulator on the stack. The operands stay as they are.
    Save,
    /// Puts a word.
    Const(u16),
    /// Puts the address of a word of a storage family.
    Home {
        family: u16,
        offset: u16,
    },
    /// Puts the address of a word of the frame of the activation.
    FrameHome(u16),
    /// Takes an address and puts the word there.
    Load,
    /// Takes an address, then the word below it, and stores the word there.
    Store,
    /// Takes an address and puts `t` bits, from bit `b`, of the word there.
    LoadPart {
        t: u8,
        b: u8,
        signed: bool,
    },
    /// Takes an address, then the word below it, and stores the word's low `t` bits from bit `b` of the word there.
    StorePart {
        t: u8,
        b: u8,
    },
    /// Takes a word of scale `from` and puts it at scale `to`, rounded down; stops with Overflow where it does not fit.
    Rescale {
        from: u8,
        to: u8,
        line: u16,
    },
    /// Takes two words and puts their sum; stops with Overflow where it does not fit.
    Add(u16),
    /// Takes two words and puts the lower less the top one; stops with Overflow where it does not fit.
    Sub(u16),
    /// Takes a word and puts its negative; stops with Overflow where it does not fit.
    Neg(u16),
    /// Takes two words and puts their product times 2^`power`, rounded down; stops with Overflow where it does not fit.
    Mul {
        power: i8,
        line: u16,
    },
    /// Takes two words and puts the lower times 2^`power` over the top one, rounded toward zero; stops with ZeroDivisor at 0,
    /// and with Overflow where the quotient does not fit.
    Div {
        power: i8,
        line: u16,
    },
    /// Takes two words and puts the bits that both have.
    And,
    /// Takes two words and puts the bits that either has.
    Or,
    /// Takes two words and puts the bits that one of them has.
    Xor,
    /// Takes a word and puts its `t` bits from bit `b`, without a sign.
    Take {
        t: u8,
        b: u8,
    },
    /// Takes an index and puts it less the lower bound; stops with Address where that does not fit.
    IndexLess {
        lower: i16,
        line: u16,
    },
    /// Takes the address of the first element of an array, then an index below it, and puts the address of that element;
    /// stops with Address where the index less the lower bound does not fit, or the element is outside the data area.
    /// From the first address on at least `span` words are in the data area.
    Element {
        lower: i16,
        span: u16,
        line: u16,
    },
    /// The same of an array of two dimensions, whose index of a row is below the other one, and whose rows have `width`
    /// words; stops with Address where the place of the row, or that of the element, does not fit too.
    ElementOfTwo {
        lower: i16,
        second: i16,
        width: u16,
        line: u16,
    },
    /// The same where every number on the way fits and the element is in the data area, as it is where both indexes have been compared
    /// with their bounds: it never stops. `span` is as in `Element`.
    ElementInside {
        lower: i16,
        second: i16,
        width: u16,
        span: u16,
    },
    /// Takes the address of the first word of a table, then the number of an entry below it, and puts the address of that
    /// word of the entry; entries have `width` words. It stops with Address where the number times that, or this with the
    /// word added, does not fit, or the word is outside the data area. `span` is as in `Element`.
    Entry {
        width: u16,
        word: u16,
        span: u16,
        line: u16,
    },
    /// Stops with Address where the top operand is no address of the data area.
    InArea(u16),
    /// Stops with Bounds where the top operand is below one number or above the other.
    InBounds {
        lower: i16,
        upper: i16,
        line: u16,
    },
    /// Takes two words and puts the lower less the top one, modulo 65,536.
    Less,
    /// Takes a word.
    Drop,
    /// Goes on at the mark.
    Jump(u32),
    /// Takes two words, and goes on at the mark where the lower compares so with the top one.
    JumpIf {
        comparator: Comparator,
        mark: u32,
    },
    /// Takes the address of a loop's words, then the value of its control variable below it, and goes on at the mark where
    /// that is past the element's limit. Word 1 of the loop is the step, word 2 the limit.
    Exhausted(u32),
    /// Takes the address of a loop's words, then the word below it, and stores that word in the loop's control variable,
    /// whose address is word 0 of the loop; stops with Address where that is no address of the data area.
    SetVariable(u16),
    /// Takes the address of a loop's words and adds the step, word 1 of the loop, to the control variable; stops with
    /// Address as `SetVariable` does, and then with Overflow where the sum does not fit.
    AddStep(u16),
    /// Puts the value of the control variable below the address of a loop's words, which stays on top; stops with Address
    /// as `SetVariable` does.
    PutVariable(u16),
    /// Behind the body of a loop of one STEP element, whose words begin at this place: where word 3 is 1, adds the step, word 1,
    /// to the control variable as `AddStep` does, and goes on at the mark where that is not past the limit. Stops with Address
    /// where word 0 is no address of the data area, before the sum or behind it, and with Overflow where the sum does not fit.
    NextStep {
        looped: Place,
        line: u16,
        mark: u32,
    },
    /// Takes the number of a loop's element, from 1, and goes on at the mark of that number; further on where it has
    /// none.
    LoopWay(List<u32>),
    /// Takes the index of a switch, from 1, whose labels all stand in the body at work, and goes on at the mark of that
    /// number; stops with Switch where it has none.
    SwitchWay {
        marks: List<u32>,
        line: u16,
    },
    /// The place of a mark. Does nothing.
    Mark,
    /// Puts a label of this unit, with the activation that owns it, as an argument.
    LabelOut(u32),
    /// Puts the label of a descriptor as an argument.
    LabelCommon(u16),
    /// Puts a switch of this unit, with the activation that owns it, as an argument.
    SwitchOut(u32),
    /// Puts the switch of a descriptor as an argument.
    SwitchCommon(u16),
    /// Puts a procedure of this unit as an argument.
    ProcOut(u16),
    /// Puts the procedure of a descriptor as an argument.
    ProcCommon(u16),
    /// Puts a control parameter as an argument.
    SpecialOut(u8),
    /// Jumps to a label parameter. A jump to a label drops all operands, and the activations after that which owns it; a
    /// label that stands in no procedure has no owner, and all are dropped.
    GoSpecial(u8),
    /// Takes an index, from 1, and jumps to that label of a switch of this unit; stops with Switch where it has none.
    GoSwitch {
        switch: u32,
        line: u16,
    },
    /// The same with the switch of a descriptor.
    GoSwitchCommon {
        descriptor: u16,
        line: u16,
    },
    /// The same with a switch parameter.
    GoSwitchSpecial {
        place: u8,
        line: u16,
    },
    /// Drops all activations and all operands, and goes on at the mark of a label of the segment's body.
    GoMain(u32),
    /// Jumps to the label of a descriptor.
    GoCommon(u16),
    /// Calls a procedure of this unit, with the arguments on the stack. The accumulator is loaded with the answer.
    CallProc {
        procedure: u16,
        line: u16,
    },
    /// Calls the procedure of a descriptor.
    CallCommon {
        descriptor: u16,
        line: u16,
    },
    /// Calls a procedure parameter.
    CallSpecial {
        place: u8,
        line: u16,
    },
    /// Begins the activation of the call, with a frame of so many words; stops with Depth or Frames, at the line of
    /// the call, where there is no room.
    Enter(u16),
    /// Stores a word argument in a word of a storage family.
    Bind {
        argument: u8,
        family: u16,
        offset: u16,
    },
    /// Stores a word argument in a word of the frame.
    BindFrame {
        argument: u8,
        offset: u16,
    },
    /// Ends the activation and takes its arguments, which are so many words; the top operand stays where it answers.
    Return {
        arguments: u8,
        answers: bool,
    },
    /// Puts the next byte of the input, or -1 where there is none.
    ReadByte,
    /// Takes a word from the stack, as a call takes an argument, and writes its low byte to the output.
    WriteByte,
    /// A statement of this line begins with the next order. Does nothing.
    Start(u16),
    /// Goes on with the body of the next segment; where there is none, the program ends.
    NextBody,
}

/// A label: its mark, and whether it stands in a procedure.
#[derive(Clone, Copy)]
pub struct LabelMark {
    pub mark: u32,
    pub in_procedure: bool,
}

/// The orders of a unit: the segment's body begins at place `entry` of the list, and `marks` tells the place of each
/// mark. `labels` tells the mark of each label, `procedures` that of the first order of each procedure, and `switches`
/// the labels of each switch. `shared` are the labels, switches and procedures that the unit defines in common: descriptors
/// of other segments may stand for them.
#[derive(Drop)]
pub struct Orders {
    pub list: List<Order>,
    pub entry: u32,
    pub marks: List<u32>,
    pub labels: List<LabelMark>,
    pub procedures: List<u32>,
    pub switches: List<List<Goal>>,
    pub shared: List<Def>,
}
