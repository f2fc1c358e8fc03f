//! Pieces of code, some with a word that the linker fills.
use cw_i86::Instr;

/// A limit of the run, as a word.
#[derive(Clone, Copy)]
pub enum Limit {
    /// The words of the data area.
    DataWords,
    /// The words of the frame area.
    FrameWords,
    /// The calls that may be active at once.
    Calls,
    /// The number of the segment.
    Segment,
}

/// What the linker puts into a word of the code. An offset "ahead" counts from the byte after the word.
#[derive(Clone, Copy)]
pub enum Target {
    /// The address of a word of a storage family; in a frame family its offset in the frame.
    Word { family: u16, offset: u16 },
    /// The same address in bytes.
    Bytes { family: u16, offset: u16 },
    /// A place in the code of this segment.
    Place(u16),
    /// The place of what defines a descriptor, and 0 where nothing does.
    Definition(u16),
    DefinitionAhead(u16),
    /// The place of an entry of the run-time library.
    Library(u16),
    LibraryAhead(u16),
    Limit(Limit),
    /// The place where the code of the next segment is entered, or the end of the program.
    NextSegment,
}

/// A piece of code: an instruction, or a word alone. The word that is filled ends the piece.
#[derive(Clone, Copy)]
pub enum Coded {
    Whole(Instr),
    /// MOV of the word into a register.
    Move {
        reg: u8,
        target: Target,
    },
    /// ADD of the word to a register.
    Sum {
        reg: u8,
        target: Target,
    },
    /// MOV of the word of the data segment at the word into a register.
    Fetch {
        reg: u8,
        target: Target,
    },
    /// MOV of the word of the data segment at the word into AX.
    Load(Target),
    /// MOV of AX into the word of the data segment at the word.
    Store(Target),
    /// PUSH of the word of the code at the word.
    PushCode(Target),
    /// An operation of the arithmetic unit on a register and the word of the data segment at the word.
    Operate {
        operation: u8,
        reg: u8,
        target: Target,
    },
    /// The same operation on the word of the data segment at the word, which changes, and a register.
    Change {
        operation: u8,
        reg: u8,
        target: Target,
    },
    /// CALL by the word.
    Call(Target),
    /// JMP by the word.
    Jump(Target),
    /// The word alone.
    Word(Target),
    /// A word that is known, as a line behind a call.
    Data(u16),
    /// JMP to the place that an entry of a table of the code tells, where the word is the table's place and BX counts bytes.
    Way(Target),
}
