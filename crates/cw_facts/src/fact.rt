//! What a text says about names, and which words it asks for.
use crate::boxed::{BoxedDeclaration, BoxedSignature};
use cw_tree::items::{RawBounds, RawElem};
use cw_tree::leaf::{Position, RawName, RawSize, RawType};
use cw_tree::segment::RawPs;
use cw_word::List;

/// A declared name, and what it names.
#[derive(Clone, Copy)]
pub struct Declaration {
    pub name: RawName,
    pub kind: Kind,
}

/// What a name can name. A procedure has the type of its answer, where it has one.
#[derive(Clone, Copy)]
pub enum Kind {
    Single(RawType),
    Array(RawType, RawBounds),
    Table(RawSize),
    /// An element, with the name of its table.
    Element(RawName, RawElem),
    Value(RawType),
    Location(RawType),
    ArrayParam(RawType),
    TableParam(RawSize),
    LabelParam,
    SwitchParam,
    ProcParam(Option<RawType>),
    Label,
    Switch,
    Proc(Option<RawType>),
    /// READBYTE, WRITEBYTE and BOUNDS of a LIBRARY list.
    ReadByte,
    WriteByte,
    Bounds,
    /// The answer of a typed procedure, which ANSWER names in its body.
    Answer(RawType),
}

/// A name that is used, and how.
#[derive(Clone, Copy)]
pub struct Use {
    pub name: RawName,
    pub form: Form,
}

/// How a name is used.
#[derive(Clone, Copy)]
pub enum Form {
    /// As a reference, with so many indexes.
    Reference(Reading, u8),
    /// With arguments, in an expression.
    CallValue,
    /// As a statement, with arguments or without.
    Call,
    /// After GOTO, without and with an index.
    Goto,
    GotoSwitch,
    /// In the list of a switch.
    Listed,
    /// As the base of an OVERLAY.
    Base,
    /// ANSWER.
    Answer,
}

/// What a reference is wanted for.
#[derive(Clone, Copy)]
pub enum Reading {
    /// It is a whole argument of a call, or it may be one.
    Argument,
    /// Its value.
    Value,
    /// To be assigned to.
    Target,
    /// A word that is no part of one: LOCATION, the control variable of a FOR, BITS on the left.
    Whole,
}

/// What a procedure is specified as: the type of its answer, where it has one, and its parameters one by one.
#[derive(Drop)]
pub struct Signature {
    pub answer: Option<RawType>,
    pub params: List<RawPs>,
}

/// What stands in a block, in order of the text.
#[derive(Drop)]
pub enum Fact {
    Declares(BoxedDeclaration),
    Uses(Use),
    /// The specification of the procedure with this name's token.
    Specifies(u32, BoxedSignature),
    /// The words of a FOR.
    Loop(Position),
    /// A string, with the number of its characters.
    Text(Position, usize),
    /// A block. The body of a procedure has the token of its name.
    Block(Option<u32>, List<Fact>),
}
