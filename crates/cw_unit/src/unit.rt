//! The checked unit of a segment: its items, procedures, labels and switches, and the trees of its bodies.
//!
//! An operand that stands inside a tree of its own kind is boxed. Lines are those of the source text, from 1, and 65,535
//! for every later one. Items, procedures, labels, switches and descriptors are named by their numbers in the unit's
//! lists, from 0, and stand there in order of the text.
use crate::descriptor::{Desc, Scale, Spec};
use cw_word::{Boxed, List, Name, Num};

/// A segment after all checks: nothing in it can be refused any more.
#[derive(Drop)]
pub struct Unit {
    pub name: Name,
    /// How many tokens the text has after macro expansion.
    pub tokens: u32,
    /// Whether an index outside its declared bounds stops a run: the segment's LIBRARY lists BOUNDS.
    pub bounds: bool,
    pub descs: List<Desc>,
    pub items: List<Item>,
    pub procs: List<Proc>,
    pub labels: List<Label>,
    pub switches: List<Switch>,
    /// The descriptors that this segment defines, with their definitions, by rising descriptor.
    pub defined: List<(u16, Def)>,
    pub body: Stmt,
}

/// Something with words of its own: a declared item, a parameter, a string, or the descriptor of a loop.
#[derive(Drop)]
pub struct Item {
    /// None for strings and loops.
    pub name: Option<Name>,
    /// The procedure to which it belongs, and None for an item of the segment.
    pub owner: Option<u16>,
    /// 0 for an item that has a name.
    pub line: u16,
    pub kind: ItemKind,
    /// FIXED(16, 0) for a table, a string and a loop. Later passes read it, the source semantics does not: a reference
    /// has its own.
    pub scale: Scale,
    pub home: Home,
    pub words: u32,
    /// The words that hold a value at the start, as offset in the item and word, in order of the text; for a string its
    /// length and its characters.
    pub presets: List<(u16, u16)>,
}

/// What an item is. A parameter that holds a word is a `Single`, also where the word tells an array or a table. A loop
/// has four words: the address of the control variable, the step, the limit, and the number of the element at work.
#[derive(Clone, Copy, PartialEq, Eq)]
pub enum ItemKind {
    Single,
    Array,
    Table,
    Text,
    Loop,
}

/// What decides where an item stands.
#[derive(Clone, Copy)]
pub enum Home {
    /// The item of a COMMON list's descriptor.
    Common(u16),
    /// Words of the segment's own.
    Own,
    /// From this address.
    Absolute(u16),
    /// In each frame of its owner, a RECURSIVE procedure.
    Frame,
    /// From this word of an earlier item.
    Over { item: u32, offset: u16 },
}

/// A procedure. `specials` counts the parameters that are labels, switches or procedures.
#[derive(Drop)]
pub struct Proc {
    pub name: Name,
    /// The scale of its answer, where it has one.
    pub answer: Option<Scale>,
    pub recursive: bool,
    pub params: List<Param>,
    pub specials: u8,
    pub body: Stmt,
}

/// A parameter. One that takes a word has an item: for VALUE the word is the value, for LOCATION the address, for an
/// array the address of the element 0, for a table, with its width, the address of the first word. A label, switch or
/// procedure has its number among the procedure's control parameters, from 0.
#[derive(Drop)]
pub enum Param {
    Value(u32, Scale),
    Location(u32, Scale),
    Array(u32, Scale),
    Table(u32, u16),
    Label(u8),
    Switch(u8),
    Proc(u8, Spec),
}

/// A label: the procedure in whose body it stands, or None for the segment's body.
#[derive(Clone, Copy)]
pub struct Label {
    pub proc: Option<u16>,
    pub line: u16,
}

/// A switch: the procedure in which it is declared, if any, and its labels in order.
#[derive(Drop)]
pub struct Switch {
    pub proc: Option<u16>,
    pub list: List<Goal>,
}

/// A label of the unit's own, or that of a descriptor.
#[derive(Clone, Copy)]
pub enum Goal {
    Own(u32),
    Common(u16),
}

/// What defines a descriptor.
#[derive(Clone, Copy)]
pub enum Def {
    Proc(u16),
    Label(u32),
    Switch(u32),
}

/// The operations on the bits of two words: and, or, exclusive or.
#[derive(Clone, Copy)]
pub enum LogicOp {
    Mask,
    Union,
    Differ,
}

/// The comparisons, as `<`, `<=`, `=`, `>=`, `>` and `<>`.
#[derive(Clone, Copy)]
pub enum CompareOp {
    Less,
    LessEq,
    Equal,
    GreaterEq,
    Greater,
    Unequal,
}

/// A statement. The number that leads most of them is the line of its first token.
#[derive(Drop)]
pub enum Stmt {
    /// An assignment.
    Put(u16, Ref, Expr),
    /// An assignment to t bits from bit b.
    PutBits(u16, u8, u8, Ref, Expr),
    Go(u16, Dest),
    Call(u16, Target, List<Arg>),
    Answer(u16, Expr),
    /// Where there is no ELSE, the last is an empty list.
    If(u16, Cond, Boxed<Stmt>, Boxed<Stmt>),
    /// A FOR: its loop item, its control variable, its elements and its body. The control variable's scale is that of
    /// the reference.
    For(u16, u32, Ref, List<Felem>, Boxed<Stmt>),
    Seq(List<Stmt>),
    /// A statement behind labels.
    Mark(List<u32>, Boxed<Stmt>),
}

/// An expression.
#[cycle(tree)]
#[derive(Drop)]
pub enum Expr {
    Num(Num),
    /// The word of an OCTAL or a LITERAL.
    Const(i16),
    /// The address of a string's item.
    Text(u32),
    Read(Boxed<Ref>),
    Call(Target, List<Arg>),
    /// A value at f bits after the point.
    Force(u8, Boxed<Expr>),
    /// The address of a reference.
    Locate(Boxed<Ref>),
    /// The t bits from bit b.
    Bits(u8, u8, Boxed<Expr>),
    Logic(LogicOp, Boxed<Expr>, Boxed<Expr>),
    Sum(Boxed<Expr>, Boxed<Expr>),
    /// The first less the second.
    Less(Boxed<Expr>, Boxed<Expr>),
    Minus(Boxed<Expr>),
    Times(Boxed<Expr>, Boxed<Expr>),
    Over(Boxed<Expr>, Boxed<Expr>),
    Choice(Boxed<Cond>, Boxed<Expr>, Boxed<Expr>),
}

/// A reference to a word, or to a part of one: f bits of its value stand after the point.
#[cycle(tree)]
#[derive(Drop)]
pub struct Ref {
    pub at: Spot,
    pub f: u8,
    pub field: Option<Field>,
}

/// The t bits from bit b of a word, with a sign or without.
#[derive(Clone, Copy)]
pub struct Field {
    pub t: u8,
    pub b: u8,
    pub unsigned: bool,
}

/// How the address of a reference is found. The flag of the table forms is true for a table parameter. The upper
/// bounds, and the numbers of words and entries of a table, matter where the unit's indexes are compared with their bounds.
#[cycle(tree)]
#[derive(Drop)]
pub enum Spot {
    /// That of an item.
    Direct(u32),
    /// The word of an item, a LOCATION parameter.
    Through(u32),
    /// An array's element: item, lower and upper bound, index.
    One(u32, i16, i16, Expr),
    /// An element of an array of two dimensions: item, lower and upper bound of each, length of a row, indexes.
    Two(u32, i16, i16, i16, i16, u16, Expr, Expr),
    /// An element of an array parameter.
    ParamArray(u32, Expr),
    /// A word of a table: item, whether a parameter, words of the table, number of the word.
    Word(u32, bool, u32, Expr),
    /// An element of a table's entry: item, whether a parameter, width of an entry, number of entries, place in the entry,
    /// number of the entry.
    Elem(u32, bool, u16, u16, u16, Expr),
    /// An address that is computed.
    Bare(Expr),
}

/// Where a jump goes: to a label, a label parameter, or by a switch, the switch of a descriptor or a switch parameter,
/// with an index that counts from 1.
#[derive(Drop)]
pub enum Dest {
    Goal(Goal),
    Special(u8),
    Switch(u32, Expr),
    CommonSwitch(u16, Expr),
    SpecialSwitch(u8, Expr),
}

/// What is called: a procedure of the unit's own, that of a descriptor, a procedure parameter with the scale of its
/// answer, where it has one, READBYTE or WRITEBYTE.
#[derive(Clone, Copy)]
pub enum Target {
    Own(u16),
    Common(u16),
    Special(u8, Option<Scale>),
    Read,
    Write,
}

/// An argument.
#[cycle(tree)]
#[derive(Drop)]
pub enum Arg {
    /// A value at f bits after the point.
    Value(Expr, u8),
    /// The address of a reference.
    Place(Ref),
    /// An array: item, lower bound.
    Array(u32, i16),
    /// The word of an array or table parameter, handed on.
    Same(u32),
    /// The address of a table.
    Base(u32),
    Goal(Goal),
    Switch(u32),
    CommonSwitch(u16),
    Proc(u16),
    CommonProc(u16),
    /// A control parameter, handed on.
    Special(u8),
}

/// An element of a FOR: a value, a value and a condition, or a first value, a step and a limit.
#[derive(Drop)]
pub enum Felem {
    One(Expr),
    While(Expr, Cond),
    Step(Expr, Expr, Expr),
}

/// A condition.
#[cycle(tree)]
#[derive(Drop)]
pub enum Cond {
    Cmp(CompareOp, Expr, Expr),
    And(Boxed<Cond>, Boxed<Cond>),
    Or(Boxed<Cond>, Boxed<Cond>),
}
