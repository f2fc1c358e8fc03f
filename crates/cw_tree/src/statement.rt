//! Trees of statements, blocks and procedures.
use crate::expression::{RawBits, RawCond, RawExpr, RawRef};
use crate::items::{RawBase, RawData, RawTable};
use crate::leaf::{Position, RawName, RawType};
use crate::segment::RawIps;
use cw_word::{Boxed, List};

/// A statement behind its labels.
#[cycle(statement)]
#[derive(Drop)]
pub struct RawStmt {
    pub labels: List<RawName>,
    pub form: Boxed<RawForm>,
}

/// A statement without labels. The labels of an IF are those behind its THEN.
#[cycle(statement)]
#[derive(Drop)]
pub enum RawForm {
    Simple(Boxed<RawSimple>),
    If {
        at: Position,
        test: Boxed<RawCond>,
        labels: List<RawName>,
        first: Boxed<RawSimple>,
        second: Option<Boxed<RawStmt>>,
    },
    For {
        at: Position,
        variable: Boxed<RawRef>,
        elems: List<RawFelem>,
        body: Boxed<RawStmt>,
    },
}

/// A statement that is no IF and no FOR.
#[cycle(statement)]
#[derive(Drop)]
pub enum RawSimple {
    Empty,
    /// `ref := expr`.
    Assign(Boxed<RawRef>, Boxed<RawExpr>),
    /// `BITS [ int , int ] ref := expr`.
    AssignBits(Boxed<RawBits>, Boxed<RawRef>, Boxed<RawExpr>),
    /// `GOTO name`.
    Goto(Position, Boxed<RawName>),
    /// `GOTO name [ expr ]`.
    GotoSwitch(Position, Boxed<RawName>, Boxed<RawExpr>),
    /// `name` or `name ( expr , .. )`.
    Call(Boxed<RawName>, List<RawExpr>),
    Answer(Position, Boxed<RawExpr>),
    Block(Boxed<RawBlock>),
}

/// An element of a FOR: `expr`, `expr WHILE cond` or `expr STEP expr UNTIL expr`.
#[derive(Drop)]
pub enum RawFelem {
    One(Boxed<RawExpr>),
    While(Boxed<RawExpr>, Boxed<RawCond>),
    Step(Boxed<RawExpr>, Boxed<RawExpr>, Boxed<RawExpr>),
}

/// BEGIN with its declarations and statements, one statement at least.
#[cycle(statement)]
#[derive(Drop)]
pub struct RawBlock {
    pub at: Position,
    pub decls: List<RawDecl>,
    pub stmts: List<RawStmt>,
}

/// A declaration.
#[cycle(statement)]
#[derive(Drop)]
pub enum RawDecl {
    Data(RawData),
    Overlay(Position, RawBase, RawData),
    Switch(Position, RawName, List<RawName>),
    Proc(Boxed<RawProc>),
}

/// PROCEDURE or RECURSIVE.
#[derive(Clone, Copy)]
pub enum RawPtag {
    Procedure(Position),
    Recursive(Position),
}

/// A procedure's declaration.
#[cycle(statement)]
#[derive(Drop)]
pub struct RawProc {
    pub answer: Option<RawType>,
    pub tag: RawPtag,
    pub name: RawName,
    pub params: List<RawParam>,
    pub body: Boxed<RawStmt>,
}

/// Parameters that are declared.
#[derive(Drop)]
pub enum RawParam {
    Value(Position, RawType, List<RawName>),
    Location(Position, RawType, List<RawName>),
    Array(RawType, List<RawName>),
    Table(RawTable),
    Label(Position, List<RawName>),
    Switch(Position, List<RawName>),
    /// The type of its answer, where it has one, the position of PROCEDURE, and what it takes.
    Proc(Option<RawType>, Position, RawName, List<RawIps>),
}
