//! Names, numbers and the operators of expressions, with their positions.
use cw_word::{Name, Num};

/// Where a token stands: its line, and its number among the tokens, from 1.
#[derive(Clone, Copy)]
pub struct Position {
    pub line: u32,
    pub token: u32,
}

/// A name where it stands.
#[derive(Clone, Copy)]
pub struct RawName {
    pub at: Position,
    pub name: Name,
}

/// A number where it stands.
#[derive(Clone, Copy)]
pub struct RawNumber {
    pub at: Position,
    pub number: Num,
}

/// `OCTAL ( number )`.
#[derive(Clone, Copy)]
pub struct RawOctal {
    pub at: Position,
    pub number: RawNumber,
}

/// `LITERAL ( character )`, as the number of its byte.
#[derive(Clone, Copy)]
pub struct RawLiteral {
    pub at: Position,
    pub byte: u8,
}

/// A number, perhaps octal.
#[derive(Clone, Copy)]
pub enum RawInt {
    Number(RawNumber),
    Octal(RawOctal),
}

/// A number, perhaps octal, perhaps with a sign.
#[derive(Clone, Copy)]
pub struct RawSint {
    pub sign: Option<RawSign>,
    pub value: RawInt,
}

/// `[ int , int ]`.
#[derive(Clone, Copy)]
pub struct RawSize {
    pub first: RawInt,
    pub second: RawInt,
}

/// INTEGER, or `FIXED ( int , sint )`.
#[derive(Clone, Copy)]
pub enum RawType {
    Integer(Position),
    Fixed(Position, RawInt, RawSint),
}

/// `+` or `-`.
#[derive(Clone, Copy, PartialEq, Eq)]
pub enum AddOp {
    Plus,
    Minus,
}

/// A sign before a sum or a number, or between two terms.
#[derive(Clone, Copy)]
pub struct RawSign {
    pub at: Position,
    pub op: AddOp,
}

/// `*` or `/`.
#[derive(Clone, Copy, PartialEq, Eq)]
pub enum MulOp {
    Times,
    Divide,
}

/// An operator between two factors.
#[derive(Clone, Copy)]
pub struct RawFactorSign {
    pub at: Position,
    pub op: MulOp,
}

/// `<`, `<=`, `=`, `>=`, `>` or `<>`.
#[derive(Clone, Copy, PartialEq, Eq)]
pub enum CompareOp {
    Less,
    LessOrEqual,
    Equal,
    GreaterOrEqual,
    Greater,
    NotEqual,
}

/// A comparison's operator.
#[derive(Clone, Copy)]
pub struct RawCompareSign {
    pub at: Position,
    pub op: CompareOp,
}
