//! Trees of expressions and conditions.
//!
//! The operands of one rule stand in a list, with one operator less beside them. An operand list is never that of a bracket
//! alone which could stand without: see the grammar for the brackets that are kept.
use crate::leaf::{
    Position, RawCompareSign, RawFactorSign, RawLiteral, RawName, RawNumber, RawOctal, RawSign,
    RawSize, RawType,
};
use cw_word::{Boxed, List, Seldom};

/// An expression: `IF cond THEN expr ELSE expr`, or a sum.
#[cycle(tree)]
#[derive(Drop)]
pub enum RawExpr {
    Choice(Position, Boxed<RawCond>, Boxed<RawExpr>, Boxed<RawExpr>),
    Sum(Boxed<RawSum>),
}

/// A condition: operands with OR between any two.
#[cycle(tree)]
#[derive(Drop)]
pub struct RawCond {
    pub operands: List<RawCand>,
    pub operators: Seldom<Position>,
}

/// Comparisons with AND between any two.
#[cycle(tree)]
#[derive(Drop)]
pub struct RawCand {
    pub operands: List<RawCmp>,
    pub operators: Seldom<Position>,
}

/// A comparison.
#[cycle(tree)]
#[derive(Drop)]
pub struct RawCmp {
    pub left: Boxed<RawSum>,
    pub operator: RawCompareSign,
    pub right: Boxed<RawSum>,
}

/// Terms with `+` or `-` between any two. A sign at the front belongs to the first term.
#[cycle(tree)]
#[derive(Drop)]
pub struct RawSum {
    pub sign: Option<RawSign>,
    pub operands: List<RawTerm>,
    pub operators: Seldom<RawSign>,
}

/// Factors with `*` or `/` between any two.
#[cycle(tree)]
#[derive(Drop)]
pub struct RawTerm {
    pub operands: List<RawDiffer>,
    pub operators: Seldom<RawFactorSign>,
}

/// Operands with DIFFER between any two.
#[cycle(tree)]
#[derive(Drop)]
pub struct RawDiffer {
    pub operands: List<RawUnion>,
    pub operators: Seldom<Position>,
}

/// Operands with UNION between any two.
#[cycle(tree)]
#[derive(Drop)]
pub struct RawUnion {
    pub operands: List<RawMask>,
    pub operators: Seldom<Position>,
}

/// Operands with MASK between any two.
#[cycle(tree)]
#[derive(Drop)]
pub struct RawMask {
    pub operands: List<RawPrim>,
    pub operators: Seldom<Position>,
}

/// `BITS [ int , int ]` before a primary.
#[derive(Clone, Copy)]
pub struct RawBits {
    pub at: Position,
    pub size: RawSize,
}

/// A primary behind its BITS.
#[cycle(tree)]
#[derive(Drop)]
pub struct RawPrim {
    pub bits: List<RawBits>,
    pub primary: RawPrimary,
}

/// A primary without BITS.
#[cycle(tree)]
#[derive(Drop)]
pub enum RawPrimary {
    Number(RawNumber),
    Octal(RawOctal),
    Literal(RawLiteral),
    /// A string: its characters.
    Text(Position, List<u8>),
    /// `LOCATION ( ref )`.
    Location(Position, Boxed<RawRef>),
    /// `type ( expr )`.
    Forced(Boxed<RawType>, Boxed<RawExpr>),
    /// `( expr )`, where the bracket is needed.
    Bracket(Position, Boxed<RawExpr>),
    /// A reference, or the name of a procedure without arguments.
    Ref(RawRef),
    /// `name ( expr , .. )`, with one argument at least.
    Call(Boxed<RawName>, List<RawExpr>),
}

/// A reference: `name`, `name [ expr ]`, `name [ expr , expr ]` or `[ expr ]`.
#[cycle(tree)]
#[derive(Drop)]
pub enum RawRef {
    Name(RawName),
    One(RawName, Boxed<RawExpr>),
    Two(Boxed<RawName>, Boxed<RawExpr>, Boxed<RawExpr>),
    Bare(Position, Boxed<RawExpr>),
}
