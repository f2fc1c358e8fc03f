//! Trees of communicators and segments.
use crate::items::{RawBase, RawBounds, RawData, RawTable};
use crate::leaf::{Position, RawInt, RawName, RawSize, RawType};
use crate::statement::{RawBlock, RawPtag};
use cw_word::{List, Name};

/// What a parameter that is no procedure is specified as.
#[derive(Clone, Copy)]
pub enum RawIps {
    Value(Position, RawType),
    Location(Position, RawType),
    Array(RawType),
    Table(Position, RawSize),
    Label(Position),
    Switch(Position),
}

/// What a parameter is specified as.
#[derive(Drop)]
pub enum RawPs {
    Plain(RawIps),
    /// A procedure: the type of its answer, where it has one, the position of PROCEDURE, and what it takes.
    Proc(Option<RawType>, Position, List<RawIps>),
}

/// The specification of a procedure.
#[derive(Drop)]
pub struct RawSpec {
    pub answer: Option<RawType>,
    pub tag: RawPtag,
    pub name: RawName,
    pub params: List<RawPs>,
}

/// What COMMON lists.
#[derive(Drop)]
pub enum RawCitem {
    Data(RawData),
    Overlay(Position, RawBase, RawData),
    Label(Position, List<RawName>),
    Switch(Position, List<RawName>),
    Spec(RawSpec),
}

/// What ABSOLUTE lists, with its address.
#[derive(Drop)]
pub enum RawAitem {
    Single(RawType, RawName, RawInt),
    Array(RawType, RawName, RawBounds, RawInt),
    Table(RawTable, RawInt),
}

/// A communicator.
#[derive(Drop)]
pub enum RawComm {
    Common(Position, List<RawCitem>),
    Library(Position, List<RawSpec>),
    Absolute(Position, List<RawAitem>),
}

/// The tree of a text: the segment's name, its communicators, its outermost block, and how many tokens there are.
#[derive(Drop)]
pub struct Raw {
    pub name: Name,
    pub comms: List<RawComm>,
    pub block: RawBlock,
    pub tokens: u32,
}
