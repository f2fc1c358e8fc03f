//! Instruction selection: the relocatable 8086 code of orders, and the run-time library.
#![tactic(auto)]

mod assembling;
mod blocks;
mod finding;
pub mod instructions;
pub mod laws;
pub mod library;
mod names;
mod operands;
mod pieces;
mod reach;
mod rows;

pub use assembling::{Assembly, Code};
pub use blocks::{Block, Bounded, Bounds, Element, Form, Simple, Test, Use, block_in, orders_left};
pub use library::{base_code, base_entry};
pub use names::{LANDING, Names, SEGMENT_WORD, own};
pub use pieces::{Coded, Limit, Target};
pub use reach::{Call, Reach, call_after, call_for, check_of, is_checked};
pub use rows::{Column, Row};
