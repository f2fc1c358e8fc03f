//! The assembler: from the orders of a unit to the code of its segment.
#![tactic(auto)]

mod arithmetic;
mod assembling;
mod blocks;
mod calling;
mod checks;
mod draft;
mod indexes;
mod jumping;
mod loops;
mod named;
mod noted;
mod orders;
mod parts;
mod places;
mod rows;
mod sizes;
mod words;

pub use assembling::assemble;
