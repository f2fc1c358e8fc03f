//! When the object of a unit can be written: laws alone.
//!
//! The orders of a unit that is stored and built, and whose numbers are in range, have code (`Coded`). Where the code is not too long and the
//! unit is ready, the code and the records behind it are in the format of objects (`Back`). So are those before it, by what is asked of the
//! items of the unit (`Front`).
#![tactic(auto)]

pub mod laws;
