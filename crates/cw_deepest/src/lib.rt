//! The depth report is a bound of every run: laws alone.
//!
//! The active calls of a run are a chain of the graph of calls, and each procedure that a parameter holds stands as an argument somewhere and has
//! the parameter's specification; so no run of a program whose calls fit is deeper than its longest chain (`Programs`). Units that are built
//! and agree, each of which fits by what its descriptors say, are such a program (`Linked`).
#![tactic(auto)]

pub mod laws;
