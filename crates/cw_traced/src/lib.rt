//! What a run that is watched reports of the program whose image runs: laws alone.
//!
//! The code of a unit tells the lines of the statements of its bodies, in order (`Lines`), and the statement records of its object are these. So
//! the places that are watched for a stop are those of the statements at its line, and the reports of a run are one for each statement that
//! the source begins there (`Places`).
#![tactic(auto)]

pub mod laws;
