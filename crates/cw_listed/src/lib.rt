//! What the listing of a program shows of the code of its segments, and of its image: laws alone.
//!
//! Words of data stand behind calls of the library exactly where the listing takes them to be. So it shows each piece of the code as what it is.
#![tactic(auto)]

pub mod laws;
