//! Checks of the names of texts: to which declaration each use refers, or the first fault, told by hand.
mod many;
mod outcome;
mod texts;
