//! Checks of the types of texts: what each rule takes and refuses at its limits, told by hand.
mod outcome;
mod texts;
