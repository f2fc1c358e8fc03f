//! Checks of the 8086 crates against values from outside: encodings, arithmetic, short programs.
#![tactic(auto)]

#[cfg(test)]
mod tests;
