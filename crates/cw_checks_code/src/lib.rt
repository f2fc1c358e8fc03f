//! Checks of orders and their code: programs on the interpreter of orders, and on the processor beside it; and lists of texts and objects, with where their
//! storage ends or their first fault.
#![tactic(auto)]

#[cfg(test)]
mod codes;
#[cfg(test)]
mod lists;
#[cfg(test)]
mod orders;
#[cfg(test)]
mod processor;
#[cfg(test)]
mod statements;
#[cfg(test)]
mod texts;
