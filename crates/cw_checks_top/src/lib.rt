//! Checks of the command over memory: what it writes, what it tells and how it ends.
#![tactic(auto)]

#[cfg(test)]
mod actions;
#[cfg(test)]
mod command;
#[cfg(test)]
mod programs;
#[cfg(test)]
mod strange;
