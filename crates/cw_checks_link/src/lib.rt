//! Checks of linking and of what it makes: object files that are spelled by hand, with their images and their faults, and damaged files; and HEX
//! texts, by hand from the form.
#![tactic(auto)]

#[cfg(test)]
mod damaged;
#[cfg(test)]
mod hex;
#[cfg(test)]
mod objects;
