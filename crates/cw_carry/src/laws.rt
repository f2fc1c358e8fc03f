//! The laws, by what they speak of: each is a function without a body, whose contract is the law.
pub mod runs;
