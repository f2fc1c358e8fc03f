//! The laws, by what they speak of: each is a function without a body, whose contract is the law.
pub mod expressions;
pub mod names;
pub mod statements;
pub mod storage;
pub mod texts;
pub mod trees;
pub mod units;
