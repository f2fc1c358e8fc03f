//! The laws, by what they speak of: each is a function without a body, whose contract is the law.
pub mod expressions;
pub mod plain;
pub mod shorter;
pub mod texts;
pub mod trees;
