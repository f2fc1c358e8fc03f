//! What the action `code` writes: the listing of the code of texts, which are kept beside what they are compiled to.

mod coding;
pub mod reading;
mod telling;

pub(crate) use reading::read_sources;
pub(crate) use telling::code_units;
