//! The action `big`: a large program is made, compiled, linked and run.

mod making;
mod running;

pub use running::big;
