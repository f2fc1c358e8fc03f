//! Intel HEX writer and loader.
#![tactic(auto)]

mod fault;
pub mod laws;
mod line;
mod reading;
mod writing;

pub use fault::HexFault;
pub use reading::load_hex;
pub use writing::write_hex;
