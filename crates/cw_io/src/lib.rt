//! The outside of the program as traits: what is read, what is written, and the files by name, each with a count of what went wrong; and versions of
//! these in memory.
#![tactic(auto)]

pub mod laws;
mod mem_file;
mod mem_sink;
mod mem_source;
mod mem_store;
mod piece;
mod read;
mod schedule;
mod sink;
mod source;
mod store;

pub use mem_file::MemFile;
pub use mem_sink::MemSink;
pub use mem_source::MemSource;
pub use mem_store::MemStore;
pub use read::{FileFault, read_file};
pub use sink::Sink;
pub use source::{Failed, Source};
pub use store::{Store, StoreFault};
