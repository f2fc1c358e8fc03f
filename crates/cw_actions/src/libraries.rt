//! The actions of libraries: `lib` writes one, `link` links objects and the members of libraries that they need.

mod archiving;
pub mod laws;
mod linking;

pub use archiving::make_library;
pub use linking::link;
