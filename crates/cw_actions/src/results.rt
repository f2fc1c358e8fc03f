//! Actions that run nothing: `map`, `depth`, `code` and `list` write a text to `out`, `compile`, `migrate` and `hex` a file.

mod filing;
mod first;
pub mod laws;
mod output;
mod saving;
mod telling;
mod unlinking;

pub use filing::{compile, hex, migrate};
pub(crate) use first::first_name;
pub use output::write_text;
pub use saving::save;
pub use telling::{code_files, depth_files, map_files, show};
pub use unlinking::unlinked;
