//! Zero-copy object file reader.
#![tactic(auto)]

mod building;
mod descriptor;
mod fault;
mod front;
mod header;
pub mod laws;
mod payload;
mod records;
mod view;

pub use building::{DescFault, descriptors_of, read_desc};
pub use fault::ObjFault;
pub use header::{HEADER, HeaderFault, version_behind};
pub use payload::{
    read_body, read_definition, read_family, read_item, read_preset, read_reloc, read_statement,
};
pub use records::Records;
pub use view::View;
