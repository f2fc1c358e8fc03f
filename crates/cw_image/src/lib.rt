//! Executable image format.
#![tactic(auto)]

mod fault;
mod image;
pub mod laws;
mod loading;
mod reading;
mod writing;

pub use fault::ImageFault;
pub use image::Image;
pub use loading::load;
pub use reading::read_image;
pub use writing::write_image;
