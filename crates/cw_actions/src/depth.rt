//! What the action `depth` writes: the depth report of units.

pub mod laws;
mod telling;
mod text;

pub(crate) use telling::depth_units;
