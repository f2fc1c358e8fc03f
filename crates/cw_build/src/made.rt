//! What a unit is compiled to.
use cw_unit::layout::Layout;
use cw_word::List;

/// The layout of a unit, and its object.
#[derive(Drop)]
pub struct Made {
    pub layout: Layout,
    pub object: List<u8>,
}
