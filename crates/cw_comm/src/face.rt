//! What a segment shows to the others.
use cw_unit::descriptor::Desc;
use cw_word::{List, Name};

/// A segment's name, its descriptors, and which of them it defines, by rising number.
#[derive(Drop)]
pub struct Face {
    pub name: Name,
    pub descs: List<Desc>,
    pub defined: List<u16>,
}

/// What segments agree on: the names that they list, in order of the first listing; for each segment and each of its
/// descriptors the place of its name there; and for each name the segment that defines it, from 1.
#[derive(Drop)]
pub struct Agreed {
    pub names: List<Name>,
    pub of: List<List<usize>>,
    pub defined: List<Option<u8>>,
}
