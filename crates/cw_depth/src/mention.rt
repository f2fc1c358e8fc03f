//! What a body mentions of procedures.

/// A call of a procedure of the unit's own, of that of a descriptor or of a procedure parameter; or a procedure of the unit's own or of
/// a descriptor that stands as an argument.
#[derive(Clone, Copy)]
pub enum Mention {
    Own(u16),
    Common(u16),
    Parameter(u8),
    HandedOwn(u16),
    HandedCommon(u16),
}
