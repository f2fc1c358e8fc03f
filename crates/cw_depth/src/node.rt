//! The nodes of a program.

/// The body of a segment, or a procedure by its segment and its number there. Segments count from 0.
#[derive(Clone, Copy)]
pub enum Node {
    Body(u8),
    Procedure(u8, u16),
}
