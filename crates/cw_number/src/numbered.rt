//! What a declared name is in the unit.

/// What the unit has for a declaration, a string or a FOR, found by the token of the declared name, of the string or of the FOR.
/// Items, labels, switches, procedures and descriptors count from 0 in the unit's lists, the control parameters of a procedure from 0
/// in order of the text.
#[derive(Clone, Copy)]
pub enum Numbered {
    Item(u32),
    /// A label of the unit's own, and one that the communicators list and the text does not set.
    Label(u32),
    CommonLabel(u16),
    Switch(u32),
    CommonSwitch(u16),
    Proc(u16),
    CommonProc(u16),
    /// A parameter that is a label, a switch or a procedure.
    Control(u8),
    ReadByte,
    WriteByte,
}
