//! Laws of the selection.
ghost use Rattle.cw_pick.specs.Selection.{HasOneSelection};

/// Objects and members have one selection.
pub fn one_selection()
    ensures { HasOneSelection }
{}
