//! Marking members as picked.
ghost use Rattle.std.specs.Prelude.{nat_eq, OnOk};
ghost use Rattle.cw_pick.specs.Picking.{is_in};
ghost use Rattle.cw_pick.specs.Working.{Marks};

use cw_word::NoMemory;

/// Which members are picked, and which of them have not been followed.
#[derive(Drop)]
pub(crate) struct Work {
    pub picked: Vec<bool>,
    pub todo: Vec<usize>,
}

// Picks a member, if it is there and not picked yet.
fn mark(work: &mut Work, member: usize) -> Result<(), NoMemory>
    ensures { OnOk result (Marks (λ k. nat_eq k member) work.old work.new) }
{
    if member < work.picked.len() && !work.picked[member] {
        work.picked[member] = true;
        work.todo.push(member).map_err(|_| NoMemory)?;
    }
    Ok(())
}

/// Picks each of these members that is not picked yet.
pub(crate) fn mark_all(work: &mut Work, members: &[usize]) -> Result<(), NoMemory>
    ensures { OnOk result (Marks (is_in members.now) work.old work.new) }
{
    for member in members {
        mark(work, *member)?;
    }
    Ok(())
}
