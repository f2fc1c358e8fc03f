//! Jumps through a switch of the unit.
ghost use Rattle.std.specs.Prelude.{◌≡◌, IfOk};
ghost use Rattle.cw_gen_unit.specs.ReferenceStatements.{goal_order, plain_mark as spec_plain_mark, plain_marks as spec_plain_marks};
ghost use Rattle.cw_gen_unit.specs.ReferenceStatements.{owned_marks as spec_owned_marks, switch_order as spec_switch_order};

use crate::statements::{label_mark, own_order};
use cw_order::Order;
use cw_unit::unit::{Goal, Unit};
use cw_word::{List, NoMemory};
use std::alloc::Global;

/// How many labels a switch may have that is gone through by a table in the body.
const MOST_LABELS: usize = 32;

/// The mark of a goal to which a plain jump goes.
fn plain_mark(unit: &Unit, who: Option<u16>, goal: Goal) -> Result<Option<u32>, NoMemory>
    ensures { IfOk result (λ mark. mark ≡ spec_plain_mark (goal_order unit.now who goal)) }
{
    match goal {
        Goal::Own(label) => {
            let mark = label_mark(unit.defined.as_slice().len(), label)?;
            match own_order(unit.labels.as_slice(), who, label, mark) {
                Order::Jump(mark) => Ok(Some(mark)),
                _ => Ok(None),
            }
        }
        Goal::Common(_) => Ok(None),
    }
}

/// The marks of goals, where a plain jump goes to each of them.
fn plain_marks(
    alloc: Global,
    unit: &Unit,
    who: Option<u16>,
    goals: &[Goal],
) -> Result<Option<List<u32>>, NoMemory>
    ensures { IfOk result (λ marks. marks ≡ spec_plain_marks unit.now who goals.now) }
{
    let mut marks = List::new(alloc);
    for goal in goals {
        match plain_mark(unit, who, *goal)? {
            Some(mark) => marks.push(mark)?,
            None => return Ok(None),
        }
    }
    Ok(Some(marks))
}

/// The marks of the labels of a switch, where the body owns them all and a table has room for them.
pub fn owned_marks(
    alloc: Global,
    unit: &Unit,
    who: Option<u16>,
    switch: u32,
) -> Result<Option<List<u32>>, NoMemory>
    ensures { IfOk result (λ marks. marks ≡ spec_owned_marks unit.now who switch) }
{
    match unit.switches.as_slice().get(switch as usize) {
        None => Ok(None),
        Some(found) => {
            let goals = found.list.as_slice();
            if 0 < goals.len() && goals.len() <= MOST_LABELS {
                plain_marks(alloc, unit, who, goals)
            } else {
                Ok(None)
            }
        }
    }
}

/// The order that goes through a switch by these marks, or by its list.
pub fn switch_order(marks: Option<List<u32>>, switch: u32, line: u16) -> Order
    ensures { result ≡ spec_switch_order marks switch line }
{
    match marks {
        None => Order::GoSwitch { switch, line },
        Some(marks) => Order::SwitchWay { marks, line },
    }
}
