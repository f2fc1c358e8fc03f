//! How each order wants the accumulator, and how it leaves it; and the line that it names.
use cw_order::Order;

// Whether the top operand is in the accumulator behind an order that wants it so, or free; none where it is the other way.
fn from(wanted: bool, after: bool, loaded: bool) -> Option<bool> {
    if wanted == loaded { Some(after) } else { None }
}

/// Whether the top operand is in the accumulator behind an order; none where the order wants it the other way.
pub(crate) fn loaded_after(order: &Order, loaded: bool) -> Option<bool> {
    match order {
        Order::Jump(_) | Order::Mark | Order::Start(_) => Some(loaded),
        Order::Const(_) | Order::Home { .. } | Order::FrameHome(_) | Order::ReadByte => {
            from(false, true, loaded)
        }
        Order::Save
        | Order::Store
        | Order::StorePart { .. }
        | Order::Drop
        | Order::SetVariable(_)
        | Order::AddStep(_)
        | Order::JumpIf { .. }
        | Order::Exhausted(_)
        | Order::LoopWay(_)
        | Order::SwitchWay { .. }
        | Order::GoSwitch { .. }
        | Order::GoSwitchCommon { .. }
        | Order::GoSwitchSpecial { .. } => from(true, false, loaded),
        Order::LabelOut(_)
        | Order::LabelCommon(_)
        | Order::SwitchOut(_)
        | Order::SwitchCommon(_)
        | Order::ProcOut(_)
        | Order::ProcCommon(_)
        | Order::SpecialOut(_)
        | Order::GoMain(_)
        | Order::GoCommon(_)
        | Order::GoSpecial(_)
        | Order::CallProc { .. }
        | Order::CallCommon { .. }
        | Order::CallSpecial { .. }
        | Order::WriteByte
        | Order::Enter(_)
        | Order::Bind { .. }
        | Order::BindFrame { .. }
        | Order::NextStep { .. }
        | Order::NextBody => from(false, false, loaded),
        Order::Return { answers, .. } => from(*answers, *answers, loaded),
        _ => from(true, true, loaded),
    }
}

/// The line that an order names; 0 where it names none.
pub(crate) fn line_of(order: &Order) -> u16 {
    match order {
        Order::Rescale { line, .. }
        | Order::Add(line)
        | Order::Sub(line)
        | Order::Neg(line)
        | Order::Mul { line, .. }
        | Order::Div { line, .. }
        | Order::IndexLess { line, .. }
        | Order::Element { line, .. }
        | Order::ElementOfTwo { line, .. }
        | Order::Entry { line, .. }
        | Order::InArea(line)
        | Order::InBounds { line, .. }
        | Order::SetVariable(line)
        | Order::AddStep(line)
        | Order::PutVariable(line)
        | Order::NextStep { line, .. }
        | Order::SwitchWay { line, .. }
        | Order::GoSwitch { line, .. }
        | Order::GoSwitchCommon { line, .. }
        | Order::GoSwitchSpecial { line, .. }
        | Order::CallProc { line, .. }
        | Order::CallCommon { line, .. }
        | Order::CallSpecial { line, .. }
        | Order::Start(line) => *line,
        _ => 0,
    }
}
