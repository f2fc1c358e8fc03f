//! Calls: their arguments, their beginning and their end.
use crate::machine::{Activation, Control, DEPTH, End, FRAMES, Machine, Operand, size, sizes};
use cw_order::Order;
use cw_unit::layout::Limits;
use cw_unit::unit::Def;

/// The words of an activation's record.
const RECORD: usize = 6;

impl<'a> Machine<'a> {
    // The argument that so many words of arguments follow.
    fn argument(&self, words: u8) -> Option<Operand> {
        let last = self.activations.last()?;
        let arguments = self.operands.get(last.arguments..last.floor)?;
        let mut left = sizes(arguments);
        for operand in arguments {
            left = left.wrapping_sub(size(*operand));
            if left == usize::from(words) {
                return Some(*operand);
            }
        }
        None
    }

    pub(crate) fn control(&self, words: u8) -> Option<Control> {
        match self.argument(words) {
            Some(Operand::Held(control)) => Some(control),
            _ => None,
        }
    }

    fn word_argument(&mut self, words: u8) -> i16 {
        if let Some(Operand::Word(word)) = self.argument(words) {
            return word;
        }
        self.end_with(End::Stuck);
        0
    }

    // What a descriptor names, as it is named here.
    pub(crate) fn common(&self, descriptor: u16) -> Option<Control> {
        let owner = self.activations.len();
        match self.program.defined(self.segment, descriptor)? {
            (segment, Def::Label(label)) => Some(Control::Label(segment, label, owner)),
            (segment, Def::Switch(switch)) => Some(Control::Switch(segment, switch, owner)),
            (segment, Def::Proc(procedure)) => Some(Control::Procedure(segment, procedure)),
        }
    }

    // Control arguments.
    pub(crate) fn name(&mut self, order: &Order) {
        let owner = self.activations.len();
        let control = match order {
            Order::LabelOut(label) => Some(Control::Label(self.segment, *label, owner)),
            Order::SwitchOut(switch) => Some(Control::Switch(self.segment, *switch, owner)),
            Order::ProcOut(procedure) => Some(Control::Procedure(self.segment, *procedure)),
            Order::LabelCommon(descriptor)
            | Order::SwitchCommon(descriptor)
            | Order::ProcCommon(descriptor) => self.common(*descriptor),
            Order::SpecialOut(words) => self.control(*words),
            _ => return self.jump(order),
        };
        match control {
            Some(control) => self.push(Operand::Held(control)),
            None => self.end_with(End::Stuck),
        }
    }

    // Calls, their beginning and their end.
    pub(crate) fn call_or_return(&mut self, order: &Order) {
        match order {
            Order::CallProc { procedure, .. } => {
                self.call(Some(Control::Procedure(self.segment, *procedure)));
            }
            Order::CallCommon { descriptor, .. } => self.call(self.common(*descriptor)),
            Order::CallSpecial { place, .. } => self.call(self.control(*place)),
            Order::Enter(size) => self.enter(u32::from(*size)),
            Order::Bind {
                argument,
                family,
                offset,
            } => {
                let word = self.word_argument(*argument);
                self.store(i64::from(self.home(*family, *offset)), word);
            }
            Order::BindFrame { argument, offset } => {
                let word = self.word_argument(*argument);
                let address = self.frame_home(*offset);
                self.store(i64::from(address), word);
            }
            Order::Return { arguments, answers } => {
                self.come_back(usize::from(*arguments), *answers);
            }
            _ => self.end_with(End::Stuck),
        }
    }

    fn call(&mut self, control: Option<Control>) {
        let Some(Control::Procedure(segment, procedure)) = control else {
            return self.end_with(End::Stuck);
        };
        match self.program.procedure(segment, procedure) {
            Some((place, count)) => {
                self.activate(count);
                self.segment = segment;
                self.place = place;
            }
            None => self.end_with(End::Stuck),
        }
    }

    // A call with so many arguments.
    fn activate(&mut self, count: usize) {
        let floor = self.operands.len();
        let arguments = floor.wrapping_sub(count);
        if floor < self.floor().wrapping_add(count) {
            return self.end_with(End::Stuck);
        }
        let limits = self.program.limits;
        let top = match self.activations.last() {
            Some(last) => last.top,
            None => limits.area.wrapping_sub(limits.frames),
        };
        let activation = Activation {
            segment: self.segment,
            place: self.place,
            line: self.line,
            arguments,
            floor,
            below: self.stack_words().wrapping_add(RECORD),
            is_entered: false,
            base: top,
            top,
        };
        if self.activations.push(activation).is_err() {
            self.end_with(End::NoMemory);
        }
    }

    // Begins the last call; a stop is the caller's.
    fn enter(&mut self, size: u32) {
        let calls = self.activations.len();
        let limits = self.program.limits;
        let end = match self.activations.last_mut() {
            Some(last) => begun(last, size, calls, limits),
            None => Some(End::Stuck),
        };
        if let Some(end) = end {
            self.end_with(end);
        }
    }

    fn come_back(&mut self, arguments: usize, answers: bool) {
        let answer = if answers { self.take() } else { 0 };
        let Some(last) = self.activations.pop() else {
            return self.end_with(End::Stuck);
        };
        let taken = self.operands.get(last.arguments..last.floor);
        if sizes(taken.unwrap_or(&[])) != arguments {
            self.end_with(End::Stuck);
        }
        self.operands.truncate(last.arguments);
        self.segment = last.segment;
        self.place = last.place;
        if answers {
            self.put(answer);
        }
    }
}

// Begins a call, the last of so many; or the end, where it cannot begin.
fn begun(call: &mut Activation, size: u32, calls: usize, limits: Limits) -> Option<End> {
    let caller = call.segment.wrapping_add(1);
    let top = call.base.wrapping_add(size);
    if call.is_entered {
        return Some(End::Stuck);
    }
    if calls > usize::from(limits.depth) {
        return Some(End::Stopped(DEPTH, caller, call.line));
    }
    if top > limits.area {
        return Some(End::Stopped(FRAMES, caller, call.line));
    }
    call.is_entered = true;
    call.top = top;
    None
}
