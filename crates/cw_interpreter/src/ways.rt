//! Orders that go on elsewhere: within a body, in loops, to labels and through switches.
use crate::machine::{Control, End, Machine, OVERFLOW, SWITCH};
use crate::words::{holds, is_past};
use cw_order::{Order, Place};
use cw_unit::unit::{Def, Goal};
use cw_word::List;

impl<'a> Machine<'a> {
    // Ways within a body.
    pub(crate) fn go(&mut self, order: &Order) {
        match order {
            Order::Mark | Order::Start(_) => {}
            Order::Jump(mark) => self.go_to_mark(*mark),
            Order::JumpIf { comparator, mark } => {
                let y = self.take();
                let x = self.take();
                if holds(*comparator, x, y) {
                    self.go_to_mark(*mark);
                }
            }
            Order::NextBody => self.next_body(),
            _ => self.turn(order),
        }
    }

    // Orders on the words of loops.
    fn turn(&mut self, order: &Order) {
        match order {
            Order::SetVariable(_) => {
                let words = self.take_number();
                let value = self.take();
                let variable = self.variable(words);
                self.store(variable, value);
            }
            Order::AddStep(_) => {
                let words = self.take_number();
                self.add_step(words);
            }
            Order::PutVariable(_) => {
                let words = self.take();
                let variable = self.variable(i64::from(words));
                let value = self.word_at(variable);
                self.put(value);
                self.put(words);
            }
            Order::Exhausted(mark) => self.test_turn(*mark),
            Order::NextStep { looped, mark, .. } => self.next_step(*looped, *mark),
            Order::LoopWay(marks) => {
                if let Some(mark) = self.mark_of_number(marks) {
                    self.go_to_mark(mark);
                }
            }
            Order::SwitchWay { marks, .. } => match self.mark_of_number(marks) {
                Some(mark) => self.go_to_mark(mark),
                None => self.stop(SWITCH),
            },
            _ => self.name(order),
        }
    }

    // The address of the control variable of a loop.
    fn variable(&mut self, words: i64) -> i64 {
        let address = self.word_at(words);
        self.in_area(address)
    }

    fn add_step(&mut self, words: i64) {
        let variable = self.variable(words);
        let step = i64::from(self.word_at(words.wrapping_add(1)));
        let sum = i64::from(self.word_at(variable)).wrapping_add(step);
        match i16::try_from(sum) {
            Ok(sum) => self.store(variable, sum),
            Err(_) => self.stop(OVERFLOW),
        }
    }

    fn test_turn(&mut self, mark: u32) {
        let words = self.take_number();
        let variable = self.take();
        let step = self.word_at(words.wrapping_add(1));
        let limit = self.word_at(words.wrapping_add(2));
        if is_past(step, variable, limit) {
            self.go_to_mark(mark);
        }
    }

    // The address of the words of a loop.
    fn words_of(&mut self, looped: Place) -> i64 {
        let address = match looped {
            Place::Word { family, offset } => self.home(family, offset),
            Place::Frame(offset) => self.frame_home(offset),
        };
        i64::from(address.cast_unsigned())
    }

    // The step and the test of the one STEP element of a loop: what they store may be the loop's own words, which are read again.
    fn next_step(&mut self, looped: Place, mark: u32) {
        let words = self.words_of(looped);
        if self.word_at(words.wrapping_add(3)) == 1 {
            self.add_step(words);
            let address = self.variable(words);
            let variable = self.word_at(address);
            let step = self.word_at(words.wrapping_add(1));
            let limit = self.word_at(words.wrapping_add(2));
            if !is_past(step, variable, limit) {
                self.go_to_mark(mark);
            }
        }
    }

    // The mark of the number that is taken, from 1; none where it has none.
    fn mark_of_number(&mut self, marks: &List<u32>) -> Option<u32> {
        let number = self.take_number();
        let index = usize::try_from(number.wrapping_sub(1)).unwrap_or(usize::MAX);
        marks.as_slice().get(index).copied()
    }

    fn go_to_mark(&mut self, mark: u32) {
        match self.program.mark(self.segment, mark) {
            Some(place) => self.place = place,
            None => self.end_with(End::Stuck),
        }
    }

    fn next_body(&mut self) {
        if !self.activations.is_empty() {
            self.end_with(End::Stuck);
        }
        let next = self.segment.wrapping_add(1);
        match self.program.segments.get(next) {
            Some(segment) => {
                self.segment = next;
                self.place = segment.orders.entry as usize;
                self.operands.clear();
            }
            None => self.end_with(End::Ended),
        }
    }

    // Jumps.
    pub(crate) fn jump(&mut self, order: &Order) {
        let owner = self.activations.len();
        match order {
            Order::GoMain(mark) => self.leave_for(self.segment, *mark, 0),
            Order::GoCommon(descriptor) | Order::GoSwitchCommon { descriptor, .. } => {
                self.go_to(self.common(*descriptor));
            }
            Order::GoSpecial(place) | Order::GoSwitchSpecial { place, .. } => {
                self.go_to(self.control(*place));
            }
            Order::GoSwitch { switch, .. } => self.go_through(self.segment, *switch, owner),
            _ => self.call_or_return(order),
        }
    }

    fn go_to(&mut self, control: Option<Control>) {
        match control {
            Some(Control::Label(segment, label, owner)) => self.go_to_label(segment, label, owner),
            Some(Control::Switch(segment, switch, owner)) => {
                self.go_through(segment, switch, owner);
            }
            _ => self.end_with(End::Stuck),
        }
    }

    fn go_to_label(&mut self, segment: usize, label: u32, owner: usize) {
        match self.program.label(segment, label) {
            Some(found) => {
                let kept = if found.in_procedure { owner } else { 0 };
                self.leave_for(segment, found.mark, kept);
            }
            None => self.end_with(End::Stuck),
        }
    }

    fn go_through(&mut self, segment: usize, switch: u32, owner: usize) {
        let program = self.program;
        let number = self.take_number();
        let index = usize::try_from(number.wrapping_sub(1)).unwrap_or(usize::MAX);
        match program.switch(segment, switch) {
            Some(goals) => match goals.get(index) {
                Some(goal) => self.go_to_goal(segment, *goal, owner),
                None => self.stop(SWITCH),
            },
            None => self.end_with(End::Stuck),
        }
    }

    fn go_to_goal(&mut self, segment: usize, goal: Goal, owner: usize) {
        match goal {
            Goal::Own(label) => self.go_to_label(segment, label, owner),
            Goal::Common(descriptor) => match self.program.defined(segment, descriptor) {
                Some((segment, Def::Label(label))) => self.go_to_label(segment, label, owner),
                _ => self.end_with(End::Stuck),
            },
        }
    }

    // Goes on at a mark with the first so many activations and no operands.
    fn leave_for(&mut self, segment: usize, mark: u32, kept: usize) {
        self.segment = segment;
        self.go_to_mark(mark);
        self.activations.truncate(kept);
        let floor = self.floor();
        self.operands.truncate(floor);
    }
}
