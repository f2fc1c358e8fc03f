//! Programs of orders as texts.
//!
//! A text is a list of words with blanks between them; a word is a name with numbers behind it, each with a colon before it. Most
//! are orders, by the order's name and its numbers. A comparison is written as such, a part's sign as `s` or `u`, and the
//! answer of a Return as 1 or 0. The orders behind `Line:l` or `Start:l` have line l; those of a segment or a procedure before
//! that have line 0.
//! - `Mark:m` is the order at which mark m stands, and `End` is NextBody.
//! - `NextStep:f:o:m` is the step of a loop whose words begin at word o of family f, and `NextStepFrame:n:m` that of one at word n of
//!   the frame.
//! - `Proc:m:a` begins a procedure of a arguments, whose mark is m; procedures count from 0.
//! - `Label:m` is a label of the body at mark m, and `LabelIn:m` one of a procedure; labels count from 0.
//! - `Switch:l:..` is a switch of these labels; a descriptor's label has a `c` before its number.
//! - `Names:d:g:Label:l`, or Proc or Switch: descriptor d names that of segment g, from 0.
//! - `Segment` begins the next segment, and `Limits:area:frames:depth` sets the limits.
//!
//! Segment g has three storage families, at 100 g, 100 g + 10 and 100 g + 30.
use crate::segments::{Program, Segment};
use cw_order::{Comparator, LabelMark, Order, Orders, Place};
use cw_unit::layout::Limits;
use cw_unit::unit::{Def, Goal};
use cw_word::List;
use std::alloc::Global;
use std::mem;

const LIMITS: Limits = Limits {
    area: 1000,
    frames: 100,
    depth: 20,
};

/// A word: its name, what stands behind, and whether a number was asked for that does not stand there.
#[derive(Clone, Copy)]
struct Spelled<'a> {
    name: &'a str,
    numbers: &'a str,
    is_wrong: bool,
}

impl<'a> Spelled<'a> {
    fn of(word: &'a str) -> Spelled<'a> {
        let (name, numbers) = word.split_once(':').unwrap_or((word, ""));
        Spelled {
            name,
            numbers,
            is_wrong: false,
        }
    }

    fn part(&self, k: usize) -> &'a str {
        self.numbers.split(':').nth(k).unwrap_or("")
    }

    // What was asked for, where it is there; else this, and the word is wrong.
    fn known<T: Copy>(&mut self, found: Option<T>, otherwise: T) -> T {
        match found {
            Some(found) => found,
            None => {
                self.is_wrong = true;
                otherwise
            }
        }
    }

    fn byte(&mut self, k: usize) -> u8 {
        self.known(self.part(k).parse::<u8>().ok(), 0)
    }

    fn word(&mut self, k: usize) -> u16 {
        self.known(self.part(k).parse::<u16>().ok(), 0)
    }

    fn long(&mut self, k: usize) -> u32 {
        self.known(self.part(k).parse::<u32>().ok(), 0)
    }

    fn signed(&mut self, k: usize) -> i16 {
        self.known(self.part(k).parse::<i16>().ok(), 0)
    }

    fn scale(&mut self, k: usize) -> i8 {
        self.known(self.part(k).parse::<i8>().ok(), 0)
    }

    fn comparator(&mut self, k: usize) -> Comparator {
        self.known(comparator(self.part(k)), Comparator::Equal)
    }
}

fn comparator(text: &str) -> Option<Comparator> {
    match text {
        "<" => Some(Comparator::Less),
        "<=" => Some(Comparator::LessEqual),
        "=" => Some(Comparator::Equal),
        ">=" => Some(Comparator::GreaterEqual),
        ">" => Some(Comparator::Greater),
        "<>" => Some(Comparator::Unequal),
        _ => None,
    }
}

// Orders of a name alone.
fn bare(name: &str) -> Option<Order> {
    match name {
        "Save" => Some(Order::Save),
        "Load" => Some(Order::Load),
        "Store" => Some(Order::Store),
        "And" => Some(Order::And),
        "Or" => Some(Order::Or),
        "Xor" => Some(Order::Xor),
        "Less" => Some(Order::Less),
        "Drop" => Some(Order::Drop),
        "Mark" => Some(Order::Mark),
        "ReadByte" => Some(Order::ReadByte),
        "WriteByte" => Some(Order::WriteByte),
        "End" => Some(Order::NextBody),
        _ => None,
    }
}

// Orders of a name and a line alone.
fn lined(name: &str, line: u16) -> Option<Order> {
    match name {
        "Add" => Some(Order::Add(line)),
        "Sub" => Some(Order::Sub(line)),
        "Neg" => Some(Order::Neg(line)),
        "InArea" => Some(Order::InArea(line)),
        "SetVariable" => Some(Order::SetVariable(line)),
        "AddStep" => Some(Order::AddStep(line)),
        "PutVariable" => Some(Order::PutVariable(line)),
        _ => bare(name),
    }
}

// Orders with one number and a line.
fn of_number_lined(word: &mut Spelled<'_>, line: u16) -> Option<Order> {
    match word.name {
        "GoSwitchCommon" => Some(Order::GoSwitchCommon {
            descriptor: word.word(0),
            line,
        }),
        "CallProc" => Some(Order::CallProc {
            procedure: word.word(0),
            line,
        }),
        "CallCommon" => Some(Order::CallCommon {
            descriptor: word.word(0),
            line,
        }),
        "GoSwitch" => Some(Order::GoSwitch {
            switch: word.long(0),
            line,
        }),
        "GoSwitchSpecial" => Some(Order::GoSwitchSpecial {
            place: word.byte(0),
            line,
        }),
        "CallSpecial" => Some(Order::CallSpecial {
            place: word.byte(0),
            line,
        }),
        _ => lined(word.name, line),
    }
}

// Orders with one number.
fn of_number(word: &mut Spelled<'_>, line: u16) -> Option<Order> {
    match word.name {
        "Const" => Some(Order::Const(word.word(0))),
        "FrameHome" => Some(Order::FrameHome(word.word(0))),
        "LabelCommon" => Some(Order::LabelCommon(word.word(0))),
        "SwitchCommon" => Some(Order::SwitchCommon(word.word(0))),
        "ProcOut" => Some(Order::ProcOut(word.word(0))),
        "ProcCommon" => Some(Order::ProcCommon(word.word(0))),
        "GoCommon" => Some(Order::GoCommon(word.word(0))),
        "Enter" => Some(Order::Enter(word.word(0))),
        "Start" => Some(Order::Start(word.word(0))),
        "SpecialOut" => Some(Order::SpecialOut(word.byte(0))),
        "GoSpecial" => Some(Order::GoSpecial(word.byte(0))),
        "Jump" => Some(Order::Jump(word.long(0))),
        "Exhausted" => Some(Order::Exhausted(word.long(0))),
        "LabelOut" => Some(Order::LabelOut(word.long(0))),
        "SwitchOut" => Some(Order::SwitchOut(word.long(0))),
        "GoMain" => Some(Order::GoMain(word.long(0))),
        _ => of_number_lined(word, line),
    }
}

// Orders of parts and of storage.
fn of_parts(word: &mut Spelled<'_>, line: u16) -> Option<Order> {
    match word.name {
        "Home" => Some(Order::Home {
            family: word.word(0),
            offset: word.word(1),
        }),
        "LoadPart" => Some(Order::LoadPart {
            t: word.byte(0),
            b: word.byte(1),
            signed: word.part(2) == "s",
        }),
        "StorePart" => Some(Order::StorePart {
            t: word.byte(0),
            b: word.byte(1),
        }),
        "Take" => Some(Order::Take {
            t: word.byte(0),
            b: word.byte(1),
        }),
        "Bind" => Some(Order::Bind {
            argument: word.byte(0),
            family: word.word(1),
            offset: word.word(2),
        }),
        "BindFrame" => Some(Order::BindFrame {
            argument: word.byte(0),
            offset: word.word(1),
        }),
        _ => of_signs(word, line),
    }
}

// Orders with other numbers.
fn of_signs(word: &mut Spelled<'_>, line: u16) -> Option<Order> {
    match word.name {
        "Rescale" => Some(Order::Rescale {
            from: word.byte(0),
            to: word.byte(1),
            line,
        }),
        "Mul" => Some(Order::Mul {
            power: word.scale(0),
            line,
        }),
        "Div" => Some(Order::Div {
            power: word.scale(0),
            line,
        }),
        "IndexLess" => Some(Order::IndexLess {
            lower: word.signed(0),
            line,
        }),
        "InBounds" => Some(Order::InBounds {
            lower: word.signed(0),
            upper: word.signed(1),
            line,
        }),
        "JumpIf" => Some(Order::JumpIf {
            comparator: word.comparator(0),
            mark: word.long(1),
        }),
        "Return" => Some(Order::Return {
            arguments: word.byte(0),
            answers: word.part(1) == "1",
        }),
        _ => of_elements(word, line),
    }
}

// Orders of elements and entries.
fn of_elements(word: &mut Spelled<'_>, line: u16) -> Option<Order> {
    match word.name {
        "Element" => Some(Order::Element {
            lower: word.signed(0),
            span: word.word(1),
            line,
        }),
        "ElementOfTwo" => Some(Order::ElementOfTwo {
            lower: word.signed(0),
            second: word.signed(1),
            width: word.word(2),
            line,
        }),
        "ElementInside" => Some(Order::ElementInside {
            lower: word.signed(0),
            second: word.signed(1),
            width: word.word(2),
            span: word.word(3),
        }),
        "Entry" => Some(Order::Entry {
            width: word.word(0),
            word: word.word(1),
            span: word.word(2),
            line,
        }),
        _ => of_steps(word, line),
    }
}

// The step of a loop.
fn of_steps(word: &mut Spelled<'_>, line: u16) -> Option<Order> {
    match word.name {
        "NextStep" => Some(Order::NextStep {
            looped: Place::Word {
                family: word.word(0),
                offset: word.word(1),
            },
            line,
            mark: word.long(2),
        }),
        "NextStepFrame" => Some(Order::NextStep {
            looped: Place::Frame(word.word(0)),
            line,
            mark: word.long(1),
        }),
        _ => of_number(word, line),
    }
}

fn marks(alloc: Global, numbers: &str) -> Option<List<u32>> {
    let mut marks = List::new(alloc);
    for part in numbers.split(':') {
        marks.push(part.parse::<u32>().ok()?).ok()?;
    }
    Some(marks)
}

// An order; those that go on by a number have a list of marks.
fn order(alloc: Global, word: &mut Spelled<'_>, line: u16) -> Option<Order> {
    match word.name {
        "LoopWay" => Some(Order::LoopWay(marks(alloc, word.numbers)?)),
        "SwitchWay" => Some(Order::SwitchWay {
            marks: marks(alloc, word.numbers)?,
            line,
        }),
        _ => of_parts(word, line),
    }
}

fn goal(text: &str) -> Option<Goal> {
    match text.strip_prefix('c') {
        Some(descriptor) => Some(Goal::Common(descriptor.parse::<u16>().ok()?)),
        None => Some(Goal::Own(text.parse::<u32>().ok()?)),
    }
}

fn goals(alloc: Global, numbers: &str) -> Option<List<Goal>> {
    let mut goals = List::new(alloc);
    for part in numbers.split(':') {
        goals.push(goal(part)?).ok()?;
    }
    Some(goals)
}

fn definition(sort: &str, number: u32) -> Option<Def> {
    match sort {
        "Label" => Some(Def::Label(number)),
        "Switch" => Some(Def::Switch(number)),
        "Proc" => Some(Def::Proc(u16::try_from(number).ok()?)),
        _ => None,
    }
}

impl Segment {
    // The segment of this number, with nothing in it.
    fn new(alloc: Global, number: usize) -> Option<Segment> {
        let first = u16::try_from(number).ok()?.wrapping_mul(100);
        let homes = vec![in alloc; first, first.wrapping_add(10), first.wrapping_add(30)].ok()?;
        let orders = Orders {
            list: List::new(alloc),
            entry: 0,
            marks: List::new(alloc),
            labels: List::new(alloc),
            procedures: List::new(alloc),
            switches: List::new(alloc),
            shared: List::new(alloc),
        };
        Some(Segment {
            orders,
            homes,
            arguments: Vec::new(alloc),
            defined: Vec::new(alloc),
        })
    }

    // Sets the place of a mark to that of the next order.
    fn place_mark(&mut self, alloc: Global, mark: u32) -> Option<()> {
        let place = u32::try_from(self.orders.list.as_slice().len()).ok()?;
        let mut marks = mem::replace(&mut self.orders.marks, List::new(alloc)).into_vec();
        let placed = set_place(&mut marks, mark as usize, place);
        self.orders.marks = List::of(marks);
        placed
    }

    fn add_label(&mut self, word: &mut Spelled<'_>, in_procedure: bool) -> Option<()> {
        let mark = word.long(0);
        self.orders
            .labels
            .push(LabelMark { mark, in_procedure })
            .ok()
    }

    fn add_procedure(&mut self, alloc: Global, word: &mut Spelled<'_>) -> Option<()> {
        let mark = word.long(0);
        let count = word.byte(1);
        self.place_mark(alloc, mark)?;
        self.orders.procedures.push(mark).ok()?;
        self.arguments.push(usize::from(count)).ok()
    }

    fn add_name(&mut self, word: &mut Spelled<'_>) -> Option<()> {
        let definition = definition(word.part(2), word.long(3))?;
        let name = (word.word(0), usize::from(word.byte(1)), definition);
        self.defined.push(name).ok()
    }

    fn add_switch(&mut self, alloc: Global, numbers: &str) -> Option<()> {
        let goals = goals(alloc, numbers)?;
        self.orders.switches.push(goals).ok()
    }

    fn add_order(&mut self, alloc: Global, word: &mut Spelled<'_>, line: u16) -> Option<()> {
        let order = order(alloc, word, line)?;
        self.orders.list.push(order).ok()
    }

    fn add_mark(&mut self, alloc: Global, mark: u32) -> Option<()> {
        self.place_mark(alloc, mark)?;
        self.orders.list.push(Order::Mark).ok()
    }

    // The orders have this line.
    fn add(&mut self, alloc: Global, word: &mut Spelled<'_>, line: u16) -> Option<()> {
        match word.name {
            "Proc" => self.add_procedure(alloc, word),
            "Label" => self.add_label(word, false),
            "LabelIn" => self.add_label(word, true),
            "Switch" => self.add_switch(alloc, word.numbers),
            "Names" => self.add_name(word),
            "Mark" => self.add_mark(alloc, word.long(0)),
            "Line" => Some(()),
            _ => self.add_order(alloc, word, line),
        }
    }
}

// The line of the orders from a word on.
fn line_behind(word: &mut Spelled<'_>, line: u16) -> u16 {
    match word.name {
        "Line" | "Start" => word.word(0),
        "Segment" | "Proc" => 0,
        _ => line,
    }
}

fn set_place(places: &mut Vec<u32>, mark: usize, place: u32) -> Option<()> {
    for _ in places.len()..mark.wrapping_add(1) {
        places.push(0).ok()?;
    }
    *places.get_mut(mark)? = place;
    Some(())
}

fn limits(word: &mut Spelled<'_>) -> Limits {
    Limits {
        area: word.long(0),
        frames: word.long(1),
        depth: word.word(2),
    }
}

impl Program {
    // Begins the next segment.
    fn begin(&mut self, alloc: Global) -> Option<()> {
        let segment = Segment::new(alloc, self.segments.len())?;
        self.segments.push(segment).ok()
    }

    fn add(&mut self, alloc: Global, word: &mut Spelled<'_>, line: u16) -> Option<()> {
        match word.name {
            "Segment" => self.begin(alloc),
            "Limits" => {
                self.limits = limits(word);
                Some(())
            }
            _ => self.segments.last_mut()?.add(alloc, word, line),
        }
    }

    fn add_all(&mut self, alloc: Global, text: &str) -> Option<()> {
        let mut line = 0;
        self.begin(alloc)?;
        for spelled in text.split(' ') {
            let mut word = Spelled::of(spelled);
            line = line_behind(&mut word, line);
            self.add(alloc, &mut word, line)?;
            if word.is_wrong {
                return None;
            }
        }
        Some(())
    }

    // What the descriptors of segments stand for is shared by the segments that have it.
    fn share(&mut self, alloc: Global) -> Option<()> {
        let mut named = Vec::new(alloc);
        for segment in self.segments.iter() {
            for (_, to, definition) in segment.defined.iter() {
                named.push((*to, *definition)).ok()?;
            }
        }
        for (to, definition) in named.iter() {
            if let Some(segment) = self.segments.get_mut(*to) {
                segment.orders.shared.push(*definition).ok()?;
            }
        }
        Some(())
    }
}

/// The program of a text; none where the text is none.
pub fn program(alloc: Global, text: &str) -> Option<Program> {
    let mut program = Program {
        segments: Vec::new(alloc),
        limits: LIMITS,
    };
    program.add_all(alloc, text)?;
    program.share(alloc)?;
    Some(program)
}
