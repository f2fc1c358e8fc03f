//! Programs of orders, and what stands where in them.
use cw_order::{LabelMark, Order, Orders};
use cw_unit::layout::Limits;
use cw_unit::unit::{Def, Goal};

/// A segment: its orders, the addresses of its storage families, how many arguments its procedures take, and what its
/// descriptors name, each with the number of the segment that defines it, from 0.
#[derive(Drop)]
pub struct Segment {
    pub orders: Orders,
    pub homes: Vec<u16>,
    pub arguments: Vec<usize>,
    pub defined: Vec<(u16, usize, Def)>,
}

/// Segments in order, the first of which begins, and the limits of their run.
#[derive(Drop)]
pub struct Program {
    pub segments: Vec<Segment>,
    pub limits: Limits,
}

impl Program {
    pub(crate) fn order(&self, segment: usize, place: usize) -> Option<&Order> {
        self.segments
            .get(segment)?
            .orders
            .list
            .as_slice()
            .get(place)
    }

    pub(crate) fn mark(&self, segment: usize, mark: u32) -> Option<usize> {
        let orders = &self.segments.get(segment)?.orders;
        let place = orders.marks.as_slice().get(mark as usize)?;
        Some(*place as usize)
    }

    pub(crate) fn defined(&self, segment: usize, descriptor: u16) -> Option<(usize, Def)> {
        for (number, owner, definition) in &self.segments.get(segment)?.defined {
            if *number == descriptor {
                return Some((*owner, *definition));
            }
        }
        None
    }

    // Where a procedure begins, and how many arguments it takes.
    pub(crate) fn procedure(&self, segment: usize, procedure: u16) -> Option<(usize, usize)> {
        let there = self.segments.get(segment)?;
        let mark = there.orders.procedures.as_slice().get(procedure as usize)?;
        let count = there.arguments.get(procedure as usize)?;
        Some((self.mark(segment, *mark)?, *count))
    }

    // The mark of a label, and whether it is one of a procedure.
    pub(crate) fn label(&self, segment: usize, label: u32) -> Option<LabelMark> {
        let labels = self.segments.get(segment)?.orders.labels.as_slice();
        labels.get(label as usize).copied()
    }

    // The labels of a switch.
    pub(crate) fn switch(&self, segment: usize, switch: u32) -> Option<&[Goal]> {
        let switches = self.segments.get(segment)?.orders.switches.as_slice();
        Some(switches.get(switch as usize)?.as_slice())
    }
}
