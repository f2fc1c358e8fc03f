//! The places that the code of a segment names.
ghost use Rattle.std.specs.Prelude.{◌≡◌};
ghost use Rattle.cw_tmpl.specs.Names.{mark_place, switch_start, label_start, procedure_start, call_place, own};

use crate::pieces::Target;
use crate::reach::{Reach, entry};
use cw_order::LabelMark;
use std::marker::Model;

/// The bytes of the landing of a label.
pub const LANDING: u32 = 15;

/// Where the orders' code, the landings of labels and the routines of switches are, and what the marks, the labels and
/// the procedures of a unit are. Of a label without a landing, and of a switch without a routine, the place is 0.
#[derive(Drop)]
pub struct Names<'a> {
    pub places: &'a [u32],
    pub reach: Reach<'a>,
    pub labels: &'a [LabelMark],
    pub procedures: &'a [u32],
    pub landings: &'a [u32],
    pub switches: &'a [u32],
}

impl<'a> Model for Names<'a> {
    ghost use Rattle.cw_tmpl.specs.Names.{Names as Meaning};

    ghost Value = { Meaning };

    ghost view = { λ t. record {
      places = t.places.now;
      reach = t.reach;
      labels = t.labels.now;
      procedures = t.procedures.now;
      landings = t.landings.now;
      switches = t.switches.now;
    } };
}

/// A place in the code of the segment.
pub fn own(place: u64) -> Target
    ensures { result ≡ own place }
{
    Target::Place((place % 65_536) as u16)
}

/// Where the number of the segment stands in its code.
pub const SEGMENT_WORD: u64 = 9;

impl<'a> Names<'a> {
    /// Where the code of a mark starts.
    pub fn mark(&self, mark: u32) -> u32
        ensures { result ≡ mark_place self.now mark }
    {
        let order = entry(self.reach.marks, mark as usize);
        entry(self.places, order as usize)
    }

    /// Where the overflow stop is called that the check of a block jumps back to, by the number of the block's first order.
    pub fn call(&self, number: usize) -> u32
        ensures { result ≡ call_place self.now number }
    {
        let behind = entry(self.reach.calls, number);
        entry(self.places, behind as usize).saturating_sub(5)
    }

    /// Where a jump to a label that may leave activations goes.
    pub fn label(&self, label: u32) -> u32
        ensures { result ≡ label_start self.now label }
    {
        match self.labels.get(label as usize) {
            None => 0,
            Some(found) => {
                if found.in_procedure {
                    self.mark(found.mark)
                } else {
                    entry(self.landings, label as usize)
                }
            }
        }
    }

    /// Where the code of a procedure starts.
    pub fn procedure(&self, procedure: u16) -> u32
        ensures { result ≡ procedure_start self.now procedure }
    {
        self.mark(entry(self.procedures, procedure as usize))
    }

    /// Where the routine of a switch starts.
    pub fn switch(&self, switch: u32) -> u32
        ensures { result ≡ switch_start self.now switch }
    {
        entry(self.switches, switch as usize)
    }
}
