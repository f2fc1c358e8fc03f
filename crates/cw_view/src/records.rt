//! The records of a kind, one after another.
ghost use Rattle.std.specs.Prelude.{◌≡◌};
ghost use Rattle.cw_fields.specs.Fields.{Gives};
ghost use Rattle.cw_view.specs.Splitting.{first_record};

use crate::front::HEAD;
use byteorder::{ByteOrder, LittleEndian};

/// The payloads of the records of a kind, in order.
#[derive(Clone, Copy)]
pub struct Records<'a> {
    pub(crate) kind: u8,
    pub(crate) rest: &'a [u8],
}

// The kind and the payload of the first record, and what follows it.
#[tactic(auto, unfolding(crate::specs::Splitting::first_record))]
fn first_record(rest: &[u8]) -> Option<(u8, &[u8], &[u8])>
    ensures { Gives (λ x. (x.0, (x.1.now, x.2.now))) result (first_record rest.now) }
{
    if rest.len() < HEAD {
        return None;
    }
    let size = LittleEndian::read_u32(&rest[1..]) as usize;
    if rest.len() - HEAD < size {
        return None;
    }
    Some((rest[0], &rest[HEAD..HEAD + size], &rest[HEAD + size..]))
}

impl<'a> Iterator for Records<'a> {
    ghost use Rattle.std.specs.Iterator.{YieldsFirstBy, item_count};
    ghost use Rattle.cw_view.specs.Splitting.{payloads_left};

    type Item = &'a [u8];

    ghost next_gives = { YieldsFirstBy (λ p. p.now) payloads_left };

    ghost remaining = { item_count payloads_left };

    fn next(&mut self) -> Option<&'a [u8]> {
        while let Some((kind, payload, rest)) = first_record(self.rest) {
            self.rest = rest;
            if kind == self.kind {
                return Some(payload);
            }
        }
        None
    }
}
