//! The search for the first clash of each kind.
ghost use Rattle.std.specs.Prelude.{◌≡◌, ◌<◌, ◌+◌, OnOk, IfErr, MatchOption};
ghost use Rattle.cw_comm.specs.declared.checking.Sought.TheVariants as kinds;
ghost use Rattle.cw_comm.specs.Clashes.{IsDifference, HasNone, NoneBefore, FailsToAgree};
ghost use Rattle.cw_comm.specs.Searching.{kind_of, clash_of, SoFar, IsAtHand, IsDescriptor, TellsAt};
ghost use Rattle.cw_comm.specs.Tables.{IsNumbering, TellFrom, IsFirstIn};

use crate::clash::Clash;
use crate::entry::{definer, entry, is_definer, is_wanted, number, tells_same};
use crate::tables::{Numbering, Tables};
use cw_word::Name;
use std::alloc::Global;

/// The kinds of clashes that are looked for, in this order.
#[derive(Clone, Copy)]
pub(crate) enum Sought {
    /// Descriptors of a name differ.
    Difference,
    /// A name is defined again.
    SecondDefinition,
    /// A name wants a definition and has none.
    Undefined,
}

/// A segment at hand, with what the tables tell of all segments and of this one.
#[derive(Clone, Copy)]
pub(crate) struct AtHand<'a, 'b, 'c, 'd> {
    pub listed: &'a Numbering<'b>,
    pub firsts: &'c Tables,
    pub own: &'d Tables,
    pub segment: usize,
}

// The first segment that lists a descriptor's name, where this one lists it otherwise. A later descriptor of a name that
// the segment has listed already tells nothing.
fn difference_at(at: &AtHand, descriptor: usize) -> Option<u8>
    requires { IsDescriptor at.now descriptor }
    ensures { TellsAt kinds.Difference at.now descriptor result }
{
    let segment = at.segment;
    let name = number(at.listed.numbers, segment, descriptor);
    match entry(at.own, name) {
        Some((_, own)) => {
            if own != descriptor {
                return None;
            }
        }
        None => return None,
    }
    match entry(at.firsts, name) {
        Some((first, place)) => {
            if segment <= first as usize {
                return None;
            }
            if tells_same(
                at.listed.segments,
                segment,
                descriptor,
                first as usize,
                place,
            ) {
                return None;
            }
            Some(first)
        }
        None => None,
    }
}

// The first segment that defines a descriptor's name, where it is an earlier one and this one defines the name as well.
fn second_definition_at(at: &AtHand, descriptor: usize) -> Option<u8>
    requires { IsDescriptor at.now descriptor }
    ensures { TellsAt kinds.SecondDefinition at.now descriptor result }
{
    let segment = at.segment;
    let name = number(at.listed.numbers, segment, descriptor);
    if !is_definer(at.own, name, segment) {
        return None;
    }
    match definer(at.firsts, name) {
        Some(first) => {
            if segment <= first as usize {
                return None;
            }
            Some(first)
        }
        None => None,
    }
}

// The number 0, where a descriptor's name wants a definition and has none. All listings of the name tell what the first does.
fn undefined_at(at: &AtHand, descriptor: usize) -> Option<u8>
    requires descriptor { IsDescriptor at.now descriptor }
    requires same { HasNone (IsDifference at.now.listed.now.segments.now) }
    ensures { TellsAt kinds.Undefined at.now descriptor result }
{
    let name = number(at.listed.numbers, at.segment, descriptor);
    match entry(at.firsts, name) {
        Some((first, place)) => {
            if !is_wanted(at.listed.segments, first as usize, place) {
                return None;
            }
        }
        None => return None,
    }
    match definer(at.firsts, name) {
        Some(_) => None,
        None => Some(0),
    }
}

// The earlier segment of the clash at a descriptor of the segment at hand, if there is one and it is the first.
fn clash_at(at: &AtHand, sought: Sought, descriptor: usize) -> Option<u8>
    requires descriptor { IsDescriptor at.now descriptor }
    requires so_far { SoFar at.now.listed.now.segments.now sought }
    ensures { TellsAt sought at.now descriptor result }
{
    match sought {
        Sought::Difference => difference_at(at, descriptor),
        Sought::SecondDefinition => second_definition_at(at, descriptor),
        Sought::Undefined => undefined_at(at, descriptor),
    }
}

// The first clash at the descriptors of the segment at hand: the name, and the earlier segment.
fn clash_in(at: &AtHand, sought: Sought) -> Option<(Name, u8)>
    requires at { IsAtHand at.now }
    requires so_far { SoFar at.now.listed.now.segments.now sought }
    ensures { NoneBefore (kind_of at.now.listed.now.segments.now sought) at.now.segment 0
        → MatchOption result (NoneBefore (kind_of at.now.listed.now.segments.now sought) (at.now.segment + 1) 0)
        (λ clash. IsFirstIn (kind_of at.now.listed.now.segments.now sought) clash.0 clash.1 at.now.segment) }
{
    let (segments, segment) = (at.listed.segments, at.segment);
    let descriptors = segments[segment].descs.as_slice();
    for d in 0..descriptors.len() {
        match clash_at(at, sought, d) {
            Some(first) => return Some((descriptors[d].name, first)),
            None => {}
        }
    }
    None
}

// A clash of two segments, which count from 0.
fn clash_of(sought: Sought, name: Name, earlier: u8, later: u8) -> Clash
    requires earlier { earlier < 255 }
    requires later { later < 255 }
    ensures { result ≡ clash_of sought name earlier later }
{
    let (first, second) = (earlier + 1, later + 1);
    match sought {
        Sought::Difference => Clash::Differs {
            name,
            first,
            second,
        },
        Sought::SecondDefinition => Clash::DefinedTwice {
            name,
            first,
            second,
        },
        Sought::Undefined => Clash::Undefined { name },
    }
}

/// Fails with the first clash of a kind, where there is one.
pub(crate) fn check(
    alloc: Global,
    listed: &Numbering,
    firsts: &Tables,
    sought: Sought,
) -> Result<(), Clash>
    requires listed { IsNumbering listed.now }
    requires firsts { TellFrom listed.now 0 firsts.now }
    requires so_far { SoFar listed.now.segments.now sought }
    ensures none { OnOk result (HasNone (kind_of listed.now.segments.now sought)) }
    ensures clash { IfErr result (FailsToAgree listed.now.segments.now) }
{
    let mut own = Tables::empty(alloc, listed.names.len())?;
    for segment in 0..listed.segments.len() {
        own.enter(listed, segment);
        let at = AtHand {
            listed,
            firsts,
            own: &own,
            segment,
        };
        match clash_in(&at, sought) {
            Some(found) => {
                let later = segment as u8;
                return Err(clash_of(sought, found.0, found.1, later));
            }
            None => {}
        }
    }
    Ok(())
}
