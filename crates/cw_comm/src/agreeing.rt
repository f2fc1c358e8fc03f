//! The agreement of segments.
ghost use Rattle.std.specs.Prelude.{◌≡◌, ◌≤◌, ◌<◌, [], None, length, map, IfOk, OnOk, IfErr};
ghost use Rattle.cw_unit.specs.Allocation.{name_at};
ghost use Rattle.cw_comm.specs.Agreement.{first_twice, definer_from};
ghost use Rattle.cw_comm.specs.Clashes.{Agree, FailsToAgree, AnswersAgree};
ghost use Rattle.cw_comm.specs.Tables.{IsNumbering, TellFrom};

use crate::agreement::{numbered, segment_twice};
use crate::checking::{Sought, check};
use crate::clash::Clash;
use crate::entry::definer;
use crate::face::{Agreed, Face};
use crate::tables::{Numbering, Tables, first_tables};
use cw_word::{List, NoMemory};
use std::alloc::Global;

fn once(alloc: Global, segments: &[Face]) -> Result<(), Clash>
    ensures once { OnOk result (first_twice [] segments.now ≡ None) }
    ensures clash { IfErr result (FailsToAgree segments.now) }
{
    match segment_twice(alloc, segments)? {
        Some(name) => Err(Clash::SegmentTwice { name }),
        None => Ok(()),
    }
}

// Fails with the first clash of the segments, where no two have one name.
fn check_all(alloc: Global, listed: &Numbering, firsts: &Tables) -> Result<(), Clash>
    requires listed { IsNumbering listed.now }
    requires firsts { TellFrom listed.now 0 firsts.now }
    requires once { first_twice [] listed.now.segments.now ≡ None }
    ensures agree { OnOk result (Agree listed.now.segments.now) }
    ensures clash { IfErr result (FailsToAgree listed.now.segments.now) }
{
    check(alloc, listed, firsts, Sought::Difference)?;
    check(alloc, listed, firsts, Sought::SecondDefinition)?;
    check(alloc, listed, firsts, Sought::Undefined)?;
    Ok(())
}

// The segment that defines a name, from 1.
fn from_one(listed: &Numbering, firsts: &Tables, name: usize) -> Option<u8>
    requires listed { IsNumbering listed.now }
    requires firsts { TellFrom listed.now 0 firsts.now }
    requires name { name < length listed.now.names.now }
    ensures { result ≡ definer_from 1 (name_at listed.now.names.now name) listed.now.segments.now }
{
    match definer(firsts, name) {
        Some(definer) => Some(definer + 1),
        None => None,
    }
}

fn all_definers(
    alloc: Global,
    listed: &Numbering,
    firsts: &Tables,
) -> Result<List<Option<u8>>, NoMemory>
    requires listed { IsNumbering listed.now }
    requires firsts { TellFrom listed.now 0 firsts.now }
    ensures { IfOk result (λ list. list ≡ map (λ name. definer_from 1 name listed.now.segments.now) listed.now.names.now) }
{
    let mut list = List::new(alloc);
    for name in 0..listed.names.len() {
        list.push(from_one(listed, firsts, name))?;
    }
    Ok(list)
}

/// What segments agree on, or the first clash: two segments of one name; then two segments that list a name with
/// descriptors that differ; then two that define it; then a label, switch or procedure that none defines. Of the clashes
/// of a kind the later segment comes first, then the order of its descriptors, then the earliest other segment. At most
/// 200 segments. The time is near linear in the number of descriptors.
pub fn agree(alloc: Global, segments: &[Face]) -> Result<Agreed, Clash>
    requires { length segments.now ≤ 200 }
    ensures { AnswersAgree segments.now result }
{
    once(alloc, segments)?;
    let (names, of) = numbered(alloc, segments)?;
    let (in_order, numbers) = (names.as_slice(), of.as_slice());
    let listed = Numbering {
        segments,
        names: in_order,
        numbers,
    };
    let firsts = first_tables(alloc, &listed)?;
    check_all(alloc, &listed, &firsts)?;
    let defined = all_definers(alloc, &listed, &firsts)?;
    Ok(Agreed { names, of, defined })
}
