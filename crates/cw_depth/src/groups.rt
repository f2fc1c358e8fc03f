//! The groups of a program's graph: for each specification that is called the procedures that stand as arguments with it.
ghost use Rattle.std.specs.Prelude.{◌≡◌, ℕ, ◌++◌, ◌<◌, [], ◌∷◌, length, slice_set, OnOk, IfOk};
ghost use Rattle.cw_graph.specs.Rows.{row_of};
ghost use Rattle.cw_keyed.specs.Numbered.{number_of, count};
ghost use Rattle.cw_named.specs.Meanings.{IsTableOf};
ghost use Rattle.cw_depth.specs.CallGraph.{handed_by, segment_of, spec_of};
ghost use Rattle.cw_depth.specs.Numbering.{AreFew};
ghost use Rattle.cw_depth.specs.Building.{AreFirsts, placed, handed_in, handed_in_all, JoinGroups, AreGroups};

use crate::mention::Mention;
use crate::node::Node;
use crate::rows::{named_in, segment_of};
use crate::specifications::procedure_at;
use crate::standing::mentions_of;
use cw_graph::graph::number_at;
use cw_keyed::Specifications;
use cw_named::Definitions;
use cw_unit::unit::{Proc, Unit};
use cw_word::{List, NoMemory};
use std::alloc::Global;

// The procedure that stands as an argument.
fn handed_by(
    units: &[Unit],
    definitions: &Definitions,
    segment: usize,
    mention: Mention,
) -> Option<(usize, u16)>
    requires { IsTableOf units.now definitions.now }
    ensures { result ≡ handed_by units.now segment mention }
{
    match mention {
        Mention::HandedOwn(number) => Some((segment, number)),
        Mention::HandedCommon(descriptor) => named_in(units, definitions, segment, descriptor),
        Mention::Own(_) | Mention::Common(_) | Mention::Parameter(_) => None,
    }
}

fn add_place(
    units: &[Unit],
    place: Option<(usize, u16)>,
    handed: &mut List<(usize, u16)>,
) -> Result<(), NoMemory>
    ensures { OnOk result (handed.new ≡ handed.old ++ placed units.now place) }
{
    match place {
        Some((segment, number)) => match procedure_at(units, segment, number as usize) {
            Some(_) => handed.push((segment, number)),
            None => Ok(()),
        },
        None => Ok(()),
    }
}

fn add_handed(
    alloc: Global,
    units: &[Unit],
    definitions: &Definitions,
    node: Node,
    handed: &mut List<(usize, u16)>,
) -> Result<(), NoMemory>
    requires { IsTableOf units.now definitions.now }
    ensures { OnOk result (handed.new ≡ handed.old ++ handed_in units.now node) }
{
    let mentions = mentions_of(alloc, units, node)?;
    for mention in mentions.as_slice() {
        let place = handed_by(units, definitions, segment_of(node), *mention);
        add_place(units, place, handed)?;
    }
    Ok(())
}

/// The procedures that stand as arguments in these nodes.
pub(crate) fn handed_in_all(
    alloc: Global,
    units: &[Unit],
    definitions: &Definitions,
    nodes: &[Node],
) -> Result<List<(usize, u16)>, NoMemory>
    requires { IsTableOf units.now definitions.now }
    ensures { IfOk result (λ handed. handed ≡ handed_in_all units.now nodes.now) }
{
    let mut handed = List::new(alloc);
    for node in nodes {
        add_handed(alloc, units, definitions, *node, &mut handed)?;
    }
    Ok(handed)
}

// The head of the specification that a procedure has, if it is one.
fn head_of(heads: &Specifications, procedure: &Proc) -> Result<Option<usize>, NoMemory>
    ensures { IfOk result (λ head. head ≡ number_of heads.now (spec_of procedure.now)) }
{
    heads.find(procedure)
}

// Adds a number to the row of a group.
fn add_member(groups: &mut [List<usize>], head: usize, number: usize) -> Result<(), NoMemory>
    requires { head < length groups.old }
    ensures { OnOk result (groups.new ≡ slice_set groups.old head (row_of groups.old head ++ number ∷ [])) }
{
    groups[head].push(number)
}

// Adds a procedure to the group of its specification, if there is one.
fn join_group(
    units: &[Unit],
    firsts: &[usize],
    heads: &Specifications,
    segment: usize,
    number: u16,
    groups: &mut [List<usize>],
) -> Result<(), NoMemory>
    requires few { AreFew units.now }
    requires firsts { AreFirsts units.now firsts.now }
    requires size { length groups.old ≡ count heads.now }
    ensures { OnOk result (JoinGroups units.now heads.now segment number groups.old groups.new) }
{
    match procedure_at(units, segment, number as usize) {
        Some(procedure) => match head_of(heads, procedure)? {
            Some(head) => add_member(groups, head, number_at(firsts, segment) + number as usize),
            None => Ok(()),
        },
        None => Ok(()),
    }
}

fn empty_groups(alloc: Global, count: usize) -> Result<Vec<List<usize>>, NoMemory>
    ensures size { IfOk result (λ groups. length groups.items ≡ count) }
    ensures empty { IfOk result (λ groups. (j : ℕ) → row_of groups.items j ≡ []) }
{
    let mut groups = List::new(alloc);
    for _ in 0..count {
        groups.push(List::new(alloc))?;
    }
    Ok(groups.into_vec())
}

// The procedures that stand as arguments join the groups of their specifications.
fn fill_groups(
    units: &[Unit],
    firsts: &[usize],
    handed: &[(usize, u16)],
    heads: &Specifications,
    groups: &mut [List<usize>],
) -> Result<(), NoMemory>
    requires few { AreFew units.now }
    requires firsts { AreFirsts units.now firsts.now }
    requires size { length groups.old ≡ count heads.now }
    requires empty { (j : ℕ) → row_of groups.old j ≡ [] }
    ensures { OnOk result (AreGroups units.now handed.now heads.now groups.new (length handed.now)) }
{
    for (segment, number) in handed {
        join_group(units, firsts, heads, *segment, *number, groups)?;
    }
    Ok(())
}

/// The groups of all heads.
pub(crate) fn groups_for(
    alloc: Global,
    units: &[Unit],
    firsts: &[usize],
    handed: &[(usize, u16)],
    heads: &Specifications,
) -> Result<List<List<usize>>, NoMemory>
    requires few { AreFew units.now }
    requires firsts { AreFirsts units.now firsts.now }
    ensures size { IfOk result (λ groups. length groups ≡ count heads.now) }
    ensures groups { IfOk result (λ groups. AreGroups units.now handed.now heads.now groups (length handed.now)) }
{
    let mut groups = empty_groups(alloc, heads.count())?;
    fill_groups(units, firsts, handed, heads, groups.as_mut_slice())?;
    Ok(List::of(groups))
}
