//! The graph of a program.
ghost use Rattle.std.specs.Prelude.{◌≡◌, ◌++◌, length, OnOk, IfOk};
ghost use Rattle.cw_named.specs.Meanings.{IsTableOf};
ghost use Rattle.cw_depth.specs.Numbering.{AreFew, nodes_of, IsGraphOf};
ghost use Rattle.cw_depth.specs.Building.{AreRows, AreGroups, AreFirsts, handed_in_all};

use crate::groups::{groups_for, handed_in_all};
use crate::node::Node;
use crate::numbering::first_numbers;
use crate::rows::rows_for;
use cw_graph::graph::Graph;
use cw_keyed::Specifications;
use cw_named::Definitions;
use cw_unit::unit::Unit;
use cw_word::{List, NoMemory};
use std::alloc::Global;

// Two lists of rows, the first before the second.
fn joined(rows: List<List<usize>>, groups: List<List<usize>>) -> Result<List<List<usize>>, NoMemory>
    ensures { IfOk result (λ all. all ≡ rows ++ groups) }
{
    let mut all = rows.into_vec();
    let mut more = groups.into_vec();
    match all.append(&mut more) {
        Ok(()) => Ok(List::of(all)),
        Err(_) => Err(NoMemory),
    }
}

fn add_groups(
    alloc: Global,
    units: &[Unit],
    definitions: &Definitions,
    firsts: &[usize],
    nodes: &[Node],
    heads: &Specifications,
    rows: List<List<usize>>,
) -> Result<Graph, NoMemory>
    requires few { AreFew units.now }
    requires table { IsTableOf units.now definitions.now }
    requires firsts { AreFirsts units.now firsts.now }
    requires nodes { nodes.now ≡ nodes_of units.now }
    requires size { length rows ≡ length nodes.now }
    requires rows { AreRows units.now heads.now rows }
    ensures { IfOk result (λ graph. IsGraphOf units.now graph) }
{
    let handed = handed_in_all(alloc, units, definitions, nodes)?;
    let groups = groups_for(alloc, units, firsts, handed.as_slice(), heads)?;
    Ok(Graph {
        bodies: units.len(),
        nodes: nodes.len(),
        rows: joined(rows, groups)?,
    })
}

/// The graph of a program, with its nodes in order.
pub(crate) fn call_graph(alloc: Global, units: &[Unit], nodes: &[Node]) -> Result<Graph, NoMemory>
    requires few { AreFew units.now }
    requires nodes { nodes.now ≡ nodes_of units.now }
    ensures { IfOk result (λ graph. IsGraphOf units.now graph) }
{
    let definitions = Definitions::new(alloc, units)?;
    let firsts = first_numbers(alloc, units)?;
    let mut heads = Specifications::new(alloc);
    let rows = rows_for(
        alloc,
        units,
        &definitions,
        firsts.as_slice(),
        nodes,
        &mut heads,
    )?;
    add_groups(
        alloc,
        units,
        &definitions,
        firsts.as_slice(),
        nodes,
        &heads,
        rows,
    )
}
