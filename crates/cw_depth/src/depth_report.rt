//! The depth report.
ghost use Rattle.std.specs.Prelude.{◌≡◌, ◌<◌, length, map, IfOk};
ghost use Rattle.cw_depth.specs.Numbering.{AreFew, nodes_of, node_at};
ghost use Rattle.cw_depth.specs.Told.{told, IsReport};

use crate::call_graph::call_graph;
use crate::node::Node;
use crate::numbering::nodes_of;
use cw_graph::report::{NumberReport, report_of};
use cw_unit::unit::Unit;
use cw_word::{List, NoMemory};
use std::alloc::Global;

/// How deep the calls of a program go. `Bound` has the procedures of a longest chain of calls from the body of a segment: the segment, from 1,
/// and the number of each. `Unbounded` has the first procedure that can be called and from which no chain of calls is the longest.
#[derive(Drop)]
pub enum Report {
    Bound { chain: List<(u8, u16)> },
    Unbounded { segment: u8, proc: u16 },
}

// How a node is told.
fn told(units: &[Unit], nodes: &[Node], number: usize) -> (u8, u16)
    requires few { AreFew units.now }
    requires nodes { nodes.now ≡ nodes_of units.now }
    ensures { result ≡ told (node_at units.now number) }
{
    match nodes.get(number) {
        Some(Node::Procedure(segment, number)) => (*segment + 1, *number),
        Some(Node::Body(_)) => (0, 0),
        None => (0, 0),
    }
}

fn told_chain(
    alloc: Global,
    units: &[Unit],
    nodes: &[Node],
    chain: &[usize],
) -> Result<List<(u8, u16)>, NoMemory>
    requires few { AreFew units.now }
    requires nodes { nodes.now ≡ nodes_of units.now }
    ensures { IfOk result (λ list. list ≡ map told (map (node_at units.now) chain.now)) }
{
    let mut list = List::new(alloc);
    for number in chain {
        list.push(told(units, nodes, *number))?;
    }
    Ok(list)
}

fn report_by_nodes(alloc: Global, units: &[Unit], nodes: &[Node]) -> Result<Report, NoMemory>
    requires few { AreFew units.now }
    requires nodes { nodes.now ≡ nodes_of units.now }
    ensures { IfOk result (λ report. IsReport units.now report) }
{
    let graph = call_graph(alloc, units, nodes)?;
    match report_of(alloc, &graph)? {
        NumberReport::Bound { chain } => Ok(Report::Bound {
            chain: told_chain(alloc, units, nodes, chain.as_slice())?,
        }),
        NumberReport::Unbounded { node } => {
            let (segment, proc) = told(units, nodes, node);
            Ok(Report::Unbounded { segment, proc })
        }
    }
}

/// The depth report of a program: the units of its segments in order, at most 200, each with at most 65,536 procedures.
pub fn depth(alloc: Global, units: &[Unit]) -> Result<Report, NoMemory>
    requires few { AreFew units.now }
    ensures { IfOk result (λ report. IsReport units.now report) }
{
    let nodes = nodes_of(alloc, units)?;
    report_by_nodes(alloc, units, nodes.as_slice())
}
