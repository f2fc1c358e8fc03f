//! The rows of a program's graph.
ghost use Rattle.std.specs.Prelude.{◌≡◌, ℕ, ◌+◌, ◌++◌, ◌<◌, [], ◌∷◌, length, slice_get, OnOk, IfOk};
ghost use Rattle.cw_named.specs.Meanings.{IsTableOf};
ghost use Rattle.cw_depth.specs.declared.mention.Mention.TheVariants as mention;
ghost use Rattle.cw_depth.specs.CallGraph.{named_by, called_by, segment_of, mentions_of};
ghost use Rattle.cw_depth.specs.Numbering.{AreFew, nodes_of};
ghost use Rattle.cw_keyed.specs.Numbered.{Keeps};
ghost use Rattle.cw_depth.specs.Building.{Adds, AreFirsts, listed, IsRowFor, AreRows};

use crate::mention::Mention;
use crate::node::Node;
use crate::specifications::{parameter_of, procedure_at};
use crate::standing::mentions_of;
use cw_graph::graph::number_at;
use cw_keyed::Specifications;
use cw_named::Definitions;
use cw_unit::unit::Unit;
use cw_word::{List, NoMemory};
use std::alloc::Global;

/// The segment of a node.
pub(crate) fn segment_of(node: Node) -> usize
    ensures { result ≡ segment_of node }
{
    match node {
        Node::Body(segment) => segment as usize,
        Node::Procedure(segment, _) => segment as usize,
    }
}

/// Adds the number of a procedure, if it is there.
pub(crate) fn add_procedure(
    units: &[Unit],
    firsts: &[usize],
    place: Option<(usize, u16)>,
    row: &mut List<usize>,
) -> Result<(), NoMemory>
    requires few { AreFew units.now }
    requires firsts { AreFirsts units.now firsts.now }
    ensures { OnOk result (row.new ≡ row.old ++ listed units.now place) }
{
    match place {
        Some((segment, number)) => match procedure_at(units, segment, number as usize) {
            Some(_) => row.push(number_at(firsts, segment) + number as usize),
            None => Ok(()),
        },
        None => Ok(()),
    }
}

// Adds the number of a head behind those of the nodes. One past the range of numbers would be of a list that no memory holds.
fn add_group(count: usize, head: usize, row: &mut List<usize>) -> Result<(), NoMemory>
    ensures { OnOk result (row.new ≡ row.old ++ (count + head) ∷ []) }
{
    match count.checked_add(head) {
        Some(number) => row.push(number),
        None => Err(NoMemory),
    }
}

fn add_parameter(
    units: &[Unit],
    count: usize,
    heads: &mut Specifications,
    node: Node,
    control: u8,
    row: &mut List<usize>,
) -> Result<(), NoMemory>
    requires { count ≡ length (nodes_of units.now) }
    ensures { OnOk result (Adds units.now heads.old heads.new node (mention.Parameter control) row.old row.new) }
{
    match parameter_of(units, node, control) {
        Some(spec) => {
            let head = heads.number(spec)?;
            add_group(count, head, row)
        }
        None => Ok(()),
    }
}

/// The procedure that a descriptor of a segment names.
pub(crate) fn named_in(
    units: &[Unit],
    definitions: &Definitions,
    segment: usize,
    descriptor: u16,
) -> Option<(usize, u16)>
    requires { IsTableOf units.now definitions.now }
    ensures { result ≡ named_by units.now (slice_get units.now segment) descriptor }
{
    match units.get(segment) {
        Some(unit) => definitions.named_by(unit, descriptor),
        None => None,
    }
}

fn add_mention(
    units: &[Unit],
    definitions: &Definitions,
    firsts: &[usize],
    count: usize,
    heads: &mut Specifications,
    node: Node,
    mention: Mention,
    row: &mut List<usize>,
) -> Result<(), NoMemory>
    requires few { AreFew units.now }
    requires table { IsTableOf units.now definitions.now }
    requires firsts { AreFirsts units.now firsts.now }
    requires count { count ≡ length (nodes_of units.now) }
    ensures { OnOk result (Adds units.now heads.old heads.new node mention row.old row.new) }
{
    match mention {
        Mention::Own(number) => {
            add_procedure(units, firsts, Some((segment_of(node), number)), row)
        }
        Mention::Common(descriptor) => {
            let place = named_in(units, definitions, segment_of(node), descriptor);
            add_procedure(units, firsts, place, row)
        }
        Mention::Parameter(control) => add_parameter(units, count, heads, node, control, row),
        Mention::HandedOwn(_) | Mention::HandedCommon(_) => Ok(()),
    }
}

/// The row of a node, by what it mentions.
pub(crate) fn row_for(
    alloc: Global,
    units: &[Unit],
    definitions: &Definitions,
    firsts: &[usize],
    count: usize,
    heads: &mut Specifications,
    node: Node,
) -> Result<List<usize>, NoMemory>
    requires few { AreFew units.now }
    requires table { IsTableOf units.now definitions.now }
    requires firsts { AreFirsts units.now firsts.now }
    requires count { count ≡ length (nodes_of units.now) }
    ensures row { IfOk result (λ row. IsRowFor units.now heads.new node row (length (mentions_of units.now node))) }
    ensures extends { OnOk result (Keeps heads.old heads.new) }
{
    let mentions = mentions_of(alloc, units, node)?;
    let mut row = List::new(alloc);
    for mention in mentions.as_slice() {
        add_mention(
            units,
            definitions,
            firsts,
            count,
            heads,
            node,
            *mention,
            &mut row,
        )?;
    }
    Ok(row)
}

/// The rows of all nodes, and the heads of the groups.
pub(crate) fn rows_for(
    alloc: Global,
    units: &[Unit],
    definitions: &Definitions,
    firsts: &[usize],
    nodes: &[Node],
    heads: &mut Specifications,
) -> Result<List<List<usize>>, NoMemory>
    requires few { AreFew units.now }
    requires table { IsTableOf units.now definitions.now }
    requires firsts { AreFirsts units.now firsts.now }
    requires nodes { nodes.now ≡ nodes_of units.now }
    ensures size { IfOk result (λ rows. length rows ≡ length nodes.now) }
    ensures rows { IfOk result (λ rows. AreRows units.now heads.new rows) }
{
    let mut rows = List::new(alloc);
    for node in nodes {
        rows.push(row_for(alloc, units, definitions, firsts, nodes.len(), heads, *node)?)?;
    }
    Ok(rows)
}
