//! What stands in the bodies of a program.
ghost use Rattle.std.specs.Prelude.{◌≡◌, [], IfOk, MatchOption};
ghost use Rattle.cw_depth.specs.Mentions.{in_statement};
ghost use Rattle.cw_depth.specs.CallGraph.{mentions_of};

use crate::mention::Mention;
use crate::node::Node;
use crate::specifications::procedure_at;
use crate::statements::add_statement;
use cw_unit::unit::{Stmt, Unit};
use cw_word::{List, NoMemory};
use std::alloc::Global;

// The statement of a node.
fn statement_of(units: &[Unit], node: Node) -> Option<&Stmt>
    ensures { MatchOption result (mentions_of units.now node ≡ []) (λ s. mentions_of units.now node ≡ in_statement s.now) }
{
    match node {
        Node::Body(segment) => match units.get(segment as usize) {
            Some(unit) => Some(&unit.body),
            None => None,
        },
        Node::Procedure(segment, number) => {
            match procedure_at(units, segment as usize, number as usize) {
                Some(procedure) => Some(&procedure.body),
                None => None,
            }
        }
    }
}

/// What the body of a node mentions.
pub(crate) fn mentions_of(
    alloc: Global,
    units: &[Unit],
    node: Node,
) -> Result<List<Mention>, NoMemory>
    ensures { IfOk result (λ mentions. mentions ≡ mentions_of units.now node) }
{
    let mut mentions = List::new(alloc);
    if let Some(statement) = statement_of(units, node) {
        add_statement(&mut mentions, statement)?;
    }
    Ok(mentions)
}
