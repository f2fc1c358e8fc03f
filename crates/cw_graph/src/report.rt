//! The report on a graph of numbers.
ghost use Rattle.std.specs.Prelude.{◌≡◌, ℕ, ◌+◌, ◌<◌, length, Some, IfOk};
ghost use Rattle.cw_graph.specs.Chains.{HasHeight, IsReached};
ghost use Rattle.cw_graph.specs.Reports.{IsFirstChain, IsBound};
ghost use Rattle.cw_graph.specs.Rows.{IsWhole, LeadsTo, Below, IsBodyOf};
ghost use Rattle.cw_graph.specs.Levels.{level_of, AreLevels};
ghost use Rattle.cw_graph.specs.Choosing.{AreFirsts, IsHighest, IsNumberReport};

use crate::choosing::{first_highest, first_open_in, firsts_in, next_of};
use crate::graph::Graph;
use crate::levels::level_of;
use crate::ranking::levels_in;
use crate::reaching::reached_in;
use cw_word::{List, NoMemory};
use std::alloc::Global;

/// What is told of a graph: a longest chain behind a body, or the first node that is reached and has no height.
#[derive(Drop)]
pub enum NumberReport {
    Bound { chain: List<usize> },
    Unbounded { node: usize },
}

// The chain behind a node of this height.
fn follow(
    alloc: Global,
    graph: &Graph,
    levels: &[Option<usize>],
    firsts: &[usize],
    start: usize,
    height: usize,
) -> Result<List<usize>, NoMemory>
    requires whole { IsWhole graph.now }
    requires levels { AreLevels graph.now levels.now }
    requires firsts { AreFirsts graph.now levels.now firsts.now }
    requires start { start < graph.now.nodes }
    requires height { level_of levels.now start ≡ Some (height + 1) }
    ensures { IfOk result (λ chain. (length chain ≡ height) × IsFirstChain (LeadsTo graph.now) Below start chain) }
{
    let mut chain = List::new(alloc);
    let mut node = start;
    let mut left = height;
    while left > 0 {
        node = next_of(graph, levels, firsts, node, left);
        chain.push(node)?;
        left -= 1;
    }
    Ok(chain)
}

// The height of a node, from its level.
fn height_of(levels: &[Option<usize>], node: usize) -> usize
    ensures { (h : ℕ) → level_of levels.now node ≡ Some (h + 1) → result ≡ h }
{
    match level_of(levels, node) {
        Some(level) => level.saturating_sub(1),
        None => 0,
    }
}

// The chain behind the first body of the greatest height, where all that is reached has a height.
fn bound_in(alloc: Global, graph: &Graph, levels: &[Option<usize>]) -> Result<List<usize>, NoMemory>
    requires whole { IsWhole graph.now }
    requires levels { AreLevels graph.now levels.now }
    requires heights { (a : ℕ) → IsReached (LeadsTo graph.now) (IsBodyOf graph.now) a → (h : ℕ) × HasHeight (LeadsTo graph.now) a h }
    ensures { IfOk result (λ chain. IsBound (LeadsTo graph.now) Below (IsBodyOf graph.now) chain) }
{
    let firsts = firsts_in(alloc, graph, levels)?;
    let start = first_highest(levels, graph.bodies);
    let height = height_of(levels, start);
    follow(alloc, graph, levels, firsts.as_slice(), start, height)
}

fn report_by(
    alloc: Global,
    graph: &Graph,
    levels: &[Option<usize>],
) -> Result<NumberReport, NoMemory>
    requires whole { IsWhole graph.now }
    requires levels { AreLevels graph.now levels.now }
    ensures { IfOk result (λ report. IsNumberReport graph.now report) }
{
    let flags = reached_in(alloc, graph)?;
    match first_open_in(levels, flags.as_slice(), graph.bodies, graph.nodes) {
        Some(node) => Ok(NumberReport::Unbounded { node }),
        None => Ok(NumberReport::Bound {
            chain: bound_in(alloc, graph, levels)?,
        }),
    }
}

/// The report on a graph. The time is near linear in the numbers that stand in its rows.
pub fn report_of(alloc: Global, graph: &Graph) -> Result<NumberReport, NoMemory>
    requires { IsWhole graph.now }
    ensures { IfOk result (λ report. IsNumberReport graph.now report) }
{
    let levels = levels_in(alloc, graph)?;
    report_by(alloc, graph, levels.as_slice())
}
