//! What is reached from the bodies of a graph.
ghost use Rattle.std.specs.Prelude.{◌≡◌, ℕ, ◌+◌, ◌<◌, ◌≤◌, [], ◌∷◌, ◌++◌, length, slice_index, slice_set, true, false, OnOk, IfOk};
ghost use Rattle.cw_graph.specs.Rows.{row_of, IsWhole, StandsIn};
ghost use Rattle.cw_graph.specs.Reaching.{flag_of, IsListed, AreReached, AreVisited, Grows, AreSpread};

use crate::graph::{Graph, number_at, row_of};
use cw_word::NoMemory;
use std::alloc::Global;

/// Whether the flag of a number is set.
pub(crate) fn flag_of(flags: &[bool], number: usize) -> bool
    ensures { result ≡ flag_of flags.now number }
{
    match flags.get(number) {
        Some(flag) => *flag,
        None => false,
    }
}

fn mark(flags: &mut Vec<bool>, order: &mut Vec<usize>, number: usize) -> Result<(), NoMemory>
    requires { number < length flags.old.items }
    ensures { OnOk result ((flags.new.items ≡ slice_set flags.old.items number true) × (order.new.items ≡ order.old.items ++ number ∷ [])) }
{
    flags[number] = true;
    order.push(number).map_err(|_| NoMemory)
}

// A number that is reached has a flag, and its place in the order.
fn visit(
    graph: &Graph,
    flags: &mut Vec<bool>,
    order: &mut Vec<usize>,
    number: usize,
) -> Result<(), NoMemory>
    requires number { number < length graph.now.rows }
    requires listed { IsListed graph.now number }
    requires visited { AreVisited graph.now flags.old.items order.old.items }
    ensures visited { OnOk result (AreVisited graph.now flags.new.items order.new.items) }
    ensures grows { OnOk result (Grows flags.old.items order.old.items flags.new.items order.new.items) }
    ensures flag { OnOk result (flag_of flags.new.items number ≡ true) }
{
    if flag_of(flags.as_slice(), number) {
        return Ok(());
    }
    mark(flags, order, number)
}

// The numbers of a row.
fn visit_all(
    graph: &Graph,
    flags: &mut Vec<bool>,
    order: &mut Vec<usize>,
    row: &[usize],
) -> Result<(), NoMemory>
    requires within { (k : ℕ) → k < length row.now → slice_index row.now k < length graph.now.rows }
    requires listed { (k : ℕ) → k < length row.now → IsListed graph.now (slice_index row.now k) }
    requires visited { AreVisited graph.now flags.old.items order.old.items }
    ensures visited { OnOk result (AreVisited graph.now flags.new.items order.new.items) }
    ensures grows { OnOk result (Grows flags.old.items order.old.items flags.new.items order.new.items) }
    ensures row { OnOk result ((k : ℕ) → k < length row.now → flag_of flags.new.items (slice_index row.now k) ≡ true) }
{
    for number in row {
        visit(graph, flags, order, *number)?;
    }
    Ok(())
}

fn visit_bodies(
    graph: &Graph,
    flags: &mut Vec<bool>,
    order: &mut Vec<usize>,
) -> Result<(), NoMemory>
    requires whole { IsWhole graph.now }
    requires visited { AreVisited graph.now flags.old.items order.old.items }
    ensures visited { OnOk result (AreVisited graph.now flags.new.items order.new.items) }
    ensures bodies { OnOk result ((a : ℕ) → a < graph.now.bodies → flag_of flags.new.items a ≡ true) }
{
    for body in 0..graph.bodies {
        visit(graph, flags, order, body)?;
    }
    Ok(())
}

// What the number at a place of the order leads to.
fn spread_from(
    graph: &Graph,
    flags: &mut Vec<bool>,
    order: &mut Vec<usize>,
    told: usize,
) -> Result<(), NoMemory>
    requires whole { IsWhole graph.now }
    requires told { told < length order.old.items }
    requires visited { AreVisited graph.now flags.old.items order.old.items }
    ensures visited { OnOk result (AreVisited graph.now flags.new.items order.new.items) }
    ensures grows { OnOk result (Grows flags.old.items order.old.items flags.new.items order.new.items) }
    ensures spread { OnOk result (AreSpread graph.now flags.old.items order.old.items told → AreSpread graph.now flags.new.items order.new.items (told + 1)) }
{
    let row = row_of(graph, number_at(order.as_slice(), told));
    visit_all(graph, flags, order, row)
}

fn spread(graph: &Graph, flags: &mut Vec<bool>, order: &mut Vec<usize>) -> Result<(), NoMemory>
    requires whole { IsWhole graph.now }
    requires visited { AreVisited graph.now flags.old.items order.old.items }
    requires bodies { (a : ℕ) → a < graph.now.bodies → flag_of flags.old.items a ≡ true }
    ensures { OnOk result (AreReached graph.now flags.new.items) }
{
    let mut told = 0;
    while told < order.len() {
        spread_from(graph, flags, order, told)?;
        told += 1;
    }
    Ok(())
}

fn reach(alloc: Global, graph: &Graph, flags: &mut Vec<bool>) -> Result<(), NoMemory>
    requires whole { IsWhole graph.now }
    requires size { length flags.old.items ≡ length graph.now.rows }
    requires none { (a : ℕ) → flag_of flags.old.items a ≡ false }
    ensures { OnOk result (AreReached graph.now flags.new.items) }
{
    let mut order = Vec::new(alloc);
    visit_bodies(graph, flags, &mut order)?;
    spread(graph, flags, &mut order)
}

/// A flag for each number that is reached from the bodies.
pub(crate) fn reached_in(alloc: Global, graph: &Graph) -> Result<Vec<bool>, NoMemory>
    requires { IsWhole graph.now }
    ensures { IfOk result (λ flags. AreReached graph.now flags.items) }
{
    let mut flags = vec![in alloc; false; graph.rows.as_slice().len()].map_err(|_| NoMemory)?;
    reach(alloc, graph, &mut flags)?;
    Ok(flags)
}
