//! The levels of the numbers of a graph.
//!
//! A number that has to wait for the level of another is looked at again when that one has its level, and its row is read on from where
//! it was left. So each number of a row is read about once.
ghost use Rattle.std.specs.Prelude.{◌≡◌, ℕ, ◌+◌, ◌<◌, ◌≤◌, List as Sequence, [], ◌∷◌, ◌++◌, length, slice_index, slice_set, Some, None, OnOk, IfOk};
ghost use Rattle.cw_graph.specs.Rows.{row_of, IsWhole};
ghost use Rattle.cw_graph.specs.Levels.{level_of, own_level, AreLevels};
ghost use Rattle.cw_graph.specs.Ranking.{AreRanked, ArePassed, AreWaiting, AllWait, IsLevel};

use crate::graph::{Graph, number_at, row_of};
use crate::levels::{first_open, level_of, top_level};
use cw_word::{List, NoMemory};
use std::alloc::Global;
use std::mem;

// One more waits for a number.
fn wait(waiting: &mut Vec<List<usize>>, lead: usize, number: usize) -> Result<(), NoMemory>
    requires { lead < length waiting.old.items }
    ensures { OnOk result (waiting.new.items ≡ slice_set waiting.old.items lead (row_of waiting.old.items lead ++ number ∷ [])) }
{
    waiting[lead].push(number)
}

// A number has its level.
fn close(
    levels: &mut Vec<Option<usize>>,
    order: &mut Vec<usize>,
    number: usize,
    level: usize,
) -> Result<(), NoMemory>
    requires { number < length levels.old.items }
    ensures { OnOk result ((levels.new.items ≡ slice_set levels.old.items number (Some level)) × (order.new.items ≡ order.old.items ++ number ∷ [])) }
{
    levels[number] = Some(level);
    order.push(number).map_err(|_| NoMemory)
}

fn own_level(graph: &Graph, number: usize) -> usize
    ensures { result ≡ own_level graph.now.nodes number }
{
    if number < graph.nodes { 1 } else { 0 }
}

// The level of a number that has none, where all that it leads to have one.
fn level_by_row(graph: &Graph, levels: &[Option<usize>], order: &[usize], number: usize) -> usize
    requires ranked { AreRanked graph.now levels.now order.now }
    requires number { number < length graph.now.rows }
    requires none { level_of levels.now number ≡ None }
    requires closed { (k : ℕ) → k < length (row_of graph.now.rows number) → level_of levels.now (slice_index (row_of graph.now.rows number) k) ≡ None → ⊥ }
    ensures level { IsLevel graph.now levels.now number result }
    ensures low { result ≤ length order.now + 1 }
{
    let top = top_level(levels, row_of(graph, number));
    own_level(graph, number) + top
}

// Looks at a number: it waits for another, or it has its level.
fn settle(
    graph: &Graph,
    levels: &mut Vec<Option<usize>>,
    order: &mut Vec<usize>,
    from: &mut Vec<usize>,
    waiting: &mut Vec<List<usize>>,
    number: usize,
) -> Result<(), NoMemory>
    requires whole { IsWhole graph.now }
    requires number { number < length graph.now.rows }
    requires ranked { AreRanked graph.now levels.old.items order.old.items }
    requires passed { ArePassed graph.now levels.old.items from.old.items }
    requires waiting { AreWaiting graph.now waiting.old.items }
    ensures ranked { OnOk result (AreRanked graph.now levels.new.items order.new.items) }
    ensures passed { OnOk result (ArePassed graph.now levels.new.items from.new.items) }
    ensures waiting { OnOk result (AreWaiting graph.now waiting.new.items) }
    ensures settled { OnOk result ((told : ℕ) (late : Sequence ℕ)
        → AllWait graph.now levels.old.items order.old.items waiting.old.items told (number ∷ late)
        → AllWait graph.now levels.new.items order.new.items waiting.new.items told late) }
{
    if level_of(levels.as_slice(), number).is_some() {
        return Ok(());
    }
    let row = row_of(graph, number);
    let place = first_open(levels.as_slice(), row, from[number]);
    from[number] = place;
    if place < row.len() {
        wait(waiting, number_at(row, place), number)
    } else {
        let level = level_by_row(graph, levels.as_slice(), order.as_slice(), number);
        close(levels, order, number, level)
    }
}

// Looks at each of these numbers.
fn settle_all(
    graph: &Graph,
    levels: &mut Vec<Option<usize>>,
    order: &mut Vec<usize>,
    from: &mut Vec<usize>,
    waiting: &mut Vec<List<usize>>,
    late: &[usize],
) -> Result<(), NoMemory>
    requires whole { IsWhole graph.now }
    requires late { (k : ℕ) → k < length late.now → slice_index late.now k < length graph.now.rows }
    requires ranked { AreRanked graph.now levels.old.items order.old.items }
    requires passed { ArePassed graph.now levels.old.items from.old.items }
    requires waiting { AreWaiting graph.now waiting.old.items }
    ensures ranked { OnOk result (AreRanked graph.now levels.new.items order.new.items) }
    ensures passed { OnOk result (ArePassed graph.now levels.new.items from.new.items) }
    ensures waiting { OnOk result (AreWaiting graph.now waiting.new.items) }
    ensures settled { OnOk result ((told : ℕ)
        → AllWait graph.now levels.old.items order.old.items waiting.old.items told late.now
        → AllWait graph.now levels.new.items order.new.items waiting.new.items told []) }
{
    for number in late {
        settle(graph, levels, order, from, waiting, *number)?;
    }
    Ok(())
}

// Those that wait for a number, who wait no more.
fn take_waiting(alloc: Global, waiting: &mut Vec<List<usize>>, number: usize) -> List<usize>
    requires { number < length waiting.old.items }
    ensures taken { result ≡ row_of waiting.old.items number }
    ensures left { waiting.new.items ≡ slice_set waiting.old.items number [] }
{
    mem::replace(&mut waiting[number], List::new(alloc))
}

// Tells those that wait for the number at a place of the order that it has its level.
fn tell(
    alloc: Global,
    graph: &Graph,
    levels: &mut Vec<Option<usize>>,
    order: &mut Vec<usize>,
    from: &mut Vec<usize>,
    waiting: &mut Vec<List<usize>>,
    told: usize,
) -> Result<(), NoMemory>
    requires whole { IsWhole graph.now }
    requires told { told < length order.old.items }
    requires ranked { AreRanked graph.now levels.old.items order.old.items }
    requires passed { ArePassed graph.now levels.old.items from.old.items }
    requires waiting { AreWaiting graph.now waiting.old.items }
    ensures ranked { OnOk result (AreRanked graph.now levels.new.items order.new.items) }
    ensures passed { OnOk result (ArePassed graph.now levels.new.items from.new.items) }
    ensures waiting { OnOk result (AreWaiting graph.now waiting.new.items) }
    ensures settled { OnOk result (AllWait graph.now levels.old.items order.old.items waiting.old.items told []
        → AllWait graph.now levels.new.items order.new.items waiting.new.items (told + 1) []) }
{
    let late = take_waiting(alloc, waiting, order[told]);
    settle_all(graph, levels, order, from, waiting, late.as_slice())
}

// Tells of all numbers in order, until there is no more.
fn tell_all(
    alloc: Global,
    graph: &Graph,
    levels: &mut Vec<Option<usize>>,
    order: &mut Vec<usize>,
    from: &mut Vec<usize>,
    waiting: &mut Vec<List<usize>>,
) -> Result<(), NoMemory>
    requires whole { IsWhole graph.now }
    requires ranked { AreRanked graph.now levels.old.items order.old.items }
    requires passed { ArePassed graph.now levels.old.items from.old.items }
    requires waiting { AreWaiting graph.now waiting.old.items }
    requires all { AllWait graph.now levels.old.items order.old.items waiting.old.items 0 [] }
    ensures { OnOk result (AreLevels graph.now levels.new.items) }
{
    let mut told = 0;
    while told < order.len() {
        tell(alloc, graph, levels, order, from, waiting, told)?;
        told += 1;
    }
    Ok(())
}

// The numbers below a count.
fn numbers_below(alloc: Global, count: usize) -> Result<List<usize>, NoMemory>
    ensures { IfOk result (λ all. (length all ≡ count) × ((k : ℕ) → k < length all → slice_index all k ≡ k)) }
{
    let mut all = List::new(alloc);
    for number in 0..count {
        all.push(number)?;
    }
    Ok(all)
}

// So many empty rows.
fn empty_rows(alloc: Global, count: usize) -> Result<Vec<List<usize>>, NoMemory>
    ensures { IfOk result (λ rows. (length rows.items ≡ count) × ((a : ℕ) → row_of rows.items a ≡ [])) }
{
    let mut rows = Vec::new(alloc);
    for _ in 0..count {
        rows.push(List::new(alloc)).map_err(|_| NoMemory)?;
    }
    Ok(rows)
}

// Where nothing has a level yet and nobody waits.
fn rank_all(
    alloc: Global,
    graph: &Graph,
    levels: &mut Vec<Option<usize>>,
    from: &mut Vec<usize>,
    waiting: &mut Vec<List<usize>>,
) -> Result<(), NoMemory>
    requires whole { IsWhole graph.now }
    requires levels_size { length levels.old.items ≡ length graph.now.rows }
    requires no_levels { (a : ℕ) → level_of levels.old.items a ≡ None }
    requires from_size { length from.old.items ≡ length graph.now.rows }
    requires none_passed { (a : ℕ) → slice_index from.old.items a ≡ 0 }
    requires waiting_size { length waiting.old.items ≡ length graph.now.rows }
    requires none_waits { (a : ℕ) → row_of waiting.old.items a ≡ [] }
    ensures { OnOk result (AreLevels graph.now levels.new.items) }
{
    let all = numbers_below(alloc, graph.rows.as_slice().len())?;
    let mut order = Vec::new(alloc);
    settle_all(graph, levels, &mut order, from, waiting, all.as_slice())?;
    tell_all(alloc, graph, levels, &mut order, from, waiting)
}

fn rank_waiting(
    alloc: Global,
    graph: &Graph,
    levels: &mut Vec<Option<usize>>,
    from: &mut Vec<usize>,
) -> Result<(), NoMemory>
    requires whole { IsWhole graph.now }
    requires levels_size { length levels.old.items ≡ length graph.now.rows }
    requires no_levels { (a : ℕ) → level_of levels.old.items a ≡ None }
    requires from_size { length from.old.items ≡ length graph.now.rows }
    requires none_passed { (a : ℕ) → slice_index from.old.items a ≡ 0 }
    ensures { OnOk result (AreLevels graph.now levels.new.items) }
{
    let mut waiting = empty_rows(alloc, graph.rows.as_slice().len())?;
    rank_all(alloc, graph, levels, from, &mut waiting)
}

fn rank_from(alloc: Global, graph: &Graph, levels: &mut Vec<Option<usize>>) -> Result<(), NoMemory>
    requires whole { IsWhole graph.now }
    requires levels_size { length levels.old.items ≡ length graph.now.rows }
    requires no_levels { (a : ℕ) → level_of levels.old.items a ≡ None }
    ensures { OnOk result (AreLevels graph.now levels.new.items) }
{
    let mut from = vec![in alloc; 0; graph.rows.as_slice().len()].map_err(|_| NoMemory)?;
    rank_waiting(alloc, graph, levels, &mut from)
}

/// The levels of all numbers of a graph. The time is near linear in the numbers that stand in its rows.
pub(crate) fn levels_in(alloc: Global, graph: &Graph) -> Result<Vec<Option<usize>>, NoMemory>
    requires { IsWhole graph.now }
    ensures { IfOk result (λ levels. AreLevels graph.now levels.items) }
{
    let mut levels = vec![in alloc; None; graph.rows.as_slice().len()].map_err(|_| NoMemory)?;
    rank_from(alloc, graph, &mut levels)?;
    Ok(levels)
}
