//! What is chosen by levels.
ghost use Rattle.std.specs.Prelude.{◌≡◌, ℕ, ◌+◌, ◌<◌, ◌≤◌, ◌⊎◌, ◌↔◌, length, slice_index, Some, IsTrue, MatchOption, IfOk};
ghost use Rattle.cw_graph.specs.Rows.{row_of, IsWhole};
ghost use Rattle.cw_graph.specs.Levels.{level_of, AreLevels};
ghost use Rattle.cw_graph.specs.Choosing.{level_or_zero, IsHighest, NoneOpen, IsFirstOpen, IsLeast, TellsLeast, StandsFor, StandFor, AreFirsts, IsNext};

use crate::graph::{Graph, number_at, row_of};
use crate::levels::level_of;
use crate::reaching::flag_of;
use cw_word::NoMemory;
use std::alloc::Global;

fn level_or_zero(levels: &[Option<usize>], number: usize) -> usize
    ensures { result ≡ level_or_zero levels.now number }
{
    match level_of(levels, number) {
        Some(level) => level,
        None => 0,
    }
}

/// The first body of the greatest level.
pub(crate) fn first_highest(levels: &[Option<usize>], bodies: usize) -> usize
    requires { 0 < bodies }
    ensures { IsHighest levels.now bodies result }
{
    let mut best = 0;
    for body in 1..bodies {
        if level_or_zero(levels, body) > level_or_zero(levels, best) {
            best = body;
        }
    }
    best
}

/// The first number in a range that is reached and has no level.
pub(crate) fn first_open_in(
    levels: &[Option<usize>],
    flags: &[bool],
    from: usize,
    to: usize,
) -> Option<usize>
    ensures { MatchOption result (NoneOpen levels.now flags.now from to) (λ a. IsFirstOpen levels.now flags.now from to a) }
{
    for number in from..to {
        if flag_of(flags, number) && level_of(levels, number).is_none() {
            return Some(number);
        }
    }
    None
}

fn has_level(levels: &[Option<usize>], number: usize, level: usize) -> bool
    ensures { IsTrue result ↔ (level_of levels.now number ≡ Some level) }
{
    match level_of(levels, number) {
        Some(other) => other == level,
        None => false,
    }
}

// The lesser of two numbers, where there is one already.
fn lesser(least: Option<usize>, number: usize) -> usize
    ensures { MatchOption least (result ≡ number) (λ other. (result ≤ number) × ((result ≤ other) × ((result ≡ number) ⊎ (result ≡ other)))) }
{
    match least {
        Some(other) => { if other < number { other } else { number } }
        None => number,
    }
}

/// The least of what the numbers of a row that have this level stand for.
pub(crate) fn least_by(
    levels: &[Option<usize>],
    firsts: &[usize],
    row: &[usize],
    level: usize,
) -> Option<usize>
    ensures { TellsLeast levels.now firsts.now row.now (length row.now) level result }
{
    let mut least = None;
    for number in row {
        if has_level(levels, *number, level) {
            least = Some(lesser(least, number_at(firsts, *number)));
        }
    }
    least
}

// What the next number stands for.
fn first_of(graph: &Graph, levels: &[Option<usize>], firsts: &[usize], number: usize) -> usize
    requires whole { IsWhole graph.now }
    requires levels { AreLevels graph.now levels.now }
    requires firsts { StandFor graph.now levels.now firsts.now }
    requires next { number ≡ length firsts.now }
    ensures { StandsFor graph.now levels.now number result }
{
    if number < graph.nodes {
        return number;
    }
    match level_of(levels, number) {
        Some(level) => match least_by(levels, firsts, row_of(graph, number), level) {
            Some(first) => first,
            None => 0,
        },
        None => 0,
    }
}

/// What each number stands for.
pub(crate) fn firsts_in(
    alloc: Global,
    graph: &Graph,
    levels: &[Option<usize>],
) -> Result<Vec<usize>, NoMemory>
    requires whole { IsWhole graph.now }
    requires levels { AreLevels graph.now levels.now }
    ensures { IfOk result (λ firsts. AreFirsts graph.now levels.now firsts.items) }
{
    let mut firsts = Vec::new(alloc);
    for number in 0..graph.rows.as_slice().len() {
        let first = first_of(graph, levels, firsts.as_slice(), number);
        firsts.push(first).map_err(|_| NoMemory)?;
    }
    Ok(firsts)
}

/// The first node of a level that a node leads to, where its own level is one more.
pub(crate) fn next_of(
    graph: &Graph,
    levels: &[Option<usize>],
    firsts: &[usize],
    node: usize,
    level: usize,
) -> usize
    requires whole { IsWhole graph.now }
    requires levels { AreLevels graph.now levels.now }
    requires firsts { AreFirsts graph.now levels.now firsts.now }
    requires node { node < graph.now.nodes }
    requires level { level_of levels.now node ≡ Some (level + 1) }
    ensures { (h : ℕ) → level ≡ h + 1 → IsNext graph.now node h result }
{
    match least_by(levels, firsts, row_of(graph, node), level) {
        Some(next) => next,
        None => 0,
    }
}
