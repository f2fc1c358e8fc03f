//! What levels tell.
ghost use Rattle.std.specs.Prelude.{◌≡◌, ℕ, ◌<◌, ◌≤◌, length, slice_index, Some, None};
ghost use Rattle.cw_graph.specs.Levels.{level_of, IsTop};

use crate::graph::number_at;

/// The level of a number, if it has one.
pub(crate) fn level_of(levels: &[Option<usize>], number: usize) -> Option<usize>
    ensures { result ≡ level_of levels.now number }
{
    match levels.get(number) {
        Some(level) => *level,
        None => None,
    }
}

/// The first place of a row, from one on, whose number has no level, or the length of the row.
pub(crate) fn first_open(levels: &[Option<usize>], row: &[usize], from: usize) -> usize
    requires { from ≤ length row.now }
    ensures from { from ≤ result }
    ensures end { result ≤ length row.now }
    ensures closed { (k : ℕ) → from ≤ k → k < result → level_of levels.now (slice_index row.now k) ≡ None → ⊥ }
    ensures open { result < length row.now → level_of levels.now (slice_index row.now result) ≡ None }
{
    for k in from..row.len() {
        if level_of(levels, number_at(row, k)).is_none() {
            return k;
        }
    }
    row.len()
}

/// The greatest level of the numbers of a row, each of which has one, or 0.
pub(crate) fn top_level(levels: &[Option<usize>], row: &[usize]) -> usize
    requires { (k : ℕ) → k < length row.now → level_of levels.now (slice_index row.now k) ≡ None → ⊥ }
    ensures { IsTop levels.now row.now result }
{
    let mut top = 0;
    for number in row {
        if let Some(level) = level_of(levels, *number) {
            if level > top {
                top = level;
            }
        }
    }
    top
}
