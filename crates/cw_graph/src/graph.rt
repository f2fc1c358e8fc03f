//! Graphs of numbers.
ghost use Rattle.std.specs.Prelude.{◌≡◌, slice_index};
ghost use Rattle.cw_graph.specs.Rows.{row_of};

use cw_word::List;

/// A graph: for each number a row of what it leads to. The numbers below `nodes` are nodes, and those below `bodies` bodies.
/// The numbers behind are groups: what leads to a group leads to each node in it.
#[derive(Drop)]
pub struct Graph {
    pub bodies: usize,
    pub nodes: usize,
    pub rows: List<List<usize>>,
}

/// What a number leads to.
pub fn row_of(graph: &Graph, number: usize) -> &[usize]
    ensures { result.now ≡ row_of graph.now.rows number }
{
    match graph.rows.as_slice().get(number) {
        Some(row) => row.as_slice(),
        None => &[],
    }
}

/// A number of a row, or 0 past its end.
pub fn number_at(row: &[usize], place: usize) -> usize
    ensures { result ≡ slice_index row.now place }
{
    match row.get(place) {
        Some(number) => *number,
        None => 0,
    }
}
