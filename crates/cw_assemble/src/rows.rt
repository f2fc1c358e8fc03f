//! Code of elements of two dimensions, where both indexes are compared with their bounds.
ghost use Rattle.std.specs.Prelude.{◌≡◌, ◌-ℤ◌, ◌++◌, true};
ghost use Rattle.cw_assemble.specs.Growing.{Adds};
ghost use Rattle.cw_tmpl.specs.Blocks.{row_within};
ghost use Rattle.cw_tmpl.specs.Templates.{from_lower, column_loaded, column_below, row_summed, column_tested, row_address, indexes_between};

use crate::blocks::{indexes_between, put_entry_formed, put_from_lower, put_index_loaded};
use crate::draft::Draft;
use crate::indexes::{put_top_below, put_top_from_lower};
use cw_tmpl::instructions::{AX, SI, add, jump_if_below, operate_number, set_word};
use cw_tmpl::library::BOUNDS;
use cw_tmpl::{Coded, Column, Row, Target};

/// Adds SI with a second index.
fn put_column_loaded(code: &mut Draft, column: Column)
    ensures { Adds code.old (column_loaded column) code.new }
{
    match column {
        Column::Number(word) => code.put_all(&[Coded::Whole(set_word(SI, word))]),
        Column::Contents(place) => put_index_loaded(code, place),
    }
}

/// Adds the comparison of SI with so many indexes.
fn put_column_below(code: &mut Draft, line: u16, count: u16)
    ensures { Adds code.old (column_below line count) code.new }
{
    code.put_all(&[
        Coded::Whole(operate_number(7, SI, count)),
        Coded::Whole(jump_if_below(5)),
        Coded::Call(Target::LibraryAhead(BOUNDS)),
        Coded::Data(line),
    ]);
}

/// Adds the address that is made of both indexes.
fn put_row_summed(code: &mut Draft, row: Row)
    ensures { Adds code.old (row_summed row) code.new }
{
    put_entry_formed(code, row.family, row.first, row.width, 0);
    code.put_all(&[Coded::Whole(add(AX, SI))]);
}

/// How many second indexes are between their bounds.
fn columns_between(row: Row) -> u16
    requires { row_within row ≡ true }
    ensures { result ≡ indexes_between (row.columns.upper -ℤ row.columns.lower) }
{
    indexes_between(row.columns.lower, row.columns.upper, row.span)
}

/// Adds the comparison of the index in SI with its bounds, and the address.
fn put_column_compared(code: &mut Draft, row: Row)
    requires { row_within row ≡ true }
    ensures { Adds code.old (from_lower row.columns.lower
        ++ (column_below row.columns.line (indexes_between (row.columns.upper -ℤ row.columns.lower))
        ++ row_summed row)) code.new }
{
    let count = columns_between(row);
    put_from_lower(code, row.columns.lower);
    put_column_below(code, row.columns.line, count);
    put_row_summed(code, row);
}

/// Adds the same with the second index.
fn put_column_tested(code: &mut Draft, row: Row)
    requires { row_within row ≡ true }
    ensures { Adds code.old (column_tested row) code.new }
{
    put_column_loaded(code, row.column);
    put_column_compared(code, row);
}

/// How many first indexes are between theirs.
fn rows_between(row: Row) -> u16
    requires { row_within row ≡ true }
    ensures { result ≡ indexes_between (row.rows.upper -ℤ row.rows.lower) }
{
    indexes_between(row.rows.lower, row.rows.upper, row.span)
}

/// Adds the comparisons of both indexes, the first one in AX, and the address.
pub(crate) fn put_row(code: &mut Draft, row: Row)
    requires { row_within row ≡ true }
    ensures { Adds code.old (row_address row) code.new }
{
    let count = rows_between(row);
    put_top_from_lower(code, row.rows.lower);
    put_top_below(code, row.rows.line, count);
    put_column_tested(code, row);
}
