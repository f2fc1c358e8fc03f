// COMMON items have one line each.
ghost use Rattle.std.specs.Prelude.{◌≡◌, ◌||◌, not, IfOk, OnOk};
ghost use Rattle.cw_unit.specs.Allocation.{Name as ItemName, is_same_name};
ghost use Rattle.cw_list.specs.Listing.{is_common_of, commons_once};
ghost use Rattle.cw_list.specs.Told.{is_told, is_repeated};

use crate::row::Row;
use cw_word::{List, NoMemory};
use std::alloc::Global;
use std::collections::BTreeSet;

// Whether this name is not told yet. From now on it is.
fn tell<'a>(told: &mut BTreeSet<&'a [u8]>, name: &'a [u8]) -> Result<bool, NoMemory>
    ensures fresh { IfOk result (λ fresh. fresh ≡ not (is_told told.old name.now)) }
    ensures after { OnOk result ((m : ItemName) → is_told told.new m ≡ (is_same_name name.now m || is_told told.old m)) }
{
    match told.insert(name) {
        Ok(fresh) => Ok(fresh),
        Err(_) => Err(NoMemory),
    }
}

// Whether the item has a line. If it is a COMMON item, none of its name has one from now on.
fn has_line<'a>(told: &mut BTreeSet<&'a [u8]>, row: &'a Row) -> Result<bool, NoMemory>
    ensures first { IfOk result (λ first. first ≡ not (is_repeated told.old row.now)) }
    ensures after { OnOk result ((m : ItemName) → is_told told.new m ≡ (is_common_of m row.now || is_told told.old m)) }
{
    if !row.common {
        return Ok(true);
    }
    match &row.name {
        Some(name) => tell(told, name.bytes()),
        None => Ok(true),
    }
}

/// The items that have a line.
pub(crate) fn with_lines(alloc: Global, rows: &[Row]) -> Result<List<Row>, NoMemory>
    ensures { IfOk result (λ kept. kept ≡ commons_once rows.now) }
{
    let mut kept = List::new(alloc);
    let mut told = BTreeSet::new(alloc);
    for k in 0..rows.len() {
        if has_line(&mut told, &rows[k])? {
            kept.push(rows[k])?;
        }
    }
    Ok(kept)
}
