// Items in order of their addresses.
ghost use Rattle.std.specs.Prelude.{◌≡◌, ◌++◌, OnOk};
ghost use Rattle.cw_list.specs.Order.{in_order};

use crate::row::Row;
use cw_word::NoMemory;

/// Puts items in order of their addresses. Those of one address stay in the order in which they stand.
pub(crate) fn sort_by_address(rows: &mut Vec<Row>) -> Result<(), NoMemory>
    ensures { OnOk result (rows.new.items ≡ in_order (λ r. r.address) rows.old.items) }
{
    match rows.sort_by_key(|row| row.address) {
        Ok(()) => Ok(()),
        Err(_) => Err(NoMemory),
    }
}
