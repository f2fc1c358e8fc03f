// The items of a segment, as the storage map tells them.
ghost use Rattle.std.specs.Prelude.{◌≡◌, ◌++◌, OnOk};
ghost use Rattle.cw_list.specs.Rows.{is_common, owner_of, home_in, frame_in, address_in, row_in, segment_rows};

use crate::row::Row;
use cw_unit::layout::{Layout, Sort};
use cw_unit::unit::{Home, Item, Unit};
use cw_word::{List, Name, NoMemory};

fn is_common(home: Home) -> bool
    ensures { result ≡ is_common home }
{
    match home {
        Home::Common(_) => true,
        _ => false,
    }
}

fn owner(unit: &Unit, owner: Option<u16>) -> Option<Name>
    ensures { result ≡ owner_of unit.now.procs owner }
{
    match owner {
        Some(procedure) => match unit.procs.as_slice().get(procedure as usize) {
            Some(procedure) => Some(procedure.name),
            None => None,
        },
        None => None,
    }
}

// The family of an item and its offset there.
fn home(layout: &Layout, item: usize) -> (u16, u16)
    ensures { result ≡ home_in layout.now item }
{
    match layout.homes.as_slice().get(item) {
        Some((family, offset)) => (*family, *offset),
        None => (0, 0),
    }
}

fn in_frame(layout: &Layout, item: usize) -> bool
    ensures { result ≡ frame_in layout.now item }
{
    let (family, _) = home(layout, item);
    match layout.families.as_slice().get(family as usize) {
        Some(family) => match family.sort {
            Sort::Frame(_) => true,
            _ => false,
        },
        None => false,
    }
}

fn address(layout: &Layout, addresses: &[u16], item: usize) -> u32
    ensures { result ≡ address_in layout.now addresses.now item }
{
    let (family, offset) = home(layout, item);
    let start = match addresses.get(family as usize) {
        Some(start) => *start,
        None => 0,
    };
    u32::from(start) + u32::from(offset)
}

fn row(unit: &Unit, layout: &Layout, addresses: &[u16], n: usize, item: &Item) -> Row
    ensures { result ≡ row_in unit.now layout.now addresses.now n item.now }
{
    Row {
        segment: unit.name,
        procedure: owner(unit, item.owner),
        name: item.name,
        line: item.line,
        kind: item.kind,
        common: is_common(item.home),
        frame: in_frame(layout, n),
        address: address(layout, addresses, n),
        words: item.words,
    }
}

/// Adds the items of a segment, in order of the text.
pub(crate) fn add_segment(
    rows: &mut List<Row>,
    unit: &Unit,
    layout: &Layout,
    addresses: &[u16],
) -> Result<(), NoMemory>
    ensures { OnOk result (rows.new ≡ rows.old ++ segment_rows unit.now layout.now addresses.now 0 unit.now.items) }
{
    let items = unit.items.as_slice();
    for n in 0..items.len() {
        rows.push(row(unit, layout, addresses, n, &items[n]))?;
    }
    Ok(())
}
