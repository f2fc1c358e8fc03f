// Where each item stands: its family and its offset there. An item's base stands before it, so its own place follows from its
// base's.
ghost use Rattle.std.specs.Prelude.{◌≡◌, ℕ, ◌<◌, ◌≤◌, ◌+◌, Some, length, slice_index, slice_get, is_none, vec_len, take, IfOk, OnOk, OnErr};
ghost use Rattle.cw_unit.specs.Storage.{item_of_from, base_of_home, positions_from};
ghost use Rattle.cw_unit.specs.HasLayout.{HasLayout};
ghost use Rattle.cw_layout.specs.Tables.{TellsItems};

use cw_unit::unit::{Home, Unit};
use cw_word::{List, NoMemory};
use std::alloc::Global;

// For each descriptor the number of its item.
fn descriptor_items(alloc: Global, unit: &Unit) -> Result<Vec<u16>, NoMemory>
    requires { length unit.now.items ≤ 65536 }
    ensures { IfOk result (λ numbers. TellsItems unit.now numbers.items) }
{
    let items = unit.items.as_slice();
    let mut numbers = vec![in alloc; 0u16; unit.descs.as_slice().len()].map_err(|_| NoMemory)?;
    for i in (0..items.len()).rev() {
        if let Home::Common(descriptor) = items[i].home {
            let descriptor = descriptor as usize;
            if descriptor < numbers.len() {
                numbers[descriptor] = i as u16;
            }
        }
    }
    Ok(numbers)
}

/// Whether an item with this home has no base.
pub(crate) fn is_root(unit: &Unit, home: Home) -> bool
    ensures { result ≡ is_none (base_of_home unit.now home) }
{
    match home {
        Home::Over { .. } => false,
        Home::Common(descriptor) => match unit.descs.as_slice().get(descriptor as usize) {
            Some(desc) => desc.over.is_none(),
            None => true,
        },
        Home::Own | Home::Absolute(_) | Home::Frame => true,
    }
}

// The base of an item with this home, if it has one, and the word of the base at which the item begins.
fn base(unit: &Unit, numbers: &[u16], home: Home) -> Option<(u32, u16)>
    requires unit { HasLayout unit.now }
    requires numbers { TellsItems unit.now numbers.now }
    ensures { result ≡ base_of_home unit.now home }
{
    match home {
        Home::Over { item, offset } => Some((item, offset)),
        Home::Common(descriptor) => match unit.descs.as_slice().get(descriptor as usize) {
            Some(desc) => match desc.over {
                Some((under, offset)) => Some((u32::from(numbers[under as usize]), offset)),
                None => None,
            },
            None => None,
        },
        Home::Own | Home::Absolute(_) | Home::Frame => None,
    }
}

/// The family of each item and its offset there.
pub(crate) fn item_homes(alloc: Global, unit: &Unit) -> Result<List<(u16, u16)>, NoMemory>
    requires { HasLayout unit.now }
    ensures { IfOk result (λ homes. homes ≡ positions_from 0 unit.now unit.now.items) }
{
    let items = unit.items.as_slice();
    let numbers = descriptor_items(alloc, unit)?;
    let mut homes = List::new(alloc);
    let mut roots: u32 = 0;
    for n in 0..items.len() {
        match base(unit, numbers.as_slice(), items[n].home) {
            Some((under, offset)) => {
                let (family, place) = homes.as_slice()[under as usize];
                homes.push((family, place + offset))?;
            }
            None => {
                homes.push((roots as u16, 0))?;
                roots += 1;
            }
        }
    }
    Ok(homes)
}
