//! The names that given objects define.
ghost use Rattle.std.specs.Prelude.{◌≡◌, ◌||◌, OnOk, IfOk};
ghost use Rattle.cw_comm.specs.Agreement.{Name as NameSpelled};
ghost use Rattle.cw_pick.specs.Picking.{is_among, settles};

use crate::offer::Offer;
use cw_word::{Name, NoMemory};
use indexmap::IndexSet;
use std::alloc::Global;

fn add_names(set: &mut IndexSet<Name>, names: &[Name]) -> Result<(), NoMemory>
    ensures { OnOk result ((name : NameSpelled) → is_among set.new.keys name ≡ is_among set.old.keys name || is_among names.now name) }
{
    for name in names {
        match set.insert_full(*name) {
            Ok(_place) => {}
            Err(_) => return Err(NoMemory),
        }
    }
    Ok(())
}

/// The names that given objects define, which no member is picked for.
pub(crate) fn settled(alloc: Global, given: &[Offer]) -> Result<IndexSet<Name>, NoMemory>
    ensures { IfOk result (λ set. (name : NameSpelled) → is_among set.keys name ≡ settles given.now name) }
{
    let mut set = IndexSet::new(alloc);
    for offer in given {
        add_names(&mut set, offer.defines.as_slice())?;
    }
    Ok(set)
}
