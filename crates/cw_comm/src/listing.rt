//! Whether two segments list a name alike.
ghost use Rattle.std.specs.Prelude.{◌≡◌, ◌↔◌, IsTrue};
ghost use Rattle.cw_comm.specs.Agreement.{base_name, base_of, as_listed};

use cw_unit::descriptor::Desc;
use cw_unit::same::same_body;

fn base_name(descriptors: &[Desc], number: u16) -> &[u8]
    ensures { result.now ≡ base_name descriptors.now number }
{
    match descriptors.get(number as usize) {
        None => &[],
        Some(base) => base.name.bytes(),
    }
}

#[tactic(auto, using(crate::proofs::Listings::same_bases))]
fn same_base(
    some: &[Desc],
    one: Option<(u16, u16)>,
    others: &[Desc],
    other: Option<(u16, u16)>,
) -> bool
    ensures { IsTrue result ↔ (base_of some.now one ≡ base_of others.now other) }
{
    match (one, other) {
        (None, None) => true,
        (Some((base, offset)), Some((number, place))) => {
            offset == place && base_name(some, base) == base_name(others, number)
        }
        _ => false,
    }
}

/// Whether a descriptor of one list tells the same as one of another.
#[tactic(auto, using(crate::proofs::Listings::same_listings))]
pub(crate) fn same_listing(some: &[Desc], one: &Desc, others: &[Desc], other: &Desc) -> bool
    ensures { IsTrue result ↔ (as_listed some.now one.now ≡ as_listed others.now other.now) }
{
    one.library == other.library
        && same_base(some, one.over, others, other.over)
        && same_body(&one.body, &other.body)
}
