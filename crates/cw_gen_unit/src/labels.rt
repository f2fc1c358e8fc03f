//! The places of labels.
ghost use Rattle.std.specs.Prelude.{◌≡◌, set, slice_get};
ghost use Rattle.cw_gen_unit.specs.LabelPlaces.{same_body as spec_same_body, labels_placed, belongs_to};

use cw_unit::unit::Label;

/// Whether these are the segment's body both, or that of the same procedure.
fn same_body(a: Option<u16>, b: Option<u16>) -> bool
    ensures { result ≡ spec_same_body a b }
{
    match (a, b) {
        (None, None) => true,
        (Some(p), Some(q)) => p == q,
        _ => false,
    }
}

/// Whether a label is one of a body.
fn belongs(labels: &[Label], label: u32, who: Option<u16>) -> bool
    ensures { result ≡ belongs_to (slice_get labels.now label) who }
{
    match labels.get(label as usize) {
        None => false,
        Some(found) => same_body(found.proc, who),
    }
}

fn set_place(places: &mut Vec<u32>, label: u32, place: u32)
    ensures { places.new.items ≡ set places.old.items label place }
{
    if let Some(placed) = places.get_mut(label as usize) {
        *placed = place;
    }
}

/// Gives each label of a body the place where it first stands there, if it does.
pub fn place_labels(places: &mut Vec<u32>, labels: &[Label], who: Option<u16>, found: &[(u32, u32)])
    ensures { places.new.items ≡ labels_placed 0 labels.now who found.now places.old.items }
{
    for i in (0..found.len()).rev() {
        let (label, place) = found[i];
        if belongs(labels, label, who) {
            set_place(places, label, place);
        }
    }
}
