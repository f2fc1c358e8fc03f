//! The payloads of records, all but those of descriptors.
ghost use Rattle.std.specs.Prelude.{◌≡◌, ◌||◌, ◌==◌};
ghost use Rattle.cw_fields.specs.Fields.{Gives, whole};
ghost use Rattle.cw_fields.specs.Names.{is_empty};
ghost use Rattle.cw_view.specs.Reading.{family_in, sort_of, item_in, item_kind_of, item_kind_in, item_place_in};
ghost use Rattle.cw_view.specs.Reading.{preset_in, relocation_in, definition_in, body_facts_in, statement_in};
ghost use Rattle.cw_view.specs.Views.{entry_of};

use cw_fields::{byte_in, flag_in, long_in, name_or_empty_in, word_in};
use cw_unit::layout::{Body, Family, ItemView, Preset, Reloc, Sort};
use cw_unit::unit::ItemKind;

fn sort_of(number: u8, operand: u16) -> Option<Sort>
    ensures { result ≡ sort_of number operand }
{
    match (number, operand) {
        (0, _) => Some(Sort::Common(operand)),
        (1, 0) => Some(Sort::Own),
        (2, _) => Some(Sort::Absolute(operand)),
        (3, _) => Some(Sort::Frame(operand)),
        _ => None,
    }
}

/// The family of a payload, exactly where it is of the form.
pub fn read_family(payload: &[u8]) -> Option<Family>
    ensures { Gives (λ f. f) result (whole family_in payload.now) }
{
    let (number, rest) = byte_in(payload)?;
    let (operand, rest) = word_in(rest)?;
    let (extent, rest) = long_in(rest)?;
    let sort = sort_of(number, operand)?;
    if !rest.is_empty() {
        return None;
    }
    Some(Family { sort, extent })
}

fn item_kind_of(number: u8) -> Option<ItemKind>
    ensures { result ≡ item_kind_of number }
{
    match number {
        0 => Some(ItemKind::Single),
        1 => Some(ItemKind::Array),
        2 => Some(ItemKind::Table),
        3 => Some(ItemKind::Text),
        4 => Some(ItemKind::Loop),
        _ => None,
    }
}

#[tactic(auto, unfolding(crate::specs::Reading::item_kind_in))]
fn item_kind_in(bytes: &[u8]) -> Option<(ItemKind, &[u8])>
    ensures { Gives (λ x. (x.0, x.1.now)) result (item_kind_in bytes.now) }
{
    let (number, rest) = byte_in(bytes)?;
    let kind = item_kind_of(number)?;
    Some((kind, rest))
}

// What an item's record tells behind its line.
#[derive(Clone, Copy)]
struct ItemPlace {
    kind: ItemKind,
    common: bool,
    family: u16,
    offset: u16,
    words: u32,
}

#[tactic(auto, unfolding(crate::specs::Reading::item_place_in))]
fn item_place_in(bytes: &[u8]) -> Option<(ItemPlace, &[u8])>
    ensures { Gives (λ x. ((x.0.kind, (x.0.common, (x.0.family, (x.0.offset, x.0.words)))), x.1.now)) result (item_place_in bytes.now) }
{
    let (kind, rest) = item_kind_in(bytes)?;
    let (common, rest) = flag_in(rest)?;
    let (family, rest) = word_in(rest)?;
    let (offset, rest) = word_in(rest)?;
    let (words, rest) = long_in(rest)?;
    Some((
        ItemPlace {
            kind,
            common,
            family,
            offset,
            words,
        },
        rest,
    ))
}

// Whether an item may have this line.
fn may_have_line(name: &[u8], line: u16) -> bool
    ensures { result ≡ (is_empty name.now || line == 0) }
{
    name.is_empty() || line == 0
}

fn item_in<'a>(bytes: &'a [u8]) -> Option<(ItemView<'a>, &'a [u8])>
    ensures { Gives (λ x. (entry_of x.0, x.1.now)) result (item_in bytes.now) }
{
    let (owner, rest) = name_or_empty_in(bytes)?;
    let (name, rest) = name_or_empty_in(rest)?;
    let (line, rest) = word_in(rest)?;
    let (place, rest) = item_place_in(rest)?;
    if !may_have_line(name, line) {
        return None;
    }
    let item = ItemView {
        owner,
        name,
        line,
        kind: place.kind,
        common: place.common,
        family: place.family,
        offset: place.offset,
        words: place.words,
    };
    Some((item, rest))
}

/// The item of a payload, exactly where it is of the form. Its names are slices of the payload.
pub fn read_item<'a>(payload: &'a [u8]) -> Option<ItemView<'a>>
    ensures { Gives entry_of result (whole item_in payload.now) }
{
    let (item, rest) = item_in(payload)?;
    if !rest.is_empty() {
        return None;
    }
    Some(item)
}

/// The preset of a payload, exactly where it is of the form.
pub fn read_preset(payload: &[u8]) -> Option<Preset>
    ensures { Gives (λ p. p) result (whole preset_in payload.now) }
{
    let (family, rest) = word_in(payload)?;
    let (offset, rest) = word_in(rest)?;
    let (word, rest) = word_in(rest)?;
    if !rest.is_empty() {
        return None;
    }
    Some(Preset {
        family,
        offset,
        word,
    })
}

/// The relocation of a payload, exactly where it is of the form.
pub fn read_reloc(payload: &[u8]) -> Option<Reloc>
    ensures { Gives (λ r. r) result (whole relocation_in payload.now) }
{
    let (place, rest) = long_in(payload)?;
    let (sort, rest) = byte_in(rest)?;
    let (index, rest) = word_in(rest)?;
    let (add, rest) = word_in(rest)?;
    if !rest.is_empty() {
        return None;
    }
    Some(Reloc {
        place,
        sort,
        index,
        add,
    })
}

/// The descriptor that a payload defines, and the place of its definition, exactly where it is of the form.
pub fn read_definition(payload: &[u8]) -> Option<(u16, u32)>
    ensures { Gives (λ d. d) result (whole definition_in payload.now) }
{
    let (descriptor, rest) = word_in(payload)?;
    let (place, rest) = long_in(rest)?;
    if !rest.is_empty() {
        return None;
    }
    Some((descriptor, place))
}

/// The facts of a segment's body, exactly where the payload is of the form.
pub fn read_body(payload: &[u8]) -> Option<Body>
    ensures { Gives (λ b. b) result (whole body_facts_in payload.now) }
{
    let (entry, rest) = long_in(payload)?;
    let (need, rest) = word_in(rest)?;
    let (tokens, rest) = long_in(rest)?;
    if !rest.is_empty() {
        return None;
    }
    Some(Body {
        entry,
        need,
        tokens,
    })
}

/// The place and the line of a statement, exactly where the payload is of the form.
pub fn read_statement(payload: &[u8]) -> Option<(u32, u16)>
    ensures { Gives (λ s. s) result (whole statement_in payload.now) }
{
    let (place, rest) = long_in(payload)?;
    let (line, rest) = word_in(rest)?;
    if line == 0 {
        return None;
    }
    if !rest.is_empty() {
        return None;
    }
    Some((place, line))
}
