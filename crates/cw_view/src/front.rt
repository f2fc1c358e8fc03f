//! What the records of an object tell to the one after them, and which may come next.
ghost use Rattle.std.specs.Prelude.{◌≡◌, ◌≤◌, ◌<◌, ◌+◌, ◌*◌, ◌&&◌, ◌||◌, ◌^◌, length, is_some};
ghost use Rattle.cw_fields.specs.Fields.{Gives, whole};
ghost use Rattle.cw_fields.specs.Names.{name_in};
ghost use Rattle.cw_view.specs.Views.{entry_of};
ghost use Rattle.cw_view.specs.ObjectFormat.{can_follow, has_base, is_placed, is_named, has_words, has_preset};
ghost use Rattle.cw_view.specs.ObjectFormat.{is_blank, has_index, rises, is_allowed, next_record};
ghost use Rattle.cw_view.specs.Fronts.{facts_at, no_front, numbered, front_with};
ghost use Rattle.cw_view.specs.ObjectFormat.{Relocation, Definition, Statement};

use crate::descriptor::descriptor_base;
use crate::payload::{
    read_body, read_definition, read_family, read_item, read_preset, read_reloc, read_statement,
};
use cw_fields::name_in;
use cw_unit::layout::{Family, ItemView, Reloc, Sort};
use cw_unit::unit::ItemKind;

/// The bytes of a record before its payload.
pub(crate) const HEAD: usize = 5;

/// The bytes of a family's payload.
const FAMILY: usize = 7;

/// The kind of the last record.
pub(crate) const END: u8 = 255;

/// What the records so far tell: the kind of the last one and the number with which it begins, how many descriptors
/// there are, where the records of families stand and how many there are, and where the code is.
#[derive(Clone, Copy)]
pub(crate) struct Front {
    pub kind: u8,
    pub number: u32,
    pub descriptors: usize,
    pub families: usize,
    pub families_at: usize,
    pub code_at: usize,
    pub code_len: usize,
}

/// Whether a record of a kind may come behind one of another, and 0 is none.
pub(crate) fn can_follow(version: u16, last: u8, kind: u8) -> bool
    ensures { result ≡ can_follow version last kind }
{
    if last == 0 {
        kind == 1
    } else if last < 6 {
        last <= kind && 2 <= kind && kind <= 6
    } else if last < 9 {
        last <= kind && 7 <= kind && kind <= 9
    } else if last == 255 {
        false
    } else {
        kind == 255 || (version == 2 && kind == 10)
    }
}

fn is_placed(descriptors: usize, sort: Sort, extent: u32) -> bool
    ensures { result ≡ is_placed descriptors sort extent }
{
    match sort {
        Sort::Common(descriptor) => (descriptor as usize) < descriptors,
        Sort::Own | Sort::Absolute(_) => true,
        Sort::Frame(offset) => u64::from(offset) + u64::from(extent) <= 32_768,
    }
}

fn is_named(item: &ItemView) -> bool
    ensures { result ≡ is_named (entry_of item.now) }
{
    match item.kind {
        ItemKind::Single | ItemKind::Array | ItemKind::Table => !item.name.is_empty(),
        ItemKind::Text | ItemKind::Loop => item.name.is_empty() && !item.common,
    }
}

fn has_words(offset: u16, words: u32, family: Option<Family>) -> bool
    ensures { result ≡ has_words offset words family }
{
    match family {
        None => false,
        Some(family) => u64::from(offset) + u64::from(words) <= u64::from(family.extent),
    }
}

fn has_preset(offset: u16, family: Option<Family>) -> bool
    ensures { result ≡ has_preset offset family }
{
    match family {
        None => false,
        Some(family) => {
            !matches!(family.sort, Sort::Frame(_)) && u32::from(offset) < family.extent
        }
    }
}

fn is_blank(code: &[u8], place: u32) -> bool
    ensures { result ≡ is_blank code.now place }
{
    let place = place as usize;
    place + 1 < code.len() && code[place] == 0 && code[place + 1] == 0
}

impl Front {
    /// No record yet.
    pub(crate) fn new() -> Front
        ensures { result ≡ no_front }
    {
        Front {
            kind: 0,
            number: 0,
            descriptors: 0,
            families: 0,
            families_at: 0,
            code_at: 0,
            code_len: 0,
        }
    }

    fn family(&self, bytes: &[u8], index: u16) -> Option<Family>
        requires { self.now.families_at + 12 * self.now.families ≤ length bytes.now }
        ensures { result ≡ (facts_at bytes.now self.now).family index }
    {
        let index = index as usize;
        if index >= self.families {
            return None;
        }
        let at = self.families_at + 12 * index + HEAD;
        read_family(&bytes[at..at + FAMILY])
    }

    pub(crate) fn code<'a>(&self, bytes: &'a [u8]) -> &'a [u8]
        requires { self.now.code_at + self.now.code_len ≤ length bytes.now }
        ensures { result.now ≡ (facts_at bytes.now self.now).code }
    {
        &bytes[self.code_at..self.code_at + self.code_len]
    }

    fn rises(&self, kind: u8, by: u32, number: u32) -> bool
        requires { by < 256 }
        ensures { result ≡ rises self.now.kind self.now.number kind by number }
    {
        self.kind != kind || u64::from(self.number) + u64::from(by) <= u64::from(number)
    }

    fn has_index(&self, bytes: &[u8], sort: u8, index: u16) -> bool
        requires { self.now.families_at + 12 * self.now.families ≤ length bytes.now }
        ensures { result ≡ has_index (facts_at bytes.now self.now) sort index }
    {
        match sort {
            1 | 2 => self.family(bytes, index).is_some(),
            4 | 5 => (index as usize) < self.descriptors,
            8 => index <= 3,
            3 | 6 | 7 | 9 => true,
            _ => false,
        }
    }

    fn allows_relocation(&self, bytes: &[u8], relocation: &Reloc) -> bool
        requires families { self.now.families_at + 12 * self.now.families ≤ length bytes.now }
        requires code { self.now.code_at + self.now.code_len ≤ length bytes.now }
        ensures { result ≡ is_allowed (facts_at bytes.now self.now) (Relocation relocation.now) }
    {
        is_blank(self.code(bytes), relocation.place)
            && self.rises(7, 2, relocation.place)
            && self.has_index(bytes, relocation.sort, relocation.index)
    }

    fn allows_definition(&self, bytes: &[u8], descriptor: u16, place: u32) -> bool
        requires { self.now.code_at + self.now.code_len ≤ length bytes.now }
        ensures { result ≡ is_allowed (facts_at bytes.now self.now) (Definition (descriptor, place)) }
    {
        (descriptor as usize) < self.descriptors
            && (place as usize) < self.code(bytes).len()
            && self.rises(8, 1, u32::from(descriptor))
    }

    fn allows_statement(&self, bytes: &[u8], place: u32, line: u16) -> bool
        requires { self.now.code_at + self.now.code_len ≤ length bytes.now }
        ensures { result ≡ is_allowed (facts_at bytes.now self.now) (Statement (place, line)) }
    {
        (place as usize) < self.code(bytes).len() && self.rises(10, 1, place)
    }

    fn next_name(&self, bytes: &[u8], payload: &[u8]) -> Option<u32>
        ensures { Gives (λ n. n) result (numbered (next_record (facts_at bytes.now self.now) 1 payload.now)) }
    {
        let (_, rest) = name_in(payload)?;
        rest.is_empty().then_some(0)
    }

    fn next_descriptor(&self, bytes: &[u8], payload: &[u8]) -> Option<u32>
        ensures { Gives (λ n. n) result (numbered (next_record (facts_at bytes.now self.now) 2 payload.now)) }
    {
        let over = descriptor_base(payload)?;
        if let Some((base, _)) = over {
            if (base as usize) >= self.descriptors {
                return None;
            }
        }
        Some(0)
    }

    fn next_family(&self, bytes: &[u8], payload: &[u8]) -> Option<u32>
        ensures { Gives (λ n. n) result (numbered (next_record (facts_at bytes.now self.now) 3 payload.now)) }
    {
        let family = read_family(payload)?;
        is_placed(self.descriptors, family.sort, family.extent).then_some(0)
    }

    fn next_item(&self, bytes: &[u8], payload: &[u8]) -> Option<u32>
        requires { self.now.families_at + 12 * self.now.families ≤ length bytes.now }
        ensures { Gives (λ n. n) result (numbered (next_record (facts_at bytes.now self.now) 4 payload.now)) }
    {
        let item = read_item(payload)?;
        let fits = is_named(&item)
            && has_words(item.offset, item.words, self.family(bytes, item.family));
        fits.then_some(0)
    }

    fn next_preset(&self, bytes: &[u8], payload: &[u8]) -> Option<u32>
        requires { self.now.families_at + 12 * self.now.families ≤ length bytes.now }
        ensures { Gives (λ n. n) result (numbered (next_record (facts_at bytes.now self.now) 5 payload.now)) }
    {
        let preset = read_preset(payload)?;
        has_preset(preset.offset, self.family(bytes, preset.family)).then_some(0)
    }

    fn next_relocation(&self, bytes: &[u8], payload: &[u8]) -> Option<u32>
        requires families { self.now.families_at + 12 * self.now.families ≤ length bytes.now }
        requires code { self.now.code_at + self.now.code_len ≤ length bytes.now }
        ensures { Gives (λ n. n) result (numbered (next_record (facts_at bytes.now self.now) 7 payload.now)) }
    {
        let relocation = read_reloc(payload)?;
        self.allows_relocation(bytes, &relocation)
            .then_some(relocation.place)
    }

    fn next_definition(&self, bytes: &[u8], payload: &[u8]) -> Option<u32>
        requires { self.now.code_at + self.now.code_len ≤ length bytes.now }
        ensures { Gives (λ n. n) result (numbered (next_record (facts_at bytes.now self.now) 8 payload.now)) }
    {
        let (descriptor, place) = read_definition(payload)?;
        self.allows_definition(bytes, descriptor, place)
            .then_some(u32::from(descriptor))
    }

    fn next_body(&self, bytes: &[u8], payload: &[u8]) -> Option<u32>
        requires { self.now.code_at + self.now.code_len ≤ length bytes.now }
        ensures { Gives (λ n. n) result (numbered (next_record (facts_at bytes.now self.now) 9 payload.now)) }
    {
        let body = read_body(payload)?;
        ((body.entry as usize) < self.code_len).then_some(0)
    }

    fn next_statement(&self, bytes: &[u8], payload: &[u8]) -> Option<u32>
        requires { self.now.code_at + self.now.code_len ≤ length bytes.now }
        ensures { Gives (λ n. n) result (numbered (next_record (facts_at bytes.now self.now) 10 payload.now)) }
    {
        let (place, line) = read_statement(payload)?;
        self.allows_statement(bytes, place, line).then_some(place)
    }

    /// The number with which a record begins, 0 where it has none, where the record may come next.
    pub(crate) fn next(&self, bytes: &[u8], kind: u8, payload: &[u8]) -> Option<u32>
        requires families { self.now.families_at + 12 * self.now.families ≤ length bytes.now }
        requires code { self.now.code_at + self.now.code_len ≤ length bytes.now }
        ensures { Gives (λ n. n) result (numbered (next_record (facts_at bytes.now self.now) kind payload.now)) }
    {
        match kind {
            1 => self.next_name(bytes, payload),
            2 => self.next_descriptor(bytes, payload),
            3 => self.next_family(bytes, payload),
            4 => self.next_item(bytes, payload),
            5 => self.next_preset(bytes, payload),
            6 => Some(0),
            7 => self.next_relocation(bytes, payload),
            8 => self.next_definition(bytes, payload),
            9 => self.next_body(bytes, payload),
            10 => self.next_statement(bytes, payload),
            255 => { if payload.is_empty() { Some(0) } else { None } }
            _ => None,
        }
    }

    /// What the records tell with one more, whose payload has a size and which begins with a number.
    pub(crate) fn with(&self, at: usize, kind: u8, size: usize, number: u32) -> Front
        requires short { at + 5 + size < 2 ^ 63 }
        requires few { self.now.descriptors + self.now.families ≤ at }
        ensures { result ≡ front_with self.now at kind size number }
    {
        let mut front = *self;
        front.kind = kind;
        front.number = number;
        if kind == 2 {
            front.descriptors += 1;
        }
        if kind == 3 {
            if front.families == 0 {
                front.families_at = at;
            }
            front.families += 1;
        }
        if kind == 6 {
            front.code_at = at + HEAD;
            front.code_len = size;
        }
        front
    }
}
