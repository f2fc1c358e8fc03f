//! The words that the linker fills.
ghost use Rattle.std.specs.Prelude.{◌≡◌, ◌<◌, ◌^◌, ◌+◌, slice_index, slice_set, length};
ghost use Rattle.cw_tmpl.specs.Library.{library_entry};
ghost use Rattle.cw_tmpl.specs.Pieces.{fill};
ghost use Rattle.cw_view.specs.Reading.{relocation_in};
ghost use Rattle.cw_link.specs.Contents.{records_of};
ghost use Rattle.cw_link.specs.Relocation.{word, word_less, entry_or_zero, limit_word, linked_word};
ghost use Rattle.cw_link.specs.Views.{links_of};

use cw_tmpl::base_entry;
use cw_unit::layout::{Limits, Reloc};
use cw_view::{View, read_reloc};

/// What decides the words of a segment: the addresses of its families and of the definitions of its descriptors, where
/// its code begins, its number, and where the next segment is entered or the program ends.
#[derive(Clone, Copy)]
pub struct Links<'a> {
    pub homes: &'a [u16],
    pub definitions: &'a [u16],
    pub start: u32,
    pub number: u16,
    pub next: u16,
}

pub(crate) fn word(n: u64) -> u16
    ensures { result ≡ word n }
{
    (n % 65536) as u16
}

fn word_less(a: u16, b: u64) -> u16
    ensures { result ≡ word_less a b }
{
    word(u64::from(a) + (65536 - b % 65536))
}

pub(crate) fn entry_or_zero(k: u16) -> u16
    ensures { result ≡ entry_or_zero (library_entry k) }
{
    match base_entry(k) {
        Some(place) => place,
        None => 0,
    }
}

fn limit_word(limits: &Limits, number: u16, index: u16) -> u16
    ensures { result ≡ limit_word limits.now number index }
{
    match index {
        0 => word(u64::from(limits.area)),
        1 => word(u64::from(limits.frames)),
        2 => word(u64::from(limits.depth)),
        _ => number,
    }
}

/// The number at this index, and 0 where there is none.
pub fn number_at(numbers: &[u16], index: u16) -> u16
    ensures { result ≡ slice_index numbers.now index }
{
    match numbers.get(index as usize) {
        Some(number) => *number,
        None => 0,
    }
}

fn address(homes: &[u16], family: u16, offset: u16) -> u64
    ensures value { result ≡ slice_index homes.now family + offset }
    ensures small { result < 2 ^ 17 }
{
    u64::from(number_at(homes, family)) + u64::from(offset)
}

// What a relocated word gets, where the word after it stands at this place of the image.
fn linked_word(links: &Links, limits: &Limits, reloc: &Reloc, after: u64) -> u16
    requires { after < 2 ^ 40 }
    ensures { result ≡ linked_word (links_of links.now) limits.now reloc.now.sort reloc.now.index reloc.now.add after }
{
    match reloc.sort {
        1 => word(address(links.homes, reloc.index, reloc.add)),
        2 => word(2 * address(links.homes, reloc.index, reloc.add)),
        3 => word(u64::from(links.start) + u64::from(reloc.add)),
        4 => number_at(links.definitions, reloc.index),
        5 => word_less(number_at(links.definitions, reloc.index), after),
        6 => entry_or_zero(reloc.index),
        7 => word_less(entry_or_zero(reloc.index), after),
        8 => limit_word(limits, links.number, reloc.index),
        9 => links.next,
        _ => 0,
    }
}

fn put(image: &mut Vec<u8>, at: usize, byte: u8)
    ensures { image.new.items ≡ slice_set image.old.items at byte }
{
    if at < image.len() {
        image[at] = byte;
    }
}

fn put_byte(image: &mut [u8], at: usize, byte: u8)
    ensures { image.new ≡ slice_set image.old at byte }
{
    if at < image.len() {
        image[at] = byte;
    }
}

/// Fills the words of these relocations of a segment, whose code begins there in the image.
pub fn fill(image: &mut [u8], relocs: &[Reloc], links: &Links, limits: &Limits)
    ensures { image.new ≡ fill (linked_word (links_of links.now) limits.now) links.now.start relocs.now image.old }
{
    let base = links.start as usize;
    for reloc in relocs {
        let at = base + reloc.place as usize;
        let value = linked_word(links, limits, reloc, at as u64 + 2);
        put_byte(image, at, (value % 256) as u8);
        put_byte(image, at + 1, (value / 256) as u8);
    }
}

/// Fills the relocated words of a segment, whose code begins there in the image.
pub(crate) fn relocate(image: &mut Vec<u8>, view: &View, links: &Links, limits: &Limits)
    ensures { image.new.items ≡ fill (linked_word (links_of links.now) limits.now) links.now.start (records_of relocation_in 7 view.now) image.old.items }
{
    let base = links.start as usize;
    for payload in view.records(7) {
        if let Some(reloc) = read_reloc(payload) {
            let at = base + reloc.place as usize;
            let value = linked_word(links, limits, &reloc, at as u64 + 2);
            put(image, at, (value % 256) as u8);
            put(image, at + 1, (value / 256) as u8);
        }
    }
}
