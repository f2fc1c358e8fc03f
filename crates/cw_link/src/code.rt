//! The linked code.
ghost use Rattle.std.specs.Prelude.{◌≡◌, ◌≤◌, ◌<◌, ◌+◌, ◌++◌, ℕ, length, map, drop, slice_get, Some, OnOk, IfOk};
ghost use Rattle.cw_tmpl.specs.Library.{library_bytes};
ghost use Rattle.cw_place.specs.Placement.{told_words};
ghost use Rattle.cw_link.specs.Contents.{Contents as ObjectContents, contents_of};
ghost use Rattle.cw_link.specs.LinkedImage.{code_end, joined_code, linked_size, linked_map, definition_address, next_entry, filled_from, linked_code};
ghost use Rattle.cw_link.specs.Definitions.{TellsDefinitions};

use crate::contents::body_of;
use crate::lists::list_at;
use crate::relocation::{Links, entry_or_zero, relocate, word};
use cw_tmpl::base_code;
use cw_unit::layout::Limits;
use cw_view::View;
use cw_word::{List, NoMemory};
use std::alloc::Global;

/// How many bytes the library and the code of objects take.
pub(crate) fn linked_size(views: &[View]) -> u64
    ensures { result ≡ told_words (linked_size (map contents_of views.now)) }
{
    let mut size = base_code().len() as u64;
    for view in views {
        size = size.saturating_add(view.code().len() as u64);
    }
    size
}

fn put(code: &mut Vec<u8>, bytes: &[u8]) -> Result<(), NoMemory>
    ensures { OnOk result (code.new.items ≡ code.old.items ++ bytes.now) }
{
    code.extend_from_slice(bytes).map_err(|_| NoMemory)
}

// The code of the library and of objects, as yet without the words that the linker fills.
fn joined_code(alloc: Global, views: &[View]) -> Result<Vec<u8>, NoMemory>
    ensures { IfOk result (λ code. code.items ≡ library_bytes ++ joined_code (map contents_of views.now)) }
{
    let mut code = Vec::new(alloc);
    put(&mut code, base_code())?;
    for view in views {
        put(&mut code, view.code())?;
    }
    Ok(code)
}

// Where a segment whose code begins there is entered, or the end of the program where there is none.
fn next_entry(views: &[View], segment: usize, start: u32) -> u16
    ensures { result ≡ next_entry start (map contents_of (drop segment views.now)) }
{
    match views.get(segment) {
        Some(view) => word(u64::from(start) + u64::from(body_of(view).entry)),
        None => entry_or_zero(0),
    }
}

/// The linked code of objects, where their families and the definitions of their descriptors have these addresses.
pub(crate) fn linked_code(
    alloc: Global,
    views: &[View],
    limits: &Limits,
    homes: &[List<u16>],
    definitions: &[List<u16>],
) -> Result<List<u8>, NoMemory>
    requires few { length views.now ≤ 200 }
    requires short { linked_size (map contents_of views.now) ≤ 65536 }
    requires homes { homes.now ≡ (linked_map (map contents_of views.now)).homes }
    requires definitions { TellsDefinitions (map contents_of views.now) definitions.now }
    ensures { IfOk result (λ code. code ≡ linked_code (map contents_of views.now) limits.now) }
{
    let mut code = joined_code(alloc, views)?;
    let mut start = base_code().len() as u32;
    for segment in 0..views.len() {
        let view = &views[segment];
        let end = start + view.code().len() as u32;
        let links = Links {
            homes: list_at(homes, segment),
            definitions: list_at(definitions, segment),
            start,
            number: segment as u16 + 1,
            next: next_entry(views, segment + 1, end),
        };
        relocate(&mut code, view, &links, limits);
        start = end;
    }
    Ok(List::of(code))
}
