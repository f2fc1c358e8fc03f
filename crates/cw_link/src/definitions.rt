//! The addresses of definitions.
ghost use Rattle.std.specs.Prelude.{◌≡◌, ◌≤◌, ◌<◌, ℕ, ◌+◌, ◌^◌, nat_eq, if◌then◌else◌, Some, None};
ghost use Rattle.std.specs.Prelude.{length, map, option_map, slice_get, slice_index_or, IfOk};
ghost use Rattle.cw_view.specs.Reading.{definition_in};
ghost use Rattle.cw_tmpl.specs.Library.{library_bytes};
ghost use Rattle.cw_comm.specs.Agreement.{or_else};
ghost use Rattle.cw_link.specs.Contents.{records_of, contents_of};
ghost use Rattle.cw_link.specs.Relocation.{word, entry_or_zero};
ghost use Rattle.cw_link.specs.LinkedImage.{code_end};
ghost use Rattle.cw_link.specs.Definitions.{numbered_in, numbered_from, definitions_by};

use crate::lists::list_at;
use crate::relocation::word;
use cw_view::{View, read_definition};
use cw_word::{List, NoMemory};
use std::alloc::Global;

fn number_of(numbers: &[usize], descriptor: u16) -> Option<usize>
    ensures { result ≡ slice_get numbers.now descriptor }
{
    numbers.get(descriptor as usize).copied()
}

fn address_of(table: &[Option<u16>], number: usize) -> Option<u16>
    ensures { result ≡ slice_index_or table.now number None }
{
    match table.get(number) {
        Some(address) => *address,
        None => None,
    }
}

// Enters the address of a name's definition, unless it has an earlier one.
fn enter(table: &mut Vec<Option<u16>>, number: usize, address: u16)
    ensures count { length table.new.items ≡ length table.old.items }
    ensures told { (k : ℕ) → k < length table.old.items
        → slice_index_or table.new.items k None
        ≡ or_else (slice_index_or table.old.items k None) (if nat_eq k number then Some address else None) }
{
    if number < table.len() {
        match table[number] {
            Some(_) => {}
            None => table[number] = Some(address),
        }
    }
}

// Enters the definitions of a segment, the numbers of whose descriptors are these and whose code begins there.
fn enter_definitions(table: &mut Vec<Option<u16>>, view: &View, numbers: &[usize], start: u32)
    ensures count { length table.new.items ≡ length table.old.items }
    ensures told { (k : ℕ) → k < length table.old.items
        → slice_index_or table.new.items k None
        ≡ or_else (slice_index_or table.old.items k None)
        (option_map (λ place. word (start + place))
        (numbered_in k numbers.now (records_of definition_in 8 view.now))) }
{
    for payload in view.records(8) {
        if let Some((descriptor, place)) = read_definition(payload) {
            if let Some(number) = number_of(numbers, descriptor) {
                enter(table, number, word(u64::from(start) + u64::from(place)));
            }
        }
    }
}

/// For each of so many names the address of its definition, where the code of the first segment begins there.
pub(crate) fn addresses(
    alloc: Global,
    views: &[View],
    numbers: &[List<usize>],
    names: usize,
    start: u32,
) -> Result<Vec<Option<u16>>, NoMemory>
    requires { code_end start (map contents_of views.now) ≤ 65536 }
    ensures count { IfOk result (λ table. length table.items ≡ names) }
    ensures told { IfOk result (λ table. (k : ℕ) → k < names
        → slice_index_or table.items k None ≡ numbered_from start 0 k numbers.now (map contents_of views.now)) }
{
    let mut table = vec![in alloc; None; names].map_err(|_| NoMemory)?;
    let mut place = start;
    for segment in 0..views.len() {
        let view = &views[segment];
        enter_definitions(&mut table, view, list_at(numbers, segment), place);
        place += view.code().len() as u32;
    }
    Ok(table)
}

fn address_or_zero(table: &[Option<u16>], number: usize) -> u16
    ensures { result ≡ entry_or_zero (slice_index_or table.now number None) }
{
    match address_of(table, number) {
        Some(address) => address,
        None => 0,
    }
}

// The addresses of the definitions of a segment's descriptors, 0 for one without.
fn definitions_of(
    alloc: Global,
    table: &[Option<u16>],
    numbers: &[usize],
) -> Result<List<u16>, NoMemory>
    ensures { IfOk result (λ definitions. definitions ≡ definitions_by table.now numbers.now) }
{
    let mut definitions = List::new(alloc);
    for number in numbers {
        definitions.push(address_or_zero(table, *number))?;
    }
    Ok(definitions)
}

/// The same for each segment.
pub(crate) fn all_definitions(
    alloc: Global,
    table: &[Option<u16>],
    numbers: &[List<usize>],
) -> Result<List<List<u16>>, NoMemory>
    ensures { IfOk result (λ definitions. definitions ≡ map (definitions_by table.now) numbers.now) }
{
    let mut definitions = List::new(alloc);
    for segment in numbers {
        definitions.push(definitions_of(alloc, table, segment.as_slice())?)?;
    }
    Ok(definitions)
}
