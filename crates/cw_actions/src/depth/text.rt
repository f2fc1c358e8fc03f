// The text of a depth report.
ghost use Rattle.std.specs.Prelude.{◌≡◌, ◌++◌, length, slice_get, Some, OnOk, IfOk, decimal, codes, flat_map};
ghost use Rattle.cw_correct.specs.Depths.{procedure_name, place_in, place_line, depth_text};

use crate::numbers::put_number;
use cw_depth::Report;
use cw_fields::put_bytes;
use cw_unit::unit::{Proc, Unit};
use cw_word::NoMemory;
use std::alloc::Global;

// The name of a segment's procedure of this number.
fn put_procedure(out: &mut Vec<u8>, procs: &[Proc], number: u16) -> Result<(), NoMemory>
    ensures { OnOk result (out.new.items ≡ out.old.items ++ procedure_name (slice_get procs.now number)) }
{
    match procs.get(number as usize) {
        Some(found) => put_bytes(out, found.name.bytes()),
        None => Ok(()),
    }
}

fn put_in(out: &mut Vec<u8>, unit: &Unit, number: u16) -> Result<(), NoMemory>
    ensures { OnOk result (out.new.items ≡ out.old.items ++ place_in (Some unit.now) number) }
{
    put_bytes(out, unit.name.bytes())?;
    put_bytes(out, b".")?;
    put_procedure(out, unit.procs.as_slice(), number)
}

// The line of a procedure, by the number of its segment, from 1, and its own.
fn put_line(out: &mut Vec<u8>, units: &[Unit], segment: u8, number: u16) -> Result<(), NoMemory>
    ensures { OnOk result (out.new.items ≡ out.old.items ++ place_line units.now (segment, number)) }
{
    if let Some(unit) = units.get(segment.saturating_sub(1) as usize) {
        put_in(out, unit, number)?;
    }
    put_bytes(out, b"\n")
}

fn put_lines(out: &mut Vec<u8>, units: &[Unit], chain: &[(u8, u16)]) -> Result<(), NoMemory>
    ensures { OnOk result (out.new.items ≡ out.old.items ++ flat_map (place_line units.now) chain.now) }
{
    for place in chain {
        put_line(out, units, place.0, place.1)?;
    }
    Ok(())
}

fn put_bound(out: &mut Vec<u8>, units: &[Unit], chain: &[(u8, u16)]) -> Result<(), NoMemory>
    ensures { OnOk result (out.new.items ≡ out.old.items
        ++ (codes "depth " ++ (decimal (length chain.now)
        ++ (codes "\n" ++ flat_map (place_line units.now) chain.now)))) }
{
    put_bytes(out, b"depth ")?;
    put_number(out, chain.len() as u64)?;
    put_bytes(out, b"\n")?;
    put_lines(out, units, chain)
}

fn put_unbounded(
    out: &mut Vec<u8>,
    units: &[Unit],
    segment: u8,
    number: u16,
) -> Result<(), NoMemory>
    ensures { OnOk result (out.new.items ≡ out.old.items ++ (codes "depth none " ++ place_line units.now (segment, number))) }
{
    put_bytes(out, b"depth none ")?;
    put_line(out, units, segment, number)
}

/// The text of a report.
pub(crate) fn report_text(
    alloc: Global,
    units: &[Unit],
    report: &Report,
) -> Result<Vec<u8>, NoMemory>
    ensures { IfOk result (λ text. text.items ≡ depth_text units.now report.now) }
{
    let mut out = Vec::new(alloc);
    match report {
        Report::Bound { chain } => put_bound(&mut out, units, chain.as_slice())?,
        Report::Unbounded { segment, proc } => put_unbounded(&mut out, units, *segment, *proc)?,
    }
    Ok(out)
}
