//! The remarks on a segment.
ghost use Rattle.std.specs.Prelude.{◌≡◌, ◌≤◌, ◌%◌, ◌++◌, ◌∷◌, [], map, slice_get, IfOk, OnOk};
ghost use Rattle.cw_listing.specs.Remarks.{segment_remark, procedure_name, procedure_remark, label_line_of, label_remark, switch_remark, numbered};
ghost use Rattle.cw_listing.specs.Remarks.{placed, line_starts, statement_text, statement_remark, statement_remarks, segment_remarks};

use crate::remark::Remark;
use crate::source::{add_source_line, line_starts};
use cw_nasm::{add, add_decimal, add_four_hex};
use cw_tmpl::Code;
use cw_unit::unit::{Label, Proc, Unit};
use cw_word::{List, Name, NoMemory};
use std::alloc::Global;

fn segment_remark(alloc: Global, start: u64, name: &Name) -> Result<Remark, NoMemory>
    ensures { IfOk result (λ remark. remark ≡ segment_remark start name.now) }
{
    let mut text = Vec::new(alloc);
    add(&mut text, b"SEGMENT ")?;
    add(&mut text, name.bytes())?;
    add(&mut text, b", entry at ")?;
    add_four_hex(&mut text, (start % 65536) as u16)?;
    Ok(Remark {
        place: start,
        text: List::of(text),
    })
}

fn add_procedure_name(
    text: &mut Vec<u8>,
    procedures: &[Proc],
    number: usize,
) -> Result<(), NoMemory>
    ensures { OnOk result (text.new.items ≡ text.old.items ++ procedure_name (slice_get procedures.now number)) }
{
    match procedures.get(number) {
        Some(procedure) => add(text, procedure.name.bytes()),
        None => Ok(()),
    }
}

fn procedure_remark(
    alloc: Global,
    start: u64,
    procedures: &[Proc],
    number: usize,
    place: u32,
) -> Result<Remark, NoMemory>
    requires { start ≤ 65536 }
    ensures { IfOk result (λ remark. remark ≡ procedure_remark start procedures.now number place) }
{
    let mut text = Vec::new(alloc);
    add(&mut text, b"PROCEDURE ")?;
    add_procedure_name(&mut text, procedures, number)?;
    Ok(Remark {
        place: start + u64::from(place),
        text: List::of(text),
    })
}

fn add_procedures(
    alloc: Global,
    remarks: &mut List<Remark>,
    start: u64,
    procedures: &[Proc],
    places: &[u32],
) -> Result<(), NoMemory>
    requires { start ≤ 65536 }
    ensures { OnOk result (remarks.new ≡ remarks.old ++ numbered (procedure_remark start procedures.now) 0 places.now) }
{
    for k in 0..places.len() {
        remarks.push(procedure_remark(alloc, start, procedures, k, places[k])?)?;
    }
    Ok(())
}

fn label_line_of(labels: &[Label], number: usize) -> u16
    ensures { result ≡ label_line_of (slice_get labels.now number) }
{
    match labels.get(number) {
        Some(label) => label.line,
        None => 0,
    }
}

fn label_remark(
    alloc: Global,
    start: u64,
    labels: &[Label],
    number: usize,
    place: u32,
) -> Result<Remark, NoMemory>
    requires { start ≤ 65536 }
    ensures { IfOk result (λ remark. remark ≡ label_remark start labels.now number place) }
{
    let mut text = Vec::new(alloc);
    add(&mut text, b"LABEL of line ")?;
    add_decimal(&mut text, u32::from(label_line_of(labels, number)))?;
    Ok(Remark {
        place: start + u64::from(place),
        text: List::of(text),
    })
}

fn add_labels(
    alloc: Global,
    remarks: &mut List<Remark>,
    start: u64,
    labels: &[Label],
    places: &[u32],
) -> Result<(), NoMemory>
    requires { start ≤ 65536 }
    ensures { OnOk result (remarks.new ≡ remarks.old ++ placed (label_remark start labels.now) 0 places.now) }
{
    for k in 0..places.len() {
        if places[k] != 0 {
            remarks.push(label_remark(alloc, start, labels, k, places[k])?)?;
        }
    }
    Ok(())
}

fn switch_remark(alloc: Global, start: u64, number: usize, place: u32) -> Result<Remark, NoMemory>
    requires { start ≤ 65536 }
    ensures { IfOk result (λ remark. remark ≡ switch_remark start number place) }
{
    let mut text = Vec::new(alloc);
    add(&mut text, b"SWITCH ")?;
    if number >= 65536 {
        return Err(NoMemory);
    }
    add_decimal(&mut text, number as u32 + 1)?;
    Ok(Remark {
        place: start + u64::from(place),
        text: List::of(text),
    })
}

fn add_switches(
    alloc: Global,
    remarks: &mut List<Remark>,
    start: u64,
    places: &[u32],
) -> Result<(), NoMemory>
    requires { start ≤ 65536 }
    ensures { OnOk result (remarks.new ≡ remarks.old ++ placed (switch_remark start) 0 places.now) }
{
    for k in 0..places.len() {
        if places[k] != 0 {
            remarks.push(switch_remark(alloc, start, k, places[k])?)?;
        }
    }
    Ok(())
}

fn add_statement_text(
    text: &mut Vec<u8>,
    name: &Name,
    source: &[u8],
    starts: &[u64],
    line: u16,
) -> Result<(), NoMemory>
    ensures { OnOk result (text.new.items ≡ text.old.items ++ statement_text name.now source.now starts.now line) }
{
    add(text, name.bytes())?;
    add(text, b":")?;
    add_decimal(text, u32::from(line))?;
    add(text, b"  ")?;
    add_source_line(text, source, starts, line)
}

fn statement_remark(
    alloc: Global,
    start: u64,
    name: &Name,
    source: &[u8],
    starts: &[u64],
    statement: (u32, u16),
) -> Result<Remark, NoMemory>
    requires { start ≤ 65536 }
    ensures { IfOk result (λ remark. remark ≡ statement_remark start name.now source.now starts.now statement) }
{
    let (place, line) = statement;
    let mut text = Vec::new(alloc);
    add_statement_text(&mut text, name, source, starts, line)?;
    Ok(Remark {
        place: start + u64::from(place),
        text: List::of(text),
    })
}

fn add_each_statement(
    alloc: Global,
    remarks: &mut List<Remark>,
    start: u64,
    name: &Name,
    source: &[u8],
    starts: &[u64],
    statements: &[(u32, u16)],
) -> Result<(), NoMemory>
    requires { start ≤ 65536 }
    ensures { OnOk result (remarks.new ≡ remarks.old ++ map (statement_remark start name.now source.now starts.now) statements.now) }
{
    for k in 0..statements.len() {
        remarks.push(statement_remark(alloc, start, name, source, starts, statements[k])?)?;
    }
    Ok(())
}

fn add_statements(
    alloc: Global,
    remarks: &mut List<Remark>,
    start: u64,
    name: &Name,
    source: &[u8],
    statements: &[(u32, u16)],
) -> Result<(), NoMemory>
    requires { start ≤ 65536 }
    ensures { OnOk result (remarks.new ≡ remarks.old ++ statement_remarks start name.now source.now statements.now) }
{
    let starts = line_starts(alloc, source)?;
    add_each_statement(
        alloc,
        remarks,
        start,
        name,
        source,
        starts.as_slice(),
        statements,
    )
}

/// Adds the remarks on a segment, whose linked code begins at a place.
pub(crate) fn add_segment(
    alloc: Global,
    remarks: &mut List<Remark>,
    start: u64,
    unit: &Unit,
    code: &Code,
    source: &[u8],
) -> Result<(), NoMemory>
    requires { start ≤ 65536 }
    ensures { OnOk result (remarks.new ≡ remarks.old ++ segment_remarks start unit.now code.now source.now) }
{
    remarks.push(segment_remark(alloc, start, &unit.name)?)?;
    add_procedures(
        alloc,
        remarks,
        start,
        unit.procs.as_slice(),
        code.procedures.as_slice(),
    )?;
    add_labels(
        alloc,
        remarks,
        start,
        unit.labels.as_slice(),
        code.labels.as_slice(),
    )?;
    add_switches(alloc, remarks, start, code.switches.as_slice())?;
    add_statements(
        alloc,
        remarks,
        start,
        &unit.name,
        source,
        code.statements.as_slice(),
    )
}
