//! The strings of expressions.
ghost use Rattle.std.specs.Prelude.{◌≡◌, ◌++◌, ◌∷◌, [], map, min, IfOk, OnOk};
ghost use Rattle.cw_preset.specs.Strings.{joined, characters_from, string_words, argument_rows, expression_rows};
ghost use Rattle.cw_preset.specs.Strings.{primary_rows, reference_rows, conjunction_rows};
ghost use Rattle.cw_preset.specs.Strings.{comparison_rows, condition_rows, differ_rows, mask_rows, prim_rows, sum_rows, term_rows, union_rows};

use cw_table::table::Row;
use cw_tree::expression::{
    RawCand, RawCmp, RawCond, RawDiffer, RawExpr, RawMask, RawPrim, RawPrimary, RawRef, RawSum,
    RawTerm, RawUnion,
};
use cw_word::{List, NoMemory};
use std::alloc::Global;

fn characters(text: &[u8], out: &mut List<(u16, u16)>) -> Result<(), NoMemory>
    ensures { OnOk result (out.new ≡ out.old ++ characters_from 1 text.now) }
{
    let mut offset = 1u16;
    for character in text {
        out.push((offset, u16::from(*character)))?;
        offset = offset.saturating_add(1);
    }
    Ok(())
}

fn length_word(length: usize) -> u16
    ensures { result ≡ min length 65535 }
{
    if length <= 65535 {
        length as u16
    } else {
        65535
    }
}

fn string_words(alloc: Global, text: &[u8]) -> Result<List<(u16, u16)>, NoMemory>
    ensures { IfOk result (λ words. words ≡ string_words text.now) }
{
    let mut words = List::new(alloc);
    words.push((0, length_word(text.len())))?;
    characters(text, &mut words)?;
    Ok(words)
}

/// Adds the strings of an expression.
#[cycle(strings)]
pub(crate) fn expression_rows(
    e: &RawExpr,
    alloc: Global,
    out: &mut List<Row<List<(u16, u16)>>>,
) -> Result<(), NoMemory>
    ensures { OnOk result (out.new ≡ out.old ++ expression_rows e.now) }
{
    match e {
        RawExpr::Choice(_, test, first, second) => {
            condition_rows(test.get(), alloc, out)?;
            expression_rows(first.get(), alloc, out)?;
            expression_rows(second.get(), alloc, out)
        }
        RawExpr::Sum(sum) => sum_rows(sum.get(), alloc, out),
    }
}

/// Adds the strings of a condition.
#[cycle(strings)]
pub(crate) fn condition_rows(
    c: &RawCond,
    alloc: Global,
    out: &mut List<Row<List<(u16, u16)>>>,
) -> Result<(), NoMemory>
    ensures { OnOk result (out.new ≡ out.old ++ condition_rows c.now) }
{
    for operand in c.operands.as_slice() {
        conjunction_rows(operand, alloc, out)?;
    }
    Ok(())
}

#[cycle(strings)]
fn conjunction_rows(
    c: &RawCand,
    alloc: Global,
    out: &mut List<Row<List<(u16, u16)>>>,
) -> Result<(), NoMemory>
    ensures { OnOk result (out.new ≡ out.old ++ conjunction_rows c.now) }
{
    for operand in c.operands.as_slice() {
        comparison_rows(operand, alloc, out)?;
    }
    Ok(())
}

#[cycle(strings)]
fn comparison_rows(
    c: &RawCmp,
    alloc: Global,
    out: &mut List<Row<List<(u16, u16)>>>,
) -> Result<(), NoMemory>
    ensures { OnOk result (out.new ≡ out.old ++ comparison_rows c.now) }
{
    sum_rows(c.left.get(), alloc, out)?;
    sum_rows(c.right.get(), alloc, out)
}

#[cycle(strings)]
fn sum_rows(
    e: &RawSum,
    alloc: Global,
    out: &mut List<Row<List<(u16, u16)>>>,
) -> Result<(), NoMemory>
    ensures { OnOk result (out.new ≡ out.old ++ sum_rows e.now) }
{
    for operand in e.operands.as_slice() {
        term_rows(operand, alloc, out)?;
    }
    Ok(())
}

#[cycle(strings)]
fn term_rows(
    e: &RawTerm,
    alloc: Global,
    out: &mut List<Row<List<(u16, u16)>>>,
) -> Result<(), NoMemory>
    ensures { OnOk result (out.new ≡ out.old ++ term_rows e.now) }
{
    for operand in e.operands.as_slice() {
        differ_rows(operand, alloc, out)?;
    }
    Ok(())
}

#[cycle(strings)]
fn differ_rows(
    e: &RawDiffer,
    alloc: Global,
    out: &mut List<Row<List<(u16, u16)>>>,
) -> Result<(), NoMemory>
    ensures { OnOk result (out.new ≡ out.old ++ differ_rows e.now) }
{
    for operand in e.operands.as_slice() {
        union_rows(operand, alloc, out)?;
    }
    Ok(())
}

#[cycle(strings)]
fn union_rows(
    e: &RawUnion,
    alloc: Global,
    out: &mut List<Row<List<(u16, u16)>>>,
) -> Result<(), NoMemory>
    ensures { OnOk result (out.new ≡ out.old ++ union_rows e.now) }
{
    for operand in e.operands.as_slice() {
        mask_rows(operand, alloc, out)?;
    }
    Ok(())
}

#[cycle(strings)]
fn mask_rows(
    e: &RawMask,
    alloc: Global,
    out: &mut List<Row<List<(u16, u16)>>>,
) -> Result<(), NoMemory>
    ensures { OnOk result (out.new ≡ out.old ++ mask_rows e.now) }
{
    for operand in e.operands.as_slice() {
        prim_rows(operand, alloc, out)?;
    }
    Ok(())
}

#[cycle(strings)]
fn prim_rows(
    e: &RawPrim,
    alloc: Global,
    out: &mut List<Row<List<(u16, u16)>>>,
) -> Result<(), NoMemory>
    ensures { OnOk result (out.new ≡ out.old ++ prim_rows e.now) }
{
    primary_rows(&e.primary, alloc, out)
}

#[cycle(strings)]
fn primary_rows(
    e: &RawPrimary,
    alloc: Global,
    out: &mut List<Row<List<(u16, u16)>>>,
) -> Result<(), NoMemory>
    ensures { OnOk result (out.new ≡ out.old ++ primary_rows e.now) }
{
    match e {
        RawPrimary::Number(_) | RawPrimary::Octal(_) | RawPrimary::Literal(_) => Ok(()),
        RawPrimary::Text(at, text) => {
            let words = string_words(alloc, text.as_slice())?;
            out.push(Row {
                token: at.token,
                item: words,
            })
        }
        RawPrimary::Location(_, reference) => reference_rows(reference.get(), alloc, out),
        RawPrimary::Forced(_, e) => expression_rows(e.get(), alloc, out),
        RawPrimary::Bracket(_, e) => expression_rows(e.get(), alloc, out),
        RawPrimary::Ref(reference) => reference_rows(reference, alloc, out),
        RawPrimary::Call(_, arguments) => argument_rows(arguments.as_slice(), alloc, out),
    }
}

/// Adds the strings of arguments.
#[cycle(strings)]
pub(crate) fn argument_rows(
    arguments: &[RawExpr],
    alloc: Global,
    out: &mut List<Row<List<(u16, u16)>>>,
) -> Result<(), NoMemory>
    ensures { OnOk result (out.new ≡ out.old ++ argument_rows arguments.now) }
{
    for argument in arguments {
        expression_rows(argument, alloc, out)?;
    }
    Ok(())
}

/// Adds the strings of a reference.
#[cycle(strings)]
pub(crate) fn reference_rows(
    r: &RawRef,
    alloc: Global,
    out: &mut List<Row<List<(u16, u16)>>>,
) -> Result<(), NoMemory>
    ensures { OnOk result (out.new ≡ out.old ++ reference_rows r.now) }
{
    match r {
        RawRef::Name(_) => Ok(()),
        RawRef::One(_, index) => expression_rows(index.get(), alloc, out),
        RawRef::Two(_, first, second) => {
            expression_rows(first.get(), alloc, out)?;
            expression_rows(second.get(), alloc, out)
        }
        RawRef::Bare(_, address) => expression_rows(address.get(), alloc, out),
    }
}
