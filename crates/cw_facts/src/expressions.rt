//! The uses of names in expressions.
ghost use Rattle.std.specs.Prelude.{◌≡◌, ◌++◌, ◌&&◌, ◌==◌, length, map, OnOk, IfOk};
ghost use Rattle.cw_facts.specs.Uses.{argument_uses, expression_uses, condition_uses, conjunction_uses, comparison_uses, sum_uses, term_uses, differ_uses};
ghost use Rattle.cw_facts.specs.Uses.{union_uses, mask_uses, prim_uses, primary_uses, reference_uses, reading_of, indexed, uses_of};

use crate::fact::{Fact, Form, Reading, Use};
use cw_tree::expression::{
    RawCand, RawCmp, RawCond, RawDiffer, RawExpr, RawMask, RawPrim, RawPrimary, RawRef, RawSum,
    RawTerm, RawUnion,
};
use cw_tree::leaf::RawName;
use cw_word::{List, NoMemory};

// A single operand stands for the whole.
fn reading_of(reading: Reading, alone: bool) -> Reading
    ensures { result ≡ reading_of reading alone }
{
    if alone { reading } else { Reading::Value }
}

// A name with an index is no whole argument.
fn indexed(reading: Reading) -> Reading
    ensures { result ≡ indexed reading }
{
    match reading {
        Reading::Argument => Reading::Value,
        other => other,
    }
}

pub(crate) fn note(name: RawName, form: Form, out: &mut List<Fact>) -> Result<(), NoMemory>
    ensures { OnOk result (out.new ≡ out.old ++ uses_of name form) }
{
    out.push(Fact::Uses(Use { name, form }))
}

/// Adds the uses of names in an expression.
#[cycle(uses)]
pub fn expression_uses(e: &RawExpr, reading: Reading, out: &mut List<Fact>) -> Result<(), NoMemory>
    ensures { OnOk result (out.new ≡ out.old ++ expression_uses e.now reading) }
{
    match e {
        RawExpr::Choice(_, test, first, second) => {
            condition_uses(test.get(), out)?;
            expression_uses(first.get(), Reading::Value, out)?;
            expression_uses(second.get(), Reading::Value, out)
        }
        RawExpr::Sum(sum) => sum_uses(sum.get(), reading, out),
    }
}

/// Adds the uses of names in a condition.
#[cycle(uses)]
pub fn condition_uses(c: &RawCond, out: &mut List<Fact>) -> Result<(), NoMemory>
    ensures { OnOk result (out.new ≡ out.old ++ condition_uses c.now Reading.Value) }
{
    for operand in c.operands.as_slice() {
        conjunction_uses(operand, out)?;
    }
    Ok(())
}

#[cycle(uses)]
fn conjunction_uses(c: &RawCand, out: &mut List<Fact>) -> Result<(), NoMemory>
    ensures { OnOk result (out.new ≡ out.old ++ conjunction_uses c.now Reading.Value) }
{
    for operand in c.operands.as_slice() {
        comparison_uses(operand, out)?;
    }
    Ok(())
}

#[cycle(uses)]
fn comparison_uses(c: &RawCmp, out: &mut List<Fact>) -> Result<(), NoMemory>
    ensures { OnOk result (out.new ≡ out.old ++ comparison_uses c.now Reading.Value) }
{
    sum_uses(c.left.get(), Reading::Value, out)?;
    sum_uses(c.right.get(), Reading::Value, out)
}

#[cycle(uses)]
fn sum_uses(e: &RawSum, reading: Reading, out: &mut List<Fact>) -> Result<(), NoMemory>
    ensures { OnOk result (out.new ≡ out.old ++ sum_uses e.now reading) }
{
    let operands = e.operands.as_slice();
    let reading = reading_of(reading, operands.len() == 1 && e.sign.is_none());
    for operand in operands {
        term_uses(operand, reading, out)?;
    }
    Ok(())
}

#[cycle(uses)]
fn term_uses(e: &RawTerm, reading: Reading, out: &mut List<Fact>) -> Result<(), NoMemory>
    ensures { OnOk result (out.new ≡ out.old ++ term_uses e.now reading) }
{
    let operands = e.operands.as_slice();
    let reading = reading_of(reading, operands.len() == 1);
    for operand in operands {
        differ_uses(operand, reading, out)?;
    }
    Ok(())
}

#[cycle(uses)]
fn differ_uses(e: &RawDiffer, reading: Reading, out: &mut List<Fact>) -> Result<(), NoMemory>
    ensures { OnOk result (out.new ≡ out.old ++ differ_uses e.now reading) }
{
    let operands = e.operands.as_slice();
    let reading = reading_of(reading, operands.len() == 1);
    for operand in operands {
        union_uses(operand, reading, out)?;
    }
    Ok(())
}

#[cycle(uses)]
fn union_uses(e: &RawUnion, reading: Reading, out: &mut List<Fact>) -> Result<(), NoMemory>
    ensures { OnOk result (out.new ≡ out.old ++ union_uses e.now reading) }
{
    let operands = e.operands.as_slice();
    let reading = reading_of(reading, operands.len() == 1);
    for operand in operands {
        mask_uses(operand, reading, out)?;
    }
    Ok(())
}

#[cycle(uses)]
fn mask_uses(e: &RawMask, reading: Reading, out: &mut List<Fact>) -> Result<(), NoMemory>
    ensures { OnOk result (out.new ≡ out.old ++ mask_uses e.now reading) }
{
    let operands = e.operands.as_slice();
    let reading = reading_of(reading, operands.len() == 1);
    for operand in operands {
        prim_uses(operand, reading, out)?;
    }
    Ok(())
}

#[cycle(uses)]
fn prim_uses(e: &RawPrim, reading: Reading, out: &mut List<Fact>) -> Result<(), NoMemory>
    ensures { OnOk result (out.new ≡ out.old ++ prim_uses e.now reading) }
{
    let reading = reading_of(reading, e.bits.as_slice().len() == 0);
    primary_uses(&e.primary, reading, out)
}

#[cycle(uses)]
fn primary_uses(e: &RawPrimary, reading: Reading, out: &mut List<Fact>) -> Result<(), NoMemory>
    ensures { OnOk result (out.new ≡ out.old ++ primary_uses e.now reading) }
{
    match e {
        RawPrimary::Number(_) | RawPrimary::Octal(_) | RawPrimary::Literal(_) => Ok(()),
        RawPrimary::Text(at, text) => out.push(Fact::Text(*at, text.as_slice().len())),
        RawPrimary::Location(_, reference) => {
            reference_uses(reference.get(), Reading::Whole, out)
        }
        RawPrimary::Forced(_, e) => expression_uses(e.get(), Reading::Value, out),
        RawPrimary::Bracket(_, e) => expression_uses(e.get(), Reading::Value, out),
        RawPrimary::Ref(reference) => reference_uses(reference, reading, out),
        RawPrimary::Call(name, arguments) => {
            note(*name.get(), Form::CallValue, out)?;
            argument_uses(arguments.as_slice(), out)
        }
    }
}

/// Adds the uses of names in arguments.
#[cycle(uses)]
pub fn argument_uses(arguments: &[RawExpr], out: &mut List<Fact>) -> Result<(), NoMemory>
    ensures { OnOk result (out.new ≡ out.old ++ argument_uses arguments.now) }
{
    for argument in arguments {
        expression_uses(argument, Reading::Argument, out)?;
    }
    Ok(())
}

/// Adds the uses of names in a reference that is wanted for something.
#[cycle(uses)]
pub fn reference_uses(r: &RawRef, reading: Reading, out: &mut List<Fact>) -> Result<(), NoMemory>
    ensures { OnOk result (out.new ≡ out.old ++ reference_uses r.now reading) }
{
    match r {
        RawRef::Name(name) => note(*name, Form::Reference(reading, 0), out),
        RawRef::One(name, index) => {
            note(*name, Form::Reference(indexed(reading), 1), out)?;
            expression_uses(index.get(), Reading::Value, out)
        }
        RawRef::Two(name, first, second) => {
            note(*name.get(), Form::Reference(indexed(reading), 2), out)?;
            expression_uses(first.get(), Reading::Value, out)?;
            expression_uses(second.get(), Reading::Value, out)
        }
        RawRef::Bare(_, address) => expression_uses(address.get(), Reading::Value, out),
    }
}
