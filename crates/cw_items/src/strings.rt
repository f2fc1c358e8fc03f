//! The strings of expressions.
ghost use Rattle.std.specs.Prelude.{◌≡◌, ◌+◌, ◌++◌, ◌∷◌, [], None, OnOk};
ghost use Rattle.cw_facts.specs.declared.fact.Reading.{Reading};
ghost use Rattle.cw_facts.specs.Uses.{argument_uses, expression_uses, condition_uses, conjunction_uses, comparison_uses, sum_uses, term_uses};
ghost use Rattle.cw_facts.specs.Uses.{differ_uses, union_uses, mask_uses, prim_uses, primary_uses, reference_uses};
ghost use Rattle.cw_items.specs.Things.{capped, texts, thing};

use crate::data::store;
use crate::thing::{Owner, Sort, Thing, capped};
use cw_tree::expression::{
    RawCand, RawCmp, RawCond, RawDiffer, RawExpr, RawMask, RawPrim, RawPrimary, RawRef, RawSum,
    RawTerm, RawUnion,
};
use cw_tree::leaf::Position;
use cw_word::{List, NoMemory};

// A string of so many characters.
fn text_thing(
    at: Position,
    length: usize,
    owner: &Option<Owner>,
    out: &mut List<Thing>,
) -> Result<(), NoMemory>
    ensures { OnOk result (out.new ≡ out.old ++ thing Sort.Text at owner.now None (capped (length + 1)) ∷ []) }
{
    let words = capped((length as u64).saturating_add(1));
    store(Sort::Text, at, owner, &None, words, out)
}

/// Adds the strings of an expression, which are the same whatever it is wanted for.
#[cycle(strings)]
pub(crate) fn expression_strings(
    e: &RawExpr,
    owner: &Option<Owner>,
    out: &mut List<Thing>,
) -> Result<(), NoMemory>
    ensures { (reading : Reading) → OnOk result (out.new ≡ out.old ++ texts owner.now (expression_uses e.now reading)) }
{
    match e {
        RawExpr::Choice(_, test, first, second) => {
            condition_strings(test.get(), owner, out)?;
            expression_strings(first.get(), owner, out)?;
            expression_strings(second.get(), owner, out)
        }
        RawExpr::Sum(sum) => sum_strings(sum.get(), owner, out),
    }
}

/// Adds the strings of a condition.
#[cycle(strings)]
pub(crate) fn condition_strings(
    e: &RawCond,
    owner: &Option<Owner>,
    out: &mut List<Thing>,
) -> Result<(), NoMemory>
    ensures { (reading : Reading) → OnOk result (out.new ≡ out.old ++ texts owner.now (condition_uses e.now reading)) }
{
    for operand in e.operands.as_slice() {
        conjunction_strings(operand, owner, out)?;
    }
    Ok(())
}

#[cycle(strings)]
fn conjunction_strings(
    e: &RawCand,
    owner: &Option<Owner>,
    out: &mut List<Thing>,
) -> Result<(), NoMemory>
    ensures { (reading : Reading) → OnOk result (out.new ≡ out.old ++ texts owner.now (conjunction_uses e.now reading)) }
{
    for operand in e.operands.as_slice() {
        comparison_strings(operand, owner, out)?;
    }
    Ok(())
}

#[cycle(strings)]
fn comparison_strings(
    e: &RawCmp,
    owner: &Option<Owner>,
    out: &mut List<Thing>,
) -> Result<(), NoMemory>
    ensures { (reading : Reading) → OnOk result (out.new ≡ out.old ++ texts owner.now (comparison_uses e.now reading)) }
{
    sum_strings(e.left.get(), owner, out)?;
    sum_strings(e.right.get(), owner, out)
}

#[cycle(strings)]
fn sum_strings(e: &RawSum, owner: &Option<Owner>, out: &mut List<Thing>) -> Result<(), NoMemory>
    ensures { (reading : Reading) → OnOk result (out.new ≡ out.old ++ texts owner.now (sum_uses e.now reading)) }
{
    for operand in e.operands.as_slice() {
        term_strings(operand, owner, out)?;
    }
    Ok(())
}

#[cycle(strings)]
fn term_strings(e: &RawTerm, owner: &Option<Owner>, out: &mut List<Thing>) -> Result<(), NoMemory>
    ensures { (reading : Reading) → OnOk result (out.new ≡ out.old ++ texts owner.now (term_uses e.now reading)) }
{
    for operand in e.operands.as_slice() {
        differ_strings(operand, owner, out)?;
    }
    Ok(())
}

#[cycle(strings)]
fn differ_strings(
    e: &RawDiffer,
    owner: &Option<Owner>,
    out: &mut List<Thing>,
) -> Result<(), NoMemory>
    ensures { (reading : Reading) → OnOk result (out.new ≡ out.old ++ texts owner.now (differ_uses e.now reading)) }
{
    for operand in e.operands.as_slice() {
        union_strings(operand, owner, out)?;
    }
    Ok(())
}

#[cycle(strings)]
fn union_strings(e: &RawUnion, owner: &Option<Owner>, out: &mut List<Thing>) -> Result<(), NoMemory>
    ensures { (reading : Reading) → OnOk result (out.new ≡ out.old ++ texts owner.now (union_uses e.now reading)) }
{
    for operand in e.operands.as_slice() {
        mask_strings(operand, owner, out)?;
    }
    Ok(())
}

#[cycle(strings)]
fn mask_strings(e: &RawMask, owner: &Option<Owner>, out: &mut List<Thing>) -> Result<(), NoMemory>
    ensures { (reading : Reading) → OnOk result (out.new ≡ out.old ++ texts owner.now (mask_uses e.now reading)) }
{
    for operand in e.operands.as_slice() {
        prim_strings(operand, owner, out)?;
    }
    Ok(())
}

#[cycle(strings)]
fn prim_strings(e: &RawPrim, owner: &Option<Owner>, out: &mut List<Thing>) -> Result<(), NoMemory>
    ensures { (reading : Reading) → OnOk result (out.new ≡ out.old ++ texts owner.now (prim_uses e.now reading)) }
{
    primary_strings(&e.primary, owner, out)
}

#[cycle(strings)]
fn primary_strings(
    e: &RawPrimary,
    owner: &Option<Owner>,
    out: &mut List<Thing>,
) -> Result<(), NoMemory>
    ensures { (reading : Reading) → OnOk result (out.new ≡ out.old ++ texts owner.now (primary_uses e.now reading)) }
{
    match e {
        RawPrimary::Number(_) => Ok(()),
        RawPrimary::Octal(_) => Ok(()),
        RawPrimary::Literal(_) => Ok(()),
        RawPrimary::Text(at, text) => text_thing(*at, text.as_slice().len(), owner, out),
        RawPrimary::Location(_, reference) => reference_strings(reference.get(), owner, out),
        RawPrimary::Forced(_, e) => expression_strings(e.get(), owner, out),
        RawPrimary::Bracket(_, e) => expression_strings(e.get(), owner, out),
        RawPrimary::Ref(reference) => reference_strings(reference, owner, out),
        RawPrimary::Call(_, arguments) => argument_strings(arguments.as_slice(), owner, out),
    }
}

/// Adds the strings of arguments.
#[cycle(strings)]
pub(crate) fn argument_strings(
    arguments: &[RawExpr],
    owner: &Option<Owner>,
    out: &mut List<Thing>,
) -> Result<(), NoMemory>
    ensures { OnOk result (out.new ≡ out.old ++ texts owner.now (argument_uses arguments.now)) }
{
    for argument in arguments {
        expression_strings(argument, owner, out)?;
    }
    Ok(())
}

/// Adds the strings of a reference.
#[cycle(strings)]
pub(crate) fn reference_strings(
    r: &RawRef,
    owner: &Option<Owner>,
    out: &mut List<Thing>,
) -> Result<(), NoMemory>
    ensures { (reading : Reading) → OnOk result (out.new ≡ out.old ++ texts owner.now (reference_uses r.now reading)) }
{
    match r {
        RawRef::Name(_) => Ok(()),
        RawRef::One(_, index) => expression_strings(index.get(), owner, out),
        RawRef::Two(_, first, second) => {
            expression_strings(first.get(), owner, out)?;
            expression_strings(second.get(), owner, out)
        }
        RawRef::Bare(_, address) => expression_strings(address.get(), owner, out),
    }
}
