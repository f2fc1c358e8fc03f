//! What an expression is as an argument that is no value and no place.
ghost use Rattle.std.specs.Prelude.{◌≡◌};
ghost use Rattle.cw_scope.specs.declared.resolve.Named.{Named};
ghost use Rattle.cw_make_expr.specs.Parts.{Numbers};
ghost use Rattle.cw_make_expr.specs.Made.{expression_made, primary_made, reference_made, named_handed};

use crate::parts::{handed, no_argument, number_of};
use cw_number::numbered::Numbered;
use cw_scale::kinds::kind_of;
use cw_scope::resolve::Named;
use cw_table::table::Table;
use cw_tree::expression::{RawExpr, RawPrimary, RawRef};
use cw_tree::leaf::RawName;
use cw_unit::unit::Arg;

// The name that a reference is.
fn reference_name(r: &RawRef) -> Option<RawName>
    ensures { (named : Named) (numbers : Numbers) → (reference_made named numbers r.now).handed ≡ named_handed named numbers result }
{
    match r {
        RawRef::Name(name) => Some(*name),
        _ => None,
    }
}

fn primary_name(p: &RawPrimary) -> Option<RawName>
    ensures { (named : Named) (numbers : Numbers) → (primary_made named numbers p.now).handed ≡ named_handed named numbers result }
{
    match p {
        RawPrimary::Ref(r) => reference_name(r),
        _ => None,
    }
}

// The name that an expression is by itself.
fn name_alone(e: &RawExpr) -> Option<RawName>
    ensures { (named : Named) (numbers : Numbers) → (expression_made named numbers e.now).handed ≡ named_handed named numbers result }
{
    let sum = match e {
        RawExpr::Choice(..) => return None,
        RawExpr::Sum(sum) => sum,
    };
    let sum = sum.get();
    if sum.sign.is_some() {
        return None;
    }
    let [term] = sum.operands.as_slice() else {
        return None;
    };
    let [differ] = term.operands.as_slice() else {
        return None;
    };
    let [union] = differ.operands.as_slice() else {
        return None;
    };
    let [mask] = union.operands.as_slice() else {
        return None;
    };
    let [prim] = mask.operands.as_slice() else {
        return None;
    };
    let [] = prim.bits.as_slice() else {
        return None;
    };
    primary_name(&prim.primary)
}

/// What an expression is as an argument, if it is a name by itself.
pub(crate) fn expression_handed(named: &Named, numbers: &Table<Numbered>, e: &RawExpr) -> Arg
    ensures { result ≡ (expression_made named.now numbers.now e.now).handed }
{
    match name_alone(e) {
        None => no_argument(),
        Some(name) => handed(kind_of(named, &name), &number_of(named, numbers, &name)),
    }
}
