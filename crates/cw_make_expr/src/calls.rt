//! What is called, and with which arguments.
ghost use Rattle.std.specs.Prelude.{◌≡◌, IfOk};
ghost use Rattle.cw_make_expr.specs.Made.{expression_of, condition_of, reference_of, call_of};

use crate::making::{make_arguments, make_condition, make_expression, make_reference, target};
use crate::parts::{Source, params_of};
use cw_tree::expression::{RawCond, RawExpr, RawRef};
use cw_tree::leaf::RawName;
use cw_unit::unit::{Arg, Cond, Expr, Ref, Target};
use cw_word::{Boxed, List, NoMemory};

/// The tree of an expression.
pub fn expression_of(text: Source, e: &RawExpr) -> Result<Boxed<Expr>, NoMemory>
    ensures { IfOk result (λ t. t ≡ expression_of text.entry.named.now text.entry.numbers.now e.now) }
{
    make_expression(text, e, false)
}

/// The tree of a condition.
pub fn condition_of(text: Source, c: &RawCond) -> Result<Boxed<Cond>, NoMemory>
    ensures { IfOk result (λ t. t ≡ condition_of text.entry.named.now text.entry.numbers.now c.now) }
{
    make_condition(text, c)
}

/// The place that a reference names.
pub fn reference_of(text: Source, r: &RawRef) -> Result<Ref, NoMemory>
    ensures { IfOk result (λ t. t ≡ reference_of text.entry.named.now text.entry.numbers.now r.now) }
{
    make_reference(text, r)
}

/// What a call of a name calls, and its arguments.
pub fn call_of(
    text: Source,
    name: &RawName,
    arguments: &[RawExpr],
) -> Result<(Target, List<Arg>), NoMemory>
    ensures { IfOk result (λ t. t ≡ call_of text.entry.named.now text.entry.numbers.now name.now arguments.now) }
{
    let params = params_of(text.named, name);
    let arguments = make_arguments(text, params, arguments)?;
    Ok((target(text.named, text.numbers, name), arguments))
}
