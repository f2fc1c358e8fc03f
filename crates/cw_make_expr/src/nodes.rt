//! The nodes of a unit's expressions, conditions and references.
ghost use Rattle.std.specs.Prelude.{◌≡◌, IfOk};
ghost use Rattle.cw_unit.specs.declared.unit.Cond.{Cond};
ghost use Rattle.cw_unit.specs.declared.unit.Expr.{Expr};
ghost use Rattle.cw_make_expr.specs.Nodes.{Makes, nothing, read, call, force, locate, bits, logic, minus, added, multiplied, choice, comparator, comparison};
ghost use Rattle.cw_make_expr.specs.Nodes.{no_condition, both, either, reference, place_argument, whole_part, whole_part_if};

use cw_tree::leaf::{AddOp, CompareOp as Compared, MulOp};
use cw_unit::unit::{Arg, CompareOp, Cond, Expr, Field, LogicOp, Ref, Spot, Target};
use cw_word::{Boxed, List, NoMemory, Num};
use std::alloc::Global;

pub(crate) fn nothing() -> Expr
    ensures { result ≡ nothing }
{
    Expr::Num(Num::new(0, 0, 0))
}

pub(crate) fn read(alloc: Global, r: Ref) -> Result<Boxed<Expr>, NoMemory>
    ensures { IfOk result (λ e. e ≡ read r) }
{
    let place = Boxed::new(alloc, r)?;
    Boxed::new(alloc, Expr::Read(place))
}

pub(crate) fn call(target: Target, arguments: List<Arg>) -> Expr
    ensures { result ≡ call target arguments }
{
    Expr::Call(target, arguments)
}

pub(crate) fn force(alloc: Global, f: u8, e: Boxed<Expr>) -> Result<Boxed<Expr>, NoMemory>
    ensures { IfOk result (λ t. t ≡ force f e) }
{
    Boxed::new(alloc, Expr::Force(f, e))
}

pub(crate) fn locate(alloc: Global, r: Ref) -> Result<Boxed<Expr>, NoMemory>
    ensures { IfOk result (λ e. e ≡ locate r) }
{
    let place = Boxed::new(alloc, r)?;
    Boxed::new(alloc, Expr::Locate(place))
}

pub(crate) fn bits(alloc: Global, t: u8, b: u8, e: Boxed<Expr>) -> Result<Boxed<Expr>, NoMemory>
    ensures { IfOk result (λ x. x ≡ bits t b e) }
{
    Boxed::new(alloc, Expr::Bits(t, b, e))
}

pub(crate) fn logic(
    alloc: Global,
    op: LogicOp,
    a: Result<Boxed<Expr>, NoMemory>,
    b: Result<Boxed<Expr>, NoMemory>,
) -> Result<Boxed<Expr>, NoMemory>
    ensures { (x y : Expr) → Makes a x → Makes b y → Makes result (logic op x y) }
{
    let Ok(a) = a else {
        return Err(NoMemory);
    };
    let Ok(b) = b else {
        return Err(NoMemory);
    };
    Boxed::new(alloc, Expr::Logic(op, a, b))
}

pub(crate) fn minus(alloc: Global, e: Boxed<Expr>) -> Result<Boxed<Expr>, NoMemory>
    ensures { IfOk result (λ t. t ≡ minus e) }
{
    Boxed::new(alloc, Expr::Minus(e))
}

/// Two operands with `+` or `-` between them.
pub(crate) fn added(
    alloc: Global,
    op: AddOp,
    a: Boxed<Expr>,
    b: Boxed<Expr>,
) -> Result<Boxed<Expr>, NoMemory>
    ensures { IfOk result (λ e. e ≡ added op a b) }
{
    match op {
        AddOp::Plus => Boxed::new(alloc, Expr::Sum(a, b)),
        AddOp::Minus => Boxed::new(alloc, Expr::Less(a, b)),
    }
}

/// Two operands with `*` or `/` between them.
pub(crate) fn multiplied(
    alloc: Global,
    op: MulOp,
    a: Boxed<Expr>,
    b: Boxed<Expr>,
) -> Result<Boxed<Expr>, NoMemory>
    ensures { IfOk result (λ e. e ≡ multiplied op a b) }
{
    match op {
        MulOp::Times => Boxed::new(alloc, Expr::Times(a, b)),
        MulOp::Divide => Boxed::new(alloc, Expr::Over(a, b)),
    }
}

pub(crate) fn choice(
    alloc: Global,
    test: Result<Boxed<Cond>, NoMemory>,
    a: Result<Boxed<Expr>, NoMemory>,
    b: Result<Boxed<Expr>, NoMemory>,
) -> Result<Boxed<Expr>, NoMemory>
    ensures { (t : Cond) (x y : Expr) → Makes test t → Makes a x → Makes b y → Makes result (choice t x y) }
{
    let Ok(test) = test else {
        return Err(NoMemory);
    };
    let Ok(a) = a else {
        return Err(NoMemory);
    };
    let Ok(b) = b else {
        return Err(NoMemory);
    };
    Boxed::new(alloc, Expr::Choice(test, a, b))
}

// ---- conditions

pub(crate) fn comparator(op: Compared) -> CompareOp
    ensures { result ≡ comparator op }
{
    match op {
        Compared::Less => CompareOp::Less,
        Compared::LessOrEqual => CompareOp::LessEq,
        Compared::Equal => CompareOp::Equal,
        Compared::GreaterOrEqual => CompareOp::GreaterEq,
        Compared::Greater => CompareOp::Greater,
        Compared::NotEqual => CompareOp::Unequal,
    }
}

pub(crate) fn comparison(op: CompareOp, a: Expr, b: Expr) -> Cond
    ensures { result ≡ comparison op a b }
{
    Cond::Cmp(op, a, b)
}

/// The comparison of two expressions.
pub(crate) fn compared(
    alloc: Global,
    op: CompareOp,
    a: Result<Boxed<Expr>, NoMemory>,
    b: Result<Boxed<Expr>, NoMemory>,
) -> Result<Boxed<Cond>, NoMemory>
    ensures { (x y : Expr) → Makes a x → Makes b y → Makes result (comparison op x y) }
{
    let Ok(a) = a else {
        return Err(NoMemory);
    };
    let Ok(b) = b else {
        return Err(NoMemory);
    };
    Boxed::new(alloc, comparison(op, a.into_inner(), b.into_inner()))
}

/// What stands for a condition that is not there.
pub(crate) fn no_condition() -> Cond
    ensures { result ≡ no_condition }
{
    comparison(CompareOp::Equal, nothing(), nothing())
}

pub(crate) fn both(
    alloc: Global,
    c: Result<Boxed<Cond>, NoMemory>,
    d: Result<Boxed<Cond>, NoMemory>,
) -> Result<Boxed<Cond>, NoMemory>
    ensures { (x y : Cond) → Makes c x → Makes d y → Makes result (both x y) }
{
    let Ok(c) = c else {
        return Err(NoMemory);
    };
    let Ok(d) = d else {
        return Err(NoMemory);
    };
    Boxed::new(alloc, Cond::And(c, d))
}

pub(crate) fn either(
    alloc: Global,
    c: Result<Boxed<Cond>, NoMemory>,
    d: Result<Boxed<Cond>, NoMemory>,
) -> Result<Boxed<Cond>, NoMemory>
    ensures { (x y : Cond) → Makes c x → Makes d y → Makes result (either x y) }
{
    let Ok(c) = c else {
        return Err(NoMemory);
    };
    let Ok(d) = d else {
        return Err(NoMemory);
    };
    Boxed::new(alloc, Cond::Or(c, d))
}

// ---- references and arguments

pub(crate) fn reference(at: Spot, f: u8, field: Option<Field>) -> Ref
    ensures { result ≡ reference at f field }
{
    Ref { at, f, field }
}

/// The address of what an expression reads, and else its value.
pub(crate) fn place_argument(e: Expr, f: u8) -> Arg
    ensures { result ≡ place_argument e f }
{
    match e {
        Expr::Read(r) => Arg::Place(r.into_inner()),
        other => Arg::Value(other, f),
    }
}

// ---- a number with a point that is evaluated at the scale 0

fn whole_part(e: Expr) -> Expr
    ensures { result ≡ whole_part e }
{
    match e {
        Expr::Num(n) => Expr::Num(Num::new(n.whole(), 0, 0)),
        other => other,
    }
}

pub(crate) fn whole_part_if(
    alloc: Global,
    operand: bool,
    e: Boxed<Expr>,
) -> Result<Boxed<Expr>, NoMemory>
    ensures { IfOk result (λ t. t ≡ whole_part_if operand e) }
{
    if operand {
        Boxed::new(alloc, whole_part(e.into_inner()))
    } else {
        Ok(e)
    }
}
