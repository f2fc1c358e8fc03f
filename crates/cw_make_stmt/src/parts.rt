//! Lines, jumps, labels and the elements of a FOR.
ghost use Rattle.std.specs.Prelude.{◌≡◌, map, IfOk};
ghost use Rattle.cw_make_expr.specs.Made.{expression_of, condition_of, reference_of};
ghost use Rattle.cw_make_expr.specs.Parts.{label_in};
ghost use Rattle.cw_make_stmt.specs.Made.{line_of, ref_position, goal_of, switch_of, labels_of, mark, marked};
ghost use Rattle.cw_make_stmt.specs.Made.{row, conditional, repetition, felem_of, put, put_bits};
ghost use Rattle.cw_make_stmt.specs.Made.{assignment_of, bits_assignment_of, assignment, bits_assignment, jump, switch_jump, answer, call_statement};

use cw_amount::amount::place_amount;
use cw_make_expr::Numbered;
use cw_make_expr::calls::{call_of, condition_of, expression_of, reference_of};
use cw_make_expr::parts::{Source, number_of, small};
use cw_scope::resolve::Named;
use cw_table::table::Table;
use cw_tree::expression::{RawBits, RawExpr, RawRef};
use cw_tree::leaf::{Position, RawName};
use cw_tree::statement::RawFelem;
use cw_unit::unit::{Cond, Dest, Expr, Felem, Goal, Ref, Stmt};
use cw_word::{Boxed, List, NoMemory};
use std::alloc::Global;

pub(crate) fn line_of(at: &Position) -> u16
    ensures { result ≡ line_of at.now }
{
    at.line.min(65535) as u16
}

/// Where a reference begins.
pub(crate) fn ref_position(r: &RawRef) -> Position
    ensures { result ≡ ref_position r.now }
{
    match r {
        RawRef::Name(name) => name.at,
        RawRef::One(name, _) => name.at,
        RawRef::Two(name, _, _) => name.get().at,
        RawRef::Bare(at, _) => *at,
    }
}

// ---- jumps

pub(crate) fn goal_of(number: &Option<Numbered>) -> Dest
    ensures { result ≡ goal_of number.now }
{
    match number {
        Some(Numbered::Label(l)) => Dest::Goal(Goal::Own(*l)),
        Some(Numbered::CommonLabel(d)) => Dest::Goal(Goal::Common(*d)),
        Some(Numbered::Control(c)) => Dest::Special(*c),
        _ => Dest::Goal(Goal::Own(0)),
    }
}

pub(crate) fn switch_of(number: &Option<Numbered>, index: Expr) -> Dest
    ensures { result ≡ switch_of number.now index }
{
    match number {
        Some(Numbered::Switch(s)) => Dest::Switch(*s, index),
        Some(Numbered::CommonSwitch(d)) => Dest::CommonSwitch(*d, index),
        Some(Numbered::Control(c)) => Dest::SpecialSwitch(*c, index),
        _ => Dest::Switch(0, index),
    }
}

// ---- labels

fn label_in(number: &Option<Numbered>) -> u32
    ensures { result ≡ label_in number.now }
{
    match number {
        Some(Numbered::Label(l)) => *l,
        _ => 0,
    }
}

fn labels_of(
    alloc: Global,
    numbers: &Table<Numbered>,
    names: &[RawName],
) -> Result<List<u32>, NoMemory>
    ensures { IfOk result (λ all. all ≡ labels_of numbers.now names.now) }
{
    let mut all = List::new(alloc);
    for name in names {
        all.push(label_in(&numbers.find(name.at.token).copied()))?;
    }
    Ok(all)
}

fn mark(alloc: Global, labels: List<u32>, s: Boxed<Stmt>) -> Result<Boxed<Stmt>, NoMemory>
    ensures { IfOk result (λ t. t ≡ mark labels s) }
{
    Boxed::new(alloc, Stmt::Mark(labels, s))
}

/// A statement behind its labels, if it has any.
pub(crate) fn marked(
    alloc: Global,
    numbers: &Table<Numbered>,
    names: &[RawName],
    s: Boxed<Stmt>,
) -> Result<Boxed<Stmt>, NoMemory>
    ensures { IfOk result (λ t. t ≡ marked numbers.now names.now s) }
{
    if names.len() == 0 {
        return Ok(s);
    }
    let labels = labels_of(alloc, numbers, names)?;
    mark(alloc, labels, s)
}

// ---- statements

pub(crate) fn row(statements: List<Stmt>) -> Stmt
    ensures { result ≡ row statements }
{
    Stmt::Seq(statements)
}

pub(crate) fn conditional(
    alloc: Global,
    line: u16,
    test: Boxed<Cond>,
    first: Boxed<Stmt>,
    second: Boxed<Stmt>,
) -> Result<Boxed<Stmt>, NoMemory>
    ensures { IfOk result (λ s. s ≡ conditional line test first second) }
{
    Boxed::new(alloc, Stmt::If(line, test.into_inner(), first, second))
}

pub(crate) fn repetition(
    alloc: Global,
    line: u16,
    item: u32,
    variable: Boxed<Ref>,
    elements: List<Felem>,
    body: Boxed<Stmt>,
) -> Result<Boxed<Stmt>, NoMemory>
    ensures { IfOk result (λ s. s ≡ repetition line item variable elements body) }
{
    let variable = variable.into_inner();
    Boxed::new(alloc, Stmt::For(line, item, variable, elements, body))
}

/// The tree of a reference, in a box until a statement takes it.
pub(crate) fn boxed_reference(text: Source, r: &RawRef) -> Result<Boxed<Ref>, NoMemory>
    ensures { IfOk result (λ t. t ≡ reference_of text.entry.named.now text.entry.numbers.now r.now) }
{
    Boxed::new(text.alloc, reference_of(text, r)?)
}

// ---- the elements of a FOR

fn felem_of(text: Source, element: &RawFelem) -> Result<Felem, NoMemory>
    ensures { IfOk result (λ e. e ≡ felem_of text.entry.named.now text.entry.numbers.now element.now) }
{
    match element {
        RawFelem::One(e) => {
            let value = expression_of(text, e.get())?;
            Ok(Felem::One(value.into_inner()))
        }
        RawFelem::While(e, test) => {
            let value = expression_of(text, e.get())?;
            let test = condition_of(text, test.get())?;
            Ok(Felem::While(value.into_inner(), test.into_inner()))
        }
        RawFelem::Step(first, step, last) => {
            let first = expression_of(text, first.get())?;
            let step = expression_of(text, step.get())?;
            let last = expression_of(text, last.get())?;
            Ok(Felem::Step(first.into_inner(), step.into_inner(), last.into_inner()))
        }
    }
}

pub(crate) fn felems_of(text: Source, elements: &[RawFelem]) -> Result<List<Felem>, NoMemory>
    ensures { IfOk result (λ all. all ≡ map (felem_of text.entry.named.now text.entry.numbers.now) elements.now) }
{
    let mut all = List::new(text.alloc);
    for element in elements {
        all.push(felem_of(text, element)?)?;
    }
    Ok(all)
}

pub(crate) fn call_statement(
    text: Source,
    name: &RawName,
    arguments: &[RawExpr],
) -> Result<Boxed<Stmt>, NoMemory>
    ensures { IfOk result (λ s. s ≡ call_statement text.entry.named.now text.entry.numbers.now name.now arguments.now) }
{
    let (target, arguments) = call_of(text, name, arguments)?;
    Boxed::new(text.alloc, Stmt::Call(line_of(&name.at), target, arguments))
}

fn reference_line(r: &RawRef) -> u16
    ensures { result ≡ line_of (ref_position r.now) }
{
    line_of(&ref_position(r))
}

fn put(line: u16, place: Ref, value: Expr) -> Stmt
    ensures { result ≡ put line place value }
{
    Stmt::Put(line, place, value)
}

fn put_bits(line: u16, t: u8, b: u8, place: Ref, value: Expr) -> Stmt
    ensures { result ≡ put_bits line t b place value }
{
    Stmt::PutBits(line, t, b, place, value)
}

fn assignment_of(text: Source, r: &RawRef, value: Boxed<Expr>) -> Result<Boxed<Stmt>, NoMemory>
    ensures { IfOk result (λ s. s ≡ assignment_of text.entry.named.now text.entry.numbers.now r.now value) }
{
    let place = reference_of(text, r)?;
    Boxed::new(
        text.alloc,
        put(reference_line(r), place, value.into_inner()),
    )
}

fn bits_assignment_of(
    text: Source,
    bits: &RawBits,
    r: &RawRef,
    value: Boxed<Expr>,
) -> Result<Boxed<Stmt>, NoMemory>
    ensures { IfOk result (λ s. s ≡ bits_assignment_of text.entry.named.now text.entry.numbers.now bits.now r.now value) }
{
    let t = small(&place_amount(&bits.size.first));
    let b = small(&place_amount(&bits.size.second));
    let line = line_of(&bits.at);
    let place = reference_of(text, r)?;
    Boxed::new(text.alloc, put_bits(line, t, b, place, value.into_inner()))
}

pub(crate) fn assignment(text: Source, r: &RawRef, e: &RawExpr) -> Result<Boxed<Stmt>, NoMemory>
    ensures { IfOk result (λ s. s ≡ assignment text.entry.named.now text.entry.numbers.now r.now e.now) }
{
    let value = expression_of(text, e)?;
    assignment_of(text, r, value)
}

pub(crate) fn bits_assignment(
    text: Source,
    bits: &RawBits,
    r: &RawRef,
    e: &RawExpr,
) -> Result<Boxed<Stmt>, NoMemory>
    ensures { IfOk result (λ s. s ≡ bits_assignment text.entry.named.now text.entry.numbers.now bits.now r.now e.now) }
{
    let value = expression_of(text, e)?;
    bits_assignment_of(text, bits, r, value)
}

pub(crate) fn jump(named: &Named, numbers: &Table<Numbered>, at: &Position, name: &RawName) -> Stmt
    ensures { result ≡ jump named.now numbers.now at.now name.now }
{
    Stmt::Go(line_of(at), goal_of(&number_of(named, numbers, name)))
}

pub(crate) fn switch_jump(
    text: Source,
    at: &Position,
    name: &RawName,
    index: &RawExpr,
) -> Result<Boxed<Stmt>, NoMemory>
    ensures { IfOk result (λ s. s ≡ switch_jump text.entry.named.now text.entry.numbers.now at.now name.now index.now) }
{
    let number = number_of(text.named, text.numbers, name);
    let index = expression_of(text, index)?;
    let goal = switch_of(&number, index.into_inner());
    Boxed::new(text.alloc, Stmt::Go(line_of(at), goal))
}

pub(crate) fn answer(text: Source, at: &Position, e: &RawExpr) -> Result<Boxed<Stmt>, NoMemory>
    ensures { IfOk result (λ s. s ≡ answer text.entry.named.now text.entry.numbers.now at.now e.now) }
{
    let value = expression_of(text, e)?;
    Boxed::new(text.alloc, Stmt::Answer(line_of(at), value.into_inner()))
}
