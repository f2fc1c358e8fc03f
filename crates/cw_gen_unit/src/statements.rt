//! Statements.
ghost use Rattle.std.specs.Prelude.{◌≡◌, ℕ, ◌+◌, ◌∷◌, ◌||◌, [], map, true, Option, None, OnOk, IfOk, slice_get};
ghost use Rattle.cw_unit.specs.declared.unit.Stmt.TheOpen as statement;
ghost use Rattle.cw_gen_expr.specs.Pieces.{plain, followed_by, sequence};
ghost use Rattle.cw_gen_expr.specs.Output.{made, added, Adds};
ghost use Rattle.cw_gen_expr.specs.ReferenceExpressions.{scope_with, at_line, expression_piece, store_orders};
ghost use Rattle.cw_gen_unit.specs.ReferenceStatements.{begin_orders, after_statement_call, own_order as spec_own_order, goal_order as spec_goal_order, jump_order as spec_jump_order};
ghost use Rattle.cw_gen_unit.specs.ReferenceStatements.{jump_piece, jump_past, loop_piece, statement_step, statement_piece};
ghost use Rattle.cw_gen_unit.specs.Endings.{is_empty as spec_is_empty, ends_behind as spec_ends_behind, list_ends, comes_to_end};

use crate::begun::{begin_loop, end_loop};
use crate::switches::{owned_marks, switch_order};
use cw_gen_expr::forms::put_call;
use cw_gen_expr::orders::{all_words, place_of_control};
use cw_gen_expr::output::Output;
use cw_gen_expr::tree::{put_address, put_arguments, put_condition, put_expression};
use cw_order::Order;
use cw_unit::layout::Layout;
use cw_unit::unit::{Arg, Dest, Expr, Felem, Field, Goal, Label, Param, Ref, Stmt, Target, Unit};
use cw_word::{Boxed, List, NoMemory};
use std::alloc::Global;

/// Adds the start of a statement.
fn put_begin(out: &mut Output, line: u16)
    ensures { Adds (plain (begin_orders line)) out.old out.new }
{
    out.put(Order::Start(line));
}

/// The order that stores a word at an address, or a part of it.
fn store_order(field: &Option<Field>) -> Order
    ensures { result ∷ [] ≡ store_orders field.now }
{
    match field {
        None => Order::Store,
        Some(part) => Order::StorePart {
            t: part.t,
            b: part.b,
        },
    }
}

/// Adds the orders of an assignment.
fn put_assignment(
    out: &mut Output,
    unit: &Unit,
    layout: &Layout,
    parameters: &[Param],
    line: u16,
    reference: &Ref,
    e: &Expr,
)
    ensures { Adds (statement_step (scope_with unit.now layout.now parameters.now) None 0 (statement.Put line reference.now e.now)) out.old out.new }
{
    put_begin(out, line);
    put_expression(out, unit, layout, parameters, line, e, reference.f);
    out.put(Order::Save);
    put_address(out, unit, layout, parameters, line, &reference.at);
    out.put(store_order(&reference.field));
}

/// Adds the orders of an assignment to bits.
fn put_bits(
    out: &mut Output,
    unit: &Unit,
    layout: &Layout,
    parameters: &[Param],
    line: u16,
    t: u8,
    b: u8,
    reference: &Ref,
    e: &Expr,
)
    ensures { Adds (statement_step (scope_with unit.now layout.now parameters.now) None 0 (statement.PutBits line t b reference.now e.now)) out.old out.new }
{
    put_begin(out, line);
    put_expression(out, unit, layout, parameters, line, e, 0);
    out.put(Order::Save);
    put_address(out, unit, layout, parameters, line, &reference.at);
    out.put(Order::StorePart { t, b });
}

/// The mark of a label of a unit with so many definitions, which have the marks before.
pub fn label_mark(defined: usize, label: u32) -> Result<u32, NoMemory>
    ensures { IfOk result (λ mark. mark ≡ defined + label) }
{
    match u32::try_from(defined) {
        Ok(defined) => defined.checked_add(label).ok_or(NoMemory),
        Err(_) => Err(NoMemory),
    }
}

/// The order that jumps to one of a unit's labels, from the segment's body or that of a procedure.
pub fn own_order(labels: &[Label], who: Option<u16>, label: u32, mark: u32) -> Order
    ensures { result ≡ spec_own_order who (slice_get labels.now label) mark }
{
    match who {
        None => Order::Jump(mark),
        Some(_) => match labels.get(label as usize) {
            None => Order::Jump(mark),
            Some(found) => match found.proc {
                None => Order::GoMain(mark),
                Some(_) => Order::Jump(mark),
            },
        },
    }
}

/// The order that jumps to a goal.
fn goal_order(unit: &Unit, who: Option<u16>, goal: Goal) -> Result<Order, NoMemory>
    ensures { IfOk result (λ order. order ≡ spec_goal_order unit.now who goal) }
{
    match goal {
        Goal::Own(label) => {
            let mark = label_mark(unit.defined.as_slice().len(), label)?;
            Ok(own_order(unit.labels.as_slice(), who, label, mark))
        }
        Goal::Common(descriptor) => Ok(Order::GoCommon(descriptor)),
    }
}

/// The order of a jump, behind the index of its switch, if there is one.
fn jump_order(
    alloc: Global,
    unit: &Unit,
    layout: &Layout,
    parameters: &[Param],
    who: Option<u16>,
    line: u16,
    dest: &Dest,
) -> Result<Order, NoMemory>
    ensures { IfOk result (λ order. order ≡ spec_jump_order (at_line line (scope_with unit.now layout.now parameters.now)) who dest.now) }
{
    match dest {
        Dest::Goal(goal) => goal_order(unit, who, *goal),
        Dest::Special(control) => {
            let place = place_of_control(parameters, *control)?;
            Ok(Order::GoSpecial(place))
        }
        Dest::Switch(switch, _) => {
            let marks = owned_marks(alloc, unit, who, *switch)?;
            Ok(switch_order(marks, *switch, line))
        }
        Dest::CommonSwitch(descriptor, _) => Ok(Order::GoSwitchCommon {
            descriptor: *descriptor,
            line,
        }),
        Dest::SpecialSwitch(control, _) => {
            let place = place_of_control(parameters, *control)?;
            Ok(Order::GoSwitchSpecial { place, line })
        }
    }
}

/// Adds an order behind the value that it goes by.
fn put_chosen(
    out: &mut Output,
    unit: &Unit,
    layout: &Layout,
    parameters: &[Param],
    line: u16,
    e: &Expr,
    order: Order,
)
    ensures { Adds (followed_by (expression_piece (at_line line (scope_with unit.now layout.now parameters.now)) e.now 0) (plain (order ∷ []))) out.old out.new }
{
    put_expression(out, unit, layout, parameters, line, e, 0);
    out.put(order);
}

/// Adds the order of a jump, behind the index of its switch, if there is one.
fn put_jump(
    out: &mut Output,
    unit: &Unit,
    layout: &Layout,
    parameters: &[Param],
    line: u16,
    dest: &Dest,
    order: Order,
)
    ensures { (who : Option ℕ) → order ≡ spec_jump_order (at_line line (scope_with unit.now layout.now parameters.now)) who dest.now
        → Adds (jump_piece (at_line line (scope_with unit.now layout.now parameters.now)) who dest.now) out.old out.new }
{
    match dest {
        Dest::Goal(_) => out.put(order),
        Dest::Special(_) => out.put(order),
        Dest::Switch(_, e) => put_chosen(out, unit, layout, parameters, line, e, order),
        Dest::CommonSwitch(_, e) => put_chosen(out, unit, layout, parameters, line, e, order),
        Dest::SpecialSwitch(_, e) => put_chosen(out, unit, layout, parameters, line, e, order),
    }
}

/// Adds the orders of a jump.
fn put_go(
    alloc: Global,
    out: &mut Output,
    unit: &Unit,
    layout: &Layout,
    parameters: &[Param],
    who: Option<u16>,
    line: u16,
    dest: &Dest,
)
    ensures { Adds (statement_step (scope_with unit.now layout.now parameters.now) who 0 (statement.Go line dest.now)) out.old out.new }
{
    put_begin(out, line);
    match jump_order(alloc, unit, layout, parameters, who, line, dest) {
        Ok(order) => put_jump(out, unit, layout, parameters, line, dest, order),
        Err(_) => out.fail(),
    }
}

/// Drops the answer of a call statement; WRITEBYTE has none.
fn put_after_call(out: &mut Output, target: &Target)
    ensures { Adds (plain (after_statement_call target.now)) out.old out.new }
{
    match target {
        Target::Write => (),
        _ => out.put(Order::Drop),
    }
}

/// Adds the orders of a call statement.
fn put_call_statement(
    out: &mut Output,
    unit: &Unit,
    layout: &Layout,
    parameters: &[Param],
    line: u16,
    target: &Target,
    arguments: &[Arg],
)
    ensures { Adds (statement_step (scope_with unit.now layout.now parameters.now) None 0 (statement.Call line target.now arguments.now)) out.old out.new }
{
    put_begin(out, line);
    put_arguments(out, unit, layout, parameters, line, arguments);
    put_call(out, unit, layout, parameters, line, target);
    put_after_call(out, target);
}

/// Adds the orders of an ANSWER, in a procedure whose answer has this scale.
fn put_answer(
    out: &mut Output,
    unit: &Unit,
    layout: &Layout,
    parameters: &[Param],
    answer: u8,
    line: u16,
    e: &Expr,
)
    ensures { Adds (statement_step (scope_with unit.now layout.now parameters.now) None answer (statement.Answer line e.now)) out.old out.new }
{
    put_begin(out, line);
    put_expression(out, unit, layout, parameters, line, e, answer);
    match all_words(parameters) {
        Ok(arguments) => out.put(Order::Return {
            arguments,
            answers: true,
        }),
        Err(_) => out.fail(),
    }
}

// What is asked of a box or a list names all that a statement is made of at each call. These two name it once.

/// The statement in a box.
fn inner(statement: &Boxed<Stmt>) -> &Stmt
    ensures { result.now ≡ statement.now }
{
    statement.get()
}

/// The statements of a list.
fn members(statements: &List<Stmt>) -> &[Stmt]
    ensures { result.now ≡ statements.now }
{
    statements.as_slice()
}

/// Whether a statement has no orders: a list of none.
fn is_empty(statement: &Stmt) -> bool
    ensures { result ≡ spec_is_empty statement.now }
{
    match statement {
        Stmt::Seq(statements) => members(statements).is_empty(),
        _ => false,
    }
}

/// Adds the jump past the second of two statements, where a run may come to the end of the first and the second has orders.
fn put_jump_past(out: &mut Output, ends: bool, second: &Stmt, end: u32)
    ensures { Adds (plain (jump_past ends second.now end)) out.old out.new }
{
    if ends && !is_empty(second) {
        out.put(Order::Jump(end));
    }
}

/// Whether a run may come to what stands behind a statement, where it may come to what stands before it or not.
fn ends_behind(before: bool, statement: &Stmt, ends: bool) -> bool
    ensures { result ≡ spec_ends_behind before statement.now ends }
{
    if is_empty(statement) { before } else { ends }
}

/// Whether a run may come to the end of one of two statements.
fn one_ends(first: bool, second: bool) -> bool
    ensures { result ≡ (first || second) }
{
    first || second
}

/// Adds the orders of a statement of a body: the segment's, or that of the procedure `who`, with these parameters and an answer of this
/// scale. It answers whether a run may come to the end of the statement.
#[cycle(statements)]
fn put_statement(
    alloc: Global,
    out: &mut Output,
    unit: &Unit,
    layout: &Layout,
    parameters: &[Param],
    who: Option<u16>,
    answer: u8,
    statement: &Stmt,
) -> bool
    ensures orders { Adds (statement_piece (scope_with unit.now layout.now parameters.now) who answer statement.now) out.old out.new }
    ensures ends { result ≡ comes_to_end statement.now }
{
    match statement {
        Stmt::Put(line, reference, e) => {
            put_assignment(out, unit, layout, parameters, *line, reference, e);
            true
        }
        Stmt::PutBits(line, t, b, reference, e) => {
            put_bits(out, unit, layout, parameters, *line, *t, *b, reference, e);
            true
        }
        Stmt::Go(line, dest) => {
            put_go(alloc, out, unit, layout, parameters, who, *line, dest);
            false
        }
        Stmt::Call(line, target, arguments) => {
            put_call_statement(
                out,
                unit,
                layout,
                parameters,
                *line,
                target,
                arguments.as_slice(),
            );
            true
        }
        Stmt::Answer(line, e) => {
            put_answer(out, unit, layout, parameters, answer, *line, e);
            false
        }
        Stmt::If(line, condition, holds, fails) => {
            let holds = inner(holds);
            let fails = inner(fails);
            put_begin(out, *line);
            let end = out.reserve();
            let other = out.reserve();
            put_condition(
                out, unit, layout, parameters, *line, condition, false, other,
            );
            let first = put_statement(alloc, out, unit, layout, parameters, who, answer, holds);
            put_jump_past(out, first, fails, end);
            out.put_mark(other);
            let second = put_statement(alloc, out, unit, layout, parameters, who, answer, fails);
            out.put_mark(end);
            one_ends(first, second)
        }
        Stmt::For(line, looped, reference, elements, body) => {
            put_loop(
                alloc,
                out,
                unit,
                layout,
                parameters,
                who,
                answer,
                inner(body),
                *line,
                *looped,
                reference,
                elements.as_slice(),
            );
            true
        }
        Stmt::Seq(statements) => put_row(
            alloc,
            out,
            unit,
            layout,
            parameters,
            who,
            answer,
            members(statements),
        ),
        Stmt::Mark(labels, statement) => {
            out.put_labels(labels.as_slice());
            put_statement(
                alloc,
                out,
                unit,
                layout,
                parameters,
                who,
                answer,
                inner(statement),
            )
        }
    }
}

/// Adds the orders of a FOR around a body.
#[cycle(statements)]
fn put_loop(
    alloc: Global,
    out: &mut Output,
    unit: &Unit,
    layout: &Layout,
    parameters: &[Param],
    who: Option<u16>,
    answer: u8,
    body: &Stmt,
    line: u16,
    looped: u32,
    reference: &Ref,
    elements: &[Felem],
)
    ensures { Adds (loop_piece (at_line line (scope_with unit.now layout.now parameters.now)) looped reference.now elements.now
        (statement_piece (scope_with unit.now layout.now parameters.now) who answer body.now)) out.old out.new }
{
    put_begin(out, line);
    match begin_loop(
        alloc, out, unit, layout, parameters, line, looped, reference, elements,
    ) {
        Ok(begun) => {
            put_statement(alloc, out, unit, layout, parameters, who, answer, body);
            end_loop(out, layout, line, looped, begun);
        }
        Err(_) => out.fail(),
    }
}

/// Adds the orders of statements in a row, and answers whether a run may come to the end of the last.
#[cycle(statements)]
fn put_row(
    alloc: Global,
    out: &mut Output,
    unit: &Unit,
    layout: &Layout,
    parameters: &[Param],
    who: Option<u16>,
    answer: u8,
    statements: &[Stmt],
) -> bool
    ensures orders { Adds (sequence (map (statement_piece (scope_with unit.now layout.now parameters.now) who answer) statements.now)) out.old out.new }
    ensures ends { result ≡ list_ends true (map (λ t. (t, comes_to_end t)) statements.now) }
{
    let mut before = true;
    for member in statements {
        let ends = put_statement(alloc, out, unit, layout, parameters, who, answer, member);
        before = ends_behind(before, member, ends);
    }
    before
}

/// The same, or NoMemory.
pub fn emit_statement(
    alloc: Global,
    out: &mut Output,
    unit: &Unit,
    layout: &Layout,
    parameters: &[Param],
    who: Option<u16>,
    answer: u8,
    statement: &Stmt,
) -> Result<bool, NoMemory>
    ensures orders { OnOk result (made out.new
        ≡ added (statement_piece (scope_with unit.now layout.now parameters.now) who answer statement.now)
        (made out.old)) }
    ensures ends { IfOk result (λ ends. ends ≡ comes_to_end statement.now) }
{
    let ends = put_statement(alloc, out, unit, layout, parameters, who, answer, statement);
    out.outcome()?;
    Ok(ends)
}
