//! Makes the trees of statements.
ghost use Rattle.std.specs.Prelude.{◌≡◌, IfOk};
ghost use Rattle.cw_make_stmt.specs.Made.{statement_of, form_of, simple_of, block_of};

use crate::parts::{
    answer, assignment, bits_assignment, boxed_reference, call_statement, conditional, felems_of,
    jump, line_of, marked, repetition, row, switch_jump,
};
use cw_make_expr::calls::condition_of;
pub use cw_make_expr::parts::Source;
use cw_make_expr::parts::item_here;
use cw_tree::statement::{RawBlock, RawForm, RawSimple, RawStmt};
use cw_unit::unit::Stmt;
use cw_word::{Boxed, List, NoMemory};

/// The tree of a statement.
pub fn statement_of(text: Source, s: &RawStmt) -> Result<Stmt, NoMemory>
    ensures { IfOk result (λ t. t ≡ statement_of text.entry.named.now text.entry.numbers.now s.now) }
{
    let tree = make_statement(text, s)?;
    Ok(tree.into_inner())
}

#[cycle(made)]
fn make_statement(text: Source, s: &RawStmt) -> Result<Boxed<Stmt>, NoMemory>
    ensures { IfOk result (λ t. t ≡ statement_of text.entry.named.now text.entry.numbers.now s.now) }
{
    let form = make_form(text, s.form.get())?;
    marked(text.alloc, text.numbers, s.labels.as_slice(), form)
}

#[cycle(made)]
fn make_form(text: Source, form: &RawForm) -> Result<Boxed<Stmt>, NoMemory>
    ensures { IfOk result (λ t. t ≡ form_of text.entry.named.now text.entry.numbers.now form.now) }
{
    match form {
        RawForm::Simple(s) => make_simple(text, s.get()),
        RawForm::If {
            at,
            test,
            labels,
            first,
            second,
        } => {
            let test = condition_of(text, test.get())?;
            let arm = make_simple(text, first.get())?;
            let arm = marked(text.alloc, text.numbers, labels.as_slice(), arm)?;
            match second {
                None => {
                    let other = Boxed::new(text.alloc, row(List::new(text.alloc)))?;
                    conditional(text.alloc, line_of(at), test, arm, other)
                }
                Some(s) => {
                    let other = make_statement(text, s.get())?;
                    conditional(text.alloc, line_of(at), test, arm, other)
                }
            }
        }
        RawForm::For {
            at,
            variable,
            elems,
            body,
        } => {
            let item = item_here(text.numbers, at.token);
            let variable = boxed_reference(text, variable.get())?;
            let elements = felems_of(text, elems.as_slice())?;
            let body = make_statement(text, body.get())?;
            repetition(text.alloc, line_of(at), item, variable, elements, body)
        }
    }
}

#[cycle(made)]
fn make_simple(text: Source, s: &RawSimple) -> Result<Boxed<Stmt>, NoMemory>
    ensures { IfOk result (λ t. t ≡ simple_of text.entry.named.now text.entry.numbers.now s.now) }
{
    match s {
        RawSimple::Empty => Boxed::new(text.alloc, row(List::new(text.alloc))),
        RawSimple::Assign(r, e) => assignment(text, r.get(), e.get()),
        RawSimple::AssignBits(bits, r, e) => { bits_assignment(text, bits.get(), r.get(), e.get()) }
        RawSimple::Goto(at, name) => Boxed::new(
            text.alloc,
            jump(text.named, text.numbers, at, name.get()),
        ),
        RawSimple::GotoSwitch(at, name, index) => { switch_jump(text, at, name.get(), index.get()) }
        RawSimple::Call(name, arguments) => {
            call_statement(text, name.get(), arguments.as_slice())
        }
        RawSimple::Answer(at, e) => answer(text, at, e.get()),
        RawSimple::Block(block) => {
            let statements = make_block(text, block.get())?;
            Boxed::new(text.alloc, statements)
        }
    }
}

/// The tree of a block: its statements in a row.
#[cycle(made)]
pub fn make_block(text: Source, block: &RawBlock) -> Result<Stmt, NoMemory>
    ensures { IfOk result (λ t. t ≡ block_of text.entry.named.now text.entry.numbers.now block.now) }
{
    let mut all = List::new(text.alloc);
    for statement in block.stmts.as_slice() {
        let next = make_statement(text, statement)?;
        all.push(next.into_inner())?;
    }
    Ok(row(all))
}
