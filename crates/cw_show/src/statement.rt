//! Statements, blocks and procedures.
ghost use Rattle.std.specs.Prelude.{◌∷◌, map};
ghost use Rattle.cw_lex.specs.declared.token.Word.TheVariants as words;
ghost use Rattle.cw_show.specs.Adding.{Adds};
ghost use Rattle.cw_show.specs.Spelling.{word as word_token};
ghost use Rattle.cw_show.specs.Canonical.{comma, listed, between, ended, semicolon};
ghost use Rattle.cw_show.specs.ExpressionTokens.{expr_tokens};
ghost use Rattle.cw_show.specs.StatementTokens.{param_tokens, params_tokens, felem_tokens, felems_tokens, label_tokens};
ghost use Rattle.cw_show.specs.StatementTokens.{labels_tokens, switch_tokens, assignment_tokens};
ghost use Rattle.cw_show.specs.StatementTokens.{control_tokens, head_tokens, decl_tokens, form_tokens, simple_tokens, block_tokens, proc_tokens, stmt_tokens};

use crate::expression::{put_arguments, put_bits, put_cond, put_expr, put_index, put_ref};
use crate::items::{put_data, put_names, put_overlay, put_table};
use crate::leaf::{put_name, put_type};
use crate::lists::{Part, put_between, put_listed};
use crate::segment::{put_answer, put_tag, put_takes};
use crate::token::{put_symbol, put_word};
use crate::written::Text;
use cw_lex::{Symbol, Word};
use cw_tree::expression::{RawExpr, RawRef};
use cw_tree::leaf::{RawName, RawType};
use cw_tree::statement::{
    RawBlock, RawDecl, RawFelem, RawForm, RawParam, RawProc, RawPtag, RawSimple, RawStmt,
};

impl Part for RawParam {
    ghost tokens = { param_tokens };

    fn put(&self, out: &mut Text) {
        match self {
            RawParam::Value(_, number_type, names) => {
                put_word(out, Word::Value);
                put_type(out, number_type);
                put_names(out, names.as_slice());
            }
            RawParam::Location(_, number_type, names) => {
                put_word(out, Word::Location);
                put_type(out, number_type);
                put_names(out, names.as_slice());
            }
            RawParam::Array(number_type, names) => {
                put_type(out, number_type);
                put_word(out, Word::Array);
                put_names(out, names.as_slice());
            }
            RawParam::Table(table) => put_table(out, table, &None),
            RawParam::Label(_, names) => {
                put_word(out, Word::Label);
                put_names(out, names.as_slice());
            }
            RawParam::Switch(_, names) => {
                put_word(out, Word::Switch);
                put_names(out, names.as_slice());
            }
            RawParam::Proc(answer, _, name, takes) => {
                put_answer(out, answer);
                put_word(out, Word::Procedure);
                put_name(out, &name.name);
                put_takes(out, takes.as_slice());
            }
        }
    }
}

fn put_params(out: &mut Text, params: &[RawParam])
    ensures { Adds out.old out.new (params_tokens params.now) }
{
    put_listed(out, Symbol::Semicolon, params);
}

impl Part for RawFelem {
    ghost tokens = { felem_tokens };

    fn put(&self, out: &mut Text) {
        match self {
            RawFelem::One(value) => put_expr(out, value.get()),
            RawFelem::While(value, test) => {
                put_expr(out, value.get());
                put_word(out, Word::While);
                put_cond(out, test.get());
            }
            RawFelem::Step(first, step, last) => {
                put_expr(out, first.get());
                put_word(out, Word::Step);
                put_expr(out, step.get());
                put_word(out, Word::Until);
                put_expr(out, last.get());
            }
        }
    }
}

fn put_felems(out: &mut Text, elems: &[RawFelem])
    ensures { Adds out.old out.new (felems_tokens elems.now) }
{
    put_between(out, Symbol::Comma, elems);
}

fn put_label(out: &mut Text, label: &RawName)
    ensures { Adds out.old out.new (label_tokens label.now) }
{
    put_name(out, &label.name);
    put_symbol(out, Symbol::Colon);
}

fn put_labels(out: &mut Text, labels: &[RawName])
    ensures { Adds out.old out.new (labels_tokens labels.now) }
{
    for label in labels {
        put_label(out, label);
    }
}

// Adds `SWITCH name := name , ..`.
fn put_switch(out: &mut Text, name: &RawName, goals: &[RawName])
    ensures { Adds out.old out.new (switch_tokens name.now goals.now) }
{
    put_word(out, Word::Switch);
    put_name(out, &name.name);
    put_symbol(out, Symbol::Assign);
    put_names(out, goals);
}

// Adds `ref := expr`.
fn put_assignment(out: &mut Text, place: &RawRef, value: &RawExpr)
    ensures { Adds out.old out.new (assignment_tokens place.now value.now) }
{
    put_ref(out, place);
    put_symbol(out, Symbol::Assign);
    put_expr(out, value);
}

// Adds the arguments of a call, where it has any.
fn put_call(out: &mut Text, arguments: &[RawExpr])
    ensures { Adds out.old out.new (listed comma (map expr_tokens arguments.now)) }
{
    match arguments {
        [] => {}
        [_, ..] => put_arguments(out, arguments),
    }
}

// Adds `FOR ref := felem , .. DO`.
fn put_control(out: &mut Text, variable: &RawRef, elems: &[RawFelem])
    ensures { Adds out.old out.new (control_tokens variable.now elems.now) }
{
    put_word(out, Word::For);
    put_ref(out, variable);
    put_symbol(out, Symbol::Assign);
    put_felems(out, elems);
    put_word(out, Word::Do);
}

// Adds what stands before a procedure's body.
fn put_head(
    out: &mut Text,
    answer: &Option<RawType>,
    tag: &RawPtag,
    name: &RawName,
    params: &[RawParam],
)
    ensures { Adds out.old out.new (head_tokens answer.now tag.now name.now params.now) }
{
    put_answer(out, answer);
    put_tag(out, tag);
    put_name(out, &name.name);
    put_params(out, params);
    put_symbol(out, Symbol::Semicolon);
}

/// Adds a statement.
#[cycle(statement)]
fn put_stmt(out: &mut Text, stmt: &RawStmt)
    ensures { Adds out.old out.new (stmt_tokens stmt.now) }
{
    put_labels(out, stmt.labels.as_slice());
    put_form(out, stmt.form.get());
}

#[cycle(statement)]
fn put_form(out: &mut Text, form: &RawForm)
    ensures { Adds out.old out.new (form_tokens form.now) }
{
    match form {
        RawForm::Simple(simple) => put_simple(out, simple.get()),
        RawForm::If {
            test,
            labels,
            first,
            second,
            ..
        } => {
            put_word(out, Word::If);
            put_cond(out, test.get());
            put_word(out, Word::Then);
            put_labels(out, labels.as_slice());
            put_simple(out, first.get());
            match second {
                None => {}
                Some(second) => put_else(out, second.get()),
            }
        }
        RawForm::For {
            variable,
            elems,
            body,
            ..
        } => {
            put_control(out, variable.get(), elems.as_slice());
            put_stmt(out, body.get());
        }
    }
}

#[cycle(statement)]
fn put_else(out: &mut Text, stmt: &RawStmt)
    ensures { Adds out.old out.new (word_token words.Else ∷ stmt_tokens stmt.now) }
{
    put_word(out, Word::Else);
    put_stmt(out, stmt);
}

#[cycle(statement)]
fn put_simple(out: &mut Text, simple: &RawSimple)
    ensures { Adds out.old out.new (simple_tokens simple.now) }
{
    match simple {
        RawSimple::Empty => {}
        RawSimple::Assign(place, value) => put_assignment(out, place.get(), value.get()),
        RawSimple::AssignBits(bits, place, value) => {
            put_bits(out, bits.get());
            put_assignment(out, place.get(), value.get());
        }
        RawSimple::Goto(_, label) => {
            put_word(out, Word::Goto);
            put_name(out, &label.get().name);
        }
        RawSimple::GotoSwitch(_, switch, index) => {
            put_word(out, Word::Goto);
            put_name(out, &switch.get().name);
            put_index(out, index.get());
        }
        RawSimple::Call(name, arguments) => {
            put_name(out, &name.get().name);
            put_call(out, arguments.as_slice());
        }
        RawSimple::Answer(_, value) => {
            put_word(out, Word::Answer);
            put_expr(out, value.get());
        }
        RawSimple::Block(block) => put_block(out, block.get()),
    }
}

/// Adds a block.
#[cycle(statement)]
pub fn put_block(out: &mut Text, block: &RawBlock)
    ensures { Adds out.old out.new (block_tokens block.now) }
{
    put_word(out, Word::Begin);
    put_decls(out, block.decls.as_slice());
    put_stmts(out, block.stmts.as_slice());
    put_word(out, Word::End);
}

#[cycle(statement)]
fn put_decls(out: &mut Text, decls: &[RawDecl])
    ensures { Adds out.old out.new (ended (map decl_tokens decls.now)) }
{
    for decl in decls {
        put_decl(out, decl);
        put_symbol(out, Symbol::Semicolon);
    }
}

#[cycle(statement)]
fn put_stmts(out: &mut Text, stmts: &[RawStmt])
    ensures { Adds out.old out.new (between semicolon (map stmt_tokens stmts.now)) }
{
    match stmts {
        [] => {}
        [first, rest @ ..] => {
            put_stmt(out, first);
            for stmt in rest {
                put_symbol(out, Symbol::Semicolon);
                put_stmt(out, stmt);
            }
        }
    }
}

#[cycle(statement)]
fn put_decl(out: &mut Text, decl: &RawDecl)
    ensures { Adds out.old out.new (decl_tokens decl.now) }
{
    match decl {
        RawDecl::Data(data) => put_data(out, data),
        RawDecl::Overlay(_, base, data) => put_overlay(out, base, data),
        RawDecl::Switch(_, name, goals) => put_switch(out, name, goals.as_slice()),
        RawDecl::Proc(proc) => put_proc(out, proc.get()),
    }
}

#[cycle(statement)]
fn put_proc(out: &mut Text, proc: &RawProc)
    ensures { Adds out.old out.new (proc_tokens proc.now) }
{
    put_head(
        out,
        &proc.answer,
        &proc.tag,
        &proc.name,
        proc.params.as_slice(),
    );
    put_stmt(out, proc.body.get());
}
