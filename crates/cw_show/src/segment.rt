//! Specifications and communicators.
ghost use Rattle.std.specs.Prelude.{◌∷◌, [], map};
ghost use Rattle.cw_show.specs.Adding.{Adds};
ghost use Rattle.cw_show.specs.Canonical.{comma, listed};
ghost use Rattle.cw_show.specs.SegmentTokens.{answer_tokens, tag as tag_token, ips_tokens, ps_tokens, spec_tokens};
ghost use Rattle.cw_show.specs.SegmentTokens.{citem_tokens, address_tokens, aitem_tokens, comm_tokens};

use crate::items::{put_bounds, put_data, put_names, put_overlay, put_table};
use crate::leaf::{put_int, put_name, put_size, put_type};
use crate::lists::{Part, put_bracketed, put_listed};
use crate::token::{put_symbol, put_word};
use crate::written::Text;
use cw_lex::{Symbol, Word};
use cw_tree::leaf::{RawInt, RawType};
use cw_tree::segment::{RawAitem, RawCitem, RawComm, RawIps, RawPs, RawSpec};
use cw_tree::statement::RawPtag;

/// Adds the type of an answer, where there is one.
pub fn put_answer(out: &mut Text, answer: &Option<RawType>)
    ensures { Adds out.old out.new (answer_tokens answer.now) }
{
    match answer {
        None => {}
        Some(number_type) => put_type(out, number_type),
    }
}

/// Adds PROCEDURE or RECURSIVE.
pub fn put_tag(out: &mut Text, tag: &RawPtag)
    ensures { Adds out.old out.new (tag_token tag.now ∷ []) }
{
    match tag {
        RawPtag::Procedure(_) => put_word(out, Word::Procedure),
        RawPtag::Recursive(_) => put_word(out, Word::Recursive),
    }
}

impl Part for RawIps {
    ghost tokens = { ips_tokens };

    fn put(&self, out: &mut Text) {
        match self {
            RawIps::Value(_, number_type) => {
                put_word(out, Word::Value);
                put_type(out, number_type);
            }
            RawIps::Location(_, number_type) => {
                put_word(out, Word::Location);
                put_type(out, number_type);
            }
            RawIps::Array(number_type) => {
                put_type(out, number_type);
                put_word(out, Word::Array);
            }
            RawIps::Table(_, size) => {
                put_word(out, Word::Table);
                put_size(out, size);
            }
            RawIps::Label(_) => put_word(out, Word::Label),
            RawIps::Switch(_) => put_word(out, Word::Switch),
        }
    }
}

/// Adds what the parameters of a procedure are specified as.
pub fn put_takes(out: &mut Text, takes: &[RawIps])
    ensures { Adds out.old out.new (listed comma (map ips_tokens takes.now)) }
{
    put_listed(out, Symbol::Comma, takes);
}

impl Part for RawPs {
    ghost tokens = { ps_tokens };

    fn put(&self, out: &mut Text) {
        match self {
            RawPs::Plain(plain) => plain.put(out),
            RawPs::Proc(answer, _, takes) => {
                put_answer(out, answer);
                put_word(out, Word::Procedure);
                put_takes(out, takes.as_slice());
            }
        }
    }
}

impl Part for RawSpec {
    ghost tokens = { spec_tokens };

    fn put(&self, out: &mut Text) {
        put_answer(out, &self.answer);
        put_tag(out, &self.tag);
        put_name(out, &self.name.name);
        put_listed(out, Symbol::Comma, self.params.as_slice());
    }
}

impl Part for RawCitem {
    ghost tokens = { citem_tokens };

    fn put(&self, out: &mut Text) {
        match self {
            RawCitem::Data(data) => put_data(out, data),
            RawCitem::Overlay(_, base, data) => put_overlay(out, base, data),
            RawCitem::Label(_, names) => {
                put_word(out, Word::Label);
                put_names(out, names.as_slice());
            }
            RawCitem::Switch(_, names) => {
                put_word(out, Word::Switch);
                put_names(out, names.as_slice());
            }
            RawCitem::Spec(spec) => spec.put(out),
        }
    }
}

fn put_address(out: &mut Text, address: &RawInt)
    ensures { Adds out.old out.new (address_tokens address.now) }
{
    put_symbol(out, Symbol::Divide);
    put_int(out, address);
}

impl Part for RawAitem {
    ghost tokens = { aitem_tokens };

    fn put(&self, out: &mut Text) {
        match self {
            RawAitem::Single(number_type, name, address) => {
                put_type(out, number_type);
                put_name(out, &name.name);
                put_address(out, address);
            }
            RawAitem::Array(number_type, name, bounds, address) => {
                put_type(out, number_type);
                put_word(out, Word::Array);
                put_name(out, &name.name);
                put_bounds(out, bounds);
                put_address(out, address);
            }
            RawAitem::Table(table, address) => {
                put_table(out, table, &None);
                put_address(out, address);
            }
        }
    }
}

impl Part for RawComm {
    ghost tokens = { comm_tokens };

    fn put(&self, out: &mut Text) {
        match self {
            RawComm::Common(_, items) => {
                put_word(out, Word::Common);
                put_bracketed(out, Symbol::Semicolon, items.as_slice());
            }
            RawComm::Library(_, specs) => {
                put_word(out, Word::Library);
                put_bracketed(out, Symbol::Semicolon, specs.as_slice());
            }
            RawComm::Absolute(_, items) => {
                put_word(out, Word::Absolute);
                put_bracketed(out, Symbol::Semicolon, items.as_slice());
            }
        }
    }
}
