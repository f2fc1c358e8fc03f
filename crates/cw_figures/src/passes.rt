//! How long each pass takes, from the bytes of a text to its unit.
ghost use Rattle.std.specs.Prelude.{◌≡◌, ◌≤◌, length, map};
ghost use Rattle.cw_lex.specs.declared.token.Form.TheVariants.{Source};
ghost use Rattle.cw_lex.specs.Lexical.{view, first_place, Tokenizes};
ghost use Rattle.cw_macro.specs.Premises.{AreOfText};

use cw_lex::{Token, lex};
use cw_macro::expand;
use cw_make::made::unit_of_named;
use cw_parse::parse;
use cw_scope::resolve::{Named, resolve};
use cw_tree::segment::Raw;
use cw_type::StoredText;
use cw_type::check::check_types;
use std::alloc::Global;
use std::rt::Clock;
use std::time::Instant;

/// A pass, and how many microseconds it took.
#[derive(Drop)]
pub struct Span {
    pub pass: &'static str,
    pub took: u128,
}

/// What the passes took so far. Where the clock or memory fails it keeps that, so that no pass has a way out.
#[derive(Drop)]
pub struct Spans {
    list: Vec<Span>,
    since: Option<Instant>,
    failed: bool,
}

impl Spans {
    /// No passes yet.
    pub fn new(alloc: Global) -> Spans {
        Spans {
            list: Vec::new(alloc),
            since: None,
            failed: false,
        }
    }

    /// The passes in order, unless the clock or memory failed.
    pub fn list(&self) -> Option<&[Span]> {
        if self.failed {
            None
        } else {
            Some(self.list.as_slice())
        }
    }

    // Begins to time a pass.
    fn begin(&mut self, rt: &impl Clock) {
        self.since = Instant::now(rt).ok();
    }

    // How many microseconds have gone since then.
    fn took(&self, rt: &impl Clock) -> Option<u128> {
        match &self.since {
            Some(start) => match start.elapsed(rt) {
                Ok(took) => Some(took.as_micros()),
                Err(_) => None,
            },
            None => None,
        }
    }

    // Notes how long the pass took that was begun last.
    fn note(&mut self, rt: &impl Clock, pass: &'static str) {
        match self.took(rt) {
            Some(took) => {
                if self.list.push(Span { pass, took }).is_err() {
                    self.failed = true;
                }
            }
            None => self.failed = true,
        }
    }
}

// Of a text in which no rule of names is broken.
fn time_stored(rt: &impl Clock, alloc: Global, stored: &StoredText, spans: &mut Spans) {
    spans.begin(rt);
    let judged = check_types(alloc, stored).is_ok();
    spans.note(rt, "rules of types");
    if judged {
        spans.begin(rt);
        let _unit = unit_of_named(alloc, stored);
        spans.note(rt, "unit");
    }
}

fn time_named(rt: &impl Clock, alloc: Global, named: Named, spans: &mut Spans) {
    spans.begin(rt);
    let stored = StoredText::new(alloc, named);
    spans.note(rt, "what is stored");
    if let Ok(stored) = &stored {
        time_stored(rt, alloc, stored, spans);
    }
}

fn time_tree(rt: &impl Clock, alloc: Global, raw: &Raw, spans: &mut Spans) {
    spans.begin(rt);
    let named = resolve(alloc, raw);
    spans.note(rt, "names");
    if let Ok(named) = named {
        time_named(rt, alloc, named, spans);
    }
}

fn time_expanded(rt: &impl Clock, alloc: Global, tokens: &[Token<'_>], spans: &mut Spans) {
    if tokens.len() > 65_535 {
        return;
    }
    spans.begin(rt);
    let raw = parse(alloc, tokens);
    spans.note(rt, "tree");
    if let Ok(raw) = &raw {
        time_tree(rt, alloc, raw, spans);
    }
}

fn time_tokens(rt: &impl Clock, alloc: Global, tokens: &[Token<'_>], spans: &mut Spans)
    requires { AreOfText (map view tokens.now) }
{
    spans.begin(rt);
    let expanded = expand(alloc, tokens);
    spans.note(rt, "expansion");
    if let Ok(expanded) = &expanded {
        time_expanded(rt, alloc, expanded.as_slice(), spans);
    }
}

/// Makes a text's unit pass by pass, and notes how long each took, up to the one that refuses it.
pub fn time_text(rt: &impl Clock, alloc: Global, text: &[u8], spans: &mut Spans)
    requires { length text.now ≤ 1048576 }
{
    spans.begin(rt);
    let tokens = lex(alloc, text);
    spans.note(rt, "tokens");
    if let Ok(tokens) = &tokens {
        time_tokens(rt, alloc, tokens.as_slice(), spans);
    }
}
