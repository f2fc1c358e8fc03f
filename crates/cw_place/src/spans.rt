//! The words of absolute families.
ghost use Rattle.std.specs.Prelude.{◌≡◌, [], ◌∷◌, ◌++◌, ℕ, IfOk, OnOk, MatchOption};
ghost use Rattle.std.specs.List.{All, flat_map};
ghost use Rattle.cw_unit.specs.Allocation.{first_fit};
ghost use Rattle.cw_place.specs.Sweep.{ranges_of, IsSpan, IsSwept, span_of, spans_in};
ghost use Rattle.cw_place.specs.Segments.{absolute_words};

use crate::space::Space;
use crate::sweep::Span;
use cw_unit::layout::{Family, Sort};
use cw_word::{List, NoMemory};
use std::alloc::Global;

// The words of a family, if it is absolute and has some.
fn span(family: &Family) -> Option<Span>
    ensures { MatchOption result (span_of family.now ≡ []) (λ span. (span_of family.now ≡ span ∷ []) × IsSpan span) }
{
    if let Sort::Absolute(address) = family.sort {
        if family.extent != 0 {
            let start = u64::from(address);
            let end = start + u64::from(family.extent);
            return Some(Span { start, end });
        }
    }
    None
}

// Adds those of a segment. An empty one has no words.
fn add_spans(spans: &mut List<Span>, families: &[Family]) -> Result<(), NoMemory>
    requires { All IsSpan spans.old }
    ensures added { OnOk result (spans.new ≡ spans.old ++ flat_map span_of families.now) }
    ensures each { OnOk result (All IsSpan spans.new) }
{
    for k in 0..families.len() {
        if let Some(span) = span(&families[k]) {
            spans.push(span)?;
        }
    }
    Ok(())
}

// Those of all segments, in order of the text.
fn all_spans(alloc: Global, spaces: &[Space]) -> Result<List<Span>, NoMemory>
    ensures all { IfOk result (λ spans. spans ≡ spans_in spaces.now) }
    ensures each { IfOk result (All IsSpan) }
{
    let mut spans = List::new(alloc);
    for space in spaces {
        add_spans(&mut spans, space.families.as_slice())?;
    }
    Ok(spans)
}

/// The words of all absolute families, in order of their starts.
pub(crate) fn spans(alloc: Global, spaces: &[Space]) -> Result<Vec<Span>, NoMemory>
    ensures swept { IfOk result (λ spans. IsSwept spans.items) }
    ensures each { IfOk result (λ spans. All IsSpan spans.items) }
    ensures fits { IfOk result (λ spans. (extent address : ℕ)
        → first_fit (ranges_of spans.items) extent address
        ≡ first_fit (absolute_words spaces.now) extent address) }
{
    let mut spans = all_spans(alloc, spaces)?.into_vec();
    match spans.sort_by_key(|span| span.start) {
        Ok(()) => Ok(spans),
        Err(_) => Err(NoMemory),
    }
}
