//! A law of the items that names mean.
ghost use Rattle.std.specs.Prelude.{ℕ, List};
ghost use Rattle.cw_watch.specs.Watching.{item_at, FirstItem};
ghost use Rattle.cw_watch.specs.declared.lines.ItemLine.{ItemLine};

/// Of the lines that have a text, that of the lowest address counts, and the first of these.
pub fn first_items()
    ensures { (text : List ℕ) (lines : List ItemLine) → FirstItem text lines (item_at text lines) }
{}
