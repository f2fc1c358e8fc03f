// The places of a watch, marked among all offsets of the code segment.
ghost use Rattle.std.specs.Prelude.{◌≡◌, false, replicate};
ghost use Rattle.cw_trace.specs.Marks.{Marks};

/// How many offsets a segment has.
pub(crate) const OFFSETS: usize = 65_536;

/// Marks the places in a table in which nothing is marked yet.
pub(crate) fn mark_places(table: &mut [bool; OFFSETS], places: &[u16])
    requires { table.old ≡ replicate 65536 false }
    ensures { Marks places.now table.new }
{
    for place in places {
        table[*place as usize] = true;
    }
}
