//! First fits by one sweep over the absolute families.
ghost use Rattle.std.specs.Prelude.{◌≡◌, ◌≤◌, ◌<◌, ◌+◌, ◌^◌, length};
ghost use Rattle.cw_unit.specs.Allocation.{first_fit};
ghost use Rattle.cw_place.specs.Sweep.{Number, ranges_of, end_at, IsSwept, ArePassed};

use cw_unit::laws::fits_first;

/// The words of an absolute family, from its start up to its end.
#[derive(Clone, Copy)]
pub(crate) struct Span {
    pub(crate) start: u64,
    pub(crate) end: u64,
}

/// How far a sweep has come: the spans that were passed, and an address.
#[derive(Clone, Copy)]
pub(crate) struct Sweep {
    pub(crate) passed: usize,
    pub(crate) address: u64,
}

/// The first fit of so many words at the address or behind it. No span that was passed is looked at again.
pub(crate) fn first_fit(spans: &[Span], sweep: &Sweep, extent: u64) -> Sweep
    requires swept { IsSwept spans.now }
    requires within { sweep.now.passed ≤ length spans.now }
    requires passed { ArePassed spans.now sweep.now.passed sweep.now.address }
    requires small { sweep.now.address + extent < 2 ^ 63 }
    requires ends { (k : Number) → k < length spans.now → end_at spans.now k + extent < 2 ^ 63 }
    ensures address { result.address ≡ first_fit (ranges_of spans.now) extent sweep.now.address }
    ensures within { result.passed ≤ length spans.now }
    ensures passed { ArePassed spans.now result.passed result.address }
{
    fits_first();
    if extent == 0 {
        return *sweep;
    }
    let mut passed = sweep.passed;
    let mut address = sweep.address;
    while passed < spans.len() && spans[passed].start < address + extent {
        if address < spans[passed].end {
            address = spans[passed].end;
        }
        passed += 1;
    }
    Sweep { passed, address }
}
