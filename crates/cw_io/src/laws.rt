//! A law of the counts.
ghost use Rattle.std.specs.Prelude.{◌≡◌, ◌↔◌, ◌⊎◌, ◌-◌, ◌^◌, ◌<◌, ◌≤◌, ℕ};
ghost use Rattle.cw_io.specs.Count.{Rose};

/// A count that a u64 holds rose where it is greater than before, or stands at the last value.
#[tactic(auto, using(crate::proofs::Counts::rose_is))]
pub fn rose()
    ensures { (before now : ℕ) → before ≤ now → now ≤ 2 ^ 64 - 1 → Rose before now ↔ ((before < now) ⊎ (now ≡ 2 ^ 64 - 1)) }
{}
