//! The bound in numbers, and the lemmas at work.
ghost use Rattle.std.specs.Prelude.{ℕ, ◌+◌, ◌*◌, ◌≤◌, true};
ghost use Rattle.cw_track.specs.Tracking.{Tracks, KeepsPace, startup_budget, step_budget, step_ratio};
ghost use Rattle.cw_track.specs.Clocks.{First, Wound, is_striking, pendulum, escapement, wheels};

/// What the start-up and the steps so far, with the one under way, may spend together.
pub fn budgets()
    ensures { (m : ℕ) → startup_budget + step_budget * (m + 1) ≤ step_ratio * (m + 1) }
{}

/// A clock that strikes at every second tick is tracked by its escapement, which moves once for each strike, and by its
/// wheels, which turn three times for each; and with the turn that winds them up, the wheels turn at most four times for
/// each tick and one more.
pub fn clocks()
    ensures strikes { (n : ℕ) → Tracks is_striking pendulum (n, true) escapement n }
    ensures turns { (n : ℕ) → Tracks is_striking pendulum (n, true) wheels (n, First) }
    ensures pace { (n : ℕ) → KeepsPace is_striking 4 pendulum (n, true) wheels (n, Wound) }
{}
