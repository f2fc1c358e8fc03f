//! Which calls of an object in memory are to fail.
ghost use Rattle.std.specs.Prelude.{◌≡◌, ◌↔◌, ◌≤◌, IsTrue};
ghost use Rattle.std.specs.Bool.{OnTrue, OnFalse};
ghost use Rattle.cw_io.specs.Count.{one_more};
ghost use Rattle.cw_io.specs.Schedule.{IsNew, FailsNext, IsCalled};

use cw_word::List;

/// The numbers of the calls that are to fail, from 1, and how many calls were made and how many failed.
#[derive(Drop)]
pub(crate) struct Schedule {
    fails: List<u64>,
    calls: u64,
    faults: u64,
}

impl Schedule {
    pub(crate) fn new(fails: List<u64>) -> Schedule
        ensures { IsNew result fails }
    {
        Schedule {
            fails,
            calls: 0,
            faults: 0,
        }
    }

    /// Counts a call, and says whether it is to fail, which is then counted too.
    pub(crate) fn fails_now(&mut self) -> bool
        ensures listed { IsTrue result ↔ FailsNext self.old }
        ensures called { IsCalled self.old self.new }
        ensures later { self.old.faults ≤ self.new.faults }
        ensures fault { OnTrue result (self.new.faults ≡ one_more self.old.faults) }
        ensures no_fault { OnFalse result (self.new.faults ≡ self.old.faults) }
    {
        self.calls = self.calls.saturating_add(1);
        let listed = self.fails.as_slice().contains(&self.calls);
        if listed {
            self.count_fault();
        }
        listed
    }

    /// Counts a call that fails though it isn't listed.
    pub(crate) fn count_fault(&mut self)
        ensures faults { self.new.faults ≡ one_more self.old.faults }
        ensures later { self.old.faults ≤ self.new.faults }
        ensures calls { self.new.calls ≡ self.old.calls }
        ensures fails { self.new.fails ≡ self.old.fails }
    {
        self.faults = self.faults.saturating_add(1);
    }
}
