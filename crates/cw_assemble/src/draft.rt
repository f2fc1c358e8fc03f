//! Code that grows, and keeps whether it has failed.
ghost use Rattle.std.specs.Prelude.{◌≡◌, true, false, [], IfOk};
ghost use Rattle.cw_tmpl.specs.Pieces.{AllCoded};
ghost use Rattle.cw_assemble.specs.Growing.{Adds};

use cw_tmpl::{Assembly, Coded};
use cw_word::{List, NoMemory};
use std::alloc::Global;

/// The code of a segment so far.
#[derive(Drop)]
pub(crate) struct Draft {
    pub assembly: Assembly,
    /// There was no memory for a piece, or a table would have been too long. Then the rest is of no use, and what is added to it does no
    /// harm.
    pub failed: bool,
}

impl Draft {
    /// No code.
    pub(crate) fn new(alloc: Global) -> Draft
        ensures { result ≡ record { assembly = record { bytes = []; relocs = [] }; failed = false } }
    {
        Draft {
            assembly: Assembly {
                bytes: List::new(alloc),
                relocs: List::new(alloc),
            },
            failed: false,
        }
    }

    /// What is here is of no use.
    pub(crate) fn fail(&mut self)
        ensures { self.new.failed ≡ true }
    {
        self.failed = true;
    }

    /// Adds pieces, in their order, or fails.
    pub(crate) fn put_all(&mut self, pieces: &[Coded])
        requires { AllCoded pieces.now }
        ensures { Adds self.old pieces.now self.new }
    {
        match self.assembly.put_all(pieces) {
            Ok(()) => (),
            Err(_) => self.fail(),
        }
    }

    /// Adds no pieces.
    pub(crate) fn put_nothing(&mut self)
        ensures { Adds self.old [] self.new }
    {}

    /// The code, or NoMemory where it has failed.
    pub(crate) fn finish(self) -> Result<Assembly, NoMemory>
        ensures { IfOk result (λ assembly. (self.failed ≡ false) × (assembly ≡ self.assembly)) }
    {
        if self.failed {
            Err(NoMemory)
        } else {
            Ok(self.assembly)
        }
    }
}
