//! The names of a text, and the first fault of them.
ghost use Rattle.cw_scope.specs.Gathered.{Gathers, Gathers-prop};

pub use crate::resolving::resolve;
use cw_facts::fact::{Declaration, Fact, Signature};
use cw_table::table::Table;
use cw_tree::segment::Raw;
use cw_word::{List, Name};

/// The first fault of the names of a text.
#[derive(Clone, Copy)]
pub enum ScopeFault {
    Undeclared { name: Name, line: u32 },
    Twice { name: Name, line: u32 },
    WrongKind { name: Name, line: u32 },
    SpecDiffers { name: Name, line: u32 },
    NoMemory,
}

/// A tree with what it says about names and the declaration to which each name in it refers, found by the number of the name's
/// token. A declaration, and what a procedure is specified as, has the number of its own name's token.
#[derive(Drop)]
pub struct Named<'a> {
    pub raw: &'a Raw,
    pub facts: List<Fact>,
    pub declarations: Table<Declaration>,
    pub signatures: Table<Signature>,
    pub uses: Table<u32>,
    pub ghost gathered: { Gathers facts raw.now } by { Gathers-prop facts-code facts raw.now },
}

impl Named<'_> {
    ghost use Rattle.std.specs.Prelude.{◌≡◌, true};
    ghost use Rattle.cw_facts.specs.Facts.{block_facts};

    /// What the outermost block says about names.
    pub fn block_facts(&self) -> &[Fact]
        ensures { result.now ≡ block_facts self.now.raw.now.block true }
    {
        let facts = self.facts.as_slice();
        &facts[facts.len() - 1..]
    }
}
