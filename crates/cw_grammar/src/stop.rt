//! Why reading stopped.
ghost use Rattle.std.specs.Prelude.{◌≡◌};
ghost use Rattle.cw_grammar.specs.declared.stop.Stop.TheVariants.{Memory};

use cw_word::NoMemory;

/// Why reading stopped, with the number of tokens from there to the end; a level too many is found behind the token that
/// opens it, and the number counts that token.
#[derive(Debug, Drop)]
pub enum Stop {
    Memory,
    Syntax(usize),
    Deep(usize),
}

impl From<NoMemory> for Stop {
    ghost from_gives = { λ _ e. e ≡ Memory };

    fn from(_: NoMemory) -> Stop {
        Stop::Memory
    }
}
