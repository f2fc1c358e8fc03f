//! Operands with an operator between any two.
ghost use Rattle.std.specs.Prelude.{◌≡◌, Bool, [], ◌∷◌, List as Sequence};
ghost use Rattle.cw_lex.specs.declared.token.TokenKind.TheVariants as kinds;
ghost use Rattle.cw_grammar.specs.Tokens.{Item, behind};
ghost use Rattle.cw_grammar.specs.Grammar.{starts, first, a_position, a_sign, a_factor_sign};
ghost use Rattle.cw_grammar.specs.Rules.{operator as word_operator, sign, factor_sign};
ghost use Rattle.cw_grammar.specs.Reading.{Gives, Read, read};
ghost use Rattle.cw_series.specs.Series.{Reads};
ghost use Rattle.cw_parse_expr.specs.Operands.{chained};

use cw_grammar::reading::{is_sign, read_sign};
use cw_grammar::stop::Stop;
use cw_grammar::token::{left, next_is};
use cw_lex::{Token, TokenKind, Word};
use cw_operand::operands::{is_factor_sign, read_factor_sign, read_operator};
use cw_tree::leaf::{Position, RawFactorSign, RawSign};
use cw_word::{List, Seldom};
use std::alloc::Global;

/// What stands between two operands.
pub trait Operator: Copy {
    type Found: Drop;

    ghost begins: { Self → Sequence Item → Bool };

    ghost reads: { Self → Sequence Item → Read Self.Found };

    /// Whether one comes next.
    fn is_next(self, tokens: &[Token], at: usize) -> bool
        ensures { result ≡ begins self (behind tokens.now at) };

    /// The one at a place, and the place behind it.
    fn read(self, tokens: &[Token], at: usize) -> Result<(Self::Found, usize), Stop>
        ensures { Gives (λ x. (x.0, behind tokens.now x.1)) result (reads self (behind tokens.now at)) };
}

impl Operator for Word {
    type Found = Position;

    ghost begins = { λ word ts. starts ts (kinds.Word word ∷ []) };

    ghost reads = { λ word ts. read 0 a_position (word_operator word) ts };

    fn is_next(self, tokens: &[Token], at: usize) -> bool {
        next_is(tokens, at, TokenKind::Word(self))
    }

    fn read(self, tokens: &[Token], at: usize) -> Result<(Position, usize), Stop> {
        read_operator(tokens, at, self)
    }
}

/// `+` or `-`.
#[derive(Clone, Copy)]
pub struct Sign;

impl Operator for Sign {
    type Found = RawSign;

    ghost begins = { λ _ ts. starts ts (first sign) };

    ghost reads = { λ _ ts. read 0 a_sign sign ts };

    fn is_next(self, tokens: &[Token], at: usize) -> bool {
        is_sign(tokens, at)
    }

    fn read(self, tokens: &[Token], at: usize) -> Result<(RawSign, usize), Stop> {
        read_sign(tokens, at)
    }
}

/// `*` or `/`.
#[derive(Clone, Copy)]
pub struct FactorSign;

impl Operator for FactorSign {
    type Found = RawFactorSign;

    ghost begins = { λ _ ts. starts ts (first factor_sign) };

    ghost reads = { λ _ ts. read 0 a_factor_sign factor_sign ts };

    fn is_next(self, tokens: &[Token], at: usize) -> bool {
        is_factor_sign(tokens, at)
    }

    fn read(self, tokens: &[Token], at: usize) -> Result<(RawFactorSign, usize), Stop> {
        read_factor_sign(tokens, at)
    }
}

// The operands behind those that are there, each with an operator before it, and the operators.
fn read_chain<O: Operator, T: Drop, F: Fn(usize) -> Result<(T, usize), Stop>>(
    tokens: &[Token],
    at: usize,
    operator: O,
    start: (List<T>, List<O::Found>),
    read: F,
) -> Result<((List<T>, List<O::Found>), usize), Stop>
    requires { F.IsAlwaysCallable read }
    ensures { (item : Sequence Item → Read T) → Reads F.Fn read tokens.now item
        → Gives (λ x. (x.0, behind tokens.now x.1)) result (chained start (O.begins operator) (O.reads operator) item (behind tokens.now at)) }
{
    let (mut operands, mut operators) = start;
    let mut next = at;
    // Each operator takes a token.
    let mut most = left(tokens, at);
    'more: while most > 0 {
        if !operator.is_next(tokens, next) {
            return Ok(((operands, operators), next));
        }
        let (sign, after) = operator.read(tokens, next)?;
        let (operand, after) = read(after)?;
        operands.push(operand)?;
        operators.push(sign)?;
        next = after;
        most -= 1;
    }
    Ok(((operands, operators), next))
}

/// The operands behind those that are there, each with an operator before it, and the operators in a list that is seldom long.
pub fn read_chained<O: Operator, T: Drop, F: Fn(usize) -> Result<(T, usize), Stop>>(
    alloc: Global,
    tokens: &[Token],
    at: usize,
    operator: O,
    start: (List<T>, List<O::Found>),
    read: F,
) -> Result<((List<T>, Seldom<O::Found>), usize), Stop>
    requires { F.IsAlwaysCallable read }
    ensures { (item : Sequence Item → Read T) → Reads F.Fn read tokens.now item
        → Gives (λ x. (x.0, behind tokens.now x.1)) result (chained start (O.begins operator) (O.reads operator) item (behind tokens.now at)) }
{
    let (chain, at) = read_chain(tokens, at, operator, start, read)?;
    let (operands, operators) = chain;
    let operators = Seldom::of(alloc, operators)?;
    Ok(((operands, operators), at))
}
