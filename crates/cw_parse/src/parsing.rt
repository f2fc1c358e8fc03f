//! Whole texts from left to right.
ghost use Rattle.std.specs.Prelude.{◌≤◌, length, IfOk, IfErr};
ghost use Rattle.cw_tree.specs.declared.segment.Raw.{Raw as Tree};
ghost use Rattle.cw_grammar.specs.Tokens.{behind, items, seen};
ghost use Rattle.cw_grammar.specs.Grammar.{a_raw, a_list, a_comm, many};
ghost use Rattle.cw_grammar.specs.Rules.{symbol, ◌<*◌};
ghost use Rattle.cw_lex.specs.declared.token.Symbol.TheVariants.{Semicolon};
ghost use Rattle.cw_grammar.specs.Statements.{text, comm};
ghost use Rattle.cw_grammar.specs.Derives.{Derives};
ghost use Rattle.cw_grammar.specs.Reading.{Gives, read};
ghost use Rattle.cw_derived.specs.Proper.{IsProper};
ghost use Rattle.cw_parse.specs.Alternatives.{a_segment, segment};
ghost use Rattle.cw_parse.specs.Texts.{IsTextFault, IsTreeOrMemory};

use crate::statement::read_block_rest;
use cw_grammar::fault::{ParseFault, deep_fault, syntax_fault};
use cw_grammar::reading::read_name;
use cw_grammar::stop::Stop;
use cw_grammar::token::{Item, left, position, take_kind};
use cw_lex::{Token, TokenKind, Word};
use cw_parse_items::comms::read_comms;
use cw_tree::leaf::RawName;
use cw_tree::segment::{Raw, RawComm};
use cw_tree::statement::{RawBlock, RawDecl, RawStmt};
use cw_word::List;
use std::alloc::Global;

/// How many levels may be open inside one another.
pub const LEVELS: u8 = 64;

// A name, and a block between its words.
type Segment<'a> = (
    RawName,
    ((Item<'a>, (List<RawDecl>, List<RawStmt>)), Item<'a>),
);

// The levels that are left do not matter.
fn read_all_comms(
    alloc: Global,
    at_levels: u8,
    tokens: &[Token],
    at: usize,
) -> Result<(List<RawComm>, usize), Stop>
    ensures { Gives (λ x. (x.0, behind tokens.now x.1)) result (read at_levels (a_list a_comm) (many (comm <* symbol Semicolon)) (behind tokens.now at)) }
{
    read_comms(alloc, tokens, at)
}

// What stands behind the communicators: the name, the block and its words.
fn read_segment<'a>(
    alloc: Global,
    levels: u8,
    tokens: &[Token<'a>],
    at: usize,
) -> Result<(Segment<'a>, usize), Stop>
    ensures { Gives (λ x. ((x.0.0, ((seen x.0.1.0.0, x.0.1.0.1), seen x.0.1.1)), behind tokens.now x.1)) result (read levels a_segment segment (behind tokens.now at)) }
{
    let (_, at) = take_kind(tokens, at, TokenKind::Word(Word::Segment))?;
    let (name, at) = read_name(tokens, at)?;
    let (word, at) = take_kind(tokens, at, TokenKind::Word(Word::Begin))?;
    let (parts, at) = read_block_rest(alloc, levels, false, tokens, at)?;
    let (finish, at) = take_kind(tokens, at, TokenKind::Word(Word::Finish))?;
    Ok(((name, ((word, parts), finish)), at))
}

#[tactic(auto, unfolding(cw_grammar::specs::Statements::text))]
fn read_text(alloc: Global, levels: u8, tokens: &[Token], at: usize) -> Result<(Raw, usize), Stop>
    ensures { Gives (λ x. (x.0, behind tokens.now x.1)) result (read levels a_raw text (behind tokens.now at)) }
{
    let (comms, at) = read_all_comms(alloc, levels, tokens, at)?;
    let (segment, at) = read_segment(alloc, levels, tokens, at)?;
    let (name, ((word, parts), finish)) = segment;
    let (decls, stmts) = parts;
    let block = RawBlock {
        at: position(word),
        decls,
        stmts,
    };
    let raw = Raw {
        name: name.name,
        comms,
        block,
        tokens: finish.number,
    };
    Ok((raw, at))
}

/// The tree of the tokens, all of them.
pub fn parse(alloc: Global, tokens: &[Token]) -> Result<Raw, ParseFault>
    requires few { length tokens.now ≤ 65535 }
    // The tokens are a text, with at most 64 levels inside one another, and this is its tree.
    ensures tree { IfOk result (λ x. Derives 64 a_raw text (items tokens.now) x) }
    // The tree is in normal form, and its positions rise strictly in order of the text.
    ensures proper { IfOk result (λ x. IsProper 64 x) }
    // Each such text is read, unless memory runs out.
    ensures all { (x : Tree) → Derives 64 a_raw text (items tokens.now) x → IsTreeOrMemory x result }
    // Else the first fault stands behind the longest front of a text, or where a level too many opens.
    ensures fault { IfErr result (λ f. IsTextFault tokens.now f) }
{
    match read_text(alloc, LEVELS, tokens, 0) {
        Ok((raw, at)) => {
            let left = left(tokens, at);
            if left == 0 {
                Ok(raw)
            } else {
                Err(syntax_fault(tokens, tokens.len() - left))
            }
        }
        Err(Stop::Memory) => Err(ParseFault::NoMemory),
        Err(Stop::Syntax(left)) => Err(syntax_fault(tokens, tokens.len() - left)),
        Err(Stop::Deep(left)) => Err(deep_fault(tokens, tokens.len() - left)),
    }
}
