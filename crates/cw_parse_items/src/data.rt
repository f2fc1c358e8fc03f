//! Declarations of data and presets from left to right.
ghost use Rattle.std.specs.Prelude.{◌≡◌, [], ◌∷◌};
ghost use Rattle.cw_grammar.specs.Tokens.{behind, seen};
ghost use Rattle.cw_grammar.specs.Grammar.{starts, first, a_pair, a_list, an_int, a_sint, an_option, a_position, a_from, a_token, a_name, a_type, a_place};
ghost use Rattle.cw_grammar.specs.Grammar.{a_presets, a_range, a_bounds, a_group, an_elem, a_table, a_data, a_base, ◌·◌, again, places, more_elems};
ghost use Rattle.cw_grammar.specs.Rules.{name, commas, optional, number_type, int, sint, symbol, ◌*>◌};
ghost use Rattle.cw_lex.specs.declared.token.Symbol.TheVariants.{Comma};
ghost use Rattle.cw_grammar.specs.Statements.{in_square, in_round, semicolons, listed, preset_value, assigned, preset, range, bounds, group};
ghost use Rattle.cw_grammar.specs.Statements.{elem, table, table_body, data_table, singles, arrays, item_data, base, overlay};
ghost use Rattle.cw_grammar.specs.Reading.{Gives, read, applied};
ghost use Rattle.cw_parse_items.specs.Elems.{behind_elems, part, presets_after};
ghost use Rattle.cw_tree.specs.declared.items.RawElem.TheVariants.{Part};

use crate::taking::taken;
use cw_grammar::leaf::literal_byte;
use cw_grammar::reading::{
    is_sign, read_int, read_name, read_number, read_octal, read_optional_sign, read_sint,
    read_size, read_type,
};
use cw_grammar::stop::Stop;
use cw_grammar::token::{Item, next_is, position, take_kind};
use cw_lex::{Symbol, Token, TokenKind, Word};
use cw_series::lists::read_list;
use cw_tree::items::{
    RawBase, RawBounds, RawData, RawElem, RawGroup, RawPlace, RawPresets, RawRange, RawTable,
};
use cw_tree::leaf::{Position, RawInt, RawLiteral, RawName, RawSint, RawSize, RawType};
use cw_word::List;
use std::alloc::Global;

// What stands inside the items of lists. A loop that keeps such items names it once: only so does the prover find where the
// ranges of the numbers inside them are stated.
type Inside = (RawInt, RawSint, RawSize, RawType);

/// Whether a type comes next.
#[tactic(auto, unfolding(cw_grammar::specs::Rules::number_type))]
pub fn is_type(tokens: &[Token], at: usize) -> bool
    ensures { result ≡ starts (behind tokens.now at) (first number_type) }
{
    next_is(tokens, at, TokenKind::Word(Word::Integer))
        || next_is(tokens, at, TokenKind::Word(Word::Fixed))
}

#[tactic(auto, unfolding(cw_grammar::specs::Statements::preset_value, cw_grammar::specs::Rules::octal))]
fn is_value(tokens: &[Token], at: usize) -> bool
    ensures { result ≡ starts (behind tokens.now at) (first preset_value) }
{
    is_sign(tokens, at)
        || next_is(tokens, at, TokenKind::Number)
        || next_is(tokens, at, TokenKind::Word(Word::Octal))
        || next_is(tokens, at, TokenKind::Literal)
}

pub fn read_names(
    alloc: Global,
    tokens: &[Token],
    at: usize,
) -> Result<(List<RawName>, usize), Stop>
    ensures { Gives (λ x. (x.0, behind tokens.now x.1)) result (read 0 (a_list a_name) (commas name) (behind tokens.now at)) }
{
    read_list(
        alloc,
        tokens,
        at,
        TokenKind::Symbol(Symbol::Comma),
        |at| read_name(tokens, at),
    )
}

#[tactic(auto, unfolding(cw_grammar::specs::Statements::preset_value, cw_grammar::specs::Rules::octal))]
fn read_value(tokens: &[Token], at: usize) -> Result<(RawPlace, usize), Stop>
    ensures { Gives (λ x. (x.0, behind tokens.now x.1)) result (read 0 a_place preset_value (behind tokens.now at)) }
{
    let (sign, at) = read_optional_sign(tokens, at)?;
    if next_is(tokens, at, TokenKind::Number) {
        let (number, at) = read_number(tokens, at)?;
        return Ok((RawPlace::Number(sign, number), at));
    }
    if next_is(tokens, at, TokenKind::Word(Word::Octal)) {
        let (octal, at) = read_octal(tokens, at)?;
        return Ok((RawPlace::Octal(sign, octal), at));
    }
    let (item, at) = take_kind(tokens, at, TokenKind::Literal)?;
    let literal = RawLiteral {
        at: position(item),
        byte: literal_byte(item.text),
    };
    Ok((RawPlace::Literal(sign, literal), at))
}

fn read_places(
    alloc: Global,
    tokens: &[Token],
    at: usize,
    before: Position,
) -> Result<(List<RawPlace>, usize), Stop>
    ensures { Gives (λ x. (x.0, behind tokens.now x.1)) result
        (applied before (read 0 (a_from a_position (a_list a_place)) (again places) (behind tokens.now at))) }
{
    let mut found = List::new(alloc);
    let mut depth = 0_usize;
    let mut before = before;
    let mut next = at;
    let mut behind_place = false;
    loop {
        if !behind_place {
            if next_is(tokens, next, TokenKind::Symbol(Symbol::Open)) {
                let (open, after) = taken(tokens, next, TokenKind::Symbol(Symbol::Open));
                before = position(open);
                depth += 1;
                next = after;
            } else if is_value(tokens, next) {
                let (value, after) = read_value(tokens, next)?;
                found.push(value)?;
                next = after;
                behind_place = true;
            } else {
                found.push(RawPlace::Void(before))?;
                behind_place = true;
            }
        } else if next_is(tokens, next, TokenKind::Symbol(Symbol::Comma)) {
            let (comma, after) = taken(tokens, next, TokenKind::Symbol(Symbol::Comma));
            before = position(comma);
            next = after;
            behind_place = false;
        } else if depth == 0 {
            return Ok((found, next));
        } else {
            let (_, after) = take_kind(tokens, next, TokenKind::Symbol(Symbol::Close))?;
            depth -= 1;
            next = after;
        }
    }
}

fn read_presets(
    alloc: Global,
    tokens: &[Token],
    at: usize,
    kind: TokenKind,
) -> Result<(RawPresets, usize), Stop>
    ensures { Gives (λ x. (x.0, behind tokens.now x.1)) result (read 0 a_presets (presets_after kind) (behind tokens.now at)) }
{
    let (item, at) = take_kind(tokens, at, kind)?;
    let before = position(item);
    let (places, at) = read_places(alloc, tokens, at, before)?;
    Ok((RawPresets { at: before, places }, at))
}

#[tactic(auto, unfolding(cw_grammar::specs::Statements::assigned))]
fn read_assigned(alloc: Global, tokens: &[Token], at: usize) -> Result<(RawPresets, usize), Stop>
    ensures { Gives (λ x. (x.0, behind tokens.now x.1)) result (read 0 a_presets assigned (behind tokens.now at)) }
{
    read_presets(alloc, tokens, at, TokenKind::Symbol(Symbol::Assign))
}

#[tactic(auto, unfolding(cw_grammar::specs::Statements::preset))]
fn read_preset(alloc: Global, tokens: &[Token], at: usize) -> Result<(RawPresets, usize), Stop>
    ensures { Gives (λ x. (x.0, behind tokens.now x.1)) result (read 0 a_presets preset (behind tokens.now at)) }
{
    read_presets(alloc, tokens, at, TokenKind::Word(Word::Preset))
}

#[tactic(auto, unfolding(cw_grammar::specs::Statements::assigned))]
fn read_optional_presets(
    alloc: Global,
    tokens: &[Token],
    at: usize,
) -> Result<(Option<RawPresets>, usize), Stop>
    ensures { Gives (λ x. (x.0, behind tokens.now x.1)) result (read 0 (an_option a_presets) (optional assigned) (behind tokens.now at)) }
{
    if next_is(tokens, at, TokenKind::Symbol(Symbol::Assign)) {
        let (presets, at) = read_assigned(alloc, tokens, at)?;
        return Ok((Some(presets), at));
    }
    Ok((None, at))
}

#[tactic(auto, unfolding(cw_grammar::specs::Statements::range))]
fn read_range(tokens: &[Token], at: usize) -> Result<(RawRange, usize), Stop>
    ensures { Gives (λ x. (x.0, behind tokens.now x.1)) result (read 0 a_range range (behind tokens.now at)) }
{
    let (lower, at) = read_sint(tokens, at)?;
    let (_, at) = take_kind(tokens, at, TokenKind::Symbol(Symbol::Colon))?;
    let (upper, at) = read_sint(tokens, at)?;
    Ok((RawRange { lower, upper }, at))
}

#[tactic(auto, unfolding(cw_grammar::specs::Statements::bounds))]
fn read_bounds(tokens: &[Token], at: usize) -> Result<(RawBounds, usize), Stop>
    ensures { Gives (λ x. (x.0, behind tokens.now x.1)) result (read 0 a_bounds bounds (behind tokens.now at)) }
{
    let (first, at) = read_range(tokens, at)?;
    if next_is(tokens, at, TokenKind::Symbol(Symbol::Comma)) {
        let (_, at) = taken(tokens, at, TokenKind::Symbol(Symbol::Comma));
        let (second, at) = read_range(tokens, at)?;
        let second = Some(second);
        return Ok((RawBounds { first, second }, at));
    }
    Ok((
        RawBounds {
            first,
            second: None,
        },
        at,
    ))
}

pub fn read_square_bounds(tokens: &[Token], at: usize) -> Result<(RawBounds, usize), Stop>
    ensures { Gives (λ x. (x.0, behind tokens.now x.1)) result (read 0 a_bounds (in_square bounds) (behind tokens.now at)) }
{
    let (_, at) = take_kind(tokens, at, TokenKind::Symbol(Symbol::OpenSquare))?;
    let (bounds, at) = read_bounds(tokens, at)?;
    let (_, at) = take_kind(tokens, at, TokenKind::Symbol(Symbol::CloseSquare))?;
    Ok((bounds, at))
}

#[tactic(auto, unfolding(cw_grammar::specs::Statements::group))]
fn read_group(alloc: Global, tokens: &[Token], at: usize) -> Result<(RawGroup, usize), Stop>
    ensures { Gives (λ x. (x.0, behind tokens.now x.1)) result (read 0 a_group group (behind tokens.now at)) }
{
    let (names, at) = read_names(alloc, tokens, at)?;
    let (bounds, at) = read_square_bounds(tokens, at)?;
    Ok((RawGroup { names, bounds }, at))
}

fn read_groups(alloc: Global, tokens: &[Token], at: usize) -> Result<(List<RawGroup>, usize), Stop>
    ensures { Gives (λ x. (x.0, behind tokens.now x.1)) result (read 0 (a_list a_group) (commas group) (behind tokens.now at)) }
{
    read_list(
        alloc,
        tokens,
        at,
        TokenKind::Symbol(Symbol::Comma),
        |at| read_group(alloc, tokens, at),
    )
}

// "(" int "," sint ")"
fn read_bits_and_scale(tokens: &[Token], at: usize) -> Result<((RawInt, RawSint), usize), Stop>
    ensures { Gives (λ x. (x.0, behind tokens.now x.1)) result
        (read 0 (a_pair an_int a_sint) (in_round (int · (symbol Comma *> sint))) (behind tokens.now at)) }
{
    let (_, at) = take_kind(tokens, at, TokenKind::Symbol(Symbol::Open))?;
    let (bits, at) = read_int(tokens, at)?;
    let (_, at) = take_kind(tokens, at, TokenKind::Symbol(Symbol::Comma))?;
    let (scale, at) = read_sint(tokens, at)?;
    let (_, at) = take_kind(tokens, at, TokenKind::Symbol(Symbol::Close))?;
    Ok(((bits, scale), at))
}

fn read_part(
    tokens: &[Token],
    at: usize,
) -> Result<(((RawInt, RawSint), (RawInt, RawInt)), usize), Stop>
    ensures { Gives (λ x. (x.0, behind tokens.now x.1)) result (read 0 (a_pair (a_pair an_int a_sint) (a_pair an_int an_int)) part (behind tokens.now at)) }
{
    let (scaled, at) = read_bits_and_scale(tokens, at)?;
    let (word, at) = read_int(tokens, at)?;
    let (_, at) = take_kind(tokens, at, TokenKind::Symbol(Symbol::Comma))?;
    let (bit, at) = read_int(tokens, at)?;
    Ok(((scaled, (word, bit)), at))
}

fn part_elem(name: RawName, unsigned: bool, parts: ((RawInt, RawSint), (RawInt, RawInt))) -> RawElem
    ensures { result ≡ Part name unsigned parts.0.0 parts.0.1 parts.1.0 parts.1.1 }
{
    let ((bits, scale), (word, bit)) = parts;
    RawElem::Part {
        name,
        unsigned,
        bits,
        scale,
        word,
        bit,
    }
}

#[tactic(auto, unfolding(cw_grammar::specs::Statements::elem, cw_grammar::specs::Rules::number_type))]
fn read_elem(tokens: &[Token], at: usize) -> Result<(RawElem, usize), Stop>
    ensures { Gives (λ x. (x.0, behind tokens.now x.1)) result (read 0 an_elem elem (behind tokens.now at)) }
{
    let (name, at) = read_name(tokens, at)?;
    if is_type(tokens, at) {
        let (kind, at) = read_type(tokens, at)?;
        let (word, at) = read_int(tokens, at)?;
        return Ok((RawElem::Word(name, kind, word), at));
    }
    if next_is(tokens, at, TokenKind::Word(Word::Unsigned)) {
        let (_, at) = taken(tokens, at, TokenKind::Word(Word::Unsigned));
        let (parts, at) = read_part(tokens, at)?;
        return Ok((part_elem(name, true, parts), at));
    }
    let (parts, at) = read_part(tokens, at)?;
    Ok((part_elem(name, false, parts), at))
}

fn read_elems(alloc: Global, tokens: &[Token], at: usize) -> Result<(List<RawElem>, usize), Stop>
    ensures { Gives (λ x. (x.0, behind tokens.now x.1)) result (read 0 (a_list an_elem) (semicolons elem) (behind tokens.now at)) }
{
    read_list(
        alloc,
        tokens,
        at,
        TokenKind::Symbol(Symbol::Semicolon),
        |at| read_elem(tokens, at),
    )
}

#[tactic(auto, unfolding(cw_grammar::specs::Statements::elem))]
fn read_listed_elems(
    alloc: Global,
    tokens: &[Token],
    at: usize,
) -> Result<(List<RawElem>, usize), Stop>
    ensures { Gives (λ x. (x.0, behind tokens.now x.1)) result (read 0 (a_list an_elem) (listed (semicolons elem)) (behind tokens.now at)) }
{
    if next_is(tokens, at, TokenKind::Name) {
        return read_elems(alloc, tokens, at);
    }
    Ok((List::new(alloc), at))
}

fn read_square_elems(
    alloc: Global,
    tokens: &[Token],
    at: usize,
) -> Result<(List<RawElem>, usize), Stop>
    ensures { Gives (λ x. (x.0, behind tokens.now x.1)) result (read 0 (a_list an_elem) (in_square (listed (semicolons elem))) (behind tokens.now at)) }
{
    let (_, at) = take_kind(tokens, at, TokenKind::Symbol(Symbol::OpenSquare))?;
    let (elems, at) = read_listed_elems(alloc, tokens, at)?;
    let (_, at) = take_kind(tokens, at, TokenKind::Symbol(Symbol::CloseSquare))?;
    Ok((elems, at))
}

#[tactic(auto, unfolding(cw_grammar::specs::Statements::table))]
pub fn read_table(alloc: Global, tokens: &[Token], at: usize) -> Result<(RawTable, usize), Stop>
    ensures { Gives (λ x. (x.0, behind tokens.now x.1)) result (read 0 a_table table (behind tokens.now at)) }
{
    let (word, at) = take_kind(tokens, at, TokenKind::Word(Word::Table))?;
    let (name, at) = read_name(tokens, at)?;
    let (size, at) = read_size(tokens, at)?;
    let (elems, at) = read_square_elems(alloc, tokens, at)?;
    let table = RawTable {
        at: position(word),
        name,
        size,
        elems,
    };
    Ok((table, at))
}

fn read_more_elems(
    alloc: Global,
    tokens: &[Token],
    at: usize,
    first: RawElem,
) -> Result<((List<RawElem>, Option<RawPresets>), usize), Stop>
    ensures { Gives (λ x. (x.0, behind tokens.now x.1)) result
        (behind_elems (first ∷ []) (read 0 (a_pair (a_list an_elem) (an_option a_presets)) (again more_elems)
        (behind tokens.now at))) }
{
    let none: Option<Inside> = None;
    prove!(none.is_none());
    let mut elems = List::new(alloc);
    elems.push(first)?;
    let mut next = at;
    while next_is(tokens, next, TokenKind::Symbol(Symbol::Semicolon)) {
        let (_, after) = taken(tokens, next, TokenKind::Symbol(Symbol::Semicolon));
        if !next_is(tokens, after, TokenKind::Name) {
            let (presets, end) = read_preset(alloc, tokens, after)?;
            return Ok(((elems, Some(presets)), end));
        }
        let (elem, after) = read_elem(tokens, after)?;
        elems.push(elem)?;
        next = after;
    }
    if next_is(tokens, next, TokenKind::Word(Word::Preset)) {
        let (presets, end) = read_preset(alloc, tokens, next)?;
        return Ok(((elems, Some(presets)), end));
    }
    Ok(((elems, None), next))
}

#[tactic(auto, using(crate::proofs::Elems::body_elems), unfolding(cw_grammar::specs::Statements::table_body, cw_grammar::specs::Statements::elem, cw_grammar::specs::Statements::preset))]
fn read_table_body(
    alloc: Global,
    tokens: &[Token],
    at: usize,
) -> Result<((List<RawElem>, Option<RawPresets>), usize), Stop>
    ensures { Gives (λ x. (x.0, behind tokens.now x.1)) result (read 0 (a_pair (a_list an_elem) (an_option a_presets)) table_body (behind tokens.now at)) }
{
    let none: Option<Inside> = None;
    prove!(none.is_none());
    if next_is(tokens, at, TokenKind::Name) {
        let (elem, at) = read_elem(tokens, at)?;
        return read_more_elems(alloc, tokens, at, elem);
    }
    if next_is(tokens, at, TokenKind::Word(Word::Preset)) {
        let (presets, at) = read_preset(alloc, tokens, at)?;
        return Ok(((List::new(alloc), Some(presets)), at));
    }
    if next_is(tokens, at, TokenKind::Symbol(Symbol::Semicolon)) {
        let (_, at) = taken(tokens, at, TokenKind::Symbol(Symbol::Semicolon));
        let (presets, at) = read_preset(alloc, tokens, at)?;
        return Ok(((List::new(alloc), Some(presets)), at));
    }
    Ok(((List::new(alloc), None), at))
}

fn read_square_body(
    alloc: Global,
    tokens: &[Token],
    at: usize,
) -> Result<((List<RawElem>, Option<RawPresets>), usize), Stop>
    ensures { Gives (λ x. (x.0, behind tokens.now x.1)) result
        (read 0 (a_pair (a_list an_elem) (an_option a_presets)) (in_square table_body) (behind tokens.now at)) }
{
    let (_, at) = take_kind(tokens, at, TokenKind::Symbol(Symbol::OpenSquare))?;
    let (body, at) = read_table_body(alloc, tokens, at)?;
    let (_, at) = take_kind(tokens, at, TokenKind::Symbol(Symbol::CloseSquare))?;
    Ok((body, at))
}

#[tactic(auto, unfolding(cw_grammar::specs::Statements::data_table))]
pub fn read_data_table(alloc: Global, tokens: &[Token], at: usize) -> Result<(RawData, usize), Stop>
    ensures { Gives (λ x. (x.0, behind tokens.now x.1)) result (read 0 a_data data_table (behind tokens.now at)) }
{
    let (word, at) = take_kind(tokens, at, TokenKind::Word(Word::Table))?;
    let (name, at) = read_name(tokens, at)?;
    let (size, at) = read_size(tokens, at)?;
    let (body, at) = read_square_body(alloc, tokens, at)?;
    let (behind, at) = read_optional_presets(alloc, tokens, at)?;
    let (elems, inside) = body;
    let table = RawTable {
        at: position(word),
        name,
        size,
        elems,
    };
    Ok((RawData::Table(table, inside, behind), at))
}

#[tactic(auto, unfolding(cw_grammar::specs::Statements::singles))]
pub fn read_singles(
    alloc: Global,
    tokens: &[Token],
    at: usize,
    kind: RawType,
) -> Result<(RawData, usize), Stop>
    ensures { Gives (λ x. (x.0, behind tokens.now x.1)) result (applied kind (read 0 (a_from a_type a_data) singles (behind tokens.now at))) }
{
    let (names, at) = read_names(alloc, tokens, at)?;
    let (presets, at) = read_optional_presets(alloc, tokens, at)?;
    Ok((RawData::Singles(kind, names, presets), at))
}

#[tactic(auto, unfolding(cw_grammar::specs::Statements::arrays))]
pub fn read_arrays(
    alloc: Global,
    tokens: &[Token],
    at: usize,
    kind: RawType,
) -> Result<(RawData, usize), Stop>
    ensures { Gives (λ x. (x.0, behind tokens.now x.1)) result (applied kind (read 0 (a_from a_type a_data) arrays (behind tokens.now at))) }
{
    let (_, at) = take_kind(tokens, at, TokenKind::Word(Word::Array))?;
    let (groups, at) = read_groups(alloc, tokens, at)?;
    let (presets, at) = read_optional_presets(alloc, tokens, at)?;
    Ok((RawData::Arrays(kind, groups, presets), at))
}

#[tactic(auto, unfolding(cw_grammar::specs::Statements::item_data, cw_grammar::specs::Rules::number_type))]
fn read_data(alloc: Global, tokens: &[Token], at: usize) -> Result<(RawData, usize), Stop>
    ensures { Gives (λ x. (x.0, behind tokens.now x.1)) result (read 0 a_data item_data (behind tokens.now at)) }
{
    if is_type(tokens, at) {
        let (kind, at) = read_type(tokens, at)?;
        if next_is(tokens, at, TokenKind::Name) {
            return read_singles(alloc, tokens, at, kind);
        }
        return read_arrays(alloc, tokens, at, kind);
    }
    read_data_table(alloc, tokens, at)
}

fn read_second_index(tokens: &[Token], at: usize) -> Result<(Option<RawSint>, usize), Stop>
    ensures { Gives (λ x. (x.0, behind tokens.now x.1)) result (read 0 (an_option a_sint) (optional (symbol Comma *> sint)) (behind tokens.now at)) }
{
    if next_is(tokens, at, TokenKind::Symbol(Symbol::Comma)) {
        let (_, at) = taken(tokens, at, TokenKind::Symbol(Symbol::Comma));
        let (second, at) = read_sint(tokens, at)?;
        return Ok((Some(second), at));
    }
    Ok((None, at))
}

fn read_square_indexes(
    tokens: &[Token],
    at: usize,
) -> Result<((RawSint, Option<RawSint>), usize), Stop>
    ensures { Gives (λ x. (x.0, behind tokens.now x.1)) result
        (read 0 (a_pair a_sint (an_option a_sint)) (in_square (sint · optional (symbol Comma *> sint)))
        (behind tokens.now at)) }
{
    let (_, at) = take_kind(tokens, at, TokenKind::Symbol(Symbol::OpenSquare))?;
    let (first, at) = read_sint(tokens, at)?;
    let (second, at) = read_second_index(tokens, at)?;
    let (_, at) = take_kind(tokens, at, TokenKind::Symbol(Symbol::CloseSquare))?;
    Ok(((first, second), at))
}

#[tactic(auto, unfolding(cw_grammar::specs::Statements::base))]
fn read_base(tokens: &[Token], at: usize) -> Result<(RawBase, usize), Stop>
    ensures { Gives (λ x. (x.0, behind tokens.now x.1)) result (read 0 a_base base (behind tokens.now at)) }
{
    let (name, at) = read_name(tokens, at)?;
    if !next_is(tokens, at, TokenKind::Symbol(Symbol::OpenSquare)) {
        return Ok((RawBase::Name(name), at));
    }
    let (indexes, at) = read_square_indexes(tokens, at)?;
    let (first, second) = indexes;
    match second {
        None => Ok((RawBase::One(name, first), at)),
        Some(second) => Ok((RawBase::Two(name, first, second), at)),
    }
}

#[tactic(auto, unfolding(cw_grammar::specs::Statements::overlay))]
pub fn read_overlay<'a>(
    alloc: Global,
    tokens: &[Token<'a>],
    at: usize,
) -> Result<((Item<'a>, (RawBase, RawData)), usize), Stop>
    ensures { Gives (λ x. ((seen x.0.0, x.0.1), behind tokens.now x.1)) result (read 0 (a_pair a_token (a_pair a_base a_data)) overlay (behind tokens.now at)) }
{
    let (word, at) = take_kind(tokens, at, TokenKind::Word(Word::Overlay))?;
    let (base, at) = read_base(tokens, at)?;
    let (_, at) = take_kind(tokens, at, TokenKind::Word(Word::With))?;
    let (item, at) = read_data(alloc, tokens, at)?;
    Ok(((word, (base, item)), at))
}
