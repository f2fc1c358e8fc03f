//! Definitions: their headings, their bodies, and the table of those in force.
ghost use Rattle.std.specs.Prelude.{◌≡◌, ◌∷◌, [], ◌<◌, ◌≤◌, ℕ, length, map, List as Sequence, MatchOption};
ghost use Rattle.std.specs.Prelude.{OnOk, IfOk, IfSome, slice_get, Some, None, not, true, ◌++◌, ◌+◌};
ghost use Rattle.std.specs.List.{list_any, flat_map};
ghost use Rattle.std.specs.Option.{option_copied, option_map, is_some};
ghost use Rattle.std.specs.Str.{str_to_ascii_uppercase};
ghost use Rattle.cw_lex.specs.Lexical.{view, is_semicolon};
ghost use Rattle.cw_word.specs.Name.{IsName};
ghost use Rattle.cw_macro.specs.Expansion.{defines, is_name, is_string, quote_length, part, part_if_any, Parameter, redefined};
ghost use Rattle.cw_macro.specs.Expansion.{number_of, parameters as parameters_behind, heading_of, parameters_if_any};
ghost use Rattle.cw_macro.specs.Premises.{Each, IsWithin, IsPlaced};
ghost use Rattle.cw_macro.specs.Views.{left_of, run_parts, IsRun, parts_of, macro_view, table_of, IsNumbering, HasParameters, HasHeading, IsBodyRead};

use crate::arguments::is_open;
use crate::fault::MOST_BYTES;
use crate::key::key_of;
use crate::left::Left;
use cw_lex::{LexFault, Symbol, Token, TokenKind, Word, lex_body};
use cw_word::{List, Name, NoMemory};
use std::alloc::Global;
use std::collections::BTreeMap;
use std::mem;

/// A run of parameters in a body. Each is the place of its number in the list of the run's numbers, so that a look at
/// these tells whether the run brings anything.
#[derive(Drop)]
pub(crate) struct Run {
    pub(crate) numbers: List<usize>,
    pub(crate) picks: List<usize>,
}

/// A piece of a macro's body.
#[derive(Drop)]
pub(crate) enum Piece<'a> {
    Own(Token<'a>),
    Parameters(Run),
}

// A run has at most so many parameters, so that what one argument brings pays for the look at all of them.
const LONGEST_RUN: usize = 512;

/// What a name is defined as.
#[derive(Drop)]
pub(crate) struct Macro<'a> {
    pub(crate) parameters: usize,
    pub(crate) body: List<Piece<'a>>,
}

/// The definitions in force.
#[derive(Drop)]
pub(crate) struct Definitions<'a> {
    macros: BTreeMap<Name, Macro<'a>>,
}

/// The parameters of a macro with their numbers.
#[derive(Drop)]
pub(crate) struct Parameters {
    numbers: BTreeMap<Name, usize>,
}

/// What stands before a body.
#[derive(Drop)]
pub(crate) struct Heading<'a> {
    pub(crate) name: &'a [u8],
    pub(crate) parameters: Parameters,
    pub(crate) string: Token<'a>,
}

impl<'a> Definitions<'a> {
    pub(crate) fn new(alloc: Global) -> Definitions<'a>
        ensures { (name : Sequence ℕ) → table_of result name ≡ None }
    {
        Definitions {
            macros: BTreeMap::new(alloc),
        }
    }

    /// The macro of a name.
    pub(crate) fn get(&self, name: &[u8]) -> Option<&Macro<'a>>
        requires { IsName (str_to_ascii_uppercase name.now) }
        ensures { option_map macro_view (option_copied result) ≡ table_of self.now (str_to_ascii_uppercase name.now) }
    {
        let key = key_of(name);
        self.macros.get(&key)
    }

    /// Defines a name, in place of an earlier definition.
    pub(crate) fn define(&mut self, name: &[u8], definition: Macro<'a>) -> Result<(), NoMemory>
        requires { IsName (str_to_ascii_uppercase name.now) }
        ensures { OnOk result (table_of self.new ≡ redefined (table_of self.old) (str_to_ascii_uppercase name.now) (Some (macro_view definition.entry))) }
    {
        match self.macros.insert(key_of(name), definition) {
            Ok(_) => Ok(()),
            Err(_) => Err(NoMemory),
        }
    }

    /// Removes a definition, and says whether there was one.
    pub(crate) fn remove(&mut self, name: &[u8]) -> bool
        requires { IsName (str_to_ascii_uppercase name.now) }
        ensures found { result ≡ is_some (table_of self.old (str_to_ascii_uppercase name.now)) }
        ensures removed { table_of self.new ≡ redefined (table_of self.old) (str_to_ascii_uppercase name.now) None }
    {
        let key = key_of(name);
        self.macros.remove(&key).is_some()
    }
}

impl Parameters {
    fn new(alloc: Global) -> Parameters
        ensures { IsNumbering result [] }
    {
        Parameters {
            numbers: BTreeMap::new(alloc),
        }
    }

    pub(crate) fn len(&self) -> usize
        ensures { (names : Sequence (Sequence ℕ)) → IsNumbering self.now names → result ≡ length names }
    {
        self.numbers.len()
    }

    fn number(&self, name: &[u8]) -> Option<usize>
        requires { IsName (str_to_ascii_uppercase name.now) }
        ensures { (names : Sequence (Sequence ℕ)) → IsNumbering self.now names → result ≡ number_of (str_to_ascii_uppercase name.now) names }
    {
        let key = key_of(name);
        self.numbers.get(&key).copied()
    }

    // Adds a name, and says whether it is new.
    fn add(&mut self, name: &[u8]) -> Result<bool, NoMemory>
        requires { IsName (str_to_ascii_uppercase name.now) }
        ensures is_new { (names : Sequence (Sequence ℕ)) → IsNumbering self.old names
            → IfOk result (λ new. new ≡ not (is_some (number_of (str_to_ascii_uppercase name.now) names))) }
        ensures added { (names : Sequence (Sequence ℕ)) → IsNumbering self.old names
            → IfOk result (λ new. new ≡ true → IsNumbering self.new (names ++ str_to_ascii_uppercase name.now ∷ [])) }
    {
        let number = self.numbers.len();
        match self.numbers.insert(key_of(name), number) {
            Ok(earlier) => Ok(earlier.is_none()),
            Err(_) => Err(NoMemory),
        }
    }
}

pub(crate) fn is_name(kind: TokenKind) -> bool
    ensures { result ≡ is_name kind }
{
    matches!(kind, TokenKind::Name)
}

fn is_string(kind: TokenKind) -> bool
    ensures { result ≡ is_string kind }
{
    matches!(kind, TokenKind::Text | TokenKind::BodyText)
}

pub(crate) fn is_semicolon(kind: TokenKind) -> bool
    ensures { result ≡ is_semicolon kind }
{
    matches!(kind, TokenKind::Symbol(Symbol::Semicolon))
}

// The parameters behind an opening bracket, up to the closing one.
fn read_parameters(alloc: Global, left: &mut Left<'_>) -> Result<Option<Parameters>, NoMemory>
    requires { Each IsPlaced (left_of left.old) }
    ensures { IfOk result (λ read. MatchOption read (parameters_behind [] (left_of left.old) ≡ None)
        (λ p. HasParameters p (parameters_behind [] (left_of left.old)) (left_of left.new))) }
{
    let mut parameters = Parameters::new(alloc);
    while let Some((name, mark)) = left.take_pair() {
        if !is_name(name.token.kind) || !parameters.add(name.token.text)? {
            return Ok(None);
        }
        match mark.token.kind {
            TokenKind::Symbol(Symbol::Comma) => {}
            TokenKind::Symbol(Symbol::Close) => return Ok(Some(parameters)),
            _ => return Ok(None),
        }
    }
    Ok(None)
}

// No parameters, or those in brackets.
fn read_parameters_if_any(
    alloc: Global,
    left: &mut Left<'_>,
) -> Result<Option<Parameters>, NoMemory>
    requires { Each IsPlaced (left_of left.old) }
    ensures { IfOk result (λ read. MatchOption read (parameters_if_any (left_of left.old) ≡ None)
        (λ p. HasParameters p (parameters_if_any (left_of left.old)) (left_of left.new))) }
{
    match left.first() {
        Some(item) if is_open(item.token.kind) => {
            let _ = left.take();
            read_parameters(alloc, left)
        }
        _ => Ok(Some(Parameters::new(alloc))),
    }
}

/// What stands between DEFINE and its semicolon, where it is of the form.
pub(crate) fn read_heading<'a>(
    alloc: Global,
    left: &mut Left<'a>,
) -> Result<Option<Heading<'a>>, NoMemory>
    requires { Each IsPlaced (left_of left.old) }
    ensures { IfOk result (λ read. MatchOption read ((line : ℕ) → heading_of line (left_of left.old) ≡ None)
        (λ h. HasHeading h (λ line. heading_of line (left_of left.old)) (left_of left.new))) }
{
    let Some(name) = left.take() else {
        return Ok(None);
    };
    if !is_name(name.token.kind) {
        return Ok(None);
    }
    let Some(parameters) = read_parameters_if_any(alloc, left)? else {
        return Ok(None);
    };
    let Some((string, mark)) = left.take_pair() else {
        return Ok(None);
    };
    if !is_string(string.token.kind) || !is_semicolon(mark.token.kind) {
        return Ok(None);
    }
    Ok(Some(Heading {
        name: name.token.text,
        parameters,
        string: string.token,
    }))
}

fn defines(kind: TokenKind) -> bool
    ensures { result ≡ defines kind }
{
    matches!(kind, TokenKind::Word(Word::Define | Word::Delete))
}

// Whether DEFINE or DELETE is among the tokens.
fn define_any(tokens: &[Token<'_>]) -> bool
    ensures { result ≡ list_any (λ t. defines t.kind) tokens.now }
{
    tokens.iter().any(|token| defines(token.kind))
}

// The number of the parameter that a token is.
fn parameter_number(token: Token<'_>, parameters: &Parameters) -> Option<usize>
    requires { IsWithin (view token) }
    ensures { (names : Sequence (Sequence ℕ)) → IsNumbering parameters.now names → part names (view token.entry) ≡ part_if_any (view token.entry) result }
{
    if is_name(token.kind) {
        parameters.number(token.text)
    } else {
        None
    }
}

// Where a number stands in the list.
fn place_of(numbers: &[usize], number: usize) -> Option<usize>
    ensures { IfSome result (λ place. slice_get numbers.now place ≡ Some number) }
{
    for (place, known) in numbers.iter().enumerate() {
        if *known == number {
            return Some(place);
        }
    }
    None
}

impl Run {
    fn new(alloc: Global) -> Run
        ensures { result.picks ≡ [] }
    {
        Run {
            numbers: List::new(alloc),
            picks: List::new(alloc),
        }
    }

    // Adds a parameter at the end.
    fn add(&mut self, number: usize) -> Result<(), NoMemory>
        requires { IsRun self.old }
        ensures added { OnOk result (run_parts self.new ≡ run_parts self.old ++ Parameter number ∷ []) }
        ensures is_run { OnOk result (IsRun self.new) }
    {
        match place_of(self.numbers.as_slice(), number) {
            Some(place) => self.picks.push(place),
            None => {
                let place = self.numbers.as_slice().len();
                self.numbers.push(number)?;
                self.picks.push(place)
            }
        }
    }
}

// Ends a run, and begins the next.
fn close<'a>(alloc: Global, body: &mut List<Piece<'a>>, run: &mut Run) -> Result<(), NoMemory>
    ensures body { OnOk result (flat_map parts_of body.new ≡ flat_map parts_of body.old ++ run_parts run.old) }
    ensures run { run.new.picks ≡ [] }
{
    body.push(Piece::Parameters(mem::replace(run, Run::new(alloc))))
}

// Adds a token of the body, or the parameter of the number.
fn add_token<'a>(
    alloc: Global,
    body: &mut List<Piece<'a>>,
    run: &mut Run,
    token: Token<'a>,
    number: Option<usize>,
) -> Result<(), NoMemory>
    requires { IsRun run.old }
    ensures added { OnOk result (flat_map parts_of body.new ++ run_parts run.new
        ≡ (flat_map parts_of body.old ++ run_parts run.old) ++ part_if_any (view token.entry) number ∷ []) }
    ensures is_run { OnOk result (IsRun run.new) }
{
    match number {
        Some(number) => {
            if run.picks.as_slice().len() >= LONGEST_RUN {
                close(alloc, body, run)?;
            }
            run.add(number)
        }
        None => {
            if !run.picks.as_slice().is_empty() {
                close(alloc, body, run)?;
            }
            body.push(Piece::Own(token))
        }
    }
}

// The pieces of a body with these tokens.
fn pieces<'a>(
    alloc: Global,
    tokens: &[Token<'a>],
    parameters: &Parameters,
) -> Result<List<Piece<'a>>, NoMemory>
    requires { Each IsWithin (map view tokens.now) }
    ensures { (names : Sequence (Sequence ℕ)) → IsNumbering parameters.now names
        → IfOk result (λ body. flat_map parts_of body ≡ map (part names) (map view tokens.now)) }
{
    let mut body = List::new(alloc);
    let mut run = Run::new(alloc);
    for token in tokens {
        let number = parameter_number(*token, parameters);
        add_token(alloc, &mut body, &mut run, *token, number)?;
    }
    close(alloc, &mut body, &mut run)?;
    Ok(body)
}

fn quote_length(kind: TokenKind) -> usize
    ensures { result ≡ quote_length kind }
{
    match kind {
        TokenKind::BodyText => 2,
        _ => 1,
    }
}

/// The parts of a body, perhaps none, where the lexer finds no fault in it and it holds no DEFINE or DELETE.
pub(crate) fn read_body<'a>(
    alloc: Global,
    string: Token<'a>,
    parameters: &Parameters,
) -> Result<Option<List<Piece<'a>>>, NoMemory>
    requires string { is_string string.kind ≡ true }
    requires within { IsWithin (view string) }
    requires line { string.line ≤ MOST_BYTES + 1 }
    ensures { (names : Sequence (Sequence ℕ)) → IsNumbering parameters.now names → IfOk result (λ read. IsBodyRead (view string.entry) names read) }
{
    let quote = quote_length(string.kind);
    let text = &string.text[quote..string.text.len() - quote];
    let tokens = match lex_body(alloc, text, string.at + quote, string.line) {
        Ok(tokens) => tokens,
        Err(fault) => {
            return match fault {
                LexFault::NoMemory => Err(NoMemory),
                _ => Ok(None),
            };
        }
    };
    let tokens = tokens.as_slice();
    if define_any(tokens) {
        return Ok(None);
    }
    Ok(Some(pieces(alloc, tokens, parameters)?))
}
