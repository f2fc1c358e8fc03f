//! The kinds of tokens, the table of words, and the faults.
use std::fmt;
use thiserror::Error;

/// The words of the language. Official Definition of CORAL 66, "Basic symbols".
#[derive(Clone, Copy)]
pub enum Word {
    Absolute,
    And,
    Answer,
    Array,
    Begin,
    Bits,
    Code,
    Comment,
    Common,
    Define,
    Delete,
    Differ,
    Do,
    Else,
    End,
    External,
    Finish,
    Fixed,
    Floating,
    For,
    Goto,
    If,
    Integer,
    Label,
    Library,
    Literal,
    Location,
    Mask,
    Octal,
    Or,
    Overlay,
    Preset,
    Procedure,
    Recursive,
    Segment,
    Step,
    Switch,
    Table,
    Then,
    Union,
    Unsigned,
    Until,
    Value,
    While,
    With,
}

/// The written form of each word; letters are equal in both cases.
pub const WORDS: [(&[u8], Word); 45] = [
    (b"ABSOLUTE", Word::Absolute),
    (b"AND", Word::And),
    (b"ANSWER", Word::Answer),
    (b"ARRAY", Word::Array),
    (b"BEGIN", Word::Begin),
    (b"BITS", Word::Bits),
    (b"CODE", Word::Code),
    (b"COMMENT", Word::Comment),
    (b"COMMON", Word::Common),
    (b"DEFINE", Word::Define),
    (b"DELETE", Word::Delete),
    (b"DIFFER", Word::Differ),
    (b"DO", Word::Do),
    (b"ELSE", Word::Else),
    (b"END", Word::End),
    (b"EXTERNAL", Word::External),
    (b"FINISH", Word::Finish),
    (b"FIXED", Word::Fixed),
    (b"FLOATING", Word::Floating),
    (b"FOR", Word::For),
    (b"GOTO", Word::Goto),
    (b"IF", Word::If),
    (b"INTEGER", Word::Integer),
    (b"LABEL", Word::Label),
    (b"LIBRARY", Word::Library),
    (b"LITERAL", Word::Literal),
    (b"LOCATION", Word::Location),
    (b"MASK", Word::Mask),
    (b"OCTAL", Word::Octal),
    (b"OR", Word::Or),
    (b"OVERLAY", Word::Overlay),
    (b"PRESET", Word::Preset),
    (b"PROCEDURE", Word::Procedure),
    (b"RECURSIVE", Word::Recursive),
    (b"SEGMENT", Word::Segment),
    (b"STEP", Word::Step),
    (b"SWITCH", Word::Switch),
    (b"TABLE", Word::Table),
    (b"THEN", Word::Then),
    (b"UNION", Word::Union),
    (b"UNSIGNED", Word::Unsigned),
    (b"UNTIL", Word::Until),
    (b"VALUE", Word::Value),
    (b"WHILE", Word::While),
    (b"WITH", Word::With),
];

/// A symbol of one or two characters.
#[derive(Clone, Copy)]
pub enum Symbol {
    Semicolon,
    Colon,
    Comma,
    Open,
    Close,
    OpenSquare,
    CloseSquare,
    Plus,
    Minus,
    Times,
    Divide,
    Less,
    LessOrEqual,
    Equal,
    GreaterOrEqual,
    Greater,
    NotEqual,
    /// `:=` or `<-`.
    Assign,
}

/// The kinds of tokens.
#[derive(Clone, Copy)]
pub enum TokenKind {
    /// A word of the language, bare or between apostrophes. No token is COMMENT.
    Word(Word),
    /// A letter, then letters and digits, 31 at most, and no word.
    Name,
    /// Digits, digits with a point before digits, or a point before digits; each side has at most 12 digits.
    Number,
    /// A string of the source: between quotes, where `""` stands for one quote.
    Text,
    /// A string of a macro body: between `""` and `""`, without quotes.
    BodyText,
    /// LITERAL, separators, which may be comments, and one character between brackets.
    Literal,
    Symbol(Symbol),
}

/// One token.
#[derive(Clone, Copy)]
pub struct Token<'a> {
    pub kind: TokenKind,
    /// The line where it starts, counted from 1.
    pub line: u32,
    /// Where it starts, in bytes from the start of the source.
    pub at: usize,
    /// The whole token, a slice of the source.
    pub text: &'a [u8],
}

/// The written form that is read.
#[derive(Clone, Copy)]
pub enum Form {
    /// A source text.
    Source,
    /// The body of a macro, where `""` is the quote of a string.
    MacroBody,
}

/// What is wrong at a place of a text.
#[derive(Clone, Copy)]
pub enum Problem {
    BadChar,
    OpenString,
    BadNumber,
    LongName,
    OpenComment,
}

/// Why a text has no tokens: the first fault of the text, with the line where the wrong byte, item or comment starts.
#[derive(Debug, Drop, Error)]
pub enum LexFault {
    /// A byte that starts no item, separator or comment.
    #[error("BadChar")]
    BadChar { line: u32 },
    /// A string with a byte below 32 or the end inside.
    #[error("OpenString")]
    OpenString { line: u32 },
    /// Over 12 digits on one side of the point, or no digit after it.
    #[error("BadNumber")]
    BadNumber { line: u32 },
    /// A name of over 31 characters.
    #[error("LongName")]
    LongName { line: u32 },
    /// A comment without its end.
    #[error("OpenComment")]
    OpenComment { line: u32 },
    #[error("NoMemory")]
    NoMemory,
}
