//! Texts with their tokens or their first fault, by hand from the rules of the written form.
use crate::tests::rows::Left;
use cw_lex::{LexFault, Symbol, Token, TokenKind, Word, lex, lex_body};
use std::alloc::{AllocError, Global};
use std::test::Fail;

// A row a line: `s` for a source and `m` for the body of a macro, the text, a question mark, and what comes of it. A token is its kind (W word, N name,
// D number, T text, B text of a macro body, L literal, S symbol), its line and its slice; a word and a symbol also say which they are. A fault is its code
// and its line. After `^` stand n, r, t, f, z, d and h for the bytes 10, 13, 9, 12, 0, 127 and 128.
const ROWS: &str = r#"s?
s ^t^r^n^f?
sA?N1 A|
sa1B?N1 a1B|
sBEGIN?W1 BEGIN=BEGIN|
sbegin End?W1 begin=BEGIN|W1 End=END|
s'BEGIN'?W1 'BEGIN'=BEGIN|
s'end'x?W1 'end'=END|N1 x|
sBEGINX?N1 BEGINX|
sEND1?N1 END1|
sEND'BEGIN'?W1 END=END|W1 'BEGIN'=BEGIN|
s'X'?L1 1
s' BEGIN'?L1 1
s'BEGIN?L1 1
sA^n'?L1 2
s''?L1 1
sDO;?W1 DO=DO|S1 ;=;|
s; : , ( ) [ ] + - * /?S1 ;=;|S1 :=:|S1 ,=,|S1 (=(|S1 )=)|S1 [=[|S1 ]=]|S1 +=+|S1 -=-|S1 *=*|S1 /=/|
s< <= = >= > <> <- :=?S1 <=<|S1 <==<=|S1 ===|S1 >==>=|S1 >=>|S1 <>=<>|S1 <-=:=|S1 :==:=|
sA<-1?N1 A|S1 <-=:=|D1 1|
sA:=1?N1 A|S1 :==:=|D1 1|
sA:B?N1 A|S1 :=:|N1 B|
s<<=?S1 <=<|S1 <==<=|
s<=>?S1 <==<=|S1 >=>|
s<>=?S1 <>=<>|S1 ===|
s>>=?S1 >=>|S1 >==>=|
s::=?S1 :=:|S1 :==:=|
s--?S1 -=-|S1 -=-|
s1.5.2?D1 1.5|D1 .2|
s1?D1 1|
s.5?D1 .5|
s007.250?D1 007.250|
s12AB?D1 12|N1 AB|
s1. ?L3 1
s1.?L3 1
s1..2?L3 1
s.?L3 1
s^n^n1.X?L3 3
s123456789012?D1 123456789012|
s1234567890123?L3 1
s123456789012.123456789012?D1 123456789012.123456789012|
s1.1234567890123?L3 1
s1234567890123.1?L3 1
s.1234567890123?L3 1
sAAAAAAAAAAAAAAAAAAAAAAAAAAAAAAA?N1 AAAAAAAAAAAAAAAAAAAAAAAAAAAAAAA|
sAAAAAAAAAAAAAAAAAAAAAAAAAAAAAAAA?L4 1
s^r^nX^nbbbbbbbbbbbbbbbbbbbbbbbbbbbbbbbbbbbbbbbb $?L4 3
s"AB"?T1 "AB"|
s""?T1 ""|
s""""?T1 """"|
s"a""b"c?T1 "a""b"|N1 c|
s"a" "b"?T1 "a"|T1 "b"|
s"a?L2 1
s^n"a^n"?L2 2
s"a""?L2 1
s"^t"?L2 1
s"{~^d^h"?T1 "{~^d^h"|
sLITERAL(a)?L1 LITERAL(a)|
sLITERAL())?L1 LITERAL())|
sLITERAL()?W1 LITERAL=LITERAL|S1 (=(|S1 )=)|
sLITERAL(())?L1 LITERAL(()|S1 )=)|
sliteral ^n ( ) x?L1 literal ^n ( )|N2 x|
sliteral ^n ( )) x?L1 literal ^n ( )|S2 )=)|N2 x|
s'LITERAL' ^n(;) A?L1 'LITERAL' ^n(;)|N2 A|
sLITERAL(")?L1 LITERAL(")|
sLITERAL( )?L1 LITERAL( )|
sLITERALX(a)?N1 LITERALX|S1 (=(|N1 a|S1 )=)|
sLITERAL(ab)?W1 LITERAL=LITERAL|S1 (=(|N1 ab|S1 )=)|
sLITERAL(^d)?L1 1
sLITERAL COMMENT a; (x)?L1 LITERAL COMMENT a; (x)|
sLITERAL COMMENT;^n'comment'a;(x)b?L1 LITERAL COMMENT;^n'comment'a;(x)|N2 b|
s'LITERAL'COMMENT (;(()?L1 'LITERAL'COMMENT (;(()|
sLITERALCOMMENT a;(x)?N1 LITERALCOMMENT|N1 a|S1 ;=;|
sLITERAL COMMENTS;(x)?W1 LITERAL=LITERAL|N1 COMMENTS|S1 ;=;|
sLITERAL COMMENT a;(xy)?W1 LITERAL=LITERAL|S1 (=(|N1 xy|S1 )=)|
sLITERAL COMMENT a?L5 1
sCOMMENT a ' " $ ;B?N1 B|
s'comment'^n;B?N2 B|
sA COMMENT;(B)?N1 A|S1 (=(|N1 B|S1 )=)|
sCOMMENTS;?N1 COMMENTS|S1 ;=;|
sA^nCOMMENT x?L5 2
sCOMMENT;$?L1 1
s; (a(b)$)c?S1 ;=;|N1 c|
s; ^n(^n) (b)^nc?S1 ;=;|N4 c|
s;COMMENT x;(y)z?S1 ;=;|N1 z|
s;a(b)?S1 ;=;|N1 a|S1 (=(|N1 b|S1 )=)|
s(b);?S1 (=(|N1 b|S1 )=)|S1 ;=;|
s;^n (a(b)?L5 2
s;(")"?L2 1
s;(LITERAL()))?S1 ;=;|S1 )=)|
sA$B?L1 1
sA^n^n%?L1 3
s^z?L1 1
sA^r^nB^rC^n?N1 A|N2 B|N2 C|
s$ 1.?L1 1
s1. $?L3 1
sAAAAAAAAAAAAAAAAAAAAAAAAAAAAAAAA "?L4 1
m""A""?B1 ""A""|
m""""?B1 """"|
m""""""?L2 1
mA"B?L1 1
m""A"B""?L2 1
mA^n""B?L2 2
mLITERAL(")?L1 1
mLITERAL("")x"")?W1 LITERAL=LITERAL|S1 (=(|B1 "")x""|S1 )=)|
m; (x) COMMENT y; 1.5 <- 'DO'?S1 ;=;|D1 1.5|S1 <-=:=|W1 'DO'=DO|
mLITERAL COMMENT "";(q)?L1 LITERAL COMMENT "";(q)|
mLITERAL^t(q)?L1 LITERAL^t(q)|"#;

fn word_text(word: Word) -> &'static [u8] {
    match word {
        Word::Absolute => b"ABSOLUTE",
        Word::And => b"AND",
        Word::Answer => b"ANSWER",
        Word::Array => b"ARRAY",
        Word::Begin => b"BEGIN",
        Word::Bits => b"BITS",
        Word::Code => b"CODE",
        Word::Comment => b"COMMENT",
        Word::Common => b"COMMON",
        Word::Define => b"DEFINE",
        Word::Delete => b"DELETE",
        Word::Differ => b"DIFFER",
        Word::Do => b"DO",
        Word::Else => b"ELSE",
        Word::End => b"END",
        Word::External => b"EXTERNAL",
        Word::Finish => b"FINISH",
        Word::Fixed => b"FIXED",
        Word::Floating => b"FLOATING",
        Word::For => b"FOR",
        Word::Goto => b"GOTO",
        Word::If => b"IF",
        Word::Integer => b"INTEGER",
        Word::Label => b"LABEL",
        Word::Library => b"LIBRARY",
        Word::Literal => b"LITERAL",
        Word::Location => b"LOCATION",
        Word::Mask => b"MASK",
        Word::Octal => b"OCTAL",
        Word::Or => b"OR",
        Word::Overlay => b"OVERLAY",
        Word::Preset => b"PRESET",
        Word::Procedure => b"PROCEDURE",
        Word::Recursive => b"RECURSIVE",
        Word::Segment => b"SEGMENT",
        Word::Step => b"STEP",
        Word::Switch => b"SWITCH",
        Word::Table => b"TABLE",
        Word::Then => b"THEN",
        Word::Union => b"UNION",
        Word::Unsigned => b"UNSIGNED",
        Word::Until => b"UNTIL",
        Word::Value => b"VALUE",
        Word::While => b"WHILE",
        Word::With => b"WITH",
    }
}

fn symbol_text(symbol: Symbol) -> &'static [u8] {
    match symbol {
        Symbol::Semicolon => b";",
        Symbol::Colon => b":",
        Symbol::Comma => b",",
        Symbol::Open => b"(",
        Symbol::Close => b")",
        Symbol::OpenSquare => b"[",
        Symbol::CloseSquare => b"]",
        Symbol::Plus => b"+",
        Symbol::Minus => b"-",
        Symbol::Times => b"*",
        Symbol::Divide => b"/",
        Symbol::Less => b"<",
        Symbol::LessOrEqual => b"<=",
        Symbol::Equal => b"=",
        Symbol::GreaterOrEqual => b">=",
        Symbol::Greater => b">",
        Symbol::NotEqual => b"<>",
        Symbol::Assign => b":=",
    }
}

fn takes_spelling(left: &mut Left<'_>, kind: TokenKind) -> bool {
    match kind {
        TokenKind::Word(word) => left.takes(b"=") && left.takes(word_text(word)),
        TokenKind::Symbol(symbol) => left.takes(b"=") && left.takes(symbol_text(symbol)),
        _ => true,
    }
}

fn letter(kind: TokenKind) -> &'static [u8] {
    match kind {
        TokenKind::Word(_) => b"W",
        TokenKind::Name => b"N",
        TokenKind::Number => b"D",
        TokenKind::Text => b"T",
        TokenKind::BodyText => b"B",
        TokenKind::Literal => b"L",
        TokenKind::Symbol(_) => b"S",
    }
}

fn takes_token(left: &mut Left<'_>, token: &Token<'_>) -> bool {
    left.takes(letter(token.kind))
        && left.takes_line(token.line)
        && left.takes(b" ")
        && left.takes(token.text)
        && takes_spelling(left, token.kind)
        && left.takes(b"|")
}

fn takes_tokens(left: &mut Left<'_>, tokens: &[Token<'_>]) -> bool {
    for token in tokens {
        if !takes_token(left, token) {
            return false;
        }
    }
    true
}

fn takes_fault(left: &mut Left<'_>, fault: &LexFault) -> bool {
    let (code, line) = match fault {
        LexFault::BadChar { line } => (b"L1 ", *line),
        LexFault::OpenString { line } => (b"L2 ", *line),
        LexFault::BadNumber { line } => (b"L3 ", *line),
        LexFault::LongName { line } => (b"L4 ", *line),
        LexFault::OpenComment { line } => (b"L5 ", *line),
        LexFault::NoMemory => return false,
    };
    left.takes(code) && left.takes_line(line)
}

// Whether what is told comes of a text.
fn comes(alloc: Global, in_body: bool, text: &[u8], told: &[u8]) -> bool {
    if text.len() > 1000 {
        return false;
    }
    let mut left = Left::new(told);
    let answer = if in_body {
        lex_body(alloc, text, 0, 1)
    } else {
        lex(alloc, text)
    };
    let is_taken = match answer {
        Ok(tokens) => takes_tokens(&mut left, tokens.as_slice()),
        Err(fault) => takes_fault(&mut left, &fault),
    };
    is_taken && left.is_empty()
}

fn escaped_byte(letter: u8) -> u8 {
    match letter {
        b'n' => b'\n',
        b'r' => b'\r',
        b't' => b'\t',
        b'f' => 12,
        b'z' => 0,
        b'd' => 127,
        _ => 128,
    }
}

fn unescaped(alloc: Global, field: &[u8]) -> Result<Vec<u8>, AllocError> {
    let mut bytes = Vec::new(alloc);
    let mut is_escape = false;
    for byte in field {
        if is_escape {
            bytes.push(escaped_byte(*byte))?;
            is_escape = false;
        } else if *byte == b'^' {
            is_escape = true;
        } else {
            bytes.push(*byte)?;
        }
    }
    Ok(bytes)
}

fn text_comes(alloc: Global, in_body: bool, text: &[u8], told: &[u8]) -> Result<bool, AllocError> {
    let told = unescaped(alloc, told)?;
    Ok(comes(alloc, in_body, text, &told))
}

fn row_comes(alloc: Global, in_body: bool, text: &[u8], told: &[u8]) -> Result<bool, AllocError> {
    let text = unescaped(alloc, text)?;
    text_comes(alloc, in_body, &text, told)
}

// Whether a row comes out as it says.
fn holds(alloc: Global, row: &str) -> Result<bool, AllocError> {
    let Some((given, told)) = row.split_once('?') else {
        return Ok(false);
    };
    match given.as_bytes() {
        [mode, text @ ..] => row_comes(alloc, *mode == b'm', text, told.as_bytes()),
        [] => Ok(false),
    }
}

#[test]
fn texts(rt: HostRuntime) -> Result<(), Fail> {
    for row in ROWS.split('\n') {
        assert!(rt; holds(rt.alloc(), row)?, "{row}");
    }
    Ok(())
}

// The places of a body count from where it begins.
#[test]
fn places(rt: HostRuntime) -> Result<(), Fail> {
    let alloc = rt.alloc();
    let Ok(tokens) = lex_body(alloc, b"A\n B", 7, 3) else {
        return Err(AllocError.into());
    };
    assert_eq!(rt; tokens.as_slice().len(), 2);
    for token in tokens.as_slice() {
        if token.line == 3 {
            assert_eq!(rt; token.at, 7);
        } else {
            assert_eq!(rt; token.line, 4);
            assert_eq!(rt; token.at, 10);
        }
    }
    Ok(())
}
