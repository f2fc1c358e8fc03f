//! Texts with the tokens that they expand to, or the first fault of the expansion, by hand from the rules of macros.
use crate::tests::rows::{Left, with_lines};
use cw_checks_rows::repeated;
use cw_lex::{LexFault, Token, lex};
use cw_macro::{MOST_BYTES, MacroFault, expand};
use std::alloc::{AllocError, Global};
use std::test::Fail;

// A row a line: the text, a question mark, and what comes of it: each token's line and slice, or the fault and its line. `^` stands for a line feed.
const ROWS: &str = r#"?
A;B?1 A|1 ;|1 B|
DEFINE K "1";K?1 1|
define k "1";K;k?1 1|1 ;|1 1|
'DEFINE' K "1";K?1 1|
DEFINE K "";K;?1 ;|
DEFINE K "A B";K;K?1 A|1 B|1 ;|1 A|1 B|
DEFINE K "1";DEFINE K "2";K?1 2|
K;DEFINE K "1";K;DEFINE K "2";K;DELETE K;K?1 K|1 ;|1 1|1 ;|1 2|1 ;|1 K|
DEFINE K "1";DELETE k;K?1 K|
DEFINE K "1";DELETE K;DEFINE K "2";K?1 2|
DEFINE K(X) "WRITEBYTE(X)";K(5)?1 WRITEBYTE|1 (|1 5|1 )|
DEFINE K(X) "x+X";K(A)?1 A|1 +|1 A|
DEFINE K(X) "X";K()?
DEFINE K(X,Y) "X-Y";K(,)?1 -|
DEFINE K(X,Y) "X-Y";K(1,2)?1 1|1 -|1 2|
DEFINE K(X,Y) "Y-X";K(1,2)?1 2|1 -|1 1|
DEFINE K(X,Y,Z) "X;Y;Z";K(A,,C)?1 A|1 ;|1 ;|1 C|
DEFINE K(X) "X";K(A(1,2)[3,(4)];B)?1 A|1 (|1 1|1 ,|1 2|1 )|1 [|1 3|1 ,|1 (|1 4|1 )|1 ]|1 ;|1 B|
DEFINE K(X,Y) "Y:X";K(A[1,2],(B,C))?1 (|1 B|1 ,|1 C|1 )|1 :|1 A|1 [|1 1|1 ,|1 2|1 ]|
DEFINE K(X) """X"" X";K(1)?1 ""X""|1 1|
DEFINE K(X) "LITERAL(X) X";K(1)?1 LITERAL(X)|1 1|
DEFINE K "1";"K" LITERAL(K) K?1 "K"|1 LITERAL(K)|1 1|
DEFINE K "1";KK K1 K?1 KK|1 K1|1 1|
DEFINE F(X) "X";DEFINE G "F";G(3)?1 3|
DEFINE F(X) "X+1";DEFINE G "F(";G 3)?1 3|1 +|1 1|
DEFINE F(X) "X";DEFINE G "A)";F(G?BadCall 1
DEFINE C(X) "X(7)";DEFINE D(Y) "Y Y";C(D)?1 7|1 7|
DEFINE TWICE(X) "X;X";TWICE(TWICE(WRITEBYTE(5)))?1 WRITEBYTE|1 (|1 5|1 )|1 ;|1 WRITEBYTE|1 (|1 5|1 )|1 ;|1 WRITEBYTE|1 (|1 5|1 )|1 ;|1 WRITEBYTE|1 (|1 5|1 )|
DEFINE K(X) "X";DEFINE X "1";K(2);X?1 2|1 ;|1 1|
DEFINE K "X";DEFINE X "1";K;DELETE X;K?1 1|1 ;|1 X|
DEFINE K "J";DEFINE J "K2";DEFINE K2 "9";K?1 9|
DEFINE K "1";+(K)?1 +|1 (|1 1|1 )|
DEFINE K "1";K(2)?1 1|1 (|1 2|1 )|
DEFINE K(X) "X X";^K^(^1)^;?2 1|2 1|5 ;|
DEFINE K "A B";^^K;?3 A|3 B|3 ;|
DEFINE J "A";^DEFINE K(X) "X J X";^K(^B)C?3 B|3 A|3 B|4 C|
DEFINE J(X) "X";^DEFINE K(X) "J(X)";^K(^K(^1))?3 1|
DEFINE A(X) "X";A(DEFINE K "1";)K?1 1|
DEFINE A(X) "X";A(DEFINE K(P,Q) "P Q";)K(1,2)?1 1|1 2|
DEFINE A(X,Y) "X Y";A(DEFINE,K "1";)K?1 1|
DEFINE A(X) "X K ""1"";";A(DEFINE)K?1 1|
DEFINE A(X) "X K ""J"";";DEFINE J "2";A(DEFINE)K?1 2|
DEFINE A(X) "X";DEFINE K "1";A(DELETE K;)K?1 K|
DEFINE A(X) "X";^DEFINE K "1";^A(^DELETE J;)?NoSuchMacro 3
DEFINE K(X) "X";K(COMMENT 1,2;3)?1 3|
DEFINE K(X) "X";K(1;(2,3)4)?1 1|1 ;|1 4|
DEFINE K "; (1) 2";K?1 ;|1 2|
DEFINE K "1";DEFINE K "K";K?TooDeep 1
DEFINE R "R";R?TooDeep 1
DEFINE R(X) "R(X)";^R(1)?TooDeep 2
DEFINE A "B";DEFINE B "A";^;^A?TooDeep 3
DEFINE R(X) "R";R(1)?BadCall 1
DELETE R;?NoSuchMacro 1
^DELETE R;?NoSuchMacro 2
DEFINE R "1";DELETE R;DELETE R;?NoSuchMacro 1
DELETE R?BadDefine 1
DELETE ;?BadDefine 1
DELETE 1;?BadDefine 1
DELETE?BadDefine 1
DEFINE K "1";DELETE K,?BadDefine 1
DELETE BEGIN;?BadDefine 1
DEFINE?BadDefine 1
;^DEFINE K?BadDefine 2
DEFINE K "1"?BadDefine 1
DEFINE K "1",?BadDefine 1
DEFINE K 1;?BadDefine 1
DEFINE BEGIN "1";?BadDefine 1
DEFINE K() "1";?BadDefine 1
DEFINE K(X "1";?BadDefine 1
DEFINE K(X,) "1";?BadDefine 1
DEFINE K(,X) "1";?BadDefine 1
DEFINE K(X;Y) "1";?BadDefine 1
DEFINE K[X] "1";?BadDefine 1
DEFINE K(1) "1";?BadDefine 1
DEFINE K(X,x) "1";?BadDefine 1
DEFINE K(X,Y,X) "1";?BadDefine 1
DEFINE K(K) "K";K(1)?1 1|
DEFINE B "DELETE B";?BadDefine 1
DEFINE B "DEFINE";?BadDefine 1
DEFINE B "$";?BadDefine 1
DEFINE B "1.";?BadDefine 1
DEFINE B "COMMENT";?BadDefine 1
DEFINE B "A"" ";?BadDefine 1
DEFINE B """DELETE""";B?1 ""DELETE""|
DEFINE A(X) "X";DEFINE B(Y) "A(Y K """";)";B(DEFINE);K;?1 ;|1 ;|
DEFINE K(X) "WRITEBYTE(X)";K?BadCall 1
DEFINE K(X) "X";K 1?BadCall 1
DEFINE K(X) "X";^K?BadCall 2
DEFINE K(X) "X";K(?BadCall 1
DEFINE K(X) "X";K(1?BadCall 1
DEFINE K(X) "X";K(1,2)?BadCall 1
DEFINE K(X,Y) "X";K(1)?BadCall 1
DEFINE K(X,Y) "X";K()?BadCall 1
DEFINE K(X,Y) "X";K(1,2,3)?BadCall 1
DEFINE K(X) "X";K([)?BadCall 1
DEFINE K(X) "X";K(])?BadCall 1
DEFINE K(X) "X";K((])?BadCall 1
DEFINE K(X) "X";K([)])?BadCall 1
DEFINE K(X) "X";K[1]?BadCall 1
DEFINE K(X) "X";DEFINE B "$";K(?BadDefine 1"#;

fn takes_fault(left: &mut Left<'_>, fault: &MacroFault) -> bool {
    let (name, line): (&[u8], u32) = match fault {
        MacroFault::BadDefine { line } => (b"BadDefine ", *line),
        MacroFault::BadCall { line } => (b"BadCall ", *line),
        MacroFault::TooDeep { line } => (b"TooDeep ", *line),
        MacroFault::TooLong { line } => (b"TooLong ", *line),
        MacroFault::NoSuchMacro { line } => (b"NoSuchMacro ", *line),
        MacroFault::NoMemory => return false,
    };
    left.takes(name) && left.takes_line(line)
}

fn takes_tokens(left: &mut Left<'_>, tokens: &[Token<'_>]) -> bool {
    for token in tokens {
        let is_taken = left.takes_line(token.line)
            && left.takes(b" ")
            && left.takes(token.text)
            && left.takes(b"|");
        if !is_taken {
            return false;
        }
    }
    true
}

// Whether what is told comes of a text.
fn comes(alloc: Global, text: &[u8], told: &[u8]) -> bool {
    if text.len() > MOST_BYTES {
        return false;
    }
    let mut left = Left::new(told);
    let Ok(tokens) = lex(alloc, text) else {
        return false;
    };
    let is_taken = match expand(alloc, tokens.as_slice()) {
        Ok(expanded) => takes_tokens(&mut left, expanded.as_slice()),
        Err(fault) => takes_fault(&mut left, &fault),
    };
    is_taken && left.is_empty()
}

// Whether a row comes out as it says.
fn holds(alloc: Global, row: &str) -> Result<bool, AllocError> {
    let Some((given, told)) = row.split_once('?') else {
        return Ok(false);
    };
    let text = with_lines(alloc, given.as_bytes(), b'^')?;
    Ok(comes(alloc, &text, told.as_bytes()))
}

#[test]
fn texts(rt: HostRuntime) -> Result<(), Fail> {
    for row in ROWS.split('\n') {
        assert!(rt; holds(rt.alloc(), row)?, "{row}");
    }
    Ok(())
}

// What comes of a large text: so many tokens, or a fault in line 1.
#[derive(Clone, Copy)]
enum Large {
    Tokens(usize),
    TooDeep,
    TooLong,
}

fn comes_large(alloc: Global, text: &[u8], large: Large) -> bool {
    if text.len() > MOST_BYTES {
        return false;
    }
    let Ok(tokens) = lex(alloc, text) else {
        return false;
    };
    match (expand(alloc, tokens.as_slice()), large) {
        (Ok(expanded), Large::Tokens(count)) => expanded.as_slice().len() == count,
        (Err(MacroFault::TooDeep { line }), Large::TooDeep) => line == 1,
        (Err(MacroFault::TooLong { line }), Large::TooLong) => line == 1,
        _ => false,
    }
}

fn name(number: u8) -> [u8; 3] {
    [b'A', b'0' + number / 10 % 10, b'0' + number % 10]
}

// A macro that has the one of this number so many times.
fn push_level(text: &mut Vec<u8>, number: u8, times: u32) -> Result<(), AllocError> {
    let [letter, tens, ones] = name(number.wrapping_add(1));
    text.extend_from_slice(&[
        b'D', b'E', b'F', b'I', b'N', b'E', b' ', letter, tens, ones, b' ', b'"',
    ])?;
    let [letter, tens, ones] = name(number);
    for _ in 0..times {
        text.extend_from_slice(&[letter, tens, ones, b' '])?;
    }
    text.extend_from_slice(b"\";")
}

// Macros of which each has the one before it so many times, from one that is a semicolon on; and a call of the last.
fn tower(alloc: Global, height: u8, times: u32) -> Result<Vec<u8>, AllocError> {
    let mut text = b"DEFINE A00 \";\";".to_vec(alloc)?;
    for number in 0..height.min(99) {
        push_level(&mut text, number, times)?;
    }
    text.extend_from_slice(&name(height.min(99)))?;
    Ok(text)
}

// Towers of so many levels and so many times, and what comes of them: among them a macro that doubles sixteen times.
const TOWERS: &[(u8, u32, Large)] = &[
    (31, 1, Large::Tokens(1)),
    (32, 1, Large::TooDeep),
    (15, 2, Large::Tokens(32_768)),
    (16, 2, Large::TooLong),
];

fn is_tower(alloc: Global, height: u8, times: u32, large: Large) -> Result<bool, AllocError> {
    let text = tower(alloc, height, times)?;
    Ok(comes_large(alloc, &text, large))
}

#[test]
fn towers(rt: HostRuntime) -> Result<(), Fail> {
    for &(height, times, large) in TOWERS {
        assert!(rt;
            is_tower(rt.alloc(), height, times, large)?,
            "{height} {times}"
        );
    }
    Ok(())
}

// The pieces of a text, each so many times, and what comes of it: calls, each in the argument of the one around it; semicolons alone; semicolons, and calls
// behind them, each of which is replaced by nothing in five steps, with ten tokens; and a macro whose body has so many times both its parameters, and so many
// calls with empty arguments before the last.
const REPEATED: &[(&[(&[u8], u32)], Large)] = &[
    (
        &[
            (b"DEFINE I(X) \"X\";", 1),
            (b"I(", 32),
            (b"1", 1),
            (b")", 32),
        ],
        Large::Tokens(1),
    ),
    (
        &[
            (b"DEFINE I(X) \"X\";", 1),
            (b"I(", 33),
            (b"1", 1),
            (b")", 33),
        ],
        Large::TooDeep,
    ),
    (&[(b";", 65_535)], Large::Tokens(65_535)),
    (&[(b";", 65_536)], Large::TooLong),
    (&[(b";", 1_048_576)], Large::TooLong),
    (
        &[
            (b"DEFINE E \"\";DEFINE F \"E E E E\";", 1),
            (b";", 8),
            (b"F ", 104_856),
        ],
        Large::Tokens(8),
    ),
    (
        &[
            (b"DEFINE E \"\";DEFINE F \"E E E E\";", 1),
            (b";", 9),
            (b"F ", 104_856),
        ],
        Large::TooLong,
    ),
    (
        &[
            (b"DEFINE K(X,Y) \"", 1),
            (b"X Y ", 20_000),
            (b"\";", 1),
            (b"K(,)", 20_000),
        ],
        Large::Tokens(0),
    ),
    (
        &[
            (b"DEFINE K(X,Y) \"", 1),
            (b"X Y ", 600),
            (b"\";", 1),
            (b"K(,)", 3),
            (b"K(,1)", 1),
        ],
        Large::Tokens(600),
    ),
    (
        &[
            (b"DEFINE K(X,Y) \"", 1),
            (b"X Y ", 600),
            (b"\";", 1),
            (b"K(,)", 3),
            (b"K(1;2,)", 1),
        ],
        Large::Tokens(1_800),
    ),
];

fn is_repeated(alloc: Global, pieces: &[(&[u8], u32)], large: Large) -> Result<bool, AllocError> {
    let text = repeated(alloc, pieces)?;
    Ok(comes_large(alloc, &text, large))
}

#[test]
fn large_texts(rt: HostRuntime) -> Result<(), Fail> {
    for &(pieces, large) in REPEATED {
        assert!(rt; is_repeated(rt.alloc(), pieces, large)?);
    }
    Ok(())
}

// The text of a fault is its name, of one of tokens as of one of macros.
#[test]
fn names_of_faults(rt: HostRuntime) -> Result<(), Fail> {
    let character = LexFault::BadChar { line: 3 };
    let comment = LexFault::OpenComment { line: 3 };
    let definition = MacroFault::BadDefine { line: 3 };
    let unknown = MacroFault::NoSuchMacro { line: 3 };
    let told = format!(in rt.alloc(); "{character} {comment} {definition} {unknown}")?;
    assert_eq!(rt; told.as_str(), "BadChar OpenComment BadDefine NoSuchMacro");
    Ok(())
}

// Tokens keep their places in the source.
#[test]
fn places(rt: HostRuntime) -> Result<(), Fail> {
    let alloc = rt.alloc();
    let Ok(tokens) = lex(alloc, b"DEFINE K(X) \"+X\"; K(7)") else {
        return Err(AllocError.into());
    };
    let Ok(expanded) = expand(alloc, tokens.as_slice()) else {
        return Err(AllocError.into());
    };
    assert_eq!(rt; expanded.as_slice().len(), 2);
    for token in expanded.as_slice() {
        if token.text == b"+".as_slice() {
            assert_eq!(rt; token.at, 13);
        } else {
            assert_eq!(rt; token.at, 20);
        }
    }
    Ok(())
}
