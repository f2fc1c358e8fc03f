//! Small programs with what they write and how they end, by hand from the rules of the language.
use crate::command::{RUN_STEPS, Wanted, goes};
use cw_checks_rows::{in_three, repeated};
use std::alloc::{AllocError, Global};
use std::test::Fail;

// A row a line: what stands between BEGIN and END of segment A behind the LIBRARY line, the bytes that are written, and the closing line where the program
// does not come to its end.
const PROGRAMS: &str =
    "INTEGER X; X := 3; L: WRITEBYTE(X); X := X - 1; IF X > 0 THEN GOTO L ELSE WRITEBYTE(9)?3 2 1 9?
INTEGER A; IF A = 0 OR A + 32767 > 0 THEN WRITEBYTE(1)?1?
INTEGER A; A := 1; IF A = 0 OR A + 32767 > 0 THEN WRITEBYTE(1)??stopped: Overflow A 1
INTEGER A; IF A = 1 AND A = 2 OR A = 0 THEN BEGIN WRITEBYTE(1); WRITEBYTE(2) END?1 2?
IF 1 < 2 THEN WRITEBYTE(1)?1?
IF 2 < 1 THEN WRITEBYTE(1)??
IF 2 <= 2 THEN WRITEBYTE(1) ELSE WRITEBYTE(2)?1?
IF 3 = 4 THEN WRITEBYTE(1) ELSE WRITEBYTE(2)?2?
IF 4 >= 5 THEN WRITEBYTE(1) ELSE WRITEBYTE(2)?2?
IF 5 > -5 THEN WRITEBYTE(1) ELSE WRITEBYTE(2)?1?
IF 5 <> 5 THEN WRITEBYTE(1) ELSE WRITEBYTE(2)?2?
IF -32767 - 1 < 32767 THEN WRITEBYTE(1) ELSE WRITEBYTE(2)?1?
IF 32767 > -32767 - 1 THEN WRITEBYTE(7)?7?
IF 1 = 2 AND 1 = 1 OR 3 = 3 THEN WRITEBYTE(1) ELSE WRITEBYTE(2)?1?
IF 1 = 1 OR 2 = 3 AND 4 = 5 THEN WRITEBYTE(1) ELSE WRITEBYTE(2)?1?
IF 1 = 2 OR 3 = 3 AND 4 = 5 THEN WRITEBYTE(1) ELSE WRITEBYTE(2)?2?
IF 1 = 2 AND 32767 + 1 > 0 THEN WRITEBYTE(1) ELSE WRITEBYTE(2)?2?
IF 1 = 1 AND 32767 + 1 > 0 THEN WRITEBYTE(1) ELSE WRITEBYTE(2)??stopped: Overflow A 1
GOTO L; WRITEBYTE(1); L: WRITEBYTE(2)?2?
GOTO M; L: WRITEBYTE(1); GOTO N; M: WRITEBYTE(2); GOTO L; N: WRITEBYTE(3)?2 1 3?
GOTO L; BEGIN WRITEBYTE(1); L: WRITEBYTE(2) END; WRITEBYTE(3)?2 3?
BEGIN WRITEBYTE(1); GOTO L; WRITEBYTE(2) END; WRITEBYTE(3); L: WRITEBYTE(4)?1 4?
GOTO L; IF 1 = 1 THEN WRITEBYTE(1) ELSE L: WRITEBYTE(2); WRITEBYTE(3)?2 3?
GOTO L; IF 1 = 2 THEN L: WRITEBYTE(1) ELSE WRITEBYTE(2); WRITEBYTE(3)?1 3?
INTEGER X; X := 2; IF X = 1 THEN WRITEBYTE(1) ELSE IF X = 2 THEN WRITEBYTE(2) ELSE WRITEBYTE(3)?2?
INTEGER X; X := 1; IF X = 1 THEN BEGIN IF X = 2 THEN WRITEBYTE(1) ELSE WRITEBYTE(2) END ELSE WRITEBYTE(3)?2?
GOTO M; L: M: WRITEBYTE(5)?5?
GOTO L; WRITEBYTE(1); L:??
INTEGER I, S; L: S := S + I; I := I + 1; IF I <= 10 THEN GOTO L; WRITEBYTE(S)?55?
INTEGER A, B, T; B := 1; L: WRITEBYTE(A); T := A + B; A := B; B := T; IF A < 100 THEN GOTO L?0 1 1 2 3 5 8 13 21 34 55 89?
INTEGER X; X := 1; L: WRITEBYTE(X); X := X + X; GOTO L?1 2 4 8 16 32 64 128 0 0 0 0 0 0 0?stopped: Overflow A 1
INTEGER X; X := 2; L: X := X - 1; WRITEBYTE(X); IF X > -2 THEN GOTO L?1 0 255 254?
INTEGER X; X := -32767 - 1; X := -X??stopped: Overflow A 1
INTEGER A, B, P; A := 7; B := 6; L: IF B > 0 THEN BEGIN P := P + A; B := B - 1; GOTO L END; WRITEBYTE(P)?42?
'IF' 1 = 1 'THEN' WRITEBYTE(8)?8?
COMMENT NOTHING HERE; WRITEBYTE(1); (A COMMENT) WRITEBYTE(2)?1 2?
integer a; a := 1; if A = 1 then writebyte(a)?1?
DEFINE A \"1\"; DEFINE A \"2\"; WRITEBYTE(A)?2?
DEFINE TWICE(X) \"X; X\"; TWICE(TWICE(WRITEBYTE(5)))?5 5 5 5?
DEFINE DOWN(X) \"X := X - 1\"; INTEGER N; N := 9; DOWN(N); WRITEBYTE(N)?8?
FIXED(13,5) A, B; A := 2.5; B := A * A; WRITEBYTE(BITS[16,0] B)?200?
FIXED(16,2) Q; INTEGER X; Q := -0.25; X := Q; WRITEBYTE(X)?255?
INTEGER X, Y; Y := OCTAL(100000); X := -7/2; WRITEBYTE(X); X := Y/1; WRITEBYTE(X/256)?253 128?
INTEGER X, Y; Y := OCTAL(100000); X := Y/(-1)??stopped: Overflow A 1
INTEGER X, Y; X := 1/(Y-Y)??stopped: ZeroDivisor A 1
INTEGER ARRAY A[0:3]; OVERLAY A[2] WITH TABLE T[1,2][S(5,0)0,0; U UNSIGNED(5,0)0,5]; U[0] := 9; S[0] := 31; \
    WRITEBYTE(S[0]); WRITEBYTE(U[0]); WRITEBYTE(A[2])?255 9 63?
INTEGER ARRAY B[0:3]; INTEGER ARRAY C[0:9]; C[6] := 77; WRITEBYTE(B[10])?77?
INTEGER ARRAY B[0:3]; INTEGER ARRAY C[0:9]; C[6] := 77; WRITEBYTE(B[32767])??stopped: Address A 1
INTEGER A, B; [LOCATION(A)+1] := 7; WRITEBYTE(B)?7?
INTEGER I; SWITCH S := L, M; I := 2; GOTO S[I]; L: WRITEBYTE(76); M: WRITEBYTE(77)?77?
INTEGER I; SWITCH S := L, M; I := 3; GOTO S[I]; L: WRITEBYTE(76); M: WRITEBYTE(77)??stopped: Switch A 1
INTEGER I; FOR I := 3 STEP 1 UNTIL 2 DO WRITEBYTE(I); FOR I := 3 STEP -1 UNTIL 1 DO WRITEBYTE(I); FOR I := 5, I+1 WHILE I < 8 DO WRITEBYTE(I)?3 2 1 5 6 7?
INTEGER RECURSIVE F(VALUE INTEGER N); IF N < 2 THEN ANSWER 1 ELSE ANSWER N * F(N-1); WRITEBYTE(F(7)/256); WRITEBYTE(F(7))?19 176?
INTEGER RECURSIVE F(VALUE INTEGER N); IF N < 2 THEN ANSWER 1 ELSE ANSWER N * F(N-1); WRITEBYTE(F(8))??stopped: Overflow A 1
RECURSIVE C(VALUE INTEGER N); IF N > 0 THEN C(N-1); C(300)??stopped: Depth A 1
RECURSIVE G(VALUE INTEGER N); BEGIN INTEGER ARRAY A[0:99]; IF N > 0 THEN G(N-1) END; G(50)??stopped: Frames A 1
DEFINE T \"S := \"\"AB\"\"\"; INTEGER S; T; WRITEBYTE([S+2])?66?
INTEGER ARRAY A[0:4] := 1,,(3,4); WRITEBYTE(A[0]); WRITEBYTE(A[1]); WRITEBYTE(A[3])?1 0 4?
INTEGER X; X := (1); WRITEBYTE(X)?1?
BEGIN INTEGER X; X := 2.5; WRITEBYTE(X) END?2?
DEFINE UNLESS(C) \"IF C THEN ELSE\"; UNLESS(1 = 2) WRITEBYTE(6)?6?";

// Whether a program with this between BEGIN and END writes these bytes and has this closing line, within so many instructions.
fn is_program(
    alloc: Global,
    body: &str,
    steps: u64,
    bytes: &str,
    end: &str,
) -> Result<Option<u8>, AllocError> {
    let text = format!(in alloc;
        "LIBRARY (PROCEDURE WRITEBYTE(VALUE INTEGER)); SEGMENT A BEGIN {body} END FINISH"
    )?;
    goes(alloc, text.as_bytes(), steps, Wanted::End(bytes, end))
}

#[test]
fn programs(rt: HostRuntime) -> Result<(), Fail> {
    let alloc = rt.alloc();
    let mut count = 0_u32;
    for row in PROGRAMS.lines() {
        if let Some((body, bytes, end)) = in_three(row, '?') {
            assert!(rt;
                is_program(alloc, body, RUN_STEPS, bytes, end)?.is_some(),
                "{row}"
            );
            count = count.wrapping_add(1);
        }
    }
    assert_eq!(rt; count, 61);
    Ok(())
}

// Programs with the steps that they are given, the bytes that are written, and the closing line.
const UNFINISHED: &[(&str, u64, &str, &str)] = &[
    ("L: GOTO L", 1000, "", "unfinished: 1000"),
    ("WRITEBYTE(1); L: GOTO L", 1000, "1", "unfinished: 1000"),
    ("WRITEBYTE(1); L: GOTO L", 13, "", "unfinished: 13"),
];

// A loop without an end has the steps that it is given.
#[test]
fn unfinished(rt: HostRuntime) -> Result<(), Fail> {
    let alloc = rt.alloc();
    for &(body, steps, bytes, end) in UNFINISHED {
        assert!(rt;
            is_program(alloc, body, steps, bytes, end)?.is_some(),
            "{body} {steps}"
        );
    }
    Ok(())
}

fn push_name(alloc: Global, text: &mut Vec<u8>, number: u32) -> Result<(), AllocError> {
    let name = format!(in alloc; ",N{number}")?;
    text.extend_from_slice(name.as_bytes())
}

// A text that declares so many names.
fn declaring(alloc: Global, count: u32) -> Result<Vec<u8>, AllocError> {
    let mut text = b"SEGMENT A BEGIN INTEGER N0".to_vec(alloc)?;
    for number in 1..count {
        push_name(alloc, &mut text, number)?;
    }
    text.extend_from_slice(b"; END FINISH")?;
    Ok(text)
}

// A text that declares so many names, and what is shown of it.
const DECLARING: &[(u32, Wanted<'static>)] = &[
    (16_385, Wanted::Text("3||link: P1 DataTooBig 20481~")),
    (12_289, Wanted::Text("3||link: P1 DataTooBig 16385~")),
    (12_288, Wanted::End("", "")),
];

fn is_declaring(alloc: Global, count: u32, wanted: Wanted<'_>) -> Result<Option<u8>, AllocError> {
    let text = declaring(alloc, count)?;
    goes(alloc, &text, RUN_STEPS, wanted)
}

// Too many words, with the last that fit.
#[test]
fn names(rt: HostRuntime) -> Result<(), Fail> {
    let alloc = rt.alloc();
    for &(count, wanted) in DECLARING {
        assert!(rt; is_declaring(alloc, count, wanted)?.is_some(), "{count}");
    }
    Ok(())
}

// The pieces of a text, each so many times, and what is shown of it: too much code, and too many levels, each with the last that fits; and semicolons alone.
const REPEATED: &[(&[(&[u8], u32)], Wanted<'static>)] = &[
    (
        &[
            (b"SEGMENT A BEGIN INTEGER X; ", 1),
            (b"X := X + 1; ", 6851),
            (b"END FINISH", 1),
        ],
        Wanted::Text("3||link: P4 CodeTooBig 65543~"),
    ),
    (
        &[
            (b"SEGMENT A BEGIN INTEGER X; ", 1),
            (b"X := X + 1; ", 6850),
            (b"END FINISH", 1),
        ],
        Wanted::End("", ""),
    ),
    (
        &[
            (b"SEGMENT A ", 1),
            (b"BEGIN ", 64),
            (b"END ", 64),
            (b"FINISH", 1),
        ],
        Wanted::End("", ""),
    ),
    (
        &[
            (b"SEGMENT A ", 1),
            (b"BEGIN ", 65),
            (b"END ", 65),
            (b"FINISH", 1),
        ],
        Wanted::Text("2||a:1: S2 NestTooDeep 67~"),
    ),
    (&[(b";", 1_048_576)], Wanted::Text("2||a:1: M4 TooLong~")),
];

fn is_repeated(
    alloc: Global,
    pieces: &[(&[u8], u32)],
    wanted: Wanted<'_>,
) -> Result<Option<u8>, AllocError> {
    let text = repeated(alloc, pieces)?;
    goes(alloc, &text, RUN_STEPS, wanted)
}

#[test]
fn limits(rt: HostRuntime) -> Result<(), Fail> {
    let alloc = rt.alloc();
    for &(pieces, wanted) in REPEATED {
        assert!(rt; is_repeated(alloc, pieces, wanted)?.is_some());
    }
    Ok(())
}

const REFUSALS: &str = "?:1: L1 BadChar
SEGMENT A BEGIN COMMENT?:1: L5 OpenComment
\"AB?:1: L2 OpenString
ABCDEFGHIJABCDEFGHIJABCDEFGHIJAB?:1: L4 LongName
1. ?:1: L3 BadNumber
DEFINE R \"R\"; R?:1: M3 TooDeep
DELETE R;?:1: M5 NoSuchMacro
DEFINE K(X) \"WRITEBYTE(X)\"; K?:1: M2 BadCall
DEFINE B \"DELETE B\"; WRITEBYTE(1)?:1: M1 BadDefine
SEGMENT A BEGIN L: L: END FINISH?:1: N2 Twice L
SEGMENT A BEGIN GOTO L END FINISH?:1: N1 Undeclared L
SEGMENT A BEGIN INTEGER X; X: X := 1 END FINISH?:1: N2 Twice X
SEGMENT A BEGIN INTEGER X; X[1] := 1 END FINISH?:1: N3 WrongKind X
SEGMENT A BEGIN IF 1 = 1 THEN IF 1 = 1 THEN END FINISH?:1: S1 Syntax 9
SEGMENT A BEGIN IF 1 THEN END FINISH?:1: S1 Syntax 6
SEGMENT A BEGIN INTEGER A; IF A<-1 THEN A := 0 END FINISH?:1: S1 Syntax 9
SEGMENT A BEGIN FLOATING X; X := 1 END FINISH?:1: S3 LeftOut FLOATING
SEGMENT A BEGIN INTEGER I; FIXED(16,2) X; X := I/0.1 END FINISH?:1: Y2 ScaleRange
SEGMENT A BEGIN PROCEDURE P(VALUE INTEGER X);; P END FINISH?:1: Y1 WrongArgs";

fn is_refused(alloc: Global, text: &str, said: &str) -> Result<Option<u8>, AllocError> {
    let told = format!(in alloc; "2||a{said}~")?;
    let text = if text.is_empty() { "?" } else { text };
    goes(
        alloc,
        text.as_bytes(),
        RUN_STEPS,
        Wanted::Text(told.as_str()),
    )
}

#[test]
fn refusals(rt: HostRuntime) -> Result<(), Fail> {
    let alloc = rt.alloc();
    let mut count = 0_u32;
    for row in REFUSALS.lines() {
        let mut parts = row.rsplit('?');
        if let (Some(said), Some(text)) = (parts.next(), parts.next()) {
            assert!(rt; is_refused(alloc, text, said)?.is_some(), "{row}");
            count = count.wrapping_add(1);
        }
    }
    assert_eq!(rt; count, 19);
    Ok(())
}

fn push_doubled(alloc: Global, text: &mut Vec<u8>, k: u32) -> Result<(), AllocError> {
    let j = k.wrapping_sub(1);
    let doubled = format!(in alloc; "DEFINE A{k} \"A{j} A{j}\";")?;
    text.extend_from_slice(doubled.as_bytes())
}

// A macro that doubles sixteen times.
fn doubling(alloc: Global) -> Result<Vec<u8>, AllocError> {
    let mut text = b"DEFINE A0 \";\";".to_vec(alloc)?;
    for k in 1_u32..17 {
        push_doubled(alloc, &mut text, k)?;
    }
    text.extend_from_slice(b"A16")?;
    Ok(text)
}

fn is_doubling(alloc: Global, told: &str) -> Result<Option<u8>, AllocError> {
    let text = doubling(alloc)?;
    goes(alloc, &text, RUN_STEPS, Wanted::Text(told))
}

#[test]
fn long_expansions(rt: HostRuntime) -> Result<(), Fail> {
    assert!(rt; is_doubling(rt.alloc(), "2||a:1: M4 TooLong~")?.is_some());
    Ok(())
}
