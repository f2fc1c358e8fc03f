//! Small texts, with what they write and how they end, by hand from the rules of the language.
use crate::orders::{ORDER_STEPS, STEPS, Told, bytes_of, is_told_of_code, is_told_of_orders};
use crate::processor::Run;
use cw_files::Segment as Compiled;
use cw_gen_unit::orders;
use cw_interpreter::{Machine, Program, Segment};
use cw_link::{Linked, link};
use cw_order::Orders;
use cw_ports::ImageEnd;
use cw_texts::compile_text;
use cw_tmpl::base_code;
use cw_unit::layout::Limits;
use cw_unit::unit::{Def, Unit};
use cw_view::View;
use std::alloc::{AllocError, Global};
use std::test::Fail;

/// The limits of every run.
pub const LIMITS: Limits = Limits {
    area: 1000,
    frames: 100,
    depth: 20,
};

// A row a line: further communicators, what stands between BEGIN and END, the bytes of the input, those that are written, and the
// stop's kind, segment and line where the program does not come to its end. W stands for WRITEBYTE, and ~ for the end of a line.
const TEXTS: &str = "|W(7); W(OCTAL(17)); W(LITERAL(A))||7 15 65|
|INTEGER X; X := LITERAL COMMENT A; (x); W(X)||120|
|W(-1); W(+5); W(-(3-5))||255 5 2|
|INTEGER A, B; A := 200; B := A - 100 + 7; W(B); W(-A+B)||107 163|
|INTEGER A; A := 32767; W(A); A := A + 1; W(2)||255|1 1 1
|INTEGER A; A := 7; W(A*6); W(A/2); W(-A/2); W(A*A*A)||42 3 253 87|
|INTEGER A; W(7/(A+2)); W(7/A)||3|2 1 1
|INTEGER I; I := 3; W(I+I*I-I/I); W((I+I)*(I-1)); W(-I*I)||11 12 247|
|INTEGER A; INTEGER PROCEDURE N; BEGIN A := A+1; ANSWER A END; W(N*10+N); W(N-N); W((N*16) UNION N)||12 255 86|
|FIXED(16,4) X; X := 2.75; W(X); W(X*X); W(X+X); W(BITS[16,0] X)||2 7 4 44|
|FIXED(16,4) X; X := 1.5+1.25; W(BITS[16,0] X); X := -0.25; W(BITS[16,0] X); W(FIXED(16,4)(X)*2)||44 252 255|
|FIXED(16,2) X; X := 5.75; W(INTEGER(X)*4); W(FIXED(16,1)(X)*4); W(X*4)||20 22 23|
|FIXED(16,3) A; INTEGER B; A := 10/3; W(BITS[16,0] A); B := A; W(B); A := B/8; W(BITS[16,0] A)||26 3 3|
|FIXED(16,6) A, B; A := 7.5; B := 2.5; W(A/B); A := A/B; W(BITS[16,0] A); W(A/0.5)||3 192 6|
|INTEGER A; A := 100; W(A*0.5); W(7*0.5); W(7*(-0.5)); W(A*2.25)||50 3 0 225|
|FIXED(16,8) X; X := 127; W(X); X := X*X||127|1 1 1
|FIXED(16,15) X; X := -0.5-0.5; W(BITS[8,8] X); W(X)||128 255|
|INTEGER A; A := OCTAL(1234); W(BITS[3,3] A); W(BITS[6,0] A); W(BITS[1,15] (A-A-1))||3 28 1|
|INTEGER A, B; A := 12; B := 10; W(A MASK B); W(A UNION B); W(A DIFFER B); W(255 DIFFER A)||8 14 6 243|
|INTEGER A; A := -1; W(A MASK OCTAL(377)); W(BITS[8,8] A UNION 1); W(2+3 MASK 1)||255 255 3|
|INTEGER A; A := 5; W(IF A > 3 THEN 10 ELSE 20); W(IF A > 7 THEN 10 ELSE IF A = 5 THEN 30 ELSE 40); A := 1+(IF A < 0 THEN 1 ELSE 2); W(A)||10 30 3|
|FIXED(16,3) X; INTEGER A; A := 1; X := IF A = 1 THEN 0.5 ELSE A; W(BITS[16,0] X); X := IF A = 2 THEN 0.5 ELSE A; W(BITS[16,0] X); W((IF A = 1 THEN X ELSE 0)*3)||4 8 3|
|INTEGER A, B; [LOCATION(B)] := 9; W(B); W([LOCATION(A)+1]); W(LOCATION(B)-LOCATION(A))||9 9 1|
|INTEGER S; S := \"AB\"; W([S]); W([S+1]); W([S+2])||2 65 66|
|PROCEDURE P(VALUE INTEGER T); BEGIN INTEGER I; FOR I := 1 STEP 1 UNTIL [T] DO W([T+I]) END; P(\"HI\"); P(\"!\")||72 73 33|
|INTEGER ARRAY A[2:5]; INTEGER I; FOR I := 2 STEP 1 UNTIL 5 DO A[I] := I*I; W(A[2]); W(A[5]); W(A[3+1])||4 25 16|
|INTEGER ARRAY A[-3:3]; A[-3] := 1; A[3] := 7; A[0] := 4; W(A[-3]+A[0]); W(A[3])||5 7|
|INTEGER ARRAY M[1:2,0:3]; INTEGER I, J; FOR I := 1 STEP 1 UNTIL 2 DO FOR J := 0 STEP 1 UNTIL 3 DO M[I,J] := 10*I+J; W(M[1,0]); W(M[2,3]); W(M[1,4])||10 23 20|
|FIXED(16,3) ARRAY F[0:1,-1:1]; F[0,-1] := 0.5; F[1,1] := 2.5; W(F[1,1]*2); W(BITS[16,0] F[0,-1])||5 4|
|TABLE T[2,3][N INTEGER 0; K(3,0)1,0; U UNSIGNED(4,0)1,3]; N[0] := 5; N[2] := 9; K[1] := -1; U[1] := 13; W(N[0]+N[2]); W(K[1]); W(U[1]); W(T[3])||14 255 13 111|
|TABLE T[1,2][X(5,2)0,0]; X[0] := 2.75; X[1] := -4; W(X[0]*4); W(X[1]); W(T[1])||11 252 16|
|TABLE T[2,2][A INTEGER 0; B INTEGER 1]; INTEGER I; FOR I := 0 STEP 1 UNTIL 3 DO T[I] := I+1; W(A[0]); W(B[0]); W(A[1]); W(B[1])||1 2 3 4|
|INTEGER ARRAY A[0:3]; OVERLAY A[1] WITH INTEGER X, Y; X := 5; Y := 6; W(A[1]); W(A[2])||5 6|
|INTEGER A, B := 7, 8; INTEGER ARRAY C[1:3] := 1,,3; W(A+B); W(C[1]); W(C[2]); W(C[3])||15 1 0 3|
|INTEGER ARRAY A[0:3]; W(1); A[1000] := 1||1|4 1 1
|INTEGER I; I := [-1]|||4 1 1
|INTEGER ARRAY A[0:3]; INTEGER I; I := 32767; W(A[I+0]); W(A[-I])|||4 1 1
|INTEGER ARRAY A[0:3]; FIXED(16,4) X; A[2] := 6; X := 2.9; W(A[X])||6|
|INTEGER A; A := -1; BITS[4,4] A := 5; W(A); BITS[1,0] A := 0; W(A); BITS[8,8] A := 1; W(A/256)||95 94 1|
|INTEGER ARRAY A[0:1]; BITS[3,2] A[1] := 255; W(A[1]); BITS[16,0] A[0] := -2; W(A[0])||28 254|
|FIXED(16,2) X; X := 2.5; IF X > 2 THEN W(1); IF X = 2.5 THEN W(2) ELSE W(3); IF 2 = X THEN W(4)||1 2|
|INTEGER A; A := 3; IF A > 1 AND A < 3 OR A = 3 THEN W(1); IF A < 1 OR A > 5 AND A/0 = 1 THEN W(2) ELSE W(3)||1 3|
|INTEGER A; IF A = 0 AND 1/A = 0 THEN W(1)|||2 1 1
|INTEGER I; L: I := I+1; W(I); IF I < 3 THEN GOTO L; W(9)||1 2 3 9|
|INTEGER I; GOTO L; FOR I := 1, 2 DO BEGIN W(1); L: W(2) END; W(3)||2 3|
|INTEGER I; FOR I := 1 STEP 1 UNTIL 9 DO BEGIN IF I = 3 THEN GOTO OUT; W(I) END; OUT: W(I)||1 2 3|
|INTEGER I; FOR I := 5, 7, 9 DO W(I)||5 7 9|
|INTEGER I; FOR I := 1 STEP 2 UNTIL 6 DO W(I); W(I)||1 3 5 7|
|INTEGER I; FOR I := 3 STEP -1 UNTIL 1, 10, 2 STEP 2 UNTIL 5 DO W(I)||3 2 1 10 2 4|
|INTEGER I; I := 1; FOR I := I*2 WHILE I < 20 DO W(I); W(I)||2 4 8 16 32|
|INTEGER I; FOR I := 1, I+1 WHILE I < 4, 9 DO W(I)||1 2 3 9|
|INTEGER I, J; FOR I := 1 STEP 1 UNTIL 3 DO FOR J := I STEP 1 UNTIL 3 DO W(10*I+J)||11 12 13 22 23 33|
|INTEGER I, N; N := 3; FOR I := 1 STEP 1 UNTIL N DO BEGIN W(I); N := 5 END||1 2 3|
|INTEGER I; FOR I := 1 STEP 0 UNTIL 0 DO BEGIN W(7); GOTO L END; L:||7|
|INTEGER ARRAY A[0:2]; INTEGER K; K := 1; FOR A[K] := 4 STEP 1 UNTIL 6 DO BEGIN K := 2; W(A[1]) END; W(A[2])||4 5 6 0|
|FIXED(16,1) X; FOR X := 0.5 STEP 0.5 UNTIL 2 DO W(X*2)||1 2 3 4|
|INTEGER I; FOR I := 32766 STEP 1 UNTIL 32767 DO W(I)||254 255|1 1 1
|RECURSIVE P(VALUE INTEGER N); BEGIN INTEGER I; FOR I := 1 STEP 1 UNTIL N DO BEGIN W(I); P(N-1) END END; P(2)||1 1 2 1|
|PROCEDURE P(VALUE INTEGER A, B); W(A-B); P(9,4); P(4,9)||5 251|
|PROCEDURE P(VALUE FIXED(16,2) X); W(BITS[16,0] X); P(3); P(1.75)||12 7|
|INTEGER A; PROCEDURE P(LOCATION INTEGER X); X := X+1; A := 6; P(A); P(A); W(A)||8|
|INTEGER ARRAY A[0:2]; INTEGER I; PROCEDURE P(LOCATION INTEGER X); BEGIN I := 2; X := 9 END; I := 1; P(A[I]); W(A[1]); W(A[2])||9 0|
|INTEGER ARRAY A[1:3], B[-1:1]; PROCEDURE P(INTEGER ARRAY X; VALUE INTEGER I); W(X[I]); A[2] := 5; B[-1] := 8; P(A,2); P(B,-1)||5 8|
|INTEGER ARRAY A[5:6]; PROCEDURE Q(INTEGER ARRAY Y); Y[6] := Y[5]+1; PROCEDURE P(INTEGER ARRAY X); Q(X); A[5] := 3; P(A); W(A[6])||4|
|TABLE T[2,2][A INTEGER 0; B UNSIGNED(8,0)1,8]; PROCEDURE P(TABLE S[2,2][C INTEGER 1; D(4,0)0,0]); BEGIN C[1] := 768; D[1] := -3; W(S[3]/256) END; P(T); W(B[1]); W(A[1])||3 3 13|
|TABLE T[1,3][A INTEGER 0]; PROCEDURE Q(TABLE S[1,3][C INTEGER 0]); C[2] := C[1]*2; PROCEDURE P(TABLE S[1,3][D INTEGER 0]); BEGIN D[1] := 21; Q(S) END; P(T); W(A[2])||42|
|PROCEDURE P(VALUE INTEGER N; LABEL L); IF N > 2 THEN GOTO L ELSE W(N); P(1,OUT); P(3,OUT); W(9); OUT: W(7)||1 7|
|RECURSIVE P(VALUE INTEGER N; LABEL L); BEGIN W(N); IF N = 0 THEN GOTO L; P(N-1,L); W(99) END; P(3,OUT); W(8); OUT: W(7)||3 2 1 0 7|
|RECURSIVE P(VALUE INTEGER N; LABEL L); BEGIN IF N = 0 THEN GOTO L; IF N = 2 THEN P(N-1,HERE) ELSE P(N-1,L); W(N); \
    GOTO DONE; HERE: W(100+N); DONE: END; P(4,OUT); OUT: W(7)||102 3 4 7|
|INTEGER I; SWITCH S := A, B, C; FOR I := 3 STEP -1 UNTIL 1 DO BEGIN GOTO S[I]; A: W(1); B: W(2); C: W(3) END||3 2 3 1 2 3|
|INTEGER I; SWITCH S := A, A; A: I := I+1; W(I); GOTO S[I]||1 2 3|3 1 1
|SWITCH S := A, B; PROCEDURE P(VALUE INTEGER I; SWITCH T); GOTO T[I]; P(2,S); A: W(1); B: W(2)||2|
|SWITCH S := A, B; PROCEDURE P(VALUE INTEGER I; SWITCH T); GOTO T[I]; PROCEDURE Q(SWITCH U); P(3,U); W(5); Q(S); A: W(1); B: W(2)||5|3 1 1
|PROCEDURE P(VALUE INTEGER N); BEGIN SWITCH S := A, B; GOTO S[N]; A: W(1); B: W(2) END; P(1); P(2)||1 2 2|
|PROCEDURE A(VALUE INTEGER X); W(X); PROCEDURE B(VALUE INTEGER X); W(X+1); PROCEDURE P(PROCEDURE Q(VALUE INTEGER)); Q(5); P(A); P(B)||5 6|
|INTEGER PROCEDURE SQ(VALUE INTEGER X); ANSWER X*X; PROCEDURE P(INTEGER PROCEDURE F(VALUE INTEGER); VALUE INTEGER N); W(F(N)+F(N+1)); P(SQ,3)||25|
|PROCEDURE A; W(1); PROCEDURE Q(PROCEDURE F); F; PROCEDURE P(PROCEDURE F); BEGIN Q(F); F END; P(A)||1 1|
|INTEGER PROCEDURE F(VALUE INTEGER N); BEGIN IF N > 5 THEN ANSWER 1; W(N) END; W(F(6)); W(F(3))||1 3 0|
|FIXED(16,3) PROCEDURE H(VALUE INTEGER N); ANSWER N/2; W(BITS[16,0] H(3)); W(H(3)*2)||12 3|
|INTEGER RECURSIVE F(VALUE INTEGER N); IF N < 2 THEN ANSWER 1 ELSE ANSWER N*F(N-1); W(F(5)); W(F(8))||120|1 1 1
|INTEGER RECURSIVE G(VALUE INTEGER N); IF N < 2 THEN ANSWER N ELSE ANSWER G(N-1)+G(N-2); W(G(10))||55|
|PROCEDURE P; BEGIN INTEGER K; K := K+1; W(K) END; P; P||1 2|
|RECURSIVE C(VALUE INTEGER N); IF N > 1 THEN C(N-1) ELSE W(1); C(20); C(21)||1|6 1 1
|RECURSIVE G(VALUE INTEGER N); BEGIN INTEGER ARRAY A[0:28]; W(N); IF N > 0 THEN G(N-1) END; G(9)||9 8 7|5 1 1
|RECURSIVE P(VALUE INTEGER N); BEGIN IF N = 0 THEN GOTO OUT; P(N-1) END; P(10); W(1); OUT: W(2)||2|
|INTEGER PROCEDURE F(VALUE INTEGER N); IF N = 0 THEN GOTO OUT ELSE ANSWER 10/N; W(F(5)); W(1+F(0)); W(3); OUT: W(4)||2 4|
|INTEGER I; L: I := READBYTE; IF I >= 0 THEN BEGIN W(I+1); GOTO L END; W(I)|72 105|73 106 255|
|W(READBYTE*10+READBYTE)|4 2|42|
LIBRARY (PROCEDURE BOUNDS);|INTEGER ARRAY A[2:4]; INTEGER I; I := 4; A[I] := 1; W(A[I]); A[I+1] := 2||1|7 1 1
LIBRARY (PROCEDURE BOUNDS);|INTEGER ARRAY A[2:4], B[0:9]; W(1); W(A[1])||1|7 1 1
LIBRARY (PROCEDURE BOUNDS);|INTEGER ARRAY M[1:2,1:2]; M[2,2] := 5; W(M[2,2]); M[1,3] := 6||5|7 1 1
LIBRARY (PROCEDURE BOUNDS);|INTEGER ARRAY M[1:2,-1:3]; INTEGER I, J; INTEGER PROCEDURE F(VALUE INTEGER N); BEGIN I := 9; ANSWER N+J END; I := 2; J := 2; M[I,F(1)] := 5; W(I); W(M[2,3]); I := 1; M[I,J*2] := 6||9 5|7 1 1
LIBRARY (PROCEDURE BOUNDS);|TABLE T[2,2][A INTEGER 0]; A[1] := 3; W(T[2]); W(A[2])||3|7 1 1
LIBRARY (PROCEDURE BOUNDS);|TABLE T[2,2][A INTEGER 0]; INTEGER X; T[3] := 4; W(T[3]); T[4] := 1||4|7 1 1
LIBRARY (PROCEDURE BOUNDS);|INTEGER ARRAY A[0:1], B[0:1]; PROCEDURE P(INTEGER ARRAY X); X[2] := 4; P(A); W(B[0])||4|
COMMON (INTEGER X, Y; FIXED(16,2) Z);|X := 3; Z := 1.5; W(X); W(Z*2)||3 3|
COMMON (PROCEDURE P(VALUE INTEGER); LABEL L);|PROCEDURE P(VALUE INTEGER N); BEGIN W(N); GOTO L END; P(3); W(4); L: W(5)||3 5|
ABSOLUTE (INTEGER A / 50; INTEGER ARRAY B[0:2] / 51);|B[0] := 7; [50] := 8; W(A); W([51])||8 7|
|INTEGER X; X := 1; BEGIN INTEGER X; X := 2; W(X) END; W(X)||2 1|
|INTEGER X;~X := 1;~W(X);~X := X/0||1|2 1 4
|PROCEDURE P(VALUE INTEGER N);~W(10/N);~P(2);~P(0)||5|2 1 2
|INTEGER I;~FOR I := 32767 STEP 1 UNTIL 32767 DO~W(I)||255|1 1 2
|RECURSIVE C;~C;~C|||6 1 2
|SWITCH S := A;~PROCEDURE P;~GOTO S[2];~A: P|||3 1 3";

/// The bytes of a text, where `~` stands for the end of a line.
pub fn lines_of(alloc: Global, text: &str) -> Result<Vec<u8>, AllocError> {
    let mut bytes = text.as_bytes().to_vec(alloc)?;
    for byte in bytes.as_mut_slice() {
        if *byte == b'~' {
            *byte = b'\n';
        }
    }
    Ok(bytes)
}

// A text: with further communicators, and this between BEGIN and END.
fn text_of(alloc: Global, communicators: &str, body: &str) -> Result<Vec<u8>, AllocError> {
    let text = format!(in alloc;
        "LIBRARY (INTEGER PROCEDURE READBYTE; PROCEDURE WRITEBYTE(VALUE INTEGER)); {communicators} DEFINE W \"WRITEBYTE\"; SEGMENT A BEGIN {body} END FINISH"
    )?;
    lines_of(alloc, text.as_str())
}

/// An object by itself, linked.
pub fn link_one(alloc: Global, object: &[u8]) -> Option<Linked> {
    match View::open(object) {
        Ok(view) => link(alloc, &[view], &LIMITS).ok(),
        Err(_) => None,
    }
}

/// The orders of a text, with its storage map, and its image.
#[derive(Drop)]
struct Built {
    program: Program,
    linked: Linked,
}

fn homes_of(alloc: Global, linked: &Linked) -> Option<Vec<u16>> {
    let homes = linked.map.homes.as_slice().first()?;
    homes.as_slice().to_vec(alloc).ok()
}

fn arguments_of(alloc: Global, unit: &Unit) -> Option<Vec<usize>> {
    let mut arguments = Vec::new(alloc);
    for procedure in unit.procs.as_slice() {
        arguments.push(procedure.params.as_slice().len()).ok()?;
    }
    Some(arguments)
}

fn defined_of(alloc: Global, unit: &Unit) -> Option<Vec<(u16, usize, Def)>> {
    let mut defined = Vec::new(alloc);
    for (descriptor, definition) in unit.defined.as_slice() {
        defined.push((*descriptor, 0, *definition)).ok()?;
    }
    Some(defined)
}

fn segment_of(alloc: Global, orders: Orders, unit: &Unit, linked: &Linked) -> Option<Segment> {
    let homes = homes_of(alloc, linked)?;
    let arguments = arguments_of(alloc, unit)?;
    Some(Segment {
        orders,
        homes,
        arguments,
        defined: defined_of(alloc, unit)?,
    })
}

fn program_of(alloc: Global, segment: Segment) -> Option<Program> {
    Some(Program {
        segments: vec![in alloc; segment].ok()?,
        limits: LIMITS,
    })
}

fn linked_with(alloc: Global, orders: Orders, unit: &Unit, object: &[u8]) -> Option<Built> {
    let linked = link_one(alloc, object)?;
    let segment = segment_of(alloc, orders, unit, &linked)?;
    let program = program_of(alloc, segment)?;
    Some(Built { program, linked })
}

fn compiled(alloc: Global, text: &[u8]) -> Option<Built> {
    if text.len() > 1_048_576 {
        return None;
    }
    let Ok(Compiled { unit, made }) = compile_text(alloc, text, 0) else {
        return None;
    };
    match orders(alloc, &unit, &made.layout) {
        Ok(orders) => linked_with(alloc, orders, &unit, made.object.as_slice()),
        Err(_) => None,
    }
}

// The data area as it begins.
fn memory_of(alloc: Global, linked: &Linked) -> Result<Vec<i16>, AllocError> {
    let mut memory = vec![in alloc; 0_i16; LIMITS.area as usize]?;
    for (place, word) in memory.iter_mut().zip(linked.image.words.as_slice()) {
        *place = word.cast_signed();
    }
    Ok(memory)
}

// Whether the run of a text's orders shows what is told.
fn is_interpreted(
    alloc: Global,
    built: &Built,
    input: &[u8],
    told: Told<'_>,
) -> Result<bool, AllocError> {
    let memory = memory_of(alloc, &built.linked)?;
    let mut machine = Machine::new(alloc, &built.program, memory, input);
    let end = machine.run(ORDER_STEPS);
    Ok(is_told_of_orders(machine.output(), end, told))
}

fn run_of(alloc: Global, linked: &Linked, input: &[u8]) -> Option<Run> {
    let image = &linked.image;
    Run::new(alloc, image.code.as_slice(), image.words.as_slice(), input)
}

// Whether the run of its code does.
fn is_processed(alloc: Global, linked: &Linked, input: &[u8], told: Told<'_>) -> bool {
    match run_of(alloc, linked, input) {
        Some(mut run) => {
            let end = run.go_on(STEPS);
            is_told_of_code(run.output(), end, told)
        }
        None => false,
    }
}

fn runs(alloc: Global, text: &[u8], input: &[u8], told: Told<'_>) -> Result<bool, AllocError> {
    match compiled(alloc, text) {
        Some(built) => match is_interpreted(alloc, &built, input, told) {
            Ok(true) => Ok(is_processed(alloc, &built.linked, input, told)),
            other => other,
        },
        None => Ok(false),
    }
}

fn is_row(alloc: Global, text: &[u8], input: &str, told: Told<'_>) -> Result<bool, AllocError> {
    let input = bytes_of(alloc, input)?;
    runs(alloc, text, &input, told)
}

// The communicators and the body of a row's text, its input, its output, and its end.
fn text_row(row: &str) -> Option<((&str, &str), &str, &str, &str)> {
    let mut parts = row.split('|');
    let text = (parts.next()?, parts.next()?);
    Some((text, parts.next()?, parts.next()?, parts.next()?))
}

fn is_text(
    alloc: Global,
    (communicators, body): (&str, &str),
    input: &str,
    told: Told<'_>,
) -> Result<bool, AllocError> {
    let text = text_of(alloc, communicators, body)?;
    is_row(alloc, &text, input, told)
}

// The orders of the texts, and their code, show what the rows say.
#[test]
fn texts_run(rt: HostRuntime) -> Result<(), Fail> {
    let alloc = rt.alloc();
    let mut count = 0_u32;
    for row in TEXTS.lines() {
        if let Some((text, input, bytes, end)) = text_row(row) {
            assert!(rt; is_text(alloc, text, input, Told { bytes, end })?, "{row}");
            count = count.wrapping_add(1);
        }
    }
    assert_eq!(rt; count, 104);
    Ok(())
}

// A body, the bytes of its segment's code, and the instructions of its run. The segment's entry has 11 bytes, and the way on to the
// end 5. A run takes 12 instructions to the first order, and 3 from the last one through the end.
const COUNTED: &[(&str, usize, u64)] = &[
    // The number 3 bytes and 1 instruction, the byte 2 and 1.
    ("W(7)", 21, 17),
    // Number and store 6 and 2; load, sum with a number and store 16 and 4; load and byte 5 and 2.
    ("INTEGER X; X := 3; X := X + 4; W(X)", 43, 23),
    // Number, its save and the call 10 and 4; the entry and the argument 13 and 21; load and byte 5 and 2; 0 and the return 8 and 4.
    ("PROCEDURE P(VALUE INTEGER N); W(N); P(5)", 52, 46),
    // The call 6 and 2, the byte 2 and 1; the entry 7 and 19; number and the return 9 and 4, and no other return.
    ("INTEGER PROCEDURE F; ANSWER 5; W(F)", 40, 41),
    // Load, comparison and the jump past the statement 8 and 3; number and byte 5 and 2, and no other jump.
    ("INTEGER X; IF X = 0 THEN W(7)", 29, 20),
    // The variable's address, the number of the element, the first value, the step and the limit, each stored, 30 and 10; load and byte 5 and 2;
    // the step 13, and 20 or at the end 19. The body runs twice.
    ("INTEGER I; FOR I := 1 STEP 1 UNTIL 2 DO W(I)", 64, 68),
];

// Whether the code of a segment has so many bytes.
fn has_size(linked: &Linked, bytes: usize) -> bool {
    let size = linked.image.code.as_slice().len();
    size.wrapping_sub(base_code().len()) == bytes
}

// Whether a run comes to its end with so many instructions, and with no fewer.
fn ends_after(alloc: Global, linked: &Linked, steps: u64) -> bool {
    match run_of(alloc, linked, b"") {
        Some(mut run) => run.go_on(steps.wrapping_sub(1)) == ImageEnd::Unfinished
            && run.go_on(1) == ImageEnd::Ended,
        None => false,
    }
}

fn is_counted(alloc: Global, text: &[u8], bytes: usize, steps: u64) -> bool {
    match compiled(alloc, text) {
        Some(built) => has_size(&built.linked, bytes) && ends_after(alloc, &built.linked, steps),
        None => false,
    }
}

fn is_counted_row(alloc: Global, body: &str, bytes: usize, steps: u64) -> Result<bool, AllocError> {
    let text = text_of(alloc, "", body)?;
    Ok(is_counted(alloc, &text, bytes, steps))
}

#[test]
fn sizes(rt: HostRuntime) -> Result<(), Fail> {
    let alloc = rt.alloc();
    for &(body, bytes, steps) in COUNTED {
        assert!(rt; is_counted_row(alloc, body, bytes, steps)?, "{body}");
    }
    Ok(())
}

fn is_fourfold_run(alloc: Global, linked: &Linked) -> bool {
    match run_of(alloc, linked, b"") {
        Some(mut run) => run.go_on(STEPS) == ImageEnd::Ended
            && run.output().len() == 256
            && run.output().first() == Some(&1)
            && run.output().last() == Some(&4),
        None => false,
    }
}

fn is_fourfold_object(alloc: Global, object: &[u8], tokens: u32) -> bool {
    match link_one(alloc, object) {
        Some(linked) => {
            let size = linked.image.code.as_slice().len();
            let own = size.wrapping_sub(base_code().len());
            own <= (tokens as usize).wrapping_mul(32) && is_fourfold_run(alloc, &linked)
        }
        None => false,
    }
}

fn is_fourfold(alloc: Global, text: &[u8]) -> bool {
    if text.len() > 1_048_576 {
        return false;
    }
    match compile_text(alloc, text, 0) {
        Ok(segment) => is_fourfold_object(
            alloc,
            segment.made.object.as_slice(),
            segment.unit.tokens,
        ),
        Err(_) => false,
    }
}

// Four FORs in one another run their body 256 times, and their code is short.
#[test]
fn fourfold(rt: HostRuntime) -> Result<(), Fail> {
    let alloc = rt.alloc();
    let body =
        "INTEGER I; FOR I := 1, 2, 3, 4 DO FOR I := I, I, I, I DO FOR I := I, I, I, I DO FOR I := I, I, I, I DO W(I)";
    let text = text_of(alloc, "", body)?;
    assert!(rt; is_fourfold(alloc, &text));
    Ok(())
}
