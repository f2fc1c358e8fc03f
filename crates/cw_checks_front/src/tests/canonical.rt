//! Each row is a text, a bar, and its canonical text, by hand from the rules. In both `~` stands for a line feed. The canonical text has itself
//! as its canonical text.
use crate::tests::rows::{parsed, with_lines};
use cw_show::show;
use cw_tree::segment::Raw;
use std::alloc::{AllocError, Global};
use std::test::Fail;

const ROWS: &str = r#"segment a begin end finish|SEGMENT A BEGIN~END FINISH~
'SEGMENT' A 'BEGIN' 'END' A 'FINISH'|SEGMENT A BEGIN~END FINISH~
SEGMENT A BEGIN X:=((1)) END FINISH|SEGMENT A BEGIN~X := 1 END FINISH~
SEGMENT A BEGIN X<-007;Y:=.5;Z:=1.50;W:=00.050 END FINISH|SEGMENT A BEGIN~X := 7 ;~Y := 0.5 ;~Z := 1.50 ;~W := 0.050 END FINISH~
SEGMENT A BEGIN X:=OCTAL(017)+LITERAL(a)-LITERAL()) END FINISH|SEGMENT A BEGIN~X := OCTAL ( 17 ) + LITERAL(a) - LITERAL()) END FINISH~
SEGMENT A BEGIN X:=LITERAL COMMENT a; (x) END FINISH|SEGMENT A BEGIN~X := LITERAL(x) END FINISH~
SEGMENT A BEGIN F("a ""b"" c","") END FINISH|SEGMENT A BEGIN~F ( "a ""b"" c" , "" ) END FINISH~
SEGMENT A BEGIN X:=(A-B)+C END FINISH|SEGMENT A BEGIN~X := A - B + C END FINISH~
SEGMENT A BEGIN X:=A-(B+C) END FINISH|SEGMENT A BEGIN~X := A - ( B + C ) END FINISH~
SEGMENT A BEGIN X:=A+(B+C) END FINISH|SEGMENT A BEGIN~X := A + ( B + C ) END FINISH~
SEGMENT A BEGIN X:=A-(B*C) END FINISH|SEGMENT A BEGIN~X := A - B * C END FINISH~
SEGMENT A BEGIN X:=-(A-B)+C END FINISH|SEGMENT A BEGIN~X := - ( A - B ) + C END FINISH~
SEGMENT A BEGIN X:=-(A);Y:=-(A*B);Z:=+(A) END FINISH|SEGMENT A BEGIN~X := - A ;~Y := - A * B ;~Z := + A END FINISH~
SEGMENT A BEGIN X:=-(-A);Y:=(-A)+B END FINISH|SEGMENT A BEGIN~X := - ( - A ) ;~Y := - A + B END FINISH~
SEGMENT A BEGIN X:=A*(B*C);Y:=(A*B)/C;Z:=A/(B) END FINISH|SEGMENT A BEGIN~X := A * ( B * C ) ;~Y := A * B / C ;~Z := A / B END FINISH~
SEGMENT A BEGIN X:=(A+B)*C;Y:=A*(B+C) END FINISH|SEGMENT A BEGIN~X := ( A + B ) * C ;~Y := A * ( B + C ) END FINISH~
SEGMENT A BEGIN X:=(A MASK B) UNION C;Y:=A MASK (B UNION C) END FINISH|SEGMENT A BEGIN~X := A MASK B UNION C ;~Y := A MASK ( B UNION C ) END FINISH~
SEGMENT A BEGIN X:=A DIFFER (B UNION C);Y:=A DIFFER (B DIFFER C) END FINISH|SEGMENT A BEGIN~X := A DIFFER B UNION C ;~Y := A DIFFER ( B DIFFER C ) END FINISH~
SEGMENT A BEGIN X:=(A DIFFER B)*C;Y:=A MASK (B MASK C) END FINISH|SEGMENT A BEGIN~X := A DIFFER B * C ;~Y := A MASK ( B MASK C ) END FINISH~
SEGMENT A BEGIN X:=BITS[1,2](BITS[3,4]A) END FINISH|SEGMENT A BEGIN~X := BITS [ 1 , 2 ] BITS [ 3 , 4 ] A END FINISH~
SEGMENT A BEGIN X:=BITS[1,2](A MASK B) END FINISH|SEGMENT A BEGIN~X := BITS [ 1 , 2 ] ( A MASK B ) END FINISH~
SEGMENT A BEGIN X:=IF A<B THEN 1 ELSE IF C=D THEN 2 ELSE 3 END FINISH|SEGMENT A BEGIN~X := IF A < B THEN 1 ELSE IF C = D THEN 2 ELSE 3 END FINISH~
SEGMENT A BEGIN X:=(IF A<B THEN 1 ELSE 2);Y:=(IF A<B THEN 1 ELSE 2)+3 END FINISH|SEGMENT A BEGIN~X := IF A < B THEN 1 ELSE 2 ;~Y := ( IF A < B THEN 1 ELSE 2 ) + 3 END FINISH~
SEGMENT A BEGIN X:=INTEGER((A));Y:=FIXED(16,3)(A+1) END FINISH|SEGMENT A BEGIN~X := INTEGER ( A ) ;~Y := FIXED ( 16 , 3 ) ( A + 1 ) END FINISH~
SEGMENT A BEGIN X:=[(A)+1];[A]:=LOCATION(B[(I),(J)]) END FINISH|SEGMENT A BEGIN~X := [ A + 1 ] ;~[ A ] := LOCATION ( B [ I , J ] ) END FINISH~
SEGMENT A BEGIN IF A<B AND C<=D OR E<>F THEN X:=1 ELSE X:=2 END FINISH|SEGMENT A BEGIN~IF A < B AND C <= D OR E <> F THEN X := 1 ELSE X := 2 END FINISH~
SEGMENT A BEGIN IF (A+B)>=(C) THEN L:M: ELSE N: END FINISH|SEGMENT A BEGIN~IF A + B >= C THEN L : M : ELSE N : END FINISH~
SEGMENT A BEGIN L:M:GOTO S[(1)];GOTO L END FINISH|SEGMENT A BEGIN~L : M : GOTO S [ 1 ] ;~GOTO L END FINISH~
SEGMENT A BEGIN FOR I<-1 STEP 1 UNTIL 2,3,4 WHILE A=B DO END FINISH|SEGMENT A BEGIN~FOR I := 1 STEP 1 UNTIL 2 , 3 , 4 WHILE A = B DO END FINISH~
SEGMENT A BEGIN BITS[1,2]A:=3;;BEGIN;END END FINISH|SEGMENT A BEGIN~BITS [ 1 , 2 ] A := 3 ;~;~BEGIN~;~END END FINISH~
SEGMENT A BEGIN INTEGER A,B:=1,-2;FIXED(16,OCTAL(4))C; END FINISH|SEGMENT A BEGIN~INTEGER A , B := 1 , - 2 ;~FIXED ( 16 , OCTAL ( 4 ) ) C ;~END FINISH~
SEGMENT A BEGIN INTEGER ARRAY A[0:1],B,C[-1:+2,3:4]:=(1,2),,3; END FINISH|SEGMENT A BEGIN~INTEGER ARRAY A [ 0 : 1 ] , B , C [ - 1 : + 2 , 3 : 4 ] := 1 , 2 , , 3 ;~END FINISH~
SEGMENT A BEGIN TABLE T[1,2][A INTEGER 0;B UNSIGNED(3,0)0,4;PRESET 1,2]; END FINISH|SEGMENT A BEGIN~TABLE T [ 1 , 2 ] [ A INTEGER 0 ;~B UNSIGNED ( 3 , 0 ) 0 , 4 PRESET 1 , 2 ] ;~END FINISH~
SEGMENT A BEGIN TABLE T[1,2][]:=(LITERAL(x)); END FINISH|SEGMENT A BEGIN~TABLE T [ 1 , 2 ] [ ] := LITERAL(x) ;~END FINISH~
SEGMENT A BEGIN INTEGER A;OVERLAY A[1]WITH INTEGER C; END FINISH|SEGMENT A BEGIN~INTEGER A ;~OVERLAY A [ 1 ] WITH INTEGER C ;~END FINISH~
SEGMENT A BEGIN SWITCH S:=L,M;L:M: END FINISH|SEGMENT A BEGIN~SWITCH S := L , M ;~L : M : END FINISH~
SEGMENT A BEGIN INTEGER RECURSIVE PROCEDURE F(VALUE INTEGER A,B;LABEL L);ANSWER(A); END FINISH|SEGMENT A BEGIN~INTEGER RECURSIVE F ( VALUE INTEGER A , B ;~LABEL L ) ;~ANSWER A ;~END FINISH~
SEGMENT A BEGIN PROCEDURE P(PROCEDURE Q(VALUE INTEGER;LOCATION INTEGER);TABLE T[1,2][A INTEGER 0]);BEGIN END P; END FINISH|SEGMENT A BEGIN~PROCEDURE P ( PROCEDURE Q ( VALUE INTEGER , LOCATION INTEGER ) ;~TABLE T [ 1 , 2 ] [ A INTEGER 0 ] ) ;~BEGIN~END ;~END FINISH~
COMMON(INTEGER A;LABEL L;SWITCH S;INTEGER PROCEDURE P(VALUE INTEGER;SWITCH));SEGMENT A BEGIN END FINISH|COMMON ( INTEGER A ;~LABEL L ;~SWITCH S ;~INTEGER PROCEDURE P ( VALUE INTEGER , SWITCH ) ) ;~SEGMENT A BEGIN~END FINISH~
LIBRARY(RECURSIVE PROCEDURE P;PROCEDURE Q);ABSOLUTE(INTEGER Z/OCTAL(7);INTEGER ARRAY Y[0:1]/4);SEGMENT A BEGIN END FINISH|LIBRARY ( RECURSIVE P ;~PROCEDURE Q ) ;~ABSOLUTE ( INTEGER Z / OCTAL ( 7 ) ;~INTEGER ARRAY Y [ 0 : 1 ] / 4 ) ;~SEGMENT A BEGIN~END FINISH~
DEFINE T(X)"X;X";COMMENT a tree knows no macros;SEGMENT A BEGIN T(Y:=1) END FINISH|SEGMENT A BEGIN~Y := 1 ;~Y := 1 END FINISH~"#;

fn is_shown(alloc: Global, raw: &Raw, wanted: &[u8]) -> bool {
    match show(alloc, raw) {
        Ok(shown) => shown.as_slice() == wanted,
        Err(_) => false,
    }
}

// Whether this is the canonical text of a text that has a tree, or there is none of one that has tokens alone.
fn is_canonical(alloc: Global, text: &[u8], wanted: &[u8]) -> bool {
    match parsed(alloc, text) {
        Some(Ok(raw)) => is_shown(alloc, &raw, wanted),
        Some(Err(_)) => wanted.is_empty(),
        None => false,
    }
}

// Whether it is that, and its own.
fn is_row(alloc: Global, text: &[u8], wanted: &str) -> Result<bool, AllocError> {
    let wanted = with_lines(alloc, wanted.as_bytes(), b'~')?;
    Ok(is_canonical(alloc, text, &wanted) && is_canonical(alloc, &wanted, &wanted))
}

fn holds(alloc: Global, row: &str) -> Result<bool, AllocError> {
    let Some((text, wanted)) = row.split_once('|') else {
        return Ok(false);
    };
    let text = with_lines(alloc, text.as_bytes(), b'~')?;
    is_row(alloc, &text, wanted)
}

#[test]
fn canonical_texts(rt: HostRuntime) -> Result<(), Fail> {
    for row in ROWS.split('\n') {
        assert!(rt; holds(rt.alloc(), row)?, "{row}");
    }
    Ok(())
}
