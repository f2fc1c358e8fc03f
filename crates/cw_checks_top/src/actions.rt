//! The actions on several files, over a store in memory that takes files.
use crate::command::{Outside, Wanted, call, store_of};
use std::alloc::AllocError;
use std::test::Fail;

const FIRST: &[u8] =
    b"COMMON (INTEGER X; PROCEDURE P(VALUE INTEGER)); LIBRARY (INTEGER PROCEDURE READBYTE; PROCEDURE WRITEBYTE(VALUE INTEGER)); SEGMENT A BEGIN X := 66; P(READBYTE); WRITEBYTE(X) END FINISH";

const SECOND: &[u8] =
    b"COMMON (INTEGER X; PROCEDURE P(VALUE INTEGER)); LIBRARY (PROCEDURE WRITEBYTE(VALUE INTEGER)); SEGMENT B BEGIN PROCEDURE P(VALUE INTEGER N); BEGIN WRITEBYTE(N); X := X + 1 END; END FINISH";

// An image of one word of data whose program halts at once, and the same without its last byte and with another instruction.
const HALTING: [u8; 22] = [
    0x43, 0x36, 0x36, 0x49, 1, 0, 0x10, 0, 1, 0, 1, 0, 1, 1, 0x41, 0, 0, 1, 0, 0, 0, 0xF4,
];

const CUT: [u8; 21] = [
    0x43, 0x36, 0x36, 0x49, 1, 0, 0x10, 0, 1, 0, 1, 0, 1, 1, 0x41, 0, 0, 1, 0, 0, 0,
];

const NO_CODE: [u8; 22] = [
    0x43, 0x36, 0x36, 0x49, 1, 0, 0x10, 0, 1, 0, 1, 0, 1, 1, 0x41, 0, 0, 1, 0, 0, 0, 0x0F,
];

// An image of one word whose program tells the stop Overflow in segment 1 at line 3.
const STOPPING: [u8; 38] = [
    0x43, 0x36, 0x36, 0x49, 1, 0, 0x10, 0, 1, 0, 1, 0, 1, 1, 0x41, 0, 0, 17, 0, 0, 0, 0xB0, 1,
    0xE6, 0x13, 0xB0, 1, 0xE6, 0x14, 0xB0, 3, 0xE6, 0x15, 0xB0, 0, 0xE6, 0x16, 0xF4,
];

// The HEX text of HALTING with another byte in its second line.
const WRONG_SUM: &[u8] = b":020000021000EC\n:01000000F40C\n:0400000310000000E9\n:00000001FF\n";

// Texts, images, HEX texts, and bytes that are taken for libraries and are none, each under the name that the calls give it.
const FILES: &[(&str, &[u8])] = &[
    ("a", FIRST),
    ("b", SECOND),
    ("e", b"SEGMENT E BEGIN END FINISH"),
    (
        "t1",
        b"COMMON (FIXED(16,4) T); SEGMENT A BEGIN T := 1 END FINISH",
    ),
    (
        "t2",
        b"COMMON (INTEGER T); SEGMENT B BEGIN T := 1 END FINISH",
    ),
    ("r", b"COMMON (PROCEDURE R); SEGMENT A BEGIN R END FINISH"),
    (
        "n",
        b"SEGMENT A BEGIN INTEGER RECURSIVE PROCEDURE F(VALUE INTEGER N); ANSWER IF N = 0 THEN 0 ELSE F(N - 1); INTEGER X; X := F(3) END FINISH",
    ),
    (
        "h",
        b"SEGMENT A BEGIN PROCEDURE P(VALUE INTEGER N); ; PROCEDURE G(PROCEDURE Q(VALUE INTEGER)); Q(1); G(P) END FINISH",
    ),
    (
        "w",
        b"SEGMENT A BEGIN INTEGER X;\nX := 32767;\nX := X + 1 END FINISH",
    ),
    (
        "v",
        b"LIBRARY (PROCEDURE WRITEBYTE(VALUE INTEGER)); SEGMENT A BEGIN INTEGER I; FOR I := 1 STEP 1 UNTIL 3 DO\nWRITEBYTE(I) END FINISH",
    ),
    (
        "m",
        b"LIBRARY (PROCEDURE P1); SEGMENT M BEGIN P1 END FINISH",
    ),
    (
        "x",
        b"LIBRARY (PROCEDURE P1; PROCEDURE P2); SEGMENT X BEGIN PROCEDURE P1; P2; END FINISH",
    ),
    (
        "y",
        b"LIBRARY (PROCEDURE P2; PROCEDURE WRITEBYTE(VALUE INTEGER)); SEGMENT Y BEGIN PROCEDURE P2; WRITEBYTE(7); END FINISH",
    ),
    (
        "z",
        b"LIBRARY (PROCEDURE WRITEBYTE(VALUE INTEGER)); SEGMENT Z BEGIN WRITEBYTE(9) END FINISH",
    ),
    ("halting", &HALTING),
    ("A.IMX", &CUT),
    ("none", &NO_CODE),
    ("stopping", &STOPPING),
    ("sum", WRONG_SUM),
    ("colon", b":"),
    ("l2", b"C66L"),
    ("l3", b"C66L\x02\x00"),
    ("l4", b"C66L\x01\x00\x00\x00"),
    ("l5", b"C66L\x01\x00\xC9\x00"),
    ("l6", b"C66L\x01\x00\x01\x00\xFF\xFF\xFF\xFF"),
    ("l7", b"C66L\x01\x00\x01\x00\x04\x00\x00\x00none"),
];

// A row a line: the words of a call, a question mark, and its status, what it writes and what it says, with `|` between them and `~` for the end of a line.
const CALLS: &str = "list e?0|SEGMENT E BEGIN~END FINISH~|
map e?0|12288 04096 FRAMES~|
go a b?0|AC|00000 00001 COMMON.X WORD~00001 00001 B.P.N WORD~12288 04096 FRAMES~
map a b?0|00000 00001 COMMON.X WORD~00001 00001 B.P.N WORD~12288 04096 FRAMES~|
depth e?0|depth 0~|
depth a b?0|depth 1~B.P~|
depth n?0|depth none A.F~|
depth h?0|depth 2~A.G~A.P~|
depth t1 t2?3||link: K1 Differs T 1 2~
depth r?3||link: K2 Undefined R~
code r?3||link: K2 Undefined R~
depth e missing?6||no file: missing~
trace A:3:A.X w?4||00000 00001 A.X WORD~12288 04096 FRAMES~A 3 A.X=32767~stopped: Overflow A 3~
trace a:2:a.i v?0|\u{1}\u{2}\u{3}|00000 00001 A.I WORD~00001 00004 A.FOR@1 LOOP~12288 04096 FRAMES~A 2 A.I=1~A 2 A.I=2~A 2 A.I=3~
trace b:1:B.P.N,common.x[0] a b?0|AC|00000 00001 COMMON.X WORD~00001 00001 B.P.N WORD~12288 04096 FRAMES~B 1 B.P.N=65 COMMON.X=66~B 1 B.P.N=65 COMMON.X=66~
trace A:9 w?14||no place: A 9~
trace b:3 w?14||no place: B 3~
trace A:9:A.Y w?14||no place: A 9~
trace A:3:A.X,a.y w?15||no item: A.Y~
trace A:3:A.X[1] w?15||no item: A.X~
trace A:1 missing?6||no file: missing~
trace A:1 r?3||link: K2 Undefined R~
trace A w?1||usage: coral66 [--data N] [--frames N] [--depth N] [--steps N] ACTION WORD...~
link a.SEG b.SEG?6||no file: a.SEG~
compile a?0||
compile b?0||
link a.SEG b.SEG?0||
exec A.IMG?0|AC|
migrate a.SEG?0||
link a.SEG.SG2 b.SEG?0||
exec A.IMG?0|AC|
exec halting?0||
exec none?11||bad code: 0~
exec A.IMX?9||A.IMX: I3 Truncated 21~
exec a?9||a: I1 NotImage~
hex A.IMG?0||
exec A.IMG.HEX?0|AC|
hex halting?0||
exec halting.HEX?0||
exec stopping?4||stopped: Overflow A 3~
hex stopping?0||
exec stopping.HEX?4||stopped: Overflow 1 3~
exec sum?9||sum: X2 BadSum 2~
exec colon?9||colon: X1 BadLine 1~
hex sum?9||sum: I1 NotImage~
hex A.IMX?9||A.IMX: I3 Truncated 21~
hex missing?6||no file: missing~
link b.SEG a?9||a: O1 NotObject~
compile m?0||
compile x?0||
compile y?0||
compile z?0||
link m.SEG?3||link: K2 Undefined P1~
lib l x.SEG z.SEG y.SEG?0||
link m.SEG l?0||
exec A.IMG?0|\u{7}|
link l?0||
exec A.IMG?0||
lib l x.SEG x.SEG?0||
link l m.SEG?3||link: K5 SegmentTwice X~
lib l x.SEG y?9||y: O1 NotObject~
lib l missing x.SEG?6||no file: missing~
link m.SEG l2?9||l2: B3 Truncated 4~
link m.SEG l3?9||l3: B2 BadVersion~
link m.SEG l4?9||l4: B4 BadField 6~
link m.SEG l5?9||l5: B4 BadField 6~
link m.SEG l6?9||l6: B3 Truncated 12~
link l7 m.SEG?9||l7: B5 BadMember 1 O1 NotObject~
go t1 t2?3||link: K1 Differs T 1 2~
go r?3||link: K2 Undefined R~
go e e?3||link: K5 SegmentTwice E~
link a.SEG a.SEG?3||link: K5 SegmentTwice A~
go e missing?6||no file: missing~
big 1?0|0854~|big 1 words 110~
big 2?0|2562~|big 2 words 219~
big 20?0|3212~|big 20 words 2181~
big 20?0|3212~|big 20 words 2181~
big 100?0|3708~|big 100 words 10901~
--data 109 --frames 0 big 1?3||link: P1 DataTooBig 110~
--steps 1000 big 1?5||big 1 words 110~unfinished: 1000~";

// What surrounds a call: the input 65.
const OUTSIDE: Outside<'static> = Outside {
    input: b"A",
    taken: 4096,
    out: (4096, 1),
    say: (4096, 4096),
    input_faults: "",
    faults: "",
};

#[test]
fn actions(rt: HostRuntime) -> Result<(), Fail> {
    let alloc = rt.alloc();
    let mut files = store_of(alloc, FILES, (32, 65_536), 4096, "")?;
    let mut count = 0_u32;
    for row in CALLS.split('\n') {
        let Some((line, told)) = row.split_once('?') else {
            return Err(AllocError.into());
        };
        assert!(rt;
            call(alloc, &mut files, line, &OUTSIDE, Wanted::Text(told))?.is_some(),
            "{row}"
        );
        count = count.wrapping_add(1);
    }
    assert_eq!(rt; count, 80);
    Ok(())
}
