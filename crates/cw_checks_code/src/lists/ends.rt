//! Lists of segments, each with its storage's end or its first fault, by hand from the rules of agreement, storage and linking.
ghost use Rattle.std.specs.Prelude.{◌≤◌, IfOk, IfSome};
ghost use Rattle.std.specs.List.{All};
ghost use Rattle.cw_link.specs.Views.{IsOpened};

use crate::lists::spelling::spelled;
use cw_io::MemSink;
use cw_link::{LinkFault, link};
use cw_say::{Status, write_last};
use cw_texts::compile_text;
use cw_unit::layout::Limits;
use cw_view::View;
use cw_word::{List, NoMemory};
use std::alloc::{AllocError, Global};
use std::test::Fail;

// A row a line: the words of data and of frames and the depth of calls, each with a blank behind it, or nothing for 1000, 100 and 10; a bar before each
// segment; a question mark; and `ok` with the last end of the storage map, or the closing line. A segment is a spelled object, or a text in which `@A` stands
// for SEGMENT A BEGIN and END FINISH is left out.
const ROWS: &str = r#"|@A?ok 0
|@A|@A?K5 SegmentTwice A
|@A|@B|@C|@B|@A?K5 SegmentTwice B
|COMMON (INTEGER T); @A|COMMON (FIXED(16,4) T); @B|@A?K5 SegmentTwice A
|COMMON (FIXED(16,4) T); @A T := 1|COMMON (INTEGER T); @B T := 1?K1 Differs T 1 2
|COMMON (FIXED(15,0) T); @A|COMMON (INTEGER T); @B?K1 Differs T 1 2
|COMMON (INTEGER T); @A|COMMON (INTEGER ARRAY T[0:0]); @B?K1 Differs T 1 2
|COMMON (INTEGER ARRAY T[0:3]); @A|COMMON (INTEGER ARRAY T[0:1,0:1]); @B?K1 Differs T 1 2
|COMMON (INTEGER ARRAY T[0:3]); @A|COMMON (INTEGER ARRAY T[1:4]); @B?K1 Differs T 1 2
|COMMON (INTEGER ARRAY T[0:3]); @A|COMMON (FIXED(16,1) ARRAY T[0:3]); @B?K1 Differs T 1 2
|COMMON (TABLE T[1,2][E INTEGER 0]); @A|COMMON (TABLE T[2,2][E INTEGER 0]); @B?K1 Differs T 1 2
|COMMON (TABLE T[1,2][E INTEGER 0]); @A|COMMON (TABLE T[1,3][E INTEGER 0]); @B?K1 Differs T 1 2
|COMMON (TABLE T[1,2][E INTEGER 0]); @A|COMMON (TABLE T[1,2][F INTEGER 0]); @B?K1 Differs T 1 2
|COMMON (TABLE T[1,2][E(4,0)0,0]); @A|COMMON (TABLE T[1,2][E(4,0)0,4]); @B?K1 Differs T 1 2
|COMMON (TABLE T[1,2][E(4,0)0,0]); @A|COMMON (TABLE T[1,2][E UNSIGNED(4,0)0,0]); @B?K1 Differs T 1 2
|COMMON (LABEL L); @A L:|COMMON (SWITCH L); @B?K1 Differs L 1 2
|COMMON (PROCEDURE P); @A PROCEDURE P; ;|COMMON (LABEL P); @B?K1 Differs P 1 2
|COMMON (PROCEDURE P); @A PROCEDURE P; ;|COMMON (INTEGER PROCEDURE P); @B?K1 Differs P 1 2
|COMMON (FIXED(16,1) PROCEDURE P); @A FIXED(16,1) PROCEDURE P; ;|COMMON (INTEGER PROCEDURE P); @B?K1 Differs P 1 2
|COMMON (PROCEDURE P(VALUE INTEGER)); @A PROCEDURE P(VALUE INTEGER X); ;|COMMON (PROCEDURE P(LOCATION INTEGER)); @B?K1 Differs P 1 2
|COMMON (PROCEDURE P(VALUE INTEGER)); @A PROCEDURE P(VALUE INTEGER X); ;|COMMON (PROCEDURE P(VALUE FIXED(16,1))); @B?K1 Differs P 1 2
|COMMON (PROCEDURE P(VALUE INTEGER)); @A PROCEDURE P(VALUE INTEGER X); ;|COMMON (PROCEDURE P); @B?K1 Differs P 1 2
|COMMON (PROCEDURE P); @A PROCEDURE P; ;|LIBRARY (PROCEDURE P); @B?K1 Differs P 1 2
|COMMON (INTEGER ARRAY B[0:3], C[0:3]; OVERLAY B[1] WITH INTEGER X); @A|COMMON (INTEGER ARRAY B[0:3], C[0:3]; OVERLAY C[1] WITH INTEGER X); @B?K1 Differs X 1 2
|COMMON (INTEGER ARRAY B[0:3]; OVERLAY B[1] WITH INTEGER X); @A|COMMON (INTEGER ARRAY B[0:3]; OVERLAY B[2] WITH INTEGER X); @B?K1 Differs X 1 2
|COMMON (INTEGER ARRAY B[0:3]; OVERLAY B[1] WITH INTEGER X); @A|COMMON (INTEGER ARRAY B[0:3]; INTEGER X); @B?K1 Differs X 1 2
|COMMON (INTEGER T; INTEGER ARRAY B[0:3]; OVERLAY B[1] WITH INTEGER C); @A C := 7|COMMON (INTEGER ARRAY B[0:3]; OVERLAY B[1] WITH INTEGER C); @B?ok 5
|COMMON (INTEGER T, U); @A|COMMON (FIXED(16,1) U); @B|COMMON (FIXED(16,1) T); @C?K1 Differs U 1 2
|COMMON (INTEGER T, U); @A|COMMON (FIXED(16,1) U, T); @B?K1 Differs U 1 2
|@A|COMMON (INTEGER T); @B|COMMON (INTEGER T); @C|COMMON (FIXED(16,1) T); @D?K1 Differs T 2 4
|COMMON (INTEGER T); @A|COMMON (FIXED(16,1) T); @B|COMMON (INTEGER T); @C?K1 Differs T 1 2
|COMMON (LABEL L); @A L:|COMMON (LABEL L); @B L:?K3 DefinedTwice L 1 2
|COMMON (PROCEDURE P); @A P|COMMON (PROCEDURE P); @B PROCEDURE P; ;|@C|COMMON (PROCEDURE P); @D PROCEDURE P; ; P?K3 DefinedTwice P 2 4
|COMMON (SWITCH S; LABEL L); @A SWITCH S := L; L:|COMMON (SWITCH S); @B SWITCH S := M; M:?K3 DefinedTwice S 1 2
|COMMON (LABEL L, M); @A L: M:|COMMON (LABEL M, L); @B L: M:?K3 DefinedTwice M 1 2
|COMMON (LABEL L; INTEGER T); @A L:|COMMON (LABEL L); @B L:|COMMON (FIXED(16,1) T); @C?K1 Differs T 1 3
|COMMON (LABEL M, L); @A L:|COMMON (LABEL L); @B L:?K3 DefinedTwice L 1 2
|COMMON (PROCEDURE R); @A R?K2 Undefined R
|COMMON (LABEL L; SWITCH S); @A?K2 Undefined L
|COMMON (SWITCH S; LABEL L); @A|COMMON (LABEL L); @B L:?K2 Undefined S
|LIBRARY (PROCEDURE Q(VALUE INTEGER)); @A Q(1)?K2 Undefined Q
|COMMON (PROCEDURE R); @A|COMMON (PROCEDURE R; LABEL L); @B PROCEDURE R; ;|COMMON (LABEL M); @C?K2 Undefined L
|LIBRARY (INTEGER PROCEDURE READBYTE; PROCEDURE WRITEBYTE(VALUE INTEGER)); @A WRITEBYTE(READBYTE)?ok 0
|COMMON (LABEL L); ABSOLUTE (INTEGER Z / 900); @A?K2 Undefined L
|ABSOLUTE (INTEGER Z / 899); @A?ok 0
|ABSOLUTE (INTEGER Z / 900); @A?P2 AbsoluteOutside 1 900
|ABSOLUTE (INTEGER ARRAY Z[0:9] / 890); @A|@B?ok 0
|ABSOLUTE (INTEGER ARRAY Z[0:9] / 891); @A|ABSOLUTE (INTEGER Y / 999); @B?P2 AbsoluteOutside 1 891
|@A|ABSOLUTE (INTEGER V / 5; INTEGER W / 999; INTEGER X / 950); @B?P2 AbsoluteOutside 2 999
|ABSOLUTE (INTEGER Z / 900); @A INTEGER ARRAY B[0:999];?P2 AbsoluteOutside 1 900
1000 1000 10 |@A?ok 0
1000 1000 10 |@A INTEGER X;?P1 DataTooBig 1001
|@A INTEGER ARRAY B[0:899];?ok 900
|@A INTEGER ARRAY B[0:900];?P1 DataTooBig 1001
|@A INTEGER X;|@B INTEGER ARRAY B[0:899];?P1 DataTooBig 1001
|ABSOLUTE (INTEGER Z / 5); @A INTEGER ARRAY B[0:893];?ok 900
|ABSOLUTE (INTEGER Z / 5); @A INTEGER ARRAY B[0:894];?P1 DataTooBig 1001
32768 0 1 |1: 'A 3: 1 0w 32768l 6: 0 9: 0l 8w 1l?ok 32768
32768 0 1 |1: 'A 3: 1 0w 32768l 6: 0 9: 0l 8w 1l|1: 'B 3: 1 0w 1l 6: 0 9: 0l 8w 1l?P1 DataTooBig 32769
16384 4096 256 |1: 'A 3: 1 0w 4294967295l 6: 0 9: 0l 12w 1l?P1 DataTooBig 4294971391
|1: 'A 3: 1 0w 4294967295l 3: 1 0w 4294967295l 3: 1 0w 4294967295l 6: 0 9: 0l 8w 1l?P1 DataTooBig 12884901985
1000 100 498 |1: 'A 6: 0 9: 0l 64w 1l?ok 0
1000 100 108 |1: 'A 6: 0 9: 0l 292w 1l|1: 'B 6: 0 9: 0l 293w 1l|1: 'C 6: 0 9: 0l 8w 1l?P3 ControlTooBig 32001
1000 100 4096 |@A INTEGER X; X := 1?P3 ControlTooBig 49228
1000 100 4096 |1: 'A 3: 1 0w 900l 6: 0 9: 0l 65535w 1l?P3 ControlTooBig 268496959
1000 100 4096 |1: 'A 3: 1 0w 901l 6: 0 9: 0l 65535w 1l?P1 DataTooBig 1001
1000 100 4096 |1: 'A 6: 0 9: 0l 65535w 1l|1: 'B 3: 2 900w 1l 6: 0 9: 0l 8w 1l?P2 AbsoluteOutside 2 900
1000 100 4096 |COMMON (INTEGER T := 1); @A|COMMON (INTEGER T := 7); @B T := 1?P3 ControlTooBig 49228
|COMMON (INTEGER T := 1); @A T := 1|COMMON (INTEGER T := 7); @B T := 1?K4 PresetClash 0 1 2
|COMMON (INTEGER T := 1); @A|COMMON (INTEGER T := 1); @B?ok 1
|COMMON (INTEGER T := 0); @A|COMMON (INTEGER T := 1); @B?K4 PresetClash 0 1 2
|@A INTEGER A := 1; OVERLAY A WITH INTEGER B := 2;?K4 PresetClash 0 1 1
|@B INTEGER X := 2;|@A INTEGER A := 1; OVERLAY A WITH INTEGER B := 1;?ok 2
|COMMON (INTEGER T := 1); @A|COMMON (INTEGER T := 1); @B|COMMON (INTEGER T := 2); @C|COMMON (INTEGER T := 3); @D?K4 PresetClash 0 1 3
|COMMON (INTEGER ARRAY T[0:5] := ,,1,,,1); @A|COMMON (INTEGER ARRAY T[0:5] := ,,,,,2); @B|COMMON (INTEGER ARRAY T[0:5] := ,,3); @C?K4 PresetClash 2 1 3
|COMMON (INTEGER ARRAY T[0:1] := 1); @A|COMMON (INTEGER ARRAY T[0:1] := ,2); @B?ok 2
|COMMON (TABLE T[1,2][S(8,0)0,0; U(8,0)0,8; PRESET 1, 2]); @A|COMMON (TABLE T[1,2][S(8,0)0,0; U(8,0)0,8; PRESET 1, 3]); @B?K4 PresetClash 0 1 2
|COMMON (TABLE T[1,2][S(8,0)0,0; U(8,0)0,8; PRESET 1, 2]); @A|COMMON (TABLE T[1,2][S(8,0)0,0; U(8,0)0,8] := 513); @B?ok 2
|COMMON (TABLE T[1,2][S(8,0)0,0; U(8,0)0,8; PRESET 1]); @A|COMMON (TABLE T[1,2][S(8,0)0,0; U(8,0)0,8; PRESET ,2]); @B?K4 PresetClash 0 1 2
|1: 'A 3: 2 3w 4l 5: 0w 3w 7w 6: 0 9: 0l 8w 1l|1: 'B 3: 2 6w 1l 5: 0w 0w 8w 6: 0 9: 0l 8w 1l?K4 PresetClash 6 1 2
|1: 'A 3: 1 0w 1l 5: 0w 0w 1w 5: 0w 0w 2w 6: =65537 9: 0l 8w 1l?K4 PresetClash 0 1 1
|1: 'A 6: =65536 9: 0l 8w 1l?ok 0
|1: 'A 6: =65537 9: 0l 8w 1l?P4 CodeTooBig 65537
|1: 'A 6: =65536 9: 0l 8w 1l|1: 'B 6: 0 9: 0l 8w 1l?P4 CodeTooBig 65537
|1: 'A 2: 'T 0 0 0 16 0 2: 'T 0 0 0 16 4 6: 0 9: 0l 8w 1l|COMMON (INTEGER T); @B?ok 1
|COMMON (INTEGER T); @A|1: 'B 2: 'T 0 0 0 16 0 2: 'T 0 0 0 16 4 6: 0 9: 0l 8w 1l?ok 1
|1: 'A 2: 'T 0 0 0 16 4 2: 'T 0 0 0 16 0 6: 0 9: 0l 8w 1l|COMMON (INTEGER T); @B?K1 Differs T 1 2
|1: 'A 2: 'T 0 0 0 16 0 6: 0 8: 0w 0l 9: 0l 8w 1l|COMMON (INTEGER T); @B?ok 1
|1: 'A 2: 'T 0 0 0 16 0 6: 0 8: 0w 0l 9: 0l 8w 1l|1: 'B 2: 'T 0 0 0 16 0 6: 0 8: 0w 0l 9: 0l 8w 1l?K3 DefinedTwice T 1 2
|1: 'A 2: 'L 3 0 0 2: 'L 3 0 0 6: 0 0 8: 0w 0l 8: 1w 1l 9: 0l 8w 1l?ok 0
|1: 'A 2: 'L 3 0 0 2: 'L 0 0 0 16 0 6: 0 8: 1w 0l 9: 0l 8w 1l?ok 0
|1: 'A 2: 'L 0 0 0 16 0 2: 'L 3 0 0 6: 0 9: 0l 8w 1l?ok 0
|1: 'A 2: 'T 0 0 0 16 0 3: 0 0w 0l 3: 1 0w 0l 3: 1 0w 2l 6: 0 9: 0l 8w 1l|COMMON (INTEGER T); @B?ok 3
|1: 'A 2: 'T 0 0 0 16 0 3: 0 0w 1l 3: 0 0w 4l 6: 0 9: 0l 8w 1l?ok 4
|1: 'A 3: 2 900w 0l 3: 2 3w 0l 3: 1 0w 5l 3: 3 0w 32768l 6: 0 9: 0l 8w 1l?ok 5
|1: 'A 3: 2 901w 0l 6: 0 9: 0l 8w 1l?P2 AbsoluteOutside 1 901
|1: 'A 3: 2 65535w 4294967295l 6: 0 9: 0l 8w 1l?P2 AbsoluteOutside 1 65535"#;

fn number(word: Option<&str>) -> Option<u32> {
    word?.parse::<u32>().ok()
}

fn limits_of(words: &str) -> Limits
    ensures frames { result.frames ≤ result.area }
    ensures area { result.area ≤ 32768 }
{
    let mut words = words.split(' ');
    let area = number(words.next()).unwrap_or(1000).min(32768);
    let frames = number(words.next()).unwrap_or(100).min(area);
    let depth = number(words.next()).unwrap_or(10);
    Limits {
        area,
        frames,
        depth: (depth % 65536) as u16,
    }
}

// The object of a text, where it has one.
fn compiled(alloc: Global, text: &str) -> Result<Option<List<u8>>, AllocError> {
    if text.len() > 1_048_576 {
        return Ok(None);
    }
    match compile_text(alloc, text.as_bytes(), 0) {
        Ok(segment) => {
            let made = segment.made;
            Ok(Some(made.object))
        }
        Err(_) => Ok(None),
    }
}

// The object of a segment of a row.
fn object_of(alloc: Global, segment: &str) -> Result<Option<List<u8>>, AllocError> {
    match segment.split_once('@') {
        Some((head, tail)) => {
            let (name, body) = match tail.split_once(' ') {
                Some(parts) => parts,
                None => (tail, ""),
            };
            let text = format!(in alloc; "{head}SEGMENT {name} BEGIN {body} END FINISH")?;
            compiled(alloc, text.as_str())
        }
        None => match spelled(alloc, segment)? {
            Some(object) => Ok(Some(List::of(object))),
            None => Ok(None),
        },
    }
}

// The objects of the segments of a row, where each has one.
fn objects_of(alloc: Global, segments: &str) -> Result<Option<Vec<List<u8>>>, AllocError> {
    let mut objects = Vec::new(alloc);
    for segment in segments.split('|') {
        match object_of(alloc, segment)? {
            Some(object) => objects.push(object)?,
            None => return Ok(None),
        }
    }
    Ok(Some(objects))
}

// The view of an object, if it is one.
fn view_of(object: &[u8]) -> Option<View>
    ensures { IfSome result IsOpened }
{
    match View::open(object) {
        Ok(view) => Some(view),
        Err(_) => None,
    }
}

// The views of objects, which all are ones.
fn views_of(alloc: Global, objects: &[List<u8>]) -> Result<List<View>, NoMemory>
    ensures { IfOk result (λ views. All IsOpened views) }
{
    let mut views = List::new(alloc);
    for object in objects {
        match view_of(object.as_slice()) {
            Some(view) => views.push(view)?,
            None => return Err(NoMemory),
        }
    }
    Ok(views)
}

// Whether a fault has this closing line.
fn closes_with(alloc: Global, fault: LinkFault, line: &str) -> Result<bool, AllocError> {
    let Ok(mut say) = MemSink::new(alloc, 100, 100, List::new(alloc)) else {
        return Err(AllocError);
    };
    match write_last(&mut say, &[], &[], &Status::Unlinked(fault)) {
        Ok(()) => Ok(say.held() == line.as_bytes()),
        Err(_) => Err(AllocError),
    }
}

// Whether the last end of a storage map has this line.
fn is_end(alloc: Global, end: u32, line: &str) -> Result<bool, AllocError> {
    let told = format!(in alloc; "link: ok {end}\n")?;
    Ok(told.as_str() == line)
}

// Whether this line comes of linking objects.
fn are_linked(
    alloc: Global,
    limits: &str,
    objects: &[List<u8>],
    line: &str,
) -> Result<bool, AllocError> {
    let Ok(views) = views_of(alloc, objects) else {
        return Err(AllocError);
    };
    if views.as_slice().len() > 200 {
        return Ok(false);
    }
    match link(alloc, views.as_slice(), &limits_of(limits)) {
        Ok(linked) => is_end(alloc, linked.map.end, line),
        Err(fault) => closes_with(alloc, fault, line),
    }
}

// Whether it comes of linking the segments of a row.
fn is_linked(alloc: Global, limits: &str, segments: &str, line: &str) -> Result<bool, AllocError> {
    match objects_of(alloc, segments)? {
        Some(objects) => are_linked(alloc, limits, objects.as_slice(), line),
        None => Ok(false),
    }
}

// Whether a row holds.
fn holds(alloc: Global, row: &str) -> Result<bool, AllocError> {
    let Some((list, wanted)) = row.split_once('?') else {
        return Ok(false);
    };
    let Some((limits, segments)) = list.split_once('|') else {
        return Ok(false);
    };
    let line = format!(in alloc; "link: {wanted}\n")?;
    is_linked(alloc, limits, segments, line.as_str())
}

#[test]
fn lists(rt: HostRuntime) -> Result<(), Fail> {
    for row in ROWS.split('\n') {
        assert!(rt; holds(rt.alloc(), row)?, "{row}");
    }
    Ok(())
}
