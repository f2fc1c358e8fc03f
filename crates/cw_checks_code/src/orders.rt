//! Programs of orders, with what they write and how they end, by hand from the orders' meaning.
use crate::processor::{Run, image_of};
use cw_checks_rows::{are_numbers, in_four};
use cw_interpreter::{End, Machine, Program, program};
use cw_ports::ImageEnd;
use std::alloc::{AllocError, Global};
use std::test::Fail;

/// What a row tells of a run: the bytes that are written, as numbers, and how it ended: nothing, or a stop's kind, segment and line.
#[derive(Clone, Copy)]
pub struct Told<'a> {
    pub bytes: &'a str,
    pub end: &'a str,
}

fn number(word: Option<&str>) -> Option<u64> {
    word?.parse::<u64>().ok()
}

fn is_stop(end: &str, kind: u8, segment: u64, line: u16) -> bool {
    let mut words = end.split(' ');
    let is_kind = number(words.next()) == Some(u64::from(kind));
    let is_segment = number(words.next()) == Some(segment);
    let is_line = number(words.next()) == Some(u64::from(line));
    is_kind && is_segment && is_line && words.next().is_none()
}

/// Whether an interpreted run showed what is told.
pub fn is_told_of_orders(output: &[u8], end: End, told: Told<'_>) -> bool {
    let ends = match end {
        End::Ended => told.end.is_empty(),
        End::Stopped(kind, segment, line) => is_stop(told.end, kind, segment as u64, line),
        End::Stuck => told.end == "stuck",
        End::Unfinished => told.end == "unfinished",
        End::NoMemory => told.end == "no memory",
    };
    ends && are_numbers(output, told.bytes)
}

/// Whether a run on the processor showed what is told.
pub fn is_told_of_code(output: &[u8], end: ImageEnd, told: Told<'_>) -> bool {
    let ends = match end {
        ImageEnd::Ended => told.end.is_empty(),
        ImageEnd::Stopped {
            kind,
            segment,
            line,
        } => is_stop(told.end, kind, u64::from(segment), line),
        ImageEnd::Unfinished => told.end == "unfinished",
        _ => told.end == "fault",
    };
    ends && are_numbers(output, told.bytes)
}

/// The bytes of a list of numbers.
pub fn bytes_of(alloc: Global, numbers: &str) -> Result<Vec<u8>, AllocError> {
    let mut bytes = Vec::new(alloc);
    for number in numbers.split(' ') {
        if let Ok(byte) = number.parse::<u8>() {
            bytes.push(byte)?;
        }
    }
    Ok(bytes)
}

// A row a line: the orders, the bytes of the input, those that are written, and the stop's kind, segment and line where the run does not come to its end.
const PROGRAMS: &str = "Line:1 Const:72 Save WriteByte End||72|
Start:1 Const:72 Save WriteByte Start:2 Const:32767 Save Const:1 Add Save WriteByte End||72|1 1 2
Line:1 Const:30 Save Home:0:5 Store Home:0:5 Load Save Home:0:5 Load Add Save WriteByte Const:40 Save Const:2 Add \
    Save WriteByte Const:1 Save Const:2 Save Const:3 Add Add Save WriteByte End||60 42 6|
Start:7 Const:20000 Save Home:1:2 Store Const:20000 Save Home:1:2 Load Add Save WriteByte End|||1 1 7
Line:1 Const:32768 Save Const:20000 Save Const:45535 Add Add Save WriteByte End|||1 1 1
Line:1 Const:5 Save Const:7 Sub Save WriteByte Const:7 Save Home:0:0 Store Const:9 Save Home:0:0 Load Sub Save \
    WriteByte Const:50 Save Const:9 Save Const:1 Add Sub Save WriteByte End||254 2 40|
Line:3 Const:32768 Save Const:1 Sub Save WriteByte End|||1 1 3
Line:3 Const:32767 Save Const:65535 Save Home:2:0 Store Home:2:0 Load Sub Save WriteByte End|||1 1 3
Line:4 Const:5 Neg Save WriteByte Const:32768 Neg Save WriteByte End||251|1 1 4
Line:1 Const:65535 Neg Save WriteByte Const:32767 Neg Save Const:1 Sub Save Const:1 Add Neg Save WriteByte End||1 255|
Line:1 Const:65535 Save Const:1 JumpIf:<:0 Const:1 Save WriteByte Mark:0 Const:2 Save WriteByte End||2|
Line:1 Const:3 Save Const:3 JumpIf:<=:0 Const:1 Save WriteByte Mark:0 Const:3 Save Const:4 JumpIf:=:1 Const:2 Save \
    WriteByte Mark:1 Const:3 Save Const:4 JumpIf:>=:2 Const:3 Save WriteByte Mark:2 End||2 3|
Line:1 Const:3 Save Const:3 JumpIf:>:0 Const:1 Save WriteByte Mark:0 Const:3 Save Const:4 JumpIf:<>:1 Const:2 Save \
    WriteByte Mark:1 Const:5 Save Const:4 JumpIf:>:2 Const:3 Save WriteByte Mark:2 Const:4 Save Const:4 \
    JumpIf:<>:3 Const:4 Save WriteByte Mark:3 End||1 4|
Line:1 Const:7 Save Home:0:3 Store Const:6 Save Home:0:3 Load JumpIf:<:0 Const:1 Save WriteByte Mark:0 Const:32768 \
    Save Const:32767 Save Home:0:4 Store Home:0:4 Load JumpIf:<:1 Const:2 Save WriteByte Mark:1 Const:1 Save \
    Const:2 Save Const:3 Add JumpIf:>=:2 Const:3 Save WriteByte Mark:2 End||3|
Line:1 Jump:0 Const:1 Save WriteByte Mark:0 Const:2 Save WriteByte End||2|
Line:1 Const:3 Save Home:0:0 Store Mark:0 Home:0:0 Load Save WriteByte Home:0:0 Load Save Const:1 Sub Save \
    Home:0:0 Store Home:0:0 Load Save Const:0 JumpIf:>:0 End||3 2 1|
Line:1 Const:77 Save Home:0:4 Save Const:2 Add Store Home:0:6 Load Save WriteByte Const:6 Load Save WriteByte \
    Const:1 Save Home:0:5 Element:0:0 Load Save WriteByte End||77 77 77|
Line:1 Const:511 Save Home:0:0 Store Const:5 Save Home:0:0 StorePart:3:4 Home:0:0 Load Save WriteByte Home:0:0 \
    LoadPart:3:4:u Save WriteByte Home:0:0 LoadPart:3:4:s Save WriteByte End||223 5 253|
Line:1 Const:3 Save Home:0:0 StorePart:2:14 Home:0:0 LoadPart:2:14:s Save WriteByte Home:0:0 LoadPart:2:14:u Save \
    WriteByte Home:0:0 Load Save Const:0 JumpIf:<:0 Const:9 Save WriteByte Mark:0 End||255 3|
Line:1 Const:40000 Save Home:0:1 StorePart:16:0 Home:0:1 LoadPart:16:0:u Save Const:0 JumpIf:<:0 Const:1 Save \
    WriteByte Mark:0 Home:0:1 LoadPart:16:0:s Save Home:0:1 Load Sub Save WriteByte End||0|
Line:1 Const:255 Save Home:0:0 StorePart:4:8 Home:0:0 LoadPart:8:8:u Save WriteByte Const:1 Save Home:0:1 \
    StorePart:1:0 Home:0:1 LoadPart:1:0:s Save WriteByte End||15 255|
Line:2 Const:5 Rescale:0:4 Save WriteByte Const:61440 Rescale:0:3 Rescale:15:0 Save WriteByte Const:4096 Rescale:0:3 Save WriteByte End||80 255|1 1 2
Line:6 Const:65529 Rescale:1:0 Save WriteByte Const:65535 Rescale:0:15 Rescale:15:15 Rescale:15:1 Save WriteByte \
    Const:1 Rescale:0:15 Save WriteByte End||252 254|1 1 6
Line:9 Const:6 Save Const:65529 Mul:0 Save WriteByte Const:256 Save Const:128 Mul:0 Save WriteByte End||214|1 1 9
Line:1 Const:3 Save Const:5 Mul:3 Save WriteByte Const:65535 Save Const:1 Mul:15 Rescale:15:0 Save WriteByte \
    Const:3 Save Const:5 Mul:12 Save WriteByte End||120 255|1 1 1
Line:1 Const:65529 Save Const:3 Mul:-2 Save WriteByte Const:300 Save Const:300 Mul:-8 Save Const:200 Sub Save \
    WriteByte Const:32767 Save Const:32767 Mul:-1 Save WriteByte End||250 151|1 1 1
Line:2 Const:32767 Save Const:32767 Mul:-16 Save Const:128 Div:0 Save WriteByte Const:32768 Save Const:32767 \
    Mul:-30 Save WriteByte Const:32768 Save Const:32768 Mul:-30 Save WriteByte Const:32768 Save Const:32768 \
    Mul:-15 Save WriteByte End||127 255 1|1 1 2
Line:5 Const:65529 Save Const:2 Div:0 Save WriteByte Const:7 Save Const:65534 Div:0 Save WriteByte Const:7 Save \
    Const:2 Div:4 Save WriteByte Const:0 Save Const:0 Div:3 Save WriteByte End||253 253 56|2 1 5
Line:1 Const:1 Save Const:3 Div:16 Save WriteByte Const:1000 Save Const:3 Div:-4 Save WriteByte Const:64536 Save \
    Const:3 Div:-4 Save WriteByte Const:65535 Save Const:2 Div:16 Rescale:15:0 Save WriteByte Const:1 Save Const:2 \
    Div:16 Save WriteByte End||85 20 236 255|1 1 1
Line:1 Const:32767 Save Const:1 Div:-15 Save WriteByte Const:32768 Save Const:1 Div:-15 Save WriteByte Const:32768 \
    Save Const:65535 Div:-1 Rescale:14:0 Save WriteByte Const:32768 Save Const:65535 Div:0 Save WriteByte End||0 \
    255 1|1 1 1
Line:8 Const:9 Save Const:1 Save Const:0 Div:-7 Save WriteByte End|||2 1 8
Line:1 Const:12 Save Const:10 And Save WriteByte Const:12 Save Const:10 Or Save WriteByte Const:12 Save Const:10 Xor Save WriteByte End||8 14 6|
Line:1 Const:65535 Save Const:255 And Save WriteByte Const:65280 Save Const:15 Or Save WriteByte Const:65535 Save Const:240 Xor Save WriteByte End||255 15 15|
Line:1 Const:1000 Take:5:3 Save WriteByte Const:65535 Take:1:15 Save WriteByte Const:65535 Take:16:0 Save WriteByte End||29 1 255|
Line:1 Const:32768 Save Const:1 Less Save Const:32767 Sub Save WriteByte Const:5 Save Const:7 Less Save WriteByte End||0 254|
Line:1 Const:1 Save Const:2 Drop WriteByte Const:1 Save Const:2 Save Const:3 Drop Const:4 Save WriteByte WriteByte WriteByte End||1 4 2 1|
Line:8 Const:5 IndexLess:-3 Save WriteByte Const:65533 IndexLess:-3 Save WriteByte Const:32767 IndexLess:-1 Save WriteByte End||8 0|4 1 8
Line:8 Const:3 Save Home:0:20 Element:3:5 Save WriteByte Const:7 Save Home:0:20 Element:3:5 Save WriteByte Const:2 \
    Save Home:0:20 Element:3:5 Save WriteByte Const:5 Save Home:0:20 Element:-2:8 Save WriteByte Const:4 Save \
    Home:0:20 Element:0:5 Save WriteByte End||20 24 19 27 24|
Line:8 Const:982 Save Home:0:20 Element:3:5 Save WriteByte Const:983 Save Home:0:20 Element:3:5 Drop End||231|4 1 8
Line:8 Const:2 Save Home:0:0 Element:3:5 Drop End|||4 1 8
Line:8 Const:32767 Save Const:32768 Element:-1:0 Drop End|||4 1 8
Line:8 Const:32768 Save Const:32776 Element:1:0 Drop End|||4 1 8
Line:8 Const:32769 Save Const:32768 Element:0:0 Drop End|||4 1 8
Line:1 Const:77 Save Const:4 Save Home:0:20 Element:3:5 Store Home:0:21 Load Save WriteByte Const:21 Save Home:1:0 \
    Store Const:0 Save Home:1:0 Load Element:0:0 Load Save WriteByte End||77 77|
Line:8 Const:1 Save Const:2 Save Home:0:20 ElementOfTwo:1:2:10 Save WriteByte Const:8 Save Const:11 Save \
    Home:0:20 ElementOfTwo:1:2:10 Save WriteByte Const:3 Save Const:5 Save Home:0:20 ElementOfTwo:1:2:10 \
    Save WriteByte Const:0 Save Const:32767 Save Home:0:5 ElementOfTwo:1:0:32768 Save WriteByte End||20 99 43 4|
Line:8 Const:1 Save Const:2 Save Home:0:20 ElementInside:1:2:10:80 Save WriteByte Const:8 Save Const:11 Save \
    Home:0:20 ElementInside:1:2:10:80 Save WriteByte Const:3 Save Const:5 Save Home:0:20 ElementInside:1:2:10:80 \
    Save WriteByte Const:0 Save Const:32767 Save Home:0:5 ElementInside:1:0:32768:0 Save WriteByte End||20 99 43 4|
Line:8 Const:97 Save Const:9 Save Home:0:20 ElementOfTwo:0:0:10 Save WriteByte Const:98 Save Const:0 Save \
    Home:0:20 ElementOfTwo:0:0:10 Drop End||231|4 1 8
Line:8 Const:1 Save Const:1 Save Home:0:0 ElementOfTwo:1:2:10 Drop End|||4 1 8
Line:8 Const:32767 Save Const:32768 Save Home:0:5 ElementOfTwo:-1:0:1 Drop End|||4 1 8
Line:8 Const:20000 Save Const:32768 Save Const:58306 ElementOfTwo:0:0:2 Drop End|||4 1 8
Line:8 Const:65535 Save Const:32767 Save Const:32769 ElementOfTwo:0:-1:1 Drop End|||4 1 8
Line:8 Const:32767 Save Const:1 Save Const:32768 ElementOfTwo:0:0:1 Drop End|||4 1 8
Line:8 Const:2 Save Const:32768 Save Home:0:5 ElementOfTwo:1:0:32768 Drop End|||4 1 8
Line:8 Const:7 Save Home:0:20 Entry:5:3:50 Save WriteByte Const:0 Save Home:0:20 Entry:5:0:50 Save WriteByte \
    Const:2 Save Home:0:20 Entry:1:4:50 Save WriteByte Const:2 Save Home:0:20 Entry:1:0:50 Save WriteByte \
    Const:65535 Save Home:0:20 Entry:5:3:50 Save WriteByte Const:65535 Save Home:0:5 Entry:32768:32767:0 Save \
    WriteByte End||58 20 26 22 18 4|
Line:8 Const:195 Save Home:0:20 Entry:5:4:50 Save WriteByte Const:196 Save Home:0:20 Entry:5:0:50 Drop End||231|4 1 8
Line:8 Const:65535 Save Home:0:0 Entry:5:3:50 Drop End|||4 1 8
Line:8 Const:3300 Save Const:32768 Entry:10:0:0 Drop End|||4 1 8
Line:8 Const:32767 Save Const:32768 Entry:1:1:0 Drop End|||4 1 8
Line:8 Const:1 Save Const:32768 Entry:32768:0:0 Drop End|||4 1 8
Line:1 Const:9 Save Const:2 Save Home:0:20 Entry:3:1:9 Store Home:0:27 Load Save WriteByte Const:20 Save Home:1:0 \
    Store Const:2 Save Home:1:0 Load Entry:3:1:0 Load Save WriteByte End||9 9|
Line:8 Const:999 InArea Drop Const:0 InArea Save WriteByte Const:1000 InArea Drop End||0|4 1 8
Line:8 Const:65535 InArea Drop End|||4 1 8
Line:2 Const:5 InBounds:-3:5 Save WriteByte Const:65533 InBounds:-3:5 Save WriteByte Const:6 InBounds:-3:5 Save WriteByte End||5 253|7 1 2
Line:2 Const:32767 InBounds:-32768:32767 Save WriteByte Const:65532 InBounds:-3:5 Save WriteByte End||255|7 1 2
Line:1 Mark:0 ReadByte Save Home:0:0 Store Home:0:0 Load Save Const:0 JumpIf:<:1 Home:0:0 Load Save WriteByte Jump:0 Mark:1 End|65 66 200|65 66 200|
Line:1 ReadByte Save WriteByte ReadByte Save WriteByte ReadByte Save WriteByte End|7|7 255 255|
Line:1 Const:2 Save Home:1:1 Store Const:7 Save Home:1:2 Store Const:1 Save Home:0:0 Store Mark:0 Home:0:0 Load \
    Save Home:1:0 Exhausted:1 Home:0:0 Load Save WriteByte Home:0:0 Load Save Home:1:1 Load Add Save Home:0:0 \
    Store Jump:0 Mark:1 End||1 3 5 7|
Line:1 Const:65533 Save Home:1:1 Store Const:65534 Save Home:1:2 Store Const:5 Save Home:0:0 Store Mark:0 Home:0:0 \
    Load Save Home:1:0 Exhausted:1 Home:0:0 Load Save WriteByte Home:0:0 Load Save Home:1:1 Load Add Save Home:0:0 \
    Store Jump:0 Mark:1 End||5 2 255|
Line:1 Const:0 Save Home:1:1 Store Const:1 Save Home:1:2 Store Const:5 Save Home:1:0 Exhausted:0 Const:5 Save \
    WriteByte Mark:0 Const:65535 Save Home:1:1 Store Const:32767 Save Home:1:2 Store Const:32768 Save Home:1:0 \
    Exhausted:1 Const:6 Save WriteByte Mark:1 Const:1 Save Home:1:1 Store Const:32768 Save Home:1:2 Store \
    Const:32767 Save Home:1:0 Exhausted:2 Const:7 Save WriteByte Mark:2 End||5|
Line:1 Home:0:0 Save Home:1:0 Store Const:2 Save Home:1:1 Store Const:7 Save Home:1:2 Store Const:1 Save Home:1:0 \
    SetVariable Jump:2 Mark:0 Home:0:0 Load Save WriteByte Home:1:0 AddStep Mark:2 Home:1:0 PutVariable \
    Exhausted:1 Jump:0 Mark:1 End||1 3 5 7|
Line:1 Home:0:1 Save Home:1:0 Store Const:3 Save Home:1:1 Store Const:9 Save Const:5 Save Home:1:0 SetVariable \
    Home:1:0 AddStep WriteByte Const:6 Save Home:1:0 PutVariable Drop WriteByte WriteByte Home:0:1 Load Save \
    WriteByte End||9 8 6 8|
Line:1 Const:5 Save CallProc:0 Save WriteByte End Proc:0:1 Enter:6 BindFrame:0:4 FrameHome:4 Save FrameHome:0 \
    Store Const:65534 Save FrameHome:1 Store Const:1 Save FrameHome:2 Store Mark:1 FrameHome:0 PutVariable \
    Exhausted:2 FrameHome:4 Load Save WriteByte FrameHome:0 AddStep Jump:1 Mark:2 FrameHome:4 Load Return:1:1||5 3 \
    1 255|
Line:1 Home:0:0 Save Home:1:0 Store Const:2 Save Home:1:1 Store Const:7 Save Home:1:2 Store Const:1 Save Home:1:3 \
    Store Const:1 Save Home:0:0 Store Mark:0 Home:0:0 Load Save WriteByte NextStep:1:0:0 Home:0:0 Load Save \
    WriteByte End||1 3 5 7 9|
Line:1 Const:5 Save CallProc:0 Save WriteByte End Proc:0:1 Enter:6 BindFrame:0:4 FrameHome:4 Save FrameHome:0 \
    Store Const:65534 Save FrameHome:1 Store Const:1 Save FrameHome:2 Store Const:1 Save FrameHome:3 Store Mark:1 \
    FrameHome:4 Load Save WriteByte NextStepFrame:0:1 FrameHome:4 Load Return:1:1||5 3 1 255|
Line:1 CallProc:0 End Proc:0:0 Enter:6 FrameHome:5 Save FrameHome:1 Store Const:3 Save FrameHome:2 Store Const:8 \
    Save FrameHome:3 Store Const:1 Save FrameHome:4 Store Const:2 Save FrameHome:5 Store Mark:1 FrameHome:5 Load \
    Save WriteByte NextStepFrame:1:1 FrameHome:5 Load Save WriteByte Return:0:0||2 5 8 11|
Line:1 Home:0:0 Save Home:1:0 Store Const:2 Save Home:1:1 Store Const:7 Save Home:1:2 Store Const:2 Save Home:1:3 \
    Store Const:1 Save Home:0:0 Store Mark:0 Home:0:0 Load Save WriteByte NextStep:1:0:0 Home:0:0 Load Save \
    WriteByte End||1 1|
Line:1 Home:1:0 Save Home:1:0 Store Const:1 Save Home:1:1 Store Const:2 Save Home:1:2 Store Const:1 Save Home:1:3 \
    Store Mark:0 Home:1:1 Load Save WriteByte NextStep:1:0:0 Home:1:1 Load Save WriteByte End||1 1 2 4|
Line:3 Home:1:0 Save Home:1:0 Store Const:990 Save Home:1:1 Store Const:0 Save Home:1:2 Store Const:1 Save \
    Home:1:3 Store Mark:0 Const:5 Save WriteByte NextStep:1:0:0 Const:6 Save WriteByte End||5|4 1 3
Line:8 Const:1000 Save Home:1:0 Store Const:1 Save Home:1:1 Store Const:9 Save Home:1:2 Store Const:1 Save \
    Home:1:3 Store Mark:0 Const:9 Save WriteByte NextStep:1:0:0 Const:6 Save WriteByte End||9|4 1 8
Line:9 Home:0:0 Save Home:1:0 Store Const:1 Save Home:1:1 Store Const:32767 Save Home:1:2 Store Const:1 Save \
    Home:1:3 Store Const:32766 Save Home:0:0 Store Mark:0 Home:0:0 Load Save Const:32760 Sub Save WriteByte \
    NextStep:1:0:0 Const:5 Save WriteByte End||6 7|1 1 9
Line:8 Const:999 Save Home:1:0 Store Const:7 Save Home:1:0 SetVariable Home:1:0 PutVariable Drop WriteByte \
    Const:1000 Save Home:1:0 Store Const:5 Save Home:1:0 SetVariable End||7|4 1 8
Line:8 Const:65535 Save Home:1:0 Store Home:1:0 PutVariable Drop End|||4 1 8
Line:8 Const:32767 Save Home:1:0 Store Const:32767 Save Home:1:1 Store Home:1:0 AddStep End|||4 1 8
Line:9 Home:0:0 Save Home:1:0 Store Const:65535 Save Home:1:1 Store Const:3 Save Home:1:0 SetVariable Home:1:0 \
    AddStep Home:0:0 Load Save WriteByte Const:32768 Save Home:1:0 SetVariable Home:1:0 AddStep End||2|1 1 9
Line:1 Home:0:6 Save Home:1:0 Store Const:41 Save Home:0:6 Store Const:8 Save Home:1:0 PutVariable Save WriteByte WriteByte WriteByte End||10 41 8|
Line:1 Home:1:1 Save Home:1:0 Store Const:3 Save Home:1:1 Store Home:1:0 AddStep Home:1:1 Load Save WriteByte \
    Home:1:0 Save Home:1:0 Store Home:1:0 AddStep Home:1:0 Load Save WriteByte End||6 16|
Line:3 Const:1000 Save Home:1:0 Store Const:1 Save Home:1:1 Store Home:1:0 AddStep Const:9 Save WriteByte End|||4 1 3
Line:1 Const:5 Save WriteByte End Segment Line:6 Const:1000 Save Home:1:0 Store Home:1:0 PutVariable Drop WriteByte End||5|4 2 6
Line:7 Const:65535 Save Home:1:0 Store Const:5 Save Home:1:0 SetVariable Const:9 Save WriteByte End|||4 1 7
Line:8 Home:0:0 Save Home:1:0 Store Const:1 Save Home:1:1 Store Const:32766 Save Home:1:0 SetVariable Home:1:0 \
    AddStep Home:0:0 Load Save Const:32760 Sub Save WriteByte Home:1:0 AddStep Const:9 Save WriteByte End||7|1 1 8
Line:1 Const:2 LoopWay:0:1:2 Const:9 Save WriteByte Mark:0 Const:1 Save WriteByte Mark:1 Const:2 Save WriteByte Mark:2 Const:3 Save WriteByte End||2 3|
Line:1 Const:4 LoopWay:0:1:2 Const:0 LoopWay:0:1:2 Const:65535 LoopWay:0:1:2 Const:9 Save WriteByte Mark:0 Const:1 \
    Save WriteByte Mark:1 Const:2 Save WriteByte Mark:2 Const:3 Save WriteByte End||9 1 2 3|
Line:1 Const:2 SwitchWay:0:1:2 Mark:0 Const:1 Save WriteByte Mark:1 Const:2 Save WriteByte Mark:2 Const:3 Save WriteByte End||2 3|
Line:4 Const:1 Save WriteByte Const:4 SwitchWay:0:1:2 Mark:0 Const:1 Save WriteByte Mark:1 Const:2 Save WriteByte Mark:2 Const:3 Save WriteByte End||1|3 1 4
Line:4 Const:0 SwitchWay:0:0 Mark:0 Const:1 Save WriteByte End|||3 1 4
Line:4 Const:65535 SwitchWay:0 Mark:0 Const:1 Save WriteByte End|||3 1 4
Line:1 Const:1 SwitchWay:0 Const:9 Save WriteByte Mark:0 Const:1 Save WriteByte End||1|
Line:1 Const:2 Save CallProc:0 Const:9 Save WriteByte End Proc:2:1 Enter:1 BindFrame:0:0 FrameHome:0 Load \
    SwitchWay:0:1 Mark:0 Const:1 Save WriteByte Mark:1 Const:2 Save WriteByte FrameHome:0 Load Save WriteByte \
    Return:1:0||2 2 9|
Line:1 Const:1 Save WriteByte End Segment Line:4 Const:2 Save WriteByte Const:1 Save Const:0 Div:0 Save WriteByte End||1 2|2 2 4
Line:3 Const:7 Save Const:1 Save WriteByte End Segment Const:1 Save Const:0 Div:0 Save WriteByte End||1|2 2 0
Line:1 Const:72 Save CallProc:0 Jump:1 Const:73 Save WriteByte Mark:1 End Proc:0:1 Enter:1 BindFrame:0:0 FrameHome:0 Load Save WriteByte Return:1:0||72|
Line:1 Const:5 Save Const:9 Save CallProc:0 End Proc:0:2 Enter:0 Bind:0:0:7 Bind:1:0:8 Home:0:8 Load Save Home:0:7 Load Sub Save WriteByte Return:2:0||252|
Line:1 Const:100 Save Const:5 Save CallProc:0 Add Save WriteByte Const:7 Save CallProc:0 Save WriteByte End \
    Proc:0:1 Enter:0 Bind:0:0:0 Home:0:0 Load Save Const:1 Add Return:1:1||106 8|
Line:1 Const:5 Save CallProc:0 Save WriteByte Line:2 Const:8 Save CallProc:0 Save WriteByte End Proc:0:1 Enter:1 \
    BindFrame:0:0 Line:5 FrameHome:0 Load Save Const:2 JumpIf:>=:1 Const:1 Return:1:1 Mark:1 FrameHome:0 Load Save \
    FrameHome:0 Load Save Const:1 Sub Save CallProc:0 Mul:0 Return:1:1||120|1 1 5
Line:1 Const:4 Save CallProc:0 Save WriteByte End Proc:0:1 Enter:3 BindFrame:0:2 FrameHome:2 Load Save FrameHome:1 \
    Store FrameHome:1 Load Save Const:0 JumpIf:=:1 FrameHome:1 Load Save Const:1 Sub Save CallProc:0 Save \
    FrameHome:2 Load Add Return:1:1 Mark:1 Const:0 Return:1:1||10|
Limits:1000:100:3 Line:1 Const:65 Save WriteByte Line:2 CallProc:0 End Proc:0:0 Enter:0 Line:9 CallProc:0 Return:0:0||65|6 1 9
Limits:1000:100:3 Line:2 CallProc:0 Const:1 Save WriteByte Line:4 Const:3 Save CallCommon:0 End Names:0:1:Proc:0 \
    Proc:0:0 Enter:0 CallProc:1 Return:0:0 Proc:1:0 Enter:0 CallProc:2 Return:0:0 Proc:2:0 Enter:0 Return:0:0 \
    Segment End Names:0:1:Proc:0 Proc:0:1 Enter:1 BindFrame:0:0 Line:6 FrameHome:0 Load Save Const:1 Sub Save \
    CallCommon:0 Return:1:0||1|6 2 6
Line:2 CallProc:0 End Proc:0:0 Enter:40 Line:9 CallProc:0 Return:0:0|||5 1 9
Line:2 CallProc:1 Const:1 Save WriteByte CallProc:0 End Proc:0:0 Enter:101 Return:0:0 Proc:1:0 Enter:100 Return:0:0||1|5 1 2
Limits:1000:100:1 Line:2 CallProc:0 End Proc:0:0 Enter:0 Line:3 CallProc:1 Return:0:0 Proc:1:0 Enter:200 Return:0:0|||6 1 3
Line:1 CallProc:0 Const:1 Save WriteByte Mark:0 Const:2 Save WriteByte End Proc:1:0 Enter:0 GoMain:0 Return:0:0||2|
Line:5 Const:3 Save CallProc:0 WriteByte Mark:0 Const:1 Save Const:0 Div:0 Save WriteByte End Proc:1:0 Enter:0 Line:8 Const:4 Save GoMain:0 Return:0:0|||2 1 5
Line:1 CallProc:0 Const:1 Save WriteByte Mark:0 Const:2 Save WriteByte End Proc:1:0 Enter:0 GoCommon:0 Return:0:0 Label:0 Names:0:0:Label:0||2|
Line:3 GoCommon:0 Const:1 Save WriteByte End Names:0:1:Label:0 Segment Const:5 Save WriteByte Mark:0 Line:7 \
    Const:6 Save WriteByte Const:1 Save Const:0 Div:0 Save WriteByte End Label:0||6|2 2 7
Line:1 Mark:0 Const:1 Save WriteByte End Label:0 Segment Line:2 Home:0:0 Load Save Const:2 JumpIf:=:0 Home:0:0 \
    Load Save Const:1 Add Save Home:0:0 Store CallProc:0 Mark:0 Const:9 Save WriteByte End Names:3:0:Label:0 \
    Proc:1:0 Enter:0 GoCommon:3 Return:0:0||1 1 1 9|
Line:1 LabelOut:0 CallProc:0 Const:1 Save WriteByte Mark:0 Const:2 Save WriteByte End Proc:1:1 Enter:0 GoSpecial:0 Return:2:0 Label:0||2|
Line:1 LabelCommon:1 CallProc:0 Const:1 Save WriteByte End Proc:0:1 Enter:0 Line:3 SpecialOut:0 CallProc:1 \
    Return:2:0 Proc:1:1 Enter:0 GoSpecial:0 Return:2:0 Names:1:1:Label:0 Segment Const:3 Save WriteByte Mark:0 \
    Const:4 Save WriteByte LabelCommon:0 CallProc:0 End Label:0 Mark:1 Line:6 Const:5 Save WriteByte Const:1 Save \
    Const:0 Div:0 Save WriteByte End Label:1 Names:0:1:Label:1 Proc:2:1 Enter:0 Line:9 GoSpecial:0 Return:2:0||4 \
    5|2 2 6
Line:1 Const:7 Save LabelOut:0 CallProc:0 Const:1 Save WriteByte Mark:0 Const:2 Save WriteByte End Proc:1:2 \
    Enter:1 BindFrame:2:0 FrameHome:0 Load Save WriteByte FrameHome:0 Load Save Const:0 JumpIf:=:2 FrameHome:0 \
    Load Save Const:1 Sub Save SpecialOut:0 CallProc:0 Const:9 Save WriteByte Mark:2 GoSpecial:0 Return:3:0 \
    Label:0||7 6 5 4 3 2 1 0 2|
Line:1 Const:5 Save LabelOut:0 CallProc:0 Const:1 Save WriteByte Mark:0 Const:2 Save WriteByte End Proc:1:2 \
    Enter:1 BindFrame:2:0 Line:2 FrameHome:0 Load Save Const:0 JumpIf:=:2 FrameHome:0 Load Save Const:3 JumpIf:=:4 \
    FrameHome:0 Load Save Const:1 Sub Save SpecialOut:0 CallProc:0 Jump:5 Mark:4 FrameHome:0 Load Save Const:1 Sub \
    Save LabelOut:1 CallProc:0 Mark:5 FrameHome:0 Load Save WriteByte Return:3:0 Mark:2 GoSpecial:0 Mark:3 \
    Const:100 Save WriteByte FrameHome:0 Load Save WriteByte Return:3:0 Label:0 LabelIn:3||100 3 4 5 1 2|
Line:1 Const:2 GoSwitch:0 Mark:0 Const:1 Save WriteByte Mark:1 Const:2 Save WriteByte End Label:0 Label:1 Switch:0:1||2|
Line:4 Const:3 GoSwitch:0 Mark:0 Const:1 Save WriteByte Mark:1 Const:2 Save WriteByte End Label:0 Label:1 Switch:0:1|||3 1 4
Line:4 Const:0 GoSwitch:0 Mark:0 Const:1 Save WriteByte End Label:0 Switch:0|||3 1 4
Line:4 Const:65535 GoSwitch:0 Mark:0 Const:1 Save WriteByte End Label:0 Switch:0|||3 1 4
Line:1 Const:2 Save CallProc:0 Const:9 Save WriteByte End Proc:2:1 Enter:1 BindFrame:0:0 FrameHome:0 Load \
    GoSwitch:0 Mark:0 Const:1 Save WriteByte Mark:1 Const:2 Save WriteByte FrameHome:0 Load Save WriteByte \
    Return:1:0 LabelIn:0 LabelIn:1 Switch:0:1||2 2 9|
Line:1 SwitchOut:0 CallProc:0 Const:9 Save WriteByte Mark:0 Const:1 Save WriteByte Mark:1 Const:2 Save WriteByte \
    End Proc:2:1 Enter:0 Const:2 GoSwitchSpecial:0 Return:2:0 Label:0 Label:1 Switch:0:1||2|
Line:1 Const:8 Save SwitchOut:0 CallProc:0 Const:9 Save WriteByte Mark:0 Const:1 Save WriteByte End Proc:2:2 \
    Enter:0 Line:6 Const:3 GoSwitchSpecial:0 Return:3:0 Label:0 Switch:0:0|||3 1 6
Line:1 Const:1 GoSwitchCommon:0 Const:9 Save WriteByte End Names:0:1:Switch:0 Names:2:1:Label:1 Segment Line:2 \
    Mark:0 Const:1 Save WriteByte Line:5 Const:3 GoSwitchCommon:1 Mark:1 Const:7 Save WriteByte End Label:0 \
    Label:1 Names:1:1:Switch:1 Names:4:1:Label:1 Switch:0 Switch:0:0:c4||1 7|
Line:1 Const:4 Save WriteByte End Label:0 Mark:0 Switch:0 Names:0:0:Switch:0 Segment Line:7 Const:2 \
    GoSwitchCommon:3 Const:9 Save WriteByte End Names:3:0:Switch:0||4|3 2 7
Line:1 SwitchCommon:0 CallProc:0 Const:9 Save WriteByte End Names:0:1:Switch:0 Proc:0:1 Enter:0 Line:2 \
    SpecialOut:0 CallProc:1 Return:2:0 Proc:1:1 Enter:0 Const:2 GoSwitchSpecial:0 Return:2:0 Segment Mark:0 \
    Const:3 Save WriteByte Mark:1 Const:4 Save WriteByte SwitchCommon:0 CallProc:0 End Names:0:1:Switch:1 Label:0 \
    Label:1 Switch:0:1 Switch:2 Mark:3 Const:5 Save WriteByte End Label:3 Proc:2:1 Enter:0 Const:1 \
    GoSwitchSpecial:0 Return:2:0||4 5|
Line:1 ProcOut:1 CallProc:0 Const:9 Save WriteByte End Proc:0:1 Enter:0 Const:33 Save CallSpecial:0 Return:2:0 \
    Proc:1:1 Enter:0 Bind:0:0:0 Home:0:0 Load Save WriteByte Return:1:0||33 9|
Line:1 Const:50 Save ProcCommon:0 CallProc:0 Add Save WriteByte End Names:0:1:Proc:0 Proc:0:1 Enter:0 Const:6 Save \
    Const:7 Save CallSpecial:0 Mul:0 Return:2:1 Segment Line:9 Const:3 Save ProcCommon:0 CallCommon:1 Save \
    WriteByte End Names:0:1:Proc:0 Names:1:0:Proc:0 Proc:0:1 Enter:2 BindFrame:0:1 FrameHome:1 Load Save Const:1 \
    Add Return:1:1||98 48|
Line:1 Const:4 Save CallCommon:0 Save WriteByte Line:3 Const:0 Save CallCommon:0 Save WriteByte End \
    Names:0:1:Proc:0 Segment End Proc:0:1 Enter:0 Bind:0:0:0 Line:7 Const:100 Save Home:0:0 Load Div:0 \
    Return:1:1||25|2 2 7
Line:1 Const:2 Save CallCommon:5 Line:6 Save Const:32767 Add Save WriteByte End Names:5:0:Proc:0 Proc:0:1 Enter:0 \
    Bind:0:1:3 Line:7 Home:1:3 Load Return:1:1|||1 1 6
Line:1 ProcOut:1 CallProc:0 Save WriteByte End Proc:0:1 Enter:0 SpecialOut:0 ProcOut:2 CallSpecial:0 Return:2:1 Proc:1:2 Enter:0 SpecialOut:2 CallSpecial:0 Return:4:1 Proc:2:1 Enter:0 Const:44 Return:2:1||44|";

// The orders, by the names that the rows give them.
const ORDERS: &str =
    "Save Const Home FrameHome Load Store LoadPart StorePart Rescale Add Sub Neg Mul Div And Or Xor Take IndexLess Element ElementOfTwo ElementInside Entry InArea InBounds Less Drop Jump JumpIf Exhausted SetVariable AddStep PutVariable NextStep NextStepFrame LoopWay SwitchWay Mark LabelOut LabelCommon SwitchOut SwitchCommon ProcOut ProcCommon SpecialOut GoSpecial GoSwitch GoSwitchCommon GoSwitchSpecial GoMain GoCommon CallProc CallCommon CallSpecial Enter Bind BindFrame Return ReadByte WriteByte Start End";

// A row whose run comes from so many calls to a label of the segment's body, and writes a byte on either side of the jump. The control stack has
// no room for more of such calls.
const JUMPS: &[&str] = &[
    "Limits:1000:100:4000 Line:1 Const:3900 Save Home:0:0 Store CallProc:0 Const:1 Save WriteByte Mark:0 Const:2 \
        Save WriteByte End Proc:1:0 Enter:0 Home:0:0 Load Save Const:1 Sub Save Home:0:0 Store Home:0:0 Load Save \
        Const:0 JumpIf:=:2 CallProc:0 Mark:2 Const:65 Save WriteByte GoMain:0 Return:0:0",
    "Limits:1000:100:4000 Line:1 Const:3100 Save Home:0:0 Store LabelOut:0 CallProc:0 Const:1 Save WriteByte \
        Mark:0 Const:2 Save WriteByte End Proc:1:1 Enter:0 Home:0:0 Load Save Const:1 Sub Save Home:0:0 Store \
        Home:0:0 Load Save Const:0 JumpIf:=:2 SpecialOut:0 CallProc:0 Mark:2 Const:65 Save WriteByte GoSpecial:0 \
        Return:2:0 Label:0",
];

/// The instructions of a run on the processor, and the orders of an interpreted one.
pub const STEPS: u64 = 400_000;

pub const ORDER_STEPS: u32 = 200_000;

// Whether the run of a program, from a data area of zeros, shows what is told.
fn is_run(
    alloc: Global,
    program: &Program,
    input: &[u8],
    told: Told<'_>,
) -> Result<bool, AllocError> {
    let memory = vec![in alloc; 0_i16; program.limits.area as usize]?;
    let mut machine = Machine::new(alloc, program, memory, input);
    let end = machine.run(ORDER_STEPS);
    Ok(is_told_of_orders(machine.output(), end, told))
}

// Whether that of orders does.
fn is_interpreted(
    alloc: Global,
    text: &str,
    input: &[u8],
    told: Told<'_>,
) -> Result<bool, AllocError> {
    match program(alloc, text) {
        Some(program) => is_run(alloc, &program, input, told),
        None => Ok(false),
    }
}

fn run_program(alloc: Global, program: &Program, input: &[u8]) -> Option<Run> {
    let code = image_of(alloc, program)?;
    Run::new(alloc, &code, &[], input)
}

fn run_of(alloc: Global, text: &str, input: &[u8]) -> Option<Run> {
    let program = program(alloc, text)?;
    run_program(alloc, &program, input)
}

// Whether that of their code does.
fn is_processed(alloc: Global, text: &str, input: &[u8], told: Told<'_>) -> bool {
    match run_of(alloc, text, input) {
        Some(mut run) => {
            let end = run.go_on(STEPS);
            is_told_of_code(run.output(), end, told)
        }
        None => false,
    }
}

// Whether both do.
fn is_row(alloc: Global, text: &str, input: &str, told: Told<'_>) -> Result<bool, AllocError> {
    let input = bytes_of(alloc, input)?;
    let is_interpreted = is_interpreted(alloc, text, &input, told)?;
    Ok(is_interpreted && is_processed(alloc, text, &input, told))
}

// Orders and their code show what the rows say.
#[test]
fn programs(rt: HostRuntime) -> Result<(), Fail> {
    let alloc = rt.alloc();
    let mut count = 0_u32;
    for row in PROGRAMS.lines() {
        if let Some((text, input, bytes, end)) = in_four(row, '|') {
            assert!(rt; is_row(alloc, text, input, Told { bytes, end })?, "{text}");
            count = count.wrapping_add(1);
        }
    }
    assert_eq!(rt; count, 134);
    Ok(())
}

// How often a name leads a word of the rows.
fn uses(name: &str) -> u32 {
    let mut count = 0_u32;
    for row in PROGRAMS.lines() {
        for word in row.split('|').next().unwrap_or("").split(' ') {
            if word.split(':').next().unwrap_or("") == name {
                count = count.wrapping_add(1);
            }
        }
    }
    count
}

// How many rows end with a stop of this kind.
fn stops(kind: char) -> u32 {
    let mut count = 0_u32;
    for row in PROGRAMS.lines() {
        if row.rsplit('|').next().unwrap_or("").starts_with(kind) {
            count = count.wrapping_add(1);
        }
    }
    count
}

// Each order stands in the rows twice, and each stop.
#[test]
fn coverage(rt: HostRuntime) -> Result<(), Fail> {
    for name in ORDERS.split(' ') {
        assert!(rt; uses(name) >= 2, "{name}");
    }
    for kind in ['1', '2', '3', '4', '5', '6', '7'] {
        assert!(rt; stops(kind) >= 1, "{kind}");
    }
    Ok(())
}

// Whether one byte is written within 112 instructions, and the other within the next 112.
fn is_soon_out(alloc: Global, text: &str) -> bool {
    let Some(mut run) = run_of(alloc, text, b"") else {
        return false;
    };
    run.go_until(1, 112);
    let is_begun = !run.output().is_empty();
    run.go_on(112);
    is_begun && run.output() == b"A\x02".as_slice()
}

// A jump out of thousands of calls takes no more than the 224 instructions that a step of the source may: one byte is written within 112 of
// them, and the other within the next 112.
#[test]
fn jumps_out(rt: HostRuntime) -> Result<(), Fail> {
    let alloc = rt.alloc();
    let told = Told {
        bytes: "65 2",
        end: "",
    };
    for &text in JUMPS {
        assert!(rt; is_interpreted(alloc, text, b"", told)?, "{text}");
        assert!(rt; is_soon_out(alloc, text), "{text}");
    }
    Ok(())
}
