//! The run-time library.
ghost use Rattle.std.specs.Prelude.{◌≡◌};
ghost use Rattle.cw_tmpl.specs.Library.{library_bytes, library_entry};

/// The entry that makes the base record of a segment.
pub const START: u16 = 18;

/// The entries that stop, at the line behind the call.
pub const OVERFLOW: u16 = 19;

pub const ZERO_DIVISOR: u16 = 20;

pub const ADDRESS: u16 = 21;

pub const BOUNDS: u16 = 22;

/// The entry that stops with SwitchRange, at the line in DX.
pub const SWITCH: u16 = 23;

/// The entry that reads a byte.
pub const READ: u16 = 25;

/// The entries of products and quotients.
pub const PRODUCT: u16 = 26;

pub const QUOTIENT_DOWN: u16 = 27;

pub const QUOTIENT_UP: u16 = 28;

/// The entries that set, step and put the control variable of a loop.
pub const SET_VARIABLE: u16 = 29;

pub const ADD_STEP: u16 = 30;

pub const PUT_VARIABLE: u16 = 31;

/// The entry that tests whether a loop is exhausted.
pub const EXHAUSTED: u16 = 32;

/// The entry that begins an activation.
pub const ENTER: u16 = 33;

/// The entry that does what follows the body of a loop of one element with a step, whose line stands 5 bytes behind the call.
pub const NEXT_STEP: u16 = 34;

/// The entry that stops where code of a segment can begin no activation, at the line in DX: with Depth where CX is 0, and else with Frames.
pub const ENTER_STOP: u16 = 35;

const CODE: [u8; 438] = [
    0xE9, 0xB3, 0x01, // JMP past the library
    0xF4, // end: HLT
    0xCC, // earlier entries: no instruction
    0x5E, // start: POP SI
    0xBD, 0x00, 0x00, // MOV BP,0
    0x8B, 0xE5, // MOV SP,BP
    0x2E, 0x8B, 0x3C, // MOV DI,CS:[SI]
    0x2E, 0xFF, 0x74, 0x06, // PUSH WORD CS:[SI+6]
    0x2E, 0xFF, 0x74, 0x04, // PUSH WORD CS:[SI+4]
    0x2E, 0xFF, 0x74, 0x02, // PUSH WORD CS:[SI+2]
    0x2E, 0xFF, 0x74, 0x02, // PUSH WORD CS:[SI+2]
    0x83, 0xC6, 0x08, // ADD SI,8
    0xFF, 0xE6, // JMP SI
    0xB0, 0x01, // overflow: MOV AL,1
    0xEB, 0x0C, // JMP line
    0xB0, 0x02, // zero divisor: MOV AL,2
    0xEB, 0x08, // JMP line
    0xB0, 0x04, // address: MOV AL,4
    0xEB, 0x04, // JMP line
    0xB0, 0x07, // bounds: MOV AL,7
    0xEB, 0x00, // JMP line
    0x5B, // line: POP BX
    0x2E, 0x8B, 0x17, // MOV DX,CS:[BX]
    0xE6, 0x13, // tell: OUT 13h,AL
    0x8B, 0x46, 0xFE, // MOV AX,[BP-2]
    0xE6, 0x14, // OUT 14h,AL
    0x8B, 0xC2, // MOV AX,DX
    0xE6, 0x15, // OUT 15h,AL
    0x8A, 0xC4, // MOV AL,AH
    0xE6, 0x16, // OUT 16h,AL
    0xF4, // HLT
    0xB0, 0x04, // bad address: MOV AL,4
    0xEB, 0xEC, // JMP tell
    0xB0, 0x01, // bad sum: MOV AL,1
    0xEB, 0xE8, // JMP tell
    0xB0, 0x03, // switch: MOV AL,3
    0xEB, 0xE4, // JMP tell
    0xB0, 0x06, // depth: MOV AL,6
    0xEB, 0xE0, // JMP tell
    0xB0, 0x05, // frames: MOV AL,5
    0xEB, 0xDC, // JMP tell
    0x5E, // enter: POP SI
    0x8B, 0x46, 0xFC, // MOV AX,[BP-4]
    0x2D, 0x01, 0x00, // SUB AX,1
    0x72, 0xEF, // JB depth
    0x8B, 0x4E, 0xF8, // MOV CX,[BP-8]
    0x2E, 0x2B, 0x0C, // SUB CX,CS:[SI]
    0x72, 0xEB, // JB frames
    0x8B, 0xDF, // MOV BX,DI
    0x2B, 0x5E, 0xF8, // SUB BX,[BP-8]
    0xD1, 0xE3, // SHL BX,1
    0x55, // PUSH BP
    0x8B, 0xEC, // MOV BP,SP
    0x2E, 0xFF, 0x74, 0x02, // PUSH WORD CS:[SI+2]
    0x50, // PUSH AX
    0x53, // PUSH BX
    0x51, // PUSH CX
    0x83, 0xC6, 0x04, // ADD SI,4
    0xFF, 0xE6, // JMP SI
    0xE4, 0x11, // read: IN AL,11h
    0x84, 0xC0, // TEST AL,AL
    0x75, 0x05, // JNZ nothing left
    0xE4, 0x10, // IN AL,10h
    0xB4, 0x00, // MOV AH,0
    0xC3, // RET
    0xB8, 0xFF, 0xFF, // nothing left: MOV AX,65535
    0xC3, // RET
    0x5E, // set variable: POP SI
    0x8B, 0xD8, // MOV BX,AX
    0xD1, 0xE3, // SHL BX,1
    0x8B, 0x1F, // MOV BX,[BX]
    0x3B, 0xDF, // CMP BX,DI
    0x73, 0xAB, // JNB bad address
    0xD1, 0xE3, // SHL BX,1
    0x58, // POP AX
    0x89, 0x07, // MOV [BX],AX
    0xFF, 0xE6, // JMP SI
    0x8B, 0xD8, // add step: MOV BX,AX
    0xD1, 0xE3, // SHL BX,1
    0x8B, 0x37, // MOV SI,[BX]
    0x3B, 0xF7, // CMP SI,DI
    0x73, 0x9A, // JNB bad address
    0xD1, 0xE6, // SHL SI,1
    0x8B, 0x04, // MOV AX,[SI]
    0x03, 0x47, 0x02, // ADD AX,[BX+2]
    0x70, 0x95, // JO bad sum
    0x89, 0x04, // MOV [SI],AX
    0xC3, // RET
    0x5E, // put variable: POP SI
    0x8B, 0xD8, // MOV BX,AX
    0xD1, 0xE3, // SHL BX,1
    0x8B, 0x1F, // MOV BX,[BX]
    0x3B, 0xDF, // CMP BX,DI
    0x73, 0x83, // JNB bad address
    0xD1, 0xE3, // SHL BX,1
    0x8B, 0x0F, // MOV CX,[BX]
    0x51, // PUSH CX
    0xFF, 0xE6, // JMP SI
    0x5E, // exhausted: POP SI
    0x8B, 0xD8, // MOV BX,AX
    0xD1, 0xE3, // SHL BX,1
    0x59, // POP CX
    0x8B, 0x47, 0x02, // MOV AX,[BX+2]
    0x8B, 0x5F, 0x04, // MOV BX,[BX+4]
    0x99, // CWD
    0x3D, 0x00, 0x00, // CMP AX,0
    0x74, 0x0A, // JZ not past
    0x33, 0xCA, // XOR CX,DX
    0x33, 0xDA, // XOR BX,DX
    0x3B, 0xCB, // CMP CX,BX
    0x7E, 0x02, // JLE not past
    0xFF, 0xE6, // JMP SI
    0x83, 0xC6, 0x03, // not past: ADD SI,3
    0xFF, 0xE6, // JMP SI
    0xF7, 0xEB, // product: IMUL BX
    0xD3, 0xE8, // SHR AX,CL
    0x8B, 0xDA, // MOV BX,DX
    0xD3, 0xFA, // SAR DX,CL
    0xF7, 0xD9, // NEG CX
    0x83, 0xC1, 0x10, // ADD CX,16
    0xD3, 0xE3, // SHL BX,CL
    0x03, 0xC3, // ADD AX,BX
    0x8B, 0xDA, // MOV BX,DX
    0x99, // CWD
    0x3B, 0xD3, // CMP DX,BX
    0x75, 0x01, // JNZ too large
    0xC3, // RET
    0xB0, 0x80, // too large: MOV AL,80h
    0x02, 0xC0, // ADD AL,AL
    0xC3, // RET
    0x99, // quotient down: CWD
    0x8B, 0xF2, // MOV SI,DX
    0x33, 0xC2, // XOR AX,DX
    0x2B, 0xC2, // SUB AX,DX
    0x93, // XCHG AX,BX
    0x99, // CWD
    0x33, 0xF2, // XOR SI,DX
    0x33, 0xC2, // XOR AX,DX
    0x2B, 0xC2, // SUB AX,DX
    0x93, // XCHG AX,BX
    0xD3, 0xE8, // SHR AX,CL
    0xBA, 0x00, 0x00, // MOV DX,0
    0xEB, 0x1B, // JMP quotient end
    0x99, // quotient up: CWD
    0x8B, 0xF2, // MOV SI,DX
    0x33, 0xC2, // XOR AX,DX
    0x2B, 0xC2, // SUB AX,DX
    0x93, // XCHG AX,BX
    0x99, // CWD
    0x33, 0xF2, // XOR SI,DX
    0x33, 0xC2, // XOR AX,DX
    0x2B, 0xC2, // SUB AX,DX
    0x93, // XCHG AX,BX
    0x8B, 0xD0, // MOV DX,AX
    0xD3, 0xE0, // SHL AX,CL
    0xF7, 0xD9, // NEG CX
    0x83, 0xC1, 0x10, // ADD CX,16
    0xD3, 0xEA, // SHR DX,CL
    0x3B, 0xD3, // quotient end: CMP DX,BX
    0x73, 0xC5, // JNB too large
    0xF7, 0xF3, // DIV BX
    0xBA, 0x00, 0x80, // MOV DX,32768
    0x2B, 0xD6, // SUB DX,SI
    0x3B, 0xC2, // CMP AX,DX
    0x73, 0xBA, // JNB too large
    0x33, 0xC6, // XOR AX,SI
    0x2B, 0xC6, // SUB AX,SI
    0x0B, 0xC0, // OR AX,AX
    0xC3, // RET
    0x83, 0x7F, 0x06, 0x01, // next step: CMP WORD [BX+6],1
    0x75, 0x1D, // JNZ left
    0x8B, 0x37, // MOV SI,[BX]
    0x3B, 0xF7, // CMP SI,DI
    0x73, 0x42, // JNB far address
    0xD1, 0xE6, // SHL SI,1
    0x3B, 0xF3, // CMP SI,BX
    0x74, 0x16, // JZ any step
    0x8B, 0x47, 0x02, // MOV AX,[BX+2]
    0x0B, 0xC0, // OR AX,AX
    0x7E, 0x0F, // JLE any step
    0x03, 0x04, // ADD AX,[SI]
    0x70, 0x35, // JO far sum
    0x89, 0x04, // MOV [SI],AX
    0x3B, 0x47, 0x04, // CMP AX,[BX+4]
    0xC3, // RET
    0xB0, 0x01, // left: MOV AL,1
    0x0A, 0xC0, // OR AL,AL
    0xC3, // RET
    0x8B, 0x04, // any step: MOV AX,[SI]
    0x03, 0x47, 0x02, // ADD AX,[BX+2]
    0x70, 0x23, // JO far sum
    0x89, 0x04, // MOV [SI],AX
    0x8B, 0x37, // turn: MOV SI,[BX]
    0x3B, 0xF7, // CMP SI,DI
    0x73, 0x17, // JNB far address
    0xD1, 0xE6, // SHL SI,1
    0x8B, 0x0C, // MOV CX,[SI]
    0x8B, 0x47, 0x02, // MOV AX,[BX+2]
    0x0B, 0xC0, // OR AX,AX
    0x78, 0x06, // JS down
    0x74, 0x03, // JZ turned
    0x3B, 0x4F, 0x04, // CMP CX,[BX+4]
    0xC3, // turned: RET
    0x8B, 0x47, 0x04, // down: MOV AX,[BX+4]
    0x3B, 0xC1, // CMP AX,CX
    0xC3, // RET
    0xB0, 0x04, // far address: MOV AL,4
    0xEB, 0x02, // JMP far line
    0xB0, 0x01, // far sum: MOV AL,1
    0x5B, // far line: POP BX
    0x2E, 0x8B, 0x57, 0x05, // MOV DX,CS:[BX+5]
    0xE9, 0x89, 0xFE, // JMP tell
    0xE3, 0x03, // enter stop: JCXZ no call
    0xE9, 0xA4, 0xFE, // JMP frames
    0xE9, 0x9D, 0xFE, // no call: JMP depth
];

const ENTRIES: [u16; 36] = [
    3, 4, 4, 4, 4, 4, 4, 4, 4, 4, 4, 4, 4, 4, 4, 4, 4, 4, 5, 35, 39, 43, 47, 79, 4, 130, 236, 266,
    289, 145, 163, 185, 203, 91, 338, 430,
];

/// The code of the run-time library, which begins with a jump to its own end. It has no relocated word.
pub fn base_code() -> &'static [u8]
    ensures { result.now ≡ library_bytes }
{
    &CODE
}

/// The place in the library of an entry. 0 is the end of the program; 1 to 17 and 24 were entries of earlier libraries, and
/// lead to a byte with which no instruction begins; 18 makes the base record of a segment, 19 to 23 stop with Overflow,
/// ZeroDivisor, Address, Bounds and Switch, 25 reads a byte, 26 is a product, 27 and 28 are quotients, 29 to 31 set, step
/// and put the control variable of a loop, 32 tests whether a loop is exhausted, 33 begins an activation, 34 does what
/// follows the body of a loop of one element with a step, and 35 stops where code of a segment can begin no
/// activation. None for every number past the last one.
pub fn base_entry(k: u16) -> Option<u16>
    ensures { result ≡ library_entry k }
{
    ENTRIES.get(k as usize).copied()
}
