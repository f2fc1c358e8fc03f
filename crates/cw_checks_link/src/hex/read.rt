//! Texts with the processor that they tell, and texts with their first fault.
use cw_cpu86::Cpu;
use cw_hex::{HexFault, load_hex};
use std::alloc::Global;
use std::test::Fail;

// A text, CS and IP, and bytes at physical addresses.
const PROCESSORS: &[(&str, u16, u16, &[(u32, u8)])] = &[
    // the image of HLT
    (
        ":020000021000EC\n:01000000F40B\n:0400000310000000E9\n:00000001FF\n",
        0x1000,
        0,
        &[(0x0_FFFF, 0), (0x1_0000, 0xF4), (0x1_0001, 0), (0, 0)],
    ),
    // the end alone, without a line feed, with a carriage return before it, and behind empty lines
    (":00000001FF", 0x1000, 0, &[(0, 0), (0xF_FFFF, 0)]),
    (":00000001FF\r\n", 0x1000, 0, &[(0x1_0000, 0)]),
    ("\n\r\n:00000001FF\n\n\r\n", 0x1000, 0, &[(0x1_0000, 0)]),
    // lines ended either way, the last one by nothing
    (
        ":020000021000EC\r\n:01000000F40B\n\n:0400000312345678E5\r\n:00000001FF",
        0x1234,
        0x5678,
        &[(0x1_0000, 0xF4)],
    ),
    // digits of both cases
    (
        ":020A0b00cdEF2d\n:00000001fF\n",
        0x1000,
        0,
        &[(0x0A0B, 0xCD), (0x0A0C, 0xEF)],
    ),
    (
        ":02000000fAcE36\n:00000001ff\n",
        0x1000,
        0,
        &[(0, 0xFA), (1, 0xCE)],
    ),
    // the base is 0 at first
    (
        ":02000000AABB99\n:00000001FF\n",
        0x1000,
        0,
        &[(0, 0xAA), (1, 0xBB), (2, 0)],
    ),
    // a second base stands in place of the first
    (
        ":020000021000EC\n:020000022000DC\n:0100000007F8\n:00000001FF\n",
        0x1000,
        0,
        &[(0x2_0000, 7), (0x1_0000, 0), (0x3_0000, 0)],
    ),
    // a later byte stands in place of an earlier one
    (
        ":0100000007F8\n:0100000008F7\n:00000001FF\n",
        0x1000,
        0,
        &[(0, 8)],
    ),
    // after the address 65,535 comes 0, with the same base
    (
        ":020000021000EC\n:04FFFE0001020304F5\n:00000001FF\n",
        0x1000,
        0,
        &[
            (0x1_FFFD, 0),
            (0x1_FFFE, 1),
            (0x1_FFFF, 2),
            (0x1_0000, 3),
            (0x1_0001, 4),
            (0x2_0000, 0),
        ],
    ),
    // after the last byte of memory comes the first
    (
        ":02000002FFFFFE\n:04000E0001020304E4\n:00000001FF\n",
        0x1000,
        0,
        &[(0xF_FFFE, 1), (0xF_FFFF, 2), (0, 3), (1, 4), (2, 0)],
    ),
    // both
    (
        ":02000002FFFFFE\n:02FFFF000102FD\n:00000001FF\n",
        0x1000,
        0,
        &[(0x0_FFEF, 1), (0xF_FFF0, 2), (0x0_FFF0, 0)],
    ),
    // data of no bytes
    (":0000000000\n:00000001FF\n", 0x1000, 0, &[(0, 0)]),
    // the last place of the first instruction counts
    (
        ":0400000312345678E5\n:04ABCD03000100027E\n:00000001FF\n",
        1,
        2,
        &[(0, 0)],
    ),
    // the address of the other types means nothing
    (
        ":02FFFF020001FD\n:0100000007F8\n:00123401B9\n",
        0x1000,
        0,
        &[(0x10, 7), (0, 0)],
    ),
    // each base, one after another
    (
        ":020000021000EC\n:0100000007F8\n:020000022000DC\n:0100000008F7\n:00000001FF\n",
        0x1000,
        0,
        &[(0x1_0000, 7), (0x2_0000, 8), (0, 0)],
    ),
];

// A text and its first fault.
const FAULTS: &[(&str, HexFault)] = &[
    // not of the form: no colon, no digit, an odd number of digits, too few, other lengths than the first byte tells, blanks
    ("x", HexFault::BadLine { line: 1 }),
    ("00000001FF\n", HexFault::BadLine { line: 1 }),
    (";00000001FF\n", HexFault::BadLine { line: 1 }),
    (":\n", HexFault::BadLine { line: 1 }),
    (":00000001F\n", HexFault::BadLine { line: 1 }),
    (":00000001\n", HexFault::BadLine { line: 1 }),
    (":00000001FG\n", HexFault::BadLine { line: 1 }),
    (":0000000/FF\n", HexFault::BadLine { line: 1 }),
    (":0000000:FF\n", HexFault::BadLine { line: 1 }),
    (":0000000@FF\n", HexFault::BadLine { line: 1 }),
    (":0000000`FF\n", HexFault::BadLine { line: 1 }),
    (":0000000gFF\n", HexFault::BadLine { line: 1 }),
    (":02000000F40A\n", HexFault::BadLine { line: 1 }),
    (":00000000F40C\n", HexFault::BadLine { line: 1 }),
    (" :00000001FF\n", HexFault::BadLine { line: 1 }),
    (":00000001FF \n", HexFault::BadLine { line: 1 }),
    // a carriage return that ends no line
    (":00000001FF\r", HexFault::BadLine { line: 1 }),
    (":0000\r0001FF\n", HexFault::BadLine { line: 1 }),
    (":00000001FF\n\r\r\n", HexFault::BadLine { line: 2 }),
    // the same in the last line, and where lines end in both characters
    (":01000000F40B\n:00000001FG", HexFault::BadLine { line: 2 }),
    (
        "\r\n:01000000F40B\r\nend\r\n",
        HexFault::BadLine { line: 3 },
    ),
    // sums
    (":01000000F40C\n:00000001FF\n", HexFault::BadSum { line: 1 }),
    (":01000000F40B\n:00000001FE", HexFault::BadSum { line: 2 }),
    (
        ":020000021000EC\r\n:01000000F40C\r\n:00000001FF\r\n",
        HexFault::BadSum { line: 2 },
    ),
    (
        ":020000021000EC\n:01000000F40C\n:0400000310000000E9\n:00000001FF\n",
        HexFault::BadSum { line: 2 },
    ),
    // types, and their lengths
    (":00000004FC\n:00000001FF\n", HexFault::BadType { line: 1 }),
    (":000000FF01\n", HexFault::BadType { line: 1 }),
    (":0100000100FE\n", HexFault::BadType { line: 1 }),
    (":00000002FE\n", HexFault::BadType { line: 1 }),
    (":0100000210ED\n", HexFault::BadType { line: 1 }),
    (":0400000200000000FA\n", HexFault::BadType { line: 1 }),
    (":00000003FD\n", HexFault::BadType { line: 1 }),
    (":020000031000EB\n", HexFault::BadType { line: 1 }),
    (":050000030000000000F8\n", HexFault::BadType { line: 1 }),
    (":01000000F40B\n:00000004FC", HexFault::BadType { line: 2 }),
    ("\r\n\r\n:00000004FC\r\n", HexFault::BadType { line: 3 }),
    // a record behind the end
    (":00000001FF\n:00000001FF\n", HexFault::AfterEnd { line: 2 }),
    (":00000001FF\n:01000000F40B", HexFault::AfterEnd { line: 2 }),
    (
        ":00000001FF\r\n\r\n:020000021000EC\r\n",
        HexFault::AfterEnd { line: 3 },
    ),
    // no end
    ("", HexFault::NoEnd { line: 1 }),
    ("\n", HexFault::NoEnd { line: 2 }),
    ("\n\r\n", HexFault::NoEnd { line: 3 }),
    (":01000000F40B", HexFault::NoEnd { line: 2 }),
    (":01000000F40B\r\n", HexFault::NoEnd { line: 2 }),
    // of several faults of a line, and behind the end, the first in this order; of several lines the first
    (":0000000400\n", HexFault::BadSum { line: 1 }),
    (":00000001FF\nx\n", HexFault::BadLine { line: 2 }),
    (":00000001FF\n:01000000F40C\n", HexFault::BadSum { line: 2 }),
    (":00000001FF\n:00000004FC\n", HexFault::BadType { line: 2 }),
    (":00000004FC\nx\n", HexFault::BadType { line: 1 }),
];

fn fault(alloc: Global, text: &[u8]) -> Option<HexFault> {
    match load_hex(alloc, text) {
        Ok(_) => None,
        Err(fault) => Some(fault),
    }
}

// Whether the bytes stand at the addresses.
fn holds(cpu: &Cpu, bytes: &[(u32, u8)]) -> bool {
    for (address, byte) in bytes {
        if *address >= 0x10_0000 || cpu.byte_at(*address) != *byte {
            return false;
        }
    }
    true
}

// Whether the text tells a processor with this place of its next instruction, these bytes, 0 in its registers, and no flag set.
fn tells(alloc: Global, text: &[u8], cs: u16, ip: u16, bytes: &[(u32, u8)]) -> bool {
    let Ok(cpu) = load_hex(alloc, text) else {
        return false;
    };
    let regs = cpu.regs();
    let flags = regs.flags;
    regs.general == [0; 8]
        && regs.cs == cs
        && regs.ip == ip
        && !(flags.cf || flags.pf || flags.af || flags.zf || flags.sf || flags.of)
        && holds(&cpu, bytes)
}

#[test]
fn processors(rt: HostRuntime) -> Result<(), Fail> {
    for &(text, cs, ip, bytes) in PROCESSORS {
        let told = tells(rt.alloc(), text.as_bytes(), cs, ip, bytes);
        assert_eq!(rt; (text, told), (text, true));
    }
    Ok(())
}

#[test]
fn faults(rt: HostRuntime) -> Result<(), Fail> {
    for &(text, first) in FAULTS {
        assert_eq!(rt;
            (text, fault(rt.alloc(), text.as_bytes())),
            (text, Some(first))
        );
    }
    Ok(())
}
