// The names of registers, address forms and operations, by the numbers that stand in the bytes of instructions.
ghost use Rattle.std.specs.Prelude.{◌≡◌, map};
ghost use Rattle.cw_nasm.specs.Names.{register, form, name_in, sums, condition, shifts, loops, unaries};

const WORD_REGISTERS: [&[u8]; 8] = [b"ax", b"cx", b"dx", b"bx", b"sp", b"bp", b"si", b"di"];

const BYTE_REGISTERS: [&[u8]; 8] = [b"al", b"cl", b"dl", b"bl", b"ah", b"ch", b"dh", b"bh"];

const FORMS: [&[u8]; 8] = [
    b"bx+si", b"bx+di", b"bp+si", b"bp+di", b"si", b"di", b"bp", b"bx",
];

const SUMS: [&[u8]; 8] = [
    b"add", b"or", b"adc", b"sbb", b"and", b"sub", b"xor", b"cmp",
];

const CONDITIONS: [&[u8]; 8] = [b"jo", b"jb", b"jz", b"jbe", b"js", b"jp", b"jl", b"jle"];

const OPPOSITES: [&[u8]; 8] = [
    b"jno", b"jnb", b"jnz", b"jnbe", b"jns", b"jnp", b"jnl", b"jnle",
];

const SHIFTS: [&[u8]; 8] = [b"rol", b"ror", b"rcl", b"rcr", b"shl", b"shr", b"", b"sar"];

const LOOPS: [&[u8]; 4] = [b"loopnz", b"loopz", b"loop", b"jcxz"];

const UNARIES: [&[u8]; 8] = [b"", b"", b"not", b"neg", b"mul", b"imul", b"div", b"idiv"];

// The name of a number, or nothing behind the last.
fn name_in(names: &[&'static [u8]], number: u8) -> &'static [u8]
    ensures { result.now ≡ name_in (map (λ name. name.now) names.now) number }
{
    match names.get(number as usize) {
        Some(name) => *name,
        None => &[],
    }
}

pub(crate) fn register(wide: bool, reg: u8) -> &'static [u8]
    ensures { result.now ≡ register wide reg }
{
    if wide {
        name_in(&WORD_REGISTERS, reg)
    } else {
        name_in(&BYTE_REGISTERS, reg)
    }
}

pub(crate) fn form(rm: u8) -> &'static [u8]
    ensures { result.now ≡ form rm }
{
    name_in(&FORMS, rm)
}

pub(crate) fn sum(op: u8) -> &'static [u8]
    ensures { result.now ≡ name_in sums op }
{
    name_in(&SUMS, op)
}

pub(crate) fn condition(cond: u8) -> &'static [u8]
    ensures { result.now ≡ condition cond }
{
    if cond % 2 == 0 {
        name_in(&CONDITIONS, cond / 2)
    } else {
        name_in(&OPPOSITES, cond / 2)
    }
}

pub(crate) fn shift(op: u8) -> &'static [u8]
    ensures { result.now ≡ name_in shifts op }
{
    name_in(&SHIFTS, op)
}

pub(crate) fn loop_name(kind: u8) -> &'static [u8]
    ensures { result.now ≡ name_in loops kind }
{
    name_in(&LOOPS, kind)
}

pub(crate) fn unary(op: u8) -> &'static [u8]
    ensures { result.now ≡ name_in unaries op }
{
    name_in(&UNARIES, op)
}
