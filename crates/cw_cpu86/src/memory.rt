// Bytes and words of memory, by segment and offset.
ghost use Rattle.std.specs.Prelude.{◌≡◌, ◌<◌, ◌+◌, ◌^◌, length};
ghost use Rattle.cw_i86.specs.State.{address, byte_at, word_at, with_byte, with_word};

pub(crate) const MEMORY: usize = 0x10_0000;

#[tactic(auto, unfolding(cw_i86::specs::State::address))]
pub(crate) fn address(segment: u16, offset: u16) -> usize
    ensures is { result ≡ address segment offset }
    ensures within { result < 2 ^ 20 }
{
    (usize::from(segment) * 16 + usize::from(offset)) % MEMORY
}

#[tactic(auto, unfolding(cw_i86::specs::State::byte_at))]
pub(crate) fn read_byte(memory: &[u8], segment: u16, offset: u16) -> u8
    requires { length memory.now ≡ 2 ^ 20 }
    ensures { result ≡ byte_at memory.now segment offset }
{
    memory[address(segment, offset)]
}

#[tactic(auto, unfolding(cw_i86::specs::State::with_byte))]
pub(crate) fn write_byte(memory: &mut [u8], segment: u16, offset: u16, value: u8)
    requires { length memory.old ≡ 2 ^ 20 }
    ensures { memory.new ≡ with_byte memory.old segment offset value }
{
    memory[address(segment, offset)] = value;
}

#[tactic(auto, unfolding(cw_i86::specs::State::word_at))]
pub(crate) fn read_word(memory: &[u8], segment: u16, offset: u16) -> u16
    requires { length memory.now ≡ 2 ^ 20 }
    ensures { result ≡ word_at memory.now segment offset }
{
    let low = read_byte(memory, segment, offset);
    let high = read_byte(memory, segment, offset.wrapping_add(1));
    u16::from(low) + 256 * u16::from(high)
}

#[tactic(auto, unfolding(cw_i86::specs::State::with_word))]
pub(crate) fn write_word(memory: &mut [u8], segment: u16, offset: u16, value: u16)
    requires { length memory.old ≡ 2 ^ 20 }
    ensures { memory.new ≡ with_word memory.old segment offset value }
{
    write_byte(memory, segment, offset, (value % 256) as u8);
    write_byte(memory, segment, offset.wrapping_add(1), (value / 256) as u8);
}
