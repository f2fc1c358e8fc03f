// The memory in which a program begins.
ghost use Rattle.std.specs.Prelude.{◌≡◌, ◌≤◌, ◌<◌, ◌+◌, ◌*◌, ◌/◌, ◌%◌, ◌^◌, ℕ, length, slice_index, IfOk};

use cw_word::NoMemory;
use std::alloc::Global;

/// So many bytes of 0. The number is a variable here, since a proof would write out a list of a known length.
pub(crate) fn zeros(alloc: Global, count: usize) -> Result<Vec<u8>, NoMemory>
    ensures length { IfOk result (λ bytes. length bytes.items ≡ count) }
    ensures zeros { IfOk result (λ bytes. (a : ℕ) → slice_index bytes.items a ≡ 0) }
{
    vec![in alloc; 0u8; count].map_err(|_| NoMemory)
}

/// Puts the code from 10000h on.
pub(crate) fn put_code(memory: &mut [u8], code: &[u8])
    requires length { length memory.old ≡ 2 ^ 20 }
    requires code { length code.now ≤ 65536 }
    requires zeros { (a : ℕ) → slice_index memory.old a ≡ 0 }
    ensures below { (a : ℕ) → a < 0x10000 → slice_index memory.new a ≡ 0 }
    ensures code_bytes { (k : ℕ) → k < length code.now → slice_index memory.new (0x10000 + k) ≡ slice_index code.now k }
    ensures above { (a : ℕ) → 0x10000 + length code.now ≤ a → slice_index memory.new a ≡ 0 }
{
    for k in 0..code.len() {
        memory[0x1_0000 + k] = code[k];
    }
}

/// Puts the words from 20000h on, the low byte first.
pub(crate) fn put_words(memory: &mut [u8], words: &[u16])
    requires length { length memory.old ≡ 2 ^ 20 }
    requires words { length words.now ≤ 32768 }
    ensures below { (a : ℕ) → a < 0x20000 → slice_index memory.new a ≡ slice_index memory.old a }
    ensures low_bytes { (k : ℕ) → k < length words.now → slice_index memory.new (0x20000 + 2 * k) ≡ slice_index words.now k % 256 }
    ensures high_bytes { (k : ℕ) → k < length words.now → slice_index memory.new (0x20000 + 2 * k + 1) ≡ slice_index words.now k / 256 }
    ensures above { (a : ℕ) → 0x20000 + 2 * length words.now ≤ a → slice_index memory.new a ≡ slice_index memory.old a }
{
    for k in 0..words.len() {
        let at = 0x2_0000 + 2 * k;
        memory[at] = (words[k] % 256) as u8;
        memory[at + 1] = (words[k] / 256) as u8;
    }
}
