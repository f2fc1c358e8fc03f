// One line that tells what the watched words hold.
ghost use Rattle.std.specs.Prelude.{◌≡◌, ◌*◌, ◌<◌, All, flat_map};
ghost use Rattle.cw_i86.specs.State.{word_at, data_segment};
ghost use Rattle.cw_write.specs.Said.{Writes};
ghost use Rattle.cw_trace.specs.Gathering.{Adds, gathered};
ghost use Rattle.cw_trace.specs.Reports.{word_of, word_text, head_text, report_text};

use crate::line::Line;
use crate::watch::{Watch, WatchedWord};
use cw_cpu86::Cpu;
use cw_io::{Failed, Sink};

// Where the data segment begins in memory.
const DATA: u32 = 0x2_0000;

// The word of this number in the data segment.
#[tactic(auto, unfolding(cw_i86::specs::State::word_at, cw_i86::specs::State::byte_at, cw_i86::specs::State::address))]
fn word_at(cpu: &Cpu, number: u16) -> u16
    requires { number < 32768 }
    ensures { result ≡ word_at cpu.now.memory data_segment (2 * number) }
{
    let at = DATA + 2 * u32::from(number);
    let low = cpu.byte_at(at);
    let high = cpu.byte_at(at + 1);
    u16::from(low) + 256 * u16::from(high)
}

#[tactic(auto, unfolding(crate::specs::Reports::word_text))]
fn add_word<S: Sink>(
    line: &mut Line,
    say: &mut S,
    cpu: &Cpu,
    word: &WatchedWord,
) -> Result<(), Failed>
    requires { word.now.address < 32768 }
    ensures { Adds (gathered (S.held say.old) line.old (S.faults say.old))
        (gathered (S.held say.new) line.new (S.faults say.new)) (word_text (word_of cpu.now) word.now) result }
{
    let mut buffer = itoa::Buffer::new();
    let digits = buffer.format(word_at(cpu, word.address).cast_signed());
    line.add_all(say, &[b" ", word.text.as_slice(), b"=", digits.as_bytes()])
}

fn add_words<S: Sink>(
    line: &mut Line,
    say: &mut S,
    cpu: &Cpu,
    words: &[WatchedWord],
) -> Result<(), Failed>
    requires { All (λ word. word.address < 32768) words.now }
    ensures { Adds (gathered (S.held say.old) line.old (S.faults say.old))
        (gathered (S.held say.new) line.new (S.faults say.new)) (flat_map (word_text (word_of cpu.now)) words.now)
        result }
{
    for word in words {
        if let Err(failed) = add_word(line, say, cpu, word) {
            return Err(failed);
        }
    }
    Ok(())
}

#[tactic(auto, unfolding(crate::specs::Reports::head_text))]
fn add_head<S: Sink>(line: &mut Line, say: &mut S, watch: &Watch) -> Result<(), Failed>
    ensures { Adds (gathered (S.held say.old) line.old (S.faults say.old))
        (gathered (S.held say.new) line.new (S.faults say.new)) (head_text watch.now) result }
{
    let mut buffer = itoa::Buffer::new();
    let digits = buffer.format(watch.line);
    line.add_all(say, &[watch.segment.bytes(), b" ", digits.as_bytes()])
}

fn add_line<S: Sink>(line: &mut Line, say: &mut S, watch: &Watch, cpu: &Cpu) -> Result<(), Failed>
    requires { All (λ word. word.address < 32768) watch.now.words }
    ensures { Adds (gathered (S.held say.old) line.old (S.faults say.old))
        (gathered (S.held say.new) line.new (S.faults say.new)) (report_text watch.now cpu.now) result }
{
    if let Err(failed) = add_head(line, say, watch) {
        return Err(failed);
    }
    if let Err(failed) = add_words(line, say, cpu, watch.words.as_slice()) {
        return Err(failed);
    }
    line.add(say, b"\n")
}

/// Writes the line that tells of this stop.
pub(crate) fn write_report<S: Sink>(say: &mut S, watch: &Watch, cpu: &Cpu) -> Result<(), Failed>
    requires { All (λ word. word.address < 32768) watch.now.words }
    ensures { Writes (S.held say.old) (S.held say.new) (S.faults say.old) (S.faults say.new) (report_text watch.now cpu.now) result }
{
    let mut line = Line::new();
    if let Err(failed) = add_line(&mut line, say, watch, cpu) {
        return Err(failed);
    }
    line.flush(say)
}
