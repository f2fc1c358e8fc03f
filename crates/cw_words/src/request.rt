// The command that the words ask for.
ghost use Rattle.std.specs.Prelude.{◌≡◌, IfOk, IfSome, ◌≤◌, IsErrOf, Some, None, map, codes, option_map, string_bytes};
ghost use Rattle.clap.specs.Words.{rows_of, found_of, all_of};
ghost use Rattle.cw_stop.specs.Stopping.{stop_in};
ghost use Rattle.cw_words.specs.Parts.{InRange, copies_in, copies_of, stop_of, number_in, number_at, action_at, parts_in, parts_of, command_parts};

use crate::action::{Action, action_of, least_names_of, most_names_of};
use crate::simple::{WordsFault, matches_of};
use clap::ArgMatches;
use cw_stop::{Stop, StopFault, read_stop};
use std::alloc::Global;

/// What the words of the command line ask for.
#[derive(Drop)]
pub struct Command<'a> {
    pub action: Action,
    /// Words of the data area, 1 to 32,768: `--data`.
    pub area: u32,
    /// Words of the frame area in it, at most as many: `--frames`.
    pub frames: u32,
    /// Calls that may be active, 1 to 4,096: `--depth`.
    pub depth: u16,
    /// Instructions that a run may have, 1 to 10^12: `--steps`.
    pub steps: u64,
    /// The WORDs behind ACTION, as many as it takes.
    pub names: Vec<&'a str>,
    /// How many texts `big` makes, and 0 for the other actions.
    pub copies: u8,
    /// Where `trace` reports, and none for the other actions.
    pub stop: Option<Stop>,
}

// The number of a text, where it has one in the range.
fn number(text: &str, low: u64, high: u64) -> Option<u64>
    ensures number { result ≡ number_in low high text.now }
    ensures in_range { IfSome result (λ n. (low ≤ n) × (n ≤ high)) }
{
    match text.parse::<u64>() {
        Ok(number) if low <= number && number <= high => Some(number),
        _ => None,
    }
}

// The number of an option.
fn number_of(matches: &ArgMatches<'_>, id: &str, low: u64, high: u64) -> Option<u64>
    ensures number { result ≡ number_at low high id.now (rows_of (found_of matches.now)) }
    ensures in_range { IfSome result (λ n. (low ≤ n) × (n ≤ high)) }
{
    match matches.get_str(id) {
        Some(text) => number(text, low, high),
        None => None,
    }
}

fn action_in(matches: &ArgMatches<'_>) -> Option<Action>
    ensures { result ≡ action_at (rows_of (found_of matches.now)) }
{
    match matches.get_str("ACTION") {
        Some(name) => action_of(name),
        None => None,
    }
}

// The WORDs.
fn names_in<'a, 'b>(matches: &'b ArgMatches<'a>) -> Option<&'b [&'a str]>
    ensures { option_map (λ names. map (λ name. name.now) names.now) result ≡ all_of (codes "WORD") (rows_of (found_of matches.entry.now)) }
{
    matches.get_strs("WORD")
}

// How many texts `big` makes by its WORD.
#[tactic(auto, unfolding(crate::specs::Parts::copies_in))]
fn copies_by(text: &str) -> Option<u64>
    ensures copies { result ≡ copies_in text.now }
    ensures in_range { IfSome result (λ n. (1 ≤ n) × (n ≤ 100)) }
{
    let bytes = text.as_bytes();
    if bytes.len() > 3 {
        return None;
    }
    match bytes.first() {
        Some(b'+') => None,
        _ => number(text, 1, 100),
    }
}

// The same for an action and its WORDs.
#[tactic(auto, unfolding(crate::specs::Parts::copies_of))]
fn copies_for(action: Action, names: &[&str]) -> Option<u64>
    ensures copies { result ≡ copies_of action (map (λ name. name.now) names.now) }
    ensures in_range { IfSome result (λ n. n ≤ 100) }
    ensures made { IfSome result (λ n. action ≡ Action.Big → 1 ≤ n) }
{
    match action {
        Action::Big => match names.first() {
            Some(name) => copies_by(name),
            None => copies_by(""),
        },
        _ => Some(0),
    }
}

// Where `trace` reports by its first WORD.
fn stop_by(alloc: Global, text: &str) -> Result<Option<Stop>, WordsFault>
    ensures ok { IfOk result (λ stop. option_map Some (stop_in text.now) ≡ Some stop) }
    ensures usage { IsErrOf result WordsFault.Usage → option_map Some (stop_in text.now) ≡ None }
{
    match read_stop(alloc, text) {
        Ok(stop) => Ok(Some(stop)),
        Err(StopFault::NotAStop) => Err(WordsFault::Usage),
        Err(StopFault::NoMemory) => Err(WordsFault::NoMemory),
    }
}

// The same for an action and its WORDs.
#[tactic(auto, unfolding(crate::specs::Parts::stop_of))]
fn stop_for(alloc: Global, action: Action, names: &[&str]) -> Result<Option<Stop>, WordsFault>
    ensures ok { IfOk result (λ stop. stop_of action (map (λ name. name.now) names.now) ≡ Some stop) }
    ensures usage { IsErrOf result WordsFault.Usage → stop_of action (map (λ name. name.now) names.now) ≡ None }
{
    match action {
        Action::Trace => match names.first() {
            Some(name) => stop_by(alloc, name),
            None => stop_by(alloc, ""),
        },
        _ => Ok(None),
    }
}

// What the matches mean.
fn read<'a>(alloc: Global, matches: &ArgMatches<'a>) -> Result<Command<'a>, WordsFault>
    ensures ok { IfOk result (λ command. parts_in (rows_of (found_of matches.now)) ≡ Some (command_parts command)) }
    ensures in_range { IfOk result (λ command. InRange command) }
    ensures usage { IsErrOf result WordsFault.Usage → parts_in (rows_of (found_of matches.now)) ≡ None }
{
    let Some(action) = action_in(matches) else {
        return Err(WordsFault::Usage);
    };
    let Some(area) = number_of(matches, "data", 1, 32768) else {
        return Err(WordsFault::Usage);
    };
    let Some(frames) = number_of(matches, "frames", 0, 32768) else {
        return Err(WordsFault::Usage);
    };
    let Some(depth) = number_of(matches, "depth", 1, 4096) else {
        return Err(WordsFault::Usage);
    };
    let Some(steps) = number_of(matches, "steps", 1, 1_000_000_000_000) else {
        return Err(WordsFault::Usage);
    };
    let Some(names) = names_in(matches) else {
        return Err(WordsFault::Usage);
    };
    let Some(copies) = copies_for(action, names) else {
        return Err(WordsFault::Usage);
    };
    let stop = stop_for(alloc, action, names)?;
    if frames > area {
        return Err(WordsFault::Usage);
    }
    if names.len() < least_names_of(action) {
        return Err(WordsFault::Usage);
    }
    if names.len() > most_names_of(action) {
        return Err(WordsFault::Usage);
    }
    match names.to_vec(alloc) {
        Ok(names) => Ok(Command {
            action,
            area: area as u32,
            frames: frames as u32,
            depth: depth as u16,
            steps,
            names,
            copies: copies as u8,
            stop,
        }),
        Err(_) => Err(WordsFault::NoMemory),
    }
}

/// Reads the words of the command line, without the program's name. The answer is Ok where they mean something and Usage where
/// they mean nothing, but for want of memory.
pub fn read_words<'a>(alloc: Global, words: &'a [String]) -> Result<Command<'a>, WordsFault>
    ensures ok { IfOk result (λ command. parts_of (map string_bytes words.entry.now) ≡ Some (command_parts command)) }
    ensures in_range { IfOk result (λ command. InRange command) }
    ensures usage { IsErrOf result WordsFault.Usage → parts_of (map string_bytes words.entry.now) ≡ None }
{
    match matches_of(alloc, words) {
        Ok(matches) => read(alloc, &matches),
        Err(fault) => Err(fault),
    }
}
