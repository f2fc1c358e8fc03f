// The words by clap.
ghost use Rattle.std.specs.Prelude.{◌≡◌, false, IfOk, IsErrOf, [], map, string_bytes};
ghost use Rattle.clap.specs.Words.{app_of, rows_of, rule_of, found_of};
ghost use Rattle.cw_words.specs.Command.{command_app, action_rule, word_rule, option_rule, faults_of, rows_in};

use clap::builder::ValueParser;
use clap::error::ErrorKind;
use clap::{Arg, ArgAction, ArgMatches, Command};
use std::alloc::{AllocError, Global};

/// Why the words of a command line gave no command.
#[derive(Clone, Copy, Debug, PartialEq, Eq)]
pub enum WordsFault {
    /// They mean nothing.
    Usage,
    NoMemory,
}

// An option that takes a number in the range.
fn option<'a>(alloc: Global, name: &'a str, default: &'a str, low: u64, high: u64) -> Arg<'a>
    ensures rule { rule_of result ≡ option_rule name.entry.now default.entry.now low high }
    ensures local { result.global ≡ false }
{
    Arg::new(alloc, name)
        .long(name)
        .default_value(default)
        .value_parser(ValueParser::Unsigned(low, high))
}

fn action_arg<'a>(alloc: Global) -> Arg<'a>
    ensures rule { rule_of result ≡ action_rule }
    ensures local { result.global ≡ false }
{
    Arg::new(alloc, "ACTION").required(true)
}

fn word_arg<'a>(alloc: Global) -> Arg<'a>
    ensures rule { rule_of result ≡ word_rule }
    ensures local { result.global ≡ false }
{
    Arg::new(alloc, "WORD")
        .required(true)
        .action(ArgAction::Append)
}

// coral66 [--data N] [--frames N] [--depth N] [--steps N] ACTION WORD...
fn command<'a>(alloc: Global) -> Result<Command<'a>, AllocError>
    ensures { IfOk result (λ command. app_of command ≡ command_app) }
{
    let action = action_arg(alloc);
    let word = word_arg(alloc);
    let bare = Command::new(alloc, "coral66")
        .no_binary_name(true)
        .disable_help_flag(true);
    let with_data = bare.arg(option(alloc, "data", "16384", 1, 32768))?;
    let with_frames = with_data.arg(option(alloc, "frames", "4096", 0, 32768))?;
    let with_depth = with_frames.arg(option(alloc, "depth", "256", 1, 4096))?;
    let with_steps = with_depth.arg(option(alloc, "steps", "200000000", 1, 1_000_000_000_000))?;
    let with_action = with_steps.arg(action)?;
    with_action.arg(word)
}

/// What the words give, exactly where they are of the command.
pub(crate) fn matches_of<'a>(
    alloc: Global,
    words: &'a [String],
) -> Result<ArgMatches<'a>, WordsFault>
    ensures ok { IfOk result (λ matches. (faults_of (map string_bytes words.entry.now) ≡ [])
        × (rows_of (found_of matches) ≡ rows_in (map string_bytes words.entry.now))) }
    ensures usage { IsErrOf result WordsFault.Usage → faults_of (map string_bytes words.entry.now) ≡ [] → ⊥ }
{
    let Ok(command) = command(alloc) else {
        return Err(WordsFault::NoMemory);
    };
    match command.try_get_matches_from(words) {
        Ok(matches) => Ok(matches),
        Err(error) => match error.kind() {
            ErrorKind::OutOfMemory => Err(WordsFault::NoMemory),
            _ => Err(WordsFault::Usage),
        },
    }
}
