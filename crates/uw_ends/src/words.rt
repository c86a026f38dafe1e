// The words of the command line.
ghost use Rattle.std.specs.Prelude.{◌≡◌, ◌≤◌, map, option_and_then, IfOk, IfSome};
ghost use Rattle.std.specs.String.{string_bytes};
ghost use Rattle.clap.specs.Words.{first_of, found_of, rows_of};
ghost use Rattle.uw_ends.specs.Given.{GivesOrUsage, IsWithin};
ghost use Rattle.uw_ends.specs.Numbers.{number_within};
ghost use Rattle.uw_ends.specs.Words.{command_named, command_of, load_of, pipe_of, plain_of};

use crate::numbers::{deaths, number_from};
use crate::parses::{load_command, parse, pipe_command, plain_command, value};
use clap::ArgMatches;
use std::alloc::{AllocError, Global};
use uw_base::{Memory, NumberList};

/// The highest number that a load begins with.
const LAST_FIRST: u64 = (1 << 31) - 1;

/// The most requests of a load.
const MOST_REQUESTS: u64 = 1_000_000;

/// What the program is to do, by the words of its command line.
#[derive(Drop)]
pub enum Command {
    /// Answer packets, one after the other. Each number of `die` in turn is that of a word write at which the worker dies, counted from the worker's
    /// first one; without a number no worker dies.
    Pipe { die: NumberList },
    /// Run rounds over the spooled tasks.
    Spool,
    /// Follow events that are written down line by line.
    Steps,
    /// Make `count` requests of a load, the first of them by the number `first`.
    Load { first: u64, count: u64 },
    /// Serve requests by workers.
    Serve,
}

/// Why the words are no command.
#[derive(Clone, Copy, Debug, PartialEq, Eq)]
pub enum WordsFault {
    /// They say no command.
    Usage,
    /// No memory was left.
    Memory,
}

impl From<Memory> for WordsFault {
    ghost use Rattle.uw_ends.specs.declared.words.WordsFault.TheVariants as faults;

    ghost from_gives = { λ _ fault. fault ≡ faults.Memory };

    fn from(_: Memory) -> WordsFault {
        WordsFault::Memory
    }
}

impl From<AllocError> for WordsFault {
    ghost use Rattle.uw_ends.specs.declared.words.WordsFault.TheVariants as faults;

    ghost from_gives = { λ _ fault. fault ≡ faults.Memory };

    fn from(_: AllocError) -> WordsFault {
        WordsFault::Memory
    }
}

/// Reads the words of the command line. The first one names the command, and clap reads the others: `pipe` has the option `--die` with 1 to 64
/// numbers joined by commas, each from 1 to 1,000,000,000; `load` has a first number below 2^31 and a count of at most 1,000,000; `spool`, `steps`
/// and `serve` stand alone. A number is decimal digits without a sign or a leading zero. Usage comes exactly where the words say no command.
pub fn read_words(alloc: Global, words: &[String]) -> Result<Command, WordsFault>
    ensures command { GivesOrUsage result (command_of (map string_bytes words.now)) }
    ensures within { IfOk result IsWithin }
{
    match words {
        [] => Err(WordsFault::Usage),
        [name, others @ ..] => read_named(alloc, name.as_bytes(), others),
    }
}

// The command of a first word, on the words after it.
fn read_named(alloc: Global, name: &[u8], words: &[String]) -> Result<Command, WordsFault>
    ensures command { GivesOrUsage result (command_named name.now (map string_bytes words.now)) }
    ensures within { IfOk result IsWithin }
{
    if name == b"pipe".as_slice() {
        read_pipe(alloc, words)
    } else if name == b"spool".as_slice() {
        read_plain(alloc, "spool", Command::Spool, words)
    } else if name == b"steps".as_slice() {
        read_plain(alloc, "steps", Command::Steps, words)
    } else if name == b"load".as_slice() {
        read_load(alloc, words)
    } else if name == b"serve".as_slice() {
        read_plain(alloc, "serve", Command::Serve, words)
    } else {
        Err(WordsFault::Usage)
    }
}

// A command without words of its own.
fn read_plain(
    alloc: Global,
    name: &str,
    command: Command,
    words: &[String],
) -> Result<Command, WordsFault>
    requires { IsWithin command }
    ensures command { GivesOrUsage result (plain_of name.now command (map string_bytes words.now)) }
    ensures within { IfOk result IsWithin }
{
    parse(plain_command(alloc, name), words)?;
    Ok(command)
}

fn read_pipe(alloc: Global, words: &[String]) -> Result<Command, WordsFault>
    ensures command { GivesOrUsage result (pipe_of (map string_bytes words.now)) }
    ensures within { IfOk result IsWithin }
{
    let matches = parse(pipe_command(alloc)?, words)?;
    match value(&matches, "die") {
        None => Ok(Command::Pipe {
            die: NumberList::new(alloc),
        }),
        Some(text) => Ok(Command::Pipe {
            die: deaths(alloc, text)?,
        }),
    }
}

fn read_load(alloc: Global, words: &[String]) -> Result<Command, WordsFault>
    ensures command { GivesOrUsage result (load_of (map string_bytes words.now)) }
    ensures within { IfOk result IsWithin }
{
    let matches = parse(load_command(alloc)?, words)?;
    let first = number_given(&matches, "first", LAST_FIRST);
    let count = number_given(&matches, "count", MOST_REQUESTS);
    match (first, count) {
        (Some(first), Some(count)) => Ok(Command::Load { first, count }),
        _ => Err(WordsFault::Usage),
    }
}

// The number that clap found for an argument, at most `high`.
fn number_given(matches: &ArgMatches<'_>, name: &str, high: u64) -> Option<u64>
    ensures number { result ≡ option_and_then (number_within 0 high) (first_of name.now (rows_of (found_of matches.now))) }
    ensures within { IfSome result (λ n. n ≤ high) }
{
    number_from(0, high, value(matches, name)?.as_bytes())
}
