// Numbers as words of the command line.
ghost use Rattle.std.specs.Prelude.{All, ◌≡◌, ◌≤◌, ◌==◌, IfOk, IfSome, map};
ghost use Rattle.std.specs.List.{slice_split};
ghost use Rattle.uw_ends.specs.Given.{GivesOrUsage};
ghost use Rattle.uw_ends.specs.Numbers.{all_read, deaths_of, plain_number, number_within};

use crate::WordsFault;
use std::alloc::{AllocError, Global};
use uw_base::{NumberList, read_decimal};

/// The most deaths of a run.
const MOST_DEATHS: usize = 64;

/// The highest number of a word write at which a worker dies.
const LAST_WRITE: u64 = 1_000_000_000;

// The number that digits write, without a sign or a leading zero.
fn number(text: &[u8]) -> Option<u64>
    ensures { result ≡ plain_number text.now }
{
    match text {
        [b'0', _, ..] => None,
        digits => read_decimal(digits),
    }
}

// The same, from `low` to `high`.
pub(crate) fn number_from(low: u64, high: u64, text: &[u8]) -> Option<u64>
    ensures number { result ≡ number_within low high text.now }
    ensures within { IfSome result (λ n. n ≤ high) }
{
    let found = number(text)?;
    if low <= found && found <= high {
        Some(found)
    } else {
        None
    }
}

// The parts of a text between its commas.
fn parts<'a>(alloc: Global, text: &'a str) -> Result<Vec<&'a str>, AllocError>
    ensures { IfOk result (λ parts. map (λ part. part.now) parts.items ≡ slice_split (λ byte. byte == 44) text.entry.now) }
{
    text.split(',').collect(alloc)
}

// The number of each part, from 1 to the highest of a write.
fn numbers_in(alloc: Global, parts: &[&str]) -> Result<NumberList, WordsFault>
    ensures numbers { GivesOrUsage result (all_read (number_within 1 LAST_WRITE) (map (λ part. part.now) parts.now)) }
    ensures within { IfOk result (λ numbers. All (λ n. 1 ≤ n) numbers) }
{
    let mut numbers = NumberList::new(alloc);
    for part in parts {
        let Some(number) = number_from(1, LAST_WRITE, part.as_bytes()) else {
            return Err(WordsFault::Usage);
        };
        numbers.push(number)?;
    }
    Ok(numbers)
}

// The numbers of the word writes at which the workers of a run die, joined by commas.
pub(crate) fn deaths(alloc: Global, text: &str) -> Result<NumberList, WordsFault>
    ensures numbers { GivesOrUsage result (deaths_of text.now) }
    ensures within { IfOk result (λ numbers. All (λ n. 1 ≤ n) numbers) }
{
    let parts = parts(alloc, text)?;
    if parts.len() > MOST_DEATHS {
        return Err(WordsFault::Usage);
    }
    numbers_in(alloc, parts.as_slice())
}
