// Every refused line of a configuration.
ghost use Rattle.std.specs.Prelude.{◌≡◌, ◌<◌, ◌≤◌, ◌^◌, length, IfOk};
ghost use Rattle.uw_check.specs.Checking.{Checks, IsSoundAnswer, without_line};

use crate::{Checked, FaultList};
use std::alloc::Global;
use uw_base::{Bytes, Memory};
use uw_conf::{ConfError, read_conf};
use uw_rules::Patterns;

/// The most lines that are told.
pub const MOST_TOLD: usize = 50;

// A text in which the line of a number, counted from 1, is empty.
fn without_line(alloc: Global, text: &[u8], number: u32) -> Result<Bytes, Memory>
    ensures left { IfOk result (λ left. left ≡ without_line number text.now) }
    ensures shorter { IfOk result (λ left. length left ≤ length text.now) }
{
    let mut left = Bytes::new(alloc);
    let mut ahead = number;
    for byte in text {
        if *byte == b'\n' {
            ahead = ahead.saturating_sub(1);
            left.push(*byte)?;
        } else if ahead != 1 {
            left.push(*byte)?;
        }
    }
    Ok(left)
}

/// Reads a configuration as `read_conf` does. Where a line is refused it is told and made empty, and the text is read
/// again, until it is taken, the whole text is refused, or 50 lines are told.
pub fn check_conf<M: Patterns>(alloc: Global, text: &[u8], make: &mut M) -> Result<Checked, Memory>
    requires { length text.now < 2 ^ 32 }
    ensures checks { Checks text.now (M.faults make.old) (M.faults make.new) result }
    ensures sound { IfOk result IsSoundAnswer }
{
    let mut left = Bytes::from_slice(alloc, text)?;
    let mut told = FaultList::new(alloc);
    'readings: while told.len() < MOST_TOLD {
        match read_conf(alloc, left.as_slice(), make) {
            Ok(conf) => {
                if told.len() == 0 {
                    return Ok(Checked::Taken(conf));
                }
                return Ok(Checked::Refused(told));
            }
            Err(ConfError::Memory) => return Err(Memory),
            Err(ConfError::Refused(fault)) => {
                told.push(fault)?;
                if fault.line == 0 {
                    return Ok(Checked::Refused(told));
                }
                left = without_line(alloc, left.as_slice(), fault.line)?;
            }
        }
    }
    Ok(Checked::Refused(told))
}
