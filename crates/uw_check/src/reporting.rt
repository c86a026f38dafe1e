// The report of a check, for a person.
ghost use Rattle.std.specs.Prelude.{◌≡◌, ◌<◌, ◌^◌, ℕ, ◌==◌, not, List, ◌++◌, filter, length, IfOk, OnOk};
ghost use Rattle.uw_check.specs.Reports.{Reports, TellsEach, fault_line, more_line, site_line};
ghost use Rattle.uw_conf.specs.Sound.{ArePartsOfSite};

use crate::Checked;
use crate::checking::{MOST_TOLD, check_conf};
use crate::notes::put_notes;
use crate::sentences::{cause_name, sentence_of};
use crate::site::{put_idle, put_site};
use std::alloc::Global;
use uw_base::{Bytes, Memory, put_decimal};
use uw_conf::{Conf, ConfFault};
use uw_rules::Patterns;

/// The status of a check that took the text.
const TAKEN: u8 = 0;

/// The status of a check that tells refused lines.
const REFUSED: u8 = 2;

/// Lines for a person, and the program's status.
#[derive(Drop)]
pub struct Report {
    pub text: Bytes,
    pub status: u8,
}

/// Checks a configuration, which stands in the file of this path, and says in lines what was found. A refused line is
/// told as `PATH:LINE: Cause: sentence`. Where all is taken, a line says what the site has, one names the options
/// without effect, and each note says what is different from uWSGI.
pub fn report_on<M: Patterns>(
    alloc: Global,
    path: &[u8],
    text: &[u8],
    make: &mut M,
) -> Result<Report, Memory>
    requires { length text.now < 2 ^ 32 }
    ensures { IfOk result (λ report. Reports path.now text.now (M.faults make.old) (M.faults make.new) report) }
{
    match check_conf(alloc, text, make)? {
        Checked::Taken(conf) => Ok(Report {
            text: taken_text(alloc, path, text, &conf)?,
            status: TAKEN,
        }),
        Checked::Refused(told) => {
            let mut out = told_lines(alloc, path, text, told.as_slice())?;
            put_more(&mut out, path, told.len())?;
            Ok(Report {
                text: out,
                status: REFUSED,
            })
        }
    }
}

// What is said of a text that is taken.
fn taken_text(alloc: Global, path: &[u8], text: &[u8], conf: &Conf) -> Result<Bytes, Memory>
    requires { ArePartsOfSite conf.now.caches conf.now.areas }
    ensures { IfOk result (λ out. (rest : List ℕ) × (out ≡ site_line path.now conf.now ++ rest)) }
{
    let rest = rest_of_taken(alloc, path, text)?;
    let mut out = Bytes::new(alloc);
    put_site(&mut out, path, conf)?;
    out.append(rest.as_slice())?;
    Ok(out)
}

// What is said of it behind the line of the site.
fn rest_of_taken(alloc: Global, path: &[u8], text: &[u8]) -> Result<Bytes, Memory> {
    let mut out = Bytes::new(alloc);
    put_idle(&mut out, path, text)?;
    put_notes(&mut out, path, text)?;
    Ok(out)
}

// A line for each refused line.
fn told_lines(alloc: Global, path: &[u8], text: &[u8], told: &[ConfFault]) -> Result<Bytes, Memory>
    ensures { IfOk result (λ out. TellsEach path.now told.now out) }
{
    let mut out = Bytes::new(alloc);
    for fault in told {
        let sentence = sentence_of(alloc, text, fault)?;
        put_fault(&mut out, path, fault, sentence.as_slice())?;
    }
    Ok(out)
}

// The line of one refused line.
fn put_fault(out: &mut Bytes, path: &[u8], fault: &ConfFault, sentence: &[u8]) -> Result<(), Memory>
    ensures { OnOk result (out.new ≡ out.old ++ fault_line path.now fault.now sentence.now) }
{
    out.append(path)?;
    out.append(b":")?;
    put_decimal(out, u64::from(fault.line))?;
    out.append(b": ")?;
    out.append(cause_name(&fault.kind))?;
    out.append(b": ")?;
    put_in_line(out, sentence)?;
    out.append(b"\n")
}

// Puts a text without its line feeds.
fn put_in_line(out: &mut Bytes, text: &[u8]) -> Result<(), Memory>
    ensures { OnOk result (out.new ≡ out.old ++ filter (λ byte. not (byte == 10)) text.now) }
{
    for byte in text {
        if *byte != b'\n' {
            out.push(*byte)?;
        }
    }
    Ok(())
}

// Says that there may be more lines, where so many are told.
fn put_more(out: &mut Bytes, path: &[u8], count: usize) -> Result<(), Memory>
    ensures { OnOk result (out.new ≡ out.old ++ more_line path.now count) }
{
    if count != MOST_TOLD {
        return Ok(());
    }
    out.append(path)?;
    out.append(b": these are the first 50 lines, and there may be more\n")
}
