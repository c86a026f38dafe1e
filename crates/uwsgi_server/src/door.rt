// What is asked at the door, before any run: help, the version, and a check of a configuration.
use crate::opening::tell_of_file;
use std::alloc::Global;
use std::fs::File;
use std::io::Write;
use uw_base::Memory;
use uw_check::{Report, report_on};
use uw_outside::{Filled, Reading, fill};
use uw_rules::RegexPatterns;

/// The most bytes that are read of a configuration: one more than its text may have.
const MOST_READ: usize = 1_048_577;

/// The name, and the number that stands first in CHANGELOG.md.
const VERSION: &[u8] = b"niqwasel 0.5.0\n";

const HELP: &[u8] = b"\
The uWSGI server as an application server without an interpreter.

  uwsgi-server FILE SPOOL pipe                answer uwsgi packets, input to output
      uwsgi-server site.ini - pipe < packets > replies
      uwsgi-server site.ini - pipe --die 3,7 < packets    by a worker that dies
  uwsgi-server FILE SPOOL spool               run the tasks of the folder SPOOL
      uwsgi-server site.ini tasks spool
  uwsgi-server FILE SPOOL load FIRST COUNT    answer COUNT packets of its own
      uwsgi-server site.ini - load 1 1000
  uwsgi-server --check FILE                   tell every refused line of FILE
      uwsgi-server --check site.ini
  uwsgi-server --help                         this page
  uwsgi-server --version                      the name and the number

FILE is the configuration. SPOOL is a folder of tasks, or - for none that stays.

Status: 0 done, 1 usage, 2 configuration refused, 3 read failed, 4 write failed,
5 truncated, 6 packet refused, 7 spool failed, 8 out of memory, 9 too many.

Documents: README.md, docs/CONFIG.md and docs/RULES.md (FILE), docs/SPOOL.md,
docs/PROTOCOL.md (packets), docs/DEATHS.md (--die), docs/MIGRATE.md (from uWSGI).
";

/// The status where the words ask something at the door, which is then answered; none where they do not.
pub fn answered(rt: &HostRuntime, alloc: Global, words: &[String]) -> Option<u8> {
    match words {
        [_, word] if word.as_bytes() == b"--help".as_slice() => Some(said(rt, HELP)),
        [_, word] if word.as_bytes() == b"--version".as_slice() => Some(said(rt, VERSION)),
        [_, word, path] if word.as_bytes() == b"--check".as_slice() => {
            Some(checked(rt, alloc, path.as_str()))
        }
        _ => None,
    }
}

/// Says that there is help, where there are no words at all.
pub fn tell_of_help(rt: &HostRuntime, words: &[String]) {
    if words.len() <= 1 {
        tell(rt, b"uwsgi-server --help tells more");
    }
}

// Writes a text on standard output, and gives the status.
fn said(rt: &HostRuntime, text: &[u8]) -> u8 {
    match rt.stdout().write_all(text) {
        Ok(()) => 0,
        Err(_) => {
            tell(rt, b"write failed");
            4
        }
    }
}

// Writes a line on standard error.
fn tell(rt: &HostRuntime, line: &[u8]) {
    let _ = rt.stderr().write_all(line);
    let _ = rt.stderr().write_all(b"\n");
}

// Checks the configuration in the file of a path, writes what was found on standard output, and gives the status.
fn checked(rt: &HostRuntime, alloc: Global, path: &str) -> u8 {
    let report = match read(rt, alloc, path) {
        Ok(Some(text)) => reported(alloc, path, text.as_slice()),
        Ok(None) => {
            tell_of_file(rt, alloc, path);
            tell(rt, b"read failed");
            return 3;
        }
        Err(Memory) => Err(Memory),
    };
    match report {
        Ok(report) => match said(rt, report.text.as_slice()) {
            0 => report.status,
            failed => failed,
        },
        Err(Memory) => {
            tell(rt, b"out of memory");
            8
        }
    }
}

// The bytes of a file, up to the first one that is too many; none where it cannot be read.
fn read(rt: &HostRuntime, alloc: Global, path: &str) -> Result<Option<Vec<u8>>, Memory> {
    let Ok(file) = File::open(rt, path) else {
        return Ok(None);
    };
    let mut text = vec![in alloc; 0; MOST_READ]?;
    let Ok(mut source) = Reading::new(alloc, file) else {
        return Err(Memory);
    };
    match fill(&mut source, text.as_mut_slice()) {
        Filled::Whole => Ok(Some(text)),
        Filled::Short(count) => {
            text.truncate(count);
            Ok(Some(text))
        }
        Filled::Failed(_) => Ok(None),
    }
}

// The report on a text.
fn reported(alloc: Global, path: &str, text: &[u8]) -> Result<Report, Memory> {
    let text = text.get(..MOST_READ.min(text.len())).unwrap_or(text);
    report_on(
        alloc,
        path.as_bytes(),
        text,
        &mut RegexPatterns::new(Vec::new(alloc)),
    )
}
