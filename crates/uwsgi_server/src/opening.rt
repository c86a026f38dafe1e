// What of the words' paths cannot be used, and why: told before the text of the run itself.
use std::alloc::Global;
use std::fs::{self, File};
use std::io::{self, ErrorKind, Read, Write};
use uw_top::RunFault;

/// The name of a file by which is tried whether one can be made: as that of a row which is being written.
const PROBE: &str = ".new-try";

/// Why no byte can be read of the file of a path; none where one can, or the file is empty.
pub fn reason_of_file(rt: &HostRuntime, path: &str) -> Option<io::Error> {
    match File::open(rt, path) {
        Ok(mut file) => {
            let mut byte = [0u8; 1];
            file.read(&mut byte).err()
        }
        Err(error) => Some(error),
    }
}

// Why no task can be put into the folder of a path; none where one can.
fn reason_of_folder(rt: &HostRuntime, alloc: Global, path: &str) -> Option<io::Error> {
    let Ok(probe) = format!(in alloc; "{path}/{PROBE}") else {
        return None;
    };
    match File::create_new(rt, probe.as_str()) {
        Ok(_) => {
            let _ = fs::remove_file(rt, probe.as_str());
            None
        }
        // Another program tries at this moment, or was killed as it tried.
        Err(error) if error.kind() == ErrorKind::AlreadyExists => None,
        Err(error) => Some(error),
    }
}

// Writes a line on standard error; where there is no memory for it, nothing.
fn tell(rt: &HostRuntime, alloc: Global, path: &str, error: &io::Error, rest: &str) {
    if let Ok(line) = format!(in alloc; "{path}: {error}{rest}\n") {
        let _ = rt.stderr().write_all(line.as_bytes());
    }
}

/// Says why no byte of a file can be read, if that is so.
pub fn tell_of_file(rt: &HostRuntime, alloc: Global, path: &str) {
    if let Some(error) = reason_of_file(rt, path) {
        tell(rt, alloc, path, &error, "");
    }
}

/// Says why a run could not read its configuration, the file of this path, if that is why it ended.
pub fn tell_of_configuration(
    rt: &HostRuntime,
    alloc: Global,
    path: Option<&String>,
    fault: &RunFault,
) {
    match (path, fault) {
        (Some(path), RunFault::ReadFault) => tell_of_file(rt, alloc, path.as_str()),
        _ => {}
    }
}

/// Says why no task can be put into SPOOL, if that is so and the command may put one.
pub fn tell_of_spool(
    rt: &HostRuntime,
    alloc: Global,
    spool: Option<&String>,
    command: Option<&String>,
) {
    let (Some(spool), Some(command)) = (spool, command) else {
        return;
    };
    if spool.as_str() == "-" || !puts_tasks(command.as_bytes()) {
        return;
    }
    if let Some(error) = reason_of_folder(rt, alloc, spool.as_str()) {
        tell(
            rt,
            alloc,
            spool.as_str(),
            &error,
            ", so no task can be put there",
        );
    }
}

// Whether a command may put a task.
fn puts_tasks(command: &[u8]) -> bool {
    command == b"pipe".as_slice() || command == b"spool".as_slice()
}
