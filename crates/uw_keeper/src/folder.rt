// A keeper over a folder of files. It tells nothing: no contract can say what a file system holds.
ghost use Rattle.std.specs.Prelude.{◌≡◌, ◌<◌, ◌≤◌, None, IfOk, IfSome, Err};
ghost use Rattle.uw_outside.specs.Faults.{HasCause};
ghost use Rattle.uw_keeper.specs.declared.keeper.Row.{Row};
ghost use Rattle.uw_keeper.specs.FolderSteps.{IsOfFolder};
ghost use Rattle.uw_keeper.specs.Keeping.{is_of_keeper};

use crate::{KeepFault, Keeper, Row};
use std::alloc::{AllocError, AllocFailed, Global};
use std::fs::{self, File, OpenFile};
use std::io::{self, ErrorKind, Read, Write};
use std::marker::Model;
use std::rt::Files;
use uw_base::{Bytes, read_decimal};
use uw_outside::counts::count_fault;

/// How many digits name a row's file: those of 2^64 - 1.
const DIGITS: usize = 20;

/// How often `append` tries a name that other programs take before it.
const TRIES: u64 = 1_000;

/// A keeper over a folder, in which each row is a file: the 20 digits of its number are the name, and the row's bytes
/// are what it holds. Files of other names are passed over. The folder has to be there. docs/SPOOL.md says what a crash
/// leaves and what two programs at once may do.
///
/// The folder is not listed anew for each call. `last` lists it. So does the first `append`, one whose number another
/// program took, and one after the last row was removed; the other ones count on from there. `next_after` goes on in
/// what was listed last, passing over rows that have gone meanwhile, and lists anew where that has no further row.
#[derive(Drop)]
pub struct FolderKeeper<R> {
    rt: R,
    folder: String,
    // The numbers that the last listing gave, in rising order.
    listed: Vec<u64>,
    // The number of the last row, 0 where there is none, as far as it is known.
    last: Option<u64>,
    append_faults: u64,
    other_faults: u64,
}

impl<R> Model for FolderKeeper<R> {
    ghost use Rattle.uw_keeper.specs.Folders.{KeptFaults};

    ghost Value = { KeptFaults };

    ghost view = { λ k. record { append_faults = k.append_faults; other_faults = k.other_faults } };
}

// Why a step over the folder was given up.
#[derive(Clone, Copy)]
enum FolderFault {
    // The file system failed.
    Failed,
    // No memory was left.
    Memory,
}

impl From<io::Error> for FolderFault {
    fn from(error: io::Error) -> FolderFault {
        match error.kind() {
            ErrorKind::OutOfMemory => FolderFault::Memory,
            _ => FolderFault::Failed,
        }
    }
}

impl From<AllocError> for FolderFault {
    fn from(_: AllocError) -> FolderFault {
        FolderFault::Memory
    }
}

impl<T: Drop> From<AllocFailed<T>> for FolderFault {
    fn from(_: AllocFailed<T>) -> FolderFault {
        FolderFault::Memory
    }
}

// What a call answers to the fault of a step. A fault of the file system is counted.
fn counted(faults: &mut u64, fault: FolderFault) -> KeepFault
    ensures fault { IsOfFolder result }
    ensures cause { HasCause faults.old faults.new (is_of_keeper {T = Unit {0}} (Err result)) }
{
    match fault {
        FolderFault::Failed => {
            count_fault(faults);
            KeepFault::KeeperFault
        }
        FolderFault::Memory => KeepFault::Memory,
    }
}

impl<R: Files + AllocGlobal + Clone + Drop> FolderKeeper<R> {
    /// The keeper over the folder of this path, which is not opened yet. Takes no memory.
    pub fn new(alloc: Global, rt: R, folder: String) -> FolderKeeper<R>
        ensures { result ≡ record { append_faults = 0; other_faults = 0 } }
    {
        FolderKeeper {
            rt,
            folder,
            listed: Vec::new(alloc),
            last: None,
            append_faults: 0,
            other_faults: 0,
        }
    }

    // The path of a row's file. A folder without a name is none: its rows would stand at the root.
    fn path_of(&self, alloc: Global, number: u64) -> Result<String, FolderFault> {
        if self.folder.is_empty() {
            return Err(FolderFault::Failed);
        }
        Ok(format!(in alloc; "{}/{number:020}", self.folder)?)
    }

    // Lists the folder anew.
    fn list(&mut self, alloc: Global) -> Result<(), FolderFault>
        ensures { self.new ≡ self.old }
    {
        let mut numbers = Vec::new(alloc);
        for entry in fs::read_dir(&self.rt, self.folder.as_str())? {
            match entry {
                Ok(entry) => {
                    if let Some(number) = row_number(entry.file_name()) {
                        numbers.push(number)?;
                    }
                }
                // A name that is no text is not a row's.
                Err(error) if error.kind() == ErrorKind::InvalidFilename => {}
                Err(error) => return Err(error.into()),
            }
        }
        numbers.sort_unstable();
        self.last = Some(numbers.last().copied().unwrap_or(0));
        self.listed = numbers;
        Ok(())
    }

    // The number for a row behind the last one, if there is one.
    fn next_number(&mut self, alloc: Global) -> Result<Option<u64>, FolderFault>
        ensures same { self.new ≡ self.old }
        ensures number { IfOk result (λ next. IfSome next (λ number. 1 ≤ number)) }
    {
        if self.last.is_none() {
            self.list(alloc)?;
        }
        Ok(self.last.unwrap_or(0).checked_add(1))
    }

    // Puts a row behind the last one: writes its bytes to a new file, and then gives that file the row's name. So the
    // row is whole as soon as it is there.
    fn append_row(&mut self, alloc: Global, bytes: &[u8]) -> Result<Option<u64>, FolderFault>
        ensures same { self.new ≡ self.old }
        ensures number { IfOk result (λ next. IfSome next (λ number. 1 ≤ number)) }
    {
        let Some(number) = self.next_number(alloc)? else {
            return Ok(None);
        };
        let new = self.write_new(alloc, number, bytes)?;
        let named = self.name_row(alloc, new.as_str());
        // Where this fails a file is left that is no row.
        let _ = fs::remove_file(&self.rt, new.as_str());
        named
    }

    // Writes bytes to a new file whose name is no row's, and gives its path. A name that is there was made by a program
    // that writes at this moment, or that was killed.
    fn write_new(&self, alloc: Global, number: u64, bytes: &[u8]) -> Result<String, FolderFault> {
        for attempt in 0..u64::MAX {
            let path = format!(in alloc; "{}/.new-{number:020}-{attempt}", self.folder)?;
            match File::create_new(&self.rt, path.as_str()) {
                Ok(file) => match fill_file(file, bytes) {
                    Ok(()) => return Ok(path),
                    Err(error) => {
                        let _ = fs::remove_file(&self.rt, path.as_str());
                        return Err(error.into());
                    }
                },
                Err(error) if error.kind() == ErrorKind::AlreadyExists => {}
                Err(error) => return Err(error.into()),
            }
        }
        Err(FolderFault::Failed)
    }

    // Gives a written file the name of the row behind the last one. A link is made only where the name is free, so no
    // program takes a name that another one has.
    fn name_row(&mut self, alloc: Global, new: &str) -> Result<Option<u64>, FolderFault>
        ensures same { self.new ≡ self.old }
        ensures number { IfOk result (λ next. IfSome next (λ number. 1 ≤ number)) }
    {
        for _ in 0..TRIES {
            let Some(number) = self.next_number(alloc)? else {
                return Ok(None);
            };
            let path = self.path_of(alloc, number)?;
            match fs::hard_link(&self.rt, new, path.as_str()) {
                Ok(()) => {
                    self.last = Some(number);
                    return Ok(Some(number));
                }
                Err(error) if error.kind() == ErrorKind::AlreadyExists => self.last = None,
                Err(error) => return Err(error.into()),
            }
        }
        Err(FolderFault::Failed)
    }

    // Removes a row's file, and says whether it was there.
    fn remove_row(&mut self, alloc: Global, number: u64) -> Result<bool, FolderFault>
        ensures { self.new ≡ self.old }
    {
        if number == 0 {
            return Ok(false);
        }
        let path = self.path_of(alloc, number)?;
        match fs::remove_file(&self.rt, path.as_str()) {
            Ok(()) => {
                if self.last == Some(number) {
                    self.last = None;
                }
                Ok(true)
            }
            Err(error) if error.kind() == ErrorKind::NotFound => Ok(false),
            Err(error) => Err(error.into()),
        }
    }

    // The row of a number, unless its file has gone.
    fn read_row(&self, alloc: Global, number: u64) -> Result<Option<Row>, FolderFault>
        ensures { IfOk result (λ found. IfSome found (λ (row : Row). row.number ≡ number)) }
    {
        let path = self.path_of(alloc, number)?;
        let mut file = match fs::open(&self.rt, path.as_str()) {
            Ok(file) => file,
            Err(error) if error.kind() == ErrorKind::NotFound => return Ok(None),
            Err(error) => return Err(error.into()),
        };
        let mut bytes = Vec::new(alloc);
        file.read_to_end(&mut bytes)?;
        Ok(Some(Row {
            number,
            bytes: Bytes::from_vec(bytes),
        }))
    }

    // The first of the listed rows above a number that is still there.
    fn listed_after(&self, alloc: Global, number: u64) -> Result<Option<Row>, FolderFault>
        ensures { IfOk result (λ found. IfSome found (λ (row : Row). number < row.number)) }
    {
        // All from this place on are above the number, since they rise. The test below tells it to the contract.
        let place = self.listed.partition_point(|listed| *listed <= number);
        for listed in &self.listed[place..] {
            if number < *listed {
                if let Some(row) = self.read_row(alloc, *listed)? {
                    return Ok(Some(row));
                }
            }
        }
        Ok(None)
    }

    // The first row above a number, listing anew where the listed ones have none.
    fn first_after(&mut self, alloc: Global, number: u64) -> Result<Option<Row>, FolderFault>
        ensures same { self.new ≡ self.old }
        ensures after { IfOk result (λ found. IfSome found (λ (row : Row). number < row.number)) }
    {
        if let Some(row) = self.listed_after(alloc, number)? {
            return Ok(Some(row));
        }
        self.list(alloc)?;
        self.listed_after(alloc, number)
    }
}

impl<R: Files + AllocGlobal + Clone + Drop> Keeper for FolderKeeper<R> {
    ghost rows = { λ _. None };

    ghost append_faults = { λ k. k.append_faults };

    ghost other_faults = { λ k. k.other_faults };

    fn last(&mut self, alloc: Global) -> Result<Option<u64>, KeepFault> {
        match self.list(alloc) {
            Ok(()) => Ok(self.listed.last().copied()),
            Err(fault) => Err(counted(&mut self.other_faults, fault)),
        }
    }

    fn append(&mut self, alloc: Global, bytes: &[u8]) -> Result<u64, KeepFault> {
        match self.append_row(alloc, bytes) {
            Ok(Some(number)) => Ok(number),
            Ok(None) => Err(KeepFault::NoNumber),
            Err(fault) => Err(counted(&mut self.append_faults, fault)),
        }
    }

    fn remove(&mut self, alloc: Global, number: u64) -> Result<(), KeepFault> {
        match self.remove_row(alloc, number) {
            Ok(true) => Ok(()),
            Ok(false) => Err(KeepFault::Absent { number }),
            Err(fault) => Err(counted(&mut self.other_faults, fault)),
        }
    }

    fn next_after(&mut self, alloc: Global, number: u64) -> Result<Option<Row>, KeepFault> {
        match self.first_after(alloc, number) {
            Ok(row) => Ok(row),
            Err(fault) => Err(counted(&mut self.other_faults, fault)),
        }
    }
}

// Writes all bytes to a new file, down to the disk.
fn fill_file<F: Write + OpenFile + Drop>(mut file: F, bytes: &[u8]) -> io::Result<()> {
    file.write_all(bytes)?;
    file.sync_all()
}

// The number of the row whose file has this name, if it is one.
fn row_number(name: &str) -> Option<u64> {
    if name.len() != DIGITS {
        return None;
    }
    read_decimal(name.as_bytes()).filter(|number| *number != 0)
}
