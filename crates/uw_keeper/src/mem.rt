// A keeper in memory.
ghost use Rattle.std.specs.Prelude.{◌≡◌, ◌↔◌, false, Some, IfOk, IfErr, Err, if◌then◌else◌};
ghost use Rattle.uw_outside.specs.Counts.{next_count, IsListed};
ghost use Rattle.uw_outside.specs.Faults.{HasCause};
ghost use Rattle.uw_keeper.specs.Keeping.{Appends, GivesNext, Removes, TellsLast, is_of_keeper};
ghost use Rattle.uw_keeper.specs.Rows.{AreRows, has_row, last_number, last_of_rows, row_after, without_row};

use crate::{KeepFault, Keeper, Row};
use std::alloc::Global;
use std::marker::Model;
use uw_base::{Bytes, Memory};
use uw_outside::counts::{count_call, count_fault};

/// A keeper of rows in memory, of whose calls the listed ones fail. It tells its rows.
#[derive(Drop)]
pub struct MemKeeper {
    rows: Vec<Row>,
    fails: Vec<u64>,
    // How many calls of its functions were made, of all four together.
    calls: u64,
    append_faults: u64,
    other_faults: u64,
}

impl Model for MemKeeper {
    ghost use Rattle.uw_keeper.specs.InMemory.{KeptRows};
    ghost use Rattle.uw_keeper.specs.Rows.{AreRows};

    ghost Value = { KeptRows };

    ghost view = { λ k. record {
      rows = k.rows.items;
      fails = k.fails.items;
      calls = k.calls;
      append_faults = k.append_faults;
      other_faults = k.other_faults;
    } };

    ghost invariant = { λ k. AreRows k.rows.items };
}

impl MemKeeper {
    /// The keeper of these rows, whose numbers rise from at least 1. The calls at the places in `fails`, counted from 1
    /// over all of its functions together, fail. Takes no memory.
    pub fn new(rows: Vec<Row>, fails: Vec<u64>) -> MemKeeper
        requires { AreRows rows.items }
        ensures { result ≡ record {
          rows = rows.items;
          fails = fails.items;
          calls = 0;
          append_faults = 0;
          other_faults = 0;
        } }
    {
        MemKeeper {
            rows,
            fails,
            calls: 0,
            append_faults: 0,
            other_faults: 0,
        }
    }

    /// Its rows, in rising order.
    pub fn rows(&self) -> &[Row]
        ensures { result.now ≡ self.now.rows }
    {
        &self.rows
    }

    // Counts a call, and says whether it fails. One that fails counts as a fault of the calls other than `append`.
    fn other_call(&mut self) -> Result<(), KeepFault>
        ensures counted { self.new ≡ record self.old {
          calls = next_count self.old.calls;
          other_faults = if is_of_keeper result then next_count self.old.other_faults else self.old.other_faults;
        } }
        ensures listed { (result ≡ Err KeepFault.KeeperFault) ↔ IsListed self.old.fails self.old.calls }
        ensures fault { IfErr result (λ fault. fault ≡ KeepFault.KeeperFault) }
        ensures cause { HasCause self.old.other_faults self.new.other_faults (is_of_keeper result) }
    {
        if count_call(&mut self.calls, &self.fails) {
            count_fault(&mut self.other_faults);
            return Err(KeepFault::KeeperFault);
        }
        Ok(())
    }
}

impl Keeper for MemKeeper {
    ghost rows = { λ k. Some k.rows };

    ghost append_faults = { λ k. k.append_faults };

    ghost other_faults = { λ k. k.other_faults };

    fn last(&mut self, _alloc: Global) -> Result<Option<u64>, KeepFault>
        ensures tells { TellsLast (Some self.old.rows) result }
        ensures rows { Some self.new.rows ≡ Some self.old.rows }
        ensures cause { HasCause self.old.other_faults self.new.other_faults (is_of_keeper result) }
        ensures appends { self.new.append_faults ≡ self.old.append_faults }
        ensures listed { (result ≡ Err KeepFault.KeeperFault) ↔ IsListed self.old.fails self.old.calls }
        ensures counted { self.new ≡ record self.old {
          calls = next_count self.old.calls;
          other_faults = if is_of_keeper result then next_count self.old.other_faults else self.old.other_faults;
        } }
    {
        self.other_call()?;
        Ok(last_of(&self.rows))
    }

    fn append(&mut self, alloc: Global, bytes: &[u8]) -> Result<u64, KeepFault>
        ensures appended { Appends (Some self.old.rows) (Some self.new.rows) bytes.now result }
        ensures cause { HasCause self.old.append_faults self.new.append_faults (is_of_keeper result) }
        ensures others { self.new.other_faults ≡ self.old.other_faults }
        ensures listed { (result ≡ Err KeepFault.KeeperFault) ↔ IsListed self.old.fails self.old.calls }
        ensures counted { self.new ≡ record self.old {
          rows = self.new.rows;
          calls = next_count self.old.calls;
          append_faults = if is_of_keeper result then next_count self.old.append_faults else self.old.append_faults;
        } }
    {
        if count_call(&mut self.calls, &self.fails) {
            count_fault(&mut self.append_faults);
            return Err(KeepFault::KeeperFault);
        }
        push_row(alloc, &mut self.rows, bytes)
    }

    fn remove(&mut self, _alloc: Global, number: u64) -> Result<(), KeepFault>
        ensures removed { Removes (Some self.old.rows) (Some self.new.rows) number result }
        ensures cause { HasCause self.old.other_faults self.new.other_faults (is_of_keeper result) }
        ensures appends { self.new.append_faults ≡ self.old.append_faults }
        ensures listed { (result ≡ Err KeepFault.KeeperFault) ↔ IsListed self.old.fails self.old.calls }
        ensures counted { self.new ≡ record self.old {
          rows = self.new.rows;
          calls = next_count self.old.calls;
          other_faults = if is_of_keeper result then next_count self.old.other_faults else self.old.other_faults;
        } }
    {
        self.other_call()?;
        remove_row(&mut self.rows, number)
    }

    fn next_after(&mut self, alloc: Global, number: u64) -> Result<Option<Row>, KeepFault>
        ensures gives { GivesNext (Some self.old.rows) number result }
        ensures rows { Some self.new.rows ≡ Some self.old.rows }
        ensures cause { HasCause self.old.other_faults self.new.other_faults (is_of_keeper result) }
        ensures appends { self.new.append_faults ≡ self.old.append_faults }
        ensures listed { (result ≡ Err KeepFault.KeeperFault) ↔ IsListed self.old.fails self.old.calls }
        ensures counted { self.new ≡ record self.old {
          calls = next_count self.old.calls;
          other_faults = if is_of_keeper result then next_count self.old.other_faults else self.old.other_faults;
        } }
    {
        self.other_call()?;
        Ok(copy_after(alloc, &self.rows, number)?)
    }
}

// The number of the last row, if there is one.
fn last_of(rows: &[Row]) -> Option<u64>
    ensures { result ≡ last_of_rows rows.now }
{
    match rows.last() {
        Some(row) => Some(row.number),
        None => None,
    }
}

// Puts a row behind the last one, with the number after that of the last one.
fn push_row(alloc: Global, rows: &mut Vec<Row>, bytes: &[u8]) -> Result<u64, KeepFault>
    requires { AreRows rows.old.items }
    ensures appended { Appends (Some rows.old.items) (Some rows.new.items) bytes.now result }
    ensures rows { AreRows rows.new.items }
    ensures fault { is_of_keeper result ≡ false }
{
    let last = last_of(rows).unwrap_or(0);
    let Some(number) = last.checked_add(1) else {
        return Err(KeepFault::NoNumber);
    };
    let bytes = Bytes::from_slice(alloc, bytes)?;
    rows.push(Row { number, bytes })?;
    Ok(number)
}

// Whether a row has the number.
fn has(rows: &[Row], number: u64) -> bool
    ensures { result ≡ has_row number rows.now }
{
    for row in rows {
        if row.number == number {
            return true;
        }
    }
    false
}

// Removes the row of a number.
fn remove_row(rows: &mut Vec<Row>, number: u64) -> Result<(), KeepFault>
    requires { AreRows rows.old.items }
    ensures removed { Removes (Some rows.old.items) (Some rows.new.items) number result }
    ensures rows { AreRows rows.new.items }
    ensures fault { is_of_keeper result ≡ false }
{
    if !has(rows, number) {
        return Err(KeepFault::Absent { number });
    }
    rows.retain(|row| row.number != number);
    Ok(())
}

// A copy of the first row whose number is above another.
fn copy_after(alloc: Global, rows: &[Row], number: u64) -> Result<Option<Row>, Memory>
    ensures { IfOk result (λ next. next ≡ row_after number rows.now) }
{
    for row in rows {
        if number < row.number {
            let bytes = Bytes::from_slice(alloc, row.bytes.as_slice())?;
            return Ok(Some(Row {
                number: row.number,
                bytes,
            }));
        }
    }
    Ok(None)
}
