// Tasks, and the rows that they are put aside as.
ghost use Rattle.std.specs.Prelude.{◌≡◌, List, ℕ, is_some, IsSome, IfOk};
ghost use Rattle.uw_base.specs.declared.variables.Pair.{Pair};
ghost use Rattle.uw_packet.specs.BlockReads.{vars_block};
ghost use Rattle.uw_keeper.specs.Keeping.{keeping};
ghost use Rattle.uw_chain.specs.Spooling.{PutsTask, row_bytes, task_body, task_vars};

use std::alloc::Global;
use uw_base::texts::is;
use uw_base::{Bytes, Memory, Vars};
use uw_keeper::{KeepFault, Keeper};
use uw_model::SpoolAnswer;
use uw_packet::write_vars;

// The most bytes of a block, and of a text in it.
const LONGEST: usize = 65535;

/// Puts a task aside: a row of its variables and its body. The variables must have a block.
pub fn put_task<P: Keeper>(
    alloc: Global,
    vars: &Vars,
    body: &[u8],
    keep: &mut P,
) -> Result<SpoolAnswer, Memory>
    requires { IsSome (vars_block vars.now) }
    ensures { PutsTask (keeping P.rows P.append_faults P.other_faults keep.old) (keeping P.rows P.append_faults P.other_faults keep.new) vars.now body.now result }
{
    let row = row_of_task(alloc, vars, body)?;
    put_row(alloc, row.as_slice(), keep)
}

/// The row of a task: a packet with the block of its variables, and its body behind it.
#[tactic(auto, unfolding(crate::specs::Spooling::row_bytes))]
pub fn row_of_task(alloc: Global, vars: &Vars, body: &[u8]) -> Result<Bytes, Memory>
    requires { IsSome (vars_block vars.now) }
    ensures { IfOk result (λ row. row ≡ row_bytes vars.now body.now) }
{
    let Some(block) = write_vars(alloc, vars)? else {
        unreachable!();
    };
    let size = (block.len() as u16).to_le_bytes();
    let mut row = Bytes::from_slice(alloc, &[17])?;
    row.append(&size)?;
    row.push(0)?;
    row.append(block.as_slice())?;
    row.append(body)?;
    Ok(row)
}

/// Puts the row of a task behind the others.
pub fn put_row<P: Keeper>(alloc: Global, row: &[u8], keep: &mut P) -> Result<SpoolAnswer, Memory>
    ensures { (vars : List Pair) (body : List ℕ) → row.now ≡ row_bytes vars body
        → PutsTask (keeping P.rows P.append_faults P.other_faults keep.old) (keeping P.rows P.append_faults P.other_faults keep.new) vars body result }
{
    match keep.append(alloc, row) {
        Ok(number) => Ok(SpoolAnswer::Put { number }),
        Err(KeepFault::NoNumber) => Ok(SpoolAnswer::NoNumber),
        Err(KeepFault::KeeperFault) => Ok(SpoolAnswer::Failed),
        Err(KeepFault::Memory) => Err(Memory),
        Err(KeepFault::Absent { .. }) => unreachable!(),
    }
}

/// The task of pairs: all of them but `body` are its variables, and the value of `body` is its body.
pub fn task_of(alloc: Global, pairs: &Vars) -> Result<(Vars, Bytes), Memory>
    ensures { IfOk result (λ task. (task.0 ≡ task_vars pairs.now) × (task.1 ≡ task_body pairs.now) × (IsSome (vars_block pairs.now) → IsSome (vars_block task.0))) }
{
    let vars = vars_of_task(alloc, pairs)?;
    let body = Bytes::from_slice(alloc, pairs.get(b"body"))?;
    Ok((vars, body))
}

// The pairs but `body`.
fn vars_of_task(alloc: Global, pairs: &Vars) -> Result<Vars, Memory>
    ensures { IfOk result (λ vars. vars ≡ task_vars pairs.now) }
{
    let mut vars = Vars::new(alloc);
    for place in 0..pairs.len() {
        let (key, value) = pairs.pair(place);
        if !is(key, b"body") {
            vars.set(key, value)?;
        }
    }
    Ok(vars)
}

/// Whether variables have a block: each text and the block are at most 65,535 bytes long.
pub fn has_block(vars: &Vars) -> bool
    ensures { result ≡ is_some (vars_block vars.now) }
{
    let mut length = 0;
    for place in 0..vars.len() {
        let (key, value) = vars.pair(place);
        if key.len() > LONGEST || value.len() > LONGEST {
            return false;
        }
        length += 2 + key.len() + 2 + value.len();
        if length > LONGEST {
            return false;
        }
    }
    true
}
