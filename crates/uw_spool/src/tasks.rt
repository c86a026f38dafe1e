// The task of a row.
ghost use Rattle.std.specs.Prelude.{◌≡◌, ◌<◌, ◌^◌, length, IfOk};
ghost use Rattle.uw_packet.specs.Blocks.{vars_read};
ghost use Rattle.uw_spool.specs.Tasks.{counted_status, is_later, row_vars, with_body};

use std::alloc::Global;
use uw_base::{Memory, Vars, read_decimal};
use uw_packet::{PacketFault, read_vars};

/// The most bytes of a row.
const MOST_ROW_BYTES: usize = 1_048_576;

/// The modifier1 of a task's packet.
const TASK: u8 = 17;

/// The variables of a row's task, with its body, unless the row holds no task.
#[tactic(auto, unfolding(crate::specs::Tasks::row_vars))]
pub fn row_vars(alloc: Global, bytes: &[u8]) -> Result<Option<Vars>, Memory>
    ensures { IfOk result (λ vars. vars ≡ row_vars bytes.now) }
{
    if bytes.len() > MOST_ROW_BYTES {
        return Ok(None);
    }
    let [m1, low, high, _, behind @ ..] = bytes else {
        return Ok(None);
    };
    if *m1 != TASK {
        return Ok(None);
    }
    let size = usize::from(*low) + 256 * usize::from(*high);
    match behind.split_at_checked(size) {
        Some((block, body)) => vars_with_body(alloc, block, body),
        None => Ok(None),
    }
}

// The variables of a block, and the body as one more, unless it has no byte.
fn vars_with_body(alloc: Global, block: &[u8], body: &[u8]) -> Result<Option<Vars>, Memory>
    requires { length block.now < 2 ^ 32 }
    ensures { IfOk result (λ vars. vars ≡ with_body body.now (vars_read block.now)) }
{
    let mut vars = match read_vars(alloc, block) {
        Ok(vars) => vars,
        Err(PacketFault::Memory) => return Err(Memory),
        Err(_) => return Ok(None),
    };
    if !body.is_empty() {
        vars.set(b"body", body)?;
    }
    Ok(Some(vars))
}

/// Whether a task is to wait at a moment in seconds.
pub fn is_later(now: u64, vars: &Vars) -> bool
    ensures { result ≡ is_later now vars.now }
{
    match read_decimal(vars.get(b"at")) {
        Some(at) => now < at,
        None => false,
    }
}

/// A status as it counts: -2, -1 or 0.
pub fn counted_status(status: i64) -> i64
    ensures { result ≡ counted_status status }
{
    match status {
        -2 => -2,
        0 => 0,
        _ => -1,
    }
}
