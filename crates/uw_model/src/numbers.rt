// The numbers that values of eight bytes stand for, and what a number call makes of them.
ghost use Rattle.std.specs.Prelude.{◌≡◌, false, Option, Some, None, length, option_copied, option_map, if◌then◌else◌};
ghost use Rattle.uw_model.specs.declared.entries.Entry.{Entry as EntryValue};
ghost use Rattle.uw_model.specs.Calls.{number_of, is_no_number, number_at, result_of, is_zero_division, is_in_range, dies_of_number};

use crate::sizes::dies_at;
use crate::{Entry, MathOp};

/// What a number call does: an operation with an amount, and the seconds that the result is to live.
#[derive(Clone, Copy)]
pub struct Reckoning {
    pub op: MathOp,
    pub by: i64,
    pub ttl: u64,
}

/// The number that eight bytes stand for.
fn number_of(value: &[u8]) -> i64
    requires { length value.now ≡ 8 }
    ensures { result ≡ number_of value.now }
{
    i64::from_le_bytes([
        value[0], value[1], value[2], value[3], value[4], value[5], value[6], value[7],
    ])
}

/// The number of an alive entry, 0 where there is none; no number where its value has not eight bytes.
pub fn number_at(alive: Option<&Entry>) -> Option<i64>
    ensures { result ≡ (if is_no_number (option_copied alive.entry) then None else Some (number_at (option_copied alive.entry))) }
{
    let Some(entry) = alive else {
        return Some(0);
    };
    let value = entry.value.as_slice();
    if value.len() != 8 {
        return None;
    }
    Some(number_of(value))
}

/// Whether this divides by 0.
pub fn is_zero_division(op: MathOp, by: i64) -> bool
    ensures { result ≡ is_zero_division op by }
{
    op == MathOp::Div && by == 0
}

/// The result of an operation with an amount, where it is a number of 64 bits with a sign.
pub fn result_of(op: MathOp, number: i64, by: i64) -> Option<i64>
    requires { is_zero_division op by ≡ false }
    ensures { result ≡ (if is_in_range (result_of op number by) then Some (result_of op number by) else None) }
{
    match op {
        MathOp::Inc => number.checked_add(by),
        MathOp::Dec => number.checked_sub(by),
        MathOp::Mul => number.checked_mul(by),
        MathOp::Div => number.checked_div(by),
    }
}

/// When a number that is written now dies, in seconds and 0 for never. Where the key has an alive entry, the moment at
/// which that one dies is given, and it stays where the time to live is 0.
pub fn dies_of_number(moment: u64, ttl: u64, alive: Option<u64>) -> u64
    ensures { (e : Option EntryValue) → option_map (λ e. e.dies) e ≡ alive → result ≡ dies_of_number moment ttl e }
{
    match alive {
        Some(dies) if ttl == 0 => dies,
        _ => dies_at(moment, ttl),
    }
}

/// When an alive entry dies, where there is one.
pub fn dies_of(alive: Option<&Entry>) -> Option<u64>
    ensures { option_map (λ e. e.dies) (option_copied alive.entry) ≡ result }
{
    alive.map(|entry| entry.dies)
}
