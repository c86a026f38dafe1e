// What is asked in the tests, and how answers are compared.
ghost use Rattle.std.specs.Prelude.{◌≡◌, IfOk, true};

use std::alloc::{AllocError, Global};
use uw_area::Area;
use uw_base::{Bytes, Memory};
use uw_intent::recovered_call;
use uw_model::{AreaAnswer, AreaBytes, AreaOp, ListArea, Width};
use uw_outside::{Fuse, Immortal};

/// What is asked.
#[derive(Clone, Copy, Debug)]
pub enum What {
    Read(u64, u64),
    /// So many bytes, the first of them this number, each 7 more than the one before it.
    Write(u64, u64, u8),
    ReadNum(u64, Width),
    WriteNum(u64, Width, u64),
    IncNum(u64, Width, u64),
    DecNum(u64, Width, u64),
    Updates,
}

/// The most bytes of one write.
pub const MOST: u64 = 65_536;

fn pattern(alloc: Global, len: u64, first: u8) -> Result<AreaBytes, Memory> {
    let mut bytes = Vec::new(alloc);
    let mut byte = first;
    for _ in 0..len.min(MOST) {
        bytes.push(byte)?;
        byte = byte.wrapping_add(7);
    }
    if bytes.len() > 65_536 {
        return Err(Memory);
    }
    Ok(AreaBytes::new(Bytes::from_vec(bytes)))
}

/// The operation.
pub fn op_of(alloc: Global, what: What) -> Result<AreaOp, Memory> {
    Ok(match what {
        What::Read(at, len) => AreaOp::Read { at, len },
        What::Write(at, len, first) => AreaOp::Write {
            at,
            bytes: pattern(alloc, len, first)?,
        },
        What::ReadNum(at, width) => AreaOp::ReadNum { at, width },
        What::WriteNum(at, width, value) => AreaOp::WriteNum { at, width, value },
        What::IncNum(at, width, by) => AreaOp::IncNum { at, width, by },
        What::DecNum(at, width, by) => AreaOp::DecNum { at, width, by },
        What::Updates => AreaOp::Updates,
    })
}

/// Whether two answers are the same.
pub fn is_same(one: &AreaAnswer, other: &AreaAnswer) -> bool {
    match (one, other) {
        (AreaAnswer::Bytes(bytes), AreaAnswer::Bytes(others)) => bytes.as_slice()
            == others.as_slice(),
        (AreaAnswer::Number(number), AreaAnswer::Number(wanted)) => *number == *wanted,
        (AreaAnswer::Done, AreaAnswer::Done) => true,
        (
            AreaAnswer::OutOfArea { at, len, size },
            AreaAnswer::OutOfArea {
                at: place,
                len: bytes,
                size: all,
            },
        ) => *at == *place && *len == *bytes && *size == *all,
        _ => false,
    }
}

/// Whether an operation, with no death, is answered by the area as by the list.
pub fn answers_alike(
    alloc: Global,
    area: &mut Area,
    list: &mut ListArea,
    what: What,
) -> Result<bool, Memory> {
    let op = op_of(alloc, what)?;
    let wanted = list.call(alloc, &op)?;
    let Ok(answer) = recovered_call(alloc, area, 0, &op, &mut Immortal::new()) else {
        return Ok(false);
    };
    Ok(is_same(&answer, &wanted))
}

/// Whether the area has the list's bytes and count of updates.
pub fn stands_alike(
    alloc: Global,
    area: &mut Area,
    list: &mut ListArea,
    size: u64,
) -> Result<bool, Memory> {
    let bytes = answers_alike(alloc, area, list, What::Read(0, size))?;
    let updates = answers_alike(alloc, area, list, What::Updates)?;
    Ok(bytes && updates)
}

/// A life that refuses its n-th write.
pub fn dies_at(alloc: Global, n: u64) -> Result<Fuse, AllocError>
    ensures { IfOk result (λ fuse. fuse.alive ≡ true) }
{
    let mut numbers = Vec::new(alloc);
    if n > 0 {
        numbers.push(n)?;
    }
    Ok(Fuse::new(numbers))
}
