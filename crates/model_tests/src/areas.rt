// Operations of one area, each with the answer that it must have.
use std::alloc::Global;
use std::process::Abort;
use std::test::Fail;
use uw_base::{Bytes, Memory};
use uw_model::{AreaAnswer, AreaBytes, AreaOp, ListArea, Width};

/// What is asked.
#[derive(Clone, Copy)]
enum What {
    Read(u64, u64),
    Write(u64, &'static [u8]),
    ReadNum(u64, Width),
    WriteNum(u64, Width, u64),
    IncNum(u64, Width, u64),
    DecNum(u64, Width, u64),
    Updates,
}

/// The answer that is wanted.
#[derive(Clone, Copy)]
enum Want {
    Bytes(&'static [u8]),
    Number(u64),
    Done,
    OutOfArea(u64, u64),
}

/// How many bytes the area has.
const SIZE: u64 = 10;

const ROWS: &[(What, Want)] = &[
    (What::Read(0, 10), Want::Bytes(b"\0\0\0\0\0\0\0\0\0\0")),
    // up to the edge, one byte behind it, and one before it
    (What::Write(8, b"yz"), Want::Done),
    (What::Write(9, b"ab"), Want::OutOfArea(9, 2)),
    (What::Write(7, b"xy"), Want::Done),
    (What::Read(6, 4), Want::Bytes(b"\0xyz")),
    // no bytes
    (What::Read(10, 0), Want::Bytes(b"")),
    (What::Read(11, 0), Want::OutOfArea(11, 0)),
    // places whose slices end behind 2^64
    (What::Read(u64::MAX, 1), Want::OutOfArea(u64::MAX, 1)),
    (What::Read(1, u64::MAX), Want::OutOfArea(1, u64::MAX)),
    (
        What::Write(u64::MAX - 1, b"abc"),
        Want::OutOfArea(u64::MAX - 1, 3),
    ),
    (
        What::WriteNum(u64::MAX, Width::W16, 7),
        Want::OutOfArea(u64::MAX, 2),
    ),
    (What::Updates, Want::Number(2)),
    // the lowest byte stands first
    (What::WriteNum(0, Width::W32, 0x0102_0304), Want::Done),
    (What::Read(0, 4), Want::Bytes(b"\x04\x03\x02\x01")),
    (What::ReadNum(1, Width::W16), Want::Number(0x0203)),
    // each width wraps, and leaves the bytes behind it
    (What::WriteNum(0, Width::W8, 0x01ff), Want::Done),
    (What::ReadNum(0, Width::W16), Want::Number(0x03ff)),
    (What::IncNum(0, Width::W8, 1), Want::Number(0)),
    (What::ReadNum(0, Width::W16), Want::Number(0x0300)),
    (What::DecNum(0, Width::W8, 1), Want::Number(255)),
    (What::WriteNum(0, Width::W16, 0xffff), Want::Done),
    (What::IncNum(0, Width::W16, 2), Want::Number(1)),
    (What::DecNum(0, Width::W16, 2), Want::Number(0xffff)),
    (What::ReadNum(0, Width::W32), Want::Number(0x0102_ffff)),
    (
        What::DecNum(0, Width::W32, 0x0103_0000),
        Want::Number(0xffff_ffff),
    ),
    (
        What::IncNum(0, Width::W32, u64::MAX),
        Want::Number(0xffff_fffe),
    ),
    (What::WriteNum(2, Width::W64, u64::MAX), Want::Done),
    (What::IncNum(2, Width::W64, 3), Want::Number(2)),
    (What::DecNum(2, Width::W64, u64::MAX), Want::Number(3)),
    // a number that is refused is left
    (What::IncNum(3, Width::W64, 1), Want::OutOfArea(3, 8)),
    (What::DecNum(9, Width::W16, 1), Want::OutOfArea(9, 2)),
    (What::ReadNum(10, Width::W8), Want::OutOfArea(10, 1)),
    (
        What::Read(0, 10),
        Want::Bytes(b"\xfe\xff\x03\0\0\0\0\0\0\0"),
    ),
    (What::Updates, Want::Number(14)),
];

fn op_of(rt: &impl Abort, alloc: Global, what: What) -> Result<AreaOp, Memory> {
    Ok(match what {
        What::Read(at, len) => AreaOp::Read { at, len },
        What::Write(at, put) => {
            assert!(rt; put.len() <= 65536);
            let bytes = AreaBytes::new(Bytes::from_slice(alloc, put)?);
            AreaOp::Write { at, bytes }
        }
        What::ReadNum(at, width) => AreaOp::ReadNum { at, width },
        What::WriteNum(at, width, value) => AreaOp::WriteNum { at, width, value },
        What::IncNum(at, width, by) => AreaOp::IncNum { at, width, by },
        What::DecNum(at, width, by) => AreaOp::DecNum { at, width, by },
        What::Updates => AreaOp::Updates,
    })
}

fn is_wanted(answer: &AreaAnswer, want: Want) -> bool {
    match (answer, want) {
        (AreaAnswer::Bytes(bytes), Want::Bytes(wanted)) => bytes.as_slice() == wanted,
        (AreaAnswer::Number(number), Want::Number(wanted)) => *number == wanted,
        (AreaAnswer::Done, Want::Done) => true,
        (AreaAnswer::OutOfArea { at, len, size }, Want::OutOfArea(place, bytes)) => {
            *at == place && *len == bytes && *size == SIZE
        }
        _ => false,
    }
}

#[test]
fn operations_have_their_answers(rt: HostRuntime) -> Result<(), Fail> {
    let mut area = ListArea::new(rt.alloc(), SIZE)?;
    for (number, (what, want)) in ROWS.iter().enumerate() {
        let op = op_of(&rt, rt.alloc(), *what)?;
        let answer = area.call(rt.alloc(), &op)?;
        assert!(rt; is_wanted(&answer, *want), "row {number}");
    }
    Ok(())
}
