// Operations of an area on a region, each with the answer of the same area as plain bytes.
use crate::cases::{What, answers_alike, dies_at, op_of, stands_alike};
use std::test::Fail;
use uw_area::Area;
use uw_intent::CallFault;
use uw_model::{ListArea, Width};
use uw_outside::Immortal;

// Three words, the last of which has five bytes.
const SIZE: u64 = 21;

const ROWS: &[What] = &[
    What::Read(0, 21),
    // from the middle of one word to the middle of the last, and what was written of each word
    What::Write(3, 15, 1),
    What::Read(2, 17),
    What::Read(3, 1),
    What::Read(7, 2),
    What::Read(8, 8),
    What::Read(5, 16),
    // up to the end, one byte behind it, and no bytes at all
    What::Write(20, 1, 200),
    What::Write(13, 9, 9),
    What::Write(13, 8, 90),
    What::Write(21, 0, 0),
    What::Write(22, 0, 0),
    What::Write(3, 0, 0),
    What::Read(21, 0),
    What::Read(5, 0),
    What::Read(20, 1),
    What::Read(20, 2),
    What::Read(21, 1),
    // a whole word, and two of them
    What::Write(8, 8, 17),
    What::Write(0, 16, 170),
    What::Read(0, 21),
    What::Updates,
    // places whose slices end behind 2^64
    What::Read(u64::MAX, 1),
    What::Read(1, u64::MAX),
    What::Write(u64::MAX - 1, 3, 4),
    What::WriteNum(u64::MAX, Width::W16, 7),
    // numbers over two words, and up to the end
    What::WriteNum(7, Width::W16, 0xfffe),
    What::IncNum(7, Width::W16, 70_003),
    What::ReadNum(7, Width::W16),
    What::WriteNum(6, Width::W32, 0x1_0203_0405),
    What::DecNum(6, Width::W32, 0x0203_0406),
    What::ReadNum(5, Width::W64),
    What::WriteNum(13, Width::W64, u64::MAX),
    What::IncNum(13, Width::W64, 3),
    What::DecNum(13, Width::W64, 5),
    What::ReadNum(13, Width::W64),
    What::IncNum(14, Width::W64, 1),
    What::IncNum(20, Width::W8, 255),
    What::DecNum(20, Width::W8, 1),
    What::WriteNum(20, Width::W8, 0x1ff),
    What::ReadNum(20, Width::W8),
    What::ReadNum(20, Width::W16),
    What::DecNum(21, Width::W8, 1),
    What::WriteNum(19, Width::W16, 0x1_0201),
    What::IncNum(1, Width::W64, u64::MAX),
    What::DecNum(9, Width::W32, u64::MAX),
    What::Read(0, 21),
    What::Updates,
];

#[test]
fn operations_are_answered_as_by_plain_bytes(rt: HostRuntime) -> Result<(), Fail> {
    let alloc = rt.alloc();
    for size in [SIZE, 24, 23, 17] {
        let mut area = Area::new(alloc, size)?;
        let mut list = ListArea::new(alloc, size)?;
        for (number, what) in ROWS.iter().enumerate() {
            assert!(rt;
                answers_alike(alloc, &mut area, &mut list, *what)?,
                "row {number}"
            );
            assert!(rt;
                stands_alike(alloc, &mut area, &mut list, size)?,
                "row {number}"
            );
            assert!(rt; !area.is_pending());
        }
    }
    Ok(())
}

#[test]
fn an_area_may_have_one_byte(rt: HostRuntime) -> Result<(), Fail> {
    let alloc = rt.alloc();
    let mut area = Area::new(alloc, 1)?;
    let mut list = ListArea::new(alloc, 1)?;
    for what in [
        What::DecNum(0, Width::W8, 3),
        What::ReadNum(0, Width::W16),
        What::Write(0, 1, 9),
        What::Write(1, 1, 9),
        What::Read(0, 1),
        What::Updates,
    ] {
        assert!(rt; answers_alike(alloc, &mut area, &mut list, what)?);
    }
    Ok(())
}

// What does not write dies of no write.
#[test]
fn reads_and_refusals_make_no_write(rt: HostRuntime) -> Result<(), Fail> {
    let alloc = rt.alloc();
    for what in [
        What::Read(0, SIZE),
        What::ReadNum(3, Width::W64),
        What::Updates,
        What::Write(SIZE, 1, 1),
        What::WriteNum(SIZE, Width::W8, 1),
        What::IncNum(SIZE - 1, Width::W16, 1),
        What::DecNum(SIZE - 7, Width::W64, 1),
    ] {
        let mut area = Area::new(alloc, SIZE)?;
        let answer = area.call(alloc, &op_of(alloc, what)?, &mut dies_at(alloc, 1)?);
        assert!(rt; answer.is_ok());
    }
    let mut area = Area::new(alloc, SIZE)?;
    let write = op_of(alloc, What::Write(2, 1, 1))?;
    let answer = area.call(alloc, &write, &mut dies_at(alloc, 1)?);
    assert!(rt; matches!(answer, Err(CallFault::Died { whole: false })));
    assert!(rt; area.recover(&mut Immortal::new()).is_ok());
    Ok(())
}
