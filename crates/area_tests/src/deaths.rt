// Operations and their repairs, stopped at each of their writes.
ghost use Rattle.uw_model.specs.AreaOps.{IsAreaSize};

use crate::cases::{MOST, What, answers_alike, dies_at, op_of, stands_alike};
use std::alloc::Global;
use std::test::Fail;
use uw_area::Area;
use uw_base::Memory;
use uw_intent::{CallFault, recovered_call};
use uw_model::{ListArea, Width};
use uw_outside::Immortal;

const SIZE: u64 = 29;

// How an operation ended, of which a life refused the n-th write.
#[derive(Clone, Copy, Debug, PartialEq, Eq)]
enum End {
    Answered,
    Whole,
    Absent,
}

// The first operation of each test, by which no byte is 0.
const FIRST: What = What::Write(0, SIZE, 100);

// An area, and the same as plain bytes, after the first operation and one that dies at its n-th write: the bytes have it
// where it is whole.
fn died(
    alloc: Global,
    size: u64,
    first: What,
    what: What,
    n: u64,
) -> Result<(Area, ListArea, End), Memory>
    requires { IsAreaSize size }
{
    let mut area = Area::new(alloc, size)?;
    let mut list = ListArea::new(alloc, size)?;
    answers_alike(alloc, &mut area, &mut list, first)?;
    let op = op_of(alloc, what)?;
    let end = match recovered_call(alloc, &mut area, 0, &op, &mut dies_at(alloc, n)?) {
        Ok(_) => End::Answered,
        Err(CallFault::Died { whole: true }) => End::Whole,
        Err(CallFault::Died { whole: false }) => End::Absent,
        Err(CallFault::Memory) => return Err(Memory),
    };
    if end != End::Absent {
        list.call(alloc, &op)?;
    }
    Ok((area, list, end))
}

// How an operation that plans so many words ends: three words of the record for each, the used word and the gate come
// before it is whole, and the words and the gate again before it is answered.
fn end_at(planned: u64, n: u64) -> End {
    if n > 4 * planned.min(MOST) + 3 {
        End::Answered
    } else if n > 3 * planned.min(MOST) + 2 {
        End::Whole
    } else {
        End::Absent
    }
}

// Operations, and how many words each plans.
const OPS: &[(What, u64)] = &[
    (What::Write(3, 20, 1), 4),
    (What::Write(8, 16, 1), 3),
    (What::Write(28, 1, 1), 2),
    (What::WriteNum(7, Width::W16, 513), 3),
    (What::IncNum(6, Width::W64, 77), 3),
    (What::DecNum(8, Width::W64, 77), 2),
];

#[test]
fn each_death_leaves_the_area_before_or_the_one_after(rt: HostRuntime) -> Result<(), Fail> {
    let alloc = rt.alloc();
    for (what, planned) in OPS {
        for n in 1..21u64 {
            for m in 1..8u64 {
                let (mut area, mut list, end) = died(alloc, SIZE, FIRST, *what, n)?;
                assert_eq!(rt; end, end_at(*planned, n), "{what:?} {n}");
                let pending = area.is_pending();
                assert_eq!(rt; pending, end == End::Whole);
                let _ = area.recover(&mut dies_at(alloc, m)?);
                let _ = area.recover(&mut dies_at(alloc, 1)?);
                assert!(rt; area.recover(&mut Immortal::new()).is_ok());
                assert!(rt; !area.is_pending());
                assert!(rt;
                    stands_alike(alloc, &mut area, &mut list, SIZE)?,
                    "{what:?} {n} {m}"
                );
            }
        }
    }
    Ok(())
}

// After a death before the gate the plan of the write is longer than that of the next operation.
#[test]
fn the_next_operation_is_made_behind_a_death(rt: HostRuntime) -> Result<(), Fail> {
    let alloc = rt.alloc();
    for n in 1..20u64 {
        for what in [
            What::Updates,
            What::IncNum(0, Width::W8, 1),
            What::Write(12, 3, 7),
            What::Write(29, 1, 7),
        ] {
            let (mut area, mut list, _) = died(alloc, SIZE, FIRST, What::Write(1, 27, 3), n)?;
            assert!(rt;
                answers_alike(alloc, &mut area, &mut list, what)?,
                "{what:?} {n}"
            );
            assert!(rt;
                stands_alike(alloc, &mut area, &mut list, SIZE)?,
                "{what:?} {n}"
            );
        }
    }
    Ok(())
}

// The most bytes at an odd place touch 8,193 words, and the count of updates is one more.
#[test]
fn a_long_write_that_dies_is_absent_or_whole(rt: HostRuntime) -> Result<(), Fail> {
    let alloc = rt.alloc();
    let size = 70_001;
    for n in [1, 8_194, 24_584, 24_585, 30_000, 32_779, 32_780] {
        let (mut area, mut list, end) = died(
            alloc,
            size,
            What::Write(4_465, MOST, 1),
            What::Write(4_465, MOST, 2),
            n,
        )?;
        assert_eq!(rt; end, end_at(8_194, n), "{n}");
        let _ = area.recover(&mut dies_at(alloc, 8_000)?);
        assert!(rt; area.recover(&mut Immortal::new()).is_ok());
        assert!(rt; stands_alike(alloc, &mut area, &mut list, size)?, "{n}");
    }
    Ok(())
}
