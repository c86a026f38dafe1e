// A commit and its recovery, stopped at each of their writes.
ghost use Rattle.std.specs.Prelude.{◌≡◌, ◌∷◌, [], length, IfOk, true};
ghost use Rattle.uw_words.specs.Plans.{region};
ghost use Rattle.uw_intent.specs.RedoRecord.{IsFrame, IsIntact};

use std::alloc::{AllocError, Global};
use std::test::Fail;
use uw_base::Memory;
use uw_intent::{Frame, WordWrite, commit, is_pending, laws, nth_repair, nth_write, recover};
use uw_outside::{Fuse, Immortal, Life};
use uw_words::{Overlay, Ram};

const FRAME: Frame = Frame {
    gate: 10,
    used: 11,
    start: 12,
    room: 9,
};

// The words 3, 10 to 20, 21 and 22 before the first write of a commit, and after each.
const ROWS: [[u64; 14]; 16] = [
    [1, 0, 0, 0, 0, 0, 0, 0, 0, 0, 0, 0, 2, 3],
    [1, 0, 0, 21, 0, 0, 0, 0, 0, 0, 0, 0, 2, 3],
    [1, 0, 0, 21, 1, 0, 0, 0, 0, 0, 0, 0, 2, 3],
    [1, 0, 0, 21, 1, 5, 0, 0, 0, 0, 0, 0, 2, 3],
    [1, 0, 0, 21, 1, 5, 22, 0, 0, 0, 0, 0, 2, 3],
    [1, 0, 0, 21, 1, 5, 22, 1, 0, 0, 0, 0, 2, 3],
    [1, 0, 0, 21, 1, 5, 22, 1, 8, 0, 0, 0, 2, 3],
    [1, 0, 0, 21, 1, 5, 22, 1, 8, 3, 0, 0, 2, 3],
    [1, 0, 0, 21, 1, 5, 22, 1, 8, 3, 1, 0, 2, 3],
    [1, 0, 0, 21, 1, 5, 22, 1, 8, 3, 1, 7, 2, 3],
    [1, 0, 9, 21, 1, 5, 22, 1, 8, 3, 1, 7, 2, 3],
    [1, 1, 9, 21, 1, 5, 22, 1, 8, 3, 1, 7, 2, 3],
    [1, 1, 9, 21, 1, 5, 22, 1, 8, 3, 1, 7, 5, 3],
    [1, 1, 9, 21, 1, 5, 22, 1, 8, 3, 1, 7, 5, 8],
    [7, 1, 9, 21, 1, 5, 22, 1, 8, 3, 1, 7, 5, 8],
    [7, 0, 9, 21, 1, 5, 22, 1, 8, 3, 1, 7, 5, 8],
];

// Where these words stand.
const PLACES: [u64; 14] = [3, 10, 11, 12, 13, 14, 15, 16, 17, 18, 19, 20, 21, 22];

// Words of which three are not zero.
fn old_words(alloc: Global) -> Result<Ram, Memory>
    ensures len { IfOk result (λ ram. length ram ≡ 24) }
    ensures idle { IfOk result (λ ram. region ram 10 ≡ 0) }
{
    let mut ram = Ram::new(alloc, 24)?;
    let mut life = Immortal::new();
    let _ = ram.store(3, 1, &mut life);
    let _ = ram.store(21, 2, &mut life);
    let _ = ram.store(22, 3, &mut life);
    Ok(ram)
}

// Three words in two runs of places, of which one is put twice.
fn planned_words(alloc: Global) -> Result<Overlay, Memory>
    ensures { IfOk result (λ plan. plan.writes ≡ (21, 5) ∷ (22, 8) ∷ (3, 7) ∷ []) }
{
    let mut plan = Overlay::new(alloc, 3)?;
    plan.put(21, 5);
    plan.put(22, 6);
    plan.put(3, 7);
    plan.put(22, 8);
    Ok(plan)
}

// A life that refuses its n-th write.
fn dies_at(alloc: Global, n: u64) -> Result<Fuse, AllocError>
    ensures { IfOk result (λ fuse. fuse.alive ≡ true) }
{
    let mut numbers = Vec::new(alloc);
    if n > 0 {
        numbers.push(n)?;
    }
    Ok(Fuse::new(numbers))
}

// Commits as far as a life lets it, and says whether it was let.
fn commit_some<L: Life>(ram: &mut Ram, plan: &Overlay, life: &mut L) -> bool
    requires len { length ram.old ≡ 24 }
    requires idle { region ram.old 10 ≡ 0 }
    requires plan { plan.now.writes ≡ (21, 5) ∷ (22, 8) ∷ (3, 7) ∷ [] }
    requires alive { L.alive life.old ≡ true }
    ensures intact { IsIntact FRAME ram.new }
    ensures len { length ram.new ≡ 24 }
{
    laws::writes_keep_the_number_of_words();
    commit(ram, &FRAME, plan, life).is_ok()
}

// Recovers as far as a life lets it, and says whether it was let.
fn recover_some<L: Life>(ram: &mut Ram, life: &mut L) -> bool
    requires len { length ram.old ≡ 24 }
    requires intact { IsIntact FRAME ram.old }
    requires alive { L.alive life.old ≡ true }
    ensures intact { IsIntact FRAME ram.new }
    ensures len { length ram.new ≡ 24 }
{
    laws::writes_keep_the_number_of_words();
    recover(ram, &FRAME, life).is_ok()
}

fn shown(ram: &Ram) -> [u64; 14] {
    PLACES.map(|at| if at < ram.len() { ram.load(at) } else { 0 })
}

fn row(made: usize) -> [u64; 14] {
    if made < ROWS.len() {
        ROWS[made]
    } else {
        [0; 14]
    }
}

// The row that a recovery leaves where its n-th write is refused: a recovery copies the words 21, 22 and 3 and closes the
// gate, and what was copied before stays.
fn row_after(made: usize, n: usize) -> usize {
    match made {
        11..=14 => made.max(10 + n.min(5)),
        _ => made,
    }
}

#[test]
fn words_are_the_old_or_the_planned_ones_after_deaths(rt: HostRuntime) -> Result<(), Fail> {
    let alloc = rt.alloc();
    let plan = planned_words(alloc)?;
    for n in 1..17usize {
        for first in 1..6usize {
            for second in 1..6usize {
                let mut ram = old_words(alloc)?;
                assert_eq!(rt; shown(&ram), row(0));
                let done = commit_some(&mut ram, &plan, &mut dies_at(alloc, n as u64)?);
                assert_eq!(rt; done, n == 16);
                let made = n - 1;
                assert_eq!(rt; shown(&ram), row(made));
                recover_some(&mut ram, &mut dies_at(alloc, first as u64)?);
                let made = row_after(made, first);
                assert_eq!(rt; shown(&ram), row(made));
                recover_some(&mut ram, &mut dies_at(alloc, second as u64)?);
                let made = row_after(made, second);
                assert_eq!(rt; shown(&ram), row(made));
                assert_eq!(rt; recover_some(&mut ram, &mut Immortal::new()), true);
                assert_eq!(rt; shown(&ram), row(row_after(made, 5)));
            }
        }
    }
    Ok(())
}

// The writes of the rows.
const WRITES: [(u64, u64); 15] = [
    (12, 21),
    (13, 1),
    (14, 5),
    (15, 22),
    (16, 1),
    (17, 8),
    (18, 3),
    (19, 1),
    (20, 7),
    (11, 9),
    (10, 1),
    (21, 5),
    (22, 8),
    (3, 7),
    (10, 0),
];

fn parts(write: Option<WordWrite>) -> Option<(u64, u64)> {
    write.map(|write| (write.at, write.word))
}

#[test]
fn writes_are_numbered_from_one(rt: HostRuntime) -> Result<(), Fail> {
    let alloc = rt.alloc();
    let plan = planned_words(alloc)?;
    assert_eq!(rt; parts(nth_write(&FRAME, &plan, 0)), None);
    for (k, write) in WRITES.iter().enumerate() {
        let n = (k as u64).saturating_add(1);
        assert_eq!(rt; parts(nth_write(&FRAME, &plan, n)), Some(*write));
    }
    assert_eq!(rt; parts(nth_write(&FRAME, &plan, 16)), None);
    let mut ram = old_words(alloc)?;
    assert_eq!(rt; is_pending(&ram, &FRAME), false);
    commit_some(&mut ram, &plan, &mut dies_at(alloc, 13)?);
    assert_eq!(rt; is_pending(&ram, &FRAME), true);
    assert_eq!(rt; parts(nth_repair(&ram, &FRAME, 0)), None);
    for n in 1..5u64 {
        let repair = parts(nth_repair(&ram, &FRAME, n));
        assert_eq!(rt; repair, WRITES.get(n as usize + 10).copied());
    }
    assert_eq!(rt; parts(nth_repair(&ram, &FRAME, 5)), None);
    Ok(())
}

#[test]
fn a_plan_of_nothing_writes_nothing(rt: HostRuntime) -> Result<(), Fail> {
    let alloc = rt.alloc();
    let plan = Overlay::new(alloc, 3)?;
    assert_eq!(rt; parts(nth_write(&FRAME, &plan, 1)), None);
    Ok(())
}
