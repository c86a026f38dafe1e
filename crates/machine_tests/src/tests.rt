// A bump and its repair, stopped at each of their writes.
ghost use Rattle.std.specs.Prelude.{◌≡◌, [], ℕ, IfOk, true};
ghost use Rattle.machine_tests.specs.Pairs.{ArePair};

use crate::{Broken, bump, mend};
use std::alloc::{AllocError, Global};
use std::test::Fail;
use uw_base::Memory;
use uw_outside::{Fuse, Immortal};
use uw_words::{Overlay, Ram};

// The writes of a bump of the pair (0, 0), one row for how many of them were made: the pair as it lies in the region, and
// the number of the pair that the words stand for.
const ROWS: [([u64; 2], u64); 12] = [
    ([0, 0], 0), // none
    ([0, 0], 0), // the record: 18
    ([0, 0], 0), // 1
    ([0, 0], 0), // 1
    ([0, 0], 0), // 19
    ([0, 0], 0), // 1
    ([0, 0], 0), // 1
    ([0, 0], 0), // the used word: 6
    ([0, 0], 1), // the gate opens
    ([1, 0], 1), // word 18
    ([1, 1], 1), // word 19
    ([1, 1], 1), // the gate closes
];

const WRITES: usize = 11;

// A pair of zeros.
fn zeros(alloc: Global) -> Result<Ram, Memory>
    ensures { IfOk result (λ ram. ArePair ram 0) }
{
    Ram::new(alloc, 20)
}

// A life that refuses its n-th write.
fn dies_at(alloc: Global, n: u64) -> Result<Fuse, AllocError>
    ensures { IfOk result (λ fuse. fuse.alive ≡ true) }
{
    let mut numbers = Vec::new(alloc);
    if n > 0 {
        numbers.push(n)?;
    }
    Ok(Fuse::new(numbers))
}

// The pair as it lies in the region.
fn pair(ram: &Ram) -> [u64; 2] {
    [18, 19].map(|at| if at < ram.len() { ram.load(at) } else { 0 })
}

fn row(made: usize) -> ([u64; 2], u64) {
    if made < ROWS.len() {
        ROWS[made]
    } else {
        ROWS[0]
    }
}

// How many writes of the bump seem made after so many writes of its repair, which copies two words and closes the gate.
fn repaired(made: usize, repairs: usize) -> usize {
    match made {
        8..=10 => made.max(8 + repairs.min(3)),
        _ => made,
    }
}

#[test]
fn each_death_leaves_the_old_pair_or_the_new_one(rt: HostRuntime) -> Result<(), Fail> {
    let alloc = rt.alloc();
    for made in 0..12usize {
        for first in 1..5usize {
            for second in 1..5usize {
                let mut ram = zeros(alloc)?;
                let mut plan = Overlay::new(alloc, 2)?;
                let end = bump(&mut ram, &mut plan, &mut dies_at(alloc, made as u64 + 1)?);
                let (words, number) = row(made);
                assert_eq!(rt; pair(&ram), words);
                let died = Err(Broken { whole: number == 1 });
                assert_eq!(rt; end, if made == WRITES { Ok(1) } else { died });
                let _ = mend(&mut ram, &mut dies_at(alloc, first as u64)?);
                let now = repaired(made, first - 1);
                assert_eq!(rt; pair(&ram), row(now).0);
                let _ = mend(&mut ram, &mut dies_at(alloc, second as u64)?);
                let now = repaired(now, second - 1);
                assert_eq!(rt; pair(&ram), row(now).0);
                assert_eq!(rt; mend(&mut ram, &mut Immortal::new()), Ok(()));
                assert_eq!(rt; pair(&ram), [number, number]);
            }
        }
    }
    Ok(())
}
