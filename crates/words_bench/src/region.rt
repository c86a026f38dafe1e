// A region whose words are planned, committed and recovered again and again.
ghost use Rattle.std.specs.Prelude.{◌≡◌, ◌<◌, ◌≤◌, length};

use std::alloc::Global;
use std::marker::Model;
use uw_base::Memory;
use uw_intent::{Frame, commit, is_pending, laws, recover};
use uw_outside::{Fuse, Immortal};
use uw_words::{Overlay, Ram};

/// As many words as a plan may have here.
pub const MOST: u64 = 1000;

const FRAME: Frame = Frame {
    gate: 10,
    used: 11,
    start: 12,
    room: 3 * MOST,
};

/// The first places are read and never planned: so many that the processor's first cache does not hold their words.
pub const MANY: u64 = 65_536;

/// So few that it does.
pub const FEW: u64 = 2048;

// The first place that is planned, and how many there are from it on.
const FIRST: u64 = MANY;

const PLACES: u64 = 65_536;

/// A number without a common factor with the numbers of places, by which each place is away from the one before it.
pub const STRIDE: u64 = 40_503;

/// Words with their redo record, and a plan for them.
#[derive(Drop)]
pub struct Region {
    plan: Overlay,
    ram: Ram,
}

impl Model for Region {
    ghost use Rattle.words_bench.specs.Regions.{IsRegion};
    ghost use Rattle.uw_words.specs.Plans.{Plan};
    ghost use Rattle.std.specs.Prelude.{List, ℕ};

    ghost Value = { List ℕ × Plan };

    ghost view = { λ r. (r.ram, r.plan) };

    ghost invariant = { λ r. IsRegion r.ram r.plan };
}

// The place of this number.
fn place(number: u64) -> u64
    ensures { (65536 ≤ result) × (result < 131072) }
{
    FIRST + number.wrapping_mul(STRIDE) % PLACES
}

// The place so far on, round and round, among so many that are never planned.
fn read_place<const SPAN: u64>(on: u64) -> u64
    requires { (0 < SPAN) × (SPAN ≤ 65536) }
    ensures { result < 65536 }
{
    on % SPAN
}

impl Region {
    /// Words that are zero, with a plan that has room for so many places.
    pub fn new(alloc: Global, room: u64) -> Result<Region, Memory> {
        Ok(Region {
            plan: Overlay::new(alloc, room)?,
            ram: Ram::new(alloc, FIRST + PLACES)?,
        })
    }

    /// Plans a word for the place of this number, where there is room.
    pub fn put(&mut self, number: u64, word: u64) {
        if self.plan.count() < MOST && self.plan.spare() > 0 {
            self.plan.put(place(number), word);
        }
    }

    /// The word at the place of this number, as it is planned.
    pub fn planned(&self, number: u64) -> u64 {
        self.plan.load(&self.ram, place(number))
    }

    // Each reading is a function of its own in the built program too, so that its code is the same whatever else is
    // timed.

    /// Goes from place to place, so many: the word of each says how much farther than a stride on the next one is.
    #[inline(never)]
    pub fn follow(&self, start: u64, links: u64) -> u64 {
        let mut on = start;
        for _ in 0..links {
            let word = self.ram.load(read_place::<MANY>(on));
            on = on.wrapping_add(STRIDE).wrapping_add(word);
        }
        on
    }

    /// The same through the plan, which names none of the places.
    #[inline(never)]
    pub fn follow_through(&self, start: u64, links: u64) -> u64 {
        let mut on = start;
        for _ in 0..links {
            let word = self.plan.load(&self.ram, read_place::<MANY>(on));
            on = on.wrapping_add(STRIDE).wrapping_add(word);
        }
        on
    }

    /// The sum of the words at four times so many of the places, each a stride on from the one before it.
    #[inline(never)]
    pub fn sum<const SPAN: u64>(&self, start: u64, fours: u64) -> u64
        requires { (0 < SPAN) × (SPAN ≤ 65536) }
    {
        let mut on = start;
        let mut sum: u64 = 0;
        for _ in 0..fours {
            sum = sum.wrapping_add(self.four::<SPAN>(on));
            on = on.wrapping_add(4 * STRIDE);
        }
        sum
    }

    /// The same through the plan, which names none of the places.
    #[inline(never)]
    pub fn sum_through<const SPAN: u64>(&self, start: u64, fours: u64) -> u64
        requires { (0 < SPAN) × (SPAN ≤ 65536) }
    {
        let mut on = start;
        let mut sum: u64 = 0;
        for _ in 0..fours {
            sum = sum.wrapping_add(self.four_through::<SPAN>(on));
            on = on.wrapping_add(4 * STRIDE);
        }
        sum
    }

    // Four words at a time: the compiler would unroll the loop of plain reads, and not the other. So the reads are
    // compared, and not the loops.
    fn four<const SPAN: u64>(&self, on: u64) -> u64
        requires { (0 < SPAN) × (SPAN ≤ 65536) }
    {
        let mut sum: u64 = 0;
        for k in 0..4 {
            let place = read_place::<SPAN>(on.wrapping_add(k * STRIDE));
            sum = sum.wrapping_add(self.ram.load(place));
        }
        sum
    }

    // The same through the plan.
    fn four_through<const SPAN: u64>(&self, on: u64) -> u64
        requires { (0 < SPAN) × (SPAN ≤ 65536) }
    {
        let mut sum: u64 = 0;
        for k in 0..4 {
            let place = read_place::<SPAN>(on.wrapping_add(k * STRIDE));
            sum = sum.wrapping_add(self.plan.load(&self.ram, place));
        }
        sum
    }

    /// Plans nothing any more.
    pub fn clear(&mut self) {
        self.plan.clear();
    }

    /// Writes what is planned.
    pub fn commit(&mut self) {
        if is_pending(&self.ram, &FRAME) {
            return;
        }
        laws::writes_keep_the_number_of_words();
        let _ = commit(&mut self.ram, &FRAME, &self.plan, &mut Immortal::new());
    }

    /// Dies at the first planned word of a commit, and recovers.
    pub fn recover(&mut self, alloc: Global) -> Result<(), Memory> {
        if is_pending(&self.ram, &FRAME) {
            return Ok(());
        }
        let mut numbers = Vec::with_capacity(alloc, 1)?;
        numbers.push(3 * self.plan.count() + 3)?;
        laws::writes_keep_the_number_of_words();
        let _ = commit(&mut self.ram, &FRAME, &self.plan, &mut Fuse::new(numbers));
        let _ = recover(&mut self.ram, &FRAME, &mut Immortal::new());
        Ok(())
    }
}
