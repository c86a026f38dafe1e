// A table of slots by which a place is found among planned writes in constant time. A slot has four bytes, since an
// overlay has several for each place that it can name.
ghost use Rattle.std.specs.Prelude.{◌≡◌, ◌+◌, ◌^◌, ◌<◌, ◌≤◌, replicate, length, slice_set, vec_capacity, vec_len};
ghost use Rattle.uw_words.specs.Plans.{HasDistinctPlaces};
ghost use Rattle.uw_words.specs.Slots.{IsTable, home};
ghost use Rattle.uw_words.specs.SlotSteps.{Ends};

// An odd number near 2^64 divided by the golden ratio, which spreads places that follow each other.
const SPREAD: u64 = 0x9E37_79B9_7F4A_7C15;

// Where the search for a place begins in a table of so many slots.
fn home_of(slots: usize, at: u64) -> usize
    requires { 0 < slots }
    ensures home { result ≡ home slots at }
    ensures within { result < slots }
{
    (at.wrapping_mul(SPREAD) >> 32) as usize & (slots - 1)
}

// The slot at which the search for a place ends.
pub(crate) fn seek(slots: &[u32], plan: &[(u64, u64)], at: u64) -> usize
    requires table { IsTable plan.now slots.now }
    requires spare { length plan.now < length slots.now }
    ensures { Ends plan.now slots.now at result }
{
    let home = home_of(slots.len(), at);
    for step in 0..slots.len() {
        let ahead = slots.len() - home;
        let slot = if step < ahead {
            home + step
        } else {
            step - ahead
        };
        let number = slots[slot] as usize;
        if number == 0 || plan[number - 1].0 == at {
            return slot;
        }
    }
    home
}

// Makes so many empty slots.
pub(crate) fn empty(slots: &mut Vec<u32>, len: usize)
    requires { len ≤ vec_capacity slots.old }
    ensures empty { slots.new.items ≡ replicate len 0 }
    ensures capacity { vec_capacity slots.old ≤ vec_capacity slots.new }
{
    slots.truncate(len);
    for slot in slots.iter_mut() {
        *slot = 0;
    }
    for _ in slots.len()..len {
        let _ = slots.push(0);
    }
}

// Makes a table of so many slots for planned writes.
pub(crate) fn rebuild(slots: &mut Vec<u32>, len: usize, plan: &[(u64, u64)])
    requires within { len ≤ vec_capacity slots.old }
    requires spare { length plan.now < len }
    requires few { length plan.now < 2 ^ 32 }
    requires distinct { HasDistinctPlaces plan.now }
    ensures table { IsTable plan.now slots.new.items }
    ensures len { vec_len slots.new ≡ len }
    ensures capacity { vec_capacity slots.old ≤ vec_capacity slots.new }
{
    empty(slots, len);
    for k in 0..plan.len() {
        let slot = seek(slots, &plan[..k], plan[k].0);
        slots[slot] = (k + 1) as u32;
    }
}
