// The value under the lock: a count of the turns.
ghost use Rattle.std.specs.Prelude.{◌≡◌, ◌+◌, ◌%◌, ◌^◌, length, false};

use uw_lock::Kept;

/// How many turns were taken, modulo 2^64.
#[derive(Drop)]
pub struct Counter {
    turns: u64,
}

impl Kept for Counter {
    type Entry = ();

    type Conf = ();

    ghost conf = { λ c. tt };

    ghost stands = { λ c history. c.turns ≡ length history % 2 ^ 64 };

    ghost pending = { λ c. false };
}

impl Counter {
    pub fn new() -> Counter
        ensures { result.turns ≡ 0 }
    {
        Counter { turns: 0 }
    }

    pub fn count(&mut self)
        ensures { self.new.turns ≡ (self.old.turns + 1) % 2 ^ 64 }
    {
        self.turns = self.turns.wrapping_add(1);
    }

    pub fn turns(&self) -> u64
        ensures { result ≡ self.now.turns }
    {
        self.turns
    }
}
