// A clock, and one in memory.
ghost use Rattle.std.specs.Prelude.{◌≡◌, ◌<◌, ◌++◌, List, [], ◌∷◌, ℕ, vec_len, refl};
ghost use Rattle.uw_outside.specs.Moments.{GivesInOrder, GivesInOrder-append};
ghost use Rattle.uw_outside.specs.Moments.{GivesAlways, GivesAlways-none, GivesAlways-append};

use std::marker::Model;

/// A clock of seconds since the epoch. It cannot fail, and its moments need not rise.
pub trait Clock {
    /// From the one state to the other it gave these moments, in this order. A clock that does not tell claims nothing.
    ghost gave: { Self → Self → List ℕ → Type 0 };

    /// The moment, in seconds.
    fn now(&mut self) -> u64
        ensures { gave self.old self.new (result ∷ []) };

    /// Where it was not asked, it gave none.
    ghost gave_none: { (clock : Self) → gave clock clock [] };

    /// What it gave first, and then what it gave after that.
    ghost gave_more: { (a b c : Self) (early late : List ℕ) → gave a b early → gave b c late → gave a c (early ++ late) };
}

/// A clock that gives listed moments in their order, of which the last one repeats. Contracts see it as the list of
/// those that it has yet to give.
#[derive(Drop)]
pub struct FixedClock {
    moments: Vec<u64>,
    // The place of the moment that comes next.
    place: usize,
}

impl Model for FixedClock {
    ghost use Rattle.std.specs.Prelude.{◌<◌, List, ℕ, drop, vec_len};

    ghost Value = { List ℕ };

    ghost view = { λ c. drop c.place c.moments.items };

    ghost invariant = { λ c. c.place < vec_len c.moments };
}

impl FixedClock {
    /// The clock of these moments. Takes no memory.
    pub fn new(moments: Vec<u64>) -> FixedClock
        requires { 0 < vec_len moments }
        ensures { result ≡ moments.items }
    {
        FixedClock { moments, place: 0 }
    }
}

impl Clock for FixedClock {
    ghost gave = { λ before now moments. GivesInOrder before moments now };

    ghost gave_none = { λ clock. refl };

    ghost gave_more = { GivesInOrder-append };

    fn now(&mut self) -> u64 {
        let moment = self.moments[self.place];
        if self.place + 1 < self.moments.len() {
            self.place += 1;
        }
        moment
    }
}

/// A clock that always gives its one moment. Contracts see it as that moment.
#[derive(Clone, Copy, Debug, PartialEq, Eq)]
pub struct SteadyClock {
    moment: u64,
}

impl Model for SteadyClock {
    ghost use Rattle.std.specs.Prelude.{ℕ};

    ghost Value = { ℕ };

    ghost view = { λ c. c.moment };

    ghost inverse = { λ moment. record { moment = moment } };
}

impl SteadyClock {
    /// Takes no memory.
    pub fn new(moment: u64) -> SteadyClock
        ensures { result ≡ moment }
    {
        SteadyClock { moment }
    }
}

impl Clock for SteadyClock {
    ghost gave = { GivesAlways };

    ghost gave_none = { GivesAlways-none };

    ghost gave_more = { GivesAlways-append };

    fn now(&mut self) -> u64 {
        self.moment
    }
}
