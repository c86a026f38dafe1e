// The life of a worker, and one that never ends.
ghost use Rattle.std.specs.Prelude.{◌≡◌, ◌&&◌, Bool, true, false, not, List, [], ℕ, Option, Some};
ghost use Rattle.uw_outside.specs.Faults.{HasCause};
ghost use Rattle.uw_outside.specs.Lives.{Allows};

/// The death of a life, in place of a word write that it refused.
#[derive(Clone, Copy, Debug, PartialEq, Eq)]
pub struct Died;

/// The life of a worker, which may end before any word write: it is alive until it first refuses one, and refuses every
/// one after that. It counts its deaths.
pub trait Life {
    /// Whether it has refused none yet.
    ghost alive: { Self → Bool };

    /// How often it has died.
    ghost deaths: { Self → ℕ };

    /// Where it tells: how many word writes it lets through before it refuses one, and behind that number the same for
    /// each renewal of the life. With no number it lets all through. Whether it tells, no call changes.
    ghost allowances: { Self → Option (List ℕ) };

    /// Whether the next word may be written.
    fn may_write(&mut self) -> bool
        ensures dead { alive self.old ≡ false → result ≡ false }
        ensures alive { alive self.new ≡ (alive self.old && result) }
        ensures cause { HasCause (deaths self.old) (deaths self.new) (alive self.old && not result) }
        ensures told { Allows (allowances self.old) (allowances self.new) (alive self.old) result };
}

/// A life that never ends. It lets every word write through, and tells so.
#[derive(Clone, Copy, Debug, PartialEq, Eq)]
pub struct Immortal;

impl Immortal {
    /// Takes no memory.
    pub fn new() -> Immortal {
        Immortal
    }
}

impl Life for Immortal {
    ghost alive = { λ _. true };

    ghost deaths = { λ _. 0 };

    ghost allowances = { λ _. Some [] };

    fn may_write(&mut self) -> bool
        ensures { result ≡ true }
    {
        true
    }
}
