// A life that ends at listed word writes.
ghost use Rattle.std.specs.Prelude.{◌≡◌, ◌≤◌, ◌-◌, ◌&&◌, true, false, not, drop, map, All, Some, if◌then◌else◌};
ghost use Rattle.uw_outside.specs.Counts.{next_count};
ghost use Rattle.uw_outside.specs.Faults.{HasCause};
ghost use Rattle.uw_outside.specs.Lives.{Allows};

use crate::counts::count_fault;
use crate::life::Life;
use std::marker::Model;

/// A life that refuses the word write of the number in force, counted from 1 among those that it was asked since it was
/// made or last renewed. Contracts see whether it is alive, how often it has died, and how many writes it lets through
/// with each number that is left: those before the write of that number.
#[derive(Drop)]
pub struct Fuse {
    // The one at `place` is in force: it counts down to 1, at which the next write is refused.
    numbers: Vec<u64>,
    place: usize,
    alive: bool,
    deaths: u64,
}

impl Model for Fuse {
    ghost use Rattle.std.specs.Prelude.{◌≤◌, ◌-◌, drop, map, All, vec_len};
    ghost use Rattle.uw_outside.specs.Lives.{LifeLeft};

    ghost Value = { LifeLeft };

    ghost view = { λ f. record {
      alive = f.alive;
      deaths = f.deaths;
      allowances = map (λ n. n - 1) (drop f.place f.numbers.items);
    } };

    ghost invariant = { λ f. (f.place ≤ vec_len f.numbers) × All (λ n. 1 ≤ n) f.numbers.items };
}

impl Fuse {
    /// The life with these numbers, the first of which is in force. Takes no memory.
    pub fn new(numbers: Vec<u64>) -> Fuse
        requires { All (λ n. 1 ≤ n) numbers.items }
        ensures { result ≡ record {
          alive = true;
          deaths = 0;
          allowances = map (λ n. n - 1) numbers.items;
        } }
    {
        Fuse {
            numbers,
            place: 0,
            alive: true,
            deaths: 0,
        }
    }

    /// Makes it alive with the next number. After the last number it refuses no write.
    pub fn renew(&mut self)
        ensures { self.new ≡ record self.old { alive = true; allowances = drop 1 self.old.allowances } }
    {
        if self.place < self.numbers.len() {
            self.place += 1;
        }
        self.alive = true;
    }
}

impl Life for Fuse {
    ghost alive = { λ f. f.alive };

    ghost deaths = { λ f. f.deaths };

    ghost allowances = { λ f. Some f.allowances };

    fn may_write(&mut self) -> bool
        ensures dead { self.old.alive ≡ false → result ≡ false }
        ensures alive { self.new.alive ≡ (self.old.alive && result) }
        ensures cause { HasCause self.old.deaths self.new.deaths (self.old.alive && not result) }
        ensures told { Allows (Some self.old.allowances) (Some self.new.allowances) self.old.alive result }
        ensures counted { self.new.deaths
            ≡ (if self.old.alive && not result then next_count self.old.deaths else self.old.deaths) }
    {
        if !self.alive {
            return false;
        }
        if self.place < self.numbers.len() {
            if self.numbers[self.place] == 1 {
                self.alive = false;
                count_fault(&mut self.deaths);
                return false;
            }
            self.numbers[self.place] -= 1;
        }
        true
    }
}
