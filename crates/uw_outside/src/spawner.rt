// A spawner, which starts jobs, and one that starts none.
ghost use Rattle.std.specs.Prelude.{◌≡◌, ℕ, is_err, IsErr};
ghost use Rattle.uw_outside.specs.Counts.{next_count};
ghost use Rattle.uw_outside.specs.Faults.{HasCause};

use crate::counts::count_fault;
use std::marker::Model;

/// What a thread of its own is to do.
pub trait Job: Drop {
    fn run(self);
}

/// No thread was to be had, and the job was dropped.
#[derive(Clone, Copy, Debug, PartialEq, Eq)]
pub struct NotStarted;

/// Starts jobs of one type, and counts those that it refused.
pub trait Spawner<J: Job + Send + 'static> {
    /// How many starts were refused.
    ghost count: { Self → ℕ };

    /// Starts the job in a thread of its own. A job that is refused is dropped.
    fn start(&mut self, job: J) -> Result<(), NotStarted>
        ensures cause { HasCause (count self.old) (count self.new) (is_err result) };
}

/// A spawner that refuses every start. Contracts see it as the count of those.
#[derive(Drop)]
pub struct NoSpawner {
    refused: u64,
}

impl Model for NoSpawner {
    ghost use Rattle.std.specs.Prelude.{ℕ};

    ghost Value = { ℕ };

    ghost view = { λ s. s.refused };
}

impl NoSpawner {
    /// Takes no memory.
    pub fn new() -> NoSpawner
        ensures { result ≡ 0 }
    {
        NoSpawner { refused: 0 }
    }
}

impl<J: Job + Send + 'static> Spawner<J> for NoSpawner {
    ghost count = { λ refused. refused };

    fn start(&mut self, job: J) -> Result<(), NotStarted>
        ensures cause { HasCause self.old self.new (is_err result) }
        ensures refused { IsErr result }
        ensures counted { self.new ≡ next_count self.old }
    {
        drop(job);
        count_fault(&mut self.refused);
        Err(NotStarted)
    }
}
