// The spawner over the threads of the system. That a thread runs its job, no contract can say.
ghost use Rattle.std.specs.Prelude.{◌≡◌, is_err, if◌then◌else◌};
ghost use Rattle.uw_outside.specs.Counts.{next_count};
ghost use Rattle.uw_outside.specs.Faults.{HasCause};

use crate::counts::count_fault;
use crate::spawner::{Job, NotStarted, Spawner};
use std::cell::Cell;
use std::rc::Rc;
use std::thread;
use std::thread::Threads;

/// Where a job lies on its way from the spawner to the closure that starts it.
pub type JobSlot<J> = Rc<Cell<Option<J>>>;

/// A spawner that starts each job in a thread of its own. Only `main` and tests have a runtime with threads, and no
/// method can take one: so a closure of theirs takes the job out of the slot and starts it, by `start_from`, and says
/// whether it did.
#[derive(Drop)]
pub struct ThreadSpawner<J> {
    slot: JobSlot<J>,
    begin: Box<dyn Fn() -> bool>,
    /// How many starts were refused.
    pub refused: u64,
    ghost callable: { IsAlwaysCallable begin },
}

impl<J> ThreadSpawner<J> {
    /// The spawner of this closure, which takes jobs from this slot. Takes no memory.
    pub fn new(slot: JobSlot<J>, begin: Box<dyn Fn() -> bool>) -> ThreadSpawner<J>
        requires { IsAlwaysCallable begin }
        ensures { result.refused ≡ 0 }
    {
        ThreadSpawner {
            slot,
            begin,
            refused: 0,
        }
    }
}

impl<J: Job + Send + 'static> Spawner<J> for ThreadSpawner<J> {
    ghost count = { λ s. s.refused };

    fn start(&mut self, job: J) -> Result<(), NotStarted>
        ensures cause { HasCause self.old.refused self.new.refused (is_err result) }
        ensures counted { self.new.refused
            ≡ (if is_err result then next_count self.old.refused else self.old.refused) }
    {
        drop(self.slot.replace(Some(job)));
        if (self.begin)() {
            return Ok(());
        }
        drop(self.slot.replace(None));
        count_fault(&mut self.refused);
        Err(NotStarted)
    }
}

/// Starts the job of the slot in a thread, and says whether it did: not where there is none, or no thread for it.
pub fn start_from<R: Threads, J: Job + Send + 'static>(rt: &R, slot: &JobSlot<J>) -> bool {
    match slot.replace(None) {
        Some(job) => thread::spawn(rt, move || job.run()).is_ok(),
        None => false,
    }
}
