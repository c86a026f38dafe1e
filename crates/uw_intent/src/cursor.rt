// A walk over the runs of a record.
ghost use Rattle.std.specs.Prelude.{◌≡◌, ◌+◌, ◌<◌, ◌≤◌, [], ◌∷◌, length, IfSome, IfNone, OnSome};
ghost use Rattle.uw_intent.specs.RedoRecord.{IsFrame, IsRecord, run_writes, record_text};
ghost use Rattle.uw_intent.specs.CursorSteps.{IsOnRuns, writes_ahead};

use crate::{Frame, WordWrite};
use uw_words::Ram;

// Where a walk stands: before the word `next` of runs that end before `end`. So many words of a run are left, the first of
// which goes to `target`.
#[derive(Drop)]
pub(crate) struct Cursor {
    pub(crate) next: u64,
    pub(crate) end: u64,
    pub(crate) target: u64,
    pub(crate) left: u64,
}

impl Cursor {
    // Before the first run of a record.
    pub(crate) fn new(ram: &Ram, frame: &Frame) -> Cursor
        requires frame { IsFrame frame.now (length ram.now) }
        requires record { IsRecord frame.now ram.now }
        ensures runs { IsOnRuns ram.now result }
        ensures ahead { writes_ahead result ram.now ≡ run_writes 0 0 (record_text frame.now ram.now) }
        ensures next { result.next ≡ frame.now.start }
        ensures end { result.end ≤ frame.now.start + frame.now.room }
    {
        let len = ram.len();
        prove!(frame.start + frame.room <= len);
        Cursor {
            next: frame.start,
            end: frame.start + ram.load(frame.used),
            target: 0,
            left: 0,
        }
    }

    // The next write of the runs.
    pub(crate) fn step(&mut self, ram: &Ram) -> Option<WordWrite>
        requires { IsOnRuns ram.now self.old }
        ensures some { IfSome result (λ write. writes_ahead self.old ram.now ≡ write ∷ writes_ahead self.new ram.now) }
        ensures none { IfNone result (writes_ahead self.old ram.now ≡ []) }
        ensures runs { IsOnRuns ram.now self.new }
        ensures end { self.new.end ≡ self.old.end }
        ensures next { self.old.next ≤ self.new.next }
        ensures more { OnSome result (self.old.next < self.new.next) }
    {
        if self.left == 0 {
            if self.next == self.end {
                return None;
            }
            self.enter_run(ram);
        }
        let write = WordWrite {
            at: self.target,
            word: ram.load(self.next),
        };
        self.next += 1;
        self.target += 1;
        self.left -= 1;
        Some(write)
    }

    // Reads the place and the length of the next run.
    fn enter_run(&mut self, ram: &Ram)
        requires runs { IsOnRuns ram.now self.old }
        requires between { self.old.left ≡ 0 }
        requires more { self.old.next < self.old.end }
        ensures runs { IsOnRuns ram.now self.new }
        ensures some { 0 < self.new.left }
        ensures ahead { writes_ahead self.new ram.now ≡ writes_ahead self.old ram.now }
        ensures end { self.new.end ≡ self.old.end }
        ensures next { self.old.next ≤ self.new.next }
    {
        self.target = ram.load(self.next);
        self.left = ram.load(self.next + 1);
        self.next += 2;
    }
}
