// A value with a model, and entries that own their bytes: a journal with a title, which stands for the list of its lines.
ghost use Rattle.std.specs.Prelude.{◌≡◌, ◌++◌, ◌∷◌, [], ℕ, List, length, map, false, IfOk, IfSome, IfNone, OnErr};
ghost use Rattle.uw_lock.specs.declared.entries.Made.{Made};
ghost use Rattle.uw_lock.specs.LockRule.{GrewByOthers, entries_by, made};

use std::alloc::{AllocError, Global};
use std::marker::Model;
use std::sync::Wait;
use std::test::Fail;
use uw_lock::{Kept, Pass, RobustLock};

#[derive(Drop)]
struct Line {
    bytes: Vec<u8>,
}

impl Model for Line {
    ghost use Rattle.std.specs.Prelude.{ℕ, List};

    ghost Value = { List ℕ };

    ghost view = { λ l. l.bytes.items };
}

impl Line {
    fn new(alloc: Global, bytes: &[u8]) -> Result<Line, AllocError>
        ensures { IfOk result (λ l. l ≡ bytes.now) }
    {
        Ok(Line {
            bytes: Vec::from_slice(alloc, bytes)?,
        })
    }
}

#[derive(Drop)]
struct Journal {
    title: Line,
    lines: Vec<Line>,
}

impl Model for Journal {
    ghost use Rattle.std.specs.Prelude.{ℕ, List};

    ghost Value = { List ℕ × List (List ℕ) };

    ghost view = { λ j. (j.title, j.lines.items) };
}

impl Kept for Journal {
    type Entry = Line;

    type Conf = Line;

    ghost conf = { λ j. j.0 };

    ghost stands = { λ j history. j.1 ≡ map (λ e. e.entry) history };

    ghost pending = { λ j. false };
}

impl Journal {
    fn new(alloc: Global, title: Line) -> Journal
        ensures { result ≡ (title, []) }
    {
        Journal {
            title,
            lines: Vec::new(alloc),
        }
    }

    // Where the line then stands.
    fn write(&mut self, alloc: Global, line: &Line) -> Result<usize, AllocError>
        ensures ok { IfOk result (λ place. (self.new ≡ (self.old.0, self.old.1 ++ line.now ∷ [])) × (place ≡ length self.old.1)) }
        ensures err { OnErr result (self.new ≡ self.old) }
    {
        let place = self.lines.len();
        let copy = Line::new(alloc, line.bytes.as_slice())?;
        self.lines.push(copy)?;
        Ok(place)
    }
}

// Writes one line in one turn: `None` where there is no memory for it. Between what the pass had seen and its line stand
// lines of others alone, and the line's place is the answer that the history gives.
fn write_line<R: Wait>(
    rt: &R,
    alloc: Global,
    lock: &RobustLock<Journal>,
    pass: Pass<Journal>,
    moment: u64,
    line: &Line,
) -> (Pass<Journal>, Option<usize>)
    requires { pass.lock ≡ lock.now }
    ensures pass { (result.0.lock ≡ lock.now) × (result.0.number ≡ pass.number) × (result.0.conf ≡ pass.conf) }
    ensures written { IfSome result.1 (λ place. (others : List (Made _)) × (result.0.seen ≡ pass.seen ++ others ++ made pass.number moment line.now ∷ []) × (entries_by pass.number others ≡ []) × (place ≡ length (pass.seen ++ others))) }
    ensures mine { IfSome result.1 (λ _. result.0.mine ≡ pass.mine ++ made pass.number moment line.now ∷ []) }
    ensures refused { IfNone result.1 (GrewByOthers pass.number result.0.seen pass.seen × (result.0.mine ≡ pass.mine)) }
{
    let mut turn = lock.turn(rt, pass);
    match turn.value().write(alloc, line) {
        Ok(place) => {
            turn.note(moment, line);
            (turn.leave(), Some(place))
        }
        Err(_) => (turn.leave(), None),
    }
}

#[test]
fn entries_that_own_their_bytes_stand_in_one_history(rt: HostRuntime) -> Result<(), Fail> {
    let alloc = rt.alloc();
    let journal = Journal::new(alloc, Line::new(alloc, b"harbour")?);
    let (lock, mut one) = match RobustLock::new(alloc, journal) {
        Ok(made) => made,
        Err(_) => return Err(Fail::new("no memory")),
    };
    let two = lock.pass(&mut one);
    let (one, first) = write_line(&rt, alloc, &lock, one, 7, &Line::new(alloc, b"in")?);
    let (mut two, second) = write_line(&rt, alloc, &lock, two, 8, &Line::new(alloc, b"out")?);
    let (mut one, third) = write_line(&rt, alloc, &lock, one, 9, &Line::new(alloc, b"")?);
    assert!(rt; first == Some(0) && second == Some(1) && third == Some(2));
    lock.meet(&mut one, &mut two);
    let journal = lock.close(one).ok_or("the lock was left")?;
    assert_eq!(rt; journal.title.bytes.as_slice(), b"harbour".as_slice());
    assert_eq!(rt; journal.lines.len(), 3);
    assert_eq!(rt; journal.lines[1].bytes.as_slice(), b"out".as_slice());
    Ok(())
}
