// A register of the tests' own: it stands for the list of the values that were added to it.
ghost use Rattle.std.specs.Prelude.{◌≡◌, ◌<◌, ◌++◌, ◌∷◌, [], List, map, false, true, IfOk, IfErr, OnOk, OnErr, MatchBool};
ghost use Rattle.uw_lock.specs.declared.entries.Made.{Made};
ghost use Rattle.uw_lock.specs.LockRule.{StartsWith, HasOwn, IsOnly, made};

use std::alloc::{AllocError, Global};
use std::sync::Wait;
use std::test::Fail;
use std::thread;
use std::thread::Threads;
use uw_lock::{Kept, Pass, RobustLock};

#[derive(Drop)]
struct Register {
    name: u64,
    values: Vec<u64>,
    torn: bool,
}

impl Kept for Register {
    type Entry = u64;

    type Conf = u64;

    ghost conf = { λ r. r.name };

    ghost stands = { λ r history. r.values.items ≡ map (λ e. e.entry) history };

    ghost pending = { λ r. r.torn };
}

impl Register {
    fn new(alloc: Global, name: u64) -> Register
        ensures { (result.name ≡ name) × (result.values.items ≡ []) × (result.torn ≡ false) }
    {
        Register {
            name,
            values: Vec::new(alloc),
            torn: false,
        }
    }

    fn add(&mut self, value: u64) -> Result<(), AllocError>
        ensures ok { OnOk result (self.new.values.items ≡ self.old.values.items ++ value ∷ []) }
        ensures err { OnErr result (self.new.values.items ≡ self.old.values.items) }
        ensures same { (self.new.name ≡ self.old.name) × (self.new.torn ≡ self.old.torn) }
    {
        self.values.push(value)?;
        Ok(())
    }

    fn mend(&mut self)
        ensures { (self.new.values.items ≡ self.old.values.items) × (self.new.name ≡ self.old.name) × (self.new.torn ≡ false) }
    {
        self.torn = false;
    }

    fn tear(&mut self)
        ensures { (self.new.values.items ≡ self.old.values.items) × (self.new.name ≡ self.old.name) }
    {
        self.torn = true;
    }
}

// Adds one value in one turn, and notes it exactly where it was added. Tells whether the last holder died, and whether
// the value was added.
fn add_one<R: Wait>(
    rt: &R,
    lock: &RobustLock<Register>,
    pass: Pass<Register>,
    value: u64,
) -> (Pass<Register>, bool, bool)
    requires { pass.lock ≡ lock.now }
    ensures pass { (result.0.lock ≡ lock.now) × (result.0.number ≡ pass.number) × (result.0.conf ≡ pass.conf) }
    ensures own { HasOwn result.0 }
    ensures seen { StartsWith result.0.seen pass.seen }
    ensures mine { MatchBool result.2 (result.0.mine ≡ pass.mine ++ made pass.number 0 value ∷ []) (result.0.mine ≡ pass.mine) }
    ensures last { result.2 ≡ true → (before : List (Made _)) × (result.0.seen ≡ before ++ made pass.number 0 value ∷ []) }
{
    let mut turn = lock.turn(rt, pass);
    let was_dead = turn.was_dead();
    let register = turn.value();
    register.mend();
    match register.add(value) {
        Ok(()) => {
            turn.note(0, &value);
            (turn.leave(), was_dead, true)
        }
        Err(_) => (turn.leave(), was_dead, false),
    }
}

// A pass that is the only one is told of its own death, and of no other: its contract says so.
fn die_and_mend<R: Wait>(
    rt: &R,
    lock: &RobustLock<Register>,
    pass: Pass<Register>,
) -> (bool, bool, Pass<Register>)
    requires { (pass.lock ≡ lock.now) × IsOnly pass }
    ensures { (result.0 ≡ true) × (result.1 ≡ false) × (result.2.lock ≡ lock.now) }
{
    let turn = lock.turn(rt, pass);
    let mut turn = lock.turn(rt, turn.leave_dead());
    let died = turn.was_dead();
    turn.value().mend();
    let turn = lock.turn(rt, turn.leave());
    let died_again = turn.was_dead();
    (died, died_again, turn.leave())
}

const EACH: u64 = 100;

// Adds a hundred values, each in a turn of its own.
fn add_all<R: Wait>(
    rt: &R,
    lock: &RobustLock<Register>,
    pass: Pass<Register>,
    from: u64,
) -> Pass<Register>
    requires lock { pass.lock ≡ lock.now }
    requires room { from < 1000 }
    ensures { result.lock ≡ lock.now }
{
    let mut pass = pass;
    for k in 0..EACH {
        pass = add_one(rt, lock, pass, from + k).0;
    }
    pass
}

// Two threads add a hundred values each, beside each other.
fn add_beside<R: Threads + Wait + Sync>(
    rt: &R,
    lock: &RobustLock<Register>,
    one: Pass<Register>,
    two: Pass<Register>,
) -> (Pass<Register>, Pass<Register>)
    requires { (one.lock ≡ lock.now) × (two.lock ≡ lock.now) }
    ensures { (result.0.lock ≡ lock.now) × (result.1.lock ≡ lock.now) }
{
    thread::join(
        rt,
        move || -> Pass<Register>
            requires { one.lock ≡ lock.now }
            ensures { result.lock ≡ lock.entry.now }
        { add_all(rt, lock, one, 0) },
        move || -> Pass<Register>
            requires { two.lock ≡ lock.now }
            ensures { result.lock ≡ lock.entry.now }
        { add_all(rt, lock, two, EACH) },
    )
}

fn opened(alloc: Global) -> Result<(RobustLock<Register>, Pass<Register>), AllocError>
    ensures { IfOk result (λ r. (r.1.lock ≡ r.0) × IsOnly r.1) }
{
    match RobustLock::new(alloc, Register::new(alloc, 7)) {
        Ok(made) => Ok(made),
        Err(_) => Err(AllocError),
    }
}

#[test]
fn two_threads_lose_no_entry(rt: HostRuntime) -> Result<(), Fail> {
    let (lock, mut one) = opened(rt.alloc())?;
    let two = lock.pass(&mut one);
    let (mut one, mut two) = add_beside(&rt, &lock, one, two);
    lock.meet(&mut one, &mut two);
    let register = lock.close(one).ok_or("the lock was left")?;
    assert_eq!(rt; register.values.len(), 200);
    // Each thread's values stand in its own order.
    for from in [0, EACH] {
        let mut next = from;
        for value in &register.values {
            if *value == next && next < 1000 {
                next += 1;
            }
        }
        assert!(rt; next >= from + EACH);
    }
    Ok(())
}

#[test]
fn a_death_is_told_to_the_next_holder(rt: HostRuntime) -> Result<(), Fail> {
    let (lock, pass) = opened(rt.alloc())?;
    let (died, died_again, pass) = die_and_mend(&rt, &lock, pass);
    assert!(rt; died && !died_again);
    let (pass, first, _) = add_one(&rt, &lock, pass, 1);
    let (pass, after_leave, _) = add_one(&rt, &lock, pass, 2);
    assert!(rt; !first && !after_leave);
    let mut turn = lock.turn(&rt, pass);
    assert!(rt; !turn.was_dead());
    turn.value().tear();
    let pass = turn.leave_dead();
    let mut turn = lock.turn(&rt, pass);
    assert!(rt; turn.was_dead());
    assert!(rt; turn.value().torn);
    let pass = turn.leave_dead();
    let (pass, after_death, _) = add_one(&rt, &lock, pass, 3);
    let (pass, after_mending, _) = add_one(&rt, &lock, pass, 4);
    assert!(rt; after_death && !after_mending);
    let register = lock.close(pass).ok_or("the lock was left")?;
    assert_eq!(rt; register.values.as_slice(), [1, 2, 3, 4].as_slice());
    assert!(rt; !register.torn);
    Ok(())
}

#[test]
fn a_dropped_turn_closes_to_nothing(rt: HostRuntime) -> Result<(), Fail> {
    let (lock, mut one) = opened(rt.alloc())?;
    let two = lock.pass(&mut one);
    drop(lock.turn(&rt, one));
    assert!(rt; lock.close(two).is_none());
    let (lock, pass) = opened(rt.alloc())?;
    let pass = lock.turn(&rt, pass).leave_dead();
    assert!(rt; lock.close(pass).is_some());
    Ok(())
}
