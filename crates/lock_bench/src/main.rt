//! Takes turns at one lock, in one thread or in four beside each other, and prints how many turns were made. The words
//! are the number of turns of each thread, and the number of threads, which is 1 or 4. With no words each of four
//! threads takes ten. `bench/lock` times it.
#![tactic(auto)]

ghost use Rattle.std.specs.Prelude.{◌≡◌};
ghost use Rattle.lock_bench.specs.Turns.{TookTurns};

mod counter;

use crate::counter::Counter;
use std::alloc::Global;
use std::process::ExitCode;
use std::rt::Env;
use std::sync::Wait;
use std::thread::Threads;
use std::{env, io, thread};
use uw_lock::{Pass, RobustLock};

// What the words ask for.
#[derive(Clone, Copy)]
struct Load {
    each: u64,
    threads: u64,
}

const SMALL: Load = Load {
    each: 10,
    threads: 4,
};

// Takes so many turns. Each counts itself, and is noted.
fn take_turns<R: Wait>(
    rt: &R,
    lock: &RobustLock<Counter>,
    pass: Pass<Counter>,
    count: u64,
) -> Pass<Counter>
    requires { pass.lock ≡ lock.now }
    ensures { TookTurns pass result count }
{
    let mut pass = pass;
    for _ in 0..count {
        let mut turn = lock.turn(rt, pass);
        turn.value().count();
        turn.note(0, &());
        pass = turn.leave();
    }
    pass
}

// Two threads beside each other.
fn by_two<R: Threads + Wait + Sync>(
    rt: &R,
    lock: &RobustLock<Counter>,
    one: Pass<Counter>,
    two: Pass<Counter>,
    count: u64,
) -> (Pass<Counter>, Pass<Counter>)
    requires { (one.lock ≡ lock.now) × (two.lock ≡ lock.now) }
    ensures { TookTurns one result.0 count × TookTurns two result.1 count }
{
    thread::join(
        rt,
        move || -> Pass<Counter>
            requires { one.lock ≡ lock.now }
            ensures { TookTurns one result count }
        { take_turns(rt, lock, one, count) },
        move || -> Pass<Counter>
            requires { two.lock ≡ lock.now }
            ensures { TookTurns two result count }
        { take_turns(rt, lock, two, count) },
    )
}

// Four threads beside each other.
fn by_four<R: Threads + Wait + Sync>(
    rt: &R,
    lock: &RobustLock<Counter>,
    pass: Pass<Counter>,
    count: u64,
) -> Pass<Counter>
    requires { pass.lock ≡ lock.now }
    ensures { TookTurns pass result count }
{
    let mut one = pass;
    let mut two = lock.pass(&mut one);
    let three = lock.pass(&mut one);
    let four = lock.pass(&mut two);
    let (first, _) = thread::join(
        rt,
        move || -> (Pass<Counter>, Pass<Counter>)
            requires { (one.lock ≡ lock.now) × (two.lock ≡ lock.now) }
            ensures { TookTurns one result.0 count × TookTurns two result.1 count }
        { by_two(rt, lock, one, two, count) },
        move || -> (Pass<Counter>, Pass<Counter>)
            requires { (three.lock ≡ lock.now) × (four.lock ≡ lock.now) }
            ensures { TookTurns three result.0 count × TookTurns four result.1 count }
        { by_two(rt, lock, three, four, count) },
    );
    first.0
}

// How many turns were made: `None` for another number of threads, or where there was no memory for the lock.
fn measure<R: Threads + Wait + Sync>(rt: &R, alloc: Global, load: Load) -> Option<u64> {
    let Ok((lock, pass)) = RobustLock::new(alloc, Counter::new()) else {
        return None;
    };
    let pass = match load.threads {
        1 => take_turns(rt, &lock, pass, load.each),
        4 => by_four(rt, &lock, pass, load.each),
        _ => return None,
    };
    Some(lock.close(pass)?.turns())
}

// The load that the words ask for: `None` where they are not two numbers.
fn asked_for<R: Env + AllocGlobal>(rt: &R, alloc: Global) -> Option<Load> {
    let words = env::args(rt).ok()?.collect::<Vec<String>>(alloc).ok()?;
    if words.len() < 2 {
        return Some(SMALL);
    }
    let each = words.get(1)?.parse::<u64>().ok()?;
    let threads = words.get(2)?.parse::<u64>().ok()?;
    Some(Load { each, threads })
}

fn main(rt: HostRuntime) -> io::Result<ExitCode> {
    let alloc = rt.alloc();
    let turns = asked_for(&rt, alloc).and_then(|load| measure(&rt, alloc, load));
    match turns {
        Some(turns) => {
            println!(rt; "{turns} turns")?;
            Ok(ExitCode::SUCCESS)
        }
        None => Ok(ExitCode::FAILURE),
    }
}
