// Calls that die in place of each of their word writes, and repairs that die so too.
use crate::calls::{What, are_twins, ask, call_of, conf_of, dies_at};
use std::alloc::Global;
use std::test::Fail;
use uw_base::Memory;
use uw_cache::Vault;
use uw_intent::{CallFault, Recoverable, recovered_call};
use uw_model::ListCache;

/// A call at the moment 20 on a cache that was filled first, by calls at the moment 10.
#[derive(Clone, Copy)]
struct Case {
    name: &'static str,
    purges: bool,
    fill: &'static [What],
    /// A call that dies in place of its first word write, so that its plan is left where it was made.
    given_up: Option<What>,
    what: What,
}

/// Five of the six blocks: `a` has two of them, and `b` dies at 15.
const FILL: &[What] = &[
    What::Set(b"a", b"0123456789", 0),
    What::Set(b"b", b"two", 5),
    What::Set(b"c", b"01234567012345", 0),
];

const CASES: [Case; 8] = [
    Case {
        name: "a set in a free block",
        purges: false,
        fill: FILL,
        given_up: None,
        what: What::Set(b"d", b"four", 0),
    },
    Case {
        name: "a set of a key whose entry is dead",
        purges: false,
        fill: FILL,
        given_up: Some(What::Clear),
        what: What::Set(b"b", b"again", 0),
    },
    Case {
        name: "a set that purges two entries",
        purges: true,
        fill: FILL,
        given_up: None,
        what: What::Set(b"d", b"01234567012345670123456701", 0),
    },
    Case {
        name: "an update in more blocks",
        purges: false,
        fill: FILL,
        given_up: Some(What::Clear),
        what: What::Update(b"c", b"01234567012345670", 9),
    },
    Case {
        name: "a removal",
        purges: false,
        fill: FILL,
        given_up: Some(What::Clear),
        what: What::Del(b"c"),
    },
    Case {
        name: "a get that is a use",
        purges: true,
        fill: FILL,
        given_up: Some(What::Clear),
        what: What::Get(b"a"),
    },
    Case {
        name: "a sweep",
        purges: false,
        fill: FILL,
        given_up: None,
        what: What::Sweep,
    },
    Case {
        name: "a clear",
        purges: false,
        fill: FILL,
        given_up: None,
        what: What::Clear,
    },
];

/// The list before the call of a case, or behind it.
fn list_of(alloc: Global, case: &Case, behind: bool) -> Result<ListCache, Memory> {
    let mut list = ListCache::new(alloc, &conf_of(alloc, case.purges))?;
    for what in case.fill.iter() {
        let _ = list.call(alloc, 10, &call_of(alloc, *what)?)?;
    }
    if behind {
        let _ = list.call(alloc, 20, &call_of(alloc, case.what)?)?;
    }
    Ok(list)
}

/// The region before the call of a case.
fn filled(alloc: Global, case: &Case) -> Result<Vault, Memory> {
    let mut vault = Vault::new(alloc, &conf_of(alloc, case.purges))?;
    for what in case.fill.iter() {
        let _ = ask(alloc, &mut vault, 10, *what)?;
    }
    if let Some(what) = case.given_up {
        let call = call_of(alloc, what)?;
        let mut life = dies_at(alloc, 1)?;
        let _ = recovered_call(alloc, &mut vault, 20, &call, &mut life);
    }
    Ok(vault)
}

/// A call whose n-th write was refused.
struct Stopped {
    vault: Vault,
    /// It made all of its writes, since it has no n-th.
    ended: bool,
    /// It is made, or its repair will make it.
    whole: bool,
}

fn stop(alloc: Global, case: &Case, n: u64) -> Result<Stopped, Memory> {
    let mut vault = filled(alloc, case)?;
    let call = call_of(alloc, case.what)?;
    let mut life = dies_at(alloc, n)?;
    let end = recovered_call(alloc, &mut vault, 20, &call, &mut life);
    match end {
        Ok(_) => Ok(Stopped {
            vault,
            ended: true,
            whole: true,
        }),
        Err(CallFault::Died { whole }) => Ok(Stopped {
            vault,
            ended: false,
            whole,
        }),
        Err(CallFault::Memory) => Err(Memory),
    }
}

/// More than the writes of any call of the cases.
const WRITES: u64 = 200;

/// Stops a call at a write, and then its repair at each of its own; and reads the cache after that. Whether the call is
/// whole, and whether it had such a write.
fn try_repairs(alloc: Global, case: &Case, n: u64) -> Result<Option<(bool, bool)>, Memory> {
    for m in 1..WRITES {
        let Stopped {
            mut vault,
            ended,
            whole,
        } = stop(alloc, case, n)?;
        if vault.is_pending() != (whole && !ended) {
            return Ok(None);
        }
        let repaired = vault.recover(&mut dies_at(alloc, m)?).is_ok();
        if repaired == vault.is_pending() {
            return Ok(None);
        }
        let mut list = list_of(alloc, case, whole)?;
        if !are_twins(alloc, &mut vault, &mut list, 20)? {
            return Ok(None);
        }
        if repaired {
            return Ok(Some((whole, ended)));
        }
    }
    Ok(None)
}

#[test]
fn each_death_leaves_the_list_before_or_the_one_behind(rt: HostRuntime) -> Result<(), Fail> {
    for case in CASES.iter() {
        let name = case.name;
        let mut absent = 0u64;
        let mut whole = 0u64;
        for n in 1..WRITES {
            let tried = try_repairs(rt.alloc(), case, n)?;
            assert!(rt; tried.is_some(), "{name}: {n}");
            match tried {
                Some((_, true)) | None => break,
                Some((false, false)) => absent = absent.saturating_add(1),
                Some((true, false)) => whole = whole.saturating_add(1),
            }
        }
        // Three writes of the record for each planned word, and its used word; then the copies, and the gate closes.
        let planned = whole.saturating_sub(1);
        assert!(rt; planned > 0, "{name}");
        assert_eq!(rt;
            absent,
            planned.saturating_mul(3).saturating_add(2),
            "{name}"
        );
    }
    Ok(())
}
