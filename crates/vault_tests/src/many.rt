// A cache of many entries.
ghost use Rattle.uw_model.specs.Entries.{IsCacheConf};

use std::alloc::Global;
use std::test::Fail;
use uw_base::{Bytes, Memory, put_decimal};
use uw_cache::Vault;
use uw_intent::recovered_call;
use uw_model::{Answer, CacheConf, Call};
use uw_outside::Immortal;

const MANY: u64 = 200_000;

fn conf_of(alloc: Global) -> CacheConf
    ensures { IsCacheConf result }
{
    CacheConf {
        name: Bytes::new(alloc),
        items: MANY,
        blocksize: 8,
        blocks: MANY,
        keysize: 8,
        chains: 65536,
        bitmap: false,
        purge_lru: false,
        sweep_on_full: false,
        clear_on_full: false,
    }
}

fn key_of(alloc: Global, number: u64) -> Result<Bytes, Memory> {
    let mut key = Bytes::new(alloc);
    put_decimal(&mut key, number)?;
    Ok(key)
}

fn is_set(alloc: Global, vault: &mut Vault, number: u64) -> Result<bool, Memory> {
    let call = Call::Set {
        key: key_of(alloc, number)?,
        value: Bytes::new(alloc),
        ttl: 0,
    };
    let end = recovered_call(alloc, vault, 0, &call, &mut Immortal::new());
    Ok(matches!(end, Ok(Answer::Done)))
}

fn is_there(alloc: Global, vault: &mut Vault, number: u64) -> Result<bool, Memory> {
    let call = Call::Get {
        key: key_of(alloc, number)?,
    };
    match recovered_call(alloc, vault, 0, &call, &mut Immortal::new()) {
        Ok(Answer::Value(value)) => Ok(value.len() == 0),
        _ => Ok(false),
    }
}

#[test]
fn two_hundred_thousand_entries_are_set_and_got(rt: HostRuntime) -> Result<(), Fail> {
    let alloc = rt.alloc();
    let mut vault = Vault::new(alloc, &conf_of(alloc))?;
    for number in 0..MANY {
        assert!(rt; is_set(alloc, &mut vault, number)?, "set {number}");
    }
    for number in 0..MANY {
        assert!(rt; is_there(alloc, &mut vault, number)?, "get {number}");
    }
    Ok(())
}
