// Where the values of keys stand.
ghost use Rattle.uw_model.specs.Entries.{IsCacheConf};

use crate::calls::{What, ask, call_of, dies_at};
use std::alloc::Global;
use std::test::Fail;
use uw_base::Bytes;
use uw_cache::Vault;
use uw_intent::{Recoverable, recovered_call};
use uw_model::CacheConf;

/// Ten entries, and 70 blocks of eight bytes.
fn conf_of(alloc: Global) -> CacheConf
    ensures { IsCacheConf result }
{
    CacheConf {
        name: Bytes::new(alloc),
        items: 10,
        blocksize: 8,
        blocks: 70,
        keysize: 2048,
        chains: 65536,
        bitmap: true,
        purge_lru: false,
        sweep_on_full: false,
        clear_on_full: false,
    }
}

/// The place of a key where no repair is pending.
fn place(vault: &Vault, key: &[u8]) -> Option<u64> {
    if vault.is_pending() {
        None
    } else {
        vault.place(key)
    }
}

#[test]
fn a_value_stands_at_the_first_run_over_the_edge_of_a_word(rt: HostRuntime) -> Result<(), Fail> {
    let alloc = rt.alloc();
    let mut vault = Vault::new(alloc, &conf_of(alloc))?;
    let calls = [
        What::Set(b"a", &[7; 496], 0),
        What::Set(b"b", &[7; 32], 0),
        What::Set(b"d", &[7; 32], 0),
        What::Del(b"b"),
        What::Set(b"e", &[7; 33], 0),
    ];
    for what in calls {
        let _ = ask(alloc, &mut vault, 0, what)?;
    }
    assert_eq!(rt; place(&vault, b"a"), Some(0));
    assert_eq!(rt; place(&vault, b"b"), None);
    assert_eq!(rt; place(&vault, b"d"), Some(66));
    assert_eq!(rt; place(&vault, b"e"), None);
    let _ = ask(alloc, &mut vault, 0, What::Set(b"f", &[7; 32], 5))?;
    assert_eq!(rt; place(&vault, b"f"), Some(62));
    // a dead entry keeps its place, and a plan of which no word was written changes none
    let _ = ask(alloc, &mut vault, 9, What::Get(b"f"))?;
    assert_eq!(rt; place(&vault, b"f"), Some(62));
    let call = call_of(alloc, What::Sweep)?;
    let mut life = dies_at(alloc, 1)?;
    let _ = recovered_call(alloc, &mut vault, 9, &call, &mut life);
    assert_eq!(rt; place(&vault, b"f"), Some(62));
    let _ = ask(alloc, &mut vault, 9, What::Sweep)?;
    assert_eq!(rt; place(&vault, b"f"), None);
    Ok(())
}
