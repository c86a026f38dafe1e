// The caches of a configuration.
ghost use Rattle.std.specs.Prelude.{◌≡◌, length, IfOk};
ghost use Rattle.std.specs.List.{list_any};
ghost use Rattle.std.specs.Str.{bytes_eq};
ghost use Rattle.uw_model.specs.declared.conf.CacheConf.{CacheConf};
ghost use Rattle.uw_model.specs.Entries.{IsCacheConf};
ghost use Rattle.uw_conf.specs.ReadingSteps.{Makes};
ghost use Rattle.uw_conf.specs.Caches.{conf_of, with_cache_conf, with_draft, with_cache};
ghost use Rattle.uw_conf.specs.ReadingSteps.{draft_seen};
ghost use Rattle.uw_conf.specs.Sound.{ArePartsOfSite};
ghost use Rattle.uw_conf.specs.ReadingSteps.{IsDraft};

use crate::ConfKind;
use crate::draft::{CacheDraft, draft_of};
use crate::refusal::Refusal;
use crate::sizes::{MOST_REGION_BYTES, area_bytes, region_bytes};
use std::alloc::Global;
use uw_base::texts::is;
use uw_base::{Bytes, Memory};
use uw_model::{CacheConf, CacheConfList, words_of};

const MOST_CACHES: usize = 16;

/// The most chains where none are said.
const DEFAULT_CHAINS: u64 = 65_536;

// The configuration of a draft that has a name and a number of items.
fn conf_of(
    alloc: Global,
    draft: &CacheDraft<'_>,
    name: &[u8],
    items: u64,
) -> Result<CacheConf, Memory>
    ensures { IfOk result (λ conf. conf ≡ conf_of (draft_seen draft.now) name.now items) }
{
    let blocks = if draft.bitmap {
        draft.blocks.unwrap_or(items)
    } else {
        items
    };
    Ok(CacheConf {
        name: Bytes::from_slice(alloc, name)?,
        items,
        blocksize: draft.blocksize,
        blocks,
        keysize: draft.keysize,
        chains: draft.chains.unwrap_or(items.min(DEFAULT_CHAINS)),
        bitmap: draft.bitmap,
        purge_lru: draft.purge_lru,
        sweep_on_full: draft.sweep_on_full,
        clear_on_full: draft.clear_on_full,
    })
}

// Whether a cache has the name.
fn has_name(caches: &[CacheConf], name: &[u8]) -> bool
    ensures { result ≡ list_any (λ (earlier : CacheConf). bytes_eq earlier.name name.now) caches.now }
{
    for earlier in caches {
        if is(earlier.name.as_slice(), name) {
            return true;
        }
    }
    false
}

// A cache behind the earlier ones, beside the areas so far.
fn add_cache_conf(
    alloc: Global,
    areas: &[u64],
    caches: &mut CacheConfList,
    conf: CacheConf,
) -> Result<(), Refusal>
    requires parts { ArePartsOfSite caches.old areas.now }
    requires conf { IsCacheConf conf }
    ensures { Makes caches.old caches.new result (with_cache_conf areas.now caches.old conf) }
{
    if has_name(caches.as_slice(), conf.name.as_slice()) {
        return Err(Refusal::Refused(ConfKind::NameTwice));
    }
    let own = region_bytes(caches.as_slice()) + 8 * words_of(&conf);
    let bytes = own + area_bytes(areas);
    if MOST_REGION_BYTES < bytes {
        return Err(Refusal::Refused(ConfKind::TooLarge {
            bytes,
            limit: MOST_REGION_BYTES,
        }));
    }
    caches.push(alloc, conf)?;
    Ok(())
}

// The cache of a draft, behind the earlier ones.
fn add_draft(
    alloc: Global,
    areas: &[u64],
    caches: &mut CacheConfList,
    draft: &CacheDraft<'_>,
) -> Result<(), Refusal>
    requires parts { ArePartsOfSite caches.old areas.now }
    requires draft { IsDraft (draft_seen draft.now) }
    ensures { Makes caches.old caches.new result
        (with_draft areas.now caches.old (draft_seen draft.now) (draft_seen draft.now).name (draft_seen draft.now).items) }
{
    let Some(name) = draft.name else {
        return Err(Refusal::Refused(ConfKind::Missing));
    };
    let Some(items) = draft.items else {
        return Err(Refusal::Refused(ConfKind::Missing));
    };
    let conf = conf_of(alloc, draft, name, items)?;
    add_cache_conf(alloc, areas, caches, conf)
}

/// Puts the cache of a line behind the others, or says why the line is refused and changes nothing. All its pairs are
/// looked at; the 17th cache is a bad value. All regions together, those of the areas so far among them, have their limit.
pub fn add_cache_line(
    alloc: Global,
    areas: &[u64],
    caches: &mut CacheConfList,
    text: &[u8],
) -> Result<(), Refusal>
    requires { ArePartsOfSite caches.old areas.now }
    ensures { Makes caches.old caches.new result (with_cache areas.now caches.old text.now) }
{
    let draft = draft_of(text);
    if draft.unknown {
        return Err(Refusal::Refused(ConfKind::UnknownOption));
    }
    if draft.bad || MOST_CACHES <= caches.len() {
        return Err(Refusal::Refused(ConfKind::BadValue));
    }
    add_draft(alloc, areas, caches, &draft)
}
