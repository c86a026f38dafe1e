// Where a value goes, and what makes room for it.
ghost use Rattle.std.specs.Prelude.{◌≡◌, ◌≤◌, ◌+◌, true, All, Some, MatchOption, IfSome, length, take, is_some, option_map, unwrap_or, vec_len, vec_capacity};
ghost use Rattle.uw_model.specs.Entries.{IsCacheConf, IsEntry, span};
ghost use Rattle.uw_model.specs.Placement.{is_alive, is_alive_until, alive_of, is_free, first_run, fits};
ghost use Rattle.uw_model.specs.Placement.{longest_front, room};
ghost use Rattle.uw_model.specs.PlacementSteps.{counts, counted, is_in_the_way, IsBlockedUntil};

use crate::sizes::end_of;
use crate::{CacheConf, Entry};

/// Whether what dies at a moment, in seconds and 0 for never, is alive at another moment.
pub fn is_alive_until(conf: &CacheConf, moment: u64, dies: u64) -> bool
    ensures { result ≡ is_alive_until conf.now moment dies }
{
    dies == 0 || conf.purge_lru || moment < dies
}

/// Whether an entry is alive at a moment.
pub fn is_alive(conf: &CacheConf, moment: u64, entry: &Entry) -> bool
    ensures { result ≡ is_alive conf.now moment entry.now }
{
    is_alive_until(conf, moment, entry.dies)
}

/// Whether an entry counts: each does, or where a moment is given those that are alive at it.
fn counts(conf: &CacheConf, at: Option<u64>, entry: &Entry) -> bool
    ensures { result ≡ counts conf.now at entry.now }
{
    match at {
        None => true,
        Some(moment) => is_alive(conf, moment, entry),
    }
}

/// The end of an entry that counts and covers one of the n blocks from the place on. None where it covers none of
/// them, or does not count. What needs no division is tested first.
fn end_if_in_the_way(
    conf: &CacheConf,
    entry: &Entry,
    at: Option<u64>,
    n: u64,
    place: u64,
) -> Option<u64>
    requires conf { IsCacheConf conf.now }
    requires entry { IsEntry conf.now entry.now }
    requires within { place + n ≤ conf.now.blocks }
    ensures stands { is_some result ≡ is_in_the_way conf.now at n place entry.now }
    ensures end { IfSome result (λ end. end ≡ entry.now.first + span conf.now entry.now.value) }
    ensures blocks { IfSome result (λ end. end ≤ conf.now.blocks) }
{
    if place + n <= entry.first || !counts(conf, at, entry) {
        return None;
    }
    let end = end_of(conf, entry);
    if end <= place {
        return None;
    }
    Some(end)
}

/// The end of the first entry that counts and covers one of the n blocks from the place on. From no place before that
/// end on are the n blocks free.
fn end_in_the_way(
    conf: &CacheConf,
    entries: &[Entry],
    at: Option<u64>,
    n: u64,
    place: u64,
) -> Option<u64>
    requires conf { IsCacheConf conf.now }
    requires entries { All (IsEntry conf.now) entries.now }
    requires within { place + n ≤ conf.now.blocks }
    ensures { MatchOption result
        (is_free conf.now (counted conf.now at entries.now) n place ≡ true)
        (IsBlockedUntil conf.now (counted conf.now at entries.now) n place) }
{
    for entry in entries {
        if let Some(end) = end_if_in_the_way(conf, entry, at, n, place) {
            return Some(end);
        }
    }
    None
}

/// The least place from which n blocks exist that no entry that counts covers. It goes from place to place by the
/// ends of the entries in the way, so it looks through the entries once more than there are at the most.
fn first_run(conf: &CacheConf, entries: &[Entry], at: Option<u64>, n: u64) -> Option<u64>
    requires conf { IsCacheConf conf.now }
    requires entries { All (IsEntry conf.now) entries.now }
    ensures { result ≡ first_run conf.now (counted conf.now at entries.now) n }
{
    let mut place = 0;
    while n <= conf.blocks - place {
        match end_in_the_way(conf, entries, at, n, place) {
            None => return Some(place),
            Some(end) => place = end,
        }
    }
    None
}

/// How many entries count.
#[tactic(auto, using(crate::proofs::CountedLemmas::length_counted))]
fn count(conf: &CacheConf, entries: &[Entry], at: Option<u64>) -> usize
    ensures { result ≡ length (counted conf.now at entries.now) }
{
    entries.iter().filter(|e| counts(conf, at, e)).count()
}

/// The first run of n blocks for one more entry beside those that count. None where there is no such run, or as many
/// entries count as the configuration allows.
fn run_beside(conf: &CacheConf, entries: &[Entry], at: Option<u64>, n: u64) -> Option<u64>
    requires conf { IsCacheConf conf.now }
    requires entries { All (IsEntry conf.now) entries.now }
    ensures fits { is_some result ≡ fits conf.now (counted conf.now at entries.now) n }
    ensures run { IfSome result (λ place. first_run conf.now (counted conf.now at entries.now) n ≡ Some place) }
{
    if count(conf, entries, at) as u64 >= conf.items {
        return None;
    }
    first_run(conf, entries, at, n)
}

/// How many entries the longest front of the list has that leaves room for one more entry of n blocks, and the first
/// run beside that front.
fn longest_front(conf: &CacheConf, entries: &[Entry], n: u64) -> Option<(usize, u64)>
    requires conf { IsCacheConf conf.now }
    requires entries { All (IsEntry conf.now) entries.now }
    ensures front { option_map (λ front. take front.0 entries.now) result
        ≡ longest_front conf.now entries.now n (length entries.now) }
    ensures run { IfSome result (λ front. first_run conf.now (take front.0 entries.now) n ≡ Some front.1) }
{
    let mut count = entries.len();
    'fronts: loop {
        if let Some(place) = run_beside(conf, &entries[..count], None, n) {
            return Some((count, place));
        }
        if count == 0 {
            return None;
        }
        count -= 1;
    }
}

/// Drops the entries that are not alive at a moment.
pub fn keep_alive(conf: &CacheConf, entries: &mut Vec<Entry>, moment: u64)
    ensures alive { entries.new.items ≡ alive_of conf.now moment entries.old.items }
    ensures shorter { vec_len entries.new ≤ vec_len entries.old }
    ensures capacity { vec_capacity entries.new ≡ vec_capacity entries.old }
{
    entries.retain(|e| is_alive(conf, moment, e));
}

/// Makes room for one more entry of n blocks, by the policies that are set. Answers the first run of n blocks in the
/// list that is left, 0 where it was emptied and has none. Where no policy makes room it answers None, and the list
/// stays.
pub fn make_room(conf: &CacheConf, entries: &mut Vec<Entry>, moment: u64, n: u64) -> Option<u64>
    requires conf { IsCacheConf conf.now }
    requires entries { All (IsEntry conf.now) entries.old.items }
    ensures run { result
        ≡ option_map (λ kept. unwrap_or (first_run conf.now kept n) 0) (room conf.now entries.old.items n moment) }
    ensures list { entries.new.items ≡ unwrap_or (room conf.now entries.old.items n moment) entries.old.items }
    ensures entries { All (IsEntry conf.now) entries.new.items }
    ensures shorter { vec_len entries.new ≤ vec_len entries.old }
    ensures capacity { vec_capacity entries.new ≡ vec_capacity entries.old }
{
    if let Some(place) = run_beside(conf, entries, None, n) {
        return Some(place);
    }
    if conf.sweep_on_full {
        if let Some(place) = run_beside(conf, entries, Some(moment), n) {
            keep_alive(conf, entries, moment);
            return Some(place);
        }
    }
    if conf.purge_lru {
        if let Some((count, place)) = longest_front(conf, entries, n) {
            entries.truncate(count);
            return Some(place);
        }
    }
    if conf.clear_on_full {
        entries.clear();
        return Some(first_run(conf, entries, None, n).unwrap_or(0));
    }
    None
}
