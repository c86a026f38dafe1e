// Room is made: entries that are dead, or the least recent ones, or all of them leave the list.
ghost use Rattle.std.specs.Prelude.{◌≡◌, ◌≤◌, ◌&&◌, ℕ, List, [], None, Some, IfSome, MatchOption, false, true, not};
ghost use Rattle.std.specs.Prelude.{filter, is_some, length, unwrap_or};
ghost use Rattle.uw_model.specs.declared.entries.Entry.{Entry};
ghost use Rattle.uw_model.specs.Calls.{without};
ghost use Rattle.uw_model.specs.Entries.{IsCacheConf};
ghost use Rattle.uw_model.specs.Layout.{words_of};
ghost use Rattle.uw_model.specs.Placement.{alive_of, first_run, fits, is_alive, longest_front, room};
ghost use Rattle.uw_words.specs.Numbers.{without_number};
ghost use Rattle.uw_words.specs.Parts.{seen};
ghost use Rattle.uw_plan.specs.Agreement.{AgreesAs};
ghost use Rattle.uw_plan.specs.CallSteps.{HasEntries, HasSpareFor, Leaves};
ghost use Rattle.uw_plan.specs.Plans.{Costs, HasRoomFor, IsPaired, item_run_places};
ghost use Rattle.uw_plan.specs.PolicySteps.{swept_where_set};
ghost use Rattle.uw_plan.specs.Regions.{shape_of};

use crate::entries::drop_entry;
use crate::near::run_near;
use crate::region::shape_of;
use crate::room::free_run;
use uw_items::fields_of;
use uw_model::{CacheConf, is_alive_until, span_of};
use uw_recency::{last, newest, older};
use uw_words::{Overlay, Ram};

/// Plans that the entries that are not alive at a moment leave the list, and counts them. Takes no memory.
pub fn sweep(ram: &Ram, conf: &CacheConf, over: &mut Overlay, moment: u64) -> u64
    requires conf { IsCacheConf conf.now }
    requires region { length ram.now ≡ words_of conf.now }
    requires some { HasEntries (seen over.old ram.now) conf.now }
    requires room { (items : List ℕ) (list : List Entry)
        → AgreesAs (seen over.old ram.now) (shape_of conf.now) conf.now items list
        → HasSpareFor conf.now list 0 over.old }
    ensures list { (items : List ℕ) (list : List Entry)
        → AgreesAs (seen over.old ram.now) (shape_of conf.now) conf.now items list
        → Leaves conf.now ram.now over.old over.new list (alive_of conf.now moment list) }
    ensures count { (items : List ℕ) (list : List Entry)
        → AgreesAs (seen over.old ram.now) (shape_of conf.now) conf.now items list
        → result ≡ length (filter (λ e. not (is_alive conf.now moment e)) list) }
{
    let shape = shape_of(conf);
    let mut next = newest(ram, over, &shape);
    let mut gone = 0;
    for _ in 0..shape.n_items {
        let Some(item) = next else {
            return gone;
        };
        next = older(ram, over, &shape, item);
        if is_alive_until(conf, moment, fields_of(ram, over, &shape, item).dies) {
            continue;
        }
        drop_entry(ram, conf, over, item);
        gone += 1;
    }
    gone
}

/// Plans that all entries leave the list. Takes no memory.
pub fn clear(ram: &Ram, conf: &CacheConf, over: &mut Overlay)
    requires conf { IsCacheConf conf.now }
    requires region { length ram.now ≡ words_of conf.now }
    requires some { HasEntries (seen over.old ram.now) conf.now }
    requires room { (items : List ℕ) (list : List Entry)
        → AgreesAs (seen over.old ram.now) (shape_of conf.now) conf.now items list
        → HasSpareFor conf.now list 0 over.old }
    ensures list { (items : List ℕ) (list : List Entry)
        → AgreesAs (seen over.old ram.now) (shape_of conf.now) conf.now items list
        → Leaves conf.now ram.now over.old over.new list [] }
{
    let shape = shape_of(conf);
    while let Some(item) = newest(ram, over, &shape) {
        drop_entry(ram, conf, over, item);
    }
}

// Plans that the entry of an item leaves a list which has no room for one more entry of n blocks, and gives the first
// run of so many where there is room then. Where an item was free before, no run was, and only blocks round those of
// the entry are looked at. Takes no memory.
fn run_after(ram: &Ram, conf: &CacheConf, over: &mut Overlay, item: u64, n: u64) -> Option<u64>
    requires conf { IsCacheConf conf.now }
    requires region { length ram.now ≡ words_of conf.now }
    requires n { 1 ≤ n }
    requires used { (items : List ℕ) × (list : List Entry) × (e : Entry)
        × (AgreesAs (seen over.old ram.now) (shape_of conf.now) conf.now items list
        × IsPaired items list item e × (fits conf.now list n ≡ false)) }
    requires room { HasRoomFor over.old 16 (item_run_places (seen over.old ram.now) (shape_of conf.now) conf.now item) }
    ensures list { (items : List ℕ) (list : List Entry) (e : Entry)
        → AgreesAs (seen over.old ram.now) (shape_of conf.now) conf.now items list → IsPaired items list item e
        → AgreesAs (seen over.new ram.now) (shape_of conf.now) conf.now (without_number items item) (without e.key list) }
    ensures costs { Costs (shape_of conf.now) 16 (item_run_places (seen over.old ram.now) (shape_of conf.now) conf.now item)
        over.old over.new }
    ensures fits { (items : List ℕ) (list : List Entry)
        → AgreesAs (seen over.new ram.now) (shape_of conf.now) conf.now items list
        → is_some result ≡ fits conf.now list n }
    ensures run { (items : List ℕ) (list : List Entry)
        → AgreesAs (seen over.new ram.now) (shape_of conf.now) conf.now items list
        → IfSome result (λ first. first_run conf.now list n ≡ Some first) }
{
    let shape = shape_of(conf);
    let all_used = over.load(ram, shape.head + 9) >= shape.n_items;
    let fields = fields_of(ram, over, &shape, item);
    let m = span_of(conf, fields.length);
    drop_entry(ram, conf, over, item);
    if all_used {
        return free_run(ram, conf, over, n);
    }
    run_near(ram, over, &shape, fields.first, m, n)
}

/// Plans that the least recent entries leave the list, one after the other, until there is room for one more entry of n
/// blocks, and gives the first run of so many. None where there is none in the empty list either. Takes no memory.
pub fn purge(ram: &Ram, conf: &CacheConf, over: &mut Overlay, n: u64) -> Option<u64>
    requires conf { IsCacheConf conf.now }
    requires region { length ram.now ≡ words_of conf.now }
    requires some { HasEntries (seen over.old ram.now) conf.now }
    requires n { 1 ≤ n }
    requires room { (items : List ℕ) (list : List Entry)
        → AgreesAs (seen over.old ram.now) (shape_of conf.now) conf.now items list
        → HasSpareFor conf.now list 0 over.old }
    requires none { (items : List ℕ) (list : List Entry)
        → AgreesAs (seen over.old ram.now) (shape_of conf.now) conf.now items list
        → fits conf.now list n ≡ false }
    ensures { (items : List ℕ) (list : List Entry)
        → AgreesAs (seen over.old ram.now) (shape_of conf.now) conf.now items list
        → MatchOption result
        ((longest_front conf.now list n (length list) ≡ None) × Leaves conf.now ram.now over.old over.new list [])
        (λ first. (kept : List Entry) × ((longest_front conf.now list n (length list) ≡ Some kept)
        × (first_run conf.now kept n ≡ Some first) × Leaves conf.now ram.now over.old over.new list kept)) }
{
    let shape = shape_of(conf);
    while let Some(item) = last(ram, over, &shape) {
        if let Some(first) = run_after(ram, conf, over, item, n) {
            return Some(first);
        }
    }
    None
}

// Sweeps where that is a policy, and gives the first run of n blocks where there is then room for one more entry of
// them. Where it is none it answers None.
fn run_swept(ram: &Ram, conf: &CacheConf, over: &mut Overlay, moment: u64, n: u64) -> Option<u64>
    requires conf { IsCacheConf conf.now }
    requires region { length ram.now ≡ words_of conf.now }
    requires some { HasEntries (seen over.old ram.now) conf.now }
    requires n { 1 ≤ n }
    requires room { (items : List ℕ) (list : List Entry)
        → AgreesAs (seen over.old ram.now) (shape_of conf.now) conf.now items list
        → HasSpareFor conf.now list 0 over.old }
    ensures list { (items : List ℕ) (list : List Entry)
        → AgreesAs (seen over.old ram.now) (shape_of conf.now) conf.now items list
        → Leaves conf.now ram.now over.old over.new list (swept_where_set conf.now moment list) }
    ensures fits { (items : List ℕ) (list : List Entry)
        → AgreesAs (seen over.old ram.now) (shape_of conf.now) conf.now items list
        → is_some result ≡ (conf.now.sweep_on_full && fits conf.now (alive_of conf.now moment list) n) }
    ensures run { (items : List ℕ) (list : List Entry)
        → AgreesAs (seen over.old ram.now) (shape_of conf.now) conf.now items list
        → IfSome result (λ first. first_run conf.now (alive_of conf.now moment list) n ≡ Some first) }
{
    if !conf.sweep_on_full {
        return None;
    }
    sweep(ram, conf, over, moment);
    free_run(ram, conf, over, n)
}

// Purges where that is a policy, and gives the first run of n blocks where there is then room for one more entry of
// them. Where it is none it answers None.
fn run_purged(ram: &Ram, conf: &CacheConf, over: &mut Overlay, n: u64) -> Option<u64>
    requires conf { IsCacheConf conf.now }
    requires region { length ram.now ≡ words_of conf.now }
    requires some { HasEntries (seen over.old ram.now) conf.now }
    requires n { 1 ≤ n }
    requires room { (items : List ℕ) (list : List Entry)
        → AgreesAs (seen over.old ram.now) (shape_of conf.now) conf.now items list
        → HasSpareFor conf.now list 0 over.old }
    requires none { (items : List ℕ) (list : List Entry)
        → AgreesAs (seen over.old ram.now) (shape_of conf.now) conf.now items list
        → fits conf.now list n ≡ false }
    ensures { (items : List ℕ) (list : List Entry)
        → AgreesAs (seen over.old ram.now) (shape_of conf.now) conf.now items list
        → MatchOption result
        (((conf.now.purge_lru && is_some (longest_front conf.now list n (length list))) ≡ false)
        × ((kept : List Entry) × Leaves conf.now ram.now over.old over.new list kept))
        (λ first. (conf.now.purge_lru ≡ true)
        × ((kept : List Entry) × ((longest_front conf.now list n (length list) ≡ Some kept)
        × (first_run conf.now kept n ≡ Some first) × Leaves conf.now ram.now over.old over.new list kept))) }
{
    if !conf.purge_lru {
        return None;
    }
    purge(ram, conf, over, n)
}

// Clears where that is a policy, and gives the first run of n blocks in the empty list, 0 where it has none. Where it
// is none it answers None.
fn run_cleared(ram: &Ram, conf: &CacheConf, over: &mut Overlay, n: u64) -> Option<u64>
    requires conf { IsCacheConf conf.now }
    requires region { length ram.now ≡ words_of conf.now }
    requires some { HasEntries (seen over.old ram.now) conf.now }
    requires n { 1 ≤ n }
    requires room { (items : List ℕ) (list : List Entry)
        → AgreesAs (seen over.old ram.now) (shape_of conf.now) conf.now items list
        → HasSpareFor conf.now list 0 over.old }
    ensures room { over.new.room ≡ over.old.room }
    ensures list { (items : List ℕ) (list : List Entry)
        → AgreesAs (seen over.old ram.now) (shape_of conf.now) conf.now items list
        → MatchOption result (conf.now.clear_on_full ≡ false)
        (λ first. (conf.now.clear_on_full ≡ true) × (unwrap_or (first_run conf.now [] n) 0 ≡ first)
        × Leaves conf.now ram.now over.old over.new list []) }
{
    if !conf.clear_on_full {
        return None;
    }
    clear(ram, conf, over);
    Some(free_run(ram, conf, over, n).unwrap_or(0))
}

/// Makes room for one more entry of n blocks, by the policies that are set, and gives the first run of n blocks in the
/// list that is left, 0 where it was emptied and has none. Where no policy makes room it answers None, and what was
/// planned is of no use. Takes no memory.
pub fn make_room(
    ram: &Ram,
    conf: &CacheConf,
    over: &mut Overlay,
    moment: u64,
    n: u64,
) -> Option<u64>
    requires conf { IsCacheConf conf.now }
    requires region { length ram.now ≡ words_of conf.now }
    requires some { HasEntries (seen over.old ram.now) conf.now }
    requires n { 1 ≤ n }
    requires room { (items : List ℕ) (list : List Entry)
        → AgreesAs (seen over.old ram.now) (shape_of conf.now) conf.now items list
        → HasSpareFor conf.now list 0 over.old }
    ensures room { over.new.room ≡ over.old.room }
    ensures list { (items : List ℕ) (list : List Entry)
        → AgreesAs (seen over.old ram.now) (shape_of conf.now) conf.now items list
        → MatchOption result (room conf.now list n moment ≡ None)
        (λ first. (kept : List Entry) × ((room conf.now list n moment ≡ Some kept)
        × (unwrap_or (first_run conf.now kept n) 0 ≡ first) × Leaves conf.now ram.now over.old over.new list kept)) }
{
    if let Some(first) = free_run(ram, conf, over, n) {
        return Some(first);
    }
    if let Some(first) = run_swept(ram, conf, over, moment, n) {
        return Some(first);
    }
    if let Some(first) = run_purged(ram, conf, over, n) {
        return Some(first);
    }
    run_cleared(ram, conf, over, n)
}
