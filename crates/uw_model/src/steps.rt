// Each call of a cache as a step on the list of its entries.
ghost use Rattle.std.specs.Prelude.{◌≡◌, ◌<◌, Some, None, is_some, option_copied, slice_index_or, vec_len, vec_capacity, MatchOption, IfOk, OnOk, OnErr};
ghost use Rattle.uw_model.specs.declared.entries.Entry.{Entry as EntryValue};
ghost use Rattle.uw_model.specs.declared.calls.Call.TheVariants as calls;
ghost use Rattle.uw_model.specs.Entries.{IsCacheConf, IsState};
ghost use Rattle.uw_model.specs.Calls.{answer, next_state, written, alive_at, got};
ghost use Rattle.uw_model.specs.KeySteps.{HaveOwnKeys, IsAlivePlace};

use crate::keys::{move_to_front, place_of, put_back, put_in_front, take_out};
use crate::numbers::{Reckoning, dies_of, dies_of_number, is_zero_division, number_at, result_of};
use crate::placement::{is_alive, keep_alive, make_room};
use crate::sizes::{dies_at, is_bad_key, is_too_long, span};
use crate::{Answer, CacheConf, Call, Entry};
use std::alloc::Global;
use uw_base::{Bytes, BytesList, Memory};

/// The place of the alive entry of a key.
fn place_of_alive(conf: &CacheConf, entries: &[Entry], moment: u64, key: &[u8]) -> Option<usize>
    requires { IsState conf.now entries.now }
    ensures { MatchOption result
        (alive_at conf.now entries.now moment key.now ≡ None)
        (IsAlivePlace conf.now entries.now moment key.now) }
{
    let place = place_of(entries, key)?;
    if !is_alive(conf, moment, &entries[place]) {
        return None;
    }
    Some(place)
}

/// A use of the entry at a place: with `purge_lru` it becomes the most recent.
fn touch(conf: &CacheConf, entries: &mut Vec<Entry>, place: usize)
    requires keys { HaveOwnKeys entries.old.items }
    requires place { place < vec_len entries.old }
    ensures { (d : EntryValue) → entries.new.items
        ≡ (got conf.now entries.old.items (Some (slice_index_or entries.old.items place d))).list }
{
    if !conf.purge_lru {
        return;
    }
    move_to_front(entries, place);
}

/// The alive entry of a key.
fn alive<'a>(conf: &CacheConf, entries: &'a [Entry], moment: u64, key: &[u8]) -> Option<&'a Entry>
    requires { IsState conf.now entries.now }
    ensures { option_copied result ≡ alive_at conf.now entries.now moment key.now }
{
    let place = place_of_alive(conf, entries, moment, key)?;
    Some(&entries[place])
}

/// The value of a key.
pub fn get(
    alloc: Global,
    conf: &CacheConf,
    entries: &mut Vec<Entry>,
    moment: u64,
    key: &[u8],
) -> Result<Answer, Memory>
    requires { IsState conf.now entries.old.items }
    ensures answer { IfOk result (λ a. a ≡ answer conf.now entries.old.items moment (calls.Get key.now)) }
    ensures next { OnOk result (entries.new.items ≡ next_state conf.now entries.old.items moment (calls.Get key.now)) }
    ensures memory { OnErr result (entries.new.items ≡ entries.old.items) }
{
    if is_bad_key(conf, key) {
        return Ok(Answer::KeyLength);
    }
    let Some(place) = place_of_alive(conf, entries, moment, key) else {
        return Ok(Answer::Missing);
    };
    let value = Bytes::from_slice(alloc, entries[place].value.as_slice())?;
    touch(conf, entries, place);
    Ok(Answer::Value(value))
}

/// An entry with copies of a key and a value, at no place yet.
fn copied(alloc: Global, key: &[u8], value: &[u8], dies: u64) -> Result<Entry, Memory>
    ensures { IfOk result (λ e. e ≡ record { key = key.now; value = value.now; dies = dies; first = 0 }) }
{
    Ok(Entry {
        key: Bytes::from_slice(alloc, key)?,
        value: Bytes::from_slice(alloc, value)?,
        dies,
        first: 0,
    })
}

/// Puts an entry in front, at the first run, in room made at this moment, in a list that has memory for one more. Any
/// other entry of its key goes. The answer is the given one, or `Full` where no list has room.
fn place(
    conf: &CacheConf,
    entries: &mut Vec<Entry>,
    moment: u64,
    mut entry: Entry,
    answered: Answer,
) -> Answer
    requires conf { IsCacheConf conf.now }
    requires state { IsState conf.now entries.old.items }
    requires memory { vec_len entries.old < vec_capacity entries.old }
    ensures answer { result
        ≡ (written conf.now entries.old.items moment entry.key entry.value entry.dies answered).answer }
    ensures next { entries.new.items
        ≡ (written conf.now entries.old.items moment entry.key entry.value entry.dies answered).list }
{
    let n = span(conf, entry.value.as_slice());
    let taken = take_out(entries, entry.key.as_slice());
    let Some(first) = make_room(conf, entries, moment, n) else {
        put_back(entries, taken);
        return Answer::Full;
    };
    entry.first = first;
    put_in_front(entries, entry);
    answered
}

/// The same in a list that takes the memory for one more entry first.
fn write(
    conf: &CacheConf,
    entries: &mut Vec<Entry>,
    moment: u64,
    entry: Entry,
    answered: Answer,
) -> Result<Answer, Memory>
    requires conf { IsCacheConf conf.now }
    requires state { IsState conf.now entries.old.items }
    ensures answer { IfOk result (λ a. a
        ≡ (written conf.now entries.old.items moment entry.key entry.value entry.dies answered).answer) }
    ensures next { OnOk result (entries.new.items
        ≡ (written conf.now entries.old.items moment entry.key entry.value entry.dies answered).list) }
    ensures memory { OnErr result (entries.new.items ≡ entries.old.items) }
{
    entries.reserve(1)?;
    Ok(place(conf, entries, moment, entry, answered))
}

/// Whether a key has an alive entry.
fn has_alive(conf: &CacheConf, entries: &[Entry], moment: u64, key: &[u8]) -> bool
    requires { IsState conf.now entries.now }
    ensures { result ≡ is_some (alive_at conf.now entries.now moment key.now) }
{
    place_of_alive(conf, entries, moment, key).is_some()
}

/// Writes the value of a key that has no alive entry.
pub fn set(
    alloc: Global,
    conf: &CacheConf,
    entries: &mut Vec<Entry>,
    moment: u64,
    key: &[u8],
    value: &[u8],
    ttl: u64,
) -> Result<Answer, Memory>
    requires conf { IsCacheConf conf.now }
    requires state { IsState conf.now entries.old.items }
    ensures answer { IfOk result
        (λ a. a ≡ answer conf.now entries.old.items moment (calls.Set key.now value.now ttl)) }
    ensures next { OnOk result
        (entries.new.items ≡ next_state conf.now entries.old.items moment (calls.Set key.now value.now ttl)) }
    ensures memory { OnErr result (entries.new.items ≡ entries.old.items) }
{
    if is_bad_key(conf, key) {
        return Ok(Answer::KeyLength);
    }
    if is_too_long(conf, value) {
        return Ok(Answer::TooLong);
    }
    if has_alive(conf, entries, moment, key) {
        return Ok(Answer::Exists);
    }
    let entry = copied(alloc, key, value, dies_at(moment, ttl))?;
    write(conf, entries, moment, entry, Answer::Done)
}

/// Writes the value of a key, whether it has an alive entry or not.
pub fn update(
    alloc: Global,
    conf: &CacheConf,
    entries: &mut Vec<Entry>,
    moment: u64,
    key: &[u8],
    value: &[u8],
    ttl: u64,
) -> Result<Answer, Memory>
    requires conf { IsCacheConf conf.now }
    requires state { IsState conf.now entries.old.items }
    ensures answer { IfOk result
        (λ a. a ≡ answer conf.now entries.old.items moment (calls.Update key.now value.now ttl)) }
    ensures next { OnOk result
        (entries.new.items ≡ next_state conf.now entries.old.items moment (calls.Update key.now value.now ttl)) }
    ensures memory { OnErr result (entries.new.items ≡ entries.old.items) }
{
    if is_bad_key(conf, key) {
        return Ok(Answer::KeyLength);
    }
    if is_too_long(conf, value) {
        return Ok(Answer::TooLong);
    }
    let entry = copied(alloc, key, value, dies_at(moment, ttl))?;
    write(conf, entries, moment, entry, Answer::Done)
}

/// Removes the alive entry of a key.
pub fn delete(conf: &CacheConf, entries: &mut Vec<Entry>, moment: u64, key: &[u8]) -> Answer
    requires { IsState conf.now entries.old.items }
    ensures answer { result ≡ answer conf.now entries.old.items moment (calls.Del key.now) }
    ensures next { entries.new.items ≡ next_state conf.now entries.old.items moment (calls.Del key.now) }
{
    if is_bad_key(conf, key) {
        return Answer::KeyLength;
    }
    let Some(place) = place_of_alive(conf, entries, moment, key) else {
        return Answer::Missing;
    };
    entries.remove(place);
    Answer::Done
}

/// Whether a key has an alive entry. Never a use.
pub fn exists(conf: &CacheConf, entries: &[Entry], moment: u64, key: &[u8]) -> Answer
    requires { IsState conf.now entries.now }
    ensures { result ≡ answer conf.now entries.now moment (calls.Exists key.now) }
{
    if is_bad_key(conf, key) {
        return Answer::KeyLength;
    }
    Answer::Flag(has_alive(conf, entries, moment, key))
}

/// The number of a key, 0 where it has no alive entry. Never a use.
pub fn num(conf: &CacheConf, entries: &[Entry], moment: u64, key: &[u8]) -> Answer
    requires { IsState conf.now entries.now }
    ensures { result ≡ answer conf.now entries.now moment (calls.Num key.now) }
{
    if is_bad_key(conf, key) {
        return Answer::KeyLength;
    }
    match number_at(alive(conf, entries, moment, key)) {
        None => Answer::NotNumber,
        Some(number) => Answer::Number(number),
    }
}

/// Changes the number of a key.
pub fn math(
    alloc: Global,
    conf: &CacheConf,
    entries: &mut Vec<Entry>,
    moment: u64,
    key: &[u8],
    reckoning: Reckoning,
) -> Result<Answer, Memory>
    requires conf { IsCacheConf conf.now }
    requires state { IsState conf.now entries.old.items }
    ensures answer { IfOk result (λ a. a ≡ answer conf.now entries.old.items moment
        (calls.Math reckoning.op key.now reckoning.by reckoning.ttl)) }
    ensures next { OnOk result (entries.new.items ≡ next_state conf.now entries.old.items moment
        (calls.Math reckoning.op key.now reckoning.by reckoning.ttl)) }
    ensures memory { OnErr result (entries.new.items ≡ entries.old.items) }
{
    if is_bad_key(conf, key) {
        return Ok(Answer::KeyLength);
    }
    let Reckoning { op, by, ttl } = reckoning;
    let alive = alive(conf, entries, moment, key);
    let Some(number) = number_at(alive) else {
        return Ok(Answer::NotNumber);
    };
    if is_zero_division(op, by) {
        return Ok(Answer::ZeroDivisor);
    }
    let dies = dies_of_number(moment, ttl, dies_of(alive));
    let Some(number) = result_of(op, number, by) else {
        return Ok(Answer::Range);
    };
    let entry = copied(alloc, key, &number.to_le_bytes(), dies)?;
    write(conf, entries, moment, entry, Answer::Number(number))
}

/// The keys of the alive entries, the most recent first.
pub fn keys(
    alloc: Global,
    conf: &CacheConf,
    entries: &[Entry],
    moment: u64,
) -> Result<Answer, Memory>
    ensures { IfOk result (λ a. a ≡ answer conf.now entries.now moment calls.Keys) }
{
    let mut keys = Vec::new(alloc);
    for entry in entries {
        if is_alive(conf, moment, entry) {
            keys.push(Bytes::from_slice(alloc, entry.key.as_slice())?)?;
        }
    }
    Ok(Answer::Keys(BytesList::from_vec(keys)))
}

/// Removes the entries that are not alive, and counts them.
pub fn sweep(conf: &CacheConf, entries: &mut Vec<Entry>, moment: u64) -> Answer
    requires conf { IsCacheConf conf.now }
    requires state { IsState conf.now entries.old.items }
    ensures answer { result ≡ answer conf.now entries.old.items moment calls.Sweep }
    ensures next { entries.new.items ≡ next_state conf.now entries.old.items moment calls.Sweep }
{
    let before = entries.len();
    keep_alive(conf, entries, moment);
    Answer::Number((before - entries.len()) as i64)
}

/// Makes a call.
pub fn made(
    alloc: Global,
    conf: &CacheConf,
    entries: &mut Vec<Entry>,
    moment: u64,
    call: &Call,
) -> Result<Answer, Memory>
    requires conf { IsCacheConf conf.now }
    requires state { IsState conf.now entries.old.items }
    ensures answer { IfOk result (λ a. a ≡ answer conf.now entries.old.items moment call.now) }
    ensures next { OnOk result (entries.new.items ≡ next_state conf.now entries.old.items moment call.now) }
    ensures memory { OnErr result (entries.new.items ≡ entries.old.items) }
{
    match call {
        Call::Get { key } => get(alloc, conf, entries, moment, key.as_slice()),
        Call::Set { key, value, ttl } => {
            set(
                alloc,
                conf,
                entries,
                moment,
                key.as_slice(),
                value.as_slice(),
                *ttl,
            )
        }
        Call::Update { key, value, ttl } => {
            update(
                alloc,
                conf,
                entries,
                moment,
                key.as_slice(),
                value.as_slice(),
                *ttl,
            )
        }
        Call::Del { key } => Ok(delete(conf, entries, moment, key.as_slice())),
        Call::Exists { key } => Ok(exists(conf, entries, moment, key.as_slice())),
        Call::Clear => {
            entries.clear();
            Ok(Answer::Done)
        }
        Call::Num { key } => Ok(num(conf, entries, moment, key.as_slice())),
        Call::Math { op, key, by, ttl } => {
            let reckoning = Reckoning {
                op: *op,
                by: *by,
                ttl: *ttl,
            };
            math(alloc, conf, entries, moment, key.as_slice(), reckoning)
        }
        Call::Keys => keys(alloc, conf, entries, moment),
        Call::Sweep => Ok(sweep(conf, entries, moment)),
    }
}
