// Calls that write: a value that is set or updated, and a number that is changed.
ghost use Rattle.std.specs.Prelude.{◌≡◌, ℕ, List, [], length, false, Option, IfSome, option_map};
ghost use Rattle.uw_model.specs.declared.entries.Entry.{Entry};
ghost use Rattle.uw_model.specs.declared.calls.Call.TheVariants as calls;
ghost use Rattle.uw_model.specs.Calls.{answer, is_bad_key, is_too_long};
ghost use Rattle.uw_model.specs.Entries.{IsCacheConf};
ghost use Rattle.uw_model.specs.Layout.{words_of};
ghost use Rattle.uw_words.specs.Parts.{seen};
ghost use Rattle.uw_plan.specs.Agreement.{Agrees, AgreesAs};
ghost use Rattle.uw_plan.specs.CallPlanSteps.{IsUnplanned, PlansFor};
ghost use Rattle.uw_plan.specs.CallSteps.{IsItemOf, IsPut};
ghost use Rattle.uw_plan.specs.Plans.{IsInUse};
ghost use Rattle.uw_plan.specs.Regions.{shape_of};

use crate::lookup::{alive_item, number_found};
use crate::put::put_entry;
use crate::region::shape_of;
use uw_items::fields_of;
use uw_model::{
    Answer, CacheConf, MathOp, dies_at, dies_of_number, is_bad_key, is_too_long, is_zero_division,
    result_of,
};
use uw_words::{Overlay, Ram};

// Plans that a value is written under a key, which dies at a moment. False, and nothing planned, where no policy makes
// room.
fn write(
    ram: &Ram,
    conf: &CacheConf,
    over: &mut Overlay,
    moment: u64,
    key: &[u8],
    value: &[u8],
    dies: u64,
) -> bool
    requires ready { IsUnplanned conf.now ram.now over.old }
    requires key { is_bad_key conf.now key.now ≡ false }
    requires value { is_too_long conf.now value.now ≡ false }
    ensures room { over.new.room ≡ over.old.room }
    ensures list { (list : List Entry) → Agrees conf.now ram.now list
        → IsPut conf.now ram.now over.old over.new moment key.now value.now dies list result }
    ensures none { result ≡ false → over.new.writes ≡ [] }
{
    if put_entry(ram, conf, over, moment, key, value, dies) {
        return true;
    }
    over.clear();
    false
}

/// Writes the value of a key, whether it has an alive entry or not.
pub fn plan_update(
    ram: &Ram,
    conf: &CacheConf,
    over: &mut Overlay,
    moment: u64,
    key: &[u8],
    value: &[u8],
    ttl: u64,
) -> Answer
    requires { IsUnplanned conf.now ram.now over.old }
    ensures room { over.new.room ≡ over.old.room }
    ensures plan { PlansFor conf.now ram.now over.new moment (calls.Update key.now value.now ttl) }
    ensures answer { (list : List Entry) → Agrees conf.now ram.now list
        → result ≡ answer conf.now list moment (calls.Update key.now value.now ttl) }
{
    if is_bad_key(conf, key) {
        return Answer::KeyLength;
    }
    if is_too_long(conf, value) {
        return Answer::TooLong;
    }
    if write(ram, conf, over, moment, key, value, dies_at(moment, ttl)) {
        return Answer::Done;
    }
    Answer::Full
}

/// Writes the value of a key that has no alive entry.
pub fn plan_set(
    ram: &Ram,
    conf: &CacheConf,
    over: &mut Overlay,
    moment: u64,
    key: &[u8],
    value: &[u8],
    ttl: u64,
) -> Answer
    requires { IsUnplanned conf.now ram.now over.old }
    ensures room { over.new.room ≡ over.old.room }
    ensures plan { PlansFor conf.now ram.now over.new moment (calls.Set key.now value.now ttl) }
    ensures answer { (list : List Entry) → Agrees conf.now ram.now list
        → result ≡ answer conf.now list moment (calls.Set key.now value.now ttl) }
{
    if is_bad_key(conf, key) {
        return Answer::KeyLength;
    }
    if is_too_long(conf, value) {
        return Answer::TooLong;
    }
    if alive_item(ram, conf, over, moment, key).is_some() {
        return Answer::Exists;
    }
    if write(ram, conf, over, moment, key, value, dies_at(moment, ttl)) {
        return Answer::Done;
    }
    Answer::Full
}

/// What a number call does: the operation, its amount, and the time to live of the number, in seconds and 0 for what it
/// was.
#[derive(Clone, Copy)]
pub struct Reckoning {
    pub op: MathOp,
    pub by: i64,
    pub ttl: u64,
}

impl Reckoning {
    /// By an operation, an amount, and a time to live.
    pub fn new(op: &MathOp, by: &i64, ttl: &u64) -> Reckoning
        ensures { result ≡ record { op = op.now; by = by.now; ttl = ttl.now } }
    {
        Reckoning {
            op: *op,
            by: *by,
            ttl: *ttl,
        }
    }
}

// When the entry dies that an item holds, none where there is none.
fn dies_found(ram: &Ram, conf: &CacheConf, over: &Overlay, item: Option<u64>) -> Option<u64>
    requires conf { IsCacheConf conf.now }
    requires region { length ram.now ≡ words_of conf.now }
    requires used { IfSome item (λ i. IsInUse (seen over.now ram.now) (shape_of conf.now) conf.now i) }
    ensures { (items : List ℕ) (list : List Entry) (entry : Option Entry)
        → AgreesAs (seen over.now ram.now) (shape_of conf.now) conf.now items list → IsItemOf items list entry item
        → option_map (λ e. e.dies) entry ≡ result }
{
    match item {
        None => None,
        Some(item) => Some(fields_of(ram, over, &shape_of(conf), item).dies),
    }
}

/// Changes the number of a key.
pub fn plan_math(
    ram: &Ram,
    conf: &CacheConf,
    over: &mut Overlay,
    moment: u64,
    key: &[u8],
    reckoning: Reckoning,
) -> Answer
    requires { IsUnplanned conf.now ram.now over.old }
    ensures room { over.new.room ≡ over.old.room }
    ensures plan { PlansFor conf.now ram.now over.new moment
        (calls.Math reckoning.op key.now reckoning.by reckoning.ttl) }
    ensures answer { (list : List Entry) → Agrees conf.now ram.now list
        → result ≡ answer conf.now list moment (calls.Math reckoning.op key.now reckoning.by reckoning.ttl) }
{
    if is_bad_key(conf, key) {
        return Answer::KeyLength;
    }
    let Reckoning { op, by, ttl } = reckoning;
    let item = alive_item(ram, conf, over, moment, key);
    let Some(number) = number_found(ram, conf, over, item) else {
        return Answer::NotNumber;
    };
    if is_zero_division(op, by) {
        return Answer::ZeroDivisor;
    }
    let dies = dies_of_number(moment, ttl, dies_found(ram, conf, over, item));
    let Some(number) = result_of(op, number, by) else {
        return Answer::Range;
    };
    if write(ram, conf, over, moment, key, &number.to_le_bytes(), dies) {
        return Answer::Number(number);
    }
    Answer::Full
}
