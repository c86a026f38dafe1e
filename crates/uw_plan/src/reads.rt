// Calls that read: the value of a key, its number, and whether it has an alive entry.
ghost use Rattle.std.specs.Prelude.{◌≡◌, List};
ghost use Rattle.uw_model.specs.declared.entries.Entry.{Entry};
ghost use Rattle.uw_model.specs.declared.calls.Call.TheVariants as calls;
ghost use Rattle.uw_model.specs.Calls.{alive_at, answer};
ghost use Rattle.uw_plan.specs.Agreement.{Agrees};
ghost use Rattle.uw_plan.specs.CallPlanSteps.{IsNumberAt, IsUnplanned, PlansFor};
ghost use Rattle.uw_plan.specs.Told.{TellsOf};

use crate::lookup::{alive_item, number_found, use_entry};
use crate::plan::PlanAnswer;
use uw_model::{Answer, CacheConf, is_bad_key};
use uw_words::{Overlay, Ram};

/// The value of a key, and a use of its entry where the least recent ones are purged.
pub fn plan_get(
    ram: &Ram,
    conf: &CacheConf,
    over: &mut Overlay,
    moment: u64,
    key: &[u8],
) -> PlanAnswer
    requires { IsUnplanned conf.now ram.now over.old }
    ensures room { over.new.room ≡ over.old.room }
    ensures plan { PlansFor conf.now ram.now over.new moment (calls.Get key.now) }
    ensures tells { TellsOf conf.now ram.now over.new moment (calls.Get key.now) result }
{
    if is_bad_key(conf, key) {
        return PlanAnswer::Ready(Answer::KeyLength);
    }
    let Some(item) = alive_item(ram, conf, over, moment, key) else {
        return PlanAnswer::Ready(Answer::Missing);
    };
    if !conf.purge_lru {
        return PlanAnswer::ValueOf(item);
    }
    use_entry(ram, conf, over, item);
    PlanAnswer::ValueOf(item)
}

/// Whether a key has an alive entry.
pub fn plan_exists(ram: &Ram, conf: &CacheConf, over: &Overlay, moment: u64, key: &[u8]) -> Answer
    requires { IsUnplanned conf.now ram.now over.now }
    ensures plan { PlansFor conf.now ram.now over.now moment (calls.Exists key.now) }
    ensures answer { (list : List Entry) → Agrees conf.now ram.now list → result ≡ answer conf.now list moment (calls.Exists key.now) }
{
    if is_bad_key(conf, key) {
        return Answer::KeyLength;
    }
    Answer::Flag(alive_item(ram, conf, over, moment, key).is_some())
}

/// The number of a key, 0 where it has no alive entry. None where the value of that entry is none of a number.
pub fn number_of_key(
    ram: &Ram,
    conf: &CacheConf,
    over: &Overlay,
    moment: u64,
    key: &[u8],
) -> Option<i64>
    requires { IsUnplanned conf.now ram.now over.now }
    ensures { (list : List Entry) → Agrees conf.now ram.now list
        → IsNumberAt (alive_at conf.now list moment key.now) result }
{
    let item = alive_item(ram, conf, over, moment, key);
    number_found(ram, conf, over, item)
}

/// The number of a key.
pub fn plan_num(ram: &Ram, conf: &CacheConf, over: &Overlay, moment: u64, key: &[u8]) -> Answer
    requires { IsUnplanned conf.now ram.now over.now }
    ensures plan { PlansFor conf.now ram.now over.now moment (calls.Num key.now) }
    ensures answer { (list : List Entry) → Agrees conf.now ram.now list → result ≡ answer conf.now list moment (calls.Num key.now) }
{
    if is_bad_key(conf, key) {
        return Answer::KeyLength;
    }
    match number_of_key(ram, conf, over, moment, key) {
        None => Answer::NotNumber,
        Some(number) => Answer::Number(number),
    }
}
