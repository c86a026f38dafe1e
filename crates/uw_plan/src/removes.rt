// Calls that remove entries.
ghost use Rattle.std.specs.Prelude.{◌≡◌, ℕ, List};
ghost use Rattle.uw_model.specs.declared.entries.Entry.{Entry};
ghost use Rattle.uw_model.specs.declared.calls.Call.TheVariants as calls;
ghost use Rattle.uw_model.specs.declared.calls.Answer.TheVariants as answers;
ghost use Rattle.uw_model.specs.Calls.{answer};
ghost use Rattle.uw_plan.specs.Agreement.{Agrees};
ghost use Rattle.uw_plan.specs.CallPlanSteps.{IsUnplanned, PlansFor};

use crate::entries::drop_entry;
use crate::lookup::alive_item;
use crate::policies::{clear, sweep};
use uw_model::{Answer, CacheConf, is_bad_key};
use uw_words::{Overlay, Ram};

/// Plans that the alive entry of a key leaves the list.
pub fn plan_del(ram: &Ram, conf: &CacheConf, over: &mut Overlay, moment: u64, key: &[u8]) -> Answer
    requires { IsUnplanned conf.now ram.now over.old }
    ensures room { over.new.room ≡ over.old.room }
    ensures plan { PlansFor conf.now ram.now over.new moment (calls.Del key.now) }
    ensures answer { (list : List Entry) → Agrees conf.now ram.now list → result ≡ answer conf.now list moment (calls.Del key.now) }
{
    if is_bad_key(conf, key) {
        return Answer::KeyLength;
    }
    let Some(item) = alive_item(ram, conf, over, moment, key) else {
        return Answer::Missing;
    };
    drop_entry(ram, conf, over, item);
    Answer::Done
}

/// Plans that the entries that are not alive at a moment leave the list, and counts them.
pub fn plan_sweep(ram: &Ram, conf: &CacheConf, over: &mut Overlay, moment: u64) -> Answer
    requires { IsUnplanned conf.now ram.now over.old }
    ensures room { over.new.room ≡ over.old.room }
    ensures plan { PlansFor conf.now ram.now over.new moment calls.Sweep }
    ensures answer { (list : List Entry) → Agrees conf.now ram.now list → result ≡ answer conf.now list moment calls.Sweep }
{
    let gone = sweep(ram, conf, over, moment);
    Answer::Number(gone as i64)
}

/// Plans that all entries leave the list.
pub fn plan_clear(ram: &Ram, conf: &CacheConf, over: &mut Overlay) -> Answer
    requires { IsUnplanned conf.now ram.now over.old }
    ensures room { over.new.room ≡ over.old.room }
    ensures plan { (moment : ℕ) → PlansFor conf.now ram.now over.new moment calls.Clear }
    ensures answer { result ≡ answers.Done }
{
    clear(ram, conf, over);
    Answer::Done
}
