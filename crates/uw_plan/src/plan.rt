// Each call of a cache as planned words.
ghost use Rattle.std.specs.Prelude.{◌≡◌, ◌≤◌, IsTrue, List, [], length, true};
ghost use Rattle.uw_model.specs.declared.entries.Entry.{Entry};
ghost use Rattle.uw_model.specs.Entries.{IsCacheConf};
ghost use Rattle.uw_model.specs.Calls.{answer};
ghost use Rattle.uw_model.specs.Laws.{is_refusal};
ghost use Rattle.uw_model.specs.Layout.{plan_room};
ghost use Rattle.uw_words.specs.Plans.{HasDistinctPlaces};
ghost use Rattle.uw_intent.specs.RedoRecord.{FitsRecord, commit_writes};
ghost use Rattle.uw_intent.specs.RightWrites.{IsRight};
ghost use Rattle.uw_plan.specs.Agreement.{Agrees};
ghost use Rattle.uw_plan.specs.CacheKind.{cache_kind};
ghost use Rattle.uw_plan.specs.CallPlanSteps.{IsUnplanned, PlansFor};
ghost use Rattle.uw_plan.specs.Told.{TellsOf, is_copied, may_copy};
ghost use Rattle.uw_plan.specs.Regions.{frame_of, shape_of};

use crate::reads::{plan_exists, plan_get, plan_num};
use crate::removes::{plan_clear, plan_del, plan_sweep};
use crate::writes::{Reckoning, plan_math, plan_set, plan_update};
use uw_model::{Answer, CacheConf, Call};
use uw_words::{Overlay, Ram};

/// What the plan of a call answers.
#[derive(Drop)]
pub enum PlanAnswer {
    /// This answer.
    Ready(Answer),
    /// The value of an item, by its number. `told` copies it.
    ValueOf(u64),
    /// The keys of the alive entries, the most recent first. `told` copies them.
    KeyList,
}

// A call's plan: what its words are, of which `plan_call` says what their commit does.
fn planned(ram: &Ram, conf: &CacheConf, moment: u64, call: &Call, over: &mut Overlay) -> PlanAnswer
    requires { IsUnplanned conf.now ram.now over.old }
    ensures room { over.new.room ≡ over.old.room }
    ensures plan { PlansFor conf.now ram.now over.new moment call.now }
    ensures tells { TellsOf conf.now ram.now over.new moment call.now result }
    ensures copies { is_copied result ≡ true → may_copy call.now ≡ true }
{
    match call {
        Call::Get { key } => plan_get(ram, conf, over, moment, key.as_slice()),
        Call::Set { key, value, ttl } => {
            PlanAnswer::Ready(plan_set(
                ram,
                conf,
                over,
                moment,
                key.as_slice(),
                value.as_slice(),
                *ttl,
            ))
        }
        Call::Update { key, value, ttl } => {
            PlanAnswer::Ready(plan_update(
                ram,
                conf,
                over,
                moment,
                key.as_slice(),
                value.as_slice(),
                *ttl,
            ))
        }
        Call::Del { key } => PlanAnswer::Ready(plan_del(ram, conf, over, moment, key.as_slice())),
        Call::Exists { key } => {
            PlanAnswer::Ready(plan_exists(ram, conf, over, moment, key.as_slice()))
        }
        Call::Clear => PlanAnswer::Ready(plan_clear(ram, conf, over)),
        Call::Num { key } => PlanAnswer::Ready(plan_num(ram, conf, over, moment, key.as_slice())),
        Call::Math { op, key, by, ttl } => {
            let reckoning = Reckoning::new(op, by, ttl);
            PlanAnswer::Ready(plan_math(ram, conf, over, moment, key.as_slice(), reckoning))
        }
        Call::Keys => PlanAnswer::KeyList,
        Call::Sweep => PlanAnswer::Ready(plan_sweep(ram, conf, over, moment)),
    }
}

/// Plans the words by which a region comes to stand for the list after a call, at a moment in seconds, and says what the
/// call answers. Nothing is planned for a refusal. Takes no memory.
pub fn plan_call(
    ram: &Ram,
    conf: &CacheConf,
    moment: u64,
    call: &Call,
    over: &mut Overlay,
) -> PlanAnswer
    requires conf { IsCacheConf conf.now }
    requires region { (list : List Entry) × Agrees conf.now ram.now list }
    requires empty { over.old.writes ≡ [] }
    requires room { plan_room conf.now ≤ over.old.room }
    ensures fits { FitsRecord (frame_of (shape_of conf.now)) (length ram.now) over.new.writes }
    ensures distinct { HasDistinctPlaces over.new.writes }
    ensures room { over.new.room ≡ over.old.room }
    ensures right { (list : List Entry) → Agrees conf.now ram.now list
        → IsRight (cache_kind conf.now) ram.now list moment call.now (answer conf.now list moment call.now)
        (commit_writes (frame_of (shape_of conf.now)) over.new.writes) }
    ensures tells { TellsOf conf.now ram.now over.new moment call.now result }
    ensures copies { is_copied result ≡ true → may_copy call.now ≡ true }
    ensures refused { (list : List Entry) → Agrees conf.now ram.now list
        → IsTrue (is_refusal (answer conf.now list moment call.now)) → over.new.writes ≡ [] }
{
    planned(ram, conf, moment, call, over)
}
