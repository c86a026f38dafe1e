// The answer that a plan tells.
ghost use Rattle.std.specs.Prelude.{◌≡◌, List, [], map, IfOk, Ok};
ghost use Rattle.uw_model.specs.declared.entries.Entry.{Entry};
ghost use Rattle.uw_model.specs.declared.calls.Answer.{Answer};
ghost use Rattle.uw_model.specs.Entries.{IsCacheConf};
ghost use Rattle.uw_model.specs.Placement.{alive_of};
ghost use Rattle.uw_plan.specs.Agreement.{Agrees};
ghost use Rattle.uw_plan.specs.declared.plan.PlanAnswer.TheVariants as plans;
ghost use Rattle.uw_plan.specs.Told.{Tells};

use crate::plan::PlanAnswer;
use crate::region::shape_of;
use std::alloc::Global;
use uw_base::{BytesList, Memory};
use uw_items::{fields_of, key_of, value_of};
use uw_model::{Answer, CacheConf, is_alive_until};
use uw_recency::{newest, older};
use uw_words::{Overlay, Ram};

// The keys of the entries that are alive at a moment, the most recent first, where nothing is planned.
fn keys(
    alloc: Global,
    ram: &Ram,
    conf: &CacheConf,
    over: &Overlay,
    moment: u64,
) -> Result<BytesList, Memory>
    requires conf { IsCacheConf conf.now }
    requires region { (list : List Entry) × Agrees conf.now ram.now list }
    requires empty { over.now.writes ≡ [] }
    ensures { IfOk result (λ keys. (list : List Entry) → Agrees conf.now ram.now list
        → keys ≡ map (λ e. e.key) (alive_of conf.now moment list)) }
{
    let shape = shape_of(conf);
    let mut keys = Vec::new(alloc);
    let mut next = newest(ram, over, &shape);
    for _ in 0..shape.n_items {
        let Some(item) = next else {
            return Ok(BytesList::from_vec(keys));
        };
        next = older(ram, over, &shape, item);
        if !is_alive_until(conf, moment, fields_of(ram, over, &shape, item).dies) {
            continue;
        }
        keys.push(key_of(alloc, ram, &shape, item)?)?;
    }
    Ok(BytesList::from_vec(keys))
}

/// The answer that a plan tells, with copies of the bytes that it names: of a value, or of the keys of the entries that
/// are alive at the moment. Takes memory for these alone.
pub fn told(
    alloc: Global,
    ram: &Ram,
    conf: &CacheConf,
    over: &Overlay,
    moment: u64,
    answer: PlanAnswer,
) -> Result<Answer, Memory>
    requires conf { IsCacheConf conf.now }
    requires region { (list : List Entry) × Agrees conf.now ram.now list }
    requires tells { (b : Answer) × Tells conf.now ram.now over.now moment answer b }
    ensures answer { IfOk result (λ a. (b : Answer) → Tells conf.now ram.now over.now moment answer b → a ≡ b) }
    ensures ready { (a : Answer) → answer ≡ plans.Ready a → result ≡ Ok a }
{
    match answer {
        PlanAnswer::Ready(answer) => Ok(answer),
        PlanAnswer::ValueOf(item) => Ok(Answer::Value(value_of(
            alloc,
            ram,
            &shape_of(conf),
            item,
        )?)),
        PlanAnswer::KeyList => Ok(Answer::Keys(keys(alloc, ram, conf, over, moment)?)),
    }
}
