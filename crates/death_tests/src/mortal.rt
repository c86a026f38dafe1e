// A desk over plain lists whose worker may die, before a call is made and behind it.
ghost use Rattle.std.specs.Prelude.{◌≡◌, ◌<◌, ℕ, List, length, true, not, refl};
ghost use Rattle.std.proofs.Common.{subst};
ghost use Rattle.uw_outside.specs.Faults.{HasCause};
ghost use Rattle.uw_model.specs.declared.asks.Ask.TheVariants as asks;
ghost use Rattle.uw_model.specs.declared.asks.AskAnswer.TheVariants as ask_answers;
ghost use Rattle.uw_model.specs.Asks.{Asking, Calls, has_died};
ghost use Rattle.uw_model.specs.Lists.{LeadsLists, LeadsLists-append, Lists, parts_of};

use std::alloc::Global;
use uw_model::{Answer, AreaAnswer, AreaOp, Call, Desk, DeskFault, ListDesk, OwnDesk};
use uw_outside::{Immortal, Life};

/// A desk over plain lists that asks the life before and behind each call of a cache: a worker that is refused first
/// dies before its call counts, and one that is refused behind it when it counts.
#[derive(Drop)]
pub struct MortalDesk {
    pub lists: ListDesk,
}

impl Desk for MortalDesk {
    ghost parts = { λ d. parts_of d.lists };

    ghost settled = { λ _. true };

    ghost leads = { λ before now asked _. LeadsLists before.lists asked now.lists };

    fn cache<L: Life>(
        &mut self,
        alloc: Global,
        cache: u32,
        moment: u64,
        call: &Call,
        life: &mut L,
    ) -> Result<Answer, DeskFault>
        requires known { cache < length self.old.lists.caches }
        requires alive { L.alive life.old ≡ true }
        ensures asked { Calls (λ answer. ask_answers.Cache answer)
            (λ (asked : List Asking) (_ : ℕ). LeadsLists self.old.lists asked self.new.lists)
            (L.allowances life.old) (L.allowances life.new) moment (asks.Cache cache call.now) result }
        ensures cause { HasCause (L.deaths life.old) (L.deaths life.new) (has_died result) }
        ensures alive { L.alive life.new ≡ not (has_died result) }
        ensures parts { parts_of self.new.lists ≡ parts_of self.old.lists }
    {
        if !life.may_write() {
            return Err(DeskFault::Died { whole: false });
        }
        match self
            .lists
            .cache(alloc, cache, moment, call, &mut Immortal::new())
        {
            Ok(answer) => {
                if life.may_write() {
                    Ok(answer)
                } else {
                    Err(DeskFault::Died { whole: true })
                }
            }
            Err(fault) => Err(fault),
        }
    }

    fn area<L: Life>(
        &mut self,
        alloc: Global,
        area: u32,
        op: &AreaOp,
        life: &mut L,
    ) -> Result<AreaAnswer, DeskFault>
        requires known { area < length self.old.lists.areas }
        requires alive { L.alive life.old ≡ true }
        ensures asked { (moment : ℕ) → Calls (λ answer. ask_answers.Area answer)
            (λ (asked : List Asking) (_ : ℕ). LeadsLists self.old.lists asked self.new.lists)
            (L.allowances life.old) (L.allowances life.new) moment (asks.Area area op.now) result }
        ensures cause { HasCause (L.deaths life.old) (L.deaths life.new) (has_died result) }
        ensures alive { L.alive life.new ≡ not (has_died result) }
        ensures parts { parts_of self.new.lists ≡ parts_of self.old.lists }
    {
        self.lists.area(alloc, area, op, life)
    }

    ghost leads_none = { λ desk. refl };

    ghost leads_more = { λ a b c early late first more.
        LeadsLists-append a.lists b.lists c.lists early late };
}

impl OwnDesk for MortalDesk {
    ghost stands = { λ desk lists. desk.lists ≡ lists };

    ghost stands_parts = { λ a lists same. subst (λ (x : Lists). parts_of x ≡ parts_of a.lists) same refl };

    ghost stands_on = { λ a b asked writes lists led same.
        (b.lists, subst (λ (from : Lists). LeadsLists from asked b.lists) same led, refl) };
}
