// The plain form of a desk: plain caches and plain areas.
ghost use Rattle.std.specs.Prelude.{◌≡◌, ◌<◌, ◌^◌, ℕ, List, length, IfOk, true, not, refl};
ghost use Rattle.std.specs.List.{AllByRecursion};
ghost use Rattle.uw_model.specs.Entries.{IsCacheConf};
ghost use Rattle.uw_model.specs.AreaOps.{IsAreaSize};
ghost use Rattle.uw_model.specs.declared.asks.Ask.TheVariants as asks;
ghost use Rattle.uw_model.specs.declared.asks.AskAnswer.TheVariants as ask_answers;
ghost use Rattle.uw_model.specs.Asks.{Asking, Calls, has_died};
ghost use Rattle.std.proofs.Common.{subst};
ghost use Rattle.uw_model.specs.Lists.{LeadsLists, LeadsLists-append, Lists, empty_lists, parts_of};
ghost use Rattle.uw_outside.specs.Faults.{HasCause};

use crate::list_area::ListArea;
use crate::{Answer, AreaAnswer, AreaOp, CacheConfList, Call, Desk, DeskFault, ListCache, OwnDesk};
use std::alloc::Global;
use std::marker::Model;
use uw_base::{Memory, NumberList};
use uw_outside::Life;

/// A desk over plain lists, which never asks a life: the meaning of a desk as a program. Contracts see the lists:
/// of each cache its configuration and its entries, and of each area its bytes and the count of its updates.
#[derive(Drop)]
pub struct ListDesk {
    caches: Vec<ListCache>,
    areas: Vec<ListArea>,
}

impl Model for ListDesk {
    ghost use Rattle.uw_model.specs.Lists.{Lists};

    ghost Value = { Lists };

    ghost view = { λ d. record { caches = d.caches.items; areas = d.areas.items } };
}

impl ListDesk {
    /// An empty cache for each configuration, and an area of zero bytes for each size in bytes.
    pub fn new(
        alloc: Global,
        caches: &CacheConfList,
        areas: &NumberList,
    ) -> Result<ListDesk, Memory>
        requires each { AllByRecursion IsCacheConf caches.now }
        requires few { length caches.now < 2 ^ 32 }
        requires sizes { AllByRecursion IsAreaSize areas.now }
        ensures { IfOk result (λ desk. desk ≡ empty_lists caches.now areas.now) }
    {
        let mut desk = ListDesk {
            caches: Vec::new(alloc),
            areas: Vec::new(alloc),
        };
        for conf in caches.as_slice() {
            desk.caches.push(ListCache::new(alloc, conf)?)?;
        }
        for size in areas.as_slice() {
            desk.areas.push(ListArea::new(alloc, *size)?)?;
        }
        Ok(desk)
    }
}

impl Desk for ListDesk {
    ghost parts = { λ d. parts_of d };

    ghost settled = { λ _. true };

    ghost leads = { λ before now asked _. LeadsLists before asked now };

    fn cache<L: Life>(
        &mut self,
        alloc: Global,
        cache: u32,
        moment: u64,
        call: &Call,
        life: &mut L,
    ) -> Result<Answer, DeskFault>
        requires known { cache < length self.old.caches }
        requires alive { L.alive life.old ≡ true }
        ensures asked { Calls (λ answer. ask_answers.Cache answer) (λ (asked : List Asking) (_ : ℕ). LeadsLists self.old asked self.new) (L.allowances life.old) (L.allowances life.new)
            moment (asks.Cache cache call.now) result }
        ensures cause { HasCause (L.deaths life.old) (L.deaths life.new) (has_died result) }
        ensures alive { L.alive life.new ≡ not (has_died result) }
        ensures parts { parts_of self.new ≡ parts_of self.old }
        ensures life { life.new ≡ life.old }
    {
        match self.caches[cache as usize].call(alloc, moment, call) {
            Ok(answer) => Ok(answer),
            Err(Memory) => Err(DeskFault::Memory),
        }
    }

    fn area<L: Life>(
        &mut self,
        alloc: Global,
        area: u32,
        op: &AreaOp,
        life: &mut L,
    ) -> Result<AreaAnswer, DeskFault>
        requires known { area < length self.old.areas }
        requires alive { L.alive life.old ≡ true }
        ensures asked { (moment : ℕ) → Calls (λ answer. ask_answers.Area answer) (λ (asked : List Asking) (_ : ℕ). LeadsLists self.old asked self.new) (L.allowances life.old) (L.allowances life.new)
            moment (asks.Area area op.now) result }
        ensures cause { HasCause (L.deaths life.old) (L.deaths life.new) (has_died result) }
        ensures alive { L.alive life.new ≡ not (has_died result) }
        ensures parts { parts_of self.new ≡ parts_of self.old }
        ensures life { life.new ≡ life.old }
    {
        match self.areas[area as usize].call(alloc, op) {
            Ok(answer) => Ok(answer),
            Err(Memory) => Err(DeskFault::Memory),
        }
    }

    ghost leads_none = { λ desk. refl };

    ghost leads_more = { λ a b c early late first more. LeadsLists-append a b c early late };
}

impl OwnDesk for ListDesk {
    ghost stands = { λ desk lists. desk ≡ lists };

    ghost stands_parts = { λ a lists same. subst (λ (x : Lists). parts_of x ≡ parts_of a) same refl };

    ghost stands_on = { λ a b asked writes lists led same.
        (b, subst (λ (from : Lists). LeadsLists from asked b) same led, refl) };
}
