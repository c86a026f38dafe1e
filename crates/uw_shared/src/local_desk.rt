// The desk of one thread, over regions that it owns.
ghost use Rattle.std.specs.Prelude.{◌≡◌, ◌<◌, ◌^◌, length, true, IfOk};
ghost use Rattle.std.specs.List.{AllByRecursion, AllZip};
ghost use Rattle.uw_model.specs.Entries.{IsCacheConf};
ghost use Rattle.uw_model.specs.AreaOps.{IsAreaSize};
ghost use Rattle.uw_model.specs.Lists.{empty_lists};
ghost use Rattle.uw_shared.specs.Regions.{RegionsStandFor, RegionsStandFor-parts, is_settled, parts_of_regions};
ghost use Rattle.uw_shared.specs.AskRuns.{LeadsOn, LeadsRegions, LeadsRegions-append, LeadsRegions-none};
ghost use Rattle.uw_shared.specs.BeginningSteps.{BeginsAsArea, BeginsAsCache, desk_result};

use std::alloc::Global;
use std::marker::Model;
use uw_area::Area;
use uw_base::{Memory, NumberList};
use uw_cache::Vault;
use uw_intent::{CallFault, recovered_call};
use uw_model::{
    Answer, AreaAnswer, AreaOp, CacheConf, CacheConfList, Call, Desk, DeskFault, OwnDesk,
};
use uw_outside::Life;

/// The caches and the areas of a site as regions of one thread. Before the next call of a region it makes the writes that
/// a death has left there. Contracts see the regions: of each cache its configuration, its words and what its last call
/// planned, and of each area its size and the same.
#[derive(Drop)]
pub struct LocalDesk {
    caches: Vec<Vault>,
    areas: Vec<Area>,
}

impl Model for LocalDesk {
    ghost use Rattle.uw_shared.specs.Regions.{AreRegions, Regions};

    ghost Value = { Regions };

    ghost view = { λ d. record { caches = d.caches.items; areas = d.areas.items } };

    ghost invariant = { λ d. AreRegions (record { caches = d.caches.items; areas = d.areas.items }) };
}

// A vault without an entry for each configuration.
fn empty_vaults(alloc: Global, confs: &[CacheConf]) -> Result<Vec<Vault>, Memory>
    requires { AllByRecursion IsCacheConf confs.now }
    ensures { IfOk result (λ vaults. AllZip BeginsAsCache confs.now vaults.items) }
{
    let mut vaults = Vec::new(alloc);
    for conf in confs {
        vaults.push(Vault::new(alloc, conf)?)?;
    }
    Ok(vaults)
}

// An area of zero bytes for each size.
fn blank_regions(alloc: Global, sizes: &[u64]) -> Result<Vec<Area>, Memory>
    requires { AllByRecursion IsAreaSize sizes.now }
    ensures { IfOk result (λ areas. AllZip BeginsAsArea sizes.now areas.items) }
{
    let mut areas = Vec::new(alloc);
    for size in sizes {
        areas.push(Area::new(alloc, *size)?)?;
    }
    Ok(areas)
}

impl LocalDesk {
    /// A region without an entry for each configuration, and one of zero bytes for each size in bytes. Takes all memory
    /// that their writes need: later calls take some only for an answer that copies bytes.
    pub fn new(
        alloc: Global,
        caches: &CacheConfList,
        areas: &NumberList,
    ) -> Result<LocalDesk, Memory>
        requires each { AllByRecursion IsCacheConf caches.now }
        requires few { length caches.now < 2 ^ 32 }
        requires sizes { AllByRecursion IsAreaSize areas.now }
        ensures stand { IfOk result (λ desk. RegionsStandFor desk (empty_lists caches.now areas.now)) }
        ensures settled { IfOk result (λ desk. is_settled desk ≡ true) }
        ensures parts { IfOk result (λ desk. parts_of_regions desk ≡ record { caches = length caches.now; areas = length areas.now }) }
    {
        let caches = empty_vaults(alloc, caches.as_slice())?;
        let areas = blank_regions(alloc, areas.as_slice())?;
        Ok(LocalDesk { caches, areas })
    }
}

// What a desk answers to a call of one of its regions.
fn told<A>(ended: Result<A, CallFault>) -> Result<A, DeskFault>
    ensures { result ≡ desk_result ended }
{
    match ended {
        Ok(answer) => Ok(answer),
        Err(CallFault::Died { whole }) => Err(DeskFault::Died { whole }),
        Err(CallFault::Memory) => Err(DeskFault::Memory),
    }
}

impl Desk for LocalDesk {
    ghost parts = { parts_of_regions };

    ghost settled = { is_settled };

    ghost leads = { LeadsRegions };

    fn cache<L: Life>(
        &mut self,
        alloc: Global,
        cache: u32,
        moment: u64,
        call: &Call,
        life: &mut L,
    ) -> Result<Answer, DeskFault> {
        told(recovered_call(alloc, &mut self.caches[cache as usize], moment, call, life))
    }

    fn area<L: Life>(
        &mut self,
        alloc: Global,
        area: u32,
        op: &AreaOp,
        life: &mut L,
    ) -> Result<AreaAnswer, DeskFault> {
        told(recovered_call(alloc, &mut self.areas[area as usize], 0, op, life))
    }

    ghost leads_none = { LeadsRegions-none };

    ghost leads_more = { LeadsRegions-append };
}

impl OwnDesk for LocalDesk {
    ghost stands = { RegionsStandFor };

    ghost stands_parts = { RegionsStandFor-parts };

    ghost stands_on = { λ a b asked writes lists led stand.
        let on : LeadsOn lists a asked writes b = led lists stand in (on.after, on.leads, on.stand) };
}
