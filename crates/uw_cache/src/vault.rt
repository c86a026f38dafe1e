// A cache as a region.
ghost use Rattle.std.specs.Prelude.{◌≡◌, ◌==◌, List, [], true, false, not, IfOk};
ghost use Rattle.uw_outside.specs.Faults.{HasCause};
ghost use Rattle.uw_model.specs.declared.entries.Entry.{Entry};
ghost use Rattle.uw_model.specs.Entries.{IsCacheConf};
ghost use Rattle.uw_words.specs.Plans.{region};
ghost use Rattle.uw_intent.specs.OneTurn.{end_of, has_call_died};
ghost use Rattle.uw_plan.specs.Agreement.{Agrees};
ghost use Rattle.uw_plan.specs.CacheKind.{cache_kind};
ghost use Rattle.uw_plan.specs.KeyEntries.{first_block};
ghost use Rattle.uw_cache.specs.Vaults.{IsVaultCall, vault_frame, vault_writes};

use crate::entries::EntryList;
use std::alloc::Global;
use std::marker::Model;
use uw_base::Memory;
use uw_intent::{CallFault, Recoverable, commit, is_pending, recover};
use uw_model::{Answer, CacheConf, Call, plan_room};
use uw_outside::{Died, Life};
use uw_plan::{blank_region, first_block, frame_of, plan_call, shape_of, told};
use uw_words::{Overlay, Ram};

// What a vault holds.
#[derive(Drop)]
struct Held {
    conf: CacheConf,
    ram: Ram,
    // What the last call planned.
    over: Overlay,
    // It never plans anything, for reads between calls.
    blank: Overlay,
}

/// A cache as a region, with what its last call planned. One pointer wide. Contracts see its configuration, its words and
/// that plan; its words stand for some list of entries at any time.
#[derive(Drop)]
pub struct Vault {
    held: Box<Held>,
}

impl Model for Vault {
    ghost use Rattle.uw_cache.specs.Vaults.{IsVault, VaultView};

    ghost Value = { VaultView };

    ghost view = { λ v. record {
      conf = v.held.value.conf;
      words = v.held.value.ram;
      plan = v.held.value.over.writes;
    } };

    ghost invariant = { λ v. IsVault v.held.value.conf v.held.value.ram v.held.value.over v.held.value.blank };
}

impl Vault {
    /// A cache without an entry. Takes all memory that later writes need: its words, of which `words_of` says how many,
    /// and the room for the plan of any call.
    pub fn new(alloc: Global, conf: &CacheConf) -> Result<Vault, Memory>
        requires { IsCacheConf conf.now }
        ensures conf { IfOk result (λ vault. vault.conf ≡ conf.now) }
        ensures plan { IfOk result (λ vault. vault.plan ≡ []) }
        ensures empty { IfOk result (λ vault. Agrees conf.now vault.words []) }
    {
        let held = Held {
            conf: conf.copy(alloc)?,
            ram: blank_region(alloc, conf)?,
            over: Overlay::new(alloc, plan_room(conf))?,
            blank: Overlay::new(alloc, 0)?,
        };
        match Box::new(alloc, held) {
            Ok(held) => Ok(Vault { held }),
            Err(_) => Err(Memory),
        }
    }

    /// Makes a call at a moment in seconds: all of its word writes, or as many as the life lets through. `Died` is
    /// answered only where the life has refused one of them, and `Memory` only for `Get` and `Keys`, before the first of
    /// them. What an earlier call planned does not matter.
    pub fn call<L: Life>(
        &mut self,
        alloc: Global,
        moment: u64,
        call: &Call,
        life: &mut L,
    ) -> Result<Answer, CallFault>
        requires idle { region self.old.words (vault_frame self.old).gate ≡ 0 }
        requires alive { L.alive life.old ≡ true }
        ensures made { IsVaultCall self.old self.new (L.allowances life.old) (L.allowances life.new) moment call.now (end_of result) }
        ensures closed { has_call_died result ≡ false → region self.new.words (vault_frame self.old).gate ≡ 0 }
        ensures alive { L.alive life.new ≡ not (has_call_died result) }
        ensures cause { HasCause (L.deaths life.old) (L.deaths life.new) (has_call_died result) }
    {
        let held = &mut *self.held;
        held.over.clear();
        let planned = plan_call(&held.ram, &held.conf, moment, call, &mut held.over);
        let Ok(answer) = told(alloc, &held.ram, &held.conf, &held.over, moment, planned) else {
            return Err(CallFault::Memory);
        };
        let frame = frame_of(&shape_of(&held.conf));
        match commit(&mut held.ram, &frame, &held.over, life) {
            Ok(()) => Ok(answer),
            Err(Died) => Err(CallFault::Died {
                whole: is_pending(&held.ram, &frame),
            }),
        }
    }

    /// The first block of the entry of a key, whether it is alive or not. None where no entry has the key. Takes no
    /// memory.
    pub fn place(&self, key: &[u8]) -> Option<u64>
        requires idle { region self.now.words (vault_frame self.now).gate ≡ 0 }
        ensures { (list : List Entry) → Agrees self.now.conf self.now.words list → result ≡ first_block list key.now }
    {
        first_block(&self.held.ram, &self.held.conf, &self.held.blank, key)
    }
}

impl Recoverable for Vault {
    type Conf = CacheConf;

    type State = EntryList;

    type Call = Call;

    type Answer = Answer;

    ghost conf = { λ v. v.conf };

    ghost kind = { cache_kind };

    ghost words = { λ v. v.words };

    ghost todo = { vault_writes };

    fn is_pending(&self) -> bool {
        is_pending(&self.held.ram, &frame_of(&shape_of(&self.held.conf)))
    }

    fn call<L: Life>(
        &mut self,
        alloc: Global,
        moment: u64,
        call: &Call,
        life: &mut L,
    ) -> Result<Answer, CallFault> {
        Vault::call(self, alloc, moment, call, life)
    }

    fn recover<L: Life>(&mut self, life: &mut L) -> Result<(), Died> {
        let held = &mut *self.held;
        let frame = frame_of(&shape_of(&held.conf));
        recover(&mut held.ram, &frame, life)
    }
}
