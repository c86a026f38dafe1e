// The plain form of a cache: the list of its entries.
ghost use Rattle.std.specs.Prelude.{◌≡◌, [], IfOk, OnOk, OnErr};
ghost use Rattle.uw_model.specs.Entries.{IsCacheConf};
ghost use Rattle.uw_model.specs.Calls.{answer, next_state};

use crate::{Answer, CacheConf, Call, Entry, steps};
use std::alloc::Global;
use std::marker::Model;
use uw_base::Memory;

/// A cache as a plain list of entries, the most recent first: the meaning of a cache as a program. Each call looks
/// through the list. Contracts see the configuration and the list, which is a well-formed one at any time.
#[derive(Drop)]
pub struct ListCache {
    conf: CacheConf,
    entries: Vec<Entry>,
}

impl Model for ListCache {
    ghost use Rattle.uw_model.specs.ListState.{ListState};
    ghost use Rattle.uw_model.specs.Entries.{IsCacheConf, IsState};

    ghost Value = { ListState };

    ghost view = { λ c. record { conf = c.conf; list = c.entries.items } };

    ghost invariant = { λ c. IsCacheConf c.conf × IsState c.conf c.entries.items };
}

impl ListCache {
    /// An empty cache, with a copy of the configuration.
    pub fn new(alloc: Global, conf: &CacheConf) -> Result<ListCache, Memory>
        requires { IsCacheConf conf.now }
        ensures { IfOk result (λ c. c ≡ record { conf = conf.now; list = [] }) }
    {
        Ok(ListCache {
            conf: conf.copy(alloc)?,
            entries: Vec::new(alloc),
        })
    }

    /// Makes a call at a moment, in seconds. Moments need not rise. The list stays where the answer is a refusal, and
    /// where no memory is left.
    pub fn call(&mut self, alloc: Global, moment: u64, call: &Call) -> Result<Answer, Memory>
        ensures answer { IfOk result (λ a. a ≡ answer self.old.conf self.old.list moment call.now) }
        ensures next { OnOk result (self.new.list ≡ next_state self.old.conf self.old.list moment call.now) }
        ensures memory { OnErr result (self.new.list ≡ self.old.list) }
        ensures conf { self.new.conf ≡ self.old.conf }
    {
        steps::made(alloc, &self.conf, &mut self.entries, moment, call)
    }
}
