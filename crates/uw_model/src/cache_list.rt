// Configurations of caches, in their order.
ghost use Rattle.std.specs.Prelude.{◌≡◌, ◌∷◌, ◌++◌, [], length, map, OnOk, OnErr};

use crate::CacheConf;
use std::alloc::Global;
use std::marker::Model;
use uw_base::{Bytes, BytesList, Memory};

/// Configurations of caches, in their order, which lends the caches' names. Contracts see the list of configurations.
#[derive(Drop)]
pub struct CacheConfList {
    confs: Vec<CacheConf>,
    // The name of each.
    names: BytesList,
}

impl Model for CacheConfList {
    ghost use Rattle.std.specs.Prelude.{◌≡◌, List, map};
    ghost use Rattle.uw_model.specs.declared.conf.CacheConf.{CacheConf};

    ghost Value = { List CacheConf };

    ghost view = { λ l. l.confs.items };

    ghost invariant = { λ l. l.names ≡ map (λ (conf : CacheConf). conf.name) l.confs.items };
}

impl CacheConfList {
    /// The list with no configuration. Takes no memory.
    pub fn new(alloc: Global) -> CacheConfList
        ensures { result ≡ [] }
    {
        CacheConfList {
            confs: Vec::new(alloc),
            names: BytesList::new(alloc),
        }
    }

    pub fn as_slice(&self) -> &[CacheConf]
        ensures { result.now ≡ self.now }
    {
        self.confs.as_slice()
    }

    /// The number of configurations.
    pub fn len(&self) -> usize
        ensures { result ≡ length self.now }
    {
        self.confs.len()
    }

    /// The names of the caches, in their order.
    pub fn names(&self) -> &BytesList
        ensures { result.now ≡ map (λ conf. conf.name) self.now }
    {
        &self.names
    }

    /// Puts one configuration at the end, and a copy of its name.
    pub fn push(&mut self, alloc: Global, conf: CacheConf) -> Result<(), Memory>
        ensures ok { OnOk result (self.new ≡ self.old ++ conf ∷ []) }
        ensures err { OnErr result (self.new ≡ self.old) }
    {
        let name = Bytes::from_slice(alloc, conf.name.as_slice())?;
        self.confs.reserve(1)?;
        self.names.push(name)?;
        self.confs.push_reserved(conf);
        Ok(())
    }
}
