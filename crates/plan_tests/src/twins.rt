// A cache twice.
ghost use Rattle.std.specs.Prelude.{◌≡◌, IfOk, OnOk};
ghost use Rattle.uw_model.specs.Entries.{IsCacheConf};
ghost use Rattle.plan_tests.specs.Twins.{AreTwins};

use std::alloc::Global;
use uw_base::Memory;
use uw_intent::commit;
use uw_model::{Answer, CacheConf, Call, ListCache, plan_room};
use uw_outside::Immortal;
use uw_plan::{blank_region, frame_of, plan_call, shape_of, told};
use uw_words::{Overlay, Ram};

/// A cache as a region with what is planned for it, and as a plain list.
#[derive(Drop)]
pub struct Twin {
    pub conf: CacheConf,
    pub ram: Ram,
    pub over: Overlay,
    pub list: ListCache,
}

impl Twin {
    /// Both without an entry.
    pub fn new(alloc: Global, conf: CacheConf) -> Result<Twin, Memory>
        requires { IsCacheConf conf }
        ensures { IfOk result AreTwins }
    {
        let ram = blank_region(alloc, &conf)?;
        let over = Overlay::new(alloc, plan_room(&conf))?;
        let list = ListCache::new(alloc, &conf)?;
        Ok(Twin {
            conf,
            ram,
            over,
            list,
        })
    }

    /// What the region answers, after its words are committed, and what the list answers: the same.
    pub fn call(
        &mut self,
        alloc: Global,
        moment: u64,
        call: &Call,
    ) -> Result<(Answer, Answer), Memory>
        requires { AreTwins self.old }
        ensures twins { OnOk result (AreTwins self.new) }
        ensures same { IfOk result (λ both. both.0 ≡ both.1) }
    {
        let planned = plan_call(&self.ram, &self.conf, moment, call, &mut self.over);
        let answer = told(alloc, &self.ram, &self.conf, &self.over, moment, planned)?;
        let frame = frame_of(&shape_of(&self.conf));
        let _ = commit(&mut self.ram, &frame, &self.over, &mut Immortal::new());
        self.over.clear();
        let other = self.list.call(alloc, moment, call)?;
        Ok((answer, other))
    }
}
