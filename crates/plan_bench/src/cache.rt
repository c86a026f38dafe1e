// A cache in a region, whose calls are planned and committed.
ghost use Rattle.uw_model.specs.Entries.{IsCacheConf};

use std::alloc::Global;
use std::marker::Model;
use uw_base::Memory;
use uw_intent::commit;
use uw_model::{Answer, CacheConf, Call, plan_room};
use uw_outside::Immortal;
use uw_plan::{PlanAnswer, blank_region, frame_of, plan_call, shape_of};
use uw_words::{Overlay, Ram};

/// The region of a cache, and the plan of one call at a time.
#[derive(Drop)]
pub struct Cache {
    conf: CacheConf,
    ram: Ram,
    over: Overlay,
}

impl Model for Cache {
    ghost use Rattle.plan_bench.specs.Idle.{IsIdle};
    ghost use Rattle.std.specs.Prelude.{List, ℕ};

    ghost Value = { List ℕ };

    ghost view = { λ c. c.ram };

    ghost invariant = { λ c. IsIdle c.conf c.ram c.over };
}

impl Cache {
    /// Without an entry.
    pub fn new(alloc: Global, conf: CacheConf) -> Result<Cache, Memory>
        requires { IsCacheConf conf }
    {
        let ram = blank_region(alloc, &conf)?;
        let over = Overlay::new(alloc, plan_room(&conf))?;
        Ok(Cache { conf, ram, over })
    }

    /// Plans a call at moment 0 and commits it. Says whether it found its entry, or had room for it.
    pub fn call(&mut self, call: &Call) -> bool {
        let answer = plan_call(&self.ram, &self.conf, 0, call, &mut self.over);
        let frame = frame_of(&shape_of(&self.conf));
        let _ = commit(&mut self.ram, &frame, &self.over, &mut Immortal::new());
        self.over.clear();
        match answer {
            PlanAnswer::Ready(Answer::Done) => true,
            PlanAnswer::ValueOf(_) => true,
            _ => false,
        }
    }
}
