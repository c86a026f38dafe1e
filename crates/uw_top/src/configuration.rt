// The configuration of a run, read from a source of its own.
ghost use Rattle.std.specs.Prelude.{◌≡◌, ◌<◌, ◌^◌, ℕ, List, length, IfOk, Ok};
ghost use Rattle.uw_outside.specs.Streams.{inflow};
ghost use Rattle.uw_rules.specs.PartNumbers.{AskPartsBelow};
ghost use Rattle.uw_rules.specs.Compiled.{rules_of};
ghost use Rattle.uw_conf.specs.Given.{ReadsConf, parts_in};
ghost use Rattle.uw_conf.specs.Sound.{ArePartsOfSite};
ghost use Rattle.uw_top.specs.Run.{IsSaid, IsSaidWithACache};
ghost use Rattle.uw_top.specs.RunSteps.{GivesConf, Says};

use std::alloc::Global;
use uw_conf::{Conf, ConfError, ConfFault, ConfKind, read_conf};
use uw_ends::RunFault;
use uw_outside::{Filled, Source, fill};
use uw_rules::Patterns;

/// The most bytes that are read of a configuration: one more than its text may have.
const MOST_READ: usize = 1_048_577;

/// Reads a configuration up to its end, or up to the first byte that is too many. `make` compiles the patterns of its rules.
pub fn configuration<F: Source, M: Patterns>(
    alloc: Global,
    conf: &mut F,
    make: &mut M,
) -> Result<Conf, RunFault>
    ensures gives { GivesConf (M.faults make.old) (M.faults make.new) IsSaid (inflow F.left F.ended F.faults conf.old conf.new) result }
    ensures caches { IfOk result (λ c. ArePartsOfSite c.caches c.areas) }
    ensures routes { IfOk result (λ c. AskPartsBelow (parts_in c) (rules_of c.routes)) }
    ensures tasks { IfOk result (λ c. AskPartsBelow (parts_in c) (rules_of c.tasks)) }
{
    match vec![in alloc; 0; MOST_READ] {
        Ok(mut text) => read_into(alloc, conf, text.as_mut_slice(), make),
        Err(_) => Err(RunFault::Memory),
    }
}

// The same, by way of a buffer for all that is read.
fn read_into<F: Source, M: Patterns>(
    alloc: Global,
    conf: &mut F,
    text: &mut [u8],
    make: &mut M,
) -> Result<Conf, RunFault>
    requires { length text.old ≡ 1048577 }
    ensures gives { GivesConf (M.faults make.old) (M.faults make.new) IsSaid (inflow F.left F.ended F.faults conf.old conf.new) result }
    ensures caches { IfOk result (λ c. ArePartsOfSite c.caches c.areas) }
    ensures routes { IfOk result (λ c. AskPartsBelow (parts_in c) (rules_of c.routes)) }
    ensures tasks { IfOk result (λ c. AskPartsBelow (parts_in c) (rules_of c.tasks)) }
{
    match fill(conf, text) {
        Filled::Whole => said(alloc, text, make),
        Filled::Short(count) => said(alloc, &text[..count], make),
        Filled::Failed(_) => Err(RunFault::ReadFault),
    }
}

// What a text says.
fn said<M: Patterns>(alloc: Global, text: &[u8], make: &mut M) -> Result<Conf, RunFault>
    requires { length text.now < 2 ^ 32 }
    ensures says { Says (M.faults make.old) (M.faults make.new) (λ before after. IsSaid before after text.now) result }
    ensures caches { IfOk result (λ c. ArePartsOfSite c.caches c.areas) }
    ensures routes { IfOk result (λ c. AskPartsBelow (parts_in c) (rules_of c.routes)) }
    ensures tasks { IfOk result (λ c. AskPartsBelow (parts_in c) (rules_of c.tasks)) }
{
    match read_conf(alloc, text, make) {
        Ok(conf) => Ok(conf),
        Err(ConfError::Refused(fault)) => Err(RunFault::Conf(fault)),
        Err(ConfError::Memory) => Err(RunFault::Memory),
    }
}

/// Reads a configuration that has a cache, as `configuration`. One that has none is refused as a whole.
pub fn configuration_with_a_cache<F: Source, M: Patterns>(
    alloc: Global,
    conf: &mut F,
    make: &mut M,
) -> Result<Conf, RunFault>
    ensures gives { GivesConf (M.faults make.old) (M.faults make.new) IsSaidWithACache (inflow F.left F.ended F.faults conf.old conf.new) result }
    ensures caches { IfOk result (λ c. ArePartsOfSite c.caches c.areas) }
    ensures routes { IfOk result (λ c. AskPartsBelow (parts_in c) (rules_of c.routes)) }
    ensures tasks { IfOk result (λ c. AskPartsBelow (parts_in c) (rules_of c.tasks)) }
{
    match configuration(alloc, conf, make) {
        Ok(conf) => having_a_cache(conf),
        Err(fault) => Err(fault),
    }
}

// Refuses a configuration without a cache.
fn having_a_cache(conf: Conf) -> Result<Conf, RunFault>
    requires caches { ArePartsOfSite conf.caches conf.areas }
    requires routes { AskPartsBelow (parts_in conf) (rules_of conf.routes) }
    requires tasks { AskPartsBelow (parts_in conf) (rules_of conf.tasks) }
    ensures gives { (before after : ℕ) (text : List ℕ) → IsSaid before after text (Ok conf) → Says before after (λ first last. IsSaidWithACache first last text) result }
    ensures caches { IfOk result (λ c. ArePartsOfSite c.caches c.areas) }
    ensures routes { IfOk result (λ c. AskPartsBelow (parts_in c) (rules_of c.routes)) }
    ensures tasks { IfOk result (λ c. AskPartsBelow (parts_in c) (rules_of c.tasks)) }
{
    if conf.caches.len() == 0 {
        return Err(RunFault::Conf(ConfFault {
            line: 0,
            kind: ConfKind::Missing,
        }));
    }
    Ok(conf)
}
