// The top call.
ghost use Rattle.std.specs.Prelude.{All, ◌≡◌, ◌<◌, ◌≤◌, ◌-◌, ◌^◌, ◌⊎◌, [], ℕ, length, false, true, map, Some, IfOk};
ghost use Rattle.std.specs.String.{string_bytes};
ghost use Rattle.uw_outside.specs.Streams.{inflow, outflow};
ghost use Rattle.uw_keeper.specs.Keeping.{keeping};
ghost use Rattle.uw_model.specs.Lists.{Lists, empty_lists};
ghost use Rattle.uw_rules.specs.PartNumbers.{AskPartsBelow};
ghost use Rattle.uw_rules.specs.Compiled.{rules_of};
ghost use Rattle.uw_conf.specs.Given.{parts_in};
ghost use Rattle.uw_conf.specs.Sound.{ArePartsOfSite};
ghost use Rattle.uw_ends.specs.declared.ends.RunFault.TheVariants as faults;
ghost use Rattle.uw_ends.specs.declared.words.Command.TheVariants as commands;
ghost use Rattle.uw_ends.specs.Ends.{status_of};
ghost use Rattle.uw_ends.specs.Words.{command_of};
ghost use Rattle.uw_top.specs.Load.{LoadRun};
ghost use Rattle.uw_session.specs.Exchange.{IsSiteOf, Site};
ghost use Rattle.uw_shared.specs.Regions.{RegionsStandFor, is_settled};
ghost use Rattle.uw_top.specs.Kept.{PipesOver};
ghost use Rattle.uw_top.specs.Pipe.{first_lists, list_leads};
ghost use Rattle.uw_top.specs.Spool.{SpoolRun};
ghost use Rattle.uw_top.specs.Run.{Does, Runs, IsSaid, IsSaidWithACache};

use crate::configuration::{configuration, configuration_with_a_cache};
use crate::load::loaded;
use crate::pipe::serve_packets;
use crate::spool::spooled;
use std::alloc::Global;
use uw_base::Memory;
use uw_chain::Searches;
use uw_conf::Conf;
use uw_ends::{BriefList, Command, RunEnd, RunFault, WordsFault, read_words};
use uw_keeper::Keeper;
use uw_outside::{Clock, Fuse, Sink, Source};
use uw_rules::Patterns;
use uw_shared::LocalDesk;

/// Does all that the program does. It reads the words of a command and a configuration, whose patterns `make` compiles.
/// `pipe` then reads packets from the source, answers each by one frame into the sink, at the moments of the clock, and
/// says how it ended; its worker dies in place of the word writes whose numbers `--die` gives, each counted from the
/// last death on, and where it ends without a fault it leaves its caches and areas in `kept`, which every other run
/// leaves as it was; `spool` runs the rounds of all spoolers over the rows of the keeper, at one moment of the clock,
/// and writes what they report; `load` answers packets that it makes, and writes figures.
pub fn run<F: Source, M: Patterns, S: Source, K: Sink, C: Clock, P: Keeper>(
    alloc: Global,
    words: &[String],
    conf: &mut F,
    make: &mut M,
    src: &mut S,
    snk: &mut K,
    clock: &mut C,
    keep: &mut P,
    kept: &mut Option<LocalDesk>,
) -> RunEnd
    ensures status { result.status ≡ status_of result.fault }
    ensures does { Does (command_of (map string_bytes words.now))
        (record {
          conf = inflow F.left F.ended F.faults conf.old conf.new;
          refused = M.faults make.old;
          refused_now = M.faults make.new;
          src = inflow S.left S.ended S.faults src.old src.new;
          snk = outflow K.taken K.faults snk.old snk.new;
          gave = C.gave clock.old clock.new;
          kept = keeping P.rows P.append_faults P.other_faults keep.old;
          left = keeping P.rows P.append_faults P.other_faults keep.new;
          desk = kept.old;
          desk_now = kept.new;
        })
        (record {
          conf = conf.new ≡ conf.old;
          make = make.new ≡ make.old;
          src = src.new ≡ src.old;
          snk = snk.new ≡ snk.old;
          clock = clock.new ≡ clock.old;
          keep = keep.new ≡ keep.old;
          desk = kept.new ≡ kept.old;
        }) result }
{
    match read_words(alloc, words) {
        Ok(Command::Pipe { die }) => {
            let die = die.as_slice();
            pipe(alloc, die, conf, make, src, snk, clock, keep, kept)
        }
        Ok(Command::Spool) => spool_over(alloc, conf, make, snk, clock, keep),
        Ok(Command::Load { first, count }) => load_over(
            alloc, first, count, conf, make, snk, clock,
        ),
        Ok(_) | Err(WordsFault::Usage) => refused(alloc, RunFault::Usage),
        Err(WordsFault::Memory) => refused(alloc, RunFault::Memory),
    }
}

// The end of a run that did not begin.
fn refused(alloc: Global, fault: RunFault) -> RunEnd
    ensures { result ≡ record { status = status_of (Some fault); fault = Some fault; briefs = [] } }
{
    RunEnd::new(Some(fault), BriefList::new(alloc))
}

// `pipe`, over the configuration that is read first.
fn pipe<F: Source, M: Patterns, S: Source, K: Sink, C: Clock, P: Keeper>(
    alloc: Global,
    die: &[u64],
    conf: &mut F,
    make: &mut M,
    src: &mut S,
    snk: &mut K,
    clock: &mut C,
    keep: &mut P,
    kept: &mut Option<LocalDesk>,
) -> RunEnd
    requires { All (λ n. 1 ≤ n) die.now }
    ensures status { result.status ≡ status_of result.fault }
    ensures pipes { Runs (M.faults make.old) (M.faults make.new) IsSaid
        (inflow F.left F.ended F.faults conf.old conf.new)
        ((src.new ≡ src.old) × (snk.new ≡ snk.old) × (clock.new ≡ clock.old) × (keep.new ≡ keep.old) × (kept.new ≡ kept.old) × (result.briefs ≡ [])) result.fault
        (λ site. PipesOver die.now site
        (record {
          src = inflow S.left S.ended S.faults src.old src.new;
          snk = outflow K.taken K.faults snk.old snk.new;
          gave = C.gave clock.old clock.new;
          kept = keeping P.rows P.append_faults P.other_faults keep.old;
          left = keeping P.rows P.append_faults P.other_faults keep.new;
          desk = kept.old;
          desk_now = kept.new;
        })
        ((src.new ≡ src.old) × (snk.new ≡ snk.old) × (clock.new ≡ clock.old) × (keep.new ≡ keep.old) × (kept.new ≡ kept.old) × (result.briefs ≡ []))
        result.briefs result.fault) }
{
    match configuration(alloc, conf, make) {
        Ok(conf) => piped(alloc, die, conf, src, snk, clock, keep, kept),
        Err(fault) => refused(alloc, fault),
    }
}

// The regions of a site, and a life that dies in place of the word writes of these numbers.
fn desk_and_life(alloc: Global, conf: &Conf, die: &[u64]) -> Result<(LocalDesk, Fuse), Memory>
    requires die { All (λ n. 1 ≤ n) die.now }
    requires parts { ArePartsOfSite conf.now.caches conf.now.areas }
    ensures desk { IfOk result (λ made. RegionsStandFor made.0 (empty_lists conf.now.caches conf.now.areas)) }
    ensures settled { IfOk result (λ made. is_settled made.0 ≡ true) }
    ensures life { IfOk result (λ made. made.1 ≡ record { alive = true; deaths = 0; allowances = map (λ n. n - 1) die.now }) }
{
    let desk = LocalDesk::new(alloc, &conf.caches, &conf.areas)?;
    let mut numbers = Vec::new(alloc);
    numbers.extend_from_slice(die)?;
    Ok((desk, Fuse::new(numbers)))
}

// `pipe`, over a configuration. The desk is kept where the run ends without a fault.
fn piped<S: Source, K: Sink, C: Clock, P: Keeper>(
    alloc: Global,
    die: &[u64],
    conf: Conf,
    src: &mut S,
    snk: &mut K,
    clock: &mut C,
    keep: &mut P,
    kept: &mut Option<LocalDesk>,
) -> RunEnd
    requires die { All (λ n. 1 ≤ n) die.now }
    requires parts { ArePartsOfSite conf.caches conf.areas }
    requires known { AskPartsBelow (parts_in conf) (rules_of conf.routes) }
    ensures status { result.status ≡ status_of result.fault }
    ensures pipes { (site : Site) → IsSiteOf conf site → PipesOver die.now site
        (record {
          src = inflow S.left S.ended S.faults src.old src.new;
          snk = outflow K.taken K.faults snk.old snk.new;
          gave = C.gave clock.old clock.new;
          kept = keeping P.rows P.append_faults P.other_faults keep.old;
          left = keeping P.rows P.append_faults P.other_faults keep.new;
          desk = kept.old;
          desk_now = kept.new;
        })
        ((src.new ≡ src.old) × (snk.new ≡ snk.old) × (clock.new ≡ clock.old) × (keep.new ≡ keep.old) × (kept.new ≡ kept.old) × (result.briefs ≡ []))
        result.briefs result.fault }
{
    let Ok((mut desk, mut life)) = desk_and_life(alloc, &conf, die) else {
        return refused(alloc, RunFault::Memory);
    };
    let Ok(mut searches) = Searches::new(alloc, &conf.routes) else {
        return refused(alloc, RunFault::Memory);
    };
    let mut briefs = Vec::new(alloc);
    let fault = serve_packets(
        alloc,
        &mut searches,
        &conf,
        &mut life,
        &mut desk,
        keep,
        &mut briefs,
        src,
        snk,
        clock,
    );
    if fault.is_none() {
        *kept = Some(desk);
    }
    RunEnd::new(fault, BriefList::from_vec(briefs))
}

// `load`, over the configuration that is read first.
fn load_over<F: Source, M: Patterns, K: Sink, C: Clock>(
    alloc: Global,
    first: u64,
    count: u64,
    conf: &mut F,
    make: &mut M,
    snk: &mut K,
    clock: &mut C,
) -> RunEnd
    requires { first < 2 ^ 31 }
    ensures status { result.status ≡ status_of result.fault }
    ensures briefs { result.briefs ≡ [] }
    ensures loads { Runs (M.faults make.old) (M.faults make.new) IsSaidWithACache
        (inflow F.left F.ended F.faults conf.old conf.new)
        ((snk.new ≡ snk.old) × (clock.new ≡ clock.old)) result.fault
        (λ site. LoadRun site.options first count
        (outflow K.taken K.faults snk.old snk.new)
        (C.gave clock.old clock.new) result.fault) }
{
    match configuration_with_a_cache(alloc, conf, make) {
        Ok(conf) => {
            let fault = loaded(alloc, conf, first, count, snk, clock);
            RunEnd::new(fault, BriefList::new(alloc))
        }
        Err(fault) => refused(alloc, fault),
    }
}

// `spool`, over the configuration that is read first.
fn spool_over<F: Source, M: Patterns, K: Sink, C: Clock, P: Keeper>(
    alloc: Global,
    conf: &mut F,
    make: &mut M,
    snk: &mut K,
    clock: &mut C,
    keep: &mut P,
) -> RunEnd
    ensures status { result.status ≡ status_of result.fault }
    ensures briefs { result.briefs ≡ [] }
    ensures spools { Runs (M.faults make.old) (M.faults make.new) IsSaid
        (inflow F.left F.ended F.faults conf.old conf.new)
        ((snk.new ≡ snk.old) × (clock.new ≡ clock.old) × (keep.new ≡ keep.old)) result.fault
        (λ site. (lists : Lists) × SpoolRun list_leads (first_lists site.options) lists (keeping P.rows P.append_faults P.other_faults keep.old) (keeping P.rows P.append_faults P.other_faults keep.new) site
        (outflow K.taken K.faults snk.old snk.new)
        (C.gave clock.old clock.new) result.fault) }
{
    match configuration(alloc, conf, make) {
        Ok(conf) => {
            let fault = spooled(alloc, conf, snk, clock, keep);
            RunEnd::new(fault, BriefList::new(alloc))
        }
        Err(fault) => refused(alloc, fault),
    }
}
