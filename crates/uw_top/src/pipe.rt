// The machine of `pipe`.
ghost use Rattle.std.specs.Prelude.{◌≡◌, ◌<◌, ◌≤◌, ◌^◌, [], length, true, Some};
ghost use Rattle.uw_outside.specs.Faults.{HasCause, Rose};
ghost use Rattle.uw_outside.specs.Streams.{inflow, outflow};
ghost use Rattle.uw_keeper.specs.Keeping.{keeping};
ghost use Rattle.uw_rules.specs.PartNumbers.{AskPartsBelow};
ghost use Rattle.uw_rules.specs.Compiled.{rules_of};
ghost use Rattle.uw_chain.specs.KeptSearches.{FitTable};
ghost use Rattle.uw_session.specs.Exchange.{HasParts, IsSiteOf, Site};
ghost use Rattle.uw_ends.specs.declared.ends.RunFault.TheVariants as faults;
ghost use Rattle.uw_model.specs.Lists.{Lists};
ghost use Rattle.uw_top.specs.Pipe.{PipeRun, both_lead, has_failed_to_read, has_failed_to_write, list_leads};
ghost use Rattle.uw_top.specs.PipeSteps.{LooksFurther, TellsDeath, Turns, fault_of_turn, stop_of_serving};
ghost use Rattle.uw_top.specs.declared.pipe.Stop.TheVariants as stops;

use std::alloc::Global;
use uw_chain::Searches;
use uw_conf::Conf;
use uw_ends::{BadPacket, Brief, RunFault};
use uw_keeper::Keeper;
use uw_model::{Desk, OwnDesk};
use uw_outside::{Clock, Filled, Fuse, Sink, Source, fill, put_all};
use uw_session::{Form, ServeFault, serve_with};

/// The most packets of a run.
const MOST_PACKETS: u64 = 1_000_000;

/// What a request's fault means for a run.
pub enum Stop {
    /// The source was at its end.
    AtEnd,
    /// The worker died: its ask counts where it is whole. The run goes on with the next packet.
    Dead { whole: bool },
    ByFault(RunFault),
}

// What a request's fault means for a run.
fn stop_of(fault: ServeFault) -> Stop
    ensures { result ≡ stop_of_serving fault }
{
    match fault {
        ServeFault::Nothing => Stop::AtEnd,
        ServeFault::Truncated { got, want } => Stop::ByFault(RunFault::Truncated { got, want }),
        ServeFault::TooBig { size, limit } => refused(BadPacket::TooBig { size, limit }),
        ServeFault::NoModifier { m1, m2 } => refused(BadPacket::NoModifier { m1, m2 }),
        ServeFault::BadBlock { at } => refused(BadPacket::BadBlock { at }),
        ServeFault::BadLength => refused(BadPacket::BadLength),
        ServeFault::ReadFault => Stop::ByFault(RunFault::ReadFault),
        ServeFault::WriteFault { .. } => Stop::ByFault(RunFault::WriteFault),
        ServeFault::Died { whole, .. } => Stop::Dead { whole },
        ServeFault::Memory { .. } => Stop::ByFault(RunFault::Memory),
    }
}

// A refused packet ends a run.
fn refused(packet: BadPacket) -> Stop
    ensures { result ≡ stops.ByFault (faults.BadPacket packet) }
{
    Stop::ByFault(RunFault::BadPacket(packet))
}

// Writes the frame of a death, which counts where it is whole.
fn tell_death<K: Sink>(whole: bool, snk: &mut K) -> Option<RunFault>
    ensures tells { TellsDeath whole (outflow K.taken K.faults snk.old snk.new) result }
    ensures cause { HasCause (K.faults snk.old) (K.faults snk.new) (has_failed_to_write result) }
{
    let last = if whole { 1 } else { 0 };
    match put_all(snk, &[255, 255, 255, 255, last]) {
        Ok(()) => None,
        Err(_) => Some(RunFault::WriteFault),
    }
}

// Serves the next packet at the moment that the clock gives: true where it was answered, or the worker died of it and was
// renewed; false where the source is at its end.
fn take_turn<'c, S: Source, K: Sink, C: Clock, D: Desk, P: Keeper>(
    alloc: Global,
    searches: &mut Searches<'c>,
    conf: &'c Conf,
    life: &mut Fuse,
    desk: &mut D,
    keep: &mut P,
    briefs: &mut Vec<Brief>,
    src: &mut S,
    snk: &mut K,
    clock: &mut C,
) -> Result<bool, RunFault>
    requires few { length conf.now.caches < 2 ^ 32 }
    requires enough { HasParts (D.parts desk.old) conf.now }
    requires known { AskPartsBelow (D.parts desk.old) (rules_of conf.now.routes) }
    requires fits { FitTable conf.now.routes searches.old }
    requires alive { life.old.alive ≡ true }
    ensures turn { (site : Site) → IsSiteOf conf.now site → Turns
        (both_lead D.leads (desk.old, keeping P.rows P.append_faults P.other_faults keep.old)
        (desk.new, keeping P.rows P.append_faults P.other_faults keep.new))
        site (Some life.old.allowances) (Some life.new.allowances) briefs.old.items briefs.new.items
        (inflow S.left S.ended S.faults src.old src.new)
        (outflow K.taken K.faults snk.old snk.new)
        (C.gave clock.old clock.new) result }
    ensures fits { FitTable conf.now.routes searches.new }
    ensures parts { D.parts desk.new ≡ D.parts desk.old }
    ensures settled { D.settled desk.old ≡ true → (Rose life.old.deaths life.new.deaths → ⊥) → D.settled desk.new ≡ true }
    ensures deaths { life.old.deaths ≤ life.new.deaths }
    ensures alive { life.new.alive ≡ true }
    ensures reads { HasCause (S.faults src.old) (S.faults src.new) (has_failed_to_read (fault_of_turn result)) }
    ensures writes { HasCause (K.faults snk.old) (K.faults snk.new) (has_failed_to_write (fault_of_turn result)) }
{
    let moment = clock.now();
    if briefs.reserve(1).is_err() {
        return Err(RunFault::Memory);
    }
    let served = serve_with(
        alloc,
        searches,
        conf,
        Form::Framed,
        moment,
        src,
        snk,
        life,
        desk,
        keep,
    );
    match served {
        Ok(_) => {
            briefs.push_reserved(Brief { moment, died: None });
            Ok(true)
        }
        Err(fault) => match stop_of(fault) {
            Stop::AtEnd => Ok(false),
            Stop::ByFault(fault) => Err(fault),
            Stop::Dead { whole } => {
                life.renew();
                match tell_death(whole, snk) {
                    None => {
                        let died = Some(whole);
                        briefs.push_reserved(Brief { moment, died });
                        Ok(true)
                    }
                    Some(fault) => Err(fault),
                }
            }
        },
    }
}

// The same, once the source has a byte, has ended or has failed: so no moment is older than the first byte of its packet.
fn turn<'c, S: Source, K: Sink, C: Clock, D: Desk, P: Keeper>(
    alloc: Global,
    searches: &mut Searches<'c>,
    conf: &'c Conf,
    life: &mut Fuse,
    desk: &mut D,
    keep: &mut P,
    briefs: &mut Vec<Brief>,
    src: &mut S,
    snk: &mut K,
    clock: &mut C,
) -> Result<bool, RunFault>
    requires few { length conf.now.caches < 2 ^ 32 }
    requires enough { HasParts (D.parts desk.old) conf.now }
    requires known { AskPartsBelow (D.parts desk.old) (rules_of conf.now.routes) }
    requires fits { FitTable conf.now.routes searches.old }
    requires alive { life.old.alive ≡ true }
    ensures turn { (site : Site) → IsSiteOf conf.now site → Turns
        (both_lead D.leads (desk.old, keeping P.rows P.append_faults P.other_faults keep.old)
        (desk.new, keeping P.rows P.append_faults P.other_faults keep.new))
        site (Some life.old.allowances) (Some life.new.allowances) briefs.old.items briefs.new.items
        (inflow S.left S.ended S.faults src.old src.new)
        (outflow K.taken K.faults snk.old snk.new)
        (C.gave clock.old clock.new) result }
    ensures fits { FitTable conf.now.routes searches.new }
    ensures parts { D.parts desk.new ≡ D.parts desk.old }
    ensures settled { D.settled desk.old ≡ true → (Rose life.old.deaths life.new.deaths → ⊥) → D.settled desk.new ≡ true }
    ensures deaths { life.old.deaths ≤ life.new.deaths }
    ensures alive { life.new.alive ≡ true }
    ensures reads { HasCause (S.faults src.old) (S.faults src.new) (has_failed_to_read (fault_of_turn result)) }
    ensures writes { HasCause (K.faults snk.old) (K.faults snk.new) (has_failed_to_write (fault_of_turn result)) }
{
    src.wait();
    take_turn(
        alloc, searches, conf, life, desk, keep, briefs, src, snk, clock,
    )
}

// Looks for one further byte, behind the last packet that a run may have.
fn look_further<S: Source>(src: &mut S) -> Option<RunFault>
    ensures further { LooksFurther (inflow S.left S.ended S.faults src.old src.new) result }
    ensures reads { HasCause (S.faults src.old) (S.faults src.new) (has_failed_to_read result) }
{
    match fill(src, &mut [0]) {
        Filled::Whole => Some(RunFault::TooMany),
        Filled::Short(_) => None,
        Filled::Failed(_) => Some(RunFault::ReadFault),
    }
}

/// Serves packet after packet, up to the end of the source or the first fault. A worker that dies is told by its frame,
/// is renewed, and goes on with the next packet.
pub fn serve_packets<'c, S: Source, K: Sink, C: Clock, D: OwnDesk, P: Keeper>(
    alloc: Global,
    searches: &mut Searches<'c>,
    conf: &'c Conf,
    life: &mut Fuse,
    desk: &mut D,
    keep: &mut P,
    briefs: &mut Vec<Brief>,
    src: &mut S,
    snk: &mut K,
    clock: &mut C,
) -> Option<RunFault>
    requires few { length conf.now.caches < 2 ^ 32 }
    requires enough { HasParts (D.parts desk.old) conf.now }
    requires known { AskPartsBelow (D.parts desk.old) (rules_of conf.now.routes) }
    requires fits { FitTable conf.now.routes searches.old }
    requires alive { life.old.alive ≡ true }
    requires first { briefs.old.items ≡ [] }

    // A run by the desk's own relation; and the same turns led all lists on that it stood for, to those for which it stands now.
    ensures runs { (site : Site) → IsSiteOf conf.now site → (run : PipeRun (both_lead D.leads)
        (desk.old, keeping P.rows P.append_faults P.other_faults keep.old)
        (desk.new, keeping P.rows P.append_faults P.other_faults keep.new)
        (Some life.old.allowances) site
        (inflow S.left S.ended S.faults src.old src.new)
        (outflow K.taken K.faults snk.old snk.new)
        (C.gave clock.old clock.new) briefs.new.items result) × (run.still ≡ Some life.new.allowances)
        × ((lists : Lists) → D.stands desk.old lists → (after : Lists) × D.stands desk.new after × ((told : PipeRun
        (both_lead list_leads)
        (lists, keeping P.rows P.append_faults P.other_faults keep.old)
        (after, keeping P.rows P.append_faults P.other_faults keep.new)
        (Some life.old.allowances) site
        (inflow S.left S.ended S.faults src.old src.new)
        (outflow K.taken K.faults snk.old snk.new)
        (C.gave clock.old clock.new) briefs.new.items result) × (told.turns ≡ run.turns) × (told.still ≡ run.still))) }
    ensures fits { FitTable conf.now.routes searches.new }
    ensures parts { D.parts desk.new ≡ D.parts desk.old }
    ensures settled { D.settled desk.old ≡ true → (Rose life.old.deaths life.new.deaths → ⊥) → D.settled desk.new ≡ true }
    ensures alive { life.new.alive ≡ true }
{
    for served in 0..MOST_PACKETS {
        match turn(
            alloc, searches, conf, life, desk, keep, briefs, src, snk, clock,
        ) {
            Ok(true) => {}
            Ok(false) => return None,
            Err(fault) => return Some(fault),
        }
    }
    look_further(src)
}
