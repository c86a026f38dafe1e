// One request: its packet is taken, its asks are made, its reply is written.
ghost use Rattle.std.specs.Prelude.{◌≡◌, ◌<◌, ◌^◌, length, not, true, false, IfOk};
ghost use Rattle.uw_outside.specs.Faults.{HasCause};
ghost use Rattle.uw_outside.specs.Streams.{inflow, outflow};
ghost use Rattle.uw_rules.specs.PartNumbers.{AskPartsBelow};
ghost use Rattle.uw_rules.specs.Compiled.{rules_of};
ghost use Rattle.uw_chain.specs.KeptSearches.{FitTable};
ghost use Rattle.uw_session.specs.declared.faults.Form.TheVariants as forms;
ghost use Rattle.uw_chain.specs.Spooling.{both_led, kept_by};
ghost use Rattle.uw_session.specs.Exchange.{HasParts, IsSiteOf, Site, formed};
ghost use Rattle.uw_session.specs.Serving.{Serves, has_died_serving, has_failed_reading, has_failed_writing};
ghost use Rattle.uw_session.specs.SessionSteps.{WritesReply};

use crate::answering::{Answered, answer_content, broken_off, unasked};
use crate::faults::{Form, ServeFault, Served};
use crate::taking::take_packet;
use byteorder::{ByteOrder, LittleEndian};
use std::alloc::Global;
use uw_base::{Bytes, Memory};
use uw_chain::Searches;
use uw_conf::Conf;
use uw_keeper::Keeper;
use uw_model::{AskList, Desk};
use uw_outside::{Life, Sink, Source, put_all};
use uw_packet::Packet;

// A reply behind its length modulo 2^32 in four bytes.
fn framed(alloc: Global, reply: &[u8]) -> Result<Bytes, Memory>
    ensures { IfOk result (λ bytes. bytes ≡ formed forms.Framed reply.now) }
{
    let mut length = [0; 4];
    LittleEndian::write_u32(&mut length, (reply.len() % (1 << 32)) as u32);
    Bytes::joined(alloc, &length, reply)
}

// Writes a reply in its form, by one write where the sink takes it whole.
fn write_reply<K: Sink>(
    alloc: Global,
    form: Form,
    packet: Packet,
    moment: u64,
    answered: Answered,
    snk: &mut K,
) -> Result<Served, ServeFault>
    ensures writes { WritesReply form packet moment answered.asks answered.reply (outflow K.taken K.faults snk.old snk.new) result }
    ensures cause { HasCause (K.faults snk.old) (K.faults snk.new) (has_failed_writing result) }
{
    let Answered { asks, reply } = answered;
    let put = match form {
        Form::Raw => put_all(snk, reply.as_slice()),
        Form::Framed => match framed(alloc, reply.as_slice()) {
            Ok(frame) => put_all(snk, frame.as_slice()),
            Err(_) => return Err(ServeFault::Memory { done: asks }),
        },
    };
    match put {
        Ok(()) => Ok(Served {
            packet,
            moment,
            asks,
            reply,
        }),
        Err(_) => Err(ServeFault::WriteFault { done: asks }),
    }
}

/// Serves the next request of a source, at a moment in seconds, with the searches that are kept for the patterns of the
/// rules: its packet is taken with its body, its asks are made, and its reply is written in its form.
pub fn serve_with<'c, S: Source, K: Sink, L: Life, D: Desk, P: Keeper>(
    alloc: Global,
    searches: &mut Searches<'c>,
    conf: &'c Conf,
    form: Form,
    moment: u64,
    src: &mut S,
    snk: &mut K,
    life: &mut L,
    desk: &mut D,
    keep: &mut P,
) -> Result<Served, ServeFault>
    requires few { length conf.now.caches < 2 ^ 32 }
    requires enough { HasParts (D.parts desk.old) conf.now }
    requires known { AskPartsBelow (D.parts desk.old) (rules_of conf.now.routes) }
    requires fits { FitTable conf.now.routes searches.old }
    requires alive { L.alive life.old ≡ true }
    ensures serves { (site : Site) → IsSiteOf conf.now site → Serves site form moment
        (record {
          src = inflow S.left S.ended S.faults src.old src.new;
          snk = outflow K.taken K.faults snk.old snk.new;
          led = both_led (D.leads desk.old desk.new) (kept_by P.rows P.append_faults P.other_faults keep.old keep.new);
          before = L.allowances life.old;
          now = L.allowances life.new;
        }) result }
    ensures fits { FitTable conf.now.routes searches.new }
    ensures reads { HasCause (S.faults src.old) (S.faults src.new) (has_failed_reading result) }
    ensures writes { HasCause (K.faults snk.old) (K.faults snk.new) (has_failed_writing result) }
    ensures cause { HasCause (L.deaths life.old) (L.deaths life.new) (has_died_serving result) }
    ensures alive { L.alive life.new ≡ not (has_died_serving result) }
    ensures parts { D.parts desk.new ≡ D.parts desk.old }
    ensures settled { D.settled desk.old ≡ true → has_died_serving result ≡ false → D.settled desk.new ≡ true }
{
    let (packet, content) = match take_packet(alloc, conf, src) {
        Ok(Some(taken)) => taken,
        Ok(None) => return Err(ServeFault::Nothing),
        Err(fault) => return Err(unasked(alloc, fault)),
    };
    let m2 = packet.head.m2;
    match answer_content(alloc, searches, conf, moment, m2, content, life, desk, keep) {
        Ok(answered) => write_reply(alloc, form, packet, moment, answered, snk),
        Err(fault) => Err(broken_off(fault)),
    }
}

/// Serves the next request of a source: as `serve_with`, with searches that are made for this request alone.
pub fn serve_one<S: Source, K: Sink, L: Life, D: Desk, P: Keeper>(
    alloc: Global,
    conf: &Conf,
    form: Form,
    moment: u64,
    src: &mut S,
    snk: &mut K,
    life: &mut L,
    desk: &mut D,
    keep: &mut P,
) -> Result<Served, ServeFault>
    requires few { length conf.now.caches < 2 ^ 32 }
    requires enough { HasParts (D.parts desk.old) conf.now }
    requires known { AskPartsBelow (D.parts desk.old) (rules_of conf.now.routes) }
    requires alive { L.alive life.old ≡ true }
    ensures serves { (site : Site) → IsSiteOf conf.now site → Serves site form moment
        (record {
          src = inflow S.left S.ended S.faults src.old src.new;
          snk = outflow K.taken K.faults snk.old snk.new;
          led = both_led (D.leads desk.old desk.new) (kept_by P.rows P.append_faults P.other_faults keep.old keep.new);
          before = L.allowances life.old;
          now = L.allowances life.new;
        }) result }
    ensures reads { HasCause (S.faults src.old) (S.faults src.new) (has_failed_reading result) }
    ensures writes { HasCause (K.faults snk.old) (K.faults snk.new) (has_failed_writing result) }
    ensures cause { HasCause (L.deaths life.old) (L.deaths life.new) (has_died_serving result) }
    ensures alive { L.alive life.new ≡ not (has_died_serving result) }
    ensures parts { D.parts desk.new ≡ D.parts desk.old }
    ensures settled { D.settled desk.old ≡ true → has_died_serving result ≡ false → D.settled desk.new ≡ true }
{
    match Searches::new(alloc, &conf.routes) {
        Ok(mut searches) => serve_with(
            alloc,
            &mut searches,
            conf,
            form,
            moment,
            src,
            snk,
            life,
            desk,
            keep,
        ),
        Err(_) => Err(ServeFault::Memory {
            done: AskList::new(alloc),
        }),
    }
}
