// What a packet says is answered: its asks are made, and its reply is told.
ghost use Rattle.std.specs.Prelude.{◌≡◌, ◌<◌, ◌≤◌, ◌^◌, List, ℕ, length, not, true, false, None, Ok, IfOk, IsSome};
ghost use Rattle.uw_outside.specs.Faults.{HasCause};
ghost use Rattle.uw_packet.specs.declared.packet.Header.{Header};
ghost use Rattle.uw_rules.specs.PartNumbers.{AskPartsBelow};
ghost use Rattle.uw_rules.specs.Compiled.{rules_of};
ghost use Rattle.uw_rules.specs.Tables.{AreRulesOf};
ghost use Rattle.uw_rules.specs.WrittenRules.{WrittenRule};
ghost use Rattle.uw_model.specs.declared.asks.Ask.TheVariants as asks;
ghost use Rattle.uw_packet.specs.BlockReads.{vars_block};
ghost use Rattle.uw_chain.specs.Courses.{and_then, asking, ended};
ghost use Rattle.uw_chain.specs.KeptSearches.{FitTable};
ghost use Rattle.uw_chain.specs.Routing.{Naming, course_of_request};
ghost use Rattle.uw_chain.specs.Spooling.{CanBeAsked, both_led, kept_by};
ghost use Rattle.uw_conf.specs.Given.{options_in};
ghost use Rattle.uw_session.specs.Exchange.{HasParts, IsSiteOf, Site, ask_reply, course_of_command, course_of_packet, course_of_putting, end_bytes, header_refusal, put_reply};
ghost use Rattle.uw_session.specs.Serving.{AnswersPacket, has_died_answering};
ghost use Rattle.uw_session.specs.SessionSteps.{AnswersCourse, IsAnswerable, IsAnsweredBy, IsContentOf, fault_before_asks, fault_behind_asks, has_died_chain};

use crate::faults::ServeFault;
use crate::taking::{Content, TakeFault, content_of};
use std::alloc::Global;
use uw_base::{Bytes, Memory, Vars};
use uw_cachecmd::{cache_reply, fault_reply, spool_reply};
use uw_chain::{ChainEnd, ChainFault, Searches, ask, last_answer, route_with};
use uw_conf::Conf;
use uw_keeper::Keeper;
use uw_model::{Ask, AskAnswer, AskList, Desk};
use uw_outside::Life;
use uw_packet::Packet;
use uw_reply::reply_bytes;
use uw_rules::RuleTable;

/// A packet that was answered: its asks with their answers, and its reply.
#[derive(Drop)]
pub struct Answered {
    pub asks: AskList,
    pub reply: Bytes,
}

// A reply that was made behind its asks, or that no memory was left for it.
fn behind(asks: AskList, reply: Result<Bytes, Memory>) -> Result<Answered, ChainFault>
    ensures { IsAnsweredBy asks reply result }
{
    match reply {
        Ok(reply) => Ok(Answered { asks, reply }),
        Err(_) => Err(ChainFault {
            end: ChainEnd::Memory,
            done: asks,
        }),
    }
}

// The reply to a command's ask.
fn ask_reply(alloc: Global, m2: u8, answer: &AskAnswer) -> Result<Bytes, Memory>
    ensures { IfOk result (λ reply. reply ≡ ask_reply m2 answer.now) }
{
    match answer {
        AskAnswer::Cache(answer) => cache_reply(alloc, m2, answer),
        _ => Ok(Bytes::new(alloc)),
    }
}

// The reply to a task that was to be put aside.
fn put_reply(alloc: Global, answer: &AskAnswer) -> Result<Bytes, Memory>
    ensures { IfOk result (λ reply. reply ≡ put_reply answer.now) }
{
    match answer {
        AskAnswer::Spool(answer) => spool_reply(alloc, *answer),
        _ => Ok(Bytes::new(alloc)),
    }
}

// Answers a command that asks.
fn answer_command<L: Life, D: Desk, P: Keeper>(
    alloc: Global,
    moment: u64,
    m2: u8,
    command: Ask,
    life: &mut L,
    desk: &mut D,
    keep: &mut P,
) -> Result<Answered, ChainFault>
    requires known { CanBeAsked (D.parts desk.old) command }
    requires alive { L.alive life.old ≡ true }
    ensures answers { AnswersCourse (both_led (D.leads desk.old desk.new) (kept_by P.rows P.append_faults P.other_faults keep.old keep.new)) (L.allowances life.old) (L.allowances life.new) moment
        (course_of_command m2 (Ok command)) result }
    ensures cause { HasCause (L.deaths life.old) (L.deaths life.new) (has_died_chain result) }
    ensures alive { L.alive life.new ≡ not (has_died_chain result) }
    ensures parts { D.parts desk.new ≡ D.parts desk.old }
    ensures settled { D.settled desk.old ≡ true → has_died_chain result ≡ false → D.settled desk.new ≡ true }
{
    let mut asks = AskList::new(alloc);
    match ask(alloc, command, moment, &mut asks, desk, keep, life) {
        Ok(()) => {
            let reply = ask_reply(alloc, m2, last_answer(&asks));
            behind(asks, reply)
        }
        Err(end) => Err(ChainFault { end, done: asks }),
    }
}

// Answers a task: it is put aside.
fn answer_task<L: Life, D: Desk, P: Keeper>(
    alloc: Global,
    moment: u64,
    vars: Vars,
    body: Bytes,
    life: &mut L,
    desk: &mut D,
    keep: &mut P,
) -> Result<Answered, ChainFault>
    requires known { IsSome (vars_block vars) }
    requires alive { L.alive life.old ≡ true }
    ensures answers { AnswersCourse (both_led (D.leads desk.old desk.new) (kept_by P.rows P.append_faults P.other_faults keep.old keep.new)) (L.allowances life.old) (L.allowances life.new) moment
        (asking (asks.Spool vars body) (λ answer. ended (put_reply answer))) result }
    ensures cause { HasCause (L.deaths life.old) (L.deaths life.new) (has_died_chain result) }
    ensures alive { L.alive life.new ≡ not (has_died_chain result) }
    ensures parts { D.parts desk.new ≡ D.parts desk.old }
    ensures settled { D.settled desk.old ≡ true → has_died_chain result ≡ false → D.settled desk.new ≡ true }
{
    let mut asks = AskList::new(alloc);
    let task = Ask::Spool { vars, body };
    match ask(alloc, task, moment, &mut asks, desk, keep, life) {
        Ok(()) => {
            let reply = put_reply(alloc, last_answer(&asks));
            behind(asks, reply)
        }
        Err(end) => Err(ChainFault { end, done: asks }),
    }
}

// Answers a request by the rules.
fn answer_request<'c, L: Life, D: Desk, P: Keeper>(
    alloc: Global,
    searches: &mut Searches<'c>,
    table: &'c RuleTable,
    moment: u64,
    vars: Vars,
    life: &mut L,
    desk: &mut D,
    keep: &mut P,
) -> Result<Answered, ChainFault>
    requires fits { FitTable table.now searches.old }
    requires known { AskPartsBelow (D.parts desk.old) (rules_of table.now) }
    requires alive { L.alive life.old ≡ true }
    ensures answers { (naming : Naming) (rules : List WrittenRule) → AreRulesOf naming.names naming.labels (rules_of table.now) rules
        → AnswersCourse (both_led (D.leads desk.old desk.new) (kept_by P.rows P.append_faults P.other_faults keep.old keep.new)) (L.allowances life.old) (L.allowances life.new) moment
        (and_then (course_of_request naming rules moment vars) (λ ending. ended (end_bytes ending))) result }
    ensures fits { FitTable table.now searches.new }
    ensures cause { HasCause (L.deaths life.old) (L.deaths life.new) (has_died_chain result) }
    ensures alive { L.alive life.new ≡ not (has_died_chain result) }
    ensures parts { D.parts desk.new ≡ D.parts desk.old }
    ensures settled { D.settled desk.old ≡ true → has_died_chain result ≡ false → D.settled desk.new ≡ true }
{
    match route_with(alloc, searches, table, vars, moment, life, desk, keep) {
        Ok(routed) => {
            let reply = reply_bytes(alloc, &routed.reply, routed.head_only);
            behind(routed.asks, reply)
        }
        Err(fault) => Err(fault),
    }
}

/// Answers what a packet's block says.
pub fn answer_content<'c, L: Life, D: Desk, P: Keeper>(
    alloc: Global,
    searches: &mut Searches<'c>,
    conf: &'c Conf,
    moment: u64,
    m2: u8,
    content: Content,
    life: &mut L,
    desk: &mut D,
    keep: &mut P,
) -> Result<Answered, ChainFault>
    requires fits { FitTable conf.now.routes searches.old }
    requires known { AskPartsBelow (D.parts desk.old) (rules_of conf.now.routes) }
    requires answerable { IsAnswerable (D.parts desk.old) content }
    requires alive { L.alive life.old ≡ true }
    ensures answers { (site : Site) (head : Header) (block : List ℕ) → IsSiteOf conf.now site → head.m2 ≡ m2 → IsContentOf site.options head block content
        → AnswersCourse (both_led (D.leads desk.old desk.new) (kept_by P.rows P.append_faults P.other_faults keep.old keep.new)) (L.allowances life.old) (L.allowances life.new) moment
        (course_of_packet site moment head block) result }
    ensures fits { FitTable conf.now.routes searches.new }
    ensures cause { HasCause (L.deaths life.old) (L.deaths life.new) (has_died_chain result) }
    ensures alive { L.alive life.new ≡ not (has_died_chain result) }
    ensures parts { D.parts desk.new ≡ D.parts desk.old }
    ensures settled { D.settled desk.old ≡ true → has_died_chain result ≡ false → D.settled desk.new ≡ true }
{
    match content {
        Content::Request { vars } => {
            answer_request(
                alloc,
                searches,
                &conf.routes,
                moment,
                vars,
                life,
                desk,
                keep,
            )
        }
        Content::Task { vars, body } => answer_task(alloc, moment, vars, body, life, desk, keep),
        Content::Command { ask } => answer_command(alloc, moment, m2, ask, life, desk, keep),
        Content::Refused { fault } => {
            behind(AskList::new(alloc), fault_reply(alloc, m2, &fault))
        }
    }
}

/// Answers a packet whose header is accepted, between its being read and its reply's being written: its asks are made at
/// a moment in seconds. `BadBlock` exactly where its block is out of its grammar, and then nothing is asked.
pub fn answer_packet<'c, L: Life, D: Desk, P: Keeper>(
    alloc: Global,
    searches: &mut Searches<'c>,
    conf: &'c Conf,
    moment: u64,
    packet: &Packet,
    life: &mut L,
    desk: &mut D,
    keep: &mut P,
) -> Result<Answered, ServeFault>
    requires accepted { header_refusal (options_in conf.now) packet.now.head ≡ None }
    requires short { length packet.now.block < 2 ^ 16 }
    requires few { length conf.now.caches < 2 ^ 32 }
    requires enough { HasParts (D.parts desk.old) conf.now }
    requires fits { FitTable conf.now.routes searches.old }
    requires known { AskPartsBelow (D.parts desk.old) (rules_of conf.now.routes) }
    requires alive { L.alive life.old ≡ true }
    ensures answers { (site : Site) → IsSiteOf conf.now site
        → AnswersPacket (both_led (D.leads desk.old desk.new) (kept_by P.rows P.append_faults P.other_faults keep.old keep.new)) (L.allowances life.old) (L.allowances life.new) site moment packet.now.head packet.now.block result }
    ensures fits { FitTable conf.now.routes searches.new }
    ensures cause { HasCause (L.deaths life.old) (L.deaths life.new) (has_died_answering result) }
    ensures alive { L.alive life.new ≡ not (has_died_answering result) }
    ensures parts { D.parts desk.new ≡ D.parts desk.old }
    ensures settled { D.settled desk.old ≡ true → has_died_answering result ≡ false → D.settled desk.new ≡ true }
{
    let content = match content_of(alloc, conf, packet) {
        Ok(content) => content,
        Err(fault) => return Err(unasked(alloc, fault)),
    };
    match answer_content(
        alloc,
        searches,
        conf,
        moment,
        packet.head.m2,
        content,
        life,
        desk,
        keep,
    ) {
        Ok(answered) => Ok(answered),
        Err(fault) => Err(broken_off(fault)),
    }
}

/// A fault that comes before the first ask.
pub fn unasked(alloc: Global, fault: TakeFault) -> ServeFault
    ensures { result ≡ fault_before_asks fault }
{
    match fault {
        TakeFault::Refused(refusal) => ServeFault::from(refusal),
        TakeFault::Truncated { got, want } => ServeFault::Truncated { got, want },
        TakeFault::ReadFault => ServeFault::ReadFault,
        TakeFault::Memory => ServeFault::Memory {
            done: AskList::new(alloc),
        },
    }
}

/// A fault that comes behind the asks that were answered.
pub fn broken_off(fault: ChainFault) -> ServeFault
    ensures { result ≡ fault_behind_asks fault }
{
    match fault.end {
        ChainEnd::Died { whole } => ServeFault::Died {
            whole,
            done: fault.done,
        },
        ChainEnd::Memory => ServeFault::Memory { done: fault.done },
    }
}
