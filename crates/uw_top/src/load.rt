// The command `load`: packets that a generator makes, and the figures of their replies.
ghost use Rattle.std.specs.Prelude.{◌≡◌, ◌<◌, ◌≤◌, ◌^◌, ◌++◌, length, option_copied, true, IfOk, OnOk};
ghost use Rattle.std.specs.Fmt.{decimal};
ghost use Rattle.uw_outside.specs.Faults.{HasCause};
ghost use Rattle.uw_outside.specs.Streams.{outflow};
ghost use Rattle.uw_model.specs.Caches.{empty_caches};
ghost use Rattle.uw_model.specs.Lists.{Lists};
ghost use Rattle.uw_rules.specs.PartNumbers.{AskPartsBelow};
ghost use Rattle.uw_rules.specs.Compiled.{rules_of};
ghost use Rattle.uw_chain.specs.KeptSearches.{FitTable};
ghost use Rattle.uw_conf.specs.Given.{parts_in};
ghost use Rattle.uw_conf.specs.Sound.{ArePartsOfSite};
ghost use Rattle.uw_session.specs.Exchange.{HasParts, IsSiteOf, Site};
ghost use Rattle.uw_top.specs.Load.{LoadRun, block_for, command_for, figure_line, figures_text, head_for, next_number, no_figures, packet_for, variables_for, with_reply};
ghost use Rattle.uw_top.specs.Pipe.{has_failed_to_write};
ghost use Rattle.uw_top.specs.LoadSteps.{AnswersNumber, AreCounted, CanCount, LoadOver, WritesText, answer_behind, unanswered_by};

use itoa::Buffer;
use std::alloc::Global;
use uw_base::{Bytes, Memory, Vars, put_decimal};
use uw_chain::Searches;
use uw_conf::Conf;
use uw_ends::{BadPacket, RunFault};
use uw_keeper::MemKeeper;
use uw_model::{Answer, AskAnswer, Desk, OwnDesk};
use uw_outside::{Clock, Immortal, Sink, put_all};
use uw_packet::{Header, Packet, write_vars};
use uw_session::{Answered, ServeFault, answer_packet};
use uw_shared::LocalDesk;

/// How many packets were answered, how many of the replies were of each kind, and the bytes of all replies.
#[derive(Clone, Copy, Debug, PartialEq, Eq)]
pub struct Figures {
    pub packets: u64,
    pub value: u64,
    pub missing: u64,
    pub ok: u64,
    pub number: u64,
    pub other: u64,
    pub bytes: u128,
}

// The next number of the generator.
fn next_number(x: u64) -> u64
    requires { x < 2 ^ 31 }
    ensures next { result ≡ next_number x }
    ensures small { result < 2 ^ 31 }
{
    (x * 1_103_515_245 + 12_345) % (1 << 31)
}

// The command that a number chooses.
fn command_for(choice: u64) -> &'static [u8]
    ensures { result.now ≡ command_for choice }
{
    match choice {
        0..=3 => b"get",
        4 | 5 => b"update",
        6 => b"del",
        _ => b"inc",
    }
}

// A text and a number behind it, in decimal.
fn with_number(alloc: Global, front: &[u8], number: u64) -> Result<Bytes, Memory>
    ensures { IfOk result (λ text. text ≡ front.now ++ decimal number) }
{
    let mut text = Bytes::from_slice(alloc, front)?;
    put_decimal(&mut text, number)?;
    Ok(text)
}

// The variables of the command block that a number makes.
fn variables_for(alloc: Global, x: u64) -> Result<Vars, Memory>
    ensures { IfOk result (λ vars. vars ≡ variables_for x) }
{
    let choice = x / 65_536 % 8;
    let mut vars = Vars::new(alloc);
    vars.set(b"cmd", command_for(choice))?;
    vars.set(b"key", with_number(alloc, b"k", x / 256 % 256)?.as_slice())?;
    if choice == 4 || choice == 5 {
        vars.set(b"value", with_number(alloc, b"", x)?.as_slice())?;
    }
    Ok(vars)
}

// The packet that a number makes.
fn packet_for(alloc: Global, x: u64) -> Result<Packet, Memory>
    requires { x < 2 ^ 31 }
    ensures head { IfOk result (λ packet. packet.head ≡ head_for x) }
    ensures block { IfOk result (λ packet. packet.block ≡ block_for x) }
    ensures short { IfOk result (λ packet. length packet.block < 2 ^ 16) }
{
    let vars = variables_for(alloc, x)?;
    let Some(block) = write_vars(alloc, &vars)? else {
        // None of its texts is longer than ten bytes.
        unreachable!()
    };
    let head = Header {
        m1: 111,
        size: block.len() as u16,
        m2: 200,
    };
    Ok(Packet { head, block })
}

// Answers the packet that a number makes.
fn answer_number<'c, D: Desk>(
    alloc: Global,
    searches: &mut Searches<'c>,
    conf: &'c Conf,
    desk: &mut D,
    x: u64,
    moment: u64,
) -> Result<Answered, RunFault>
    requires number { x < 2 ^ 31 }
    requires few { length conf.now.caches < 2 ^ 32 }
    requires enough { HasParts (D.parts desk.old) conf.now }
    requires fits { FitTable conf.now.routes searches.old }
    requires known { AskPartsBelow (D.parts desk.old) (rules_of conf.now.routes) }
    ensures answer { (site : Site) → IsSiteOf conf.now site → AnswersNumber D.leads site desk.old desk.new moment x result }
    ensures fits { FitTable conf.now.routes searches.new }
    ensures parts { D.parts desk.new ≡ D.parts desk.old }
    ensures settled { D.settled desk.old ≡ true → D.settled desk.new ≡ true }
{
    let packet = packet_for(alloc, x)?;
    let size = u32::from(packet.head.size);
    let limit = conf.buffer_size;
    if size > limit {
        return Err(RunFault::BadPacket(BadPacket::TooBig { size, limit }));
    }
    let life = &mut Immortal::new();
    // A command puts no task aside.
    let keep = &mut MemKeeper::new(Vec::new(alloc), Vec::new(alloc));
    match answer_packet(alloc, searches, conf, moment, &packet, life, desk, keep) {
        Ok(answered) => Ok(answered),
        Err(fault) => Err(unanswered(fault)),
    }
}

// What the fault of a packet means for a load. An immortal worker does not die, so but for a block out of its grammar it
// is want of memory.
fn unanswered(fault: ServeFault) -> RunFault
    ensures { result ≡ unanswered_by fault }
{
    match fault {
        ServeFault::BadBlock { at } => RunFault::BadPacket(BadPacket::BadBlock { at }),
        _ => RunFault::Memory,
    }
}

// The answer of a packet's ask; a refused command asks nothing.
fn answer_of(answered: &Answered) -> Option<&Answer>
    ensures { option_copied result ≡ answer_behind answered.now.asks }
{
    let asked = answered.asks.as_slice().first()?;
    match &asked.answer {
        AskAnswer::Cache(answer) => Some(answer),
        _ => None,
    }
}

impl Figures {
    fn new() -> Figures
        ensures { result ≡ no_figures }
    {
        Figures {
            packets: 0,
            value: 0,
            missing: 0,
            ok: 0,
            number: 0,
            other: 0,
            bytes: 0,
        }
    }

    // Counts a packet that was answered.
    fn count(&mut self, answered: &Answered)
        requires { CanCount self.old }
        ensures more { self.new ≡ with_reply self.old (answer_behind answered.now.asks) answered.now.reply }
        ensures counted { AreCounted self.new }
    {
        self.packets += 1;
        self.bytes += answered.reply.len() as u128;
        match answer_of(answered) {
            Some(Answer::Value(_)) => self.value += 1,
            Some(Answer::Missing) => self.missing += 1,
            Some(Answer::Done) => self.ok += 1,
            Some(Answer::Number(_)) => self.number += 1,
            _ => self.other += 1,
        }
    }

    // The seven lines of figures.
    fn text(&self, alloc: Global) -> Result<Bytes, Memory>
        ensures { IfOk result (λ text. text ≡ figures_text self.now) }
    {
        let mut text = Bytes::new(alloc);
        put_line(&mut text, b"packets ", u128::from(self.packets))?;
        put_line(&mut text, b"value ", u128::from(self.value))?;
        put_line(&mut text, b"missing ", u128::from(self.missing))?;
        put_line(&mut text, b"ok ", u128::from(self.ok))?;
        put_line(&mut text, b"number ", u128::from(self.number))?;
        put_line(&mut text, b"other ", u128::from(self.other))?;
        put_line(&mut text, b"bytes ", self.bytes)?;
        Ok(text)
    }
}

// Puts a line of a name and a number at the end of a text.
fn put_line(text: &mut Bytes, name: &[u8], number: u128) -> Result<(), Memory>
    ensures { OnOk result (text.new ≡ text.old ++ figure_line name.now number) }
{
    text.append(name)?;
    text.append(Buffer::new().format(number).as_bytes())?;
    text.push(b'\n')
}

/// Answers `count` packets that a generator makes from its first number, and writes seven lines of figures, by one write
/// where the sink takes it whole. The clock is asked once for each packet.
pub fn load<'c, K: Sink, C: Clock, D: OwnDesk>(
    alloc: Global,
    searches: &mut Searches<'c>,
    conf: &'c Conf,
    desk: &mut D,
    first: u64,
    count: u64,
    snk: &mut K,
    clock: &mut C,
) -> Option<RunFault>
    requires few { length conf.now.caches < 2 ^ 32 }
    requires enough { HasParts (D.parts desk.old) conf.now }
    requires fits { FitTable conf.now.routes searches.old }
    requires known { AskPartsBelow (D.parts desk.old) (rules_of conf.now.routes) }
    requires first { first < 2 ^ 31 }
    // By the desk's own relation; and a load of the command, where the desk stood for empty caches.
    ensures runs { (site : Site) → IsSiteOf conf.now site → LoadOver D.leads site first count desk.old desk.new
        (outflow K.taken K.faults snk.old snk.new)
        (C.gave clock.old clock.new) result }
    ensures stands { (site : Site) (lists : Lists) → IsSiteOf conf.now site → D.stands desk.old lists → lists.caches ≡ empty_caches site.options.caches
        → (after : Lists) × D.stands desk.new after × LoadRun site.options first count
        (outflow K.taken K.faults snk.old snk.new)
        (C.gave clock.old clock.new) result }
    ensures fits { FitTable conf.now.routes searches.new }
    ensures parts { D.parts desk.new ≡ D.parts desk.old }
    ensures settled { D.settled desk.old ≡ true → D.settled desk.new ≡ true }
{
    let mut figures = Figures::new();
    let mut x = first;
    for served in 0..count {
        x = next_number(x);
        let moment = clock.now();
        match answer_number(alloc, searches, conf, desk, x, moment) {
            Ok(answered) => figures.count(&answered),
            Err(fault) => return Some(fault),
        }
    }
    write_figures(alloc, &figures, snk)
}

/// The command `load`, over a configuration: packets are answered over empty caches.
pub fn loaded<K: Sink, C: Clock>(
    alloc: Global,
    conf: Conf,
    first: u64,
    count: u64,
    snk: &mut K,
    clock: &mut C,
) -> Option<RunFault>
    requires parts { ArePartsOfSite conf.caches conf.areas }
    requires known { AskPartsBelow (parts_in conf) (rules_of conf.routes) }
    requires first { first < 2 ^ 31 }
    ensures { (site : Site) → IsSiteOf conf site → LoadRun site.options first count
        (outflow K.taken K.faults snk.old snk.new)
        (C.gave clock.old clock.new) result }
{
    let mut desk = match LocalDesk::new(alloc, &conf.caches, &conf.areas) {
        Ok(desk) => desk,
        Err(_) => return Some(RunFault::Memory),
    };
    let mut searches = match Searches::new(alloc, &conf.routes) {
        Ok(searches) => searches,
        Err(_) => return Some(RunFault::Memory),
    };
    load(
        alloc,
        &mut searches,
        &conf,
        &mut desk,
        first,
        count,
        snk,
        clock,
    )
}

// Writes the lines of figures.
fn write_figures<K: Sink>(alloc: Global, figures: &Figures, snk: &mut K) -> Option<RunFault>
    ensures written { WritesText (figures_text figures.now) (outflow K.taken K.faults snk.old snk.new) result }
    ensures cause { HasCause (K.faults snk.old) (K.faults snk.new) (has_failed_to_write result) }
{
    let text = match figures.text(alloc) {
        Ok(text) => text,
        Err(_) => return Some(RunFault::Memory),
    };
    match put_all(snk, text.as_slice()) {
        Ok(()) => None,
        Err(_) => Some(RunFault::WriteFault),
    }
}
