// A packet is taken from a source: its header, its block and its body, each judged before the next is read.
ghost use Rattle.std.specs.Prelude.{◌≡◌, ◌<◌, ◌^◌, length, false, None, IfOk, IfSome};
ghost use Rattle.uw_outside.specs.Faults.{HasCause};
ghost use Rattle.uw_outside.specs.Streams.{inflow};
ghost use Rattle.uw_model.specs.Asks.{DeskParts};
ghost use Rattle.uw_conf.specs.Given.{options_in, parts_in};
ghost use Rattle.uw_session.specs.Exchange.{header_refusal, is_request, is_task};
ghost use Rattle.uw_session.specs.SessionSteps.{GivesContent, GivesTask, GivesLength, IsAnswerable, IsJudged, TakesHeader, TakesPacket, has_failed_taking, take_fault_of};

use crate::faults::Refusal;
use std::alloc::Global;
use uw_base::{Bytes, Memory, Vars, read_decimal};
use uw_cachecmd::{CmdFault, command};
use uw_chain::task_of;
use uw_conf::Conf;
use uw_model::Ask;
use uw_outside::Source;
use uw_packet::{Header, Packet, PacketFault, read_block, read_header, read_vars, skip_body};

/// The most bytes of a body.
const MOST_BODY: u64 = 1 << 30;

/// What a packet's block says.
#[derive(Drop)]
pub enum Content {
    /// A request with these variables.
    Request { vars: Vars },
    /// A task to be put aside: its variables and its body.
    Task { vars: Vars, body: Bytes },
    /// A command that asks.
    Command { ask: Ask },
    /// A command that is refused, and not for its block.
    Refused { fault: CmdFault },
}

/// Why no packet was taken.
#[derive(Clone, Copy, Debug, PartialEq, Eq)]
pub enum TakeFault {
    Refused(Refusal),
    Truncated { got: u64, want: u64 },
    ReadFault,
    Memory,
}

impl From<Memory> for TakeFault {
    ghost use Rattle.uw_session.specs.declared.taking.TakeFault.TheVariants as takes;

    ghost from_gives = { λ _ fault. fault ≡ takes.Memory };

    fn from(_: Memory) -> TakeFault {
        TakeFault::Memory
    }
}

// Judges a header: its size, and then its modifiers.
fn judge_header(conf: &Conf, head: &Header) -> Result<(), Refusal>
    ensures { IsJudged (header_refusal (options_in conf.now) head.now) result }
{
    let size = u32::from(head.size);
    let limit = conf.buffer_size;
    if size > limit {
        return Err(Refusal::TooBig { size, limit });
    }
    match (head.m1, head.m2) {
        (0 | 17, _) | (111, 0 | 1 | 2 | 200) => Ok(()),
        (m1, m2) => Err(Refusal::NoModifier { m1, m2 }),
    }
}

// The fault that a fault of a read is.
fn take_fault(fault: PacketFault) -> TakeFault
    ensures { result ≡ take_fault_of fault }
{
    match fault {
        PacketFault::Truncated { got, want } => TakeFault::Truncated { got, want },
        PacketFault::TooBig { size, limit } => TakeFault::Refused(Refusal::TooBig { size, limit }),
        PacketFault::BadBlock { at } => TakeFault::Refused(Refusal::BadBlock { at }),
        PacketFault::ReadFault => TakeFault::ReadFault,
        PacketFault::Memory => TakeFault::Memory,
    }
}

/// What the block of a packet whose header is accepted says. `BadBlock` exactly where it is out of its grammar.
pub fn content_of(alloc: Global, conf: &Conf, packet: &Packet) -> Result<Content, TakeFault>
    requires accepted { header_refusal (options_in conf.now) packet.now.head ≡ None }
    requires short { length packet.now.block < 2 ^ 16 }
    requires few { length conf.now.caches < 2 ^ 32 }
    ensures content { GivesContent (options_in conf.now) packet.now.head packet.now.block result }
    ensures answerable { IfOk result (IsAnswerable (parts_in conf.now)) }
{
    match packet.head.m1 {
        0 => match read_vars(alloc, packet.block.as_slice()) {
            Ok(vars) => Ok(Content::Request { vars }),
            Err(fault) => Err(take_fault(fault)),
        },
        17 => task_in(alloc, packet.block.as_slice()),
        _ => command_in(alloc, conf, packet),
    }
}

// The task that a block says.
fn task_in(alloc: Global, block: &[u8]) -> Result<Content, TakeFault>
    requires short { length block.now < 2 ^ 16 }
    ensures content { GivesTask block.now result }
    ensures answerable { (parts : DeskParts) → IfOk result (IsAnswerable parts) }
{
    match read_vars(alloc, block) {
        Ok(pairs) => {
            let (vars, body) = task_of(alloc, &pairs)?;
            Ok(Content::Task { vars, body })
        }
        Err(fault) => Err(take_fault(fault)),
    }
}

// The command that a block says.
fn command_in(alloc: Global, conf: &Conf, packet: &Packet) -> Result<Content, TakeFault>
    requires accepted { header_refusal (options_in conf.now) packet.now.head ≡ None }
    requires other { (is_request packet.now.head ≡ false) × (is_task packet.now.head ≡ false) }
    requires short { length packet.now.block < 2 ^ 16 }
    requires few { length conf.now.caches < 2 ^ 32 }
    ensures content { GivesContent (options_in conf.now) packet.now.head packet.now.block result }
    ensures answerable { IfOk result (IsAnswerable (parts_in conf.now)) }
{
    match command(
        alloc,
        packet.head.m2,
        packet.block.as_slice(),
        conf.caches.names(),
    ) {
        Ok(ask) => Ok(Content::Command { ask }),
        Err(CmdFault::BadBlock { at }) => Err(TakeFault::Refused(Refusal::BadBlock { at })),
        Err(CmdFault::Memory) => Err(TakeFault::Memory),
        Err(fault) => Ok(Content::Refused { fault }),
    }
}

// The length of the body behind a packet: 0 where the variable is empty. `BadLength` exactly where it is no decimal
// number, or one above the limit.
fn body_length(content: &Content) -> Result<u64, Refusal>
    ensures { GivesLength content.now result }
{
    let Content::Request { vars } = content else {
        return Ok(0);
    };
    let text = vars.get(b"CONTENT_LENGTH");
    if text.len() == 0 {
        return Ok(0);
    }
    match read_decimal(text) {
        Some(bytes) if bytes <= MOST_BODY => Ok(bytes),
        _ => Err(Refusal::BadLength),
    }
}

// Takes the header of the next packet, if it is accepted; none where the source is at its end.
fn take_header<S: Source>(conf: &Conf, src: &mut S) -> Result<Option<Header>, TakeFault>
    ensures taken { TakesHeader (options_in conf.now) (inflow S.left S.ended S.faults src.old src.new) result }
    ensures cause { HasCause (S.faults src.old) (S.faults src.new) (has_failed_taking result) }
{
    let head = match read_header(src) {
        Ok(Some(head)) => head,
        Ok(None) => return Ok(None),
        Err(fault) => return Err(take_fault(fault)),
    };
    match judge_header(conf, &head) {
        Ok(()) => Ok(Some(head)),
        Err(refusal) => Err(TakeFault::Refused(refusal)),
    }
}

/// Takes the next packet with its body, which is dropped; none where the source is at its end. Each part is judged
/// before the next one is read.
pub fn take_packet<S: Source>(
    alloc: Global,
    conf: &Conf,
    src: &mut S,
) -> Result<Option<(Packet, Content)>, TakeFault>
    requires few { length conf.now.caches < 2 ^ 32 }
    ensures taken { TakesPacket (options_in conf.now) (inflow S.left S.ended S.faults src.old src.new) result }
    ensures answerable { IfOk result (λ taken. IfSome taken (λ packet. IsAnswerable (parts_in conf.now) packet.1)) }
    ensures cause { HasCause (S.faults src.old) (S.faults src.new) (has_failed_taking result) }
{
    let head = match take_header(conf, src) {
        Ok(Some(head)) => head,
        Ok(None) => return Ok(None),
        Err(fault) => return Err(fault),
    };
    let block = match read_block(alloc, src, head.size) {
        Ok(block) => block,
        Err(fault) => return Err(take_fault(fault)),
    };
    let packet = Packet { head, block };
    let content = match content_of(alloc, conf, &packet) {
        Ok(content) => content,
        Err(fault) => return Err(fault),
    };
    let length = match body_length(&content) {
        Ok(length) => length,
        Err(refusal) => return Err(TakeFault::Refused(refusal)),
    };
    match skip_body(src, length) {
        Ok(()) => Ok(Some((packet, content))),
        Err(fault) => Err(take_fault(fault)),
    }
}
