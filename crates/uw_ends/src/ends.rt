// How a run ends: its status, its fault and what it answered.
ghost use Rattle.std.specs.Prelude.{◌≡◌, []};
ghost use Rattle.uw_ends.specs.Ends.{status_of};

use std::alloc::Global;
use std::marker::Model;
use uw_base::Memory;
use uw_conf::ConfFault;

/// Why a packet was refused, or an event.
#[derive(Clone, Copy, Debug, PartialEq, Eq)]
pub enum BadPacket {
    /// The header's size is above the limit.
    TooBig { size: u32, limit: u32 },
    /// No request is served for these modifiers.
    NoModifier { m1: u8, m2: u8 },
    /// The block is out of its grammar, at this place.
    BadBlock { at: u32 },
    /// The length of a request's body is no number, or too high a one.
    BadLength,
    /// The line, counted from 1, is no event.
    BadEvent { line: u64 },
}

/// Why a run ended before the end of its input.
#[derive(Clone, Copy, Debug, PartialEq, Eq)]
pub enum RunFault {
    /// The words are no command.
    Usage,
    /// The configuration is refused, or has no cache where the command needs one.
    Conf(ConfFault),
    /// A read of the configuration or of the input failed.
    ReadFault,
    /// A write of the output failed.
    WriteFault,
    /// The input ended after `got` of the `want` bytes of a header or of a block.
    Truncated { got: u64, want: u64 },
    /// A packet or an event was refused.
    BadPacket(BadPacket),
    /// The spool failed.
    KeeperFault,
    /// No memory was left.
    Memory,
    /// A million packets were answered, and more input came.
    TooMany,
    /// A thread could not be started.
    NotStarted,
    /// The configuration names no socket to listen at.
    NoSocket,
    /// The socket could not be listened at.
    NotBound,
}

impl From<Memory> for RunFault {
    ghost use Rattle.uw_ends.specs.declared.ends.RunFault.TheVariants as faults;

    ghost from_gives = { λ _ fault. fault ≡ faults.Memory };

    fn from(_: Memory) -> RunFault {
        RunFault::Memory
    }
}

/// A packet that was answered: its moment, and whether its call is in the history where its worker died.
#[derive(Clone, Copy, Debug, PartialEq, Eq)]
pub struct Brief {
    /// Seconds, as the clock gave them.
    pub moment: u64,
    pub died: Option<bool>,
}

/// Briefs in the order of their packets. Contracts see the list of them.
#[derive(Drop)]
pub struct BriefList {
    briefs: Vec<Brief>,
}

impl Model for BriefList {
    ghost use Rattle.std.specs.Prelude.{List};
    ghost use Rattle.uw_ends.specs.declared.ends.Brief.{Brief};

    ghost Value = { List Brief };

    ghost view = { λ l. l.briefs.items };
}

impl BriefList {
    /// The list with no brief. Takes no memory.
    pub fn new(alloc: Global) -> BriefList
        ensures { result ≡ [] }
    {
        BriefList {
            briefs: Vec::new(alloc),
        }
    }

    /// The list of a vector. Takes no memory.
    pub fn from_vec(briefs: Vec<Brief>) -> BriefList
        ensures { result ≡ briefs.items }
    {
        BriefList { briefs }
    }

    pub fn as_slice(&self) -> &[Brief]
        ensures { result.now ≡ self.now }
    {
        self.briefs.as_slice()
    }
}

/// How a run ended.
#[derive(Drop)]
pub struct RunEnd {
    /// The program's status.
    pub status: u8,
    pub fault: Option<RunFault>,
    pub briefs: BriefList,
}

impl RunEnd {
    /// The end by this fault, or by none, with its status.
    pub fn new(fault: Option<RunFault>, briefs: BriefList) -> RunEnd
        ensures { result ≡ record { status = status_of fault; fault = fault; briefs = briefs } }
    {
        RunEnd {
            status: status(&fault),
            fault,
            briefs,
        }
    }
}

// The status of a run that ended with this fault, or with none.
fn status(fault: &Option<RunFault>) -> u8
    ensures { result ≡ status_of fault.now }
{
    match fault {
        None => 0,
        Some(RunFault::Usage) => 1,
        Some(RunFault::Conf(_)) => 2,
        Some(RunFault::ReadFault) => 3,
        Some(RunFault::WriteFault) => 4,
        Some(RunFault::Truncated { .. }) => 5,
        Some(RunFault::BadPacket(_)) => 6,
        Some(RunFault::KeeperFault) => 7,
        Some(RunFault::Memory) => 8,
        Some(RunFault::TooMany) => 9,
        Some(RunFault::NotStarted) => 10,
        Some(RunFault::NoSocket) => 11,
        Some(RunFault::NotBound) => 15,
    }
}
