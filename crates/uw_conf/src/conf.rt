// What a configuration says, and why a line is refused.
ghost use Rattle.std.specs.Prelude.{◌≡◌};
ghost use Rattle.uw_conf.specs.Given.{options_in};

use uw_base::{Bytes, Memory, NumberList};
use uw_model::CacheConfList;
use uw_rules::{RuleKind, RuleTable};

/// What the options of a configuration say, without its rules.
#[derive(Drop)]
pub struct Options {
    pub buffer_size: u32,
    pub workers: u32,
    pub harakiri: u64,
    pub expire_freq: u64,
    pub spoolers: u32,
    pub spool_freq: u64,
    pub socket: Bytes,
    pub caches: CacheConfList,
    pub areas: NumberList,
}

/// What a configuration says.
#[derive(Drop)]
pub struct Conf {
    /// The largest block of a packet, in bytes, 1 to 65,535.
    pub buffer_size: u32,
    /// Workers, 1 to 64.
    pub workers: u32,
    /// Seconds after which a busy worker is doomed, 0 for never.
    pub harakiri: u64,
    /// Seconds between two sweeps, 1 to 3,600.
    pub expire_freq: u64,
    /// Spoolers, 1 to 16.
    pub spoolers: u32,
    /// Seconds between two rounds of a spooler, 1 to 3,600.
    pub spool_freq: u64,
    /// Where workers listen; no byte where nothing is said.
    pub socket: Bytes,
    /// The caches, at most 16.
    pub caches: CacheConfList,
    /// The sizes of the shared areas in bytes, at most 16.
    pub areas: NumberList,
    /// The rules of requests.
    pub routes: RuleTable,
    /// The rules of tasks.
    pub tasks: RuleTable,
}

impl Options {
    /// The configuration of these options, rules of requests and rules of tasks.
    pub fn with_rules(self, routes: RuleTable, tasks: RuleTable) -> Conf
        ensures options { options_in result ≡ self }
        ensures routes { result.routes ≡ routes }
        ensures tasks { result.tasks ≡ tasks }
    {
        Conf {
            buffer_size: self.buffer_size,
            workers: self.workers,
            harakiri: self.harakiri,
            expire_freq: self.expire_freq,
            spoolers: self.spoolers,
            spool_freq: self.spool_freq,
            socket: self.socket,
            caches: self.caches,
            areas: self.areas,
            routes,
            tasks,
        }
    }
}

/// Why a line is refused.
#[derive(Clone, Copy, Debug, PartialEq, Eq)]
pub enum ConfKind {
    /// The line is no text of UTF-8, stands before any section, or is no option.
    BadLine,
    /// The option, or a key of a cache, is unknown.
    UnknownOption,
    /// The value is not of its kind, or outside its limit.
    BadValue,
    /// A cache has no name, or no number of items.
    Missing,
    /// An earlier cache has the name.
    NameTwice,
    /// All regions so far take more bytes than the limit; or, of line 0, the text does.
    TooLarge { bytes: u64, limit: u64 },
    /// A rule is refused.
    Rule(RuleKind),
}

/// A refused line, counted from 1; line 0 stands for the whole text.
#[derive(Clone, Copy, Debug, PartialEq, Eq)]
pub struct ConfFault {
    pub line: u32,
    pub kind: ConfKind,
}

/// Why there is no configuration.
#[derive(Clone, Copy, Debug, PartialEq, Eq)]
pub enum ConfError {
    Refused(ConfFault),
    /// No memory was left.
    Memory,
}

impl From<Memory> for ConfError {
    ghost use Rattle.uw_conf.specs.declared.conf.ConfError.TheVariants as errors;

    ghost from_gives = { λ _ error. error ≡ errors.Memory };

    fn from(_: Memory) -> ConfError {
        ConfError::Memory
    }
}
