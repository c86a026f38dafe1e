// What serving a request answers.
ghost use Rattle.std.specs.Prelude.{◌≡◌};
ghost use Rattle.uw_session.specs.Serving.{fault_of_refusal};

use uw_base::Bytes;
use uw_model::AskList;
use uw_packet::Packet;

/// How a reply is written.
#[derive(Clone, Copy, Debug, PartialEq, Eq)]
pub enum Form {
    /// Its bytes alone.
    Raw,
    /// Its length modulo 2^32 in four bytes, the lowest first, and its bytes.
    Framed,
}

/// Why a packet is refused.
#[derive(Clone, Copy, Debug, PartialEq, Eq)]
pub enum Refusal {
    /// Its block is larger than the limit. The block was not read.
    TooBig { size: u32, limit: u32 },
    /// Its modifiers are not served. The block was not read.
    NoModifier { m1: u8, m2: u8 },
    /// Its block is out of its grammar: `at` is the place where the first text that isn't whole begins.
    BadBlock { at: u32 },
    /// The length of its body cannot be read, or is above 2^30. The body was not read.
    BadLength,
}

/// A request that was served.
#[derive(Drop)]
pub struct Served {
    pub packet: Packet,
    /// The moment in seconds at which the packet was taken up.
    pub moment: u64,
    pub asks: AskList,
    pub reply: Bytes,
}

/// Why a request was not served. Nothing was written but by `WriteFault`, and nothing was asked but what `done` has.
#[derive(Drop)]
pub enum ServeFault {
    /// The source was at its end.
    Nothing,
    /// The source ended after `got` of the `want` bytes of a header, a block or a body.
    Truncated { got: u64, want: u64 },
    TooBig { size: u32, limit: u32 },
    NoModifier { m1: u8, m2: u8 },
    BadBlock { at: u32 },
    BadLength,
    /// A read failed.
    ReadFault,
    /// The worker died in an ask, which counts where it is whole, behind those that were answered.
    Died { whole: bool, done: AskList },
    /// A write failed, behind the front of the reply that was taken.
    WriteFault { done: AskList },
    /// No memory was left, behind the asks that were answered.
    Memory { done: AskList },
}

impl From<Refusal> for ServeFault {
    ghost from_gives = { λ refusal fault. fault ≡ fault_of_refusal refusal };

    fn from(refusal: Refusal) -> ServeFault {
        match refusal {
            Refusal::TooBig { size, limit } => ServeFault::TooBig { size, limit },
            Refusal::NoModifier { m1, m2 } => ServeFault::NoModifier { m1, m2 },
            Refusal::BadBlock { at } => ServeFault::BadBlock { at },
            Refusal::BadLength => ServeFault::BadLength,
        }
    }
}
