// Packets, and what may be wrong with one.
ghost use Rattle.std.specs.Prelude.{◌≡◌};
ghost use Rattle.uw_packet.specs.declared.packet.PacketFault.TheVariants as faults;

use uw_base::{Bytes, Memory};

/// The header of a packet, four bytes: modifier1, the block's size in two bytes, the lower first, and modifier2.
#[derive(Clone, Copy, Debug, PartialEq, Eq)]
pub struct Header {
    pub m1: u8,
    /// Bytes of the block.
    pub size: u16,
    pub m2: u8,
}

/// A packet: its header and its block.
#[derive(Drop)]
pub struct Packet {
    pub head: Header,
    pub block: Bytes,
}

/// Why no packet, block or body was read.
#[derive(Clone, Copy, Debug, PartialEq, Eq)]
pub enum PacketFault {
    /// The source ended after `got` of `want` bytes: of a header (4), of a block (its size) or of a body (its length).
    Truncated { got: u64, want: u64 },
    /// The header's size is above the limit. The block was not read.
    TooBig { size: u32, limit: u32 },
    /// The block is out of its grammar: `at` is the place where the first text that is not whole begins.
    BadBlock { at: u32 },
    /// A read failed.
    ReadFault,
    /// No memory was left.
    Memory,
}

impl From<Memory> for PacketFault {
    ghost from_gives = { λ _ fault. fault ≡ faults.Memory };

    fn from(_: Memory) -> PacketFault {
        PacketFault::Memory
    }
}
