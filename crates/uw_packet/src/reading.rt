// Headers, blocks and bodies, as they come from a source.
ghost use Rattle.std.specs.Prelude.{◌≡◌};
ghost use Rattle.uw_outside.specs.Faults.{HasCause};
ghost use Rattle.uw_outside.specs.Streams.{inflow};
ghost use Rattle.uw_packet.specs.Packet.{header_bytes};
ghost use Rattle.uw_packet.specs.Reads.{ReadsBlock, ReadsHeader, ReadsPacket, SkipsBody, is_read_fault};

use crate::{Header, Packet, PacketFault};
use byteorder::{ByteOrder, LittleEndian};
use std::alloc::Global;
use uw_base::Bytes;
use uw_outside::{Filled, Source, fill};

/// How many bytes of a body are read at once.
const PIECE: usize = 4096;

// The header that four bytes are.
fn header_of(bytes: &[u8; 4]) -> Header
    ensures { header_bytes result ≡ bytes.now }
{
    Header {
        m1: bytes[0],
        size: LittleEndian::read_u16(&bytes[1..]),
        m2: bytes[3],
    }
}

/// Reads a header, four bytes. `None` where the source is at its end.
pub fn read_header<S: Source>(src: &mut S) -> Result<Option<Header>, PacketFault>
    ensures header { ReadsHeader (inflow S.left S.ended S.faults src.old src.new) result }
    ensures cause { HasCause (S.faults src.old) (S.faults src.new) (is_read_fault result) }
{
    let mut bytes = [0; 4];
    match fill(src, &mut bytes) {
        Filled::Whole => Ok(Some(header_of(&bytes))),
        Filled::Short(0) => Ok(None),
        Filled::Short(got) => Err(PacketFault::Truncated {
            got: got as u64,
            want: 4,
        }),
        Filled::Failed(_) => Err(PacketFault::ReadFault),
    }
}

/// Reads the block behind a header, just `size` bytes. The memory is taken before the first read.
pub fn read_block<S: Source>(alloc: Global, src: &mut S, size: u16) -> Result<Bytes, PacketFault>
    ensures block { ReadsBlock (inflow S.left S.ended S.faults src.old src.new) size result }
    ensures cause { HasCause (S.faults src.old) (S.faults src.new) (is_read_fault result) }
{
    let mut block = vec![in alloc; 0u8; usize::from(size)].map_err(|_| PacketFault::Memory)?;
    match fill(src, block.as_mut_slice()) {
        Filled::Whole => Ok(Bytes::from_vec(block)),
        Filled::Short(came) => Err(PacketFault::Truncated {
            got: came as u64,
            want: u64::from(size),
        }),
        Filled::Failed(_) => Err(PacketFault::ReadFault),
    }
}

// Takes so many bytes and drops them, piece by piece.
fn skip_pieces<S: Source>(src: &mut S, len: u64) -> Result<(), PacketFault>
    ensures body { SkipsBody (inflow S.left S.ended S.faults src.old src.new) len result }
    ensures cause { HasCause (S.faults src.old) (S.faults src.new) (is_read_fault result) }
{
    let mut piece = [0; PIECE];
    let mut skipped = 0;
    while skipped < len {
        let count = (len - skipped).min(PIECE as u64);
        match fill(src, &mut piece[..count as usize]) {
            Filled::Whole => skipped += count,
            Filled::Short(got) => {
                return Err(PacketFault::Truncated {
                    got: skipped + got as u64,
                    want: len,
                });
            }
            Filled::Failed(_) => return Err(PacketFault::ReadFault),
        }
    }
    Ok(())
}

/// Takes just `len` bytes, a body, and drops them.
pub fn skip_body<S: Source>(src: &mut S, len: u64) -> Result<(), PacketFault>
    ensures body { SkipsBody (inflow S.left S.ended S.faults src.old src.new) len result }
    ensures cause { HasCause (S.faults src.old) (S.faults src.new) (is_read_fault result) }
{
    // The room of a piece is cleared where it is entered, and most packets have no body.
    if len == 0 {
        return Ok(());
    }
    skip_pieces(src, len)
}

/// Reads a packet whose block has at most `limit` bytes. `None` where the source is at its end.
/// A larger block is refused before it is read.
pub fn read_packet<S: Source>(
    alloc: Global,
    src: &mut S,
    limit: u32,
) -> Result<Option<Packet>, PacketFault>
    ensures packet { ReadsPacket (inflow S.left S.ended S.faults src.old src.new) limit result }
    ensures cause { HasCause (S.faults src.old) (S.faults src.new) (is_read_fault result) }
{
    let Some(head) = read_header(src)? else {
        return Ok(None);
    };
    let size = u32::from(head.size);
    if size > limit {
        return Err(PacketFault::TooBig { size, limit });
    }
    let block = read_block(alloc, src, head.size)?;
    Ok(Some(Packet { head, block }))
}
