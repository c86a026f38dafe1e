// Array blocks and vars blocks.
ghost use Rattle.std.specs.Prelude.{◌≡◌, ◌+◌, ◌-◌, ◌^◌, ◌<◌, ◌≤◌, ◌++◌, Some, None, length, IfOk, IfErr, MatchOption};
ghost use Rattle.std.specs.Bool.{OnFalse, OnTrue};
ghost use Rattle.uw_packet.specs.BlockReads.{ReadsFrom, vars_block};
ghost use Rattle.uw_packet.specs.BlockSteps.{first_text};
ghost use Rattle.uw_packet.specs.Blocks.{array_read, sized, vars_read};

use crate::PacketFault;
use byteorder::{ByteOrder, LittleEndian};
use std::alloc::Global;
use uw_base::{Bytes, BytesList, Memory, Vars};

/// The most bytes that a text or a block has.
const LONGEST: usize = 65535;

// The first sized text of the bytes and what is behind it, or none where it isn't whole.
fn split_text(bytes: &[u8]) -> Option<(&[u8], &[u8])>
    ensures { MatchOption result (first_text bytes.now ≡ None) (λ parts. first_text bytes.now ≡ Some (parts.0.now, parts.1.now)) }
{
    let (size, behind) = bytes.split_at_checked(2)?;
    behind.split_at_checked(usize::from(LittleEndian::read_u16(size)))
}

// The same for what is left of a block. A text that isn't whole is the block's fault.
fn next_text<'a>(block: &[u8], rest: &'a [u8]) -> Result<(&'a [u8], &'a [u8]), PacketFault>
    requires within { length rest.now ≤ length block.now }
    requires fits { length block.now < 2 ^ 32 }
    ensures whole { IfOk result (λ parts. first_text rest.now ≡ Some (parts.0.now, parts.1.now)) }
    ensures broken { IfErr result (λ fault. first_text rest.now ≡ None) }
    ensures place { IfErr result (λ fault. fault ≡ PacketFault.BadBlock (length block.now - length rest.now)) }
{
    split_text(rest).ok_or(PacketFault::BadBlock {
        at: (block.len() - rest.len()) as u32,
    })
}

/// Reads an array block. `BadBlock` where it isn't one, with the place where the first text that
/// isn't whole begins.
pub fn read_array(alloc: Global, block: &[u8]) -> Result<BytesList, PacketFault>
    requires { length block.now < 2 ^ 32 }
    ensures { ReadsFrom (array_read block.now) result }
{
    let mut texts = BytesList::new(alloc);
    let mut rest = block;
    while !rest.is_empty() {
        let (text, behind) = next_text(block, rest)?;
        texts.push(Bytes::from_slice(alloc, text)?)?;
        rest = behind;
    }
    Ok(texts)
}

/// Reads a vars block: an array block of keys and values in turn. `BadBlock` where it isn't one,
/// with the place where the first text that isn't whole begins; the block's end where a value is missing.
pub fn read_vars(alloc: Global, block: &[u8]) -> Result<Vars, PacketFault>
    requires { length block.now < 2 ^ 32 }
    ensures { ReadsFrom (vars_read block.now) result }
{
    // A web server's variables have some 35 bytes each.
    let mut vars = Vars::with_room(alloc, block.len() / 32 + 8, block.len())?;
    let mut rest = block;
    while !rest.is_empty() {
        let (key, behind_key) = next_text(block, rest)?;
        let (value, behind) = next_text(block, behind_key)?;
        vars.set(key, value)?;
        rest = behind;
    }
    Ok(vars)
}

// Puts a sized text at the end of a block, unless the block would be too long.
fn put_text(block: &mut Bytes, text: &[u8]) -> Result<bool, Memory>
    requires { length block.old < 65536 }
    ensures whole { IfOk result (λ fits. OnTrue fits (block.new ≡ block.old ++ sized text.now)) }
    ensures short { IfOk result (λ fits. OnTrue fits (length block.new < 65536)) }
    ensures full { IfOk result (λ fits. OnFalse fits (65536 ≤ length block.old + length (sized text.now))) }
{
    if block.len() + 2 + text.len() > LONGEST {
        return Ok(false);
    }
    let mut size = [0; 2];
    LittleEndian::write_u16(&mut size, text.len() as u16);
    block.append(&size)?;
    block.append(text)?;
    Ok(true)
}

/// The vars block of the variables: the array of their keys and values in turn. `None` exactly
/// where a key, a value or the block would be longer than 65,535 bytes.
pub fn write_vars(alloc: Global, vars: &Vars) -> Result<Option<Bytes>, Memory>
    ensures { IfOk result (λ block. block ≡ vars_block vars.now) }
{
    let mut block = Bytes::new(alloc);
    for place in 0..vars.len() {
        let (key, value) = vars.pair(place);
        if !put_text(&mut block, key)? {
            return Ok(None);
        }
        if !put_text(&mut block, value)? {
            return Ok(None);
        }
    }
    Ok(Some(block))
}
