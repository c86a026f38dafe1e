// The replies to commands.
ghost use Rattle.std.specs.Prelude.{◌≡◌, ◌++◌, ◌∷◌, List, ℕ, codes, IfOk, OnErr, OnOk};
ghost use Rattle.std.specs.Fmt.{signed_decimal};
ghost use Rattle.uw_packet.specs.Blocks.{array_of};
ghost use Rattle.uw_cachecmd.specs.Replies.{reply_text, answer_text, value_text, refusal_reply, HasReply, in_twenty_digits, spool_text};

use crate::CmdFault;
use byteorder::{ByteOrder, LittleEndian};
use itoa::Buffer;
use std::alloc::Global;
use uw_base::{Bytes, Memory, put_signed};
use uw_model::{Answer, SpoolAnswer};

// The zeros in front of a number in 20 digits, which is the most that a number below 2^64 has.
const ZEROS: [u8; 20] = [b'0'; 20];

/// The bytes that answer a command: for modifier2 0 the value alone, else the answer's text.
pub fn cache_reply(alloc: Global, m2: u8, answer: &Answer) -> Result<Bytes, Memory>
    ensures { IfOk result (λ reply. reply ≡ reply_text m2 answer.now) }
{
    if m2 == 0 {
        value_alone(alloc, answer)
    } else {
        text(alloc, answer)
    }
}

/// The bytes that answer a refused command: none for modifier2 0. Faults without a reply are barred.
pub fn fault_reply(alloc: Global, m2: u8, fault: &CmdFault) -> Result<Bytes, Memory>
    requires { HasReply fault.now }
    ensures { IfOk result (λ reply. reply ≡ refusal_reply m2 fault.now) }
{
    if m2 == 0 {
        return Ok(Bytes::new(alloc));
    }
    match fault {
        CmdFault::UnknownCommand => Bytes::from_slice(alloc, b"unknown command"),
        CmdFault::UnknownCache => Bytes::from_slice(alloc, b"unknown cache"),
        CmdFault::BadNumber => Bytes::from_slice(alloc, b"bad number"),
        CmdFault::BadBlock { .. } | CmdFault::Memory => unreachable!(),
    }
}

fn value_alone(alloc: Global, answer: &Answer) -> Result<Bytes, Memory>
    ensures { IfOk result (λ reply. reply ≡ value_text answer.now) }
{
    match answer {
        Answer::Value(value) => Bytes::from_slice(alloc, value.as_slice()),
        _ => Ok(Bytes::new(alloc)),
    }
}

fn text(alloc: Global, answer: &Answer) -> Result<Bytes, Memory>
    ensures { IfOk result (λ reply. reply ≡ answer_text answer.now) }
{
    match answer {
        Answer::Value(value) => Bytes::joined(alloc, b"value\n", value.as_slice()),
        Answer::Missing => Bytes::from_slice(alloc, b"missing"),
        Answer::Done => Bytes::from_slice(alloc, b"ok"),
        Answer::Exists => Bytes::from_slice(alloc, b"exists"),
        Answer::Full => Bytes::from_slice(alloc, b"full"),
        Answer::KeyLength => Bytes::from_slice(alloc, b"key length"),
        Answer::TooLong => Bytes::from_slice(alloc, b"too long"),
        Answer::NotNumber => Bytes::from_slice(alloc, b"not a number"),
        Answer::Range => Bytes::from_slice(alloc, b"range"),
        Answer::ZeroDivisor => Bytes::from_slice(alloc, b"zero divisor"),
        Answer::Number(number) => number_text(alloc, *number),
        Answer::Flag(true) => Bytes::from_slice(alloc, b"yes"),
        Answer::Flag(false) => Bytes::from_slice(alloc, b"no"),
        Answer::Keys(keys) => keys_text(alloc, keys.as_slice()),
    }
}

fn number_text(alloc: Global, number: i64) -> Result<Bytes, Memory>
    ensures { IfOk result (λ reply. reply ≡ codes "number " ++ signed_decimal number) }
{
    let mut text = Bytes::from_slice(alloc, b"number ")?;
    put_signed(&mut text, number)?;
    Ok(text)
}

// Each key behind the lower two bytes of its length.
fn keys_text(alloc: Global, keys: &[Bytes]) -> Result<Bytes, Memory>
    ensures { IfOk result (λ reply. reply ≡ codes "keys\n" ++ array_of keys.now) }
{
    let mut reply = Bytes::from_slice(alloc, b"keys\n")?;
    for key in keys {
        let mut length = [0; 2];
        LittleEndian::write_u16(&mut length, (key.len() % 65536) as u16);
        reply.append(&length)?;
        reply.append(key.as_slice())?;
    }
    Ok(reply)
}

/// The bytes that answer a task that was to be put aside.
pub fn spool_reply(alloc: Global, answer: SpoolAnswer) -> Result<Bytes, Memory>
    ensures { IfOk result (λ reply. reply ≡ spool_text answer) }
{
    match answer {
        SpoolAnswer::Put { number } => {
            let mut reply = Bytes::from_slice(alloc, b"ok ")?;
            put_in_twenty_digits(&mut reply, number)?;
            Ok(reply)
        }
        SpoolAnswer::NoNumber => Bytes::from_slice(alloc, b"no number"),
        SpoolAnswer::Failed => Bytes::from_slice(alloc, b"failed"),
    }
}

/// Puts a number at the end in 20 digits, those in front zeros.
pub fn put_in_twenty_digits(out: &mut Bytes, number: u64) -> Result<(), Memory>
    ensures ok { OnOk result (out.new ≡ out.old ++ in_twenty_digits number) }
    ensures err { OnErr result (out.new ≡ out.old) }
{
    let mut buffer = Buffer::new();
    let digits = buffer.format(number).as_bytes();
    let mut text = ZEROS;
    text[ZEROS.len() - digits.len()..].copy_from_slice(digits);
    out.append(&text)
}
