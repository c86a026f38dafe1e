// The bytes of a reply.
ghost use Rattle.std.specs.Prelude.{◌≡◌, ◌++◌, codes, IfOk, OnOk};
ghost use Rattle.std.specs.List.{flat_map};
ghost use Rattle.uw_reply.specs.ReplyBytes.{ended_line, has_body, head_of_reply, is_break, length_line, reply_text_of, rest_of_reply, without_breaks};

use std::alloc::Global;
use uw_base::{Bytes, BytesList, Memory, put_decimal};

/// Room for what a reply has beside its texts and their ends: `HTTP/1.1 `, the length line, the empty line.
const FRAME: usize = 64;

/// The reply to a request: its status, its header lines without their ends in the order in which they
/// were added, and its body. A closed reply has no bytes.
#[derive(Drop)]
pub struct Reply {
    pub status: Bytes,
    pub headers: BytesList,
    pub body: Bytes,
    pub closed: bool,
}

/// The bytes of a reply, without the body where only the head is asked for. Statuses and header lines
/// lose their bytes 0, 10 and 13; a status that is then written with `1`, `204` or `304` in front has
/// neither a length line nor a body.
pub fn reply_bytes(alloc: Global, reply: &Reply, head_only: bool) -> Result<Bytes, Memory>
    ensures { IfOk result (λ bytes. bytes ≡ reply_text_of reply.now head_only) }
{
    if reply.closed {
        return Ok(Bytes::new(alloc));
    }
    let mut out = Bytes::from_vec(Vec::with_capacity(alloc, room_for(reply, head_only))?);
    let with_body = put_status(&mut out, reply.status.as_slice())?;
    put_headers(&mut out, reply.headers.as_slice())?;
    put_rest(&mut out, with_body, reply.body.as_slice(), head_only)?;
    Ok(out)
}

// Room for all of a reply, so that its bytes are moved once.
fn room_for(reply: &Reply, head_only: bool) -> usize {
    let mut room = FRAME.saturating_add(reply.status.len());
    if !head_only {
        room = room.saturating_add(reply.body.len());
    }
    for header in reply.headers.as_slice() {
        room = room.saturating_add(header.len()).saturating_add(2);
    }
    room
}

// Puts the line of the status, and tells whether a reply with this status has a body.
fn put_status(out: &mut Bytes, status: &[u8]) -> Result<bool, Memory>
    ensures text { OnOk result (out.new ≡ out.old ++ codes "HTTP/1.1 " ++ ended_line status.now) }
    ensures body { IfOk result (λ with_body. with_body ≡ has_body (without_breaks status.now)) }
{
    out.append(b"HTTP/1.1 ")?;
    let start = out.len();
    put_clean(out, status)?;
    let with_body = has_body(&out.as_slice()[start..]);
    out.append(b"\r\n")?;
    Ok(with_body)
}

// Puts each header line and its end.
fn put_headers(out: &mut Bytes, headers: &[Bytes]) -> Result<(), Memory>
    ensures { OnOk result (out.new ≡ out.old ++ flat_map ended_line headers.now) }
{
    for header in headers {
        put_line(out, header.as_slice())?;
    }
    Ok(())
}

// Puts what follows the header lines.
fn put_rest(out: &mut Bytes, with_body: bool, body: &[u8], head_only: bool) -> Result<(), Memory>
    ensures { OnOk result (out.new ≡ out.old ++ rest_of_reply with_body body.now head_only) }
{
    if !with_body {
        return out.append(b"\r\n");
    }
    put_length(out, body)?;
    out.append(b"\r\n")?;
    if head_only {
        return Ok(());
    }
    out.append(body)
}

// Puts the line that tells the length of a body.
fn put_length(out: &mut Bytes, body: &[u8]) -> Result<(), Memory>
    ensures { OnOk result (out.new ≡ out.old ++ length_line body.now) }
{
    out.append(b"Content-Length: ")?;
    put_decimal(out, body.len() as u64)?;
    out.append(b"\r\n")
}

// Puts a line as it is written out, and its end.
fn put_line(out: &mut Bytes, line: &[u8]) -> Result<(), Memory>
    ensures { OnOk result (out.new ≡ out.old ++ ended_line line.now) }
{
    put_clean(out, line)?;
    out.append(b"\r\n")
}

// Puts a text without the bytes that could break out of a line.
fn put_clean(out: &mut Bytes, text: &[u8]) -> Result<(), Memory>
    ensures { OnOk result (out.new ≡ out.old ++ without_breaks text.now) }
{
    for byte in text {
        if !is_break(*byte) {
            out.push(*byte)?;
        }
    }
    Ok(())
}

// A byte that no status and no header line may bring into a reply.
fn is_break(byte: u8) -> bool
    ensures { result ≡ is_break byte }
{
    byte == 0 || byte == b'\n' || byte == b'\r'
}

// Whether a reply whose status is written out so has a body.
fn has_body(status: &[u8]) -> bool
    ensures { result ≡ has_body status.now }
{
    !(status.starts_with(b"1") || status.starts_with(b"204") || status.starts_with(b"304"))
}
