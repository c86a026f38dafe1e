// Parts, filled one behind the other.
ghost use Rattle.std.specs.Prelude.{◌≡◌, ◌+◌, ◌-◌, ◌<◌, ◌≤◌, ◌++◌, List, ℕ, Option, [], length, slice_index_or, codes, decimal, All, IfOk, MatchOption, OnErr, OnOk};
ghost use Rattle.std.specs.Bool.{OnFalse, OnTrue};
ghost use Rattle.std.specs.List.{flat_map};
ghost use Rattle.std.specs.Str.{bytes_eq};
ghost use Rattle.base64.specs.Engines.{standard};
ghost use Rattle.base64.specs.GeneralPurpose.{encode_of, encoded_size_of};
ghost use Rattle.uw_base.specs.Variables.{value_of};
ghost use Rattle.uw_subst.specs.FillSteps.{PutsAll, PutsWithin};
ghost use Rattle.uw_subst.specs.Dates.{date_at};
ghost use Rattle.uw_subst.specs.Parts.{IsSpan, IsPartOf, part_text, span_bytes};
ghost use Rattle.uw_subst.specs.Queries.{decoded, query_value};

use crate::dates::date_after;
use crate::parts::{Part, Span};
use base64::encoded_len;
use base64::engine::general_purpose::STANDARD;
use form_urlencoded::{decode, raw_pairs};
use std::alloc::Global;
use std::mem;
use uw_base::{Bytes, BytesList, Memory, Vars, put_decimal};

/// The most bytes of a filled text.
const MOST_FILLED: usize = 65_536;

/// What a template is filled from: its text, the variables, the captures of a match and the moment in seconds.
#[derive(Clone, Copy)]
pub struct Filling<'a> {
    pub text: &'a [u8],
    pub vars: &'a Vars,
    pub captures: &'a BytesList,
    pub moment: u64,
}

// Puts a text at the end, and answers the room that is left; none where the text is longer than the room.
// The calls below do the same with what they make.
fn put(out: &mut Bytes, room: usize, text: &[u8]) -> Result<Option<usize>, Memory>
    ensures { PutsWithin room out.old out.new text.now result }
{
    let Some(left) = room.checked_sub(text.len()) else {
        return Ok(None);
    };
    out.append(text)?;
    Ok(Some(left))
}

// Puts a number in decimal.
fn put_number(out: &mut Bytes, room: usize, number: u64) -> Result<Option<usize>, Memory>
    ensures { PutsWithin room out.old out.new (decimal number) result }
{
    let before = out.len();
    put_decimal(out, number)?;
    Ok(room.checked_sub(out.len() - before))
}

// Puts the date so many seconds after a moment.
fn put_date(
    out: &mut Bytes,
    room: usize,
    moment: u64,
    seconds: u64,
) -> Result<Option<usize>, Memory>
    ensures { PutsWithin room out.old out.new (date_at (moment + seconds)) result }
{
    match date_after(moment, seconds) {
        Some(date) => put(out, room, &date.to_bytes()),
        None => Ok(Some(room)),
    }
}

// A value in base64 at the end of bytes; its text has this size.
fn encode_behind(bytes: &mut Vec<u8>, value: &[u8], size: usize) -> Result<(), Memory>
    requires { size ≡ encoded_size_of standard (length value.now) }
    ensures ok { OnOk result (bytes.new.items ≡ bytes.old.items ++ encode_of standard value.now) }
    ensures err { OnErr result (bytes.new.items ≡ bytes.old.items) }
{
    let start = bytes.len();
    let end = start.checked_add(size).ok_or(Memory)?;
    bytes.resize(end, 0)?;
    // The slice has just the size, so this cannot fail.
    let _ = STANDARD.encode_slice(value, &mut bytes.as_mut_slice()[start..]);
    Ok(())
}

// Puts a value in base64.
#[tactic(auto, using(crate::proofs::FillLemmas::encoded_length))]
fn put_encoded(
    alloc: Global,
    out: &mut Bytes,
    room: usize,
    value: &[u8],
) -> Result<Option<usize>, Memory>
    ensures { PutsWithin room out.old out.new (encode_of standard value.now) result }
{
    let Some(size) = encoded_len(value.len(), true) else {
        return Ok(None);
    };
    let Some(left) = room.checked_sub(size) else {
        return Ok(None);
    };
    let mut bytes = mem::replace(out, Bytes::new(alloc)).into_vec();
    let encoded = encode_behind(&mut bytes, value, size);
    *out = Bytes::from_vec(bytes);
    encoded?;
    Ok(Some(left))
}

// Puts a value of a query string, decoded.
fn put_decoded(
    alloc: Global,
    out: &mut Bytes,
    room: usize,
    value: &[u8],
) -> Result<Option<usize>, Memory>
    ensures { PutsWithin room out.old out.new (decoded value.now) result }
{
    let text = decode(alloc, value)?;
    put(out, room, text.as_bytes())
}

// Whether an encoded name of a query string is the name.
fn is_name(alloc: Global, encoded: &[u8], name: &[u8]) -> Result<bool, Memory>
    ensures { IfOk result (λ is. is ≡ bytes_eq (decoded encoded.now) name.now) }
{
    let text = decode(alloc, encoded)?;
    Ok(text.as_bytes() == name)
}

// The encoded value of the first pair of a query string with the name; none where there is no such pair.
#[tactic(auto, unfolding(crate::specs::Queries::query_value))]
fn encoded_value<'a>(
    alloc: Global,
    query: &'a [u8],
    name: &[u8],
) -> Result<Option<&'a [u8]>, Memory>
    ensures { IfOk result (λ found. MatchOption found (query_value name.now query.now ≡ [])
        (λ value. query_value name.now query.now ≡ decoded value.now)) }
{
    for (encoded, value) in raw_pairs(query) {
        if is_name(alloc, encoded, name)? {
            return Ok(Some(value));
        }
    }
    Ok(None)
}

// Puts the value of a name in a query string, decoded.
fn put_query(
    alloc: Global,
    out: &mut Bytes,
    room: usize,
    query: &[u8],
    name: &[u8],
) -> Result<Option<usize>, Memory>
    ensures { PutsWithin room out.old out.new (query_value name.now query.now) result }
{
    match encoded_value(alloc, query, name)? {
        Some(value) => put_decoded(alloc, out, room, value),
        None => Ok(Some(room)),
    }
}

impl<'a> Filling<'a> {
    // The value of a variable, by its name in the template's text.
    fn value(&self, name: Span) -> &'a [u8]
        requires { IsSpan self.now.text.now name }
        ensures { result.now ≡ value_of self.now.vars.now (span_bytes self.now.text.now name) }
    {
        self.vars.get(name.of(self.text))
    }

    // The capture of a number, or the empty text where there is none.
    fn capture(&self, number: u8) -> &'a [u8]
        requires { 1 ≤ number }
        ensures { result.now ≡ slice_index_or self.now.captures.now (number - 1) [] }
    {
        match self.captures.as_slice().get(usize::from(number) - 1) {
            Some(text) => text.as_slice(),
            None => &[],
        }
    }
}

// Puts what is filled in for a part.
fn put_part(
    alloc: Global,
    out: &mut Bytes,
    room: usize,
    part: Part,
    from: &Filling<'_>,
) -> Result<Option<usize>, Memory>
    requires { IsPartOf from.now.text.now part }
    ensures { PutsWithin room out.old out.new (part_text from.now.text.now from.now.vars.now from.now.captures.now from.now.moment part) result }
{
    match part {
        Part::Constant(span) => put(out, room, span.of(from.text)),
        Part::Capture(number) => put(out, room, from.capture(number)),
        Part::Variable(name) => put(out, room, from.value(name)),
        Part::Query(name) => put_query(
            alloc,
            out,
            room,
            from.vars.get(b"QUERY_STRING"),
            name.of(from.text),
        ),
        Part::Time => put_number(out, room, from.moment),
        Part::Date(seconds) => put_date(out, room, from.moment, seconds),
        Part::Encoded(name) => put_encoded(alloc, out, room, from.value(name)),
    }
}

/// Puts what is filled in for the parts at the end, and answers true; false where that has more than
/// 65,536 bytes. Then, and without memory, some of it stands at the end.
pub fn put_parts(
    alloc: Global,
    out: &mut Bytes,
    parts: &[Part],
    from: &Filling<'_>,
) -> Result<bool, Memory>
    requires { All (IsPartOf from.now.text.now) parts.now }
    ensures { PutsAll out.old out.new (flat_map (part_text from.now.text.now from.now.vars.now from.now.captures.now from.now.moment) parts.now) result }
{
    let mut room = MOST_FILLED;
    for part in parts {
        match put_part(alloc, out, room, *part, from)? {
            Some(left) => room = left,
            None => return Ok(false),
        }
    }
    Ok(true)
}
