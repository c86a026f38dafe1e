// The text between the braces of a form.
ghost use Rattle.std.specs.Prelude.{◌≡◌, ◌==◌, ◌+◌, ◌-◌, ◌^◌, ◌<◌, ◌≤◌, ℕ, List, length, position, slice_index, slice_range, MatchOption};
ghost use Rattle.uw_subst.specs.Forms.{bad, form_of, bracket_form, named_form, date_seconds, variable_form};
ghost use Rattle.uw_subst.specs.Parts.{IsSpan, span_bytes};
ghost use Rattle.uw_subst.specs.PartSteps.{IsFormPart};

use crate::parts::{Part, Span};
use uw_base::read_decimal;
use uw_base::texts::is;

/// The place of the first such byte.
pub fn place_of(text: &[u8], byte: u8) -> Option<usize>
    ensures { result ≡ position (λ other. other == byte) text.now }
{
    text.iter().position(|other| *other == byte)
}

// The seconds of a date: no text is 0.
fn seconds_of(text: &[u8]) -> Option<u64>
    ensures { result ≡ date_seconds text.now }
{
    if text.is_empty() {
        return Some(0);
    }
    read_decimal(text)
}

// The part of a form by its name and its argument, whose bytes are a span of the template's text.
fn named_part(name: &[u8], argument: &[u8], span: Span) -> Option<Part>
    ensures { MatchOption result (named_form name.now argument.now ≡ bad)
        (λ part. (text : List ℕ) → IsSpan text span → span_bytes text span ≡ argument.now → IsFormPart text (named_form name.now argument.now) part) }
{
    if is(name, b"qs") {
        return Some(Part::Query(span));
    }
    if is(name, b"time") {
        return if is(argument, b"unix") {
            Some(Part::Time)
        } else {
            None
        };
    }
    if is(name, b"httptime") {
        return Some(Part::Date(seconds_of(argument)?));
    }
    if is(name, b"base64") {
        return Some(Part::Encoded(span));
    }
    None
}

// The part of a form with a `[` at a place: a name before it, and behind it an argument and a `]`.
fn bracket_part(text: &[u8], from: usize, bracket: usize, to: usize) -> Option<Part>
    requires name { from ≤ bracket }
    requires bracket { bracket < to }
    requires inside { to ≤ length text.now }
    requires fits { length text.now < 2 ^ 32 }
    ensures { MatchOption result
        (bracket_form (slice_range text.now from bracket) (slice_range text.now (bracket + 1) to) ≡ bad)
        (IsFormPart text.now (bracket_form (slice_range text.now from bracket) (slice_range text.now (bracket + 1) to))) }
{
    if bracket + 1 == to || text[to - 1] != b']' {
        return None;
    }
    let span = Span::between(bracket + 1, to - 1);
    named_part(&text[from..bracket], &text[bracket + 1..to - 1], span)
}

// The part of a form that names a variable.
fn variable_part(text: &[u8], from: usize, to: usize) -> Option<Part>
    requires order { from ≤ to }
    requires inside { to ≤ length text.now }
    requires fits { length text.now < 2 ^ 32 }
    ensures { MatchOption result (variable_form (slice_range text.now from to) ≡ bad)
        (IsFormPart text.now (variable_form (slice_range text.now from to))) }
{
    if from == to || place_of(&text[from..to], b']').is_some() {
        return None;
    }
    Some(Part::Variable(Span::between(from, to)))
}

/// The part of the form whose text between the braces stands from one place up to another; none where it is bad.
pub fn form_part(text: &[u8], from: usize, to: usize) -> Option<Part>
    requires order { from ≤ to }
    requires inside { to ≤ length text.now }
    requires fits { length text.now < 2 ^ 32 }
    ensures { MatchOption result (form_of (slice_range text.now from to) ≡ bad)
        (IsFormPart text.now (form_of (slice_range text.now from to))) }
{
    match place_of(&text[from..to], b'[') {
        Some(place) => bracket_part(text, from, from + place, to),
        None => variable_part(text, from, to),
    }
}
