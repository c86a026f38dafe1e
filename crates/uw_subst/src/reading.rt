// A template's text, cut into parts from left to right.
ghost use Rattle.std.specs.Prelude.{◌≡◌, ◌+◌, ◌-◌, ◌^◌, ◌<◌, ◌≤◌, ◌∷◌, ◌++◌, Some, is_none, length, take, drop, map, [], IfOk, IfErr, OnOk, OnErr};
ghost use Rattle.std.specs.Bool.{OnTrue};
ghost use Rattle.uw_subst.specs.Answers.{IsFaultOf};
ghost use Rattle.uw_subst.specs.Parts.{AreParts};
ghost use Rattle.uw_subst.specs.PartSteps.{IsNextPart};
ghost use Rattle.uw_subst.specs.StartSteps.{StartsWith};
ghost use Rattle.uw_subst.specs.Templates.{plain, fault_of, first_bad, pieces_of};
ghost use Rattle.uw_subst.specs.declared.template.SubstFault.TheVariants as faults;

use crate::SubstFault;
use crate::forms::{form_part, place_of};
use crate::parts::{Part, Span};
use std::alloc::Global;
use uw_base::Memory;

/// What a text begins with at a place.
#[derive(Clone, Copy)]
pub enum Start {
    /// A byte that stands for itself.
    Plain,
    /// A capture of this number.
    Capture(u8),
    /// A `${`.
    Form,
}

// What the text begins with at a place.
fn start_at(text: &[u8], at: usize) -> Start
    requires { at < length text.now }
    ensures { StartsWith (drop at text.now) result }
{
    if text[at] != b'$' || at + 1 == text.len() {
        return Start::Plain;
    }
    match text[at + 1] {
        b'{' => Start::Form,
        digit if b'1' <= digit && digit <= b'9' => Start::Capture(digit - b'0'),
        _ => Start::Plain,
    }
}

// Whether the byte at a place stands for itself.
fn is_plain_at(text: &[u8], at: usize) -> bool
    requires { at < length text.now }
    ensures { OnTrue result (StartsWith (drop at text.now) Start.Plain) }
{
    matches!(start_at(text, at), Start::Plain)
}

// The place up to which the bytes from a place on stand for themselves.
fn constant_end(text: &[u8], at: usize) -> usize
    requires { at ≤ length text.now }
    ensures later { at ≤ result }
    ensures inside { result ≤ length text.now }
    ensures constant { pieces_of (drop at text.now) ≡ map plain (take (result - at) (drop at text.now)) ++ pieces_of (drop result text.now) }
{
    for place in at..text.len() {
        if !is_plain_at(text, place) {
            return place;
        }
    }
    text.len()
}

// The part of the form at a `${`, and the place behind its `}`.
fn form_at(text: &[u8], at: usize) -> Result<(Part, usize), SubstFault>
    requires form { StartsWith (drop at text.now) Start.Form }
    requires inside { at + 2 ≤ length text.now }
    requires fits { length text.now < 2 ^ 32 }
    ensures part { IfOk result (λ part. IsNextPart text.now at part.0 part.1) }
    ensures fault { IfErr result (λ fault. fault ≡ faults.BadTemplate at) }
    ensures bad { IfErr result (λ fault. first_bad at (pieces_of (drop at text.now)) ≡ Some at) }
{
    let fault = SubstFault::BadTemplate { at: at as u32 };
    let from = at + 2;
    let Some(len) = place_of(&text[from..], b'}') else {
        return Err(fault);
    };
    match form_part(text, from, from + len) {
        Some(part) => Ok((part, from + len + 1)),
        None => Err(fault),
    }
}

// The part at a place, and the place behind it.
fn part_at(text: &[u8], at: usize) -> Result<(Part, usize), SubstFault>
    requires inside { at < length text.now }
    requires fits { length text.now < 2 ^ 32 }
    ensures part { IfOk result (λ part. IsNextPart text.now at part.0 part.1) }
    ensures fault { IfErr result (λ fault. fault ≡ faults.BadTemplate at) }
    ensures bad { IfErr result (λ fault. first_bad at (pieces_of (drop at text.now)) ≡ Some at) }
{
    match start_at(text, at) {
        Start::Plain => {
            let end = constant_end(text, at + 1);
            Ok((Part::Constant(Span::between(at, end)), end))
        }
        Start::Capture(number) => Ok((Part::Capture(number), at + 2)),
        Start::Form => form_at(text, at),
    }
}

/// Whether a text is a template: it has no bad form. Takes no memory.
pub fn is_template(text: &[u8]) -> bool
    requires { length text.now < 2 ^ 32 }
    ensures { result ≡ is_none (fault_of text.now) }
{
    let mut at = 0;
    while at < text.len() {
        let Ok((_, end)) = part_at(text, at) else {
            return false;
        };
        at = end;
    }
    true
}

// Puts one part at the end.
fn push(parts: &mut Vec<Part>, part: Part) -> Result<(), Memory>
    ensures ok { OnOk result (parts.new.items ≡ parts.old.items ++ part ∷ []) }
    ensures err { OnErr result (parts.new.items ≡ parts.old.items) }
{
    parts.push(part)?;
    Ok(())
}

/// The parts of a template's text, or its first fault.
pub fn parts_of(alloc: Global, text: &[u8]) -> Result<Vec<Part>, SubstFault>
    requires { length text.now < 2 ^ 32 }
    ensures parts { IfOk result (λ parts. AreParts text.now parts.items) }
    ensures fault { IfErr result (IsFaultOf text.now) }
{
    let mut parts = Vec::new(alloc);
    let mut at = 0;
    while at < text.len() {
        let (part, end) = part_at(text, at)?;
        push(&mut parts, part)?;
        at = end;
    }
    Ok(parts)
}
