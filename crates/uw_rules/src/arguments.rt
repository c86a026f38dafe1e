// What stands behind the `:` of a condition or an action, taken apart by its shape.
ghost use Rattle.std.specs.Prelude.{◌≡◌, ◌==◌, ◌&&◌, ◌||◌, if◌then◌else◌, is_some, map, Some, None, IfOk, option_and_then};
ghost use Rattle.std.specs.HashSet.{contains_by};
ghost use Rattle.std.specs.List.{after_first, list_any};
ghost use Rattle.std.specs.Option.{option_copied};
ghost use Rattle.std.specs.Str.{bytes_eq};
ghost use Rattle.uw_rules.specs.Arguments.{argument_pairs, first_half, has_key_twice, has_stray, is_pair_of, is_stray_pair, is_twice, second_half, text_of_key};
ghost use Rattle.uw_rules.specs.Grammar.{KeyRow};
ghost use Rattle.uw_rules.specs.GrammarSteps.{pairs_left, shape_seen, slot_seen};

use crate::grammar::{Shape, Slot};
use std::alloc::Global;
use std::collections::HashSet;
use uw_base::Memory;
use uw_base::texts::{cut, is};

// The text of a pair, where it is one of the key.
#[tactic(auto, unfolding(crate::specs::Arguments::is_pair_of))]
fn text_of_pair<'a>(pair: &'a [u8], key: &[u8]) -> Option<&'a [u8]>
    ensures { option_copied result
        ≡ (if is_pair_of key.now pair.now then Some (after_first (λ byte. byte == 61) pair.now) else None) }
{
    let (found, text) = cut(pair, b'=');
    let text = text?;
    if is(found, key) { Some(text) } else { None }
}

/// The text of a key: that of its first pair.
pub fn text_of_key<'a>(argument: Option<&'a [u8]>, key: &[u8]) -> Option<&'a [u8]>
    ensures { option_copied result ≡ text_of_key key.now (option_copied argument.entry) }
{
    let mut rest = argument;
    'pairs: while let Some(left) = rest {
        let (pair, more) = cut(left, b',');
        if let Some(text) = text_of_pair(pair, key) {
            return Some(text);
        }
        rest = more;
    }
    None
}

/// What stands before the first such byte.
#[tactic(auto, unfolding(crate::specs::Arguments::first_half))]
pub fn first_half(argument: Option<&[u8]>, at: u8) -> Option<&[u8]>
    ensures { option_copied result ≡ first_half at (option_copied argument.entry) }
{
    match argument {
        Some(argument) => Some(cut(argument, at).0),
        None => None,
    }
}

/// What stands behind the first such byte, if there is one.
#[tactic(auto, unfolding(crate::specs::Arguments::second_half))]
pub fn second_half(argument: Option<&[u8]>, at: u8) -> Option<&[u8]>
    ensures { option_copied result ≡ second_half at (option_copied argument.entry) }
{
    match argument {
        Some(argument) => cut(argument, at).1,
        None => None,
    }
}

// Whether one of the pairs is of the key.
fn has_pair(pairs: Option<&[u8]>, key: &[u8]) -> bool
    ensures { result ≡ list_any (is_pair_of key.now) (pairs_left pairs.entry) }
{
    let mut rest = pairs;
    'pairs: while let Some(left) = rest {
        let (pair, more) = cut(left, b',');
        if text_of_pair(pair, key).is_some() {
            return true;
        }
        rest = more;
    }
    false
}

// Whether two of the pairs are of the key.
fn is_twice(pairs: Option<&[u8]>, key: &[u8]) -> bool
    ensures { result ≡ is_twice key.now (pairs_left pairs.entry) }
{
    let mut rest = pairs;
    'pairs: while let Some(left) = rest {
        let (pair, more) = cut(left, b',');
        if text_of_pair(pair, key).is_some() {
            return has_pair(more, key);
        }
        rest = more;
    }
    false
}

// Whether the pair is of one of the keys.
fn is_of_any(pair: &[u8], slots: &[Slot]) -> bool
    ensures { result ≡ list_any (λ (row : KeyRow). is_pair_of row.key pair.now) (map slot_seen slots.now) }
{
    for slot in slots {
        if text_of_pair(pair, slot.key).is_some() {
            return true;
        }
    }
    false
}

// Whether one of the pairs is of no key.
fn has_stray_pair(pairs: Option<&[u8]>, slots: &[Slot]) -> bool
    ensures { result ≡ list_any (is_stray_pair (map slot_seen slots.now)) (pairs_left pairs.entry) }
{
    let mut rest = pairs;
    'pairs: while let Some(left) = rest {
        let (pair, more) = cut(left, b',');
        if !is_of_any(pair, slots) {
            return true;
        }
        rest = more;
    }
    false
}

// Whether two of the pairs are of one of the keys.
fn is_any_twice(pairs: Option<&[u8]>, slots: &[Slot]) -> bool
    ensures { result ≡ list_any (λ (row : KeyRow). is_twice row.key (pairs_left pairs.entry)) (map slot_seen slots.now) }
{
    for slot in slots {
        if is_twice(pairs, slot.key) {
            return true;
        }
    }
    false
}

// Whether a pair has a text, and its key was seen.
fn is_seen(seen: &HashSet<&[u8]>, key: &[u8], text: Option<&[u8]>) -> bool
    ensures { result ≡ (is_some text.entry && contains_by (λ k. bytes_eq key.now k.now) seen.now) }
{
    text.is_some() && seen.contains(key)
}

// Whether a key of the pairs stands twice. The keys are kept in a set, since a line may have many.
fn has_key_twice(alloc: Global, pairs: Option<&[u8]>) -> Result<bool, Memory>
    ensures { IfOk result (λ twice. twice ≡ has_key_twice (pairs_left pairs.entry)) }
{
    let mut seen: HashSet<&[u8]> = HashSet::new(alloc);
    let mut rest = pairs;
    'pairs: while let Some(left) = rest {
        let (pair, more) = cut(left, b',');
        let (key, text) = cut(pair, b'=');
        if is_seen(&seen, key, text) {
            return Ok(true);
        }
        seen.insert(key)?;
        rest = more;
    }
    Ok(false)
}

/// Whether something stands in the argument that has no place there, or there are no pairs where some must stand.
#[tactic(auto, using(crate::proofs::ArgumentLemmas::pairs_left_seen), unfolding(crate::specs::Arguments::has_stray))]
pub fn has_stray(alloc: Global, shape: Shape, argument: Option<&[u8]>) -> Result<bool, Memory>
    ensures { IfOk result (λ stray. stray ≡ has_stray (shape_seen shape) (option_copied argument.entry)) }
{
    match shape {
        Shape::Bare => Ok(argument.is_some()),
        Shape::Keyed(slots) => {
            Ok(has_stray_pair(argument, slots) || is_any_twice(argument, slots))
        }
        Shape::Free(_) => {
            if argument.is_none() {
                return Ok(true);
            }
            has_key_twice(alloc, argument)
        }
        Shape::Optional(_) | Shape::Whole(_) | Shape::Divided(_, _, _) => Ok(false),
    }
}
