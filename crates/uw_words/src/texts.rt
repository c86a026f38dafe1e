// Texts as words.
ghost use Rattle.std.specs.Prelude.{◌≡◌, ◌+◌, ◌≤◌, ◌^◌, ◌<◌, ℕ, List, length, slice_index, IfOk};
ghost use Rattle.std.specs.Int.{from_le_bytes, w64};
ghost use Rattle.uw_words.specs.Plans.{region};
ghost use Rattle.uw_words.specs.Parts.{seen, HasRoom, GrewAt};
ghost use Rattle.uw_words.specs.Texts.{HoldsText, text_words, places_of_text, text_at};

use crate::overlay::Overlay;
use crate::ram::Ram;
use std::alloc::Global;
use uw_base::{Bytes, Memory};

// A byte of a text, 0 past its end.
fn byte_at(text: &[u8], k: usize) -> u8
    ensures { result ≡ slice_index text.now k }
{
    if k < text.len() { text[k] } else { 0 }
}

/// The first eight bytes of a text as a word, the first lowest, and 0 for those past its end. Takes no memory.
pub fn first_word(text: &[u8]) -> u64
    ensures { result ≡ from_le_bytes w64 text.now }
{
    if text.len() < 8 {
        return u64::from_le_bytes([
            byte_at(text, 0),
            byte_at(text, 1),
            byte_at(text, 2),
            byte_at(text, 3),
            byte_at(text, 4),
            byte_at(text, 5),
            byte_at(text, 6),
            0,
        ]);
    }
    u64::from_le_bytes([
        text[0], text[1], text[2], text[3], text[4], text[5], text[6], text[7],
    ])
}

/// Plans the words of a text from a place on, with 0 behind its last byte. Takes no memory.
pub fn put_text(over: &mut Overlay, at: u64, text: &[u8])
    requires within { at + text_words (length text.now) < 2 ^ 63 }
    requires room { HasRoom over.old (places_of_text at (length text.now)) }
    ensures text { (words : List ℕ) → HoldsText (seen over.new words) at text.now }
    ensures grew { GrewAt (places_of_text at (length text.now)) over.old over.new }
{
    for k in 0..text.len().div_ceil(8) {
        over.put(at + k as u64, first_word(&text[8 * k..]));
    }
}

/// A copy of so many bytes from a place of the region on, with nothing planned.
pub fn text_at(alloc: Global, ram: &Ram, at: u64, bytes: u64) -> Result<Bytes, Memory>
    requires { at + text_words bytes ≤ length ram.now }
    ensures { IfOk result (λ text. text ≡ text_at (region ram.now) at bytes) }
{
    prove!(at <= ram.len());
    let len = bytes as usize;
    let mut text = Vec::with_capacity(alloc, len.saturating_add(7))?;
    for k in 0..bytes.div_ceil(8) {
        text.extend_from_slice(&ram.load(at + k).to_le_bytes())?;
    }
    text.truncate(len);
    Ok(Bytes::from_vec(text))
}
