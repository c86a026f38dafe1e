// Bytes as they stand in the words of an area, eight a word, the first lowest.
ghost use Rattle.std.specs.Prelude.{◌≡◌, ◌+◌, ◌*◌, ◌^◌, ◌<◌, ◌≤◌, List, ℕ, All, length, slice_index, slice_range, IfOk};
ghost use Rattle.std.specs.List.{splice};
ghost use Rattle.uw_model.specs.Layout.{head_words};
ghost use Rattle.uw_model.specs.AreaOps.{AreaState, number_at_place, width_bytes};
ghost use Rattle.uw_words.specs.Plans.{region};
ghost use Rattle.uw_words.specs.Parts.{seen, HasRoom, GrewAt};
ghost use Rattle.uw_words.specs.Texts.{HoldsText};
ghost use Rattle.uw_area.specs.AreaWords.{HoldsArea};
ghost use Rattle.uw_area.specs.AreaSteps.{IsRegion, IsWordAfter, touched_places};

use std::alloc::Global;
use uw_base::{Bytes, Memory};
use uw_model::{HEAD_WORDS, Width};
use uw_words::{Overlay, Ram, first_word};

// A byte of an area.
fn byte_at(size: u64, ram: &Ram, place: u64) -> u8
    requires region { IsRegion size ram.now }
    requires within { place < size }
    ensures { (area : AreaState) → HoldsArea (region ram.now) size area → result ≡ slice_index area.bytes place }
{
    ram.load(HEAD_WORDS + place / 8).to_le_bytes()[(place % 8) as usize]
}

// A number at a place that lies within the area.
pub(crate) fn number_at(size: u64, ram: &Ram, at: u64, width: Width) -> u64
    requires region { IsRegion size ram.now }
    requires within { at + width_bytes width ≤ size }
    ensures { (area : AreaState) → HoldsArea (region ram.now) size area → result ≡ number_at_place area at width }
{
    match width {
        Width::W8 => u64::from(byte_at(size, ram, at)),
        Width::W16 => u64::from(u16::from_le_bytes([
            byte_at(size, ram, at),
            byte_at(size, ram, at + 1),
        ])),
        Width::W32 => u64::from(u32::from_le_bytes([
            byte_at(size, ram, at),
            byte_at(size, ram, at + 1),
            byte_at(size, ram, at + 2),
            byte_at(size, ram, at + 3),
        ])),
        Width::W64 => u64::from_le_bytes([
            byte_at(size, ram, at),
            byte_at(size, ram, at + 1),
            byte_at(size, ram, at + 2),
            byte_at(size, ram, at + 3),
            byte_at(size, ram, at + 4),
            byte_at(size, ram, at + 5),
            byte_at(size, ram, at + 6),
            byte_at(size, ram, at + 7),
        ]),
    }
}

// A copy of the bytes of a slice that lies within the area.
pub(crate) fn bytes_at(
    alloc: Global,
    size: u64,
    ram: &Ram,
    at: u64,
    len: u64,
) -> Result<Bytes, Memory>
    requires region { IsRegion size ram.now }
    requires within { at + len ≤ size }
    ensures { IfOk result (λ bytes. (area : AreaState) → HoldsArea (region ram.now) size area
        → bytes ≡ slice_range area.bytes at (at + len)) }
{
    let first = at / 8;
    let skip = (at % 8) as usize;
    let mut bytes = Vec::with_capacity(alloc, len as usize + 7)?;
    for k in 0..(at + len).div_ceil(8) - first {
        let word = ram.load(HEAD_WORDS + first + k).to_le_bytes();
        let from = if k == 0 { skip } else { 0 };
        bytes.extend_from_slice(&word[from..])?;
    }
    bytes.truncate(len as usize);
    Ok(Bytes::from_vec(bytes))
}

// A byte of the area, with bytes in place of as many at a place.
fn byte_with(byte: u8, place: u64, at: u64, put: &[u8]) -> u8
    ensures { (bytes : List ℕ) → at + length put.now ≤ length bytes → byte ≡ slice_index bytes place
        → result ≡ slice_index (splice bytes at (at + length put.now) put.now) place }
{
    match place.checked_sub(at) {
        Some(k) if k < put.len() as u64 => put[k as usize],
        _ => byte,
    }
}

// The k-th word of an area's bytes, with bytes in place of as many at a place.
fn word_with(word: u64, k: u64, at: u64, put: &[u8]) -> u64
    requires word { 8 * k < 2 ^ 32 }
    requires put { at + length put.now < 2 ^ 32 }
    ensures { IsWordAfter word result at k put.now }
{
    let start = 8 * k;
    if at <= start && start + 8 <= at + put.len() as u64 {
        return first_word(&put[(start - at) as usize..]);
    }
    let old = word.to_le_bytes();
    u64::from_le_bytes([
        byte_with(old[0], start, at, put),
        byte_with(old[1], start + 1, at, put),
        byte_with(old[2], start + 2, at, put),
        byte_with(old[3], start + 3, at, put),
        byte_with(old[4], start + 4, at, put),
        byte_with(old[5], start + 5, at, put),
        byte_with(old[6], start + 6, at, put),
        byte_with(old[7], start + 7, at, put),
    ])
}

// Plans the words of an area's bytes, with bytes in place of as many at a place that lies within the area.
pub(crate) fn put_bytes(size: u64, ram: &Ram, over: &mut Overlay, at: u64, put: &[u8])
    requires region { IsRegion size ram.now }
    requires within { at + length put.now ≤ size }
    requires room { HasRoom over.old (touched_places at (at + length put.now)) }
    ensures grew { GrewAt (touched_places at (at + length put.now)) over.old over.new }
    ensures bytes { (bytes : List ℕ) → All (λ byte. byte < 256) bytes → at + length put.now ≤ length bytes
        → HoldsText (seen over.old ram.now) head_words bytes
        → HoldsText (seen over.new ram.now) head_words (splice bytes at (at + length put.now) put.now) }
{
    let first = at / 8;
    for n in 0..(at + put.len() as u64).div_ceil(8) - first {
        let k = first + n;
        let word = over.load(ram, HEAD_WORDS + k);
        over.put(HEAD_WORDS + k, word_with(word, k, at, put));
    }
}
