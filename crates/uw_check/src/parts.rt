// Lines of a configuration and their parts, and texts that a report is put together from.
ghost use Rattle.std.specs.Prelude.{◌≡◌, ◌++◌, OnOk};
ghost use Rattle.uw_check.specs.Reports.{count_text, goes_on, shown, shown_byte, shown_part};

use uw_base::texts::{cut, trim_blanks};
use uw_base::{Bytes, Memory, put_decimal};

/// The most bytes that a report shows of one text.
const MOST_SHOWN: usize = 60;

/// An option and its value, without the blanks at their ends.
#[derive(Clone, Copy)]
pub struct Setting<'a> {
    pub name: &'a [u8],
    pub value: &'a [u8],
}

/// A line without the carriage return at its end.
pub fn without_return(line: &[u8]) -> &[u8] {
    match line {
        [front @ .., b'\r'] => front,
        _ => line,
    }
}

/// The line of a number, counted from 1; an empty one where there is none.
pub fn line_at(text: &[u8], number: u32) -> &[u8] {
    let mut ahead = number;
    for line in text.split(|byte| *byte == b'\n') {
        if ahead <= 1 {
            return without_return(line);
        }
        ahead -= 1;
    }
    &[]
}

/// The option of a line, if it has a `=`.
pub fn setting_of(line: &[u8]) -> Option<Setting<'_>> {
    let (name, value) = cut(line, b'=');
    match value {
        Some(value) => Some(Setting {
            name: trim_blanks(name),
            value: trim_blanks(value),
        }),
        None => None,
    }
}

/// The name of the section that a trimmed line begins, if it begins one.
pub fn section_of(line: &[u8]) -> Option<&[u8]> {
    line.strip_prefix(b"[")?.strip_suffix(b"]")
}

/// Whether a trimmed line is a comment, or empty.
pub fn says_nothing(line: &[u8]) -> bool {
    match line {
        [] | [b';' | b'#', ..] => true,
        _ => false,
    }
}

/// Whether a section begins above the line of a number.
pub fn has_section_above(text: &[u8], number: u32) -> bool {
    let mut ahead = number;
    for line in text.split(|byte| *byte == b'\n') {
        if ahead <= 1 {
            return false;
        }
        if section_of(trim_blanks(without_return(line))).is_some() {
            return true;
        }
        ahead -= 1;
    }
    false
}

/// The place at which a word stands first in a text.
pub fn place_in(text: &[u8], word: &[u8]) -> Option<usize> {
    for place in 0..text.len() {
        if text[place..].starts_with(word) {
            return Some(place);
        }
    }
    None
}

/// Whether a word stands in a text.
pub fn has(text: &[u8], word: &[u8]) -> bool {
    place_in(text, word).is_some()
}

/// Whether a text begins with one of the words.
pub fn begins_with_any(text: &[u8], words: &[&[u8]]) -> bool {
    for word in words {
        if text.starts_with(word) {
            return true;
        }
    }
    false
}

/// Puts texts at the end, one behind the other.
pub fn put(out: &mut Bytes, texts: &[&[u8]]) -> Result<(), Memory> {
    for text in texts {
        out.append(text)?;
    }
    Ok(())
}

/// Puts a number and what it counts: one of them, or another number.
pub fn put_count(out: &mut Bytes, count: u64, one: &[u8], more: &[u8]) -> Result<(), Memory>
    ensures { OnOk result (out.new ≡ out.old ++ count_text count one.now more.now) }
{
    put_decimal(out, count)?;
    out.append(b" ")?;
    out.append(if count == 1 { one } else { more })
}

/// Puts a text between backquotes: 60 bytes of it at most, up to the end of a character, and a `?` for each byte that
/// would move the cursor.
pub fn put_shown(out: &mut Bytes, text: &[u8]) -> Result<(), Memory>
    ensures { OnOk result (out.new ≡ out.old ++ shown text.now) }
{
    out.append(b"`")?;
    put_part(out, text)?;
    out.append(b"`")
}

// Puts as much of a text as is shown.
fn put_part(out: &mut Bytes, text: &[u8]) -> Result<(), Memory>
    ensures { OnOk result (out.new ≡ out.old ++ shown_part 60 text.now) }
{
    let mut ahead = MOST_SHOWN;
    for byte in text {
        if ahead == 0 && !goes_on(*byte) {
            return out.append(b"..");
        }
        out.push(shown_byte(*byte))?;
        ahead = ahead.saturating_sub(1);
    }
    Ok(())
}

// A byte as a report shows it.
fn shown_byte(byte: u8) -> u8
    ensures { result ≡ shown_byte byte }
{
    if byte < b' ' || byte == 0x7F {
        b'?'
    } else {
        byte
    }
}

// Whether a byte goes on with a character of UTF-8.
fn goes_on(byte: u8) -> bool
    ensures { result ≡ goes_on byte }
{
    byte > 0x7F && byte < 0xC0
}
