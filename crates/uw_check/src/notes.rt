// Notes: lines that are taken, and mean something else to uWSGI, which says nothing of it either.
use crate::keys::value_of_key;
use crate::parts::{Setting, has, put, says_nothing, section_of, setting_of, without_return};
use crate::written::{argument_of, is_rule, phrase_name, rule_of};
use uw_base::texts::{is, is_any, trim_blanks};
use uw_base::{Bytes, Memory, put_decimal};

const PLACEHOLDER: &[u8] = b"a placeholder stays as it stands: uWSGI puts a text in its place";

const COMMENT: &[u8] =
    b"what stands behind a `;` or a `#` further on in a line belongs to the value, for \
    uWSGI too";

const ITEMS: &[u8] = b"the cache keeps as many items as it says: uWSGI keeps one less";

const FLAG: &[u8] = b"a flag of `0` or `false` is off: uWSGI takes `bitmap` and `purge_lru` as on, \
    whatever they say";

const BLOCKS: &[u8] =
    b"`blocks` counts with `bitmap=1` alone, and there are as many blocks as items: \
    uWSGI counts it";

const PACKETS: &[u8] = b"no rule is run for packets that ask caches: uWSGI runs the rules for them";

const REWRITE: &[u8] = b"`rewrite` drops the old query: uWSGI joins it with `&`";

const AMOUNT: &[u8] = b"without `amount` the number is 1: uWSGI takes 2";

const CACHESET: &[u8] =
    b"`cacheset` of a key that is there sets nothing, and the rules go on: uWSGI ends \
    the request";

const BREAK: &[u8] =
    b"`break:` answers with a status that has no text: uWSGI closes, for which write \
    `break`";

const STATUS: &[u8] = b"`break:` writes the status as it stands: add the words, as in `break:403 \
    Forbidden`";

const WHOLE_MATCH: &[u8] = b"`$0` is two bytes: uWSGI puts the whole match in their place";

const DECODED: &[u8] = b"`${qs[..]}` is decoded: uWSGI puts it as it was sent";

const CHARACTERS: &[u8] =
    b"`.`, `\\w` and their like take whole characters, also beyond ASCII: uWSGI \
    takes bytes";

/// Where notes go: the text, and the path of the file that they are about.
#[derive(Drop)]
struct Notes<'a> {
    out: &'a mut Bytes,
    path: &'a [u8],
    /// Whether the note on characters beyond ASCII, which fits most patterns, was told.
    has_told_of_characters: bool,
    /// The same of the note on packets that ask caches.
    has_told_of_packets: bool,
}

impl Notes<'_> {
    // One note.
    fn tell(&mut self, number: u64, note: &[u8]) -> Result<(), Memory> {
        put(self.out, &[self.path, b":"])?;
        put_decimal(self.out, number)?;
        put(self.out, &[b": note: ", note, b"\n"])
    }

    // Notes on what any value may hold.
    fn tell_of_value(&mut self, number: u64, value: &[u8]) -> Result<(), Memory> {
        if has_placeholder(value) {
            self.tell(number, PLACEHOLDER)?;
        }
        if has(value, b" ;") || has(value, b" #") {
            self.tell(number, COMMENT)?;
        }
        Ok(())
    }

    // Notes on a cache.
    fn tell_of_cache(&mut self, number: u64, value: &[u8]) -> Result<(), Memory> {
        self.tell(number, ITEMS)?;
        let bitmap = value_of_key(value, b"bitmap");
        for key in [b"bitmap".as_slice(), b"purge_lru".as_slice()] {
            let flag = value_of_key(value, key).unwrap_or(b"1");
            if is_any(flag, &[b"0", b"false"]) {
                self.tell(number, FLAG)?;
            }
        }
        let is_mapped = is_any(bitmap.unwrap_or(b"0"), &[b"1", b"true"]);
        if value_of_key(value, b"blocks").is_some() && !is_mapped {
            self.tell(number, BLOCKS)?;
        }
        if !self.has_told_of_packets {
            self.has_told_of_packets = true;
            self.tell(number, PACKETS)?;
        }
        Ok(())
    }

    // Notes on the action of a rule.
    fn tell_of_action(&mut self, number: u64, action: &[u8]) -> Result<(), Memory> {
        if has(argument_of(action, b"rewrite").unwrap_or(b""), b"?") {
            self.tell(number, REWRITE)?;
        }
        if is_any(phrase_name(action), &[b"cachemul", b"cachediv"]) && !has(action, b"amount=") {
            self.tell(number, AMOUNT)?;
        }
        if is(phrase_name(action), b"cacheset") {
            self.tell(number, CACHESET)?;
        }
        match argument_of(action, b"break") {
            Some(b"") => self.tell(number, BREAK),
            Some(status) if !has(status, b" ") => { self.tell(number, STATUS) }
            _ => Ok(()),
        }
    }

    // Notes on the texts of a rule.
    fn tell_of_rule(&mut self, number: u64, setting: Setting<'_>) -> Result<(), Memory> {
        if has(setting.value, b"$0") {
            self.tell(number, WHOLE_MATCH)?;
        }
        if has(setting.value, b"${qs[") {
            self.tell(number, DECODED)?;
        }
        let rule = rule_of(setting.name, setting.value);
        if !self.has_told_of_characters && takes_characters(rule.pattern.unwrap_or(b"")) {
            self.has_told_of_characters = true;
            self.tell(number, CHARACTERS)?;
        }
        match rule.action {
            Some(action) => self.tell_of_action(number, action),
            None => Ok(()),
        }
    }

    // Notes on one option of the section.
    fn tell_of_setting(&mut self, number: u64, setting: Setting<'_>) -> Result<(), Memory> {
        self.tell_of_value(number, setting.value)?;
        if is(setting.name, b"cache2") {
            return self.tell_of_cache(number, setting.value);
        }
        if is_rule(setting.name) {
            return self.tell_of_rule(number, setting);
        }
        Ok(())
    }
}

// Whether a value has what uWSGI takes for a placeholder.
fn has_placeholder(value: &[u8]) -> bool {
    if has(value, b"$(") {
        return true;
    }
    for pair in value.windows(2) {
        if let [b'%', next] = pair {
            if next.is_ascii_alphanumeric() || is_any(&[*next], &[b"%", b"(", b"["]) {
                return true;
            }
        }
    }
    false
}

// Whether a pattern has a part that takes characters beyond ASCII.
fn takes_characters(pattern: &[u8]) -> bool {
    has(pattern, b"\\w") || has(pattern, b"\\d") || has(pattern, b"\\b") || has_dot(pattern)
}

// Whether a pattern has a dot that stands for any character.
fn has_dot(pattern: &[u8]) -> bool {
    let mut is_escaped = false;
    for byte in pattern {
        if *byte == b'.' && !is_escaped {
            return true;
        }
        is_escaped = *byte == b'\\' && !is_escaped;
    }
    false
}

/// Puts a line for each note on a text that is taken.
pub fn put_notes(out: &mut Bytes, path: &[u8], text: &[u8]) -> Result<(), Memory> {
    let mut notes = Notes {
        out,
        path,
        has_told_of_characters: false,
        has_told_of_packets: false,
    };
    let mut is_inside = false;
    let mut number: u64 = 0;
    for line in text.split(|byte| *byte == b'\n') {
        number = number.saturating_add(1);
        let line = trim_blanks(without_return(line));
        if let Some(name) = section_of(line) {
            is_inside = is(name, b"uwsgi");
        } else if is_inside && !says_nothing(line) {
            if let Some(setting) = setting_of(line) {
                notes.tell_of_setting(number, setting)?;
            }
        }
    }
    Ok(())
}
