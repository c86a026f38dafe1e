// What is looked for in the texts of a condition or an action.
ghost use Rattle.std.specs.Prelude.{◌≡◌, ◌==◌, ◌<◌, ◌^◌, ◌||◌, if◌then◌else◌, true, false, Some, None, is_some, length, map};
ghost use Rattle.std.specs.List.{list_any};
ghost use Rattle.std.specs.Option.{option_copied};
ghost use Rattle.std.specs.Str.{bytes_eq};
ghost use Rattle.uw_rules.specs.Arguments.{code_of, is_ahead, is_bad_template, is_bad_text, is_label, is_unknown_name, length_of, text_places, width_of, width_of_bits};
ghost use Rattle.uw_rules.specs.CheckSteps.{failing, free_places, IsShortText, names_seen, place_at};
ghost use Rattle.uw_rules.specs.Grammar.{free_texts, keyed_texts};
ghost use Rattle.uw_rules.specs.GrammarSteps.{pairs_left, shape_seen, slot_seen};

use crate::arguments::{first_half, second_half, text_of_key};
use crate::grammar::{Shape, Slot, TextKind};
use crate::labels::Labels;
use uw_base::texts::{cut, is};
use uw_base::{Bytes, read_decimal, read_signed};
use uw_model::Width;
use uw_subst::is_template;

/// The most bytes of a label.
const LABEL_BYTES: usize = 64;

/// The most bytes of one read of an area.
const MOST_READ: u64 = 65_536;

/// The codes of statuses that `return` takes.
const CODES: [u16; 15] = [
    200, 204, 301, 302, 304, 400, 401, 403, 404, 405, 410, 413, 429, 500, 503,
];

/// What rules may name: the caches, which have these names, and so many areas, by their numbers.
#[derive(Clone, Copy)]
pub struct Names<'a> {
    pub caches: &'a [Bytes],
    pub areas: u32,
}

/// What is looked for.
#[derive(Clone, Copy)]
pub enum Check<'a> {
    /// A text that must stand and does not, or one that is not of its kind as written.
    Kind,
    /// A template with a bad form.
    Template,
    /// A label that does not stand behind this place.
    Label { labels: &'a Labels<'a>, here: usize },
    /// The name of a cache or the number of an area that there is not; or no name, where there is no cache.
    Name(Names<'a>),
}

// Whether such a byte stands in the text.
fn has_byte(text: &[u8], at: u8) -> bool
    ensures { result ≡ list_any (λ byte. byte == at) text.now }
{
    cut(text, at).1.is_some()
}

// Whether a space or a `$` stands in the text.
fn has_space_or_dollar(text: &[u8]) -> bool
    ensures { result ≡ list_any (λ byte. byte == 32 || byte == 36) text.now }
{
    for byte in text {
        if *byte == b' ' || *byte == b'$' {
            return true;
        }
    }
    false
}

/// Whether a text is a label: 1 to 64 bytes, neither a space nor a `$` among them.
#[tactic(auto, unfolding(crate::specs::Arguments::is_label))]
pub fn is_label(text: &[u8]) -> bool
    ensures { result ≡ is_label text.now }
{
    if text.is_empty() || LABEL_BYTES < text.len() {
        return false;
    }
    !has_space_or_dollar(text)
}

// The code, if it is one of these.
fn listed_in(codes: &[u16], code: u64) -> Option<u16>
    ensures { result ≡ (if list_any (λ listed. listed == code) codes.now then Some code else None) }
{
    for listed in codes {
        if u64::from(*listed) == code {
            return Some(*listed);
        }
    }
    None
}

/// The code of a status, in decimal.
#[tactic(auto, unfolding(crate::specs::Arguments::code_of))]
pub fn code_of(text: &[u8]) -> Option<u16>
    ensures { result ≡ code_of text.now }
{
    listed_in(&CODES, read_decimal(text)?)
}

// The width of so many bits.
fn width_of_bits(bits: u64) -> Option<Width>
    ensures { result ≡ width_of_bits bits }
{
    match bits {
        8 => Some(Width::W8),
        16 => Some(Width::W16),
        32 => Some(Width::W32),
        64 => Some(Width::W64),
        _ => None,
    }
}

/// The width of a number, by its bits in decimal.
#[tactic(auto, unfolding(crate::specs::Arguments::width_of))]
pub fn width_of(text: &[u8]) -> Option<Width>
    ensures { result ≡ width_of text.now }
{
    width_of_bits(read_decimal(text)?)
}

// Whether a text is a length of at most so many bytes.
fn is_length(text: &[u8]) -> bool
    ensures { result ≡ is_some (length_of text.now) }
{
    match read_decimal(text) {
        Some(length) => length <= MOST_READ,
        None => false,
    }
}

// Whether a text is not of its kind as written.
#[tactic(auto, unfolding(crate::specs::Arguments::is_bad_text))]
fn is_bad_text(kind: TextKind, text: &[u8]) -> bool
    ensures { result ≡ is_bad_text kind text.now }
{
    match kind {
        TextKind::Header => !has_byte(text, b':'),
        TextKind::Undivided => has_byte(text, b';'),
        TextKind::Decimal | TextKind::Area => read_decimal(text).is_none(),
        TextKind::Signed => read_signed(text).is_none(),
        TextKind::Length => !is_length(text),
        TextKind::Width => width_of(text).is_none(),
        TextKind::Code => code_of(text).is_none(),
        TextKind::Label => !is_label(text),
        TextKind::Template | TextKind::Fixed | TextKind::Pattern | TextKind::Cache => false,
    }
}

// Whether a text is no template, but its kind is.
fn is_bad_template(kind: TextKind, text: &[u8]) -> bool
    requires { length text.now < 2 ^ 32 }
    ensures { result ≡ is_bad_template (record { kind = kind; required = false; text = Some text.now }) }
{
    match kind {
        TextKind::Template | TextKind::Header | TextKind::Undivided => !is_template(text),
        _ => false,
    }
}

// Whether one of the names is this one.
fn has_name(names: &[Bytes], text: &[u8]) -> bool
    ensures { result ≡ list_any (λ name. bytes_eq name text.now) names.now }
{
    for name in names {
        if is(name.as_slice(), text) {
            return true;
        }
    }
    false
}

// Whether a text names no cache and no area that there is.
fn is_unknown(names: Names<'_>, kind: TextKind, text: &[u8]) -> bool
    ensures { result ≡ is_unknown_name (names_seen names.entry) (place_at kind true (Some text.now)) }
{
    match kind {
        TextKind::Cache => !has_name(names.caches, text),
        TextKind::Area => match read_decimal(text) {
            Some(number) => u64::from(names.areas) <= number,
            None => false,
        },
        _ => false,
    }
}

impl<'a> Check<'a> {
    // Whether a text is one that is looked for.
    fn fails_text(self, kind: TextKind, text: &[u8]) -> bool
        requires { length text.now < 2 ^ 32 }
        ensures { result ≡ failing self.entry (place_at kind true (Some text.now)) }
    {
        match self {
            Check::Kind => is_bad_text(kind, text),
            Check::Template => is_bad_template(kind, text),
            Check::Label { labels, here } => {
                kind == TextKind::Label && !is_ahead(here, labels.place(text))
            }
            Check::Name(names) => is_unknown(names, kind, text),
        }
    }

    // Whether a text that does not stand is looked for.
    fn fails_none(self, kind: TextKind, required: bool) -> bool
        ensures { result ≡ failing self.entry (place_at kind required None) }
    {
        match self {
            Check::Kind => required,
            Check::Name(names) => kind == TextKind::Cache && names.caches.is_empty(),
            Check::Template | Check::Label { .. } => false,
        }
    }

    // Whether a place is one that is looked for.
    fn fails_at(self, kind: TextKind, required: bool, text: Option<&[u8]>) -> bool
        requires { IsShortText (option_copied text) }
        ensures { result ≡ failing self.entry (place_at kind required (option_copied text.entry)) }
    {
        match text {
            Some(text) => self.fails_text(kind, text),
            None => self.fails_none(kind, required),
        }
    }

    // Whether the text of one of the keys is one that is looked for.
    fn fails_any_key(self, slots: &[Slot], argument: Option<&[u8]>) -> bool
        requires { IsShortText (option_copied argument) }
        ensures { result ≡ list_any (failing self.entry) (text_places (keyed_texts (map slot_seen slots.now)) (option_copied argument.entry)) }
    {
        for slot in slots {
            if self.fails_at(slot.kind, slot.required, text_of_key(argument, slot.key)) {
                return true;
            }
        }
        false
    }

    // Whether the text of one of the pairs is one that is looked for.
    fn fails_any_pair(self, kind: TextKind, argument: Option<&[u8]>) -> bool
        requires { IsShortText (option_copied argument) }
        ensures { result ≡ list_any (failing self.entry) (free_places kind (pairs_left argument.entry)) }
    {
        let mut rest = argument;
        'pairs: while let Some(left) = rest {
            let (pair, more) = cut(left, b',');
            if self.fails_at(kind, true, cut(pair, b'=').1) {
                return true;
            }
            rest = more;
        }
        false
    }

    /// Whether a text of an argument of the shape is one that is looked for.
    pub fn fails_any(self, shape: Shape, argument: Option<&[u8]>) -> bool
        requires { IsShortText (option_copied argument) }
        ensures { result ≡ list_any (failing self.entry) (text_places (shape_seen shape) (option_copied argument.entry)) }
    {
        match shape {
            Shape::Bare => false,
            Shape::Optional(kind) => self.fails_at(kind, false, argument),
            Shape::Whole(kind) => self.fails_at(kind, true, argument),
            Shape::Divided(at, first, second) => {
                self.fails_at(first, true, first_half(argument, at))
                    || self.fails_at(second, true, second_half(argument, at))
            }
            Shape::Keyed(slots) => self.fails_any_key(slots, argument),
            Shape::Free(kind) => self.fails_any_pair(kind, argument),
        }
    }
}

// Whether a label's place is behind this one.
fn is_ahead(here: usize, label: Option<u32>) -> bool
    ensures { result ≡ is_ahead here label }
{
    match label {
        Some(place) => here < place as usize,
        None => false,
    }
}
