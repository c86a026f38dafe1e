// The lines of a text, and what each of them is.
ghost use Rattle.std.specs.Prelude.{◌≡◌, ◌<◌, ◌≤◌, ◌==◌, ◌∷◌, [], length, IfSome, MatchOption};
ghost use Rattle.std.specs.Str.Lines.{lines, strip_carriage_return};
ghost use Rattle.std.specs.Str.Lossy.{utf8_valid_len};
ghost use Rattle.uw_conf.specs.Lines.{line_of, option_line, parted};
ghost use Rattle.uw_conf.specs.ReadingSteps.{line_seen};

use uw_base::texts::{cut, trim_blanks};

/// What a line is.
#[derive(Clone, Copy, Debug, PartialEq, Eq)]
pub enum LineKind<'a> {
    /// Empty, or a comment.
    Nothing,
    /// The beginning of a section of this name.
    Section(&'a [u8]),
    /// An option and its value.
    Setting { name: &'a [u8], value: &'a [u8] },
    /// None of these.
    Broken,
}

// A line without the carriage return at its end.
fn without_return(line: &[u8]) -> &[u8]
    ensures { result.now ≡ strip_carriage_return line.now }
{
    match line {
        [front @ .., b'\r'] => front,
        _ => line,
    }
}

/// The first line of a text and what is behind it; none where nothing is left.
pub fn next_line(text: &[u8]) -> Option<(&[u8], &[u8])>
    ensures line { MatchOption result (lines text.now ≡ []) (λ r. lines text.now ≡ r.0.now ∷ lines r.1.now) }
    ensures shorter { IfSome result (λ r. length r.1.now < length text.now) }
    ensures within { IfSome result (λ r. length r.0.now ≤ length text.now) }
{
    let (line, rest) = cut(text, b'\n');
    match rest {
        Some(rest) => Some((without_return(line), rest)),
        None if line.is_empty() => None,
        None => Some((line, &[])),
    }
}

/// Whether a line is a text of UTF-8.
pub fn is_utf8(line: &[u8]) -> bool
    ensures { result ≡ (utf8_valid_len line.now == length line.now) }
{
    std::str::from_utf8(line).is_ok()
}

/// What a trimmed line is.
pub fn line_of(text: &[u8]) -> LineKind<'_>
    ensures { line_seen result ≡ line_of text.now }
{
    let Some((first, rest)) = text.split_first() else {
        return LineKind::Nothing;
    };
    match *first {
        b';' | b'#' => LineKind::Nothing,
        b'[' => match rest.strip_suffix(b"]") {
            Some(name) => LineKind::Section(name),
            None => parted(text),
        },
        _ => parted(text),
    }
}

// A line with a `=` parts there, at the first one.
fn parted(text: &[u8]) -> LineKind<'_>
    ensures { line_seen result ≡ parted text.now }
{
    let (name, value) = cut(text, b'=');
    match value {
        Some(value) => setting(trim_blanks(name), trim_blanks(value)),
        None => LineKind::Broken,
    }
}

// An option and a value; an option without a byte is none.
fn setting<'a>(name: &'a [u8], value: &'a [u8]) -> LineKind<'a>
    ensures { line_seen result ≡ option_line name.now value.now }
{
    match name {
        [] => LineKind::Broken,
        _ => LineKind::Setting { name, value },
    }
}
