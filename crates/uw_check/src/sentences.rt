// A sentence for a refused line: what stands there, and what to write in its place.
ghost use Rattle.std.specs.Prelude.{◌≡◌};
ghost use Rattle.uw_ends.specs.Ends.{name_of, name_of_rule};

use crate::keys::{put_bad_cache, put_missing_key, put_unknown_key, value_of_key};
use crate::options::advice_on_option;
use crate::parts::{Setting, has, has_section_above, line_at, put, put_shown, setting_of};
use crate::rules::put_rule;
use std::alloc::Global;
use uw_base::texts::{is, trim_blanks};
use uw_base::{Bytes, Memory, put_decimal};
use uw_conf::{ConfFault, ConfKind};
use uw_rules::RuleKind;

/// The byte order mark of UTF-8.
const MARK: &[u8] = b"\xEF\xBB\xBF";

const NO_AREA: &[u8] =
    b" is no area, or the 17th: write `pages=N` with 1 to 4096 pages of 4096 bytes, \
    or `size=N` with 1 to 16777216 bytes";

/// An option of one number.
struct NumberOption {
    name: &'static [u8],
    least: u64,
    most: u64,
}

const NUMBERS: [NumberOption; 7] = [
    NumberOption {
        name: b"buffer-size",
        least: 1,
        most: 65_535,
    },
    NumberOption {
        name: b"workers",
        least: 1,
        most: 64,
    },
    NumberOption {
        name: b"processes",
        least: 1,
        most: 64,
    },
    NumberOption {
        name: b"harakiri",
        least: 0,
        most: 86_400,
    },
    NumberOption {
        name: b"cache-expire-freq",
        least: 1,
        most: 3_600,
    },
    NumberOption {
        name: b"spooler-processes",
        least: 1,
        most: 16,
    },
    NumberOption {
        name: b"spooler-frequency",
        least: 1,
        most: 3_600,
    },
];

/// The name of the cause of a refusal.
pub fn cause_name(kind: &ConfKind) -> &'static [u8]
    ensures { result.now ≡ name_of kind.now }
{
    match kind {
        ConfKind::BadLine => b"BadLine",
        ConfKind::UnknownOption => b"UnknownOption",
        ConfKind::BadValue => b"BadValue",
        ConfKind::Missing => b"Missing",
        ConfKind::NameTwice => b"NameTwice",
        ConfKind::TooLarge { .. } => b"TooLarge",
        ConfKind::Rule(kind) => rule_cause_name(kind),
    }
}

fn rule_cause_name(kind: &RuleKind) -> &'static [u8]
    ensures { result.now ≡ name_of_rule kind.now }
{
    match kind {
        RuleKind::BadRule => b"BadRule",
        RuleKind::BadPattern => b"BadPattern",
        RuleKind::PatternRefused => b"PatternRefused",
        RuleKind::UnknownCondition => b"UnknownCondition",
        RuleKind::UnknownAction => b"UnknownAction",
        RuleKind::LabelTwice => b"LabelTwice",
        RuleKind::LabelNotAhead => b"LabelNotAhead",
        RuleKind::BadTemplate => b"BadTemplate",
        RuleKind::TooManyRules => b"TooManyRules",
        RuleKind::UnknownName => b"UnknownName",
    }
}

// Another form of file that a line looks like, if it does.
fn other_form(line: &[u8]) -> Option<&'static [u8]> {
    match line {
        [b'<', ..] => Some(b"XML"),
        [b'{' | b'}' | b'"', ..] => Some(b"JSON"),
        [b'-', b' ', ..] | [.., b':'] => Some(b"YAML"),
        _ if !has(line, b"=") && has(line, b": ") => Some(b"YAML"),
        _ => None,
    }
}

// Says why a line is bad, where `above` says whether a section begins above it.
fn put_bad_line(out: &mut Bytes, line: &[u8], above: bool) -> Result<(), Memory> {
    if std::str::from_utf8(line).is_err() {
        return out.append(b"the line is not UTF-8, which comments are too: save the file as UTF-8");
    }
    if line.starts_with(MARK) {
        return out.append(b"the file begins with a byte order mark: save it without one");
    }
    if let Some(form) = other_form(line) {
        return put(
            out,
            &[
                b"the line looks like ",
                form,
                b": write `[uwsgi]`, and below it `name = value` for each option",
            ],
        );
    }
    put_shown(out, line)?;
    match setting_of(line) {
        Some(setting) if setting.name.is_empty() => out.append(b" has no name in front of the `=`"),
        Some(_) => out.append(b" stands above the first section: write `[uwsgi]` above it"),
        None if above => out.append(b" has no `=`: an option is `name = value`"),
        None => out.append(
            b" is no section and no option: write `[uwsgi]`, and below it `name = value`",
        ),
    }
}

// Says why the value of an option is bad.
fn put_bad_value(out: &mut Bytes, setting: Setting<'_>) -> Result<(), Memory> {
    if is(setting.name, b"cache2") {
        return put_bad_cache(out, setting.value);
    }
    put_shown(out, setting.value)?;
    if is(setting.name, b"sharedarea") {
        return out.append(NO_AREA);
    }
    for number in &NUMBERS {
        if is(setting.name, number.name) {
            put(
                out,
                &[
                    b" is no value of `",
                    setting.name,
                    b"`: write a number from ",
                ],
            )?;
            put_decimal(out, number.least)?;
            out.append(b" to ")?;
            put_decimal(out, number.most)?;
            return out.append(b", in digits alone");
        }
    }
    put(
        out,
        &[b" is no value of `", setting.name, b"`: write a text"],
    )
}

// Says by how much the regions, or the file, are too large.
fn put_too_large(out: &mut Bytes, line: u32, bytes: u64, limit: u64) -> Result<(), Memory> {
    if line == 0 {
        out.append(b"the file has more bytes than ")?;
        return put_decimal(out, limit);
    }
    out.append(b"with this line all caches and areas have ")?;
    put_decimal(out, bytes)?;
    out.append(b" bytes, and ")?;
    put_decimal(out, limit)?;
    out.append(b" is the most: write fewer items, or smaller blocks and keys; see docs/CONFIG.md")
}

// Says why the option of a line is refused.
fn put_refused(out: &mut Bytes, kind: &ConfKind, setting: Setting<'_>) -> Result<(), Memory> {
    match kind {
        ConfKind::UnknownOption if is(setting.name, b"cache2") => put_unknown_key(
            out,
            setting.value,
        ),
        ConfKind::UnknownOption => {
            put_shown(out, setting.name)?;
            out.append(advice_on_option(setting.name))
        }
        ConfKind::Missing => put_missing_key(out, setting.value),
        ConfKind::NameTwice => {
            put_shown(
                out,
                value_of_key(setting.value, b"name").unwrap_or(setting.value),
            )?;
            out.append(b" is the name of a cache above: give one of them another")
        }
        ConfKind::Rule(kind) => put_rule(out, *kind, setting.name, setting.value),
        _ => put_bad_value(out, setting),
    }
}

/// The sentence that says why a line of a text is refused, and what to do.
pub fn sentence_of(alloc: Global, text: &[u8], fault: &ConfFault) -> Result<Bytes, Memory> {
    let mut out = Bytes::new(alloc);
    put_sentence(&mut out, text, fault)?;
    Ok(out)
}

// Puts it.
fn put_sentence(out: &mut Bytes, text: &[u8], fault: &ConfFault) -> Result<(), Memory> {
    let line = trim_blanks(line_at(text, fault.line));
    match fault.kind {
        ConfKind::BadLine => put_bad_line(out, line, has_section_above(text, fault.line)),
        ConfKind::TooLarge { bytes, limit } => put_too_large(out, fault.line, bytes, limit),
        kind => match setting_of(line) {
            Some(setting) => put_refused(out, &kind, setting),
            None => put_shown(out, line),
        },
    }
}
