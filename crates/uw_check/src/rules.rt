// What is said of a rule that is refused.
use crate::parts::{has, place_in, put, put_shown};
use crate::written::{WrittenRule, phrase_name, rule_of};
use uw_base::texts::{is, is_any};
use uw_base::{Bytes, Memory, put_decimal};
use uw_rules::RuleKind;

// What the grammar of patterns doesn't have.
const LOOKS: [&[u8]; 4] = [b"(?=", b"(?!", b"(?<=", b"(?<!"];

const REFERENCES: [&[u8]; 9] = [
    b"\\1", b"\\2", b"\\3", b"\\4", b"\\5", b"\\6", b"\\7", b"\\8", b"\\9",
];

const POSSESSIVES: [&[u8]; 4] = [b"(?>", b"*+", b"++", b"?+"];

const FILES: [&[u8]; 5] = [b"exists", b"isfile", b"isdir", b"islink", b"isexec"];

const NUMBERS: [&[u8]; 8] = [
    b"ishigher",
    b">",
    b"ishigherequal",
    b">=",
    b"islower",
    b"<",
    b"islowerequal",
    b"<=",
];

const SAMES: [&[u8]; 4] = [b"isequal", b"eq", b"==", b"="];

// Actions by which another program takes the request over.
const HANDED_ON: [&[u8]; 16] = [
    b"http",
    b"uwsgi",
    b"fastcgi",
    b"scgi",
    b"static",
    b"file",
    b"sendfile",
    b"mp4",
    b"gzip",
    b"offload",
    b"proxyhttp",
    b"proxyuwsgi",
    b"hash",
    b"basicauth",
    b"ldapauth",
    b"spnego",
];

const LOGS: [&[u8]; 4] = [b"log", b"logvar", b"donotlog", b"alarm"];

const CALLS: [&[u8]; 8] = [
    b"rpc", b"rpcnext", b"rpcret", b"call", b"sapi", b"signal", b"setapp", b"sethome",
];

const HEADERS: [&[u8]; 5] = [
    b"remheader",
    b"delheader",
    b"clearheaders",
    b"disableheaders",
    b"defaultheaders",
];

// Actions of requests alone.
const REPLIES: [&[u8]; 7] = [
    b"break",
    b"return",
    b"redirect",
    b"redirect-permanent",
    b"addheader",
    b"send",
    b"cache",
];

const RULES: &[u8] = b": see docs/RULES.md";

const NO_PATTERN: &[u8] =
    b" is no pattern: a bracket is open, a repeat stands alone, or it nests too deep; \
    see docs/RULES.md, Patterns";

const HEAVY: &[u8] = b" weighs more than 2,500, so that a search could take long: \
    see docs/RULES.md, What a pattern weighs";

// What is said of a condition that is not known.
fn advice_on_condition(name: &[u8]) -> &'static [u8] {
    if is_any(name, &FILES) {
        return b" asks for a file, which is the web server's work";
    }
    if is_any(name, &NUMBERS) {
        return b" is no condition here: numbers are not compared, a pattern may do";
    }
    if is_any(name, &SAMES) {
        return b" is no condition here: write `equal`";
    }
    if is(name, b"contain") {
        return b" is no condition here: write `contains`";
    }
    if is(name, b"re") {
        return b" is no condition here: write `regexp`";
    }
    if is(name, b"ipv4in") || is(name, b"ipv6in") {
        return b" is no condition here: write `route-remote-addr` with a pattern";
    }
    b" is no condition here: docs/RULES.md has them all"
}

// What is said of an action that is not known.
fn advice_on_action(name: &[u8], is_of_tasks: bool) -> &'static [u8] {
    if is_of_tasks && is_any(name, &REPLIES) {
        return b" is no action of a task, which has no reply: see docs/SPOOL.md";
    }
    if is(name, b"spool-end") {
        return b" is an action of tasks alone: see docs/SPOOL.md";
    }
    if is_any(name, &HANDED_ON) {
        return b" is the web server's work, see docs/MIGRATE.md";
    }
    if is_any(name, &LOGS) {
        return b" is the web server's work, which writes the log, see docs/MIGRATE.md";
    }
    if is_any(name, &CALLS) {
        return b" calls an interpreter, and there is none here, see docs/MIGRATE.md";
    }
    if is_any(name, &HEADERS) {
        return b" is no action here: a reply has the headers that rules add, and no others";
    }
    if is(name, b"redirect-302") {
        return b" is no action here: write `redirect`";
    }
    if is(name, b"redirect-301") {
        return b" is no action here: write `redirect-permanent`";
    }
    if is(name, b"goon") {
        return b" is no action here: write `continue`";
    }
    if is(name, b"send-crnl") {
        return b" is no action here: write `send`";
    }
    if is(name, b"seturi") || is(name, b"setpathinfo") {
        return b" is no action here: write `rewrite`";
    }
    if is(name, b"cachestore") {
        return b" is no action here: put the page into the cache by `cacheset`, or by a packet";
    }
    b" is no action here: docs/RULES.md has them all"
}

// The first of the words that stands in a text, and its place, counted from 0.
fn first_place<'a>(text: &[u8], words: &[&'a [u8]]) -> Option<(usize, &'a [u8])> {
    for word in words {
        if let Some(place) = place_in(text, word) {
            return Some((place, *word));
        }
    }
    None
}

// Says what at a place of a pattern is not taken.
fn put_place(out: &mut Bytes, what: &[u8], found: (usize, &[u8])) -> Result<(), Memory> {
    let (place, word) = found;
    put(out, &[what, b" `", word, b"` at byte "])?;
    put_decimal(out, (place as u64).saturating_add(1))?;
    out.append(b" of the pattern is not taken: see docs/RULES.md, Patterns")
}

// Says why a text is no pattern.
fn put_bad_pattern(out: &mut Bytes, pattern: &[u8]) -> Result<(), Memory> {
    if let Some(found) = first_place(pattern, &LOOKS) {
        return put_place(out, b"the look-around", found);
    }
    if let Some(found) = first_place(pattern, &REFERENCES) {
        return put_place(out, b"the reference to a group", found);
    }
    if let Some(found) = first_place(pattern, &POSSESSIVES) {
        return put_place(out, b"the group or repeat that never gives back", found);
    }
    put_shown(out, pattern)?;
    out.append(NO_PATTERN)
}

// Says what is missing or bad in a rule.
fn put_bad_rule(out: &mut Bytes, rule: &WrittenRule<'_>) -> Result<(), Memory> {
    if let Some(label) = rule.label {
        put_shown(out, label)?;
        return out.append(b" is no label: a label has 1 to 64 bytes, neither a space nor a `$`");
    }
    let Some(action) = rule.action else {
        return out.append(b"a space has to part the pattern or the condition from the action");
    };
    let name = phrase_name(action);
    if is(name, b"last") || is(name, b"continue") {
        put_shown(out, action)?;
        return put(
            out,
            &[b" has an argument: write `", name, b"` without a colon"],
        );
    }
    if has(action, b"value=")
        && is_any(name, &[b"cacheinc", b"cachedec", b"cachemul", b"cachediv"])
    {
        put_shown(out, action)?;
        return out.append(b" has a key that is not there: write `amount=` for `value=`");
    }
    put_shown(out, action)?;
    if rule.condition.is_some() {
        out.append(b", or the condition before it,")?;
    }
    put(
        out,
        &[b" has an argument that is missing, unknown or bad", RULES],
    )
}

// The label of a `goto`, or the text of the action.
fn goal_of(action: &[u8]) -> &[u8] {
    match action.strip_prefix(b"goto:") {
        Some(label) => label,
        None => action,
    }
}

/// Says why a rule is refused.
pub fn put_rule(out: &mut Bytes, kind: RuleKind, name: &[u8], value: &[u8]) -> Result<(), Memory> {
    let rule = rule_of(name, value);
    let action = rule.action.unwrap_or(value);
    match kind {
        RuleKind::BadRule => put_bad_rule(out, &rule),
        RuleKind::BadPattern => put_bad_pattern(out, rule.pattern.unwrap_or(value)),
        RuleKind::PatternRefused => {
            put_shown(out, rule.pattern.unwrap_or(value))?;
            out.append(HEAVY)
        }
        RuleKind::UnknownCondition => {
            let condition = phrase_name(rule.condition.unwrap_or(value));
            put_shown(out, condition)?;
            out.append(advice_on_condition(condition))
        }
        RuleKind::UnknownAction => {
            let action = phrase_name(action);
            put_shown(out, action)?;
            out.append(advice_on_action(action, rule.is_of_tasks))
        }
        RuleKind::LabelTwice => {
            put_shown(out, value)?;
            out.append(b" is the label of a line above: give one of them another")
        }
        RuleKind::LabelNotAhead => {
            put_shown(out, goal_of(action))?;
            out.append(b" is the label of no line below, and a jump leads ahead")
        }
        RuleKind::BadTemplate => put(
            out,
            &[
                b"a text has a `${` without its `}`, or a form in brackets that is not there",
                b": see docs/RULES.md, Templates",
            ],
        ),
        RuleKind::TooManyRules => out.append(
            b"there are 4,096 rules of this table above, which is the most",
        ),
        RuleKind::UnknownName => {
            put_shown(out, action)?;
            if rule.condition.is_some() {
                out.append(b", or the condition before it,")?;
            }
            out.append(b" asks a cache or an area that no line defines")
        }
    }
}
