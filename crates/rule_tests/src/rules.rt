// Tables of rules by worked examples.
ghost use Rattle.std.specs.Bool.{OnTrue};
ghost use Rattle.uw_rules.specs.Tables.{AreRuleLines, IsRuleLine};

use std::alloc::Global;
use std::process::Abort;
use std::str;
use std::test::Fail;
use uw_base::{Bytes, BytesList, Memory};
use uw_model::{MathOp, Width};
use uw_rules::{
    Action, AreaStep, Condition, RegexPatterns, Rule, RuleKind, RuleLine, RuleLineList, RuleTable,
    RulesError, Test, is_rule_option, read_rules,
};
use uw_subst::Template;

// The option and the text of a line.
type Row = (&'static [u8], &'static [u8]);

// Whether this may be a line of a table.
fn is_rule_line(line: &RuleLine) -> bool
    ensures { OnTrue result (IsRuleLine line.now) }
{
    is_rule_option(line.form.as_slice())
        && str::from_utf8(line.text.as_slice()).is_ok()
        && line.text.len() < 2_000_000
}

// Whether these may be the lines of a table.
fn is_table(lines: &[RuleLine]) -> bool
    ensures { OnTrue result (AreRuleLines lines.now) }
{
    for here in 0..lines.len() {
        if !is_rule_line(&lines[here]) {
            return false;
        }
        if 0 < here && lines[here].line <= lines[here - 1].line {
            return false;
        }
    }
    true
}

// Puts a line at the end.
fn put(alloc: Global, lines: &mut RuleLineList, form: &[u8], text: &[u8]) -> Result<(), Memory> {
    let line = lines.len().min(100_000) as u32 + 1;
    lines.push(RuleLine {
        line,
        form: Bytes::from_slice(alloc, form)?,
        text: Bytes::from_slice(alloc, text)?,
    })
}

// Lines, numbered from 1.
fn lines(alloc: Global, rows: &[(&[u8], &[u8])]) -> Result<RuleLineList, Memory> {
    let mut lines = RuleLineList::new(alloc);
    for (form, text) in rows {
        put(alloc, &mut lines, form, text)?;
    }
    Ok(lines)
}

// What lines say where there are caches of these names and 16 areas, under a maker that refuses the calls with these numbers.
fn read(
    rt: &impl Abort,
    alloc: Global,
    lines: &RuleLineList,
    names: &[&[u8]],
    refuse: &[u64],
) -> Result<RuleTable, RulesError> {
    let mut list = BytesList::new(alloc);
    for name in names {
        list.push(Bytes::from_slice(alloc, name)?)?;
    }
    assert!(rt; is_table(lines.as_slice()));
    assert!(rt; list.len() < 100);
    let mut refused = Vec::new(alloc);
    for call in refuse {
        match refused.push(*call) {
            Ok(()) => {}
            Err(_) => return Err(RulesError::Memory),
        }
    }
    read_rules(alloc, lines, &list, 16, &mut RegexPatterns::new(refused))
}

// The refused line and its kind, if there is one.
fn refusal(
    rt: &impl Abort,
    alloc: Global,
    rows: &[(&[u8], &[u8])],
    names: &[&[u8]],
    refuse: &[u64],
) -> Result<Option<(u32, RuleKind)>, Memory> {
    let lines = lines(alloc, rows)?;
    match read(rt, alloc, &lines, names, refuse) {
        Ok(_) => Ok(None),
        Err(RulesError::Refused { line, kind }) => Ok(Some((line, kind))),
        Err(RulesError::Memory) => Err(Memory),
    }
}

// The kind of the refusal of one line, alone in its table.
fn kind(
    rt: &impl Abort,
    alloc: Global,
    form: &[u8],
    text: &[u8],
) -> Result<Option<RuleKind>, Memory> {
    let refused = refusal(rt, alloc, &[(form, text)], &[b"a", b"b"], &[])?;
    Ok(refused.map(|(_, kind)| kind))
}

const TAKEN: [Row; 43] = [
    (b"route", b" continue"),
    (b"route", b"^/old/(.*)$ redirect-permanent:/new/$1"),
    (b"route", b"^/a \t last"),
    (
        b"route-host",
        b"^www\\. redirect:https://example.com${REQUEST_URI}",
    ),
    (b"route-uri", b"\\?q= break:410 Gone"),
    (b"route-qs", b"(^|&)p=(\\d+) rewrite:/p/$2?x=${qs[x]}"),
    (b"route-remote-addr", b"^10\\. return:403"),
    (b"route-run", b"last"),
    (b"route-run", b"break"),
    (b"route-run", b"break:"),
    (b"route-run", b"break:a:b, c=d"),
    (b"route-run", b"return:0200"),
    (b"route-run", b"return:503"),
    (b"route-run", b"redirect:"),
    (b"route-run", b"addvar:K=a=b,c=d"),
    (b"route-run", b"addvar:=T"),
    (b"route-run", b"addheader:X: ${time[unix]}"),
    (b"route-run", b"addheader::"),
    (b"route-run", b"send:"),
    (b"route-run", b"send:a:b;c,d=e $ $0 ${v}"),
    (
        b"route-run",
        b"cache:name=b,content_type=text/${x},key=${y}",
    ),
    (b"route-run", b"cachevar:var=v,key=k"),
    (b"route-run", b"cachevar:var=,key=,name=a"),
    (
        b"route-run",
        b"cacheset:key=k,value=v,expires=18446744073709551615,name=a,var=x",
    ),
    (b"route-run", b"cacheset:value=a=b,key==k="),
    (b"route-run", b"cacheupdate:key=k,value=v,expires=0"),
    (b"route-run", b"cachedel:key=k,name=a,var=v"),
    (b"route-run", b"cachedec:key=k,amount=-9223372036854775808"),
    (b"route-run", b"cachemul:key=k,amount=00002,expires=7"),
    (b"route-run", b"cachediv:key=k,amount=0,var=v"),
    (b"route-if", b"equal:a; continue"),
    (b"route-if", b"equal:;; continue"),
    (b"route-if", b"equal:${a};$1;c continue"),
    (b"route-if-not", b"startswith:${HTTP_HOST};www. continue"),
    (b"route-if", b"endswith:a;b continue"),
    (b"route-if", b"empty:${QUERY_STRING} continue"),
    (b"route-if", b"empty:a,b=c continue"),
    (
        b"route-if",
        b"regexp:${REQUEST_METHOD};^(GET|HEAD)$ continue",
    ),
    (b"route-if", b"regexp:;a;b continue"),
    (b"route-if", b"incache:key=${PATH_INFO},name=b cache:key=x"),
    (b"route-if", b"incache:name=a,key=a;b continue"),
    (b"route-label", b"\xc3\xa9;,=:\t"),
    (
        b"route-label",
        b"0123456789012345678901234567890123456789012345678901234567890123",
    ),
];

const PARTS_TAKEN: [Row; 19] = [
    (
        b"route-run",
        b"arearead:area=15,at=18446744073709551615,len=65536,var=v",
    ),
    (b"spool-run", b"arearead:var=,len=0,at=0,area=0"),
    (b"route-run", b"areawrite:area=0,at=0,value=${x}"),
    (b"route-run", b"areawrite:area=0,at=0,value=,var=v"),
    (b"route-run", b"areanum:area=0,at=0,width=8,var=v"),
    (b"route-run", b"areanum:area=0,at=0,width=064,var=v"),
    (
        b"route-run",
        b"areaset:area=0,at=0,width=16,value=18446744073709551615",
    ),
    (b"spool-run", b"areainc:area=0,at=0,width=32,by=0"),
    (b"route-run", b"areainc:area=1,at=8,width=64"),
    (b"route-run", b"areadec:area=0,at=0,width=8,by=3,var=v"),
    (b"route-run", b"areaupdates:area=0,var=v"),
    (b"route-run", b"spool:a=b"),
    (b"spool-run", b"spool:body=${b},a=,=x,b=c=d"),
    (b"spool-run", b"spool-end:-2"),
    (b"spool-if", b"empty:${x} spool-end:0"),
    (b"spool-if-not", b"equal:a;b continue"),
    (b"spool-label", b"a"),
    (b"spool-run", b"rewrite:/x"),
    (b"spool-run", b"cacheset:key=k,value=v"),
];

const BAD_TESTS: [Row; 21] = [
    (b"route", b"^/a"),
    (b"route", b""),
    (b"route-if", b"empty:a"),
    (b"route-if-not", b"empty:"),
    (b"route-label", b""),
    (b"route-label", b"a b"),
    (b"route-label", b"a$"),
    (
        b"route-label",
        b"01234567890123456789012345678901234567890123456789012345678901234",
    ),
    (b"route-if", b"equal continue"),
    (b"route-if", b"equal: continue"),
    (b"route-if", b"equal:a continue"),
    (b"route-if", b"equal:a b;c"),
    (b"route-if", b"empty continue"),
    (b"route-if", b"empty:a;b continue"),
    (b"route-if", b"empty:; continue"),
    (b"route-if", b"regexp:a continue"),
    (b"route-if", b"incache continue"),
    (b"route-if", b"incache:name=a continue"),
    (b"route-if", b"incache:key=k,var=v continue"),
    (b"route-if", b"nothing:a;b return:1"),
    (b"route", b"*"),
];

const BAD_ACTIONS: [Row; 20] = [
    (b"route-run", b"continue:"),
    (b"route-run", b"last:x"),
    (b"route-run", b"return"),
    (b"route-run", b"return:"),
    (b"route-run", b"return:201"),
    (b"route-run", b"return:200 OK"),
    (b"route-run", b"return:000000000000000000200"),
    (b"route-run", b"goto"),
    (b"route-run", b"goto:"),
    (b"route-run", b"goto:a b"),
    (b"route-run", b"goto:a$"),
    (b"route-run", b"redirect"),
    (b"route-run", b"redirect-permanent"),
    (b"route-run", b"rewrite"),
    (b"route-run", b"send"),
    (b"route-run", b"addvar"),
    (b"route-run", b"addvar:"),
    (b"route-run", b"addvar:K"),
    (b"route-run", b"addheader:"),
    (b"route-run", b"addheader:X"),
];

const BAD_PAIRS: [Row; 24] = [
    (b"route-run", b"cache"),
    (b"route-run", b"cache:"),
    (b"route-run", b"cache:key"),
    (b"route-run", b"cache:name=a"),
    (b"route-run", b"cache:key=k,"),
    (b"route-run", b"cache:,key=k"),
    (b"route-run", b"cache:key=k,,name=a"),
    (b"route-run", b"cache: key=k"),
    (b"route-run", b"cache:key=k,key=k"),
    (b"route-run", b"cache:key=k,value=v"),
    (b"route-run", b"cache:key=k,var=v"),
    (b"route-run", b"cachevar:key=k"),
    (b"route-run", b"cachevar:key=k,var=v,expires=1"),
    (b"route-run", b"cacheset:key=k"),
    (b"route-run", b"cacheset:value=v"),
    (b"route-run", b"cacheset:key=k,value=v,expires="),
    (b"route-run", b"cacheset:key=k,value=v,expires=-1"),
    (
        b"route-run",
        b"cacheset:key=k,value=v,expires=18446744073709551616",
    ),
    (b"route-run", b"cacheset:key=k,value=v,amount=1"),
    (b"route-run", b"cachedel:key=k,value=v"),
    (b"route-run", b"cacheinc:key=k,amount="),
    (b"route-run", b"cacheinc:key=k,amount=x"),
    (b"route-run", b"cacheinc:key=k,amount=9223372036854775808"),
    (b"route-run", b"cacheinc:key=k,by=1"),
];

const BAD_PARTS: [Row; 25] = [
    (b"route-run", b"arearead:area=0,at=0,len=65537,var=v"),
    (b"route-run", b"arearead:area=0,at=0,len=1"),
    (b"route-run", b"arearead:area=0,len=1,var=v"),
    (b"route-run", b"arearead:area=,at=0,len=1,var=v"),
    (
        b"route-run",
        b"arearead:area=0,at=18446744073709551616,len=1,var=v",
    ),
    (b"route-run", b"areawrite:area=0,at=0"),
    (b"route-run", b"areawrite:area=0,at=x,value=v"),
    (b"route-run", b"areanum:area=0,at=0,width=7,var=v"),
    (b"route-run", b"areanum:area=0,at=0,width=24,var=v"),
    (b"route-run", b"areanum:area=0,at=0,width=8"),
    (b"route-run", b"areaset:area=0,at=0,width=8,value=-1"),
    (b"route-run", b"areaset:area=0,at=0,width=8,by=1"),
    (b"route-run", b"areainc:area=0,at=0,width=8,by="),
    (b"route-run", b"areainc:area=0,at=0,at=0,width=8"),
    (b"route-run", b"areadec:area=0,at=0,width=8,value=1"),
    (b"route-run", b"areaupdates:area=0"),
    (b"route-run", b"spool"),
    (b"route-run", b"spool:"),
    (b"route-run", b"spool:a"),
    (b"route-run", b"spool:a=b,"),
    (b"route-run", b"spool:a=b,c=d,a=e"),
    (b"spool-run", b"spool-end"),
    (b"spool-run", b"spool-end:x"),
    (b"spool-run", b"spool-end:9223372036854775808"),
    (b"spool-label", b"a b"),
];

const UNKNOWN_CONDITIONS: [Row; 5] = [
    (b"route-if", b"nothing continue"),
    (b"route-if", b" continue"),
    (b"route-if", b":a continue"),
    (b"route-if", b"Empty:a continue"),
    (b"route-if-not", b"empty=a continue"),
];

const BAD_PATTERNS: [Row; 3] = [
    (b"route", b"( continue"),
    (b"route", b"* nothing"),
    (b"route-if", b"regexp:a;[ continue"),
];

const REFUSED_PATTERNS: [Row; 1] = [(b"route", b"(a{1000}){1000} continue")];

const UNKNOWN_ACTIONS: [Row; 13] = [
    (b"route", b"^/a "),
    (b"route", b"^/a :x"),
    (b"route-run", b""),
    (b"route-run", b"CONTINUE"),
    (b"route-run", b"spool-end:0"),
    (b"route-if", b"empty:${ nothing"),
    (b"spool-run", b"return:999"),
    (b"spool-run", b"send:${"),
    (b"spool-run", b"break"),
    (b"spool-run", b"redirect:/"),
    (b"spool-run", b"redirect-permanent:/"),
    (b"spool-run", b"addheader:X"),
    (b"spool-run", b"cache:key=k"),
];

const BAD_TEMPLATES: [Row; 9] = [
    (b"route-run", b"send:${"),
    (b"route-run", b"addheader:X: ${}"),
    (b"route-run", b"addvar:${=${a]}"),
    (b"route-run", b"cacheset:key=k,value=${time[x]}"),
    (b"route-if", b"empty:${x[y]} continue"),
    (b"route-if", b"regexp:${;a continue"),
    (b"route-if", b"equal:a;${httptime[x]} goto:x"),
    (b"route-run", b"areawrite:area=16,at=0,value=${"),
    (b"spool-run", b"spool:a=b,c=${"),
];

const LABELS_NOT_AHEAD: [Row; 2] = [
    (b"route-run", b"goto:x"),
    (b"route-if", b"incache:key=k,name=c goto:x"),
];

const UNKNOWN_NAMES: [Row; 5] = [
    (b"route-if", b"incache:key=k,name=c continue"),
    (b"route-run", b"cache:key=k,name="),
    (b"route-run", b"cachedel:key=k,name=A"),
    (b"route-run", b"areaupdates:area=16,var=v"),
    (
        b"spool-run",
        b"areawrite:area=18446744073709551615,at=0,value=",
    ),
];

// Lines, each alone in its table, and the refusal that each of them has.
const REFUSALS: [(&[Row], Option<RuleKind>); 13] = [
    (&TAKEN, None),
    (&PARTS_TAKEN, None),
    // A bad rule comes before all others.
    (&BAD_TESTS, Some(RuleKind::BadRule)),
    (&BAD_ACTIONS, Some(RuleKind::BadRule)),
    (&BAD_PAIRS, Some(RuleKind::BadRule)),
    (&BAD_PARTS, Some(RuleKind::BadRule)),
    // The others in their order.
    (&UNKNOWN_CONDITIONS, Some(RuleKind::UnknownCondition)),
    (&BAD_PATTERNS, Some(RuleKind::BadPattern)),
    (&REFUSED_PATTERNS, Some(RuleKind::PatternRefused)),
    (&UNKNOWN_ACTIONS, Some(RuleKind::UnknownAction)),
    (&BAD_TEMPLATES, Some(RuleKind::BadTemplate)),
    (&LABELS_NOT_AHEAD, Some(RuleKind::LabelNotAhead)),
    (&UNKNOWN_NAMES, Some(RuleKind::UnknownName)),
];

#[test]
fn each_line_has_its_refusal_or_none(rt: HostRuntime) -> Result<(), Fail> {
    for (rows, want) in REFUSALS {
        for (form, text) in rows {
            let found = kind(&rt, rt.alloc(), form, text)?;
            assert_eq!(rt; found, want, "{text:?}");
        }
    }
    Ok(())
}

// A table where no cache is configured, the patterns that the maker refuses, and the first refused line.
type Refused = (&'static [Row], &'static [u64], Option<(u32, RuleKind)>);

const TABLES: [Refused; 14] = [
    (&[], &[], None),
    // Labels stand ahead, and once.
    (
        &[(b"route-run", b"goto:x"), (b"route-label", b"x")],
        &[],
        None,
    ),
    (
        &[(b"route-label", b"x"), (b"route-run", b"goto:x")],
        &[],
        Some((2, RuleKind::LabelNotAhead)),
    ),
    (
        &[
            (b"route-label", b"x"),
            (b"route-run", b"last"),
            (b"route-label", b"x"),
        ],
        &[],
        Some((3, RuleKind::LabelTwice)),
    ),
    (
        &[
            (b"route-label", b"x"),
            (b"route-run", b"goto:x"),
            (b"route-label", b"x"),
        ],
        &[],
        Some((2, RuleKind::LabelNotAhead)),
    ),
    (
        &[
            (b"route-run", b"goto:x"),
            (b"route-run", b"goto:y"),
            (b"route-label", b"x"),
        ],
        &[],
        Some((2, RuleKind::LabelNotAhead)),
    ),
    (
        &[
            (b"route-run", b"goto:x"),
            (b"route-label", b"x y"),
            (b"route-label", b"x"),
        ],
        &[],
        Some((2, RuleKind::BadRule)),
    ),
    (
        &[(b"route-run", b"goto:X"), (b"route-label", b"x")],
        &[],
        Some((1, RuleKind::LabelNotAhead)),
    ),
    // Caches are named where there are some.
    (
        &[(b"route-run", b"cache:key=k")],
        &[],
        Some((1, RuleKind::UnknownName)),
    ),
    (
        &[(b"route-run", b"cache:key=k,name=a")],
        &[],
        Some((1, RuleKind::UnknownName)),
    ),
    (&[(b"route-run", b"send:k")], &[], None),
    // A refusal of the maker is told.
    (
        &[(b"route", b"a break")],
        &[1],
        Some((1, RuleKind::PatternRefused)),
    ),
    (
        &[(b"route", b"a break"), (b"route-if", b"regexp:a;b nothing")],
        &[2],
        Some((2, RuleKind::PatternRefused)),
    ),
    (&[(b"route", b"a break")], &[2], None),
];

#[test]
fn each_table_has_its_first_refused_line_or_none(rt: HostRuntime) -> Result<(), Fail> {
    for (table, refuse, want) in TABLES {
        let found = refusal(&rt, rt.alloc(), table, &[], refuse)?;
        assert_eq!(rt; found, want, "{table:?}");
    }
    Ok(())
}

// Large texts: their option; their front, a piece that follows so many times, another one, and their end; and the
// refusal of each, alone in its table.
#[derive(Clone, Copy)]
struct Large {
    form: &'static [u8],
    front: &'static [u8],
    pieces: [(&'static [u8], usize); 2],
    end: &'static [u8],
    want: Option<RuleKind>,
}

const LARGE: [Large; 6] = [
    Large {
        form: b"route",
        front: b"",
        pieces: [(b"a", 60_000), (b"", 0)],
        end: b" continue",
        want: Some(RuleKind::PatternRefused),
    },
    Large {
        form: b"route",
        front: b"",
        pieces: [(b"(", 1_000), (b")", 1_000)],
        end: b" continue",
        want: Some(RuleKind::BadPattern),
    },
    Large {
        form: b"route-run",
        front: b"send:",
        pieces: [(b"${", 60_000), (b"", 0)],
        end: b"",
        want: Some(RuleKind::BadTemplate),
    },
    Large {
        form: b"route-run",
        front: b"send:",
        pieces: [(b"${a}", 60_000), (b"", 0)],
        end: b"",
        want: None,
    },
    Large {
        form: b"route-run",
        front: b"cache:key=k",
        pieces: [(b",key=k", 1_000), (b"", 0)],
        end: b"",
        want: Some(RuleKind::BadRule),
    },
    Large {
        form: b"route-run",
        front: b"cache:key=k",
        pieces: [(b",", 300_000), (b"", 0)],
        end: b"",
        want: Some(RuleKind::BadRule),
    },
];

#[test]
fn large_texts_have_their_one_answer(rt: HostRuntime) -> Result<(), Fail> {
    for large in LARGE {
        let Large {
            form,
            front,
            pieces,
            end,
            want,
        } = large;
        let mut text = front.to_vec(rt.alloc())?;
        for (piece, count) in pieces {
            for _ in 0..count {
                text.extend_from_slice(piece)?;
            }
        }
        text.extend_from_slice(end)?;
        let found = kind(&rt, rt.alloc(), form, text.as_slice())?;
        assert_eq!(rt; found, want, "{front:?}");
    }
    Ok(())
}

const NOT_AHEAD: RulesError = RulesError::Refused {
    line: 1,
    kind: RuleKind::LabelNotAhead,
};

const TOO_MANY: RulesError = RulesError::Refused {
    line: 4_097,
    kind: RuleKind::TooManyRules,
};

const CONTINUE: Row = (b"route-run", b"continue");

const GOTO: Row = (b"route-run", b"goto:end");

// The first line of a table, the last one behind 4095 others where there is one, and what the table says.
const FULL: [(Row, Option<Row>, Result<usize, RulesError>); 4] = [
    (GOTO, None, Err(NOT_AHEAD)),
    (GOTO, Some((b"route-label", b"end")), Err(NOT_AHEAD)),
    (CONTINUE, None, Ok(4_096)),
    (CONTINUE, Some((b"route-label", b"a b")), Err(TOO_MANY)),
];

#[test]
fn a_table_has_4096_rules(rt: HostRuntime) -> Result<(), Fail> {
    let alloc = rt.alloc();
    for ((form, text), last, want) in FULL {
        let mut lines = RuleLineList::new(alloc);
        put(alloc, &mut lines, form, text)?;
        for _ in 1..4_096 {
            put(alloc, &mut lines, b"route-run", b"continue")?;
        }
        if let Some((form, text)) = last {
            put(alloc, &mut lines, form, text)?;
        }
        let found = outcome(read(&rt, alloc, &lines, &[], &[]));
        assert_eq!(rt; found, want, "{text:?} {last:?}");
    }
    Ok(())
}

// How many rules there are, or why there are none.
fn outcome(table: Result<RuleTable, RulesError>) -> Result<usize, RulesError> {
    match table {
        Ok(table) => Ok(table.len()),
        Err(error) => Err(error),
    }
}

// The bytes of a template without forms.
fn fixed(template: &Template) -> &[u8] {
    template.fixed().unwrap_or(b"not fixed")
}

#[test]
fn rules_name_subjects_caches_and_rules(rt: HostRuntime) -> Result<(), Fail> {
    let lines = lines(
        rt.alloc(),
        &[
            (b"route-host", b"^www\\. goto:out"),
            (
                b"route-if-not",
                b"equal:x;y cacheset:name=b,key=k,value=v,expires=5,var=r",
            ),
            (b"route-label", b"out"),
            (b"route-run", b"cacheinc:key=n"),
            (b"route-run", b"addvar:K=a=b,c"),
        ],
    )?;
    let table = read(&rt, rt.alloc(), &lines, &[b"a", b"b"], &[])?;
    let [goto, set, label, math, var] = table.as_slice() else {
        panic!(rt; "five rules");
    };
    match goto {
        Rule::Act {
            test: Test::Matches { subject, pattern },
            action: Action::Goto { rule },
        } => {
            assert_eq!(rt; subject.variable(), b"HTTP_HOST".as_slice());
            assert_eq!(rt; (pattern.as_str(), *rule), ("^www\\.", 2));
        }
        _ => panic!(rt; "a pattern and a goto"),
    }
    match set {
        Rule::Act {
            test: Test::Holds {
                negated,
                condition: Condition::Equal { text, other },
            },
            action: Action::CacheSet(write),
        } => {
            assert!(rt; *negated && write.var.is_some());
            let texts: [&[u8]; 4] = [b"x", b"y", b"k", b"v"];
            let found = [
                fixed(text),
                fixed(other),
                fixed(&write.key),
                fixed(&write.value),
            ];
            assert_eq!(rt; found, texts);
            assert_eq!(rt; (write.expires, write.cache), (5, Some(1)));
        }
        _ => panic!(rt; "a condition and a write"),
    }
    assert!(rt; matches!(label, Rule::Label));
    match math {
        Rule::Act {
            test: Test::Always,
            action: Action::CacheMath {
                op,
                key,
                amount,
                expires,
                cache,
                ..
            },
        } => {
            assert_eq!(rt; fixed(key), b"n".as_slice());
            assert_eq!(rt; (*op, *amount, *expires, *cache), (MathOp::Inc, 1, 0, None));
        }
        _ => panic!(rt; "a calculation"),
    }
    match var {
        Rule::Act {
            action: Action::AddVar { key, value },
            ..
        } => {
            assert_eq!(rt; key.as_slice(), b"K".as_slice());
            assert_eq!(rt; fixed(value), b"a=b,c".as_slice());
        }
        _ => panic!(rt; "a variable"),
    }
    Ok(())
}

#[test]
fn rules_of_tasks_name_areas_and_variables(rt: HostRuntime) -> Result<(), Fail> {
    let lines = lines(
        rt.alloc(),
        &[
            (b"spool-run", b"areainc:area=3,at=8,width=16,var=n"),
            (b"spool-run", b"spool:a=b=c,=d"),
            (b"spool-run", b"spool-end:-2"),
        ],
    )?;
    let table = read(&rt, rt.alloc(), &lines, &[], &[])?;
    let [count, spool, end] = table.as_slice() else {
        panic!(rt; "three rules");
    };
    let counted = AreaStep::IncNum {
        at: 8,
        width: Width::W16,
        by: 1,
    };
    match count {
        Rule::Act {
            action: Action::Area { area, step, .. },
            ..
        } => {
            assert_eq!(rt; (*area, *step), (3, counted));
        }
        _ => panic!(rt; "an area"),
    }
    match spool {
        Rule::Act {
            action: Action::Spool { pairs },
            ..
        } => {
            let [first, last] = pairs.as_slice() else {
                panic!(rt; "two variables");
            };
            let texts: [&[u8]; 4] = [b"a", b"b=c", b"", b"d"];
            let found = [
                first.key.as_slice(),
                fixed(&first.value),
                last.key.as_slice(),
                fixed(&last.value),
            ];
            assert_eq!(rt; found, texts);
        }
        _ => panic!(rt; "a task"),
    }
    match end {
        Rule::Act {
            action: Action::SpoolEnd { status },
            ..
        } => assert_eq!(rt; *status, -2),
        _ => panic!(rt; "the end of a task"),
    }
    Ok(())
}
