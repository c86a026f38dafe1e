// The maker of patterns, through its trait.
use regex::bytes::Regex;
use std::alloc::{AllocError, Global};
use std::test::Fail;
use uw_rules::{Built, Patterns, RegexPatterns};

// What a maker answers, without the pattern.
#[derive(Clone, Copy, Debug, PartialEq, Eq)]
enum Kind {
    Pattern,
    Syntax,
    Refused,
    Memory,
}

fn kind_of(built: &Built) -> Kind {
    match built {
        Built::Pattern(_) => Kind::Pattern,
        Built::Syntax => Kind::Syntax,
        Built::Refused => Kind::Refused,
        Built::Memory => Kind::Memory,
    }
}

// The kind of what a maker makes of the text.
fn made<M: Patterns>(alloc: Global, make: &mut M, text: &str) -> Kind {
    kind_of(&make.build(alloc, text))
}

// The maker that refuses the calls with these numbers.
fn maker(alloc: Global, refuse: &[u64]) -> Result<RegexPatterns, AllocError> {
    Ok(RegexPatterns::new(refuse.to_vec(alloc)?))
}

const TEXTS: [(&str, Kind); 20] = [
    ("", Kind::Pattern),
    ("^/old/(.*)$", Kind::Pattern),
    ("^/(\\d+)/", Kind::Pattern),
    ("\\.php$", Kind::Pattern),
    ("(?i)^www\\.", Kind::Pattern),
    ("^\\p{L}+$", Kind::Pattern),
    ("(?-u)\\xFF", Kind::Pattern),
    ("é|ß", Kind::Pattern),
    ("(", Kind::Syntax),
    ("a)", Kind::Syntax),
    ("[", Kind::Syntax),
    ("*", Kind::Syntax),
    ("a{2,1}", Kind::Syntax),
    ("\\", Kind::Syntax),
    ("(a)\\1", Kind::Syntax),
    ("(?=a)", Kind::Syntax),
    ("\\p{Nope}", Kind::Syntax),
    ("(a{1000}){1000}", Kind::Refused),
    ("((a{100}){100}){100}", Kind::Refused),
    ("\\w{1000}", Kind::Refused),
];

// A pattern weighs at most 2,500.
const WEIGHED: [(&str, Kind); 28] = [
    // A byte weighs 1, a class 2, and one of hundreds of ranges more.
    ("a{2500}", Kind::Pattern),
    ("a{2501}", Kind::Refused),
    ("[ab]{1250}", Kind::Pattern),
    ("[ab]{1251}", Kind::Refused),
    ("\\w{92}", Kind::Pattern),
    ("\\w{93}", Kind::Refused),
    ("\\pL{108}", Kind::Pattern),
    ("\\pL{109}", Kind::Refused),
    ("é{1250}", Kind::Pattern),
    ("é{1251}", Kind::Refused),
    // So do what is empty, assertions, branches and groups.
    ("(?:a\\b){833}", Kind::Pattern),
    ("(?:a\\b){834}", Kind::Refused),
    ("(?:ab|cd|){208}", Kind::Pattern),
    ("(?:ab|cd|){209}", Kind::Refused),
    ("(a){500}", Kind::Pattern),
    ("(a){501}", Kind::Refused),
    // A count multiplies, and a copy that may be left out weighs 2 more.
    ("(?:a{50}){50}", Kind::Pattern),
    ("(?:a{50}){51}", Kind::Refused),
    ("(?:[ab]{1,280}){1,280}[^ab]", Kind::Refused),
    ("a{0,833}", Kind::Pattern),
    ("a{0,834}", Kind::Refused),
    ("(?x)a { 25 # a count\n01 }", Kind::Refused),
    ("a{2000}{0}", Kind::Pattern),
    // A repetition without an upper bound weighs three times what it repeats, and 2.
    ("(?:a{832})*", Kind::Pattern),
    ("(?:a{833})+", Kind::Refused),
    ("a{833,}", Kind::Refused),
    ("((((a*)*)*)*)*", Kind::Pattern),
    ("(((((a*)*)*)*)*)*", Kind::Refused),
];

// Those that cost most of the light ones, as far as they were found: bench/rules/patterns times them.
const HEAVIEST: [&str; 12] = [
    "[ab]*a[ab]{1244}[^ab]",
    "[ab]*a\\w{92}[^ab]",
    "\\w*[aé]\\w{88}\\W",
    "[ab]*a[ab]{20}a{2440}[^ab]",
    "[ab]*a[ab]{622}(?:[ab]?){311}[^ab]",
    "[ab]*a\\w{86}[ab]*?[^é]{50}babba[ab]*$",
    "[ab]*a[a-c]*?[ab]{1,600}[^é]+\\b(?:([ab])|[a-c]{5,10})",
    "[ab]*a([ab]){414}[^ab]",
    "[ab]*a(?:\\B[ab]){622}[^ab]",
    "[ab]*a(?:[ab]{20}){1,59}[^ab]",
    "(?:[ab]{1,24}){1,24}[^ab]",
    "[ab]*a(?:(?:(?:(?:[ab]?){22})*)*)*[^ab]",
];

// Such as stand in configurations.
const SANE: [&str; 9] = [
    "\\w{64}",
    "^[\\w.-]{1,64}$",
    "(?-u)^[\\w.-]{1,255}$",
    "^[0-9a-f]{8}(-[0-9a-f]{4}){3}-[0-9a-f]{12}$",
    "^/[a-z0-9_-]{1,64}(/[a-z0-9_-]{1,64}){0,7}$",
    "(?i)^(www\\.)?example\\.(org|com|net)$",
    "^((25[0-5]|2[0-4]\\d|1?\\d?\\d)\\.){3}(25[0-5]|2[0-4]\\d|1?\\d?\\d)$",
    "^/(\\d{4})/(\\d{2})/(\\d{2})/([^/]+?)(\\.html?)?$",
    "\\.(png|jpe?g|gif|webp|svg|css|js|woff2?|ico)$",
];

#[test]
fn texts_are_patterns_or_not(rt: HostRuntime) -> Result<(), Fail> {
    let mut make = maker(rt.alloc(), &[])?;
    for rows in [TEXTS.as_slice(), WEIGHED.as_slice()] {
        for (text, want) in rows {
            assert_eq!(rt; made(rt.alloc(), &mut make, text), *want, "{text}");
        }
    }
    for texts in [SANE.as_slice(), HEAVIEST.as_slice()] {
        for text in texts {
            assert_eq!(rt; made(rt.alloc(), &mut make, text), Kind::Pattern, "{text}");
        }
    }
    Ok(())
}

// So many words of ten letters, of which one is to match.
fn words(alloc: Global, count: u32) -> Result<String, AllocError> {
    let mut text = String::new(alloc);
    for number in 0..count {
        if number > 0 {
            text.push('|')?;
        }
        write!(text, "{number:010}")?;
    }
    Ok(text)
}

// Groups that nest so deep.
fn nested(alloc: Global, depth: usize) -> Result<String, AllocError> {
    let mut text = String::new(alloc);
    for _ in 0..depth {
        text.push('(')?;
    }
    for _ in 0..depth {
        text.push(')')?;
    }
    Ok(text)
}

#[test]
fn words_and_groups_have_their_most(rt: HostRuntime) -> Result<(), Fail> {
    let mut make = maker(rt.alloc(), &[])?;
    for (count, want) in [(200, Kind::Pattern), (250, Kind::Refused)] {
        let text = words(rt.alloc(), count)?;
        assert_eq!(rt; made(rt.alloc(), &mut make, &text), want, "{count}");
    }
    let depths = [
        (1, Kind::Pattern),
        (250, Kind::Pattern),
        (251, Kind::Syntax),
        (1000, Kind::Syntax),
        (30_000, Kind::Syntax),
    ];
    for (depth, want) in depths {
        let text = nested(rt.alloc(), depth)?;
        assert_eq!(rt; made(rt.alloc(), &mut make, &text), want, "{depth}");
    }
    Ok(())
}

// The calls after the refused ones are made as ever.
#[test]
fn listed_calls_are_refused(rt: HostRuntime) -> Result<(), Fail> {
    let mut make = maker(rt.alloc(), &[1, 4])?;
    let rows = [
        ("a", Kind::Refused),
        ("a", Kind::Pattern),
        ("(", Kind::Syntax),
        ("(", Kind::Refused),
        ("a", Kind::Pattern),
    ];
    for (text, want) in rows {
        assert_eq!(rt; made(rt.alloc(), &mut make, text), want, "{text}");
    }
    Ok(())
}

// Where the first match of a pattern lies, and its first group.
fn places(
    alloc: Global,
    regex: &Regex,
    subject: &[u8],
) -> Result<Option<((usize, usize), Option<(usize, usize)>)>, AllocError> {
    let mut matcher = regex.matcher(alloc)?;
    let Some(captures) = matcher.captures(subject) else {
        return Ok(None);
    };
    let Some(whole) = captures.get(0) else {
        return Ok(None);
    };
    let group = captures.get(1).map(|g| (g.start(), g.end()));
    Ok(Some(((whole.start(), whole.end()), group)))
}

// A search is one in bytes: a subject need not be text.
#[test]
fn a_pattern_finds_its_first_match_and_groups(rt: HostRuntime) -> Result<(), Fail> {
    let rows: [(
        &str,
        &[u8],
        Option<((usize, usize), Option<(usize, usize)>)>,
    ); 7] = [
        ("^/old/(.*)$", b"/old/a/b", Some(((0, 8), Some((5, 8))))),
        ("^/old/(.*)$", b"/new/a", None),
        ("^/(\\d+)/", b"/17/x", Some(((0, 4), Some((1, 3))))),
        ("\\.php$", b"/a.php", Some(((2, 6), None))),
        ("(?i)b(a)?", b"xB\xFF", Some(((1, 2), None))),
        ("(?-u)(\\xFF)", b"a\xFF", Some(((1, 2), Some((1, 2))))),
        ("", b"\xC3", Some(((0, 0), None))),
    ];
    let mut make = maker(rt.alloc(), &[])?;
    for (text, subject, want) in rows {
        let Built::Pattern(regex) = make.build(rt.alloc(), text) else {
            return Err(Fail::new("not built"));
        };
        assert_eq!(rt; places(rt.alloc(), &regex, subject)?, want, "{text}");
    }
    Ok(())
}
