// Templates by examples; what is filled in was worked out by another program.
use std::alloc::Global;
use std::process::Abort;
use std::test::Fail;
use uw_base::{Bytes, BytesList, Vars};
use uw_subst::{Filled, SubstFault, Template};

// The variables and captures of the examples.
const VARS: [(&[u8], &[u8]); 12] = [
    (b"A", b"foobar"),
    (b"B", b"first"),
    (b"QUERY_STRING", b"p=1&q=a%20b"),
    (b"B", b""),
    (b"", b"nameless"),
    (b"high", b"\xff\x80"),
    (b"${", b"odd"),
    (b"f", b"f"),
    (b"fo", b"fo"),
    (b"foo", b"foo"),
    (b"time", b"noon"),
    (b"x]", b"never"),
];

const CAPTURES: [&[u8]; 3] = [b"one", b"", b"three$1"];

fn vars_of(alloc: Global, pairs: &[(&[u8], &[u8])]) -> Result<Vars, Fail> {
    let mut vars = Vars::new(alloc);
    for (key, value) in pairs {
        vars.set(key, value)?;
    }
    Ok(vars)
}

fn captures_of(alloc: Global, texts: &[&[u8]]) -> Result<BytesList, Fail> {
    let mut captures = BytesList::new(alloc);
    for text in texts {
        captures.push(Bytes::from_slice(alloc, text)?)?;
    }
    Ok(captures)
}

fn read(rt: &impl Abort, alloc: Global, text: &[u8]) -> Result<Template, SubstFault> {
    assert!(rt; text.len() < 1 << 20);
    Template::read(alloc, text)
}

// The filled text; none where it is too long.
fn filled(
    rt: &impl Abort,
    alloc: Global,
    text: &[u8],
    vars: &Vars,
    captures: &BytesList,
    moment: u64,
) -> Result<Option<Bytes>, Fail> {
    match read(rt, alloc, text)?.fill(alloc, vars, captures, moment)? {
        Filled::Text(text) => Ok(Some(text)),
        Filled::TooLong => Ok(None),
    }
}

// Templates, each with what it is filled to.
const TEMPLATES: [(&[u8], &[u8]); 27] = [
    (
        b"${time[unix]} ${httptime[0]} ${base64[A]} ${qs[q]}",
        b"784111777 Sun, 06 Nov 1994 08:49:37 GMT Zm9vYmFy a b",
    ),
    (b"", b""),
    (b"plain text", b"plain text"),
    (b"cost: 5$", b"cost: 5$"),
    (b"$$", b"$$"),
    (b"$0", b"$0"),
    (b"$a{", b"$a{"),
    (b"$$1", b"$one"),
    (b"$1-$2-$3-$4-$9", b"one--three$1--"),
    (b"$12", b"one2"),
    (b"<${A}${A}>", b"<foobarfoobar>"),
    (b"${B}", b""),
    (b"${none}", b""),
    (b"${time}", b"noon"),
    (b"${${}", b"odd"),
    (b"a}b", b"a}b"),
    (b"\xff\xfe${high}\x00", b"\xff\xfe\xff\x80\x00"),
    (b"${base64[high]}", b"/4A="),
    (b"${base64[]}", b"bmFtZWxlc3M="),
    (b"${base64[none]}", b""),
    (
        b"${base64[f]} ${base64[fo]} ${base64[foo]}",
        b"Zg== Zm8= Zm9v",
    ),
    (b"${qs[p]}${qs[]}", b"1"),
    (b"${httptime[]}", b"Sun, 06 Nov 1994 08:49:37 GMT"),
    (b"${httptime[86400]}", b"Mon, 07 Nov 1994 08:49:37 GMT"),
    (b"${httptime[18446744073709551615]}.", b"."),
    (b"${qs[a]b]}", b""),
    (b"${base64[x[]]}", b""),
];

// Queries and dates: a query, a moment, a template, and what it is filled to.
const QUERIES: [(&[u8], u64, &[u8], &[u8]); 28] = [
    (b"", 0, b"${qs[a]}", b""),
    (b"a=1&b=2", 0, b"${qs[b]}", b"2"),
    (b"a=1&a=2", 0, b"${qs[a]}", b"1"),
    (b"a=1", 0, b"${qs[b]}", b""),
    (b"a", 0, b"${qs[a]}", b""),
    (b"=x&a=1", 0, b"${qs[]}", b"x"),
    (b"&&a=1", 0, b"${qs[]}", b""),
    (b"a+b=c+d", 0, b"${qs[a b]}", b"c d"),
    (b"%61=%zz%3D%26", 0, b"${qs[a]}", b"%zz=&"),
    (b"a=1=2", 0, b"${qs[a]}", b"1=2"),
    (b"a=%ff", 0, b"${qs[a]}", b"\xef\xbf\xbd"),
    (
        b"n%C3%A9=%E2%82%AC",
        0,
        b"${qs[n\xc3\xa9]}",
        b"\xe2\x82\xac",
    ),
    (b"A=1&a=2", 0, b"${qs[a]}", b"2"),
    (b"a=&a=2", 0, b"${qs[a]}", b""),
    (b"a%3D=1", 0, b"${qs[a=]}", b"1"),
    (b"%ff=1", 0, b"${qs[\xff]}", b""),
    (b"", 0, b"${httptime[]}", b"Thu, 01 Jan 1970 00:00:00 GMT"),
    (b"", 0, b"${httptime[1]}", b"Thu, 01 Jan 1970 00:00:01 GMT"),
    (
        b"",
        253402300799,
        b"${httptime[]}",
        b"Fri, 31 Dec 9999 23:59:59 GMT",
    ),
    (b"", 253402300799, b"${httptime[1]}", b""),
    (b"", 253402300800, b"${httptime[]}", b""),
    (
        b"",
        18446744073709551615,
        b"${httptime[18446744073709551615]}",
        b"",
    ),
    (b"", 18446744073709551615, b"${httptime[1]}", b""),
    (
        b"",
        951782399,
        b"${httptime[]}",
        b"Mon, 28 Feb 2000 23:59:59 GMT",
    ),
    (
        b"",
        951782400,
        b"${httptime[]}",
        b"Tue, 29 Feb 2000 00:00:00 GMT",
    ),
    (
        b"",
        4107542399,
        b"${httptime[1]}",
        b"Mon, 01 Mar 2100 00:00:00 GMT",
    ),
    (
        b"",
        1709164800,
        b"${httptime[0]}",
        b"Thu, 29 Feb 2024 00:00:00 GMT",
    ),
    (
        b"",
        68169599,
        b"${httptime[1]}",
        b"Tue, 29 Feb 1972 00:00:00 GMT",
    ),
];

#[test]
fn templates_are_filled(rt: HostRuntime) -> Result<(), Fail> {
    let vars = vars_of(rt.alloc(), &VARS)?;
    let captures = captures_of(rt.alloc(), &CAPTURES)?;
    for (text, want) in TEMPLATES {
        let got = filled(&rt, rt.alloc(), text, &vars, &captures, 784_111_777)?.ok_or("too long")?;
        assert_eq!(rt; got.as_slice(), want, "{text:?}");
    }
    Ok(())
}

// The first pair of a query counts, and dates end with the year 9999.
#[test]
fn queries_and_moments_are_filled_in(rt: HostRuntime) -> Result<(), Fail> {
    let captures = BytesList::new(rt.alloc());
    for (query, moment, text, want) in QUERIES {
        let vars = vars_of(rt.alloc(), &[(b"QUERY_STRING", query)])?;
        let got = filled(&rt, rt.alloc(), text, &vars, &captures, moment)?.ok_or("too long")?;
        assert_eq!(rt; got.as_slice(), want, "{text:?} of {query:?} at {moment}");
    }
    Ok(())
}

// Templates, and the place of the dollar of each that is bad.
const PLACES: [(&[u8], Option<u32>); 25] = [
    (b"${", Some(0)),
    (b"$", None),
    (b"a${", Some(1)),
    (b"ab${A", Some(2)),
    (b"${}", Some(0)),
    (b"$1${}", Some(2)),
    (b"${a]}", Some(0)),
    (b"${]}", Some(0)),
    (b"${A}${a]b[c]}", Some(4)),
    (b"${[x]}", Some(0)),
    (b"${qs[}", Some(0)),
    (b"${qs[x}", Some(0)),
    (b"${qs[x]y}", Some(0)),
    (b"${QS[x]}", Some(0)),
    (b"${qs2[x]}", Some(0)),
    (b"${time[]}", Some(0)),
    (b"${time[x]}", Some(0)),
    (b"${time[unix ]}", Some(0)),
    (b"${httptime[ 1]}", Some(0)),
    (b"${httptime[-1]}", Some(0)),
    (b"${httptime[18446744073709551616]}", Some(0)),
    (b"${httptime[99999999999999999999]}", Some(0)),
    (b"${httptime[000000000000000000001]}", Some(0)),
    (b"$$${}", Some(2)),
    (b"${A}}${A]}", Some(5)),
];

#[test]
fn a_bad_template_names_the_place_of_its_dollar(rt: HostRuntime) {
    for (text, want) in PLACES {
        let fault = want.map(|at| SubstFault::BadTemplate { at });
        assert_eq!(rt; read(&rt, rt.alloc(), text).err(), fault, "{text:?}");
    }
}

// In each row: the template, the length of the variable's value, and the length of the filled text.
#[test]
fn a_filled_text_has_at_most_65536_bytes(rt: HostRuntime) -> Result<(), Fail> {
    let rows: [(&[u8], usize, Option<usize>); 9] = [
        (b"${v}", 65_536, Some(65_536)),
        (b"${v}", 65_537, None),
        (b"${v}a", 65_535, Some(65_536)),
        (b"${v}a", 65_536, None),
        (b"${v}${v}", 32_768, Some(65_536)),
        (b"${base64[v]}", 49_152, Some(65_536)),
        (b"${base64[v]}", 49_153, None),
        (b"${v}${time[unix]}", 65_526, Some(65_536)),
        (b"${v}${time[unix]}", 65_527, None),
    ];
    let captures = BytesList::new(rt.alloc());
    for (text, len, want) in rows {
        let value = vec![in rt.alloc(); b'v'; len]?;
        let vars = vars_of(rt.alloc(), &[(b"v", value.as_slice())])?;
        let got = filled(&rt, rt.alloc(), text, &vars, &captures, 1_234_567_890)?;
        assert_eq!(rt; got.map(|text| text.len()), want, "{text:?} {len}");
        let mut out = Bytes::from_slice(rt.alloc(), b"before")?;
        let template = read(&rt, rt.alloc(), text)?;
        let fits = template.fill_into(rt.alloc(), &mut out, &vars, &captures, 1_234_567_890)?;
        assert_eq!(rt; fits, want.is_some(), "{text:?} {len}");
        assert_eq!(rt; out.len(), 6 + want.unwrap_or(0), "{text:?} {len}");
    }
    Ok(())
}

#[test]
fn a_constant_text_is_fixed(rt: HostRuntime) -> Result<(), Fail> {
    let rows: [(&[u8], bool); 6] = [
        (b"", true),
        (b"text", true),
        (b"5$ $0 $$", true),
        (b"a$1", false),
        (b"${A}", false),
        (b"$${A}b", false),
    ];
    for (text, want) in rows {
        let template = read(&rt, rt.alloc(), text)?;
        assert_eq!(rt; template.fixed(), want.then_some(text), "{text:?}");
    }
    Ok(())
}

// Sixty thousand forms are read once from front to end, and forms that no brace closes are refused at the first.
#[test]
fn long_templates_are_read_in_one_pass(rt: HostRuntime) -> Result<(), Fail> {
    let mut open = Vec::new(rt.alloc());
    let mut closed = Vec::new(rt.alloc());
    for _ in 0..60_000 {
        open.extend_from_slice(b"${")?;
        closed.extend_from_slice(b"${a}")?;
    }
    let fault = Some(SubstFault::BadTemplate { at: 0 });
    assert_eq!(rt; read(&rt, rt.alloc(), open.as_slice()).err(), fault);
    let vars = vars_of(rt.alloc(), &[(b"a", b"b")])?;
    let captures = BytesList::new(rt.alloc());
    let got = filled(&rt, rt.alloc(), closed.as_slice(), &vars, &captures, 0)?;
    assert_eq!(rt; got.map(|text| text.len()), Some(60_000));
    open.push(b'}')?;
    assert_eq!(rt; read(&rt, rt.alloc(), open.as_slice()).err(), None);
    Ok(())
}
