// Configurations by worked examples.
use std::alloc::Global;
use std::process::Abort;
use std::test::Fail;
use uw_base::Memory;
use uw_conf::{Conf, ConfError, ConfKind, read_conf};
use uw_rules::{RegexPatterns, RuleKind};

// What a text says, where a maker refuses the patterns with these numbers.
fn read(rt: &impl Abort, alloc: Global, text: &[u8], refuse: &[u64]) -> Result<Conf, ConfError> {
    assert!(rt; text.len() < 2_000_000);
    let refused = match refuse.to_vec(alloc) {
        Ok(refused) => refused,
        Err(_) => return Err(ConfError::Memory),
    };
    read_conf(alloc, text, &mut RegexPatterns::new(refused))
}

// The refused line of a text with the kind of the refusal, if there is one.
fn refusal(
    rt: &impl Abort,
    alloc: Global,
    text: &[u8],
    refuse: &[u64],
) -> Result<Option<(u32, ConfKind)>, Memory> {
    match read(rt, alloc, text, refuse) {
        Ok(_) => Ok(None),
        Err(ConfError::Refused(fault)) => Ok(Some((fault.line, fault.kind))),
        Err(ConfError::Memory) => Err(Memory),
    }
}

// A text, and its refused line with the kind of the refusal, if there is one.
type Row = (&'static [u8], Option<(u32, ConfKind)>);

const AREA_TOO_LARGE: ConfKind = ConfKind::TooLarge {
    bytes: 1_073_758_528,
    limit: 1_073_741_824,
};

const NOT_AHEAD: ConfKind = ConfKind::Rule(RuleKind::LabelNotAhead);

const UNKNOWN: ConfKind = ConfKind::Rule(RuleKind::UnknownAction);

const NO_NAME: ConfKind = ConfKind::Rule(RuleKind::UnknownName);

// Lines of options, and what is refused of each text.
const LINES: [Row; 16] = [
    (b"workers = 1\n", Some((1, ConfKind::BadLine))),
    (b"\nnonsense\n[uwsgi]\n", Some((2, ConfKind::BadLine))),
    (b"[uwsgi]\nworkers\n", Some((2, ConfKind::BadLine))),
    (b"[uwsgi]\n = 1\n", Some((2, ConfKind::BadLine))),
    (b"[uwsgi]\n[uwsgi", Some((2, ConfKind::BadLine))),
    (b"[uwsgi]\n; \xff\n", Some((2, ConfKind::BadLine))),
    (b"[other]\nworkers = \xff\n", Some((2, ConfKind::BadLine))),
    (
        b"[uwsgi]\nmaster = 1\nbuffersize = 1\n",
        Some((3, ConfKind::UnknownOption)),
    ),
    (b"[uwsgi]\nworkers = 65\n", Some((2, ConfKind::BadValue))),
    (
        b"[uwsgi]\nworkers = 0\nnonsense\n",
        Some((2, ConfKind::BadValue)),
    ),
    (b"[uwsgi]\nsocket =\n", Some((2, ConfKind::BadValue))),
    (
        b"[uwsgi]\nworkers = 000000000000000000001\n",
        Some((2, ConfKind::BadValue)),
    ),
    (b"[uwsgi]\nharakiri = 86401", Some((2, ConfKind::BadValue))),
    (b"[other]\nworkers = 65\n=\nnonsense\n", None),
    (b"", None),
    (b"\n;\n#\n", None),
];

// Lines of caches.
const CACHES: [Row; 15] = [
    (b"[uwsgi]\ncache2 = name=a\n", Some((2, ConfKind::Missing))),
    (b"[uwsgi]\ncache2 = items=1\n", Some((2, ConfKind::Missing))),
    (b"[uwsgi]\ncache2 =\n", Some((2, ConfKind::BadValue))),
    (
        b"[uwsgi]\ncache2 = name=a,items=1,\n",
        Some((2, ConfKind::BadValue)),
    ),
    (
        b"[uwsgi]\ncache2 = name=a,items=0,items=1\n",
        Some((2, ConfKind::BadValue)),
    ),
    (
        b"[uwsgi]\ncache2 = name=a,items=1,hash=crc32\n",
        Some((2, ConfKind::BadValue)),
    ),
    (
        b"[uwsgi]\ncache2 = name=a,items=1,bitmap=yes\n",
        Some((2, ConfKind::BadValue)),
    ),
    (
        b"[uwsgi]\ncache2 = items=x,colour=1\n",
        Some((2, ConfKind::UnknownOption)),
    ),
    (
        b"[uwsgi]\ncache2 = name=a, items=1\n",
        Some((2, ConfKind::UnknownOption)),
    ),
    (
        b"[uwsgi]\ncache2 = name=a,items=1\ncache2 = name=b,items=1\ncache2 = name=a,items=2\n",
        Some((4, ConfKind::NameTwice)),
    ),
    (
        b"[uwsgi]\ncache2 = name=a,items=20000\n",
        Some((
            2,
            ConfKind::TooLarge {
                bytes: 1_361_014_048,
                limit: 1_073_741_824,
            },
        )),
    ),
    (
        b"[uwsgi]\ncache2 = name=a,items=1020,blocksize=1048576,keysize=8,hashsize=441345\n",
        None,
    ),
    (
        b"[uwsgi]\ncache2 = name=a,items=1020,blocksize=1048576,keysize=8,hashsize=441346\n",
        Some((
            2,
            ConfKind::TooLarge {
                bytes: 1_073_741_832,
                limit: 1_073_741_824,
            },
        )),
    ),
    (
        b"[uwsgi]\ncache2 = name=a,items=20000,bitmap=1\ncache2 = name=a\n",
        Some((
            2,
            ConfKind::TooLarge {
                bytes: 1_361_014_048,
                limit: 1_073_741_824,
            },
        )),
    ),
    (b"[other]\ncache2 = colour\n", None),
];

// Lines of areas.
const AREAS: [Row; 16] = [
    (b"[uwsgi]\nsharedarea = 4096\nsharedarea=1", None),
    (b"[uwsgi]\nsharedarea = pages=4096\n", None),
    (
        b"[uwsgi]\nsharedarea = size=1\nsharedarea = size=16777216\n",
        None,
    ),
    (b"[other]\nsharedarea = 0\n", None),
    (b"[uwsgi]\nsharedarea =\n", Some((2, ConfKind::BadValue))),
    (b"[uwsgi]\nsharedarea = 0\n", Some((2, ConfKind::BadValue))),
    (
        b"[uwsgi]\nsharedarea = 4097\n",
        Some((2, ConfKind::BadValue)),
    ),
    (
        b"[uwsgi]\nsharedarea = pages=0\n",
        Some((2, ConfKind::BadValue)),
    ),
    (
        b"[uwsgi]\nsharedarea = size=0\n",
        Some((2, ConfKind::BadValue)),
    ),
    (
        b"[uwsgi]\nsharedarea = size=16777217\n",
        Some((2, ConfKind::BadValue)),
    ),
    (
        b"[uwsgi]\nsharedarea = size = 16\n",
        Some((2, ConfKind::BadValue)),
    ),
    (
        b"[uwsgi]\nsharedarea = bytes=3\n",
        Some((2, ConfKind::BadValue)),
    ),
    (
        b"[uwsgi]\nsharedarea = 1,2\n",
        Some((2, ConfKind::BadValue)),
    ),
    (
        b"[uwsgi]\ncache2 = name=a,items=1020,blocksize=1048576,keysize=8,hashsize=441345\nsharedarea = 1\n",
        Some((3, AREA_TOO_LARGE)),
    ),
    (
        b"[uwsgi]\nsharedarea = 1\ncache2 = name=a,items=1020,blocksize=1048576,keysize=8,hashsize=441345\n",
        Some((3, AREA_TOO_LARGE)),
    ),
    (
        b"[uwsgi]\nsharedarea = 1\ncache2 = name=a,items=1020,blocksize=1048576,keysize=8,hashsize=439257\n",
        None,
    ),
];

// The tables of requests and of tasks stand apart.
const TWO_TABLES: [Row; 13] = [
    (b"[uwsgi]\nroute-label = a\nspool-label = a\n", None),
    (
        b"[uwsgi]\nroute-run = goto:a\nspool-label = a\n",
        Some((2, NOT_AHEAD)),
    ),
    (
        b"[uwsgi]\nspool-run = goto:a\nroute-label = a\n",
        Some((2, NOT_AHEAD)),
    ),
    (b"[uwsgi]\nspool-run = send:x\n", Some((2, UNKNOWN))),
    (b"[uwsgi]\nroute-run = spool-end:0\n", Some((2, UNKNOWN))),
    (
        b"[uwsgi]\nspool-run = spool-end:-1\nroute-run = spool:a=b\n",
        None,
    ),
    (
        b"[uwsgi]\nroute-run = nothing\nspool-run = goto:a\n",
        Some((2, UNKNOWN)),
    ),
    (
        b"[uwsgi]\nspool-run = goto:a\nroute-run = nothing\n",
        Some((2, NOT_AHEAD)),
    ),
    (
        b"[uwsgi]\nspool-run = goto:a\nworkers = 0\nroute-run = nothing\n",
        Some((2, NOT_AHEAD)),
    ),
    (
        b"[uwsgi]\nworkers = 0\nspool-run = goto:a\n",
        Some((2, ConfKind::BadValue)),
    ),
    (
        b"[uwsgi]\nroute-run = areaupdates:area=0,var=v\n",
        Some((2, NO_NAME)),
    ),
    (
        b"[uwsgi]\nroute-run = areaupdates:area=0,var=v\nsharedarea = 1\n",
        None,
    ),
    (
        b"[uwsgi]\nspool-run = areaupdates:area=1,var=v\nsharedarea = 1\nsharedarea = 0\n",
        Some((2, NO_NAME)),
    ),
];

// Lines of rules, in their order with other lines.
const RULES: [Row; 12] = [
    (b"[uwsgi]\nroute = ^/old/(.*)$ redirect:/new/$1\n", None),
    (
        b"[uwsgi]\nroute-label = a\nroute-run = goto:a\n",
        Some((3, ConfKind::Rule(RuleKind::LabelNotAhead))),
    ),
    (
        b"[uwsgi]\nroute = ( break\n",
        Some((2, ConfKind::Rule(RuleKind::BadPattern))),
    ),
    (
        b"[uwsgi]\nroute-run = cachedel:key=a\n",
        Some((2, ConfKind::Rule(RuleKind::UnknownName))),
    ),
    (
        b"[uwsgi]\nroute-run = cachedel:key=a\ncache2 = name=c,items=1\n",
        None,
    ),
    (
        b"[uwsgi]\nroute-run = cachedel:key=a,name=c\ncache2 = name=c,items=0\n",
        Some((2, ConfKind::Rule(RuleKind::UnknownName))),
    ),
    (
        b"[uwsgi]\nworkers = 0\nroute = ( break\n",
        Some((2, ConfKind::BadValue)),
    ),
    (
        b"[uwsgi]\nroute = ( break\nworkers = 0\n",
        Some((2, ConfKind::Rule(RuleKind::BadPattern))),
    ),
    (
        b"[uwsgi]\nroute-run = goto:a\nworkers = 0\nroute-label = a\n",
        Some((3, ConfKind::BadValue)),
    ),
    (
        b"[uwsgi]\nroute-run = goto:a\nroute-label = a b\n",
        Some((2, ConfKind::Rule(RuleKind::LabelNotAhead))),
    ),
    (b"[other]\nroute = ( break\n", None),
    (b"route = ( break\n", Some((1, ConfKind::BadLine))),
];

const REFUSED: ConfKind = ConfKind::Rule(RuleKind::PatternRefused);

// Texts whose first pattern the maker refuses.
const PATTERNS: [Row; 4] = [
    (b"[uwsgi]\nroute = a break\n", Some((2, REFUSED))),
    (b"[uwsgi]\nroute = a nothing\n", Some((2, REFUSED))),
    (
        b"[uwsgi]\nworkers = 0\nroute = a break\n",
        Some((2, ConfKind::BadValue)),
    ),
    (
        b"[uwsgi]\nroute = a break\nworkers = 0\n",
        Some((2, REFUSED)),
    ),
];

// Texts, and the patterns that the maker refuses.
const TEXTS: [(&[Row], &[u64]); 6] = [
    (&LINES, &[]),
    (&CACHES, &[]),
    (&AREAS, &[]),
    (&TWO_TABLES, &[]),
    (&RULES, &[]),
    (&PATTERNS, &[1]),
];

#[test]
fn each_refusal_names_its_line(rt: HostRuntime) -> Result<(), Fail> {
    for (rows, refuse) in TEXTS {
        for (text, want) in rows {
            let found = refusal(&rt, rt.alloc(), text, refuse)?;
            assert_eq!(rt; found, *want, "{text:?}");
        }
    }
    Ok(())
}

#[test]
fn areas_and_tasks_say_what_they_say(rt: HostRuntime) -> Result<(), Fail> {
    let text = b"[uwsgi]\nsharedarea = 2\nspool-label = a\nsharedarea = size=10\n";
    let conf = read(&rt, rt.alloc(), text, &[])?;
    assert_eq!(rt; conf.areas.as_slice(), [8_192, 10].as_slice());
    assert_eq!(rt; (conf.routes.len(), conf.tasks.len()), (0, 1));
    Ok(())
}

// Up to 16 lines of each kind are taken, and the 17th is refused.
#[test]
fn the_17th_area_and_the_17th_cache_are_bad_values(rt: HostRuntime) -> Result<(), Fail> {
    let rows: [(&[u8], &[u8]); 2] = [
        (b"sharedarea = 1", b""),
        (b"cache2 = items=1,name=", b"abcdefghijklmnopq"),
    ];
    for (line, letters) in rows {
        let mut text = b"[uwsgi]\n".to_vec(rt.alloc())?;
        for count in 0..18 {
            let want = if count == 17 {
                Some((18, ConfKind::BadValue))
            } else {
                None
            };
            let found = refusal(&rt, rt.alloc(), text.as_slice(), &[])?;
            assert_eq!(rt; found, want, "{line:?} {count}");
            text.extend_from_slice(line)?;
            if let Some(letter) = letters.get(count) {
                text.push(*letter)?;
            }
            text.push(b'\n')?;
        }
    }
    Ok(())
}

#[test]
fn a_text_of_more_than_a_mebibyte_is_refused_as_a_whole(rt: HostRuntime) -> Result<(), Fail> {
    let kind = ConfKind::TooLarge {
        bytes: 1_048_577,
        limit: 1_048_576,
    };
    for (length, want) in [(1_048_577, Some((0, kind))), (1_048_576, None)] {
        let text = vec![in rt.alloc(); b';'; length]?;
        let found = refusal(&rt, rt.alloc(), text.as_slice(), &[])?;
        assert_eq!(rt; found, want, "{length}");
    }
    Ok(())
}

// Blanks round everything, lines of both ends, comments, another section, and no line feed at the end.
const TEXT: &[u8] =
    b" [uwsgi]\t\r\n\tworkers\t = 4 \r\n# note\n  ; note\n\n[other]\nnonsense\nworkers = 9\n[uwsgi]\nbuffer-size=8192\n\
socket = /tmp/a b = c \nmaster =\nharakiri = 86400\ncache-expire-freq=5\nspooler-processes=2\nspooler-frequency=60\n\
cache2 = name=c,items=10,blocksize=100,bitmap=true,blocks=40,keysize=64,hashsize=7,purge_lru=1,sweep_on_full=0,clear_on_full=false,hash=djb33x\n\
cache2 = name=d,name=e,max-items=70000,blocks=3,blocksize=8,key_size=16\nworkers = 3";

#[test]
fn a_text_says_what_it_says(rt: HostRuntime) -> Result<(), Fail> {
    let conf = read(&rt, rt.alloc(), TEXT, &[])?;
    assert_eq!(rt;
        (conf.buffer_size, conf.workers, conf.harakiri),
        (8_192, 3, 86_400)
    );
    assert_eq!(rt;
        (conf.expire_freq, conf.spoolers, conf.spool_freq),
        (5, 2, 60)
    );
    assert_eq!(rt; conf.socket.as_slice(), b"/tmp/a b = c".as_slice());
    let [c, e] = conf.caches.as_slice() else {
        return Err(Memory.into());
    };
    assert_eq!(rt; c.name.as_slice(), b"c".as_slice());
    assert_eq!(rt; (c.items, c.blocksize, c.blocks), (10, 104, 40));
    assert_eq!(rt; (c.keysize, c.chains), (64, 7));
    assert!(rt; c.bitmap && c.purge_lru && !c.sweep_on_full && !c.clear_on_full);
    assert_eq!(rt; e.name.as_slice(), b"e".as_slice());
    assert_eq!(rt; (e.items, e.blocksize, e.blocks), (70_000, 8, 70_000));
    assert_eq!(rt; (e.keysize, e.chains), (16, 65_536));
    assert!(rt; !e.bitmap && !e.purge_lru && !e.sweep_on_full && !e.clear_on_full);
    Ok(())
}

#[test]
fn an_empty_text_says_the_defaults(rt: HostRuntime) -> Result<(), Fail> {
    let conf = read(&rt, rt.alloc(), b"", &[])?;
    assert_eq!(rt;
        (conf.buffer_size, conf.workers, conf.harakiri),
        (4_096, 1, 0)
    );
    assert_eq!(rt;
        (conf.expire_freq, conf.spoolers, conf.spool_freq),
        (3, 1, 30)
    );
    assert_eq!(rt; (conf.socket.len(), conf.caches.len()), (0, 0));
    Ok(())
}
