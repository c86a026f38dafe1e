// Lists of words with the commands that they say, and faults with their statuses and texts.
use std::alloc::{AllocError, Global};
use std::test::Fail;
use uw_conf::{ConfFault, ConfKind};
use uw_ends::{
    BadPacket, BriefList, Command, RunEnd, RunFault, WordsFault, fault_text, read_words,
};
use uw_rules::RuleKind;

#[derive(Clone, Copy)]
enum Wanted {
    Pipe(&'static [u64]),
    Spool,
    Steps,
    Load(u64, u64),
    Serve,
    Usage,
}

fn is_as_wanted(found: &Result<Command, WordsFault>, wanted: Wanted) -> bool {
    match (found, wanted) {
        (Ok(Command::Pipe { die }), Wanted::Pipe(numbers)) => die.as_slice() == numbers,
        (Ok(Command::Spool), Wanted::Spool) => true,
        (Ok(Command::Steps), Wanted::Steps) => true,
        (Ok(Command::Load { first, count }), Wanted::Load(from, many)) => *first == from
            && *count == many,
        (Ok(Command::Serve), Wanted::Serve) => true,
        (Err(WordsFault::Usage), Wanted::Usage) => true,
        _ => false,
    }
}

// The words of a line, which stand apart by one space; no words where the line is empty.
fn words_of(alloc: Global, line: &str) -> Result<Vec<String>, AllocError> {
    let mut words = Vec::new(alloc);
    for word in line.split_whitespace() {
        words.push(String::from_str(alloc, word)?)?;
    }
    Ok(words)
}

// `pipe --die` with the number 7 so many times.
fn sevens(alloc: Global, many: usize) -> Result<Vec<String>, AllocError> {
    let mut words = words_of(alloc, "pipe --die")?;
    let mut text = String::from_str(alloc, "7")?;
    for _ in 1..many {
        text.push_str(",7")?;
    }
    words.push(text)?;
    Ok(words)
}

#[test]
fn each_line_of_words_says_its_command_or_none(rt: HostRuntime) -> Result<(), Fail> {
    let rows = [
        ("", Wanted::Usage),
        ("pipe", Wanted::Pipe(&[])),
        ("pipe --die 3", Wanted::Pipe(&[3])),
        ("pipe --die=3", Wanted::Pipe(&[3])),
        ("pipe --die 3,4", Wanted::Pipe(&[3, 4])),
        ("pipe --die 1000000000", Wanted::Pipe(&[1000000000])),
        ("pipe --die 0", Wanted::Usage),
        ("pipe --die", Wanted::Usage),
        ("pipe --die=", Wanted::Usage),
        ("pipe --die 3,", Wanted::Usage),
        ("pipe --die 3 --die 4", Wanted::Usage),
        ("pipe --die 01", Wanted::Usage),
        ("pipe --die +1", Wanted::Usage),
        ("pipe --die 1000000001", Wanted::Usage),
        ("pipe x", Wanted::Usage),
        ("pipe --help", Wanted::Usage),
        ("pipe -h", Wanted::Usage),
        ("pipe --version", Wanted::Usage),
        ("load 1 9", Wanted::Load(1, 9)),
        ("load 0 0", Wanted::Load(0, 0)),
        ("load 2147483647 1000000", Wanted::Load(2147483647, 1000000)),
        ("load", Wanted::Usage),
        ("load 1", Wanted::Usage),
        ("load 1 9 9", Wanted::Usage),
        ("load 2147483648 1", Wanted::Usage),
        ("load 1 1000001", Wanted::Usage),
        ("load 00 1", Wanted::Usage),
        ("load -1 1", Wanted::Usage),
        ("load -- 1 9", Wanted::Load(1, 9)),
        ("load -- -1 1", Wanted::Usage),
        ("spool", Wanted::Spool),
        ("spool --", Wanted::Spool),
        ("spool x", Wanted::Usage),
        ("steps", Wanted::Steps),
        ("steps help", Wanted::Usage),
        ("serve", Wanted::Serve),
        ("Serve", Wanted::Usage),
        ("stop", Wanted::Usage),
    ];
    for (line, wanted) in rows {
        let words = words_of(rt.alloc(), line)?;
        let found = read_words(rt.alloc(), words.as_slice());
        assert!(rt; is_as_wanted(&found, wanted), "{line}");
    }
    Ok(())
}

#[test]
fn pipe_takes_up_to_64_deaths(rt: HostRuntime) -> Result<(), Fail> {
    let most = read_words(rt.alloc(), sevens(rt.alloc(), 64)?.as_slice());
    assert!(rt; is_as_wanted(&most, Wanted::Pipe(&[7; 64])));
    let more = read_words(rt.alloc(), sevens(rt.alloc(), 65)?.as_slice());
    assert!(rt; is_as_wanted(&more, Wanted::Usage));
    Ok(())
}

const TOO_LARGE: ConfKind = ConfKind::TooLarge {
    bytes: 1_361_014_048,
    limit: 1_073_741_824,
};

// A fault, its status and its text.
const FAULTS: [(RunFault, u8, &str); 31] = [
    (
        RunFault::Usage,
        1,
        "usage: uwsgi_server FILE SPOOL pipe, spool, steps, load or serve",
    ),
    (
        RunFault::Conf(ConfFault {
            line: 1,
            kind: ConfKind::BadLine,
        }),
        2,
        "conf line 1: BadLine",
    ),
    (
        RunFault::Conf(ConfFault {
            line: 20,
            kind: ConfKind::UnknownOption,
        }),
        2,
        "conf line 20: UnknownOption",
    ),
    (
        RunFault::Conf(ConfFault {
            line: 3,
            kind: ConfKind::BadValue,
        }),
        2,
        "conf line 3: BadValue",
    ),
    (
        RunFault::Conf(ConfFault {
            line: 0,
            kind: ConfKind::Missing,
        }),
        2,
        "conf line 0: Missing",
    ),
    (
        RunFault::Conf(ConfFault {
            line: u32::MAX,
            kind: ConfKind::NameTwice,
        }),
        2,
        "conf line 4294967295: NameTwice",
    ),
    (
        RunFault::Conf(ConfFault {
            line: 2,
            kind: TOO_LARGE,
        }),
        2,
        "conf line 2: TooLarge",
    ),
    (RunFault::ReadFault, 3, "read failed"),
    (RunFault::WriteFault, 4, "write failed"),
    (
        RunFault::Truncated { got: 3, want: 5 },
        5,
        "truncated: got 3, want 5",
    ),
    (
        RunFault::BadPacket(BadPacket::TooBig {
            size: 4097,
            limit: 4096,
        }),
        6,
        "packet too big: 4097 above 4096",
    ),
    (
        RunFault::BadPacket(BadPacket::NoModifier { m1: 111, m2: 3 }),
        6,
        "no modifier: 111, 3",
    ),
    (
        RunFault::BadPacket(BadPacket::BadBlock { at: 65_532 }),
        6,
        "bad block at 65532",
    ),
    (
        RunFault::BadPacket(BadPacket::BadLength),
        6,
        "bad content length",
    ),
    (
        RunFault::BadPacket(BadPacket::BadEvent { line: u64::MAX }),
        6,
        "bad event in line 18446744073709551615",
    ),
    (RunFault::KeeperFault, 7, "spool failed"),
    (RunFault::Memory, 8, "out of memory"),
    (RunFault::TooMany, 9, "too many"),
    (RunFault::NotStarted, 10, "not started"),
    (RunFault::NoSocket, 11, "no socket"),
    (RunFault::NotBound, 15, "not bound"),
    // Rules that are refused.
    (
        RunFault::Conf(ConfFault {
            line: 3,
            kind: ConfKind::Rule(RuleKind::BadRule),
        }),
        2,
        "conf line 3: BadRule",
    ),
    (
        RunFault::Conf(ConfFault {
            line: 3,
            kind: ConfKind::Rule(RuleKind::BadPattern),
        }),
        2,
        "conf line 3: BadPattern",
    ),
    (
        RunFault::Conf(ConfFault {
            line: 3,
            kind: ConfKind::Rule(RuleKind::PatternRefused),
        }),
        2,
        "conf line 3: PatternRefused",
    ),
    (
        RunFault::Conf(ConfFault {
            line: 3,
            kind: ConfKind::Rule(RuleKind::UnknownCondition),
        }),
        2,
        "conf line 3: UnknownCondition",
    ),
    (
        RunFault::Conf(ConfFault {
            line: 3,
            kind: ConfKind::Rule(RuleKind::UnknownAction),
        }),
        2,
        "conf line 3: UnknownAction",
    ),
    (
        RunFault::Conf(ConfFault {
            line: 3,
            kind: ConfKind::Rule(RuleKind::LabelTwice),
        }),
        2,
        "conf line 3: LabelTwice",
    ),
    (
        RunFault::Conf(ConfFault {
            line: 3,
            kind: ConfKind::Rule(RuleKind::LabelNotAhead),
        }),
        2,
        "conf line 3: LabelNotAhead",
    ),
    (
        RunFault::Conf(ConfFault {
            line: 3,
            kind: ConfKind::Rule(RuleKind::BadTemplate),
        }),
        2,
        "conf line 3: BadTemplate",
    ),
    (
        RunFault::Conf(ConfFault {
            line: 3,
            kind: ConfKind::Rule(RuleKind::TooManyRules),
        }),
        2,
        "conf line 3: TooManyRules",
    ),
    (
        RunFault::Conf(ConfFault {
            line: 3,
            kind: ConfKind::Rule(RuleKind::UnknownName),
        }),
        2,
        "conf line 3: UnknownName",
    ),
];

#[test]
fn each_fault_has_its_status_and_text(rt: HostRuntime) -> Result<(), Fail> {
    for (fault, status, text) in FAULTS {
        let found = fault_text(rt.alloc(), &fault)?;
        assert_eq!(rt; found.as_slice(), text.as_bytes());
        let end = RunEnd::new(Some(fault), BriefList::new(rt.alloc()));
        assert_eq!(rt; end.status, status, "{text}");
    }
    assert_eq!(rt; RunEnd::new(None, BriefList::new(rt.alloc())).status, 0);
    Ok(())
}
