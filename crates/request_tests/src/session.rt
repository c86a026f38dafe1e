// Requests over sources, sinks and desks in memory.
ghost use Rattle.uw_rules.specs.Compiled.{rules_of};
ghost use Rattle.uw_rules.specs.PartNumbers.{AskPartsBelow};
ghost use Rattle.uw_conf.specs.Given.{parts_in};
ghost use Rattle.uw_conf.specs.Sound.{ArePartsOfSite};

use crate::sites::{conf_of, rows_of};
use std::alloc::Global;
use std::process::Abort;
use std::test::Fail;
use uw_base::{Bytes, Memory};
use uw_chain::Searches;
use uw_conf::Conf;
use uw_keeper::MemKeeper;
use uw_model::ListDesk;
use uw_outside::{BytesIn, BytesOut, Immortal};
use uw_packet::{Header, Packet};
use uw_session::{Form, ServeFault, Served, answer_packet, serve_one, serve_with};

// What came of a request, without its packet, its reply and its asks, of which only the number is told.
#[derive(Clone, Copy, Debug, PartialEq, Eq)]
enum Outcome {
    Served { asks: usize },
    Nothing,
    Truncated { got: u64, want: u64 },
    TooBig { size: u32, limit: u32 },
    NoModifier { m1: u8, m2: u8 },
    BadBlock { at: u32 },
    BadLength,
    ReadFault,
    Died,
    WriteFault { asks: usize },
    Memory,
}

fn outcome_of(served: &Result<Served, ServeFault>) -> Outcome {
    match served {
        Ok(request) => Outcome::Served {
            asks: request.asks.as_slice().len(),
        },
        Err(ServeFault::Nothing) => Outcome::Nothing,
        Err(ServeFault::Truncated { got, want }) => Outcome::Truncated {
            got: *got,
            want: *want,
        },
        Err(ServeFault::TooBig { size, limit }) => Outcome::TooBig {
            size: *size,
            limit: *limit,
        },
        Err(ServeFault::NoModifier { m1, m2 }) => Outcome::NoModifier { m1: *m1, m2: *m2 },
        Err(ServeFault::BadBlock { at }) => Outcome::BadBlock { at: *at },
        Err(ServeFault::BadLength) => Outcome::BadLength,
        Err(ServeFault::ReadFault) => Outcome::ReadFault,
        Err(ServeFault::Died { .. }) => Outcome::Died,
        Err(ServeFault::WriteFault { done }) => Outcome::WriteFault {
            asks: done.as_slice().len(),
        },
        Err(ServeFault::Memory { .. }) => Outcome::Memory,
    }
}

// Two requests of a source, one after the other: the configuration, the form of the replies, the input, the reads and
// writes that fail, what is written, and what comes of each request.
#[derive(Clone, Copy)]
struct Case {
    conf: &'static [u8],
    form: Form,
    input: &'static [u8],
    read_fails: &'static [u64],
    write_fails: &'static [u64],
    output: &'static [u8],
    outcomes: [Outcome; 2],
}

// A cache, and two rules: the hits of a path are counted, and their number is sent.
const HITS: &[u8] =
    b"[uwsgi]\ncache2 = name=c,items=4,blocksize=64\nroute = ^/hits/(.*)$ cacheinc:key=$1,var=N\nroute-run = send:${N}\n";

const HIT: &[u8] = b"\x00\x14\x00\x00\x09\x00PATH_INFO\x07\x00/hits/a";

const TWO_HITS: &[u8] =
    b"\x00\x14\x00\x00\x09\x00PATH_INFO\x07\x00/hits/a\x00\x14\x00\x00\x09\x00PATH_INFO\x07\x00/hits/a";

const FIRST_HIT: &[u8] = b"HTTP/1.1 200 OK\r\nContent-Length: 1\r\n\r\n1";

const SECOND_HIT: &[u8] = b"HTTP/1.1 200 OK\r\nContent-Length: 1\r\n\r\n2";

const BOTH_HITS: &[u8] =
    b"HTTP/1.1 200 OK\r\nContent-Length: 1\r\n\r\n1HTTP/1.1 200 OK\r\nContent-Length: 1\r\n\r\n2";

const SET_AND_GET: &[u8] = b"\x6f\x06\x00\x01\x01\x00k\x01\x00v\x6f\x01\x00\x00k";

// An empty source.
const EMPTY: Case = Case {
    conf: HITS,
    form: Form::Raw,
    input: b"",
    read_fails: &[],
    write_fails: &[],
    output: b"",
    outcomes: [Outcome::Nothing, Outcome::Nothing],
};

const CASES: [Case; 16] = [
    EMPTY,
    // Requests through two rules, in both forms.
    Case {
        input: TWO_HITS,
        output: BOTH_HITS,
        outcomes: [Outcome::Served { asks: 1 }, Outcome::Served { asks: 1 }],
        ..EMPTY
    },
    Case {
        form: Form::Framed,
        input: TWO_HITS,
        output: b"\x27\x00\x00\x00HTTP/1.1 200 OK\r\nContent-Length: 1\r\n\r\n1\x27\x00\x00\x00HTTP/1.1 200 OK\r\nContent-Length: 1\r\n\r\n2",
        outcomes: [Outcome::Served { asks: 1 }, Outcome::Served { asks: 1 }],
        ..EMPTY
    },
    Case {
        input: b"\x00\x0e\x00\x00\x09\x00PATH_INFO\x01\x00/",
        output: b"HTTP/1.1 200 OK\r\nContent-Length: 0\r\n\r\n",
        outcomes: [Outcome::Served { asks: 0 }, Outcome::Nothing],
        ..EMPTY
    },
    // No reply at all.
    Case {
        conf: b"[uwsgi]\nroute-run = break\n",
        form: Form::Framed,
        input: HIT,
        output: b"\x00\x00\x00\x00",
        outcomes: [Outcome::Served { asks: 0 }, Outcome::Nothing],
        ..EMPTY
    },
    // A body is dropped, whose length is then at its limit, above it, and no number.
    Case {
        input: b"\x00\x27\x00\x00\x09\x00PATH_INFO\x07\x00/hits/a\x0e\x00CONTENT_LENGTH\x01\x003xyz\x00\x14\x00\x00\x09\x00PATH_INFO\x07\x00/hits/a",
        output: BOTH_HITS,
        outcomes: [Outcome::Served { asks: 1 }, Outcome::Served { asks: 1 }],
        ..EMPTY
    },
    Case {
        input: b"\x00\x30\x00\x00\x09\x00PATH_INFO\x07\x00/hits/a\x0e\x00CONTENT_LENGTH\x0a\x001073741824xy",
        outcomes: [
            Outcome::Truncated {
                got: 2,
                want: 1_073_741_824,
            },
            Outcome::Nothing,
        ],
        ..EMPTY
    },
    Case {
        input: b"\x00\x30\x00\x00\x09\x00PATH_INFO\x07\x00/hits/a\x0e\x00CONTENT_LENGTH\x0a\x001073741825\x00\x14\x00\x00\x09\x00PATH_INFO\x07\x00/hits/a",
        output: FIRST_HIT,
        outcomes: [Outcome::BadLength, Outcome::Served { asks: 1 }],
        ..EMPTY
    },
    Case {
        input: b"\x00\x27\x00\x00\x09\x00PATH_INFO\x07\x00/hits/a\x0e\x00CONTENT_LENGTH\x01\x00x\x00\x14\x00\x00\x09\x00PATH_INFO\x07\x00/hits/a",
        output: FIRST_HIT,
        outcomes: [Outcome::BadLength, Outcome::Served { asks: 1 }],
        ..EMPTY
    },
    // Packets that are refused: the size comes before the modifiers.
    Case {
        input: b"\x00\x03\x00\x00\x01\x00k\x00\x14\x00\x00\x09\x00PATH_INFO\x07\x00/hits/a",
        output: FIRST_HIT,
        outcomes: [Outcome::BadBlock { at: 3 }, Outcome::Served { asks: 1 }],
        ..EMPTY
    },
    Case {
        input: b"\x05\x01\x10\x00\x05\x00\x00\x00",
        outcomes: [
            Outcome::TooBig {
                size: 4097,
                limit: 4096,
            },
            Outcome::NoModifier { m1: 5, m2: 0 },
        ],
        ..EMPTY
    },
    // Reads that fail: of the header, of the block, and of the body. What came before is gone, and nothing is asked.
    Case {
        input: HIT,
        read_fails: &[1],
        output: FIRST_HIT,
        outcomes: [Outcome::ReadFault, Outcome::Served { asks: 1 }],
        ..EMPTY
    },
    Case {
        input: b"\x6f\x01\x00\x00k",
        read_fails: &[2],
        outcomes: [Outcome::ReadFault, Outcome::Truncated { got: 1, want: 4 }],
        ..EMPTY
    },
    Case {
        input: b"\x00\x27\x00\x00\x09\x00PATH_INFO\x07\x00/hits/a\x0e\x00CONTENT_LENGTH\x01\x003xyz",
        read_fails: &[3],
        outcomes: [Outcome::ReadFault, Outcome::Truncated { got: 3, want: 4 }],
        ..EMPTY
    },
    // Writes that fail: the asks stand.
    Case {
        input: TWO_HITS,
        write_fails: &[1],
        output: SECOND_HIT,
        outcomes: [Outcome::WriteFault { asks: 1 }, Outcome::Served { asks: 1 }],
        ..EMPTY
    },
    Case {
        form: Form::Framed,
        input: SET_AND_GET,
        write_fails: &[2],
        output: b"\x02\x00\x00\x00ok",
        outcomes: [Outcome::Served { asks: 1 }, Outcome::WriteFault { asks: 1 }],
        ..EMPTY
    },
];

// Serves two requests, each with searches of its own.
fn served(
    alloc: Global,
    conf: &Conf,
    form: Form,
    src: &mut BytesIn,
    snk: &mut BytesOut,
) -> Result<[Outcome; 2], Memory>
    requires parts { ArePartsOfSite conf.now.caches conf.now.areas }
    requires known { AskPartsBelow (parts_in conf.now) (rules_of conf.now.routes) }
{
    let mut desk = ListDesk::new(alloc, &conf.caches, &conf.areas)?;
    let mut keep = MemKeeper::new(Vec::new(alloc), Vec::new(alloc));
    let mut life = Immortal::new();
    let first = serve_one(
        alloc, conf, form, 10, src, snk, &mut life, &mut desk, &mut keep,
    );
    let second = serve_one(
        alloc, conf, form, 10, src, snk, &mut life, &mut desk, &mut keep,
    );
    Ok([outcome_of(&first), outcome_of(&second)])
}

// Serves two requests with the same searches.
fn served_with_kept_searches(
    alloc: Global,
    conf: &Conf,
    form: Form,
    src: &mut BytesIn,
    snk: &mut BytesOut,
) -> Result<[Outcome; 2], Memory>
    requires parts { ArePartsOfSite conf.now.caches conf.now.areas }
    requires known { AskPartsBelow (parts_in conf.now) (rules_of conf.now.routes) }
{
    let mut desk = ListDesk::new(alloc, &conf.caches, &conf.areas)?;
    let mut keep = MemKeeper::new(Vec::new(alloc), Vec::new(alloc));
    let mut searches = Searches::new(alloc, &conf.routes)?;
    let mut life = Immortal::new();
    let first = serve_with(
        alloc,
        &mut searches,
        conf,
        form,
        10,
        src,
        snk,
        &mut life,
        &mut desk,
        &mut keep,
    );
    let second = serve_with(
        alloc,
        &mut searches,
        conf,
        form,
        10,
        src,
        snk,
        &mut life,
        &mut desk,
        &mut keep,
    );
    Ok([outcome_of(&first), outcome_of(&second)])
}

// What came of two requests, and what was written.
#[derive(Drop)]
struct Report {
    outcomes: [Outcome; 2],
    output: Vec<u8>,
}

// Serves the two requests of a case, with searches that are kept or with new ones.
fn ran(rt: &impl Abort, alloc: Global, case: &Case, keeps: bool) -> Result<Report, Memory> {
    let conf = conf_of(rt, alloc, case.conf)?;
    let mut src = BytesIn::new(case.input.to_vec(alloc)?, case.read_fails.to_vec(alloc)?);
    let mut snk = BytesOut::new(Vec::new(alloc), case.write_fails.to_vec(alloc)?);
    let outcomes = if keeps {
        served_with_kept_searches(alloc, &conf, case.form, &mut src, &mut snk)?
    } else {
        served(alloc, &conf, case.form, &mut src, &mut snk)?
    };
    Ok(Report {
        outcomes,
        output: snk.taken().to_vec(alloc)?,
    })
}

#[test]
fn requests_are_served_one_after_the_other(rt: HostRuntime) -> Result<(), Fail> {
    let alloc = rt.alloc();
    for (number, case) in CASES.iter().enumerate() {
        for keeps in [false, true] {
            let report = ran(&rt, alloc, case, keeps)?;
            assert_eq!(rt;
                report.outcomes,
                case.outcomes,
                "case {number}, kept {keeps}"
            );
            assert_eq!(rt;
                report.output.as_slice(),
                case.output,
                "case {number}, kept {keeps}"
            );
        }
    }
    Ok(())
}

#[test]
fn a_packet_is_answered_without_a_source_or_a_sink(rt: HostRuntime) -> Result<(), Fail> {
    let alloc = rt.alloc();
    let conf = conf_of(&rt, alloc, HITS)?;
    assert_eq!(rt; conf.buffer_size, 4096);
    let mut desk = ListDesk::new(alloc, &conf.caches, &conf.areas)?;
    let mut keep = MemKeeper::new(Vec::new(alloc), Vec::new(alloc));
    let mut searches = Searches::new(alloc, &conf.routes)?;
    let packet = Packet {
        head: Header {
            m1: 0,
            size: 20,
            m2: 0,
        },
        block: Bytes::from_slice(alloc, b"\x09\x00PATH_INFO\x07\x00/hits/a")?,
    };
    let mut life = Immortal::new();
    match answer_packet(
        alloc,
        &mut searches,
        &conf,
        10,
        &packet,
        &mut life,
        &mut desk,
        &mut keep,
    ) {
        Ok(answered) => {
            assert_eq!(rt; answered.reply.as_slice(), FIRST_HIT);
            assert_eq!(rt; answered.asks.as_slice().len(), 1);
        }
        Err(_) => panic!(rt; "no reply"),
    }
    Ok(())
}

// A task of a source: the number of the last row, 0 where there is none, the input, what is written, and the bytes of the
// last row behind it.
#[derive(Clone, Copy)]
struct Put {
    last: u64,
    input: &'static [u8],
    output: &'static [u8],
    row: &'static [u8],
}

// A task without a body, over a keeper without a row.
const PUT: Put = Put {
    last: 0,
    input: b"\x11\x0c\x00\x00\x04\x00kind\x04\x00done",
    output: b"ok 00000000000000000001",
    row: b"\x11\x0c\x00\x00\x04\x00kind\x04\x00done",
};

const PUTS: [Put; 5] = [
    Put {
        last: 41,
        output: b"ok 00000000000000000042",
        ..PUT
    },
    // A body is left out of the variables; of two, the value of the last one is the body.
    Put {
        input: b"\x11\x16\x00\x05\x04\x00body\x02\x00xy\x04\x00kind\x04\x00done",
        row: b"\x11\x0c\x00\x00\x04\x00kind\x04\x00donexy",
        ..PUT
    },
    Put {
        input: b"\x11\x1f\x00\x00\x04\x00body\x02\x00xy\x04\x00kind\x04\x00done\x04\x00body\x01\x00z",
        row: b"\x11\x0c\x00\x00\x04\x00kind\x04\x00donez",
        ..PUT
    },
    // What is refused, and what has no number.
    Put {
        input: b"\x11\x03\x00\x00\x01\x00k",
        output: b"",
        row: b"",
        ..PUT
    },
    Put {
        last: u64::MAX,
        output: b"no number",
        row: b"",
        ..PUT
    },
];

// What is written for the task, and the bytes of the last row behind it; no byte where there is no row.
#[derive(Drop)]
struct Left {
    output: Vec<u8>,
    row: Vec<u8>,
}

// Serves a request with a keeper.
fn served_with_keeper(
    alloc: Global,
    conf: &Conf,
    src: &mut BytesIn,
    snk: &mut BytesOut,
    keep: &mut MemKeeper,
) -> Result<(), Memory>
    requires parts { ArePartsOfSite conf.now.caches conf.now.areas }
    requires known { AskPartsBelow (parts_in conf.now) (rules_of conf.now.routes) }
{
    let mut desk = ListDesk::new(alloc, &conf.caches, &conf.areas)?;
    let mut life = Immortal::new();
    let _ = serve_one(
        alloc,
        conf,
        Form::Raw,
        10,
        src,
        snk,
        &mut life,
        &mut desk,
        keep,
    );
    Ok(())
}

fn put_aside(alloc: Global, conf: &Conf, case: &Put) -> Result<Left, Memory>
    requires parts { ArePartsOfSite conf.now.caches conf.now.areas }
    requires known { AskPartsBelow (parts_in conf.now) (rules_of conf.now.routes) }
{
    let mut src = BytesIn::new(case.input.to_vec(alloc)?, Vec::new(alloc));
    let mut snk = BytesOut::new(Vec::new(alloc), Vec::new(alloc));
    let mut keep = MemKeeper::new(rows_of(alloc, case.last)?, Vec::new(alloc));
    served_with_keeper(alloc, conf, &mut src, &mut snk, &mut keep)?;
    let row = match keep.rows().last() {
        Some(row) => row.bytes.as_slice().to_vec(alloc)?,
        None => Vec::new(alloc),
    };
    Ok(Left {
        output: snk.taken().to_vec(alloc)?,
        row,
    })
}

#[test]
fn tasks_are_put_aside(rt: HostRuntime) -> Result<(), Fail> {
    let alloc = rt.alloc();
    let conf = conf_of(&rt, alloc, HITS)?;
    for (number, case) in PUTS.iter().enumerate() {
        let left = put_aside(alloc, &conf, case)?;
        assert_eq!(rt; left.output.as_slice(), case.output, "task {number}");
        assert_eq!(rt; left.row.as_slice(), case.row, "task {number}");
    }
    Ok(())
}
