// Runs over sources, sinks and clocks in memory.
use std::alloc::{AllocError, Global};
use std::test::Fail;
use uw_keeper::{Keeper, MemKeeper};
use uw_outside::{BytesIn, BytesOut, FixedClock};
use uw_rules::RegexPatterns;
use uw_top::{RunEnd, fault_text, run};

// A run: its words, its configuration and input, the rows of its keeper, the reads, writes and calls of the keeper that
// fail, the patterns that are refused, and what comes of it. Each row is put by a call of the keeper, which counts.
#[derive(Clone, Copy)]
struct Case {
    words: &'static [&'static str],
    conf: &'static [u8],
    input: &'static [u8],
    rows: &'static [&'static [u8]],
    conf_fails: &'static [u64],
    patterns_refused: &'static [u64],
    read_fails: &'static [u64],
    write_fails: &'static [u64],
    keeper_fails: &'static [u64],
    output: &'static [u8],
    status: u8,
    text: &'static [u8],
}

// What a run wrote, how it ended, and the bytes of the rows that it left, each behind its number.
#[derive(Drop)]
struct Report {
    end: RunEnd,
    output: Vec<u8>,
    text: Vec<u8>,
    rows: Vec<u8>,
}

// A run of a case over an input, at these moments.
fn ran(alloc: Global, case: &Case, input: &[u8], moments: &[u64]) -> Result<Report, AllocError> {
    let mut words = Vec::new(alloc);
    for word in case.words {
        words.push(String::from_str(alloc, word)?)?;
    }
    let mut asked = moments.to_vec(alloc)?;
    if asked.is_empty() {
        asked.push(10)?;
    }
    let mut conf = BytesIn::new(case.conf.to_vec(alloc)?, case.conf_fails.to_vec(alloc)?);
    let mut make = RegexPatterns::new(case.patterns_refused.to_vec(alloc)?);
    let mut src = BytesIn::new(input.to_vec(alloc)?, case.read_fails.to_vec(alloc)?);
    let mut snk = BytesOut::new(Vec::new(alloc), case.write_fails.to_vec(alloc)?);
    let mut clock = FixedClock::new(asked);
    let mut keep = MemKeeper::new(Vec::new(alloc), case.keeper_fails.to_vec(alloc)?);
    for bytes in case.rows {
        if keep.append(alloc, bytes).is_err() {
            return Err(AllocError);
        }
    }
    let end = run(
        alloc,
        words.as_slice(),
        &mut conf,
        &mut make,
        &mut src,
        &mut snk,
        &mut clock,
        &mut keep,
        &mut None,
    );
    let mut rows = Vec::new(alloc);
    for row in keep.rows() {
        rows.push((row.number % 256) as u8)?;
        rows.extend_from_slice(row.bytes.as_slice())?;
    }
    let text = match &end.fault {
        Some(fault) => match fault_text(alloc, fault) {
            Ok(text) => text.into_vec(),
            Err(_) => return Err(AllocError),
        },
        None => Vec::new(alloc),
    };
    Ok(Report {
        end,
        output: snk.taken().to_vec(alloc)?,
        text,
        rows,
    })
}

// The cache `c` of four entries.
const ONE_CACHE: &[u8] = b"[uwsgi]\ncache2 = name=c,items=4,blocksize=64\n";

const SET_AND_GET: &[u8] = b"\x6f\x06\x00\x01\x01\x00k\x01\x00v\x6f\x01\x00\x00k";

const OK_AND_VALUE: &[u8] = b"\x02\x00\x00\x00ok\x01\x00\x00\x00v";

// A set by a worker that dies before it counts, or when it does; and a get behind it.
const DEAD_ABSENT: &[u8] = b"\xff\xff\xff\xff\x00\x00\x00\x00\x00";

const DEAD_WHOLE: &[u8] = b"\xff\xff\xff\xff\x01\x01\x00\x00\x00v";

const USAGE: &[u8] = b"usage: uwsgi_server FILE SPOOL pipe, spool, steps, load or serve";

// An empty run.
const PIPE: Case = Case {
    words: &["pipe"],
    conf: ONE_CACHE,
    input: b"",
    rows: &[],
    conf_fails: &[],
    patterns_refused: &[],
    read_fails: &[],
    write_fails: &[],
    keeper_fails: &[],
    output: b"",
    status: 0,
    text: b"",
};

// Workers that die.
const DEATHS: [Case; 7] = [
    // Workers that die in place of a word write: of the first one, of the one by which the call counts, of the next one, of
    // the last one, and of one that never comes.
    Case {
        words: &["pipe", "--die", "1"],
        input: SET_AND_GET,
        output: DEAD_ABSENT,
        ..PIPE
    },
    Case {
        words: &["pipe", "--die", "50"],
        input: SET_AND_GET,
        output: DEAD_ABSENT,
        ..PIPE
    },
    Case {
        words: &["pipe", "--die", "51"],
        input: SET_AND_GET,
        output: DEAD_WHOLE,
        ..PIPE
    },
    Case {
        words: &["pipe", "--die=67"],
        input: SET_AND_GET,
        output: DEAD_WHOLE,
        ..PIPE
    },
    Case {
        words: &["pipe", "--die", "68"],
        input: SET_AND_GET,
        output: OK_AND_VALUE,
        ..PIPE
    },
    // One that dies in the call, and then in its repair; and one that never comes to the second number.
    Case {
        words: &["pipe", "--die", "51,1"],
        input: b"\x6f\x06\x00\x01\x01\x00k\x01\x00v\x6f\x01\x00\x00k\x6f\x01\x00\x00k",
        output: b"\xff\xff\xff\xff\x01\xff\xff\xff\xff\x00\x01\x00\x00\x00v",
        ..PIPE
    },
    Case {
        words: &["pipe", "--die", "1,1000000000"],
        input: SET_AND_GET,
        output: DEAD_ABSENT,
        ..PIPE
    },
];

const CASES: [Case; 42] = [
    PIPE,
    // Rules that are refused, and rules that are taken.
    Case {
        conf: b"[uwsgi]\nroute-label = a\nroute-run = goto:a\n",
        status: 2,
        text: b"conf line 3: LabelNotAhead",
        ..PIPE
    },
    Case {
        conf: b"[uwsgi]\nroute = a break\n",
        patterns_refused: &[1],
        status: 2,
        text: b"conf line 2: PatternRefused",
        ..PIPE
    },
    Case {
        conf: b"[uwsgi]\nroute-run = cachedel:key=a\nworkers = 0\n",
        status: 2,
        text: b"conf line 2: UnknownName",
        ..PIPE
    },
    Case {
        conf: b"[uwsgi]\nroute-run = cachedel:key=a\ncache2 = name=c,items=4\n",
        input: SET_AND_GET,
        output: OK_AND_VALUE,
        ..PIPE
    },
    Case {
        input: SET_AND_GET,
        output: OK_AND_VALUE,
        ..PIPE
    },
    Case {
        input: b"\x6f\x06\x00\x01\x01\x00k\x01\x00v\x6f\x06\x00\x01\x01\x00k\x01\x00w\x6f\x01\x00\x00k",
        output: b"\x02\x00\x00\x00ok\x06\x00\x00\x00exists\x01\x00\x00\x00v",
        ..PIPE
    },
    Case {
        input: b"\x6f\x01\x00\x00k",
        output: b"\x00\x00\x00\x00",
        ..PIPE
    },
    // Packets that are refused or cut.
    Case {
        input: b"\x6f\x03\x00\x01\x01\x00k",
        status: 6,
        text: b"bad block at 3",
        ..PIPE
    },
    Case {
        input: b"\x6f\x06\x00\x01\x01\x00k\x02\x00v",
        status: 6,
        text: b"bad block at 3",
        ..PIPE
    },
    Case {
        input: b"\x6f\x06\x00\x01\x01\x00k\x01\x00v\x6f\x05\x00\x00abc",
        output: b"\x02\x00\x00\x00ok",
        status: 5,
        text: b"truncated: got 3, want 5",
        ..PIPE
    },
    Case {
        input: b"\x6f",
        status: 5,
        text: b"truncated: got 1, want 4",
        ..PIPE
    },
    Case {
        input: b"\x6f\x06",
        status: 5,
        text: b"truncated: got 2, want 4",
        ..PIPE
    },
    Case {
        input: b"\x6f\x06\x00",
        status: 5,
        text: b"truncated: got 3, want 4",
        ..PIPE
    },
    Case {
        input: b"\x6f\x06\x00\x01",
        status: 5,
        text: b"truncated: got 0, want 6",
        ..PIPE
    },
    Case {
        input: b"\x6f\x01\x10\x00",
        status: 6,
        text: b"packet too big: 4097 above 4096",
        ..PIPE
    },
    Case {
        input: b"\x05\x00\x00\x00",
        status: 6,
        text: b"no modifier: 5, 0",
        ..PIPE
    },
    Case {
        input: b"\x6f\x00\x00\x03",
        status: 6,
        text: b"no modifier: 111, 3",
        ..PIPE
    },
    // A smaller limit, and no cache.
    Case {
        conf: b"[uwsgi]\nbuffer-size = 6\ncache2 = name=c,items=4\n",
        input: b"\x6f\x06\x00\x01\x01\x00k\x01\x00v\x6f\x07\x00\x00",
        output: b"\x02\x00\x00\x00ok",
        status: 6,
        text: b"packet too big: 7 above 6",
        ..PIPE
    },
    Case {
        conf: b"[uwsgi]\n",
        input: b"\x6f\x06\x00\x01\x01\x00k\x01\x00v\x6f\x01\x00\x00k",
        output: b"\x0d\x00\x00\x00unknown cache\x00\x00\x00\x00",
        ..PIPE
    },
    Case { conf: b"", ..PIPE },
    // Reads and writes that fail.
    Case {
        input: SET_AND_GET,
        read_fails: &[1],
        status: 3,
        text: b"read failed",
        ..PIPE
    },
    Case {
        input: SET_AND_GET,
        read_fails: &[2],
        status: 3,
        text: b"read failed",
        ..PIPE
    },
    Case {
        input: SET_AND_GET,
        read_fails: &[3],
        output: b"\x02\x00\x00\x00ok",
        status: 3,
        text: b"read failed",
        ..PIPE
    },
    Case {
        input: SET_AND_GET,
        read_fails: &[5],
        output: OK_AND_VALUE,
        status: 3,
        text: b"read failed",
        ..PIPE
    },
    Case {
        input: SET_AND_GET,
        write_fails: &[1],
        status: 4,
        text: b"write failed",
        ..PIPE
    },
    Case {
        input: SET_AND_GET,
        write_fails: &[2],
        output: b"\x02\x00\x00\x00ok",
        status: 4,
        text: b"write failed",
        ..PIPE
    },
    Case {
        input: SET_AND_GET,
        conf_fails: &[1],
        status: 3,
        text: b"read failed",
        ..PIPE
    },
    Case {
        input: SET_AND_GET,
        conf_fails: &[2],
        status: 3,
        text: b"read failed",
        ..PIPE
    },
    // Configurations that are refused.
    Case {
        conf: b"[uwsgi]\ncache2 = items=5\n",
        input: SET_AND_GET,
        status: 2,
        text: b"conf line 2: Missing",
        ..PIPE
    },
    Case {
        conf: b"[uwsgi]\ncache2 = name=c,items=20000\n",
        status: 2,
        text: b"conf line 2: TooLarge",
        ..PIPE
    },
    Case {
        conf: b"[uwsgi]\nfrob = 1\n",
        status: 2,
        text: b"conf line 2: UnknownOption",
        ..PIPE
    },
    // Words that are no command, whatever the configuration.
    Case {
        words: &[],
        conf: b"frob",
        status: 1,
        text: USAGE,
        ..PIPE
    },
    Case {
        words: &["pipe", "--die", "0"],
        status: 1,
        text: USAGE,
        ..PIPE
    },
    Case {
        words: &["serve"],
        status: 1,
        text: USAGE,
        ..PIPE
    },
    // Loads, which leave the input.
    Case {
        words: &["load", "1", "9"],
        conf: b"[uwsgi]\ncache2 = name=c,items=100,blocksize=64\n",
        input: b"\x05",
        output: b"packets 9\nvalue 0\nmissing 8\nok 1\nnumber 0\nother 0\nbytes 58\n",
        ..PIPE
    },
    Case {
        words: &["load", "1", "0"],
        output: b"packets 0\nvalue 0\nmissing 0\nok 0\nnumber 0\nother 0\nbytes 0\n",
        ..PIPE
    },
    Case {
        words: &["load", "1", "9"],
        conf: b"[uwsgi]\n",
        status: 2,
        text: b"conf line 0: Missing",
        ..PIPE
    },
    Case {
        words: &["load", "1", "9"],
        conf: b"frob",
        status: 2,
        text: b"conf line 1: BadLine",
        ..PIPE
    },
    Case {
        words: &["load", "1", "9"],
        conf: b"[uwsgi]\ncache2 = name=c,items=4\nbuffer-size = 20\n",
        status: 6,
        text: b"packet too big: 21 above 20",
        ..PIPE
    },
    Case {
        words: &["load", "1", "9"],
        write_fails: &[1],
        status: 4,
        text: b"write failed",
        ..PIPE
    },
    Case {
        words: &["load", "1", "9"],
        conf_fails: &[1],
        status: 3,
        text: b"read failed",
        ..PIPE
    },
];

// The first case that comes out otherwise.
fn wrong(alloc: Global, cases: &[Case]) -> Result<Option<usize>, AllocError> {
    for (number, case) in cases.iter().enumerate() {
        let ran = ran(alloc, case, case.input, &[])?;
        let is_told = ran.end.status == case.status && ran.text.as_slice() == case.text;
        if !is_told || ran.output.as_slice() != case.output {
            return Ok(Some(number));
        }
    }
    Ok(None)
}

const REQUESTS: [Case; 8] = [
    // Requests through rules, with a jump and a cached page.
    Case {
        conf: b"[uwsgi]\ncache2 = name=c,items=4,blocksize=64\nroute-run = addheader:X-Via: uw\nroute = ^/go/(.+)$ goto:there\nroute = ^/c/(.+)$ cache:key=$1,content_type=text/plain\nroute-run = break:404 Not Found\nroute-label = there\nroute-run = send:there ${PATH_INFO}\n",
        input: b"o\x06\x00\x01\x01\x00k\x01\x00v\x00\x12\x00\x00\x09\x00PATH_INFO\x05\x00/go/x\x00\x11\x00\x00\x09\x00PATH_INFO\x04\x00/c/k\x00\x11\x00\x00\x09\x00PATH_INFO\x04\x00/c/z\x00\x0f\x00\x00\x09\x00PATH_INFO\x02\x00/q",
        output: b"\x02\x00\x00\x00ok=\x00\x00\x00HTTP/1.1 200 OK\r\nX-Via: uw\r\nContent-Length: 11\r\n\r\nthere /go/xL\x00\x00\x00HTTP/1.1 200 OK\r\nX-Via: uw\r\nContent-Type: text/plain\r\nContent-Length: 1\r\n\r\nv8\x00\x00\x00HTTP/1.1 404 Not Found\r\nX-Via: uw\r\nContent-Length: 0\r\n\r\n8\x00\x00\x00HTTP/1.1 404 Not Found\r\nX-Via: uw\r\nContent-Length: 0\r\n\r\n",
        ..PIPE
    },
    // A body is passed over.
    Case {
        input: b"\x00\x13\x00\x00\x0e\x00CONTENT_LENGTH\x01\x002abo\x01\x00\x00k",
        output: b"V\x00\x00\x00HTTP/1.1 404 Not Found\r\nContent-Type: text/plain\r\nContent-Length: 14\r\n\r\n404 Not Found\n\x00\x00\x00\x00",
        ..PIPE
    },
    // A body is cut, or its length cannot be read.
    Case {
        input: b"\x00\x13\x00\x00\x0e\x00CONTENT_LENGTH\x01\x002a",
        status: 5,
        text: b"truncated: got 1, want 2",
        ..PIPE
    },
    Case {
        input: b"\x00\x13\x00\x00\x0e\x00CONTENT_LENGTH\x01\x00x",
        status: 6,
        text: b"bad content length",
        ..PIPE
    },
    Case {
        input: b"\x00\x1c\x00\x00\x0e\x00CONTENT_LENGTH\n\x001073741825",
        status: 6,
        text: b"bad content length",
        ..PIPE
    },
    // A block ends behind a key.
    Case {
        input: b"\x00\x06\x00\x00\x01\x00A\x02\x00B",
        status: 6,
        text: b"bad block at 3",
        ..PIPE
    },
    // Variables that are reckoned.
    Case {
        conf: b"[uwsgi]\ncache2 = name=c,items=4,blocksize=64\nroute-run = send:${time[unix]} ${httptime[0]} ${base64[A]} ${qs[q]}\n",
        input: b"\x00<\x00\x00\x01\x00A\x06\x00foobar\x0c\x00QUERY_STRING\x0b\x00p=1&q=a%20b\x0e\x00REQUEST_METHOD\x04\x00HEAD",
        output: b"'\x00\x00\x00HTTP/1.1 200 OK\r\nContent-Length: 45\r\n\r\n",
        ..PIPE
    },
    // An area.
    Case {
        conf: b"[uwsgi]\nsharedarea = size=16\nroute-run = areaset:area=0,at=8,width=64,value=258,var=A\nroute-run = areaset:area=0,at=9,width=64,value=1,var=B\nroute-run = areaset:area=0,at=0,width=8,value=255\nroute-run = areainc:area=0,at=0,width=8,by=1,var=C\nroute-run = areanum:area=0,at=8,width=16,var=D\nroute-run = send:${A}|${B}|${C}|${D}\n",
        input: b"\x00\x00\x00\x00",
        output: b"\x3b\x00\x00\x00HTTP/1.1 200 OK\r\nContent-Length: 20\r\n\r\nok|out of area|0|258",
        ..PIPE
    },
];

#[test]
fn each_death_is_told_and_the_next_packet_is_served(rt: HostRuntime) -> Result<(), Fail> {
    assert_eq!(rt; wrong(rt.alloc(), &DEATHS)?, None);
    Ok(())
}

#[test]
fn each_run_writes_its_output_and_ends_with_its_status(rt: HostRuntime) -> Result<(), Fail> {
    assert_eq!(rt; wrong(rt.alloc(), &CASES)?, None);
    assert_eq!(rt; wrong(rt.alloc(), &REQUESTS)?, None);
    Ok(())
}

const TASK: &[u8] = b"\x11\x0c\x00\x00\x04\x00kind\x04\x00done";

// Rounds of two spoolers over three rows: a task that is done from the moment 20 on, one that is done, and no task. The
// first spooler has the second row.
const ROUNDS: Case = Case {
    words: &["spool"],
    conf: b"[uwsgi]\nspooler-processes = 2\nspool-if = equal:${do};done spool-end:-2\n",
    rows: &[
        b"\x11\x12\x00\x00\x02\x00at\x02\x0020\x02\x00do\x04\x00done",
        b"\x11\x0a\x00\x00\x02\x00do\x04\x00done",
        b"",
    ],
    output: b"00000000000000000002 -2 gone\nspooler 0 tasks 1 gone 1\n\
00000000000000000001 later kept\n00000000000000000003 bad kept\nspooler 1 tasks 2 gone 0\n",
    ..PIPE
};

// A moment, a run, and the rows that it leaves, each behind its number. The calls of the keeper in rounds are three that
// put the rows, then those of a round: for the last row, for each row, and for a removal.
const LEFT: [(u64, Case, &[u8]); 7] = [
    // A task is put aside, or not.
    (
        10,
        Case {
            input: TASK,
            output: b"\x17\x00\x00\x00ok 00000000000000000001",
            ..PIPE
        },
        b"\x01\x11\x0c\x00\x00\x04\x00kind\x04\x00done",
    ),
    (
        10,
        Case {
            input: TASK,
            keeper_fails: &[1],
            output: b"\x06\x00\x00\x00failed",
            ..PIPE
        },
        b"",
    ),
    // Rounds at two moments.
    (
        19,
        ROUNDS,
        b"\x01\x11\x12\x00\x00\x02\x00at\x02\x0020\x02\x00do\x04\x00done\x03",
    ),
    (
        20,
        Case {
            output: b"00000000000000000002 -2 gone\nspooler 0 tasks 1 gone 1\n\
00000000000000000001 -2 gone\n00000000000000000003 bad kept\nspooler 1 tasks 2 gone 1\n",
            ..ROUNDS
        },
        b"\x03",
    ),
    // The lines of the second round are not written: it was made.
    (
        20,
        Case {
            write_fails: &[2],
            output: b"00000000000000000002 -2 gone\nspooler 0 tasks 1 gone 1\n",
            status: 4,
            text: b"write failed",
            ..ROUNDS
        },
        b"\x03",
    ),
    // The removal fails; and the second round does not come to its second row.
    (
        20,
        Case {
            keeper_fails: &[7],
            output: b"",
            status: 7,
            text: b"spool failed",
            ..ROUNDS
        },
        b"\x01\x11\x12\x00\x00\x02\x00at\x02\x0020\x02\x00do\x04\x00done\x02\x11\x0a\x00\x00\x02\x00do\x04\x00done\x03",
    ),
    (
        19,
        Case {
            keeper_fails: &[11],
            output: b"00000000000000000002 -2 gone\nspooler 0 tasks 1 gone 1\n00000000000000000001 later kept\n",
            status: 7,
            text: b"spool failed",
            ..ROUNDS
        },
        b"\x01\x11\x12\x00\x00\x02\x00at\x02\x0020\x02\x00do\x04\x00done\x03",
    ),
];

#[test]
fn tasks_are_put_aside_and_run_in_rounds(rt: HostRuntime) -> Result<(), Fail> {
    for (number, (moment, case, left)) in LEFT.iter().enumerate() {
        let ran = ran(rt.alloc(), case, case.input, &[*moment])?;
        assert_eq!(rt; ran.end.status, case.status, "run {number}");
        assert_eq!(rt; ran.text.as_slice(), case.text, "run {number}");
        assert_eq!(rt; ran.output.as_slice(), case.output, "run {number}");
        assert_eq!(rt; ran.rows.as_slice(), *left, "run {number}");
    }
    Ok(())
}

// Commands over a configuration, each by its names and values in turn, and the replies at these moments.
struct Commands {
    conf: &'static [u8],
    moments: &'static [u64],
    rows: &'static [(&'static [&'static [u8]], &'static [u8])],
}

const K2048: [u8; 2048] = [b'k'; 2048];

const K2049: [u8; 2049] = [b'k'; 2049];

const O496: [u8; 496] = [b'o'; 496];

const O33: [u8; 33] = [b'o'; 33];

const O32: [u8; 32] = [b'o'; 32];

const COMMANDS: [Commands; 13] = [
    // Every command.
    Commands {
        conf: ONE_CACHE,
        moments: &[],
        rows: &[
            (&[b"cmd", b"exists", b"key", b"a"], b"no"),
            (&[b"cmd", b"set", b"key", b"a", b"value", b"1"], b"ok"),
            (&[b"cmd", b"exists", b"key", b"a"], b"yes"),
            (&[b"cmd", b"set", b"key", b"a", b"value", b"2"], b"exists"),
            (&[b"cmd", b"update", b"key", b"a", b"value", b"2"], b"ok"),
            (&[b"cmd", b"get", b"key", b"a"], b"value\n2"),
            (&[b"cmd", b"update", b"key", b"b"], b"ok"),
            (&[b"cmd", b"keys"], b"keys\n\x01\x00b\x01\x00a"),
            (&[b"cmd", b"sweep"], b"number 0"),
            (&[b"cmd", b"del", b"key", b"a"], b"ok"),
            (&[b"cmd", b"del", b"key", b"a"], b"missing"),
            (&[b"cmd", b"inc", b"key", b"n"], b"number 1"),
            (
                &[b"cmd", b"mul", b"key", b"n", b"amount", b"-7"],
                b"number -7",
            ),
            (
                &[b"cmd", b"div", b"key", b"n", b"amount", b"2"],
                b"number -3",
            ),
            (&[b"cmd", b"dec", b"key", b"n"], b"number -4"),
            (&[b"cmd", b"clear"], b"ok"),
            (&[b"cmd", b"num", b"key", b"n"], b"number 0"),
            (&[b"cmd", b"nothing", b"key", b"n"], b"unknown command"),
            (
                &[b"cmd", b"get", b"key", b"n", b"cache", b"d"],
                b"unknown cache",
            ),
            (
                &[b"cmd", b"get", b"key", b"n", b"amount", b"+1"],
                b"bad number",
            ),
            (&[b"cmd", b"get"], b"key length"),
        ],
    },
    // Numbers at the ends of their type.
    Commands {
        conf: ONE_CACHE,
        moments: &[],
        rows: &[
            (
                &[
                    b"cmd",
                    b"set",
                    b"key",
                    b"k",
                    b"value",
                    b"\xff\xff\xff\xff\xff\xff\xff\x7f",
                ],
                b"ok",
            ),
            (&[b"cmd", b"inc", b"key", b"k"], b"range"),
            (
                &[b"cmd", b"num", b"key", b"k"],
                b"number 9223372036854775807",
            ),
            (
                &[b"cmd", b"div", b"key", b"k", b"amount", b"0"],
                b"zero divisor",
            ),
            (&[b"cmd", b"set", b"key", b"j", b"value", b"seven77"], b"ok"),
            (&[b"cmd", b"num", b"key", b"j"], b"not a number"),
            (&[b"cmd", b"inc", b"key", b"j"], b"not a number"),
            (
                &[
                    b"cmd",
                    b"set",
                    b"key",
                    b"m",
                    b"value",
                    b"\x00\x00\x00\x00\x00\x00\x00\x80",
                ],
                b"ok",
            ),
            (&[b"cmd", b"div", b"key", b"m", b"amount", b"-1"], b"range"),
            (&[b"cmd", b"inc", b"key", b"z"], b"number 1"),
        ],
    },
    // Time that runs back.
    Commands {
        conf: ONE_CACHE,
        moments: &[10, 20, 19],
        rows: &[
            (
                &[
                    b"cmd", b"set", b"key", b"k", b"value", b"v", b"expires", b"10",
                ],
                b"ok",
            ),
            (&[b"cmd", b"get", b"key", b"k"], b"missing"),
            (&[b"cmd", b"get", b"key", b"k"], b"value\nv"),
        ],
    },
    // A get is a use, and to ask whether a key exists is none. Where the least recent one is purged, nothing expires.
    Commands {
        conf: b"[uwsgi]\ncache2 = name=c,items=2,blocksize=64,purge_lru=1\n",
        moments: &[],
        rows: &[
            (&[b"cmd", b"set", b"key", b"a", b"value", b"1"], b"ok"),
            (&[b"cmd", b"set", b"key", b"b", b"value", b"2"], b"ok"),
            (&[b"cmd", b"exists", b"key", b"a"], b"yes"),
            (&[b"cmd", b"set", b"key", b"c", b"value", b"3"], b"ok"),
            (&[b"cmd", b"get", b"key", b"a"], b"missing"),
            (&[b"cmd", b"get", b"key", b"b"], b"value\n2"),
        ],
    },
    Commands {
        conf: b"[uwsgi]\ncache2 = name=c,items=2,blocksize=64,purge_lru=1\n",
        moments: &[10, 10, 99],
        rows: &[
            (
                &[
                    b"cmd", b"set", b"key", b"a", b"value", b"1", b"expires", b"1",
                ],
                b"ok",
            ),
            (&[b"cmd", b"set", b"key", b"b", b"value", b"2"], b"ok"),
            (&[b"cmd", b"get", b"key", b"a"], b"value\n1"),
            (&[b"cmd", b"set", b"key", b"c", b"value", b"3"], b"ok"),
            (&[b"cmd", b"get", b"key", b"a"], b"value\n1"),
            (&[b"cmd", b"get", b"key", b"b"], b"missing"),
        ],
    },
    // A run of blocks past 64.
    Commands {
        conf: b"[uwsgi]\ncache2 = name=c,items=10,blocksize=8,bitmap=1,blocks=70\n",
        moments: &[],
        rows: &[
            (&[b"cmd", b"set", b"key", b"a", b"value", &O496], b"ok"),
            (&[b"cmd", b"set", b"key", b"b", b"value", &O32], b"ok"),
            (&[b"cmd", b"set", b"key", b"d", b"value", &O32], b"ok"),
            (&[b"cmd", b"del", b"key", b"b"], b"ok"),
            (&[b"cmd", b"set", b"key", b"e", b"value", &O33], b"full"),
            (&[b"cmd", b"set", b"key", b"f", b"value", &O32], b"ok"),
        ],
    },
    // An update for which there is no room leaves the old value.
    Commands {
        conf: b"[uwsgi]\ncache2 = name=c,items=10,blocksize=8,bitmap=1,blocks=4\n",
        moments: &[],
        rows: &[
            (
                &[b"cmd", b"set", b"key", b"k", b"value", b"oooooooooooooooo"],
                b"ok",
            ),
            (
                &[b"cmd", b"set", b"key", b"j", b"value", b"oooooooooooooooo"],
                b"ok",
            ),
            (
                &[
                    b"cmd",
                    b"update",
                    b"key",
                    b"k",
                    b"value",
                    b"nnnnnnnnnnnnnnnnnnnnnnnn",
                ],
                b"full",
            ),
            (&[b"cmd", b"get", b"key", b"k"], b"value\noooooooooooooooo"),
            (
                &[b"cmd", b"update", b"key", b"k", b"value", b"nnnnnnnnn"],
                b"ok",
            ),
            (&[b"cmd", b"get", b"key", b"k"], b"value\nnnnnnnnnn"),
        ],
    },
    // The largest value drops all others.
    Commands {
        conf: b"[uwsgi]\ncache2 = name=c,items=3,blocksize=8,bitmap=1,blocks=4,purge_lru=1\n",
        moments: &[],
        rows: &[
            (&[b"cmd", b"set", b"key", b"a", b"value", b"1"], b"ok"),
            (&[b"cmd", b"set", b"key", b"b", b"value", b"1"], b"ok"),
            (&[b"cmd", b"set", b"key", b"c", b"value", b"1"], b"ok"),
            (&[b"cmd", b"keys"], b"keys\n\x01\x00c\x01\x00b\x01\x00a"),
            (&[b"cmd", b"set", b"key", b"d", b"value", &O32], b"ok"),
            (&[b"cmd", b"keys"], b"keys\n\x01\x00d"),
            (&[b"cmd", b"set", b"key", b"e", b"value", &O33], b"too long"),
        ],
    },
    // The longest key, and the empty one, which no command takes.
    Commands {
        conf: b"[uwsgi]\ncache2 = name=c,items=4\n",
        moments: &[],
        rows: &[
            (&[b"cmd", b"set", b"key", &K2048], b"ok"),
            (&[b"cmd", b"set", b"key", &K2049], b"key length"),
            (&[b"cmd", b"set"], b"key length"),
            (&[b"cmd", b"get", b"key", &K2048], b"value\n"),
            (&[b"cmd", b"del"], b"key length"),
            (&[b"cmd", b"exists"], b"key length"),
            (&[b"cmd", b"num"], b"key length"),
            (&[b"cmd", b"inc"], b"key length"),
            (&[b"cmd", b"update"], b"key length"),
        ],
    },
    // What makes room in a full cache: to drop what is dead, or all.
    Commands {
        conf: b"[uwsgi]\ncache2 = name=c,items=1,blocksize=64,sweep_on_full=1\n",
        moments: &[10, 14, 15, 15],
        rows: &[
            (
                &[
                    b"cmd", b"set", b"key", b"a", b"value", b"1", b"expires", b"5",
                ],
                b"ok",
            ),
            (&[b"cmd", b"set", b"key", b"b", b"value", b"2"], b"full"),
            (&[b"cmd", b"set", b"key", b"b", b"value", b"2"], b"ok"),
            (&[b"cmd", b"get", b"key", b"a"], b"missing"),
        ],
    },
    Commands {
        conf: b"[uwsgi]\ncache2 = name=c,items=1,blocksize=64,clear_on_full=1\n",
        moments: &[],
        rows: &[
            (&[b"cmd", b"set", b"key", b"a", b"value", b"1"], b"ok"),
            (&[b"cmd", b"set", b"key", b"b", b"value", b"2"], b"ok"),
            (&[b"cmd", b"keys"], b"keys\n\x01\x00b"),
            (&[b"cmd", b"clear"], b"ok"),
            (&[b"cmd", b"keys"], b"keys\n"),
        ],
    },
    // Two caches, of which the first is meant where none is named.
    Commands {
        conf: b"[uwsgi]\ncache2 = name=one,items=4\ncache2 = name=two,items=1\n",
        moments: &[],
        rows: &[
            (&[b"cmd", b"set", b"key", b"k", b"value", b"1"], b"ok"),
            (
                &[
                    b"cmd", b"set", b"key", b"k", b"value", b"2", b"cache", b"two",
                ],
                b"ok",
            ),
            (
                &[
                    b"cmd", b"set", b"key", b"j", b"value", b"2", b"cache", b"two",
                ],
                b"full",
            ),
            (&[b"cmd", b"get", b"key", b"k"], b"value\n1"),
            (
                &[b"cmd", b"get", b"key", b"k", b"cache", b"one"],
                b"value\n1",
            ),
            (
                &[b"cmd", b"get", b"key", b"k", b"cache", b"two"],
                b"value\n2",
            ),
            (
                &[b"cmd", b"get", b"key", b"k", b"cache", b"three"],
                b"unknown cache",
            ),
        ],
    },
    // No cache.
    Commands {
        conf: b"[uwsgi]\n",
        moments: &[],
        rows: &[
            (&[b"cmd", b"get", b"key", b"k"], b"unknown cache"),
            (&[b"cmd", b"nothing"], b"unknown command"),
        ],
    },
];

// Puts a command block with these names and values, as a packet.
fn push_command(input: &mut Vec<u8>, alloc: Global, texts: &[&[u8]]) -> Result<(), AllocError> {
    let mut block = Vec::new(alloc);
    for text in texts {
        let len = (text.len() % 65536) as u16;
        block.extend_from_slice(&len.to_le_bytes())?;
        block.extend_from_slice(text)?;
    }
    let size = (block.len() % 65536) as u16;
    input.push(111)?;
    input.extend_from_slice(&size.to_le_bytes())?;
    input.push(200)?;
    input.extend_from_slice(block.as_slice())
}

#[test]
fn each_command_has_its_reply(rt: HostRuntime) -> Result<(), Fail> {
    let alloc = rt.alloc();
    for (number, commands) in COMMANDS.iter().enumerate() {
        let mut input = Vec::new(alloc);
        let mut wanted = Vec::new(alloc);
        for (texts, reply) in commands.rows {
            push_command(&mut input, alloc, texts)?;
            wanted.extend_from_slice(&[(reply.len() % 256) as u8, 0, 0, 0])?;
            wanted.extend_from_slice(reply)?;
        }
        let case = Case {
            conf: commands.conf,
            ..PIPE
        };
        let ran = ran(alloc, &case, input.as_slice(), commands.moments)?;
        assert_eq!(rt; ran.end.status, 0, "commands {number}");
        assert_eq!(rt;
            ran.output.as_slice(),
            wanted.as_slice(),
            "commands {number}"
        );
    }
    Ok(())
}

#[test]
fn each_packet_has_its_moment(rt: HostRuntime) -> Result<(), Fail> {
    let alloc = rt.alloc();
    let mut input = Vec::new(alloc);
    for value in [b'a', b'b', b'c', b'd'] {
        let set = [111, 10, 0, 1, 1, 0, b'k', 1, 0, value, 2, 0, b'1', b'0'];
        input.extend_from_slice(&set)?;
    }
    let ran = ran(alloc, &PIPE, input.as_slice(), &[10, 15, 20, 31])?;
    assert_eq!(rt; ran.end.status, 0);
    assert_eq!(rt;
        ran.output.as_slice(),
        b"\x02\x00\x00\x00ok\x06\x00\x00\x00exists\x02\x00\x00\x00ok\x02\x00\x00\x00ok".as_slice()
    );
    let mut told = Vec::new(alloc);
    for brief in ran.end.briefs.as_slice() {
        told.push(brief.moment)?;
    }
    assert_eq!(rt; told.as_slice(), [10, 15, 20, 31].as_slice());
    Ok(())
}

const LONG_LOAD: &[u8] =
    b"packets 100000\nvalue 37386\nmissing 15710\nok 34546\nnumber 4429\nother 7929\nbytes 888291\n";

// Over a cache that holds the 256 keys of a load. The figures were reckoned by another program.
#[test]
fn a_long_load_has_its_figures_each_time(rt: HostRuntime) -> Result<(), Fail> {
    let alloc = rt.alloc();
    let case = Case {
        words: &["load", "1", "100000"],
        conf: b"[uwsgi]\ncache2 = name=c,items=300,blocksize=64\n",
        ..PIPE
    };
    for _ in 0..2 {
        let ran = ran(alloc, &case, b"", &[])?;
        assert_eq!(rt; ran.end.status, 0);
        assert_eq!(rt; ran.output.as_slice(), LONG_LOAD);
    }
    Ok(())
}

#[test]
fn a_run_has_a_million_packets_at_most(rt: HostRuntime) -> Result<(), Fail> {
    let alloc = rt.alloc();
    let mut input = Vec::with_capacity(alloc, 5_000_005)?;
    for _ in 0..1_000_000 {
        input.extend_from_slice(b"\x6f\x01\x00\x00k")?;
    }
    let most = ran(alloc, &PIPE, input.as_slice(), &[])?;
    assert_eq!(rt; most.end.status, 0);
    assert_eq!(rt; most.output.len(), 4_000_000);
    input.extend_from_slice(b"\x6f\x01\x00\x00k")?;
    let more = ran(alloc, &PIPE, input.as_slice(), &[])?;
    assert_eq!(rt; more.end.status, 9);
    assert_eq!(rt; more.output.len(), 4_000_000);
    assert_eq!(rt; more.text.as_slice(), b"too many".as_slice());
    Ok(())
}
