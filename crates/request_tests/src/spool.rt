// Rounds of rows by worked examples, over a keeper in memory and no cache.
ghost use Rattle.std.specs.Prelude.{◌<◌};
ghost use Rattle.uw_conf.specs.Given.{parts_in};
ghost use Rattle.uw_conf.specs.Sound.{ArePartsOfSite};
ghost use Rattle.uw_rules.specs.Compiled.{rules_of};
ghost use Rattle.uw_rules.specs.PartNumbers.{AskPartsBelow};

use crate::sites::conf_of;
use std::alloc::Global;
use std::process::Abort;
use std::test::Fail;
use uw_conf::Conf;
use uw_keeper::{Keeper, MemKeeper};
use uw_model::ListDesk;
use uw_outside::Immortal;
use uw_spool::{Outcome, RoundFault, RoundReport, TaskLine, round};

// The moment of every round.
const MOMENT: u64 = 10;

// What a task does by its variable `do` and its body.
const RULES: &[u8] =
    b"[uwsgi]\nspool-if = equal:${do};done spool-end:-2\nspool-if = equal:${do};seven spool-end:7\nspool-if = equal:${do};three spool-end:-3\n\
spool-if = equal:${body};hi spool-end:-2\nspool-if = equal:${do};more spool:do=done\nspool-run = last\n";

// A round over a keeper.
fn ran(
    alloc: Global,
    conf: &Conf,
    keep: &mut MemKeeper,
    k: u32,
    n: u32,
) -> Result<RoundReport, RoundFault>
    requires parts { ArePartsOfSite conf.now.caches conf.now.areas }
    requires known { AskPartsBelow (parts_in conf.now) (rules_of conf.now.tasks) }
    requires spooler { k < n }
{
    match ListDesk::new(alloc, &conf.caches, &conf.areas) {
        Ok(mut desk) => {
            let life = &mut Immortal::new();
            round(alloc, &conf.tasks, MOMENT, k, n, life, &mut desk, keep)
        }
        Err(_) => Err(RoundFault::Memory {
            done: RoundReport::new(alloc),
        }),
    }
}

// A keeper of rows of these bytes, numbered from 1. The calls at these places behind its appends fail.
fn keeper_of(rt: &impl Abort, alloc: Global, rows: &[&[u8]], fails: Vec<u64>) -> MemKeeper {
    let mut keep = MemKeeper::new(Vec::new(alloc), fails);
    for bytes in rows {
        assert!(rt; keep.append(alloc, bytes).is_ok());
    }
    keep
}

// The bytes of a row, what comes of it, and whether it goes.
const OUTCOMES: [(&[u8], Outcome, bool); 16] = [
    // Fewer bytes than a header, another modifier1, and a block that is short, odd or has a text that is short.
    (b"", Outcome::Bad, false),
    (b"\x11\x00\x00", Outcome::Bad, false),
    (b"\x00\x00\x00\x00", Outcome::Bad, false),
    (b"\x11\x05\x00\x00\x02\x00do", Outcome::Bad, false),
    (b"\x11\x04\x00\x00\x02\x00do", Outcome::Bad, false),
    (b"\x11\x02\x00\x00\x05\x00", Outcome::Bad, false),
    // `at` is 11, 10 and no number.
    (
        b"\x11\x08\x00\x00\x02\x00at\x02\x0011",
        Outcome::Later,
        false,
    ),
    (
        b"\x11\x08\x00\x00\x02\x00at\x02\x0010",
        Outcome::Status(0),
        false,
    ),
    (
        b"\x11\x08\x00\x00\x02\x00at\x02\x00+9",
        Outcome::Status(0),
        false,
    ),
    // No variable, with any modifier2.
    (b"\x11\x00\x00\x00", Outcome::Status(0), false),
    (b"\x11\x00\x00\x09", Outcome::Status(0), false),
    // The statuses -2, 7 and -3.
    (
        b"\x11\x0a\x00\x00\x02\x00do\x04\x00done",
        Outcome::Status(-2),
        true,
    ),
    (
        b"\x11\x0b\x00\x00\x02\x00do\x05\x00seven",
        Outcome::Status(-1),
        false,
    ),
    (
        b"\x11\x0b\x00\x00\x02\x00do\x05\x00three",
        Outcome::Status(-1),
        false,
    ),
    // A body.
    (b"\x11\x00\x00\x00hi", Outcome::Status(-2), true),
    (b"\x11\x00\x00\x00ho", Outcome::Status(0), false),
];

#[test]
fn rows_have_their_outcomes(rt: HostRuntime) -> Result<(), Fail> {
    let alloc = rt.alloc();
    let conf = conf_of(&rt, alloc, RULES)?;
    for (bytes, outcome, gone) in OUTCOMES {
        let mut keep = keeper_of(&rt, alloc, &[bytes], Vec::new(alloc));
        let want = [TaskLine {
            number: 1,
            outcome,
            gone,
        }];
        match ran(alloc, &conf, &mut keep, 0, 1) {
            Ok(report) => assert_eq!(rt; report.as_slice(), want.as_slice(), "{bytes:?}"),
            Err(_) => panic!(rt; "{bytes:?}"),
        }
        assert_eq!(rt; keep.rows().is_empty(), gone, "{bytes:?}");
    }
    Ok(())
}

// A row that is done, and one that puts such a row aside.
const DONE: &[u8] = b"\x11\x0a\x00\x00\x02\x00do\x04\x00done";

const MORE: &[u8] = b"\x11\x0a\x00\x00\x02\x00do\x04\x00more";

// A spooler, of how many, the numbers that it reports, and how many rows stand behind its round. The rows before the
// first round are 1 to 4, of which the first puts another one aside each time.
const ROUNDS: [(u32, u32, &[u64], usize); 5] = [
    (0, 3, &[3], 3),
    (2, 3, &[2], 2),
    (1, 3, &[1, 4], 2),
    (0, 1, &[1, 5], 2),
    (1, 2, &[1], 3),
];

#[test]
fn spoolers_share_the_rows(rt: HostRuntime) -> Result<(), Fail> {
    let alloc = rt.alloc();
    let conf = conf_of(&rt, alloc, RULES)?;
    let mut keep = keeper_of(&rt, alloc, &[MORE, DONE, DONE, DONE], Vec::new(alloc));
    for (k, n, numbers, rows) in ROUNDS {
        assert!(rt; k < n);
        match ran(alloc, &conf, &mut keep, k, n) {
            Ok(report) => {
                let lines = report.as_slice();
                assert_eq!(rt; lines.len(), numbers.len());
                for (line, number) in lines.iter().zip(numbers) {
                    assert_eq!(rt; line.number, *number);
                    assert_eq!(rt; line.gone, *number != 1);
                }
            }
            Err(_) => panic!(rt; "{k} of {n}"),
        }
        assert_eq!(rt; keep.rows().len(), rows, "{k} of {n}");
    }
    Ok(())
}

// The place of the call of a round that fails, and how many rows are reported until then. The calls are for the last
// row, and for each row one that gives it and, where it is done, one that removes it.
const FAILING: [(u64, usize); 6] = [(1, 0), (2, 0), (3, 0), (4, 1), (5, 2), (6, 2)];

#[test]
fn a_keeper_that_fails_ends_the_round(rt: HostRuntime) -> Result<(), Fail> {
    let alloc = rt.alloc();
    let conf = conf_of(&rt, alloc, RULES)?;
    for (place, lines) in FAILING {
        let mut fails = Vec::new(alloc);
        fails.push(place + 3)?;
        let mut keep = keeper_of(&rt, alloc, &[DONE, b"", DONE], fails);
        match ran(alloc, &conf, &mut keep, 0, 1) {
            Err(RoundFault::KeeperFault { done }) => assert_eq!(rt; done.len(), lines, "{place}"),
            _ => panic!(rt; "{place}"),
        }
    }
    Ok(())
}

// The bytes of a body, and what comes of its row: a text of the longest one is too long for a rule.
const LONG: [(usize, Outcome); 2] = [(1_048_572, Outcome::Status(-1)), (1_048_573, Outcome::Bad)];

#[test]
fn a_row_has_a_mebibyte_at_most(rt: HostRuntime) -> Result<(), Fail> {
    let alloc = rt.alloc();
    let conf = conf_of(&rt, alloc, RULES)?;
    for (count, outcome) in LONG {
        let mut bytes = b"\x11\x00\x00\x00".to_vec(alloc)?;
        bytes.resize(count + 4, 0)?;
        let mut keep = keeper_of(&rt, alloc, &[bytes.as_slice()], Vec::new(alloc));
        match ran(alloc, &conf, &mut keep, 0, 1) {
            Ok(report) => {
                let lines = report.as_slice();
                assert_eq!(rt; lines.len(), 1);
                assert_eq!(rt; lines[0].outcome, outcome, "{count}");
            }
            Err(_) => panic!(rt; "{count}"),
        }
    }
    Ok(())
}
