// The keepers through their trait.
use std::alloc::{AllocError, Global};
use std::test::Fail;
use std::{env, fs, process};
use uw_base::Bytes;
use uw_keeper::{FolderKeeper, KeepFault, Keeper, MemKeeper, Row};

// A call of a keeper.
#[derive(Clone, Copy, Debug)]
enum Ask<'a> {
    Last,
    Append(&'a [u8]),
    Remove(u64),
    Next(u64),
}

// What a keeper answers to a call, as a text.
fn told<K: Keeper>(alloc: Global, keeper: &mut K, ask: Ask<'_>) -> Result<String, AllocError> {
    match ask {
        Ask::Last => format!(in alloc; "{:?}", keeper.last(alloc)),
        Ask::Append(bytes) => format!(in alloc; "{:?}", keeper.append(alloc, bytes)),
        Ask::Remove(number) => format!(in alloc; "{:?}", keeper.remove(alloc, number)),
        Ask::Next(number) => match keeper.next_after(alloc, number) {
            Ok(Some(row)) => format!(in alloc; "{} {:?}", row.number, row.bytes.as_slice()),
            Ok(None) => format!(in alloc; "none"),
            Err(fault) => format!(in alloc; "{fault:?}"),
        },
    }
}

// Calls of a keeper that is empty at first, and what each answers.
const CALLS: [(Ask<'static>, &str); 24] = [
    (Ask::Last, "Ok(None)"),
    (Ask::Next(0), "none"),
    (Ask::Remove(1), "Err(Absent { number: 1 })"),
    (Ask::Append(b"a"), "Ok(1)"),
    (Ask::Append(b"bc"), "Ok(2)"),
    (Ask::Append(b""), "Ok(3)"),
    (Ask::Append(b"d"), "Ok(4)"),
    (Ask::Last, "Ok(Some(4))"),
    (Ask::Next(0), "1 [97]"),
    (Ask::Next(1), "2 [98, 99]"),
    (Ask::Next(2), "3 []"),
    (Ask::Remove(2), "Ok(())"),
    (Ask::Remove(2), "Err(Absent { number: 2 })"),
    (Ask::Remove(0), "Err(Absent { number: 0 })"),
    (Ask::Next(1), "3 []"),
    (Ask::Next(4), "none"),
    (Ask::Append(b"e"), "Ok(5)"),
    (Ask::Next(4), "5 [101]"),
    (Ask::Remove(5), "Ok(())"),
    (Ask::Last, "Ok(Some(4))"),
    (Ask::Append(b"f"), "Ok(5)"),
    (Ask::Remove(5), "Ok(())"),
    (Ask::Append(b"g"), "Ok(5)"),
    (Ask::Next(4), "5 [103]"),
];

// The first call that is answered otherwise, with its answer.
fn wrong<K: Keeper>(
    alloc: Global,
    keeper: &mut K,
    calls: &[(Ask<'_>, &str)],
) -> Result<Option<String>, AllocError> {
    for (ask, want) in calls {
        let got = told(alloc, keeper, *ask)?;
        if got.as_str() != *want {
            return Ok(Some(format!(in alloc; "{ask:?}: {got}")?));
        }
    }
    Ok(None)
}

#[test]
fn a_keeper_in_memory_answers(rt: HostRuntime) -> Result<(), Fail> {
    let mut keeper = MemKeeper::new(Vec::new(rt.alloc()), Vec::new(rt.alloc()));
    assert_eq!(rt; wrong(rt.alloc(), &mut keeper, &CALLS)?, None);
    assert_eq!(rt; keeper.rows().len(), 4);
    Ok(())
}

#[test]
fn listed_calls_fail(rt: HostRuntime) -> Result<(), Fail> {
    let alloc = rt.alloc();
    let row = Row {
        number: u64::MAX,
        bytes: Bytes::new(alloc),
    };
    let rows = Vec::from_array(alloc, [row])?;
    let mut keeper = MemKeeper::new(rows, [2, 4, 5, 7].to_vec(alloc)?);
    let calls = [
        (Ask::Append(b"a"), "Err(NoNumber)"),
        (Ask::Append(b"a"), "Err(KeeperFault)"),
        (Ask::Next(7), "18446744073709551615 []"),
        (Ask::Next(7), "KeeperFault"),
        (Ask::Remove(7), "Err(KeeperFault)"),
        (Ask::Remove(u64::MAX), "Ok(())"),
        (Ask::Last, "Err(KeeperFault)"),
        (Ask::Last, "Ok(None)"),
        (Ask::Append(b"a"), "Ok(1)"),
    ];
    assert_eq!(rt; wrong(alloc, &mut keeper, &calls)?, None);
    Ok(())
}

// A folder for one test, of this process alone.
fn new_folder(rt: &HostRuntime, name: &str) -> Result<String, Fail> {
    let base = env::temp_dir(rt)?;
    let id = process::id(rt.process());
    let folder = format!(in rt.alloc(); "{}/uw_keeper-{id}-{name}", base.as_path().display())?;
    fs::create_dir(rt, folder.as_str())?;
    Ok(folder)
}

#[test]
fn a_keeper_over_a_folder_answers(rt: HostRuntime) -> Result<(), Fail> {
    let alloc = rt.alloc();
    let folder = new_folder(&rt, "calls")?;
    // Files that are no rows.
    for name in [
        "00000000000000000000",
        "99999999999999999999",
        "0000000000000000000x",
        "000000000000000000007",
        "7",
        ".new-00000000000000000001-0",
    ] {
        let path = format!(in alloc; "{folder}/{name}")?;
        fs::write(&rt, path.as_str(), "x")?;
    }
    let mut keeper = FolderKeeper::new(alloc, &rt, folder.clone()?);
    assert_eq!(rt; wrong(alloc, &mut keeper, &CALLS)?, None);
    let first = format!(in alloc; "{folder}/00000000000000000001")?;
    assert_eq!(rt; fs::read(&rt, first.as_str())?.as_slice(), b"a".as_slice());
    fs::remove_dir_all(&rt, folder.as_str())?;
    assert_eq!(rt;
        told(alloc, &mut keeper, Ask::Last)?.as_str(),
        "Err(KeeperFault)"
    );
    assert_eq!(rt;
        told(alloc, &mut keeper, Ask::Append(b"h"))?.as_str(),
        "Err(KeeperFault)"
    );
    Ok(())
}

// Of two keepers over one folder: whether the first is asked, what it is asked, and what it answers.
const SHARED: [(bool, Ask<'static>, &str); 13] = [
    (true, Ask::Last, "Ok(None)"),
    (false, Ask::Last, "Ok(None)"),
    (true, Ask::Append(b"a"), "Ok(1)"),
    (false, Ask::Append(b"b"), "Ok(2)"),
    (false, Ask::Append(b"c"), "Ok(3)"),
    (true, Ask::Append(b"d"), "Ok(4)"),
    (true, Ask::Last, "Ok(Some(4))"),
    (false, Ask::Remove(1), "Ok(())"),
    (false, Ask::Remove(3), "Ok(())"),
    (true, Ask::Next(0), "2 [98]"),
    (true, Ask::Next(2), "4 [100]"),
    (true, Ask::Remove(3), "Err(Absent { number: 3 })"),
    (false, Ask::Next(4), "none"),
];

#[test]
fn two_keepers_share_a_folder(rt: HostRuntime) -> Result<(), Fail> {
    let alloc = rt.alloc();
    let folder = new_folder(&rt, "shared")?;
    let mut one = FolderKeeper::new(alloc, &rt, folder.clone()?);
    let mut other = FolderKeeper::new(alloc, &rt, folder.clone()?);
    for (is_one, ask, want) in SHARED {
        let got = if is_one {
            told(alloc, &mut one, ask)?
        } else {
            told(alloc, &mut other, ask)?
        };
        assert_eq!(rt; got.as_str(), want, "{is_one} {ask:?}");
    }
    fs::remove_dir_all(&rt, folder.as_str())?;
    Ok(())
}

// Goes through all rows and removes each, and says how many there were.
fn emptied<K: Keeper>(alloc: Global, keeper: &mut K) -> Result<u64, KeepFault> {
    let mut number = 0;
    let last = keeper.last(alloc)?.unwrap_or(0);
    let mut count = 0u64;
    for _ in 0..last {
        let Some(row) = keeper.next_after(alloc, number)? else {
            break;
        };
        number = row.number;
        keeper.remove(alloc, number)?;
        count = count.saturating_add(1);
    }
    Ok(count)
}

#[test]
fn a_round_goes_over_a_thousand_rows(rt: HostRuntime) -> Result<(), Fail> {
    let alloc = rt.alloc();
    let folder = new_folder(&rt, "thousand")?;
    let mut keeper = FolderKeeper::new(alloc, &rt, folder.clone()?);
    for number in 1..=1_000 {
        assert_eq!(rt; keeper.append(alloc, b"row"), Ok(number));
    }
    let mut other = FolderKeeper::new(alloc, &rt, folder.clone()?);
    assert_eq!(rt; emptied(alloc, &mut other), Ok(1_000));
    assert_eq!(rt; keeper.last(alloc), Ok(None));
    fs::remove_dir(&rt, folder.as_str())?;
    Ok(())
}
