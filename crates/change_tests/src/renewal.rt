// To which rows a file is rekeyed and migrated, and that a migration is streamed.
use command_runs::served::{AMPLE, Given, KEY, OTHER_KEY, disk_with, file_in, made, serve, told};
use edge_model::Role;
use sqlcipher_tool::Status;
use std::alloc::{AllocError, Global};
use std::process::Abort;
use std::test::Fail;

// More calls of the disk than a run here makes.
const MOST_CALLS: u64 = 4000;

// The key does not fit this file.
fn refuses(
    rt: &impl Abort,
    alloc: Global,
    words: &[&str],
    key: &[u8],
    file: &[u8],
) -> Result<(), Fail> {
    let said = told(alloc, words, key, file)?;
    assert_eq!(rt; said.as_slice(), b"key refused\n".as_slice(), "{words:?}");
    Ok(())
}

// The file of so many rows has, after this command from one profile to the other, the same rows under the second key alone.
fn keeps_its_rows(
    rt: &impl Abort,
    alloc: Global,
    name: &str,
    profiles: [&str; 2],
    rows: &str,
) -> Result<(), Fail> {
    let [from, to] = profiles;
    let old = made(alloc, from, rows)?;
    let mut disk = disk_with(alloc, old.as_slice())?;
    let given = Given {
        words: &[name, from, to],
        lines: &[KEY, OTHER_KEY],
        drawn: AMPLE,
    };
    assert_eq!(rt;
        serve(alloc, &given, &mut disk)?.status,
        Status::Done,
        "{name} {rows}"
    );
    let new = file_in(alloc, &disk, Role::Main)?;
    for word in ["verify", "export"] {
        let before = told(alloc, &[word, from], KEY, old.as_slice())?;
        let after = told(alloc, &[word, to], OTHER_KEY, new.as_slice())?;
        assert!(rt; before.len() > 50);
        assert_eq!(rt; before.as_slice(), after.as_slice(), "{name} {rows}");
        refuses(rt, alloc, &[word, from], OTHER_KEY, old.as_slice())?;
        refuses(rt, alloc, &[word, to], KEY, new.as_slice())?;
    }
    Ok(())
}

const CHANGES: [(&str, &str, &str, &str); 4] = [
    ("rekey", "3", "3", "30"),
    ("migrate", "3", "4", "7"),
    ("migrate", "1", "4", "0"),
    ("migrate", "1", "4", "1000"),
];

#[test]
fn the_new_file_has_the_old_rows_under_the_second_key_alone(rt: HostRuntime) -> Result<(), Fail> {
    let alloc = rt.alloc();
    for (name, from, to, rows) in CHANGES {
        keeps_its_rows(&rt, alloc, name, [from, to], rows)?;
    }
    Ok(())
}

// Fresh after a migration from 1 to 4 that was stopped after so many calls of the disk, and how it ended.
fn fresh_after(alloc: Global, old: &[u8], calls: u64) -> Result<(Vec<u8>, Status), AllocError> {
    let mut disk = disk_with(alloc, old)?;
    disk.stop_after(calls);
    let given = Given {
        words: &["migrate", "1", "4"],
        lines: &[KEY, KEY],
        drawn: AMPLE,
    };
    let status = serve(alloc, &given, &mut disk)?.status;
    Ok((file_in(alloc, &disk, Role::Fresh)?, status))
}

// How many calls lie between two stops that are tried.
const STRIDE: u64 = 32;

// Pages are held back until 64 can be sealed side by side. A body that first reads a whole tree would then make nothing but writes to
// Fresh from the first page of `items` to its last, which is on more pages than that.
#[test]
fn between_two_writes_of_one_tree_the_old_file_is_read(rt: HostRuntime) -> Result<(), Fail> {
    let alloc = rt.alloc();
    let old = made(alloc, "1", "120")?;
    let mut read = false;
    let mut calls = 0u64;
    for _ in 0..MOST_CALLS / STRIDE {
        let (before, status) = fresh_after(alloc, old.as_slice(), calls)?;
        let (after, _) = fresh_after(alloc, old.as_slice(), calls.saturating_add(1))?;
        let pages = before.len() / 4096;
        read = pages >= 60 && pages <= 70 && before.as_slice() == after.as_slice();
        if read || status != Status::DiskFault {
            break;
        }
        calls = calls.saturating_add(STRIDE);
    }
    assert!(rt; read);
    Ok(())
}
