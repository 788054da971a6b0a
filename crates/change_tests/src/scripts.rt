// Several commands on one disk: what one command leaves is looked at with the others, whose own rows compare with values from outside.
use command_runs::pages::{Change, sealed};
use command_runs::served::{AMPLE, KEY, OTHER_KEY, Step, disk_with, file_in, serve_all};
use edge_memory::MemDisk;
use edge_model::Role;
use std::test::Fail;

const HELD: &str = "tags hold: 4 pages\n";

const REFUSED: &str = "key refused\n";

const EMPTY: &str = "file is empty\n";

// A journal that is not hot.
const COLD: &[u8] = &[0];

const MAKE: [Step<'static>; 3] = [
    (
        &["make", "4", "7"],
        &[KEY],
        Some("made: 7 rows, 14000 data bytes\n"),
        0,
    ),
    (&["make", "4", "7"], &[KEY], Some("file is there\n"), 2),
    (
        &["verify", "4"],
        &[KEY],
        Some("ok: 4 trees, 25 entries, 0 free pages, 0 unused pages\n"),
        0,
    ),
];

// Layouts may differ.
const MIGRATE: [Step<'static>; 4] = [
    (
        &["make", "1", "0"],
        &[KEY],
        Some("made: 0 rows, 0 data bytes\n"),
        0,
    ),
    (
        &["migrate", "1", "4"],
        &[KEY, OTHER_KEY],
        Some("migrated: 4 pages\n"),
        0,
    ),
    (&["verify", "4"], &[KEY], Some(REFUSED), 3),
    (
        &["verify", "4"],
        &[OTHER_KEY],
        Some("ok: 4 trees, 4 entries, 0 free pages, 0 unused pages\n"),
        0,
    ),
];

const LARGE_REPORT: &str = "ok: 4 trees, 3004 entries, 0 free pages, 0 unused pages\n";

// A file of some hundred pages.
const LARGE: [Step<'static>; 5] = [
    (
        &["make", "4", "1000"],
        &[KEY],
        Some("made: 1000 rows, 2250000 data bytes\n"),
        0,
    ),
    (&["verify", "4"], &[KEY], Some(LARGE_REPORT), 0),
    (&["rekey", "4", "4"], &[KEY, OTHER_KEY], None, 0),
    (&["verify", "4"], &[OTHER_KEY], Some(LARGE_REPORT), 0),
    (&["verify", "4"], &[KEY], Some(REFUSED), 3),
];

// Each script, and how many pages of 4,096 bytes the file has after it, where that is worked out.
const SCRIPTS: [(&[Step<'static>], Option<usize>); 3] = [
    (&MAKE, None),
    (&MIGRATE, Some(4)),
    (&LARGE, None),
];

// A Fresh that a stop left does not matter. The new file has four pages of its own size.
#[test]
fn a_made_database_is_whole_and_is_not_made_again(rt: HostRuntime) -> Result<(), Fail> {
    let alloc = rt.alloc();
    for (steps, pages) in SCRIPTS {
        let mut disk = MemDisk::with_files(alloc, None, None, Some(&[7; 100]))?;
        serve_all(alloc, &mut disk, AMPLE, steps)?;
        assert!(rt; disk.bytes(Role::Fresh).is_none());
        let length = file_in(alloc, &disk, Role::Main)?.len();
        if let Some(pages) = pages {
            assert_eq!(rt; length, pages.saturating_mul(4096));
        }
    }
    Ok(())
}

// Page 2 is a trunk of the freelist with the one leaf 3, which is stored as zeros.
const TRUNK: [Change; 2] = [
    (1, 32, &[0, 0, 0, 2, 0, 0, 0, 2]),
    (2, 0, &[0, 0, 0, 0, 0, 0, 0, 1, 0, 0, 0, 3]),
];

const REKEY: [Step<'static>; 4] = [
    (
        &["rekey", "3", "3"],
        &[KEY, OTHER_KEY],
        Some("rekeyed: 4 pages\n"),
        0,
    ),
    (&["tags", "3"], &[KEY], Some(REFUSED), 3),
    (&["tags", "3"], &[OTHER_KEY], Some(HELD), 0),
    (
        &["verify", "3"],
        &[OTHER_KEY],
        Some("ok: 1 trees, 0 entries, 2 free pages, 1 unused pages\n"),
        0,
    ),
];

#[test]
fn every_page_has_the_second_key_and_a_leaf_of_the_freelist_is_zeros(
    rt: HostRuntime,
) -> Result<(), Fail> {
    let alloc = rt.alloc();
    let mut old = sealed(alloc, "3", KEY, 4, &TRUNK)?;
    for byte in old.iter_mut().skip(2048).take(1024) {
        *byte = 0;
    }
    let mut disk = disk_with(alloc, old.as_slice())?;
    serve_all(alloc, &mut disk, 192, &REKEY)?;
    Ok(())
}

const STAMP_WORDS: &[&str] = &["stamp", "4", "user-version", "7"];

const STAMP: [Step<'static>; 5] = [
    (STAMP_WORDS, &[KEY], Some("stamped\n"), 0),
    (
        &["header", "4"],
        &[KEY],
        Some(
            "page size 4096\nreserve 80\npages 4\nchange counter 2\nfreelist trunk 0\nfreelist pages 0\n\
            schema cookie 1\nschema format 4\ncache size 0\nencoding 1\nuser version 7\napplication id 0\n\
            sqlite version 3045000\n",
        ),
        0,
    ),
    (
        &["stamp", "4", "application-id", "4294967295"],
        &[KEY],
        Some("stamped\n"),
        0,
    ),
    (
        &["header", "4"],
        &[KEY],
        Some(
            "page size 4096\nreserve 80\npages 4\nchange counter 3\nfreelist trunk 0\nfreelist pages 0\n\
            schema cookie 1\nschema format 4\ncache size 0\nencoding 1\nuser version 7\napplication id 4294967295\n\
            sqlite version 3045000\n",
        ),
        0,
    ),
    (&["tags", "4"], &[KEY], Some(HELD), 0),
];

#[test]
fn a_stamp_changes_the_counter_and_the_field_alone(rt: HostRuntime) -> Result<(), Fail> {
    let alloc = rt.alloc();
    let old = sealed(alloc, "4", KEY, 4, &[])?;
    let mut disk = disk_with(alloc, old.as_slice())?;
    serve_all(alloc, &mut disk, 80, &STAMP)?;
    let new = file_in(alloc, &disk, Role::Main)?;
    assert_eq!(rt; new.len(), old.len());
    assert!(rt; new.iter().skip(4096).eq(old.iter().skip(4096)));
    Ok(())
}

// Whether there is a file of version 3 under the first key, and a journal; how many bytes may be drawn; and what is answered because of
// these.
const REFUSALS: [(bool, bool, usize, Step<'static>); 8] = [
    (
        true,
        false,
        0,
        (&["migrate", "3", "4"], &[OTHER_KEY, KEY], Some(REFUSED), 3),
    ),
    (false, false, 80, (STAMP_WORDS, &[KEY], Some(EMPTY), 2)),
    (false, false, 0, (&["tags", "4"], &[KEY], Some(EMPTY), 2)),
    (false, true, 0, (&["tags", "4"], &[KEY], Some(EMPTY), 2)),
    (false, false, 0, (&["probe"], &[KEY], Some(EMPTY), 2)),
    (
        false,
        true,
        0,
        (&["probe"], &[KEY], Some("journal is there\n"), 2),
    ),
    (
        false,
        true,
        0,
        (&["make", "4", "0"], &[KEY], Some("journal is there\n"), 2),
    ),
    (false, false, 15, (&["make", "4", "0"], &[KEY], Some(""), 7)),
];

#[test]
fn a_refusal_leaves_the_files(rt: HostRuntime) -> Result<(), Fail> {
    let alloc = rt.alloc();
    let old = sealed(alloc, "3", KEY, 4, &[])?;
    for (has_main, has_journal, drawn, step) in REFUSALS {
        let main = if has_main { Some(old.as_slice()) } else { None };
        let journal = if has_journal { Some(COLD) } else { None };
        let mut disk = MemDisk::with_files(alloc, main, journal, None)?;
        serve_all(alloc, &mut disk, drawn, &[step])?;
        assert!(rt; disk.bytes(Role::Main) == main);
    }
    Ok(())
}
