// The rows of plain files, which take no key line and no drawn byte: where none is given the first call for one fails.
use command_runs::served::{Given, KEY, disk_with, file_in, made, serve_failing};
use edge_memory::MemDisk;
use edge_model::Role;
use std::alloc::Global;
use std::process::Abort;
use std::test::Fail;

// The words, the key lines, how many bytes are there to be drawn, how what is printed begins, and the status.
type Row<'a> = (&'a [&'a str], &'a [&'a [u8]], usize, &'a str, u8);

const MAGIC: &[u8] = b"SQLite format 3\0";

const STAMPED: &str = "stamped\n";

const COUNTS: &str = "ok: 4 trees, 4 entries, 0 free pages, 0 unused pages\n";

const SALVAGED: &str = "row 1 1 'table' 'items' 'items' 2 'CREATE TABLE items(";

const REFUSED: &str = "key refused\n";

const DIFFER: &str = "layout differs\n";

const NO_TAGS: &str = "profile has no tags\n";

const MOVED: &str = "migrated: 4 pages\n";

const FIELDS: &str = "page size 1024\nreserve 0\npages 4\n";

// A plain file is made and read, encrypted, and is plain again. A salt and four pages of version 4 draw 336 bytes.
const ROWS: [Row<'static>; 21] = [
    (&["tags", "plain:512"], &[], 0, NO_TAGS, 2),
    (&["rekey", "plain:512", "plain:512"], &[], 0, DIFFER, 2),
    (&["rekey", "plain:1024", "4:1024"], &[KEY], 0, DIFFER, 2),
    (&["header", "plain:256"], &[], 0, "usage\n", 1),
    (
        &["make", "plain:1024", "0"],
        &[],
        0,
        "made: 0 rows, 0 data bytes\n",
        0,
    ),
    (&["header", "plain:1024"], &[], 0, FIELDS, 0),
    (
        &["header", "plain:4096"],
        &[],
        0,
        "header fault at 16: 1024\n",
        2,
    ),
    (&["verify", "plain:1024"], &[], 0, COUNTS, 0),
    (
        &["stamp", "plain:1024", "user-version", "7"],
        &[],
        0,
        STAMPED,
        0,
    ),
    (
        &["find", "plain:1024", "items", "1", "9"],
        &[],
        0,
        "found: 0 rows\n",
        0,
    ),
    (&["salvage", "plain:1024"], &[], 0, SALVAGED, 0),
    (&["recover", "plain:1024"], &[], 0, "nothing\n", 0),
    (&["export", "plain:1024"], &[], 0, "database cookie ", 0),
    (
        &["agree", "plain:1024"],
        &[],
        0,
        "ok: 1 indexes, 0 entries, 0 not checked\n",
        0,
    ),
    (&["probe"], &[KEY], 0, REFUSED, 3),
    (&["migrate", "plain:1024", "4"], &[KEY], 336, MOVED, 0),
    (&["verify", "4"], &[KEY], 0, COUNTS, 0),
    (&["verify", "plain:1024"], &[], 0, REFUSED, 3),
    (&["migrate", "4", "plain:65536"], &[KEY], 0, MOVED, 0),
    (&["verify", "plain:65536"], &[], 0, COUNTS, 0),
    (
        &["migrate", "plain:65536", "plain:512"],
        &[],
        0,
        "migrated: ",
        0,
    ),
];

// Runs the command of this row, and answers what it printed.
fn answered(
    rt: &impl Abort,
    alloc: Global,
    disk: &mut MemDisk,
    row: &Row<'_>,
) -> Result<Vec<u8>, Fail> {
    let (words, lines, drawn, text, code) = *row;
    let given = Given {
        words,
        lines,
        drawn,
    };
    let take = if lines.len() == 0 { 1 } else { 0 };
    let served = serve_failing(alloc, &given, take, 0, disk)?;
    assert_eq!(rt; served.status.code(), code, "{words:?}");
    assert!(rt; served.text.starts_with(text.as_bytes()), "{words:?}");
    Ok(served.text)
}

#[test]
fn answers_each_row_of_plain_files(rt: HostRuntime) -> Result<(), Fail> {
    let alloc = rt.alloc();
    let mut disk = MemDisk::new(alloc);
    for row in &ROWS {
        answered(&rt, alloc, &mut disk, row)?;
    }
    assert_eq!(rt; disk.starved(), 0);
    Ok(())
}

// To each of these a file is migrated, with the key lines for that and how many bytes are there to be drawn, and then exported with these.
type Hop<'a> = (&'a str, &'a [&'a [u8]], usize, &'a [&'a [u8]]);

const HOPS: [Hop<'static>; 5] = [
    ("4", &[KEY], 4_000, &[KEY]),
    ("plain:65536", &[KEY], 0, &[]),
    ("plain:512", &[], 0, &[]),
    ("1", &[KEY], 4_000, &[KEY]),
    ("plain:4096", &[KEY], 0, &[]),
];

// The rows of a file are printed alike however it is stored.
#[test]
fn the_rows_stay_whatever_a_file_is_migrated_to(rt: HostRuntime) -> Result<(), Fail> {
    let alloc = rt.alloc();
    let mut disk = disk_with(alloc, made(alloc, "plain:1024", "7")?.as_slice())?;
    assert!(rt; file_in(alloc, &disk, Role::Main)?.starts_with(MAGIC));
    let text = "database cookie ";
    let row: Row<'_> = (&["export", "plain:1024"], &[], 0, text, 0);
    let first = answered(&rt, alloc, &mut disk, &row)?;
    let mut from = "plain:1024";
    for (to, lines, drawn, keys) in HOPS {
        let row: Row<'_> = (&["migrate", from, to], lines, drawn, "migrated: ", 0);
        answered(&rt, alloc, &mut disk, &row)?;
        let file = file_in(alloc, &disk, Role::Main)?;
        assert_eq!(rt; file.starts_with(MAGIC), to.starts_with("plain"), "{to}");
        let row: Row<'_> = (&["export", to], keys, 0, text, 0);
        let now = answered(&rt, alloc, &mut disk, &row)?;
        assert_eq!(rt; now.as_slice(), first.as_slice(), "{to}");
        from = to;
    }
    Ok(())
}

// The byte of the reserve in the header, and what a word with another size says.
#[test]
fn a_plain_file_with_a_reserve_is_refused(rt: HostRuntime) -> Result<(), Fail> {
    let alloc = rt.alloc();
    let mut file = made(alloc, "plain:1024", "0")?;
    if let Some(byte) = file.get_mut(20) {
        *byte = 12;
    }
    let mut disk = disk_with(alloc, file.as_slice())?;
    let row: Row<'_> = (
        &["header", "plain:1024"],
        &[],
        0,
        "header fault at 20: 12\n",
        2,
    );
    answered(&rt, alloc, &mut disk, &row)?;
    Ok(())
}
