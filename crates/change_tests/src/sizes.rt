// Version 4 with pages of other sizes: what is made in one is found, read and written anew by its word alone.
use command_runs::served::{
    AMPLE, KEY, OTHER_KEY, Step, disk_with, file_in, made, serve_all, told,
};
use edge_memory::MemDisk;
use edge_model::Role;
use std::test::Fail;

const REFUSED: &str = "key refused\n";

const HELD: &str = "tags hold: 4 pages\n";

// The size of a page in the header is 1, and the start of content of an empty page 0 or below 65,536.
const LARGEST: [Step<'static>; 7] = [
    (
        &["make", "4:65536", "0"],
        &[KEY],
        Some("made: 0 rows, 0 data bytes\n"),
        0,
    ),
    (&["tags", "4"], &[KEY], Some(REFUSED), 3),
    (&["tags", "4:32768"], &[KEY], Some(REFUSED), 3),
    (&["tags", "4:65536"], &[KEY], Some(HELD), 0),
    (&["probe"], &[KEY], Some("profile 4:65536\n"), 0),
    (
        &["stamp", "4:65536", "user-version", "7"],
        &[KEY],
        Some("stamped\n"),
        0,
    ),
    (
        &["rekey", "4:65536", "4:65536"],
        &[KEY, OTHER_KEY],
        Some("rekeyed: 4 pages\n"),
        0,
    ),
];

const ROWS: [Step<'static>; 2] = [
    (
        &["make", "4:8192", "7"],
        &[KEY],
        Some("made: 7 rows, 14000 data bytes\n"),
        0,
    ),
    (
        &["verify", "4:8192"],
        &[KEY],
        Some("ok: 4 trees, 25 entries, 0 free pages, 0 unused pages\n"),
        0,
    ),
];

// A second word for 4, and the way from it to the least size.
const LEAST: [Step<'static>; 9] = [
    (
        &["make", "4", "0"],
        &[KEY],
        Some("made: 0 rows, 0 data bytes\n"),
        0,
    ),
    (&["probe"], &[KEY], Some("profile 4\n"), 0),
    (&["tags", "4:4096"], &[KEY], Some(HELD), 0),
    (
        &["rekey", "4", "4:8192"],
        &[KEY, KEY],
        Some("layout differs\n"),
        2,
    ),
    (
        &["migrate", "4", "4:1024"],
        &[KEY, KEY],
        Some("migrated: 4 pages\n"),
        0,
    ),
    (
        &["verify", "4:1024"],
        &[KEY],
        Some("ok: 4 trees, 4 entries, 0 free pages, 0 unused pages\n"),
        0,
    ),
    (&["probe"], &[KEY], Some("profile 4:1024\n"), 0),
    (&["tags", "4:512"], &[KEY], Some("usage\n"), 1),
    (
        &["rekey", "4:1024", "3"],
        &[KEY, KEY],
        Some("layout differs\n"),
        2,
    ),
];

// Each script, and how many bytes the file has after it.
const SCRIPTS: [(&[Step<'static>], Option<usize>); 3] = [
    (&LARGEST, Some(262_144)),
    (&ROWS, None),
    (&LEAST, Some(4096)),
];

#[test]
fn a_page_size_of_version_4_is_part_of_its_word(rt: HostRuntime) -> Result<(), Fail> {
    let alloc = rt.alloc();
    for (steps, bytes) in SCRIPTS {
        let mut disk = MemDisk::with_files(alloc, None, None, None)?;
        serve_all(alloc, &mut disk, AMPLE, steps)?;
        if let Some(bytes) = bytes {
            assert_eq!(rt; file_in(alloc, &disk, Role::Main)?.len(), bytes);
        }
    }
    Ok(())
}

#[test]
fn the_header_names_the_largest_size(rt: HostRuntime) -> Result<(), Fail> {
    let alloc = rt.alloc();
    let file = made(alloc, "4:65536", "0")?;
    let text = told(alloc, &["header", "4:65536"], KEY, file.as_slice())?;
    assert!(rt; text.starts_with(b"page size 65536\nreserve 80\npages 4\n"));
    Ok(())
}

// Pages that are damaged stand on both sides of where a batch ends: of 16,384 bytes four are read at once, of 65,536 one.
#[test]
fn each_damaged_page_is_named(rt: HostRuntime) -> Result<(), Fail> {
    let alloc = rt.alloc();
    for (word, rows, size) in [("4:16384", "30", 16_384), ("4:65536", "100", 65_536)] {
        let mut file = made(alloc, word, rows)?;
        for n in [4usize, 5] {
            if let Some(byte) = file.get_mut((n - 1) * size + 100) {
                *byte ^= 1;
            }
        }
        let mut disk = disk_with(alloc, file.as_slice())?;
        let says = "page 4: tag refused\npage 5: tag refused\n";
        serve_all(
            alloc,
            &mut disk,
            0,
            &[(&["tags", word], &[KEY], Some(says), 2)],
        )?;
    }
    Ok(())
}

// To and from each size the rows stay.
#[test]
fn rows_go_from_size_to_size(rt: HostRuntime) -> Result<(), Fail> {
    let alloc = rt.alloc();
    let words = [
        "4:1024", "4:65536", "4:2048", "3", "4:8192", "4:32768", "1", "4:16384", "4",
    ];
    let first = made(alloc, "4", "40")?;
    let text = told(alloc, &["export", "4"], KEY, first.as_slice())?;
    let mut disk = disk_with(alloc, first.as_slice())?;
    let mut from = "4";
    for to in words {
        serve_all(
            alloc,
            &mut disk,
            AMPLE,
            &[(&["migrate", from, to], &[KEY, KEY], None, 0)],
        )?;
        let file = file_in(alloc, &disk, Role::Main)?;
        let now = told(alloc, &["export", to], KEY, file.as_slice())?;
        assert_eq!(rt; now.as_slice(), text.as_slice(), "{to}");
        from = to;
    }
    Ok(())
}
