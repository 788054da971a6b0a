// The rows of `header`, `verify`, `export`, `tags` and `probe` on sealed files of four pages.
use command_runs::pages::{Change, sealed, turn};
use command_runs::served::{KEY, OTHER_KEY, Step, disk_with, serve_all, told};
use std::alloc::Global;
use std::process::Abort;
use std::test::Fail;

// What becomes of a file once it is sealed.
#[derive(Clone, Copy, Debug)]
enum Then {
    // It stays.
    Whole,
    // The lowest bit of this byte is turned.
    Turned(usize),
    // It is cut to so many bytes, or has zeros behind its end.
    Sized(usize),
}

// The words, the changes of the plain pages, what becomes of the file, what is printed, and the status. The file is of the profile that
// the words name.
type Row = ([&'static str; 2], &'static [Change], Then, &'static str, u8);

// A passphrase.
const OLD: &[u8] = b"old\n";

const REPORT: &str =
    "page size 4096\nreserve 80\npages 4\nchange counter 1\nfreelist trunk 0\nfreelist pages 0\n\
    schema cookie 1\nschema format 4\ncache size 0\nencoding 1\nuser version 0\napplication id 0\n\
    sqlite version 3045000\n";

const HEADER: [&str; 2] = ["header", "4"];

const HEADERS: [Row; 7] = [
    (HEADER, &[], Then::Whole, REPORT, 0),
    (HEADER, &[(1, 18, &[2])], Then::Whole, "WAL mode\n", 2),
    (HEADER, &[(1, 55, &[1])], Then::Whole, "auto-vacuum\n", 2),
    (
        HEADER,
        &[(1, 21, &[63])],
        Then::Whole,
        "header fault at 21: 63\n",
        2,
    ),
    (
        HEADER,
        &[(1, 31, &[5])],
        Then::Whole,
        "file is short: 16384 bytes\n",
        2,
    ),
    (
        HEADER,
        &[(1, 31, &[0])],
        Then::Sized(16_484),
        "file is ragged: 16484 bytes\n",
        2,
    ),
    (
        HEADER,
        &[(1, 28, &[0, 4, 0, 1])],
        Then::Whole,
        "file is too large: 262145 pages\n",
        2,
    ),
];

// Page 1 is an interior page of the schema with the right child 2, or one with a child that is no page, and page 2 is its own child.
const INTERIOR: Change = (1, 100, &[5, 0, 0, 0, 0, 0, 0, 0, 0, 0, 0, 2]);

const BEYOND: Change = (1, 100, &[5, 0, 0, 0, 0, 0, 0, 0, 0, 0, 0, 9]);

const ITSELF: Change = (2, 0, &[5, 0, 0, 0, 0, 0, 0, 0, 0, 0, 0, 2]);

// The freelist has page 3 as a trunk, and is to have one page, or two.
const TRUNK: Change = (1, 32, &[0, 0, 0, 3, 0, 0, 0, 1]);

const TWO_FREE: Change = (1, 32, &[0, 0, 0, 3, 0, 0, 0, 2]);

const ZEROS: Change = (3, 0, &[0; 8]);

const VERIFY: [&str; 2] = ["verify", "4"];

const OK: &str = "ok: 1 trees, 0 entries, 0 free pages, 3 unused pages\n";

const FREE: &str = "ok: 1 trees, 0 entries, 1 free pages, 2 unused pages\n";

// The tag of page 4 begins at byte 16,320.
const VERIFIES: [Row; 6] = [
    (VERIFY, &[], Then::Whole, OK, 0),
    (
        VERIFY,
        &[INTERIOR, ITSELF],
        Then::Whole,
        "page 2: page twice\n",
        2,
    ),
    (
        VERIFY,
        &[BEYOND],
        Then::Whole,
        "page 1: child out of range\n",
        2,
    ),
    (VERIFY, &[TRUNK, ZEROS], Then::Whole, FREE, 0),
    (
        VERIFY,
        &[TWO_FREE, ZEROS],
        Then::Whole,
        "free count 2, found 1\n",
        2,
    ),
    (
        VERIFY,
        &[],
        Then::Turned(16_320),
        "page 4: tag refused\n",
        2,
    ),
];

const HOSTILE: [&str; 2] = ["verify", "3"];

// Page 2 has one cell, at 900 or at 800, where 97 local bytes and the first overflow page follow the lengths.
const ONE: Change = (2, 3, &[0, 1]);

const AT_900: Change = (2, 8, &[3, 132]);

const AT_800: Change = (2, 8, &[3, 32]);

const LONG: Change = (2, 800, &[0x8e, 0x7a, 1]);

const SHORT: Change = (2, 800, &[0x87, 0x2e, 1]);

const CHAIN: Change = (2, 900, &[0, 0, 0, 3]);

const HOSTILES: [Row; 12] = [
    (
        HOSTILE,
        &[INTERIOR, (2, 0, &[7])],
        Then::Whole,
        "page 2: bad kind\n",
        2,
    ),
    (
        HOSTILE,
        &[INTERIOR, ONE, (2, 8, &[0, 4])],
        Then::Whole,
        "page 2: bad cell 0\n",
        2,
    ),
    (
        HOSTILE,
        &[
            INTERIOR,
            (1, 32, &[0, 0, 0, 3]),
            (3, 0, &[0, 0, 0, 0, 0, 0, 0, 243]),
        ],
        Then::Whole,
        "page 3: trunk fault\n",
        2,
    ),
    (
        HOSTILE,
        &[INTERIOR, ONE, AT_800, LONG, CHAIN, (3, 0, &[0])],
        Then::Whole,
        "page 3: chain short\n",
        2,
    ),
    (
        HOSTILE,
        &[INTERIOR, ONE, AT_800, SHORT, CHAIN, (3, 0, &[0, 0, 0, 4])],
        Then::Whole,
        "page 3: chain long\n",
        2,
    ),
    (
        HOSTILE,
        &[INTERIOR, ONE, AT_800, SHORT, (2, 900, &[0, 0, 0, 9])],
        Then::Whole,
        "page 2: child out of range\n",
        2,
    ),
    (
        HOSTILE,
        &[
            INTERIOR,
            (2, 3, &[0, 2]),
            (2, 8, &[3, 132, 3, 142]),
            (2, 900, &[7, 2, 6, 0, 0, 0, 1, 0, 0]),
            (2, 910, &[7, 2, 6, 0, 0, 0, 1, 0, 0]),
        ],
        Then::Whole,
        "page 2: rowid order\n",
        2,
    ),
    (
        HOSTILE,
        &[INTERIOR, ONE, AT_900, (2, 900, &[1, 1, 0])],
        Then::Whole,
        "page 2: record fault\n",
        2,
    ),
    (
        HOSTILE,
        &[INTERIOR, ONE, AT_900, (2, 900, &[2, 1, 2, 0])],
        Then::Whole,
        "schema row 1\n",
        2,
    ),
    (
        HOSTILE,
        &[
            INTERIOR,
            ONE,
            AT_900,
            (2, 900, &[7, 1, 6, 0, 0, 0, 1, 0, 9]),
        ],
        Then::Whole,
        "root fault in row 1\n",
        2,
    ),
    // The rowids -7 and -2^63 have nine bytes each.
    (
        HOSTILE,
        &[
            INTERIOR,
            ONE,
            AT_900,
            (
                2,
                900,
                b"\x07\xff\xff\xff\xff\xff\xff\xff\xff\xf9\x06\0\0\0\x01\0\x09",
            ),
        ],
        Then::Whole,
        "root fault in row -7\n",
        2,
    ),
    (
        HOSTILE,
        &[
            INTERIOR,
            ONE,
            AT_900,
            (
                2,
                900,
                b"\x07\xc0\x80\x80\x80\x80\x80\x80\x80\x00\x06\0\0\0\x01\0\x09",
            ),
        ],
        Then::Whole,
        "root fault in row -9223372036854775808\n",
        2,
    ),
];

const EXPORT: [&str; 2] = ["export", "4"];

const EMPTY: &str =
    "database cookie 1 format 4 cache 0 encoding 1 user-version 0 application-id 0 sqlite 3045000\nend\n";

// A table of two rows: its row of the schema on page 1, its own rows on page 2.
pub const TABLE: [Change; 8] = [
    (1, 103, &[0, 1]),
    (1, 108, &[3, 132]),
    (1, 900, &[33, 1, 6, 23, 15, 15, 1, 51]),
    (1, 908, b"tablett\x02CREATE TABLE t(a,b)"),
    (2, 3, &[0, 2]),
    (2, 8, &[3, 132, 3, 142]),
    (2, 900, &[4, 1, 3, 0, 1, 7]),
    (2, 910, &[5, 2, 3, 15, 14, b'x', 0]),
];

pub const TABLE_TEXT: &str =
    "database cookie 1 format 4 cache 0 encoding 1 user-version 0 application-id 0 sqlite 3045000\n\
    schema 1 'table' 't' 't' table 'CREATE TABLE t(a,b)'\n\
    row 1 null 7\n\
    row 2 'x' x'00'\n\
    end\n";

// Page 4 is not in use. The tag of page 2, which is in use, begins at byte 8,128.
const EXPORTS: [Row; 7] = [
    (EXPORT, &[], Then::Whole, EMPTY, 0),
    (EXPORT, &[(4, 0, &[7])], Then::Whole, EMPTY, 0),
    (
        EXPORT,
        &[INTERIOR, (2, 0, &[7])],
        Then::Whole,
        "page 2: bad kind\n",
        2,
    ),
    (EXPORT, &[], Then::Turned(16_320), EMPTY, 0),
    (EXPORT, &TABLE, Then::Whole, TABLE_TEXT, 0),
    (["export", "3"], &TABLE, Then::Whole, TABLE_TEXT, 0),
    (
        EXPORT,
        &TABLE,
        Then::Turned(8_128),
        "page 2: tag refused\n",
        2,
    ),
];

// The last bytes of a page of version 3 are padding, which no tag covers.
const TAGS: [Row; 2] = [
    (
        ["tags", "3"],
        &[],
        Then::Turned(2_036),
        "tags hold: 4 pages\n",
        0,
    ),
    (
        ["tags", "3"],
        &[],
        Then::Sized(1_023),
        "file is short: 1023 bytes\n",
        2,
    ),
];

// Pages 1 to 21 are interior pages, the right child of each being the next one.
const DEEP: [Change; 21] = [
    (1, 100, &[5, 0, 0, 0, 0, 0, 0, 0, 0, 0, 0, 2]),
    (2, 0, &[5, 0, 0, 0, 0, 0, 0, 0, 0, 0, 0, 3]),
    (3, 0, &[5, 0, 0, 0, 0, 0, 0, 0, 0, 0, 0, 4]),
    (4, 0, &[5, 0, 0, 0, 0, 0, 0, 0, 0, 0, 0, 5]),
    (5, 0, &[5, 0, 0, 0, 0, 0, 0, 0, 0, 0, 0, 6]),
    (6, 0, &[5, 0, 0, 0, 0, 0, 0, 0, 0, 0, 0, 7]),
    (7, 0, &[5, 0, 0, 0, 0, 0, 0, 0, 0, 0, 0, 8]),
    (8, 0, &[5, 0, 0, 0, 0, 0, 0, 0, 0, 0, 0, 9]),
    (9, 0, &[5, 0, 0, 0, 0, 0, 0, 0, 0, 0, 0, 10]),
    (10, 0, &[5, 0, 0, 0, 0, 0, 0, 0, 0, 0, 0, 11]),
    (11, 0, &[5, 0, 0, 0, 0, 0, 0, 0, 0, 0, 0, 12]),
    (12, 0, &[5, 0, 0, 0, 0, 0, 0, 0, 0, 0, 0, 13]),
    (13, 0, &[5, 0, 0, 0, 0, 0, 0, 0, 0, 0, 0, 14]),
    (14, 0, &[5, 0, 0, 0, 0, 0, 0, 0, 0, 0, 0, 15]),
    (15, 0, &[5, 0, 0, 0, 0, 0, 0, 0, 0, 0, 0, 16]),
    (16, 0, &[5, 0, 0, 0, 0, 0, 0, 0, 0, 0, 0, 17]),
    (17, 0, &[5, 0, 0, 0, 0, 0, 0, 0, 0, 0, 0, 18]),
    (18, 0, &[5, 0, 0, 0, 0, 0, 0, 0, 0, 0, 0, 19]),
    (19, 0, &[5, 0, 0, 0, 0, 0, 0, 0, 0, 0, 0, 20]),
    (20, 0, &[5, 0, 0, 0, 0, 0, 0, 0, 0, 0, 0, 21]),
    (21, 0, &[5, 0, 0, 0, 0, 0, 0, 0, 0, 0, 0, 22]),
];

// Each of these rows holds under the first key.
fn all_hold(rt: &impl Abort, alloc: Global, rows: &[Row]) -> Result<(), Fail> {
    for (words, changes, then, text, code) in rows {
        let mut file = sealed(alloc, words[1], KEY, 4, changes)?;
        match then {
            Then::Whole => {}
            Then::Turned(at) => turn(&mut file, *at),
            Then::Sized(len) => file.resize(*len, 0)?,
        }
        let mut disk = disk_with(alloc, file.as_slice())?;
        let step: Step<'_> = (words, &[KEY], Some(*text), *code);
        serve_all(alloc, &mut disk, 0, &[step])?;
    }
    Ok(())
}

#[test]
fn answers_each_row_of_a_sealed_file(rt: HostRuntime) -> Result<(), Fail> {
    let alloc = rt.alloc();
    all_hold(&rt, alloc, &HEADERS)?;
    all_hold(&rt, alloc, &VERIFIES)?;
    all_hold(&rt, alloc, &HOSTILES)?;
    all_hold(&rt, alloc, &EXPORTS)?;
    all_hold(&rt, alloc, &TAGS)
}

#[test]
fn a_path_of_21_pages_is_too_deep(rt: HostRuntime) -> Result<(), Fail> {
    let alloc = rt.alloc();
    let file = sealed(alloc, "3", KEY, 22, &DEEP)?;
    let said = told(alloc, &HOSTILE, KEY, file.as_slice())?;
    assert_eq!(rt; said.as_slice(), b"page 21: too deep\n".as_slice());
    Ok(())
}

// A file of a profile under a key line, the words and the key line of the run, what is printed, and the status.
const OLDER: [(&str, &[u8], &[&str], &[u8], &str, u8); 5] = [
    ("2", KEY, &["probe"], KEY, "profile 3\n", 0),
    ("2", OLD, &["probe"], OLD, "profile 2\n", 0),
    ("1", KEY, &["probe"], KEY, "profile 1\n", 0),
    ("1", KEY, &["probe"], OTHER_KEY, "key refused\n", 3),
    ("1", KEY, &["header", "1"], OTHER_KEY, "key refused\n", 3),
];

#[test]
fn answers_each_row_of_the_older_profiles(rt: HostRuntime) -> Result<(), Fail> {
    let alloc = rt.alloc();
    for (profile, sealed_by, words, key, text, code) in OLDER {
        let file = sealed(alloc, profile, sealed_by, 4, &[])?;
        let mut disk = disk_with(alloc, file.as_slice())?;
        let step: Step<'_> = (words, &[key], Some(text), code);
        serve_all(alloc, &mut disk, 0, &[step])?;
    }
    Ok(())
}
