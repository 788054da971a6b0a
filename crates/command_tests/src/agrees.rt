// The rows of `agree` on a sealed file of four pages, whose table has an index.
use crate::rows::TABLE;
use command_runs::pages::{Change, sealed, turn};
use command_runs::served::{KEY, Step, disk_with, made, serve_all, told};
use std::test::Fail;

// The index on the first column of the table: its row of the schema on page 1, and its two entries on page 3.
const INDEX: [Change; 9] = [
    (1, 103, &[0, 2]),
    (1, 110, &[3, 172]),
    (1, 940, &[36, 2, 6, 23, 15, 15, 1, 57]),
    (1, 948, b"indexit\x03CREATE INDEX i ON t(a)"),
    (3, 0, &[10]),
    (3, 3, &[0, 2]),
    (3, 8, &[3, 132, 3, 142]),
    (3, 900, &[3, 3, 0, 9]),
    (3, 910, &[5, 3, 15, 1, b'x', 2]),
];

// What is changed besides, the byte of the sealed file whose lowest bit is turned, what is printed, and the status.
type Row = (&'static [Change], Option<usize>, &'static str, u8);

// The first column of the second row is `x`: its entry has another rowid, or none, or is gone.
const OF_ROW_7: Change = (3, 910, &[5, 3, 15, 1, b'x', 7]);

const OF_ROW_1: Change = (3, 910, &[4, 3, 15, 9, b'x']);

const OF_NO_ROW: Change = (3, 910, &[4, 3, 15, 0, b'x']);

const GONE: Change = (3, 3, &[0, 1]);

// The table has no rowids.
const NO_ROWIDS: Change = (2, 0, &[10]);

const FIRST_ROW: Change = (2, 900, &[3, 3, 0, 9]);

const SECOND_ROW: Change = (2, 910, &[5, 3, 15, 1, b'x', 2]);

// Its text has a condition behind it.
const LONGER: Change = (1, 940, &[44, 2, 6, 23, 15, 15, 1, 73]);

const PARTIAL: Change = (1, 948, b"indexit\x03CREATE INDEX i ON t(a) WHERE a");

// Its third column names a table that is not there.
const OF_U: Change = (1, 954, b"u");

// The tag of page 3, which is in use, begins at byte 12,224.
const ROWS: [Row; 10] = [
    (&[], None, "ok: 1 indexes, 2 entries, 0 not checked\n", 0),
    (
        &[GONE],
        None,
        "index 'i': 1 rows missing, least rowid 2\nindexes differ: 1 of 1\n",
        2,
    ),
    (
        &[OF_ROW_7],
        None,
        "index 'i': 1 rows missing, least rowid 2\nindex 'i': 1 entries of no row, least rowid 7\n\
        indexes differ: 1 of 1\n",
        2,
    ),
    (
        &[OF_ROW_1],
        None,
        "index 'i': 1 rows missing, least rowid 2\nindex 'i': 1 entries beyond one a row\n\
        indexes differ: 1 of 1\n",
        2,
    ),
    (
        &[OF_NO_ROW],
        None,
        "index 'i': 1 rows missing, least rowid 2\nindex 'i': 1 entries without a rowid\n\
        indexes differ: 1 of 1\n",
        2,
    ),
    (
        &[OF_ROW_7, LONGER, PARTIAL],
        None,
        "index 'i': not checked: partial or not read\nok: 0 indexes, 0 entries, 1 not checked\n",
        0,
    ),
    (
        &[OF_U],
        None,
        "index 'i': not checked: no table\nok: 0 indexes, 0 entries, 1 not checked\n",
        0,
    ),
    (
        &[NO_ROWIDS, FIRST_ROW, SECOND_ROW],
        None,
        "index 'i': not checked: table without rowids\nok: 0 indexes, 0 entries, 1 not checked\n",
        0,
    ),
    (&[(3, 0, &[7])], None, "page 3: bad kind\n", 2),
    (&[], Some(12_224), "page 3: tag refused\n", 2),
];

#[test]
fn answers_each_row_of_an_index(rt: HostRuntime) -> Result<(), Fail> {
    let alloc = rt.alloc();
    for (changes, turned, text, code) in &ROWS {
        let mut all = Vec::new(alloc);
        all.extend_from_slice(&TABLE)?;
        all.extend_from_slice(&INDEX)?;
        all.extend_from_slice(changes)?;
        let mut file = sealed(alloc, "4", KEY, 4, all.as_slice())?;
        if let Some(at) = turned {
            turn(&mut file, *at);
        }
        let mut disk = disk_with(alloc, file.as_slice())?;
        let step: Step<'_> = (&["agree", "4"], &[KEY], Some(*text), *code);
        serve_all(alloc, &mut disk, 0, &[step])?;
    }
    Ok(())
}

// Without an index none is compared, and the index of a database that was made agrees with its table.
#[test]
fn agrees_without_an_index_and_on_a_made_file(rt: HostRuntime) -> Result<(), Fail> {
    let alloc = rt.alloc();
    let none = b"ok: 0 indexes, 0 entries, 0 not checked\n".as_slice();
    let file = sealed(alloc, "4", KEY, 4, &TABLE)?;
    let said = told(alloc, &["agree", "4"], KEY, file.as_slice())?;
    assert_eq!(rt; said.as_slice(), none);
    let file = made(alloc, "4", "700")?;
    let said = told(alloc, &["agree", "4"], KEY, file.as_slice())?;
    let all = b"ok: 1 indexes, 700 entries, 0 not checked\n".as_slice();
    assert_eq!(rt; said.as_slice(), all);
    Ok(())
}
