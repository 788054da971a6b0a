// Databases made by hand from the tables of sections 1.3, 1.5 and 1.6 and of section 2.1: four pages of 512 bytes, zeros but for
// the bytes that are given. Page 1 is a leaf of the schema's table where nothing else stands there.
ghost use Rattle.std.specs.Prelude.{◌≡◌};
ghost use Rattle.db_format.specs.Source.{no_pins};

use btree_walk::WalkError;
use db_format::{Defect, Header, MemPages, PageSource, u32_at};
use schema_map::census;
use std::alloc::Global;
use std::process::Abort;
use std::test::Fail;

/// Trees, entries, free pages and unused pages, or what is wrong.
#[derive(Clone, Copy, PartialEq)]
enum Answer {
    Sound(u32, u64, u32, u32),
    Wrong(Defect),
    Refused,
}

// The header of a database with these two fields.
fn header(first_trunk: u32, free_count: u32) -> Header
    ensures first { result.first_trunk ≡ first_trunk }
    ensures kept { result.free_count ≡ free_count }
{
    Header {
        page_size: 512,
        reserve: 0,
        change: 1,
        size_field: 4,
        first_trunk,
        free_count,
        cookie: 0,
        format: 4,
        cache: 0,
        encoding: 1,
        user_version: 0,
        application_id: 0,
        valid_for: 1,
        sqlite_number: 3_045_000,
    }
}

fn count<S: PageSource>(alloc: Global, source: &mut S) -> Result<Answer, Fail>
where
    S::Refusal: Drop,
    requires { S.pins source.old ≡ no_pins }
{
    let Ok(()) = source.load(1) else {
        return Ok(Answer::Refused);
    };
    let page = source.loaded();
    let header = header(u32_at(page, 32), u32_at(page, 36));
    match census(alloc, source, &header) {
        Ok(found) => Ok(Answer::Sound(found.trees, found.entries, found.free, found.unused)),
        Err(WalkError::Defect(defect)) => Ok(Answer::Wrong(defect)),
        Err(_) => Ok(Answer::Refused),
    }
}

// A database with these bytes, each piece with its page and its offset in bytes.
fn check_bytes(alloc: Global, pieces: &[(usize, usize, &[u8])]) -> Result<Answer, Fail> {
    let mut bytes = [0u8; 2048];
    bytes[100] = 13;
    for (page, at, piece) in pieces {
        if 1 <= *page && *page <= 4 && *at <= 512 && piece.len() <= 512 - *at {
            let start = (*page - 1) * 512 + *at;
            bytes[start..start + piece.len()].copy_from_slice(piece);
        }
    }
    let mut source = MemPages::new(alloc, 512, &bytes)?;
    count(alloc, &mut source)
}

// The pieces and the answer of each row.
fn check_rows(
    rt: &impl Abort,
    alloc: Global,
    rows: &[(&[(usize, usize, &[u8])], Answer)],
) -> Result<(), Fail> {
    for (number, (pieces, want)) in rows.iter().enumerate() {
        assert!(rt; check_bytes(alloc, pieces)? == *want, "row {number}");
    }
    Ok(())
}

#[test]
fn the_whole_file_is_accounted_for(rt: HostRuntime) -> Result<(), Fail> {
    check_rows(
        &rt,
        rt.alloc(),
        &[
            (&[], Answer::Sound(1, 0, 0, 3)),
            // a page is its own right child
            (
                &[
                    (1, 100, b"\x05"),
                    (1, 108, b"\0\0\0\x02"),
                    (2, 0, b"\x05"),
                    (2, 8, b"\0\0\0\x02"),
                ],
                Answer::Wrong(Defect::PageTwice { page: 2 }),
            ),
            (
                &[(1, 100, b"\x05"), (1, 108, b"\0\0\0\x09")],
                Answer::Wrong(Defect::ChildOutOfRange { page: 1 }),
            ),
            (
                &[(1, 32, b"\0\0\0\x03\0\0\0\x01")],
                Answer::Sound(1, 0, 1, 2),
            ),
            (
                &[(1, 32, b"\0\0\0\x03\0\0\0\x02")],
                Answer::Wrong(Defect::FreeCount { kept: 2, found: 1 }),
            ),
        ],
    )
}

/// A piece: its page, its offset and its bytes.
type Piece = (usize, usize, &'static [u8]);

// A schema of two rows (NULL, NULL, NULL, a root page, NULL), a table of two rows (1) and an index of one entry (1).
const HEAD: Piece = (1, 100, b"\x0d\0\0\0\x02\0\0\0\x01\xea\x01\xf4");

const FIRST: Piece = (1, 490, b"\x07\x01\x06\0\0\0\x01\0\x02");

const SECOND: Piece = (1, 500, b"\x07\x02\x06\0\0\0\x01\0\x03");

const TABLE: Piece = (2, 0, b"\x0d\0\0\0\x02\0\0\0\x01\xf4\x01\xf8");

const ROWS: Piece = (2, 500, b"\x02\x01\x02\x09\x02\x02\x02\x09");

const INDEX: Piece = (3, 0, b"\x0a\0\0\0\x01\0\0\0\x01\xf4");

const ENTRY: Piece = (3, 500, b"\x02\x02\x09");

// A row without a tree: its root page is 0.
const VIEW: Piece = (1, 500, b"\x07\x02\x06\0\0\0\x01\0\0");

#[test]
fn trees_and_entries_are_counted(rt: HostRuntime) -> Result<(), Fail> {
    check_rows(
        &rt,
        rt.alloc(),
        &[
            (
                &[TABLE, ROWS, INDEX, ENTRY, HEAD, FIRST, SECOND],
                Answer::Sound(3, 5, 0, 1),
            ),
            (&[TABLE, ROWS, HEAD, FIRST, VIEW], Answer::Sound(2, 4, 0, 2)),
            // two rows name one tree
            (
                &[
                    TABLE,
                    ROWS,
                    HEAD,
                    FIRST,
                    (1, 500, b"\x07\x02\x06\0\0\0\x01\0\x02"),
                ],
                Answer::Wrong(Defect::PageTwice { page: 2 }),
            ),
            // a trunk of the freelist is the root of a tree
            (
                &[HEAD, FIRST, VIEW, (1, 32, b"\0\0\0\x02\0\0\0\x01")],
                Answer::Wrong(Defect::PageTwice { page: 2 }),
            ),
            // an entry of the table is no record: its header says that it has three bytes
            (
                &[
                    TABLE,
                    (2, 500, b"\x02\x01\x03\x09\x02\x02\x02\x09"),
                    HEAD,
                    FIRST,
                    VIEW,
                ],
                Answer::Wrong(Defect::RecordFault { page: 2 }),
            ),
        ],
    )
}

// A schema of one row.
const ONE: Piece = (1, 100, b"\x0d\0\0\0\x01\0\0\0\x01\xf4");

#[test]
fn rows_of_the_schema_are_tested(rt: HostRuntime) -> Result<(), Fail> {
    let bad_row = Answer::Wrong(Defect::SchemaRow { rowid: 7 });
    let bad_root = Answer::Wrong(Defect::RootFault { rowid: 7 });
    check_rows(
        &rt,
        rt.alloc(),
        &[
            // four columns; a text where the root page stands
            (&[ONE, (1, 500, b"\x06\x07\x05\0\0\0\x01\x02")], bad_row),
            (&[ONE, (1, 500, b"\x07\x07\x06\0\0\0\x0f\0\x02")], bad_row),
            // no record
            (
                &[ONE, (1, 500, b"\x02\x07\x03\0")],
                Answer::Wrong(Defect::RecordFault { page: 1 }),
            ),
            // root pages 1, 5 and -1 of four pages
            (&[ONE, (1, 500, b"\x07\x07\x06\0\0\0\x01\0\x01")], bad_root),
            (&[ONE, (1, 500, b"\x07\x07\x06\0\0\0\x01\0\x05")], bad_root),
            (&[ONE, (1, 500, b"\x07\x07\x06\0\0\0\x01\0\xff")], bad_root),
            // the schema is a table
            (
                &[(1, 100, b"\x0a")],
                Answer::Wrong(Defect::BadKind { page: 1 }),
            ),
        ],
    )
}
