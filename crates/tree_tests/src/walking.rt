// Walks over pages made by hand from the tables of sections 1.6 and 1.7, and over a file of the real product.
ghost use Rattle.std.specs.Prelude.{◌≡◌, length};
ghost use Rattle.btree_walk.specs.Cursor.{IsCursorReady};

use crate::real_pages::PAGES;
use btree_page::Family;
use btree_walk::{Cursor, Entry, WalkError};
use db_format::{Defect, MemPages, PageSource, Seen, write_varint};
use std::alloc::Global;
use std::test::Fail;

// How a walk comes to its end.
#[derive(Clone, Copy, PartialEq)]
enum End {
    Whole,
    Found(Defect),
    Other,
}

// A payload: pieces, each of which stands so often.
type Pieces<'a> = [(usize, &'a [u8]); 3];

// An entry that is expected.
#[derive(Clone, Copy)]
struct Expected<'a> {
    rowid: Option<i64>,
    payload: Pieces<'a>,
    page: u32,
}

fn in_table<'a>(rowid: i64, payload: Pieces<'a>, page: u32) -> Expected<'a> {
    Expected {
        rowid: Some(rowid),
        payload,
        page,
    }
}

fn in_index<'a>(payload: Pieces<'a>, page: u32) -> Expected<'a> {
    Expected {
        rowid: None,
        payload,
        page,
    }
}

fn built(alloc: Global, runs: &[(usize, &[u8])]) -> Result<Vec<u8>, Fail> {
    let mut bytes = Vec::new(alloc);
    for (times, piece) in runs {
        for _ in 0..*times {
            bytes.extend_from_slice(piece)?;
        }
    }
    Ok(bytes)
}

// Whether the cursor gives these entries next.
fn gives<S: PageSource>(
    alloc: Global,
    cursor: &mut Cursor,
    source: &mut S,
    seen: &mut Seen,
    rows: &[Expected<'_>],
) -> Result<bool, Fail>
where
    S::Refusal: Drop,
    requires { IsCursorReady (S.plain source.old).count (S.pins source.old) seen.old cursor.old }
    ensures { IsCursorReady (S.plain source.new).count (S.pins source.new) seen.new cursor.new }
{
    for row in rows {
        let payload = built(alloc, &row.payload)?;
        let expected = Entry {
            rowid: row.rowid,
            payload: payload.as_slice(),
            page: row.page,
        };
        match cursor.advance(source, seen) {
            Ok(true) => {
                if cursor.entry() != expected {
                    return Ok(false);
                }
            }
            _ => return Ok(false),
        }
    }
    Ok(true)
}

// How the walk ends, where no entry is left.
fn end_of<S: PageSource>(cursor: &mut Cursor, source: &mut S, seen: &mut Seen) -> Option<End>
where
    S::Refusal: Drop,
    requires { IsCursorReady (S.plain source.old).count (S.pins source.old) seen.old cursor.old }
    ensures { IsCursorReady (S.plain source.new).count (S.pins source.new) seen.new cursor.new }
{
    match cursor.advance(source, seen) {
        Ok(true) => None,
        Ok(false) => Some(End::Whole),
        Err(WalkError::Defect(defect)) => Some(End::Found(defect)),
        Err(_) => Some(End::Other),
    }
}

// Whether the cursor gives these entries and then ends so, each time that it is asked.
fn gives_all<S: PageSource>(
    alloc: Global,
    cursor: &mut Cursor,
    source: &mut S,
    seen: &mut Seen,
    rows: &[Expected<'_>],
    end: End,
) -> Result<bool, Fail>
where
    S::Refusal: Drop,
    requires { IsCursorReady (S.plain source.old).count (S.pins source.old) seen.old cursor.old }
{
    if !gives(alloc, cursor, source, seen, rows)? {
        return Ok(false);
    }
    Ok(end_of(cursor, source, seen) == Some(end) && end_of(cursor, source, seen) == Some(end))
}

// Whether the tree of these pages with this root, where page `met` was met before (0 for none), gives these entries and then ends so,
// each time that it is asked.
fn walks(
    alloc: Global,
    usable: usize,
    bytes: &[u8],
    tree: (u32, Option<Family>, u32),
    rows: &[Expected<'_>],
    end: End,
) -> Result<bool, Fail> {
    let (root, family, met) = tree;
    if usable < 480 || 65_536 < usable || bytes.len() % usable != 0 || 1 << 20 <= bytes.len() {
        return Ok(false);
    }
    let Ok(mut source) = MemPages::new(alloc, usable, bytes) else {
        return Ok(false);
    };
    let pages = source.pages();
    let Ok(mut seen) = Seen::new(alloc, pages) else {
        return Ok(false);
    };
    if root == 0 || pages < root || pages < met {
        return Ok(false);
    }
    seen.mark(met);
    match family {
        Some(family) => {
            let Ok(mut cursor) = Cursor::of_family(alloc, root, family) else {
                return Ok(false);
            };
            gives_all(alloc, &mut cursor, &mut source, &mut seen, rows, end)
        }
        None => {
            let Ok(mut cursor) = Cursor::new(alloc, root) else {
                return Ok(false);
            };
            gives_all(alloc, &mut cursor, &mut source, &mut seen, rows, end)
        }
    }
}

// A row of the real table whose second value is a letter 200 times, and its entry in the index.
fn letters(rowid: i64, letter: &[u8], page: u32) -> Expected<'_> {
    in_table(
        rowid,
        [(1, b"\x05\0\x83\x1d\0"), (200, letter), (0, b"")],
        page,
    )
}

fn indexed<'a>(letter: &'a [u8], rowid: &'a [u8], page: u32) -> Expected<'a> {
    in_index([(1, b"\x04\x83\x1d\x01"), (200, letter), (1, rowid)], page)
}

#[test]
fn a_table_of_the_real_product_is_walked(rt: HostRuntime) -> Result<(), Fail> {
    let bytes = built(rt.alloc(), PAGES)?;
    let rows = [
        letters(5, b"m", 6),
        letters(10, b"c", 6),
        letters(15, b"x", 6),
        letters(20, b"a", 6),
        letters(25, b"h", 7),
        letters(30, b"q", 7),
        in_table(
            35,
            [(1, b"\x06\0\x83\x1d\x945"), (200, b"d"), (1_300, b"w")],
            7,
        ),
        letters(40, b"z", 9),
        letters(45, b"k", 9),
        letters(50, b"f", 9),
        letters(55, b"b", 9),
        letters(60, b"t", 11),
    ];
    assert!(rt; walks(rt.alloc(), 976, &bytes, (2, None, 0), &rows, End::Whole)?);
    Ok(())
}

#[test]
fn an_index_of_the_real_product_is_walked(rt: HostRuntime) -> Result<(), Fail> {
    let bytes = built(rt.alloc(), PAGES)?;
    let rows = [
        indexed(b"a", b"\x14", 4),
        indexed(b"b", b"7", 4),
        indexed(b"c", b"\x0a", 4),
        indexed(b"d", b"#", 4),
        indexed(b"f", b"2", 3),
        indexed(b"h", b"\x19", 5),
        indexed(b"k", b"-", 5),
        indexed(b"m", b"\x05", 5),
        indexed(b"q", b"\x1e", 3),
        indexed(b"t", b"<", 10),
        indexed(b"x", b"\x0f", 10),
        indexed(b"z", b"(", 10),
    ];
    assert!(rt; walks(rt.alloc(), 976, &bytes, (3, None, 0), &rows, End::Whole)?);
    Ok(())
}

// Pages of a leaf with one cell: its payload of this length, so much of it local, and the rest in overflow pages from page 3 on.
// The local bytes are l, those of the overflow pages c and d.
fn overflowing(
    alloc: Global,
    usable: usize,
    table: bool,
    length: usize,
    local: usize,
) -> Result<Vec<u8>, Fail> {
    let mut bytes = vec![in alloc; 0u8; usable.min(65_536)]?;
    if usable < 480 || 65_536 < usable || length < local || 65_536 < length {
        return Ok(bytes);
    }
    let mut spelled = [0; 9];
    let taken = write_varint(length as u64, &mut spelled);
    let overflows = local < length;
    let cell = taken + local + (if table { 1 } else { 0 }) + (if overflows { 4 } else { 0 });
    let at = usable.saturating_sub(cell);
    let kind = if table { 13 } else { 10 };
    bytes.extend_from_slice(&[
        kind,
        0,
        0,
        0,
        1,
        0,
        0,
        0,
        (at / 256) as u8,
        (at % 256) as u8,
    ])?;
    bytes.resize(usable + at, 0)?;
    bytes.extend_from_slice(&spelled[..taken])?;
    if table {
        bytes.push(7)?;
    }
    bytes.resize((bytes.len() + local).min(1 << 20), b'l')?;
    if overflows {
        bytes.extend_from_slice(&[0, 0, 0, 3])?;
    }
    let mut rest = length - local;
    for (page, letter) in [(3usize, b'c'), (4, b'd')] {
        let here = rest.min(usable - 4);
        rest -= here;
        if 0 < here {
            let next = if 0 < rest { page as u8 + 1 } else { 0 };
            bytes.extend_from_slice(&[0, 0, 0, next])?;
            bytes.resize((bytes.len() + here).min(1 << 20), letter)?;
            bytes.resize(page.wrapping_mul(usable).min(1 << 20), 0)?;
        }
    }
    Ok(bytes)
}

// Usable size, whether it is a table, the length of the payload, and how much of it is local.
#[test]
fn payloads_are_read_whole(rt: HostRuntime) -> Result<(), Fail> {
    for (usable, table, length, local) in [
        (480usize, true, 445usize, 445usize),
        (480, true, 446, 35),
        (976, true, 941, 941),
        (976, true, 942, 97),
        (976, true, 1_500, 528),
        (976, true, 1_914, 97),
        (976, false, 218, 218),
        (976, false, 219, 97),
        (1_008, true, 973, 973),
        (1_008, true, 974, 101),
        (4_016, true, 3_982, 479),
        (4_016, true, 4_523, 511),
        (4_016, false, 982, 479),
        (65_536, true, 65_502, 8_199),
    ] {
        let bytes = overflowing(rt.alloc(), usable, table, length, local)?;
        let first = length.saturating_sub(local).min(usable.saturating_sub(4));
        let second = length.saturating_sub(local).saturating_sub(first);
        let pieces: Pieces<'_> = [(local, b"l"), (first, b"c"), (second, b"d")];
        let expected = if table {
            in_table(7, pieces, 2)
        } else {
            in_index(pieces, 2)
        };
        assert!(rt;
            walks(
                rt.alloc(),
                usable,
                &bytes,
                (2, None, 0),
                &[expected],
                End::Whole
            )?,
            "{length} of {usable}"
        );
    }
    Ok(())
}

// Pages of 512 bytes. The first page is no part of the trees.
const NO_PAGE: (usize, &[u8]) = (512, b"\0");

// An interior page of a table without cells: its right child is page 3.
const NO_CELLS: &[(usize, &[u8])] = &[
    NO_PAGE,
    (1, b"\x05\0\0\0\0\0\0\0\0\0\0\x03"),
    (500, b"\0"),
    // page 3: rowid 5, payload ab
    (1, b"\x0d\0\0\0\x01\0\0\0\x01\xfc"),
    (498, b"\0"),
    (1, b"\x02\x05ab"),
];

// An index of two leaves, c in page 3 and x in page 4, and m between them in page 2.
const TWO_LEAVES: &[(usize, &[u8])] = &[
    NO_PAGE,
    (1, b"\x02\0\0\0\x01\0\0\0\0\0\0\x04\x01\xfa"),
    (492, b"\0"),
    (1, b"\0\0\0\x03\x01m"),
    (1, b"\x0a\0\0\0\x01\0\0\0\x01\xfe"),
    (500, b"\0"),
    (1, b"\x01c"),
    (1, b"\x0a\0\0\0\x01\0\0\0\x01\xfe"),
    (500, b"\0"),
    (1, b"\x01x"),
];

// A table: page 2 has the key 5 between page 3, with rowid 5, and page 4, with rowid 6.
const WITH_KEY: &[(usize, &[u8])] = &[
    NO_PAGE,
    (1, b"\x05\0\0\0\x01\0\0\0\0\0\0\x04\x01\xfb"),
    (493, b"\0"),
    (1, b"\0\0\0\x03\x05"),
    (1, b"\x0d\0\0\0\x01\0\0\0\x01\xfc"),
    (498, b"\0"),
    (1, b"\x02\x05ab"),
    (1, b"\x0d\0\0\0\x01\0\0\0\x01\xfc"),
    (498, b"\0"),
    (1, b"\x02\x06cd"),
];

// A row of 1,000 bytes, 39 of them in page 2, the others in pages 3 and 4.
const LONG_ROW: &[(usize, &[u8])] = &[
    NO_PAGE,
    (1, b"\x0d\0\0\0\x01\0\0\0\x01\xd2"),
    (456, b"\0"),
    (1, b"\x87\x68\x05"),
    (39, b"l"),
    (1, b"\0\0\0\x03"),
    (1, b"\0\0\0\x04"),
    (508, b"c"),
    (1, b"\0\0\0\0"),
    (453, b"d"),
    (55, b"\0"),
];

fn pair<'a>(rowid: i64, text: &'a [u8], page: u32) -> Expected<'a> {
    in_table(rowid, [(1, text), (0, b""), (0, b"")], page)
}

// A change of one byte: its place, counted from the first page's start, and its value.
type Change = (usize, u8);

// Whether the tree of these pages, one byte of which is changed, gives these entries and then ends so.
fn ends(
    alloc: Global,
    runs: &[(usize, &[u8])],
    change: Change,
    tree: (u32, Option<Family>, u32),
    rows: &[Expected<'_>],
    end: End,
) -> Result<bool, Fail> {
    let mut bytes = built(alloc, runs)?;
    if let Some(byte) = bytes.get_mut(change.0) {
        *byte = change.1;
    }
    walks(alloc, 512, &bytes, tree, rows, end)
}

#[test]
fn children_and_entries_come_in_order(rt: HostRuntime) -> Result<(), Fail> {
    let tree = (2, None, 0);
    let one = [pair(5, b"ab", 3)];
    assert!(rt; ends(rt.alloc(), NO_CELLS, (0, 0), tree, &one, End::Whole)?);
    let two = [pair(5, b"ab", 3), pair(6, b"cd", 4)];
    assert!(rt; ends(rt.alloc(), WITH_KEY, (0, 0), tree, &two, End::Whole)?);
    let three = [
        in_index([(1, b"c"), (0, b""), (0, b"")], 3),
        in_index([(1, b"m"), (0, b""), (0, b"")], 2),
        in_index([(1, b"x"), (0, b""), (0, b"")], 4),
    ];
    assert!(rt; ends(rt.alloc(), TWO_LEAVES, (0, 0), tree, &three, End::Whole)?);
    Ok(())
}

#[test]
fn each_defect_is_found(rt: HostRuntime) -> Result<(), Fail> {
    let tree = (2, None, 0);
    // the pages, the changed byte, the tree, and the defect
    for (runs, change, tree, defect) in [
        (NO_CELLS, (512usize, 0u8), tree, Defect::BadKind { page: 2 }),
        (NO_CELLS, (1_024, 10), tree, Defect::BadKind { page: 3 }),
        (
            NO_CELLS,
            (0, 0),
            (2, Some(Family::Index), 0),
            Defect::BadKind { page: 2 },
        ),
        (
            NO_CELLS,
            (1_033, 255),
            tree,
            Defect::BadCell { page: 3, index: 0 },
        ),
        (
            NO_CELLS,
            (523, 4),
            tree,
            Defect::ChildOutOfRange { page: 2 },
        ),
        (
            NO_CELLS,
            (523, 1),
            tree,
            Defect::ChildOutOfRange { page: 2 },
        ),
        (NO_CELLS, (523, 2), tree, Defect::PageTwice { page: 2 }),
        (
            NO_CELLS,
            (0, 0),
            (2, None, 3),
            Defect::PageTwice { page: 3 },
        ),
        (
            NO_CELLS,
            (0, 0),
            (2, None, 2),
            Defect::PageTwice { page: 2 },
        ),
        (
            LONG_ROW,
            (1_023, 0),
            tree,
            Defect::ChildOutOfRange { page: 2 },
        ),
        (LONG_ROW, (1_027, 0), tree, Defect::ChainShort { page: 3 }),
        (
            LONG_ROW,
            (1_027, 9),
            tree,
            Defect::ChildOutOfRange { page: 3 },
        ),
        (LONG_ROW, (1_027, 3), tree, Defect::PageTwice { page: 3 }),
        (LONG_ROW, (1_539, 3), tree, Defect::ChainLong { page: 4 }),
    ] {
        assert!(rt;
            ends(rt.alloc(), runs, change, tree, &[], End::Found(defect))?,
            "{defect:?}"
        );
    }
    Ok(())
}

// Page 3 has the rowid 5, which is above the key 4; and page 4 has the rowid 5, which is not above the key 5.
#[test]
fn rowids_keep_their_order(rt: HostRuntime) -> Result<(), Fail> {
    let tree = (2, None, 0);
    let first = [pair(5, b"ab", 3)];
    let late = End::Found(Defect::RowidOrder { page: 3 });
    assert!(rt; ends(rt.alloc(), WITH_KEY, (1_023, 4), tree, &first, late)?);
    let low = End::Found(Defect::RowidOrder { page: 4 });
    assert!(rt; ends(rt.alloc(), WITH_KEY, (2_045, 5), tree, &first, low)?);
    Ok(())
}

// Each page from page 2 on is the only child of the one before it.
#[test]
fn a_path_has_at_most_twenty_pages(rt: HostRuntime) -> Result<(), Fail> {
    let mut bytes = built(rt.alloc(), &[NO_PAGE])?;
    for child in 3..24u8 {
        bytes.extend_from_slice(&[5, 0, 0, 0, 0, 0, 0, 0, 0, 0, 0, child])?;
        bytes.extend_from_slice(&[0; 500])?;
    }
    let deep = End::Found(Defect::TooDeep { page: 22 });
    assert!(rt; walks(rt.alloc(), 512, &bytes, (2, None, 0), &[], deep)?);
    let last = End::Found(Defect::ChildOutOfRange { page: 22 });
    assert!(rt; walks(rt.alloc(), 512, &bytes, (3, None, 0), &[], last)?);
    Ok(())
}

#[test]
fn next_lends_the_entry(rt: HostRuntime) -> Result<(), Fail> {
    let bytes = built(rt.alloc(), NO_CELLS)?;
    if bytes.len() != 1_536 {
        return Err(Fail::new("not had"));
    }
    let Ok(mut source) = MemPages::new(rt.alloc(), 512, bytes.as_slice()) else {
        return Err(Fail::new("not had"));
    };
    let pages = source.pages();
    if pages < 2 {
        return Err(Fail::new("not had"));
    }
    let Ok(mut seen) = Seen::new(rt.alloc(), pages) else {
        return Err(Fail::new("not had"));
    };
    let Ok(mut cursor) = Cursor::new(rt.alloc(), 2) else {
        return Err(Fail::new("not had"));
    };
    let expected = Entry {
        rowid: Some(5),
        payload: b"ab",
        page: 3,
    };
    match cursor.next(&mut source, &mut seen) {
        Ok(found) => assert_eq!(rt; found, Some(expected)),
        Err(_) => assert!(rt; false),
    }
    Ok(())
}
