// Pages made by hand from the tables of section 1.6, and the leaves of a database that SQLite 3.40.1 wrote.

use btree_page::{Cell, Family, Kind, PageFault, PageView, Step, local_len, page_kind, read_step};
use std::process::Abort;
use std::test::Fail;

// Usable size, length of the payload, and its local bytes in a table and in an index.
#[test]
fn long_payloads_go_to_overflow_pages(rt: HostRuntime) {
    for (usable, length, table, index) in [
        (480usize, 446u64, 35usize, 35usize),
        (944, 210, 210, 210),
        (944, 211, 211, 93),
        (944, 909, 909, 93),
        (944, 910, 93, 93),
        (976, 218, 218, 218),
        (976, 219, 219, 97),
        (976, 941, 941, 97),
        (976, 942, 97, 97),
        (976, 1_500, 528, 97),
        (976, 1_914, 97, 97),
        (1_008, 226, 226, 226),
        (1_008, 974, 101, 101),
        (4_016, 981, 981, 981),
        (4_016, 982, 982, 479),
        (4_016, 3_982, 479, 479),
        (4_016, 4_523, 511, 511),
        (8_112, 2_009, 2_009, 2_009),
        (8_112, 2_010, 2_010, 993),
        (8_112, 8_077, 8_077, 993),
        (8_112, 8_078, 993, 993),
        (65_456, 16_402, 16_402, 16_402),
        (65_456, 16_403, 16_403, 8_189),
        (65_456, 65_421, 65_421, 8_189),
        (65_456, 65_422, 8_189, 8_189),
        (65_536, 1 << 30, 8_199, 8_199),
    ] {
        if 480 <= usable && usable <= 65_536 {
            assert_eq!(rt;
                local_len(true, usable, length),
                table,
                "{length} of {usable}"
            );
            assert_eq!(rt;
                local_len(false, usable, length),
                index,
                "{length} of {usable}"
            );
        }
    }
}

// A page of zeros but for these bytes, each piece from its place on.
fn laid(pieces: &[(usize, &[u8])]) -> [u8; 512] {
    let mut page = [0; 512];
    for (at, bytes) in pieces {
        for (place, byte) in page.iter_mut().skip(*at).zip(*bytes) {
            *place = *byte;
        }
    }
    page
}

fn row<'a>(rowid: i64, length: u64, local: &'a [u8], first: u32) -> Cell<'a> {
    Cell::TableLeaf {
        rowid,
        length,
        local,
        first,
    }
}

fn entry<'a>(length: u64, local: &'a [u8], first: u32) -> Cell<'a> {
    Cell::IndexLeaf {
        length,
        local,
        first,
    }
}

// Page n, of this kind, has these cells and no other.
fn has_cells(plain: &[u8; 512], n: u32, kind: Kind, cells: &[Cell<'_>]) -> bool {
    let Ok(page) = PageView::open(plain, n, kind.family()) else {
        return false;
    };
    for index in 0..page.count() {
        if cells.get(index as usize) != Some(&page.cell(index)) {
            return false;
        }
    }
    page.kind() == kind && page.count() as usize == cells.len()
}

// create table people(id integer primary key, name text); create index names on people(name);
// insert into people values (1, 'Ada'), (-3, null), (300, 600 times 'x').
const XS: [u8; 94] = [b'x'; 94];

#[test]
fn the_leaves_of_a_database_read_as_its_rows(rt: HostRuntime) {
    let plain = laid(&[
        (0, b"SQLite format 3\0"),
        (100, b"\x0d\0\0\0\x02\x01\x75\0\x01\xb0\x01\x75"),
        (
            373,
            b"9\x02\x06\x17\x17\x19\x01Qindexnamespeople\x03CREATE INDEX names on people(name)",
        ),
        (
            432,
            b"N\x01\x06\x17\x19\x19\x01ytablepeoplepeople\x02CREATE TABLE people(id integer primary key, name text)",
        ),
    ]);
    let rows = [
        b"\x06\x17\x19\x19\x01ytablepeoplepeople\x02CREATE TABLE people(id integer primary key, name text)".as_slice(),
        b"\x06\x17\x17\x19\x01Qindexnamespeople\x03CREATE INDEX names on people(name)".as_slice(),
    ];
    let cells = [row(1, 78, rows[0], 0), row(2, 57, rows[1], 0)];
    assert!(rt; has_cells(&plain, 1, Kind::TableLeaf, &cells));

    let plain = laid(&[
        (0, b"\x0d\0\0\0\x03\x01\x83\0\x01\xeb\x01\xf8\x01\x83"),
        (387, b"\x84\\\x82,\x04\0\x89="),
        (395, &XS[..92]),
        (
            487,
            b"\0\0\0\x05\x03\xff\xff\xff\xff\xff\xff\xff\xff\xfd\x03\0\0\x06\x01\x03\0\x13Ada",
        ),
    ]);
    let mut long = [b'x'; 96];
    long[..4].copy_from_slice(b"\x04\0\x89=");
    let cells = [
        row(-3, 3, b"\x03\0\0", 0),
        row(1, 6, b"\x03\0\x13Ada", 0),
        row(300, 604, &long, 5),
    ];
    assert!(rt; has_cells(&plain, 2, Kind::TableLeaf, &cells));

    let plain = laid(&[
        (0, b"\x0a\0\0\0\x03\x01\x8c\0\x01\xf4\x01\xf9\x01\x8c"),
        (396, b"\x84^\x04\x89=\x02"),
        (402, &XS),
        (496, b"\0\0\0\x04\x04\x03\0\x01\xfd\x06\x03\x13\x09Ada"),
    ]);
    let mut long = [b'x'; 98];
    long[..4].copy_from_slice(b"\x04\x89=\x02");
    let cells = [
        entry(4, b"\x03\0\x01\xfd", 0),
        entry(6, b"\x03\x13\x09Ada", 0),
        entry(606, &long, 4),
    ];
    assert!(rt; has_cells(&plain, 3, Kind::IndexLeaf, &cells));
}

// Page 2 leads to these, one after the other.
fn leads_to(plain: &[u8; 512], steps: &[Step<'_>]) -> bool {
    for (index, step) in (0u32..).zip(steps) {
        if read_step(plain, 2, index) != Ok(*step) {
            return false;
        }
    }
    true
}

#[test]
fn an_interior_page_leads_to_its_children_in_order(rt: HostRuntime) {
    let plain = laid(&[
        (0, b"\x05\0\0\0\x02\x01\xf5\0\0\0\0\x09\x01\xfb\x01\xf5"),
        (501, b"\0\0\0\x08\x81\0\0\0\0\x07\x05"),
    ]);
    let cells = [
        Cell::TableInterior { left: 7, key: 5 },
        Cell::TableInterior { left: 8, key: 128 },
    ];
    assert!(rt; has_cells(&plain, 2, Kind::TableInterior, &cells));
    let steps = [
        Step::Child(7),
        Step::Key(5),
        Step::Child(8),
        Step::Key(128),
        Step::Child(9),
        Step::End,
    ];
    assert!(rt; leads_to(&plain, &steps));

    let plain = laid(&[
        (0, b"\x02\0\0\0\x01\x01\xf9\0\0\0\0\x03\x01\xf9"),
        (505, b"\0\0\0\x02\x02ab"),
    ]);
    let entry = Step::Entry {
        rowid: None,
        length: 2,
        local: b"ab",
        first: 0,
    };
    assert!(rt; leads_to(&plain, &[Step::Child(2), entry, Step::Child(3), Step::End]));

    let plain = laid(&[(0, b"\x05\0\0\0\0\0\0\0\0\0\0\x02")]);
    assert!(rt; leads_to(&plain, &[Step::Child(2), Step::End]));
}

// What each page shows, its number, its first bytes, where its cells begin, their bytes, and the least bad index.
#[test]
fn the_least_bad_cell_is_named(rt: HostRuntime) {
    let table: [(&str, u32, &[u8], usize, &[u8], Option<u32>); 14] = [
        (
            "a cell at the end",
            2,
            b"\x0d\0\0\0\x01\0\0\0\x01\xfc",
            508,
            b"\x02\x01ab",
            None,
        ),
        (
            "a payload passes it",
            2,
            b"\x0d\0\0\0\x01\0\0\0\x01\xfc",
            508,
            b"\x03\x01ab",
            Some(0),
        ),
        (
            "a varint passes it",
            2,
            b"\x0d\0\0\0\x01\0\0\0\x01\xff",
            511,
            b"\x81",
            Some(0),
        ),
        (
            "a child passes it",
            2,
            b"\x05\0\0\0\x01\0\0\0\0\0\0\x02\x01\xfd",
            509,
            b"\0",
            Some(0),
        ),
        (
            "an overflow page ends there",
            2,
            b"\x0d\0\0\0\x01\0\0\0\x01\x99",
            409,
            b"\x84\\\x01",
            None,
        ),
        (
            "an overflow page passes it",
            2,
            b"\x0d\0\0\0\x01\0\0\0\x01\x9a",
            410,
            b"\x84\\\x01",
            Some(0),
        ),
        (
            "the offset is the end",
            2,
            b"\x0d\0\0\0\x01\0\0\0\x02\0",
            0,
            b"\x0d",
            Some(0),
        ),
        (
            "the offset is in the array",
            2,
            b"\x0d\0\0\0\x01\0\0\0\0\x09",
            0,
            b"\x0d",
            Some(0),
        ),
        (
            "2^30 bytes",
            2,
            b"\x0d\0\0\0\x01\0\0\0\0\x0a",
            10,
            b"\x84\x80\x80\x80\0",
            None,
        ),
        (
            "one byte more",
            2,
            b"\x0d\0\0\0\x01\0\0\0\0\x0a",
            10,
            b"\x84\x80\x80\x80\x01",
            Some(0),
        ),
        (
            "the second and the third",
            2,
            b"\x0d\0\0\0\x03\0\0\0\x01\xfc",
            508,
            b"\x02\x01ab",
            Some(1),
        ),
        (
            "the array passes the end",
            2,
            b"\x0d\0\0\0\xfd",
            0,
            b"\x0d",
            Some(252),
        ),
        (
            "that of an interior page",
            2,
            b"\x05\0\0\0\xfb",
            0,
            b"\x05",
            Some(250),
        ),
        (
            "that of page 1",
            1,
            b"SQLite format 3\0",
            100,
            b"\x0d\0\0\0\xcb",
            Some(202),
        ),
    ];
    for (shows, n, head, at, cells, bad) in table {
        let want = match bad {
            Some(index) => Some(PageFault::BadCell { index }),
            None => None,
        };
        assert_eq!(rt;
            PageView::read(&laid(&[(0, head), (at, cells)]), n).err(),
            want,
            "{shows}"
        );
    }
}

#[test]
fn the_kind_comes_before_the_cells(rt: HostRuntime) {
    let plain = laid(&[(0, b"\x0d\0\0\0\xfd")]);
    assert_eq!(rt;
        PageView::open(&plain, 2, Family::Index).err(),
        Some(PageFault::BadKind)
    );
    assert_eq!(rt;
        PageView::open(&plain, 2, Family::Table).err(),
        Some(PageFault::BadCell { index: 252 })
    );
    assert_eq!(rt; PageView::read(&plain, 1).err(), Some(PageFault::BadKind));
    assert_eq!(rt;
        [page_kind(&plain, 2), page_kind(&plain, 1)],
        [Some(Kind::TableLeaf), None]
    );
}

// A leaf of this length reads, whose one cell takes its last three bytes.
fn ends_with_a_cell(page: &mut [u8]) -> bool {
    if page.len() < 480 || page.len() > 65_536 {
        return false;
    }
    let offset = page.len() - 3;
    page[0] = 10;
    page[4] = 1;
    page[8] = (offset / 256) as u8;
    page[9] = (offset % 256) as u8;
    page[offset..].copy_from_slice(&[2, 7, 9]);
    let Ok(view) = PageView::read(page, 2) else {
        return false;
    };
    view.count() == 1 && view.cell(0) == entry(2, &[7, 9], 0)
}

#[test]
fn a_page_of_any_size_ends_with_a_cell(rt: HostRuntime) -> Result<(), Fail> {
    let mut page = vec![in rt.alloc(); 0u8; 65_536]?;
    for size in [480usize, 512, 976, 1_008, 4_016, 65_536] {
        if size <= page.len() {
            assert!(rt; ends_with_a_cell(&mut page[..size]), "{size}");
        }
    }
    Ok(())
}
