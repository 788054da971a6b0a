// Databases of a few rows in memory. What is expected is worked out by hand from the file format and the rule of the rows.

ghost use Rattle.std.specs.Prelude.{◌≤◌};
ghost use Rattle.db_format.specs.Pages.{IsUsable};

use crate::tree_pages::page;
use btree_page::{Family, PageView};
use bulk_load::{LoadError, MemOut, OutError};
use db_maker::{Made, fill};
use std::alloc::Global;
use std::test::Fail;

// The database of so many rows, on at most so many pages.
fn database(
    alloc: Global,
    usable: usize,
    limit: u32,
    rows: u32,
) -> Result<(MemOut, Made), LoadError>
    requires usable { IsUsable usable }
    requires some { 1 ≤ limit }
{
    let mut out = match MemOut::new(alloc, usable, limit) {
        Ok(out) => out,
        Err(_) => return Err(LoadError::OutOfMemory),
    };
    let made = fill(alloc, &mut out, rows)?;
    Ok((out, made))
}

// How many cells the leaves of the tables have, and all pages of the indexes, of so many pages at most. Overflow pages read as neither.
fn cells(plain: &[u8], usable: usize, most: u32) -> (u32, u32) {
    let mut rows = 0u32;
    let mut entries = 0u32;
    if usable < 480 || usable > 65_536 {
        return (0, 0);
    }
    for before in 0..most {
        let n = before.saturating_add(1);
        let Some(bytes) = page(plain, usable, n) else {
            break;
        };
        if let Ok(view) = PageView::read(bytes, n) {
            if view.kind().family() == Family::Index {
                entries = entries.saturating_add(view.count());
            } else if !view.kind().is_interior() {
                rows = rows.saturating_add(view.count());
            }
        }
    }
    (rows, entries)
}

#[test]
fn so_many_rows_and_entries_are_put(rt: HostRuntime) -> Result<(), Fail> {
    // the rows, and the sum of their data: 500 * (1 + 2 + .. + 9) for each ten
    let numbers = [(0, 0), (1, 500), (7, 14_000), (70, 157_500)];
    for (rows, bytes) in numbers {
        let (out, made) = database(rt.alloc(), 976, 400, rows).ok().ok_or("made")?;
        assert_eq!(rt; made.rows, rows);
        assert_eq!(rt; made.bytes, bytes);
        let plain = out.plain();
        // besides the four rows of the schema
        assert_eq!(rt;
            cells(plain, 976, 400),
            (rows.saturating_add(4), rows.saturating_mul(2))
        );
    }
    Ok(())
}

// Pages of a database of one row: the page, where, and the bytes there. The first cell of `items` has 523 bytes, rowid 1, then a record:
// NULL, a text of 15 bytes, 500 bytes and a number of two. The last row of the schema stands lowest: its view has root 0.
const ONE_ROW: [(u32, usize, &[u8]); 6] = [
    (2, 3_490, b"\x84\x0b\x01\x06\x00\x2b\x87\x74\x02ite"),
    (2, 3_509, b"00001\x01\x02\x03"),
    (2, 4_010, b"\xf1\xf2\xf3\xf4\x01\xf4"),
    (3, 3_996, b"\x13\x03\x2b\x01item-0000000001\x01"),
    (4, 4_000, b"\x0f\x03\x23\x01c0000000001\x01"),
    (1, 100, b"\x0d\x00\x00\x00\x04"),
];

#[test]
fn the_first_row_stands_at_the_end_of_its_pages(rt: HostRuntime) -> Result<(), Fail> {
    let (out, _made) = database(rt.alloc(), 4_016, 10, 1).ok().ok_or("made")?;
    for (n, at, bytes) in ONE_ROW {
        let found = page(out.plain(), 4_016, n).ok_or("page")?;
        let end = at.saturating_add(bytes.len());
        assert_eq!(rt; found.get(at..end), Some(bytes), "{n} {at}");
    }
    Ok(())
}

#[test]
fn a_limit_of_pages_is_met(rt: HostRuntime) {
    let full = LoadError::Out(OutError::TooManyPages { limit: 3 });
    assert_eq!(rt; database(rt.alloc(), 480, 3, 1).err(), Some(full));
}
