// Pages and cells made by hand from the tables of section 1.6.

use btree_page::{Cell, Family, Kind, PageFault, PageView};
use page_build::{PageBuilder, write_cell};
use std::alloc::Global;
use std::test::Fail;

fn row<'a>(rowid: i64, length: u64, local: &'a [u8], first: u32) -> Cell<'a> {
    Cell::TableLeaf {
        rowid,
        length,
        local,
        first,
    }
}

// Adds a cell where it fits.
fn put(page: &mut PageBuilder, cell: &[u8]) -> bool {
    if page.fits(cell.len()) {
        page.add(cell);
        return true;
    }
    false
}

// Whether the cell is written so, behind what stands there.
fn is_written(alloc: Global, cell: &Cell<'_>, bytes: &[u8]) -> Result<bool, Fail> {
    let mut out = vec![in alloc; 7u8; 1]?;
    write_cell(cell, &mut out)?;
    Ok(out.as_slice().get(..1) == Some(&[7]) && out.as_slice().get(1..) == Some(bytes))
}

#[test]
fn cells_are_written(rt: HostRuntime) -> Result<(), Fail> {
    let table: [(Cell<'_>, &[u8]); 5] = [
        (
            row(-1, 3, b"abc", 0),
            b"\x03\xff\xff\xff\xff\xff\xff\xff\xff\xffabc",
        ),
        (
            row(300, 1_000, b"ab", 70_000),
            b"\x87\x68\x82\x2cab\x00\x01\x11\x70",
        ),
        (
            Cell::TableInterior { left: 5, key: 128 },
            b"\x00\x00\x00\x05\x81\x00",
        ),
        (
            Cell::IndexInterior {
                left: 16_909_060,
                length: 2,
                local: b"xy",
                first: 0,
            },
            b"\x01\x02\x03\x04\x02xy",
        ),
        (
            Cell::IndexLeaf {
                length: 1,
                local: b"x",
                first: 0,
            },
            b"\x01x",
        ),
    ];
    for (cell, bytes) in table {
        assert!(rt; is_written(rt.alloc(), &cell, bytes)?, "{bytes:?}");
    }
    Ok(())
}

#[test]
fn cells_are_packed_to_the_end(rt: HostRuntime) -> Result<(), Fail> {
    let mut page = PageBuilder::new(rt.alloc(), 512, Kind::TableLeaf, false)?;
    assert_eq!(rt; page.room(), 504);
    assert!(rt; put(&mut page, b"\x03\x01abc"));
    assert!(rt; put(&mut page, b"\x00\x02"));
    assert_eq!(rt; page.room(), 491);
    let plain = page.finish(9);
    assert_eq!(rt; plain.len(), 512);
    assert_eq!(rt;
        &plain[..13],
        b"\x0d\x00\x00\x00\x02\x01\xf7\x00\x01\xfb\x01\xf7\x00".as_slice()
    );
    assert_eq!(rt; &plain[503..], b"\x00\x02\x00\x00\x03\x01abc".as_slice());
    let view = PageView::open(plain, 2, Family::Table)?;
    assert_eq!(rt; view.count(), 2);
    page.clear();
    assert_eq!(rt; page.room(), 504);
    assert!(rt; !put(&mut page, &[0; 503]));
    assert!(rt; put(&mut page, &[0; 502]));
    assert!(rt; !put(&mut page, b""));
    Ok(())
}

#[test]
fn page_1_and_a_right_child(rt: HostRuntime) -> Result<(), Fail> {
    let mut page = PageBuilder::new(rt.alloc(), 65_536, Kind::IndexInterior, true)?;
    assert_eq!(rt; page.kind(), Kind::IndexInterior);
    assert_eq!(rt; page.room(), 65_424);
    let empty = page.finish(66_051);
    assert_eq!(rt;
        &empty[98..114],
        b"\x00\x00\x02\x00\x00\x00\x00\x00\x00\x00\x00\x01\x02\x03\x00\x00".as_slice()
    );
    assert!(rt; put(&mut page, b"\x00\x00\x00\x04\x01x"));
    let plain = page.finish(3);
    assert_eq!(rt; plain.len(), 65_536);
    assert_eq!(rt;
        &plain[100..114],
        b"\x02\x00\x00\x00\x01\xff\xfa\x00\x00\x00\x00\x03\xff\xfa".as_slice()
    );
    let view = PageView::read(plain, 1)?;
    assert_eq!(rt; view.count(), 1);
    assert_eq!(rt; PageView::read(plain, 2).err(), Some(PageFault::BadKind));
    Ok(())
}
