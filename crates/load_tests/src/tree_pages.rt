// Trees that are loaded into memory, and where their pages stand, worked by hand.
ghost use Rattle.std.specs.Prelude.{◌≡◌, length, IfSome};

use crate::levels::{index, load_tree, table};
use btree_page::{Cell, Family, Kind, PageView};
use std::test::Fail;

/// Page n of pages of this size in a row.
pub fn page(plain: &[u8], usable: usize, n: u32) -> Option<&[u8]>
    ensures { IfSome result (λ bytes. length bytes.now ≡ usable) }
{
    let end = (n as usize).checked_mul(usable)?;
    if n == 0 || end > plain.len() {
        return None;
    }
    let at = end - usable;
    Some(&plain[at..end])
}

// How many rows this leaf of 480 bytes has, if their rowids go on from `next` and each payload has 100 bytes.
fn rows(plain: &[u8], n: u32, next: i64) -> Option<u32> {
    let leaf = PageView::open(page(plain, 480, n)?, n, Family::Table).ok()?;
    for index in 0..leaf.count() {
        let expected = next.checked_add(index as i64)?;
        match leaf.cell(index) {
            Cell::TableLeaf { rowid, length, .. } => {
                if rowid != expected || length != 100 {
                    return None;
                }
            }
            _ => return None,
        }
    }
    Some(leaf.count())
}

// How many rows the leaves below this page have, if they follow one another from rowid 1 on.
fn rows_below(plain: &[u8], n: u32) -> Option<u32> {
    let root = PageView::open(page(plain, 480, n)?, n, Family::Table).ok()?;
    if root.kind() != Kind::TableInterior {
        return None;
    }
    let mut found = 0u32;
    for index in 0..root.count() {
        let Cell::TableInterior { left, key } = root.cell(index) else {
            return None;
        };
        found = found.checked_add(rows(plain, left, found as i64 + 1)?)?;
        if key != found as i64 {
            return None;
        }
    }
    found.checked_add(rows(plain, root.right(), found as i64 + 1)?)
}

// So many rows, of which four fill a leaf, whether the root goes to page 1, the page that it is, and whether it stands above leaves.
const TABLES: [(u32, bool, u32, bool); 4] = [
    (0, false, 2, false),
    // nine full leaves and one of three rows
    (39, false, 12, true),
    (39, true, 1, true),
    // a leaf of four rows has no room for 100 bytes more, so it is the only child of page 1
    (4, true, 1, true),
];

#[test]
fn rows_stand_in_order_below_the_root(rt: HostRuntime) -> Result<(), Fail> {
    for (entries, at_one, root, is_above) in TABLES {
        let mut tree = table(480, entries, 100, 0);
        tree.at_one = at_one;
        let (out, found) = load_tree(rt.alloc(), &tree, 100).ok().ok_or("loaded")?;
        assert_eq!(rt; found, root);
        let plain = out.plain();
        let read = if is_above {
            rows_below(plain, root)
        } else {
            rows(plain, root, 1)
        };
        assert_eq!(rt; read, Some(entries));
    }
    Ok(())
}

#[test]
fn a_long_entry_has_a_chain(rt: HostRuntime) -> Result<(), Fail> {
    // 48 bytes are local, and two pages have 476 each: the last one was put first
    let tree = index(480, 1, 1_000, 1);
    let (out, root) = load_tree(rt.alloc(), &tree, 100).ok().ok_or("loaded")?;
    assert_eq!(rt; root, 4);
    for (n, next) in [(3u32, 2u8), (2, 0)] {
        let bytes = page(out.plain(), 480, n).ok_or("page")?;
        assert_eq!(rt; bytes.get(..5), Some([0, 0, 0, next, 7].as_slice()));
    }
    Ok(())
}
