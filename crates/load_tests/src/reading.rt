// A loaded tree, walked by a cursor.
ghost use Rattle.std.specs.Prelude.{◌≡◌, ◌≤◌, ◌+◌, length, IfSome};
ghost use Rattle.db_format.specs.Source.{no_pins};
ghost use Rattle.btree_walk.specs.Cursor.{IsCursorReady};

use crate::loading::{number, rowid};
use btree_page::{Cell, Family, PageView};
use btree_walk::Cursor;
use db_format::{PageSource, Seen};
use std::alloc::Global;

/// How many entries the tree with this root has, where each is the one that is loaded at its place. `None` where one differs, or the
/// walk stops before its end.
pub fn read_back<S: PageSource>(
    alloc: Global,
    source: &mut S,
    family: Family,
    root: u32,
    payload: &mut [u8],
) -> Option<u32>
where
    S::Refusal: Drop,
    requires { S.pins source.old ≡ no_pins }
{
    let pages = source.pages();
    if root == 0 || pages < root {
        return None;
    }
    let Ok(mut seen) = Seen::new(alloc, pages) else {
        return None;
    };
    let Ok(mut cursor) = Cursor::of_family(alloc, root, family) else {
        return None;
    };
    walk(&mut cursor, source, &mut seen, family, payload)
}

fn walk<S: PageSource>(
    cursor: &mut Cursor,
    source: &mut S,
    seen: &mut Seen,
    family: Family,
    payload: &mut [u8],
) -> Option<u32>
where
    S::Refusal: Drop,
    requires { IsCursorReady (S.plain source.old).count (S.pins source.old) seen.old cursor.old }
{
    for before in 0..u32::MAX {
        match cursor.advance(source, seen) {
            Ok(true) => {
                number(payload, before.saturating_add(1));
                let entry = cursor.entry();
                if entry.rowid != rowid(family, before) || entry.payload != &*payload {
                    return None;
                }
            }
            Ok(false) => return Some(before),
            Err(_) => return None,
        }
    }
    None
}

/// How many levels the tree with this root has, by the first child of each page.
pub fn levels<S: PageSource>(source: &mut S, root: u32) -> u32
where
    S::Refusal: Drop,
{
    let mut page = root;
    for below in 0..20 {
        match first_child(source, page) {
            None => return below + 1,
            Some(child) => page = child,
        }
    }
    0
}

// The first child of a page, none of a leaf.
fn first_child<S: PageSource>(source: &mut S, n: u32) -> Option<u32>
where
    S::Refusal: Drop,
{
    let Ok(()) = source.load(n) else {
        return None;
    };
    let Ok(view) = PageView::read(source.loaded(), n) else {
        return None;
    };
    if view.count() == 0 {
        return None;
    }
    match view.cell(0) {
        Cell::TableInterior { left, .. } | Cell::IndexInterior { left, .. } => Some(left),
        Cell::TableLeaf { .. } | Cell::IndexLeaf { .. } => None,
    }
}
