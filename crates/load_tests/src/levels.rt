// Trees of one, two and three levels, at each size of page.
use crate::loading::load;
use crate::reading::{levels, read_back};
use btree_page::Family;
use bulk_load::{LoadError, MemOut, OutError};
use db_format::MemPages;
use std::alloc::Global;
use std::test::Fail;

/// A tree to be loaded: the usable size of its pages, its family, how many entries of how many bytes, how many levels they make by
/// hand, and whether its root goes to page 1. A leaf of a table holds one row of most of a page, and a page above it a child for each 7
/// or 8 bytes; a page of an index holds four or five entries of a quarter of it. Three levels of a table at 65,536 bytes want 500 MB of
/// leaves, and are left out.
#[derive(Clone, Copy)]
pub struct Tree {
    pub usable: usize,
    pub family: Family,
    pub entries: u32,
    pub bytes: usize,
    pub levels: u32,
    pub at_one: bool,
}

/// A table.
pub fn table(usable: usize, entries: u32, bytes: usize, levels: u32) -> Tree {
    Tree {
        usable,
        family: Family::Table,
        entries,
        bytes,
        levels,
        at_one: false,
    }
}

/// An index.
pub fn index(usable: usize, entries: u32, bytes: usize, levels: u32) -> Tree {
    Tree {
        usable,
        family: Family::Index,
        entries,
        bytes,
        levels,
        at_one: false,
    }
}

fn trees() -> [Tree; 29] {
    [
        table(480, 1, 400, 1),
        table(480, 10, 400, 2),
        table(480, 100, 400, 3),
        index(480, 4, 90, 1),
        index(480, 12, 90, 2),
        index(480, 60, 90, 3),
        table(976, 1, 900, 1),
        table(976, 10, 900, 2),
        table(976, 200, 900, 3),
        index(976, 4, 210, 1),
        index(976, 12, 210, 2),
        index(976, 60, 210, 3),
        table(1008, 1, 900, 1),
        table(1008, 10, 900, 2),
        table(1008, 200, 900, 3),
        index(1008, 4, 210, 1),
        index(1008, 12, 210, 2),
        index(1008, 60, 210, 3),
        table(4016, 1, 3900, 1),
        table(4016, 10, 3900, 2),
        table(4016, 700, 3900, 3),
        index(4016, 4, 950, 1),
        index(4016, 12, 950, 2),
        index(4016, 60, 950, 3),
        table(65536, 1, 60_000, 1),
        table(65536, 10, 60_000, 2),
        index(65536, 4, 16_000, 1),
        index(65536, 12, 16_000, 2),
        index(65536, 60, 16_000, 3),
    ]
}

/// Loads such a tree where there may be so many pages: the pages and the root.
pub fn load_tree(alloc: Global, tree: &Tree, limit: u32) -> Result<(MemOut, u32), LoadError> {
    if tree.usable < 480 || tree.usable > 65_536 || tree.bytes > 65_536 || limit == 0 {
        return Err(LoadError::OutOfMemory);
    }
    let Ok(mut payload) = vec![in alloc; 7u8; tree.bytes] else {
        return Err(LoadError::OutOfMemory);
    };
    load(
        alloc,
        tree.usable,
        limit,
        tree.family,
        tree.at_one,
        tree.entries,
        &mut payload,
    )
}

/// How many entries are read back, and from how many levels.
pub fn read_tree(alloc: Global, tree: &Tree, plain: &[u8], root: u32) -> Option<(u32, u32)> {
    if tree.usable < 480
        || tree.usable > 65_536
        || plain.len() % tree.usable != 0
        || plain.len() / tree.usable > 1_000_000
    {
        return None;
    }
    let mut source = MemPages::new(alloc, tree.usable, plain).ok()?;
    let mut payload = vec![in alloc; 7u8; tree.bytes].ok()?;
    let read = read_back(alloc, &mut source, tree.family, root, &mut payload)?;
    Some((read, levels(&mut source, root)))
}

#[test]
fn trees_of_each_size_and_level_are_read_back(rt: HostRuntime) -> Result<(), Fail> {
    let alloc = rt.alloc();
    for tree in trees().iter() {
        let (out, root) = load_tree(alloc, tree, 2_000).ok().ok_or("loaded")?;
        assert_eq!(rt;
            read_tree(alloc, tree, out.plain(), root),
            Some((tree.entries, tree.levels)),
            "{} entries at {}",
            tree.entries,
            tree.usable
        );
    }
    Ok(())
}

#[test]
fn an_entry_moves_up_at_each_place(rt: HostRuntime) -> Result<(), Fail> {
    let alloc = rt.alloc();
    for entries in 0..140 {
        for tree in [index(480, entries, 90, 0), table(480, entries, 100, 0)] {
            let (out, root) = load_tree(alloc, &tree, 200).ok().ok_or("loaded")?;
            let read = read_tree(alloc, &tree, out.plain(), root).ok_or("read")?;
            assert_eq!(rt; read.0, entries);
        }
    }
    Ok(())
}

#[test]
fn a_limit_is_met_at_each_page_of_each_level(rt: HostRuntime) -> Result<(), Fail> {
    let alloc = rt.alloc();
    for tree in [
        table(480, 100, 400, 3),
        index(480, 60, 90, 3),
        index(480, 60, 1_000, 3),
    ] {
        let (out, _) = load_tree(alloc, &tree, 2_000).ok().ok_or("loaded")?;
        let pages = (out.plain().len() / 480).min(2_000) as u32;
        for limit in 1..pages {
            let refused = Some(LoadError::Out(OutError::TooManyPages { limit }));
            assert_eq!(rt; load_tree(alloc, &tree, limit).err(), refused);
        }
        assert!(rt; load_tree(alloc, &tree, pages).is_ok());
    }
    Ok(())
}
