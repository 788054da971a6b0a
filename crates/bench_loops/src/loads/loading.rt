// A tree, loaded into memory.
ghost use Rattle.std.specs.Prelude.{◌≡◌, ◌≤◌, false, IfOk};
ghost use Rattle.db_format.specs.Pages.{IsUsable};
ghost use Rattle.bulk_load.specs.Loader.{IsLoader, family_of_loader};

use super::entries::Entry;
use btree_page::Family;
use bulk_load::{LoadError, Loader, MemOut, PageOut};
use std::alloc::Global;

/// A tree to be loaded: how many entries it has, with a text of how many bytes, and the usable size of its pages, in bytes.
#[derive(Clone, Copy)]
pub struct Tree {
    pub family: Family,
    pub entries: u32,
    pub text: usize,
    pub usable: usize,
    ghost size: { IsUsable usable },
}

/// Loads a tree where there may be so many pages: the pages and the root.
pub fn load(alloc: Global, tree: &Tree, limit: u32) -> Option<(MemOut, u32)>
    requires { 1 ≤ limit }
{
    let mut out = MemOut::new(alloc, tree.usable, limit).ok()?;
    let mut entry = Entry::first(alloc, tree.family, tree.text)?;
    let root = load_all(alloc, &mut out, tree.family, tree.entries, &mut entry).ok()?;
    Some((out, root))
}

// Loads so many entries, from this one on, with the rowids from 1 on in a table.
fn load_all<P: PageOut>(
    alloc: Global,
    out: &mut P,
    family: Family,
    entries: u32,
    entry: &mut Entry,
) -> Result<u32, LoadError> {
    let mut loader = match family {
        Family::Table => Loader::table(alloc, out.usable(), false)?,
        Family::Index => Loader::index(alloc, out.usable())?,
    };
    for before in 0..entries {
        let rowid = match family {
            Family::Table => Some(before as i64 + 1),
            Family::Index => None,
        };
        loader.push(out, rowid, &entry.record)?;
        entry.count_up();
    }
    loader.finish(out)
}
