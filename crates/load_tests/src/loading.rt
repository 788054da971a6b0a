// Entries that are loaded one after another.
ghost use Rattle.std.specs.Prelude.{◌≡◌, ◌≤◌, length, true, IfOk};
ghost use Rattle.btree_page.specs.Payload.{max_payload};
ghost use Rattle.bulk_load.specs.Loader.{IsLoader, family_of_loader, is_for};
ghost use Rattle.db_format.specs.Pages.{IsUsable};

use btree_page::Family;
use bulk_load::{LoadError, Loader, MemOut};
use std::alloc::Global;

/// Loads so many entries into memory where there may be so many pages, with the rowids from 1 on in a table: the pages and the root, which
/// is page 1 where that is wanted of a table. Each payload is this one with the entry's number in front, from 1 on.
pub fn load(
    alloc: Global,
    usable: usize,
    limit: u32,
    family: Family,
    at_one: bool,
    count: u32,
    payload: &mut [u8],
) -> Result<(MemOut, u32), LoadError>
    requires usable { IsUsable usable }
    requires some { 1 ≤ limit }
    requires short { length payload.old ≤ max_payload }
{
    let mut out = match MemOut::new(alloc, usable, limit) {
        Ok(out) => out,
        Err(_) => return Err(LoadError::OutOfMemory),
    };
    let mut loader = new_loader(alloc, usable, family, at_one)?;
    for before in 0..count {
        number(payload, before.saturating_add(1));
        loader.push(&mut out, rowid(family, before), payload)?;
    }
    let root = loader.finish(&mut out)?;
    Ok((out, root))
}

// A loader of an empty tree.
fn new_loader(
    alloc: Global,
    usable: usize,
    family: Family,
    at_one: bool,
) -> Result<Loader, LoadError>
    requires { IsUsable usable }
    ensures ready { IfOk result (λ loader. IsLoader loader usable) }
    ensures family { IfOk result (λ loader. family_of_loader loader ≡ family) }
{
    match family {
        Family::Table => Loader::table(alloc, usable, at_one),
        Family::Index => Loader::index(alloc, usable),
    }
}

/// The rowid of an entry, behind so many others.
pub fn rowid(family: Family, before: u32) -> Option<i64>
    ensures { is_for family result ≡ true }
{
    match family {
        Family::Table => Some((before as i64).saturating_add(1)),
        Family::Index => None,
    }
}

/// Puts a number in front of a payload, where it has room.
pub fn number(payload: &mut [u8], n: u32)
    ensures { length payload.new ≡ length payload.old }
{
    if payload.len() >= 4 {
        payload[0] = (n >> 24) as u8;
        payload[1] = ((n >> 16) % 256) as u8;
        payload[2] = ((n >> 8) % 256) as u8;
        payload[3] = (n % 256) as u8;
    }
}
