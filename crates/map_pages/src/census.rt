// The whole of a database that has map pages.
ghost use Rattle.std.specs.Prelude.{◌≡◌, ◌≤◌, ◌<◌, ℕ, true, false, IfErr, IfSome, None, OnOk, IsTrue};
ghost use Rattle.db_format.specs.Seen.{marked};
ghost use Rattle.db_format.specs.Source.{Rose, no_pins};
ghost use Rattle.btree_model.specs.Freelist.{first_trunk, free_field};
ghost use Rattle.btree_walk.specs.Causes.{is_failure};
ghost use Rattle.map_pages.specs.Beside.{IsCensusBeside, is_fault_beside};
ghost use Rattle.map_pages.specs.Maps.{is_map_page, map_count, map_number};

use crate::beside::{BesideMaps, MapRefusal};
use crate::maps::{map_count, map_number};
use btree_walk::WalkError;
use db_format::{Header, PageSource};
use schema_map::{Census, census};
use space_map::FreeMap;
use std::alloc::Global;

/// Checks the whole of a database as `census` does, and that no part of it has a place on a map page: the walk stops at a map page that it needs,
/// and a leaf of the freelist that is one is looked for behind it.
pub fn census_beside<S: PageSource>(
    alloc: Global,
    source: &mut S,
    header: &Header,
) -> Result<Census, WalkError<MapRefusal<S::Refusal>>>
    requires first { IsTrue S.tells → header.now.first_trunk ≡ first_trunk (S.plain source.old) }
    requires kept { IsTrue S.tells → header.now.free_count ≡ free_field (S.plain source.old) }
    requires some { 1 ≤ (S.plain source.old).count }
    requires unpinned { S.pins source.old ≡ no_pins }
    ensures found { IsTrue S.tells → IsCensusBeside S.refuses (S.plain source.old) result }
    ensures fault { IfErr result (λ error. IsTrue (is_failure (is_fault_beside S.is_fault) error) → Rose (S.faults source.old) (S.faults source.new)) }
    ensures unpinned { OnOk result (S.pins source.new ≡ no_pins) }
    ensures reads { S.only_read source.old source.new }
{
    let usable = source.usable() as u32;
    let count = source.pages();
    let mut beside = BesideMaps::new(source);
    let found = match census(alloc, &mut beside, header) {
        Ok(found) => found,
        Err(error) => return Err(error),
    };
    match map_leaf(&found.leaves, usable, count) {
        Some(page) => Err(WalkError::Source(MapRefusal::MapPage { page })),
        None => Ok(found),
    }
}

// The first map page that is a leaf of the freelist.
fn map_leaf(leaves: &FreeMap, usable: u32, count: u32) -> Option<u32>
    ensures map { IfSome result (λ n. is_map_page usable n ≡ true) }
    ensures there { IfSome result (λ n. n ≤ count) }
    ensures leaf { IfSome result (λ n. marked leaves.now.leaves n ≡ true) }
    ensures none { result ≡ None → (k : ℕ) → k < map_count usable count → marked leaves.now.leaves (map_number usable k) ≡ false }
{
    for k in 0..map_count(usable, count) {
        let n = map_number(usable, k);
        if leaves.is_leaf(n) {
            return Some(n);
        }
    }
    None
}
