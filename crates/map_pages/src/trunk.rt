// The pages of the new trunks (section 1.5).
ghost use Rattle.std.specs.Prelude.{◌≡◌, ◌<◌, ◌≤◌, ◌+◌, ◌++◌, ◌^◌, flat_map, length, IfOk, OnOk};
ghost use Rattle.std.specs.Int.{w32, to_be_bytes};
ghost use Rattle.db_format.specs.Pages.{IsUsable};
ghost use Rattle.map_pages.specs.Maps.{map_count, map_number};
ghost use Rattle.map_pages.specs.Trunks.{is_new_trunk, leaves_behind, numbers_from, room, trunk_from, trunk_head};

use crate::maps::{map_count, map_number};
use db_format::OutOfMemory;
use number_fields::u32_bytes;
use std::alloc::Global;

/// Whether map page k, counted from 0, becomes a trunk. The usable size is in bytes.
pub fn is_new_trunk(usable: u32, k: u32) -> bool
    requires { IsUsable usable }
    ensures { result ≡ is_new_trunk usable k }
{
    k % (room(usable) + 1) == 0
}

/// The first trunk of the freelist behind the change, where so many pages had one that began with `old_first`.
pub fn first_trunk(usable: u32, count: u32, old_first: u32) -> u32
    requires { IsUsable usable }
    ensures { result ≡ trunk_from usable (map_count usable count) old_first 0 }
{
    trunk_from(usable, count, old_first, 0)
}

/// The bytes of the trunk that is map page k. The rest of its page is zeros.
pub fn trunk_head(
    alloc: Global,
    usable: u32,
    count: u32,
    old_first: u32,
    k: u32,
) -> Result<Vec<u8>, OutOfMemory>
    requires usable { IsUsable usable }
    requires there { k < map_count usable count }
    ensures bytes { IfOk result (λ head. head.items ≡ trunk_head usable (map_count usable count) old_first k) }
    ensures fits { IfOk result (λ head. length head.items ≤ usable) }
{
    let leaves = leaves_behind(usable, count, k);
    let mut head = Vec::new(alloc);
    append(
        &mut head,
        &u32_bytes(next_trunk(usable, count, old_first, k)),
    )?;
    append(&mut head, &u32_bytes(leaves))?;
    append_numbers(&mut head, usable, count, k + 1, leaves)?;
    Ok(head)
}

// How many leaves a new trunk has at most: the last six places that the format has stay empty, since older releases misread them.
fn room(usable: u32) -> u32
    requires { IsUsable usable }
    ensures { result ≡ room usable }
{
    usable / 4 - 8
}

// How many leaves the trunk has that is map page k.
fn leaves_behind(usable: u32, count: u32, k: u32) -> u32
    requires usable { IsUsable usable }
    requires there { k < map_count usable count }
    ensures { result ≡ leaves_behind usable (map_count usable count) k }
{
    room(usable).min(map_count(usable, count) - (k + 1))
}

// The trunk behind it: a map page, or the first of the old freelist.
fn next_trunk(usable: u32, count: u32, old_first: u32, k: u32) -> u32
    requires usable { IsUsable usable }
    requires there { k < map_count usable count }
    ensures { result ≡ trunk_from usable (map_count usable count) old_first (k + room usable + 1) }
{
    if map_count(usable, count) - (k + 1) > room(usable) {
        map_number(usable, k + room(usable) + 1)
    } else {
        old_first
    }
}

// The trunk from map page k on: that page, or the first of the old freelist where there are no more map pages.
fn trunk_from(usable: u32, count: u32, old_first: u32, k: u32) -> u32
    requires { IsUsable usable }
    ensures { result ≡ trunk_from usable (map_count usable count) old_first k }
{
    if k < map_count(usable, count) {
        map_number(usable, k)
    } else {
        old_first
    }
}

// Appends the numbers of so many map pages from k on.
fn append_numbers(
    page: &mut Vec<u8>,
    usable: u32,
    count: u32,
    k: u32,
    many: u32,
) -> Result<(), OutOfMemory>
    requires { k + many ≤ map_count usable count }
    ensures { OnOk result (page.new.items ≡ page.old.items ++ flat_map (to_be_bytes w32) (numbers_from usable k many)) }
{
    for i in 0..many {
        append(page, &u32_bytes(map_number(usable, k + i)))?;
    }
    Ok(())
}

fn append(page: &mut Vec<u8>, bytes: &[u8]) -> Result<(), OutOfMemory>
    ensures { OnOk result (page.new.items ≡ page.old.items ++ bytes.now) }
{
    match page.extend_from_slice(bytes) {
        Ok(()) => Ok(()),
        Err(_) => Err(OutOfMemory),
    }
}
