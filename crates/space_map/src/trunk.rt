// One trunk page of the freelist, section 1.5.
ghost use Rattle.std.specs.Prelude.{◌≡◌, ◌+◌, ◌*◌, ◌<◌, ◌≤◌, ◌==◌, ◌||◌, ℕ, List, length, OnOk, IsTrue};
ghost use Rattle.db_format.specs.Bytes.{u32_at};
ghost use Rattle.db_format.specs.Pages.{Pages, Test};
ghost use Rattle.db_format.specs.Seen.{marked, open_count};
ghost use Rattle.btree_model.specs.Finding.{Finding};
ghost use Rattle.btree_model.specs.Freelist.{numbers_at};
ghost use Rattle.btree_model.specs.Range.{is_in_range};
ghost use Rattle.btree_walk.specs.Marks.{KeepsMarks};
ghost use Rattle.space_map.specs.Walk.{IsInside, IsNumber, IsLeafTaken, IsTrunkRead};

use btree_walk::is_in_range;
use db_format::{Seen, u32_at};

/// What a trunk page says.
#[derive(Clone, Copy)]
pub struct Trunk {
    /// The next trunk page, 0 for none.
    pub next: u32,
    /// How many leaves it lists.
    pub size: u32,
}

/// The number is 0, or that of a page, of `count`, that another page may name.
pub fn is_number(n: u32, count: u32) -> bool
    ensures test { (pages : Pages) → pages.count ≡ count → result ≡ (n == 0 || is_in_range pages n) }
    ensures number { (pages : Pages) → pages.count ≡ count → IsTrue result → IsNumber pages n }
{
    n == 0 || is_in_range(n, count)
}

/// The trunk page with these bytes, in a database of `count` pages: none where it lists more leaves than have room, or
/// a number in it is that of no page.
pub fn read_trunk(bytes: &[u8], count: u32) -> Option<Trunk>
    requires { 480 ≤ length bytes.now }
    ensures { (pages : Pages) → pages.count ≡ count → pages.usable ≡ length bytes.now → IsTrunkRead pages bytes.now result }
{
    let next = u32_at(bytes, 0);
    let size = u32_at(bytes, 4);
    if size as usize > bytes.len() / 4 - 2 {
        return None;
    }
    if next != 0 && !is_in_range(next, count) {
        return None;
    }
    for index in 0..size {
        let leaf = u32_at(bytes, 8 + 4 * index as usize);
        if !is_in_range(leaf, count) {
            return None;
        }
    }
    Some(Trunk { next, size })
}

/// Marks the leaves of a trunk page. An error is the first that had a mark.
pub fn take_leaves(bytes: &[u8], size: u32, seen: &mut Seen, free: &mut Seen) -> Result<(), u32>
    requires fits { 8 + 4 * size ≤ length bytes.now }
    requires low { (i : ℕ) → i < size → 2 ≤ u32_at bytes.now (8 + 4 * i) }
    requires high { (i : ℕ) → i < size → u32_at bytes.now (8 + 4 * i) < length seen.old }
    requires free { length free.old ≡ length seen.old }
    ensures seen_length { length seen.new ≡ length seen.old }
    ensures free_length { length free.new ≡ length free.old }
    ensures kept { KeepsMarks (marked seen.old) (marked seen.new) }
    ensures zero { marked seen.new 0 ≡ marked seen.old 0 }
    ensures less { OnOk result (open_count seen.new + size ≡ open_count seen.old) }
    ensures on { (pages : Pages) (all : List Finding) (taken : Test) (fuel next found : ℕ)
        → IsInside pages all taken fuel next (numbers_at bytes.now 8 size) found (marked seen.old) (marked free.old)
        → IsLeafTaken pages all taken fuel next (found + size) (marked seen.new) (marked free.new) result }
{
    for i in 0..size {
        let leaf = u32_at(bytes, 8 + 4 * i as usize);
        free.mark(leaf);
        if !seen.mark(leaf) {
            return Err(leaf);
        }
    }
    Ok(())
}
