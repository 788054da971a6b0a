// What each frame holds, the most recently used first.
ghost use Rattle.std.specs.Prelude.{◌≡◌, ◌≤◌, ◌<◌, None, Some, List, Option, ℕ, IfOk, IfSome, IsSome, nat_eq, reverse};
ghost use Rattle.std.specs.Map.{lookup, set_value};
ghost use Rattle.lru.specs.LruCache.{lru_cache, IsValid};
ghost use Rattle.page_cache.specs.Frames.{HaveDistinctPages, blank_frame, frame_entry, frame_at, free_frame, freed, held_in, unpinned};
ghost use Rattle.page_cache.specs.Index.{Names};

use crate::index::Index;
use lru::LruCache;
use std::alloc::{AllocError, Global};
use std::num::NonZeroUsize;

/// What is known of a held page but its bytes.
#[derive(Clone, Copy, Debug, PartialEq, Eq)]
pub(crate) struct Held {
    pub(crate) page: u32,
    pub(crate) pins: u32,
    pub(crate) dirty: bool,
}

/// A table of frames without pages. No later call adds a frame to it.
#[tactic(auto, using(crate::proofs::Blank::put_blank))]
pub(crate) fn free_table(
    alloc: Global,
    frames: u32,
) -> Result<LruCache<u32, Option<Held>>, AllocError>
    requires { 1 ≤ frames }
    ensures { IfOk result (λ t. t ≡ lru_cache (blank_frame frames) frames) }
{
    let Some(cap) = NonZeroUsize::new(frames as usize) else {
        return Err(AllocError);
    };
    let mut table = LruCache::new(alloc, cap)?;
    for frame in 0..frames {
        if table.put(frame, None).is_err() {
            return Err(AllocError);
        }
    }
    Ok(table)
}

/// The frame of page n.
pub(crate) fn frame_of(index: &Index, table: &LruCache<u32, Option<Held>>, n: u32) -> Option<u32>
    requires { Names index.now.frames table.now.entries }
    ensures value { result ≡ frame_at n table.now.entries }
    ensures valid { IsValid nat_eq table.now }
{
    match newest(table, n) {
        Some(frame) => Some(frame),
        None => index.find(n),
    }
}

// The frame of the page that was used last, where that is page n: most look-ups are of this one, and no key is hashed.
fn newest(table: &LruCache<u32, Option<Held>>, n: u32) -> Option<u32>
    ensures value { IfSome result (λ frame. frame_at n table.now.entries ≡ Some frame) }
    ensures valid { IsValid nat_eq table.now }
{
    let _count = table.len();
    let Some((frame, held)) = table.peek_mru() else {
        return None;
    };
    match held {
        Some(held) => { if held.page == n { Some(*frame) } else { None } }
        None => None,
    }
}

/// The frame of page n, and what is known of the page.
pub(crate) fn entry_of(
    index: &Index,
    table: &LruCache<u32, Option<Held>>,
    n: u32,
) -> Option<(u32, Held)>
    requires names { Names index.now.frames table.now.entries }
    requires apart { HaveDistinctPages table.now.entries }
    ensures value { result ≡ frame_entry n table.now.entries }
    ensures valid { IsValid nat_eq table.now }
{
    match frame_of(index, table, n) {
        Some(frame) => match held_in(table, frame) {
            Some(held) => Some((frame, held)),
            None => None,
        },
        None => None,
    }
}

// What is known of the page in a frame.
fn held_in(table: &LruCache<u32, Option<Held>>, frame: u32) -> Option<Held>
    ensures { result ≡ held_in frame table.now.entries }
{
    match table.peek(&frame) {
        Some(held) => *held,
        None => None,
    }
}

/// A frame without a page.
pub(crate) fn free_frame(table: &LruCache<u32, Option<Held>>) -> Option<u32>
    ensures value { result ≡ free_frame table.now.entries }
    ensures valid { IsValid nat_eq table.now }
{
    let _count = table.len();
    match table.peek_lru() {
        Some((frame, held)) => match held {
            Some(_) => None,
            None => Some(*frame),
        },
        None => None,
    }
}

/// The page without a pin that was not used for the longest time. Frames without a page and pages with a pin that are older are passed over.
pub(crate) fn unpinned(table: &LruCache<u32, Option<Held>>) -> Option<u32>
    ensures { result ≡ unpinned (reverse table.now.entries) }
{
    for (_, held) in table.iter().rev() {
        if let Some(held) = held {
            if held.pins == 0 {
                return Some(held.page);
            }
        }
    }
    None
}

/// The frame has no page from now on, and is the last.
pub(crate) fn free(table: &mut LruCache<u32, Option<Held>>, frame: u32)
    requires { IsSome (lookup (nat_eq frame) table.old.entries) }
    ensures { table.new ≡ lru_cache (freed frame table.old.entries) table.old.cap }
{
    set_held(table, frame, None);
    table.demote(&frame);
}

/// The frame holds this, and the order stays.
pub(crate) fn set_held(table: &mut LruCache<u32, Option<Held>>, frame: u32, held: Option<Held>)
    requires { IsSome (lookup (nat_eq frame) table.old.entries) }
    ensures { table.new ≡ lru_cache (set_value (nat_eq frame) table.old.entries held) table.old.cap }
{
    if let Some(place) = table.peek_mut(&frame) {
        *place = held;
    }
}
