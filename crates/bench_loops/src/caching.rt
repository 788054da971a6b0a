// Pages are found in a cache, and come in for others.
//
// `cache hits FRAMES TIMES`: so many look-ups that find their page in a full cache, each of which makes the page the most
// recently used and reads its first byte. `cache evictions FRAMES TIMES`: so many pages that are not held and come in for
// the least recently used one. `cache lru_hits` and `cache lru_evictions`: the same keys in the same order in a plain
// `LruCache`. Each prints how many look-ups found something.
ghost use Rattle.std.specs.Prelude.{◌≤◌};

use crate::words::{number, word_at};
use lru::LruCache;
use page_cache::Cache;
use std::io;
use std::num::NonZeroUsize;

const USABLE: usize = 4016;

// The next number of a fixed sequence (D. E. Knuth's MMIX).
fn next(state: u64) -> u64 {
    state
        .wrapping_mul(6_364_136_223_846_793_005)
        .wrapping_add(1_442_695_040_888_963_407)
}

// A page from 1 up to this one.
fn page_of(state: u64, frames: u32) -> u32
    requires { 1 ≤ frames }
    ensures { 1 ≤ result }
{
    ((state >> 33) % frames as u64) as u32 + 1
}

fn place(cache: &mut Cache, n: u32) {
    if !cache.is_held(n) {
        let _placed = cache.hold(n).is_ok();
    }
}

fn first(bytes: &[u8]) -> u64 {
    if bytes.is_empty() { 0 } else { bytes[0] as u64 }
}

fn hits(cache: &mut Cache, frames: u32, times: u64) -> u64
    requires { 1 ≤ frames }
{
    for n in 0..frames {
        place(cache, n.wrapping_add(1));
    }
    let mut found = 0u64;
    let mut state = 1u64;
    for _ in 0..times {
        state = next(state);
        let n = page_of(state, frames);
        if cache.touch(n) {
            if let Some(bytes) = cache.get(n) {
                found = found.wrapping_add(first(bytes)).wrapping_add(1);
            }
        }
    }
    found
}

// A page comes in, and where no frame is free the least recently used page goes for it.
fn comes_in(cache: &mut Cache, n: u32) -> bool {
    if cache.is_held(n) || cache.hold(n).is_ok() {
        return false;
    }
    if let Some(old) = cache.victim() {
        let _gone = cache.discard(old);
    }
    place(cache, n);
    true
}

fn evictions(cache: &mut Cache, times: u32) -> u64 {
    let mut found = 0u64;
    for n in 0..times {
        if comes_in(cache, n) {
            found = found.wrapping_add(1);
        }
    }
    found
}

fn lru_hits(cache: &mut LruCache<u32, u32>, frames: u32, times: u64) -> u64
    requires { 1 ≤ frames }
{
    for n in 0..frames {
        let _was = cache.put(n.wrapping_add(1), 0);
    }
    let mut found = 0u64;
    let mut state = 1u64;
    for _ in 0..times {
        state = next(state);
        let n = page_of(state, frames);
        if let Some(value) = cache.get(&n) {
            found = found.wrapping_add(*value as u64).wrapping_add(1);
        }
    }
    found
}

fn lru_evictions(cache: &mut LruCache<u32, u32>, times: u32) -> u64 {
    let mut found = 0u64;
    for n in 0..times {
        if !cache.contains(&n) {
            if let Ok(Some(_)) = cache.push(n, 0) {
                found = found.wrapping_add(1);
            }
        }
    }
    found
}

/// Runs the loop by its words, and prints what it says.
pub fn run(rt: &HostRuntime, words: &Vec<String>) -> io::Result<()> {
    let word = word_at(words, 2, "hits");
    let frames = number(words, 3, 64).max(1).min(100_000) as u32;
    let times = number(words, 4, 1_000).min(u32::MAX as u64) as u32;
    let Some(cap) = NonZeroUsize::new(frames as usize) else {
        return Err(io::ErrorKind::InvalidInput.into());
    };
    let Ok(mut keys) = LruCache::new(rt.alloc(), cap) else {
        return Err(io::ErrorKind::OutOfMemory.into());
    };
    let Ok(mut cache) = Cache::new(rt.alloc(), frames, USABLE) else {
        return Err(io::ErrorKind::OutOfMemory.into());
    };
    let found = match word {
        "evictions" => evictions(&mut cache, times),
        "lru_hits" => lru_hits(&mut keys, frames, times as u64),
        "lru_evictions" => lru_evictions(&mut keys, times),
        _ => hits(&mut cache, frames, times as u64),
    };
    println!(rt; "{found}")
}
