// The frame of each page.
ghost use Rattle.std.specs.Prelude.{◌≡◌, ℕ, ◌≤◌, ◌<◌, ◌+◌, ◌*◌, ◌⊎◌, None, Some, cond, length, nat_eq, is_some, IfOk, IsTrue};
ghost use Rattle.std.specs.HashMap.{get, spare};
ghost use Rattle.page_cache.specs.Index.{named, room, Names};
ghost use Rattle.page_cache.specs.Frames.{HaveDistinctPages};

use crate::table::Held;
use lru::LruCache;
use std::alloc::{AllocError, Global};
use std::collections::HashMap;

/// The frame of each page that is held. A page that is held no more stays a key, without a frame, until the room is used up:
/// no clause of a map says that a key that is taken out leaves room for another.
#[derive(Drop)]
pub(crate) struct Index {
    frames: HashMap<u32, Option<u32>>,
}

impl Index {
    /// An index of no page, with room for two keys a frame.
    pub(crate) fn new(alloc: Global, frames: u32) -> Result<Index, AllocError>
        ensures empty { IfOk result (λ index. (n : ℕ) → named index.frames n ≡ None) }
        ensures room { IfOk result (λ index. 2 * frames ≤ room index.frames) }
    {
        let frames = HashMap::with_capacity(alloc, 2 * frames as usize)?;
        Ok(Index { frames })
    }

    /// The frame of page n.
    pub(crate) fn find(&self, n: u32) -> Option<u32>
        ensures { result ≡ named self.now.frames n }
    {
        match self.frames.get(&n) {
            Some(frame) => *frame,
            None => None,
        }
    }

    /// Page n is in this frame.
    pub(crate) fn set(&mut self, n: u32, frame: u32)
        requires { 0 < spare self.old.frames }
        ensures named { (m : ℕ) → named self.new.frames m ≡ cond (nat_eq n m) (Some frame) (named self.old.frames m) }
        ensures room { room self.old.frames ≤ room self.new.frames }
        ensures spare { spare self.old.frames ≤ spare self.new.frames + 1 }
    {
        if self.write(n, Some(frame)) {
            return;
        }
        let _was = self.frames.insert(n, Some(frame));
    }

    /// Page n is in no frame.
    pub(crate) fn forget(&mut self, n: u32)
        ensures named { (m : ℕ) → named self.new.frames m ≡ cond (nat_eq n m) None (named self.old.frames m) }
        ensures room { room self.new.frames ≡ room self.old.frames }
    {
        let _was_a_key = self.write(n, None);
    }

    /// There is room for one more key. Where the room is used up, only the pages in this table stay keys.
    pub(crate) fn make_room(&mut self, table: &LruCache<u32, Option<Held>>)
        requires names { Names self.old.frames table.now.entries }
        requires apart { HaveDistinctPages table.now.entries }
        requires room { (1 ≤ length table.now.entries) × (2 * length table.now.entries ≤ room self.old.frames) }
        ensures names { Names self.new.frames table.now.entries }
        ensures spare { 0 < spare self.new.frames }
        ensures room { room self.old.frames ≤ room self.new.frames }
    {
        if self.frames.len() == self.frames.capacity() {
            self.rebuild(table);
        }
    }

    // Only the pages in this table are keys, so there is room for as many more as there are frames.
    fn rebuild(&mut self, table: &LruCache<u32, Option<Held>>)
        requires apart { HaveDistinctPages table.now.entries }
        requires room { 2 * length table.now.entries ≤ room self.old.frames }
        ensures names { Names self.new.frames table.now.entries }
        ensures spare { length table.now.entries ≤ spare self.new.frames }
        ensures room { room self.old.frames ≤ room self.new.frames }
    {
        self.frames.clear();
        for (frame, held) in table.iter() {
            if let Some(held) = held {
                self.set(held.page, *frame);
            }
        }
    }

    // Writes the frame of a page that is a key, and says whether it is one.
    fn write(&mut self, n: u32, frame: Option<u32>) -> bool
        ensures value { result ≡ is_some (get nat_eq self.old.frames n) }
        ensures named { IsTrue result → (m : ℕ) → named self.new.frames m ≡ cond (nat_eq n m) frame (named self.old.frames m) }
        ensures kept { IsTrue result ⊎ (self.new ≡ self.old) }
        ensures spare { spare self.new.frames ≡ spare self.old.frames }
        ensures room { room self.new.frames ≡ room self.old.frames }
    {
        match self.frames.get_mut(&n) {
            Some(place) => {
                *place = frame;
                true
            }
            None => false,
        }
    }
}
