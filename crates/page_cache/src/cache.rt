// A cache of pages.
ghost use Rattle.std.specs.Prelude.{◌≡◌, ◌≤◌, ◌<◌, ◌+◌, ◌-◌, ◌^◌, ◌==◌, not, [], ◌∷◌, length, nat_eq, None, Some, IfOk, IfErr, OnOk, OnErr, IsOk, IsTrue, IsSome, IfSome, MatchOption, true, false, option_map, is_some, replicate};
ghost use Rattle.std.specs.Borrow.{sem};
ghost use Rattle.page_cache.specs.Pages.{HeldPages, Page, held_page, held_bytes, pins_at, is_held, is_dirty, has_pin, moved_first, without, changed, pin_more, pin_less, with_dirty, last_unpinned, fresh_frame, IsSoundCache};

use crate::frame::Frame;
use crate::index::Index;
use crate::table::{Held, entry_of, frame_of, free, free_frame, free_table, set_held, unpinned};
use lru::LruCache;
use std::alloc::{AllocError, Global};
use std::marker::Model;

/// There was not enough memory.
#[derive(Clone, Copy, Debug, PartialEq, Eq)]
pub struct OutOfMemory;

/// No frame is free.
#[derive(Clone, Copy, Debug, PartialEq, Eq)]
pub struct Full;

/// Pages that are held in a fixed number of frames. Each is known by its number.
#[derive(Drop)]
pub struct Cache {
    index: Index,
    // Each frame's number is a key from `new` on, so that no later call takes memory. The most recently used page is first, and the
    // frames without a page are last.
    table: LruCache<u32, Option<Held>>,
    store: Vec<Frame>,
    usable: usize,
}

impl Model for Cache {
    ghost use Rattle.std.specs.Prelude.{length};
    ghost use Rattle.page_cache.specs.Pages.{HeldPages};
    ghost use Rattle.page_cache.specs.Frames.{shown_pages};
    ghost use Rattle.page_cache.specs.Tied.{AreTied};

    ghost Value = { HeldPages };

    ghost view = { λ c. record { held = shown_pages c.store.items c.table.entries; frames = length c.store.items; usable = c.usable } };

    ghost invariant = { λ c. AreTied c.usable c.index.frames c.store.items c.table.entries };
}

impl Cache {
    ghost use Rattle.page_cache.specs.Cache.{LendsPage};

    /// A cache of no page, with so many frames, of so many bytes each. It takes all memory that the cache will ever use.
    pub fn new(alloc: Global, frames: u32, usable: usize) -> Result<Cache, OutOfMemory>
        requires { 1 ≤ frames }
        ensures { IfOk result (λ c. c ≡ record { held = []; frames = frames; usable = usable }) }
    {
        let Ok(store) = frame_store(alloc, frames, usable) else {
            return Err(OutOfMemory);
        };
        let Ok(table) = free_table(alloc, frames) else {
            return Err(OutOfMemory);
        };
        let Ok(index) = Index::new(alloc, frames) else {
            return Err(OutOfMemory);
        };
        Ok(Cache {
            index,
            table,
            store,
            usable,
        })
    }

    /// Whether page n is held. The order of use stays.
    pub fn is_held(&self, n: u32) -> bool
        ensures value { result ≡ is_held n self.now.held }
        ensures sound { IsSoundCache self.now }
    {
        frame_of(&self.index, &self.table, n).is_some()
    }

    /// Makes page n the most recently used, and says whether it is held.
    pub fn touch(&mut self, n: u32) -> bool
        ensures value { result ≡ is_held n self.old.held }
        ensures first { self.new ≡ record self.old { held = moved_first n self.old.held } }
        ensures sound { IsSoundCache self.new }
    {
        match frame_of(&self.index, &self.table, n) {
            Some(frame) => {
                self.table.promote(&frame);
                true
            }
            None => false,
        }
    }

    /// The bytes of page n, where it is held.
    pub fn get(&self, n: u32) -> Option<&[u8]>
        ensures value { option_map (λ bytes. bytes.now) result ≡ held_bytes n self.now.held }
        ensures size { IfSome result (λ bytes. length bytes.now ≡ self.now.usable) }
    {
        match frame_of(&self.index, &self.table, n) {
            Some(frame) => Some(self.store[frame as usize].bytes()),
            None => None,
        }
    }

    /// Lends the bytes of page n, which is held, for writing: what is written is the page from then on.
    pub fn at_mut(&mut self, n: u32) -> &mut [u8]
        requires { IsTrue (is_held n self.old.held) }
        ensures* writes_back { sem 𝓛 (LendsPage self.entry n result) }
        ensures value { held_bytes n self.old.held ≡ Some result.now }
        ensures size { length result.now ≡ self.old.usable }
    {
        let frame = frame_of(&self.index, &self.table, n).unwrap();
        self.store[frame as usize].bytes_mut()
    }

    /// How often page n is pinned: 0 where it is not held.
    pub fn pins(&self, n: u32) -> u32
        ensures { result ≡ pins_at n self.now.held }
    {
        match entry_of(&self.index, &self.table, n) {
            Some((_frame, held)) => held.pins,
            None => 0,
        }
    }

    /// Gives page n one more pin, and says whether it is held.
    pub fn pin(&mut self, n: u32) -> bool
        requires { pins_at n self.old.held < 2 ^ 32 - 1 }
        ensures value { result ≡ is_held n self.old.held }
        ensures more { self.new ≡ record self.old { held = changed n pin_more self.old.held } }
    {
        match entry_of(&self.index, &self.table, n) {
            Some((frame, held)) => {
                set_held(
                    &mut self.table,
                    frame,
                    Some(Held {
                        pins: held.pins + 1,
                        ..held
                    }),
                );
                true
            }
            None => false,
        }
    }

    /// Takes one pin from page n, and says whether it is held and had one.
    pub fn unpin(&mut self, n: u32) -> bool
        ensures value { result ≡ has_pin n self.old.held }
        ensures less { self.new ≡ record self.old { held = changed n pin_less self.old.held } }
    {
        match entry_of(&self.index, &self.table, n) {
            Some((frame, held)) => {
                if held.pins == 0 {
                    return false;
                }
                set_held(
                    &mut self.table,
                    frame,
                    Some(Held {
                        pins: held.pins - 1,
                        ..held
                    }),
                );
                true
            }
            None => false,
        }
    }

    /// Marks page n as changed or as unchanged, and says whether it is held.
    pub fn set_dirty(&mut self, n: u32, dirty: bool) -> bool
        ensures value { result ≡ is_held n self.old.held }
        ensures dirty { self.new ≡ record self.old { held = changed n (with_dirty dirty) self.old.held } }
    {
        match entry_of(&self.index, &self.table, n) {
            Some((frame, held)) => {
                set_held(&mut self.table, frame, Some(Held { dirty, ..held }));
                true
            }
            None => false,
        }
    }

    /// Whether page n is held and marked as changed.
    pub fn is_dirty(&self, n: u32) -> bool
        ensures { result ≡ is_dirty n self.now.held }
    {
        match entry_of(&self.index, &self.table, n) {
            Some((_frame, held)) => held.dirty,
            None => false,
        }
    }

    /// The least recently used page without a pin; none where every held page is pinned. The search passes over the pinned pages
    /// that are older and over the free frames, of which a full cache has none.
    pub fn victim(&self) -> Option<u32>
        ensures { result ≡ last_unpinned self.now.held }
    {
        unpinned(&self.table)
    }

    /// Puts page n, which is not held, into a free frame: it is the most recently used, of zeros, clean and without pins. Full comes
    /// exactly where no frame is free.
    pub fn hold(&mut self, n: u32) -> Result<(), Full>
        requires { is_held n self.old.held ≡ false }
        ensures placed { OnOk result (self.new ≡ record self.old { held = fresh_frame n self.old.usable ∷ self.old.held }) }
        ensures free { OnOk result (length self.old.held < self.old.frames) }
        ensures full { OnErr result (length self.old.held ≡ self.old.frames) }
        ensures kept { OnErr result (self.new ≡ self.old) }
    {
        if self.claim(n) { Ok(()) } else { Err(Full) }
    }

    /// Lets page n go, so that its frame is free, and says whether it was held.
    pub fn discard(&mut self, n: u32) -> bool
        ensures value { result ≡ is_held n self.old.held }
        ensures gone { self.new ≡ record self.old { held = without n self.old.held } }
    {
        match frame_of(&self.index, &self.table, n) {
            Some(frame) => {
                self.index.forget(n);
                free(&mut self.table, frame);
                true
            }
            None => false,
        }
    }

    // Puts page n into a frame, and says whether one was free.
    pub(crate) fn claim(&mut self, n: u32) -> bool
        requires { is_held n self.old.held ≡ false }
        ensures placed { IsTrue result → self.new ≡ record self.old { held = fresh_frame n self.old.usable ∷ self.old.held } }
        ensures free { IsTrue result → length self.old.held < self.old.frames }
        ensures full { result ≡ false → length self.old.held ≡ self.old.frames }
        ensures kept { result ≡ false → self.new ≡ self.old }
    {
        let Some(frame) = free_frame(&self.table) else {
            return false;
        };
        self.index.make_room(&self.table);
        self.index.set(n, frame);
        self.store[frame as usize].clear();
        let held = Held {
            page: n,
            pins: 0,
            dirty: false,
        };
        let _was = self.table.put(frame, Some(held));
        true
    }
}

// Frames of zeros.
fn frame_store(alloc: Global, frames: u32, usable: usize) -> Result<Vec<Frame>, AllocError>
    ensures { IfOk result (λ store. store.items ≡ replicate frames (replicate usable 0)) }
{
    let mut store = Vec::with_capacity(alloc, frames as usize)?;
    for _frame in 0..frames {
        let frame = Frame::new(alloc, usable)?;
        if store.push(frame).is_err() {
            return Err(AllocError);
        }
    }
    Ok(store)
}
