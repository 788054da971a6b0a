// The pages that a transaction changed, in frames of their own.
ghost use Rattle.std.specs.Prelude.{◌≡◌, ◌≢◌, ◌≤◌, ◌<◌, ◌+◌, ◌-◌, ◌∷◌, ◌++◌, ◌==◌, [], ℕ, length, true, false, replicate, Some, IfOk, if◌then◌else◌};
ghost use Rattle.std.specs.Option.{option_map};
ghost use Rattle.std.specs.Prelude.{slice_index};
ghost use Rattle.page_cache.specs.Cache.{written_over};
ghost use Rattle.page_cache.specs.Pages.{held_bytes, changed, fresh_frame, is_held};
ghost use Rattle.pager.specs.Changed.{AreListed, IsListing, unchanged, with_bytes};
ghost use Rattle.pager.specs.Held.{bytes_of_page};

use page_cache::{Cache, OutOfMemory};
use std::alloc::Global;
use std::marker::Model;

// Each of these pages leaves its frame.
fn release(numbers: &[u32], cache: &mut Cache)
    requires { AreListed numbers.now cache.old.held }
    ensures { cache.new ≡ record cache.old { held = [] } }
{
    for k in 0..numbers.len() {
        cache.discard(numbers[k]);
    }
}

/// Changed pages, in the order of their first change. All memory is taken by `new`.
#[derive(Drop)]
pub struct ChangedPages {
    numbers: Vec<u32>,
    cache: Cache,
    frames: u32,
    pages: u32,
}

impl Model for ChangedPages {
    ghost use Rattle.std.specs.Prelude.{◌≡◌, ◌≤◌, vec_capacity};
    ghost use Rattle.pager.specs.Changed.{Changed, IsListing};

    ghost Value = { Changed };

    ghost view = { λ c. record { numbers = c.numbers.items; held = c.cache.held; frames = c.frames; usable = c.cache.usable; pages = c.pages } };

    ghost invariant = { λ c. IsListing (record { numbers = c.numbers.items; held = c.cache.held; frames = c.frames; usable = c.cache.usable; pages = c.pages })
        × (c.cache.frames ≡ c.frames) × (c.frames ≤ vec_capacity c.numbers) };
}

impl ChangedPages {
    /// No page, with room for so many frames of so many bytes, for a file of so many pages.
    pub(crate) fn new(
        alloc: Global,
        frames: u32,
        usable: usize,
        pages: u32,
    ) -> Result<ChangedPages, OutOfMemory>
        requires { (1 ≤ frames) × (frames ≤ pages) }
        ensures { IfOk result (λ c. c ≡ unchanged frames usable pages) }
    {
        let cache = Cache::new(alloc, frames, usable)?;
        let Ok(numbers) = Vec::with_capacity(alloc, frames as usize) else {
            return Err(OutOfMemory);
        };
        Ok(ChangedPages {
            numbers,
            cache,
            frames,
            pages,
        })
    }

    /// How many pages were changed.
    pub(crate) fn len(&self) -> usize
        ensures value { result ≡ length self.now.numbers }
        ensures listing { IsListing self.now }
    {
        self.numbers.len()
    }

    /// How many frames hold no changed page.
    pub(crate) fn free_frames(&self) -> u32
        ensures { result ≡ self.now.frames - length self.now.numbers }
    {
        self.frames - self.numbers.len() as u32
    }

    /// Whether every frame holds a changed page.
    pub(crate) fn is_full(&self) -> bool
        ensures value { result ≡ (length self.now.numbers == self.now.frames) }
        ensures listing { IsListing self.now }
    {
        self.numbers.len() == self.frames as usize
    }

    /// The numbers of the changed pages.
    pub(crate) fn numbers(&self) -> &[u32]
        ensures value { result.now ≡ self.now.numbers }
        ensures listing { IsListing self.now }
    {
        &self.numbers
    }

    /// The number of the page at an index.
    pub(crate) fn number(&self, k: usize) -> u32
        requires { k < length self.now.numbers }
        ensures value { result ≡ slice_index self.now.numbers k }
        ensures listing { IsListing self.now }
    {
        self.numbers[k]
    }

    /// Whether page n was changed.
    pub(crate) fn has(&self, n: u32) -> bool
        ensures value { result ≡ is_held n self.now.held }
        ensures listing { IsListing self.now }
    {
        self.cache.is_held(n)
    }

    /// The bytes of page n, where it was changed.
    pub(crate) fn get(&self, n: u32) -> Option<&[u8]>
        ensures { option_map (λ bytes. bytes.now) result ≡ held_bytes n self.now.held }
    {
        self.cache.get(n)
    }

    /// The bytes of the page at an index.
    pub(crate) fn page(&self, k: usize) -> &[u8]
        requires { k < length self.now.numbers }
        ensures value { result.now ≡ bytes_of_page (slice_index self.now.numbers k) self.now.held }
        ensures size { length result.now ≡ self.now.usable }
    {
        let n = self.numbers[k];
        let _held = self.cache.is_held(n);
        match self.cache.get(n) {
            Some(page) => page,
            None => &[],
        }
    }

    /// Page n is changed from now on, and has these bytes.
    pub(crate) fn bring(&mut self, n: u32, plain: &[u8])
        requires number { (1 ≤ n) × (n ≤ self.old.pages) }
        requires fresh { is_held n self.old.held ≡ false }
        requires room { length self.old.numbers < self.old.frames }
        requires size { length plain.now ≡ self.old.usable }
        ensures bytes { (m : ℕ) → held_bytes m self.new.held ≡ (if m == n then Some plain.now else held_bytes m self.old.held) }
        ensures numbers { self.new.numbers ≡ self.old.numbers ++ n ∷ [] }
        ensures sizes { (self.new.frames ≡ self.old.frames) × (self.new.usable ≡ self.old.usable) × (self.new.pages ≡ self.old.pages) }
    {
        self.add(n);
        self.put(n, 0, plain);
    }

    /// Page n is changed from now on, and is zeros.
    pub(crate) fn add(&mut self, n: u32)
        requires number { (1 ≤ n) × (n ≤ self.old.pages) }
        requires fresh { is_held n self.old.held ≡ false }
        requires room { length self.old.numbers < self.old.frames }
        ensures bytes { (m : ℕ) → held_bytes m self.new.held ≡ (if m == n then Some (replicate self.old.usable 0) else held_bytes m self.old.held) }
        ensures held { is_held n self.new.held ≡ true }
        ensures numbers { self.new.numbers ≡ self.old.numbers ++ n ∷ [] }
        ensures sizes { (self.new.frames ≡ self.old.frames) × (self.new.usable ≡ self.old.usable) × (self.new.pages ≡ self.old.pages) }
    {
        if self.cache.hold(n).is_ok() {
            self.numbers.push_reserved(n);
        }
    }

    /// Writes bytes over those of page n, from an offset on.
    pub(crate) fn put(&mut self, n: u32, at: usize, bytes: &[u8])
        requires held { is_held n self.old.held ≡ true }
        requires within { at + length bytes.now ≤ self.old.usable }
        ensures bytes { (m : ℕ) → held_bytes m self.new.held
            ≡ (if m == n then Some (with_bytes at bytes.now (bytes_of_page n self.old.held)) else held_bytes m self.old.held) }
        ensures numbers { self.new.numbers ≡ self.old.numbers }
        ensures sizes { (self.new.frames ≡ self.old.frames) × (self.new.usable ≡ self.old.usable) × (self.new.pages ≡ self.old.pages) }
    {
        let page = self.cache.at_mut(n);
        page[at..at + bytes.len()].copy_from_slice(bytes);
    }

    /// No page is changed any more, and all frames are free.
    pub(crate) fn free(&mut self)
        ensures { self.new ≡ unchanged self.old.frames self.old.usable self.old.pages }
    {
        release(&self.numbers, &mut self.cache);
        self.numbers.clear();
    }

    /// Page n is zeros.
    pub(crate) fn clear(&mut self, n: u32)
        requires { is_held n self.old.held ≡ true }
        ensures bytes { (m : ℕ) → held_bytes m self.new.held ≡ (if m == n then Some (replicate self.old.usable 0) else held_bytes m self.old.held) }
        ensures numbers { self.new.numbers ≡ self.old.numbers }
        ensures sizes { (self.new.frames ≡ self.old.frames) × (self.new.usable ≡ self.old.usable) × (self.new.pages ≡ self.old.pages) }
    {
        self.cache.at_mut(n).fill(0);
    }
}
