// One session.
ghost use Rattle.std.specs.Prelude.{◌≡◌, ◌≤◌, ◌<◌, ◌↔◌, ℕ, [], length, take, false, None, Some, OnOk, OnErr, IfOk, IsOk, IfSome, IsTrue, is_some, option_map, unwrap_or};
ghost use Rattle.std.specs.BTreeMap.{insert_entry};
ghost use Rattle.std.specs.Ordering.{nat_cmp};
ghost use Rattle.cipher_profile.specs.Profile.{IsListed, usable};
ghost use Rattle.page_codec.specs.Page.{accepts, opened};
ghost use Rattle.session_hall.specs.Key.{codec_at};
ghost use Rattle.session_hall.specs.Machine.{is_sealed};
ghost use Rattle.session_hall.specs.Session.{HasPlainPages, change_of, changed_among};

use crate::key::Key;
use crate::lock::Lock;
use crate::plain_page::PlainPage;
use cipher_profile::Profile;
use edge_model::OutOfMemory;
use page_codec::{Codec, TagRefused};
use std::alloc::Global;
use std::collections::BTreeMap;
use std::marker::Model;
use std::ops::Bound;

/// One session: its lock, what it opens the file with, and what it has changed.
#[derive(Drop)]
pub struct Session {
    lock: Lock,
    key: Key,
    pages: u32,
    changes: BTreeMap<u32, PlainPage>,
    new_key: Option<Key>,
}

impl Model for Session {
    ghost use Rattle.session_hall.specs.Session.{Session};

    ghost Value = { Session };

    ghost use Rattle.session_hall.specs.Session.{HasPlainPages};

    ghost view = { λ s. record { lock = s.lock; access = s.key; pages = s.pages; changes = s.changes.entries; new_access = s.new_key } };

    ghost invariant = { λ s. HasPlainPages s.key s.changes.entries };
}

impl Session {
    /// A session with this lock and this key, which has changed nothing.
    pub fn new(alloc: Global, lock: Lock, key: Key) -> Session
        ensures { result ≡ record { lock = lock; access = key; pages = 0; changes = []; new_access = None } }
    {
        Session {
            lock,
            key,
            pages: 0,
            changes: BTreeMap::new(alloc),
            new_key: None,
        }
    }

    /// Its lock.
    pub fn lock(&self) -> Lock
        ensures { result ≡ self.now.lock }
    {
        self.lock
    }

    /// How many pages the file has that it shares.
    pub fn pages(&self) -> u32
        ensures { result ≡ self.now.pages }
    {
        self.pages
    }

    /// The profile of its key.
    pub fn profile(&self) -> Profile
        ensures value { result ≡ self.now.access.profile }
        ensures listed { IsListed result }
    {
        self.key.profile()
    }

    /// Its codec for a file that begins with these bytes.
    pub fn codec(&mut self, first: [u8; 16]) -> Codec
        ensures value { result ≡ codec_at self.old.access first }
        ensures same { self.new ≡ self.old }
    {
        self.key.codec(first)
    }

    /// Opens stored page n of such a file where it stands, as that codec does.
    pub fn open_in_place(
        &mut self,
        first: [u8; 16],
        n: u32,
        page: &mut [u8],
    ) -> Result<(), TagRefused>
        requires number { 1 ≤ n }
        requires size { length page.old ≡ self.old.access.profile.page_size }
        ensures accepted { IsOk result ↔ IsTrue (accepts (codec_at self.old.access first) n page.old) }
        ensures opened { IfOk result (λ _. take (usable self.old.access.profile) page.new ≡ opened (codec_at self.old.access first) n page.old) }
        ensures same { self.new ≡ self.old }
    {
        self.key.open_in_place(first, n, page)
    }

    /// The codec of its commit for a file that begins with these bytes.
    pub fn write_codec(&mut self, first: [u8; 16]) -> Codec
        ensures value { result ≡ codec_at (unwrap_or self.old.new_access self.old.access) first }
        ensures same { self.new ≡ self.old }
    {
        match &mut self.new_key {
            Some(key) => key.codec(first),
            None => self.key.codec(first),
        }
    }

    /// Whether its commit seals every page under another key.
    pub fn rekeys(&self) -> bool
        ensures { result ≡ is_some self.now.new_access }
    {
        self.new_key.is_some()
    }

    /// Its changes are committed: it holds nothing, and is under its new key, if there is one.
    pub fn commit(&mut self)
        ensures { self.new ≡ record self.old { lock = Lock.Unlocked; access = unwrap_or self.old.new_access self.old.access; changes = []; new_access = None } }
    {
        self.lock = Lock::Unlocked;
        self.changes.clear();
        if let Some(key) = self.new_key.take() {
            self.key = key;
        }
    }

    /// How many pages it has changed.
    pub fn changed_pages(&self) -> usize
        ensures { result ≡ length self.now.changes }
    {
        self.changes.len()
    }

    /// The first page behind this one, of so many pages, that its commit seals anew; none where it seals none of them.
    pub fn next_sealed(&self, after: u32, pages: u32) -> Option<u32>
        ensures next { IfSome result (λ n. (after < n) × (n ≤ pages)) }
        ensures between { IfSome result (λ n. (m : ℕ) → after < m → m < n → is_sealed self.now m ≡ false) }
        ensures none { result ≡ None → (m : ℕ) → after < m → m ≤ pages → is_sealed self.now m ≡ false }
    {
        if self.rekeys() {
            return if after < pages { Some(after + 1) } else { None };
        }
        match self.next_change(after) {
            Some(n) if n <= pages => Some(n),
            _ => None,
        }
    }

    // The first page behind this one that it has changed.
    fn next_change(&self, after: u32) -> Option<u32>
        ensures next { IfSome result (λ n. after < n) }
        ensures between { IfSome result (λ n. (m : ℕ) → after < m → m < n → change_of m self.now.changes ≡ None) }
        ensures none { result ≡ None → (m : ℕ) → after < m → change_of m self.now.changes ≡ None }
    {
        let behind = (Bound::Excluded(after), Bound::Unbounded);
        match self.changes.range(behind).next() {
            Some((n, _page)) => Some(*n),
            None => None,
        }
    }

    /// How many of the pages from the first to the last one it has changed.
    pub fn changed_among(&self, first: u32, last: u32) -> usize
        requires { first ≤ last }
        ensures { result ≡ changed_among first last self.now.changes }
    {
        self.changes.range(first..=last).count()
    }

    /// Page n as it was changed, none where it was not.
    pub fn change(&self, n: u32) -> Option<&[u8]>
        ensures value { option_map (λ page. page.now) result ≡ change_of n self.now.changes }
        ensures size { IfSome result (λ page. length page.now ≡ usable self.now.access.profile) }
        ensures long { IfSome result (λ page. 100 ≤ length page.now) }
    {
        let profile = self.key.profile();
        let _usable = profile.usable();
        match self.changes.get(&n) {
            Some(page) => Some(page.bytes()),
            None => None,
        }
    }

    /// Each changed page has the length of a plain page. Nothing is done.
    pub fn sizes(&self)
        ensures { HasPlainPages self.now.access self.now.changes }
    {
        let _changes = &self.changes;
    }

    /// It shares a file of so many pages.
    pub fn share(&mut self, pages: u32)
        ensures { self.new ≡ record self.old { lock = Lock.Shared; pages = pages } }
    {
        self.lock = Lock::Shared;
        self.pages = pages;
    }

    /// It has this lock.
    pub fn set_lock(&mut self, lock: Lock)
        ensures { self.new ≡ record self.old { lock = lock } }
    {
        self.lock = lock;
    }

    /// Page n is this one from now on.
    pub fn change_to(&mut self, n: u32, page: PlainPage) -> Result<(), OutOfMemory>
        requires { length page ≡ usable self.old.access.profile }
        ensures changed { OnOk result (self.new ≡ record self.old { changes = insert_entry nat_cmp self.old.changes n page }) }
        ensures same { OnErr result (self.new ≡ self.old) }
    {
        match self.changes.insert(n, page) {
            Ok(_old) => Ok(()),
            Err(_refused) => Err(OutOfMemory),
        }
    }

    /// Its commit is to seal every page under this key.
    pub fn rekey(&mut self, key: Key)
        ensures { self.new ≡ record self.old { new_access = Some key } }
    {
        self.new_key = Some(key);
    }

    /// It has this lock alone: its changes and its new key are dropped.
    pub fn let_go(&mut self, lock: Lock)
        ensures { self.new ≡ record self.old { lock = lock; changes = []; new_access = None } }
    {
        self.lock = lock;
        self.changes.clear();
        self.new_key = None;
    }
}
