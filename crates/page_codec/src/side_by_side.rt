// The tags of several pages at once.
ghost use Rattle.std.specs.Prelude.{◌≡◌, ℕ, ◌+◌, ◌*◌, ◌^◌, ◌<◌, ◌≤◌, ◌++◌, length, slice_index, slice_index_or, take, false};
ghost use Rattle.std.specs.Int.{w32, to_le_bytes};
ghost use Rattle.std.specs.Str.{bytes_eq};
ghost use Rattle.hmac_core.specs.Hmac.{hmac_of_block};
ghost use Rattle.hash_lanes.specs.Messages.{message, piece};
ghost use Rattle.cipher_profile.specs.Hashes.{digest, digest_len};
ghost use Rattle.page_codec.specs.MacKey.{at_once, mac_key};
ghost use Rattle.page_codec.specs.Page.{accepts, stored_tag};
ghost use Rattle.page_codec.specs.Pages.{AreAnswered, AreEnds, nth_page, run_from};

use crate::codec::{Codec, IV_LEN};
use cipher_profile::HashKind;
use hash_lanes::{EightMacs, FourMacs};
use hmac_core::{HmacKey, PageHash, Sha256Hash};
use number_fields::u32_bytes_low_first;
use std::marker::Model;

/// How many tags of this hash are computed at once: as many as a vector has words of it, or one where the hash has no lanes.
pub(crate) fn at_once(hash: HashKind) -> usize
    ensures value { result ≡ at_once hash }
    ensures some { 0 < result }
    ensures most { result ≤ 8 }
{
    match hash {
        HashKind::Sha1 => 8,
        HashKind::Sha256 => 1,
        HashKind::Sha512 => 4,
    }
}

/// A key that is prepared for several messages, with the hash that it is for.
#[derive(Drop)]
pub(crate) enum Lanes {
    Eight(EightMacs),
    Four(FourMacs),
    One(HmacKey<Sha256Hash>),
}

/// The key of a file's tags, prepared once for several pages at a time.
#[derive(Drop)]
pub(crate) struct SideKey {
    lanes: Lanes,
}

impl Model for SideKey {
    ghost use Rattle.page_codec.specs.MacKey.{MacKey, side_key};

    ghost Value = { MacKey };

    ghost view = { λ k. side_key k.lanes };
}

impl SideKey {
    /// Prepares a key.
    pub(crate) fn new(hash: HashKind, key: &[u8; 32]) -> SideKey
        ensures { result ≡ mac_key hash key.now }
    {
        let lanes = match hash {
            HashKind::Sha1 => Lanes::Eight(EightMacs::new(key)),
            HashKind::Sha256 => Lanes::One(HmacKey::new(key)),
            HashKind::Sha512 => Lanes::Four(FourMacs::new(key)),
        };
        SideKey { lanes }
    }

    /// The HMACs of the first `len` bytes of several pages and of their numbers, which are four bytes each. An HMAC is at the front of 64
    /// bytes.
    pub(crate) fn tags(
        &self,
        pages: &[u8],
        size: usize,
        len: usize,
        numbers: &[u8; 32],
    ) -> [u8; 512]
        requires within { len ≤ size }
        requires pages { size * at_once self.now.hash ≤ length pages.now }
        ensures { (i : ℕ) → i < at_once self.now.hash → take (digest_len self.now.hash) (piece result 64 64 i)
            ≡ hmac_of_block (digest self.now.hash) self.now.block (message pages.now size len numbers.now 4 i) }
    {
        match &self.lanes {
            Lanes::Eight(macs) => apart(&macs.tags(pages, size, len, numbers, 4), 20, 8),
            Lanes::Four(macs) => apart(&macs.tags(pages, size, len, numbers, 4), 64, 4),
            Lanes::One(key) => alone(key, &pages[..len], &numbers[..4]),
        }
    }
}

// The HMAC of the two parts of a message, at the front of 64 bytes.
fn alone<H: PageHash>(key: &HmacKey<H>, covered: &[u8], number: &[u8]) -> [u8; 512]
    requires { H.OUT ≤ 64 }
    ensures { take H.OUT result ≡ hmac_of_block H.hash key.now (covered.now ++ number.now) }
{
    let mut mac = key.start();
    mac.update(covered);
    mac.update(number);
    let mut tag = [0u8; 512];
    mac.finish(&mut tag[..H::OUT]);
    tag
}

// So many tags of `len` bytes, each at the front of 64 bytes.
fn apart(tags: &[u8], len: usize, count: usize) -> [u8; 512]
    requires short { len ≤ 64 }
    requires most { count ≤ 8 }
    requires size { len * count ≤ length tags.now }
    ensures { (i : ℕ) → i < count → take len (piece result 64 64 i) ≡ piece tags.now len len i }
{
    let mut out = [0u8; 512];
    'tags: for i in 0..count {
        out[64 * i..64 * i + len].copy_from_slice(&tags[len * i..len * i + len]);
    }
    out
}

// The numbers of so many pages from page n on, each as four bytes, the lowest first.
fn numbers_from(n: u32, count: usize) -> [u8; 32]
    requires most { count ≤ 8 }
    requires numbers { n + count ≤ 2 ^ 32 }
    ensures { (i : ℕ) → i < count → piece result 4 4 i ≡ to_le_bytes w32 (n + i) }
{
    let mut out = [0u8; 32];
    'numbers: for i in 0..count {
        out[4 * i..4 * i + 4].copy_from_slice(&u32_bytes_low_first(n + i as u32));
    }
    out
}

/// So many of these numbers, from this one on, as four bytes each, the lowest first.
pub(crate) fn numbers_at(numbers: &[u32], at: usize, count: usize) -> [u8; 32]
    requires most { count ≤ 8 }
    requires within { at + count ≤ length numbers.now }
    ensures { (i : ℕ) → i < count → piece result 4 4 i ≡ to_le_bytes w32 (slice_index numbers.now (at + i)) }
{
    let mut out = [0u8; 32];
    'numbers: for i in 0..count {
        out[4 * i..4 * i + 4].copy_from_slice(&u32_bytes_low_first(numbers[at + i]));
    }
    out
}

impl Codec {
    /// Whether the tags of these stored pages, which stand one after another, are those of pages `first`, `first + 1` and so on,
    /// numbered from 1: for a reader that goes over a file's pages in order, since tags are computed several at a time.
    /// `held` has one place for each page (SQLCipher design, "Page Authentication").
    pub fn tags_hold(&self, first: u32, pages: &[u8], held: &mut [bool])
        requires number { 1 ≤ first }
        requires numbers { first + length held.old ≤ 2 ^ 32 }
        requires size { length pages.now ≡ self.now.profile.page_size * length held.old }
        requires tagged { 0 < self.now.profile.tag_len }
        ensures count { length held.new ≡ length held.old }
        ensures value { (i : ℕ) → i < length held.old → slice_index_or held.new i false
            ≡ accepts self.now (first + i) (nth_page self.now.profile.page_size pages.now i) }
    {
        let done = self.many_hold(first, pages, held);
        self.each_holds(first, done, held.len(), pages, held);
    }

    // The same of as many of the first pages as are taken several at a time, which the answer counts.
    fn many_hold(&self, first: u32, pages: &[u8], held: &mut [bool]) -> usize
        requires number { 1 ≤ first }
        requires numbers { first + length held.old ≤ 2 ^ 32 }
        requires size { length pages.now ≡ self.now.profile.page_size * length held.old }
        requires tagged { 0 < self.now.profile.tag_len }
        ensures within { result ≤ length held.old }
        ensures answered { AreAnswered self.now (run_from first) pages.now 0 result held.old held.new }
    {
        let count = at_once(self.profile.hash);
        if held.len() < count {
            return 0;
        }
        let mut done = 0;
        'batches: while held.len() - done >= count {
            self.batch_holds(&self.side, first, done, pages, held);
            done += count;
        }
        done
    }

    // The same of as many pages as are taken at once, from this one on, counted from 0. The message of page 1 is shorter than the others.
    fn batch_holds(&self, key: &SideKey, first: u32, at: usize, pages: &[u8], held: &mut [bool])
        requires number { 1 ≤ first }
        requires numbers { first + length held.old ≤ 2 ^ 32 }
        requires size { length pages.now ≡ self.now.profile.page_size * length held.old }
        requires tagged { 0 < self.now.profile.tag_len }
        requires within { at + at_once self.now.profile.hash ≤ length held.old }
        requires key { key.now ≡ mac_key self.now.profile.hash self.now.keys.mac }
        ensures { AreAnswered self.now (run_from first) pages.now at (at + at_once self.now.profile.hash) held.old held.new }
    {
        let count = at_once(self.profile.hash);
        if first as usize + at > 1 {
            let ends = numbers_from(first + at as u32, count);
            self.later_hold(key, &ends, at, pages, held);
        } else {
            self.each_holds(first, at, at + count, pages, held);
        }
    }

    /// The same where these are their numbers, whichever they are but 1, as four bytes each, the lowest first.
    pub(crate) fn later_hold(
        &self,
        key: &SideKey,
        ends: &[u8; 32],
        at: usize,
        pages: &[u8],
        held: &mut [bool],
    )
        requires size { length pages.now ≡ self.now.profile.page_size * length held.old }
        requires tagged { 0 < self.now.profile.tag_len }
        requires within { at + at_once self.now.profile.hash ≤ length held.old }
        requires key { key.now ≡ mac_key self.now.profile.hash self.now.keys.mac }
        ensures { (number : ℕ → ℕ) → AreEnds number at (at_once self.now.profile.hash) ends.now
            → AreAnswered self.now number pages.now at (at + at_once self.now.profile.hash) held.old held.new }
    {
        let count = at_once(self.profile.hash);
        let size = self.profile.page_size as usize;
        let tag_at = self.profile.usable() + IV_LEN;
        let tags = key.tags(&pages[size * at..], size, tag_at, ends);
        'pages: for j in 0..count {
            let i = at + j;
            held[i] = self.bears(
                &pages[size * i..size * i + size],
                &tags[64 * j..64 * j + 64],
            );
        }
    }

    // The same of pages `from` to `to - 1`, counted from 0, one after another.
    fn each_holds(&self, first: u32, from: usize, to: usize, pages: &[u8], held: &mut [bool])
        requires number { 1 ≤ first }
        requires numbers { first + length held.old ≤ 2 ^ 32 }
        requires size { length pages.now ≡ self.now.profile.page_size * length held.old }
        requires tagged { 0 < self.now.profile.tag_len }
        requires order { from ≤ to }
        requires within { to ≤ length held.old }
        ensures { AreAnswered self.now (run_from first) pages.now from to held.old held.new }
    {
        let _usable = self.profile.usable();
        let size = self.profile.page_size as usize;
        'pages: for i in from..to {
            held[i] = self.tag_holds(first + i as u32, &pages[size * i..size * i + size]);
        }
    }

    // Whether the first of these bytes, as many as a tag has, stand in the tag's place of this stored page.
    fn bears(&self, stored: &[u8], tag: &[u8]) -> bool
        requires size { length stored.now ≡ self.now.profile.page_size }
        requires tag { length tag.now ≡ 64 }
        requires tagged { 0 < self.now.profile.tag_len }
        ensures { result ≡ bytes_eq (stored_tag self.now.profile stored.now) (take self.now.profile.tag_len tag.now) }
    {
        let tag_at = self.profile.usable() + IV_LEN;
        let tag_len = self.profile.tag_len as usize;
        stored[tag_at..tag_at + tag_len] == tag[..tag_len]
    }
}
