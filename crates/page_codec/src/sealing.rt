// Sealing a plain page, or several side by side.
ghost use Rattle.std.specs.Prelude.{◌≡◌, ℕ, ◌+◌, ◌*◌, ◌<◌, ◌≤◌, ◌++◌, All, false, length, slice_index, take, drop, IsTrue};
ghost use Rattle.cipher_profile.specs.Profile.{is_plain, usable};
ghost use Rattle.page_codec.specs.MacKey.{at_once, mac_key};
ghost use Rattle.page_codec.specs.Page.{accepts, cipher_start, deciphered, enciphered, magic, opened, plain_head, sealed, stored_head, tag, untagged, with_tag};
ghost use Rattle.page_codec.specs.Pages.{AreTagged, IsTagged, nth_page, sealed_page};

use crate::codec::{Codec, IV_LEN};
use crate::laws::key_law;
use crate::opening::begin_with;
use crate::side_by_side::{SideKey, at_once, numbers_at};
use cbc_mode::{cbc_encrypt, cbc_encrypt_records, cbc_round_trip_law};

impl Codec {
    /// Seals a plain page as page n, numbered from 1. The drawn bytes fill the reserve, and must serve no other page. A page of a plain file
    /// is copied.
    #[tactic(auto, unfolding(crate::specs::Page::opened, crate::specs::Page::sealed))]
    pub fn seal_page(&self, n: u32, plain: &[u8], draw: &[u8], stored: &mut [u8])
        requires number { 1 ≤ n }
        requires plain_size { length plain.now ≡ usable self.now.profile }
        requires draw_size { length draw.now ≡ self.now.profile.reserve }
        requires stored_size { length stored.old ≡ self.now.profile.page_size }
        requires magic { n ≡ 1 → is_plain self.now.profile ≡ false → take 16 plain.now ≡ magic }
        ensures value { stored.new ≡ sealed self.now n plain.now draw.now }
        ensures accepted { IsTrue (accepts self.now n stored.new) }
        ensures opens_to { opened self.now n stored.new ≡ plain.now }
    {
        if self.profile.is_plain() {
            let _usable = self.profile.usable();
            stored.copy_from_slice(plain);
        } else {
            self.encipher_page(n, plain, draw, stored);
        }
    }

    // The same in an encrypted file.
    fn encipher_page(&self, n: u32, plain: &[u8], draw: &[u8], stored: &mut [u8])
        requires number { 1 ≤ n }
        requires plain_size { length plain.now ≡ usable self.now.profile }
        requires draw_size { length draw.now ≡ self.now.profile.reserve }
        requires stored_size { length stored.old ≡ self.now.profile.page_size }
        requires ciphered { is_plain self.now.profile ≡ false }
        requires magic { n ≡ 1 → take 16 plain.now ≡ magic }
        ensures value { stored.new ≡ enciphered self.now n plain.now draw.now }
        ensures accepted { IsTrue (accepts self.now n stored.new) }
        ensures opens_to { deciphered self.now n stored.new ≡ plain.now }
    {
        self.encipher(n, plain, draw, stored);
        self.put_tag(n, stored);
    }

    /// Seals at most 64 plain pages side by side as pages of these numbers, none of them page 1. Each stands where its stored page
    /// will be, and its drawn bytes behind it, in the reserve; they must serve no other page. Few pages take as long as 64. Pages of a plain
    /// file stay as they are.
    pub fn seal_pages(&self, numbers: &[u32], pages: &mut [u8])
        requires numbers { All (λ n. 2 ≤ n) numbers.now }
        requires most { length numbers.now ≤ 64 }
        requires size { length pages.old ≡ self.now.profile.page_size * length numbers.now }
        ensures size { length pages.new ≡ length pages.old }
        ensures value { (i : ℕ) → i < length numbers.now → nth_page self.now.profile.page_size pages.new i
            ≡ sealed_page self.now (slice_index numbers.now i) (nth_page self.now.profile.page_size pages.old i) }
        ensures accepted { (i : ℕ) → i < length numbers.now
            → IsTrue (accepts self.now (slice_index numbers.now i) (nth_page self.now.profile.page_size pages.new i)) }
        ensures opens_to { (i : ℕ) → i < length numbers.now
            → opened self.now (slice_index numbers.now i) (nth_page self.now.profile.page_size pages.new i)
            ≡ take (usable self.now.profile) (nth_page self.now.profile.page_size pages.old i) }
    {
        if self.profile.is_plain() {
            return;
        }
        self.encipher_pages(numbers.len(), pages);
        self.put_tags(numbers, pages);
    }

    // The pages without their tags, whatever their numbers from 2 on are.
    fn encipher_pages(&self, count: usize, pages: &mut [u8])
        requires most { count ≤ 64 }
        requires size { length pages.old ≡ self.now.profile.page_size * count }
        requires ciphered { is_plain self.now.profile ≡ false }
        ensures size { length pages.new ≡ length pages.old }
        ensures value { (i n : ℕ) → i < count → 2 ≤ n → nth_page self.now.profile.page_size pages.new i
            ≡ untagged self.now n (take (usable self.now.profile) (nth_page self.now.profile.page_size pages.old i))
            (drop (usable self.now.profile) (nth_page self.now.profile.page_size pages.old i)) }
        ensures opens_to { (i n : ℕ) → i < count → 2 ≤ n → deciphered self.now n (nth_page self.now.profile.page_size pages.new i)
            ≡ take (usable self.now.profile) (nth_page self.now.profile.page_size pages.old i) }
    {
        key_law(&self.keys.enc);
        cbc_round_trip_law();
        let text = self.profile.usable() / 16;
        let stride = self.profile.page_size as usize / 16;
        cbc_encrypt_records(&self.cipher, text, stride, count, pages);
    }

    // Writes each page's tag over its place.
    fn put_tags(&self, numbers: &[u32], pages: &mut [u8])
        requires numbers { All (λ n. 2 ≤ n) numbers.now }
        requires size { length pages.old ≡ self.now.profile.page_size * length numbers.now }
        requires ciphered { is_plain self.now.profile ≡ false }
        ensures size { length pages.new ≡ length pages.old }
        ensures pages { (i : ℕ) → i < length numbers.now → IsTagged self.now (slice_index numbers.now i)
            (nth_page self.now.profile.page_size pages.old i) (nth_page self.now.profile.page_size pages.new i) }
    {
        let done = self.put_many(numbers, pages);
        let _usable = self.profile.usable();
        let size = self.profile.page_size as usize;
        'rest: for i in done..numbers.len() {
            self.put_tag(numbers[i], &mut pages[size * i..size * i + size]);
        }
    }

    // The same for as many of the first pages as are taken several at a time, which the answer counts.
    fn put_many(&self, numbers: &[u32], pages: &mut [u8]) -> usize
        requires numbers { All (λ n. 2 ≤ n) numbers.now }
        requires size { length pages.old ≡ self.now.profile.page_size * length numbers.now }
        requires ciphered { is_plain self.now.profile ≡ false }
        ensures within { result ≤ length numbers.now }
        ensures tagged { AreTagged self.now numbers.now 0 result pages.old pages.new }
    {
        let count = at_once(self.profile.hash);
        if self.profile.tag_len == 0 || numbers.len() < count {
            return 0;
        }
        let mut done = 0;
        'batches: while numbers.len() - done >= count {
            self.put_batch(&self.side, done, numbers, pages);
            done += count;
        }
        done
    }

    // Writes the tags of as many pages as are taken at once, from this one on, counted from 0, over their places.
    fn put_batch(&self, key: &SideKey, at: usize, numbers: &[u32], pages: &mut [u8])
        requires numbers { All (λ n. 2 ≤ n) numbers.now }
        requires size { length pages.old ≡ self.now.profile.page_size * length numbers.now }
        requires ciphered { is_plain self.now.profile ≡ false }
        requires within { at + at_once self.now.profile.hash ≤ length numbers.now }
        requires key { key.now ≡ mac_key self.now.profile.hash self.now.keys.mac }
        ensures { AreTagged self.now numbers.now at (at + at_once self.now.profile.hash) pages.old pages.new }
    {
        let count = at_once(self.profile.hash);
        let size = self.profile.page_size as usize;
        let tag_at = self.profile.usable() + IV_LEN;
        let ends = numbers_at(numbers, at, count);
        let tags = key.tags(&pages[size * at..], size, tag_at, &ends);
        'pages: for j in 0..count {
            let i = at + j;
            self.place_tag(
                numbers[i],
                &tags[64 * j..64 * j + 64],
                &mut pages[size * i..size * i + size],
            );
        }
    }

    // The page without its tag.
    #[tactic(auto, unfolding(crate::specs::Page::untagged))]
    fn encipher(&self, n: u32, plain: &[u8], draw: &[u8], stored: &mut [u8])
        requires plain_size { length plain.now ≡ usable self.now.profile }
        requires draw_size { length draw.now ≡ self.now.profile.reserve }
        requires stored_size { length stored.old ≡ self.now.profile.page_size }
        requires ciphered { is_plain self.now.profile ≡ false }
        ensures value { stored.new ≡ untagged self.now n plain.now draw.now }
        ensures opens_to { deciphered self.now n stored.new
            ≡ plain_head self.now.profile n plain.now ++ drop (cipher_start self.now.profile n) plain.now }
    {
        let start = self.cipher_start(n);
        let usable = self.profile.usable();
        let mut iv = [0u8; IV_LEN];
        iv.copy_from_slice(&draw[..IV_LEN]);
        let (content, reserve) = stored.split_at_mut(usable);
        let (head, text) = content.split_at_mut(start);
        self.put_head(n, plain, head);
        text.copy_from_slice(&plain[start..]);
        cbc_encrypt(&self.cipher, &iv, text);
        reserve.copy_from_slice(draw);
    }

    // What is stored before the ciphertext of page n: on page 1 the salt, or the plain header.
    fn put_head(&self, n: u32, plain: &[u8], head: &mut [u8])
        requires plain_size { length plain.now ≡ usable self.now.profile }
        requires head_size { length head.old ≡ cipher_start self.now.profile n }
        ensures value { head.new ≡ stored_head self.now n plain.now }
        ensures salt { length self.now.salt ≡ 16 }
    {
        let start = self.cipher_start(n);
        head.copy_from_slice(&plain[..start]);
        begin_with(n, &self.salt, head);
    }

    // Writes the page's tag over its place.
    fn put_tag(&self, n: u32, stored: &mut [u8])
        requires size { length stored.old ≡ self.now.profile.page_size }
        requires ciphered { is_plain self.now.profile ≡ false }
        ensures value { stored.new ≡ with_tag self.now.profile (tag self.now n stored.old) stored.old }
        ensures accepted { IsTrue (accepts self.now n stored.new) }
        ensures opens_as_before { deciphered self.now n stored.new ≡ deciphered self.now n stored.old }
    {
        if self.profile.tag_len > 0 {
            let mac = self.tag(n, stored);
            self.place_tag(n, &mac, stored);
        }
    }

    // The same where the tag is known: these bytes begin with it.
    fn place_tag(&self, n: u32, mac: &[u8], stored: &mut [u8])
        requires size { length stored.old ≡ self.now.profile.page_size }
        requires mac_size { length mac.now ≡ 64 }
        requires ciphered { is_plain self.now.profile ≡ false }
        requires tag { take self.now.profile.tag_len mac.now ≡ tag self.now n stored.old }
        ensures value { stored.new ≡ with_tag self.now.profile (tag self.now n stored.old) stored.old }
        ensures accepted { IsTrue (accepts self.now n stored.new) }
        ensures opens_as_before { deciphered self.now n stored.new ≡ deciphered self.now n stored.old }
    {
        let tag_at = self.profile.usable() + IV_LEN;
        let tag_len = self.profile.tag_len as usize;
        stored[tag_at..tag_at + tag_len].copy_from_slice(&mac[..tag_len]);
    }
}
