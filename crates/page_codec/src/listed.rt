// Opening several pages at once, by their numbers.
ghost use Rattle.std.specs.Prelude.{◌≡◌, ℕ, ◌+◌, ◌*◌, ◌<◌, ◌≤◌, All, length, slice_index, slice_index_or, false};
ghost use Rattle.page_codec.specs.Page.{accepts};
ghost use Rattle.page_codec.specs.Pages.{AreAnswered, IsOpenedIf, listed, nth_page};

use crate::codec::Codec;
use crate::laws::no_tag_law;
use crate::side_by_side::{at_once, numbers_at};

impl Codec {
    /// Opens stored pages of these numbers, none of them page 1, which stand one after another, each where it stands, as `open_in_place` does:
    /// `held` has one place for each page and says whether its tag is right, and a page whose tag is not right stays as it is. It is for a
    /// reader that knows which pages come next, since tags are computed several at a time.
    pub fn open_pages(&self, numbers: &[u32], pages: &mut [u8], held: &mut [bool])
        requires numbers { All (λ n. 2 ≤ n) numbers.now }
        requires many { length held.old ≡ length numbers.now }
        requires size { length pages.old ≡ self.now.profile.page_size * length numbers.now }
        ensures count { length held.new ≡ length held.old }
        ensures size { length pages.new ≡ length pages.old }
        ensures accepted { (i : ℕ) → i < length numbers.now → slice_index_or held.new i false
            ≡ accepts self.now (slice_index numbers.now i) (nth_page self.now.profile.page_size pages.old i) }
        ensures opened { (i : ℕ) → i < length numbers.now → IsOpenedIf self.now (slice_index numbers.now i) (slice_index_or held.new i false)
            (nth_page self.now.profile.page_size pages.old i) (nth_page self.now.profile.page_size pages.new i) }
    {
        if self.profile.tag_len > 0 {
            self.listed_hold(numbers, pages, held);
        } else {
            self.take_each(numbers, pages, held);
        }
        self.open_held(numbers, pages, held);
    }

    // Whether the tags of these pages are right.
    fn listed_hold(&self, numbers: &[u32], pages: &[u8], held: &mut [bool])
        requires numbers { All (λ n. 2 ≤ n) numbers.now }
        requires many { length held.old ≡ length numbers.now }
        requires size { length pages.now ≡ self.now.profile.page_size * length numbers.now }
        requires tagged { 0 < self.now.profile.tag_len }
        ensures { AreAnswered self.now (listed numbers.now) pages.now 0 (length numbers.now) held.old held.new }
    {
        let done = self.batches_hold(numbers, pages, held);
        let _usable = self.profile.usable();
        let size = self.profile.page_size as usize;
        'rest: for i in done..numbers.len() {
            held[i] = self.tag_holds(numbers[i], &pages[size * i..size * i + size]);
        }
    }

    // The same of as many of the first pages as are taken several at a time, which the answer counts.
    fn batches_hold(&self, numbers: &[u32], pages: &[u8], held: &mut [bool]) -> usize
        requires numbers { All (λ n. 2 ≤ n) numbers.now }
        requires many { length held.old ≡ length numbers.now }
        requires size { length pages.now ≡ self.now.profile.page_size * length numbers.now }
        requires tagged { 0 < self.now.profile.tag_len }
        ensures within { result ≤ length numbers.now }
        ensures answered { AreAnswered self.now (listed numbers.now) pages.now 0 result held.old held.new }
    {
        let count = at_once(self.profile.hash);
        if numbers.len() < count {
            return 0;
        }
        let mut done = 0;
        'batches: while numbers.len() - done >= count {
            let ends = numbers_at(numbers, done, count);
            self.later_hold(&self.side, &ends, done, pages, held);
            done += count;
        }
        done
    }

    // The same of a file without tags.
    fn take_each(&self, numbers: &[u32], pages: &[u8], held: &mut [bool])
        requires untagged { self.now.profile.tag_len ≡ 0 }
        requires many { length held.old ≡ length numbers.now }
        ensures { AreAnswered self.now (listed numbers.now) pages.now 0 (length numbers.now) held.old held.new }
    {
        no_tag_law();
        'pages: for i in 0..numbers.len() {
            held[i] = true;
        }
    }

    // Opens those of these pages that are accepted.
    fn open_held(&self, numbers: &[u32], pages: &mut [u8], held: &[bool])
        requires many { length held.now ≡ length numbers.now }
        requires size { length pages.old ≡ self.now.profile.page_size * length numbers.now }
        ensures size { length pages.new ≡ length pages.old }
        ensures opened { (i : ℕ) → i < length numbers.now → IsOpenedIf self.now (slice_index numbers.now i) (slice_index_or held.now i false)
            (nth_page self.now.profile.page_size pages.old i) (nth_page self.now.profile.page_size pages.new i) }
    {
        let _usable = self.profile.usable();
        let size = self.profile.page_size as usize;
        'pages: for i in 0..numbers.len() {
            self.open_if(held[i], numbers[i], &mut pages[size * i..size * i + size]);
        }
    }
}
