// Pages that are held back, to be sealed side by side.
ghost use Rattle.std.specs.Prelude.{◌≡◌, ◌==◌, ◌≤◌, ◌<◌, ◌+◌, ◌-◌, ◌*◌, ◌++◌, ℕ, All, length, slice_index, IsTrue, IfOk, OnOk, OnErr, Err};
ghost use Rattle.cipher_profile.specs.Profile.{usable};
ghost use Rattle.edge_model.specs.Causes.{Rose};
ghost use Rattle.page_codec.specs.Pages.{nth_page};
ghost use Rattle.fresh_file.specs.Held.{IsCutShort, IsSealedAs, with_pages};

use crate::sealing::write_to;
use atomic_commit::CommitFault;
use db_format::OutOfMemory;
use fresh_disk::Side;
use page_codec::Codec;
use std::alloc::Global;

// So many pages are held at most, which are sealed side by side.
const MOST: usize = 64;

// And so many bytes of them: 16 of the largest pages.
const MOST_BYTES: usize = 1 << 20;

// Fewer, as at the end of a file, take as long one by one.
const FEWEST: usize = 30;

/// Held pages, in the order in which they were put: a number for each, and its content with its drawn bytes behind it. All memory is taken by `new`.
#[derive(Drop)]
pub(crate) struct HeldPages {
    // the length of a page
    pub(crate) size: u32,
    // how many are held at most
    pub(crate) most: usize,
    pub(crate) count: usize,
    // those past the first `count` are no pages
    pub(crate) numbers: Vec<u32>,
    pub(crate) room: Vec<u8>,
    // room for the stored pages
    pub(crate) stored: Vec<u8>,
    ghost within: { count ≤ most },
    ghost few: { (1 ≤ most) × (most ≤ 64) },
    ghost numbers_size: { length numbers.items ≡ most },
    ghost room_size: { length room.items ≡ size * most },
    ghost stored_size: { length stored.items ≡ size * most },
    ghost above_one: { All (λ n. 2 ≤ n) numbers.items },
}

impl HeldPages {
    ghost use Rattle.fresh_file.specs.Added.{IsAdded};

    /// No page, with room for pages of this length.
    pub(crate) fn new(alloc: Global, size: u32) -> Result<HeldPages, OutOfMemory>
        requires { (512 ≤ size) × (size ≤ 65536) }
        ensures none { IfOk result (λ held. held.count ≡ 0) }
        ensures size { IfOk result (λ held. held.size ≡ size) }
    {
        let most = held_at_most(size);
        let numbers = twos(alloc, most)?;
        let room = zeros(alloc, size as usize * most)?;
        let stored = zeros(alloc, size as usize * most)?;
        Ok(HeldPages {
            size,
            most,
            count: 0,
            numbers,
            room,
            stored,
        })
    }

    /// Whether there is no room for one more.
    pub(crate) fn is_full(&self) -> bool
        ensures { result ≡ (self.now.count == self.now.most) }
    {
        self.count == self.most
    }

    /// Holds page n too, with the bytes that were drawn for it.
    pub(crate) fn add(&mut self, n: u32, plain: &[u8], draw: &[u8])
        requires number { 2 ≤ n }
        requires room { self.old.count < self.old.most }
        requires size { length plain.now + length draw.now ≡ self.old.size }
        ensures added { IsAdded self.old self.new n (plain.now ++ draw.now) }
    {
        self.numbers[self.count] = n;
        lay(&mut self.room, self.count, plain, draw);
        self.count += 1;
    }

    /// Seals each.
    pub(crate) fn seal(&mut self, codec: &Codec)
        requires size { codec.now.profile.page_size ≡ self.old.size }
        ensures sealed { (k : ℕ) → k < self.old.count → IsSealedAs codec.now (slice_index self.old.numbers.items k)
            (nth_page codec.now.profile.page_size self.old.room.items k) (nth_page codec.now.profile.page_size self.new.stored.items k) }
        ensures same { (self.new.size ≡ self.old.size) × (self.new.count ≡ self.old.count) }
        ensures held { (self.new.numbers.items ≡ self.old.numbers.items) × (self.new.room.items ≡ self.old.room.items) }
    {
        if self.count == self.most && self.most >= FEWEST {
            seal_all(codec, &self.numbers, &self.room, &mut self.stored);
        } else {
            seal_each(
                codec,
                &self.numbers,
                self.count,
                &self.room,
                &mut self.stored,
            );
        }
    }

    /// Writes each stored page to the place of its number.
    pub(crate) fn write<T: Side>(&self, side: &mut T) -> Result<(), CommitFault>
        ensures done { OnOk result (IsTrue T.tells → T.fresh side.new
            ≡ with_pages self.now.size self.now.numbers.items (λ k. nth_page self.now.size self.now.stored.items k) self.now.count (T.fresh side.old)) }
        ensures torn { OnErr result (IsTrue T.tells
            → IsCutShort self.now.size self.now.numbers.items (λ k. nth_page self.now.size self.now.stored.items k) self.now.count (T.fresh side.old) (T.fresh side.new)) }
        ensures drawn { T.drawn side.new ≡ T.drawn side.old }
        ensures kept { T.only_fresh side.old side.new }
        ensures draws_later { T.draw_faults side.new ≡ T.draw_faults side.old }
        ensures disk_later { T.disk_faults side.old ≤ T.disk_faults side.new }
        ensures fault { OnErr result (Rose (T.disk_faults side.old) (T.disk_faults side.new)) }
        ensures error { OnErr result (result ≡ Err CommitFault.DiskFault) }
    {
        'writing: for k in 0..self.count {
            write_to(side, self.place(k), self.stored_page(k))?;
        }
        Ok(())
    }

    // Where the held page at this place of the list is written.
    fn place(&self, k: usize) -> u64
        requires { k < self.now.count }
        ensures { result ≡ (slice_index self.now.numbers.items k - 1) * self.now.size }
    {
        (self.numbers[k] as u64 - 1) * self.size as u64
    }

    // Its stored page.
    fn stored_page(&self, k: usize) -> &[u8]
        requires { k < self.now.count }
        ensures value { result.now ≡ nth_page self.now.size self.now.stored.items k }
        ensures size { length result.now ≡ self.now.size }
    {
        let size = self.size as usize;
        &self.stored[size * k..size * k + size]
    }
}

// How many pages of this length are held at most.
fn held_at_most(size: u32) -> usize
    requires { (512 ≤ size) × (size ≤ 65536) }
    ensures some { 1 ≤ result }
    ensures few { result ≤ 64 }
    ensures bounded { result * size ≤ 1048576 }
{
    MOST.min(MOST_BYTES / size as usize)
}

// So many numbers of no pages.
fn twos(alloc: Global, count: usize) -> Result<Vec<u32>, OutOfMemory>
    ensures length { IfOk result (λ numbers. length numbers.items ≡ count) }
    ensures above_one { IfOk result (λ numbers. All (λ n. 2 ≤ n) numbers.items) }
{
    match vec![in alloc; 2u32; count] {
        Ok(numbers) => Ok(numbers),
        Err(_) => Err(OutOfMemory),
    }
}

/// So many zeros.
pub(crate) fn zeros(alloc: Global, len: usize) -> Result<Vec<u8>, OutOfMemory>
    ensures { IfOk result (λ bytes. length bytes.items ≡ len) }
{
    match vec![in alloc; 0u8; len] {
        Ok(bytes) => Ok(bytes),
        Err(_) => Err(OutOfMemory),
    }
}

// Page k of these is this plain page, with its drawn bytes behind it.
fn lay(pages: &mut [u8], k: usize, plain: &[u8], draw: &[u8])
    requires room { (length plain.now + length draw.now) * k + (length plain.now + length draw.now) ≤ length pages.old }
    ensures here { nth_page (length plain.now + length draw.now) pages.new k ≡ plain.now ++ draw.now }
    ensures earlier { (j : ℕ) → j < k → nth_page (length plain.now + length draw.now) pages.new j ≡ nth_page (length plain.now + length draw.now) pages.old j }
    ensures size { length pages.new ≡ length pages.old }
{
    let size = plain.len() + draw.len();
    lay_page(plain, draw, &mut pages[size * k..size * k + size]);
}

// A plain page, and its drawn bytes behind it.
fn lay_page(plain: &[u8], draw: &[u8], page: &mut [u8])
    requires { length page.old ≡ length plain.now + length draw.now }
    ensures { page.new ≡ plain.now ++ draw.now }
{
    let (content, reserve) = page.split_at_mut(plain.len());
    content.copy_from_slice(plain);
    reserve.copy_from_slice(draw);
}

// Seals as many pages as there are numbers, side by side.
fn seal_all(codec: &Codec, numbers: &[u32], room: &[u8], stored: &mut [u8])
    requires numbers { All (λ n. 2 ≤ n) numbers.now }
    requires most { length numbers.now ≤ 64 }
    requires room { length room.now ≡ codec.now.profile.page_size * length numbers.now }
    requires size { length stored.old ≡ length room.now }
    ensures sealed { (k : ℕ) → k < length numbers.now → IsSealedAs codec.now (slice_index numbers.now k)
        (nth_page codec.now.profile.page_size room.now k) (nth_page codec.now.profile.page_size stored.new k) }
    ensures size { length stored.new ≡ length stored.old }
{
    let _usable = codec.profile().usable();
    stored.copy_from_slice(room);
    codec.seal_pages(numbers, stored);
}

// Seals the first so many pages, one after another.
fn seal_each(codec: &Codec, numbers: &[u32], count: usize, room: &[u8], stored: &mut [u8])
    requires numbers { All (λ n. 2 ≤ n) numbers.now }
    requires count { count ≤ length numbers.now }
    requires room { length room.now ≡ codec.now.profile.page_size * length numbers.now }
    requires size { length stored.old ≡ length room.now }
    ensures sealed { (k : ℕ) → k < count → IsSealedAs codec.now (slice_index numbers.now k)
        (nth_page codec.now.profile.page_size room.now k) (nth_page codec.now.profile.page_size stored.new k) }
    ensures size { length stored.new ≡ length stored.old }
{
    let size = codec.profile().page_size as usize;
    'sealing: for k in 0..count {
        seal_one(
            codec,
            numbers[k],
            &room[size * k..size * k + size],
            &mut stored[size * k..size * k + size],
        );
    }
}

// Seals a plain page with its drawn bytes behind it.
fn seal_one(codec: &Codec, n: u32, page: &[u8], stored: &mut [u8])
    requires number { 2 ≤ n }
    requires page { length page.now ≡ codec.now.profile.page_size }
    requires size { length stored.old ≡ codec.now.profile.page_size }
    ensures sealed { IsSealedAs codec.now n page.now stored.new }
    ensures size { length stored.new ≡ codec.now.profile.page_size }
{
    let (plain, draw) = page.split_at(codec.profile().usable());
    codec.seal_page(n, plain, draw, stored);
}
