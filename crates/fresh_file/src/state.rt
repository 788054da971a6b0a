// A new file while it is written: which pages were put, and which of them are held back.
ghost use Rattle.std.specs.Prelude.{◌≡◌, ◌==◌, ◌+◌, ◌≤◌, ◌<◌, ◌^◌, ◌*◌, ◌/◌, ℕ, [], ◌∷◌, Some, IsTrue, IfOk, OnOk, OnErr, length, true, false, Err};
ghost use Rattle.cipher_profile.specs.Profile.{IsListed, usable};
ghost use Rattle.edge_model.specs.Causes.{Rose};
ghost use Rattle.db_format.specs.Pages.{IsUsable, also, nothing};
ghost use Rattle.db_format.specs.Seen.{marked};
ghost use Rattle.fresh_file.specs.Fresh.{IsWell};

use crate::fresh_out::FreshOut;
use crate::held::{HeldPages, zeros};
use crate::sealing::draw_for;
use atomic_commit::CommitFault;
use bulk_load::OutError;
use cipher_profile::Profile;
use db_format::{LARGEST_DATABASE, OutOfMemory, Seen};
use fresh_disk::Side;
use page_codec::Codec;
use std::alloc::Global;

/// Why a new file was not begun.
#[derive(Clone, Copy, Debug, PartialEq, Eq)]
pub enum StartError {
    /// The disk failed.
    DiskFault,
    /// Memory ran out.
    OutOfMemory,
}

/// The pages of a new file: which of them were put, those that are held back, to be sealed side by side, and page 1, which is held back for
/// its header. It takes all its memory at `start`: that for the held pages twice and for two more, and a mark for each page that there may be.
#[derive(Drop)]
pub struct FreshState {
    pub(crate) codec: Codec,
    // the numbers that were put, but for 1
    pub(crate) put: Seen,
    pub(crate) has_first: bool,
    // how many numbers were taken, from 2 on
    pub(crate) taken: u32,
    // how many pages there may be
    pub(crate) limit: u32,
    // page 1
    pub(crate) first: Vec<u8>,
    // room for the bytes that are drawn for a page, and for a stored page
    pub(crate) draw: Vec<u8>,
    pub(crate) stored: Vec<u8>,
    // pages that were put and are not in the file yet
    pub(crate) held: HeldPages,
    ghost first_size: { length first.items ≡ usable codec.profile },
    ghost lendable: { IsUsable (usable codec.profile) },
    ghost draw_size: { length draw.items ≡ codec.profile.reserve },
    ghost stored_size: { length stored.items ≡ codec.profile.page_size },
    ghost held_size: { held.size ≡ codec.profile.page_size },
    ghost put_size: { length put ≡ limit + 1 },
    ghost counted: { 1 ≤ taken + 1 },
    ghost within: { taken + 1 ≤ limit },
    ghost put_taken: { (n : ℕ) → marked put n ≡ true → n ≤ taken + 1 },
    ghost limit_small: { limit ≤ 2 ^ 21 },
}

impl FreshState {
    ghost use Rattle.fresh_file.specs.State.{IsWellAs, fresh_pages};

    /// A new Fresh without a page. One that an earlier stop left is removed first.
    pub fn start<T: Side>(
        alloc: Global,
        side: &mut T,
        codec: Codec,
    ) -> Result<FreshState, StartError>
        ensures codec { IfOk result (λ s. s.codec ≡ codec) }
        ensures limit { IfOk result (λ s. s.limit ≡ 2 ^ 30 / codec.profile.page_size) }
        ensures none { IfOk result (λ s. ((fresh_pages s (T.fresh side.new)).count ≡ 1) × ((n : ℕ) → (fresh_pages s (T.fresh side.new)).accepts n ≡ false)) }
        ensures well { IfOk result (λ s. IsTrue T.tells → IsWellAs s (length (T.drawn side.old)) T.tells T.draws_tell (T.fresh side.new) (T.drawn side.new)) }
        ensures drawn { T.drawn side.new ≡ T.drawn side.old }
        ensures kept { T.only_fresh side.old side.new }
        ensures draws_later { T.draw_faults side.new ≡ T.draw_faults side.old }
        ensures disk_later { T.disk_faults side.old ≤ T.disk_faults side.new }
        ensures disk { result ≡ Err StartError.DiskFault → Rose (T.disk_faults side.old) (T.disk_faults side.new) }
    {
        let state = match FreshState::empty(alloc, codec) {
            Ok(state) => state,
            Err(_) => return Err(StartError::OutOfMemory),
        };
        match side.side_create() {
            Ok(()) => Ok(state),
            Err(_) => Err(StartError::DiskFault),
        }
    }

    // The state before the first page.
    fn empty(alloc: Global, codec: Codec) -> Result<FreshState, OutOfMemory>
        ensures codec { IfOk result (λ s. s.codec ≡ codec) }
        ensures limit { IfOk result (λ s. s.limit ≡ 2 ^ 30 / codec.profile.page_size) }
        ensures none { IfOk result (λ s. marked s.put ≡ nothing) }
        ensures held { IfOk result (λ s. s.held.count ≡ 0) }
        ensures first { IfOk result (λ s. (s.has_first ≡ false) × (s.taken ≡ 0)) }
    {
        let profile = *codec.profile();
        let _usable = profile.usable();
        let limit = most_pages(&profile);
        let put = Seen::new(alloc, limit)?;
        let first = zeros(alloc, usable_of(&profile))?;
        let draw = zeros(alloc, profile.reserve as usize)?;
        let stored = zeros(alloc, profile.page_size as usize)?;
        let held = HeldPages::new(alloc, profile.page_size)?;
        Ok(FreshState {
            codec,
            put,
            has_first: false,
            taken: 0,
            limit,
            first,
            draw,
            stored,
            held,
        })
    }

    /// Where a loader takes numbers and puts pages.
    pub fn out<'a, T: Side>(&'a mut self, side: &'a mut T) -> FreshOut<'a, T>
        ensures state { result.state.ghost_name ≡ self.entry.ghost_name }
        ensures side { result.side.ghost_name ≡ side.entry.ghost_name }
        ensures same { (result.state.now ≡ self.old) × (result.side.now ≡ side.old) }
    {
        FreshOut { state: self, side }
    }

    /// The usable size of a page, in bytes.
    pub fn usable(&self) -> usize
        ensures value { result ≡ usable self.now.codec.profile }
        ensures range { IsUsable result }
    {
        self.first.len()
    }

    /// How many pages there may be.
    pub fn page_limit(&self) -> u32
        ensures { result ≡ self.now.limit }
    {
        self.limit
    }

    // The next number.
    pub(crate) fn take(&mut self) -> Result<u32, OutError>
        ensures codec { self.new.codec ≡ self.old.codec }
        ensures limit { self.new.limit ≡ self.old.limit }
        ensures first { (self.new.has_first ≡ self.old.has_first) × (self.new.first.items ≡ self.old.first.items) }
        ensures put { self.new.put ≡ self.old.put }
        ensures held { self.new.held ≡ self.old.held }
        ensures more { self.old.taken ≤ self.new.taken }
        ensures number { IfOk result (λ n. (n ≡ self.old.taken + 2) × (self.new.taken ≡ self.old.taken + 1)) }
        ensures free { IfOk result (λ n. marked self.old.put n ≡ false) }
        ensures room { OnOk result (self.old.taken + 2 ≤ self.old.limit) }
        ensures refused { OnErr result ((result ≡ Err (OutError.TooManyPages self.old.limit)) × (self.new.taken ≡ self.old.taken)) }
        ensures full { OnErr result (self.old.limit ≤ self.old.taken + 1) }
    {
        if self.taken + 1 == self.limit {
            return Err(OutError::TooManyPages { limit: self.limit });
        }
        self.taken += 1;
        Ok(self.taken + 1)
    }

    // Page 1 is held back.
    pub(crate) fn keep_first(&mut self, plain: &[u8])
        requires size { length plain.now ≡ usable self.old.codec.profile }
        ensures codec { self.new.codec ≡ self.old.codec }
        ensures taken { (self.new.taken ≡ self.old.taken) × (self.new.limit ≡ self.old.limit) }
        ensures first { (self.new.has_first ≡ true) × (self.new.first.items ≡ plain.now) }
        ensures put { self.new.put ≡ self.old.put }
        ensures held { self.new.held ≡ self.old.held }
    {
        self.first.copy_from_slice(plain);
        self.has_first = true;
    }

    // Puts page n, but not page 1: it is held back. Where no more can be held, those that are go into the file first.
    pub(crate) fn put_page<T: Side>(
        &mut self,
        side: &mut T,
        n: u32,
        plain: &[u8],
    ) -> Result<(), CommitFault>
        requires number { 2 ≤ n }
        requires taken { n ≤ self.old.taken + 1 }
        requires size { length plain.now ≡ usable self.old.codec.profile }
        ensures codec { self.new.codec ≡ self.old.codec }
        ensures taken { (self.new.taken ≡ self.old.taken) × (self.new.limit ≡ self.old.limit) }
        ensures first { (self.new.has_first ≡ self.old.has_first) × (self.new.first.items ≡ self.old.first.items) }
        ensures put { OnOk result (marked self.new.put ≡ also (n ∷ []) (marked self.old.put)) }
        ensures not_put { OnErr result (self.new.put ≡ self.old.put) }
        ensures well { (start : ℕ) → IsWellAs self.old start T.tells T.draws_tell (T.fresh side.old) (T.drawn side.old)
            → OnOk result (IsWellAs self.new start T.tells T.draws_tell (T.fresh side.new) (T.drawn side.new)) }
        ensures here { OnOk result ((fresh_pages self.new (T.fresh side.new)).page n ≡ plain.now) }
        ensures others { (start : ℕ) → IsWellAs self.old start T.tells T.draws_tell (T.fresh side.old) (T.drawn side.old)
            → (k : ℕ) → (n == k) ≡ false → (fresh_pages self.new (T.fresh side.new)).page k ≡ (fresh_pages self.old (T.fresh side.old)).page k }
        ensures kept { T.only_fresh side.old side.new }
        ensures disk_later { T.disk_faults side.old ≤ T.disk_faults side.new }
        ensures draws_later { T.draw_faults side.old ≤ T.draw_faults side.new }
        ensures disk { result ≡ Err CommitFault.DiskFault → Rose (T.disk_faults side.old) (T.disk_faults side.new) }
        ensures entropy { result ≡ Err CommitFault.EntropyFault → Rose (T.draw_faults side.old) (T.draw_faults side.new) }
    {
        self.make_room(side)?;
        self.hold(side, n, plain)
    }

    // There is room to hold one more page back.
    fn make_room<T: Side>(&mut self, side: &mut T) -> Result<(), CommitFault>
        ensures codec { self.new.codec ≡ self.old.codec }
        ensures taken { (self.new.taken ≡ self.old.taken) × (self.new.limit ≡ self.old.limit) }
        ensures first { (self.new.has_first ≡ self.old.has_first) × (self.new.first.items ≡ self.old.first.items) }
        ensures put { self.new.put ≡ self.old.put }
        ensures room { OnOk result (self.new.held.count < self.new.held.most) }
        ensures well { (start : ℕ) → IsWellAs self.old start T.tells T.draws_tell (T.fresh side.old) (T.drawn side.old)
            → OnOk result (IsWellAs self.new start T.tells T.draws_tell (T.fresh side.new) (T.drawn side.new)) }
        ensures pages { (start : ℕ) → IsWellAs self.old start T.tells T.draws_tell (T.fresh side.old) (T.drawn side.old)
            → (k : ℕ) → (fresh_pages self.new (T.fresh side.new)).page k ≡ (fresh_pages self.old (T.fresh side.old)).page k }
        ensures kept { T.only_fresh side.old side.new }
        ensures draws_later { T.draw_faults side.new ≡ T.draw_faults side.old }
        ensures disk_later { T.disk_faults side.old ≤ T.disk_faults side.new }
        ensures fault { OnErr result (Rose (T.disk_faults side.old) (T.disk_faults side.new)) }
        ensures error { OnErr result (result ≡ Err CommitFault.DiskFault) }
    {
        if self.held.is_full() {
            return self.write_held(side);
        }
        Ok(())
    }

    // No page is held back any more: each is sealed and written to its place. After a fault each is still held.
    pub(crate) fn write_held<T: Side>(&mut self, side: &mut T) -> Result<(), CommitFault>
        ensures codec { self.new.codec ≡ self.old.codec }
        ensures taken { (self.new.taken ≡ self.old.taken) × (self.new.limit ≡ self.old.limit) }
        ensures first { (self.new.has_first ≡ self.old.has_first) × (self.new.first.items ≡ self.old.first.items) }
        ensures put { self.new.put ≡ self.old.put }
        ensures none { OnOk result (self.new.held.count ≡ 0) }
        ensures well { (start : ℕ) → IsWellAs self.old start T.tells T.draws_tell (T.fresh side.old) (T.drawn side.old)
            → OnOk result (IsWell self.new.codec (marked self.new.put) (self.new.taken + 1) start T.tells T.draws_tell (T.fresh side.new) (T.drawn side.new)) }
        ensures none_held { (start : ℕ) → IsWellAs self.old start T.tells T.draws_tell (T.fresh side.old) (T.drawn side.old)
            → OnOk result (IsWellAs self.new start T.tells T.draws_tell (T.fresh side.new) (T.drawn side.new)) }
        ensures pages { (start : ℕ) → IsWellAs self.old start T.tells T.draws_tell (T.fresh side.old) (T.drawn side.old)
            → (k : ℕ) → (fresh_pages self.new (T.fresh side.new)).page k ≡ (fresh_pages self.old (T.fresh side.old)).page k }
        ensures kept { T.only_fresh side.old side.new }
        ensures draws_later { T.draw_faults side.new ≡ T.draw_faults side.old }
        ensures disk_later { T.disk_faults side.old ≤ T.disk_faults side.new }
        ensures fault { OnErr result (Rose (T.disk_faults side.old) (T.disk_faults side.new)) }
        ensures error { OnErr result (result ≡ Err CommitFault.DiskFault) }
    {
        self.held.seal(&self.codec);
        self.held.write(side)?;
        self.held.count = 0;
        Ok(())
    }

    // Page n is held back, with the bytes that are drawn for it.
    fn hold<T: Side>(&mut self, side: &mut T, n: u32, plain: &[u8]) -> Result<(), CommitFault>
        requires number { 2 ≤ n }
        requires taken { n ≤ self.old.taken + 1 }
        requires size { length plain.now ≡ usable self.old.codec.profile }
        requires room { self.old.held.count < self.old.held.most }
        ensures codec { self.new.codec ≡ self.old.codec }
        ensures taken { (self.new.taken ≡ self.old.taken) × (self.new.limit ≡ self.old.limit) }
        ensures first { (self.new.has_first ≡ self.old.has_first) × (self.new.first.items ≡ self.old.first.items) }
        ensures put { OnOk result (marked self.new.put ≡ also (n ∷ []) (marked self.old.put)) }
        ensures not_put { OnErr result (self.new.put ≡ self.old.put) }
        ensures well { (start : ℕ) → IsWellAs self.old start T.tells T.draws_tell (T.fresh side.old) (T.drawn side.old)
            → OnOk result (IsWellAs self.new start T.tells T.draws_tell (T.fresh side.new) (T.drawn side.new)) }
        ensures here { OnOk result ((fresh_pages self.new (T.fresh side.new)).page n ≡ plain.now) }
        ensures others { IsTrue T.tells → (k : ℕ) → (n == k) ≡ false → (fresh_pages self.new (T.fresh side.new)).page k ≡ (fresh_pages self.old (T.fresh side.old)).page k }
        ensures kept { T.only_fresh side.old side.new }
        ensures disk_later { T.disk_faults side.new ≡ T.disk_faults side.old }
        ensures draws_later { T.draw_faults side.old ≤ T.draw_faults side.new }
        ensures fault { OnErr result (Rose (T.draw_faults side.old) (T.draw_faults side.new)) }
        ensures error { OnErr result (result ≡ Err CommitFault.EntropyFault) }
    {
        let _profile = *self.codec.profile();
        draw_for(side, &mut self.draw)?;
        self.held.add(n, plain, &self.draw);
        self.put.mark(n);
        Ok(())
    }
}

// How many pages a file of this profile may have.
#[tactic(auto, using(crate::proofs::LimitLaws::listed_limited))]
fn most_pages(profile: &Profile) -> u32
    requires { IsListed profile.now }
    ensures value { result ≡ 2 ^ 30 / profile.now.page_size }
    ensures some { 1 ≤ result }
    ensures small { result ≤ 2 ^ 21 }
{
    let _usable = profile.usable();
    (LARGEST_DATABASE / u64::from(profile.page_size)) as u32
}

// How many bytes of a page hold content.
fn usable_of(profile: &Profile) -> usize
    requires { IsListed profile.now }
    ensures value { result ≡ usable profile.now }
    ensures range { IsUsable result }
{
    profile.usable()
}
