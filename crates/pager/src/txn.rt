// A transaction of any size: pages are changed in frames. Where more pages are changed than there are frames, the changed pages are
// written before the commit, behind records of their old bytes.
ghost use Rattle.std.specs.Prelude.{◌≡◌, ◌≢◌, ◌≤◌, ◌<◌, ◌+◌, ◌-◌, ◌*◌, ◌==◌, ◌⊎◌, ℕ, length, take, vec_len, true, false, Some, None, Err, IfOk, IfErr, OnOk, IsTrue, if◌then◌else◌, replicate};
ghost use Rattle.std.specs.List.{range_with_len};
ghost use Rattle.edge_model.specs.Causes.{HasCause, Rose};
ghost use Rattle.edge_model.specs.Images.{From, LeavesOnly};
ghost use Rattle.cipher_profile.specs.Profile.{is_plain, usable};
ghost use Rattle.page_cache.specs.Pages.{held_bytes, is_held};
ghost use Rattle.page_codec.specs.Page.{magic};
ghost use Rattle.edge_model.specs.Files.{main_of};
ghost use Rattle.atomic_commit.specs.Batches.{HasMarked};
ghost use Rattle.atomic_commit.specs.Database.{HoldsOld};
ghost use Rattle.atomic_commit.specs.Facts.{SameFresh};
ghost use Rattle.atomic_commit.specs.Marks.{marked_count};
ghost use Rattle.pager.specs.Ahead.{IsAhead, IsAhead-prop};
ghost use Rattle.pager.specs.Changed.{HasMagic, unchanged, with_bytes};
ghost use Rattle.pager.specs.Pages.{is_page_number};
ghost use Rattle.pager.specs.Reads.{DiskRead, Untouched};
ghost use Rattle.pager.specs.UnderWay.{lent_out, IsReadyFor, IsRefusedAs, IsUnderWay, MayRefuseAs, Start, is_failure, is_touched, seen_pages};

use crate::ahead::read_plain_ahead;
use crate::changed::ChangedPages;
use crate::fill::{PageError, read_plain};
use crate::spilled::write_frames;
use crate::window::Window;
use atomic_commit::{CommitFault, PageMarks, guard_ahead};
use edge_model::{Disk, Entropy, Failed};
use page_codec::{Codec, MAGIC};
use rollback_journal::JournalWriter;

/// Changes of pages, as many as there are. The changed pages stand in frames, and leave them for Main where more are changed. A call may
/// follow only where no earlier one answered that the disk or the entropy failed.
#[derive(Drop)]
pub struct Txn<'d, D: Disk, E: Entropy> {
    pub(crate) disk: &'d mut D,
    pub(crate) entropy: &'d mut E,
    pub(crate) read: Codec,
    pub(crate) write: Codec,
    pub(crate) count: u32,
    pub(crate) changed: ChangedPages,
    // the pages that have a record behind an open gate
    pub(crate) recorded: PageMarks,
    // the pages that were written, each after its record
    pub(crate) written: PageMarks,
    pub(crate) writer: JournalWriter,
    pub(crate) draws: Vec<u8>,
    // as many stored pages as there are frames
    pub(crate) batch: Vec<u8>,
    // a page as it is stored
    pub(crate) stored: Vec<u8>,
    // the page that was read last
    pub(crate) plain: Vec<u8>,
    // pages that were read before they are asked for
    pub(crate) window: Window,
    pub(crate) ahead: Vec<u8>,
    // the page that was loaded last, 0 for none
    pub(crate) last: u32,
    ghost layout: { (write.profile.page_size ≡ read.profile.page_size) × (write.profile.reserve ≡ read.profile.reserve) },
    ghost fits: { (changed.usable ≡ usable write.profile) × (changed.pages ≡ count) × (1 ≤ changed.frames) },
    // so few changed pages stand in memory, whatever was changed
    ghost few: { (length changed.numbers ≤ changed.frames) × (changed.frames ≤ 64) },
    ghost room: { vec_len draws ≡ changed.frames * write.profile.reserve },
    ghost buffers: { (vec_len stored ≡ write.profile.page_size) × (vec_len plain ≡ usable write.profile) },
    ghost begins: { is_plain write.profile ≡ false → HasMagic changed.held },
    ghost long: { 16 ≤ usable write.profile },
    ghost journal: { (writer.page_size ≡ write.profile.page_size) × (writer.initial ≡ count) },
    ghost marks: { length written ≡ count },
    ghost before: { IsTrue D.tells → IsAhead read (main_of (D.reads disk.now)) window ahead.items } by { λ f g i told. IsAhead-prop read (main_of (D.reads disk.now)) window ahead.items (f told) (g told) i },
}

impl<'d, D: Disk, E: Entropy> Txn<'d, D, E> {
    /// How many pages the file has.
    pub fn pages(&self) -> u32
        ensures { result ≡ self.now.count }
    {
        self.count
    }

    /// The length of a stored page, in bytes.
    pub fn page_size(&self) -> u32
        ensures value { result ≡ self.now.write.profile.page_size }
        ensures range { (512 ≤ result) × (result ≤ 65536) }
    {
        let _usable = self.write.profile().usable();
        self.write.profile().page_size
    }

    /// The length of a plain page, in bytes.
    pub fn usable(&self) -> usize
        ensures { result ≡ usable self.now.write.profile }
    {
        self.write.profile().usable()
    }

    /// Lends page n as it was changed so far, or out of the file.
    pub fn page(&mut self, n: u32) -> Result<&[u8], PageError>
        ghost start: { Start }
        requires sizes { (self.old.write.profile.page_size ≡ start.base.size) × (self.old.count ≡ start.base.pages) }
        requires ready { IsReadyFor self.old.recorded self.old.writer }
        requires under_way { IsTrue D.tells → IsUnderWay start self.old.write self.old.recorded self.old.written self.old.writer (D.reads self.old.disk.now)
            (D.images self.old.disk.now) E.tells (E.drawn self.old.entropy.now) }
        ensures told { IfOk result (λ page. IsTrue D.tells → page.now ≡ (seen_pages self.old.read self.old.write (main_of (D.reads self.old.disk.now)) self.old.count self.old.written self.old.changed.held).page n) }
        ensures range { IfOk result (λ page. is_page_number self.old.count n ≡ true) }
        ensures out_of_range { is_page_number self.old.count n ≡ false → result ≡ Err PageError.OutOfRange }
        ensures refused { IfErr result (MayRefuseAs D.tells (seen_pages self.old.read self.old.write (main_of (D.reads self.old.disk.now)) self.old.count self.old.written self.old.changed.held) n) }
    {
        self.load(n)?;
        Ok(self.loaded())
    }

    /// Brings page n in, for `loaded` to lend: as it was changed so far, or out of the file. A page that was changed is refused only where
    /// the disk fails.
    pub fn load(&mut self, n: u32) -> Result<(), PageError>
        ghost start: { Start }
        requires sizes { (self.old.write.profile.page_size ≡ start.base.size) × (self.old.count ≡ start.base.pages) }
        requires ready { IsReadyFor self.old.recorded self.old.writer }
        requires under_way { IsTrue D.tells → IsUnderWay start self.old.write self.old.recorded self.old.written self.old.writer (D.reads self.old.disk.now)
            (D.images self.old.disk.now) E.tells (E.drawn self.old.entropy.now) }
        ensures told { OnOk result (IsTrue D.tells → lent_out self.new.last self.new.changed.held self.new.plain.items ≡ (seen_pages self.old.read self.old.write (main_of (D.reads self.old.disk.now)) self.old.count self.old.written self.old.changed.held).page n) }
        ensures range { OnOk result (is_page_number self.old.count n ≡ true) }
        ensures out_of_range { is_page_number self.old.count n ≡ false → result ≡ Err PageError.OutOfRange }
        ensures refused { IfErr result (IsRefusedAs D.tells (seen_pages self.old.read self.old.write (main_of (D.reads self.old.disk.now)) self.old.count self.old.written self.old.changed.held)
            n (D.faults self.old.disk.now) (D.faults self.new.disk.now) (E.faults self.old.entropy.now) (E.faults self.new.entropy.now)) }
        // what stays
        ensures under_way { IsTrue D.tells → IsUnderWay start self.new.write self.new.recorded self.new.written self.new.writer (D.reads self.new.disk.now)
            (D.images self.new.disk.now) E.tells (E.drawn self.new.entropy.now) }
        ensures disk { DiskRead D.tells D.reads D.images D.moment D.since D.faults self.old.disk self.new.disk }
        ensures entropy { Untouched self.old.entropy self.new.entropy }
        ensures kept { (self.new.changed ≡ self.old.changed) × (self.new.recorded ≡ self.old.recorded) × (self.new.writer ≡ self.old.writer) × (self.new.written ≡ self.old.written) }
        ensures file { (self.new.read ≡ self.old.read) × (self.new.write ≡ self.old.write) × (self.new.count ≡ self.old.count) }
    {
        if n == 0 || n > self.count {
            return Err(PageError::OutOfRange);
        }
        if self.changed.has(n) {
            self.last = n;
            return Ok(());
        }
        self.read_in(n)?;
        self.last = n;
        Ok(())
    }

    /// The page that was loaded last.
    pub fn loaded(&self) -> &[u8]
        ensures { result.now ≡ lent_out self.now.last self.now.changed.held self.now.plain.items }
    {
        match self.changed.get(self.last) {
            Some(page) => page,
            None => &self.plain,
        }
    }

    /// Makes page n zeros. Its stored bytes are not opened.
    pub fn page_zero(&mut self, n: u32) -> Result<(), PageError>
        ghost start: { Start }
        requires other { n ≢ 1 }
        requires sizes { (self.old.write.profile.page_size ≡ start.base.size) × (self.old.count ≡ start.base.pages) }
        requires ready { IsReadyFor self.old.recorded self.old.writer }
        requires under_way { IsTrue D.tells → IsUnderWay start self.old.write self.old.recorded self.old.written self.old.writer (D.reads self.old.disk.now)
            (D.images self.old.disk.now) E.tells (E.drawn self.old.entropy.now) }
        ensures zeros { OnOk result (IsTrue D.tells → (m : ℕ) → (seen_pages self.new.read self.new.write (main_of (D.reads self.new.disk.now)) self.new.count self.new.written self.new.changed.held).page m
            ≡ (if m == n then replicate (usable self.old.write.profile) 0 else (seen_pages self.old.read self.old.write (main_of (D.reads self.old.disk.now)) self.old.count self.old.written self.old.changed.held).page m)) }
        ensures touched { OnOk result ((m : ℕ) → is_page_number self.old.count m ≡ true → is_touched self.new.written self.new.changed.held m ≡ (if m == n then true else is_touched self.old.written self.old.changed.held m)) }
        ensures out_of_range { is_page_number self.old.count n ≡ false → result ≡ Err PageError.OutOfRange }
        ensures refused { IfErr result (IsRefusedAs D.tells (seen_pages self.old.read self.old.write (main_of (D.reads self.old.disk.now)) self.old.count self.old.written self.old.changed.held)
            n (D.faults self.old.disk.now) (D.faults self.new.disk.now) (E.faults self.old.entropy.now) (E.faults self.new.entropy.now)) }
        ensures unopened { IfErr result (λ e. (page : ℕ) → e ≢ PageError.TagRefused page) }
        ensures ready { OnOk result (IsReadyFor self.new.recorded self.new.writer) }
        ensures under_way { OnOk result (IsTrue D.tells → IsUnderWay start self.new.write self.new.recorded self.new.written self.new.writer (D.reads self.new.disk.now)
            (D.images self.new.disk.now) E.tells (E.drawn self.new.entropy.now)) }
        ensures still { IfErr result (λ e. is_failure e ≡ false → (self.new.changed ≡ self.old.changed) × (self.new.recorded ≡ self.old.recorded)
            × (self.new.writer ≡ self.old.writer) × DiskRead D.tells D.reads D.images D.moment D.since D.faults self.old.disk self.new.disk × Untouched self.old.entropy self.new.entropy × (self.new.written ≡ self.old.written)) }
        ensures unwritten { length self.old.changed.numbers < self.old.changed.frames → (self.new.recorded ≡ self.old.recorded) × (self.new.writer ≡ self.old.writer)
            × DiskRead D.tells D.reads D.images D.moment D.since D.faults self.old.disk self.new.disk × Untouched self.old.entropy self.new.entropy × (self.new.written ≡ self.old.written) }
        // while no page has a record, the disk was only read
        ensures unrecorded { OnOk result (marked_count self.new.recorded ≡ 0 → (self.new.recorded ≡ self.old.recorded)
            × DiskRead D.tells D.reads D.images D.moment D.since D.faults self.old.disk self.new.disk) }
        ensures frames { self.new.changed.frames ≡ self.old.changed.frames }
        ensures any_moment { IsTrue D.tells → LeavesOnly D.moment D.since self.old.disk.now self.new.disk.now (HoldsOld start.base) }
        ensures fresh { IsTrue D.tells → LeavesOnly D.moment D.since self.old.disk.now self.new.disk.now (From SameFresh (D.images self.old.disk.now)) }
        ensures names { (self.new.disk.ghost_name ≡ self.old.disk.ghost_name) × (self.new.entropy.ghost_name ≡ self.old.entropy.ghost_name) }
        ensures later { (D.faults self.old.disk.now ≤ D.faults self.new.disk.now) × (E.faults self.old.entropy.now ≤ E.faults self.new.entropy.now) }
        ensures file { (self.new.read ≡ self.old.read) × (self.new.write ≡ self.old.write) × (self.new.count ≡ self.old.count) }
    {
        if n == 0 || n > self.count {
            return Err(PageError::OutOfRange);
        }
        if self.changed.has(n) {
            self.changed.clear(n);
            return Ok(());
        }
        self.make_room()?;
        self.changed.add(n);
        Ok(())
    }

    /// Writes bytes over those of page n, from an offset on; with no bytes, page n is written as it is. Of page 1 the first 16
    /// bytes stay.
    pub fn write(&mut self, n: u32, at: usize, bytes: &[u8]) -> Result<(), PageError>
        ghost start: { Start }
        requires within { at + length bytes.now ≤ usable self.old.write.profile }
        requires first { n ≡ 1 → 16 ≤ at }
        requires sizes { (self.old.write.profile.page_size ≡ start.base.size) × (self.old.count ≡ start.base.pages) }
        requires ready { IsReadyFor self.old.recorded self.old.writer }
        requires under_way { IsTrue D.tells → IsUnderWay start self.old.write self.old.recorded self.old.written self.old.writer (D.reads self.old.disk.now)
            (D.images self.old.disk.now) E.tells (E.drawn self.old.entropy.now) }
        ensures changed { OnOk result (IsTrue D.tells → (m : ℕ) → (seen_pages self.new.read self.new.write (main_of (D.reads self.new.disk.now)) self.new.count self.new.written self.new.changed.held).page m
            ≡ (if m == n then with_bytes at bytes.now ((seen_pages self.old.read self.old.write (main_of (D.reads self.old.disk.now)) self.old.count self.old.written self.old.changed.held).page n) else (seen_pages self.old.read self.old.write (main_of (D.reads self.old.disk.now)) self.old.count self.old.written self.old.changed.held).page m)) }
        ensures touched { OnOk result ((m : ℕ) → is_page_number self.old.count m ≡ true → is_touched self.new.written self.new.changed.held m ≡ (if m == n then true else is_touched self.old.written self.old.changed.held m)) }
        ensures out_of_range { is_page_number self.old.count n ≡ false → result ≡ Err PageError.OutOfRange }
        ensures refused { IfErr result (IsRefusedAs D.tells (seen_pages self.old.read self.old.write (main_of (D.reads self.old.disk.now)) self.old.count self.old.written self.old.changed.held)
            n (D.faults self.old.disk.now) (D.faults self.new.disk.now) (E.faults self.old.entropy.now) (E.faults self.new.entropy.now)) }
        ensures ready { OnOk result (IsReadyFor self.new.recorded self.new.writer) }
        ensures under_way { OnOk result (IsTrue D.tells → IsUnderWay start self.new.write self.new.recorded self.new.written self.new.writer (D.reads self.new.disk.now)
            (D.images self.new.disk.now) E.tells (E.drawn self.new.entropy.now)) }
        ensures still { IfErr result (λ e. is_failure e ≡ false → (self.new.changed ≡ self.old.changed) × (self.new.recorded ≡ self.old.recorded)
            × (self.new.writer ≡ self.old.writer) × DiskRead D.tells D.reads D.images D.moment D.since D.faults self.old.disk self.new.disk × Untouched self.old.entropy self.new.entropy × (self.new.written ≡ self.old.written)) }
        ensures unwritten { length self.old.changed.numbers < self.old.changed.frames → (self.new.recorded ≡ self.old.recorded) × (self.new.writer ≡ self.old.writer)
            × DiskRead D.tells D.reads D.images D.moment D.since D.faults self.old.disk self.new.disk × Untouched self.old.entropy self.new.entropy × (self.new.written ≡ self.old.written) }
        // while no page has a record, the disk was only read
        ensures unrecorded { OnOk result (marked_count self.new.recorded ≡ 0 → (self.new.recorded ≡ self.old.recorded)
            × DiskRead D.tells D.reads D.images D.moment D.since D.faults self.old.disk self.new.disk) }
        ensures frames { self.new.changed.frames ≡ self.old.changed.frames }
        ensures any_moment { IsTrue D.tells → LeavesOnly D.moment D.since self.old.disk.now self.new.disk.now (HoldsOld start.base) }
        ensures fresh { IsTrue D.tells → LeavesOnly D.moment D.since self.old.disk.now self.new.disk.now (From SameFresh (D.images self.old.disk.now)) }
        ensures names { (self.new.disk.ghost_name ≡ self.old.disk.ghost_name) × (self.new.entropy.ghost_name ≡ self.old.entropy.ghost_name) }
        ensures later { (D.faults self.old.disk.now ≤ D.faults self.new.disk.now) × (E.faults self.old.entropy.now ≤ E.faults self.new.entropy.now) }
        ensures file { (self.new.read ≡ self.old.read) × (self.new.write ≡ self.old.write) × (self.new.count ≡ self.old.count) }
    {
        if n == 0 || n > self.count {
            return Err(PageError::OutOfRange);
        }
        if self.changed.has(n) {
            self.changed.put(n, at, bytes);
            return Ok(());
        }
        self.take_in(n)?;
        self.changed.put(n, at, bytes);
        Ok(())
    }

    /// Puts the old bytes of so many pages from one on behind a gate of the journal, one gate for all that have none there. They may be
    /// changed later, and are then written without waiting for the journal again. What the transaction sees stays, and so does Main.
    pub fn keep_ahead(&mut self, first: u32, count: u32) -> Result<(), Failed>
        ghost start: { Start }
        requires pages { (1 ≤ first) × (first + count ≤ self.old.count + 1) }
        requires sizes { (self.old.write.profile.page_size ≡ start.base.size) × (self.old.count ≡ start.base.pages) }
        requires ready { IsReadyFor self.old.recorded self.old.writer }
        requires under_way { IsTrue D.tells → IsUnderWay start self.old.write self.old.recorded self.old.written self.old.writer (D.reads self.old.disk.now)
            (D.images self.old.disk.now) E.tells (E.drawn self.old.entropy.now) }
        ensures recorded { OnOk result (HasMarked (range_with_len first count) count self.old.recorded self.new.recorded) }
        ensures seen { OnOk result (IsTrue D.tells → (m : ℕ) → (seen_pages self.new.read self.new.write (main_of (D.reads self.new.disk.now)) self.new.count self.new.written self.new.changed.held).page m ≡ (seen_pages self.old.read self.old.write (main_of (D.reads self.old.disk.now)) self.old.count self.old.written self.old.changed.held).page m) }
        ensures ready { OnOk result (IsReadyFor self.new.recorded self.new.writer) }
        ensures under_way { OnOk result (IsTrue D.tells → IsUnderWay start self.new.write self.new.recorded self.new.written self.new.writer (D.reads self.new.disk.now)
            (D.images self.new.disk.now) E.tells (E.drawn self.new.entropy.now)) }
        ensures kept { (self.new.changed ≡ self.old.changed) × (self.new.written ≡ self.old.written) }
        ensures any_moment { IsTrue D.tells → LeavesOnly D.moment D.since self.old.disk.now self.new.disk.now (HoldsOld start.base) }
        ensures fresh { IsTrue D.tells → LeavesOnly D.moment D.since self.old.disk.now self.new.disk.now (From SameFresh (D.images self.old.disk.now)) }
        ensures disk { self.new.disk.ghost_name ≡ self.old.disk.ghost_name }
        ensures entropy { Untouched self.old.entropy self.new.entropy }
        ensures cause { HasCause (D.faults self.old.disk.now) (D.faults self.new.disk.now) result }
        ensures file { (self.new.read ≡ self.old.read) × (self.new.write ≡ self.old.write) × (self.new.count ≡ self.old.count) }
    {
        let _listed = self.write.profile();
        let _pages = self.pages();
        self.window = self.window.forget();
        guard_ahead(
            &mut *self.disk,
            &mut self.writer,
            &mut self.recorded,
            first,
            count,
            &mut self.stored,
        )
    }

    // Reads page n, which no frame holds, out of Main, under the codec that it stands under.
    fn read_in(&mut self, n: u32) -> Result<(), PageError>
        ghost start: { Start }
        requires number { (1 ≤ n) × (n ≤ self.old.count) }
        requires free { is_held n self.old.changed.held ≡ false }
        requires sizes { (self.old.write.profile.page_size ≡ start.base.size) × (self.old.count ≡ start.base.pages) }
        requires ready { IsReadyFor self.old.recorded self.old.writer }
        requires under_way { IsTrue D.tells → IsUnderWay start self.old.write self.old.recorded self.old.written self.old.writer (D.reads self.old.disk.now)
            (D.images self.old.disk.now) E.tells (E.drawn self.old.entropy.now) }
        ensures told { OnOk result (IsTrue D.tells → self.new.plain.items ≡ (seen_pages self.old.read self.old.write (main_of (D.reads self.old.disk.now)) self.old.count self.old.written self.old.changed.held).page n) }
        ensures refused { IfErr result (IsRefusedAs D.tells (seen_pages self.old.read self.old.write (main_of (D.reads self.old.disk.now)) self.old.count self.old.written self.old.changed.held)
            n (D.faults self.old.disk.now) (D.faults self.new.disk.now) (E.faults self.old.entropy.now) (E.faults self.new.entropy.now)) }
        ensures under_way { IsTrue D.tells → IsUnderWay start self.new.write self.new.recorded self.new.written self.new.writer (D.reads self.new.disk.now)
            (D.images self.new.disk.now) E.tells (E.drawn self.new.entropy.now) }
        ensures disk { DiskRead D.tells D.reads D.images D.moment D.since D.faults self.old.disk self.new.disk }
        ensures entropy { Untouched self.old.entropy self.new.entropy }
        ensures kept { (self.new.changed ≡ self.old.changed) × (self.new.recorded ≡ self.old.recorded) × (self.new.writer ≡ self.old.writer) × (self.new.written ≡ self.old.written) }
        ensures file { (self.new.read ≡ self.old.read) × (self.new.write ≡ self.old.write) × (self.new.count ≡ self.old.count) }
    {
        if self.written.has(n) {
            return read_plain(
                &mut *self.disk,
                &self.write,
                n,
                &mut self.stored,
                &mut self.plain,
            );
        }
        let last = self.last_wanted(n);
        read_plain_ahead(
            &mut *self.disk,
            &self.read,
            &mut self.ahead,
            &mut self.window,
            n,
            last,
            &mut self.stored,
            &mut self.plain,
        )
    }

    // The last page that may be read with page n: no more than frames are free, since the window is let go when the frames are written.
    fn last_wanted(&self, n: u32) -> u32
        requires number { n ≤ self.now.count }
        ensures within { result ≤ self.now.count }
    {
        let free = self.changed.free_frames();
        if free == 0 {
            return n;
        }
        (self.count - n).min(free - 1) + n
    }

    // Page n, which no frame holds, is in a frame from now on, as the transaction sees it.
    fn take_in(&mut self, n: u32) -> Result<(), PageError>
        ghost start: { Start }
        requires number { (1 ≤ n) × (n ≤ self.old.count) }
        requires free { is_held n self.old.changed.held ≡ false }
        requires sizes { (self.old.write.profile.page_size ≡ start.base.size) × (self.old.count ≡ start.base.pages) }
        requires ready { IsReadyFor self.old.recorded self.old.writer }
        requires under_way { IsTrue D.tells → IsUnderWay start self.old.write self.old.recorded self.old.written self.old.writer (D.reads self.old.disk.now)
            (D.images self.old.disk.now) E.tells (E.drawn self.old.entropy.now) }
        ensures seen { OnOk result (IsTrue D.tells → (m : ℕ) → (seen_pages self.new.read self.new.write (main_of (D.reads self.new.disk.now)) self.new.count self.new.written self.new.changed.held).page m ≡ (seen_pages self.old.read self.old.write (main_of (D.reads self.old.disk.now)) self.old.count self.old.written self.old.changed.held).page m) }
        ensures held { OnOk result (is_held n self.new.changed.held ≡ true) }
        ensures touched { OnOk result ((m : ℕ) → is_page_number self.old.count m ≡ true → is_touched self.new.written self.new.changed.held m ≡ (if m == n then true else is_touched self.old.written self.old.changed.held m)) }
        ensures refused { IfErr result (IsRefusedAs D.tells (seen_pages self.old.read self.old.write (main_of (D.reads self.old.disk.now)) self.old.count self.old.written self.old.changed.held)
            n (D.faults self.old.disk.now) (D.faults self.new.disk.now) (E.faults self.old.entropy.now) (E.faults self.new.entropy.now)) }
        ensures ready { OnOk result (IsReadyFor self.new.recorded self.new.writer) }
        ensures under_way { OnOk result (IsTrue D.tells → IsUnderWay start self.new.write self.new.recorded self.new.written self.new.writer (D.reads self.new.disk.now)
            (D.images self.new.disk.now) E.tells (E.drawn self.new.entropy.now)) }
        ensures still { IfErr result (λ e. is_failure e ≡ false → (self.new.changed ≡ self.old.changed) × (self.new.recorded ≡ self.old.recorded)
            × (self.new.writer ≡ self.old.writer) × DiskRead D.tells D.reads D.images D.moment D.since D.faults self.old.disk self.new.disk × Untouched self.old.entropy self.new.entropy × (self.new.written ≡ self.old.written)) }
        ensures unwritten { length self.old.changed.numbers < self.old.changed.frames → (self.new.recorded ≡ self.old.recorded) × (self.new.writer ≡ self.old.writer)
            × DiskRead D.tells D.reads D.images D.moment D.since D.faults self.old.disk self.new.disk × Untouched self.old.entropy self.new.entropy × (self.new.written ≡ self.old.written) }
        // while no page has a record, the disk was only read
        ensures unrecorded { OnOk result (marked_count self.new.recorded ≡ 0 → (self.new.recorded ≡ self.old.recorded)
            × DiskRead D.tells D.reads D.images D.moment D.since D.faults self.old.disk self.new.disk) }
        ensures frames { self.new.changed.frames ≡ self.old.changed.frames }
        ensures any_moment { IsTrue D.tells → LeavesOnly D.moment D.since self.old.disk.now self.new.disk.now (HoldsOld start.base) }
        ensures fresh { IsTrue D.tells → LeavesOnly D.moment D.since self.old.disk.now self.new.disk.now (From SameFresh (D.images self.old.disk.now)) }
        ensures names { (self.new.disk.ghost_name ≡ self.old.disk.ghost_name) × (self.new.entropy.ghost_name ≡ self.old.entropy.ghost_name) }
        ensures later { (D.faults self.old.disk.now ≤ D.faults self.new.disk.now) × (E.faults self.old.entropy.now ≤ E.faults self.new.entropy.now) }
        ensures file { (self.new.read ≡ self.old.read) × (self.new.write ≡ self.old.write) × (self.new.count ≡ self.old.count) }
    {
        let _read = self.read.profile();
        let _write = self.write.profile();
        self.read_in(n)?;
        self.make_room()?;
        self.place(n);
        Ok(())
    }

    // The page that was read last, n, is in a frame from now on.
    fn place(&mut self, n: u32)
        requires number { (1 ≤ n) × (n ≤ self.old.count) }
        requires free { is_held n self.old.changed.held ≡ false }
        requires room { length self.old.changed.numbers < self.old.changed.frames }
        ensures bytes { (n ≡ 1 → is_plain self.old.write.profile ≡ false → take 16 self.old.plain.items ≡ magic) → (m : ℕ) → held_bytes m self.new.changed.held ≡ (if m == n then Some self.old.plain.items else held_bytes m self.old.changed.held) }
        ensures listed { (m : ℕ) → is_held m self.new.changed.held ≡ (if m == n then true else is_held m self.old.changed.held) }
        ensures held { is_held n self.new.changed.held ≡ true }
        ensures sizes { (self.new.changed.frames ≡ self.old.changed.frames) × (self.new.changed.usable ≡ self.old.changed.usable) × (self.new.changed.pages ≡ self.old.changed.pages) }
        ensures kept { (self.new.recorded ≡ self.old.recorded) × (self.new.writer ≡ self.old.writer) × (self.new.last ≡ self.old.last) × (self.new.written ≡ self.old.written) }
        ensures disk { Untouched self.old.disk self.new.disk }
        ensures entropy { Untouched self.old.entropy self.new.entropy }
        ensures file { (self.new.read ≡ self.old.read) × (self.new.write ≡ self.old.write) × (self.new.count ≡ self.old.count) }
    {
        self.changed.bring(n, &self.plain);
        if n > 1 {
            return;
        }
        if !self.write.profile().is_plain() {
            self.changed.put(1, 0, &MAGIC);
        }
    }

    // A frame is free: where none is, the changed pages are written.
    fn make_room(&mut self) -> Result<(), PageError>
        ghost start: { Start }
        requires some { 0 < start.base.pages }
        requires sizes { (self.old.write.profile.page_size ≡ start.base.size) × (self.old.count ≡ start.base.pages) }
        requires ready { IsReadyFor self.old.recorded self.old.writer }
        requires under_way { IsTrue D.tells → IsUnderWay start self.old.write self.old.recorded self.old.written self.old.writer (D.reads self.old.disk.now)
            (D.images self.old.disk.now) E.tells (E.drawn self.old.entropy.now) }
        ensures seen { OnOk result (IsTrue D.tells → (m : ℕ) → (seen_pages self.new.read self.new.write (main_of (D.reads self.new.disk.now)) self.new.count self.new.written self.new.changed.held).page m ≡ (seen_pages self.old.read self.old.write (main_of (D.reads self.old.disk.now)) self.old.count self.old.written self.old.changed.held).page m) }
        ensures touched { OnOk result ((m : ℕ) → is_page_number self.old.count m ≡ true → is_touched self.new.written self.new.changed.held m ≡ is_touched self.old.written self.old.changed.held m) }
        ensures room { OnOk result (length self.new.changed.numbers < self.new.changed.frames) }
        ensures free { OnOk result ((m : ℕ) → is_held m self.old.changed.held ≡ false → is_held m self.new.changed.held ≡ false) }
        ensures ready { OnOk result (IsReadyFor self.new.recorded self.new.writer) }
        ensures under_way { OnOk result (IsTrue D.tells → IsUnderWay start self.new.write self.new.recorded self.new.written self.new.writer (D.reads self.new.disk.now)
            (D.images self.new.disk.now) E.tells (E.drawn self.new.entropy.now)) }
        ensures faults { IfErr result (λ e. ((e ≡ PageError.DiskFault) × Rose (D.faults self.old.disk.now) (D.faults self.new.disk.now))
            ⊎ ((e ≡ PageError.EntropyFault) × Rose (E.faults self.old.entropy.now) (E.faults self.new.entropy.now))) }
        ensures any_moment { IsTrue D.tells → LeavesOnly D.moment D.since self.old.disk.now self.new.disk.now (HoldsOld start.base) }
        ensures fresh { IsTrue D.tells → LeavesOnly D.moment D.since self.old.disk.now self.new.disk.now (From SameFresh (D.images self.old.disk.now)) }
        ensures names { (self.new.disk.ghost_name ≡ self.old.disk.ghost_name) × (self.new.entropy.ghost_name ≡ self.old.entropy.ghost_name) }
        ensures later { (D.faults self.old.disk.now ≤ D.faults self.new.disk.now) × (E.faults self.old.entropy.now ≤ E.faults self.new.entropy.now) }
        ensures plain { self.new.plain.items ≡ self.old.plain.items }
        ensures unwritten { length self.old.changed.numbers < self.old.changed.frames → (self.new.recorded ≡ self.old.recorded) × (self.new.writer ≡ self.old.writer)
            × Untouched self.old.disk self.new.disk × Untouched self.old.entropy self.new.entropy × (self.new.written ≡ self.old.written) }
        // while no page has a record, the disk was only read
        ensures unrecorded { OnOk result (marked_count self.new.recorded ≡ 0 → (self.new.recorded ≡ self.old.recorded) × Untouched self.old.disk self.new.disk) }
        ensures frames { self.new.changed.frames ≡ self.old.changed.frames }
        ensures file { (self.new.read ≡ self.old.read) × (self.new.write ≡ self.old.write) × (self.new.count ≡ self.old.count) }
    {
        if self.changed.is_full() {
            self.spill()?;
        }
        Ok(())
    }

    // Writes the changed pages, so that their frames are free.
    fn spill(&mut self) -> Result<(), PageError>
        ghost start: { Start }
        requires some { 0 < start.base.pages }
        requires sizes { (self.old.write.profile.page_size ≡ start.base.size) × (self.old.count ≡ start.base.pages) }
        requires ready { IsReadyFor self.old.recorded self.old.writer }
        requires under_way { IsTrue D.tells → IsUnderWay start self.old.write self.old.recorded self.old.written self.old.writer (D.reads self.old.disk.now)
            (D.images self.old.disk.now) E.tells (E.drawn self.old.entropy.now) }
        ensures seen { OnOk result (IsTrue D.tells → (m : ℕ) → (seen_pages self.new.read self.new.write (main_of (D.reads self.new.disk.now)) self.new.count self.new.written self.new.changed.held).page m ≡ (seen_pages self.old.read self.old.write (main_of (D.reads self.old.disk.now)) self.old.count self.old.written self.old.changed.held).page m) }
        ensures touched { OnOk result ((m : ℕ) → is_page_number self.old.count m ≡ true → is_touched self.new.written self.new.changed.held m ≡ is_touched self.old.written self.old.changed.held m) }
        ensures free { OnOk result (self.new.changed ≡ unchanged self.old.changed.frames self.old.changed.usable self.old.changed.pages) }
        ensures recorded { OnOk result (0 < length self.old.changed.numbers → 0 < marked_count self.new.recorded) }
        ensures ready { OnOk result (IsReadyFor self.new.recorded self.new.writer) }
        ensures under_way { OnOk result (IsTrue D.tells → IsUnderWay start self.new.write self.new.recorded self.new.written self.new.writer (D.reads self.new.disk.now)
            (D.images self.new.disk.now) E.tells (E.drawn self.new.entropy.now)) }
        ensures faults { IfErr result (λ e. ((e ≡ PageError.DiskFault) × Rose (D.faults self.old.disk.now) (D.faults self.new.disk.now))
            ⊎ ((e ≡ PageError.EntropyFault) × Rose (E.faults self.old.entropy.now) (E.faults self.new.entropy.now))) }
        ensures any_moment { IsTrue D.tells → LeavesOnly D.moment D.since self.old.disk.now self.new.disk.now (HoldsOld start.base) }
        ensures fresh { IsTrue D.tells → LeavesOnly D.moment D.since self.old.disk.now self.new.disk.now (From SameFresh (D.images self.old.disk.now)) }
        ensures names { (self.new.disk.ghost_name ≡ self.old.disk.ghost_name) × (self.new.entropy.ghost_name ≡ self.old.entropy.ghost_name) }
        ensures later { (D.faults self.old.disk.now ≤ D.faults self.new.disk.now) × (E.faults self.old.entropy.now ≤ E.faults self.new.entropy.now) }
        ensures plain { (self.new.plain.items ≡ self.old.plain.items) × (self.new.last ≡ self.old.last) }
        ensures frames { self.new.changed.frames ≡ self.old.changed.frames }
        ensures file { (self.new.read ≡ self.old.read) × (self.new.write ≡ self.old.write) × (self.new.count ≡ self.old.count) }
    {
        let _listed = self.changed.len();
        self.window = self.window.forget();
        let written = write_frames(
            &mut *self.disk,
            &mut *self.entropy,
            &mut self.writer,
            &mut self.recorded,
            &mut self.written,
            &self.write,
            &self.changed,
            &mut self.draws,
            &mut self.batch,
            &mut self.stored,
        );
        match written {
            Ok(()) => {
                self.changed.free();
                Ok(())
            }
            Err(CommitFault::DiskFault) => Err(PageError::DiskFault),
            Err(CommitFault::EntropyFault) => Err(PageError::EntropyFault),
        }
    }
}
