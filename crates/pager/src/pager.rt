// A pager: the pages of an encrypted file, read into frames.
ghost use Rattle.std.specs.Prelude.{◌≡◌, ◌≤◌, ◌*◌, ◌<◌, ◌-◌, [], length, true, false, None, Ok, Err, IfOk, IfErr, OnOk, OnErr, IsTrue, if◌then◌else◌};
ghost use Rattle.edge_model.specs.Images.{Each};
ghost use Rattle.edge_model.specs.OnlyRead.{OnlyRead};
ghost use Rattle.cipher_profile.specs.Profile.{usable};
ghost use Rattle.db_format.specs.Count.{largest_database};
ghost use Rattle.db_format.specs.Pages.{IsUsable};
ghost use Rattle.page_cache.specs.Pages.{is_held};
ghost use Rattle.edge_model.specs.Files.{main_of};
ghost use Rattle.pager.specs.Ahead.{IsAhead, IsAhead-prop};
ghost use Rattle.pager.specs.Held.{plain_of_page, pins_of, AreOpened, AreOpened-prop, IsAllPinned};
ghost use Rattle.pager.specs.Opening.{HasNoJournal, IsRefusedBy, file_opened};
ghost use Rattle.pager.specs.Pages.{is_page_number};
ghost use Rattle.pager.specs.Causes.{IsRefusedPage, MayRefuse};
ghost use Rattle.pager.specs.Reads.{DiskRead, Untouched};

use crate::file::OpenedFile;
use crate::fill::{PageError, fill_page};
use crate::opening::OpenError;
use crate::window::Window;
use db_format::Header;
use edge_model::{Disk, Entropy};
use page_cache::Cache;
use page_codec::Codec;
use std::alloc::Global;

/// The plain pages of Main, numbered from 1, lent out of a fixed number of frames.
#[derive(Drop)]
pub struct Pager<'d, D: Disk, E: Entropy> {
    pub(crate) disk: &'d mut D,
    pub(crate) entropy: &'d mut E,
    pub(crate) codec: Codec,
    pub(crate) header: Header,
    pub(crate) count: u32,
    // in a frame a page is read and opened: the plain page is in front, before the reserve
    pub(crate) cache: Cache,
    // pages that were read before they are asked for
    pub(crate) window: Window,
    pub(crate) ahead: Vec<u8>,
    // the page that was loaded last, 0 for none
    pub(crate) last: u32,
    ghost whole: { IsTrue D.tells → count * codec.profile.page_size ≤ length (main_of (D.reads disk.now)) },
    ghost limits: { (header.format ≤ 4) × (header.encoding ≤ 3) },
    ghost some: { 1 ≤ count },
    ghost largest: { count * codec.profile.page_size ≤ largest_database },
    ghost fits: { cache.usable ≡ codec.profile.page_size },
    ghost lendable: { IsUsable (usable codec.profile) },
    ghost opened: { IsTrue D.tells → AreOpened codec (main_of (D.reads disk.now)) cache.held } by { λ f g i told. AreOpened-prop codec (main_of (D.reads disk.now)) cache.held (f told) (g told) i },
    ghost before: { IsTrue D.tells → IsAhead codec (main_of (D.reads disk.now)) window ahead.items } by { λ f g i told. IsAhead-prop codec (main_of (D.reads disk.now)) window ahead.items (f told) (g told) i },
}

impl<'d, D: Disk, E: Entropy> Pager<'d, D, E> {
    ghost use Rattle.pager.specs.PagesOf.{pages_of};

    /// Opens Main under this codec, for so many frames. All memory for reading pages is taken here, once the file is known to open. A
    /// caller that must know its disk after an `Err` takes the two steps of this call itself.
    pub fn open(
        alloc: Global,
        disk: &'d mut D,
        entropy: &'d mut E,
        codec: Codec,
        frames: u32,
    ) -> Result<Pager<'d, D, E>, OpenError>
        requires frames { (24 ≤ frames) × (frames ≤ 64) }
        requires recovered { IsTrue D.tells → 0 < length (main_of (D.reads disk.old)) → Each (D.images disk.old) HasNoJournal }
        ensures opens { IfOk result (λ p. IsTrue D.tells → file_opened codec (main_of (D.reads disk.old)) ≡ Ok (record { header = p.header; count = p.count })) }
        ensures codec { IfOk result (λ p. p.codec ≡ codec) }
        ensures unread { IfOk result (λ p. (length p.cache.held ≡ 0) × (p.cache.frames ≡ frames)) }
        ensures disk { IfOk result (λ p. p.disk.ghost_name ≡ disk.entry.ghost_name) }
        ensures entropy { IfOk result (λ p. (p.entropy.ghost_name ≡ entropy.entry.ghost_name) × (p.entropy.now ≡ entropy.old)) }
        ensures later { IfOk result (λ p. D.faults disk.old ≤ D.faults p.disk.now) }
        ensures only_read { IfOk result (λ p. IsTrue D.tells → OnlyRead D.reads D.images D.moment D.since disk.old p.disk.now) }
        ensures refused { IfErr result (λ error. IsTrue D.tells → IsRefusedBy (file_opened codec (main_of (D.reads disk.old))) error) }
    {
        let file = OpenedFile::read(alloc, &mut *disk, codec, frames)?;
        Ok(file.into_pager(disk, entropy))
    }

    /// The header of page 1, as it was when the file was opened.
    pub fn header(&self) -> &Header
        ensures { result.now ≡ self.now.header }
    {
        &self.header
    }

    /// What opens the pages.
    pub fn codec(&self) -> &Codec
        ensures { result.now ≡ self.now.codec }
    {
        &self.codec
    }

    /// How often page n is pinned: 0 where it is not held.
    pub fn pins(&self, n: u32) -> u32
        ensures { result ≡ pins_of self.now.cache.held n }
    {
        self.cache.pins(n)
    }

    /// Lends page n out of its frame, where its tag holds, whatever has left the frames before. A refused page leaves nothing in a frame.
    pub fn page(&mut self, n: u32) -> Result<&[u8], PageError>
        ensures told { IfOk result (λ page. IsTrue D.tells → page.now ≡ (pages_of self.old).page n) }
        ensures accepted { OnOk result (IsTrue D.tells → (pages_of self.old).accepts n ≡ true) }
        ensures size { IfOk result (λ page. length page.now ≡ usable self.old.codec.profile) }
        ensures in_range { OnOk result (is_page_number self.old.count n ≡ true) }
        ensures refused { IfErr result (MayRefuse D.tells (pages_of self.old) n) }
        ensures out_of_range { is_page_number self.old.count n ≡ false → result ≡ Err PageError.OutOfRange }
        ensures all_pinned { is_page_number self.old.count n ≡ true → is_held n self.old.cache.held ≡ false → IsAllPinned self.old.cache → result ≡ Err PageError.AllPinned }
        ensures pinned { result ≡ Err PageError.AllPinned → (is_held n self.old.cache.held ≡ false) × IsAllPinned self.old.cache }
    {
        self.bring_in(n)?;
        Ok(self.lent())
    }

    /// Brings page n in, for `lent` to lend.
    pub(crate) fn bring_in(&mut self, n: u32) -> Result<(), PageError>
        ensures told { OnOk result (IsTrue D.tells → plain_of_page self.new.codec.profile self.new.last self.new.cache.held ≡ (pages_of self.old).page n) }
        ensures accepted { OnOk result (IsTrue D.tells → (pages_of self.old).accepts n ≡ true) }
        ensures size { OnOk result (length (plain_of_page self.new.codec.profile self.new.last self.new.cache.held) ≡ usable self.old.codec.profile) }
        ensures usable { OnOk result (IsUsable (usable self.old.codec.profile)) }
        ensures in_range { OnOk result (is_page_number self.old.count n ≡ true) }
        ensures held { OnOk result (is_held n self.new.cache.held ≡ true) }
        // why it is not given, and that nothing of it is left
        ensures cause { IfErr result (IsRefusedPage D.tells (pages_of self.old) n self.old.cache (D.faults self.old.disk.now) (D.faults self.new.disk.now)) }
        ensures out_of_range { is_page_number self.old.count n ≡ false → result ≡ Err PageError.OutOfRange }
        ensures all_pinned { is_page_number self.old.count n ≡ true → is_held n self.old.cache.held ≡ false → IsAllPinned self.old.cache → result ≡ Err PageError.AllPinned }
        ensures gone { OnErr result (is_page_number self.old.count n ≡ true → is_held n self.new.cache.held ≡ false) }
        // what stays
        ensures pins { pins_of self.new.cache.held ≡ pins_of self.old.cache.held }
        ensures disk { DiskRead D.tells D.reads D.images D.moment D.since D.faults self.old.disk self.new.disk }
        ensures entropy { Untouched self.old.entropy self.new.entropy }
        ensures file { (self.new.codec ≡ self.old.codec) × (self.new.header ≡ self.old.header) × (self.new.count ≡ self.old.count) × (self.new.cache.frames ≡ self.old.cache.frames) }
    {
        if n == 0 || n > self.count {
            return Err(PageError::OutOfRange);
        }
        match fill_page(
            &mut *self.disk,
            &self.codec,
            &mut self.cache,
            &mut self.ahead,
            &mut self.window,
            self.last,
            n,
            self.count,
        ) {
            Ok(()) => {
                self.last = n;
                Ok(())
            }
            Err(error) => Err(error),
        }
    }

    /// The page that was brought in last.
    pub(crate) fn lent(&self) -> &[u8]
        ensures { result.now ≡ plain_of_page self.now.codec.profile self.now.last self.now.cache.held }
    {
        let usable = self.codec.profile().usable();
        match self.cache.get(self.last) {
            Some(page) => &page[..usable],
            None => &[],
        }
    }

    /// The disk and the entropy.
    pub fn into_parts(self) -> (&'d mut D, &'d mut E)
        ensures disk { (result.0.ghost_name ≡ self.entry.disk.ghost_name) × (result.0.now ≡ self.entry.disk.now) }
        ensures entropy { (result.1.ghost_name ≡ self.entry.entropy.ghost_name) × (result.1.now ≡ self.entry.entropy.now) }
    {
        let Pager {
            disk,
            entropy,
            codec: _,
            header: _,
            count: _,
            cache: _,
            window: _,
            ahead: _,
            last: _,
        } = self;
        (disk, entropy)
    }
}
