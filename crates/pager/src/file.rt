// A file that was opened, before its pages are read.
ghost use Rattle.std.specs.Prelude.{◌≡◌, ◌⊎◌, ◌≤◌, ◌<◌, ◌*◌, [], length, None, Ok, Err, IfOk, IfErr, IsTrue};
ghost use Rattle.edge_model.specs.Causes.{Rose};
ghost use Rattle.edge_model.specs.Images.{Each};
ghost use Rattle.edge_model.specs.OnlyRead.{OnlyRead};
ghost use Rattle.cipher_profile.specs.Profile.{IsListed, usable};
ghost use Rattle.db_format.specs.Count.{largest_database};
ghost use Rattle.db_format.specs.Pages.{IsUsable};
ghost use Rattle.edge_model.specs.Files.{main_of};
ghost use Rattle.page_codec.specs.Page.{keys_of};
ghost use Rattle.pager.specs.Opening.{HasNoJournal, IsRefusedBy, file_opened};

use crate::opening::{Counted, OpenError, open_main, open_under};
use crate::pager::Pager;
use crate::window::{Window, window_bytes};
use cipher_profile::{Profile, Secret};
use db_format::Header;
use edge_model::{Disk, Entropy};
use page_cache::Cache;
use page_codec::Codec;
use std::alloc::Global;

/// A file that was opened: its codec, its header and the count of its pages, and all memory that reading them takes.
#[derive(Drop)]
pub struct OpenedFile {
    pub(crate) codec: Codec,
    pub(crate) header: Header,
    pub(crate) count: u32,
    pub(crate) cache: Cache,
    pub(crate) ahead: Vec<u8>,
    ghost layout: { header.page_size ≡ codec.profile.page_size },
    ghost limits: { (header.format ≤ 4) × (header.encoding ≤ 3) },
    ghost some: { 1 ≤ count },
    ghost largest: { count * codec.profile.page_size ≤ largest_database },
    ghost fits: { cache.usable ≡ codec.profile.page_size },
    ghost lendable: { IsUsable (usable codec.profile) },
    ghost unread: { length cache.held ≡ 0 },
}

impl OpenedFile {
    /// Opens Main under this codec, for a pager of so many frames. The disk is only read.
    pub fn read<D: Disk>(
        alloc: Global,
        disk: &mut D,
        codec: Codec,
        frames: u32,
    ) -> Result<OpenedFile, OpenError>
        requires frames { (24 ≤ frames) × (frames ≤ 64) }
        requires recovered { IsTrue D.tells → 0 < length (main_of (D.reads disk.old)) → Each (D.images disk.old) HasNoJournal }
        ensures opens { IfOk result (λ file. IsTrue D.tells
            → file_opened codec (main_of (D.reads disk.old)) ≡ Ok (record { header = file.header; count = file.count })) }
        ensures codec { IfOk result (λ file. file.codec ≡ codec) }
        ensures frames { IfOk result (λ file. file.cache.frames ≡ frames) }
        ensures refused { IfErr result (λ error. IsTrue D.tells → IsRefusedBy (file_opened codec (main_of (D.reads disk.old))) error) }
        ensures fault { IfErr result (λ error. error ≡ OpenError.DiskFault → Rose (D.faults disk.old) (D.faults disk.new)) }
        ensures later { D.faults disk.old ≤ D.faults disk.new }
        ensures only_read { IsTrue D.tells → OnlyRead D.reads D.images D.moment D.since disk.old disk.new }
    {
        let found = open_under(disk, &codec)?;
        OpenedFile::with_frames(alloc, codec, found, frames)
    }

    /// Opens Main with the keys that the secret gives, for a pager of so many frames. The disk is only read, and each thing once: the
    /// length of Main, and its page 1.
    pub fn open<D: Disk>(
        alloc: Global,
        disk: &mut D,
        profile: Profile,
        secret: &Secret,
        frames: u32,
    ) -> Result<OpenedFile, OpenError>
        requires listed { IsListed profile }
        requires frames { (24 ≤ frames) × (frames ≤ 64) }
        requires recovered { IsTrue D.tells → 0 < length (main_of (D.reads disk.old)) → Each (D.images disk.old) HasNoJournal }
        ensures opens { IfOk result (λ file. IsTrue D.tells
            → file_opened (keys_of profile secret.now (main_of (D.reads disk.old))) (main_of (D.reads disk.old)) ≡ Ok (record { header = file.header; count = file.count })) }
        ensures codec { IfOk result (λ file. IsTrue D.tells → file.codec ≡ keys_of profile secret.now (main_of (D.reads disk.old))) }
        ensures profile { IfOk result (λ file. file.codec.profile ≡ profile) }
        ensures frames { IfOk result (λ file. file.cache.frames ≡ frames) }
        ensures refused { IfErr result (λ error. IsTrue D.tells
            → IsRefusedBy (file_opened (keys_of profile secret.now (main_of (D.reads disk.old))) (main_of (D.reads disk.old))) error) }
        ensures fault { IfErr result (λ error. error ≡ OpenError.DiskFault → Rose (D.faults disk.old) (D.faults disk.new)) }
        ensures later { D.faults disk.old ≤ D.faults disk.new }
        ensures only_read { IsTrue D.tells → OnlyRead D.reads D.images D.moment D.since disk.old disk.new }
    {
        let (codec, found) = open_main(disk, profile, secret)?;
        OpenedFile::with_frames(alloc, codec, found, frames)
    }

    // The memory for reading pages is taken, once the file is known to open.
    fn with_frames(
        alloc: Global,
        codec: Codec,
        found: Counted,
        frames: u32,
    ) -> Result<OpenedFile, OpenError>
        requires frames { (24 ≤ frames) × (frames ≤ 64) }
        requires layout { found.header.page_size ≡ codec.profile.page_size }
        requires limits { (found.header.format ≤ 4) × (found.header.encoding ≤ 3) }
        requires some { 1 ≤ found.count }
        requires largest { found.count * codec.profile.page_size ≤ largest_database }
        ensures codec { IfOk result (λ file. file.codec ≡ codec) }
        ensures found { IfOk result (λ file. (file.header ≡ found.header) × (file.count ≡ found.count)) }
        ensures frames { IfOk result (λ file. file.cache.frames ≡ frames) }
        ensures memory { IfErr result (λ error. error ≡ OpenError.OutOfMemory) }
    {
        let page_size = codec.profile().page_size as usize;
        let _usable = codec.profile().usable();
        let Ok(cache) = Cache::new(alloc, frames, page_size) else {
            return Err(OpenError::OutOfMemory);
        };
        let Ok(ahead) = vec![in alloc; 0u8; window_bytes(codec.profile().page_size)] else {
            return Err(OpenError::OutOfMemory);
        };
        Ok(OpenedFile {
            codec,
            header: found.header,
            count: found.count,
            cache,
            ahead,
        })
    }

    /// The header of page 1.
    pub fn header(&self) -> &Header
        ensures { result.now ≡ self.now.header }
    {
        &self.header
    }

    /// How many pages it has.
    pub fn pages(&self) -> u32
        ensures count { result ≡ self.now.count }
        ensures some { 1 ≤ result }
    {
        self.count
    }

    /// The pages of this file, which is still Main of the disk.
    pub fn into_pager<'d, D: Disk, E: Entropy>(
        self,
        disk: &'d mut D,
        entropy: &'d mut E,
    ) -> Pager<'d, D, E>
        requires { IsTrue D.tells → file_opened self.codec (main_of (D.reads disk.old)) ≡ Ok (record { header = self.header; count = self.count }) }
        ensures disk { (result.disk.ghost_name ≡ disk.entry.ghost_name) × (result.disk.now ≡ disk.old) }
        ensures entropy { (result.entropy.ghost_name ≡ entropy.entry.ghost_name) × (result.entropy.now ≡ entropy.old) }
        ensures file { (result.codec ≡ self.codec) × (result.header ≡ self.header) × (result.count ≡ self.count) }
        ensures some { 1 ≤ result.count }
        ensures unread { (length result.cache.held ≡ 0) × (result.cache.frames ≡ self.cache.frames) }
    {
        let OpenedFile {
            codec,
            header,
            count,
            cache,
            ahead,
        } = self;
        Pager {
            disk,
            entropy,
            codec,
            header,
            count,
            cache,
            window: Window::new(),
            ahead,
            last: 0,
        }
    }
}
