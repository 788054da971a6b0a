// Pages of Main that are read before they are asked for.
ghost use Rattle.std.specs.Prelude.{◌≡◌, ◌≤◌, length, take, IfOk, IsTrue};
ghost use Rattle.edge_model.specs.Causes.{HasCause};
ghost use Rattle.edge_model.specs.Files.{main_of};
ghost use Rattle.edge_model.specs.OnlyRead.{OnlyRead};
ghost use Rattle.cipher_profile.specs.Profile.{usable};
ghost use Rattle.salvage_scan.specs.Ahead.{AreAhead};
ghost use Rattle.salvage_scan.specs.Salvage.{file_pages};

use db_format::OutOfMemory;
use edge_model::{Disk, Failed};
use page_codec::Codec;
use pager::{PageError, Wanted, Window, read_ahead, window_bytes};
use std::alloc::Global;

/// The pages that stand next in the file, opened side by side, up to the last whole page of the file.
#[derive(Drop)]
pub(crate) struct PagesAhead {
    bytes: Vec<u8>,
    window: Window,
    last: u32,
}

impl PagesAhead {
    /// Room for pages of this size, without a page, of a file of so many.
    pub(crate) fn new(alloc: Global, size: u32, last: u32) -> Result<PagesAhead, OutOfMemory>
        requires { 1 ≤ size }
        ensures none { IfOk result (λ ahead. ahead.window.count ≡ 0) }
        ensures last { IfOk result (λ ahead. ahead.last ≡ last) }
    {
        match vec![in alloc; 0u8; window_bytes(size)] {
            Ok(bytes) => Ok(PagesAhead {
                bytes,
                window: Window::new(),
                last,
            }),
            Err(_) => Err(OutOfMemory),
        }
    }

    /// Opens page n in this room, and answers whether it is accepted.
    pub(crate) fn open<D: Disk>(
        &mut self,
        disk: &mut D,
        codec: &Codec,
        n: u32,
        page: &mut [u8],
    ) -> Result<bool, Failed>
        requires low { 1 ≤ n }
        requires high { IsTrue D.tells → n ≤ (file_pages codec.now (D.reads disk.old)).count }
        requires size { length page.old ≡ codec.now.profile.page_size }
        requires ahead { IsTrue D.tells → AreAhead codec.now (main_of (D.reads disk.old)) self.old }
        ensures accepted { IfOk result (λ accepted. IsTrue D.tells → accepted ≡ (file_pages codec.now (D.reads disk.old)).accepts n) }
        ensures opened { IfOk result (λ accepted. IsTrue D.tells → IsTrue accepted
            → take (usable codec.now.profile) page.new ≡ (file_pages codec.now (D.reads disk.old)).page n) }
        ensures ahead { IsTrue D.tells → AreAhead codec.now (main_of (D.reads disk.new)) self.new }
        ensures cause { HasCause (D.faults disk.old) (D.faults disk.new) result }
        ensures only_read { IsTrue D.tells → OnlyRead D.reads D.images D.moment D.since disk.old disk.new }
    {
        match read_ahead(
            disk,
            codec,
            &mut self.bytes,
            &mut self.window,
            n,
            &Wanted::none(),
            self.last,
            page,
        ) {
            Ok(()) => Ok(true),
            Err(PageError::TagRefused { .. }) => Ok(false),
            Err(PageError::DiskFault) => Err(Failed),
            // no clause of `read_ahead` gives these
            Err(PageError::OutOfRange | PageError::EntropyFault | PageError::AllPinned) => Err(
                Failed,
            ),
        }
    }
}
