// The whole pages of Main, asked for one at a time.
ghost use Rattle.std.specs.Prelude.{◌≡◌, ◌≤◌, length, take, IfOk, IsTrue};
ghost use Rattle.edge_model.specs.Causes.{HasCause};
ghost use Rattle.edge_model.specs.Files.{main_of};
ghost use Rattle.edge_model.specs.OnlyRead.{OnlyRead};
ghost use Rattle.cipher_profile.specs.Profile.{usable};
ghost use Rattle.salvage_scan.specs.Ahead.{AreAhead};
ghost use Rattle.salvage_scan.specs.Room.{AreRooms, IsRoom, room_bytes};
ghost use Rattle.salvage_scan.specs.Salvage.{file_pages};

use crate::ahead::PagesAhead;
use db_format::OutOfMemory;
use edge_model::{Disk, Failed};
use page_codec::Codec;
use std::alloc::Global;

/// Room for one page, and the number of the page that was opened there, 0 for none.
#[derive(Drop)]
pub(crate) struct PageRoom {
    bytes: Vec<u8>,
    number: u32,
}

impl PageRoom {
    // Room for a page of so many bytes.
    fn new(alloc: Global, size: usize) -> Result<PageRoom, OutOfMemory>
        ensures size { IfOk result (λ room. length room.bytes.items ≡ size) }
        ensures none { IfOk result (λ room. room.number ≡ 0) }
    {
        match vec![in alloc; 0u8; size] {
            Ok(bytes) => Ok(PageRoom { bytes, number: 0 }),
            Err(_) => Err(OutOfMemory),
        }
    }

    // Opens page n, unless it is here, and answers whether it is accepted.
    fn open<D: Disk>(
        &mut self,
        ahead: &mut PagesAhead,
        disk: &mut D,
        codec: &Codec,
        n: u32,
    ) -> Result<bool, Failed>
        requires low { 1 ≤ n }
        requires high { IsTrue D.tells → n ≤ (file_pages codec.now (D.reads disk.old)).count }
        requires room { IsRoom D.tells (file_pages codec.now (D.reads disk.old)) codec.now.profile.page_size self.old }
        requires ahead { IsTrue D.tells → AreAhead codec.now (main_of (D.reads disk.old)) ahead.old }
        ensures accepted { IfOk result (λ accepted. IsTrue D.tells → accepted ≡ (file_pages codec.now (D.reads disk.old)).accepts n) }
        ensures opened { IfOk result (λ accepted. IsTrue D.tells → IsTrue accepted
            → take (usable codec.now.profile) self.new.bytes.items ≡ (file_pages codec.now (D.reads disk.old)).page n) }
        ensures room { IsRoom D.tells (file_pages codec.now (D.reads disk.new)) codec.now.profile.page_size self.new }
        ensures ahead { IsTrue D.tells → AreAhead codec.now (main_of (D.reads disk.new)) ahead.new }
        ensures cause { HasCause (D.faults disk.old) (D.faults disk.new) result }
        ensures only_read { IsTrue D.tells → OnlyRead D.reads D.images D.moment D.since disk.old disk.new }
    {
        if self.number == n {
            return Ok(true);
        }
        self.number = 0;
        match self.bring(ahead, disk, codec, n) {
            Err(error) => Err(error),
            Ok(false) => Ok(false),
            Ok(true) => {
                self.number = n;
                Ok(true)
            }
        }
    }

    // Brings page n in, opened, and answers whether it is accepted.
    fn bring<D: Disk>(
        &mut self,
        ahead: &mut PagesAhead,
        disk: &mut D,
        codec: &Codec,
        n: u32,
    ) -> Result<bool, Failed>
        requires low { 1 ≤ n }
        requires high { IsTrue D.tells → n ≤ (file_pages codec.now (D.reads disk.old)).count }
        requires size { length self.old.bytes.items ≡ codec.now.profile.page_size }
        requires ahead { IsTrue D.tells → AreAhead codec.now (main_of (D.reads disk.old)) ahead.old }
        ensures accepted { IfOk result (λ accepted. IsTrue D.tells → accepted ≡ (file_pages codec.now (D.reads disk.old)).accepts n) }
        ensures opened { IfOk result (λ accepted. IsTrue D.tells → IsTrue accepted
            → take (usable codec.now.profile) self.new.bytes.items ≡ (file_pages codec.now (D.reads disk.old)).page n) }
        ensures size { length self.new.bytes.items ≡ length self.old.bytes.items }
        ensures number { self.new.number ≡ self.old.number }
        ensures ahead { IsTrue D.tells → AreAhead codec.now (main_of (D.reads disk.new)) ahead.new }
        ensures cause { HasCause (D.faults disk.old) (D.faults disk.new) result }
        ensures only_read { IsTrue D.tells → OnlyRead D.reads D.images D.moment D.since disk.old disk.new }
    {
        ahead.open(disk, codec, n, &mut self.bytes)
    }

    // The page as it was opened: its first bytes, so many.
    fn plain(&self, usable: usize) -> &[u8]
        requires { usable ≤ length self.now.bytes.items }
        ensures { result.now ≡ take usable self.now.bytes.items }
    {
        &self.bytes[..usable]
    }
}

/// Rooms for a page of an even number and for one of an odd number. An overflow page stands beside its leaf as a rule, and is so
/// opened once, though the pages are gone through and the chains as well.
#[derive(Drop)]
pub(crate) struct Rooms {
    even: PageRoom,
    odd: PageRoom,
    ahead: PagesAhead,
}

impl Rooms {
    /// Rooms for pages of this size, without a page, of a file of so many.
    pub(crate) fn new(alloc: Global, size: u32, pages: u32) -> Result<Rooms, OutOfMemory>
        requires { 1 ≤ size }
        ensures even { IfOk result (λ rooms. (length rooms.even.bytes.items ≡ size) × (rooms.even.number ≡ 0)) }
        ensures odd { IfOk result (λ rooms. (length rooms.odd.bytes.items ≡ size) × (rooms.odd.number ≡ 0)) }
        ensures ahead { IfOk result (λ rooms. (rooms.ahead.window.count ≡ 0) × (rooms.ahead.last ≡ pages)) }
    {
        let even = PageRoom::new(alloc, size as usize)?;
        let odd = PageRoom::new(alloc, size as usize)?;
        let ahead = PagesAhead::new(alloc, size, pages)?;
        Ok(Rooms { even, odd, ahead })
    }

    /// Opens page n, and answers whether it is accepted.
    pub(crate) fn open<D: Disk>(
        &mut self,
        disk: &mut D,
        codec: &Codec,
        n: u32,
    ) -> Result<bool, Failed>
        requires low { 1 ≤ n }
        requires high { IsTrue D.tells → n ≤ (file_pages codec.now (D.reads disk.old)).count }
        requires rooms { AreRooms D.tells codec.now (D.reads disk.old) self.old }
        ensures accepted { IfOk result (λ accepted. IsTrue D.tells → accepted ≡ (file_pages codec.now (D.reads disk.old)).accepts n) }
        ensures opened { IfOk result (λ accepted. IsTrue D.tells → IsTrue accepted
            → take (usable codec.now.profile) (room_bytes self.new n) ≡ (file_pages codec.now (D.reads disk.old)).page n) }
        ensures rooms { AreRooms D.tells codec.now (D.reads disk.new) self.new }
        ensures long { length (room_bytes self.new n) ≡ codec.now.profile.page_size }
        ensures cause { HasCause (D.faults disk.old) (D.faults disk.new) result }
        ensures only_read { IsTrue D.tells → OnlyRead D.reads D.images D.moment D.since disk.old disk.new }
    {
        if n % 2 == 0 {
            self.even.open(&mut self.ahead, disk, codec, n)
        } else {
            self.odd.open(&mut self.ahead, disk, codec, n)
        }
    }

    /// Page n as it was opened: its first bytes, so many.
    pub(crate) fn plain(&self, n: u32, usable: usize) -> &[u8]
        requires { usable ≤ length (room_bytes self.now n) }
        ensures bytes { result.now ≡ take usable (room_bytes self.now n) }
        ensures long { length result.now ≡ usable }
    {
        if n % 2 == 0 {
            self.even.plain(usable)
        } else {
            self.odd.plain(usable)
        }
    }
}
