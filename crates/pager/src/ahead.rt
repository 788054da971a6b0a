// Pages that are read together and opened side by side, before they are asked for.
ghost use Rattle.std.specs.Prelude.{◌≡◌, ◌⊎◌, ℕ, ◌+◌, ◌*◌, ◌^◌, ◌≤◌, ◌<◌, length, take, slice_index, true, false, Err, IfOk, IfErr, OnOk, IsTrue};
ghost use Rattle.edge_model.specs.Causes.{Rose};
ghost use Rattle.edge_model.specs.Files.{main_of};
ghost use Rattle.edge_model.specs.OnlyRead.{OnlyRead};
ghost use Rattle.cipher_profile.specs.Profile.{usable};
ghost use Rattle.page_codec.specs.Page.{accepts, opened};
ghost use Rattle.pager.specs.Ahead.{AreNumbered, AreReadAhead, AreStored, AreWhole, IsAhead, IsRun};
ghost use Rattle.pager.specs.File.{page_stored};

use crate::fill::{PageError, read_opened};
use crate::main_file::{read_main, read_page};
use crate::window::{Wanted, Window};
use edge_model::Disk;
use page_codec::Codec;

/// Reads page n and opens it: the plain page is in front of this frame then. Pages behind it or these siblings, up to `last`, may be read and
/// opened with it, and wait in the window. Whatever becomes of them, page n is given or refused as it would be alone.
pub fn read_ahead<D: Disk>(
    disk: &mut D,
    codec: &Codec,
    pages: &mut [u8],
    window: &mut Window,
    n: u32,
    siblings: &Wanted,
    last: u32,
    page: &mut [u8],
) -> Result<(), PageError>
    requires number { 1 ≤ n }
    requires there { IsTrue D.tells → n * codec.now.profile.page_size ≤ length (main_of (D.reads disk.old)) }
    requires whole { IsTrue D.tells → last * codec.now.profile.page_size ≤ length (main_of (D.reads disk.old)) }
    requires size { length page.old ≡ codec.now.profile.page_size }
    requires ahead { IsTrue D.tells → IsAhead codec.now (main_of (D.reads disk.old)) window.old pages.old }
    ensures accepted { OnOk result (IsTrue D.tells → accepts codec.now n (page_stored codec.now (main_of (D.reads disk.old)) n) ≡ true) }
    ensures plain { OnOk result (IsTrue D.tells → take (usable codec.now.profile) page.new ≡ opened codec.now n (page_stored codec.now (main_of (D.reads disk.old)) n)) }
    ensures refused { IfErr result (λ e. ((e ≡ PageError.TagRefused n) × (IsTrue D.tells → accepts codec.now n (page_stored codec.now (main_of (D.reads disk.old)) n) ≡ false))
        ⊎ ((e ≡ PageError.DiskFault) × Rose (D.faults disk.old) (D.faults disk.new))) }
    ensures room { length pages.new ≡ length pages.old }
    ensures ahead { IsTrue D.tells → IsAhead codec.now (main_of (D.reads disk.old)) window.new pages.new }
    ensures later { D.faults disk.old ≤ D.faults disk.new }
    ensures only_read { IsTrue D.tells → OnlyRead D.reads D.images D.moment D.since disk.old disk.new }
{
    let _usable = codec.profile().usable();
    let room = pages.len() / codec.profile().page_size as usize;
    if window.copy_page(pages, n, page) {
        *window = window.met(n);
        return Ok(());
    }
    *window = window.asked(n);
    let wanted = window.wanted(n, siblings, last, room);
    if !wanted.is_readable(last, room) {
        return read_opened(disk, codec, n, page);
    }
    fill_window(disk, codec, pages, window, &wanted);
    if window.copy_page(pages, n, page) {
        *window = window.met(n);
        return Ok(());
    }
    read_opened(disk, codec, n, page)
}

/// The same by a buffer, out of which the plain page is copied.
pub(crate) fn read_plain_ahead<D: Disk>(
    disk: &mut D,
    codec: &Codec,
    pages: &mut [u8],
    window: &mut Window,
    n: u32,
    last: u32,
    stored: &mut [u8],
    plain: &mut [u8],
) -> Result<(), PageError>
    requires number { 1 ≤ n }
    requires there { IsTrue D.tells → n * codec.now.profile.page_size ≤ length (main_of (D.reads disk.old)) }
    requires whole { IsTrue D.tells → last * codec.now.profile.page_size ≤ length (main_of (D.reads disk.old)) }
    requires space { length stored.old ≡ codec.now.profile.page_size }
    requires size { length plain.old ≡ usable codec.now.profile }
    requires ahead { IsTrue D.tells → IsAhead codec.now (main_of (D.reads disk.old)) window.old pages.old }
    ensures accepted { OnOk result (IsTrue D.tells → accepts codec.now n (page_stored codec.now (main_of (D.reads disk.old)) n) ≡ true) }
    ensures plain { OnOk result (IsTrue D.tells → plain.new ≡ opened codec.now n (page_stored codec.now (main_of (D.reads disk.old)) n)) }
    ensures refused { IfErr result (λ e. ((e ≡ PageError.TagRefused n) × (IsTrue D.tells → accepts codec.now n (page_stored codec.now (main_of (D.reads disk.old)) n) ≡ false))
        ⊎ ((e ≡ PageError.DiskFault) × Rose (D.faults disk.old) (D.faults disk.new))) }
    ensures room { length pages.new ≡ length pages.old }
    ensures ahead { IsTrue D.tells → IsAhead codec.now (main_of (D.reads disk.old)) window.new pages.new }
    ensures later { D.faults disk.old ≤ D.faults disk.new }
    ensures only_read { IsTrue D.tells → OnlyRead D.reads D.images D.moment D.since disk.old disk.new }
{
    read_ahead(disk, codec, pages, window, n, &Wanted::none(), last, stored)?;
    plain.copy_from_slice(&stored[..codec.profile().usable()]);
    Ok(())
}

// Reads these pages into the window, and opens them side by side. Where the disk fails, the window is empty.
fn fill_window<D: Disk>(
    disk: &mut D,
    codec: &Codec,
    pages: &mut [u8],
    window: &mut Window,
    wanted: &Wanted,
)
    requires most { wanted.now.count ≤ 8 }
    requires room { codec.now.profile.page_size * wanted.now.count ≤ length pages.old }
    requires readable { AreNumbered wanted.now.numbers wanted.now.count }
    requires whole { IsTrue D.tells → AreWhole codec.now.profile.page_size (main_of (D.reads disk.old)) wanted.now.numbers wanted.now.count }
    ensures room { length pages.new ≡ length pages.old }
    ensures ahead { IsTrue D.tells → IsAhead codec.now (main_of (D.reads disk.old)) window.new pages.new }
    ensures later { D.faults disk.old ≤ D.faults disk.new }
    ensures only_read { IsTrue D.tells → OnlyRead D.reads D.images D.moment D.since disk.old disk.new }
{
    let _usable = codec.profile().usable();
    *window = window.forget();
    let size = codec.profile().page_size as usize;
    let count = wanted.count as usize;
    let mut held = [false; 8];
    if open_listed(
        disk,
        codec,
        wanted,
        &mut pages[..size * count],
        &mut held[..count],
    ) {
        *window = window.filled(wanted, held);
    }
}

// Reads these pages, opens them where they stand, and says whether the disk gave them.
fn open_listed<D: Disk>(
    disk: &mut D,
    codec: &Codec,
    wanted: &Wanted,
    pages: &mut [u8],
    held: &mut [bool],
) -> bool
    requires most { wanted.now.count ≤ 8 }
    requires many { length held.old ≡ wanted.now.count }
    requires size { length pages.old ≡ codec.now.profile.page_size * wanted.now.count }
    requires readable { AreNumbered wanted.now.numbers wanted.now.count }
    requires whole { IsTrue D.tells → AreWhole codec.now.profile.page_size (main_of (D.reads disk.old)) wanted.now.numbers wanted.now.count }
    ensures sizes { (length pages.new ≡ codec.now.profile.page_size * wanted.now.count) × (length held.new ≡ wanted.now.count) }
    ensures ahead { result ≡ true → IsTrue D.tells
        → AreReadAhead codec.now (main_of (D.reads disk.old)) wanted.now.numbers wanted.now.count held.new pages.new }
    ensures later { D.faults disk.old ≤ D.faults disk.new }
    ensures only_read { IsTrue D.tells → OnlyRead D.reads D.images D.moment D.since disk.old disk.new }
{
    let _usable = codec.profile().usable();
    let size = codec.profile().page_size as usize;
    let numbers = wanted.pages();
    if !read_listed(disk, size, numbers, pages) {
        return false;
    }
    codec.open_pages(numbers, pages, held);
    true
}

// Reads these pages of this size, in one call where they stand one after another in the file, and says whether the disk gave them.
fn read_listed<D: Disk>(disk: &mut D, size: usize, numbers: &[u32], pages: &mut [u8]) -> bool
    requires size { (1 ≤ size) × (size ≤ 2 ^ 16) }
    requires long { length pages.old ≡ size * length numbers.now }
    requires readable { AreNumbered numbers.now (length numbers.now) }
    requires whole { IsTrue D.tells → AreWhole size (main_of (D.reads disk.old)) numbers.now (length numbers.now) }
    ensures long { length pages.new ≡ length pages.old }
    ensures told { result ≡ true → IsTrue D.tells → AreStored size (main_of (D.reads disk.old)) numbers.now (length numbers.now) pages.new }
    ensures later { D.faults disk.old ≤ D.faults disk.new }
    ensures only_read { IsTrue D.tells → OnlyRead D.reads D.images D.moment D.since disk.old disk.new }
{
    if is_run(numbers) {
        read_run(disk, size, numbers, pages)
    } else {
        read_each(disk, size, numbers, pages)
    }
}

// The same of pages that stand one after another.
fn read_run<D: Disk>(disk: &mut D, size: usize, numbers: &[u32], pages: &mut [u8]) -> bool
    requires size { (1 ≤ size) × (size ≤ 2 ^ 16) }
    requires long { length pages.old ≡ size * length numbers.now }
    requires readable { AreNumbered numbers.now (length numbers.now) }
    requires run { IsRun numbers.now }
    requires whole { IsTrue D.tells → AreWhole size (main_of (D.reads disk.old)) numbers.now (length numbers.now) }
    ensures long { length pages.new ≡ length pages.old }
    ensures told { result ≡ true → IsTrue D.tells → AreStored size (main_of (D.reads disk.old)) numbers.now (length numbers.now) pages.new }
    ensures later { D.faults disk.old ≤ D.faults disk.new }
    ensures only_read { IsTrue D.tells → OnlyRead D.reads D.images D.moment D.since disk.old disk.new }
{
    let at = (numbers[0] as u64 - 1) * size as u64;
    match read_main(disk, at, pages) {
        Ok(()) => true,
        Err(_) => false,
    }
}

// The same of each alone.
fn read_each<D: Disk>(disk: &mut D, size: usize, numbers: &[u32], pages: &mut [u8]) -> bool
    requires size { (1 ≤ size) × (size ≤ 2 ^ 16) }
    requires long { length pages.old ≡ size * length numbers.now }
    requires readable { AreNumbered numbers.now (length numbers.now) }
    requires whole { IsTrue D.tells → AreWhole size (main_of (D.reads disk.old)) numbers.now (length numbers.now) }
    ensures long { length pages.new ≡ length pages.old }
    ensures told { result ≡ true → IsTrue D.tells → AreStored size (main_of (D.reads disk.old)) numbers.now (length numbers.now) pages.new }
    ensures later { D.faults disk.old ≤ D.faults disk.new }
    ensures only_read { IsTrue D.tells → OnlyRead D.reads D.images D.moment D.since disk.old disk.new }
{
    'pages: for i in 0..numbers.len() {
        match read_page(disk, numbers[i], &mut pages[size * i..size * i + size]) {
            Ok(()) => {}
            Err(_) => return false,
        }
    }
    true
}

// Whether there are pages, and these numbers are those of pages that stand one after another.
fn is_run(numbers: &[u32]) -> bool
    ensures { result ≡ true → IsRun numbers.now }
{
    if numbers.is_empty() {
        return false;
    }
    'numbers: for i in 1..numbers.len() {
        if numbers[i] <= numbers[i - 1] || numbers[i] - numbers[i - 1] != 1 {
            return false;
        }
    }
    true
}
