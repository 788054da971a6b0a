// A page is brought into a frame.
ghost use Rattle.std.specs.Prelude.{◌≡◌, ◌⊎◌, ◌*◌, ◌≤◌, ◌<◌, ℕ, length, take, true, false, None, Err, IfErr, OnOk, OnErr, IsTrue};
ghost use Rattle.edge_model.specs.Causes.{Rose};
ghost use Rattle.edge_model.specs.OnlyRead.{OnlyRead};
ghost use Rattle.cipher_profile.specs.Profile.{usable};
ghost use Rattle.page_codec.specs.Page.{accepts, opened};
ghost use Rattle.page_cache.specs.Pages.{is_held};
ghost use Rattle.pager.specs.File.{page_stored};
ghost use Rattle.pager.specs.Ahead.{IsAhead};
ghost use Rattle.pager.specs.Held.{bytes_of_page, pins_of, AreOpened, IsAllPinned, HasRoom};
ghost use Rattle.pager.specs.Causes.{IsLoadCause};
ghost use Rattle.edge_model.specs.Files.{main_of};

use crate::ahead::read_ahead;
use crate::children::siblings;
use crate::main_file::read_page;
use crate::window::{Wanted, Window};
use edge_model::Disk;
use page_cache::Cache;
use page_codec::Codec;

/// Why a page was not given. It is found in this order: the number, then whether a frame can be had, then the disk, then the tag.
#[derive(Clone, Copy, Debug, PartialEq, Eq)]
pub enum PageError {
    /// There is no page with this number.
    OutOfRange,
    /// The tag of this page does not hold.
    TagRefused { page: u32 },
    /// The disk failed.
    DiskFault,
    /// The source of random bytes failed. No call that reads answers it.
    EntropyFault,
    /// The page is not held, and every frame holds a page with a pin.
    AllPinned,
}

// A frame for page n, which is not held. The least recently used page without a pin leaves its frame where none is free.
fn make_room(cache: &mut Cache, n: u32) -> Result<(), PageError>
    requires { is_held n cache.old.held ≡ false }
    ensures room { OnOk result (HasRoom n cache.old cache.new) }
    ensures pinned { IfErr result (λ e. (e ≡ PageError.AllPinned) × IsAllPinned cache.old) }
    ensures comes { IsAllPinned cache.old → result ≡ Err PageError.AllPinned }
    ensures kept { OnErr result (cache.new ≡ cache.old) }
{
    if cache.hold(n).is_ok() {
        return Ok(());
    }
    let Some(victim) = cache.victim() else {
        return Err(PageError::AllPinned);
    };
    cache.discard(victim);
    match cache.hold(n) {
        Ok(()) => Ok(()),
        Err(_) => Err(PageError::AllPinned),
    }
}

// Reads page n and opens it where it stands: the plain page is in front then.
pub(crate) fn read_opened<D: Disk>(
    disk: &mut D,
    codec: &Codec,
    n: u32,
    page: &mut [u8],
) -> Result<(), PageError>
    requires number { 1 ≤ n }
    requires there { IsTrue D.tells → n * codec.now.profile.page_size ≤ length (main_of (D.reads disk.old)) }
    requires size { length page.old ≡ codec.now.profile.page_size }
    ensures accepted { OnOk result (IsTrue D.tells → accepts codec.now n (page_stored codec.now (main_of (D.reads disk.old)) n) ≡ true) }
    ensures plain { OnOk result (IsTrue D.tells → take (usable codec.now.profile) page.new ≡ opened codec.now n (page_stored codec.now (main_of (D.reads disk.old)) n)) }
    ensures refused { IfErr result (λ e. ((e ≡ PageError.TagRefused n) × (IsTrue D.tells → accepts codec.now n (page_stored codec.now (main_of (D.reads disk.old)) n) ≡ false))
        ⊎ ((e ≡ PageError.DiskFault) × Rose (D.faults disk.old) (D.faults disk.new))) }
    ensures later { D.faults disk.old ≤ D.faults disk.new }
    ensures only_read { IsTrue D.tells → OnlyRead D.reads D.images D.moment D.since disk.old disk.new }
{
    let _usable = codec.profile().usable();
    if read_page(disk, n, page).is_err() {
        return Err(PageError::DiskFault);
    }
    match codec.open_in_place(n, page) {
        Ok(()) => Ok(()),
        Err(_) => Err(PageError::TagRefused { page: n }),
    }
}

/// Reads page n into a buffer, opens it there, and copies out the plain page.
pub(crate) fn read_plain<D: Disk>(
    disk: &mut D,
    codec: &Codec,
    n: u32,
    stored: &mut [u8],
    plain: &mut [u8],
) -> Result<(), PageError>
    requires number { 1 ≤ n }
    requires there { IsTrue D.tells → n * codec.now.profile.page_size ≤ length (main_of (D.reads disk.old)) }
    requires room { length stored.old ≡ codec.now.profile.page_size }
    requires size { length plain.old ≡ usable codec.now.profile }
    ensures accepted { OnOk result (IsTrue D.tells → accepts codec.now n (page_stored codec.now (main_of (D.reads disk.old)) n) ≡ true) }
    ensures plain { OnOk result (IsTrue D.tells → plain.new ≡ opened codec.now n (page_stored codec.now (main_of (D.reads disk.old)) n)) }
    ensures refused { IfErr result (λ e. ((e ≡ PageError.TagRefused n) × (IsTrue D.tells → accepts codec.now n (page_stored codec.now (main_of (D.reads disk.old)) n) ≡ false))
        ⊎ ((e ≡ PageError.DiskFault) × Rose (D.faults disk.old) (D.faults disk.new))) }
    ensures later { D.faults disk.old ≤ D.faults disk.new }
    ensures only_read { IsTrue D.tells → OnlyRead D.reads D.images D.moment D.since disk.old disk.new }
{
    read_opened(disk, codec, n, stored)?;
    plain.copy_from_slice(&stored[..codec.profile().usable()]);
    Ok(())
}

// The next children behind page n of the page that was held last, if that is still there.
fn siblings_in(cache: &Cache, parent: u32, n: u32) -> Wanted {
    match cache.get(parent) {
        Some(page) => siblings(page, parent, n),
        None => Wanted::none(),
    }
}

/// Page n is held, the most recently used. Page `parent` was held last: if it names page n as a child, the next children may be read with it.
pub(crate) fn fill_page<D: Disk>(
    disk: &mut D,
    codec: &Codec,
    cache: &mut Cache,
    pages: &mut [u8],
    window: &mut Window,
    parent: u32,
    n: u32,
    last: u32,
) -> Result<(), PageError>
    requires number { 1 ≤ n }
    requires there { IsTrue D.tells → n * codec.now.profile.page_size ≤ length (main_of (D.reads disk.old)) }
    requires whole { IsTrue D.tells → last * codec.now.profile.page_size ≤ length (main_of (D.reads disk.old)) }
    requires size { cache.old.usable ≡ codec.now.profile.page_size }
    requires ahead { IsTrue D.tells → IsAhead codec.now (main_of (D.reads disk.old)) window.old pages.old }
    requires opened { IsTrue D.tells → AreOpened codec.now (main_of (D.reads disk.old)) cache.old.held }
    ensures held { OnOk result (is_held n cache.new.held ≡ true) }
    ensures room { length pages.new ≡ length pages.old }
    ensures ahead { IsTrue D.tells → IsAhead codec.now (main_of (D.reads disk.old)) window.new pages.new }
    ensures opened { IsTrue D.tells → AreOpened codec.now (main_of (D.reads disk.old)) cache.new.held }
    ensures sized { OnOk result (length (bytes_of_page n cache.new.held) ≡ cache.old.usable) }
    ensures frames { (cache.new.usable ≡ cache.old.usable) × (cache.new.frames ≡ cache.old.frames) }
    ensures pins { pins_of cache.new.held ≡ pins_of cache.old.held }
    // why it is not, and that nothing of it is left
    ensures cause { IfErr result (IsLoadCause (IsTrue D.tells → accepts codec.now n (page_stored codec.now (main_of (D.reads disk.old)) n) ≡ false)
        n cache.old (D.faults disk.old) (D.faults disk.new)) }
    ensures pinned { is_held n cache.old.held ≡ false → IsAllPinned cache.old → result ≡ Err PageError.AllPinned }
    ensures gone { OnErr result (is_held n cache.new.held ≡ false) }
    ensures later { D.faults disk.old ≤ D.faults disk.new }
    ensures only_read { IsTrue D.tells → OnlyRead D.reads D.images D.moment D.since disk.old disk.new }
{
    if cache.touch(n) {
        return Ok(());
    }
    let siblings = siblings_in(cache, parent, n);
    make_room(cache, n)?;
    match read_ahead(
        disk,
        codec,
        pages,
        window,
        n,
        &siblings,
        last,
        cache.at_mut(n),
    ) {
        Ok(()) => Ok(()),
        Err(refusal) => {
            cache.discard(n);
            Err(refusal)
        }
    }
}
