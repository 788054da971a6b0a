// A page as a session sees it.
ghost use Rattle.std.specs.Prelude.{◌≡◌, ◌≤◌, ◌*◌, ℕ, length, take, true, false, None, Some, Ok, Err, IfOk, OnOk, IsTrue, IsSome};
ghost use Rattle.edge_model.specs.Causes.{HasCause, Rose};
ghost use Rattle.edge_model.specs.OnlyRead.{OnlyRead};
ghost use Rattle.cipher_profile.specs.Profile.{usable};
ghost use Rattle.edge_model.specs.Files.{main_of};
ghost use Rattle.session_hall.specs.Key.{codec_of};
ghost use Rattle.session_hall.specs.Machine.{IsFirstUnseen, SeesUpTo, committed_page, seen_page};

use crate::opening::{codec_of_main, first_bytes};
use crate::plain_page::PlainPage;
use crate::session::Session;
use edge_model::{Disk, Failed};
use page_codec::Codec;
use pager::{MAX_PAGE, read_page};
use std::alloc::Global;

/// Why a session does not see a page.
#[derive(Clone, Copy, Debug, PartialEq, Eq)]
pub enum Unseen {
    /// Its tag does not hold.
    TagRefused,
    /// The disk failed.
    DiskFault,
    /// Memory ran out.
    OutOfMemory,
}

/// Page n of the file as the session sees it: as it changed it, else as it is committed.
pub fn see_page<D: Disk>(
    alloc: Global,
    disk: &mut D,
    session: &mut Session,
    n: u32,
) -> Result<PlainPage, Unseen>
    requires number { 1 ≤ n }
    requires there { IsTrue D.tells → n * session.old.access.profile.page_size ≤ length (main_of (D.reads disk.old)) }
    ensures seen { IfOk result (λ page. IsTrue D.tells → seen_page session.old (main_of (D.reads disk.old)) n ≡ Some page) }
    ensures size { IfOk result (λ page. length page ≡ usable session.old.access.profile) }
    ensures unseen { result ≡ Err Unseen.TagRefused → IsTrue D.tells → seen_page session.old (main_of (D.reads disk.old)) n ≡ None }
    ensures fault { result ≡ Err Unseen.DiskFault → Rose (D.faults disk.old) (D.faults disk.new) }
    ensures later { D.faults disk.old ≤ D.faults disk.new }
    ensures only_read { IsTrue D.tells → OnlyRead D.reads D.images D.moment D.since disk.old disk.new }
    ensures same { session.new ≡ session.old }
{
    if let Some(page) = session.change(n) {
        return match PlainPage::new(alloc, page) {
            Ok(page) => Ok(page),
            Err(_) => Err(Unseen::OutOfMemory),
        };
    }
    read_committed(alloc, disk, session, n)
}

// Page n as it is committed, by the session's codec.
fn read_committed<D: Disk>(
    alloc: Global,
    disk: &mut D,
    session: &mut Session,
    n: u32,
) -> Result<PlainPage, Unseen>
    requires number { 1 ≤ n }
    requires there { IsTrue D.tells → n * session.old.access.profile.page_size ≤ length (main_of (D.reads disk.old)) }
    ensures seen { IfOk result (λ page. IsTrue D.tells → committed_page (codec_of session.old.access (main_of (D.reads disk.old))) (main_of (D.reads disk.old)) n ≡ Some page) }
    ensures size { IfOk result (λ page. length page ≡ usable session.old.access.profile) }
    ensures unseen { result ≡ Err Unseen.TagRefused → IsTrue D.tells → committed_page (codec_of session.old.access (main_of (D.reads disk.old))) (main_of (D.reads disk.old)) n ≡ None }
    ensures fault { result ≡ Err Unseen.DiskFault → Rose (D.faults disk.old) (D.faults disk.new) }
    ensures later { D.faults disk.old ≤ D.faults disk.new }
    ensures only_read { IsTrue D.tells → OnlyRead D.reads D.images D.moment D.since disk.old disk.new }
    ensures same { session.new ≡ session.old }
{
    let profile = session.profile();
    let usable = profile.usable();
    let Ok(mut page) = vec![in alloc; 0u8; profile.page_size as usize] else {
        return Err(Unseen::OutOfMemory);
    };
    open_committed(disk, session, n, &mut page)?;
    page.truncate(usable);
    Ok(PlainPage::of(page))
}

// Page n as it is committed is read and opened where it stands, by the session's codec.
fn open_committed<D: Disk>(
    disk: &mut D,
    session: &mut Session,
    n: u32,
    page: &mut [u8],
) -> Result<(), Unseen>
    requires number { 1 ≤ n }
    requires size { length page.old ≡ session.old.access.profile.page_size }
    requires there { IsTrue D.tells → n * session.old.access.profile.page_size ≤ length (main_of (D.reads disk.old)) }
    ensures seen { OnOk result (IsTrue D.tells → committed_page (codec_of session.old.access (main_of (D.reads disk.old))) (main_of (D.reads disk.old)) n
        ≡ Some (take (usable session.old.access.profile) page.new)) }
    ensures unseen { result ≡ Err Unseen.TagRefused → IsTrue D.tells → committed_page (codec_of session.old.access (main_of (D.reads disk.old))) (main_of (D.reads disk.old)) n ≡ None }
    ensures fault { result ≡ Err Unseen.DiskFault → Rose (D.faults disk.old) (D.faults disk.new) }
    ensures later { D.faults disk.old ≤ D.faults disk.new }
    ensures only_read { IsTrue D.tells → OnlyRead D.reads D.images D.moment D.since disk.old disk.new }
    ensures same { session.new ≡ session.old }
{
    let profile = session.profile();
    let _usable = profile.usable();
    let Ok(first) = first_bytes(disk) else {
        return Err(Unseen::DiskFault);
    };
    if read_page(disk, n, page).is_err() {
        return Err(Unseen::DiskFault);
    }
    match session.open_in_place(first, n, page) {
        Ok(()) => Ok(()),
        Err(_) => Err(Unseen::TagRefused),
    }
}

/// The least page that the session neither changed nor can open, none where it sees all.
pub fn first_unseen<D: Disk>(disk: &mut D, session: &mut Session) -> Result<Option<u32>, Failed>
    requires there { IsTrue D.tells → session.old.pages * session.old.access.profile.page_size ≤ length (main_of (D.reads disk.old)) }
    ensures all { result ≡ Ok None → IsTrue D.tells → SeesUpTo session.old (main_of (D.reads disk.old)) session.old.pages }
    ensures first { (n : ℕ) → result ≡ Ok (Some n) → IsTrue D.tells → IsFirstUnseen session.old (main_of (D.reads disk.old)) n }
    ensures same { session.new ≡ session.old }
    ensures cause { HasCause (D.faults disk.old) (D.faults disk.new) result }
    ensures only_read { IsTrue D.tells → OnlyRead D.reads D.images D.moment D.since disk.old disk.new }
{
    let codec = codec_of_main(disk, session)?;
    let profile = session.profile();
    let _usable = profile.usable();
    let mut buffer = [0u8; MAX_PAGE];
    let page = &mut buffer[..profile.page_size as usize];
    let pages = session.pages();
    for done in 0..pages {
        match sees(disk, session, &codec, done + 1, page) {
            Ok(true) => {}
            Ok(false) => return Ok(Some(done + 1)),
            Err(failed) => return Err(failed),
        }
    }
    Ok(None)
}

// Whether the session sees page n, by its codec. The page is read into these bytes.
fn sees<D: Disk>(
    disk: &mut D,
    session: &Session,
    codec: &Codec,
    n: u32,
    page: &mut [u8],
) -> Result<bool, Failed>
    requires number { 1 ≤ n }
    requires size { length page.old ≡ session.now.access.profile.page_size }
    requires profile { codec.now.profile ≡ session.now.access.profile }
    requires there { IsTrue D.tells → n * session.now.access.profile.page_size ≤ length (main_of (D.reads disk.old)) }
    requires codec { IsTrue D.tells → codec.now ≡ codec_of session.now.access (main_of (D.reads disk.old)) }
    ensures yes { result ≡ Ok true → IsTrue D.tells → IsSome (seen_page session.now (main_of (D.reads disk.old)) n) }
    ensures no { result ≡ Ok false → IsTrue D.tells → seen_page session.now (main_of (D.reads disk.old)) n ≡ None }
    ensures cause { HasCause (D.faults disk.old) (D.faults disk.new) result }
    ensures only_read { IsTrue D.tells → OnlyRead D.reads D.images D.moment D.since disk.old disk.new }
{
    if let Some(_changed) = session.change(n) {
        return Ok(true);
    }
    let profile = session.profile();
    let _usable = profile.usable();
    read_page(disk, n, page)?;
    match codec.open_in_place(n, page) {
        Ok(()) => Ok(true),
        Err(_) => Ok(false),
    }
}
