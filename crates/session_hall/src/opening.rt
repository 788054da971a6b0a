// Main is opened by a session's key.
ghost use Rattle.std.specs.Prelude.{◌≡◌, ◌≤◌, ◌<◌, length, None, Some, IfOk, IfErr, IsTrue};
ghost use Rattle.edge_model.specs.Causes.{HasCause, Rose};
ghost use Rattle.edge_model.specs.Images.{Each};
ghost use Rattle.edge_model.specs.OnlyRead.{OnlyRead};
ghost use Rattle.edge_model.specs.Files.{main_of};
ghost use Rattle.pager.specs.Opening.{HasNoJournal, IsRefusedBy};
ghost use Rattle.session_hall.specs.Key.{Access, codec_at, codec_of};
ghost use Rattle.session_hall.specs.Machine.{opened_by, counted_pages};

use crate::session::Session;
use edge_model::{Disk, Failed};
use page_codec::Codec;
use pager::{OpenError, OpenedFile, read_main, served_length};
use std::alloc::Global;

/// How many frames are taken where a file is only looked at.
const FRAMES: u32 = 24;

/// The bytes that Main begins with, which give the codec of each session for it.
pub fn first_bytes<D: Disk>(disk: &mut D) -> Result<[u8; 16], Failed>
    ensures codec { IfOk result (λ first. IsTrue D.tells → 16 ≤ length (main_of (D.reads disk.old)) → (access : Access) → codec_at access first ≡ codec_of access (main_of (D.reads disk.old))) }
    ensures cause { HasCause (D.faults disk.old) (D.faults disk.new) result }
    ensures only_read { IsTrue D.tells → OnlyRead D.reads D.images D.moment D.since disk.old disk.new }
{
    let mut first = [0u8; 16];
    read_main(disk, 0, &mut first)?;
    Ok(first)
}

/// The session's codec for Main.
pub fn codec_of_main<D: Disk>(disk: &mut D, session: &mut Session) -> Result<Codec, Failed>
    ensures codec { IfOk result (λ codec. IsTrue D.tells → 16 ≤ length (main_of (D.reads disk.old)) → codec ≡ codec_of session.old.access (main_of (D.reads disk.old))) }
    ensures profile { IfOk result (λ codec. codec.profile ≡ session.old.access.profile) }
    ensures same { session.new ≡ session.old }
    ensures cause { HasCause (D.faults disk.old) (D.faults disk.new) result }
    ensures only_read { IsTrue D.tells → OnlyRead D.reads D.images D.moment D.since disk.old disk.new }
{
    let first = first_bytes(disk)?;
    Ok(session.codec(first))
}

/// How many pages Main has, where it opens by the session's key. It is only read.
pub fn count_pages<D: Disk>(
    alloc: Global,
    disk: &mut D,
    session: &mut Session,
) -> Result<u32, OpenError>
    requires recovered { IsTrue D.tells → 0 < length (main_of (D.reads disk.old)) → Each (D.images disk.old) HasNoJournal }
    ensures opens { IfOk result (λ pages. IsTrue D.tells → counted_pages (opened_by session.old.access (main_of (D.reads disk.old))) ≡ Some pages) }
    ensures refused { IfErr result (λ error. IsTrue D.tells → IsRefusedBy (opened_by session.old.access (main_of (D.reads disk.old))) error) }
    ensures fault { IfErr result (λ error. error ≡ OpenError.DiskFault → Rose (D.faults disk.old) (D.faults disk.new)) }
    ensures later { D.faults disk.old ≤ D.faults disk.new }
    ensures only_read { IsTrue D.tells → OnlyRead D.reads D.images D.moment D.since disk.old disk.new }
    ensures same { session.new ≡ session.old }
{
    let profile = session.profile();
    let _usable = profile.usable();
    served_length(disk, &profile)?;
    let Ok(codec) = codec_of_main(disk, session) else {
        return Err(OpenError::DiskFault);
    };
    match OpenedFile::read(alloc, disk, codec, FRAMES) {
        Ok(file) => Ok(file.pages()),
        Err(error) => Err(error),
    }
}
