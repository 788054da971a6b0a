// What stands on the disk, and so what is to be done.
ghost use Rattle.std.specs.Prelude.{◌≡◌, ◌≢◌, ◌+◌, ◌<◌, ◌≤◌, length, IsTrue, IfOk, None};
ghost use Rattle.edge_model.specs.Causes.{HasCause};
ghost use Rattle.edge_model.specs.Images.{Each, LeavesOnly};
ghost use Rattle.edge_model.specs.Files.{bytes_of};
ghost use Rattle.journal_format.specs.Header.{sector_at};
ghost use Rattle.journal_format.specs.Segments.{names_super};
ghost use Rattle.rollback_journal.specs.Recovery.{HasByte};
ghost use Rattle.rollback_journal.specs.Playing.{journal_of};
ghost use Rattle.rollback_journal.specs.Closing.{IsJournalFound, IsRefusable};

use crate::playback::read_full;
use crate::recovery::RecoverError;
use crate::segments::Reading;
use edge_model::{Disk, Failed, Role};
use journal_format::{ends_super, read_header, sector_ok};

/// What is to be done.
pub enum Found {
    /// Main has no byte, or there is no journal.
    Nothing,
    /// The journal is not hot.
    Cold,
    /// The journal is hot and is not played.
    Refused(RecoverError),
    /// The journal is hot and is played.
    Hot(Reading),
}

/// Whether a hot journal of this length and sector size, in bytes, names a super-journal.
fn is_super<D: Disk>(disk: &mut D, sector: u32, len: u64) -> Result<bool, Failed>
    requires sector { (32 ≤ sector) × (sector ≤ 65536) }
    requires told { IsTrue D.tells → ((D.reads disk.old).journal ≢ None) × (len ≡ length (journal_of (D.reads disk.old)))
        × (sector ≡ sector_at 0 (journal_of (D.reads disk.old))) }
    ensures answer { IfOk result (λ named. IsTrue D.tells → named ≡ names_super (journal_of (D.reads disk.old))) }
    ensures same { IsTrue D.tells → D.reads disk.new ≡ D.reads disk.old }
    ensures crash { IsTrue D.tells → Each (D.images disk.new) (D.images disk.old) }
    ensures any_moment { IsTrue D.tells → LeavesOnly D.moment D.since disk.old disk.new (D.images disk.old) }
    ensures cause { HasCause (D.faults disk.old) (D.faults disk.new) result }
{
    if len < sector as u64 + 17 {
        return Ok(false);
    }
    let mut tail = [0; 16];
    read_full(disk, Role::Journal, len - 16, &mut tail)?;
    let mut front = [0; 44];
    read_full(disk, Role::Journal, 0, &mut front)?;
    Ok(ends_super(sector, len, &front, &tail))
}

/// What is to be done with a journal of this length beside a Main with a byte.
fn look_at<D: Disk>(disk: &mut D, page_size: u32, len: u64) -> Result<Found, Failed>
    requires size { (512 ≤ page_size) × (page_size ≤ 65536) }
    requires told { IsTrue D.tells → HasByte (bytes_of (D.reads disk.old).main) × ((D.reads disk.old).journal ≢ None)
        × (len ≡ length (journal_of (D.reads disk.old))) }
    ensures found { IfOk result (λ found. IsTrue D.tells → IsJournalFound page_size (D.reads disk.old) found) }
    ensures sound { IfOk result (λ found. IsRefusable page_size found) }
    ensures same { IsTrue D.tells → D.reads disk.new ≡ D.reads disk.old }
    ensures crash { IsTrue D.tells → Each (D.images disk.new) (D.images disk.old) }
    ensures any_moment { IsTrue D.tells → LeavesOnly D.moment D.since disk.old disk.new (D.images disk.old) }
    ensures cause { HasCause (D.faults disk.old) (D.faults disk.new) result }
{
    if len < 28 {
        return Ok(Found::Cold);
    }
    let mut head = [0; 28];
    read_full(disk, Role::Journal, 0, &mut head)?;
    let Some(header) = read_header(&head) else {
        return Ok(Found::Cold);
    };
    if !sector_ok(header.sector) {
        return Ok(Found::Cold);
    }
    if header.page_size != page_size {
        return Ok(Found::Refused(RecoverError::JournalPageSize {
            found: header.page_size,
        }));
    }
    let named = is_super(disk, header.sector, len)?;
    if named {
        return Ok(Found::Refused(RecoverError::SuperJournal));
    }
    Ok(Found::Hot(Reading {
        page_size,
        initial: header.initial,
        sector: header.sector,
        len,
    }))
}

/// What is to be done with Main and Journal.
pub fn look<D: Disk>(disk: &mut D, page_size: u32) -> Result<Found, Failed>
    requires { (512 ≤ page_size) × (page_size ≤ 65536) }
    ensures found { IfOk result (λ found. IsTrue D.tells → IsJournalFound page_size (D.reads disk.old) found) }
    ensures sound { IfOk result (λ found. IsRefusable page_size found) }
    ensures same { IsTrue D.tells → D.reads disk.new ≡ D.reads disk.old }
    ensures crash { IsTrue D.tells → Each (D.images disk.new) (D.images disk.old) }
    ensures any_moment { IsTrue D.tells → LeavesOnly D.moment D.since disk.old disk.new (D.images disk.old) }
    ensures cause { HasCause (D.faults disk.old) (D.faults disk.new) result }
{
    match disk.length(Role::Main)? {
        None | Some(0) => return Ok(Found::Nothing),
        Some(_) => {}
    }
    let Some(len) = disk.length(Role::Journal)? else {
        return Ok(Found::Nothing);
    };
    look_at(disk, page_size, len)
}
