// Recovery from a rollback journal.
ghost use Rattle.std.specs.Prelude.{◌≡◌, ◌≢◌, ◌⊎◌, ◌+◌, ◌*◌, ◌<◌, ◌≤◌, Bool, List, ℕ, length, take, IsTrue, IfErr, IfOk, OnOk, None, Ok, Err};
ghost use Rattle.edge_model.specs.Causes.{HasCause, Rose};
ghost use Rattle.edge_model.specs.Files.{bytes_of, main_of};
ghost use Rattle.edge_model.specs.Images.{Each, From, HasSynced, LeavesOnly};
ghost use Rattle.journal_format.specs.Segments.{played};
ghost use Rattle.rollback_journal.specs.Laying.{laid};
ghost use Rattle.rollback_journal.specs.Recovery.{KeepsRecovered, HasByte, IsPlaybackDone, IsSettled, RecoversOnlyTo, answer_to, changes_nothing, end_of};
ghost use Rattle.rollback_journal.specs.Playing.{journal_of, IsPlayedHot, IsInPlay, IsJournalReading, IsReadingOf};
ghost use Rattle.rollback_journal.specs.Closing.{IsLaidBack, IsCold};
ghost use Rattle.rollback_journal.specs.declared.recovery.RecoverError.TheVariants.{DiskFault};

use crate::looking::{Found, look};
use crate::segments::{Reading, play};
use edge_model::{Disk, Failed, Role};
use std::alloc::Global;
use thiserror::Error;

/// What a recovery did.
#[derive(Clone, Copy, Debug, PartialEq, Eq)]
pub enum Recovery {
    /// Main has no byte, or there is no journal.
    Nothing,
    /// There was a journal that is not hot. It was removed.
    Cold,
    /// There was a hot journal. So many of its records were laid over Main, and it was removed.
    Played { records: u64 },
}

/// Why there was no recovery.
#[derive(Clone, Copy, Debug, PartialEq, Eq, Error)]
pub enum RecoverError {
    /// The journal is hot, and its header names pages of this other size, in bytes.
    #[error("the journal's pages have {found} bytes")]
    JournalPageSize { found: u32 },
    /// The journal is hot and ends in the name of a super-journal.
    #[error("the journal names a super-journal")]
    SuperJournal,
    /// The disk failed.
    #[error("the disk failed")]
    DiskFault,
    /// Memory ran out, before anything was written.
    #[error("out of memory")]
    OutOfMemory,
}

impl From<Failed> for RecoverError {
    ghost from_gives = { λ _ error. error ≡ DiskFault };

    fn from(_failed: Failed) -> RecoverError {
        RecoverError::DiskFault
    }
}

/// Syncs the role where it has a file.
fn sync_present<D: Disk>(disk: &mut D, role: Role) -> Result<(), Failed>
    ensures same { IsTrue D.tells → D.reads disk.new ≡ D.reads disk.old }
    ensures synced { OnOk result (IsTrue D.tells → Each (D.images disk.new) (HasSynced role (D.reads disk.old))) }
    ensures crash { IsTrue D.tells → Each (D.images disk.new) (D.images disk.old) }
    ensures any_moment { IsTrue D.tells → LeavesOnly D.moment D.since disk.old disk.new (D.images disk.old) }
    ensures cause { HasCause (D.faults disk.old) (D.faults disk.new) result }
{
    if disk.length(role)?.is_none() {
        return Ok(());
    }
    disk.sync(role)
}

/// Syncs Main and Journal where they are there, and then the folder: each image then has both as they read.
fn barrier<D: Disk>(disk: &mut D) -> Result<(), Failed>
    ensures same { IsTrue D.tells → D.reads disk.new ≡ D.reads disk.old }
    ensures settled { OnOk result (IsTrue D.tells → Each (D.images disk.new) (IsSettled (D.reads disk.old))) }
    ensures crash { IsTrue D.tells → Each (D.images disk.new) (D.images disk.old) }
    ensures any_moment { IsTrue D.tells → LeavesOnly D.moment D.since disk.old disk.new (D.images disk.old) }
    ensures cause { HasCause (D.faults disk.old) (D.faults disk.new) result }
{
    sync_present(disk, Role::Main)?;
    sync_present(disk, Role::Journal)?;
    disk.sync_folder()?;
    Ok(())
}

/// Cuts Main to its end, in bytes, and syncs it. It is then the recovered file.
fn finish_main<D: Disk>(disk: &mut D, page_size: u32, end: u64) -> Result<(), Failed>
    requires size { 0 < page_size }
    requires in_play { IsTrue D.tells → Each (D.images disk.old) (IsInPlay page_size (D.reads disk.old)) }
    requires end { IsTrue D.tells → end ≡ end_of page_size (journal_of (D.reads disk.old)) }
    ensures main { OnOk result (IsTrue D.tells → main_of (D.reads disk.new) ≡ take end (main_of (D.reads disk.old))) }
    ensures there { OnOk result (IsTrue D.tells → (D.reads disk.new).main ≢ None) }
    ensures journal { OnOk result (IsTrue D.tells → (D.reads disk.new).journal ≡ (D.reads disk.old).journal) }
    ensures settled { OnOk result (IsTrue D.tells → Each (D.images disk.new) (IsSettled (D.reads disk.new))) }
    ensures any_moment { IsTrue D.tells →
        LeavesOnly D.moment D.since disk.old disk.new (From (KeepsRecovered page_size) (D.images disk.old)) }
    ensures cause { HasCause (D.faults disk.old) (D.faults disk.new) result }
{
    disk.cut(Role::Main, end)?;
    disk.sync(Role::Main)?;
    Ok(())
}

/// Closes the journal: its first byte is 0, and is synced. Main is the recovered file already.
fn close_gate<D: Disk>(disk: &mut D, page_size: u32) -> Result<(), Failed>
    requires settled { IsTrue D.tells → Each (D.images disk.old) (IsSettled (D.reads disk.old)) }
    requires laid_back { IsTrue D.tells → IsLaidBack page_size (D.reads disk.old) }
    ensures main { OnOk result (IsTrue D.tells → (D.reads disk.new).main ≡ (D.reads disk.old).main) }
    ensures closed { OnOk result (IsTrue D.tells → IsCold (D.reads disk.new)) }
    ensures settled { OnOk result (IsTrue D.tells → Each (D.images disk.new) (IsSettled (D.reads disk.new))) }
    ensures any_moment { IsTrue D.tells →
        LeavesOnly D.moment D.since disk.old disk.new (From (KeepsRecovered page_size) (D.images disk.old)) }
    ensures cause { HasCause (D.faults disk.old) (D.faults disk.new) result }
{
    disk.write_at(Role::Journal, 0, &[0])?;
    disk.sync(Role::Journal)?;
    Ok(())
}

/// Removes a journal that is not hot, and syncs the folder.
fn drop_journal<D: Disk>(disk: &mut D, page_size: u32) -> Result<(), Failed>
    requires settled { IsTrue D.tells → Each (D.images disk.old) (IsSettled (D.reads disk.old)) }
    requires cold { IsTrue D.tells → IsCold (D.reads disk.old) }
    ensures main { OnOk result (IsTrue D.tells → (D.reads disk.new).main ≡ (D.reads disk.old).main) }
    ensures gone { OnOk result (IsTrue D.tells →
        Each (D.images disk.new) (λ c. (c.main ≡ (D.reads disk.old).main) × (c.journal ≡ None))) }
    ensures settled { OnOk result (IsTrue D.tells → Each (D.images disk.new) (IsSettled (D.reads disk.new))) }
    ensures any_moment { IsTrue D.tells →
        LeavesOnly D.moment D.since disk.old disk.new (From (KeepsRecovered page_size) (D.images disk.old)) }
    ensures cause { HasCause (D.faults disk.old) (D.faults disk.new) result }
{
    disk.remove(Role::Journal)?;
    disk.sync_folder()?;
    Ok(())
}

/// Lays back what a hot journal plays, syncs Main, and only then closes the journal.
fn lay_back<D: Disk>(disk: &mut D, reading: &Reading, buffer: &mut [u8]) -> Result<u64, Failed>
    requires reading { IsJournalReading reading.now }
    requires buffer { length buffer.old ≡ reading.now.page_size + 8 }
    requires settled { IsTrue D.tells → Each (D.images disk.old) (IsSettled (D.reads disk.old)) }
    requires taken { IsTrue D.tells → IsPlayedHot reading.now.page_size (D.reads disk.old) }
    requires read { IsTrue D.tells → IsReadingOf reading.now (journal_of (D.reads disk.old)) }
    ensures main { OnOk result (IsTrue D.tells → main_of (D.reads disk.new)
        ≡ take (end_of reading.now.page_size (journal_of (D.reads disk.old)))
        (laid reading.now.page_size (played reading.now.page_size (journal_of (D.reads disk.old))) (main_of (D.reads disk.old)))) }
    ensures counted { IfOk result (λ records. IsTrue D.tells →
        records ≡ length (played reading.now.page_size (journal_of (D.reads disk.old)))) }
    ensures cold { OnOk result (IsTrue D.tells → IsCold (D.reads disk.new)) }
    ensures settled { OnOk result (IsTrue D.tells → Each (D.images disk.new) (IsSettled (D.reads disk.new))) }
    ensures any_moment { IsTrue D.tells →
        LeavesOnly D.moment D.since disk.old disk.new (From (KeepsRecovered reading.now.page_size) (D.images disk.old)) }
    ensures cause { HasCause (D.faults disk.old) (D.faults disk.new) result }
{
    let records = play(disk, reading, buffer)?;
    finish_main(
        disk,
        reading.page_size,
        reading.initial as u64 * reading.page_size as u64,
    )?;
    close_gate(disk, reading.page_size)?;
    Ok(records)
}

/// Plays a hot journal back and removes it. A page and the 8 bytes of its record are all the memory that is taken, before
/// the first write.
fn recover_hot<D: Disk>(
    alloc: Global,
    disk: &mut D,
    reading: &Reading,
) -> Result<Recovery, RecoverError>
    requires reading { IsJournalReading reading.now }
    requires settled { IsTrue D.tells → Each (D.images disk.old) (IsSettled (D.reads disk.old)) }
    requires taken { IsTrue D.tells → IsPlayedHot reading.now.page_size (D.reads disk.old) }
    requires read { IsTrue D.tells → IsReadingOf reading.now (journal_of (D.reads disk.old)) }
    ensures played { IfOk result (λ did. IsTrue D.tells →
        did ≡ Recovery.Played (length (played reading.now.page_size (journal_of (D.reads disk.old))))) }
    ensures failed { IfErr result (λ why. (why ≡ RecoverError.DiskFault) ⊎ (why ≡ RecoverError.OutOfMemory)) }
    ensures done { OnOk result (IsTrue D.tells → Each (D.images disk.new)
        (IsPlaybackDone reading.now.page_size (bytes_of (D.reads disk.old).main) (bytes_of (D.reads disk.old).journal))) }
    ensures settled { OnOk result (IsTrue D.tells → Each (D.images disk.new) (IsSettled (D.reads disk.new))) }
    ensures unchanged { result ≡ Err RecoverError.OutOfMemory → disk.new ≡ disk.old }
    ensures any_moment { IsTrue D.tells →
        LeavesOnly D.moment D.since disk.old disk.new (From (KeepsRecovered reading.now.page_size) (D.images disk.old)) }
    ensures fault { result ≡ Err RecoverError.DiskFault → Rose (D.faults disk.old) (D.faults disk.new) }
    ensures later { D.faults disk.old ≤ D.faults disk.new }
{
    let room = reading.page_size as usize + 8;
    let Ok(mut buffer) = Vec::from_elem(alloc, 0u8, room) else {
        return Err(RecoverError::OutOfMemory);
    };
    let records = lay_back(disk, reading, &mut buffer)?;
    drop_journal(disk, reading.page_size)?;
    Ok(Recovery::Played { records })
}

/// Recovers Main from its journal, where a stop has left one. The page size is in bytes.
///
/// After Ok Main is the recovered file and no journal is there, whatever crash comes then. A recovery that was itself
/// stopped, at any byte of any call, is made again and gives the same.
pub fn recover<D: Disk>(
    alloc: Global,
    disk: &mut D,
    page_size: u32,
) -> Result<Recovery, RecoverError>
    requires { (512 ≤ page_size) × (page_size ≤ 65536) }
    // Nothing, Cold, Played with its count, JournalPageSize and SuperJournal: each exactly where it is due to the files
    ensures answer { IsTrue D.tells →
        (result ≡ answer_to page_size (D.reads disk.old)) ⊎ (result ≡ Err RecoverError.DiskFault)
        ⊎ (result ≡ Err RecoverError.OutOfMemory) }
    ensures fault { result ≡ Err RecoverError.DiskFault → Rose (D.faults disk.old) (D.faults disk.new) }
    ensures later { D.faults disk.old ≤ D.faults disk.new }
    // what stands afterwards, in every image
    ensures done { OnOk result (IsTrue D.tells → HasByte (bytes_of (D.reads disk.old).main) →
        Each (D.images disk.new) (IsPlaybackDone page_size (bytes_of (D.reads disk.old).main) (bytes_of (D.reads disk.old).journal))) }
    ensures settled { IsTrue D.tells → result ≢ Err RecoverError.DiskFault →
        Each (D.images disk.new) (IsSettled (D.reads disk.new)) }
    // Nothing, both refusals and want of memory: nothing was written
    ensures unchanged { IsTrue D.tells → IsTrue (changes_nothing result) → D.reads disk.new ≡ D.reads disk.old }
    ensures only_synced { IsTrue D.tells → IsTrue (changes_nothing result) →
        LeavesOnly D.moment D.since disk.old disk.new (D.images disk.old) }
    // where nothing is to be done: nothing was written, whatever the answer
    ensures idle_same { IsTrue D.tells → IsTrue (changes_nothing (answer_to page_size (D.reads disk.old))) → D.reads disk.new ≡ D.reads disk.old }
    ensures idle { IsTrue D.tells → IsTrue (changes_nothing (answer_to page_size (D.reads disk.old))) →
        LeavesOnly D.moment D.since disk.old disk.new (D.images disk.old) }
    // whatever the answer, at every moment from the start
    ensures any_moment { IsTrue D.tells →
        LeavesOnly D.moment D.since disk.old disk.new (From (KeepsRecovered page_size) (D.images disk.old)) }
    ensures holds { IsTrue D.tells → (set : List ℕ → Bool) → Each (D.images disk.old) (RecoversOnlyTo page_size set)
        → LeavesOnly D.moment D.since disk.old disk.new (RecoversOnlyTo page_size set) }
{
    barrier(disk)?;
    match look(disk, page_size)? {
        Found::Nothing => Ok(Recovery::Nothing),
        Found::Refused(why) => Err(why),
        Found::Cold => {
            drop_journal(disk, page_size)?;
            Ok(Recovery::Cold)
        }
        Found::Hot(reading) => recover_hot(alloc, disk, &reading),
    }
}
