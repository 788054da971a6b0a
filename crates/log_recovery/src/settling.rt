// A log is laid over Main and removed.
ghost use Rattle.std.specs.Prelude.{◌≡◌, ◌≢◌, ◌⊎◌, ◌+◌, ◌*◌, ◌<◌, ◌≤◌, List, ℕ, length, take, IsTrue, IfErr, IfOk, OnOk, None, Ok, Err};
ghost use Rattle.edge_model.specs.Causes.{HasCause, Rose};
ghost use Rattle.edge_model.specs.Files.{bytes_of, main_of};
ghost use Rattle.edge_model.specs.Images.{Each, From, HasSynced, LeavesOnly};
ghost use Rattle.rollback_journal.specs.Recovery.{HasByte, IsSettled};
ghost use Rattle.log_recovery.specs.Opened.{KeepsOpened, IsLogDone, log_answer_to, log_end};
ghost use Rattle.log_recovery.specs.Laying.{log_of, IsInLaying, IsLogReading, IsReadingOfLog, IsSpent, IsTaken};
ghost use Rattle.log_recovery.specs.declared.settling.LogError.TheVariants.{DiskFault};

use crate::laying::{LogReading, lay_frames};
use crate::looking::{LogFound, look};
use crate::syncing::sync_pair;
use edge_model::{Disk, Failed, Role};
use std::alloc::Global;
use thiserror::Error;

/// What was done with a log.
#[derive(Clone, Copy, Debug, PartialEq, Eq)]
pub enum LogLaid {
    /// Main has no byte, or there is no log.
    Nothing,
    /// There was a log that held nothing. It was removed.
    Empty,
    /// There was a log with a commit. So many of its frames were committed and were laid over Main, and it was removed.
    Laid { frames: u64 },
}

/// Why a log was not laid.
#[derive(Clone, Copy, Debug, PartialEq, Eq, Error)]
pub enum LogError {
    /// The log is of another version of the format.
    #[error("the log is of version {found}")]
    LogVersion { found: u32 },
    /// The log has a commit, and its header names pages of this other size, in bytes.
    #[error("the log's pages have {found} bytes")]
    LogPageSize { found: u32 },
    /// The disk failed.
    #[error("the disk failed")]
    DiskFault,
    /// Memory ran out, before anything was read or written.
    #[error("out of memory")]
    OutOfMemory,
}

impl From<Failed> for LogError {
    ghost from_gives = { λ _ error. error ≡ DiskFault };

    fn from(_failed: Failed) -> LogError {
        LogError::DiskFault
    }
}

/// Cuts Main to its end, in bytes, and syncs it. It is then the file that the pair opens to.
fn finish_main<D: Disk>(disk: &mut D, page_size: u32, end: u64) -> Result<(), Failed>
    requires size { 0 < page_size }
    requires in_laying { IsTrue D.tells → Each (D.images disk.old) (IsInLaying page_size (D.reads disk.old)) }
    requires end { IsTrue D.tells → end ≡ log_end page_size (log_of (D.reads disk.old)) }
    ensures main { OnOk result (IsTrue D.tells → main_of (D.reads disk.new) ≡ take end (main_of (D.reads disk.old))) }
    ensures there { OnOk result (IsTrue D.tells → (D.reads disk.new).main ≢ None) }
    ensures log { OnOk result (IsTrue D.tells → (D.reads disk.new).journal ≡ (D.reads disk.old).journal) }
    ensures settled { OnOk result (IsTrue D.tells → Each (D.images disk.new) (IsSettled (D.reads disk.new))) }
    ensures any_moment { IsTrue D.tells →
        LeavesOnly D.moment D.since disk.old disk.new (From (KeepsOpened page_size) (D.images disk.old)) }
    ensures cause { HasCause (D.faults disk.old) (D.faults disk.new) result }
{
    disk.cut(Role::Main, end)?;
    disk.sync(Role::Main)?;
    Ok(())
}

/// Removes a log of which Main has all, and syncs the folder.
fn drop_log<D: Disk>(disk: &mut D, page_size: u32) -> Result<(), Failed>
    requires settled { IsTrue D.tells → Each (D.images disk.old) (IsSettled (D.reads disk.old)) }
    requires spent { IsTrue D.tells → IsSpent page_size (D.reads disk.old) }
    ensures main { OnOk result (IsTrue D.tells → (D.reads disk.new).main ≡ (D.reads disk.old).main) }
    ensures gone { OnOk result (IsTrue D.tells →
        Each (D.images disk.new) (λ c. (c.main ≡ (D.reads disk.old).main) × (c.journal ≡ None))) }
    ensures settled { OnOk result (IsTrue D.tells → Each (D.images disk.new) (IsSettled (D.reads disk.new))) }
    ensures any_moment { IsTrue D.tells →
        LeavesOnly D.moment D.since disk.old disk.new (From (KeepsOpened page_size) (D.images disk.old)) }
    ensures cause { HasCause (D.faults disk.old) (D.faults disk.new) result }
{
    disk.remove(Role::Journal)?;
    disk.sync_folder()?;
    Ok(())
}

/// Lays a log with a commit, syncs Main, and only then removes the log.
fn lay_log<D: Disk>(disk: &mut D, reading: &LogReading, buffer: &mut [u8]) -> Result<(), Failed>
    requires reading { IsLogReading reading.now }
    requires buffer { length buffer.old ≡ reading.now.page_size + 24 }
    requires settled { IsTrue D.tells → Each (D.images disk.old) (IsSettled (D.reads disk.old)) }
    requires taken { IsTrue D.tells → IsTaken reading.now.page_size (D.reads disk.old) }
    requires read { IsTrue D.tells → IsReadingOfLog reading.now (log_of (D.reads disk.old)) }
    ensures done { OnOk result (IsTrue D.tells → Each (D.images disk.new)
        (IsLogDone reading.now.page_size (bytes_of (D.reads disk.old).main) (bytes_of (D.reads disk.old).journal))) }
    ensures settled { OnOk result (IsTrue D.tells → Each (D.images disk.new) (IsSettled (D.reads disk.new))) }
    ensures any_moment { IsTrue D.tells →
        LeavesOnly D.moment D.since disk.old disk.new (From (KeepsOpened reading.now.page_size) (D.images disk.old)) }
    ensures cause { HasCause (D.faults disk.old) (D.faults disk.new) result }
{
    lay_frames(disk, reading, buffer)?;
    finish_main(
        disk,
        reading.page_size,
        reading.pages as u64 * reading.page_size as u64,
    )?;
    drop_log(disk, reading.page_size)?;
    Ok(())
}

/// Does what is to be done with the log. The buffer has room for the largest frame.
fn settle_with<D: Disk>(
    disk: &mut D,
    page_size: u32,
    buffer: &mut [u8],
) -> Result<LogLaid, LogError>
    requires buffer { length buffer.old ≡ 65560 }
    ensures answer { IsTrue D.tells → (result ≡ log_answer_to page_size (D.reads disk.old)) ⊎ (result ≡ Err LogError.DiskFault) }
    ensures fault { result ≡ Err LogError.DiskFault → Rose (D.faults disk.old) (D.faults disk.new) }
    ensures memory { result ≢ Err LogError.OutOfMemory }
    ensures later { D.faults disk.old ≤ D.faults disk.new }
    ensures done { OnOk result (IsTrue D.tells → HasByte (bytes_of (D.reads disk.old).main) →
        Each (D.images disk.new) (IsLogDone page_size (bytes_of (D.reads disk.old).main) (bytes_of (D.reads disk.old).journal))) }
    ensures settled { IsTrue D.tells → result ≢ Err LogError.DiskFault → Each (D.images disk.new) (IsSettled (D.reads disk.new)) }
    ensures refused { IfErr result (λ why. why ≢ LogError.DiskFault → IsTrue D.tells → D.reads disk.new ≡ D.reads disk.old) }
    ensures any_moment { IsTrue D.tells →
        LeavesOnly D.moment D.since disk.old disk.new (From (KeepsOpened page_size) (D.images disk.old)) }
{
    sync_pair(disk)?;
    match look(disk, page_size, buffer)? {
        LogFound::Nothing => Ok(LogLaid::Nothing),
        LogFound::Refused(why) => Err(why),
        LogFound::Empty => {
            drop_log(disk, page_size)?;
            Ok(LogLaid::Empty)
        }
        LogFound::Live(reading) => {
            lay_log(
                disk,
                &reading,
                &mut buffer[..reading.page_size as usize + 24],
            )?;
            Ok(LogLaid::Laid {
                frames: reading.frames,
            })
        }
    }
}

/// Lays the log beside Main over it, where a log is there and holds a commit, and removes it. The page size is in bytes.
///
/// After Ok Main is the file that the pair opened to and no log is there, whatever crash comes then. A run that was stopped, at any
/// byte of any call, is made again and gives the same.
pub fn settle_log<D: Disk>(alloc: Global, disk: &mut D, page_size: u32) -> Result<LogLaid, LogError>
    // Nothing, Empty, Laid with its count, LogVersion and LogPageSize: each exactly where it is due to the files
    ensures answer { IsTrue D.tells →
        (result ≡ log_answer_to page_size (D.reads disk.old)) ⊎ (result ≡ Err LogError.DiskFault)
        ⊎ (result ≡ Err LogError.OutOfMemory) }
    ensures fault { result ≡ Err LogError.DiskFault → Rose (D.faults disk.old) (D.faults disk.new) }
    ensures later { D.faults disk.old ≤ D.faults disk.new }
    // what stands afterwards, in every image
    ensures done { OnOk result (IsTrue D.tells → HasByte (bytes_of (D.reads disk.old).main) →
        Each (D.images disk.new) (IsLogDone page_size (bytes_of (D.reads disk.old).main) (bytes_of (D.reads disk.old).journal))) }
    ensures settled { IsTrue D.tells → result ≢ Err LogError.DiskFault → result ≢ Err LogError.OutOfMemory →
        Each (D.images disk.new) (IsSettled (D.reads disk.new)) }
    // both refusals and want of memory: nothing was written
    ensures unchanged { result ≡ Err LogError.OutOfMemory → disk.new ≡ disk.old }
    ensures refused { IfErr result (λ why. why ≢ LogError.DiskFault → IsTrue D.tells → D.reads disk.new ≡ D.reads disk.old) }
    // whatever the answer, at every moment from the start
    ensures any_moment { IsTrue D.tells →
        LeavesOnly D.moment D.since disk.old disk.new (From (KeepsOpened page_size) (D.images disk.old)) }
{
    let Ok(mut buffer) = Vec::from_elem(alloc, 0u8, 65560) else {
        return Err(LogError::OutOfMemory);
    };
    settle_with(disk, page_size, &mut buffer)
}
