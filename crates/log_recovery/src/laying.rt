// The frames of a live log, laid over Main one by one.
ghost use Rattle.std.specs.Prelude.{◌≡◌, ◌≢◌, ◌+◌, ◌-◌, ◌*◌, ◌<◌, ◌≤◌, [], ◌∷◌, length, IsTrue, OnOk, None};
ghost use Rattle.edge_model.specs.Causes.{HasCause};
ghost use Rattle.edge_model.specs.Files.{main_of, written};
ghost use Rattle.edge_model.specs.Images.{Each, From, LeavesOnly};
ghost use Rattle.log_format.specs.Logs.{frame_start, logged, record_of, within};
ghost use Rattle.rollback_journal.specs.Laying.{laid, page_start, IsOneOf};
ghost use Rattle.log_recovery.specs.Opened.{KeepsOpened};
ghost use Rattle.log_recovery.specs.Laying.{log_of, IsInLaying, IsLogReading, IsReadingOfLog, IsOneIfWithin};

use crate::reading::read_full;
use edge_model::{Disk, Failed, Role};
use number_fields::u32_at;

/// The numbers of a live log by which it is laid.
#[derive(Clone, Copy)]
pub struct LogReading {
    /// The length of a page, in bytes.
    pub page_size: u32,
    /// The size of the database after the last commit, in pages.
    pub pages: u32,
    /// How many frames are committed.
    pub frames: u64,
    /// The log's length, in bytes.
    pub len: u64,
}

/// Lays an image at its page's place in Main. Pages are numbered from 1.
fn lay_page<D: Disk>(disk: &mut D, page_size: u32, page: u32, image: &[u8]) -> Result<(), Failed>
    requires size { (0 < page_size) × (page_size ≤ 65536) × (length image.now ≡ page_size) × (1 ≤ page) }
    requires in_laying { IsTrue D.tells → Each (D.images disk.old) (IsInLaying page_size (D.reads disk.old)) }
    requires one { IsTrue D.tells →
        IsOneOf page_size (record { page = page; image = image.now }) (logged page_size (log_of (D.reads disk.old))) }
    ensures laid { OnOk result (IsTrue D.tells →
        main_of (D.reads disk.new) ≡ written (page_start page_size page) image.now (main_of (D.reads disk.old))) }
    ensures log { OnOk result (IsTrue D.tells → (D.reads disk.new).journal ≡ (D.reads disk.old).journal) }
    ensures in_laying { OnOk result (IsTrue D.tells → Each (D.images disk.new) (IsInLaying page_size (D.reads disk.new))) }
    ensures any_moment { IsTrue D.tells →
        LeavesOnly D.moment D.since disk.old disk.new (From (KeepsOpened page_size) (D.images disk.old)) }
    ensures cause { HasCause (D.faults disk.old) (D.faults disk.new) result }
{
    disk.write_at(Role::Main, (page - 1) as u64 * page_size as u64, image)?;
    Ok(())
}

/// Lays the page of the frame with this number, where it is a page of the database after the last commit. Frames are numbered from 0.
fn lay_frame<D: Disk>(
    disk: &mut D,
    reading: &LogReading,
    k: u64,
    buffer: &mut [u8],
) -> Result<(), Failed>
    requires reading { IsLogReading reading.now }
    requires buffer { length buffer.old ≡ reading.now.page_size + 24 }
    requires fits { frame_start reading.now.page_size k + (reading.now.page_size + 24) ≤ reading.now.len }
    requires there { IsTrue D.tells → (D.reads disk.old).journal ≢ None }
    requires in_laying { IsTrue D.tells → Each (D.images disk.old) (IsInLaying reading.now.page_size (D.reads disk.old)) }
    requires read { IsTrue D.tells → IsReadingOfLog reading.now (log_of (D.reads disk.old)) }
    requires one { IsTrue D.tells → IsOneIfWithin reading.now.page_size reading.now.pages (log_of (D.reads disk.old)) k }
    ensures did { OnOk result (IsTrue D.tells → main_of (D.reads disk.new) ≡ laid reading.now.page_size
        (within reading.now.pages (record_of reading.now.page_size (log_of (D.reads disk.old)) k ∷ [])) (main_of (D.reads disk.old))) }
    ensures log { OnOk result (IsTrue D.tells → (D.reads disk.new).journal ≡ (D.reads disk.old).journal) }
    ensures in_laying { OnOk result (IsTrue D.tells → Each (D.images disk.new) (IsInLaying reading.now.page_size (D.reads disk.new))) }
    ensures any_moment { IsTrue D.tells →
        LeavesOnly D.moment D.since disk.old disk.new (From (KeepsOpened reading.now.page_size) (D.images disk.old)) }
    ensures buffer { length buffer.new ≡ length buffer.old }
    ensures cause { HasCause (D.faults disk.old) (D.faults disk.new) result }
{
    let at = 32 + k * (reading.page_size as u64 + 24);
    read_full(disk, Role::Journal, at, buffer)?;
    let page = u32_at(buffer, 0);
    if page < 1 {
        return Ok(());
    }
    if page > reading.pages {
        return Ok(());
    }
    lay_page(
        disk,
        reading.page_size,
        page,
        &buffer[24..24 + reading.page_size as usize],
    )?;
    Ok(())
}

/// Lays all committed frames in order. Main is neither cut nor synced, and no memory is taken.
pub fn lay_frames<D: Disk>(
    disk: &mut D,
    reading: &LogReading,
    buffer: &mut [u8],
) -> Result<(), Failed>
    requires reading { IsLogReading reading.now }
    requires buffer { length buffer.old ≡ reading.now.page_size + 24 }
    requires there { IsTrue D.tells → (D.reads disk.old).journal ≢ None }
    requires in_laying { IsTrue D.tells → Each (D.images disk.old) (IsInLaying reading.now.page_size (D.reads disk.old)) }
    requires read { IsTrue D.tells → IsReadingOfLog reading.now (log_of (D.reads disk.old)) }
    ensures laid { OnOk result (IsTrue D.tells → main_of (D.reads disk.new)
        ≡ laid reading.now.page_size (logged reading.now.page_size (log_of (D.reads disk.old))) (main_of (D.reads disk.old))) }
    ensures log { OnOk result (IsTrue D.tells → (D.reads disk.new).journal ≡ (D.reads disk.old).journal) }
    ensures in_laying { OnOk result (IsTrue D.tells → Each (D.images disk.new) (IsInLaying reading.now.page_size (D.reads disk.new))) }
    ensures any_moment { IsTrue D.tells →
        LeavesOnly D.moment D.since disk.old disk.new (From (KeepsOpened reading.now.page_size) (D.images disk.old)) }
    ensures cause { HasCause (D.faults disk.old) (D.faults disk.new) result }
{
    for k in 0..reading.frames {
        lay_frame(disk, reading, k, buffer)?;
    }
    Ok(())
}
