// How far a log holds.
ghost use Rattle.std.specs.Prelude.{◌≡◌, ◌≢◌, ◌+◌, ◌-◌, ◌*◌, ◌<◌, ◌≤◌, length, IsTrue, IfOk, OnOk, None};
ghost use Rattle.edge_model.specs.Files.{bytes_of};
ghost use Rattle.rollback_journal.specs.Recovery.{HasByte};
ghost use Rattle.log_recovery.specs.Finding.{IsLogFound, IsLogRefusable};
ghost use Rattle.edge_model.specs.Causes.{HasCause};
ghost use Rattle.edge_model.specs.Files.{file_at, read_from, contents};
ghost use Rattle.edge_model.specs.Images.{Each, LeavesOnly};
ghost use Rattle.log_format.specs.Logs.{chained, committed_frames, frame_start, log_header, logged_count, IsFrameAt};
ghost use Rattle.log_recovery.specs.Laying.{log_of};

use crate::laying::LogReading;
use crate::reading::read_full;
use crate::settling::LogError;
use edge_model::{Disk, Failed, Role};
use log_format::{LogFrame, LogHeader, LogSum, read_log_frame, read_log_header};

/// What is to be done.
pub enum LogFound {
    /// Main has no byte, or there is no log.
    Nothing,
    /// The log holds nothing.
    Empty,
    /// The log is not laid.
    Refused(LogError),
    /// The log is laid.
    Live(LogReading),
}

/// How far a log is committed.
#[derive(Clone, Copy)]
pub struct LogEnd {
    /// How many frames are.
    pub frames: u64,
    /// The size of the database after the last commit, in pages.
    pub pages: u32,
}

/// What the frame with this number says, if it is valid. Frames are numbered from 0.
fn check_frame<D: Disk>(
    disk: &mut D,
    header: &LogHeader,
    k: u64,
    len: u64,
    before: LogSum,
    buffer: &mut [u8],
) -> Result<Option<LogFrame>, Failed>
    requires size { (512 ≤ header.now.page_size) × (header.now.page_size ≤ 65536) }
    requires buffer { length buffer.old ≡ header.now.page_size + 24 }
    requires bound { frame_start header.now.page_size k ≤ len }
    requires there { IsTrue D.tells → (D.reads disk.old).journal ≢ None }
    requires len { IsTrue D.tells → len ≡ length (log_of (D.reads disk.old)) }
    requires header { IsTrue D.tells → header.now ≡ log_header (log_of (D.reads disk.old)) }
    requires before { IsTrue D.tells → before ≡ chained header.now.page_size (log_of (D.reads disk.old)) k }
    ensures found { IfOk result (λ found. IsTrue D.tells → IsFrameAt header.now.page_size (log_of (D.reads disk.old)) k found) }
    ensures fits { IfOk result (λ found. found ≢ None → frame_start header.now.page_size k + (header.now.page_size + 24) ≤ len) }
    ensures buffer { length buffer.new ≡ length buffer.old }
    ensures same { IsTrue D.tells → D.reads disk.new ≡ D.reads disk.old }
    ensures crash { IsTrue D.tells → Each (D.images disk.new) (D.images disk.old) }
    ensures any_moment { IsTrue D.tells → LeavesOnly D.moment D.since disk.old disk.new (D.images disk.old) }
    ensures cause { HasCause (D.faults disk.old) (D.faults disk.new) result }
{
    let step = header.page_size as u64 + 24;
    let at = 32 + k * step;
    if len - at < step {
        return Ok(None);
    }
    read_full(disk, Role::Journal, at, buffer)?;
    Ok(read_log_frame(header, before, buffer))
}

/// How far a log is committed: its frames are read in order, as far as they are valid.
pub fn find_end<D: Disk>(
    disk: &mut D,
    header: &LogHeader,
    len: u64,
    buffer: &mut [u8],
) -> Result<LogEnd, Failed>
    requires size { (512 ≤ header.now.page_size) × (header.now.page_size ≤ 65536) }
    requires buffer { length buffer.old ≡ header.now.page_size + 24 }
    requires long { 32 ≤ len }
    requires there { IsTrue D.tells → (D.reads disk.old).journal ≢ None }
    requires len { IsTrue D.tells → len ≡ length (log_of (D.reads disk.old)) }
    requires header { IsTrue D.tells → header.now ≡ log_header (log_of (D.reads disk.old)) }
    ensures frames { IfOk result (λ end. IsTrue D.tells → end.frames ≡ committed_frames header.now.page_size (log_of (D.reads disk.old))) }
    ensures pages { IfOk result (λ end. IsTrue D.tells → 0 < end.frames → end.pages ≡ logged_count header.now.page_size (log_of (D.reads disk.old))) }
    ensures fits { IfOk result (λ end. 32 + end.frames * (header.now.page_size + 24) ≤ len) }
    ensures buffer { length buffer.new ≡ length buffer.old }
    ensures same { IsTrue D.tells → D.reads disk.new ≡ D.reads disk.old }
    ensures crash { IsTrue D.tells → Each (D.images disk.new) (D.images disk.old) }
    ensures any_moment { IsTrue D.tells → LeavesOnly D.moment D.since disk.old disk.new (D.images disk.old) }
    ensures cause { HasCause (D.faults disk.old) (D.faults disk.new) result }
{
    let mut frames = 0;
    let mut pages = 0;
    let mut sum = header.sum;
    for k in 0..len {
        match check_frame(disk, header, k, len, sum, buffer)? {
            None => return Ok(LogEnd { frames, pages }),
            Some(frame) => {
                sum = frame.sum;
                if frame.pages != 0 {
                    frames = k + 1;
                    pages = frame.pages;
                }
            }
        }
    }
    Ok(LogEnd { frames, pages })
}

/// What is to be done with a log of this length beside a Main with a byte. The buffer has room for the largest frame.
fn look_at<D: Disk>(
    disk: &mut D,
    page_size: u32,
    len: u64,
    buffer: &mut [u8],
) -> Result<LogFound, Failed>
    requires buffer { length buffer.old ≡ 65560 }
    requires told { IsTrue D.tells → HasByte (bytes_of (D.reads disk.old).main) × ((D.reads disk.old).journal ≢ None)
        × (len ≡ length (log_of (D.reads disk.old))) }
    ensures found { IfOk result (λ found. IsTrue D.tells → IsLogFound page_size (D.reads disk.old) found) }
    ensures sound { IfOk result (λ found. IsLogRefusable page_size found) }
    ensures buffer { length buffer.new ≡ length buffer.old }
    ensures same { IsTrue D.tells → D.reads disk.new ≡ D.reads disk.old }
    ensures crash { IsTrue D.tells → Each (D.images disk.new) (D.images disk.old) }
    ensures any_moment { IsTrue D.tells → LeavesOnly D.moment D.since disk.old disk.new (D.images disk.old) }
    ensures cause { HasCause (D.faults disk.old) (D.faults disk.new) result }
{
    if len < 32 {
        return Ok(LogFound::Empty);
    }
    let mut head = [0; 32];
    read_full(disk, Role::Journal, 0, &mut head)?;
    let Some(header) = read_log_header(&head) else {
        return Ok(LogFound::Empty);
    };
    if header.version != 3007000 {
        return Ok(LogFound::Refused(LogError::LogVersion {
            found: header.version,
        }));
    }
    let end = find_end(
        disk,
        &header,
        len,
        &mut buffer[..header.page_size as usize + 24],
    )?;
    if end.frames == 0 {
        return Ok(LogFound::Empty);
    }
    if header.page_size != page_size {
        return Ok(LogFound::Refused(LogError::LogPageSize {
            found: header.page_size,
        }));
    }
    Ok(LogFound::Live(LogReading {
        page_size,
        pages: end.pages,
        frames: end.frames,
        len,
    }))
}

/// What is to be done with Main and the log. The buffer has room for the largest frame.
pub fn look<D: Disk>(disk: &mut D, page_size: u32, buffer: &mut [u8]) -> Result<LogFound, Failed>
    requires buffer { length buffer.old ≡ 65560 }
    ensures found { IfOk result (λ found. IsTrue D.tells → IsLogFound page_size (D.reads disk.old) found) }
    ensures sound { IfOk result (λ found. IsLogRefusable page_size found) }
    ensures buffer { length buffer.new ≡ length buffer.old }
    ensures same { IsTrue D.tells → D.reads disk.new ≡ D.reads disk.old }
    ensures crash { IsTrue D.tells → Each (D.images disk.new) (D.images disk.old) }
    ensures any_moment { IsTrue D.tells → LeavesOnly D.moment D.since disk.old disk.new (D.images disk.old) }
    ensures cause { HasCause (D.faults disk.old) (D.faults disk.new) result }
{
    match disk.length(Role::Main)? {
        None | Some(0) => return Ok(LogFound::Nothing),
        Some(_) => {}
    }
    let Some(len) = disk.length(Role::Journal)? else {
        return Ok(LogFound::Nothing);
    };
    look_at(disk, page_size, len, buffer)
}
