// What is said of a pair.
ghost use Rattle.std.specs.Prelude.{◌<◌, ◌≤◌};

use crate::digest::{digest_of, length_of};
use edge_memory::MemDisk;
use edge_model::{Disk, OutOfMemory, Role};
use log_recovery::{LogError, LogLaid, settle_log};
use log_view::{LogView, ViewError};
use std::alloc::Global;
use std::io;

/// The most pages for which a view makes a table.
pub const MOST: u32 = 1 << 19;

/// A disk with these files.
pub fn disk_with(
    alloc: Global,
    main: Option<&[u8]>,
    log: Option<&[u8]>,
) -> Result<MemDisk, OutOfMemory> {
    MemDisk::with_files(alloc, main, log, None)
}

/// How a pair opens and how it is laid, in one line.
pub fn show(
    rt: &HostRuntime,
    size: u32,
    main: Option<&[u8]>,
    log: Option<&[u8]>,
) -> io::Result<()> {
    let (Ok(seen), Ok(mut laid)) = (
        disk_with(rt.alloc(), main, log),
        disk_with(rt.alloc(), main, log),
    ) else {
        return Err(io::ErrorKind::OutOfMemory.into());
    };
    if size == 0 || size > 65536 {
        return Err(io::ErrorKind::InvalidData.into());
    }
    match LogView::open(rt.alloc(), seen, size, MOST) {
        Ok(mut view) => show_view(rt, &mut view)?,
        Err((_disk, why)) => show_refusal(rt, why)?,
    }
    print!(rt; "; ")?;
    show_laid(rt, size, &mut laid)
}

/// What stands in Main, and that nothing can be written.
fn show_view<D: Disk + Drop>(rt: &HostRuntime, view: &mut LogView<D>) -> io::Result<()> {
    show_main(rt, view)?;
    if !is_read_only(view) {
        print!(rt; " CHANGED")?;
    }
    Ok(())
}

/// Whether a disk has no other file than Main, and each call fails that would change one.
fn is_read_only<D: Disk>(disk: &mut D) -> bool {
    let lone = length_of(disk, Role::Journal) == Ok(None)
        && length_of(disk, Role::Fresh) == Ok(None);
    lone && disk.write_at(Role::Main, 0, &[1]).is_err()
        && disk.cut(Role::Main, 0).is_err()
        && disk.remove(Role::Main).is_err()
        && disk.sync_folder().is_ok()
}

/// Main's length and digest, or `none`.
fn show_main<D: Disk>(rt: &HostRuntime, disk: &mut D) -> io::Result<()> {
    match length_of(disk, Role::Main) {
        Ok(Some(len)) => print!(rt; "main {len} ")?,
        Ok(None) => return print!(rt; "none"),
        Err(_) => return print!(rt; "fault"),
    }
    show_digest(rt, disk)
}

fn show_digest<D: Disk>(rt: &HostRuntime, disk: &mut D) -> io::Result<()> {
    match digest_of(disk) {
        Ok(digest) => print!(rt; "{}", hex::encode(rt.alloc(), digest)?),
        Err(_) => print!(rt; "fault"),
    }
}

/// Why a file is not read through its log.
pub fn show_refusal(rt: &HostRuntime, why: ViewError) -> io::Result<()> {
    match why {
        ViewError::Log(why) => show_error(rt, why),
        ViewError::TooLarge { pages } => print!(rt; "too large {pages}"),
        ViewError::TooLong { frames } => print!(rt; "too long {frames}"),
        ViewError::Short { pages } => print!(rt; "short {pages}"),
        ViewError::LogCut => print!(rt; "log cut"),
        ViewError::DiskFault => print!(rt; "fault"),
        ViewError::OutOfMemory => print!(rt; "out of memory"),
    }
}

fn show_error(rt: &HostRuntime, why: LogError) -> io::Result<()> {
    match why {
        LogError::LogVersion { found } => print!(rt; "version {found}"),
        LogError::LogPageSize { found } => print!(rt; "page size {found}"),
        LogError::DiskFault => print!(rt; "fault"),
        LogError::OutOfMemory => print!(rt; "out of memory"),
    }
}

/// What laying a log answers, and what it leaves.
fn show_laid(rt: &HostRuntime, size: u32, disk: &mut MemDisk) -> io::Result<()> {
    match settle_log(rt.alloc(), disk, size) {
        Ok(LogLaid::Nothing) => return println!(rt; "nothing"),
        Ok(LogLaid::Empty) => print!(rt; "empty ")?,
        Ok(LogLaid::Laid { frames }) => print!(rt; "laid {frames} ")?,
        Err(why) => {
            show_error(rt, why)?;
            return println!(rt; "");
        }
    }
    let len = disk.bytes(Role::Main).map_or(0, |bytes| bytes.len());
    print!(rt; "{len} ")?;
    show_digest(rt, disk)?;
    if disk.bytes(Role::Journal).is_some() {
        print!(rt; " LOG STILL THERE")?;
    }
    println!(rt; "")
}
