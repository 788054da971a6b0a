// Disks, files of pages, and what recovery leaves. What the tests want to know of a disk they look at when they run: so no clause of
// these calls goes on to them, and their proofs stay short.
ghost use Rattle.std.specs.Prelude.{◌≤◌};

use edge_memory::{ImagePick, MemDisk};
use edge_model::{Disk, Role};
use rollback_journal::{RecoverError, Recovery, recover};
use std::alloc::Global;
use std::test::Fail;

/// The images that a crash may leave.
pub const PICKS: [ImagePick; 3] = [ImagePick::Lost, ImagePick::Kept, ImagePick::Torn];

/// Runs of so many bytes, each of one value.
pub fn runs_of(alloc: Global, len: usize, fills: &[u8]) -> Result<Vec<u8>, Fail> {
    let mut file = Vec::new(alloc);
    for fill in fills {
        let end = file.len().saturating_add(len).min(1 << 20);
        file.resize(end, *fill)?;
    }
    Ok(file)
}

/// A disk with these files: Main, Journal and Fresh.
pub fn disk_with(
    alloc: Global,
    main: Option<&[u8]>,
    journal: Option<&[u8]>,
    fresh: Option<&[u8]>,
) -> Result<MemDisk, Fail> {
    Ok(MemDisk::with_files(alloc, main, journal, fresh)?)
}

/// The calls of the disk with these numbers fail, and those past so many where there is a stop.
pub fn plan_faults(disk: &mut MemDisk, failing: &[u64], stop: Option<u64>) -> Result<(), Fail> {
    disk.fail_calls(failing)?;
    if let Some(calls) = stop {
        disk.stop_after(calls);
    }
    Ok(())
}

/// The disk as a crash leaves it.
pub fn image_of(disk: &MemDisk, pick: ImagePick) -> Result<MemDisk, Fail> {
    Ok(disk.image(pick)?)
}

/// Whether Main is this, and there is no journal.
pub fn is_left(disk: &MemDisk, main: &[u8]) -> bool {
    disk.bytes(Role::Main) == Some(main)
        && disk.bytes(Role::Journal).is_none()
        && disk.starved() == 0
}

/// The answer of a recovery.
pub fn answer_of<D: Disk>(
    alloc: Global,
    disk: &mut D,
    page_size: u32,
) -> Result<Recovery, RecoverError>
    requires { (512 ≤ page_size) × (page_size ≤ 65536) }
{
    recover(alloc, disk, page_size)
}

/// Whether each image of the disk is recovered to this Main.
pub fn each_recovers(
    alloc: Global,
    disk: &MemDisk,
    page_size: u32,
    main: &[u8],
) -> Result<bool, Fail>
    requires { (512 ≤ page_size) × (page_size ≤ 65536) }
{
    for pick in PICKS {
        let mut image = image_of(disk, pick)?;
        if answer_of(alloc, &mut image, page_size).is_err() || !is_left(&image, main) {
            return Ok(false);
        }
    }
    Ok(true)
}
