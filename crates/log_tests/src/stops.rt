// A laying of a log that is stopped at each of its calls, and made again on what a crash may leave.
ghost use Rattle.std.specs.Prelude.{◌≤◌};

use crate::case::Case;
use crate::told::disk_with;
use edge_memory::{ImagePick, MemDisk};
use edge_model::Role;
use log_recovery::settle_log;
use std::alloc::Global;
use std::io;

/// The images that a crash may leave.
const PICKS: [ImagePick; 3] = [ImagePick::Lost, ImagePick::Kept, ImagePick::Torn];

/// Whether a disk has this Main and no log.
fn is_left(disk: &MemDisk, main: &[u8]) -> bool {
    disk.bytes(Role::Main) == Some(main) && disk.bytes(Role::Journal).is_none()
}

/// Whether a run over these files that is stopped after so many calls, and made again on the image, leaves this Main. None where it
/// makes no more calls than that, or memory runs out.
fn is_stopped_alike(
    alloc: Global,
    size: u32,
    files: (&[u8], &[u8]),
    stop: u64,
    pick: ImagePick,
    wanted: &[u8],
) -> Option<bool> {
    let mut disk = disk_with(alloc, Some(files.0), Some(files.1)).ok()?;
    disk.stop_after(stop);
    if settle_log(alloc, &mut disk, size).is_ok() {
        return None;
    }
    let mut image = disk.image(pick).ok()?;
    let done = settle_log(alloc, &mut image, size).is_ok();
    Some(done && is_left(&image, wanted))
}

/// The line of a pair that is stopped: how many runs were, and how many of them left another file.
pub fn show_stops(rt: &HostRuntime, case: &Case<'_>, main: &[u8], log: &[u8]) -> io::Result<()> {
    let Ok(mut whole) = disk_with(rt.alloc(), Some(main), Some(log)) else {
        return Err(io::ErrorKind::OutOfMemory.into());
    };
    let _laid = settle_log(rt.alloc(), &mut whole, case.size).is_ok();
    let wanted = whole.bytes(Role::Main).unwrap_or(&[]);
    let mut tried = 0u64;
    let mut wrong = 0u64;
    for stop in 0..case.first as u64 {
        for pick in PICKS {
            match is_stopped_alike(rt.alloc(), case.size, (main, log), stop, pick, wanted) {
                Some(same) => {
                    tried = tried.wrapping_add(1);
                    wrong = if same { wrong } else { wrong.wrapping_add(1) };
                }
                None => {}
            }
        }
    }
    println!(rt; "{}: stopped {tried} times, {wrong} wrong", case.name)
}
