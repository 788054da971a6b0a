// What stands in for the standard streams that are closed.
ghost use Rattle.std.specs.Prelude.{◌≤ℤ◌, IfSome};
ghost use Rattle.std.specs.Fd.{file_raw_fd};

use std::fs::{File, OpenOptions};
use std::os::fd::AsRawFd;

/// What stands in for the standard streams that are closed, so that no file of the database gets the number of one.
#[derive(Drop)]
pub struct StandIns {
    input: Option<File>,
    output: Option<File>,
    errors: Option<File>,
}

impl StandIns {
    /// The stand-in for input can't be read, and the others can't be written, so each fails as a closed stream does.
    pub fn new(rt: &HostRuntime) -> StandIns {
        StandIns {
            input: stand_in(rt, OpenOptions::new().write(true), 0),
            output: stand_in(rt, OpenOptions::new().read(true), 2),
            errors: stand_in(rt, OpenOptions::new().read(true), 2),
        }
    }
}

// The system gives the least number that is free. The file is kept where that is at most this one.
fn stand_in(rt: &HostRuntime, options: &OpenOptions, highest: i32) -> Option<File>
    ensures number { IfSome result (λ file. file_raw_fd file ≤ℤ highest) }
{
    let file = match options.open(rt, "/dev/null") {
        Ok(file) => file,
        Err(_) => File::open(rt, "/").ok()?,
    };
    if file.as_raw_fd() <= highest {
        Some(file)
    } else {
        None
    }
}
