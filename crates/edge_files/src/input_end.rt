// Whether standard input goes on behind what a run has taken.
use crate::host_streams::HostInput;
use std::fs::{self, File};
use std::io::{IsTerminal, Read};
use std::os::unix::fs::FileTypeExt;
use std::str;
use system_calls::read_some;

/// The file that is standard input.
const STANDARD_INPUT: &str = "/proc/self/fd/0";

/// What the system tells of it: its first line says how far it was read.
const STATE_OF_INPUT: &str = "/proc/self/fdinfo/0";

/// Whether bytes come after those that were taken. A terminal is not asked, since it would wait for what is typed, and a file is not read
/// further, since another program may go on there; a pipe is read to its end or one byte on.
pub fn input_goes_on(rt: &HostRuntime) -> bool {
    if rt.stdin().is_terminal() {
        return false;
    }
    match fs::metadata(rt, STANDARD_INPUT) {
        Ok(found) if found.is_file() => place_in_input(rt) < found.len(),
        Ok(found) if found.file_type().is_fifo() || found.file_type().is_socket() => {
            let mut byte = [0u8];
            matches!(read_some(&mut HostInput::new(rt), &mut byte), Ok(1))
        }
        _ => false,
    }
}

// How far standard input was read, in bytes. Where that can't be known it has ended.
fn place_in_input(rt: &HostRuntime) -> u64 {
    let mut text = [0u8; 64];
    let read = match File::open(rt, STATE_OF_INPUT) {
        Ok(mut file) => file.read(&mut text),
        Err(error) => Err(error),
    };
    match read {
        Ok(count) => offset_in(&text[..count]).unwrap_or(u64::MAX),
        Err(_) => u64::MAX,
    }
}

// The number in a text that begins with `pos:` and it.
fn offset_in(text: &[u8]) -> Option<u64> {
    let line = str::from_utf8(text).ok()?.lines().next()?;
    line.strip_prefix("pos:")?.trim().parse::<u64>().ok()
}
