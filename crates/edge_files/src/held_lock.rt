// SQLite's own lock on Main, where the launcher has taken it: it belongs to an open file that this process has inherited, so it lasts to
// the end of the run. It is believed only where the system shows it.
use crate::host_calls::found_in;
use crate::lock_table::{FIRST, Lock, SHARED, lock_on};
use std::alloc::AllocError;
use std::env::{self, VarError};
use std::fs::{self, File};
use std::os::unix::fs::FileExt;
use std::str;
use system_calls::Identity;

/// The variable in which the launcher says what it has done.
const VARIABLE: &str = "SQLCIPHER_TOOL_LOCK";

/// What stands there where others had the lock for as long as the launcher waited. Else it is the number of the open file.
const REFUSED: &str = "refused";

/// What is held of SQLite's lock on a file.
#[derive(Clone, Copy, Debug, PartialEq, Eq)]
pub enum Held {
    /// Nothing: others have to be looked for.
    Nothing,
    /// The shared lock: who goes by SQLite's locks does not write to the file.
    Shared,
    /// All of it: who goes by them does not read it either.
    Exclusive,
    /// A lock on another file than the one that is open.
    Elsewhere,
    /// Nothing, since others had it for as long as the launcher waited.
    Refused,
}

/// What the launcher has said of the lock.
#[derive(Drop)]
pub struct HeldLock {
    is_refused: bool,
    /// The open file that has the lock, and what the system tells of it. None where the launcher names none.
    paths: Option<LockPaths>,
}

#[derive(Drop)]
struct LockPaths {
    file: String,
    info: String,
}

impl HeldLock {
    /// By the environment. All memory is taken here.
    pub fn new(rt: &HostRuntime) -> Result<HeldLock, AllocError> {
        match env::var(rt, VARIABLE) {
            Ok(word) => HeldLock::said(rt, word.as_str()),
            Err(VarError::OutOfMemory) => Err(AllocError),
            Err(_) => Ok(HeldLock {
                is_refused: false,
                paths: None,
            }),
        }
    }

    fn said(rt: &HostRuntime, word: &str) -> Result<HeldLock, AllocError> {
        let alloc = rt.alloc();
        let paths = match word.parse::<u32>() {
            Ok(number) => Some(LockPaths {
                file: format!(in alloc; "/proc/self/fd/{number}")?,
                info: format!(in alloc; "/proc/self/fdinfo/{number}")?,
            }),
            Err(_) => None,
        };
        Ok(HeldLock {
            is_refused: word == REFUSED,
            paths,
        })
    }

    /// What is held of the lock on this file.
    pub fn on(&self, rt: &HostRuntime, identity: Identity) -> Held {
        if self.is_refused {
            return Held::Refused;
        }
        let Some(paths) = &self.paths else {
            return Held::Nothing;
        };
        let held = shown_at(rt, paths.info.as_str());
        if held == Held::Nothing {
            return Held::Nothing;
        }
        match fs::metadata(rt, paths.file.as_str()) {
            Ok(found) if found_in(&found).identity == identity => held,
            Ok(_) => Held::Elsewhere,
            Err(_) => Held::Nothing,
        }
    }
}

// What the system shows of the locks of an open file: a line for each, behind a word.
fn shown_at(rt: &HostRuntime, info: &str) -> Held {
    let mut bytes = [0u8; 1024];
    let read = match File::open(rt, info) {
        Ok(file) => file.read_at(&mut bytes, 0),
        Err(error) => Err(error),
    };
    let Ok(count) = read else {
        return Held::Nothing;
    };
    let text = str::from_utf8(&bytes[..count]).unwrap_or("");
    let mut held = Held::Nothing;
    for line in text.lines() {
        let lock = match line.strip_prefix("lock:") {
            Some(shown) => lock_on(shown.as_bytes()),
            None => None,
        };
        match lock {
            Some(lock) if is_all(lock) => return Held::Exclusive,
            Some(lock) if is_shared(lock) => held = Held::Shared,
            _ => {}
        }
    }
    held
}

fn is_all(lock: Lock) -> bool {
    lock.is_of_open_file && lock.is_exclusive && lock.covers_from(FIRST)
}

fn is_shared(lock: Lock) -> bool {
    lock.is_of_open_file && lock.covers_from(SHARED)
}
