// What stands beside a file: a log, and a journal that would be played back.
ghost use Rattle.std.specs.Prelude.{◌≡◌, ◌≤◌, length, true, IfOk, IsTrue};
ghost use Rattle.edge_files.specs.Looks.{looks_at, mark_at};

use crate::failure::{Failure, called, failed, not_regular};
use crate::role_file::RoleFile;
use journal_format::{read_header, sector_ok};
use std::fs::{self, File};
use std::io::{self, ErrorKind};
use std::os::unix::fs::FileExt;
use system_calls::{Calls, Mark};

/// The length of a log's header, in bytes. Its salts are among them, and are other ones whenever the log is begun anew.
const LOG_HEADER: usize = 32;

/// The log as it was seen: when it was written, its length, and its header. No log has no mark.
#[derive(Clone, Copy)]
pub struct SeenLog {
    mark: Option<Mark>,
    header: [u8; LOG_HEADER],
}

impl SeenLog {
    /// There was none.
    pub fn none() -> SeenLog {
        SeenLog {
            mark: None,
            header: [0u8; LOG_HEADER],
        }
    }

    /// The one that is open, as it is now.
    pub fn of<'a, C: Calls>(calls: &C, log: &RoleFile<'a>) -> Result<SeenLog, Failure<'a>>
        ensures mark { IfOk result (λ seen. IsTrue C.tells → seen.mark ≡ mark_at (looks_at C.system C.found calls.now) log.now) }
    {
        let mut seen = SeenLog::none();
        seen.mark = log.mark(calls)?;
        if seen.mark.is_some() {
            log.read_at(calls, 0, &mut seen.header)?;
        }
        Ok(seen)
    }

    /// Whether nobody has written to the log since.
    pub fn is_unwritten<'a, C: Calls>(
        &self,
        calls: &C,
        log: &RoleFile<'a>,
    ) -> Result<bool, Failure<'a>>
        ensures mark { IfOk result (λ is. IsTrue C.tells → is ≡ true → mark_at (looks_at C.system C.found calls.now) log.now ≡ self.now.mark) }
    {
        Ok(log.mark(calls)? == self.mark)
    }

    /// Whether it is the same in all of this.
    pub fn is_same(&self, other: &SeenLog) -> bool
        ensures mark { result ≡ true → other.now.mark ≡ self.now.mark }
        ensures header { result ≡ true → other.now.header ≡ self.now.header }
    {
        self.mark == other.mark && self.header == other.header
    }

    /// Whether it has a byte.
    pub fn has_byte(&self) -> bool {
        match self.mark {
            Some(mark) => mark.length > 0,
            None => false,
        }
    }
}

/// Whether a log with a byte has this path. It holds pages that are newer than Main's.
pub fn has_log<'a>(rt: &HostRuntime, path: &'a str) -> Result<bool, Failure<'a>> {
    match fs::metadata(rt, path) {
        Ok(found) => Ok(found.is_file() && found.len() > 0),
        Err(error) if error.kind() == ErrorKind::NotFound => Ok(false),
        Err(error) => called(path, "look up", Err(error)),
    }
}

/// Whether the journal with this path would be played back.
pub fn is_hot<'a>(rt: &HostRuntime, path: &'a str) -> Result<bool, Failure<'a>> {
    match fs::symlink_metadata(rt, path) {
        Ok(found) if found.is_file() => {}
        Ok(_) => return Err(not_regular(path)),
        Err(error) if error.kind() == ErrorKind::NotFound => return Ok(false),
        Err(error) => return Err(failed(path, "look up", error)),
    }
    let file = called(path, "open", File::open(rt, path))?;
    let mut head = [0u8; 28];
    let count = called(path, "read", read_beside(&file, &mut head))?;
    match read_header(&head[..count]) {
        Some(header) => Ok(sector_ok(header.sector)),
        None => Ok(false),
    }
}

// Reads from the start until the buffer is full or the file ends.
fn read_beside(file: &File, buf: &mut [u8]) -> io::Result<usize>
    ensures { IfOk result (λ count. count ≤ length buf.old) }
{
    let mut count = 0;
    for _ in 0..u64::MAX {
        if count == buf.len() {
            return Ok(count);
        }
        match file.read_at(&mut buf[count..], count as u64) {
            Ok(0) => return Ok(count),
            Ok(more) => count += more,
            Err(error) if error.kind() == ErrorKind::Interrupted => {}
            Err(error) => return Err(error),
        }
    }
    Err(ErrorKind::Interrupted.into())
}

/// Removes the index of a log where it is there: it is of use beside its log alone.
pub fn remove_index<'a>(rt: &HostRuntime, path: &'a str) -> Result<(), Failure<'a>> {
    match fs::remove_file(rt, path) {
        Err(error) if error.kind() == ErrorKind::NotFound => Ok(()),
        outcome => called(path, "remove", outcome),
    }
}
