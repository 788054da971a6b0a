// Who holds SQLite's locks on a file, as the system's table of locks tells. It is read by its text, without memory.
use std::fs::File;
use std::os::unix::fs::FileExt;
use std::{io, str};
use system_calls::Place;

/// The table. Each line is a lock: its number, its kind, its owner, its file, and its first and last byte.
const TABLE: &str = "/proc/locks";

/// The first of the bytes that SQLite locks. It is the pending byte, before the reserved and the shared ones.
pub const FIRST: u64 = 1 << 30;

/// The first of the shared ones.
pub const SHARED: u64 = FIRST + 2;

/// The last of them.
pub const LAST: u64 = FIRST + 511;

/// The longest line that is read, in bytes. Those of the system are shorter.
const LINE: usize = 160;

/// What the table tells of a file.
#[derive(Clone, Copy, PartialEq, Eq)]
pub enum Sight {
    /// No other process holds a lock of SQLite's.
    Free,
    /// A process does; which one, where that is known.
    Held { process: Option<u64> },
}

/// The table of locks, as this process sees it.
#[derive(Drop)]
pub struct LockTable {
    /// This process.
    own: u64,
    file: Option<File>,
    /// The file's name in the table, by the line of this process's own lock on it: where it differs from what the file says of
    /// itself, as in file systems that stand on others.
    alias: Option<Place>,
    /// Whether the own lock was sought.
    has_looked: bool,
}

impl LockTable {
    /// For this process. Nothing is opened yet.
    pub fn new(own: u32) -> LockTable {
        LockTable {
            own: u64::from(own),
            file: None,
            alias: None,
            has_looked: false,
        }
    }

    /// Whether the table was looked at and does not show this process's own lock, so that it may not show those of others.
    pub fn is_blind(&self) -> bool {
        self.has_looked && self.alias.is_none()
    }

    /// Who has the file open. This process has locked it, and at the first look nothing else.
    pub fn look(&mut self, rt: &HostRuntime, place: Place) -> Sight {
        let mut held = self.scan(rt, place);
        if !self.has_looked {
            self.has_looked = true;
            self.alias = held.own;
            held = self.scan(rt, place);
        }
        match held.process {
            Some(process) => Sight::Held { process },
            None => Sight::Free,
        }
    }

    // What the table has. One that can't be read has nothing. The system gives a page of it at a time, and a lock that goes between
    // two pages moves another one over their edge, which is passed over then: a table of several pages is read twice.
    fn scan(&mut self, rt: &HostRuntime, place: Place) -> Scan {
        let mut scan = Scan::new(self.own, place, self.alias.unwrap_or(place));
        if self.file.is_none() {
            self.file = File::open(rt, TABLE).ok();
        }
        if let Some(file) = &self.file {
            if read_lines(file, &mut scan) > 1 {
                read_lines(file, &mut scan);
            }
        }
        scan
    }
}

// Hands on the whole text of the file, and answers in how many pieces it came.
fn read_lines(file: &File, scan: &mut Scan) -> usize {
    let mut piece = [0u8; 4096];
    let mut pieces = 0usize;
    let mut at = 0u64;
    for _ in 0..u64::MAX {
        match file.read_at(&mut piece, at) {
            Ok(0) => return pieces,
            Ok(count) => {
                scan.take(&piece[..count]);
                at = at.saturating_add(count as u64);
                pieces = pieces.saturating_add(1);
            }
            Err(error) if error.kind() == io::ErrorKind::Interrupted => {}
            Err(_) => return pieces,
        }
    }
    pieces
}

/// One reading of the table.
#[derive(Drop)]
struct Scan {
    /// This process.
    owner: u64,
    place: Place,
    alias: Place,
    /// The name in the table of the file that this process has locked.
    own: Option<Place>,
    /// Another process that holds a lock on the file; which one, where that is known.
    process: Option<Option<u64>>,
    line: [u8; LINE],
    length: usize,
}

impl Scan {
    fn new(owner: u64, place: Place, alias: Place) -> Scan {
        Scan {
            owner,
            place,
            alias,
            own: None,
            process: None,
            line: [0; LINE],
            length: 0,
        }
    }

    fn take(&mut self, bytes: &[u8]) {
        for byte in bytes {
            if *byte == b'\n' {
                self.end_line();
            } else if self.length < LINE {
                self.line[self.length] = *byte;
                self.length += 1;
            }
        }
    }

    fn end_line(&mut self) {
        let end = self.length.min(LINE);
        if let Some(lock) = lock_on(&self.line[..end]) {
            self.judge(lock);
        }
        self.length = 0;
    }

    fn judge(&mut self, lock: Lock) {
        let is_own = lock.process == Some(self.owner);
        let is_here = lock.place == self.place || lock.place == self.alias;
        if lock.is_whole && self.own.is_none() && (is_own || is_here) {
            self.own = Some(lock.place);
        }
        if lock.is_of_sqlite() && is_here && !is_own && lock.start <= LAST && lock.end >= FIRST {
            self.process = Some(lock.process);
        }
    }
}

/// A line of the table.
#[derive(Clone, Copy)]
pub struct Lock {
    /// It is of the kind that takes a file as a whole, which SQLite doesn't use and two runs of this program do.
    is_whole: bool,
    /// It belongs to an open file and to no process, as the one that the launcher takes.
    pub is_of_open_file: bool,
    /// Whether it keeps others from reading too.
    pub is_exclusive: bool,
    process: Option<u64>,
    place: Place,
    start: u64,
    end: u64,
}

impl Lock {
    /// Whether it is on all bytes from one of those that SQLite locks to the last one.
    pub fn covers_from(&self, first: u64) -> bool {
        self.start <= first && self.end >= LAST
    }

    // Whether it may stand for a program that goes by SQLite's locks. A shared one of an open file is that of a launcher, and a second
    // run of this program is kept out otherwise.
    fn is_of_sqlite(&self) -> bool {
        !self.is_whole && (self.is_exclusive || !self.is_of_open_file)
    }
}

/// The lock of a line, none where it is of another form, or of a kind without bytes, or is only waited for.
pub fn lock_on(line: &[u8]) -> Option<Lock> {
    let text = str::from_utf8(line).ok()?;
    let mut words = text.split_ascii_whitespace();
    words.next()?;
    let kind = words.next()?;
    let is_whole = match kind {
        "FLOCK" => true,
        "POSIX" | "OFDLCK" => false,
        _ => return None,
    };
    words.next()?;
    let is_exclusive = words.next()? == "WRITE";
    let process = process_of(words.next()?);
    let place = place_of(words.next()?)?;
    let start = words.next()?.parse::<u64>().ok()?;
    let end = match words.next()? {
        "EOF" => u64::MAX,
        word => word.parse::<u64>().ok()?,
    };
    Some(Lock {
        is_whole,
        is_of_open_file: kind == "OFDLCK",
        is_exclusive,
        process,
        place,
        start,
        end,
    })
}

// A lock may belong to an open file and to no process, or to a process that is not seen from here.
fn process_of(word: &str) -> Option<u64> {
    match word.parse::<u64>() {
        Ok(0) | Err(_) => None,
        Ok(process) => Some(process),
    }
}

// Two numbers in hex and one in decimal, with colons between them.
fn place_of(word: &str) -> Option<Place> {
    let (major, rest) = word.split_once(':')?;
    let (minor, inode) = rest.split_once(':')?;
    Some(Place {
        major: u64::from_str_radix(major, 16).ok()?,
        minor: u64::from_str_radix(minor, 16).ok()?,
        inode: inode.parse::<u64>().ok()?,
    })
}
