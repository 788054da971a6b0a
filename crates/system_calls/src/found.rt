// What a look at a file tells, and what an error is told with.
ghost use Rattle.std.specs.Prelude.{◌≡◌, ◌%◌};

use std::io::Error;

/// A call that failed.
#[derive(Clone, Copy)]
pub struct Fault {
    /// What was asked for, in a word.
    pub call: &'static str,
    /// The system's answer.
    pub error: Error,
}

impl Fault {
    pub fn new(call: &'static str, error: Error) -> Fault {
        Fault { call, error }
    }
}

/// The bits of a mode that say who may read, write and run a file.
const PERMISSION_BITS: u32 = 0o777;

/// What has a name, or is open.
#[derive(Clone, Copy)]
pub struct Found {
    /// Whether it is a file, and no folder, link, pipe or device.
    pub is_regular: bool,
    pub identity: Identity,
    pub mark: Mark,
    /// The bits of its mode.
    pub mode: u32,
    pub owner: u32,
    pub group: u32,
    /// How many names lead to it.
    pub names: u64,
}

impl Found {
    /// The length in bytes.
    pub fn length(&self) -> u64
        ensures { result ≡ self.now.mark.length }
    {
        self.mark.length
    }

    /// The bits of its mode that say who may read, write and run it.
    pub fn permissions(&self) -> u32
        ensures { result ≡ self.now.mode % 512 }
    {
        self.mode & PERMISSION_BITS
    }
}

/// The device that a file is on, and its number there.
#[derive(Clone, Copy, PartialEq, Eq)]
pub struct Identity {
    pub device: u64,
    pub inode: u64,
}

impl Identity {
    /// The device's major and minor number and the file's, as the system's table of locks has them.
    pub fn place(&self) -> Place {
        Place {
            major: (self.device >> 8 & 0xfff) | (self.device >> 32 & 0xffff_f000),
            minor: (self.device & 0xff) | (self.device >> 12 & 0xffff_ff00),
            inode: self.inode,
        }
    }
}

/// A file as the system's table of locks names it.
#[derive(Clone, Copy, PartialEq, Eq)]
pub struct Place {
    pub major: u64,
    pub minor: u64,
    pub inode: u64,
}

/// When a file was last written, and how long it is.
#[derive(Clone, Copy, PartialEq, Eq)]
pub struct Mark {
    pub seconds: i64,
    pub nanoseconds: i64,
    /// In bytes.
    pub length: u64,
}
