// How a run ends.
ghost use Rattle.std.specs.Prelude.{◌≡◌};
ghost use Rattle.sqlcipher_tool.specs.Answer.{code_of};

use db_format::Defect;

/// Why a command was refused. Lengths are in bytes, and pages are numbered from 1.
#[derive(Clone, Copy, Debug, PartialEq, Eq)]
pub enum Refusal {
    /// The profile's pages have no tags.
    NoTags,
    /// The pages of the two profiles have another size or reserve.
    LayoutDiffers,
    /// A file that is read with its log is only read.
    OnlyRead,
    /// No byte of a key line was left.
    KeyMissing,
    /// The key line is empty.
    KeyEmpty,
    /// 1,025 bytes came without a line feed.
    KeyTooLong,
    /// The key line holds a raw key and a salt, and the file begins with its salt.
    KeyForm,
    /// The key line holds no salt, and the file does not either.
    KeyUnsalted,
    /// The key line is no passphrase in hex digits.
    KeyNotHex,
    /// There is a file already.
    FileThere,
    /// A journal stands beside the file, or where the file would be.
    JournalThere,
    /// The file is absent or has no byte.
    Empty,
    /// The file is shorter than a page, or than the pages that its header counts.
    Short {
        /// The file's length.
        length: u64,
    },
    /// A field of the header has a value that it may not have.
    HeaderFault {
        /// Where the field stands in page 1.
        offset: u32,
        /// The field's value.
        found: u32,
    },
    /// The file keeps a write-ahead log.
    WalMode,
    /// The file has pointer-map pages.
    AutoVacuum,
    /// The file is no whole number of pages, and its header does not count them.
    Ragged {
        /// The file's length.
        length: u64,
    },
    /// The file has more pages than are served.
    TooLarge {
        /// How many it has.
        pages: u64,
    },
    /// The tag of this page does not hold. Where several do not, it is the first.
    PageTag {
        /// The page.
        page: u32,
    },
    /// The hot journal beside the file has pages of another size.
    JournalPageSize {
        /// The size that its header names, in bytes.
        found: u32,
    },
    /// The hot journal beside the file names a super-journal.
    SuperJournal,
    /// The log beside the file is of another version of the format.
    LogVersion {
        /// The version that its header names.
        found: u32,
    },
    /// The log beside the file has pages of another size.
    LogPageSize {
        /// The size that its header names, in bytes.
        found: u32,
    },
    /// The database has so many pages by its log, and neither the file nor the log has the last of them.
    LogShort {
        /// How many it has.
        pages: u32,
    },
    /// The log has more pages, or more frames, than can be read with it.
    LogTooLarge,
    /// Page 1 of the log has another salt than the file, so the log is another file's.
    LogOfOther,
    /// The structure of the database has this defect.
    Defect(Defect),
    /// The new database has more pages than are served.
    TooManyPages {
        /// How many are served.
        limit: u32,
    },
    /// The schema has no table of this name whose rows have rowids.
    NoTable,
    /// So many of the indexes that were checked do not agree with their table.
    IndexesDiffer {
        /// How many differ.
        differing: u64,
        /// How many were checked.
        checked: u64,
    },
    /// This line of a script is no step.
    ScriptLine {
        /// The line, counted from 1.
        line: u32,
    },
    /// 1,101 bytes of this line came without a line feed.
    LineTooLong {
        /// The line, counted from 1.
        line: u32,
    },
    /// A byte follows the last line that a script may have.
    TooManyLines,
}

/// How a run ended.
#[derive(Clone, Copy, Debug, PartialEq, Eq)]
pub enum Status {
    /// The command was carried out.
    Done,
    /// The words are no command.
    Usage,
    /// The file or the input is not one that the command can serve.
    Refused(Refusal),
    /// The key does not fit the file.
    KeyRefused,
    /// The disk failed.
    DiskFault,
    /// The output failed.
    OutputFault,
    /// The input failed.
    InputFault,
    /// The entropy failed.
    EntropyFault,
    /// Memory ran out.
    OutOfMemory,
}

impl Status {
    /// The exit status of the program.
    pub fn code(&self) -> u8
        ensures { result ≡ code_of self.now }
    {
        match self {
            Status::Done => 0,
            Status::Usage => 1,
            Status::Refused(_) => 2,
            Status::KeyRefused => 3,
            Status::DiskFault => 4,
            Status::OutputFault => 5,
            Status::InputFault => 6,
            Status::EntropyFault => 7,
            Status::OutOfMemory => 8,
        }
    }
}
