// Why no database was made.

/// Why no database was made.
#[derive(Clone, Copy, Debug, PartialEq, Eq)]
pub enum MakeError {
    /// Main is there.
    FileThere,
    /// Main is not there, but a Journal is.
    JournalThere,
    /// The database has more pages than a file may have. `limit` is how many it may.
    TooManyPages { limit: u32 },
    /// The disk failed.
    DiskFault,
    /// The entropy failed.
    EntropyFault,
    /// Memory ran out.
    OutOfMemory,
}
