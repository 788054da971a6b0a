// Why a file is not migrated.

use db_format::Defect;

/// Why a file is not migrated. The order is that in which the causes are found, but for the last three.
#[derive(Clone, Copy, Debug, PartialEq, Eq)]
pub enum MigrateError {
    /// The tag of this page does not hold.
    PageTag { page: u32 },
    /// The structure of the database has this defect.
    Defect(Defect),
    /// The new file would have more pages than a file may have. `limit` is how many it may.
    TooManyPages { limit: u32 },
    /// The disk failed.
    DiskFault,
    /// The source of random bytes failed.
    EntropyFault,
    /// Memory ran out, before the new file took the old one's place.
    OutOfMemory,
}
