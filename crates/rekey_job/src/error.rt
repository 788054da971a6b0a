// Why a file is not rekeyed.

use db_format::Defect;

/// Why a file is not rekeyed. The order is that in which the causes are found, but for the last three.
#[derive(Clone, Copy, Debug, PartialEq, Eq)]
pub enum RekeyError {
    /// The codec for writing has pages of another length, another reserve or another setting.
    LayoutDiffers,
    /// The tag of this page, which is in use, does not hold.
    PageTag { page: u32 },
    /// The structure of the database has this defect.
    Defect(Defect),
    /// The disk failed.
    DiskFault,
    /// The source of random bytes failed.
    EntropyFault,
    /// Memory ran out, before anything was written.
    OutOfMemory,
}
