// Why a walk stops.

use db_format::Defect;

/// Why a walk through the pages of a source stops.
#[derive(Drop)]
pub enum WalkError<R> {
    /// The structure of the database has this defect.
    Defect(Defect),
    /// The source did not give a page.
    Source(R),
    /// There was no memory.
    OutOfMemory,
}
