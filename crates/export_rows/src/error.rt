// Why an export stops.

use btree_walk::WalkError;

/// Why an export stops.
#[derive(Drop)]
pub enum ExportError<R> {
    /// A page was refused, the database has a defect, or there was no memory.
    Walk(WalkError<R>),
    /// The sink failed.
    OutputFault,
}
