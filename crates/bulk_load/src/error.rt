// Why a tree was not loaded.
use crate::out::OutError;

/// Why an entry was not loaded.
#[derive(Clone, Copy, Debug, PartialEq, Eq)]
pub enum LoadError {
    /// The rowid is not above the last.
    RowidOrder,
    /// No page was taken or put.
    Out(OutError),
    /// There was no memory.
    OutOfMemory,
    /// A path of the tree would have more than 20 pages.
    TooDeep,
}
