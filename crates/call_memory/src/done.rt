// The changes that a folder in memory keeps, for what a stop may leave.
use edge_model::Role;

/// A change that was done. A file is named by its number.
#[derive(Drop)]
pub enum Done {
    /// The bytes of the file from an offset on.
    Write(usize, u64, Vec<u8>),
    /// The file to a length.
    Cut(usize, u64),
    Sync(usize),
    Create(Role),
    Remove(Role),
    Rename,
    SyncFolder,
}
