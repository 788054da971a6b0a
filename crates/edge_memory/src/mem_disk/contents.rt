// What a disk in memory is made of: files and calls.
use edge_model::Role;

/// What each role holds.
#[derive(Drop)]
pub struct Contents {
    pub main: Option<Vec<u8>>,
    pub journal: Option<Vec<u8>>,
    pub fresh: Option<Vec<u8>>,
}

/// A call that was done.
#[derive(Drop)]
pub enum Call {
    Write(Role, u64, Vec<u8>),
    Cut(Role, u64),
    Sync(Role),
    Create(Role),
    Remove(Role),
    Rename,
    SyncFolder,
}
