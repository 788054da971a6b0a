// The images that can be asked for.

/// Which image of a disk in memory, of those that a crash may leave.
#[derive(Clone, Copy, Debug, PartialEq, Eq)]
pub enum ImagePick {
    /// Nothing since the last syncs.
    Lost,
    /// All that was done.
    Kept,
    /// All that was done, with each unsynced byte b turned into 255 - b.
    Torn,
}
