// Why a commit was not done.

/// Why a commit was not done.
#[derive(Clone, Copy, Debug, PartialEq, Eq)]
pub enum CommitFault {
    /// The disk failed. The old database is recovered, or the new one.
    DiskFault,
    /// The entropy failed. The old database is recovered.
    EntropyFault,
}
