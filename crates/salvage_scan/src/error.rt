// Why a salvage stops.

/// Why nothing, or no more, is salvaged.
#[derive(Clone, Copy, Debug, PartialEq, Eq)]
pub enum SalvageError {
    /// The profile has tags, and no page is accepted.
    KeyRefused,
    /// The disk failed.
    DiskFault,
    /// The sink failed.
    OutputFault,
    /// There was no memory.
    OutOfMemory,
}
