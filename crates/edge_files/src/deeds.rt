// What was done to the files so far, and what was seen beside them.

/// What was done to the files so far, and what was seen beside them.
#[derive(Clone, Copy)]
pub struct Deeds {
    /// How many pages were laid back into Main from a journal that was found.
    pub laid: u64,
    /// Whether a journal that was found was removed.
    pub has_dropped: bool,
    /// How many frames of a log were laid into Main.
    pub frames: u64,
    /// Whether the log was removed.
    pub has_dropped_log: bool,
    /// Whether the command began to write to Main itself, beside a journal of its own.
    pub has_changed: bool,
    /// Whether the new file was to take Main's place.
    pub has_renamed: bool,
    /// Whether another program wrote to Main while a journal of this run stood.
    pub is_played_back: bool,
    /// Whether this run's journal was removed, since the file that it is of has no name any more.
    pub has_dropped_orphan: bool,
    /// A program that `probe` saw at the file; which process, where that is known.
    pub other: Option<Option<u64>>,
    /// Whether `probe` saw a write-ahead log.
    pub has_log: bool,
}

impl Deeds {
    /// Nothing yet.
    pub fn none() -> Deeds {
        Deeds {
            laid: 0,
            has_dropped: false,
            frames: 0,
            has_dropped_log: false,
            has_changed: false,
            has_renamed: false,
            is_played_back: false,
            has_dropped_orphan: false,
            other: None,
            has_log: false,
        }
    }
}
