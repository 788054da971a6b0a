// What a run does to the files.
ghost use Rattle.std.specs.Prelude.{◌≡◌};
ghost use Rattle.edge_files.specs.Purposes.{is_on_log};

/// What a run does to the files: which of them has the role Journal, and what may stand beside. A command that takes more than one run turns from
/// one to the next, and the file stays open and locked meanwhile.
#[derive(Clone, Copy, Debug, PartialEq, Eq)]
pub enum Purpose {
    /// Any command but those below. Journal is FILE-journal, and a log with a byte stands in the way.
    Command,
    /// `probe`, which only looks: nobody and nothing that is seen stands in its way.
    Probe,
    /// The file is read with its log. Journal is FILE-wal, nothing is written or synced, and a journal that would be played back stands in
    /// the way.
    ReadLog,
    /// A journal is played back before the log beside it is read. Journal is FILE-journal.
    RecoverBesideLog,
    /// The log that was read is laid and removed, and FILE-shm with it. Journal is FILE-wal.
    LayLog,
}

impl Purpose {
    /// Whether Journal is FILE-wal.
    pub fn is_on_log(self) -> bool
        ensures { result ≡ is_on_log self }
    {
        matches!(self, Purpose::ReadLog | Purpose::LayLog)
    }
}
