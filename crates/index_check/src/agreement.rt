// What a check of an index finds.
ghost use Rattle.std.specs.Prelude.{◌≡◌};
ghost use Rattle.index_check.specs.Checked.{is_whole, surplus};

use crate::Rowids;

/// How the entries of an index belong to the rows of its table.
#[derive(Clone, Copy, Debug, PartialEq, Eq)]
pub struct Agreement {
    /// How many rows the table has.
    pub rows: u64,
    /// How many entries the index has.
    pub entries: u64,
    /// The rows to which no entry belongs.
    pub missing: Rowids,
    /// The entries that end with a rowid which no row has.
    pub strangers: Rowids,
    /// How many entries end in no integer.
    pub nameless: u64,
}

impl Agreement {
    /// Whether each row has one entry, and each entry belongs to a row: `whole_law` says so.
    pub fn is_whole(&self) -> bool
        ensures { result ≡ is_whole self.now }
    {
        self.missing.count == 0
            && self.strangers.count == 0
            && self.nameless == 0
            && self.entries == self.rows
    }

    /// How many entries there are of all rows beyond one a row: `beyond_law` says so.
    pub fn beyond(&self) -> u64
        ensures { result ≡ surplus self.now }
    {
        self.entries
            .saturating_sub(self.strangers.count)
            .saturating_sub(self.nameless)
            .saturating_sub(self.rows.saturating_sub(self.missing.count))
    }
}
