// What is found of an index.

use index_check::Agreement;

/// Why an index is not checked.
#[derive(Clone, Copy, Debug, PartialEq, Eq)]
pub enum Unchecked {
    /// Its row of the schema has no tree, or one whose entries have rowids.
    NoTree,
    /// The schema has no table of the name that its row has.
    NoTable,
    /// The table has no rowids.
    NoRowids,
    /// It is partial, or its text is none that is read.
    NotRead,
}

/// What is found of an index.
#[derive(Clone, Copy, Debug, PartialEq, Eq)]
pub enum Verdict {
    /// It is not checked.
    Unchecked(Unchecked),
    /// Its entries belong to the rows of its table so.
    Checked(Agreement),
}
