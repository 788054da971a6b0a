// The trees of a made database.

/// A tree of rows.
#[derive(Clone, Copy, Debug, PartialEq, Eq)]
pub enum Part {
    /// The table `items`.
    Items,
    /// Its index `items_name`.
    Names,
    /// The table `codes`, which has no rowids.
    Codes,
}
