// What can be wrong with the structure of a database.

/// What is wrong with the structure of a database, with the page or the row at which it is found. Pages are numbered from 1.
#[derive(Clone, Copy, Debug, PartialEq, Eq)]
pub enum Defect {
    /// A freelist trunk page lists more leaves than it has room for, or names a page that is none; at page 1, the header
    /// names a first trunk that is none (section 1.5).
    TrunkFault { page: u32 },
    /// The header's count of freelist pages is not the count of those found (section 1.3.8).
    FreeCount { kept: u32, found: u32 },
    /// The page is no page of the tree in which it stands: its kind is none, or one of the other family (section 1.6).
    BadKind { page: u32 },
    /// A cell of the page, its index counted from 0, does not lie within it (section 1.6).
    BadCell { page: u32, index: u32 },
    /// The page holds the number of a child or of an overflow page that is none.
    ChildOutOfRange { page: u32 },
    /// The page was met at an earlier place.
    PageTwice { page: u32 },
    /// The page is the 21st of a path from a root.
    TooDeep { page: u32 },
    /// The overflow page is the last of its chain, and bytes of the payload are missing (section 1.7).
    ChainShort { page: u32 },
    /// The overflow page has the last bytes of its payload, and names a further one (section 1.7).
    ChainLong { page: u32 },
    /// A rowid of the page is not above one before it, or on the wrong side of a key.
    RowidOrder { page: u32 },
    /// A payload of the page is no record (section 2.1).
    RecordFault { page: u32 },
    /// The row of the schema has too few columns, or a root page that is no page number (section 2.6).
    SchemaRow { rowid: i64 },
    /// The row of the schema names a root page that is none.
    RootFault { rowid: i64 },
}
