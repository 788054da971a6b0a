// Kinds of tree pages, section 1.6.
ghost use Rattle.std.specs.Prelude.{◌≡◌, ◌≤◌, length};
ghost use Rattle.btree_page.specs.Kind.{family_of, header_at, is_interior, kind_at, kind_of};

/// What a page of a tree is.
#[derive(Clone, Copy, Debug, PartialEq, Eq)]
pub enum Kind {
    /// Children, and between them entries of an index (2).
    IndexInterior,
    /// Children, and between them keys (5).
    TableInterior,
    /// Entries of an index (10).
    IndexLeaf,
    /// Rows of a table (13).
    TableLeaf,
}

/// What a tree holds. All pages of a tree are of one family.
#[derive(Clone, Copy, Debug, PartialEq, Eq)]
pub enum Family {
    /// Rows, each with a rowid.
    Table,
    /// Entries without a rowid: those of an index, or the rows of a table without rowids.
    Index,
}

impl Kind {
    /// The family of the trees in which such pages stand.
    pub fn family(self) -> Family
        ensures { result ≡ family_of self }
    {
        match self {
            Kind::IndexInterior | Kind::IndexLeaf => Family::Index,
            Kind::TableInterior | Kind::TableLeaf => Family::Table,
        }
    }

    /// Whether such pages have children.
    pub fn is_interior(self) -> bool
        ensures { result ≡ is_interior self }
    {
        match self {
            Kind::IndexInterior | Kind::TableInterior => true,
            Kind::IndexLeaf | Kind::TableLeaf => false,
        }
    }
}

/// The kind of page n with these bytes, `None` where they are no page of a tree. Its cells are not looked at.
pub fn page_kind(plain: &[u8], n: u32) -> Option<Kind>
    requires { 480 ≤ length plain.now }
    ensures { result ≡ kind_at n plain.now }
{
    kind_of(plain[header_at(n)])
}

// Where the page header begins.
pub fn header_at(n: u32) -> usize
    ensures value { result ≡ header_at n }
    ensures most { result ≤ 100 }
{
    if n == 1 { 100 } else { 0 }
}

fn kind_of(byte: u8) -> Option<Kind>
    ensures { result ≡ kind_of byte }
{
    match byte {
        2 => Some(Kind::IndexInterior),
        5 => Some(Kind::TableInterior),
        10 => Some(Kind::IndexLeaf),
        13 => Some(Kind::TableLeaf),
        _ => None,
    }
}
