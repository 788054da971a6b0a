// Pages of a tree, section 1.6.
ghost use Rattle.std.specs.Prelude.{◌≡◌, ◌≤◌, ◌<◌, length, slice_get, Some, true};
ghost use Rattle.db_format.specs.Pages.{IsUsable};
ghost use Rattle.btree_page.specs.Kind.{is_interior, kind_at};
ghost use Rattle.btree_page.specs.Page.{is_of, read_node, read_page};
ghost use Rattle.btree_page.specs.Cell.{payload_len};
ghost use Rattle.btree_page.specs.Payload.{max_payload};
ghost use Rattle.btree_page.specs.Shown.{cell_shown};

use crate::array::{CellArray, read_array};
use crate::{Cell, Family, Kind, page_kind};
use std::marker::Model;

/// Why a page is no page of a tree.
#[derive(Clone, Copy, Debug, PartialEq, Eq)]
pub enum PageFault {
    /// Its kind is none, or one of another family than was asked for.
    BadKind,
    /// The least index, from 0, of a cell that does not lie on the page, or whose payload is too long to be read. Where the
    /// array of offsets passes the page's end, the index of the first offset that is lost.
    BadCell { index: u32 },
}

/// A page of a tree that was read whole: each of its cells lies on it. The bytes stay borrowed.
///
/// Contracts see the page's kind, its cells in key order, and the right child of an interior page.
#[derive(Drop)]
pub struct PageView<'a> {
    array: CellArray<'a>,
}

impl<'a> Model for PageView<'a> {
    ghost use Rattle.std.specs.Prelude.{◌≡◌};
    ghost use Rattle.btree_page.specs.Page.{Node, cell_count, first_lost, node_at};

    ghost Value = { Node };

    ghost view = { λ page. node_at page.array.kind page.array.bytes.now page.array.header };

    ghost invariant = { λ page. first_lost page.array.kind page.array.bytes.now page.array.header
        ≡ cell_count page.array.bytes.now page.array.header };
}

impl<'a> PageView<'a> {
    /// Page n with these bytes, as many as the usable size. Every cell is tested.
    pub fn read(plain: &'a [u8], n: u32) -> Result<PageView<'a>, PageFault>
        requires { IsUsable (length plain.now) }
        ensures { result ≡ read_page n plain.now }
    {
        let array = read_array(plain, n)?;
        for index in 0..array.count() {
            if array.cell(index).is_none() {
                return Err(PageFault::BadCell { index });
            }
        }
        Ok(PageView { array })
    }

    /// The same as a page of a tree of this family. A page of the other family is refused before its cells are looked at.
    pub fn open(plain: &'a [u8], n: u32, family: Family) -> Result<PageView<'a>, PageFault>
        requires { IsUsable (length plain.now) }
        ensures { result ≡ read_node family n plain.now }
    {
        if !is_of(family, page_kind(plain, n)) {
            return Err(PageFault::BadKind);
        }
        PageView::read(plain, n)
    }

    /// What the page is.
    pub fn kind(&self) -> Kind
        ensures { result ≡ self.now.kind }
    {
        self.array.kind()
    }

    /// How many cells it has.
    pub fn count(&self) -> u32
        ensures { result ≡ length self.now.cells }
    {
        self.array.count()
    }

    /// The cell with this index, from 0 in key order. Its payload is borrowed from the page.
    pub fn cell(&self, index: u32) -> Cell<'a>
        requires { index < length self.now.cells }
        ensures cell { slice_get self.now.cells index ≡ Some (cell_shown result) }
        ensures limit { payload_len (cell_shown result) ≤ max_payload }
    {
        match self.array.cell(index) {
            Some(cell) => cell,
            None => unreachable!(),
        }
    }

    /// The right child of an interior page.
    pub fn right(&self) -> u32
        requires { is_interior self.now.kind ≡ true }
        ensures { self.now.right ≡ Some result }
    {
        self.array.right()
    }
}

// Whether the kind is one of the family's.
fn is_of(family: Family, kind: Option<Kind>) -> bool
    ensures { result ≡ is_of family kind }
{
    match kind {
        Some(kind) => kind.family() == family,
        None => false,
    }
}
