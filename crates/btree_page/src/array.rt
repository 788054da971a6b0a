// The array of cell offsets, section 1.6.
ghost use Rattle.std.specs.Prelude.{◌≡◌, ◌≤◌, ◌<◌, ◌+◌, ◌*◌, length, Some, None, Ok, Err, IfOk, IfErr, IfSome};
ghost use Rattle.std.specs.Option.{option_map};
ghost use Rattle.db_format.specs.Pages.{IsUsable};
ghost use Rattle.db_format.specs.Bytes.{u32_at};
ghost use Rattle.btree_page.specs.Kind.{header_at, is_interior, kind_at};
ghost use Rattle.btree_page.specs.Page.{array_end, array_start, cell_at, cell_count, read_page};
ghost use Rattle.btree_page.specs.Cell.{payload_len};
ghost use Rattle.btree_page.specs.Payload.{max_payload};
ghost use Rattle.btree_page.specs.Shown.{cell_shown};

use crate::cell::read_cell;
use crate::kind::{header_at, page_kind};
use crate::{Cell, Kind, PageFault};
use db_format::{u16_at, u32_at};

/// A page whose kind is known and whose array lies on it. Its cells were not looked at.
#[derive(Clone, Copy)]
pub struct CellArray<'a> {
    bytes: &'a [u8],
    // where the page header begins
    header: usize,
    kind: Kind,
    count: u32,
    ghost usable: { IsUsable (length bytes.now) },
    ghost place: { header ≤ 100 },
    ghost counted: { count ≡ cell_count bytes.now header },
    ghost inside: { array_end kind bytes.now header ≤ length bytes.now },
}

/// The array of page n with these bytes, or why the page has none.
pub fn read_array<'a>(plain: &'a [u8], n: u32) -> Result<CellArray<'a>, PageFault>
    requires { IsUsable (length plain.now) }
    ensures place { IfOk result (λ array. (array.bytes.now ≡ plain.now) × (array.header ≡ header_at n)) }
    ensures kind { IfOk result (λ array. kind_at n plain.now ≡ Some array.kind) }
    ensures refused { IfErr result (λ fault. read_page n plain.now ≡ Err fault) }
{
    let header = header_at(n);
    let kind = match page_kind(plain, n) {
        Some(kind) => kind,
        None => return Err(PageFault::BadKind),
    };
    let count = u16_at(plain, header + 3) as u32;
    let start = array_start(kind, header);
    if start + 2 * count as usize > plain.len() {
        return Err(PageFault::BadCell {
            index: ((plain.len() - start) / 2) as u32,
        });
    }
    Ok(CellArray {
        bytes: plain,
        header,
        kind,
        count,
    })
}

// Where the array begins.
fn array_start(kind: Kind, header: usize) -> usize
    requires { header ≤ 100 }
    ensures value { result ≡ array_start kind header }
    ensures most { result ≤ 112 }
{
    if kind.is_interior() {
        header + 12
    } else {
        header + 8
    }
}

impl<'a> CellArray<'a> {
    pub fn kind(&self) -> Kind
        ensures { result ≡ self.now.kind }
    {
        self.kind
    }

    pub fn count(&self) -> u32
        ensures { result ≡ self.now.count }
    {
        self.count
    }

    /// The cell with this index, if its offset leads to one.
    pub fn cell(&self, index: u32) -> Option<Cell<'a>>
        requires { index < self.now.count }
        ensures read { option_map cell_shown result ≡ cell_at self.now.kind self.now.bytes.now self.now.header index }
        ensures limit { IfSome result (λ cell. payload_len (cell_shown cell) ≤ max_payload) }
    {
        let start = array_start(self.kind, self.header);
        let offset = u16_at(self.bytes, start + 2 * index as usize) as usize;
        if offset < start + 2 * self.count as usize || offset >= self.bytes.len() {
            return None;
        }
        read_cell(self.kind, self.bytes.len(), &self.bytes[offset..])
    }

    /// The right child of an interior page.
    pub fn right(&self) -> u32
        ensures { result ≡ u32_at self.now.bytes.now (self.now.header + 8) }
    {
        u32_at(self.bytes, self.header + 8)
    }
}
