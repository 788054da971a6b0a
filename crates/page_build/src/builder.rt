// The cells of one page: their bytes from the page's end, their offsets from its front.
ghost use Rattle.std.specs.Prelude.{◌≡◌, ℕ, ◌+◌, ◌≤◌, ◌<◌, ◌↔◌, ◌++◌, max, List, length, replicate, take, drop, Ok, IfOk, IsTrue, if◌then◌else◌};
ghost use Rattle.db_format.specs.Pages.{IsUsable};
ghost use Rattle.btree_page.specs.Cell.{Cell};
ghost use Rattle.btree_page.specs.Kind.{family_of, header_at};
ghost use Rattle.btree_page.specs.Page.{header_len, read_node, read_page};
ghost use Rattle.page_build.specs.Draft.{as_first, blank, finished, laid, room_of, with_cell, without_cells};
ghost use Rattle.page_build.specs.Written.{leaf_head, AreWritten, kind_byte, page_head, right_child};

use crate::bytes::{four_bytes, lay, two_bytes};
use btree_page::Kind;
use db_format::OutOfMemory;
use std::alloc::Global;
use std::marker::Model;

/// A page of a tree that is being written, with no freeblock and no fragment (section 1.6).
///
/// Contracts see its usable size, where its header begins, its kind, and the bytes of its cells in order.
#[derive(Drop)]
pub struct PageBuilder {
    // The page; the bytes of its header are not yet those of these cells.
    page: Vec<u8>,
    kind: Kind,
    // where the page header begins
    header: usize,
    // how many cells there are
    count: usize,
    // where the lowest cell begins
    start: usize,
}

impl Model for PageBuilder {
    ghost use Rattle.page_build.specs.Draft.{Draft, draft_of, IsDrafted};

    ghost Value = { Draft };

    ghost view = { λ b. draft_of b.page.items b.kind b.header b.count };

    ghost invariant = { λ b. IsDrafted b.page.items b.kind b.header b.count b.start };
}

// The length of the page header, in bytes.
fn header_len(kind: Kind) -> usize
    ensures value { result ≡ header_len kind }
    ensures most { result ≤ 12 }
{
    if kind.is_interior() { 12 } else { 8 }
}

// The byte with which a page header begins.
fn kind_byte(kind: Kind) -> u8
    ensures { result ≡ kind_byte kind }
{
    match kind {
        Kind::IndexInterior => 2,
        Kind::TableInterior => 5,
        Kind::IndexLeaf => 10,
        Kind::TableLeaf => 13,
    }
}

// A page header but for the right child: no freeblock, no fragment, and a start of 65,536 as 0.
fn leaf_head(kind: Kind, count: usize, start: usize) -> [u8; 8]
    requires few { count < 65536 }
    ensures { result ≡ leaf_head kind count start }
{
    let [count_high, count_low] = two_bytes(count as u16);
    let [start_high, start_low] = two_bytes((start % 65536) as u16);
    [
        kind_byte(kind),
        0,
        0,
        count_high,
        count_low,
        start_high,
        start_low,
        0,
    ]
}

// Writes a page header.
fn write_head(page: &mut Vec<u8>, kind: Kind, header: usize, count: usize, start: usize, right: u32)
    requires place { header + 12 ≤ length page.old.items }
    requires few { count < 65536 }
    ensures { page.new.items ≡ laid header (page_head kind count start right) page.old.items }
{
    lay(page, header, &leaf_head(kind, count, start));
    if kind.is_interior() {
        lay(page, header + 8, &four_bytes(right));
    }
}

// Moves so many bytes from the front behind 100 zeros.
fn move_head(page: &mut Vec<u8>, end: usize)
    requires { 100 + end ≤ length page.old.items }
    ensures { page.new.items ≡ replicate 100 0 ++ (take end page.old.items ++ drop (100 + end) page.old.items) }
{
    page.copy_within(0..end, 100);
    lay(page, 0, &[0; 100]);
}

impl PageBuilder {
    ghost use Rattle.std.specs.Borrow.{sem};
    ghost use Rattle.std.specs.Io.BufRead.{Rests};
    ghost use Rattle.page_build.specs.contracts.builder.PageBuilder.{the_row};

    /// A page of this usable size, in bytes, without a cell. The first page of a database keeps 100 bytes in front.
    pub fn new(
        alloc: Global,
        usable: usize,
        kind: Kind,
        first: bool,
    ) -> Result<PageBuilder, OutOfMemory>
        requires { IsUsable usable }
        ensures { IfOk result (λ page. page ≡ blank usable (if first then 100 else 0) kind) }
    {
        let Ok(page) = vec![in alloc; 0; usable] else {
            return Err(OutOfMemory);
        };
        Ok(PageBuilder {
            page,
            kind,
            header: if first { 100 } else { 0 },
            count: 0,
            start: usable,
        })
    }

    /// What the page is.
    pub fn kind(&self) -> Kind
        ensures { result ≡ self.now.kind }
    {
        self.kind
    }

    /// How many bytes are left. A cell takes its length, at least 4, and 2 more.
    pub fn room(&self) -> usize
        ensures { result ≡ room_of self.now }
    {
        self.start - (self.header + header_len(self.kind) + 2 * self.count)
    }

    /// Whether a cell of so many bytes may be added.
    pub fn fits(&self, len: usize) -> bool
        ensures { IsTrue result ↔ (max 4 len + 2 ≤ room_of self.now) }
    {
        let room = self.room();
        6 <= room && len <= room - 2
    }

    /// One cell more, behind the others. One of fewer than 4 bytes is filled up with zeros.
    pub fn add(&mut self, cell: &[u8])
        requires { max 4 (length cell.now) + 2 ≤ room_of self.old }
        ensures { self.new ≡ with_cell self.old cell.now }
    {
        let at = self.header + header_len(self.kind) + 2 * self.count;
        let from = self.start - if cell.len() < 4 { 4 } else { cell.len() };
        lay(&mut self.page, from, cell);
        lay(&mut self.page, at, &two_bytes(from as u16));
        self.count += 1;
        self.start = from;
    }

    /// The page, with this right child if it is interior. Its cells stay, and more may be added.
    pub fn finish(&mut self, right: u32) -> &[u8]
        ensures* after_borrow { sem 𝓛 (Rests the_row self.entry (λ new. new ≡ self.old)) }
        ensures page { result.now ≡ finished self.old right }
        ensures size { length result.now ≡ self.old.usable }
        // As page n it reads as exactly its cells and the right child.
        ensures reads { (cells : List Cell) (n : ℕ) → self.old.header ≡ header_at n
            → AreWritten self.old.kind self.old.usable self.old.cells cells
            → read_page n result.now ≡ Ok (record { kind = self.old.kind; cells = cells; right = right_child self.old.kind right }) }
        // And so as a page of a tree of its family.
        ensures opens { (cells : List Cell) (n : ℕ) → self.old.header ≡ header_at n
            → AreWritten self.old.kind self.old.usable self.old.cells cells
            → read_node (family_of self.old.kind) n result.now
            ≡ Ok (record { kind = self.old.kind; cells = cells; right = right_child self.old.kind right }) }
    {
        write_head(
            &mut self.page,
            self.kind,
            self.header,
            self.count,
            self.start,
            right,
        );
        &self.page
    }

    /// Makes it the first page of a database, which keeps 100 bytes in front.
    pub fn make_first(&mut self)
        requires plain { self.old.header ≡ 0 }
        requires room { 100 ≤ room_of self.old }
        ensures { self.new ≡ as_first self.old }
    {
        let end = header_len(self.kind) + 2 * self.count;
        move_head(&mut self.page, end);
        self.header = 100;
    }

    /// No cell any more.
    pub fn clear(&mut self)
        ensures { self.new ≡ without_cells self.old }
    {
        self.page.fill(0);
        self.count = 0;
        self.start = self.page.len();
    }
}
