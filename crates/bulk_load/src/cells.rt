// Entries and keys as cells.
ghost use Rattle.std.specs.Prelude.{◌≡◌, ◌≤◌, ◌<◌, ◌+◌, ◌^◌, ℤ, List, ◌++◌, length, take, max, IfOk, IfErr, OnOk, nat_le, if◌then◌else◌};
ghost use Rattle.std.specs.Int.{w64, cast_unsigned};
ghost use Rattle.db_format.specs.Varint.{varint_size};
ghost use Rattle.btree_page.specs.Cell.{index_interior, table_interior, table_leaf};
ghost use Rattle.page_build.specs.CellBytes.{cell_bytes};
ghost use Rattle.bulk_load.specs.Cells.{row_len};

use crate::error::LoadError;
use crate::pair::Pair;
use btree_page::Cell;
use db_format::write_varint;
use page_build::write_cell;
use std::alloc::Global;

/// The cell of an entry of an index, behind four bytes for a child. So many bytes of its payload are local, and the chain of the
/// others begins at `first`.
pub fn entry_pair(
    alloc: Global,
    payload: &[u8],
    local: usize,
    first: u32,
) -> Result<Pair, LoadError>
    requires { local ≤ length payload.now }
    ensures child { IfOk result (λ pair. pair.child ≡ 0) }
    ensures cell { IfOk result (λ pair. pair.cell.items
        ≡ cell_bytes (index_interior 0 (record { size = length payload.now; local = take local payload.now; first = first }))) }
    ensures cause { IfErr result (λ error. error ≡ LoadError.OutOfMemory) }
{
    let mut cell = Vec::new(alloc);
    let entry = Cell::IndexInterior {
        left: 0,
        length: payload.len() as u64,
        local: &payload[..local],
        first,
    };
    match write_cell(&entry, &mut cell) {
        Ok(()) => Ok(Pair { child: 0, cell }),
        Err(_) => Err(LoadError::OutOfMemory),
    }
}

/// An interior cell of a table: this child, and the key behind it.
pub fn key_pair(alloc: Global, child: u32, key: i64) -> Result<Pair, LoadError>
    ensures child { IfOk result (λ pair. pair.child ≡ child) }
    ensures cell { IfOk result (λ pair. pair.cell.items ≡ cell_bytes (table_interior child key)) }
    ensures cause { IfErr result (λ error. error ≡ LoadError.OutOfMemory) }
{
    let mut cell = Vec::new(alloc);
    match write_cell(&Cell::TableInterior { left: child, key }, &mut cell) {
        Ok(()) => Ok(Pair { child, cell }),
        Err(_) => Err(LoadError::OutOfMemory),
    }
}

/// Writes the cell of a row into `cell`, in place of what it had.
pub fn write_row(
    cell: &mut Vec<u8>,
    rowid: i64,
    payload: &[u8],
    local: usize,
    first: u32,
) -> Result<(), LoadError>
    requires { local ≤ length payload.now }
    ensures ok { OnOk result (cell.new.items
        ≡ cell_bytes (table_leaf rowid (record { size = length payload.now; local = take local payload.now; first = first }))) }
    ensures cause { IfErr result (λ error. error ≡ LoadError.OutOfMemory) }
{
    cell.clear();
    let row = Cell::TableLeaf {
        rowid,
        length: payload.len() as u64,
        local: &payload[..local],
        first,
    };
    match write_cell(&row, cell) {
        Ok(()) => Ok(()),
        Err(_) => Err(LoadError::OutOfMemory),
    }
}

/// The length of the cell of a row with so many bytes, so many of them local.
pub fn row_len(rowid: i64, length: usize, local: usize) -> usize
    requires few { local ≤ 65536 }
    ensures { result ≡ row_len length rowid local }
{
    let more = if length <= local { 0 } else { 4 };
    varint_len(length as u64) + varint_len(rowid.cast_unsigned()) + local + more
}

// How many bytes the varint of a number takes.
fn varint_len(number: u64) -> usize
    ensures value { result ≡ varint_size number }
    ensures most { result ≤ 9 }
{
    let mut spelling = [0; 9];
    write_varint(number, &mut spelling)
}
