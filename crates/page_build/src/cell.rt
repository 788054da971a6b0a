// Cells, section 1.6.
ghost use Rattle.std.specs.Prelude.{◌≡◌, ◌==◌, ℕ, [], ◌++◌, length, take, OnOk, OnErr, if◌then◌else◌};
ghost use Rattle.db_format.specs.Pages.{IsUsable};
ghost use Rattle.db_format.specs.Varint.{varint_bytes};
ghost use Rattle.btree_page.specs.Shown.{cell_shown};
ghost use Rattle.page_build.specs.CellBytes.{IsFor, IsRanged, cell_bytes, kind_of_cell};
ghost use Rattle.page_build.specs.Written.{IsCellWritten, four_bytes};

use crate::bytes::four_bytes;
use btree_page::Cell;
use db_format::{OutOfMemory, write_varint};

/// Appends a cell. A payload goes on in an overflow page where `first` is not 0.
pub fn write_cell(cell: &Cell<'_>, out: &mut Vec<u8>) -> Result<(), OutOfMemory>
    ensures ok { OnOk result (out.new.items ≡ out.old.items ++ cell_bytes (cell_shown cell.now)) }
    ensures err { OnErr result (out.new.items ≡ out.old.items) }
    // On a page of a usable size at which so many bytes of its payload are local, it is read back.
    ensures reads_back { (usable : ℕ) → IsUsable usable → IsFor usable (cell_shown cell.now)
        → IsCellWritten (kind_of_cell (cell_shown cell.now)) usable (cell_bytes (cell_shown cell.now)) (cell_shown cell.now) }
{
    let before = out.len();
    match push_cell(*cell, out) {
        Ok(()) => Ok(()),
        Err(error) => {
            out.truncate(before);
            Err(error)
        }
    }
}

// Appends a cell, or a part of it.
fn push_cell(cell: Cell<'_>, out: &mut Vec<u8>) -> Result<(), OutOfMemory>
    ensures ok { OnOk result (out.new.items ≡ out.old.items ++ cell_bytes (cell_shown cell.entry)) }
    ensures kept { take (length out.old.items) out.new.items ≡ out.old.items }
    ensures ranged { IsRanged (cell_shown cell.entry) }
{
    match cell {
        Cell::TableLeaf {
            rowid,
            length,
            local,
            first,
        } => {
            push_varint(length, out)?;
            push_varint(rowid.cast_unsigned(), out)?;
            push_local(local, first, out)
        }
        Cell::TableInterior { left, key } => {
            append(out, &four_bytes(left))?;
            push_varint(key.cast_unsigned(), out)
        }
        Cell::IndexLeaf {
            length,
            local,
            first,
        } => {
            push_varint(length, out)?;
            push_local(local, first, out)
        }
        Cell::IndexInterior {
            left,
            length,
            local,
            first,
        } => {
            append(out, &four_bytes(left))?;
            push_varint(length, out)?;
            push_local(local, first, out)
        }
    }
}

// Appends the shortest spelling of a number.
fn push_varint(number: u64, out: &mut Vec<u8>) -> Result<(), OutOfMemory>
    ensures ok { OnOk result (out.new.items ≡ out.old.items ++ varint_bytes number) }
    ensures err { OnErr result (out.new.items ≡ out.old.items) }
{
    let mut spelling = [0; 9];
    let size = write_varint(number, &mut spelling);
    append(out, &spelling[..size])
}

// Appends the local bytes of a payload, and the overflow page in which it goes on.
fn push_local(local: &[u8], first: u32, out: &mut Vec<u8>) -> Result<(), OutOfMemory>
    ensures ok { OnOk result (out.new.items ≡ out.old.items ++ (local.now ++ (if first == 0 then [] else four_bytes first))) }
    ensures kept { take (length out.old.items) out.new.items ≡ out.old.items }
{
    append(out, local)?;
    if first != 0 {
        append(out, &four_bytes(first))?;
    }
    Ok(())
}

fn append(out: &mut Vec<u8>, bytes: &[u8]) -> Result<(), OutOfMemory>
    ensures ok { OnOk result (out.new.items ≡ out.old.items ++ bytes.now) }
    ensures err { OnErr result (out.new.items ≡ out.old.items) }
{
    match out.extend_from_slice(bytes) {
        Ok(()) => Ok(()),
        Err(_) => Err(OutOfMemory),
    }
}
