// One cell of a leaf.
ghost use Rattle.std.specs.Prelude.{◌≡◌, ◌≤◌, [], ◌∷◌, length as list_length, true, None, Some, IfErr, IsTrue, if◌then◌else◌};
ghost use Rattle.edge_model.specs.OnlyRead.{OnlyRead};
ghost use Rattle.db_format.specs.Record.{columns, longest_payload};
ghost use Rattle.btree_page.specs.Cell.{payload_len};
ghost use Rattle.btree_page.specs.Payload.{max_payload};
ghost use Rattle.btree_page.specs.Shown.{cell_shown};
ghost use Rattle.salvage_scan.specs.Room.{AreRooms};
ghost use Rattle.salvage_scan.specs.Salvage.{cell_lines, file_pages, payload_line, row_line};
ghost use Rattle.salvage_scan.specs.Scan.{IsSalvageCause, IsOutCause, IsSalvaged};
ghost use Rattle.salvage_scan.specs.Text.{counts_shown};

use crate::chain::read_payload;
use crate::error::SalvageError;
use crate::lines::{put_lost, put_row};
use crate::scan::{Scan, count_one};
use btree_page::Cell;
use db_format::RecordView;
use edge_model::{Disk, Sink};
use page_codec::Codec;

/// Puts the line of a cell of page n, if it is a row.
pub(crate) fn put_cell<D: Disk, K: Sink>(
    disk: &mut D,
    codec: &Codec,
    scan: &mut Scan,
    out: &mut K,
    n: u32,
    cell: &Cell<'_>,
) -> Result<(), SalvageError>
    requires limit { payload_len (cell_shown cell.now) ≤ max_payload }
    requires rooms { AreRooms D.tells codec.now (D.reads disk.old) scan.old.rooms }
    requires pages { IsTrue D.tells → scan.old.pages ≡ (file_pages codec.now (D.reads disk.old)).count }
    ensures on { IsTrue D.tells → IsSalvaged K.tells (cell_lines (file_pages codec.now (D.reads disk.old)) n (cell_shown cell.now))
        (record { taken = K.taken out.old; waits = scan.old.line; counts = counts_shown scan.old.counts })
        (record { taken = K.taken out.new; waits = scan.new.line; counts = counts_shown scan.new.counts }) result }
    ensures rooms { AreRooms D.tells codec.now (D.reads disk.new) scan.new.rooms }
    ensures pages { scan.new.pages ≡ scan.old.pages }
    ensures cause { IfErr result (IsSalvageCause (D.faults disk.old) (D.faults disk.new) (K.faults out.old) (K.faults out.new)) }
    ensures later { D.faults disk.old ≤ D.faults disk.new }
    ensures out_later { K.faults out.old ≤ K.faults out.new }
    ensures only_read { IsTrue D.tells → OnlyRead D.reads D.images D.moment D.since disk.old disk.new }
{
    match cell {
        Cell::TableLeaf {
            rowid,
            length,
            local,
            first,
        } => put_row_cell(disk, codec, scan, out, n, *rowid, *length, local, *first),
        Cell::TableInterior { .. } | Cell::IndexLeaf { .. } | Cell::IndexInterior { .. } => Ok(()),
    }
}

// Puts the line of a row of page n, whose payload has this length, these local bytes and this first overflow page.
fn put_row_cell<D: Disk, K: Sink>(
    disk: &mut D,
    codec: &Codec,
    scan: &mut Scan,
    out: &mut K,
    n: u32,
    rowid: i64,
    length: u64,
    local: &[u8],
    first: u32,
) -> Result<(), SalvageError>
    requires limit { length ≤ max_payload }
    requires rooms { AreRooms D.tells codec.now (D.reads disk.old) scan.old.rooms }
    requires pages { IsTrue D.tells → scan.old.pages ≡ (file_pages codec.now (D.reads disk.old)).count }
    ensures on { IsTrue D.tells → IsSalvaged K.tells
        (payload_line (file_pages codec.now (D.reads disk.old)) n rowid (record { size = length; local = local.now; first = first }) ∷ [])
        (record { taken = K.taken out.old; waits = scan.old.line; counts = counts_shown scan.old.counts })
        (record { taken = K.taken out.new; waits = scan.new.line; counts = counts_shown scan.new.counts }) result }
    ensures rooms { AreRooms D.tells codec.now (D.reads disk.new) scan.new.rooms }
    ensures pages { scan.new.pages ≡ scan.old.pages }
    ensures cause { IfErr result (IsSalvageCause (D.faults disk.old) (D.faults disk.new) (K.faults out.old) (K.faults out.new)) }
    ensures later { D.faults disk.old ≤ D.faults disk.new }
    ensures out_later { K.faults out.old ≤ K.faults out.new }
    ensures only_read { IsTrue D.tells → OnlyRead D.reads D.images D.moment D.since disk.old disk.new }
{
    scan.payload.clear();
    match scan.payload.extend_from_slice(local) {
        Err(_) => return Err(SalvageError::OutOfMemory),
        Ok(()) => {}
    }
    match read_payload(
        disk,
        codec,
        &mut scan.rooms,
        scan.pages,
        length,
        first,
        &mut scan.payload,
    ) {
        Err(error) => Err(error),
        Ok(whole) => put_payload(scan, out, n, rowid, whole),
    }
}

// Puts the line of a row of page n whose payload was read, and is whole or is not.
fn put_payload<K: Sink>(
    scan: &mut Scan,
    out: &mut K,
    n: u32,
    rowid: i64,
    whole: bool,
) -> Result<(), SalvageError>
    requires limit { IsTrue whole → list_length scan.old.payload.items ≤ longest_payload }
    ensures on { IsSalvaged K.tells (row_line n rowid (if whole then columns scan.old.payload.items else None) ∷ [])
        (record { taken = K.taken out.old; waits = scan.old.line; counts = counts_shown scan.old.counts })
        (record { taken = K.taken out.new; waits = scan.new.line; counts = counts_shown scan.new.counts }) result }
    ensures rooms { scan.new.rooms ≡ scan.old.rooms }
    ensures pages { scan.new.pages ≡ scan.old.pages }
    ensures cause { IfErr result (IsOutCause (K.faults out.old) (K.faults out.new)) }
    ensures later { K.faults out.old ≤ K.faults out.new }
{
    match read_record(whole, scan.payload.as_slice()) {
        Some(row) => match put_row(&mut scan.line, out, n, rowid, &row) {
            Err(_) => Err(SalvageError::OutputFault),
            Ok(()) => count_one(&mut scan.counts.rows),
        },
        None => match put_lost(&mut scan.line, out, n, rowid) {
            Err(_) => Err(SalvageError::OutputFault),
            Ok(()) => count_one(&mut scan.counts.lost),
        },
    }
}

// The record of a payload, where the payload is whole and a record.
fn read_record<'a>(whole: bool, payload: &'a [u8]) -> Option<RecordView<'a>>
    requires { IsTrue whole → list_length payload.now ≤ longest_payload }
    ensures { result ≡ (if whole then columns payload.now else None) }
{
    if !whole {
        return None;
    }
    match RecordView::read(payload) {
        Err(_) => None,
        Ok(row) => Some(row),
    }
}
