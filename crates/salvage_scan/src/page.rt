// One page.
ghost use Rattle.std.specs.Prelude.{◌≡◌, ◌≤◌, ◌∷◌, [], length, IfErr, IsTrue};
ghost use Rattle.std.specs.List.{flat_map};
ghost use Rattle.edge_model.specs.OnlyRead.{OnlyRead};
ghost use Rattle.db_format.specs.Pages.{IsUsable};
ghost use Rattle.salvage_scan.specs.Room.{AreRooms};
ghost use Rattle.salvage_scan.specs.Salvage.{cell_lines, fault_lines, file_pages, is_table_leaf, leaf_lines, page_lines};
ghost use Rattle.salvage_scan.specs.Salvage.Line.{tag_refused};
ghost use Rattle.salvage_scan.specs.Scan.{IsSalvageCause, IsOutCause, IsSalvaged};
ghost use Rattle.salvage_scan.specs.Text.{counts_shown};

use crate::cell::put_cell;
use crate::error::SalvageError;
use crate::lines::{put_bad_cell, put_refused};
use crate::scan::{Scan, count_one};
use btree_page::{Kind, PageFault, PageView, page_kind};
use edge_model::{Disk, Sink};
use page_codec::Codec;
use std::alloc::Global;

/// Puts the lines of page n.
pub(crate) fn put_page<D: Disk, K: Sink>(
    alloc: Global,
    disk: &mut D,
    codec: &Codec,
    scan: &mut Scan,
    out: &mut K,
    n: u32,
) -> Result<(), SalvageError>
    requires low { 1 ≤ n }
    requires high { n ≤ scan.old.pages }
    requires rooms { AreRooms D.tells codec.now (D.reads disk.old) scan.old.rooms }
    requires pages { IsTrue D.tells → scan.old.pages ≡ (file_pages codec.now (D.reads disk.old)).count }
    ensures on { IsTrue D.tells → IsSalvaged K.tells (page_lines (file_pages codec.now (D.reads disk.old)) n)
        (record { taken = K.taken out.old; waits = scan.old.line; counts = counts_shown scan.old.counts })
        (record { taken = K.taken out.new; waits = scan.new.line; counts = counts_shown scan.new.counts }) result }
    ensures rooms { AreRooms D.tells codec.now (D.reads disk.new) scan.new.rooms }
    ensures pages { scan.new.pages ≡ scan.old.pages }
    ensures cause { IfErr result (IsSalvageCause (D.faults disk.old) (D.faults disk.new) (K.faults out.old) (K.faults out.new)) }
    ensures later { D.faults disk.old ≤ D.faults disk.new }
    ensures out_later { K.faults out.old ≤ K.faults out.new }
    ensures only_read { IsTrue D.tells → OnlyRead D.reads D.images D.moment D.since disk.old disk.new }
{
    match scan.rooms.open(disk, codec, n) {
        Err(_) => return Err(SalvageError::DiskFault),
        Ok(false) => return refuse_page(scan, out, n),
        Ok(true) => {}
    }
    // the page is kept, since others are brought in while its cells are gone through
    match scan.rooms.plain(n, codec.profile().usable()).to_vec(alloc) {
        Err(_) => Err(SalvageError::OutOfMemory),
        Ok(bytes) => put_leaf(disk, codec, scan, out, n, bytes.as_slice()),
    }
}

// Puts the line of page n, which is not accepted.
fn refuse_page<K: Sink>(scan: &mut Scan, out: &mut K, n: u32) -> Result<(), SalvageError>
    ensures on { IsSalvaged K.tells (tag_refused n ∷ [])
        (record { taken = K.taken out.old; waits = scan.old.line; counts = counts_shown scan.old.counts })
        (record { taken = K.taken out.new; waits = scan.new.line; counts = counts_shown scan.new.counts }) result }
    ensures rooms { scan.new.rooms ≡ scan.old.rooms }
    ensures pages { scan.new.pages ≡ scan.old.pages }
    ensures cause { IfErr result (IsOutCause (K.faults out.old) (K.faults out.new)) }
    ensures later { K.faults out.old ≤ K.faults out.new }
{
    match put_refused(&mut scan.line, out, n) {
        Err(_) => Err(SalvageError::OutputFault),
        Ok(()) => count_one(&mut scan.counts.refused),
    }
}

// Puts the lines of page n, which is accepted and has these bytes.
fn put_leaf<D: Disk, K: Sink>(
    disk: &mut D,
    codec: &Codec,
    scan: &mut Scan,
    out: &mut K,
    n: u32,
    bytes: &[u8],
) -> Result<(), SalvageError>
    requires usable { IsUsable (length bytes.now) }
    requires rooms { AreRooms D.tells codec.now (D.reads disk.old) scan.old.rooms }
    requires pages { IsTrue D.tells → scan.old.pages ≡ (file_pages codec.now (D.reads disk.old)).count }
    ensures on { IsTrue D.tells → IsSalvaged K.tells (leaf_lines (file_pages codec.now (D.reads disk.old)) n bytes.now)
        (record { taken = K.taken out.old; waits = scan.old.line; counts = counts_shown scan.old.counts })
        (record { taken = K.taken out.new; waits = scan.new.line; counts = counts_shown scan.new.counts }) result }
    ensures rooms { AreRooms D.tells codec.now (D.reads disk.new) scan.new.rooms }
    ensures pages { scan.new.pages ≡ scan.old.pages }
    ensures cause { IfErr result (IsSalvageCause (D.faults disk.old) (D.faults disk.new) (K.faults out.old) (K.faults out.new)) }
    ensures later { D.faults disk.old ≤ D.faults disk.new }
    ensures out_later { K.faults out.old ≤ K.faults out.new }
    ensures only_read { IsTrue D.tells → OnlyRead D.reads D.images D.moment D.since disk.old disk.new }
{
    if !is_table_leaf(page_kind(bytes, n)) {
        return Ok(());
    }
    match PageView::read(bytes, n) {
        Err(fault) => put_fault(scan, out, n, fault),
        Ok(page) => put_cells(disk, codec, scan, out, n, &page),
    }
}

fn is_table_leaf(kind: Option<Kind>) -> bool
    ensures { result ≡ is_table_leaf kind }
{
    match kind {
        Some(Kind::TableLeaf) => true,
        None | Some(Kind::TableInterior | Kind::IndexLeaf | Kind::IndexInterior) => false,
    }
}

// Puts the line of a leaf with a bad cell.
fn put_fault<K: Sink>(
    scan: &mut Scan,
    out: &mut K,
    n: u32,
    fault: PageFault,
) -> Result<(), SalvageError>
    ensures on { IsSalvaged K.tells (fault_lines n fault)
        (record { taken = K.taken out.old; waits = scan.old.line; counts = counts_shown scan.old.counts })
        (record { taken = K.taken out.new; waits = scan.new.line; counts = counts_shown scan.new.counts }) result }
    ensures rooms { scan.new.rooms ≡ scan.old.rooms }
    ensures pages { scan.new.pages ≡ scan.old.pages }
    ensures cause { IfErr result (IsOutCause (K.faults out.old) (K.faults out.new)) }
    ensures later { K.faults out.old ≤ K.faults out.new }
{
    match fault {
        PageFault::BadKind => Ok(()),
        PageFault::BadCell { index } => match put_bad_cell(&mut scan.line, out, n, index) {
            Err(_) => Err(SalvageError::OutputFault),
            Ok(()) => Ok(()),
        },
    }
}

// Puts the lines of the cells of page n.
fn put_cells<D: Disk, K: Sink>(
    disk: &mut D,
    codec: &Codec,
    scan: &mut Scan,
    out: &mut K,
    n: u32,
    page: &PageView<'_>,
) -> Result<(), SalvageError>
    requires rooms { AreRooms D.tells codec.now (D.reads disk.old) scan.old.rooms }
    requires pages { IsTrue D.tells → scan.old.pages ≡ (file_pages codec.now (D.reads disk.old)).count }
    ensures on { IsTrue D.tells → IsSalvaged K.tells (flat_map (cell_lines (file_pages codec.now (D.reads disk.old)) n) page.now.cells)
        (record { taken = K.taken out.old; waits = scan.old.line; counts = counts_shown scan.old.counts })
        (record { taken = K.taken out.new; waits = scan.new.line; counts = counts_shown scan.new.counts }) result }
    ensures rooms { AreRooms D.tells codec.now (D.reads disk.new) scan.new.rooms }
    ensures pages { scan.new.pages ≡ scan.old.pages }
    ensures cause { IfErr result (IsSalvageCause (D.faults disk.old) (D.faults disk.new) (K.faults out.old) (K.faults out.new)) }
    ensures later { D.faults disk.old ≤ D.faults disk.new }
    ensures out_later { K.faults out.old ≤ K.faults out.new }
    ensures only_read { IsTrue D.tells → OnlyRead D.reads D.images D.moment D.since disk.old disk.new }
{
    for index in 0..page.count() {
        let cell = page.cell(index);
        match put_cell(disk, codec, scan, out, n, &cell) {
            Err(error) => return Err(error),
            Ok(()) => {}
        }
    }
    Ok(())
}
