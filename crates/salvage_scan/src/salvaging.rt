// The rows of a damaged file.
ghost use Rattle.std.specs.Prelude.{◌≡◌, ◌≤◌, ◌<◌, [], false, length, OnOk, OnErr, IfOk, IfErr, IsTrue};
ghost use Rattle.edge_model.specs.Causes.{HasCause};
ghost use Rattle.edge_model.specs.OnlyRead.{OnlyRead};
ghost use Rattle.row_text.specs.Out.{Moves, MovesPart};
ghost use Rattle.edge_model.specs.Files.{main_of};
ghost use Rattle.salvage_scan.specs.Answer.{IsKeyAnswered, IsReported, IsStop};
ghost use Rattle.salvage_scan.specs.Room.{AreRooms};
ghost use Rattle.salvage_scan.specs.Salvage.{IsNoneAccepted, file_pages, salvage_lines};
ghost use Rattle.salvage_scan.specs.Scan.{IsSalvageCause, IsDiskCause, IsOutCause, IsSalvaged};
ghost use Rattle.salvage_scan.specs.Text.{counts_line, counts_shown};

use crate::error::SalvageError;
use crate::lines::put_counts;
use crate::page::put_page;
use crate::room::Rooms;
use crate::scan::{Salvaged, Scan};
use edge_model::{Disk, Failed, Role, Sink};
use page_codec::Codec;
use pager::file_length;
use std::alloc::Global;

/// Puts a line for each row of Main that can be read, and for each page that is not accepted, and last their counts, which are
/// answered. Memory is taken for three pages, for those that are read ahead, at most eight and 64 KiB, for one payload, and for 64 KiB of text.
pub fn salvage<D: Disk, K: Sink>(
    alloc: Global,
    disk: &mut D,
    codec: &Codec,
    out: &mut K,
) -> Result<Salvaged, SalvageError>
    // the text and the counts
    ensures on { IsTrue D.tells → IsReported K.tells (file_pages codec.now (D.reads disk.old)) (K.taken out.old) (K.taken out.new) result }
    // the key is refused exactly where the profile has tags and no page is accepted
    ensures key { IsTrue D.tells → IsKeyAnswered codec.now.profile.tag_len (file_pages codec.now (D.reads disk.old)) result }
    // where the key opens no page, nothing is put
    ensures unopened { IsTrue D.tells → 0 < codec.now.profile.tag_len → IsNoneAccepted (file_pages codec.now (D.reads disk.old)) → out.new ≡ out.old }
    // why it stopped
    ensures stop { IfErr result (IsStop codec.now.profile.tag_len (D.faults disk.old) (D.faults disk.new)
        (K.faults out.old) (K.faults out.new) (out.new ≡ out.old)) }
    // what stays as it was
    ensures later { D.faults disk.old ≤ D.faults disk.new }
    ensures out_later { K.faults out.old ≤ K.faults out.new }
    ensures only_read { IsTrue D.tells → OnlyRead D.reads D.images D.moment D.since disk.old disk.new }
{
    let size = codec.profile().page_size;
    let _usable = codec.profile().usable();
    let length = match main_length(disk) {
        Err(_) => return Err(SalvageError::DiskFault),
        Ok(length) => length,
    };
    let pages = length / size as u64;
    if pages > u32::MAX as u64 {
        return Err(SalvageError::OutOfMemory);
    }
    salvage_pages(alloc, disk, codec, out, pages as u32)
}

// The length of Main, in bytes, 0 where it is absent.
fn main_length<D: Disk>(disk: &mut D) -> Result<u64, Failed>
    ensures told { IfOk result (λ len. IsTrue D.tells → len ≡ length (main_of (D.reads disk.old))) }
    ensures cause { HasCause (D.faults disk.old) (D.faults disk.new) result }
    ensures only_read { IsTrue D.tells → OnlyRead D.reads D.images D.moment D.since disk.old disk.new }
{
    match file_length(disk, Role::Main) {
        Err(error) => Err(error),
        Ok(None) => Ok(0),
        Ok(Some(length)) => Ok(length),
    }
}

// The same of so many whole pages.
fn salvage_pages<D: Disk, K: Sink>(
    alloc: Global,
    disk: &mut D,
    codec: &Codec,
    out: &mut K,
    pages: u32,
) -> Result<Salvaged, SalvageError>
    requires pages { IsTrue D.tells → pages ≡ (file_pages codec.now (D.reads disk.old)).count }
    ensures on { IsTrue D.tells → IsReported K.tells (file_pages codec.now (D.reads disk.old)) (K.taken out.old) (K.taken out.new) result }
    ensures key { IsTrue D.tells → IsKeyAnswered codec.now.profile.tag_len (file_pages codec.now (D.reads disk.old)) result }
    ensures unopened { IsTrue D.tells → 0 < codec.now.profile.tag_len → IsNoneAccepted (file_pages codec.now (D.reads disk.old)) → out.new ≡ out.old }
    ensures stop { IfErr result (IsStop codec.now.profile.tag_len (D.faults disk.old) (D.faults disk.new)
        (K.faults out.old) (K.faults out.new) (out.new ≡ out.old)) }
    ensures later { D.faults disk.old ≤ D.faults disk.new }
    ensures out_later { K.faults out.old ≤ K.faults out.new }
    ensures only_read { IsTrue D.tells → OnlyRead D.reads D.images D.moment D.since disk.old disk.new }
{
    let profile = codec.profile();
    let _usable = profile.usable();
    let mut scan = match Scan::new(alloc, profile.page_size, pages) {
        Err(_) => return Err(SalvageError::OutOfMemory),
        Ok(scan) => scan,
    };
    match has_accepted(disk, codec, &mut scan.rooms, pages) {
        Err(error) => return Err(error),
        Ok(false) => return Err(SalvageError::KeyRefused),
        Ok(true) => {}
    }
    match put_pages(alloc, disk, codec, &mut scan, out) {
        Err(error) => Err(error),
        Ok(()) => put_end(&mut scan, out),
    }
}

// Whether the key opens one of so many pages: one is accepted, or the profile has no tags.
fn has_accepted<D: Disk>(
    disk: &mut D,
    codec: &Codec,
    rooms: &mut Rooms,
    pages: u32,
) -> Result<bool, SalvageError>
    requires rooms { AreRooms D.tells codec.now (D.reads disk.old) rooms.old }
    requires pages { IsTrue D.tells → pages ≡ (file_pages codec.now (D.reads disk.old)).count }
    ensures tagged { IfOk result (λ accepted. accepted ≡ false → 0 < codec.now.profile.tag_len) }
    ensures none { IfOk result (λ accepted. accepted ≡ false → IsTrue D.tells → IsNoneAccepted (file_pages codec.now (D.reads disk.old))) }
    ensures some { IfOk result (λ accepted. IsTrue accepted → IsTrue D.tells → 0 < codec.now.profile.tag_len
        → IsNoneAccepted (file_pages codec.now (D.reads disk.old)) → ⊥) }
    ensures rooms { AreRooms D.tells codec.now (D.reads disk.new) rooms.new }
    ensures cause { IfErr result (IsDiskCause (D.faults disk.old) (D.faults disk.new)) }
    ensures later { D.faults disk.old ≤ D.faults disk.new }
    ensures only_read { IsTrue D.tells → OnlyRead D.reads D.images D.moment D.since disk.old disk.new }
{
    if codec.profile().tag_len == 0 {
        return Ok(true);
    }
    for done in 0..pages {
        match rooms.open(disk, codec, done + 1) {
            Err(_) => return Err(SalvageError::DiskFault),
            Ok(true) => return Ok(true),
            Ok(false) => {}
        }
    }
    Ok(false)
}

// Puts the lines of all pages.
fn put_pages<D: Disk, K: Sink>(
    alloc: Global,
    disk: &mut D,
    codec: &Codec,
    scan: &mut Scan,
    out: &mut K,
) -> Result<(), SalvageError>
    requires rooms { AreRooms D.tells codec.now (D.reads disk.old) scan.old.rooms }
    requires pages { IsTrue D.tells → scan.old.pages ≡ (file_pages codec.now (D.reads disk.old)).count }
    ensures on { IsTrue D.tells → IsSalvaged K.tells (salvage_lines (file_pages codec.now (D.reads disk.old)))
        (record { taken = K.taken out.old; waits = scan.old.line; counts = counts_shown scan.old.counts })
        (record { taken = K.taken out.new; waits = scan.new.line; counts = counts_shown scan.new.counts }) result }
    ensures cause { IfErr result (IsSalvageCause (D.faults disk.old) (D.faults disk.new) (K.faults out.old) (K.faults out.new)) }
    ensures later { D.faults disk.old ≤ D.faults disk.new }
    ensures out_later { K.faults out.old ≤ K.faults out.new }
    ensures only_read { IsTrue D.tells → OnlyRead D.reads D.images D.moment D.since disk.old disk.new }
{
    for done in 0..scan.pages {
        match put_page(alloc, disk, codec, scan, out, done + 1) {
            Err(error) => return Err(error),
            Ok(()) => {}
        }
    }
    Ok(())
}

// Puts the last line, and what waits. Answers the counts.
fn put_end<K: Sink>(scan: &mut Scan, out: &mut K) -> Result<Salvaged, SalvageError>
    ensures text { OnOk result (IsTrue K.tells → Moves (counts_line (counts_shown scan.old.counts)) (K.taken out.old) scan.old.line (K.taken out.new) []) }
    ensures part { OnErr result (IsTrue K.tells → MovesPart (counts_line (counts_shown scan.old.counts)) (K.taken out.old) scan.old.line (K.taken out.new)) }
    ensures counts { IfOk result (λ counts. counts ≡ scan.old.counts) }
    ensures cause { IfErr result (IsOutCause (K.faults out.old) (K.faults out.new)) }
    ensures later { K.faults out.old ≤ K.faults out.new }
{
    let counts = scan.counts;
    match put_counts(
        &mut scan.line,
        out,
        counts.rows,
        counts.lost,
        counts.refused,
    ) {
        Err(_) => return Err(SalvageError::OutputFault),
        Ok(()) => {}
    }
    match scan.line.flush(out) {
        Err(_) => Err(SalvageError::OutputFault),
        Ok(()) => Ok(counts),
    }
}
