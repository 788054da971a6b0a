// Batches of changed pages, each written before the commit, and how they end.
ghost use Rattle.std.specs.Prelude.{◌≡◌, ◌≢◌, ◌⊎◌, ◌↔◌, ◌+◌, ◌*◌, ◌<◌, ◌≤◌, [], ℕ, List, length, slice_index, IsTrue, OnOk, IsOk, None, Err};
ghost use Rattle.edge_model.specs.Causes.{HasCause, Rose};
ghost use Rattle.edge_model.specs.Files.{Files, written, main_of};
ghost use Rattle.rollback_journal.specs.Laying.{page_start};
ghost use Rattle.edge_model.specs.Images.{Each, From, LeavesOnly};
ghost use Rattle.rollback_journal.specs.Playing.{journal_of};
ghost use Rattle.atomic_commit.specs.Batches.{AreMarked, HasBatches, HasMarked, IsBatchReady, IsBatchWritten};
ghost use Rattle.atomic_commit.specs.Commit.{AreChanges, IsCommitted, LeavesChanged, SameSeals};
ghost use Rattle.atomic_commit.specs.Database.{Base, HoldsEither, HoldsOld, stored_pages};
ghost use Rattle.atomic_commit.specs.Facts.{HasFacts, HasRecord, IsBase, SameFresh};
ghost use Rattle.atomic_commit.specs.Journals.{AsLeft, records_in};
ghost use Rattle.atomic_commit.specs.Marks.{marked_count};
ghost use Rattle.atomic_commit.specs.Recorded.{AreRecorded};

use crate::{
    Changes, CommitFault, PageMarks, RecordWriter, Stage, abandon, finish, guard_batch, write_page,
};
use edge_model::{Disk, Failed};

// Seals the changed page at an index and writes it to Main.
fn put_page<D: Disk, W: RecordWriter, C: Changes>(
    disk: &mut D,
    writer: &W,
    changes: &mut C,
    k: usize,
    buffer: &mut [u8],
) -> Result<(), CommitFault>
    ghost base: { Base }
    requires stage { W.stage writer.now ≡ Stage.Opened }
    requires sizes { (W.page_size writer.now ≡ base.size) × (W.initial writer.now ≡ base.pages) }
    requires changes { AreChanges base.pages (C.numbers changes.old) × (k < length (C.numbers changes.old)) }
    requires buffer { (length buffer.old ≡ base.size) × (base.size ≤ 65536) × (C.size changes.old ≡ base.size) }
    requires behind_gate { IsTrue D.tells →
        HasRecord (slice_index (C.numbers changes.old) k) (W.safe writer.now (journal_of (D.reads disk.old))) }
    requires facts { IsTrue D.tells →
        HasFacts base (W.safe writer.now) (W.waiting writer.now) (D.reads disk.old) (D.images disk.old) }
    requires left { IsTrue D.tells →
        AsLeft (W.left writer.now) (W.beside writer.now) (D.reads disk.old) (D.images disk.old) }
    ensures facts { IsTrue D.tells →
        HasFacts base (W.safe writer.now) (W.waiting writer.now) (D.reads disk.new) (D.images disk.new) }
    ensures left { IsTrue D.tells → AsLeft (W.left writer.now) (W.beside writer.now) (D.reads disk.new) (D.images disk.new) }
    ensures written { OnOk result (IsTrue D.tells → (stored : List ℕ) × C.seals changes.old k stored × (length stored ≡ base.size)
        × (main_of (D.reads disk.new) ≡ written (page_start base.size (slice_index (C.numbers changes.old) k)) stored (main_of (D.reads disk.old)))) }
    ensures journal { IsTrue D.tells → (D.reads disk.new).journal ≡ (D.reads disk.old).journal }
    ensures numbers { C.numbers changes.new ≡ C.numbers changes.old }
    ensures seals { SameSeals (C.seals changes.old) (C.seals changes.new) }
    ensures size { C.size changes.new ≡ C.size changes.old }
    ensures buffer { length buffer.new ≡ length buffer.old }
    ensures any_moment { IsTrue D.tells → LeavesOnly D.moment D.since disk.old disk.new (HoldsOld base) }
    ensures fresh { IsTrue D.tells → LeavesOnly D.moment D.since disk.old disk.new (From SameFresh (D.images disk.old)) }
    ensures disk_fault { result ≡ Err CommitFault.DiskFault → Rose (D.faults disk.old) (D.faults disk.new) }
    ensures entropy_fault { result ≡ Err CommitFault.EntropyFault → Rose (C.faults changes.old) (C.faults changes.new) }
    ensures disk_later { D.faults disk.old ≤ D.faults disk.new }
    ensures entropy_later { C.faults changes.old ≤ C.faults changes.new }
{
    let n = changes.number(k);
    match changes.seal(k, buffer) {
        Ok(()) => match write_page(disk, writer, n, buffer) {
            Ok(()) => Ok(()),
            Err(_) => Err(CommitFault::DiskFault),
        },
        Err(_) => Err(CommitFault::EntropyFault),
    }
}

// Seals and writes the changed pages, whose records are behind open gates.
fn put_batch<D: Disk, W: RecordWriter, C: Changes>(
    disk: &mut D,
    writer: &W,
    changes: &mut C,
    buffer: &mut [u8],
) -> Result<(), CommitFault>
    ghost base: { Base }
    requires stage { W.stage writer.now ≡ Stage.Opened }
    requires sizes { (W.page_size writer.now ≡ base.size) × (W.initial writer.now ≡ base.pages) }
    requires changes { AreChanges base.pages (C.numbers changes.old) }
    requires buffer { (length buffer.old ≡ base.size) × (base.size ≤ 65536) × (C.size changes.old ≡ base.size) }
    requires behind_gate { IsTrue D.tells → (k : ℕ) → k < length (C.numbers changes.old) →
        HasRecord (slice_index (C.numbers changes.old) k) (W.safe writer.now (journal_of (D.reads disk.old))) }
    requires facts { IsTrue D.tells →
        HasFacts base (W.safe writer.now) (W.waiting writer.now) (D.reads disk.old) (D.images disk.old) }
    requires left { IsTrue D.tells →
        AsLeft (W.left writer.now) (W.beside writer.now) (D.reads disk.old) (D.images disk.old) }
    ensures facts { OnOk result (IsTrue D.tells →
        HasFacts base (W.safe writer.now) (W.waiting writer.now) (D.reads disk.new) (D.images disk.new)) }
    ensures left { OnOk result (IsTrue D.tells →
        AsLeft (W.left writer.now) (W.beside writer.now) (D.reads disk.new) (D.images disk.new)) }
    ensures written { OnOk result (IsTrue D.tells → IsBatchWritten base (main_of (D.reads disk.old)) (C.numbers changes.old)
        (C.seals changes.old) (length (C.numbers changes.old)) (main_of (D.reads disk.new))) }
    ensures journal { IsTrue D.tells → (D.reads disk.new).journal ≡ (D.reads disk.old).journal }
    ensures numbers { C.numbers changes.new ≡ C.numbers changes.old }
    ensures seals { SameSeals (C.seals changes.old) (C.seals changes.new) }
    ensures size { C.size changes.new ≡ C.size changes.old }
    ensures buffer { length buffer.new ≡ length buffer.old }
    ensures any_moment { IsTrue D.tells → LeavesOnly D.moment D.since disk.old disk.new (HoldsOld base) }
    ensures fresh { IsTrue D.tells → LeavesOnly D.moment D.since disk.old disk.new (From SameFresh (D.images disk.old)) }
    ensures disk_fault { result ≡ Err CommitFault.DiskFault → Rose (D.faults disk.old) (D.faults disk.new) }
    ensures entropy_fault { result ≡ Err CommitFault.EntropyFault → Rose (C.faults changes.old) (C.faults changes.new) }
    ensures disk_later { D.faults disk.old ≤ D.faults disk.new }
    ensures entropy_later { C.faults changes.old ≤ C.faults changes.new }
{
    for k in 0..changes.len() {
        put_page(disk, writer, changes, k, buffer)?;
    }
    Ok(())
}

/// Writes a batch of changed pages to Main before the commit: the records of those that have none go behind an open gate, in one
/// segment of the journal, and then each page is sealed and written. The buffer has the length of a page.
pub fn write_batch<D: Disk, W: RecordWriter, C: Changes>(
    disk: &mut D,
    writer: &mut W,
    recorded: &mut PageMarks,
    changes: &mut C,
    buffer: &mut [u8],
) -> Result<(), CommitFault>
    ghost base: { Base }
    requires sizes { (W.page_size writer.old ≡ base.size) × (W.initial writer.old ≡ base.pages) }
    requires marks { length recorded.old ≡ base.pages }
    requires ready { IsBatchReady recorded.old (W.is_new writer.old) (W.stage writer.old) (W.count writer.old) (W.total writer.old)
        (W.is_small writer.old) }
    requires batches { IsTrue D.tells → HasBatches base recorded.old (W.safe writer.old) (W.waiting writer.old) (W.left writer.old)
        (W.beside writer.old) (D.reads disk.old) (D.images disk.old) }
    requires changes { AreChanges base.pages (C.numbers changes.old) }
    requires buffer { (length buffer.old ≡ base.size) × (base.size ≤ 65536) × (C.size changes.old ≡ base.size) }
    ensures ready { OnOk result (IsBatchReady recorded.new (W.is_new writer.new) (W.stage writer.new) (W.count writer.new) (W.total writer.new)
        (W.is_small writer.new)) }
    ensures batches { OnOk result (IsTrue D.tells → HasBatches base recorded.new (W.safe writer.new) (W.waiting writer.new) (W.left writer.new)
        (W.beside writer.new) (D.reads disk.new) (D.images disk.new)) }
    ensures marks { OnOk result (HasMarked (C.numbers changes.old) (length (C.numbers changes.old)) recorded.old recorded.new) }
    ensures written { OnOk result (IsTrue D.tells → IsBatchWritten base (main_of (D.reads disk.old)) (C.numbers changes.old)
        (C.seals changes.old) (length (C.numbers changes.old)) (main_of (D.reads disk.new))) }
    ensures none { C.numbers changes.old ≡ [] → IsOk result × (disk.new ≡ disk.old) × (recorded.new ≡ recorded.old) }
    ensures numbers { C.numbers changes.new ≡ C.numbers changes.old }
    ensures seals { SameSeals (C.seals changes.old) (C.seals changes.new) }
    ensures size { C.size changes.new ≡ C.size changes.old }
    ensures sizes { (W.page_size writer.new ≡ base.size) × (W.initial writer.new ≡ base.pages) }
    ensures buffer { length buffer.new ≡ length buffer.old }
    ensures any_moment { IsTrue D.tells → LeavesOnly D.moment D.since disk.old disk.new (HoldsOld base) }
    ensures fresh { IsTrue D.tells → LeavesOnly D.moment D.since disk.old disk.new (From SameFresh (D.images disk.old)) }
    ensures disk_fault { result ≡ Err CommitFault.DiskFault → Rose (D.faults disk.old) (D.faults disk.new) }
    ensures entropy_fault { result ≡ Err CommitFault.EntropyFault → Rose (C.faults changes.old) (C.faults changes.new) }
    ensures disk_later { D.faults disk.old ≤ D.faults disk.new }
    ensures entropy_later { C.faults changes.old ≤ C.faults changes.new }
{
    if changes.len() == 0 {
        return Ok(());
    }
    match guard_batch(disk, writer, recorded, changes, buffer) {
        Ok(()) => {}
        Err(_) => return Err(CommitFault::DiskFault),
    }
    put_batch(disk, writer, changes, buffer)?;
    Ok(())
}

/// Writes the last batch, which may be empty, and commits: syncs Main, closes the journal and removes it. Where no page was changed
/// at all, no call is made.
pub fn end_batches<D: Disk, W: RecordWriter, C: Changes>(
    disk: &mut D,
    writer: &mut W,
    recorded: &mut PageMarks,
    changes: &mut C,
    buffer: &mut [u8],
) -> Result<(), CommitFault>
    ghost base: { Base }
    requires sizes { (W.page_size writer.old ≡ base.size) × (W.initial writer.old ≡ base.pages) }
    requires marks { length recorded.old ≡ base.pages }
    requires ready { IsBatchReady recorded.old (W.is_new writer.old) (W.stage writer.old) (W.count writer.old) (W.total writer.old)
        (W.is_small writer.old) }
    requires batches { IsTrue D.tells → HasBatches base recorded.old (W.safe writer.old) (W.waiting writer.old) (W.left writer.old)
        (W.beside writer.old) (D.reads disk.old) (D.images disk.old) }
    requires base_is { IsBase base }
    requires changes { AreChanges base.pages (C.numbers changes.old) }
    requires buffer { (length buffer.old ≡ base.size) × (base.size ≤ 65536) × (C.size changes.old ≡ base.size) }
    ensures changed { OnOk result (IsTrue D.tells → IsBatchWritten base (main_of (D.reads disk.old)) (C.numbers changes.old)
        (C.seals changes.old) (length (C.numbers changes.old)) (main_of (D.reads disk.new))) }
    ensures new { OnOk result (IsTrue D.tells → Each (D.images disk.new) (IsCommitted base (main_of (D.reads disk.new)))) }
    // no page was changed at all, and no call was made; or each image has Main as it reads
    ensures settled { OnOk result (IsTrue D.tells → ((C.numbers changes.old ≡ []) × (marked_count recorded.old ≡ 0) × (disk.new ≡ disk.old))
        ⊎ Each (D.images disk.new) (λ c. c.main ≡ (D.reads disk.new).main)) }
    ensures one_new { OnOk result (IsTrue D.tells →
        LeavesOnly D.moment D.since disk.old disk.new (HoldsEither base (stored_pages base.size base.pages (main_of (D.reads disk.new))))) }
    ensures any_moment { IsTrue D.tells → LeavesChanged D.moment D.since base (IsBatchWritten base (main_of (D.reads disk.old))
        (C.numbers changes.old) (C.seals changes.old) (length (C.numbers changes.old))) disk.old disk.new }
    ensures only_old { result ≡ Err CommitFault.EntropyFault → IsTrue D.tells →
        LeavesOnly D.moment D.since disk.old disk.new (HoldsOld base) }
    ensures fresh { IsTrue D.tells → LeavesOnly D.moment D.since disk.old disk.new (From SameFresh (D.images disk.old)) }
    ensures none { marked_count recorded.old ≡ 0 → C.numbers changes.old ≡ [] → IsOk result × (disk.new ≡ disk.old) }
    ensures disk_fault { result ≡ Err CommitFault.DiskFault → Rose (D.faults disk.old) (D.faults disk.new) }
    ensures entropy_fault { result ≡ Err CommitFault.EntropyFault → Rose (C.faults changes.old) (C.faults changes.new) }
    ensures disk_later { D.faults disk.old ≤ D.faults disk.new }
    ensures entropy_later { C.faults changes.old ≤ C.faults changes.new }
{
    write_batch(disk, writer, recorded, changes, buffer)?;
    if recorded.count() == 0 {
        return Ok(());
    }
    match finish(disk, writer) {
        Ok(()) => Ok(()),
        Err(_) => Err(CommitFault::DiskFault),
    }
}

/// Takes back what the batches wrote, and removes the journal. Where nothing was written, no call is made.
pub fn undo_batches<D: Disk, W: RecordWriter>(
    disk: &mut D,
    writer: &mut W,
    recorded: &PageMarks,
) -> Result<(), Failed>
    ghost base: { Base }
    requires sizes { (W.page_size writer.old ≡ base.size) × (W.initial writer.old ≡ base.pages) }
    requires ready { IsBatchReady recorded.now (W.is_new writer.old) (W.stage writer.old) (W.count writer.old) (W.total writer.old)
        (W.is_small writer.old) }
    requires batches { IsTrue D.tells → HasBatches base recorded.now (W.safe writer.old) (W.waiting writer.old) (W.left writer.old)
        (W.beside writer.old) (D.reads disk.old) (D.images disk.old) }
    requires base_is { IsBase base }
    ensures old { OnOk result (IsTrue D.tells → Each (D.images disk.new) (λ c. HoldsOld base c × (c.journal ≡ None))) }
    ensures none { marked_count recorded.now ≡ 0 → IsOk result × (disk.new ≡ disk.old) }
    ensures any_moment { IsTrue D.tells → LeavesOnly D.moment D.since disk.old disk.new (HoldsOld base) }
    ensures fresh { IsTrue D.tells → LeavesOnly D.moment D.since disk.old disk.new (From SameFresh (D.images disk.old)) }
    ensures cause { HasCause (D.faults disk.old) (D.faults disk.new) result }
{
    if recorded.count() == 0 {
        return Ok(());
    }
    abandon(disk, writer)?;
    Ok(())
}
