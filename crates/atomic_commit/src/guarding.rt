// The records of pages, behind an open gate before any of the pages is written: those of a batch, or of pages that are changed later.
ghost use Rattle.std.specs.Prelude.{◌≡◌, ◌≢◌, ◌⊎◌, ◌↔◌, ◌+◌, ◌*◌, ◌<◌, ◌≤◌, [], ℕ, List, length, slice_index, IsTrue, OnOk, IsOk, None, Err};
ghost use Rattle.edge_model.specs.Causes.{HasCause, Rose};
ghost use Rattle.edge_model.specs.Files.{Files, main_of};
ghost use Rattle.edge_model.specs.Images.{Each, From, LeavesOnly};
ghost use Rattle.rollback_journal.specs.Playing.{journal_of};
ghost use Rattle.atomic_commit.specs.Batches.{AreMarked, HasBatches, HasMarked, IsBatchReady, IsBatchWritten};
ghost use Rattle.atomic_commit.specs.Commit.{AreChanges, IsCommitted, LeavesChanged, SameSeals};
ghost use Rattle.atomic_commit.specs.Database.{Base, HoldsOld};
ghost use Rattle.atomic_commit.specs.Facts.{HasFacts, HasRecord, IsBase, SameFresh};
ghost use Rattle.atomic_commit.specs.Journals.{AsLeft, records_in};
ghost use Rattle.atomic_commit.specs.Marks.{marked_count};
ghost use Rattle.atomic_commit.specs.Recorded.{AreRecorded};

use crate::{PageMarks, PageNumbers, RecordWriter, Stage, keep_marked, next, open, start};
use edge_model::{Disk, Failed};

// Whether each of these pages is marked.
fn are_marked<N: PageNumbers>(recorded: &PageMarks, pages: &N) -> bool
    requires { AreChanges (length recorded.now) (N.numbers pages.now) }
    ensures { IsTrue result ↔ AreMarked (N.numbers pages.now) recorded.now }
{
    for k in 0..pages.len() {
        if !recorded.has(pages.number(k)) {
            return false;
        }
    }
    true
}

// Begins a segment: with the journal where no page is marked, else a further one.
fn begin_segment<D: Disk, W: RecordWriter>(
    disk: &mut D,
    writer: &mut W,
    recorded: &PageMarks,
) -> Result<(), Failed>
    ghost base: { Base }
    requires sizes { (W.page_size writer.old ≡ base.size) × (W.initial writer.old ≡ base.pages) }
    requires ready { IsBatchReady recorded.now (W.is_new writer.old) (W.stage writer.old) (W.count writer.old) (W.total writer.old)
        (W.is_small writer.old) }
    requires batches { IsTrue D.tells → HasBatches base recorded.now (W.safe writer.old) (W.waiting writer.old) (W.left writer.old)
        (W.beside writer.old) (D.reads disk.old) (D.images disk.old) }
    ensures facts { OnOk result (IsTrue D.tells →
        HasFacts base (W.safe writer.new) (W.waiting writer.new) (D.reads disk.new) (D.images disk.new)) }
    ensures left { OnOk result (IsTrue D.tells →
        AsLeft (W.left writer.new) (W.beside writer.new) (D.reads disk.new) (D.images disk.new)) }
    ensures recorded { OnOk result (IsTrue D.tells →
        AreRecorded recorded.now (records_in (W.safe writer.new) (W.waiting writer.new) (D.reads disk.new))) }
    ensures stage { OnOk result ((W.stage writer.new ≡ Stage.Filling) × (W.count writer.new ≡ 0)
        × (W.total writer.new ≡ marked_count recorded.now) × W.is_small writer.new) }
    ensures sizes { (W.page_size writer.new ≡ base.size) × (W.initial writer.new ≡ base.pages) }
    ensures main { OnOk result (IsTrue D.tells → (D.reads disk.new).main ≡ (D.reads disk.old).main) }
    ensures any_moment { IsTrue D.tells → LeavesOnly D.moment D.since disk.old disk.new (HoldsOld base) }
    ensures fresh { IsTrue D.tells → LeavesOnly D.moment D.since disk.old disk.new (From SameFresh (D.images disk.old)) }
    ensures cause { HasCause (D.faults disk.old) (D.faults disk.new) result }
{
    if recorded.count() == 0 {
        start(disk, writer)?;
        return Ok(());
    }
    next(disk, writer)?;
    Ok(())
}

// Puts the records of the pages that have none behind the closed gate, and marks them.
fn keep_batch<D: Disk, W: RecordWriter, N: PageNumbers>(
    disk: &mut D,
    writer: &mut W,
    recorded: &mut PageMarks,
    pages: &N,
    buffer: &mut [u8],
) -> Result<(), Failed>
    ghost base: { Base }
    requires stage { (W.stage writer.old ≡ Stage.Filling) × (W.count writer.old ≡ 0) }
    requires small { W.is_small writer.old }
    requires sizes { (W.page_size writer.old ≡ base.size) × (W.initial writer.old ≡ base.pages) }
    requires marks { (length recorded.old ≡ base.pages) × (W.total writer.old ≡ marked_count recorded.old) }
    requires pages { AreChanges base.pages (N.numbers pages.now) }
    requires buffer { (length buffer.old ≡ base.size) × (base.size ≤ 65536) }
    requires recorded { IsTrue D.tells →
        AreRecorded recorded.old (records_in (W.safe writer.old) (W.waiting writer.old) (D.reads disk.old)) }
    requires facts { IsTrue D.tells →
        HasFacts base (W.safe writer.old) (W.waiting writer.old) (D.reads disk.old) (D.images disk.old) }
    requires left { IsTrue D.tells →
        AsLeft (W.left writer.old) (W.beside writer.old) (D.reads disk.old) (D.images disk.old) }
    ensures facts { OnOk result (IsTrue D.tells →
        HasFacts base (W.safe writer.new) (W.waiting writer.new) (D.reads disk.new) (D.images disk.new)) }
    ensures left { OnOk result (IsTrue D.tells →
        AsLeft (W.left writer.new) (W.beside writer.new) (D.reads disk.new) (D.images disk.new)) }
    ensures recorded { OnOk result (IsTrue D.tells →
        AreRecorded recorded.new (records_in (W.safe writer.new) (W.waiting writer.new) (D.reads disk.new))) }
    ensures marks { OnOk result (HasMarked (N.numbers pages.now) (length (N.numbers pages.now)) recorded.old recorded.new) }
    ensures total { OnOk result (W.total writer.new ≡ marked_count recorded.new) }
    ensures none { OnOk result (W.count writer.new ≡ 0 → recorded.new ≡ recorded.old) }
    ensures stage { OnOk result ((W.stage writer.new ≡ Stage.Filling) × W.is_small writer.new) }
    ensures sizes { (W.page_size writer.new ≡ base.size) × (W.initial writer.new ≡ base.pages) }
    ensures buffer { length buffer.new ≡ length buffer.old }
    ensures main { IsTrue D.tells → (D.reads disk.new).main ≡ (D.reads disk.old).main }
    ensures any_moment { IsTrue D.tells → LeavesOnly D.moment D.since disk.old disk.new (HoldsOld base) }
    ensures fresh { IsTrue D.tells → LeavesOnly D.moment D.since disk.old disk.new (From SameFresh (D.images disk.old)) }
    ensures cause { HasCause (D.faults disk.old) (D.faults disk.new) result }
{
    for k in 0..pages.len() {
        let n = pages.number(k);
        if recorded.has(n) {
            continue;
        }
        keep_marked(disk, writer, recorded, n, buffer)?;
    }
    Ok(())
}

/// Puts the records of those of these pages that have none behind an open gate, in one segment of the journal, and marks these
/// pages. None need be changed yet: a record holds what its page had at the start. Where each has its record, no call is made. The buffer has the length of a page.
pub fn guard_batch<D: Disk, W: RecordWriter, N: PageNumbers>(
    disk: &mut D,
    writer: &mut W,
    recorded: &mut PageMarks,
    pages: &N,
    buffer: &mut [u8],
) -> Result<(), Failed>
    ghost base: { Base }
    requires sizes { (W.page_size writer.old ≡ base.size) × (W.initial writer.old ≡ base.pages) }
    requires marks { length recorded.old ≡ base.pages }
    requires ready { IsBatchReady recorded.old (W.is_new writer.old) (W.stage writer.old) (W.count writer.old) (W.total writer.old)
        (W.is_small writer.old) }
    requires batches { IsTrue D.tells → HasBatches base recorded.old (W.safe writer.old) (W.waiting writer.old) (W.left writer.old)
        (W.beside writer.old) (D.reads disk.old) (D.images disk.old) }
    requires pages { AreChanges base.pages (N.numbers pages.now) }
    requires buffer { (length buffer.old ≡ base.size) × (base.size ≤ 65536) }
    ensures ready { OnOk result (IsBatchReady recorded.new (W.is_new writer.new) (W.stage writer.new) (W.count writer.new) (W.total writer.new)
        (W.is_small writer.new)) }
    ensures batches { OnOk result (IsTrue D.tells → HasBatches base recorded.new (W.safe writer.new) (W.waiting writer.new) (W.left writer.new)
        (W.beside writer.new) (D.reads disk.new) (D.images disk.new)) }
    ensures marks { OnOk result (HasMarked (N.numbers pages.now) (length (N.numbers pages.now)) recorded.old recorded.new) }
    ensures sizes { (W.page_size writer.new ≡ base.size) × (W.initial writer.new ≡ base.pages) }
    ensures buffer { length buffer.new ≡ length buffer.old }
    ensures main { OnOk result (IsTrue D.tells → (D.reads disk.new).main ≡ (D.reads disk.old).main) }
    ensures any_moment { IsTrue D.tells → LeavesOnly D.moment D.since disk.old disk.new (HoldsOld base) }
    ensures fresh { IsTrue D.tells → LeavesOnly D.moment D.since disk.old disk.new (From SameFresh (D.images disk.old)) }
    ensures cause { HasCause (D.faults disk.old) (D.faults disk.new) result }
{
    if are_marked(recorded, pages) {
        return Ok(());
    }
    begin_segment(disk, writer, recorded)?;
    keep_batch(disk, writer, recorded, pages, buffer)?;
    open(disk, writer)?;
    Ok(())
}
