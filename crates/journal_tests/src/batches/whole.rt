// Whole transactions over any disk: the contracts of the steps join.
ghost use Rattle.std.specs.Prelude.{◌≡◌, ◌<◌, ◌≤◌, length, replicate, false, IsTrue, OnOk, Err, None};
ghost use Rattle.edge_model.specs.Images.{Each, LeavesOnly};
ghost use Rattle.edge_model.specs.Files.{main_of};
ghost use Rattle.rollback_journal.specs.Writing.{at_first};
ghost use Rattle.atomic_commit.specs.Database.{Base, HoldsOld};
ghost use Rattle.atomic_commit.specs.Facts.{IsBase, IsCommitBegun};
ghost use Rattle.atomic_commit.specs.Commit.{AreChanges, IsCommitted};

use atomic_commit::{Changes, CommitFault, PageMarks, end_batches, undo_batches, write_batch};
use edge_model::Disk;
use rollback_journal::JournalWriter;

/// Two batches before the commit, and the last with it.
pub fn change_in_batches<D: Disk, C: Changes>(
    disk: &mut D,
    writer: &mut JournalWriter,
    recorded: &mut PageMarks,
    first: &mut C,
    second: &mut C,
    last: &mut C,
    buffer: &mut [u8],
) -> Result<(), CommitFault>
    ghost base: { Base }
    requires new { (writer.old ≡ at_first base.size base.pages) × (recorded.old ≡ replicate base.pages false) }
    requires base_is { IsBase base }
    requires first { AreChanges base.pages (C.numbers first.old) × (C.size first.old ≡ base.size) }
    requires second { AreChanges base.pages (C.numbers second.old) × (C.size second.old ≡ base.size) }
    requires last { AreChanges base.pages (C.numbers last.old) × (C.size last.old ≡ base.size) }
    requires buffer { (length buffer.old ≡ base.size) × (base.size ≤ 65536) }
    requires begun { IsTrue D.tells → IsCommitBegun base (D.images disk.old) }
    ensures new { OnOk result (IsTrue D.tells → Each (D.images disk.new) (IsCommitted base (main_of (D.reads disk.new)))) }
{
    write_batch(disk, writer, recorded, first, buffer)?;
    write_batch(disk, writer, recorded, second, buffer)?;
    end_batches(disk, writer, recorded, last, buffer)?;
    Ok(())
}

/// Two batches, and back.
pub fn undo_batch<D: Disk, C: Changes>(
    disk: &mut D,
    writer: &mut JournalWriter,
    recorded: &mut PageMarks,
    first: &mut C,
    second: &mut C,
    buffer: &mut [u8],
) -> Result<(), CommitFault>
    ghost base: { Base }
    requires new { (writer.old ≡ at_first base.size base.pages) × (recorded.old ≡ replicate base.pages false) }
    requires base_is { IsBase base }
    requires first { AreChanges base.pages (C.numbers first.old) × (C.size first.old ≡ base.size) }
    requires second { AreChanges base.pages (C.numbers second.old) × (C.size second.old ≡ base.size) }
    requires buffer { (length buffer.old ≡ base.size) × (base.size ≤ 65536) }
    requires begun { IsTrue D.tells → IsCommitBegun base (D.images disk.old) }
    ensures old { OnOk result (IsTrue D.tells → Each (D.images disk.new) (λ c. HoldsOld base c × (c.journal ≡ None))) }
    ensures any_moment { IsTrue D.tells → LeavesOnly D.moment D.since disk.old disk.new (HoldsOld base) }
{
    write_batch(disk, writer, recorded, first, buffer)?;
    write_batch(disk, writer, recorded, second, buffer)?;
    match undo_batches(disk, writer, recorded) {
        Ok(()) => Ok(()),
        Err(_) => Err(CommitFault::DiskFault),
    }
}
