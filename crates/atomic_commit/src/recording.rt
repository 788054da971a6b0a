// The records of pages, each written once: the pages that have one are marked.
ghost use Rattle.std.specs.Prelude.{◌≡◌, ◌+◌, ◌*◌, ◌<◌, ◌≤◌, length, IsFalse, IsTrue, OnOk};
ghost use Rattle.edge_model.specs.Causes.{HasCause};
ghost use Rattle.edge_model.specs.Images.{From, LeavesOnly};
ghost use Rattle.atomic_commit.specs.Database.{Base, HoldsOld};
ghost use Rattle.atomic_commit.specs.Facts.{HasFacts, SameFresh};
ghost use Rattle.atomic_commit.specs.Journals.{AsLeft, records_in};
ghost use Rattle.atomic_commit.specs.Marks.{is_marked, marked_count, with_mark};
ghost use Rattle.atomic_commit.specs.Recorded.{AreRecorded};

use crate::{PageMarks, RecordWriter, Stage, keep_old};
use edge_model::{Disk, Failed};

/// Puts the record of page `n`, which is not marked, behind the closed gate, and marks the page. The buffer has the length
/// of a page.
pub fn keep_marked<D: Disk, W: RecordWriter>(
    disk: &mut D,
    writer: &mut W,
    recorded: &mut PageMarks,
    n: u32,
    buffer: &mut [u8],
) -> Result<(), Failed>
    ghost base: { Base }
    requires stage { W.stage writer.old ≡ Stage.Filling }
    requires small { W.is_small writer.old }
    requires sizes { (W.page_size writer.old ≡ base.size) × (W.initial writer.old ≡ base.pages) }
    requires marks { (length recorded.old ≡ base.pages) × (W.total writer.old ≡ marked_count recorded.old) }
    requires page { (1 ≤ n) × (n ≤ base.pages) × (length buffer.old ≡ base.size) × (base.size ≤ 65536) }
    requires fresh { IsFalse (is_marked n recorded.old) }
    requires recorded { IsTrue D.tells →
        AreRecorded recorded.old (records_in (W.safe writer.old) (W.waiting writer.old) (D.reads disk.old)) }
    requires facts { IsTrue D.tells →
        HasFacts base (W.safe writer.old) (W.waiting writer.old) (D.reads disk.old) (D.images disk.old) }
    requires left { IsTrue D.tells →
        AsLeft (W.left writer.old) (W.beside writer.old) (D.reads disk.old) (D.images disk.old) }
    ensures facts { OnOk result (IsTrue D.tells →
        HasFacts base (W.safe writer.new) (W.waiting writer.new) (D.reads disk.new) (D.images disk.new)) }
    ensures left { OnOk result (IsTrue D.tells →
        AsLeft (W.left writer.new) (W.beside writer.new) (D.reads disk.new) (D.images disk.new)) }
    ensures recorded { OnOk result (IsTrue D.tells →
        AreRecorded recorded.new (records_in (W.safe writer.new) (W.waiting writer.new) (D.reads disk.new))) }
    ensures marks { OnOk result ((recorded.new ≡ with_mark n recorded.old) × (W.total writer.new ≡ marked_count recorded.new)) }
    ensures stage { OnOk result ((W.stage writer.new ≡ Stage.Filling) × (W.count writer.new ≡ W.count writer.old + 1)
        × W.is_small writer.new) }
    ensures sizes { (W.page_size writer.new ≡ base.size) × (W.initial writer.new ≡ base.pages) }
    ensures buffer { length buffer.new ≡ length buffer.old }
    ensures main { IsTrue D.tells → (D.reads disk.new).main ≡ (D.reads disk.old).main }
    ensures any_moment { IsTrue D.tells → LeavesOnly D.moment D.since disk.old disk.new (HoldsOld base) }
    ensures fresh { IsTrue D.tells → LeavesOnly D.moment D.since disk.old disk.new (From SameFresh (D.images disk.old)) }
    ensures cause { HasCause (D.faults disk.old) (D.faults disk.new) result }
{
    keep_old(disk, writer, n, buffer)?;
    recorded.put(n);
    Ok(())
}
