// Records of pages that are not changed yet, so that many changes share the two syncs of one gate.
ghost use Rattle.std.specs.Prelude.{◌≡◌, ◌+◌, ◌-◌, ◌^◌, ◌<◌, ◌≤◌, ℕ, List, length, slice_index, IsTrue, OnOk};
ghost use Rattle.std.specs.List.{range_with_len};
ghost use Rattle.edge_model.specs.Causes.{HasCause};
ghost use Rattle.edge_model.specs.Files.{Files, main_of};
ghost use Rattle.edge_model.specs.Images.{From, LeavesOnly};
ghost use Rattle.atomic_commit.specs.Batches.{HasBatches, HasMarked, IsBatchReady};
ghost use Rattle.atomic_commit.specs.Commit.{AreChanges};
ghost use Rattle.atomic_commit.specs.Database.{Base, HoldsOld};
ghost use Rattle.atomic_commit.specs.Facts.{SameFresh};

use crate::{PageMarks, PageNumbers, RecordWriter, guard_batch};
use edge_model::{Disk, Failed};

/// So many pages, one after another.
#[derive(Clone, Copy, Debug, PartialEq, Eq)]
pub struct PageRun {
    pub(crate) first: u32,
    pub(crate) count: u32,
    ghost within: { first + count ≤ 2 ^ 32 },
}

impl PageNumbers for PageRun {
    ghost numbers = { λ r. range_with_len r.first r.count };

    fn len(&self) -> usize {
        self.count as usize
    }

    fn number(&self, k: usize) -> u32 {
        self.first + k as u32
    }
}

/// Puts the records of so many pages from one on behind an open gate, those that have none, in one segment of the journal. They may be
/// changed later, in as many batches as it takes, and no batch of them waits for the journal again. The buffer has the length of a page.
pub fn guard_ahead<D: Disk, W: RecordWriter>(
    disk: &mut D,
    writer: &mut W,
    recorded: &mut PageMarks,
    first: u32,
    count: u32,
    buffer: &mut [u8],
) -> Result<(), Failed>
    ghost base: { Base }
    requires pages { (1 ≤ first) × (first + count ≤ base.pages + 1) × (first + count ≤ 2 ^ 32) }
    requires sizes { (W.page_size writer.old ≡ base.size) × (W.initial writer.old ≡ base.pages) }
    requires marks { length recorded.old ≡ base.pages }
    requires ready { IsBatchReady recorded.old (W.is_new writer.old) (W.stage writer.old) (W.count writer.old) (W.total writer.old)
        (W.is_small writer.old) }
    requires batches { IsTrue D.tells → HasBatches base recorded.old (W.safe writer.old) (W.waiting writer.old) (W.left writer.old)
        (W.beside writer.old) (D.reads disk.old) (D.images disk.old) }
    requires buffer { (length buffer.old ≡ base.size) × (base.size ≤ 65536) }
    ensures ready { OnOk result (IsBatchReady recorded.new (W.is_new writer.new) (W.stage writer.new) (W.count writer.new) (W.total writer.new)
        (W.is_small writer.new)) }
    ensures batches { OnOk result (IsTrue D.tells → HasBatches base recorded.new (W.safe writer.new) (W.waiting writer.new) (W.left writer.new)
        (W.beside writer.new) (D.reads disk.new) (D.images disk.new)) }
    ensures marks { OnOk result (HasMarked (range_with_len first count) count recorded.old recorded.new) }
    ensures sizes { (W.page_size writer.new ≡ base.size) × (W.initial writer.new ≡ base.pages) }
    ensures buffer { length buffer.new ≡ length buffer.old }
    ensures main { OnOk result (IsTrue D.tells → (D.reads disk.new).main ≡ (D.reads disk.old).main) }
    ensures any_moment { IsTrue D.tells → LeavesOnly D.moment D.since disk.old disk.new (HoldsOld base) }
    ensures fresh { IsTrue D.tells → LeavesOnly D.moment D.since disk.old disk.new (From SameFresh (D.images disk.old)) }
    ensures cause { HasCause (D.faults disk.old) (D.faults disk.new) result }
{
    let pages = PageRun { first, count };
    guard_batch(disk, writer, recorded, &pages, buffer)?;
    Ok(())
}
