// A write of the journal that is on the disk before the next call.
ghost use Rattle.std.specs.Prelude.{◌≡◌, length, IsTrue, OnOk};
ghost use Rattle.edge_model.specs.Causes.{HasCause};
ghost use Rattle.edge_model.specs.Files.{with_file_bytes, written, Torn};
ghost use Rattle.edge_model.specs.Images.{Each, From, LeavesOnly, Changes, HasSynced};
ghost use Rattle.rollback_journal.specs.Plays.{SameOthers};

use edge_model::{Disk, Failed, Role};

/// Writes bytes of the journal and syncs it.
pub fn put<D: Disk>(disk: &mut D, at: u64, bytes: &[u8]) -> Result<(), Failed>
    ensures done { OnOk result (IsTrue D.tells →
        (D.reads disk.new).journal ≡ with_file_bytes (written at bytes.now) (D.reads disk.old).journal) }
    ensures synced { OnOk result (IsTrue D.tells → Each (D.images disk.new) (HasSynced Role.Journal (D.reads disk.new))) }
    ensures others { IsTrue D.tells → SameOthers (D.reads disk.old) (D.reads disk.new) }
    ensures crash { IsTrue D.tells → Each (D.images disk.new)
        (From (Changes Role.Journal (Torn at (length bytes.now)) (D.reads disk.old)) (D.images disk.old)) }
    ensures any_moment { IsTrue D.tells → LeavesOnly D.moment D.since disk.old disk.new
        (From (Changes Role.Journal (Torn at (length bytes.now)) (D.reads disk.old)) (D.images disk.old)) }
    ensures cause { HasCause (D.faults disk.old) (D.faults disk.new) result }
{
    disk.write_at(Role::Journal, at, bytes)?;
    disk.sync(Role::Journal)
}
