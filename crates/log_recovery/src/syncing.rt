// Syncs of Main and of the log.
ghost use Rattle.std.specs.Prelude.{◌≡◌, IsTrue, OnOk};
ghost use Rattle.edge_model.specs.Causes.{HasCause};
ghost use Rattle.edge_model.specs.Images.{Each, HasSynced, LeavesOnly, Passes};
ghost use Rattle.rollback_journal.specs.Recovery.{IsSettled};

use edge_model::{Disk, Failed, Role};

/// Syncs the role where it has a file.
fn sync_present<D: Disk>(disk: &mut D, role: Role) -> Result<(), Failed>
    ensures synced { OnOk result (IsTrue D.tells → Each (D.images disk.new) (HasSynced role (D.reads disk.old))) }
    ensures same { IsTrue D.tells → D.reads disk.new ≡ D.reads disk.old }
    ensures crash { IsTrue D.tells → Each (D.images disk.new) (D.images disk.old) }
    ensures time { IsTrue D.tells → Passes D.images D.moment D.since disk.old disk.new }
    ensures any_moment { IsTrue D.tells → LeavesOnly D.moment D.since disk.old disk.new (D.images disk.old) }
    ensures cause { HasCause (D.faults disk.old) (D.faults disk.new) result }
{
    if disk.length(role)?.is_none() {
        return Ok(());
    }
    disk.sync(role)
}

/// Syncs Main and the log where they are there, and then the folder: each image then has both as they read.
pub fn sync_pair<D: Disk>(disk: &mut D) -> Result<(), Failed>
    ensures settled { OnOk result (IsTrue D.tells → Each (D.images disk.new) (IsSettled (D.reads disk.old))) }
    ensures same { IsTrue D.tells → D.reads disk.new ≡ D.reads disk.old }
    ensures crash { IsTrue D.tells → Each (D.images disk.new) (D.images disk.old) }
    ensures time { IsTrue D.tells → Passes D.images D.moment D.since disk.old disk.new }
    ensures any_moment { IsTrue D.tells → LeavesOnly D.moment D.since disk.old disk.new (D.images disk.old) }
    ensures cause { HasCause (D.faults disk.old) (D.faults disk.new) result }
{
    sync_present(disk, Role::Main)?;
    sync_present(disk, Role::Journal)?;
    disk.sync_folder()?;
    Ok(())
}
