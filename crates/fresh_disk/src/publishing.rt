// Fresh takes the place of Main.
ghost use Rattle.std.specs.Prelude.{◌≡◌, IsTrue, List, ℕ, OnOk, None, Some};
ghost use Rattle.edge_model.specs.Causes.{HasCause};
ghost use Rattle.edge_model.specs.Files.{bytes_of, renamed};
ghost use Rattle.edge_model.specs.Images.{Each, LeavesOnly};
ghost use Rattle.fresh_disk.specs.OnlyFresh.{IsFreshSynced};
ghost use Rattle.fresh_disk.specs.Published.{IsAlone, IsOldOrNew, IsOldOrPublished, IsPublished};

use edge_model::{Disk, Failed};

/// Puts Fresh in the place of Main. After a fault each image has the old Main or the new one.
pub fn publish<D: Disk>(disk: &mut D) -> Result<(), Failed>
    requires synced { IsTrue D.tells → IsFreshSynced (D.images disk.old) (D.reads disk.old) }
    ensures reads { OnOk result (IsTrue D.tells → D.reads disk.new ≡ renamed (D.reads disk.old)) }
    ensures done { OnOk result (IsTrue D.tells → Each (D.images disk.new) (IsPublished (D.images disk.old) (D.reads disk.old).fresh)) }
    ensures any_moment { IsTrue D.tells → LeavesOnly D.moment D.since disk.old disk.new (IsOldOrPublished (D.images disk.old) (D.reads disk.old).fresh) }
    ensures cause { HasCause (D.faults disk.old) (D.faults disk.new) result }
{
    disk.rename_fresh()?;
    disk.sync_folder()
}

/// The same where no Journal is there: each image is an old one, or has these bytes as Main and no Journal.
pub fn publish_new<D: Disk>(disk: &mut D) -> Result<(), Failed>
    requires synced { IsTrue D.tells → IsFreshSynced (D.images disk.old) (D.reads disk.old) }
    requires no_journal { IsTrue D.tells → Each (D.images disk.old) (λ c. c.journal ≡ None) }
    ensures reads { (bytes : List ℕ) → IsTrue D.tells → bytes_of (D.reads disk.old).fresh ≡ Some bytes → OnOk result (bytes_of (D.reads disk.new).main ≡ Some bytes) }
    ensures done { (bytes : List ℕ) → IsTrue D.tells → bytes_of (D.reads disk.old).fresh ≡ Some bytes → OnOk result (Each (D.images disk.new) (IsAlone bytes)) }
    ensures any_moment { (bytes : List ℕ) → IsTrue D.tells → bytes_of (D.reads disk.old).fresh ≡ Some bytes
        → LeavesOnly D.moment D.since disk.old disk.new (IsOldOrNew (D.images disk.old) bytes) }
    ensures cause { HasCause (D.faults disk.old) (D.faults disk.new) result }
{
    publish(disk)
}
