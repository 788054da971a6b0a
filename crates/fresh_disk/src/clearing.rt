// Fresh, made anew.
ghost use Rattle.std.specs.Prelude.{◌≡◌, ◌⊎◌, [], IsTrue, IfOk, OnOk, false, None, Some};
ghost use Rattle.edge_model.specs.Causes.{HasCause};
ghost use Rattle.edge_model.specs.Files.{bytes_of};
ghost use Rattle.edge_model.specs.Images.{Each, LeavesOnly};
ghost use Rattle.fresh_disk.specs.OnlyFresh.{IsOld, OnlyFresh};

use edge_model::{Disk, Failed, Role};

/// No image has a Fresh that an earlier stop left.
pub fn clear_fresh<D: Disk>(disk: &mut D) -> Result<(), Failed>
    ensures gone { OnOk result (IsTrue D.tells → (D.reads disk.new).fresh ≡ None) }
    ensures gone_everywhere { OnOk result (IsTrue D.tells → Each (D.images disk.new) (λ c. c.fresh ≡ None)) }
    ensures reads { IsTrue D.tells → OnlyFresh (D.reads disk.old) (D.reads disk.new) }
    ensures any_moment { IsTrue D.tells → LeavesOnly D.moment D.since disk.old disk.new (IsOld (D.images disk.old)) }
    ensures cause { HasCause (D.faults disk.old) (D.faults disk.new) result }
{
    if has_fresh(disk)? {
        remove_fresh(disk)
    } else {
        disk.sync_folder()
    }
}

// Whether there is a Fresh.
fn has_fresh<D: Disk>(disk: &mut D) -> Result<bool, Failed>
    ensures reads { IsTrue D.tells → D.reads disk.new ≡ D.reads disk.old }
    ensures any_moment { IsTrue D.tells → LeavesOnly D.moment D.since disk.old disk.new (IsOld (D.images disk.old)) }
    ensures cause { HasCause (D.faults disk.old) (D.faults disk.new) result }
    ensures none { IfOk result (λ there. IsTrue D.tells → there ≡ false → (D.reads disk.new).fresh ≡ None) }
{
    let length = disk.length(Role::Fresh)?;
    Ok(length.is_some())
}

// The file is gone from each image.
fn remove_fresh<D: Disk>(disk: &mut D) -> Result<(), Failed>
    ensures gone { OnOk result (IsTrue D.tells → (D.reads disk.new).fresh ≡ None) }
    ensures gone_everywhere { OnOk result (IsTrue D.tells → Each (D.images disk.new) (λ c. c.fresh ≡ None)) }
    ensures reads { IsTrue D.tells → OnlyFresh (D.reads disk.old) (D.reads disk.new) }
    ensures any_moment { IsTrue D.tells → LeavesOnly D.moment D.since disk.old disk.new (IsOld (D.images disk.old)) }
    ensures cause { HasCause (D.faults disk.old) (D.faults disk.new) result }
{
    disk.remove(Role::Fresh)?;
    disk.sync_folder()
}

/// A new Fresh, where there is none.
pub fn create_fresh<D: Disk>(disk: &mut D) -> Result<(), Failed>
    requires none { IsTrue D.tells → (D.reads disk.old).fresh ≡ None }
    ensures empty { OnOk result (IsTrue D.tells → bytes_of (D.reads disk.new).fresh ≡ Some []) }
    ensures reads { IsTrue D.tells → OnlyFresh (D.reads disk.old) (D.reads disk.new) }
    ensures any_moment { IsTrue D.tells → LeavesOnly D.moment D.since disk.old disk.new (IsOld (D.images disk.old)) }
    ensures cause { HasCause (D.faults disk.old) (D.faults disk.new) result }
{
    disk.create(Role::Fresh)
}
