// Main, as its pages are read.
ghost use Rattle.std.specs.Prelude.{◌≡◌, ◌+◌, ◌-◌, ◌*◌, ◌≤◌, ◌<◌, ◌^◌, length, take, drop, IfOk, OnOk, IsTrue};
ghost use Rattle.edge_model.specs.Causes.{HasCause};
ghost use Rattle.edge_model.specs.Files.{file_at, length_of, main_of};
ghost use Rattle.edge_model.specs.OnlyRead.{OnlyRead};
ghost use Rattle.page_codec.specs.Page.{stored_page};

use edge_model::{Disk, Failed, Role};

/// The longest stored page, in bytes.
pub const MAX_PAGE: usize = 65536;

/// The length of the role's file, none where it has no file.
pub fn file_length<D: Disk>(disk: &mut D, role: Role) -> Result<Option<u64>, Failed>
    ensures told { IfOk result (λ len. IsTrue D.tells → len ≡ length_of (file_at (D.reads disk.old) role)) }
    ensures cause { HasCause (D.faults disk.old) (D.faults disk.new) result }
    ensures only_read { IsTrue D.tells → OnlyRead D.reads D.images D.moment D.since disk.old disk.new }
{
    disk.length(role)
}

/// Reads page n of Main, numbered from 1. What lies past the end of Main is taken as zeros.
pub fn read_page<D: Disk>(disk: &mut D, n: u32, page: &mut [u8]) -> Result<(), Failed>
    requires number { 1 ≤ n }
    requires fits { length page.old ≤ 2 ^ 16 }
    ensures told { OnOk result (IsTrue D.tells → n * length page.new ≤ length (main_of (D.reads disk.old)) → page.new ≡ stored_page (length page.new) n (main_of (D.reads disk.old))) }
    ensures cause { HasCause (D.faults disk.old) (D.faults disk.new) result }
    ensures only_read { IsTrue D.tells → OnlyRead D.reads D.images D.moment D.since disk.old disk.new }
{
    let at = (n as u64 - 1) * page.len() as u64;
    read_main(disk, at, page)
}

/// Reads the bytes of Main from an offset on. What lies past the end of Main is taken as zeros.
pub fn read_main<D: Disk>(disk: &mut D, at: u64, bytes: &mut [u8]) -> Result<(), Failed>
    ensures told { OnOk result (IsTrue D.tells → at + length bytes.new ≤ length (main_of (D.reads disk.old))
        → bytes.new ≡ take (length bytes.new) (drop at (main_of (D.reads disk.old)))) }
    ensures cause { HasCause (D.faults disk.old) (D.faults disk.new) result }
    ensures only_read { IsTrue D.tells → OnlyRead D.reads D.images D.moment D.since disk.old disk.new }
{
    let count = disk.read_at(Role::Main, at, bytes)?;
    for i in count..bytes.len() {
        bytes[i] = 0;
    }
    Ok(())
}
