// Bytes of a role, as many as were asked for.
ghost use Rattle.std.specs.Prelude.{◌≡◌, ◌≢◌, ◌+◌, ◌<◌, ◌≤◌, ℕ, get_or, length, nat_le, IsTrue, IfOk, OnOk, None};
ghost use Rattle.edge_model.specs.Causes.{HasCause};
ghost use Rattle.edge_model.specs.Files.{contents, file_at, read_from};
ghost use Rattle.edge_model.specs.Images.{Each, LeavesOnly};
ghost use Rattle.edge_model.specs.OnlyRead.{OnlyRead};

use edge_model::{Disk, Failed, Role};

/// Fills the buffer from an offset on, and answers whether the file has all of these bytes. Those that it has not are zeros.
pub fn read_full<D: Disk>(
    disk: &mut D,
    role: Role,
    at: u64,
    buffer: &mut [u8],
) -> Result<bool, Failed>
    // the bytes one by one, and as a list where the file has all of them
    ensures bytes { OnOk result (IsTrue D.tells → (i : ℕ) → i < length buffer.old
        → get_or buffer.new i 0 ≡ get_or (contents (file_at (D.reads disk.old) role)) (at + i) 0) }
    ensures filled { OnOk result (IsTrue D.tells → file_at (D.reads disk.old) role ≢ None
        → at + length buffer.old ≤ length (contents (file_at (D.reads disk.old) role))
        → buffer.new ≡ read_from at (length buffer.old) (contents (file_at (D.reads disk.old) role))) }
    ensures whole { IfOk result (λ whole. IsTrue D.tells → 0 < length buffer.old
        → whole ≡ nat_le (at + length buffer.old) (length (contents (file_at (D.reads disk.old) role)))) }
    ensures len { length buffer.new ≡ length buffer.old }
    // the disk is only read, and what follows of that for those who write
    ensures only { IsTrue D.tells → OnlyRead D.reads D.images D.moment D.since disk.old disk.new }
    ensures same { IsTrue D.tells → D.reads disk.new ≡ D.reads disk.old }
    ensures crash { IsTrue D.tells → Each (D.images disk.new) (D.images disk.old) }
    ensures any_moment { IsTrue D.tells → LeavesOnly D.moment D.since disk.old disk.new (D.images disk.old) }
    ensures cause { HasCause (D.faults disk.old) (D.faults disk.new) result }
{
    let count = disk.read_at(role, at, buffer)?;
    for i in count..buffer.len() {
        buffer[i] = 0;
    }
    Ok(count == buffer.len())
}
