// The bytes of a role as a short text.
ghost use Rattle.std.specs.Prelude.{◌≤◌, IfOk};

use edge_model::{Disk, Failed, Role};
use sha1::Sha1;

/// How many bytes are read at once, by turns: pieces that begin and end anywhere in a page, and such as reach over several.
const PIECES: [usize; 4] = [1, 600, 37, 3000];

/// The next bytes of Main, so many at most.
fn read_piece<D: Disk>(
    disk: &mut D,
    at: u64,
    want: usize,
    room: &mut [u8; 3000],
) -> Result<usize, Failed>
    ensures { IfOk result (λ count. count ≤ 3000) }
{
    disk.read_at(Role::Main, at, &mut room[..want.min(3000)])
}

/// The SHA-1 of all bytes of Main.
pub fn digest_of<D: Disk>(disk: &mut D) -> Result<[u8; 20], Failed> {
    let mut hasher = Sha1::new();
    let mut room = [0; 3000];
    let mut at = 0u64;
    for turn in 0..u64::MAX {
        let count = read_piece(disk, at, PIECES[(turn % 4) as usize], &mut room)?;
        if count == 0 {
            return Ok(hasher.finalize());
        }
        hasher.update(&room[..count]);
        at = at.saturating_add(count as u64);
    }
    Err(Failed)
}

/// The length of a role's file, where it is there.
pub fn length_of<D: Disk>(disk: &mut D, role: Role) -> Result<Option<u64>, Failed> {
    disk.length(role)
}
