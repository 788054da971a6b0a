// Reads that the system may do in pieces.
ghost use Rattle.std.specs.Prelude.{◌≡◌, ◌≤◌, length, take, IfOk, IsTrue};
ghost use Rattle.edge_model.specs.Files.{contents, read_from};
ghost use Rattle.system_calls.specs.System.{opened};

use crate::{Calls, Fault};
use edge_model::Role;
use std::io::ErrorKind;

/// Reads until the buffer is full or the file ends.
pub fn read_full<C: Calls>(calls: &C, place: Role, at: u64, buf: &mut [u8]) -> Result<usize, Fault>
    ensures count { IfOk result (λ count. count ≤ length buf.old) }
    ensures told { IfOk result (λ count. IsTrue C.tells → take count buf.new ≡ read_from at (length buf.old) (contents (opened (C.system calls.now) place))) }
{
    let mut count = 0;
    while count < buf.len() {
        let Some(from) = at.checked_add(count as u64) else {
            return Err(Fault::new("read", ErrorKind::InvalidInput.into()));
        };
        let more = calls.read_some(place, from, &mut buf[count..])?;
        if more == 0 {
            return Ok(count);
        }
        count += more;
    }
    Ok(count)
}
