// The name of a super-journal, at the end of a journal that is one of several of one transaction.
//
// | offset from the end | length | field                              |
// | 16 + the length     |        | the name                           |
// | 16                  | 4      | the name's length, in bytes        |
// | 12                  | 4      | the sum of its bytes               |
// | 8                   | 8      | the magic of a header              |
//
// A journal with the mark of this tool has no such name, whatever its last bytes are.
ghost use Rattle.std.specs.Prelude.{◌≡◌, ◌&&◌, nat_le};
ghost use Rattle.journal_format.specs.Segments.{ends_super_by, has_mark};

use crate::header::has_magic;
use number_fields::u32_at;

/// What this tool writes into the padding of a journal's first header, at 28.
const MARK: &[u8; 16] = b"sqlcipher-tool 1";

/// Whether a journal has this tool's mark, by its sector size and its first 44 bytes.
fn has_own_mark(sector: u32, front: &[u8; 44]) -> bool
    ensures { result ≡ has_mark sector front.now }
{
    if sector != 512 {
        return false;
    }
    &front[28..44] == MARK.as_slice()
}

/// Whether a journal ends in the name of a super-journal, by its sector size and length in bytes, its first 44 bytes and
/// its last 16.
pub fn ends_super(sector: u32, len: u64, front: &[u8; 44], tail: &[u8; 16]) -> bool
    ensures { result ≡ ends_super_by sector len front.now tail.now }
{
    if len < sector as u64 + 17 {
        return false;
    }
    if has_own_mark(sector, front) {
        return false;
    }
    if !has_magic(&tail[8..16]) {
        return false;
    }
    is_within(u32_at(tail, 0), len - sector as u64 - 16)
}

/// Whether a number is from 1 to a bound.
fn is_within(n: u32, most: u64) -> bool
    ensures { result ≡ (nat_le 1 n && nat_le n most) }
{
    1 <= n && n as u64 <= most
}
