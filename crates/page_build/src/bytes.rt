// Bytes in their place.
ghost use Rattle.std.specs.Prelude.{◌≡◌, ◌≤◌, ◌+◌, length};
ghost use Rattle.page_build.specs.Draft.{laid};
ghost use Rattle.page_build.specs.Written.{four_bytes, two_bytes};

use number_fields::{u16_bytes, u32_bytes};

/// Writes these bytes over those from `at` on.
pub fn lay(page: &mut Vec<u8>, at: usize, piece: &[u8])
    requires { at + length piece.now ≤ length page.old.items }
    ensures { page.new.items ≡ laid at piece.now page.old.items }
{
    page[at..at + piece.len()].copy_from_slice(piece);
}

/// A number in four bytes, the most significant first.
pub fn four_bytes(number: u32) -> [u8; 4]
    ensures { result ≡ four_bytes number }
{
    u32_bytes(number)
}

/// A number in two bytes, the most significant first.
pub fn two_bytes(number: u16) -> [u8; 2]
    ensures { result ≡ two_bytes number }
{
    u16_bytes(number)
}
