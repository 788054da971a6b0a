// Marks of pages: one bit a page.
ghost use Rattle.std.specs.Prelude.{◌≡◌, ◌+◌, ◌*◌, ◌<◌, ◌/◌, ℕ, not, true, [], ◌∷◌, length, IsTrue, IfOk};
ghost use Rattle.db_format.specs.Pages.{also, nothing};
ghost use Rattle.db_format.specs.Seen.{bit_of, marked, open_count};

use crate::OutOfMemory;
use std::alloc::Global;
use std::marker::Model;

/// A mark for each page that was met, by its number. It takes a bit a page.
///
/// Contracts see a list of Booleans, one for each number from 0 to the last page's.
#[derive(Drop)]
pub struct Seen {
    bytes: Vec<u8>,
    size: usize,
}

impl Model for Seen {
    ghost use Rattle.std.specs.Prelude.{List, Bool, ◌≤◌, ◌*◌, length};
    ghost use Rattle.db_format.specs.Seen.{bits_from};

    ghost Value = { List Bool };

    ghost view = { λ seen. bits_from seen.bytes.items 0 seen.size };

    ghost invariant = { λ seen. seen.size ≤ 8 * length seen.bytes.items };
}

impl Seen {
    /// No marks, for so many pages.
    pub fn new(alloc: Global, pages: u32) -> Result<Seen, OutOfMemory>
        ensures none { IfOk result (λ seen. marked seen ≡ nothing) }
        ensures length { IfOk result (λ seen. length seen ≡ pages + 1) }
    {
        match vec![in alloc; 0u8; pages as usize / 8 + 1] {
            Ok(bytes) => Ok(Seen {
                bytes,
                size: pages as usize + 1,
            }),
            Err(_) => Err(OutOfMemory),
        }
    }

    /// Page n has a mark. A number past the last page's has none.
    pub fn has(&self, n: u32) -> bool
        ensures { result ≡ marked self.now n }
    {
        if n as usize >= self.size {
            return false;
        }
        bit(&self.bytes, n)
    }

    /// Marks page n, and answers whether it had no mark.
    pub fn mark(&mut self, n: u32) -> bool
        requires { n < length self.old }
        ensures fresh { marked self.old n ≡ not result }
        ensures after { marked self.new ≡ also (n ∷ []) (marked self.old) }
        ensures count { IsTrue result → open_count self.new + 1 ≡ open_count self.old }
        ensures length { length self.new ≡ length self.old }
    {
        let fresh = !bit(&self.bytes, n);
        set_bit(&mut self.bytes, n);
        fresh
    }
}

// Bit n of these bytes.
fn bit(bytes: &[u8], n: u32) -> bool
    requires { n / 8 < length bytes.now }
    ensures { result ≡ bit_of bytes.now n }
{
    (bytes[(n / 8) as usize] >> (n % 8)) & 1 == 1
}

// Sets bit n of these bytes.
fn set_bit(bytes: &mut [u8], n: u32)
    requires { n / 8 < length bytes.old }
    ensures here { bit_of bytes.new n ≡ true }
    ensures others { (m : ℕ) → (m ≡ n → ⊥) → bit_of bytes.new m ≡ bit_of bytes.old m }
{
    let at = (n / 8) as usize;
    bytes[at] = bytes[at] | (1u8 << (n % 8));
}
