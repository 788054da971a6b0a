// The blocks of a text: 16 bytes each, numbered from 0.
ghost use Rattle.std.specs.Prelude.{◌≡◌, ◌+◌, ◌*◌, ◌≤◌, ◌++◌, length, take, drop};
ghost use Rattle.std.specs.Int.{w64, to_le_bytes};
ghost use Rattle.aes_block.specs.Aes.{xor_bytes};
ghost use Rattle.aes_block.specs.Blocks.{block_at};
ghost use Rattle.cbc_mode.specs.Halves.{block_bytes};

/// A block as two numbers, so that it stays in registers: its first eight bytes and its last, the first
/// of each the lowest.
#[derive(Clone, Copy)]
pub struct Block {
    low: u64,
    high: u64,
}

// The eight bytes from `at` on.
#[inline(always)]
fn half_at(text: &[u8], at: usize) -> u64
    requires { at + 8 ≤ length text.now }
    ensures { to_le_bytes w64 result ≡ take 8 (drop at text.now) }
{
    u64::from_le_bytes([
        text[at],
        text[at + 1],
        text[at + 2],
        text[at + 3],
        text[at + 4],
        text[at + 5],
        text[at + 6],
        text[at + 7],
    ])
}

// Replaces the eight bytes from `at` on.
#[inline(always)]
fn put_half(text: &mut [u8], at: usize, half: u64)
    requires { at + 8 ≤ length text.old }
    ensures { text.new ≡ take at text.old ++ to_le_bytes w64 half ++ drop (at + 8) text.old }
{
    text[at..at + 8].copy_from_slice(&half.to_le_bytes());
}

impl Block {
    /// Block `i` of a text.
    #[inline(always)]
    pub fn at(text: &[u8], i: usize) -> Block
        requires { 16 * i + 16 ≤ length text.now }
        ensures { block_bytes result ≡ block_at text.now i }
    {
        Block {
            low: half_at(text, 16 * i),
            high: half_at(text, 16 * i + 8),
        }
    }

    /// Replaces block `i` of a text.
    #[inline(always)]
    pub fn put(self, text: &mut [u8], i: usize)
        requires { 16 * i + 16 ≤ length text.old }
        ensures { text.new ≡ take (16 * i) text.old ++ block_bytes self ++ drop (16 * i + 16) text.old }
    {
        put_half(text, 16 * i, self.low);
        put_half(text, 16 * i + 8, self.high);
    }

    /// The exclusive or of two blocks.
    #[inline(always)]
    pub fn xor(self, other: Block) -> Block
        ensures { block_bytes result ≡ xor_bytes (block_bytes self) (block_bytes other) }
    {
        Block {
            low: self.low ^ other.low,
            high: self.high ^ other.high,
        }
    }

    /// The block's bytes.
    #[inline(always)]
    pub fn to_bytes(self) -> [u8; 16]
        ensures { result ≡ block_bytes self }
    {
        let [a, b, c, d, e, f, g, h] = self.low.to_le_bytes();
        let [i, j, k, l, m, n, o, p] = self.high.to_le_bytes();
        [a, b, c, d, e, f, g, h, i, j, k, l, m, n, o, p]
    }
}
