// Variable-length integers, section 1.6.
ghost use Rattle.std.specs.Prelude.{◌≡◌, ◌+◌, ◌-◌, ◌≤◌, ◌<◌, ◌^◌, ℕ, List, ◌++◌, length, take, drop, IfSome};
ghost use Rattle.db_format.specs.Varint.{IsVarintOf, last_values, leading_bytes, varint, varint_bytes, varint_size};

/// The longest varint, in bytes.
pub const LONGEST_VARINT: usize = 9;

/// The number at the start of these bytes, and how many of them it takes. `None` where they end within it. Longer spellings
/// than needed are read too.
#[inline(always)]
pub fn read_varint(bytes: &[u8]) -> Option<(u64, usize)>
    ensures read { result ≡ varint bytes.now }
    ensures within { IfSome result (λ found. (1 ≤ found.1) × (found.1 ≤ 9) × (found.1 ≤ length bytes.now)) }
{
    let mut high: u64 = 0;
    for (at, byte) in bytes.iter().enumerate() {
        let byte = *byte as u64;
        if at == LONGEST_VARINT - 1 {
            return Some((high * 256 + byte, LONGEST_VARINT));
        }
        if byte < 128 {
            return Some((high * 128 + byte, at + 1));
        }
        high = high * 128 + byte % 128;
    }
    None
}

/// Writes the shortest spelling of a number at the start of `out`, and returns how many bytes it takes.
pub fn write_varint(value: u64, out: &mut [u8; 9]) -> usize
    // The spelling stands at the start, and the bytes after it stay.
    ensures bytes { out.new ≡ varint_bytes value ++ drop result out.old }
    ensures size { result ≡ length (varint_bytes value) }
    ensures within { (1 ≤ result) × (result ≤ 9) }

    // It is read back, and no spelling is shorter.
    ensures reads_back { IsVarintOf (take result out.new) value }
    ensures shortest { (bytes : List ℕ) → IsVarintOf bytes value → result ≤ length bytes }
{
    let size = varint_size(value);
    let values = last_values(size);
    out[size - 1] = (value % values) as u8;
    write_leading(value / values, size - 1, out);
    size
}

// How many bytes the shortest spelling takes.
#[tactic(auto, unfolding(crate::specs::Varint::varint_size))]
pub(crate) fn varint_size(value: u64) -> usize
    ensures size { result ≡ varint_size value }
    ensures least { 1 ≤ result }
    ensures most { result ≤ 9 }
{
    match value {
        0..=0x7f => 1,
        0x80..=0x3fff => 2,
        0x4000..=0x1f_ffff => 3,
        0x20_0000..=0xfff_ffff => 4,
        0x1000_0000..=0x7_ffff_ffff => 5,
        0x8_0000_0000..=0x3ff_ffff_ffff => 6,
        0x400_0000_0000..=0x1_ffff_ffff_ffff => 7,
        0x2_0000_0000_0000..=0xff_ffff_ffff_ffff => 8,
        _ => LONGEST_VARINT,
    }
}

// How many values the last byte of so many has.
fn last_values(size: usize) -> u64
    ensures values { result ≡ last_values size }
    ensures least { 0 < result }
    ensures most { result ≤ 256 }
{
    if size == LONGEST_VARINT { 256 } else { 128 }
}

// Replaces the first bytes by the lowest sevens of bits, each with the high bit that says that more follows.
fn write_leading(number: u64, count: usize, out: &mut [u8; 9])
    requires { count ≤ 8 }
    ensures { out.new ≡ leading_bytes count number ++ drop count out.old }
{
    let mut rest = number;
    let mut at = count;
    'sevens: while at != 0 {
        at -= 1;
        out[at] = (128 + rest % 128) as u8;
        rest /= 128;
    }
}
