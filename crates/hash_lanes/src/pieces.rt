// What the messages of one call share, whatever their hash is: the pieces that they are cut from, and how their last bytes are filled up
// to whole blocks (FIPS 180-4, section 5.1).
ghost use Rattle.std.specs.Prelude.{◌≡◌, ℕ, ◌+◌, ◌-◌, ◌<◌, ◌≤◌, ◌∷◌, ◌++◌, length, take, drop, replicate};

// The padding's first bytes: a bit 1, then zeros.
const PADDING: [u8; 128] = [
    0x80, 0, 0, 0, 0, 0, 0, 0, 0, 0, 0, 0, 0, 0, 0, 0, 0, 0, 0, 0, 0, 0, 0, 0, 0, 0, 0, 0, 0, 0, 0,
    0, 0, 0, 0, 0, 0, 0, 0, 0, 0, 0, 0, 0, 0, 0, 0, 0, 0, 0, 0, 0, 0, 0, 0, 0, 0, 0, 0, 0, 0, 0, 0,
    0, 0, 0, 0, 0, 0, 0, 0, 0, 0, 0, 0, 0, 0, 0, 0, 0, 0, 0, 0, 0, 0, 0, 0, 0, 0, 0, 0, 0, 0, 0, 0,
    0, 0, 0, 0, 0, 0, 0, 0, 0, 0, 0, 0, 0, 0, 0, 0, 0, 0, 0, 0, 0, 0, 0, 0, 0, 0, 0, 0, 0, 0, 0, 0,
    0,
];

/// So many bytes from this one on.
pub fn part(bytes: &[u8], at: usize, len: usize) -> &[u8]
    requires { at + len ≤ length bytes.now }
    ensures bytes { result.now ≡ take len (drop at bytes.now) }
    ensures length { length result.now ≡ len }
{
    &bytes[at..at + len]
}

/// The last bytes of a message, which are the rest of a piece and an end, filled up to so many bytes: a bit 1, zeros, and the count.
pub fn padded(rest: &[u8], end: &[u8], count: &[u8], size: usize) -> [u8; 256]
    requires room { size ≤ 256 }
    requires some { length rest.now + length end.now + length count.now < size }
    requires within { size ≤ length rest.now + length end.now + length count.now + 128 }
    ensures { take size result ≡ rest.now ++ (end.now ++ (0x80 ∷ replicate (size - length count.now - (length rest.now + length end.now) - 1) 0
        ++ count.now)) }
{
    let used = rest.len() + end.len();
    let counted = size - count.len();
    let mut out = [0u8; 256];
    out[..rest.len()].copy_from_slice(rest);
    out[rest.len()..used].copy_from_slice(end);
    out[used..counted].copy_from_slice(&PADDING[..counted - used]);
    out[counted..size].copy_from_slice(count);
    out
}
