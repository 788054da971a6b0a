// Four words at once, one of each message, and the functions of SHA-512 on them (FIPS 180-4, section 4.1.3).
ghost use Rattle.std.specs.Prelude.{◌≡◌, ℕ, ◌+◌, ◌*◌, ◌<◌, ◌≤◌, length};
ghost use Rattle.std.specs.Int.{w64, rotate_right};
ghost use Rattle.sha2.specs.Sha512.{big_sigma0, big_sigma1, ch, maj, small_sigma0, small_sigma1, word_at};
ghost use Rattle.hash_lanes.specs.Lanes.{four};

use std::simd::prelude::*;

/// A word of each of four messages.
pub type Lanes = u64x4;

// Each word, rotated to the right by so many bits.
#[inline(always)]
fn rotate_right(x: Lanes, n: u64) -> Lanes
    requires some { 0 < n }
    requires within { n < 64 }
    ensures { (f : ℕ → ℕ) → x ≡ four f → result ≡ four (λ i. rotate_right w64 (f i) n) }
{
    (x >> Lanes::splat(n)) | (x << Lanes::splat(64 - n))
}

/// Ch.
#[inline(always)]
pub fn ch(x: Lanes, y: Lanes, z: Lanes) -> Lanes
    ensures { (f g h : ℕ → ℕ) → x ≡ four f → y ≡ four g → z ≡ four h → result ≡ four (λ i. ch (f i) (g i) (h i)) }
{
    (x & y) ^ (!x & z)
}

/// Maj.
#[inline(always)]
pub fn maj(x: Lanes, y: Lanes, z: Lanes) -> Lanes
    ensures { (f g h : ℕ → ℕ) → x ≡ four f → y ≡ four g → z ≡ four h → result ≡ four (λ i. maj (f i) (g i) (h i)) }
{
    (x & y) ^ (x & z) ^ (y & z)
}

/// The upper case Σ 0.
#[inline(always)]
pub fn big_sigma0(x: Lanes) -> Lanes
    ensures { (f : ℕ → ℕ) → x ≡ four f → result ≡ four (λ i. big_sigma0 (f i)) }
{
    rotate_right(x, 28) ^ rotate_right(x, 34) ^ rotate_right(x, 39)
}

/// The upper case Σ 1.
#[inline(always)]
pub fn big_sigma1(x: Lanes) -> Lanes
    ensures { (f : ℕ → ℕ) → x ≡ four f → result ≡ four (λ i. big_sigma1 (f i)) }
{
    rotate_right(x, 14) ^ rotate_right(x, 18) ^ rotate_right(x, 41)
}

/// The lower case σ 0.
#[inline(always)]
pub fn small_sigma0(x: Lanes) -> Lanes
    ensures { (f : ℕ → ℕ) → x ≡ four f → result ≡ four (λ i. small_sigma0 (f i)) }
{
    rotate_right(x, 1) ^ rotate_right(x, 8) ^ (x >> Lanes::splat(7))
}

/// The lower case σ 1.
#[inline(always)]
pub fn small_sigma1(x: Lanes) -> Lanes
    ensures { (f : ℕ → ℕ) → x ≡ four f → result ≡ four (λ i. small_sigma1 (f i)) }
{
    rotate_right(x, 19) ^ rotate_right(x, 61) ^ (x >> Lanes::splat(6))
}

// The word at this byte.
#[inline(always)]
fn word(text: &[u8], at: usize) -> u64
    requires { at + 8 ≤ length text.now }
    ensures { result ≡ word_at text.now at }
{
    u64::from_be_bytes([
        text[at],
        text[at + 1],
        text[at + 2],
        text[at + 3],
        text[at + 4],
        text[at + 5],
        text[at + 6],
        text[at + 7],
    ])
}

/// The words at this byte of four texts, each of which begins `stride` bytes after the one before.
#[inline(always)]
pub fn load(text: &[u8], at: usize, stride: usize) -> Lanes
    requires { at + 3 * stride + 8 ≤ length text.now }
    ensures { result ≡ four (λ i. word_at text.now (at + i * stride)) }
{
    Lanes::from_array([
        word(text, at),
        word(text, at + stride),
        word(text, at + 2 * stride),
        word(text, at + 3 * stride),
    ])
}
