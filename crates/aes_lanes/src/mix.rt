// Sums and products of the bytes of rows, MixColumns and InvMixColumns.
ghost use Rattle.std.specs.Prelude.{◌≡◌, ℕ, ◌<◌, [], ◌∷◌, bit_xor};
ghost use Rattle.aes_block.specs.Field.{gf_mul};
ghost use Rattle.aes_block.specs.Aes.{inv_mix_columns, mix_columns};
ghost use Rattle.aes_lanes.specs.Planes.{IsRow, byte_in};
ghost use Rattle.aes_lanes.specs.States.{AreHalfMixed, AreMixed, IsState, state_in};

use crate::lanes::{Row, State};

/// The exclusive or of two rows: the sum of their bytes.
#[inline(always)]
pub fn xor(a: Row, b: Row) -> Row
    requires left { IsRow a }
    requires right { IsRow b }
    ensures lanes { IsRow result }
    ensures bytes { (c j : ℕ) → c < 4 → j < 64 → byte_in result c j ≡ bit_xor (byte_in a c j) (byte_in b c j) }
{
    Row {
        p0: a.p0 ^ b.p0,
        p1: a.p1 ^ b.p1,
        p2: a.p2 ^ b.p2,
        p3: a.p3 ^ b.p3,
        p4: a.p4 ^ b.p4,
        p5: a.p5 ^ b.p5,
        p6: a.p6 ^ b.p6,
        p7: a.p7 ^ b.p7,
    }
}

/// Each byte times two (FIPS 197, section 4.2.1).
#[inline(always)]
pub fn double(a: Row) -> Row
    requires { IsRow a }
    ensures lanes { IsRow result }
    ensures bytes { (c j : ℕ) → c < 4 → j < 64 → byte_in result c j ≡ gf_mul 2 (byte_in a c j) }
{
    Row {
        p0: a.p7,
        p1: a.p0 ^ a.p7,
        p2: a.p1,
        p3: a.p2 ^ a.p7,
        p4: a.p3 ^ a.p7,
        p5: a.p4,
        p6: a.p5,
        p7: a.p6,
    }
}

// The first part of InvMixColumns, whose matrix is that of MixColumns times this one: 5 times a byte, and 4
// times the byte two rows on.
#[inline(always)]
fn half_mixed(s: State) -> State
    requires { IsState s }
    ensures lanes { IsState result }
    ensures bytes { (c j : ℕ) → c < 4 → j < 64 → AreHalfMixed s result c j }
{
    let u = double(double(xor(s.r0, s.r2)));
    let w = double(double(xor(s.r1, s.r3)));
    State {
        r0: xor(s.r0, u),
        r1: xor(s.r1, w),
        r2: xor(s.r2, u),
        r3: xor(s.r3, w),
    }
}

/// MixColumns (FIPS 197, section 5.1.3).
#[inline(always)]
pub fn mix_columns(s: State) -> State
    requires { IsState s }
    ensures lanes { IsState result }
    ensures bytes { (c j : ℕ) → c < 4 → j < 64 → AreMixed s result c j }
    ensures blocks { (j : ℕ) → j < 64 → state_in result j ≡ mix_columns (state_in s j) }
{
    let s01 = xor(s.r0, s.r1);
    let s12 = xor(s.r1, s.r2);
    let s23 = xor(s.r2, s.r3);
    let s30 = xor(s.r3, s.r0);
    State {
        r0: xor(xor(double(s01), s.r1), s23),
        r1: xor(xor(double(s12), s.r2), s30),
        r2: xor(xor(double(s23), s.r3), s01),
        r3: xor(xor(double(s30), s.r0), s12),
    }
}

/// InvMixColumns (FIPS 197, section 5.3.3).
#[inline(always)]
pub fn inv_mix_columns(s: State) -> State
    requires { IsState s }
    ensures lanes { IsState result }
    ensures blocks { (j : ℕ) → j < 64 → state_in result j ≡ inv_mix_columns (state_in s j) }
{
    mix_columns(half_mixed(s))
}
