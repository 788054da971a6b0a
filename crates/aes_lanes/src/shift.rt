// ShiftRows and InvShiftRows.
ghost use Rattle.std.specs.Prelude.{◌≡◌, ℕ, ◌<◌};
ghost use Rattle.aes_block.specs.Aes.{inv_shift_rows, shift_rows};
ghost use Rattle.aes_lanes.specs.Planes.{IsRow, byte_in};
ghost use Rattle.aes_lanes.specs.States.{AreMoved, IsState, state_in};

use crate::lanes::{Row, State};
use std::simd::prelude::*;

// A row's columns, moved a place to the right.
#[inline(always)]
fn rotate_by_1(a: Row) -> Row
    requires { IsRow a }
    ensures lanes { IsRow result }
    ensures bytes { (j : ℕ) → AreMoved a result 3 0 1 2 j }
{
    Row {
        p0: a.p0.swizzle([3, 0, 1, 2]),
        p1: a.p1.swizzle([3, 0, 1, 2]),
        p2: a.p2.swizzle([3, 0, 1, 2]),
        p3: a.p3.swizzle([3, 0, 1, 2]),
        p4: a.p4.swizzle([3, 0, 1, 2]),
        p5: a.p5.swizzle([3, 0, 1, 2]),
        p6: a.p6.swizzle([3, 0, 1, 2]),
        p7: a.p7.swizzle([3, 0, 1, 2]),
    }
}

// A row's columns, moved two places to the right.
#[inline(always)]
fn rotate_by_2(a: Row) -> Row
    requires { IsRow a }
    ensures lanes { IsRow result }
    ensures bytes { (j : ℕ) → AreMoved a result 2 3 0 1 j }
{
    Row {
        p0: a.p0.swizzle([2, 3, 0, 1]),
        p1: a.p1.swizzle([2, 3, 0, 1]),
        p2: a.p2.swizzle([2, 3, 0, 1]),
        p3: a.p3.swizzle([2, 3, 0, 1]),
        p4: a.p4.swizzle([2, 3, 0, 1]),
        p5: a.p5.swizzle([2, 3, 0, 1]),
        p6: a.p6.swizzle([2, 3, 0, 1]),
        p7: a.p7.swizzle([2, 3, 0, 1]),
    }
}

// A row's columns, moved three places to the right.
#[inline(always)]
fn rotate_by_3(a: Row) -> Row
    requires { IsRow a }
    ensures lanes { IsRow result }
    ensures bytes { (j : ℕ) → AreMoved a result 1 2 3 0 j }
{
    Row {
        p0: a.p0.swizzle([1, 2, 3, 0]),
        p1: a.p1.swizzle([1, 2, 3, 0]),
        p2: a.p2.swizzle([1, 2, 3, 0]),
        p3: a.p3.swizzle([1, 2, 3, 0]),
        p4: a.p4.swizzle([1, 2, 3, 0]),
        p5: a.p5.swizzle([1, 2, 3, 0]),
        p6: a.p6.swizzle([1, 2, 3, 0]),
        p7: a.p7.swizzle([1, 2, 3, 0]),
    }
}

/// ShiftRows (FIPS 197, section 5.1.2).
#[inline(always)]
pub fn shift_rows(s: State) -> State
    requires { IsState s }
    ensures lanes { IsState result }
    ensures blocks { (j : ℕ) → j < 64 → state_in result j ≡ shift_rows (state_in s j) }
{
    State {
        r0: s.r0,
        r1: rotate_by_3(s.r1),
        r2: rotate_by_2(s.r2),
        r3: rotate_by_1(s.r3),
    }
}

/// InvShiftRows (FIPS 197, section 5.3.1).
#[inline(always)]
pub fn inv_shift_rows(s: State) -> State
    requires { IsState s }
    ensures lanes { IsState result }
    ensures blocks { (j : ℕ) → j < 64 → state_in result j ≡ inv_shift_rows (state_in s j) }
{
    State {
        r0: s.r0,
        r1: rotate_by_1(s.r1),
        r2: rotate_by_2(s.r2),
        r3: rotate_by_3(s.r3),
    }
}
