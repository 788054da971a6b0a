// Blocks to planes of bits and back: the matrix of 32 by 32 bits in each half of a lane is transposed, by
// exchanges at a distance of 1, 2, 4, 8 and 16.
ghost use Rattle.std.specs.Prelude.{◌≡◌, ℕ, ◌<◌, length};
ghost use Rattle.aes_lanes.specs.Planes.{IsRow};
ghost use Rattle.aes_lanes.specs.States.{IsState};
ghost use Rattle.aes_lanes.specs.Transposed.{AreSwapped, AreTransposed, AreTransposedFour, AreTransposedRow, IsFour};

use crate::lanes::{Lanes, Row, State};
use std::simd::prelude::*;

/// Two vectors.
#[derive(Clone, Copy)]
pub struct Pair {
    pub a: Lanes,
    pub b: Lanes,
}

/// Four vectors.
#[derive(Clone, Copy)]
pub struct Four {
    pub a: Lanes,
    pub b: Lanes,
    pub c: Lanes,
    pub d: Lanes,
}

// Exchanges bit k + 1 of the first with bit k of the second, where k is even.
#[inline(always)]
fn swap1(a: Lanes, b: Lanes) -> Pair
    requires first { length a ≡ 4 }
    requires second { length b ≡ 4 }
    ensures { AreSwapped 1 a b result.a result.b }
{
    let t = ((a >> Lanes::splat(1)) ^ b) & Lanes::splat(0x5555_5555_5555_5555);
    Pair {
        a: a ^ (t << Lanes::splat(1)),
        b: b ^ t,
    }
}

// Exchanges bit k + 2 of the first with bit k of the second, where k / 2 is even.
#[inline(always)]
fn swap2(a: Lanes, b: Lanes) -> Pair
    requires first { length a ≡ 4 }
    requires second { length b ≡ 4 }
    ensures { AreSwapped 2 a b result.a result.b }
{
    let t = ((a >> Lanes::splat(2)) ^ b) & Lanes::splat(0x3333_3333_3333_3333);
    Pair {
        a: a ^ (t << Lanes::splat(2)),
        b: b ^ t,
    }
}

// Exchanges bit k + 4 of the first with bit k of the second, where k / 4 is even.
#[inline(always)]
fn swap4(a: Lanes, b: Lanes) -> Pair
    requires first { length a ≡ 4 }
    requires second { length b ≡ 4 }
    ensures { AreSwapped 4 a b result.a result.b }
{
    let t = ((a >> Lanes::splat(4)) ^ b) & Lanes::splat(0x0f0f_0f0f_0f0f_0f0f);
    Pair {
        a: a ^ (t << Lanes::splat(4)),
        b: b ^ t,
    }
}

// Exchanges bit k + 8 of the first with bit k of the second, where k / 8 is even.
#[inline(always)]
fn swap8(a: Lanes, b: Lanes) -> Pair
    requires first { length a ≡ 4 }
    requires second { length b ≡ 4 }
    ensures { AreSwapped 8 a b result.a result.b }
{
    let t = ((a >> Lanes::splat(8)) ^ b) & Lanes::splat(0x00ff_00ff_00ff_00ff);
    Pair {
        a: a ^ (t << Lanes::splat(8)),
        b: b ^ t,
    }
}

// Exchanges bit k + 16 of the first with bit k of the second, where k / 16 is even.
#[inline(always)]
fn swap16(a: Lanes, b: Lanes) -> Pair
    requires first { length a ≡ 4 }
    requires second { length b ≡ 4 }
    ensures { AreSwapped 16 a b result.a result.b }
{
    let t = ((a >> Lanes::splat(16)) ^ b) & Lanes::splat(0x0000_ffff_0000_ffff);
    Pair {
        a: a ^ (t << Lanes::splat(16)),
        b: b ^ t,
    }
}

// The matrix of 8 by 8 bits in each byte of the lanes.
#[inline(always)]
fn transpose_row(v: Row) -> Row
    requires { IsRow v }
    ensures lanes { IsRow result }
    ensures bits { (c : ℕ) → c < 4 → AreTransposedRow v result c }
{
    let s = swap1(v.p0, v.p1);
    let t = swap1(v.p2, v.p3);
    let u = swap1(v.p4, v.p5);
    let w = swap1(v.p6, v.p7);
    let x = swap2(s.a, t.a);
    let y = swap2(s.b, t.b);
    let z = swap2(u.a, w.a);
    let q = swap2(u.b, w.b);
    let k = swap4(x.a, z.a);
    let l = swap4(y.a, q.a);
    let m = swap4(x.b, z.b);
    let n = swap4(y.b, q.b);
    Row {
        p0: k.a,
        p1: l.a,
        p2: m.a,
        p3: n.a,
        p4: k.b,
        p5: l.b,
        p6: m.b,
        p7: n.b,
    }
}

// The matrix of 4 by 4 bytes in each half of the lanes.
#[inline(always)]
fn transpose_four(v: Four) -> Four
    requires { IsFour v }
    ensures lanes { IsFour result }
    ensures bits { (c : ℕ) → c < 4 → AreTransposedFour v result c }
{
    let s = swap8(v.a, v.b);
    let t = swap8(v.c, v.d);
    let x = swap16(s.a, t.a);
    let y = swap16(s.b, t.b);
    Four {
        a: x.a,
        b: y.a,
        c: x.b,
        d: y.b,
    }
}

/// The matrix of 32 by 32 bits in each half of the lanes.
pub fn transpose(s: State) -> State
    requires { IsState s }
    ensures lanes { IsState result }
    ensures bits { (c : ℕ) → c < 4 → AreTransposed s result c }
{
    let f0 = transpose_four(Four {
        a: s.r0.p0,
        b: s.r1.p0,
        c: s.r2.p0,
        d: s.r3.p0,
    });
    let f1 = transpose_four(Four {
        a: s.r0.p1,
        b: s.r1.p1,
        c: s.r2.p1,
        d: s.r3.p1,
    });
    let f2 = transpose_four(Four {
        a: s.r0.p2,
        b: s.r1.p2,
        c: s.r2.p2,
        d: s.r3.p2,
    });
    let f3 = transpose_four(Four {
        a: s.r0.p3,
        b: s.r1.p3,
        c: s.r2.p3,
        d: s.r3.p3,
    });
    let f4 = transpose_four(Four {
        a: s.r0.p4,
        b: s.r1.p4,
        c: s.r2.p4,
        d: s.r3.p4,
    });
    let f5 = transpose_four(Four {
        a: s.r0.p5,
        b: s.r1.p5,
        c: s.r2.p5,
        d: s.r3.p5,
    });
    let f6 = transpose_four(Four {
        a: s.r0.p6,
        b: s.r1.p6,
        c: s.r2.p6,
        d: s.r3.p6,
    });
    let f7 = transpose_four(Four {
        a: s.r0.p7,
        b: s.r1.p7,
        c: s.r2.p7,
        d: s.r3.p7,
    });
    State {
        r0: transpose_row(Row {
            p0: f0.a,
            p1: f1.a,
            p2: f2.a,
            p3: f3.a,
            p4: f4.a,
            p5: f5.a,
            p6: f6.a,
            p7: f7.a,
        }),
        r1: transpose_row(Row {
            p0: f0.b,
            p1: f1.b,
            p2: f2.b,
            p3: f3.b,
            p4: f4.b,
            p5: f5.b,
            p6: f6.b,
            p7: f7.b,
        }),
        r2: transpose_row(Row {
            p0: f0.c,
            p1: f1.c,
            p2: f2.c,
            p3: f3.c,
            p4: f4.c,
            p5: f5.c,
            p6: f6.c,
            p7: f7.c,
        }),
        r3: transpose_row(Row {
            p0: f0.d,
            p1: f1.d,
            p2: f2.d,
            p3: f3.d,
            p4: f4.d,
            p5: f5.d,
            p6: f6.d,
            p7: f7.d,
        }),
    }
}
