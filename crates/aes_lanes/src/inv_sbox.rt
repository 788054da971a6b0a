// The inverse S-box (FIPS 197, section 5.3.2) as gates on planes of bits: sums of the input's bits, an
// inversion in the field of 16 elements between products, and sums of those products. The division into
// these steps is that of Boyar and Peralta's circuits.
ghost use Rattle.std.specs.Prelude.{◌≡◌, ℕ, ◌<◌};
ghost use Rattle.aes_block.specs.Field.{inv_sub_byte};
ghost use Rattle.aes_lanes.specs.Gates.{differences_of, gathered_of, inverted_of, multiplied_of, summed_of};
ghost use Rattle.aes_lanes.specs.Planes.{IsRow, byte_in, row_bits};
ghost use Rattle.aes_lanes.specs.Steps.{AreProducts, AreSums, IsQuartet, product_bits, quartet_bits, sum_bits};

use crate::lanes::{Lanes, Row};

/// The sums of a byte's bits that the products take.
#[derive(Clone, Copy)]
pub struct Sums {
    pub x7: Lanes,
    pub y1: Lanes,
    pub y2: Lanes,
    pub y3: Lanes,
    pub y4: Lanes,
    pub y5: Lanes,
    pub y6: Lanes,
    pub y7: Lanes,
    pub y8: Lanes,
    pub y9: Lanes,
    pub y10: Lanes,
    pub y11: Lanes,
    pub y12: Lanes,
    pub y13: Lanes,
    pub y14: Lanes,
    pub y15: Lanes,
    pub y16: Lanes,
    pub y17: Lanes,
    pub y18: Lanes,
    pub y19: Lanes,
    pub y20: Lanes,
    pub y21: Lanes,
}

/// An element of the field of 16 elements.
#[derive(Clone, Copy)]
pub struct Quartet {
    pub a: Lanes,
    pub b: Lanes,
    pub c: Lanes,
    pub d: Lanes,
}

/// The products that the result's bits are sums of.
#[derive(Clone, Copy)]
pub struct Products {
    pub z0: Lanes,
    pub z1: Lanes,
    pub z2: Lanes,
    pub z3: Lanes,
    pub z4: Lanes,
    pub z5: Lanes,
    pub z6: Lanes,
    pub z7: Lanes,
    pub z8: Lanes,
    pub z9: Lanes,
    pub z10: Lanes,
    pub z11: Lanes,
    pub z12: Lanes,
    pub z13: Lanes,
    pub z14: Lanes,
    pub z15: Lanes,
    pub z16: Lanes,
    pub z17: Lanes,
}

/// The sums of the input's bits. The inverse of the affine transformation adds 63 first.
#[inline(always)]
pub fn summed(v: Row) -> Sums
    requires { IsRow v }
    ensures lanes { AreSums result }
    ensures bits { (c j : ℕ) → c < 4 → j < 64 → sum_bits result c j ≡ summed_of (row_bits v c j) }
{
    let ones = Lanes::splat(u64::MAX);
    let q0 = v.p0 ^ ones;
    let q1 = v.p1 ^ ones;
    let q2 = v.p2;
    let q3 = v.p3;
    let q4 = v.p4;
    let q5 = v.p5 ^ ones;
    let q6 = v.p6 ^ ones;
    let q7 = v.p7;
    let y5 = q4 ^ q6;
    let a1 = q0 ^ q1;
    let y9 = q3 ^ q4;
    let a3 = q3 ^ q6;
    let a4 = q2 ^ q7;
    let y4 = y5 ^ a1;
    let a6 = q5 ^ y5;
    let y2 = a1 ^ a3;
    let y8 = q6 ^ q7;
    let y6 = q7 ^ y5;
    let y1 = q0 ^ y9;
    let a11 = q0 ^ a3;
    let y18 = q5 ^ y9;
    let y19 = q0 ^ q3;
    let y11 = a4 ^ y4;
    let a15 = q1 ^ a3;
    let y10 = q7 ^ a11;
    let a17 = q2 ^ y9;
    let y17 = q1 ^ a17;
    let x7 = q5 ^ a4;
    let y13 = a1 ^ y9;
    let y16 = q5 ^ a15;
    let y3 = q4 ^ q7;
    let y7 = q5 ^ y4;
    let y21 = q0 ^ a6;
    let y12 = a1 ^ y8;
    let y20 = a4 ^ y2;
    let y15 = q2 ^ a6;
    let y14 = q3 ^ y6;
    Sums {
        x7,
        y1,
        y2,
        y3,
        y4,
        y5,
        y6,
        y7,
        y8,
        y9,
        y10,
        y11,
        y12,
        y13,
        y14,
        y15,
        y16,
        y17,
        y18,
        y19,
        y20,
        y21,
    }
}

/// What is to be inverted.
#[inline(always)]
pub fn differences(v: Sums) -> Quartet
    requires { AreSums v }
    ensures lanes { IsQuartet result }
    ensures bits { (c j : ℕ) → c < 4 → j < 64 → quartet_bits result c j ≡ differences_of (sum_bits v c j) }
{
    let x7 = v.x7;
    let y1 = v.y1;
    let y2 = v.y2;
    let y3 = v.y3;
    let y4 = v.y4;
    let y5 = v.y5;
    let y6 = v.y6;
    let y7 = v.y7;
    let y8 = v.y8;
    let y9 = v.y9;
    let y10 = v.y10;
    let y11 = v.y11;
    let y12 = v.y12;
    let y13 = v.y13;
    let y14 = v.y14;
    let y15 = v.y15;
    let y16 = v.y16;
    let y17 = v.y17;
    let y18 = v.y18;
    let y19 = v.y19;
    let y20 = v.y20;
    let y21 = v.y21;
    let t2 = y12 & y15;
    let t3 = y3 & y6;
    let t4 = t3 ^ t2;
    let t5 = y4 & x7;
    let t6 = t5 ^ t2;
    let t7 = y13 & y16;
    let t8 = y5 & y1;
    let t9 = t8 ^ t7;
    let t10 = y2 & y7;
    let t11 = t10 ^ t7;
    let t12 = y9 & y11;
    let t13 = y14 & y17;
    let t14 = t13 ^ t12;
    let t15 = y8 & y10;
    let t16 = t15 ^ t12;
    let t17 = t4 ^ t14;
    let t18 = t6 ^ t16;
    let t19 = t9 ^ t14;
    let t20 = t11 ^ t16;
    let t21 = t17 ^ y20;
    let t22 = t18 ^ y19;
    let t23 = t19 ^ y21;
    let t24 = t20 ^ y18;
    Quartet {
        a: t21,
        b: t22,
        c: t23,
        d: t24,
    }
}

/// The inverse.
#[inline(always)]
pub fn inverted(v: Quartet) -> Quartet
    requires { IsQuartet v }
    ensures lanes { IsQuartet result }
    ensures bits { (c j : ℕ) → c < 4 → j < 64 → quartet_bits result c j ≡ inverted_of (quartet_bits v c j) }
{
    let t21 = v.a;
    let t22 = v.b;
    let t23 = v.c;
    let t24 = v.d;
    let t25 = t21 ^ t22;
    let t26 = t21 & t23;
    let t27 = t24 ^ t26;
    let t28 = t25 & t27;
    let t29 = t28 ^ t22;
    let t30 = t23 ^ t24;
    let t31 = t22 ^ t26;
    let t32 = t31 & t30;
    let t33 = t32 ^ t24;
    let t34 = t23 ^ t33;
    let t35 = t27 ^ t33;
    let t36 = t24 & t35;
    let t37 = t36 ^ t34;
    let t38 = t27 ^ t36;
    let t39 = t29 & t38;
    let t40 = t25 ^ t39;
    Quartet {
        a: t29,
        b: t33,
        c: t37,
        d: t40,
    }
}

/// The products with the inverse.
#[inline(always)]
pub fn multiplied(v: Sums, by: Quartet) -> Products
    requires sums { AreSums v }
    requires inverse { IsQuartet by }
    ensures lanes { AreProducts result }
    ensures bits { (c j : ℕ) → c < 4 → j < 64 → product_bits result c j ≡ multiplied_of (sum_bits v c j) (quartet_bits by c j) }
{
    let x7 = v.x7;
    let y1 = v.y1;
    let y2 = v.y2;
    let y3 = v.y3;
    let y4 = v.y4;
    let y5 = v.y5;
    let y6 = v.y6;
    let y7 = v.y7;
    let y8 = v.y8;
    let y9 = v.y9;
    let y10 = v.y10;
    let y11 = v.y11;
    let y12 = v.y12;
    let y13 = v.y13;
    let y14 = v.y14;
    let y15 = v.y15;
    let y16 = v.y16;
    let y17 = v.y17;
    let y18 = v.y18;
    let y19 = v.y19;
    let y20 = v.y20;
    let y21 = v.y21;
    let t29 = by.a;
    let t33 = by.b;
    let t37 = by.c;
    let t40 = by.d;
    let t41 = t40 ^ t37;
    let t42 = t29 ^ t33;
    let t43 = t29 ^ t40;
    let t44 = t33 ^ t37;
    let t45 = t42 ^ t41;
    let z0 = t44 & y15;
    let z1 = t37 & y6;
    let z2 = t33 & x7;
    let z3 = t43 & y16;
    let z4 = t40 & y1;
    let z5 = t29 & y7;
    let z6 = t42 & y11;
    let z7 = t45 & y17;
    let z8 = t41 & y10;
    let z9 = t44 & y12;
    let z10 = t37 & y3;
    let z11 = t33 & y4;
    let z12 = t43 & y13;
    let z13 = t40 & y5;
    let z14 = t29 & y2;
    let z15 = t42 & y9;
    let z16 = t45 & y14;
    let z17 = t41 & y8;
    Products {
        z0,
        z1,
        z2,
        z3,
        z4,
        z5,
        z6,
        z7,
        z8,
        z9,
        z10,
        z11,
        z12,
        z13,
        z14,
        z15,
        z16,
        z17,
    }
}

/// The sums of the products.
#[inline(always)]
pub fn gathered(v: Products) -> Row
    requires { AreProducts v }
    ensures lanes { IsRow result }
    ensures bits { (c j : ℕ) → c < 4 → j < 64 → row_bits result c j ≡ gathered_of (product_bits v c j) }
{
    let z0 = v.z0;
    let z1 = v.z1;
    let z2 = v.z2;
    let z3 = v.z3;
    let z4 = v.z4;
    let z5 = v.z5;
    let z6 = v.z6;
    let z7 = v.z7;
    let z8 = v.z8;
    let z9 = v.z9;
    let z10 = v.z10;
    let z11 = v.z11;
    let z12 = v.z12;
    let z13 = v.z13;
    let z14 = v.z14;
    let z15 = v.z15;
    let z16 = v.z16;
    let z17 = v.z17;
    let g0 = z6 ^ z15;
    let g1 = z13 ^ g0;
    let g2 = z12 ^ g1;
    let g3 = z16 ^ g2;
    let g4 = z3 ^ z4;
    let g5 = z8 ^ g3;
    let g6 = z2 ^ z10;
    let g7 = z1 ^ g4;
    let g8 = z4 ^ z5;
    let g9 = z9 ^ z17;
    let g10 = z8 ^ g6;
    let g11 = z14 ^ g10;
    let g12 = z0 ^ g5;
    let g13 = g7 ^ g11;
    let g14 = z11 ^ g13;
    let g15 = z16 ^ g0;
    let g16 = z1 ^ g8;
    let g17 = z0 ^ g8;
    let g18 = z17 ^ g2;
    let g19 = g1 ^ g9;
    let g20 = z12 ^ g15;
    let g21 = z3 ^ g5;
    let g22 = z15 ^ g9;
    let g23 = g6 ^ g18;
    let g24 = z7 ^ z11;
    let g25 = z7 ^ g3;
    let g26 = g23 ^ g24;
    let r6 = g13 ^ g19;
    let r7 = z5 ^ g21;
    let r2 = g12 ^ g16;
    let r4 = z2 ^ g12;
    let r0 = z11 ^ g22;
    let r1 = g4 ^ g25;
    let r5 = g14 ^ g20;
    let r3 = g17 ^ g26;
    Row {
        p0: r0,
        p1: r1,
        p2: r2,
        p3: r3,
        p4: r4,
        p5: r5,
        p6: r6,
        p7: r7,
    }
}

/// InvSubBytes (FIPS 197, section 5.3.2).
#[inline(always)]
pub fn inv_sub_row(v: Row) -> Row
    requires { IsRow v }
    ensures lanes { IsRow result }
    ensures bytes { (c j : ℕ) → c < 4 → j < 64 → byte_in result c j ≡ inv_sub_byte (byte_in v c j) }
{
    let sums = summed(v);
    gathered(multiplied(sums, inverted(differences(sums))))
}
