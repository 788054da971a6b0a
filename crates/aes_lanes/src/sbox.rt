// The S-box (FIPS 197, section 5.1.1) as gates on planes of bits. It has the products and the inversion of
// the inverse S-box between other sums of the input's bits and other sums of the products.
ghost use Rattle.std.specs.Prelude.{◌≡◌, ℕ, ◌<◌};
ghost use Rattle.aes_block.specs.Field.{sub_byte};
ghost use Rattle.aes_lanes.specs.Gates.{input_sums_of, output_sums_of};
ghost use Rattle.aes_lanes.specs.Planes.{IsRow, byte_in, row_bits};
ghost use Rattle.aes_lanes.specs.Steps.{AreProducts, AreSums, product_bits, sum_bits};

use crate::inv_sbox::{Products, Sums, differences, inverted, multiplied};
use crate::lanes::{Lanes, Row};

// The sums of the input's bits.
#[inline(always)]
fn input_sums(v: Row) -> Sums
    requires { IsRow v }
    ensures lanes { AreSums result }
    ensures bits { (c j : ℕ) → c < 4 → j < 64 → sum_bits result c j ≡ input_sums_of (row_bits v c j) }
{
    let q0 = v.p0;
    let q1 = v.p1;
    let q2 = v.p2;
    let q3 = v.p3;
    let q4 = v.p4;
    let q5 = v.p5;
    let q6 = v.p6;
    let q7 = v.p7;
    let y14 = q4 ^ q2;
    let y13 = q7 ^ q1;
    let y9 = q7 ^ q4;
    let y8 = q7 ^ q2;
    let a0 = q6 ^ q5;
    let y1 = a0 ^ q0;
    let y4 = y1 ^ q4;
    let y12 = y13 ^ y14;
    let y2 = y1 ^ q7;
    let y5 = y1 ^ q1;
    let y3 = y5 ^ y8;
    let a1 = q3 ^ y12;
    let y15 = a1 ^ q2;
    let y20 = a1 ^ q6;
    let y6 = y15 ^ q0;
    let y10 = y15 ^ a0;
    let y11 = y20 ^ y9;
    let y7 = q0 ^ y11;
    let y17 = y10 ^ y11;
    let y19 = y10 ^ y8;
    let y16 = a0 ^ y11;
    let y21 = y13 ^ y16;
    let y18 = q7 ^ y16;
    Sums {
        x7: q0,
        y1,
        y2,
        y3,
        y4,
        y5,
        y6,
        y7,
        y8,
        y9,
        y10,
        y11,
        y12,
        y13,
        y14,
        y15,
        y16,
        y17,
        y18,
        y19,
        y20,
        y21,
    }
}

// The sums of the products. The affine transformation adds 63 last.
#[inline(always)]
fn output_sums(v: Products) -> Row
    requires { AreProducts v }
    ensures lanes { IsRow result }
    ensures bits { (c j : ℕ) → c < 4 → j < 64 → row_bits result c j ≡ output_sums_of (product_bits v c j) }
{
    let ones = Lanes::splat(u64::MAX);
    let z0 = v.z0;
    let z1 = v.z1;
    let z2 = v.z2;
    let z3 = v.z3;
    let z4 = v.z4;
    let z5 = v.z5;
    let z6 = v.z6;
    let z7 = v.z7;
    let z8 = v.z8;
    let z9 = v.z9;
    let z10 = v.z10;
    let z11 = v.z11;
    let z12 = v.z12;
    let z13 = v.z13;
    let z14 = v.z14;
    let z15 = v.z15;
    let z16 = v.z16;
    let z17 = v.z17;
    let g0 = z15 ^ z16;
    let g1 = z10 ^ z11;
    let g2 = z5 ^ z13;
    let g3 = z9 ^ z10;
    let g4 = z2 ^ z12;
    let g5 = z2 ^ z5;
    let g6 = z7 ^ z8;
    let g7 = z0 ^ z3;
    let g8 = z6 ^ z7;
    let g9 = z16 ^ z17;
    let g10 = z12 ^ g2;
    let g11 = g4 ^ g7;
    let g12 = z4 ^ g0;
    let g13 = z3 ^ g8;
    let g14 = g0 ^ g11;
    let g15 = z14 ^ g11;
    let g16 = g6 ^ g12;
    let g17 = g3 ^ g12;
    let g18 = z4 ^ g13;
    let g19 = g15 ^ g16;
    let g20 = z1 ^ g17;
    let n7 = g13 ^ g17;
    let n1 = g10 ^ g16;
    let n0 = g2 ^ g14;
    let g21 = g18 ^ g19;
    let n4 = g7 ^ g20;
    let n3 = g5 ^ g20;
    let n2 = g1 ^ g19;
    let n6 = g18 ^ n4;
    let n5 = g9 ^ g21;
    Row {
        p0: n0 ^ ones,
        p1: n1 ^ ones,
        p2: n2,
        p3: n3,
        p4: n4,
        p5: n5 ^ ones,
        p6: n6 ^ ones,
        p7: n7,
    }
}

/// SubBytes (FIPS 197, section 5.1.1).
#[inline(always)]
pub fn sub_row(v: Row) -> Row
    requires { IsRow v }
    ensures lanes { IsRow result }
    ensures bytes { (c j : ℕ) → c < 4 → j < 64 → byte_in result c j ≡ sub_byte (byte_in v c j) }
{
    let sums = input_sums(v);
    output_sums(multiplied(sums, inverted(differences(sums))))
}
