// Planes of bits. The states of 64 blocks are 32 vectors: one for each row of the state and each bit of a
// byte. A vector has four lanes, one for each column, and bit j of a lane is of block j.
use std::simd::prelude::*;

/// One bit of each byte in a row, for 64 blocks: lane c is column c, and bit j of a lane is block j.
pub type Lanes = u64x4;

/// A row of the states: plane i holds bit i of each byte.
#[derive(Clone, Copy)]
pub struct Row {
    pub p0: Lanes,
    pub p1: Lanes,
    pub p2: Lanes,
    pub p3: Lanes,
    pub p4: Lanes,
    pub p5: Lanes,
    pub p6: Lanes,
    pub p7: Lanes,
}

/// The rows of the states of 64 blocks.
#[derive(Clone, Copy)]
pub struct State {
    pub r0: Row,
    pub r1: Row,
    pub r2: Row,
    pub r3: Row,
}
