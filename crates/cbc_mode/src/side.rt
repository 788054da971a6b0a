// Texts of one length that are encrypted side by side: a block of each at a time, 64 at once by planes.
//
// The texts stand in records of one length. A record begins with a text, and the block after the text is its IV.
ghost use Rattle.std.specs.Prelude.{◌≡◌, ◌≢◌, ℕ, ◌+◌, ◌*◌, ◌<◌, ◌≤◌, length};
ghost use Rattle.aes_block.specs.Aes.{xor_bytes};
ghost use Rattle.aes_block.specs.Blocks.{block_at};
ghost use Rattle.aes_lanes.specs.Blocks.{block_in};
ghost use Rattle.cbc_mode.specs.Records.{encrypted_record, cbc_text_at};

use crate::block::Block;
use aes_block::Aes256;
use aes_lanes::{block_of, encrypt_blocks};
use std::simd::prelude::*;

/// Encrypts the texts of at most 64 records, each under its own IV. A record has `stride` blocks: `text` blocks of text, the
/// IV, and others, which stay as they are. It takes as long for one record as for 64.
pub fn cbc_encrypt_records(
    aes: &Aes256,
    text: usize,
    stride: usize,
    count: usize,
    records: &mut [u8],
)
    requires iv { text < stride }
    requires most { count ≤ 64 }
    requires size { length records.old ≡ 16 * (stride * count) }
    ensures size { length records.new ≡ length records.old }
    ensures value { (i : ℕ) → i < count → cbc_text_at stride records.new i ≡ encrypted_record aes.now text (cbc_text_at stride records.old i) }
{
    let mut last = [0u8; 1024];
    take_column(records, stride, count, text, &mut last);
    'columns: for j in 0..text {
        add_column(records, stride, count, j, &mut last);
        let blocks = encrypt_blocks(aes, &last);
        put_column(&blocks, stride, count, j, records, &mut last);
    }
}

// Block `j` of each record.
#[inline(always)]
fn take_column(records: &[u8], stride: usize, count: usize, j: usize, last: &mut [u8])
    requires column { j < stride }
    requires most { count ≤ 64 }
    requires size { length records.now ≡ 16 * (stride * count) }
    requires last { length last.old ≡ 1024 }
    ensures last { length last.new ≡ 1024 }
    ensures blocks { (i : ℕ) → i < count → block_at last.new i ≡ block_at records.now (stride * i + j) }
{
    'rows: for i in 0..count {
        Block::at(records, stride * i + j).put(last, i);
    }
}

// Adds block `j` of each record to what there is.
#[inline(always)]
fn add_column(records: &[u8], stride: usize, count: usize, j: usize, last: &mut [u8])
    requires column { j < stride }
    requires most { count ≤ 64 }
    requires size { length records.now ≡ 16 * (stride * count) }
    requires last { length last.old ≡ 1024 }
    ensures last { length last.new ≡ 1024 }
    ensures blocks { (i : ℕ) → i < count → block_at last.new i ≡ xor_bytes (block_at records.now (stride * i + j)) (block_at last.old i) }
{
    'rows: for i in 0..count {
        let sum = Block::at(records, stride * i + j).xor(Block::at(last, i));
        sum.put(last, i);
    }
}

// Replaces block `j` of each record, and keeps it.
#[inline(always)]
fn put_column(
    blocks: &[u64x4; 32],
    stride: usize,
    count: usize,
    j: usize,
    records: &mut [u8],
    last: &mut [u8],
)
    requires column { j < stride }
    requires most { count ≤ 64 }
    requires size { length records.old ≡ 16 * (stride * count) }
    requires last { length last.old ≡ 1024 }
    ensures last { length last.new ≡ 1024 }
    ensures size { length records.new ≡ length records.old }
    ensures kept { (i : ℕ) → i < count → block_at last.new i ≡ block_in blocks.now i }
    ensures put { (i : ℕ) → i < count → block_at records.new (stride * i + j) ≡ block_in blocks.now i }
    ensures others { (k : ℕ) → 16 * k + 16 ≤ length records.old → ((i : ℕ) → i < count → k ≢ stride * i + j)
        → block_at records.new k ≡ block_at records.old k }
{
    'rows: for i in 0..count {
        let bytes = block_of(blocks, i);
        let block = Block::at(&bytes, 0);
        block.put(last, i);
        block.put(records, stride * i + j);
    }
}
