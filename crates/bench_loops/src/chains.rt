// `cbc_decrypt` is compared with the tables, and timed.
//
// `cbc`: at each length of whole blocks from 0 to 8,192 bytes a text is decrypted by `cbc_decrypt`
// and, block after block, by `Aes256::decrypt`, each length with a key, an IV and a text of its own.
// It prints the number of lengths and at how many the two differ.
//
// `cbc BYTES ENCRYPTIONS DECRYPTIONS TABLES`: a text of BYTES zeros (rounded down to whole blocks, at
// most 8,192) is encrypted, decrypted, and decrypted by the tables so many times, each time from what the
// last gave. After each of the three it prints the text's last block.
ghost use Rattle.std.specs.Prelude.{◌≡◌, ◌≤◌, ◌%◌, length};

use crate::words::number;
use aes_block::Aes256;
use cbc_mode::{cbc_decrypt, cbc_encrypt};
use std::io;

const MOST: usize = 8192;

// The key and the IV of NIST SP 800-38A, appendix F.2.5.
const KEY: [u8; 32] = [
    0x60, 0x3d, 0xeb, 0x10, 0x15, 0xca, 0x71, 0xbe, 0x2b, 0x73, 0xae, 0xf0, 0x85, 0x7d, 0x77, 0x81,
    0x1f, 0x35, 0x2c, 0x07, 0x3b, 0x61, 0x08, 0xd7, 0x2d, 0x98, 0x10, 0xa3, 0x09, 0x14, 0xdf, 0xf4,
];

const IV: [u8; 16] = [0, 1, 2, 3, 4, 5, 6, 7, 8, 9, 10, 11, 12, 13, 14, 15];

// A length of whole blocks, at most MOST.
fn whole(bytes: u64) -> usize
    ensures whole { result % 16 ≡ 0 }
    ensures most { result ≤ MOST }
{
    let bytes = bytes.min(MOST as u64) as usize;
    bytes / 16 * 16
}

fn encrypt(aes: &Aes256, text: &mut [u8], times: u64)
    requires { length text.old % 16 ≡ 0 }
{
    for _ in 0..times {
        cbc_encrypt(aes, &IV, text);
    }
}

fn decrypt(aes: &Aes256, text: &mut [u8], times: u64)
    requires { length text.old % 16 ≡ 0 }
{
    for _ in 0..times {
        cbc_decrypt(aes, &IV, text);
    }
}

// CBC decryption (NIST SP 800-38A, section 6.2), a block after another.
fn decrypt_by_tables(aes: &Aes256, iv: &[u8; 16], text: &mut [u8])
    requires { length text.old % 16 ≡ 0 }
{
    let mut before = u128::from_le_bytes(*iv);
    'decryption: for i in 0..text.len() / 16 {
        let mut block = [0u8; 16];
        block.copy_from_slice(&text[16 * i..16 * i + 16]);
        let stored = u128::from_le_bytes(block);
        aes.decrypt(&mut block);
        let plain = u128::from_le_bytes(block) ^ before;
        text[16 * i..16 * i + 16].copy_from_slice(&plain.to_le_bytes());
        before = stored;
    }
}

fn decrypt_by_tables_again(aes: &Aes256, text: &mut [u8], times: u64)
    requires { length text.old % 16 ≡ 0 }
{
    for _ in 0..times {
        decrypt_by_tables(aes, &IV, text);
    }
}

// The next number of SplitMix64.
fn next(state: &mut u64) -> u64 {
    *state = state.wrapping_add(0x9e37_79b9_7f4a_7c15);
    let x = (*state ^ (*state >> 30)).wrapping_mul(0xbf58_476d_1ce4_e5b9);
    let y = (x ^ (x >> 27)).wrapping_mul(0x94d0_49bb_1331_11eb);
    y ^ (y >> 31)
}

fn fill(bytes: &mut [u8], state: &mut u64) {
    for i in 0..bytes.len() {
        bytes[i] = (next(state) >> 56) as u8;
    }
}

// Whether both ways give the same text.
fn same_at(bytes: usize, state: &mut u64) -> bool
    requires whole { bytes % 16 ≡ 0 }
    requires most { bytes ≤ MOST }
{
    let mut key = [0u8; 32];
    let mut iv = [0u8; 16];
    let mut text = [0u8; MOST];
    fill(&mut key, state);
    fill(&mut iv, state);
    fill(&mut text[..bytes], state);
    let mut by_tables = text;
    let aes = Aes256::new(&key);
    cbc_decrypt(&aes, &iv, &mut text[..bytes]);
    decrypt_by_tables(&aes, &iv, &mut by_tables[..bytes]);
    text == by_tables
}

fn compare(rt: &HostRuntime) -> io::Result<()> {
    let mut state = 1;
    let mut differ = 0usize;
    for blocks in 0..MOST / 16 + 1 {
        if !same_at(16 * blocks, &mut state) {
            differ = differ.saturating_add(1);
        }
    }
    println!(rt; "{} lengths, {} differ", MOST / 16 + 1, differ)
}

fn last_block(text: &[u8]) -> u128 {
    let mut block = [0u8; 16];
    if text.len() >= 16 {
        block.copy_from_slice(&text[text.len() - 16..]);
    }
    u128::from_be_bytes(block)
}

/// Runs the loop by its words, and prints what it says.
pub fn run(rt: &HostRuntime, words: &Vec<String>) -> io::Result<()> {
    if words.len() < 3 {
        return compare(rt);
    }
    let bytes = whole(number(words, 2, 0));
    let aes = Aes256::new(&KEY);
    let mut text = [0u8; MOST];
    let text = &mut text[..bytes];
    encrypt(&aes, text, number(words, 3, 0));
    println!(rt; "{:032x}", last_block(text))?;
    decrypt(&aes, text, number(words, 4, 0));
    println!(rt; "{:032x}", last_block(text))?;
    decrypt_by_tables_again(&aes, text, number(words, 5, 0));
    println!(rt; "{:032x}", last_block(text))?;
    Ok(())
}
