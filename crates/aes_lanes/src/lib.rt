//! AES-256 on 64 blocks at once (FIPS 197, sections 5.1 and 5.3), on planes of bits:
//! `encrypt_blocks(&aes, &text)`, `decrypt_blocks(&aes, &text)`, and `block_of(&blocks, j)` for each block of the result.
//!
//! It indexes no table by secret bytes. Fewer blocks take as long as 64.
#![tactic(auto)]

mod blocks;
mod inv_sbox;
mod keys;
mod lanes;
mod mix;
mod rounds;
mod sbox;
mod shift;
mod transpose;

pub use blocks::{block_of, decrypt_blocks, encrypt_blocks};
