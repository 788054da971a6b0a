// HMAC with SHA-512 (RFC 2104, section 2) of four messages of one length.
ghost use Rattle.std.specs.Prelude.{◌≡◌, ℕ, ◌+◌, ◌*◌, ◌<◌, ◌≤◌, length};
ghost use Rattle.sha2.specs.Sha512.{hash_after, initial_hash_512, sha512};
ghost use Rattle.hmac_core.specs.Hmac.{hmac_of_block, key_block, xor_each};
ghost use Rattle.hash_lanes.specs.Messages.{message, piece};

use crate::block::absorb;
use crate::constants::INITIAL_HASH;
use crate::message::{digests, finished, first_of_four, spread};
use std::marker::Model;

const BLOCK: usize = 128;

// The inner and the outer key are the key block, each byte exclusive or one of these.
const IPAD: u8 = 0x36;

const OPAD: u8 = 0x5c;

// A key that is no longer than a block, filled up to one.
fn key_block(key: &[u8]) -> [u8; 128]
    requires { length key.now ≤ 128 }
    ensures { result ≡ key_block sha512 128 key.now }
{
    let mut block = [0u8; 128];
    block[..key.len()].copy_from_slice(key);
    block
}

// Each byte, exclusive or one byte.
fn xor_each(byte: u8, block: &[u8; 128]) -> [u8; 128]
    ensures { result ≡ xor_each byte block.now }
{
    let mut out = [0u8; 128];
    for i in 0..BLOCK {
        out[i] = block[i] ^ byte;
    }
    out
}

// The hash value that has taken the key block, each byte exclusive or one byte.
fn keyed(byte: u8, block: &[u8; 128]) -> [u64; 8]
    ensures { result ≡ hash_after initial_hash_512 (xor_each byte block.now) 1 }
{
    let key = xor_each(byte, block);
    let mut hashes = spread(&INITIAL_HASH);
    absorb(&mut hashes, &key, 0, 1);
    first_of_four(&hashes)
}

/// A key prepared once for the HMACs of many messages, four at a time. Contracts see it as its key block.
#[derive(Drop)]
pub struct FourMacs {
    block: [u8; 128],
    inner: [u64; 8],
    outer: [u64; 8],
}

impl Model for FourMacs {
    ghost use Rattle.std.specs.Prelude.{◌≡◌, ℕ, List, length};
    ghost use Rattle.sha2.specs.Sha512.{hash_after, initial_hash_512};
    ghost use Rattle.hmac_core.specs.Hmac.{xor_each};

    ghost Value = { List ℕ };

    ghost view = { λ m. m.block };

    ghost invariant = { λ m. record {
      sized : length m.block ≡ 128;
      inner : m.inner ≡ hash_after initial_hash_512 (xor_each 0x36 m.block) 1;
      outer : m.outer ≡ hash_after initial_hash_512 (xor_each 0x5c m.block) 1;
    } };
}

impl FourMacs {
    /// A key of a block of SHA-512 at most.
    pub fn new(key: &[u8]) -> FourMacs
        requires { length key.now ≤ 128 }
        ensures { result ≡ key_block sha512 128 key.now }
    {
        let block = key_block(key);
        FourMacs {
            inner: keyed(IPAD, &block),
            outer: keyed(OPAD, &block),
            block,
        }
    }

    /// The HMACs of four messages of one length, one after another. Each message is a piece of `len` bytes of the text, which
    /// begin `stride` bytes apart, and then a piece of `end_len` bytes of the ends, which stand one after another.
    pub fn tags(
        &self,
        text: &[u8],
        stride: usize,
        len: usize,
        ends: &[u8],
        end_len: usize,
    ) -> [u8; 256]
        requires text { 3 * stride + len ≤ length text.now }
        requires short { end_len ≤ 64 }
        requires ends { 4 * end_len ≤ length ends.now }
        ensures { (i : ℕ) → i < 4
            → piece result 64 64 i ≡ hmac_of_block sha512 self.now (message text.now stride len ends.now end_len i) }
    {
        let inner = digests(&finished(&self.inner, BLOCK, text, stride, len, ends, end_len));
        digests(&finished(&self.outer, BLOCK, &inner, 64, 64, &[], 0))
    }
}
