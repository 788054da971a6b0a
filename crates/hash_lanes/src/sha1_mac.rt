// HMAC with SHA-1 (RFC 2104, section 2) of eight messages of one length.
ghost use Rattle.std.specs.Prelude.{◌≡◌, ℕ, ◌+◌, ◌*◌, ◌<◌, ◌≤◌, length};
ghost use Rattle.sha1.specs.Sha1.{hash_after, sha1};
ghost use Rattle.hmac_core.specs.Hmac.{hmac_of_block, key_block, xor_each};
ghost use Rattle.hash_lanes.specs.Messages.{message, piece};

use crate::sha1_block::absorb;
use crate::sha1_message::{INITIAL_HASH, digests, finished, first_of_eight, spread};
use std::marker::Model;

const BLOCK: usize = 64;

// The inner and the outer key are the key block, each byte exclusive or one of these.
const IPAD: u8 = 0x36;

const OPAD: u8 = 0x5c;

// A key that is no longer than a block, filled up to one.
fn key_block(key: &[u8]) -> [u8; 64]
    requires { length key.now ≤ 64 }
    ensures { result ≡ key_block sha1 64 key.now }
{
    let mut block = [0u8; 64];
    block[..key.len()].copy_from_slice(key);
    block
}

// Each byte, exclusive or one byte.
fn xor_each(byte: u8, block: &[u8; 64]) -> [u8; 64]
    ensures { result ≡ xor_each byte block.now }
{
    let mut out = [0u8; 64];
    for i in 0..BLOCK {
        out[i] = block[i] ^ byte;
    }
    out
}

// The hash value that has taken the key block, each byte exclusive or one byte.
fn keyed(byte: u8, block: &[u8; 64]) -> [u32; 5]
    ensures { result ≡ hash_after (xor_each byte block.now) 1 }
{
    let key = xor_each(byte, block);
    let mut hashes = spread(&INITIAL_HASH);
    absorb(&mut hashes, &key, 0, 1);
    first_of_eight(&hashes)
}

/// A key prepared once for the HMACs of many messages, eight at a time. Contracts see it as its key block.
#[derive(Drop)]
pub struct EightMacs {
    block: [u8; 64],
    inner: [u32; 5],
    outer: [u32; 5],
}

impl Model for EightMacs {
    ghost use Rattle.std.specs.Prelude.{◌≡◌, ℕ, List, length};
    ghost use Rattle.sha1.specs.Sha1.{hash_after};
    ghost use Rattle.hmac_core.specs.Hmac.{xor_each};

    ghost Value = { List ℕ };

    ghost view = { λ m. m.block };

    ghost invariant = { λ m. record {
      sized : length m.block ≡ 64;
      inner : m.inner ≡ hash_after (xor_each 0x36 m.block) 1;
      outer : m.outer ≡ hash_after (xor_each 0x5c m.block) 1;
    } };
}

impl EightMacs {
    /// A key of a block of SHA-1 at most.
    pub fn new(key: &[u8]) -> EightMacs
        requires { length key.now ≤ 64 }
        ensures { result ≡ key_block sha1 64 key.now }
    {
        let block = key_block(key);
        EightMacs {
            inner: keyed(IPAD, &block),
            outer: keyed(OPAD, &block),
            block,
        }
    }

    /// The HMACs of eight messages of one length, one after another. Each message is a piece of `len` bytes of the text, which
    /// begin `stride` bytes apart, and then a piece of `end_len` bytes of the ends, which stand one after another.
    pub fn tags(
        &self,
        text: &[u8],
        stride: usize,
        len: usize,
        ends: &[u8],
        end_len: usize,
    ) -> [u8; 160]
        requires text { 7 * stride + len ≤ length text.now }
        requires short { end_len ≤ 32 }
        requires ends { 8 * end_len ≤ length ends.now }
        ensures { (i : ℕ) → i < 8
            → piece result 20 20 i ≡ hmac_of_block sha1 self.now (message text.now stride len ends.now end_len i) }
    {
        let inner = digests(&finished(&self.inner, BLOCK, text, stride, len, ends, end_len));
        digests(&finished(&self.outer, BLOCK, &inner, 20, 20, &[], 0))
    }
}
