// PBKDF2 (RFC 8018, section 5.2).
ghost use Rattle.std.specs.Prelude.{◌≡◌, ◌≤◌, length};
ghost use Rattle.hmac_core.specs.Hmac.{hmac_of_block};
ghost use Rattle.hmac_core.specs.Pbkdf2.{xor_bytes, derived_block, derived_key};

use crate::{HmacKey, PageHash};

// Each byte of `sum`, exclusive or the one of `link` at its place.
fn xor_into(sum: &mut [u8], link: &[u8])
    requires { length sum.old ≡ length link.now }
    ensures { sum.new ≡ xor_bytes sum.old link.now }
{
    for i in 0..sum.len() {
        sum[i] ^= link[i];
    }
}

// T_i, where `index` is i.
fn derive_block<H: PageHash>(key: &HmacKey<H>, salt: &[u8], rounds: u32, index: u32, out: &mut [u8])
    requires one { 1 ≤ rounds }
    requires whole { length out.old ≡ H.OUT }
    ensures { out.new ≡ derived_block (hmac_of_block H.hash key.now) salt.now rounds index }
{
    let mut buffer = [0u8; 128];
    let link = &mut buffer[..H::OUT];
    let mut mac = key.start();
    mac.update(salt);
    mac.update(&index.to_be_bytes());
    mac.finish_whole(link);
    out.copy_from_slice(link);
    'rounds: for _ in 1..rounds {
        let mut mac = key.start();
        mac.update(link);
        mac.finish_whole(link);
        xor_into(out, link);
    }
}

/// The 32 bytes that PBKDF2 with HMAC derives from a passphrase.
pub fn pbkdf2<H: PageHash>(pass: &[u8], salt: &[u8], rounds: u32, out: &mut [u8; 32])
    requires { 1 ≤ rounds }
    ensures { out.new ≡ derived_key H.hash H.BLOCK H.OUT pass.now salt.now rounds }
{
    let key = HmacKey::<H>::new(pass);
    let mut buffer = [0u8; 128];
    let block = &mut buffer[..H::OUT];
    for done in 0..32usize.div_ceil(H::OUT) {
        derive_block(&key, salt, rounds, done as u32 + 1, block);
        let at = done * H::OUT;
        let count = H::OUT.min(32 - at);
        out[at..at + count].copy_from_slice(&block[..count]);
    }
}
