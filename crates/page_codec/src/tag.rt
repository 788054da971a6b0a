// The HMAC of a file's tags, with the hash of its profile.
ghost use Rattle.std.specs.Prelude.{◌≡◌, ◌≤◌, ◌++◌, take};
ghost use Rattle.std.specs.Int.{w32, to_le_bytes};
ghost use Rattle.hmac_core.specs.Hmac.{hmac_of_block};
ghost use Rattle.cipher_profile.specs.Hashes.{digest, digest_len};
ghost use Rattle.page_codec.specs.MacKey.{mac_key};

use cipher_profile::HashKind;
use hmac_core::{HmacKey, PageHash, Sha1Hash, Sha256Hash, Sha512Hash};
use number_fields::u32_bytes_low_first;
use std::marker::Model;

/// The longest tag, in bytes.
pub const MAX_TAG: usize = 64;

/// A prepared key, with the hash that it is for.
#[derive(Drop)]
pub enum Prepared {
    WithSha1(HmacKey<Sha1Hash>),
    WithSha256(HmacKey<Sha256Hash>),
    WithSha512(HmacKey<Sha512Hash>),
}

/// The key of a file's tags, prepared once for all pages.
#[derive(Drop)]
pub struct TagKey {
    prepared: Prepared,
}

impl Model for TagKey {
    ghost use Rattle.page_codec.specs.MacKey.{MacKey, prepared_with};

    ghost Value = { MacKey };

    ghost view = { λ t. prepared_with t.prepared };
}

impl TagKey {
    /// Prepares a key.
    pub fn new(hash: HashKind, key: &[u8; 32]) -> TagKey
        ensures { result ≡ mac_key hash key.now }
    {
        let prepared = match hash {
            HashKind::Sha1 => Prepared::WithSha1(HmacKey::new(key)),
            HashKind::Sha256 => Prepared::WithSha256(HmacKey::new(key)),
            HashKind::Sha512 => Prepared::WithSha512(HmacKey::new(key)),
        };
        TagKey { prepared }
    }

    /// The HMAC of these bytes of page n, and of its number, in as many bytes as the hash gives; zeros follow.
    pub fn tag(&self, covered: &[u8], n: u32) -> [u8; MAX_TAG]
        ensures { take (digest_len self.now.hash) result
            ≡ hmac_of_block (digest self.now.hash) self.now.block (covered.now ++ to_le_bytes w32 n) }
    {
        match &self.prepared {
            Prepared::WithSha1(key) => tag_under(key, covered, n),
            Prepared::WithSha256(key) => tag_under(key, covered, n),
            Prepared::WithSha512(key) => tag_under(key, covered, n),
        }
    }
}

// The same for one hash.
fn tag_under<H: PageHash>(key: &HmacKey<H>, covered: &[u8], n: u32) -> [u8; MAX_TAG]
    requires { H.OUT ≤ 64 }
    ensures { take H.OUT result ≡ hmac_of_block H.hash key.now (covered.now ++ to_le_bytes w32 n) }
{
    let mut mac = key.start();
    mac.update(covered);
    mac.update(&u32_bytes_low_first(n));
    let mut tag = [0u8; MAX_TAG];
    mac.finish(&mut tag[..H::OUT]);
    tag
}
