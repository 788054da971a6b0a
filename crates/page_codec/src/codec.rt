// What opens and seals the pages of one file.
ghost use Rattle.std.specs.Prelude.{◌≡◌, ◌≢◌, ◌<◌, ◌≤◌, ◌==◌, length, take, true, false, if◌then◌else◌};
ghost use Rattle.std.specs.Int.{w16, to_be_bytes};
ghost use Rattle.std.specs.Str.{bytes_eq};
ghost use Rattle.cipher_profile.specs.Profile.{IsListed, is_clear, is_plain, usable};
ghost use Rattle.page_codec.specs.MacKey.{mac_key};
ghost use Rattle.page_codec.specs.Page.{FileKeys, accepts, bears_sign, begins_with_magic, cipher_start, deciphered, fits, keys_of, keys_with_salt, magic, tag};

use crate::side_by_side::SideKey;
use crate::tag::{MAX_TAG, TagKey};
use aes_block::Aes256;
use cipher_profile::{PageKeys, Profile, Secret, derive};
use number_fields::u16_bytes;
use std::marker::Model;

/// The length of an IV, in bytes.
pub const IV_LEN: usize = 16;

/// The length of a salt, in bytes.
pub const SALT_LEN: usize = 16;

/// The largest page, in bytes.
const MAX_PAGE: usize = 65536;

/// What a plain page 1 begins with (SQLite file format, section 1.3.1). It stands for the salt of a plain file, which has none.
pub const MAGIC: [u8; 16] = *b"SQLite format 3\0";

/// What opens and seals the pages of one file. It is prepared once, so that a page costs its own bytes only.
#[derive(Drop)]
pub struct Codec {
    pub(crate) profile: Profile,
    pub(crate) keys: PageKeys,
    pub(crate) salt: [u8; SALT_LEN],
    pub(crate) cipher: Aes256,
    pub(crate) tags: TagKey,
    // for the tags of several pages at a time
    pub(crate) side: SideKey,
}

impl Model for Codec {
    ghost Value = { FileKeys };

    ghost view = { λ c. record { profile = c.profile; keys = c.keys; salt = c.salt } };

    ghost invariant = { λ c. record {
      listed : IsListed c.profile;
      ciphers : c.cipher ≡ c.keys.enc;
      tags : c.tags ≡ mac_key c.profile.hash c.keys.mac;
      side : c.side ≡ mac_key c.profile.hash c.keys.mac;
      clear : is_clear c.profile ≡ true → c.salt ≡ magic;
    } };
}

impl Codec {
    /// The codec of a file with these keys and this salt; where the file holds none, it is the magic.
    pub fn new(profile: Profile, keys: PageKeys, salt: [u8; 16]) -> Codec
        requires listed { IsListed profile }
        requires clear { is_clear profile ≡ true → salt ≡ magic }
        ensures { result ≡ record { profile = profile; keys = keys; salt = salt } }
    {
        let cipher = Aes256::new(&keys.enc);
        let tags = TagKey::new(profile.hash, &keys.mac);
        let side = SideKey::new(profile.hash, &keys.mac);
        Codec {
            profile,
            keys,
            salt,
            cipher,
            tags,
            side,
        }
    }

    /// The codec that the secret gives for a file with this salt; where the file holds none, it is the magic.
    pub fn of_secret(profile: Profile, secret: &Secret, salt: [u8; 16]) -> Codec
        requires listed { IsListed profile }
        requires clear { is_clear profile ≡ true → salt ≡ magic }
        ensures { result ≡ keys_with_salt profile secret.now salt }
    {
        Codec::new(profile, derive(secret, &profile, &salt), salt)
    }

    /// The codec that the secret gives for a file with this stored page 1, which begins with the salt where the file holds one.
    pub fn of_file(profile: Profile, secret: &Secret, page_1: &[u8]) -> Codec
        requires listed { IsListed profile }
        requires size { length page_1.now ≡ profile.page_size }
        ensures { result ≡ keys_of profile secret.now page_1.now }
    {
        let _usable = profile.usable();
        let mut salt = MAGIC;
        if !profile.is_clear() {
            salt.copy_from_slice(&page_1[..SALT_LEN]);
        }
        Codec::of_secret(profile, secret, salt)
    }

    /// A second codec of the same keys, which are not derived again.
    pub fn again(&self) -> Codec
        ensures { result ≡ self.now }
    {
        Codec::new(self.profile, self.keys, self.salt)
    }

    /// The file's profile.
    pub fn profile(&self) -> &Profile
        ensures value { result.now ≡ self.now.profile }
        ensures listed { IsListed result.now }
    {
        &self.profile
    }

    /// The file's salt, its first 16 bytes; where the file holds none, the magic.
    pub fn salt(&self) -> [u8; 16]
        ensures value { result ≡ self.now.salt }
        ensures clear { is_clear self.now.profile ≡ true → result ≡ magic }
    {
        self.salt
    }

    /// Whether the tag of this stored page is that of page n, numbered from 1.
    #[tactic(auto, unfolding(crate::specs::Page::accepts))]
    pub fn tag_holds(&self, n: u32, stored: &[u8]) -> bool
        requires number { 1 ≤ n }
        requires size { length stored.now ≡ self.now.profile.page_size }
        requires tagged { 0 < self.now.profile.tag_len }
        ensures { result ≡ accepts self.now n stored.now }
    {
        let tag_at = self.profile.usable() + IV_LEN;
        let tag_len = self.profile.tag_len as usize;
        let tag = self.tag(n, stored);
        stored[tag_at..tag_at + tag_len] == tag[..tag_len]
    }

    /// The tag of page n, in as many bytes as the profile's tags have.
    pub(crate) fn tag(&self, n: u32, stored: &[u8]) -> [u8; MAX_TAG]
        requires size { length stored.now ≡ self.now.profile.page_size }
        requires ciphered { is_plain self.now.profile ≡ false }
        ensures { take self.now.profile.tag_len result ≡ tag self.now n stored.now }
    {
        let tag_at = self.profile.usable() + IV_LEN;
        self.tags.tag(&stored[self.cipher_start(n)..tag_at], n)
    }

    /// Whether the key fits a file whose page 1 is this stored page.
    #[tactic(auto, unfolding(crate::specs::Page::opened))]
    pub fn key_fits(&self, stored: &[u8]) -> bool
        requires { length stored.now ≡ self.now.profile.page_size }
        ensures { result ≡ fits self.now stored.now }
    {
        if self.profile.is_plain() {
            return self.begins_with_magic(stored);
        }
        if self.profile.tag_len == 0 {
            return self.opens_with_sign(stored);
        }
        if self.profile.plain_header > 0 {
            return self.begins_with_magic(stored) && self.tag_holds(1, stored);
        }
        self.tag_holds(1, stored)
    }

    // Whether page 1 begins with the magic, as it is stored.
    fn begins_with_magic(&self, stored: &[u8]) -> bool
        requires { length stored.now ≡ self.now.profile.page_size }
        ensures { result ≡ begins_with_magic stored.now }
    {
        let _usable = self.profile.usable();
        stored[..SALT_LEN] == MAGIC[..]
    }

    // Whether page 1 opens to what a header says of its pages.
    fn opens_with_sign(&self, stored: &[u8]) -> bool
        requires size { length stored.now ≡ self.now.profile.page_size }
        requires ciphered { is_plain self.now.profile ≡ false }
        ensures { result ≡ bears_sign self.now.profile (deciphered self.now 1 stored.now) }
    {
        let mut buffer = [0u8; MAX_PAGE];
        let plain = &mut buffer[..self.profile.usable()];
        self.decipher(1, stored, plain);
        let size = stored_size(self.profile.page_size);
        let reserve = self.profile.reserve as u8;
        plain[16..18] == size[..] && plain[20..24] == [reserve, 64, 32, 32]
    }
}

// How a header has the size of pages: in two bytes, in which 1 stands for 65,536.
fn stored_size(page_size: u32) -> [u8; 2]
    requires { page_size ≤ 65536 }
    ensures { result ≡ to_be_bytes w16 (if page_size == 65536 then 1 else page_size) }
{
    let size = if page_size == 65536 {
        1
    } else {
        page_size as u16
    };
    u16_bytes(size)
}

impl Codec {
    /// Where the ciphertext of page n begins: on page 1 after the salt or the plain header.
    pub(crate) fn cipher_start(&self, n: u32) -> usize
        ensures value { result ≡ cipher_start self.now.profile n }
        ensures short { result ≤ usable self.now.profile }
        ensures first { n ≡ 1 → 16 ≤ result }
        ensures others { n ≢ 1 → result ≡ 0 }
    {
        let _usable = self.profile.usable();
        if n != 1 {
            return 0;
        }
        if self.profile.plain_header == 0 {
            return SALT_LEN;
        }
        self.profile.plain_header as usize
    }
}
