// What a session opens the file with. Its codec is made once for a salt: to derive the keys of a passphrase takes long, and key schedules
// for each page add up.
ghost use Rattle.std.specs.Prelude.{◌≡◌, ◌≤◌, ◌↔◌, length, take, IfSome, IfOk, IsOk, IsTrue, true};
ghost use Rattle.cipher_profile.specs.Profile.{IsListed, is_clear, usable};
ghost use Rattle.page_codec.specs.Page.{accepts, keys_with_salt, magic, opened};
ghost use Rattle.session_hall.specs.Key.{Access, codec_at, is_key_for, salt_in};

use cipher_profile::{Profile, Secret};
use page_codec::{Codec, MAGIC, TagRefused};
use std::marker::Model;

/// Whether the secret is one for files of the profile: a plain file has no key, every other one has one, and the salt comes with it where
/// the file does not begin with it.
pub fn is_key_for(profile: &Profile, secret: &Secret) -> bool
    ensures { result ≡ is_key_for profile.now secret.now }
{
    match secret {
        Secret::Raw(_) | Secret::Pass(_) => !profile.is_clear(),
        Secret::SaltedRaw(_, _) | Secret::SaltedPass(_, _) => {
            profile.is_clear() && !profile.is_plain()
        }
        Secret::NoKey => profile.is_plain(),
    }
}

// What stands for the salt of a file that begins with these bytes: the magic, where page 1 begins as it is stored.
fn salt_in(profile: &Profile, first: [u8; 16]) -> [u8; 16]
    ensures value { result ≡ salt_in profile.now first }
    ensures clear { is_clear profile.now ≡ true → result ≡ magic }
{
    if profile.is_clear() {
        return MAGIC;
    }
    first
}

/// A profile and a secret, with the codec that they gave last.
#[derive(Drop)]
pub struct Key {
    profile: Profile,
    secret: Secret,
    last: Option<Codec>,
}

impl Model for Key {
    ghost Value = { Access };

    ghost view = { λ k. record { profile = k.profile; secret = k.secret } };

    ghost invariant = { λ k. record {
      listed : IsListed k.profile;
      right : IfSome k.last (λ codec. codec ≡ keys_with_salt k.profile k.secret codec.salt);
    } };
}

impl Key {
    /// A secret for files of this profile. Nothing is derived yet.
    pub fn new(profile: Profile, secret: Secret) -> Key
        requires { IsListed profile }
        ensures { result ≡ record { profile = profile; secret = secret } }
    {
        Key {
            profile,
            secret,
            last: None,
        }
    }

    /// The profile.
    pub fn profile(&self) -> Profile
        ensures value { result ≡ self.now.profile }
        ensures listed { IsListed result }
    {
        self.profile
    }

    /// The codec of a file that begins with these bytes.
    pub fn codec(&mut self, first: [u8; 16]) -> Codec
        ensures value { result ≡ codec_at self.old first }
        ensures same { self.new ≡ self.old }
    {
        let codec = self.take_codec(first);
        let again = codec.again();
        self.last = Some(codec);
        again
    }

    /// Opens stored page n of such a file where it stands, as that codec does.
    pub fn open_in_place(
        &mut self,
        first: [u8; 16],
        n: u32,
        page: &mut [u8],
    ) -> Result<(), TagRefused>
        requires number { 1 ≤ n }
        requires size { length page.old ≡ self.old.profile.page_size }
        ensures accepted { IsOk result ↔ IsTrue (accepts (codec_at self.old first) n page.old) }
        ensures opened { IfOk result (λ _. take (usable self.old.profile) page.new ≡ opened (codec_at self.old first) n page.old) }
        ensures same { self.new ≡ self.old }
    {
        let codec = self.take_codec(first);
        let result = codec.open_in_place(n, page);
        self.last = Some(codec);
        result
    }

    // The codec of such a file: the last one where that is of the same salt. The caller puts it back.
    fn take_codec(&mut self, first: [u8; 16]) -> Codec
        ensures value { result ≡ codec_at self.old first }
        ensures same { self.new ≡ self.old }
    {
        let salt = salt_in(&self.profile, first);
        if let Some(codec) = self.last.take() {
            if codec.salt() == salt {
                return codec;
            }
        }
        Codec::of_secret(self.profile, &self.secret, salt)
    }
}
