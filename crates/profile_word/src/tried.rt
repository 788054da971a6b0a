// The profiles that a file is tried with where none is named.
ghost use Rattle.std.specs.Prelude.{◌≡◌, All};
ghost use Rattle.cipher_profile.specs.Profile.{IsListed, sqlcipher_4_of};
ghost use Rattle.profile_word.specs.Tried.{probed_profiles, IsNamedByItsWord};

use crate::word::{SQLCIPHER_1, SQLCIPHER_2, SQLCIPHER_3, SQLCIPHER_4};
use cipher_profile::{HashKind, Profile};

const SQLCIPHER_1_AT_4096: Profile = Profile {
    page_size: 4096,
    ..SQLCIPHER_1
};

const SQLCIPHER_2_AT_4096: Profile = Profile {
    page_size: 4096,
    ..SQLCIPHER_2
};

const SQLCIPHER_3_AT_4096: Profile = Profile {
    page_size: 4096,
    ..SQLCIPHER_3
};

// `3:4096:rounds=1`, said to be that of Signal on Android.
const ONE_ROUND: Profile = Profile {
    rounds: 1,
    ..SQLCIPHER_3_AT_4096
};

// `4:rounds=4000:hmac=sha1`, said to be that of QQ NT.
const SHORT_TAGS: Profile = Profile {
    reserve: 48,
    hash: HashKind::Sha1,
    rounds: 4_000,
    tag_len: 20,
    ..SQLCIPHER_4
};

// Version 4 with pages of this size.
fn sqlcipher_4_of(page_size: u32) -> Profile
    ensures { result ≡ sqlcipher_4_of page_size }
{
    Profile {
        page_size,
        ..SQLCIPHER_4
    }
}

/// The profiles that a file is tried with where none is named, in this order: of version 4 the size that is the default
/// first, then the others from the least on, then the older versions with pages of their own size and of 4,096 bytes, and
/// then the settings of two well-known programs. A plain file needs no trial.
pub fn probed_profiles() -> [Profile; 15]
    ensures value { result ≡ probed_profiles }
    ensures listed { All IsListed result }
    ensures named { All IsNamedByItsWord result }
{
    [
        SQLCIPHER_4,
        sqlcipher_4_of(1024),
        sqlcipher_4_of(2048),
        sqlcipher_4_of(8192),
        sqlcipher_4_of(16384),
        sqlcipher_4_of(32768),
        sqlcipher_4_of(65536),
        SQLCIPHER_3,
        SQLCIPHER_3_AT_4096,
        SQLCIPHER_2,
        SQLCIPHER_2_AT_4096,
        SQLCIPHER_1,
        SQLCIPHER_1_AT_4096,
        ONE_ROUND,
        SHORT_TAGS,
    ]
}
