// What holds of the definitions themselves.
ghost use Rattle.std.specs.Prelude.{◌≡◌, ℕ, List, length, IsTrue};
ghost use Rattle.aes_block.specs.Aes.{AreBytes, IsKey};
ghost use Rattle.page_codec.specs.Page.{FileKeys, IsPlainPage, accepts, opened};

use crate::codec::Codec;
use cbc_mode::cbc_round_trip_law;

/// Every stored page opens to a plain page, whether its tag is right or not.
pub fn opened_law(codec: &Codec)
    ensures { (n : ℕ) (stored : List ℕ) → length stored ≡ codec.now.profile.page_size → AreBytes stored
        → IsPlainPage codec.now.profile n (opened codec.now n stored) }
{
    key_law(&codec.keys.enc);
    let _usable = codec.profile.usable();
    cbc_round_trip_law();
}

/// A profile without tags accepts every page.
pub fn no_tag_law()
    ensures { (file : FileKeys) (n : ℕ) (stored : List ℕ) → file.profile.tag_len ≡ 0
        → IsTrue (accepts file n stored) }
{}

/// 32 bytes are a key.
pub(crate) fn key_law(key: &[u8])
    requires { length key.now ≡ 32 }
    ensures { IsKey key.now }
{}
