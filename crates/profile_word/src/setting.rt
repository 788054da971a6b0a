// One setting of a word.
ghost use Rattle.std.specs.Prelude.{◌≡◌};
ghost use Rattle.profile_word.specs.Setting.{hash_named, number_of_setting, setting_named, tags_named};

use crate::part::value_behind;
use cipher_profile::HashKind;
use text_lines::number_of;

/// What a word says of tags.
#[derive(Clone, Copy, Debug, PartialEq, Eq)]
pub enum Tags {
    /// Pages have none.
    Off,
    /// They are the HMAC with this hash.
    With(HashKind),
}

/// What one setting of a word says.
#[derive(Clone, Copy, Debug, PartialEq, Eq)]
pub enum Setting {
    /// The size of a page, in bytes.
    Size(u32),
    /// The rounds of PBKDF2.
    Rounds(u32),
    /// The hash of PBKDF2.
    Kdf(HashKind),
    /// The tags.
    Hmac(Tags),
    /// How many first bytes of page 1 stand in the clear.
    PlainHeader(u32),
    /// The key line has the passphrase in hex.
    HexKey,
    /// The file is read with its log, and only read.
    Wal,
}

/// The setting that a part of a word names.
#[tactic(auto, unfolding(crate::specs::Setting::setting_named))]
pub fn setting_of(part: &[u8]) -> Option<Setting>
    ensures { result ≡ setting_named part.now }
{
    if part == b"wal".as_slice() {
        return Some(Setting::Wal);
    }
    if part == b"key=hex".as_slice() {
        return Some(Setting::HexKey);
    }
    if let Some(value) = value_behind(b"rounds=", part) {
        return Some(Setting::Rounds(number_of_setting(value)?));
    }
    if let Some(value) = value_behind(b"kdf=", part) {
        return Some(Setting::Kdf(hash_of(value)?));
    }
    if let Some(value) = value_behind(b"hmac=", part) {
        return Some(Setting::Hmac(tags_of(value)?));
    }
    if let Some(value) = value_behind(b"plain-header=", part) {
        return Some(Setting::PlainHeader(number_of_setting(value)?));
    }
    Some(Setting::Size(number_of_setting(part)?))
}

// A number of one to ten digits, the first of them no zero.
fn number_of_setting(word: &[u8]) -> Option<u32>
    ensures { result ≡ number_of_setting word.now }
{
    if word.len() > 0 && word[0] == b'0' {
        return None;
    }
    number_of(word)
}

fn hash_of(word: &[u8]) -> Option<HashKind>
    ensures { result ≡ hash_named word.now }
{
    if word == b"sha1".as_slice() {
        Some(HashKind::Sha1)
    } else if word == b"sha256".as_slice() {
        Some(HashKind::Sha256)
    } else if word == b"sha512".as_slice() {
        Some(HashKind::Sha512)
    } else {
        None
    }
}

fn tags_of(word: &[u8]) -> Option<Tags>
    ensures { result ≡ tags_named word.now }
{
    if word == b"off".as_slice() {
        return Some(Tags::Off);
    }
    Some(Tags::With(hash_of(word)?))
}
