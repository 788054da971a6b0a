// Words: a version, and settings behind colons.
ghost use Rattle.std.specs.Prelude.{◌≡◌, ◌≤◌, ◌+◌, length, IfSome};
ghost use Rattle.cipher_profile.specs.Hashes.{digest_len};
ghost use Rattle.cipher_profile.specs.Profile.{IsListed, with_log};
ghost use Rattle.profile_word.specs.Parts.{parts_from};
ghost use Rattle.profile_word.specs.Word.{are_rounds, is_header, is_size, named_without_log, plain_with, profile_from, profile_named, settings_of, takes_header, version_named, version_with, with_hex_key, with_kdf, with_plain_header, with_rounds, with_setting, with_size, with_tags, with_wal};

use crate::part::part_end;
use crate::setting::{Setting, Tags, setting_of};
use cipher_profile::{HashKind, Profile};

/// The settings that a word gives. What it does not give is the version's.
#[derive(Clone, Copy, Debug, PartialEq, Eq)]
pub struct Settings {
    /// The size of a page, in bytes.
    pub size: Option<u32>,
    /// The rounds of PBKDF2.
    pub rounds: Option<u32>,
    /// The hash of PBKDF2.
    pub kdf: Option<HashKind>,
    /// The tags.
    pub tags: Option<Tags>,
    /// How many first bytes of page 1 stand in the clear.
    pub plain_header: Option<u32>,
    /// Whether the key line has the passphrase in hex.
    pub hex_key: bool,
    /// Whether the file is read with its log, and only read.
    pub reads_log: bool,
}

pub(crate) const SQLCIPHER_1: Profile = Profile {
    version: 1,
    page_size: 1024,
    reserve: 16,
    hash: HashKind::Sha1,
    kdf: HashKind::Sha1,
    rounds: 4_000,
    tag_len: 0,
    plain_header: 0,
    hex_key: false,
    reads_log: false,
};

pub(crate) const SQLCIPHER_2: Profile = Profile {
    version: 2,
    page_size: 1024,
    reserve: 48,
    hash: HashKind::Sha1,
    kdf: HashKind::Sha1,
    rounds: 4_000,
    tag_len: 20,
    plain_header: 0,
    hex_key: false,
    reads_log: false,
};

pub(crate) const SQLCIPHER_3: Profile = Profile {
    version: 3,
    page_size: 1024,
    reserve: 48,
    hash: HashKind::Sha1,
    kdf: HashKind::Sha1,
    rounds: 64_000,
    tag_len: 20,
    plain_header: 0,
    hex_key: false,
    reads_log: false,
};

pub(crate) const SQLCIPHER_4: Profile = Profile {
    version: 4,
    page_size: 4096,
    reserve: 80,
    hash: HashKind::Sha512,
    kdf: HashKind::Sha512,
    rounds: 256_000,
    tag_len: 64,
    plain_header: 0,
    hex_key: false,
    reads_log: false,
};

const NO_SETTINGS: Settings = Settings {
    size: None,
    rounds: None,
    kdf: None,
    tags: None,
    plain_header: None,
    hex_key: false,
    reads_log: false,
};

/// The profile that a word of the command line names.
pub fn profile_of(word: &str) -> Option<Profile>
    ensures value { result ≡ profile_named word.now }
    ensures listed { IfSome result IsListed }
{
    profile_of_bytes(word.as_bytes())
}

/// The same, where the word is given as its bytes.
pub fn profile_of_bytes(word: &[u8]) -> Option<Profile>
    ensures value { result ≡ profile_named word.now }
    ensures listed { IfSome result IsListed }
{
    let end = part_end(word, 0);
    let Some(settings) = settings_from(word, end + 1) else {
        return None;
    };
    profile_from(&word[..end], &settings)
}

/// The profile that a word names, where the file is not one that is read with its log, and only read.
#[tactic(auto, unfolding(crate::specs::Word::named_without_log))]
pub fn profile_without_log(word: &[u8]) -> Option<Profile>
    ensures value { result ≡ named_without_log word.now }
    ensures listed { IfSome result IsListed }
{
    let profile = profile_of_bytes(word)?;
    if profile.reads_log {
        return None;
    }
    Some(profile)
}

// The settings of the parts that begin here.
fn settings_from(word: &[u8], from: usize) -> Option<Settings>
    requires { from ≤ length word.now + 1 }
    ensures { result ≡ settings_of (parts_from word.now from) }
{
    let mut settings = NO_SETTINGS;
    let mut at = from;
    'parts: while at <= word.len() {
        let end = part_end(word, at);
        let Some(setting) = setting_of(&word[at..end]) else {
            return None;
        };
        let Some(next) = with_setting(&settings, setting) else {
            return None;
        };
        settings = next;
        at = end + 1;
    }
    Some(settings)
}

// These settings with one more, which has not been given yet.
fn with_setting(settings: &Settings, setting: Setting) -> Option<Settings>
    ensures { result ≡ with_setting settings.now setting }
{
    match setting {
        Setting::Size(size) => with_size(settings, size),
        Setting::Rounds(rounds) => with_rounds(settings, rounds),
        Setting::Kdf(kdf) => with_kdf(settings, kdf),
        Setting::Hmac(tags) => with_tags(settings, tags),
        Setting::PlainHeader(len) => with_plain_header(settings, len),
        Setting::HexKey => with_hex_key(settings),
        Setting::Wal => with_wal(settings),
    }
}

fn with_size(settings: &Settings, size: u32) -> Option<Settings>
    ensures { result ≡ with_size settings.now size }
{
    if settings.size.is_some() {
        return None;
    }
    Some(Settings {
        size: Some(size),
        ..*settings
    })
}

fn with_rounds(settings: &Settings, rounds: u32) -> Option<Settings>
    ensures { result ≡ with_rounds settings.now rounds }
{
    if settings.rounds.is_some() {
        return None;
    }
    Some(Settings {
        rounds: Some(rounds),
        ..*settings
    })
}

fn with_kdf(settings: &Settings, kdf: HashKind) -> Option<Settings>
    ensures { result ≡ with_kdf settings.now kdf }
{
    if settings.kdf.is_some() {
        return None;
    }
    Some(Settings {
        kdf: Some(kdf),
        ..*settings
    })
}

fn with_tags(settings: &Settings, tags: Tags) -> Option<Settings>
    ensures { result ≡ with_tags settings.now tags }
{
    if settings.tags.is_some() {
        return None;
    }
    Some(Settings {
        tags: Some(tags),
        ..*settings
    })
}

fn with_plain_header(settings: &Settings, len: u32) -> Option<Settings>
    ensures { result ≡ with_plain_header settings.now len }
{
    if settings.plain_header.is_some() {
        return None;
    }
    Some(Settings {
        plain_header: Some(len),
        ..*settings
    })
}

fn with_hex_key(settings: &Settings) -> Option<Settings>
    ensures { result ≡ with_hex_key settings.now }
{
    if settings.hex_key {
        return None;
    }
    Some(Settings {
        hex_key: true,
        ..*settings
    })
}

fn with_wal(settings: &Settings) -> Option<Settings>
    ensures { result ≡ with_wal settings.now }
{
    if settings.reads_log {
        return None;
    }
    Some(Settings {
        reads_log: true,
        ..*settings
    })
}

// What the first part of a word names, with the settings of the others.
#[tactic(auto, unfolding(crate::specs::Word::profile_from))]
fn profile_from(version: &[u8], settings: &Settings) -> Option<Profile>
    ensures { result ≡ profile_from version.now settings.now }
{
    if version == b"plain".as_slice() {
        return plain_with(settings);
    }
    let base = version_of(version)?;
    version_with(&base, settings)
}

fn version_of(word: &[u8]) -> Option<Profile>
    ensures value { result ≡ version_named word.now }
    ensures short { IfSome result (λ base. base.tag_len ≤ 64) }
{
    if word == b"1".as_slice() {
        Some(SQLCIPHER_1)
    } else if word == b"2".as_slice() {
        Some(SQLCIPHER_2)
    } else if word == b"3".as_slice() {
        Some(SQLCIPHER_3)
    } else if word == b"4".as_slice() {
        Some(SQLCIPHER_4)
    } else {
        None
    }
}

fn plain_with(settings: &Settings) -> Option<Profile>
    ensures { result ≡ plain_with settings.now }
{
    if settings.rounds.is_some() || settings.kdf.is_some() || settings.tags.is_some() {
        return None;
    }
    if settings.plain_header.is_some() || settings.hex_key {
        return None;
    }
    let size = settings.size?;
    if size == 512 || is_size(size) {
        Some(Profile {
            version: 0,
            page_size: size,
            reserve: 0,
            hash: HashKind::Sha1,
            kdf: HashKind::Sha1,
            rounds: 1,
            tag_len: 0,
            plain_header: 0,
            hex_key: false,
            reads_log: settings.reads_log,
        })
    } else {
        None
    }
}

// A version with these settings.
fn version_with(base: &Profile, settings: &Settings) -> Option<Profile>
    requires { base.now.tag_len ≤ 64 }
    ensures { result ≡ version_with base.now settings.now }
{
    let page_size = settings.size.unwrap_or(base.page_size);
    let rounds = settings.rounds.unwrap_or(base.rounds);
    if !is_size(page_size) || !are_rounds(rounds) {
        return None;
    }
    let (hash, tag_len) = match settings.tags {
        None => (base.hash, base.tag_len),
        Some(Tags::Off) => (base.hash, 0),
        Some(Tags::With(hash)) => (hash, digest_len(hash)),
    };
    if !takes_header(tag_len, settings.plain_header) {
        return None;
    }
    Some(Profile {
        version: base.version,
        page_size,
        reserve: (tag_len + 31) / 16 * 16,
        hash,
        kdf: settings.kdf.unwrap_or(base.kdf),
        rounds,
        tag_len,
        plain_header: settings.plain_header.unwrap_or(0),
        hex_key: settings.hex_key,
        reads_log: settings.reads_log,
    })
}

// Whether encrypted pages may have this size.
fn is_size(size: u32) -> bool
    ensures { result ≡ is_size size }
{
    size == 1024
        || size == 2048
        || size == 4096
        || size == 8192
        || size == 16384
        || size == 32768
        || size == 65536
}

// Whether a passphrase may be stretched by so many rounds.
fn are_rounds(rounds: u32) -> bool
    ensures { result ≡ are_rounds rounds }
{
    rounds >= 1 && rounds <= 2_147_483_647
}

// Whether a word may give this plain header beside tags of this length.
fn takes_header(tag_len: u32, plain_header: Option<u32>) -> bool
    ensures { result ≡ takes_header tag_len plain_header }
{
    match plain_header {
        None => true,
        Some(len) => tag_len > 0 && is_header(len),
    }
}

// Whether a plain header may have this length.
fn is_header(len: u32) -> bool
    ensures { result ≡ is_header len }
{
    len == 16 || len == 32 || len == 48 || len == 64 || len == 80 || len == 96
}

// The length of a digest, in bytes.
fn digest_len(hash: HashKind) -> u32
    ensures value { result ≡ digest_len hash }
    ensures short { result ≤ 64 }
{
    match hash {
        HashKind::Sha1 => 20,
        HashKind::Sha256 => 32,
        HashKind::Sha512 => 64,
    }
}
