// Which part of a word names no version and no setting, and what it may be.
ghost use Rattle.std.specs.Prelude.{◌<◌};

use cipher_profile::HashKind;
use edge_files::{Shown, say};
use profile_word::{Setting, Tags, setting_of};
use std::fmt::{self, Display, Formatter};

const SIZES: &str =
    "the pages of encrypted files have 1024, 2048, 4096, 8192, 16384, 32768 or 65536 bytes";

const PLAIN_SIZES: &str =
    "the pages of plain files have 512, 1024, 2048, 4096, 8192, 16384, 32768 or 65536 bytes, as plain:4096";

const PLAIN_ALONE: &str = "a plain file has no setting but the size of its pages and `wal`";

const ROUNDS: &str = "rounds=1 to rounds=2147483647";

const KDF: &str = "kdf=sha1, kdf=sha256 or kdf=sha512";

const HMAC: &str = "hmac=sha1, hmac=sha256, hmac=sha512 or hmac=off";

const WAL: &str =
    "a file is read with its log under the setting `wal`, as 4:wal, 3:wal, 4:8192:wal or plain:4096:wal";

const HEADER: &str =
    "plain-header=16, 32, 48, 64, 80 or 96, for pages with tags: version 1 and hmac=off have none";

const KEY: &str = "key=hex, where the key line is the passphrase in hex digits";

const SETTINGS: &str =
    "a setting is the size of a page, rounds=N, kdf=HASH, hmac=HASH, hmac=off, plain-header=N, key=hex or wal, where HASH is sha1, sha256 or \
    sha512";

const TWICE: &str = "it is given twice";

/// What is given to the product so that it opens a file that a word names.
#[derive(Clone, Copy)]
pub struct Pragmas<'w>(pub &'w str);

impl<'w> Display for Pragmas<'w> {
    fn fmt<W: fmt::Write>(&self, f: &mut Formatter<W>) -> fmt::Result {
        let (version, settings) = self.0.split_once(':').unwrap_or((self.0, ""));
        write!(f, "PRAGMA cipher_compatibility = {version}; ")?;
        for part in settings.split(':') {
            match setting_of(part.as_bytes()) {
                Some(Setting::Size(size)) => write!(f, "PRAGMA cipher_page_size = {size}; ")?,
                Some(Setting::Rounds(rounds)) => write!(f, "PRAGMA kdf_iter = {rounds}; ")?,
                Some(Setting::Kdf(hash)) => write!(
                    f,
                    "PRAGMA cipher_kdf_algorithm = PBKDF2_HMAC_{}; ",
                    name_of(hash)
                )?,
                Some(Setting::Hmac(Tags::Off)) => write!(f, "PRAGMA cipher_use_hmac = OFF; ")?,
                Some(Setting::Hmac(Tags::With(hash))) => write!(
                    f,
                    "PRAGMA cipher_hmac_algorithm = HMAC_{}; ",
                    name_of(hash)
                )?,
                Some(Setting::PlainHeader(bytes)) => {
                    write!(f, "PRAGMA cipher_plaintext_header_size = {bytes}; ")?
                }
                Some(Setting::HexKey | Setting::Wal) | None => {}
            }
        }
        Ok(())
    }
}

fn name_of(hash: HashKind) -> &'static str {
    match hash {
        HashKind::Sha1 => "SHA1",
        HashKind::Sha256 => "SHA256",
        HashKind::Sha512 => "SHA512",
    }
}

/// Says of the first part of a word that is not taken what it may be. Answers whether the word begins with a version.
pub fn explain_word(rt: &HostRuntime, word: &str) -> bool {
    let (version, rest) = match word.split_once(':') {
        Some((version, rest)) => (version, Some(rest)),
        None => (word, None),
    };
    let is_plain = version == "plain";
    if !version.starts_with("plain") && !["1", "2", "3", "4"].contains(&version) {
        return speaks_of_log(rt, word);
    }
    let told = match rest {
        Some(rest) => first_refused(rest, is_plain),
        None => None,
    };
    match told {
        Some((part, what)) => say(
            rt,
            format_args!(
                "`{}` is no version: `{}`: {what}; --help lists the commands",
                Shown(word),
                Shown(part)
            ),
        ),
        None => say(
            rt,
            format_args!(
                "`{}` is no version: {PLAIN_SIZES}; --help lists the commands",
                Shown(word)
            ),
        ),
    }
    true
}

// A word that was to name the setting of a file that is read with its log.
fn speaks_of_log(rt: &HostRuntime, word: &str) -> bool {
    if !means_log(word) {
        return false;
    }
    say(
        rt,
        format_args!(
            "`{}` is no version: {WAL}; --help lists the commands",
            Shown(word)
        ),
    );
    true
}

fn means_log(text: &str) -> bool {
    text.contains("wal") || text.contains("WAL")
}

// The first part that is not taken, and what it may be.
fn first_refused(settings: &str, is_plain: bool) -> Option<(&str, &'static str)> {
    let mut given = [false; 7];
    for part in settings.split(':') {
        let Some(setting) = setting_of(part.as_bytes()) else {
            return Some((part, allowed(part, is_plain)));
        };
        if let Some(what) = refused(setting, is_plain) {
            return Some((part, what));
        }
        let place = place_of(setting);
        if given[place] {
            return Some((part, TWICE));
        }
        given[place] = true;
    }
    // Each part is taken by itself: there are no tags.
    for part in settings.split(':') {
        if part.starts_with("plain-header") {
            return Some((part, HEADER));
        }
    }
    None
}

// Each name has a place.
fn place_of(setting: Setting) -> usize
    ensures { result < 7 }
{
    match setting {
        Setting::Size(_) => 0,
        Setting::Rounds(_) => 1,
        Setting::Kdf(_) => 2,
        Setting::Hmac(_) => 3,
        Setting::PlainHeader(_) => 4,
        Setting::HexKey => 5,
        Setting::Wal => 6,
    }
}

// Why a setting is not taken, where it is one.
fn refused(setting: Setting, is_plain: bool) -> Option<&'static str> {
    match setting {
        Setting::Size(size) if is_plain && size == 512 => None,
        Setting::Size(size) if is_power(size) => None,
        Setting::Size(_) => Some(if is_plain { PLAIN_SIZES } else { SIZES }),
        Setting::Wal => None,
        _ if is_plain => Some(PLAIN_ALONE),
        Setting::Rounds(rounds) if rounds == 0 || rounds > 2_147_483_647 => Some(ROUNDS),
        Setting::PlainHeader(bytes) if bytes == 0 || bytes > 96 || bytes % 16 != 0 => Some(HEADER),
        _ => None,
    }
}

fn is_power(size: u32) -> bool {
    [1024, 2048, 4096, 8192, 16384, 32768, 65536].contains(&size)
}

// What a part that is no setting may be.
fn allowed(part: &str, is_plain: bool) -> &'static str {
    if part.starts_with("rounds") {
        ROUNDS
    } else if part.starts_with("kdf") {
        KDF
    } else if part.starts_with("hmac") {
        HMAC
    } else if part.starts_with("plain-header") {
        HEADER
    } else if part.starts_with("key") {
        KEY
    } else if means_log(part) {
        WAL
    } else if is_plain {
        PLAIN_SIZES
    } else if part.is_empty() || part.as_bytes()[0].is_ascii_digit() {
        SIZES
    } else {
        SETTINGS
    }
}
