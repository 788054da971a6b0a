// The words that name the profile of a file: what files they are of.
ghost use Rattle.std.specs.Prelude.{◌≡◌};
ghost use Rattle.sqlcipher_cli.specs.Plain.{names_plain};

use cipher_profile::LineForm;
use profile_word::{probed_profiles, profile_of};
use std::fmt::{self, Display, Formatter};

/// Whether a word names plain files.
pub fn is_plain_word(word: &str) -> bool
    ensures { result ≡ names_plain word.now }
{
    match profile_of(word) {
        Some(profile) => profile.is_plain(),
        None => false,
    }
}

/// Whether a word names files of any kind.
pub fn is_version(word: &str) -> bool {
    profile_of(word).is_some()
}

/// Whether `probe` tries what a word names.
pub fn is_tried(word: &str) -> bool {
    match profile_of(word) {
        Some(named) => probed_profiles().iter().any(|profile| *profile == named),
        None => false,
    }
}

/// Whether both words are of files of one profile: under another one the same line may be another key.
pub fn is_same_profile(old: &str, new: &str) -> bool {
    match (profile_of(old), profile_of(new)) {
        (Some(one), Some(other)) => one == other,
        _ => false,
    }
}

/// Whether a word names files whose first bytes are in the clear.
pub fn has_plain_header(word: &str) -> bool {
    match profile_of(word) {
        Some(profile) => profile.plain_header > 0,
        None => false,
    }
}

/// The form of the key line of a word's files.
pub fn form_of(word: &str) -> Option<LineForm> {
    profile_of(word)?.line_form()
}

/// The setting `:wal`, where a word has it.
pub fn log_setting(word: &str) -> &'static str {
    match profile_of(word) {
        Some(profile) if profile.reads_log => ":wal",
        _ => "",
    }
}

/// A word without the setting `:wal`: what stands before it, and what behind.
#[derive(Clone, Copy)]
pub struct Unset<'w> {
    front: &'w str,
    back: &'w str,
}

impl<'w> Display for Unset<'w> {
    fn fmt<W: fmt::Write>(&self, f: &mut Formatter<W>) -> fmt::Result {
        write!(f, "{}{}", self.front, self.back)
    }
}

/// The word without this setting.
pub fn without_log(word: &str) -> Unset<'_> {
    match word.split_once(":wal") {
        Some((front, back)) => Unset { front, back },
        None => Unset {
            front: word,
            back: "",
        },
    }
}
