// The word of a profile, printed.
ghost use Rattle.std.specs.Prelude.{◌≡◌, ◌≤◌, ◌+◌, ◌++◌, length};
ghost use Rattle.profile_word.specs.Wording.{hash_word, header_text, kdf_text, key_text, log_text, rounds_text, same_hash, size_text, tags_text, version_base, version_text, word_of};

use crate::word::{SQLCIPHER_1, SQLCIPHER_2, SQLCIPHER_3, SQLCIPHER_4};
use cipher_profile::{HashKind, Profile};
use text_lines::Text;

/// Appends the word of a profile: its version, and what is not as the version has it by itself.
pub fn push_word(text: &mut Text, profile: &Profile)
    requires { length text.old ≤ 800 }
    ensures word { text.new ≡ text.old ++ word_of profile.now }
    ensures short { length text.new ≤ length text.old + 138 }
{
    if profile.version == 0 {
        text.push(b"plain:");
        text.push_number(u64::from(profile.page_size));
    } else {
        push_version(text, profile);
    }
    if profile.reads_log {
        text.push(b":wal");
    }
}

// The version, and in what the profile differs from it.
fn push_version(text: &mut Text, profile: &Profile)
    requires { length text.old ≤ 800 }
    ensures word { text.new ≡ text.old ++ version_text profile.now }
    ensures short { length text.new ≤ length text.old + 134 }
{
    let base = version_base(profile.version);
    text.push_number(u64::from(profile.version));
    push_size(text, &base, profile);
    push_rounds(text, &base, profile);
    push_kdf(text, &base, profile);
    push_tags(text, &base, profile);
    push_header(text, profile);
    push_key(text, profile);
}

fn version_base(version: u8) -> Profile
    ensures { result ≡ version_base version }
{
    match version {
        1 => SQLCIPHER_1,
        2 => SQLCIPHER_2,
        3 => SQLCIPHER_3,
        _ => SQLCIPHER_4,
    }
}

fn push_size(text: &mut Text, base: &Profile, profile: &Profile)
    requires { length text.old ≤ 820 }
    ensures word { text.new ≡ text.old ++ size_text base.now profile.now }
    ensures short { length text.new ≤ length text.old + 21 }
{
    if profile.page_size != base.page_size {
        text.push(b":");
        text.push_number(u64::from(profile.page_size));
    }
}

fn push_rounds(text: &mut Text, base: &Profile, profile: &Profile)
    requires { length text.old ≤ 841 }
    ensures word { text.new ≡ text.old ++ rounds_text base.now profile.now }
    ensures short { length text.new ≤ length text.old + 28 }
{
    if profile.rounds != base.rounds {
        text.push(b":rounds=");
        text.push_number(u64::from(profile.rounds));
    }
}

fn push_kdf(text: &mut Text, base: &Profile, profile: &Profile)
    requires { length text.old ≤ 869 }
    ensures word { text.new ≡ text.old ++ kdf_text base.now profile.now }
    ensures short { length text.new ≤ length text.old + 11 }
{
    if !same_hash(profile.kdf, base.kdf) {
        text.push(b":kdf=");
        push_hash(text, profile.kdf);
    }
}

fn push_tags(text: &mut Text, base: &Profile, profile: &Profile)
    requires { length text.old ≤ 880 }
    ensures word { text.new ≡ text.old ++ tags_text base.now profile.now }
    ensures short { length text.new ≤ length text.old + 12 }
{
    if profile.tag_len == base.tag_len && same_hash(profile.hash, base.hash) {
        return;
    }
    if profile.tag_len == 0 {
        text.push(b":hmac=off");
    } else {
        text.push(b":hmac=");
        push_hash(text, profile.hash);
    }
}

fn push_header(text: &mut Text, profile: &Profile)
    requires { length text.old ≤ 892 }
    ensures word { text.new ≡ text.old ++ header_text profile.now }
    ensures short { length text.new ≤ length text.old + 34 }
{
    if profile.plain_header == 0 {
        return;
    }
    text.push(b":plain-header=");
    text.push_number(u64::from(profile.plain_header));
}

fn push_key(text: &mut Text, profile: &Profile)
    requires { length text.old ≤ 926 }
    ensures word { text.new ≡ text.old ++ key_text profile.now }
    ensures short { length text.new ≤ length text.old + 8 }
{
    if profile.hex_key {
        text.push(b":key=hex");
    }
}

fn push_hash(text: &mut Text, hash: HashKind)
    requires { length text.old ≤ 900 }
    ensures word { text.new ≡ text.old ++ hash_word hash }
    ensures short { length text.new ≤ length text.old + 6 }
{
    match hash {
        HashKind::Sha1 => text.push(b"sha1"),
        HashKind::Sha256 => text.push(b"sha256"),
        HashKind::Sha512 => text.push(b"sha512"),
    }
}

// Whether both are one hash.
fn same_hash(one: HashKind, other: HashKind) -> bool
    ensures { result ≡ same_hash one other }
{
    match (one, other) {
        (HashKind::Sha1, HashKind::Sha1) => true,
        (HashKind::Sha256, HashKind::Sha256) => true,
        (HashKind::Sha512, HashKind::Sha512) => true,
        _ => false,
    }
}
