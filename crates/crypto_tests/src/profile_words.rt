// What no clause says: that the table of versions is SQLCipher's, what words with settings give, and the profiles that are tried.
use cipher_profile::{HashKind, Profile};
use profile_word::{probed_profiles, profile_of, profile_without_log, push_word};
use std::process::Abort;
use text_lines::Text;

const SHA1: HashKind = HashKind::Sha1;

const SHA256: HashKind = HashKind::Sha256;

const SHA512: HashKind = HashKind::Sha512;

// The word's version, size and reserve; the hashes of the tags and of the keys; the rounds, the length of a tag, and whether the
// file is read with its log. No byte of page 1 stands in the clear, and the key line has no passphrase in hex.
fn check(
    rt: &impl Abort,
    word: &str,
    sizes: (u8, u32, u32),
    hashes: (HashKind, HashKind),
    rounds: u32,
    tag_len: u32,
    reads_log: bool,
) {
    let (version, page_size, reserve) = sizes;
    let (hash, kdf) = hashes;
    let want = Profile {
        version,
        page_size,
        reserve,
        hash,
        kdf,
        rounds,
        tag_len,
        plain_header: 0,
        hex_key: false,
        reads_log,
    };
    check_profile(rt, word, want);
}

// The word's profile.
fn check_profile(rt: &impl Abort, word: &str, want: Profile) {
    let Some(profile) = profile_of(word) else {
        panic!(rt; "{word}");
    };
    assert!(rt; profile == want, "{word}");
    assert!(rt;
        profile_without_log(word.as_bytes()).is_none() == want.reads_log,
        "{word} without its log"
    );
}

// SQLCipher API, "cipher_compatibility".
#[test]
fn versions_have_their_settings(rt: HostRuntime) {
    check(&rt, "1", (1, 1024, 16), (SHA1, SHA1), 4_000, 0, false);
    check(&rt, "2", (2, 1024, 48), (SHA1, SHA1), 4_000, 20, false);
    check(&rt, "3", (3, 1024, 48), (SHA1, SHA1), 64_000, 20, false);
    check(
        &rt,
        "4",
        (4, 4096, 80),
        (SHA512, SHA512),
        256_000,
        64,
        false,
    );
    check(
        &rt,
        "4:4096",
        (4, 4096, 80),
        (SHA512, SHA512),
        256_000,
        64,
        false,
    );
    check(
        &rt,
        "4:65536",
        (4, 65536, 80),
        (SHA512, SHA512),
        256_000,
        64,
        false,
    );
    check(
        &rt,
        "4:wal",
        (4, 4096, 80),
        (SHA512, SHA512),
        256_000,
        64,
        true,
    );
    check(&rt, "plain:512", (0, 512, 0), (SHA1, SHA1), 1, 0, false);
    check(
        &rt,
        "plain:65536:wal",
        (0, 65536, 0),
        (SHA1, SHA1),
        1,
        0,
        true,
    );
}

#[test]
fn words_give_settings(rt: HostRuntime) {
    check(
        &rt,
        "3:1024",
        (3, 1024, 48),
        (SHA1, SHA1),
        64_000,
        20,
        false,
    );
    check(&rt, "1:4096", (1, 4096, 16), (SHA1, SHA1), 4_000, 0, false);
    check(
        &rt,
        "3:4096",
        (3, 4096, 48),
        (SHA1, SHA1),
        64_000,
        20,
        false,
    );
    check(
        &rt,
        "3:4096:rounds=1",
        (3, 4096, 48),
        (SHA1, SHA1),
        1,
        20,
        false,
    );
    check(
        &rt,
        "3:rounds=1:wal:4096",
        (3, 4096, 48),
        (SHA1, SHA1),
        1,
        20,
        true,
    );
    check(
        &rt,
        "4:rounds=4000:hmac=sha1",
        (4, 4096, 48),
        (SHA1, SHA512),
        4_000,
        20,
        false,
    );
    check(
        &rt,
        "4:hmac=sha256",
        (4, 4096, 48),
        (SHA256, SHA512),
        256_000,
        32,
        false,
    );
    check(
        &rt,
        "4:kdf=sha256:hmac=sha512",
        (4, 4096, 80),
        (SHA512, SHA256),
        256_000,
        64,
        false,
    );
    check(
        &rt,
        "4:hmac=off",
        (4, 4096, 16),
        (SHA512, SHA512),
        256_000,
        0,
        false,
    );
    check(
        &rt,
        "1:hmac=sha1",
        (1, 1024, 48),
        (SHA1, SHA1),
        4_000,
        20,
        false,
    );
    check(
        &rt,
        "4:rounds=2147483647",
        (4, 4096, 80),
        (SHA512, SHA512),
        2_147_483_647,
        64,
        false,
    );
}

// Version 4 by itself.
const SQLCIPHER_4: Profile = Profile {
    version: 4,
    page_size: 4096,
    reserve: 80,
    hash: HashKind::Sha512,
    kdf: HashKind::Sha512,
    rounds: 256_000,
    tag_len: 64,
    plain_header: 0,
    hex_key: false,
    reads_log: false,
};

// SQLCipher API, "cipher_plaintext_header_size".
#[test]
fn words_give_a_plain_header(rt: HostRuntime) {
    let table: [(&str, u32); 6] = [
        ("4:plain-header=16", 16),
        ("4:plain-header=32", 32),
        ("4:plain-header=48", 48),
        ("4:plain-header=64", 64),
        ("4:plain-header=80", 80),
        ("4:plain-header=96", 96),
    ];
    for (word, plain_header) in table {
        let want = Profile {
            plain_header,
            ..SQLCIPHER_4
        };
        check_profile(&rt, word, want);
    }
    // Version 1 has tags only where its word says so.
    let tagged = Profile {
        version: 1,
        page_size: 1024,
        reserve: 48,
        hash: SHA1,
        kdf: SHA1,
        rounds: 4_000,
        tag_len: 20,
        plain_header: 32,
        hex_key: false,
        reads_log: false,
    };
    check_profile(&rt, "1:plain-header=32:hmac=sha1", tagged);
}

#[test]
fn words_give_a_key_in_hex(rt: HostRuntime) {
    let in_hex = Profile {
        hex_key: true,
        ..SQLCIPHER_4
    };
    check_profile(&rt, "4:key=hex", in_hex);
    let headed = Profile {
        plain_header: 32,
        ..in_hex
    };
    check_profile(&rt, "4:key=hex:plain-header=32", headed);
    let with_log = Profile {
        reads_log: true,
        ..headed
    };
    check_profile(&rt, "4:wal:plain-header=32:key=hex", with_log);
}

#[test]
fn other_words_name_no_profile(rt: HostRuntime) {
    for word in [
        "",
        ":",
        "4:",
        ":4",
        "4::",
        "0",
        "10",
        "04",
        "four",
        "4:512",
        "4:04096",
        "4:3000",
        "4:131072",
        "4:4096 ",
        " 4",
        "5",
        "plain",
        "plain:",
        "plain:wal",
        "plain:256",
        "plain:0512",
        "plain:512:rounds=1",
        "plain:4096:hmac=off",
        "plain:512:1024",
        "Plain:512",
        "4:1024:1024",
        "4:rounds=1:rounds=1",
        "4:hmac=off:hmac=off",
        "4:kdf=sha1:kdf=sha1",
        "4:wal:wal",
        "4:WAL",
        "4:rounds=0",
        "4:rounds=",
        "4:rounds=01",
        "4:rounds=2147483648",
        "4:rounds=4294967297",
        "4:rounds=-1",
        "4:rounds=1e3",
        "4:hmac=",
        "4:hmac=SHA1",
        "4:hmac=sha2",
        "4:kdf=off",
        "4:kdf=sha224",
        "4:Rounds=1",
        "4:rounds=1:",
        "4:pages=1024",
        "4:size=1024",
        "4096",
        "4:rounds=1:bad",
        "4:plain-header=0",
        "4:plain-header=20",
        "4:plain-header=112",
        "4:plain-header=032",
        "4:plain-header=",
        "1:plain-header=32",
        "3:hmac=off:plain-header=32",
        "4:plain-header=32:plain-header=32",
        "4:key=",
        "4:key=text",
        "4:key=hex:key=hex",
        "plain:4096:plain-header=32",
        "plain:4096:key=hex",
    ] {
        assert!(rt; profile_of(word).is_none(), "{word}");
    }
}

// The profiles that are tried, in their order, by the words that are printed of them.
#[test]
fn profiles_are_tried_in_their_order(rt: HostRuntime) {
    let words = [
        "4",
        "4:1024",
        "4:2048",
        "4:8192",
        "4:16384",
        "4:32768",
        "4:65536",
        "3",
        "3:4096",
        "2",
        "2:4096",
        "1",
        "1:4096",
        "3:4096:rounds=1",
        "4:rounds=4000:hmac=sha1",
    ];
    for (word, profile) in words.iter().zip(probed_profiles().iter()) {
        let mut text = Text::new();
        push_word(&mut text, profile);
        assert!(rt; text.as_bytes() == word.as_bytes(), "{word}");
    }
}

// What a word prints is the word, where its settings stand in this order.
#[test]
fn settings_are_printed_in_their_order(rt: HostRuntime) {
    for word in [
        "4:plain-header=32",
        "4:key=hex",
        "4:hmac=sha256:plain-header=96:key=hex:wal",
        "2:4096:rounds=1:kdf=sha256:hmac=sha512:plain-header=16:key=hex:wal",
    ] {
        let Some(profile) = profile_of(word) else {
            panic!(rt; "{word}");
        };
        let mut text = Text::new();
        push_word(&mut text, &profile);
        assert!(rt; text.as_bytes() == word.as_bytes(), "{word}");
    }
}
