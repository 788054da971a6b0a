// A file of empty table leaves: its salt is 0x40 to 0x4f, its key 0x00 to 0x1f, and the bytes that were drawn for each page
// are 0, 1, 2 and so on.
ghost use Rattle.std.specs.Prelude.{◌≡◌, ◌≤◌, length};
ghost use Rattle.cipher_profile.specs.Profile.{usable};

use cipher_profile::{Profile, Secret, derive};
use page_codec::{Codec, TagRefused};
use profile_word::profile_of;
use std::process::Abort;

const SALT: &[u8; 16] = b"@ABCDEFGHIJKLMNO";

const SALT_IN_HEX: &str = "404142434445464748494a4b4c4d4e4f";

// The longest page, in bytes.
const MAX_PAGE: usize = 65_536;

const MAGIC: &[u8; 16] = b"SQLite format 3\0";

// The words of plain files, by the least, the common and the largest pages.
const PLAIN: [&str; 3] = ["plain:512", "plain:4096", "plain:65536"];

const DIGITS: &[u8; 16] = b"0123456789abcdef";

// Whether a text has these bytes in hex.
fn is_hex_of(text: &str, bytes: &[u8]) -> bool {
    let digits = text.as_bytes();
    if digits.len() / 2 != bytes.len() {
        return false;
    }
    for (i, byte) in bytes.iter().enumerate() {
        let high = DIGITS[(*byte / 16) as usize];
        let low = DIGITS[(*byte % 16) as usize];
        if digits[2 * i] != high || digits[2 * i + 1] != low {
            return false;
        }
    }
    true
}

// The bytes first, first + 1 and so on.
fn ascending(first: u8, out: &mut [u8]) {
    let mut next = first;
    for byte in out.iter_mut() {
        *byte = next;
        next = next.wrapping_add(1);
    }
}

// The codec of the file in the profile of this word, under the key that begins with this byte.
fn codec_of(rt: &impl Abort, word: &str, first: u8) -> Codec {
    let Some(profile) = profile_of(word) else {
        panic!(rt; "no profile {word}");
    };
    if profile.is_plain() {
        return Codec::new(profile, derive(&Secret::NoKey, &profile, MAGIC), *MAGIC);
    }
    let mut key = [0u8; 32];
    ascending(first, &mut key);
    if profile.is_clear() {
        let secret = Secret::SaltedRaw(key, *SALT);
        return Codec::new(profile, derive(&secret, &profile, MAGIC), *MAGIC);
    }
    let keys = derive(&Secret::Raw(key), &profile, SALT);
    Codec::new(profile, keys, *SALT)
}

// An empty table leaf as plain page n. Page 1 begins with the magic, the page size, two versions, the reserve and the payload
// fractions.
fn put_leaf(rt: &impl Abort, profile: &Profile, n: u32, plain: &mut [u8]) {
    assert!(rt; plain.len() >= 108 && plain.len() < 65536);
    let start = if n == 1 { 100 } else { 0 };
    plain[start] = 13;
    plain[start + 5] = (plain.len() / 256) as u8;
    plain[start + 6] = (plain.len() % 256) as u8;
    let header = match (profile.version, profile.page_size, profile.reserve) {
        (1, 4096, _) => b"SQLite format 3\0\x10\x00\x01\x01\x10\x40\x20\x20",
        (1, _, _) => b"SQLite format 3\0\x04\x00\x01\x01\x10\x40\x20\x20",
        (4, _, 48) => b"SQLite format 3\0\x10\x00\x01\x01\x30\x40\x20\x20",
        (4, _, _) => b"SQLite format 3\0\x10\x00\x01\x01\x50\x40\x20\x20",
        _ => b"SQLite format 3\0\x04\x00\x01\x01\x30\x40\x20\x20",
    };
    if n == 1 {
        for (to, from) in plain.iter_mut().zip(header.iter()) {
            *to = *from;
        }
    }
}

// Seals plain page n of the file.
fn seal(rt: &impl Abort, codec: &Codec, n: u32, plain: &[u8], stored: &mut [u8])
    requires plain_size { length plain.now ≡ usable codec.now.profile }
    requires stored_size { length stored.old ≡ codec.now.profile.page_size }
{
    assert!(rt; n >= 1 && plain.len() >= 16);
    assert!(rt; n != 1 || plain[..16] == MAGIC[..]);
    let _usable = codec.profile().usable();
    let mut buffer = [0u8; 255];
    let draw = &mut buffer[..codec.profile().reserve as usize];
    ascending(0, draw);
    codec.seal_page(n, plain, draw, stored);
}

// Whether these bytes stand in the page, in hex, from here on.
fn has_part(stored: &[u8], at: usize, text: &str) -> bool {
    match stored.get(at..) {
        Some(rest) => rest.len() >= text.len() / 2 && is_hex_of(text, &rest[..text.len() / 2]),
        None => false,
    }
}

// Seals plain page n, compares the first and the last block of the ciphertext and the reserve, and opens it again.
fn check_sealed(rt: &impl Abort, word: &str, n: u32, first: &str, last: &str, reserve: &str) {
    let codec = codec_of(rt, word, 0);
    let profile = codec.profile();
    let usable = profile.usable();
    let mut plain = [0u8; MAX_PAGE];
    let plain = &mut plain[..usable];
    let mut stored = [0u8; MAX_PAGE];
    let stored = &mut stored[..profile.page_size as usize];
    put_leaf(rt, profile, n, plain);
    seal(rt, &codec, n, plain, stored);

    let (salt, start) = if n == 1 { (SALT_IN_HEX, 16) } else { ("", 0) };
    assert!(rt; has_part(stored, 0, salt), "salt in profile {word}");
    assert!(rt;
        has_part(stored, start, first),
        "page {n} of profile {word}"
    );
    assert!(rt;
        has_part(stored, usable - 16, last),
        "page {n} of profile {word}"
    );
    assert!(rt;
        reserve.len() / 2 == profile.reserve as usize && has_part(stored, usable, reserve),
        "reserve in profile {word}"
    );

    let mut opened = [0xaau8; MAX_PAGE];
    let opened = &mut opened[..usable];
    assert!(rt; n >= 1);
    assert!(rt;
        codec.open_page(n, stored, opened) == Ok(()),
        "page {n} of profile {word}"
    );
    assert!(rt; opened[..] == plain[..], "page {n} of profile {word}");
    assert!(rt;
        codec.open_in_place(n, stored) == Ok(()),
        "page {n} of profile {word}"
    );
    assert!(rt;
        stored[..usable] == plain[..] && has_part(stored, usable, reserve),
        "page {n} of profile {word} in place"
    );
}

// The first and the last block of the ciphertext, and then the IV, the tag and the padding, as Python's hashlib, hmac and
// `cryptography` make them: tests/reference/oracle/sqlcipher_formats.py, `Codec.seal_page`.
#[test]
fn seals_pages_as_the_reference_does(rt: HostRuntime) {
    let pages = [
        (
            "1",
            1,
            "6829b52e6a3c653650f77f4794b71a12",
            "ef7465577cfefe2f433915bb3a1f0e90",
            "000102030405060708090a0b0c0d0e0f",
        ),
        (
            "1",
            2,
            "f3e3f6e5859bb836d64084fa55be17c8",
            "1de72accfd7afb10157f6478800e791b",
            "000102030405060708090a0b0c0d0e0f",
        ),
        (
            "2",
            1,
            "cdfe2383731f02d5acb5ac3a712036b5",
            "92ac8c4037855aa8020f3dde05b386cb",
            "000102030405060708090a0b0c0d0e0f28c003ed4cc85b618e6881a65d54027b1055babd2425262728292a2b2c2d2e2f",
        ),
        (
            "3",
            2,
            "db569c66e27f28ff615eace6079d3c36",
            "77182533ad5e420926d50471ae342668",
            "000102030405060708090a0b0c0d0e0f3164d3320ac9ee197c4cdb3fff4ca85b423d6d1f2425262728292a2b2c2d2e2f",
        ),
        (
            "4",
            1,
            "2beebab9bc81567c5e4b44df0f04bf1f",
            "ea130d209600a74166cd36b1874ff879",
            "000102030405060708090a0b0c0d0e0f6520d6e100898012532b0b6c6c6dc83ffcd40e7dcc1c37e5b296adb9c39d46aa56558ac7a45d1710e7c7e2f4d1f66a8774b409495004a886e117c4b43804efcd",
        ),
        (
            "4",
            2,
            "067ab2187265672bf3e86e81a9233a09",
            "544dcd5799ad20c890ecb2f9d2d0a58f",
            "000102030405060708090a0b0c0d0e0f43743c1d37feb95a44eddb30e669d01e090608b9cf2dcfccbf69added00b7d1c26019f8ea59014e6355eda6ab9d5e5048755d631f103d339186dc5af82bc9121",
        ),
        (
            "1:4096",
            1,
            "01f1c043cf7959bf9fa6c6b8934cd7ca",
            "15b93d2053abc42a1abb2cf96c9ddacc",
            "000102030405060708090a0b0c0d0e0f",
        ),
        (
            "4:hmac=sha256",
            1,
            "fd091988319a7722e6e9d21796564a5b",
            "4f1402021640b9de5b378496b6ad7215",
            "000102030405060708090a0b0c0d0e0f333308a6f60cd2f7378863fa8897bd1cbfee9c6116226b66ea124fffed6b0d84",
        ),
        (
            "4:hmac=sha256",
            2,
            "8bd3c626769f2301a950d8c57abd11e7",
            "c12a79f4496aace95b71c50266d8d72f",
            "000102030405060708090a0b0c0d0e0f5f13cb4786cfc963145b294f6a1519aa2436c003cdb2b913a4799287cc7d5581",
        ),
    ];
    for (word, n, first, last, reserve) in pages {
        check_sealed(&rt, word, n, first, last, reserve);
    }
}

// Whether page n opens with the byte at this place changed. Where it does not, the refusal names the page and the buffer is as
// it was.
fn opens_after_change(rt: &impl Abort, codec: &Codec, n: u32, stored: &[u8], at: usize) -> bool {
    let profile = codec.profile();
    let usable = profile.usable();
    assert!(rt; n >= 1 && stored.len() == profile.page_size as usize && at < stored.len());
    let mut changed = [0u8; MAX_PAGE];
    let changed = &mut changed[..stored.len()];
    changed.copy_from_slice(stored);
    changed[at] ^= 1;
    let mut plain = [0xaau8; MAX_PAGE];
    let plain = &mut plain[..usable];
    match codec.open_page(n, changed, plain) {
        Ok(()) => true,
        Err(refused) => {
            assert!(rt; refused == TagRefused { page: n }, "page {n}, byte {at}");
            for byte in plain.iter() {
                assert!(rt; *byte == 0xaa, "page {n}, byte {at}");
            }
            false
        }
    }
}

// SQLCipher design, "Page Authentication": the tag covers the ciphertext, the IV and the page number. The salt and the padding
// are not covered.
#[test]
fn refuses_what_the_tag_covers_and_nothing_else(rt: HostRuntime) {
    for word in ["1", "2", "3", "4"] {
        let codec = codec_of(&rt, word, 0);
        let profile = codec.profile();
        let usable = profile.usable();
        let size = profile.page_size as usize;
        let tag_len = profile.tag_len as usize;
        let mut plain = [0u8; MAX_PAGE];
        let plain = &mut plain[..usable];
        let mut stored = [0u8; MAX_PAGE];
        let stored = &mut stored[..size];
        put_leaf(&rt, profile, 1, plain);
        seal(&rt, &codec, 1, plain, stored);

        let without_tag = tag_len == 0;
        for at in [16, usable - 1, usable, usable + 15] {
            assert!(rt;
                opens_after_change(&rt, &codec, 1, stored, at) == without_tag,
                "byte {at} in profile {word}"
            );
        }
        if tag_len > 0 {
            assert!(rt;
                !opens_after_change(&rt, &codec, 1, stored, usable + 16),
                "the tag in profile {word}"
            );
            assert!(rt;
                !opens_after_change(&rt, &codec, 1, stored, usable + 15 + tag_len),
                "the tag in profile {word}"
            );
            assert!(rt;
                codec.tag_holds(1, stored) && !codec.tag_holds(2, stored),
                "the number in profile {word}"
            );
            assert!(rt;
                !codec.tag_holds(2, &[0u8; MAX_PAGE][..size]),
                "zeros in profile {word}"
            );
        }
        assert!(rt;
            opens_after_change(&rt, &codec, 1, stored, 0),
            "the salt in profile {word}"
        );
        if usable + 16 + tag_len < size {
            assert!(rt;
                opens_after_change(&rt, &codec, 1, stored, size - 1),
                "the padding in profile {word}"
            );
        }
    }
}

#[test]
fn a_key_fits_its_own_file(rt: HostRuntime) {
    for word in ["1", "2", "3", "4"] {
        let codec = codec_of(&rt, word, 0);
        let profile = codec.profile();
        let mut plain = [0u8; MAX_PAGE];
        let plain = &mut plain[..profile.usable()];
        let mut stored = [0u8; MAX_PAGE];
        let stored = &mut stored[..profile.page_size as usize];
        put_leaf(&rt, profile, 1, plain);
        seal(&rt, &codec, 1, plain, stored);
        assert!(rt; codec.key_fits(stored), "profile {word}");
        assert_eq!(rt; codec.salt(), *SALT);

        let other = codec_of(&rt, word, 1);
        assert!(rt; stored.len() == other.profile().page_size as usize);
        assert!(rt; !other.key_fits(stored), "profile {word}");
    }
}

// A plain file: the stored page is the plain page, nothing is drawn, and its sign is the magic. It takes any bytes as a page.
#[test]
fn a_plain_page_is_stored_as_it_is(rt: HostRuntime) {
    for word in PLAIN {
        let codec = codec_of(&rt, word, 0);
        let profile = codec.profile();
        assert!(rt; codec.salt() == *MAGIC, "{word}");
        let mut plain = [7u8; MAX_PAGE];
        plain[..16].copy_from_slice(MAGIC);
        let plain = &plain[..profile.usable()];
        let mut stored = [0u8; MAX_PAGE];
        let stored = &mut stored[..profile.page_size as usize];
        seal(&rt, &codec, 1, plain, stored);
        assert!(rt; stored[..] == plain[..], "{word}");
        assert!(rt; codec.key_fits(stored), "{word}");
        let mut opened = [0u8; MAX_PAGE];
        let opened = &mut opened[..plain.len()];
        assert!(rt; codec.open_page(1, stored, opened) == Ok(()), "{word}");
        assert!(rt; opened[..] == plain[..], "{word}");
        stored[15] = 1;
        assert!(rt; codec.open_in_place(1, stored) == Ok(()), "{word}");
        assert!(rt; stored[16..] == plain[16..], "{word}");
        assert!(rt; !codec.key_fits(stored), "{word}");
    }
}
