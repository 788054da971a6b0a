// Pieces are hashed, keys derived, and pages opened and sealed.
//
// `page hash PIECES`: SHA-512 of PIECES times 4,096 bytes of zeros. `page derive P TIMES`: the keys of profile P for a
// passphrase, so many times. `page many P TIMES`: 64 pages of profile P, sealed side by side. `page open P TIMES` and
// `page seal P TIMES`: page 2 of profile P, opened or sealed so many times. Each prints one byte that rests on the last result.
ghost use Rattle.std.specs.Prelude.{◌≡◌, ◌*◌, ◌≤◌, All, length};
ghost use Rattle.cipher_profile.specs.Profile.{IsListed, usable};

use crate::words::number;
use cipher_profile::{LineForm, Profile, Secret, derive, read_key};
use edge_memory::MemSource;
use page_codec::{Codec, MAGIC};
use profile_word::profile_of;
use sha2::{Digest, Sha512};
use std::io;

// The longest page, in bytes.
const MAX_PAGE: usize = 65_536;

// The bytes that `hash` takes at a time.
const PIECE: usize = 4096;

const MAX_PAGES: usize = 262_144;

fn hash(pieces: u64) -> u8 {
    let piece = [0u8; PIECE];
    let mut hasher = Sha512::new();
    for _ in 0..pieces {
        hasher.update(&piece[..]);
    }
    hasher.finalize()[0]
}

fn derive_often(profile: &Profile, secret: &Secret, times: u64) -> u8
    requires { IsListed profile.now }
{
    let mut salt = [0u8; 16];
    for _ in 0..times {
        salt[0] = derive(secret, profile, &salt).mac[0];
    }
    salt[0]
}

fn seal_often(codec: &Codec, plain: &mut [u8], stored: &mut [u8], times: u64) -> u8
    requires plain_size { length plain.old ≡ usable codec.now.profile }
    requires stored_size { length stored.old ≡ codec.now.profile.page_size }
{
    let _usable = codec.profile().usable();
    let draw = [7u8; 255];
    let reserve = codec.profile().reserve as usize;
    for _ in 0..times {
        codec.seal_page(2, plain, &draw[..reserve], stored);
    }
    if stored.is_empty() { 0 } else { stored[0] }
}

fn open_often(codec: &Codec, plain: &mut [u8], stored: &mut [u8], times: u64) -> u8
    requires plain_size { length plain.old ≡ usable codec.now.profile }
    requires stored_size { length stored.old ≡ codec.now.profile.page_size }
{
    seal_often(codec, plain, stored, 1);
    let mut opened = 0u8;
    for _ in 0..times {
        if codec.open_page(2, stored, plain).is_ok() {
            opened = opened.wrapping_add(1);
        }
    }
    opened
}

fn seal_again(codec: &Codec, numbers: &[u32; 64], pages: &mut [u8], times: u64)
    requires numbers { All (λ n. 2 ≤ n) numbers.now }
    requires size { length pages.old ≡ codec.now.profile.page_size * 64 }
{
    for _ in 0..times {
        codec.seal_pages(numbers, pages);
    }
}

// 64 pages side by side, in as many of these bytes as they have.
fn seal_many(codec: &Codec, bytes: &mut [u8], times: u64) {
    let size = codec.profile().page_size as usize;
    let numbers = [2u32; 64];
    if bytes.len() == size * 64 {
        seal_again(codec, &numbers, bytes, times);
    }
}

// The same, where a page is not longer than 4,096 bytes.
fn many(codec: &Codec, times: u64) -> u8 {
    let mut bytes = [0u8; MAX_PAGES];
    let size = codec.profile().page_size as usize * 64;
    if size <= MAX_PAGES {
        seal_many(codec, &mut bytes[..size], times);
    }
    bytes[0]
}

fn of_profile(profile: Profile, secret: &Secret, word: &str, times: u64) -> u8
    requires { IsListed profile }
{
    if word == "derive" {
        return derive_often(&profile, secret, times);
    }
    let salt = if profile.is_clear() { MAGIC } else { [0u8; 16] };
    let codec = Codec::new(
        profile,
        derive(&Secret::Raw([1; 32]), &profile, &salt),
        salt,
    );
    let mut plain = [0u8; MAX_PAGE];
    let plain = &mut plain[..profile.usable()];
    if word == "many" {
        return many(&codec, times);
    }
    let mut stored = [0u8; MAX_PAGE];
    let stored = &mut stored[..profile.page_size as usize];
    if word == "open" {
        open_often(&codec, plain, stored, times)
    } else {
        seal_often(&codec, plain, stored, times)
    }
}

/// Runs the loop by its words, and prints what it says.
pub fn run(rt: &HostRuntime, words: &Vec<String>) -> io::Result<()> {
    let word = match words.get(2) {
        Some(word) => word.as_str(),
        None => "hash",
    };
    let profile = match words.get(3) {
        Some(word) => profile_of(word.as_str()),
        None => None,
    };
    let Ok(mut source) = MemSource::new(rt.alloc(), b"password\n", &[]) else {
        return Err(io::ErrorKind::OutOfMemory.into());
    };
    let form = LineForm {
        hex: false,
        salted: false,
    };
    let result = match (profile, read_key(form, &mut source)) {
        (Some(profile), Ok(secret)) if word != "hash" => of_profile(
            profile,
            &secret,
            word,
            number(words, 4, 1),
        ),
        _ => hash(number(words, 3, 1)),
    };
    println!(rt; "{result}")
}
