// Files of empty table leaves, changed and sealed by page_codec, which its own tests compare with pages from outside.
ghost use Rattle.cipher_profile.specs.Profile.{usable};
ghost use Rattle.std.specs.Prelude.{◌≡◌, ◌≤◌, length};

use cipher_profile::{Profile, derive, read_key};
use edge_memory::MemSource;
use page_codec::Codec;
use profile_word::profile_of;
use std::alloc::{AllocError, Global};

/// Why no file is laid.
#[derive(Clone, Copy, Debug, PartialEq, Eq)]
pub enum Unlaid {
    /// The word names no profile of an encrypted file.
    Word,
    /// The line is no key line of its form.
    Key,
    /// Page 1 does not begin as a database does.
    Magic,
    /// Memory was wanted.
    OutOfMemory,
}

impl From<AllocError> for Unlaid {
    fn from(_: AllocError) -> Unlaid {
        Unlaid::OutOfMemory
    }
}

/// Bytes that are put into a plain page: the page, where, and what.
pub type Change = (u32, usize, &'static [u8]);

const MAGIC: &[u8; 16] = b"SQLite format 3\0";

// Section 1.3: the header from byte 16 on, but for the size of a page and its reserve.
const HEADER: [(usize, &[u8]); 7] = [
    (18, &[1, 1]),
    (21, &[64, 32, 32, 0, 0, 0, 1]),
    (40, &[0, 0, 0, 1, 0, 0, 0, 4]),
    (56, &[0, 0, 0, 1]),
    (92, &[0, 0, 0, 1]),
    (96, &[0, 0x2e, 0x76, 0x88]),
    (0, MAGIC),
];

// Replaces the bytes from `at` on.
fn put_bytes(bytes: &mut [u8], at: usize, new: &[u8]) {
    for (to, from) in bytes.iter_mut().skip(at).zip(new.iter()) {
        *to = *from;
    }
}

// Plain page n of so many: an empty table leaf, behind the header on page 1, with these changes.
fn lay(profile: &Profile, pages: u32, n: u32, changes: &[Change], plain: &mut [u8]) {
    let start = if n == 1 { 100 } else { 0 };
    let end = [(plain.len() / 256 % 256) as u8, (plain.len() % 256) as u8];
    put_bytes(plain, start, &[13]);
    put_bytes(plain, start + 5, &end);
    if n == 1 {
        for (at, bytes) in HEADER {
            put_bytes(plain, at, bytes);
        }
        put_bytes(plain, 16, &[(profile.page_size / 256 % 256) as u8]);
        put_bytes(plain, 20, &[(profile.reserve % 256) as u8]);
        put_bytes(plain, 31, &[(pages % 256) as u8]);
    }
    for (page, at, bytes) in changes {
        if *page == n {
            put_bytes(plain, *at, bytes);
        }
    }
}

fn seal(codec: &Codec, n: u32, plain: &[u8], stored: &mut [u8]) -> Result<(), Unlaid>
    requires number { 1 ≤ n }
    requires plain_size { length plain.now ≡ usable codec.now.profile }
    requires stored_size { length stored.old ≡ codec.now.profile.page_size }
    ensures { length stored.new ≡ length stored.old }
{
    if plain.len() < 16 || n == 1 && plain[..16] != MAGIC[..] {
        return Err(Unlaid::Magic);
    }
    let _usable = codec.profile().usable();
    let zeros = [0u8; 255];
    codec.seal_page(n, plain, &zeros[..codec.profile().reserve as usize], stored);
    Ok(())
}

// The codec of the profile under a key line, for a salt of zeros where the file holds one.
fn codec_of(alloc: Global, word: &str, key: &[u8]) -> Result<Codec, Unlaid> {
    let Some(profile) = profile_of(word) else {
        return Err(Unlaid::Word);
    };
    let Some(form) = profile.line_form() else {
        return Err(Unlaid::Word);
    };
    let mut source = MemSource::new(alloc, key, &[]).map_err(|_| Unlaid::OutOfMemory)?;
    let Ok(secret) = read_key(form, &mut source) else {
        return Err(Unlaid::Key);
    };
    let salt = if profile.is_clear() {
        page_codec::MAGIC
    } else {
        [0; 16]
    };
    let keys = derive(&secret, &profile, &salt);
    Ok(Codec::new(profile, keys, salt))
}

/// The file of so many pages of the profile under a key line, with these changes.
pub fn sealed(
    alloc: Global,
    word: &str,
    key: &[u8],
    pages: u32,
    changes: &[Change],
) -> Result<Vec<u8>, Unlaid> {
    let codec = codec_of(alloc, word, key)?;
    let profile = *codec.profile();
    let mut file = Vec::new(alloc);
    for n in 1..=pages {
        let mut plain = [0u8; 65536];
        let plain = &mut plain[..profile.usable()];
        let mut stored = [0u8; 65536];
        let stored = &mut stored[..profile.page_size as usize];
        lay(&profile, pages, n, changes, plain);
        seal(&codec, n, plain, stored)?;
        file.extend_from_slice(stored)?;
    }
    Ok(file)
}

/// Turns the lowest bit of this byte.
pub fn turn(file: &mut [u8], at: usize) {
    if let Some(byte) = file.get_mut(at) {
        *byte ^= 1;
    }
}
