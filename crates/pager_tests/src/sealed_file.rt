// Pages of a file of profile 3 that page_codec seals, whose own tests compare its pages with pages from outside. Plain page n has
// 976 bytes n, behind the header on page 1.

use cipher_profile::{Secret, derive};
use edge_memory::{MemDisk, SilentDisk};
use page_codec::Codec;
use profile_word::profile_of;
use std::alloc::Global;
use std::process::Abort;
use std::test::Fail;

const MAGIC: &[u8; 16] = b"SQLite format 3\0";

pub const SALT: &[u8; 16] = b"@ABCDEFGHIJKLMNO";

// Database File Format, section 1.3: the fields that are not 0 of a file of 60 pages.
const FIELDS: [(usize, u8); 12] = [
    (16, 4),
    (18, 1),
    (19, 1),
    (20, 48),
    (21, 64),
    (22, 32),
    (23, 32),
    (27, 1),
    (31, 60),
    (47, 4),
    (59, 1),
    (95, 1),
];

pub fn codec_of(rt: &impl Abort, key: u8) -> Codec {
    let Some(profile) = profile_of("3") else {
        panic!(rt; "no profile 3");
    };
    assert!(rt; !profile.is_clear());
    let keys = derive(&Secret::Raw([key; 32]), &profile, SALT);
    Codec::new(profile, keys, *SALT)
}

pub fn put_byte(bytes: &mut [u8], at: usize, byte: u8) {
    if at < bytes.len() {
        bytes[at] = byte;
    }
}

pub fn put_plain(n: u32, plain: &mut [u8]) {
    plain.fill((n % 256) as u8);
    if n != 1 {
        return;
    }
    for byte in plain.iter_mut().take(100) {
        *byte = 0;
    }
    for (to, from) in plain.iter_mut().zip(MAGIC.iter()) {
        *to = *from;
    }
    for (at, byte) in FIELDS {
        put_byte(plain, at, byte);
    }
}

fn seal(rt: &impl Abort, codec: &Codec, n: u32, plain: &[u8], stored: &mut [u8]) {
    let profile = *codec.profile();
    assert!(rt; n >= 1 && plain.len() == profile.usable() && plain.len() >= 16);
    assert!(rt; profile.reserve == 48 && stored.len() == profile.page_size as usize);
    assert!(rt; n != 1 || plain[..16] == MAGIC[..]);
    codec.seal_page(n, plain, &[(n % 256) as u8; 48], stored);
}

// The file, with these bytes of page 1 changed.
pub fn sealed(rt: &impl Abort, alloc: Global, changes: &[(usize, u8)]) -> Result<Vec<u8>, Fail> {
    let codec = codec_of(rt, 0);
    let mut file = Vec::new(alloc);
    for n in 1u32..61 {
        let mut plain = [0u8; 976];
        put_plain(n, &mut plain);
        if n == 1 {
            for (at, byte) in changes.iter() {
                put_byte(&mut plain, *at, *byte);
            }
        }
        let mut stored = [0u8; 1024];
        seal(rt, &codec, n, &plain, &mut stored);
        file.extend_from_slice(&stored)?;
    }
    Ok(file)
}

// A disk with this file. The calls with these numbers fail, and those past so many where there is a stop.
pub fn disk_of(
    alloc: Global,
    main: Option<&[u8]>,
    failing: &[u64],
    stop: Option<u64>,
) -> Result<SilentDisk, Fail> {
    let mut inner = MemDisk::with_files(alloc, main, None, None)?;
    inner.fail_calls(failing)?;
    if let Some(calls) = stop {
        inner.stop_after(calls);
    }
    Ok(SilentDisk { inner })
}
