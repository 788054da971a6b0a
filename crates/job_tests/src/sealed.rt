// A file of profile 3 that page_codec seals, whose own tests compare its pages with pages from outside. Its plain pages are laid out by
// hand, after the Database File Format.
ghost use Rattle.std.specs.Prelude.{◌≡◌, ◌≤◌, length};

use cipher_profile::{Secret, derive};
use db_format::PageSource;
use edge_memory::{MemDisk, MemEntropy, SilentDisk, SilentEntropy};
use page_codec::Codec;
use pager::Pager;
use profile_word::profile_of;
use std::alloc::Global;
use std::process::Abort;
use std::test::Fail;

pub const SALT: &[u8; 16] = b"@ABCDEFGHIJKLMNO";

/// Bytes of a plain page: its number, where they stand, and what they are.
pub type Piece = (u32, usize, &'static [u8]);

/// The codec of a profile under the raw key of 32 such bytes.
pub fn codec_of(rt: &impl Abort, word: &str, key: u8) -> Codec {
    codec_with(rt, word, &Secret::Raw([key; 32]), *SALT)
}

/// The codec of a profile whose files hold a salt under a secret and a salt.
pub fn codec_with(rt: &impl Abort, word: &str, secret: &Secret, salt: [u8; 16]) -> Codec {
    let Some(profile) = profile_of(word) else {
        panic!(rt; "no profile");
    };
    assert!(rt; !profile.is_clear(), "the file holds no salt");
    Codec::new(profile, derive(secret, &profile, &salt), salt)
}

// Replaces the bytes from `at` on.
fn put_bytes(bytes: &mut [u8], at: usize, new: &[u8]) {
    for (to, from) in bytes.iter_mut().skip(at).zip(new.iter()) {
        *to = *from;
    }
}

/// Plain page n: its pieces over zeros, and where it has none the byte n all over.
pub fn lay(n: u32, pieces: &[Piece], plain: &mut [u8]) {
    let bare = !pieces.iter().any(|piece| piece.0 == n);
    plain.fill(if bare { (n % 256) as u8 } else { 0 });
    for (page, at, bytes) in pieces {
        if *page == n {
            put_bytes(plain, *at, bytes);
        }
    }
}

fn seal(rt: &impl Abort, codec: &Codec, n: u32, plain: &[u8], stored: &mut [u8]) {
    let profile = *codec.profile();
    assert!(rt; n >= 1 && plain.len() == profile.usable() && plain.len() >= 16);
    assert!(rt; profile.reserve == 48 && stored.len() == profile.page_size as usize);
    assert!(rt; n != 1 || plain[..16] == b"SQLite format 3\0"[..]);
    codec.seal_page(n, plain, &[(n % 256) as u8; 48], stored);
}

/// The file of so many pages under the key of zeros. One page, which has no content, is stored as zeros, which no key accepts.
pub fn sealed(
    rt: &impl Abort,
    alloc: Global,
    pages: u32,
    pieces: &[Piece],
    zeros: u32,
) -> Result<Vec<u8>, Fail> {
    let codec = codec_of(rt, "3", 0);
    let mut file = Vec::new(alloc);
    for n in 1..=pages {
        let mut plain = [0u8; 976];
        lay(n, pieces, &mut plain);
        let mut stored = [0u8; 1024];
        if n != zeros {
            seal(rt, &codec, n, &plain, &mut stored);
        }
        file.extend_from_slice(&stored)?;
    }
    Ok(file)
}

/// Plain page n of Main, none where Main does not open under this codec.
pub fn plain_page(
    alloc: Global,
    disk: &mut SilentDisk,
    codec: Codec,
    n: u32,
) -> Result<Option<Vec<u8>>, Fail> {
    let mut entropy = SilentEntropy {
        inner: MemEntropy::new(alloc, &[], &[])?,
    };
    let Ok(mut pager) = Pager::open(alloc, disk, &mut entropy, codec, 24) else {
        return Ok(None);
    };
    let page = pager.page(n)?;
    Ok(Some(page.to_vec(alloc)?))
}

/// A disk that tells nothing, with this file as Main, and a Fresh that a stop left.
pub fn disk_of(alloc: Global, main: &[u8]) -> Result<SilentDisk, Fail> {
    Ok(SilentDisk {
        inner: MemDisk::with_files(alloc, Some(main), None, Some(&[7; 9]))?,
    })
}
