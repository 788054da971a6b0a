// A file of more pages than stand in memory. Page 1 is an empty schema, page 2 a trunk of the freelist whose one leaf is page 3, and each
// later page has no place.
ghost use Rattle.std.specs.Prelude.{◌≡◌};

use crate::sealed::{Piece, codec_of, disk_of, lay, plain_page, sealed};
use edge_memory::{MemEntropy, SilentDisk, SilentEntropy};
use edge_model::Role;
use page_codec::Codec;
use pager::Pager;
use rekey_job::{RekeyError, rekey};
use std::alloc::Global;
use std::process::Abort;
use std::test::Fail;

const PAGES: u32 = 70;

// Sections 1.3, 1.5 and 1.6.
const PIECES: [Piece; 8] = [
    (1, 0, b"SQLite format 3\0"),
    (
        1,
        16,
        &[
            4, 0, 1, 1, 48, 64, 32, 32, 0, 0, 0, 1, 0, 0, 0, 70, 0, 0, 0, 2, 0, 0, 0, 2,
        ],
    ),
    (1, 44, &[0, 0, 0, 4]),
    (1, 56, &[0, 0, 0, 1]),
    (1, 92, &[0, 0, 0, 1]),
    (1, 100, &[13, 0, 0, 0, 0, 3]),
    (2, 0, &[0, 0, 0, 0, 0, 0, 0, 1, 0, 0, 0, 3]),
    (3, 0, &[0]),
];

// The file is rekeyed under this codec, with so many bytes of entropy.
fn rekey_file(
    rt: &impl Abort,
    alloc: Global,
    disk: &mut SilentDisk,
    write: Codec,
    draws: &[u8],
) -> Result<Result<(), RekeyError>, Fail> {
    let mut entropy = SilentEntropy {
        inner: MemEntropy::new(alloc, draws, &[])?,
    };
    let pager = Pager::open(alloc, disk, &mut entropy, codec_of(rt, "3", 0), 24)?;
    let (_disk, _entropy, done) = rekey(alloc, pager, write);
    Ok(done)
}

#[test]
fn each_page_opens_under_the_new_key_and_a_leaf_as_zeros(rt: HostRuntime) -> Result<(), Fail> {
    let alloc = rt.alloc();
    let file = sealed(&rt, alloc, PAGES, &PIECES, 3)?;
    let mut disk = disk_of(alloc, file.as_slice())?;
    let done = rekey_file(&rt, alloc, &mut disk, codec_of(&rt, "2", 1), &[7; 3360])?;
    assert_eq!(rt; done, Ok(()));
    assert!(rt; disk.inner.bytes(Role::Journal).is_none());
    assert_eq!(rt;
        disk.inner.bytes(Role::Main).map(|file| file.len()),
        Some(71_680)
    );
    assert!(rt; plain_page(alloc, &mut disk, codec_of(&rt, "3", 0), 1)?.is_none());
    for n in 1..=PAGES {
        let mut plain = [0u8; 976];
        lay(n, &PIECES, &mut plain);
        let page = plain_page(alloc, &mut disk, codec_of(&rt, "2", 1), n)?.ok_or("no page")?;
        assert!(rt; page.as_slice() == plain.as_slice(), "page {n}");
    }
    Ok(())
}
