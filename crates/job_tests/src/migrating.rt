// A file of seven pages, laid out by hand. Page 1 is a schema of three rows: page 2 is a table of two rows, page 3 an index whose middle
// entry stands above the leaves 4 and 5, page 6 an empty table. Page 7 has no place.
ghost use Rattle.std.specs.Prelude.{◌≡◌};

use crate::sealed::{Piece, codec_of, codec_with, disk_of, plain_page, sealed};
use cipher_profile::Secret;
use db_format::Defect;
use edge_memory::{ImagePick, MemDisk, MemEntropy, SilentDisk, SilentEntropy};
use edge_model::Role;
use migrate_job::{MigrateError, migrate};
use pager::Pager;
use profile_word::profile_of;
use std::alloc::Global;
use std::process::Abort;
use std::test::Fail;

const PICKS: [ImagePick; 3] = [ImagePick::Lost, ImagePick::Kept, ImagePick::Torn];

// Sections 1.3, 1.5, 1.6 and 2.1. The change counter is 5, the size 7, the cookie 9, the user version 8. The first row of the schema has
// texts of two bytes a character, the second one a sixth column, the third one a root of four bytes, and a 1 without a byte behind it.
const OLD: [Piece; 17] = [
    (1, 0, b"SQLite format 3\0"),
    (1, 16, &[4, 0, 1, 1, 48, 64, 32, 32, 0, 0, 0, 5, 0, 0, 0, 7]),
    (1, 40, &[0, 0, 0, 9, 0, 0, 0, 4]),
    (1, 56, &[0, 0, 0, 1, 0, 0, 0, 8]),
    (1, 92, &[0, 0, 0, 5]),
    (1, 100, &[13, 0, 0, 0, 3, 3, 160, 0, 3, 191, 3, 177, 3, 160]),
    (
        1,
        928,
        b"\x0f\x03\x07\x0f\x0f\x0f\x04\x0f\x09tnn\x00\x00\x00\x06s",
    ),
    (1, 945, b"\x0c\x02\x07\x0f\x0f\x0f\x01\x0f\x00tnn\x03s"),
    (
        1,
        959,
        b"\x0f\x01\x06\x11\x11\x11\x01\x11t\x00n\x00n\x00\x02S\x00",
    ),
    (2, 0, &[13, 0, 0, 0, 2, 3, 198, 0, 3, 203, 3, 198]),
    (2, 966, &[3, 9, 2, 1, 8, 3, 3, 2, 1, 7]),
    (3, 0, &[2, 0, 0, 0, 1, 3, 200, 0, 0, 0, 0, 5, 3, 200]),
    (3, 968, &[0, 0, 0, 4, 3, 2, 1, 50]),
    (4, 0, &[10, 0, 0, 0, 1, 3, 204, 0, 3, 204, 0, 0]),
    (4, 972, &[3, 2, 1, 40]),
    (5, 0, &[10, 0, 0, 0, 1, 3, 204, 0, 3, 204, 0, 0]),
    (5, 972, &[3, 2, 1, 60]),
];

const EMPTY: Piece = (6, 0, &[13, 0, 0, 0, 0, 3, 208, 0]);

// A second row of the schema that ends behind its root.
const FOUR_COLUMNS: Piece = (1, 945, b"\x09\x02\x05\x0f\x0f\x0f\x01tnn\x03");

// What stands on the new pages, of 1,008 bytes: the kept fields, the rows of the schema with their new roots, which are written in the
// shortest way, and each tree on a page of its own.
const NEW: [Piece; 11] = [
    (1, 24, &[0, 0, 0, 1, 0, 0, 0, 4]),
    (1, 40, &[0, 0, 0, 9, 0, 0, 0, 4]),
    (1, 60, &[0, 0, 0, 8]),
    (1, 100, &[13, 0, 0, 0, 3, 3, 194, 0, 3, 223, 3, 209, 3, 194]),
    (
        1,
        962,
        b"\x0d\x03\x07\x0f\x0f\x0f\x01\x0f\x01tnn\x04s\x01\x0c\x02\x07\x0f\x0f\x0f\x01\x0f\x00tnn\x03s",
    ),
    (
        1,
        991,
        b"\x0f\x01\x06\x11\x11\x11\x01\x11t\x00n\x00n\x00\x02S\x00",
    ),
    (2, 0, &[13, 0, 0, 0, 2, 3, 230, 0, 3, 235, 3, 230]),
    (2, 998, &[3, 9, 2, 1, 8, 3, 3, 2, 1, 7]),
    (3, 0, &[10, 0, 0, 0, 3, 3, 228, 0, 3, 236, 3, 232, 3, 228]),
    (3, 996, &[3, 2, 1, 60, 3, 2, 1, 50, 3, 2, 1, 40]),
    (4, 0, &[13, 0, 0, 0, 0, 3, 240, 0]),
];

// The file with this piece laid on it last.
fn old_file(rt: &impl Abort, alloc: Global, last: Piece) -> Result<Vec<u8>, Fail> {
    let mut pieces = Vec::new(alloc);
    pieces.extend_from_slice(&OLD)?;
    pieces.push(EMPTY)?;
    pieces.push(last)?;
    sealed(rt, alloc, 7, pieces.as_slice(), 7)
}

// The file is migrated into this profile, with these bytes of entropy. None where it is not opened.
fn migrate_file(
    rt: &impl Abort,
    alloc: Global,
    disk: &mut SilentDisk,
    word: &str,
    draws: &[u8],
) -> Result<Option<Result<u32, MigrateError>>, Fail> {
    let Some(profile) = profile_of(word) else {
        panic!(rt; "no profile");
    };
    let mut entropy = SilentEntropy {
        inner: MemEntropy::new(alloc, draws, &[])?,
    };
    match Pager::open(alloc, disk, &mut entropy, codec_of(rt, "3", 0), 64) {
        Ok(pager) => {
            let (_disk, _entropy, done) = migrate(alloc, pager, profile, &Secret::Raw([2; 32]));
            Ok(Some(done))
        }
        Err(_) => Ok(None),
    }
}

// The page without a place is not read, and two of the roots have other numbers.
#[test]
fn each_row_and_the_kept_fields_are_in_a_file_of_profile_1(rt: HostRuntime) -> Result<(), Fail> {
    let alloc = rt.alloc();
    let old = old_file(&rt, alloc, EMPTY)?;
    let mut disk = disk_of(alloc, old.as_slice())?;
    let done = migrate_file(&rt, alloc, &mut disk, "1", &[5; 80])?;
    assert_eq!(rt; done, Some(Ok(4)));
    assert!(rt; disk.inner.bytes(Role::Fresh).is_none());
    assert_eq!(rt;
        disk.inner.bytes(Role::Main).map(|file| file.len()),
        Some(4_096)
    );
    for (n, at, bytes) in NEW {
        let codec = codec_with(&rt, "1", &Secret::Raw([2; 32]), [5; 16]);
        let page = plain_page(alloc, &mut disk, codec, n)?.ok_or("no page")?;
        let end = at.saturating_add(bytes.len());
        assert_eq!(rt; page.get(at..end), Some(bytes), "{n} {at}");
    }
    Ok(())
}

// How many of the images have the old file as Main, and how many this one; no image has a Journal.
fn images(rt: &impl Abort, disk: &MemDisk, old: &[u8], new: &[u8]) -> Result<(usize, usize), Fail> {
    let mut as_before = 0usize;
    let mut renewed = 0usize;
    for pick in PICKS {
        let image = disk.image(pick)?;
        assert!(rt; image.bytes(Role::Journal).is_none());
        if image.bytes(Role::Main) == Some(old) {
            as_before = as_before.saturating_add(1);
        }
        if image.bytes(Role::Main) == Some(new) {
            renewed = renewed.saturating_add(1);
        }
    }
    Ok((as_before, renewed))
}

// The run has fewer than 60 calls. A stop lets some through and then none; a failure is of one call alone.
#[test]
fn a_stop_or_a_failure_leaves_the_old_file_or_the_new_one(rt: HostRuntime) -> Result<(), Fail> {
    let alloc = rt.alloc();
    let old = old_file(&rt, alloc, EMPTY)?;
    let mut whole = disk_of(alloc, old.as_slice())?;
    let draws = &[6; 208];
    assert_eq!(rt;
        migrate_file(&rt, alloc, &mut whole, "3", draws)?,
        Some(Ok(4))
    );
    let new = whole.inner.bytes(Role::Main).ok_or("no file")?;
    let mut done = 0u64;
    for calls in 0..60u64 {
        for alone in [false, true] {
            let mut disk = disk_of(alloc, old.as_slice())?;
            if alone {
                disk.inner.fail_calls(&[calls.saturating_add(1)])?;
            } else {
                disk.inner.stop_after(calls);
            }
            let ended = migrate_file(&rt, alloc, &mut disk, "3", draws)?;
            let (as_before, renewed) = images(&rt, &disk.inner, old.as_slice(), new)?;
            assert_eq!(rt; as_before.wrapping_add(renewed), 3, "{calls} {alone}");
            match ended {
                Some(Ok(_)) => {
                    assert_eq!(rt; renewed, 3, "{calls} {alone}");
                    done = done.saturating_add(1);
                }
                Some(Err(error)) => assert_eq!(rt;
                    error,
                    MigrateError::DiskFault,
                    "{calls} {alone}"
                ),
                None => assert_eq!(rt; as_before, 3, "{calls} {alone}"),
            }
        }
    }
    assert!(rt; done > 1);
    Ok(())
}

const ROW: MigrateError = MigrateError::Defect(Defect::SchemaRow { rowid: 2 });

// What is laid on the file last, how many bytes may be drawn, and what is answered. The salt takes 16 bytes, and each of the four pages 48.
// A defect is found before anything is drawn.
const UNFINISHED: [(Piece, usize, MigrateError); 7] = [
    (EMPTY, 0, MigrateError::EntropyFault),
    (EMPTY, 15, MigrateError::EntropyFault),
    (EMPTY, 16, MigrateError::EntropyFault),
    (EMPTY, 63, MigrateError::EntropyFault),
    (EMPTY, 207, MigrateError::EntropyFault),
    (FOUR_COLUMNS, 0, ROW),
    (FOUR_COLUMNS, 208, ROW),
];

#[test]
fn what_is_not_finished_leaves_the_old_file(rt: HostRuntime) -> Result<(), Fail> {
    let alloc = rt.alloc();
    for (last, had, error) in UNFINISHED {
        let old = old_file(&rt, alloc, last)?;
        let mut disk = disk_of(alloc, old.as_slice())?;
        let draws = [6; 208];
        let ended = migrate_file(&rt, alloc, &mut disk, "3", draws.get(..had).unwrap_or(&[]))?;
        assert_eq!(rt; ended, Some(Err(error)), "{had}");
        let (as_before, _) = images(&rt, &disk.inner, old.as_slice(), &[])?;
        assert_eq!(rt; as_before, 3, "{had}");
    }
    Ok(())
}
