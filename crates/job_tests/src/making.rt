// Files over a disk and an entropy in memory. Tags are from an independent writer, which has SQLite build the file of no rows and seals
// its pages with zeros. Its page 1 has the 0 of the view's root in another of the two forms that a record knows.
use cipher_profile::Secret;
use edge_memory::{ImagePick, MemDisk, MemEntropy};
use edge_model::Role;
use make_job::{Made, MakeError, make};
use profile_word::profile_of;
use std::alloc::{AllocError, Global};
use std::process::Abort;
use std::test::Fail;

const PICKS: [ImagePick; 3] = [ImagePick::Lost, ImagePick::Kept, ImagePick::Torn];

/// Makes so many rows under the key of bytes 0 to 31, with zeros as the drawn bytes.
pub fn make_rows(
    rt: &impl Abort,
    alloc: Global,
    name: &str,
    rows: u32,
    disk: &mut MemDisk,
) -> Result<Result<Made, MakeError>, AllocError> {
    let Some(profile) = profile_of(name) else {
        panic!(rt; "no profile");
    };
    let mut key = [0u8; 32];
    for i in 0..32 {
        key[i] = i as u8;
    }
    let mut entropy = MemEntropy::new(alloc, &[0; 4096], &[]).map_err(|_| AllocError)?;
    Ok(make(alloc, profile, &Secret::Raw(key), rows, disk, &mut entropy))
}

// Where the tags of pages 2 to 4 stand, and how they begin.
const TAGS: [(usize, &[u8]); 3] = [
    (8_128, b"\x16\xf6\xe2\x62\xfa\x64\xde\x26"),
    (12_224, b"\xcf\x6d\x3c\x5a\xb2\x3d\x37\x83"),
    (16_320, b"\xa7\xf2\xf3\xec\x28\x49\xfd\x5e"),
];

#[test]
fn the_roots_of_empty_trees_are_those_of_another_writer(rt: HostRuntime) -> Result<(), Fail> {
    let alloc = rt.alloc();
    let mut disk = MemDisk::with_files(alloc, None, None, Some(&[7; 9]))?;
    let made = make_rows(&rt, alloc, "4", 0, &mut disk)?;
    assert_eq!(rt; made, Ok(Made { rows: 0, bytes: 0 }));
    let file = disk.bytes(Role::Main).ok_or("no file")?;
    assert_eq!(rt; file.len(), 16_384);
    for (at, tag) in TAGS {
        assert_eq!(rt; file.get(at..at.saturating_add(8)), Some(tag), "{at}");
    }
    assert!(rt; disk.bytes(Role::Fresh).is_none());
    Ok(())
}

// How many of the images have no Main, and how many have this file as Main and no journal.
fn images(disk: &MemDisk, file: &[u8]) -> Result<(usize, usize), AllocError> {
    let mut none = 0usize;
    let mut whole = 0usize;
    for pick in PICKS {
        let image = disk.image(pick).map_err(|_| AllocError)?;
        if image.bytes(Role::Main).is_none() {
            none = none.saturating_add(1);
        }
        if image.bytes(Role::Main) == Some(file) && image.bytes(Role::Journal).is_none() {
            whole = whole.saturating_add(1);
        }
    }
    Ok((none, whole))
}

#[test]
fn a_stop_leaves_no_file_or_the_whole_one(rt: HostRuntime) -> Result<(), Fail> {
    let alloc = rt.alloc();
    let mut whole = MemDisk::new(alloc);
    let made = make_rows(&rt, alloc, "3", 7, &mut whole)?;
    let seven = Made {
        rows: 7,
        bytes: 14_000,
    };
    assert_eq!(rt; made, Ok(seven));
    let file = whole.bytes(Role::Main).ok_or("no file")?;
    let mut done = 0u64;
    for calls in 0..48u64 {
        let mut disk = MemDisk::new(alloc);
        disk.stop_after(calls);
        let made = make_rows(&rt, alloc, "3", 7, &mut disk)?;
        let (none, new) = images(&disk, file)?;
        assert_eq!(rt; none.wrapping_add(new), 3, "{calls}");
        if made.is_ok() {
            assert_eq!(rt; new, 3);
            done = done.saturating_add(1);
        } else {
            assert_eq!(rt; made, Err(MakeError::DiskFault));
        }
    }
    assert!(rt; done > 0);
    Ok(())
}
