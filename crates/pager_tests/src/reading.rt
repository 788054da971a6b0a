// Pages that are lent, and each refusal of a page or of a file.

use crate::sealed_file::{SALT, codec_of, disk_of, put_plain, sealed};
use edge_memory::{MemEntropy, SilentDisk};
use edge_model::{Disk, Entropy, Role};
use pager::{OpenError, PageError, PageSource, Pager};
use std::alloc::Global;
use std::process::Abort;
use std::test::Fail;

// The file under this key, with 24 frames.
fn opened<'d>(
    rt: &impl Abort,
    alloc: Global,
    disk: &'d mut SilentDisk,
    entropy: &'d mut MemEntropy,
    key: u8,
) -> Result<Pager<'d, SilentDisk, MemEntropy>, OpenError> {
    Pager::open(alloc, disk, entropy, codec_of(rt, key), 24)
}

fn check_page<D: Disk, E: Entropy>(rt: &impl Abort, pager: &mut Pager<'_, D, E>, n: u32) {
    let mut plain = [0u8; 976];
    put_plain(n, &mut plain);
    match pager.page(n) {
        Ok(page) => assert!(rt; page == plain.as_slice(), "page {n}"),
        Err(error) => panic!(rt; "page {n}: {error:?}"),
    }
}

fn check_refused<D: Disk, E: Entropy>(
    rt: &impl Abort,
    pager: &mut Pager<'_, D, E>,
    n: u32,
    expected: PageError,
) {
    match pager.page(n) {
        Ok(_) => panic!(rt; "page {n} is lent"),
        Err(error) => assert_eq!(rt; error, expected, "page {n}"),
    }
}

#[test]
fn sixty_pages_pass_through_24_frames(rt: HostRuntime) -> Result<(), Fail> {
    let alloc = rt.alloc();
    let file = sealed(&rt, alloc, &[])?;
    let mut disk = disk_of(alloc, Some(file.as_slice()), &[], None)?;
    let mut entropy = MemEntropy::new(alloc, &[], &[])?;
    let mut pager = opened(&rt, alloc, &mut disk, &mut entropy, 0)?;
    assert_eq!(rt; pager.pages(), 60);
    assert_eq!(rt; pager.usable(), 976);
    assert_eq!(rt; pager.header().size_field, 60);
    assert_eq!(rt; pager.codec().salt(), *SALT);
    for n in 1u32..61 {
        check_page(&rt, &mut pager, n);
    }
    check_page(&rt, &mut pager, 1);
    let (disk, _entropy) = pager.into_parts();
    assert_eq!(rt; disk.length(Role::Main), Ok(Some(61_440)));
    Ok(())
}

#[test]
fn pinned_pages_keep_their_frames(rt: HostRuntime) -> Result<(), Fail> {
    let alloc = rt.alloc();
    let file = sealed(&rt, alloc, &[])?;
    let mut disk = disk_of(alloc, Some(file.as_slice()), &[], None)?;
    let mut entropy = MemEntropy::new(alloc, &[], &[])?;
    let mut pager = opened(&rt, alloc, &mut disk, &mut entropy, 0)?;
    for n in 1u32..25 {
        check_page(&rt, &mut pager, n);
        assert!(rt; pager.pins(n) == 0, "page {n}");
        assert!(rt; pager.pin(n), "page {n}");
    }
    check_refused(&rt, &mut pager, 25, PageError::AllPinned);
    check_page(&rt, &mut pager, 7);
    assert!(rt; pager.unpin(7));
    assert!(rt; !pager.unpin(7));
    check_page(&rt, &mut pager, 25);
    assert!(rt; !pager.unpin(26));
    Ok(())
}

#[test]
fn answers_each_refusal_of_a_page(rt: HostRuntime) -> Result<(), Fail> {
    let alloc = rt.alloc();
    let mut file = sealed(&rt, alloc, &[])?;
    // a byte of page 9
    if let Some(byte) = file.get_mut(8_200) {
        *byte ^= 1;
    }
    // `open` asks for the length and for page 1
    let mut disk = disk_of(alloc, Some(file.as_slice()), &[4], None)?;
    let mut entropy = MemEntropy::new(alloc, &[], &[])?;
    let mut pager = opened(&rt, alloc, &mut disk, &mut entropy, 0)?;
    check_page(&rt, &mut pager, 8);
    // (far from page 8, so that it is read alone)
    check_refused(&rt, &mut pager, 30, PageError::DiskFault);
    check_page(&rt, &mut pager, 30);
    check_refused(&rt, &mut pager, 0, PageError::OutOfRange);
    check_refused(&rt, &mut pager, 61, PageError::OutOfRange);
    check_refused(&rt, &mut pager, 9, PageError::TagRefused { page: 9 });
    check_refused(&rt, &mut pager, 9, PageError::TagRefused { page: 9 });
    check_page(&rt, &mut pager, 60);
    Ok(())
}

#[test]
fn answers_each_refusal_of_a_file(rt: HostRuntime) -> Result<(), Fail> {
    let alloc = rt.alloc();
    let rows: [(&[(usize, u8)], usize, u8, u64, OpenError); 11] = [
        (&[], 0, 0, 0, OpenError::Empty),
        (&[], 1_023, 0, 0, OpenError::Short { length: 1_023 }),
        (&[], 61_440, 1, 0, OpenError::KeyRefused),
        (
            &[(21, 63)],
            61_440,
            0,
            0,
            OpenError::HeaderFault {
                offset: 21,
                found: 63,
            },
        ),
        (&[(18, 2)], 61_440, 0, 0, OpenError::WalMode),
        (&[(55, 1)], 61_440, 0, 0, OpenError::AutoVacuum),
        (
            &[(95, 2)],
            61_000,
            0,
            0,
            OpenError::Ragged { length: 61_000 },
        ),
        (
            &[(29, 16), (31, 1)],
            61_440,
            0,
            0,
            OpenError::TooLarge { pages: 1_048_577 },
        ),
        (&[], 61_439, 0, 0, OpenError::Short { length: 61_439 }),
        (&[], 61_440, 0, 1, OpenError::DiskFault),
        (&[], 61_440, 0, 2, OpenError::DiskFault),
    ];
    for (changes, length, key, failing, expected) in rows {
        let file = sealed(&rt, alloc, changes)?;
        let mut disk = disk_of(alloc, file.as_slice().get(..length), &[failing], None)?;
        let mut entropy = MemEntropy::new(alloc, &[], &[])?;
        match opened(&rt, alloc, &mut disk, &mut entropy, key) {
            Ok(_) => panic!(rt; "{expected:?}"),
            Err(error) => assert_eq!(rt; error, expected),
        }
    }
    Ok(())
}
