// Pages that are read together, before they are asked for: each is lent or refused as it is alone.

use crate::sealed_file::{codec_of, disk_of, put_plain, sealed};
use edge_memory::MemEntropy;
use edge_model::{Disk, Entropy};
use pager::{PageError, PageSource, Pager};
use std::process::Abort;
use std::test::Fail;

// Page 1 as an interior page of a table whose children are pages 40, 9, 30 and 50 (Database File Format, section 1.6).
const INTERIOR: [(usize, u8); 24] = [
    (100, 5),
    (103, 0),
    (104, 3),
    (108, 0),
    (109, 0),
    (110, 0),
    (111, 50),
    (112, 1),
    (113, 44),
    (114, 1),
    (115, 54),
    (116, 1),
    (117, 64),
    (300, 0),
    (301, 0),
    (302, 0),
    (303, 40),
    (310, 0),
    (311, 0),
    (312, 0),
    (313, 9),
    (320, 0),
    (321, 0),
    (322, 0),
];

// The one that has page 30 behind it.
const LAST_CELL: (usize, u8) = (323, 30);

// Page n by its own rules, where page 9 has a wrong tag. A disk that failed is asked once more.
fn check<D: Disk, E: Entropy>(rt: &impl Abort, pager: &mut Pager<'_, D, E>, n: u32) {
    let mut plain = [0u8; 976];
    put_plain(n, &mut plain);
    for _again in 0..2 {
        match pager.page(n) {
            Ok(page) => {
                assert!(rt; n != 9 && page == plain.as_slice(), "page {n}");
                return;
            }
            Err(PageError::DiskFault) => {}
            Err(error) => {
                assert!(rt;
                    n == 9 && error == PageError::TagRefused { page: 9 },
                    "page {n}: {error:?}"
                );
                return;
            }
        }
    }
    panic!(rt; "page {n} fails twice");
}

#[test]
fn pages_in_order_beside_a_refused_one(rt: HostRuntime) -> Result<(), Fail> {
    let alloc = rt.alloc();
    let mut file = sealed(&rt, alloc, &[])?;
    // a byte of page 9
    if let Some(byte) = file.get_mut(8_200) {
        *byte ^= 1;
    }
    // each read failing in turn
    for failing in 3u64..30 {
        let mut disk = disk_of(alloc, Some(file.as_slice()), &[failing], None)?;
        let mut entropy = MemEntropy::new(alloc, &[], &[])?;
        match Pager::open(alloc, &mut disk, &mut entropy, codec_of(&rt, 0), 24) {
            Ok(mut pager) => {
                for n in 1u32..61 {
                    check(&rt, &mut pager, n);
                }
            }
            Err(error) => panic!(rt; "{error:?}"),
        }
    }
    Ok(())
}

#[test]
fn children_beside_a_refused_one(rt: HostRuntime) -> Result<(), Fail> {
    let alloc = rt.alloc();
    let mut changes = Vec::new(alloc);
    changes.extend_from_slice(&INTERIOR)?;
    changes.push(LAST_CELL)?;
    let mut file = sealed(&rt, alloc, &changes)?;
    if let Some(byte) = file.get_mut(8_200) {
        *byte ^= 1;
    }
    for failing in 3u64..12 {
        let mut disk = disk_of(alloc, Some(file.as_slice()), &[failing], None)?;
        let mut entropy = MemEntropy::new(alloc, &[], &[])?;
        match Pager::open(alloc, &mut disk, &mut entropy, codec_of(&rt, 0), 24) {
            Ok(mut pager) => {
                for n in [40u32, 9, 30, 50] {
                    let _parent = pager.load(1);
                    check(&rt, &mut pager, n);
                }
            }
            Err(error) => panic!(rt; "{error:?}"),
        }
    }
    Ok(())
}
