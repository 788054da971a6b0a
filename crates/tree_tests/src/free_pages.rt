// Freelists made by hand from section 1.5: five pages of 512 bytes, zeros but for the numbers that are given.
ghost use Rattle.std.specs.Prelude.{◌≡◌, ◌≤◌, ◌+◌, length};

use btree_walk::WalkError;
use db_format::{Defect, Header, MemPages, PageSource, Seen, u32_at};
use space_map::freelist;
use std::alloc::Global;
use std::test::Fail;

#[derive(Clone, Copy, PartialEq)]
enum Found {
    Free(u32),
    Wrong(Defect),
    Refused,
}

/// The header of a database with these two fields.
fn header(first_trunk: u32, free_count: u32) -> Header
    ensures first { result.first_trunk ≡ first_trunk }
    ensures kept { result.free_count ≡ free_count }
{
    Header {
        page_size: 512,
        reserve: 0,
        change: 1,
        size_field: 5,
        first_trunk,
        free_count,
        cookie: 0,
        format: 4,
        cache: 0,
        encoding: 1,
        user_version: 0,
        application_id: 0,
        valid_for: 1,
        sqlite_number: 3_045_000,
    }
}

/// What a walk of the freelist finds, and which pages it marks and knows as leaves.
fn walk<S: PageSource>(alloc: Global, source: &mut S) -> Result<(Found, u32, u32), Fail>
where
    S::Refusal: Drop,
{
    let Ok(()) = source.load(1) else {
        return Ok((Found::Refused, 0, 0));
    };
    let page = source.loaded();
    let header = header(u32_at(page, 32), u32_at(page, 36));
    let mut seen = Seen::new(alloc, source.pages())?;
    match freelist(alloc, source, &header, &mut seen) {
        Ok(map) => {
            let mut marks = 0u32;
            let mut leaves = 0u32;
            for n in 1..6u32 {
                if seen.has(n) {
                    marks = marks | (1u32 << n);
                }
                if map.is_leaf(n) {
                    leaves = leaves | (1u32 << n);
                }
            }
            Ok((Found::Free(map.count()), marks, leaves))
        }
        Err(WalkError::Defect(defect)) => Ok((Found::Wrong(defect), 0, 0)),
        Err(_) => Ok((Found::Refused, 0, 0)),
    }
}

/// The numbers, each with its page and its offset in bytes, in five pages.
fn walk_pages(alloc: Global, numbers: &[(usize, usize, u32)]) -> Result<(Found, u32, u32), Fail> {
    let mut bytes = [0u8; 2560];
    for (page, at, number) in numbers {
        if 1 <= *page && *page <= 5 && *at <= 508 {
            let start = (*page - 1) * 512 + *at;
            bytes[start..start + 4].copy_from_slice(&number.to_be_bytes());
        }
    }
    let mut source = MemPages::new(alloc, 512, &bytes)?;
    walk(alloc, &mut source)
}

// The numbers, the count of free pages, the marked pages and the leaves; the bit of page n is 1 << n.
#[test]
fn trunks_and_leaves_are_found(rt: HostRuntime) -> Result<(), Fail> {
    let table: [(&[(usize, usize, u32)], u32, u32, u32); 3] = [
        (&[], 0, 0, 0),
        (&[(1, 32, 3), (1, 36, 1)], 1, 0b1000, 0),
        // trunk 3 with the leaves 4 and 5, then trunk 2
        (
            &[
                (1, 32, 3),
                (1, 36, 4),
                (3, 0, 2),
                (3, 4, 2),
                (3, 8, 4),
                (3, 12, 5),
            ],
            4,
            0b111100,
            0b110000,
        ),
    ];
    for (numbers, count, marks, leaves) in table {
        let found = walk_pages(rt.alloc(), numbers)?;
        assert!(rt;
            found == (Found::Free(count), marks, leaves),
            "{count} pages"
        );
    }
    Ok(())
}

#[test]
fn each_defect_is_named(rt: HostRuntime) -> Result<(), Fail> {
    let table: [(&[(usize, usize, u32)], Defect); 9] = [
        (
            &[(1, 32, 3), (1, 36, 2)],
            Defect::FreeCount { kept: 2, found: 1 },
        ),
        (&[(1, 36, 1)], Defect::FreeCount { kept: 1, found: 0 }),
        (&[(1, 32, 6)], Defect::TrunkFault { page: 1 }),
        (&[(1, 32, 1)], Defect::TrunkFault { page: 1 }),
        (&[(1, 32, 2), (2, 0, 1)], Defect::TrunkFault { page: 2 }),
        // a page has room for 126 leaves
        (&[(1, 32, 2), (2, 4, 127)], Defect::TrunkFault { page: 2 }),
        // leaf 2 is the trunk itself, but leaf 9 is no page
        (
            &[(1, 32, 2), (2, 4, 2), (2, 8, 2), (2, 12, 9)],
            Defect::TrunkFault { page: 2 },
        ),
        (
            &[(1, 32, 2), (2, 4, 2), (2, 8, 3), (2, 12, 3)],
            Defect::PageTwice { page: 3 },
        ),
        (&[(1, 32, 2), (2, 0, 2)], Defect::PageTwice { page: 2 }),
    ];
    for (numbers, defect) in table {
        let found = walk_pages(rt.alloc(), numbers)?;
        assert!(rt; found == (Found::Wrong(defect), 0, 0), "{defect:?}");
    }
    Ok(())
}
