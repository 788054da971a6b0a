// Rows by their rowids in a file of the real product, and in that file with one byte changed.

use crate::real_pages::PAGES;
use btree_walk::WalkError;
use db_format::{Counted, Defect, MemPages};
use edge_memory::MemSink;
use rowid_find::{FindError, find};
use std::alloc::{AllocError, Global};
use std::process::Abort;
use std::test::Fail;

fn built(alloc: Global, runs: &[(usize, &[u8])]) -> Result<Vec<u8>, AllocError> {
    let mut bytes = Vec::new(alloc);
    for (times, piece) in runs {
        for _ in 0..*times {
            bytes.extend_from_slice(piece)?;
        }
    }
    Ok(bytes)
}

// How a search ends.
#[derive(Clone, Copy, Debug, PartialEq, Eq)]
enum End {
    Rows(u64),
    Found(Defect),
    Other,
}

// What a search of the table with root 2 comes to, and how many pages it reads.
fn search(
    alloc: Global,
    plain: &[u8],
    low: i64,
    high: i64,
    sink: &mut MemSink,
) -> Result<(End, u64), AllocError> {
    if plain.len() != 11 * 976 {
        return Err(AllocError);
    }
    let mut pages = MemPages::new(alloc, 976, plain).map_err(|_| AllocError)?;
    let mut source = Counted::new(&mut pages);
    let end = match find(alloc, &mut source, 2, low, high, sink) {
        Ok(rows) => End::Rows(rows),
        Err(FindError::Walk(WalkError::Defect(defect))) => End::Found(defect),
        Err(_) => End::Other,
    };
    Ok((end, source.reads()))
}

// How many lines were put.
fn lines(text: &[u8]) -> u64 {
    let mut count = 0u64;
    for byte in text {
        if *byte == b'\n' {
            count = count.saturating_add(1);
        }
    }
    count
}

const ALL: (i64, i64) = (i64::MIN, i64::MAX);

// No byte is changed here.
const NOWHERE: usize = 11 * 976;

// Rows stand at 5, 10 .. 60. Page 2 is the root. Its cells lead to page 6 up to key 20, to page 7 up to 35 and to page 9 up to 55,
// its right child is page 11, and the row of 35 goes on in page 8.
#[test]
fn rows_are_found_up_to_a_defect(rt: HostRuntime) -> Result<(), Fail> {
    // a changed byte, a range, how the search ends, how many lines it puts, and how many pages it reads
    let searches: [(usize, u8, (i64, i64), End, u64, u64); 18] = [
        (NOWHERE, 0, (5, 5), End::Rows(1), 2, 2),
        (NOWHERE, 0, (35, 35), End::Rows(1), 2, 3),
        (NOWHERE, 0, (40, 40), End::Rows(1), 2, 2),
        (NOWHERE, 0, (60, 60), End::Rows(1), 2, 2),
        (NOWHERE, 0, (61, 61), End::Rows(0), 1, 2),
        (NOWHERE, 0, (-5, 0), End::Rows(0), 1, 2),
        (NOWHERE, 0, (7, 6), End::Rows(0), 1, 0),
        (NOWHERE, 0, (20, 21), End::Rows(1), 2, 3),
        (NOWHERE, 0, (21, 36), End::Rows(3), 4, 4),
        (NOWHERE, 0, ALL, End::Rows(12), 13, 6),
        // the kind of page 7
        (
            6 * 976,
            10,
            ALL,
            End::Found(Defect::BadKind { page: 7 }),
            4,
            3,
        ),
        // the first cell offset of page 9
        (
            8 * 976 + 8,
            255,
            ALL,
            End::Found(Defect::BadCell { page: 9, index: 0 }),
            7,
            5,
        ),
        // the right child of the root
        (
            976 + 11,
            12,
            ALL,
            End::Found(Defect::ChildOutOfRange { page: 2 }),
            11,
            5,
        ),
        // a page behind the last overflow page
        (
            7 * 976 + 3,
            3,
            ALL,
            End::Found(Defect::ChainLong { page: 8 }),
            6,
            4,
        ),
        // the right child of the root is the root
        (
            976 + 11,
            2,
            ALL,
            End::Found(Defect::PageTwice { page: 2 }),
            11,
            5,
        ),
        // two children are page 7
        (
            976 + 964,
            7,
            ALL,
            End::Found(Defect::PageTwice { page: 7 }),
            7,
            4,
        ),
        // neither is on the way to one row
        (976 + 11, 2, (5, 5), End::Rows(1), 2, 2),
        (976 + 964, 7, (35, 35), End::Rows(1), 2, 3),
    ];
    for (at, byte, (low, high), end, put, reads) in searches.iter() {
        let mut plain = built(rt.alloc(), PAGES)?;
        if *at < plain.len() {
            plain[*at] = *byte;
        }
        let mut sink = MemSink::new(rt.alloc(), &[]).map_err(|_| AllocError)?;
        let came = search(rt.alloc(), plain.as_slice(), *low, *high, &mut sink)?;
        assert_eq!(rt; came, (*end, *reads), "{at}: {low} to {high}");
        assert_eq!(rt; lines(sink.bytes()), *put, "{at}: {low} to {high}");
    }
    Ok(())
}

#[test]
fn a_row_has_its_line(rt: HostRuntime) -> Result<(), Fail> {
    let plain = built(rt.alloc(), PAGES)?;
    let mut sink = MemSink::new(rt.alloc(), &[]).map_err(|_| AllocError)?;
    search(rt.alloc(), plain.as_slice(), 1, 5, &mut sink)?;
    let text = built(
        rt.alloc(),
        &[
            (1, b"row 5 null '"),
            (200, b"m"),
            (1, b"' null\nfound: 1 rows\n"),
        ],
    )?;
    assert_eq!(rt; sink.bytes(), text.as_slice());
    Ok(())
}

#[test]
fn a_failing_sink_ends_a_search(rt: HostRuntime) -> Result<(), Fail> {
    let plain = built(rt.alloc(), PAGES)?;
    let mut sink = MemSink::new(rt.alloc(), &[1]).map_err(|_| AllocError)?;
    let end = search(rt.alloc(), plain.as_slice(), 5, 5, &mut sink)?;
    assert_eq!(rt; end, (End::Other, 2));
    Ok(())
}
