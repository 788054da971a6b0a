// Journals of pages of 1,024 bytes in sectors of 512, made by hand from the format, beside a Main of pages of ones.
mod writer;

use crate::files::{answer_of, disk_with, each_recovers, is_left, plan_faults, runs_of};
use edge_memory::{MemDisk, SilentDisk};
use edge_model::Role;
use rollback_journal::{RecoverError, Recovery};
use std::alloc::Global;
use std::test::Fail;

/// A header with this first byte and these fields in a sector of 512 bytes, and for each page a record of nines. Of 1,024
/// bytes the checksum takes five.
fn put_segment(out: &mut Vec<u8>, gate: u8, fields: [u32; 5], pages: &[u32]) -> Result<(), Fail> {
    out.extend_from_slice(&[gate, 0xd5, 0x05, 0xf9, 0x20, 0xa1, 0x63, 0xd7])?;
    for field in fields {
        out.extend_from_slice(&field.to_be_bytes())?;
    }
    out.extend_from_slice(&[0; 484])?;
    for page in pages {
        out.extend_from_slice(&page.to_be_bytes())?;
        out.extend_from_slice(&[9; 1024])?;
        out.extend_from_slice(&fields[1].wrapping_add(45).to_be_bytes())?;
    }
    Ok(())
}

/// One record in each of two segments with these first bytes, for pages 2 and 4 of a database of four pages. The second
/// segment begins at 2,048.
fn two_segments(alloc: Global, gates: [u8; 2]) -> Result<Vec<u8>, Fail> {
    let mut journal = Vec::new(alloc);
    put_segment(&mut journal, gates[0], [1, 7, 4, 512, 1024], &[2])?;
    journal.extend_from_slice(&[0; 504])?;
    put_segment(&mut journal, gates[1], [1, 8, 99, 512, 77], &[4])?;
    Ok(journal)
}

fn disk_of(alloc: Global, main: &[u8], journal: Option<&[u8]>) -> Result<MemDisk, Fail> {
    let main = runs_of(alloc, 1024, main)?;
    disk_with(alloc, Some(&main), journal, None)
}

/// Whether the recovery of four pages of ones beside this journal answers so, and leaves these pages and no journal.
fn recovers(alloc: Global, journal: &[u8], answer: Recovery, main: &[u8]) -> Result<bool, Fail> {
    let mut disk = disk_of(alloc, &[1, 1, 1, 1], Some(journal))?;
    let answered = answer_of(alloc, &mut disk, 1024) == Ok(answer);
    let main = runs_of(alloc, 1024, main)?;
    Ok(answered && is_left(&disk, &main))
}

/// Whether it is refused so, and both files stay.
fn refuses(alloc: Global, journal: &[u8], why: RecoverError) -> Result<bool, Fail> {
    let mut disk = disk_of(alloc, &[1, 1, 1, 1], Some(journal))?;
    let answered = answer_of(alloc, &mut disk, 1024) == Err(why);
    let main = runs_of(alloc, 1024, &[1, 1, 1, 1])?;
    let same = disk.bytes(Role::Main) == Some(main.as_slice());
    Ok(answered && same && disk.bytes(Role::Journal) == Some(journal))
}

/// A journal of one segment, its answer, and the four pages of ones after it.
#[derive(Drop)]
struct Row {
    fields: [u32; 5],
    pages: &'static [u32],
    answer: Recovery,
    main: &'static [u8],
}

#[test]
fn records_are_played_up_to_the_first_that_is_not_good(rt: HostRuntime) -> Result<(), Fail> {
    let table = [
        // the header announces five, and the file ends behind two
        Row {
            fields: [5, 7, 4, 512, 1024],
            pages: &[2, 3],
            answer: Recovery::Played { records: 2 },
            main: &[1, 9, 9, 1],
        },
        // the second has number 0
        Row {
            fields: [3, 7, 4, 512, 1024],
            pages: &[2, 0, 3],
            answer: Recovery::Played { records: 1 },
            main: &[1, 9, 1, 1],
        },
        // page 3 is above the initial size, to which Main is cut
        Row {
            fields: [2, 7, 2, 512, 1024],
            pages: &[3, 2],
            answer: Recovery::Played { records: 1 },
            main: &[1, 9],
        },
        // 48 is no sector size
        Row {
            fields: [2, 7, 4, 48, 1024],
            pages: &[2, 3],
            answer: Recovery::Cold,
            main: &[1, 1, 1, 1],
        },
    ];
    for row in table {
        let mut journal = Vec::new(rt.alloc());
        put_segment(&mut journal, 0xd9, row.fields, row.pages)?;
        assert!(rt;
            recovers(rt.alloc(), &journal, row.answer, row.main)?,
            "{:?}",
            row.pages
        );
    }
    Ok(())
}

#[test]
fn segments_are_played_one_after_another(rt: HostRuntime) -> Result<(), Fail> {
    let both = two_segments(rt.alloc(), [0xd9, 0xd9])?;
    let two = Recovery::Played { records: 2 };
    assert!(rt; recovers(rt.alloc(), &both, two, &[1, 9, 1, 9])?);
    let damaged = two_segments(rt.alloc(), [0xd9, 0])?;
    let one = Recovery::Played { records: 1 };
    assert!(rt; recovers(rt.alloc(), &damaged, one, &[1, 9, 1, 1])?);
    let closed = two_segments(rt.alloc(), [0, 0xd9])?;
    assert!(rt; recovers(rt.alloc(), &closed, Recovery::Cold, &[1, 1, 1, 1])?);
    assert!(rt; recovers(rt.alloc(), &[0xd9; 27], Recovery::Cold, &[1, 1, 1, 1])?);
    // as many as there are: two, and 100 bytes
    let mut open = Vec::new(rt.alloc());
    put_segment(&mut open, 0xd9, [0xffff_ffff, 7, 4, 512, 1024], &[2, 3])?;
    open.extend_from_slice(&[9; 100])?;
    assert!(rt; recovers(rt.alloc(), &open, two, &[1, 9, 9, 1])?);
    Ok(())
}

#[test]
fn a_journal_is_refused_or_there_is_nothing_to_do(rt: HostRuntime) -> Result<(), Fail> {
    for found in [0, 4096] {
        let mut journal = Vec::new(rt.alloc());
        put_segment(&mut journal, 0xd9, [1, 7, 4, 512, found], &[2])?;
        let why = RecoverError::JournalPageSize { found };
        assert!(rt; refuses(rt.alloc(), &journal, why)?);
    }
    // the name of a super-journal, its length, a sum and the magic
    let mut named = two_segments(rt.alloc(), [0xd9, 0xd9])?;
    named.extend_from_slice(b"name\0\0\0\x04\0\0\0\x09")?;
    named.extend_from_slice(&[0xd9, 0xd5, 0x05, 0xf9, 0x20, 0xa1, 0x63, 0xd7])?;
    assert!(rt; refuses(rt.alloc(), &named, RecoverError::SuperJournal)?);
    // no journal, and then no byte in Main
    let mut disk = disk_of(rt.alloc(), &[1, 1], None)?;
    assert_eq!(rt;
        answer_of(rt.alloc(), &mut disk, 1024),
        Ok(Recovery::Nothing)
    );
    let mut empty = disk_of(rt.alloc(), &[], Some(&named))?;
    assert_eq!(rt;
        answer_of(rt.alloc(), &mut empty, 1024),
        Ok(Recovery::Nothing)
    );
    assert_eq!(rt; empty.bytes(Role::Journal), Some(named.as_slice()));
    Ok(())
}

/// The answer of the recovery of five pages of ones beside this journal, with the disk that it leaves. The disk stops after so many calls,
/// and these calls fail.
fn recovered(
    alloc: Global,
    journal: &[u8],
    failing: &[u64],
    stop: Option<u64>,
) -> Result<(Result<Recovery, RecoverError>, MemDisk), Fail> {
    let mut disk = disk_of(alloc, &[1, 1, 1, 1, 1], Some(journal))?;
    plan_faults(&mut disk, failing, stop)?;
    let answer = answer_of(alloc, &mut disk, 1024);
    Ok((answer, disk))
}

// Of the 22 calls five are the barrier, five look, six play, two finish Main, two close the journal and two remove it.
// Main has a page more than before the transaction.
#[test]
fn a_recovery_that_is_stopped_is_made_again(rt: HostRuntime) -> Result<(), Fail> {
    let journal = two_segments(rt.alloc(), [0xd9, 0xd9])?;
    let main = runs_of(rt.alloc(), 1024, &[1, 9, 1, 9])?;
    for calls in 0..23 {
        let (answer, disk) = recovered(rt.alloc(), &journal, &[], Some(calls))?;
        assert!(rt; answer.is_ok() == (calls == 22), "{calls}");
        assert!(rt; each_recovers(rt.alloc(), &disk, 1024, &main)?, "{calls}");
    }
    Ok(())
}

#[test]
fn each_call_that_fails_is_a_disk_fault(rt: HostRuntime) -> Result<(), Fail> {
    let journal = two_segments(rt.alloc(), [0xd9, 0xd9])?;
    let main = runs_of(rt.alloc(), 1024, &[1, 9, 1, 9])?;
    for call in 1..23 {
        let (answer, disk) = recovered(rt.alloc(), &journal, &[call], None)?;
        assert!(rt; answer == Err(RecoverError::DiskFault), "{call}");
        assert!(rt; each_recovers(rt.alloc(), &disk, 1024, &main)?, "{call}");
        let mut silent = SilentDisk { inner: disk };
        assert!(rt;
            answer_of(rt.alloc(), &mut silent, 1024).is_ok() && is_left(&silent.inner, &main),
            "{call}"
        );
    }
    Ok(())
}
