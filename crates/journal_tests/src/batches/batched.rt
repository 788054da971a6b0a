// A transaction over two frames that changes three pages of six, two at a time, stopped after every number of calls, as recovery
// finds it then.
ghost use Rattle.std.specs.Prelude.{◌≡◌, IfOk, false, replicate};
ghost use Rattle.rollback_journal.specs.Writing.{at_first};

use super::whole::{change_in_batches, undo_batch};
use crate::files::{disk_with, each_recovers, plan_faults, runs_of};
use atomic_commit::{Changes, DrawFailed, PageMarks, PageNumbers};
use edge_memory::{MemDisk, SilentDisk};
use rollback_journal::JournalWriter;
use std::alloc::Global;
use std::test::Fail;

/// Two pages, each of so many bytes of one value.
#[derive(Drop)]
struct Batch {
    numbers: [u32; 2],
    byte: u8,
}

impl PageNumbers for Batch {
    ghost numbers = { λ c. c.numbers };

    fn len(&self) -> usize {
        2
    }

    fn number(&self, k: usize) -> u32 {
        self.numbers[k]
    }
}

impl Changes for Batch {
    ghost seals = { λ c k stored. Unit {0} };

    ghost size = { λ c. 512 };

    ghost faults = { λ c. 0 };

    fn seal(&mut self, _k: usize, out: &mut [u8]) -> Result<(), DrawFailed> {
        for i in 0..out.len() {
            out[i] = self.byte;
        }
        Ok(())
    }
}

fn new_writer(alloc: Global) -> Result<JournalWriter, Fail>
    ensures { IfOk result (λ w. w ≡ at_first 512 6) }
{
    Ok(JournalWriter::new(alloc, 512, 6)?)
}

fn new_marks(alloc: Global) -> Result<PageMarks, Fail>
    ensures { IfOk result (λ m. m ≡ replicate 6 false) }
{
    Ok(PageMarks::new(alloc, 6)?)
}

/// Whether three batches are written on a disk that stops after so many calls, with the disk that they leave.
fn changed(alloc: Global, calls: u64) -> Result<(bool, MemDisk), Fail> {
    let mut disk = SilentDisk {
        inner: disk_with(alloc, Some(&[1; 3072]), None, None)?,
    };
    plan_faults(&mut disk.inner, &[], Some(calls))?;
    let mut writer = new_writer(alloc)?;
    let mut marks = new_marks(alloc)?;
    let mut first = Batch {
        numbers: [2, 4],
        byte: 9,
    };
    let mut second = Batch {
        numbers: [4, 5],
        byte: 8,
    };
    let mut last = Batch {
        numbers: [5, 2],
        byte: 7,
    };
    let mut buffer = [0u8; 512];
    let done = change_in_batches(
        &mut disk,
        &mut writer,
        &mut marks,
        &mut first,
        &mut second,
        &mut last,
        &mut buffer,
    )
    .is_ok();
    Ok((done, disk.inner))
}

// Of the 31 calls four make the journal; of the first batch four keep its pages, four open the gate and two write; of the second two
// begin a segment, two keep the page that has no record, four open the gate and two write; the third, whose pages have records,
// writes its two; one syncs Main, two close the journal and two remove it. The 28th closes it: then an image may have the one or
// the other.
#[test]
fn a_stop_between_batches_leaves_all_changes_or_none(rt: HostRuntime) -> Result<(), Fail> {
    let old = runs_of(rt.alloc(), 512, &[1, 1, 1, 1, 1, 1])?;
    let new = runs_of(rt.alloc(), 512, &[1, 7, 1, 8, 7, 1])?;
    for calls in 0..32 {
        let (done, disk) = changed(rt.alloc(), calls)?;
        assert!(rt; done == (calls == 31), "{calls}");
        if calls != 28 {
            let main = if calls < 28 { &old } else { &new };
            assert!(rt; each_recovers(rt.alloc(), &disk, 512, main)?, "{calls}");
        }
    }
    Ok(())
}

/// Whether two batches are written and taken back on a disk that stops after so many calls, with the disk that they leave.
fn undone(alloc: Global, calls: u64) -> Result<(bool, MemDisk), Fail> {
    let mut disk = SilentDisk {
        inner: disk_with(alloc, Some(&[1; 3072]), None, None)?,
    };
    plan_faults(&mut disk.inner, &[], Some(calls))?;
    let mut writer = new_writer(alloc)?;
    let mut marks = new_marks(alloc)?;
    let mut first = Batch {
        numbers: [2, 4],
        byte: 9,
    };
    let mut second = Batch {
        numbers: [4, 5],
        byte: 8,
    };
    let mut buffer = [0u8; 512];
    let done = undo_batch(
        &mut disk,
        &mut writer,
        &mut marks,
        &mut first,
        &mut second,
        &mut buffer,
    )
    .is_ok();
    Ok((done, disk.inner))
}

#[test]
fn what_batches_wrote_is_taken_back(rt: HostRuntime) -> Result<(), Fail> {
    let old = runs_of(rt.alloc(), 512, &[1, 1, 1, 1, 1, 1])?;
    for calls in 0..50 {
        let (done, disk) = undone(rt.alloc(), calls)?;
        assert!(rt; done || calls < 49, "{calls}");
        assert!(rt; each_recovers(rt.alloc(), &disk, 512, &old)?, "{calls}");
    }
    Ok(())
}
