// New files of profile 3, over a disk and an entropy in memory. page_codec's own tests compare sealed pages with
// pages from outside.
ghost use Rattle.std.specs.Prelude.{◌≡◌, ◌≤◌, true, length, IfOk, OnOk};
ghost use Rattle.cipher_profile.specs.Profile.{usable};
ghost use Rattle.db_format.specs.Seen.{marked};

use crate::sealed::{SALT, codec_of, disk_of};
use bulk_load::{OutError, PageOut};
use db_format::Header;
use edge_memory::MemEntropy;
use edge_model::Role;
use fresh_disk::{Pair, Side};
use fresh_file::{CommitFault, FreshState, StartError};
use std::alloc::Global;
use std::process::Abort;
use std::test::Fail;

const HEADER: Header = Header {
    page_size: 1024,
    reserve: 48,
    change: 1,
    size_field: 0,
    first_trunk: 0,
    free_count: 0,
    cookie: 1,
    format: 4,
    cache: 0,
    encoding: 1,
    user_version: 0,
    application_id: 0,
    valid_for: 1,
    sqlite_number: 3_045_000,
};

/// Why no file was written.
#[derive(Clone, Copy, Debug, PartialEq, Eq)]
enum Stopped {
    Start(StartError),
    Put(OutError),
    Finish(CommitFault),
}

/// Puts page 2, and then page 1.
fn fill_two<P: PageOut>(out: &mut P, plain: &[u8]) -> Result<(), OutError>
    requires size { length plain.now ≡ (P.pages out.old).usable }
    requires one { (P.pages out.old).count ≡ 1 }
    ensures count { OnOk result ((P.pages out.new).count ≡ 2) }
    ensures first { OnOk result ((P.pages out.new).accepts 1 ≡ true) }
    ensures second { OnOk result ((P.pages out.new).accepts 2 ≡ true) }
    ensures fresh { P.only_fresh out.old out.new }
{
    let n = out.take()?;
    out.put(n, plain)?;
    out.put(1, plain)
}

fn fill_state<T: Side>(state: &mut FreshState, side: &mut T, plain: &[u8]) -> Result<(), Stopped>
    requires size { length plain.now ≡ usable state.old.codec.profile }
    requires none { state.old.taken ≡ 0 }
    ensures count { OnOk result (state.new.taken ≡ 1) }
    ensures first { OnOk result (state.new.has_first ≡ true) }
    ensures second { OnOk result (marked state.new.put 2 ≡ true) }
{
    let mut out = state.out(side);
    match fill_two(&mut out, plain) {
        Ok(()) => Ok(()),
        Err(error) => Err(Stopped::Put(error)),
    }
}

fn write_two<T: Side>(alloc: Global, rt: &impl Abort, side: &mut T) -> Result<u32, Stopped> {
    let codec = codec_of(rt, "3", 5);
    let plain = [6; 976];
    assert!(rt; plain.len() == codec.profile().usable());
    let mut state = FreshState::start(alloc, side, codec).map_err(Stopped::Start)?;
    fill_state(&mut state, side, &plain)?;
    state.finish(side, &HEADER).map_err(Stopped::Finish)
}

// A call of the disk that fails, a draw that fails, 0 standing for none, and what is answered. The disk's calls are: length, remove,
// sync_folder, create, a write of each page, and sync. A page is drawn for where it is put, and few are held back till the end.
const ANSWERS: [(u64, u64, Result<u32, Stopped>); 7] = [
    (4, 0, Err(Stopped::Start(StartError::DiskFault))),
    (5, 0, Err(Stopped::Finish(CommitFault::DiskFault))),
    (6, 0, Err(Stopped::Finish(CommitFault::DiskFault))),
    (7, 0, Err(Stopped::Finish(CommitFault::DiskFault))),
    (0, 1, Err(Stopped::Put(OutError::EntropyFault))),
    (0, 2, Err(Stopped::Finish(CommitFault::EntropyFault))),
    (0, 0, Ok(2)),
];

/// What 2 pages are sealed with.
const DRAWS: [u8; 96] = [9; 96];

#[test]
fn a_new_file_has_the_salt_and_as_many_pages_as_were_put(rt: HostRuntime) -> Result<(), Fail> {
    let alloc = rt.alloc();
    for (call, draw, answer) in ANSWERS {
        let mut disk = disk_of(alloc, &[1])?;
        disk.inner.fail_calls(&[call])?;
        let mut entropy = MemEntropy::new(alloc, &DRAWS, &[draw])?;
        let mut pair = Pair {
            disk: &mut disk,
            entropy: &mut entropy,
        };
        assert_eq!(rt; write_two(alloc, &rt, &mut pair), answer);
        if answer.is_ok() {
            let file = disk.inner.bytes(Role::Fresh).ok_or("no file")?;
            assert_eq!(rt; file.len(), 2048);
            assert_eq!(rt; file.get(..16), Some(SALT.as_slice()));
            assert_eq!(rt; disk.inner.starved(), 0);
        }
    }
    Ok(())
}

/// Puts so many pages, from page 2 on.
fn put_many<P: PageOut>(out: &mut P, plain: &[u8], pages: usize) -> Result<(), OutError>
    requires size { length plain.now ≡ (P.pages out.old).usable }
{
    'pages: for _ in 0..pages {
        let n = out.take()?;
        out.put(n, plain)?;
    }
    Ok(())
}

fn hold_pages<T: Side>(
    alloc: Global,
    rt: &impl Abort,
    side: &mut T,
    pages: usize,
) -> Result<(), Stopped> {
    let codec = codec_of(rt, "3", 5);
    let plain = [6; 976];
    assert!(rt; plain.len() == codec.profile().usable());
    let mut state = FreshState::start(alloc, side, codec).map_err(Stopped::Start)?;
    let mut out = state.out(side);
    put_many(&mut out, &plain, pages).map_err(Stopped::Put)
}

// How many pages are put from page 2 on, a call of the disk that fails, 0 standing for none, what is answered, and how long the file is
// then. 64 pages are held back, and the next one has them written.
const HELD: [(usize, u64, Result<(), Stopped>, usize); 4] = [
    (64, 0, Ok(()), 0),
    (64, 5, Ok(()), 0),
    (65, 0, Ok(()), 66_560),
    (65, 5, Err(Stopped::Put(OutError::DiskFault)), 0),
];

#[test]
fn sixty_four_pages_are_held_back(rt: HostRuntime) -> Result<(), Fail> {
    let alloc = rt.alloc();
    for (pages, call, answer, length) in HELD {
        let mut disk = disk_of(alloc, &[1])?;
        disk.inner.fail_calls(&[call])?;
        let mut entropy = MemEntropy::new(alloc, &[9; 4096], &[])?;
        let mut pair = Pair {
            disk: &mut disk,
            entropy: &mut entropy,
        };
        assert_eq!(rt;
            hold_pages(alloc, &rt, &mut pair, pages),
            answer,
            "{pages} {call}"
        );
        let file = disk.inner.bytes(Role::Fresh).ok_or("no file")?;
        assert_eq!(rt; file.len(), length, "{pages} {call}");
    }
    Ok(())
}
