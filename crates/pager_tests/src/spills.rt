// Transactions that change more pages than they have frames, and seal them under another key: 60 pages over 24 frames; and three over one,
// of a file of four pages, stopped after every number of calls of the disk, and with each of these calls failing alone.
ghost use Rattle.std.specs.Prelude.{◌≡◌, ◌<◌, OnOk, IsTrue};
ghost use Rattle.pager.specs.UnderWay.{IsReadyFor, zeros};
ghost use Rattle.atomic_commit.specs.Facts.{IsBase};

use crate::sealed_file::{codec_of, disk_of, put_byte, put_plain, sealed};
use edge_memory::{ImagePick, MemDisk, MemEntropy, SilentDisk, SilentEntropy};
use edge_model::Role;
use pager::{PageError, Pager, Txn};
use rollback_journal::recover;
use std::alloc::Global;
use std::process::Abort;
use std::test::Fail;

const PICKS: [ImagePick; 3] = [ImagePick::Lost, ImagePick::Kept, ImagePick::Torn];

/// A transaction: how many pages the file has, of how many the old bytes are kept ahead, how many are changed over how many frames, and
/// whether that is taken back.
#[derive(Clone, Copy)]
struct Plan {
    size: u8,
    ahead: u32,
    pages: u32,
    frames: u32,
    abandons: bool,
}

/// Sixty pages are changed over 24 frames.
fn large(abandons: bool) -> Plan {
    Plan {
        size: 60,
        ahead: 0,
        pages: 60,
        frames: 24,
        abandons,
    }
}

/// Three of four pages are changed over one frame, the old bytes of so many of them kept ahead.
fn small(ahead: u32, abandons: bool) -> Plan {
    Plan {
        size: 4,
        ahead,
        pages: 3,
        frames: 1,
        abandons,
    }
}

/// The byte that page n gets at offset 200, which it did not have.
fn mark_of(n: u32) -> u8 {
    (n % 256) as u8 ^ 255
}

/// Keeps the old bytes of the first pages ahead.
fn is_kept(txn: &mut Txn<'_, SilentDisk, SilentEntropy>, ahead: u32) -> bool
    requires ready { IsReadyFor txn.old.recorded txn.old.writer }
    ensures ready { IsTrue result → IsReadyFor txn.new.recorded txn.new.writer }
{
    if ahead == 0 {
        return true;
    }
    if ahead > txn.pages() {
        return false;
    }
    txn.keep_ahead(1, ahead).is_ok()
}

/// Each of so many pages gets its byte.
fn change_pages(txn: &mut Txn<'_, SilentDisk, SilentEntropy>, pages: u32) -> Result<(), PageError>
    requires ready { IsReadyFor txn.old.recorded txn.old.writer }
    ensures ready { OnOk result (IsReadyFor txn.new.recorded txn.new.writer) }
{
    for n in 1u32..pages.saturating_add(1) {
        if txn.usable() < 201 {
            return Err(PageError::OutOfRange);
        }
        txn.write(n, 200, &[mark_of(n)])?;
    }
    Ok(())
}

/// How many of so many pages are lent with their byte.
fn count_seen(txn: &mut Txn<'_, SilentDisk, SilentEntropy>, pages: u32) -> u32
    requires ready { IsReadyFor txn.old.recorded txn.old.writer }
    ensures ready { IsReadyFor txn.new.recorded txn.new.writer }
{
    let mut seen = 0u32;
    for n in 1u32..pages.saturating_add(1) {
        if txn.load(n).is_err() {
            continue;
        }
        if txn.loaded().get(200) == Some(&mark_of(n)) {
            seen = seen.saturating_add(1);
        }
    }
    seen
}

/// Whether the transaction is ended, or abandoned.
fn is_finished(txn: Txn<'_, SilentDisk, SilentEntropy>, abandons: bool) -> bool
    requires ready { IsReadyFor txn.recorded txn.writer }
    requires base_is { IsBase (zeros txn.write.profile.page_size txn.count) }
{
    if abandons {
        let (_disk, _entropy, done) = txn.abandon();
        return done.is_ok();
    }
    let (_disk, _entropy, done) = txn.end();
    done.is_ok()
}

/// Changes the pages, and says whether the transaction was finished.
fn is_run(
    rt: &impl Abort,
    alloc: Global,
    disk: &mut SilentDisk,
    entropy: &mut SilentEntropy,
    plan: Plan,
) -> bool {
    assert!(rt; 1 <= plan.frames && plan.frames <= 64);
    let Ok(pager) = Pager::open(alloc, disk, entropy, codec_of(rt, 0), 24) else {
        return false;
    };
    let Ok(mut txn) = pager.begin(alloc, codec_of(rt, 1), plan.frames) else {
        return false;
    };
    if !is_kept(&mut txn, plan.ahead) {
        return false;
    }
    match change_pages(&mut txn, plan.pages) {
        Ok(()) => txn.pages() > 0 && txn.usable() > 200 && is_finished(txn, plan.abandons),
        Err(_) => false,
    }
}

/// Whether Main has the pages with their bytes, under the other key.
fn is_new(rt: &impl Abort, alloc: Global, disk: MemDisk, plan: Plan) -> Result<bool, Fail> {
    let mut disk = SilentDisk { inner: disk };
    let mut entropy = MemEntropy::new(alloc, &[], &[])?;
    let Ok(mut pager) = Pager::open(alloc, &mut disk, &mut entropy, codec_of(rt, 1), 24) else {
        return Ok(false);
    };
    for n in 1u32..plan.pages.saturating_add(1) {
        let mut plain = [0u8; 976];
        put_plain(n, &mut plain);
        put_byte(&mut plain, 200, mark_of(n));
        if n == 1 {
            put_byte(&mut plain, 31, plan.size);
        }
        match pager.page(n) {
            Ok(page) => {
                if page != plain.as_slice() {
                    return Ok(false);
                }
            }
            Err(_) => return Ok(false),
        }
    }
    Ok(true)
}

/// The image as recovery leaves it, where there is no journal then.
fn recovered(alloc: Global, disk: &MemDisk, pick: ImagePick) -> Result<Option<MemDisk>, Fail> {
    let mut image = disk.image(pick)?;
    if recover(alloc, &mut image, 1024).is_err() || image.bytes(Role::Journal).is_some() {
        return Ok(None);
    }
    Ok(Some(image))
}

/// Each image of the disk recovers to the file from before or, where the transaction was not abandoned, to its pages; after Ok only to
/// what it was to leave.
fn check_images(
    rt: &impl Abort,
    alloc: Global,
    disk: &MemDisk,
    file: &[u8],
    plan: Plan,
    done: bool,
) -> Result<(), Fail> {
    for pick in PICKS {
        let Some(image) = recovered(alloc, disk, pick)? else {
            panic!(rt; "{pick:?}");
        };
        let is_old = image.bytes(Role::Main) == Some(file);
        if is_old && (plan.abandons || !done) {
            continue;
        }
        assert!(rt;
            !plan.abandons && is_new(rt, alloc, image, plan)?,
            "{pick:?}"
        );
    }
    Ok(())
}

/// Runs the transaction on this disk, which has the file, with bytes to draw, and says whether it was finished.
fn check_run(
    rt: &impl Abort,
    alloc: Global,
    file: &[u8],
    disk: &mut SilentDisk,
    drawn: &[u8],
    plan: Plan,
) -> Result<bool, Fail> {
    let mut entropy = SilentEntropy {
        inner: MemEntropy::new(alloc, drawn, &[])?,
    };
    let done = is_run(rt, alloc, disk, &mut entropy, plan);
    check_images(rt, alloc, &disk.inner, file, plan, done)?;
    Ok(done)
}

const DRAWN: [u8; 2880] = [5; 2880];

#[test]
fn sixty_pages_are_changed_in_24_frames_or_taken_back(rt: HostRuntime) -> Result<(), Fail> {
    let alloc = rt.alloc();
    let file = sealed(&rt, alloc, &[])?;
    for abandons in [false, true] {
        let mut disk = disk_of(alloc, Some(file.as_slice()), &[], None)?;
        assert!(rt;
            check_run(&rt, alloc, &file, &mut disk, &DRAWN, large(abandons))?,
            "{abandons}"
        );
    }
    Ok(())
}

// Two calls open the file and three read the pages; the first batch makes eleven calls and the second nine, and the end 14. The abandon
// lays two pages back. Where three pages are kept ahead, that makes 14 calls, the first two batches one each, and the end six; the abandon
// lays three pages back.
const CALLS: [(u32, bool, u64); 4] = [(0, false, 39), (0, true, 39), (3, false, 27), (3, true, 36)];

/// The file, cut to its first four pages, which its header counts.
fn small_file(rt: &impl Abort, alloc: Global) -> Result<Vec<u8>, Fail> {
    let mut file = sealed(rt, alloc, &[(31, 4)])?;
    file.truncate(4096);
    Ok(file)
}

/// Runs the small plan again and again: on a disk that stops after every number of calls, or on which each call fails alone.
fn check_calls(rt: &impl Abort, alloc: Global, stops: bool) -> Result<(), Fail> {
    let file = small_file(rt, alloc)?;
    for (ahead, abandons, whole) in CALLS {
        for calls in 0..whole.saturating_add(1) {
            let stop = if stops { Some(calls) } else { None };
            // no call has the number 0
            let failing = if stops { 0 } else { calls };
            let mut disk = disk_of(alloc, Some(file.as_slice()), &[failing], stop)?;
            let done = check_run(rt, alloc, &file, &mut disk, &DRAWN, small(ahead, abandons))?;
            let due = if stops { calls == whole } else { calls == 0 };
            assert!(rt; done == due, "{ahead} {abandons} {calls}");
        }
    }
    Ok(())
}

#[test]
fn a_stop_leaves_the_old_pages_or_the_new_ones(rt: HostRuntime) -> Result<(), Fail> {
    check_calls(&rt, rt.alloc(), true)
}

#[test]
fn a_call_that_fails_alone_leaves_the_old_pages_or_the_new_ones(
    rt: HostRuntime,
) -> Result<(), Fail> {
    check_calls(&rt, rt.alloc(), false)
}

// Two batches and the end draw 1,152, 1,152 and 576 bytes. Where they cannot be had, nothing new is in any image.
#[test]
fn an_entropy_that_ends_leaves_the_old_pages(rt: HostRuntime) -> Result<(), Fail> {
    let alloc = rt.alloc();
    let file = sealed(&rt, alloc, &[])?;
    for count in [1_151usize, 2_303, 2_879] {
        let Some(drawn) = DRAWN.get(..count) else {
            panic!(rt; "{count}");
        };
        let mut disk = disk_of(alloc, Some(file.as_slice()), &[], None)?;
        let mut entropy = SilentEntropy {
            inner: MemEntropy::new(alloc, drawn, &[])?,
        };
        assert!(rt;
            !is_run(&rt, alloc, &mut disk, &mut entropy, large(false)),
            "{count}"
        );
        check_images(&rt, alloc, &disk.inner, &file, large(true), false)?;
    }
    Ok(())
}

/// How many of 60 changed pages are lent, on a disk that stops after so many calls. Page 1 is not.
fn seen_after(rt: &impl Abort, alloc: Global, file: &[u8], calls: u64) -> Result<u32, Fail> {
    let mut disk = disk_of(alloc, Some(file), &[], Some(calls))?;
    let mut entropy = SilentEntropy {
        inner: MemEntropy::new(alloc, &DRAWN, &[])?,
    };
    let pager = Pager::open(alloc, &mut disk, &mut entropy, codec_of(rt, 0), 24)?;
    let Ok(mut txn) = pager.begin(alloc, codec_of(rt, 1), 24) else {
        panic!(rt; "not begun");
    };
    match change_pages(&mut txn, 60) {
        Ok(()) => {
            let seen = count_seen(&mut txn, 60);
            assert_eq!(rt; txn.load(1), Err(PageError::DiskFault));
            Ok(seen)
        }
        Err(_) => panic!(rt; "not changed"),
    }
}

// Once the disk has stopped, only the pages in frames can be lent: the 48 that left them are read from Main, and no copy of them is kept.
#[test]
fn pages_that_left_their_frames_are_lent_out_of_main_alone(rt: HostRuntime) -> Result<(), Fail> {
    let file = sealed(&rt, rt.alloc(), &[])?;
    // as many calls as the changes make, which read the pages by 14, and, the second time, those that read the pages back
    for (calls, seen) in [(174u64, 12u32), (222, 60)] {
        assert!(rt;
            seen_after(&rt, rt.alloc(), &file, calls)? == seen,
            "{seen}"
        );
    }
    Ok(())
}
