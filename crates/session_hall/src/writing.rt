// The pages of a commit are written, in one transaction.
ghost use Rattle.std.specs.Prelude.{◌≡◌, ◌≢◌, ◌⊎◌, ◌≤◌, ◌<◌, ◌+◌, ◌-◌, ℕ, List, [], length, true, false, Some, None, Err, IfErr, IfSome, OnOk, IsTrue, replicate, if◌then◌else◌};
ghost use Rattle.atomic_commit.specs.Commit.{IsCommitted, LeavesChanged};
ghost use Rattle.atomic_commit.specs.Database.{HoldsOld};
ghost use Rattle.atomic_commit.specs.Facts.{IsBase, IsCommitBegun, SameFresh};
ghost use Rattle.cipher_profile.specs.Profile.{usable};
ghost use Rattle.edge_model.specs.Causes.{Rose};
ghost use Rattle.edge_model.specs.Files.{main_of};
ghost use Rattle.edge_model.specs.Images.{Each, From, LeavesOnly};
ghost use Rattle.edge_model.specs.OnlyRead.{OnlyRead};
ghost use Rattle.page_codec.specs.Page.{accepts};
ghost use Rattle.pager.specs.Changed.{with_bytes};
ghost use Rattle.pager.specs.File.{page_stored};
ghost use Rattle.pager.specs.Pages.{is_page_number};
ghost use Rattle.pager.specs.PagesOf.{pages_of};
ghost use Rattle.pager.specs.UnderWay.{Start};
ghost use Rattle.session_hall.specs.Commit.{put_change, put_over};
ghost use Rattle.session_hall.specs.Machine.{is_sealed};
ghost use Rattle.session_hall.specs.Writing.{HasWritten, IsChangeAnswer, write_answer};

use crate::session::Session;
use crate::step::Answer;
use edge_model::{Disk, Entropy};
use page_codec::Codec;
use page_plan::{Over, Plan, WriteError, write_plan};
use pager::Pager;
use std::alloc::Global;

/// How many changed pages stand in memory at most, beside those of the session.
const CHANGED: u32 = 64;

/// How many bytes of old pages are kept together, at most.
const AHEAD: u32 = 4194304;

/// Where the part of page 1 begins that a session may change, in bytes.
const CONTENT: usize = 100;

/// Where the part of page 1 begins that a transaction may write: no byte is written there.
const AT: usize = 16;

/// Writes and commits each page that the session's commit seals anew. The disk and the entropy come back in any case.
pub fn write_changes<'d, D: Disk, E: Entropy>(
    alloc: Global,
    pager: Pager<'d, D, E>,
    write: Codec,
    session: &Session,
) -> (&'d mut D, &'d mut E, Result<(), Answer>)
    ghost start: { Start }
    requires sizes { (pager.codec.profile.page_size ≡ start.base.size) × (pager.count ≡ start.base.pages) }
    requires drawn { start.drawn ≡ E.drawn pager.entropy.now }
    requires base_is { IsBase start.base }
    requires begun { IsTrue D.tells → IsCommitBegun start.base (D.images pager.disk.now) }
    requires usable { usable pager.codec.profile ≡ usable session.now.access.profile }
    requires accepted { IsTrue D.tells → (n : ℕ) → is_page_number pager.count n ≡ true → is_sealed session.now n ≡ true
        → accepts pager.codec n (page_stored pager.codec start.base.start n) ≡ true }
    ensures disk { result.0.ghost_name ≡ pager.entry.disk.ghost_name }
    ensures entropy { result.1.ghost_name ≡ pager.entry.entropy.ghost_name }
    ensures changed { OnOk result.2 (IsTrue D.tells → HasWritten start pager.entry.codec write session.now
        (λ n. put_over session.now n ((pages_of pager.entry).page n)) E.tells (E.drawn result.1.now) (main_of (D.reads result.0.now))) }
    ensures new { OnOk result.2 (IsTrue D.tells → Each (D.images result.0.now) (IsCommitted start.base (main_of (D.reads result.0.now)))) }
    // no page was sealed anew, and the disk was only read; or each image has Main as it reads
    ensures settled { OnOk result.2 (IsTrue D.tells → OnlyRead D.reads D.images D.moment D.since pager.entry.disk.now result.0.now
        ⊎ Each (D.images result.0.now) (λ c. c.main ≡ (D.reads result.0.now).main)) }
    ensures any_moment { IsTrue D.tells → LeavesChanged D.moment D.since start.base (HasWritten start pager.entry.codec write session.now
        (λ n. put_over session.now n ((pages_of pager.entry).page n)) E.tells (E.drawn result.1.now)) pager.entry.disk.now result.0.now }
    ensures only_old { result.2 ≡ Err Answer.EntropyFault → IsTrue D.tells → LeavesOnly D.moment D.since pager.entry.disk.now result.0.now (HoldsOld start.base) }
    ensures fresh { IsTrue D.tells → LeavesOnly D.moment D.since pager.entry.disk.now result.0.now (From SameFresh (D.images pager.entry.disk.now)) }
    ensures unwritten { result.2 ≡ Err Answer.OutOfMemory → IsTrue D.tells → (result.0.now ≡ pager.entry.disk.now) × (result.1.now ≡ pager.entry.entropy.now) }
    ensures stopped { IfErr result.2 (λ answer. IsTrue D.tells → IsChangeAnswer answer) }
    ensures awake { IfErr result.2 (λ answer. (answer ≢ Answer.Down) × (answer ≢ Answer.Done)) }
    ensures disk_fault { result.2 ≡ Err Answer.DiskFault → Rose (D.faults pager.entry.disk.now) (D.faults result.0.now) }
    ensures entropy_fault { result.2 ≡ Err Answer.EntropyFault → Rose (E.faults pager.entry.entropy.now) (E.faults result.1.now) }
    ensures disk_later { D.faults pager.entry.disk.now ≤ D.faults result.0.now }
    ensures entropy_later { E.faults pager.entry.entropy.now ≤ E.faults result.1.now }
{
    // In a hall both begin alike.
    if pager.codec().profile().is_clear() != write.profile().is_clear() {
        let (disk, entropy) = pager.into_parts();
        return (disk, entropy, Err(Answer::OutOfMemory));
    }
    let (disk, entropy, written) = write_plan(alloc, pager, write, frames_for(session), session);
    match written {
        Ok(()) => (disk, entropy, Ok(())),
        Err(error) => (disk, entropy, Err(write_answer(error))),
    }
}

// As many frames as pages are sealed anew, and not more than that many.
fn frames_for(session: &Session) -> u32
    ensures { (1 ≤ result) × (result ≤ 64) }
{
    let changed = session.changed_pages();
    if session.rekeys() || changed >= CHANGED as usize {
        return CHANGED;
    }
    if changed == 0 { 1 } else { changed as u32 }
}

// The answer where a plan is not written: both codecs have the hall's layout, so that memory alone is wanted.
fn write_answer(error: WriteError) -> Answer
    ensures value { result ≡ write_answer error }
    ensures awake { (result ≢ Answer.Down) × (result ≢ Answer.Done) }
{
    match error {
        WriteError::LayoutDiffers | WriteError::OutOfMemory => Answer::OutOfMemory,
        WriteError::TagRefused { page } => Answer::TagRefused { page },
        WriteError::DiskFault => Answer::DiskFault,
        WriteError::EntropyFault => Answer::EntropyFault,
    }
}

impl Plan for Session {
    ghost plain_size = { λ s. usable s.access.profile };

    ghost writes = { λ s. is_sealed s };

    ghost opens = { λ s. is_sealed s };

    ghost becomes = { λ s. put_over s };

    fn next(&self, after: u32, pages: u32) -> Option<u32> {
        self.next_sealed(after, pages)
    }

    fn over(&self, n: u32) -> Option<Over<'_>> {
        let _usable = self.profile().usable();
        match self.change(n) {
            Some(page) => Some(over_changed(n, page)),
            None => {
                if self.rekeys() {
                    Some(over_unchanged())
                } else {
                    None
                }
            }
        }
    }

    // Where a commit seals at least half of the pages, and more than stand in memory.
    fn keeps_together(&self, first: u32, last: u32) -> bool {
        seals_most(self, first, last)
    }

    fn segment(&self) -> u32 {
        AHEAD
    }
}

// Whether the commit seals at least half of the pages from the first to the last one, and more than stand in memory.
fn seals_most(session: &Session, first: u32, last: u32) -> bool
    requires { first ≤ last }
    ensures { result ≡ true → 64 ≤ last - first }
{
    if last - first < CHANGED {
        return false;
    }
    if session.rekeys() {
        return true;
    }
    let changed = session.changed_among(first, last);
    changed > CHANGED as usize && changed > (last - first) as usize / 2
}

// What is put over page n where the session changed it to this one: of page 1 the part that it may have changed.
fn over_changed(n: u32, page: &[u8]) -> Over<'_>
    requires { 100 ≤ length page.now }
    ensures becomes { (old : List ℕ) → put_change n (Some page.now) old
        ≡ with_bytes result.at result.bytes.now (if result.zeroed then replicate (length page.now) 0 else old) }
    ensures within { result.at + length result.bytes.now ≡ length page.now }
    ensures first { n ≡ 1 → (result.zeroed ≡ false) × (16 ≤ result.at) }
{
    if n == 1 {
        return Over {
            zeroed: false,
            at: CONTENT,
            bytes: &page[CONTENT..],
        };
    }
    Over {
        zeroed: true,
        at: 0,
        bytes: page,
    }
}

// What is put over a page that the session did not change: no byte.
fn over_unchanged() -> Over<'static>
    ensures { (result.zeroed ≡ false) × (result.at ≡ 16) × (result.bytes.now ≡ []) }
{
    Over {
        zeroed: false,
        at: AT,
        bytes: &[],
    }
}
