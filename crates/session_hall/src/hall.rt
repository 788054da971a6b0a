// A hall of sessions.
ghost use Rattle.std.specs.Prelude.{◌≡◌, ◌≢◌, ◌↔◌, ◌≤◌, ◌<◌, ◌||◌, length, true, false, IsTrue};
ghost use Rattle.edge_model.specs.Causes.{Rose};
ghost use Rattle.atomic_commit.specs.Facts.{SameFresh};
ghost use Rattle.edge_model.specs.Images.{From, LeavesOnly};
ghost use Rattle.cipher_profile.specs.Profile.{IsListed, is_plain};
ghost use Rattle.edge_model.specs.Files.{main_of};
ghost use Rattle.pager.specs.Opening.{IsRefusedBy};
ghost use Rattle.pager.specs.Reads.{DiskRead, Untouched};
ghost use Rattle.session_hall.specs.Commit.{CommitLeaves, HoldsSessionPages, IsUp, StepLeaves};
ghost use Rattle.session_hall.specs.Draws.{CommitDraws, StepDraws, TellsDraws};
ghost use Rattle.session_hall.specs.Faults.{is_fault_answer};
ghost use Rattle.session_hall.specs.Kept.{IsHallKept, IsHallSettled};
ghost use Rattle.session_hall.specs.Machine.{ChangesByte, Commits, IsListedStep, Opens, Reads, Rekeys, Releases, Reserves, Shares, Steps, Stops, is_content, may_be_under, may_change, may_commit, may_open, may_read, may_rekey, unopened_answer, state, unseen_answer};
ghost use Rattle.session_hall.specs.Session.{HasNoOther, HasOther, session_at};

use crate::commit::commit_session;
use crate::key::{Key, is_key_for};
use crate::lock::Lock;
use crate::opening::count_pages;
use crate::others::{close_all, other_has};
use crate::plain_page::PlainPage;
use crate::reading::{Unseen, first_unseen, see_page};
use crate::session::Session;
use crate::step::{Answer, Step};
use cipher_profile::{Profile, Secret};
use edge_model::{Disk, Entropy};
use pager::OpenError;
use std::alloc::Global;

/// How many sessions a hall has.
pub const SESSIONS: usize = 16;

/// Sessions that share one file, and its disk and entropy.
#[derive(Drop)]
pub struct Hall<'d, D: Disk, E: Entropy> {
    pub(crate) disk: &'d mut D,
    pub(crate) entropy: &'d mut E,
    pub(crate) alloc: Global,
    // its page size, reserve and setting are those of every session, and page 1 begins alike
    pub(crate) layout: Profile,
    pub(crate) sessions: Vec<Session>,
    // the page that was read last
    pub(crate) page: PlainPage,
    // an earlier step failed
    pub(crate) is_down: bool,
    ghost many: { length sessions.items ≡ 16 },
}

/// Whether a session of a hall of this layout may be under the profile and the secret.
fn may_be_under(layout: &Profile, profile: &Profile, secret: &Secret) -> bool
    ensures { result ≡ may_be_under layout.now (record { profile = profile.now; secret = secret.now }) }
{
    profile.page_size == layout.page_size
        && profile.reserve == layout.reserve
        && profile.reads_log == layout.reads_log
        && profile.is_clear() == layout.is_clear()
        && is_key_for(profile, secret)
}

/// Whether a byte stands in a plain page n, and not in the header of page 1.
fn is_content(profile: &Profile, n: u32, at: u32) -> bool
    requires { IsListed profile.now }
    ensures { result ≡ is_content profile.now n at }
{
    (at as usize) < profile.usable() && (100 <= at || !(n == 1))
}

/// The answer where the file does not open.
pub(crate) fn open_answer(error: OpenError) -> Answer
    ensures value { result ≡ unopened_answer error }
    ensures disk { result ≡ Answer.DiskFault → error ≡ OpenError.DiskFault }
    ensures calls { (result ≢ Answer.EntropyFault) × (result ≢ Answer.Down) }
{
    match error {
        OpenError::DiskFault => Answer::DiskFault,
        OpenError::OutOfMemory => Answer::OutOfMemory,
        OpenError::Empty => Answer::Refused(OpenError::Empty),
        OpenError::Short { length } => Answer::Refused(OpenError::Short { length }),
        OpenError::KeyRefused => Answer::Refused(OpenError::KeyRefused),
        OpenError::HeaderFault { offset, found } => {
            Answer::Refused(OpenError::HeaderFault { offset, found })
        }
        OpenError::WalMode => Answer::Refused(OpenError::WalMode),
        OpenError::AutoVacuum => Answer::Refused(OpenError::AutoVacuum),
        OpenError::Ragged { length } => Answer::Refused(OpenError::Ragged { length }),
        OpenError::TooLarge { pages } => Answer::Refused(OpenError::TooLarge { pages }),
    }
}

impl<'d, D: Disk, E: Entropy> Hall<'d, D, E> {
    /// The plain page of the last answer `Page`, none before there was one.
    pub fn last(&self) -> &[u8]
        ensures { result.now ≡ self.now.page }
    {
        self.page.bytes()
    }

    /// The disk and the entropy.
    pub fn close(self) -> (&'d mut D, &'d mut E)
        ensures disk { (result.0.ghost_name ≡ self.entry.disk.ghost_name) × (result.0.now ≡ self.entry.disk.now) }
        ensures entropy { (result.1.ghost_name ≡ self.entry.entropy.ghost_name) × (result.1.now ≡ self.entry.entropy.now) }
    {
        let Hall {
            disk,
            entropy,
            alloc: _,
            layout: _,
            sessions: _,
            page: _,
            is_down: _,
        } = self;
        (disk, entropy)
    }

    /// One step of a session, run whole.
    pub fn step(&mut self, session: u8, step: Step) -> Answer
        requires number { session < 16 }
        requires listed { IsListedStep step }
        requires kept { IsTrue D.tells → self.old.is_down ≡ false → IsHallKept (D.reads self.old.disk.now) (D.images self.old.disk.now) self.old.sessions.items }
        // a run of the machine, until a step fails
        ensures told { IsTrue D.tells → self.old.is_down ≡ false → Steps (state (D.reads self.old.disk.now) self.old.layout self.old.sessions.items self.old.page) session step result
            (state (D.reads self.new.disk.now) self.new.layout self.new.sessions.items self.new.page) }
        ensures down { (result ≡ Answer.Down) ↔ (self.old.is_down ≡ true) }
        ensures falls { self.new.is_down ≡ (self.old.is_down || is_fault_answer result) }
        ensures kept { IsTrue D.tells → self.new.is_down ≡ false → IsHallKept (D.reads self.new.disk.now) (D.images self.new.disk.now) self.new.sessions.items }
        // what a stop leaves at each moment
        ensures any_moment { IsTrue D.tells → self.old.is_down ≡ false
            → StepLeaves D.reads D.moment D.since step result (session_at self.old.sessions.items session)
            (TellsDraws E.tells self.old.layout) (E.drawn self.old.entropy.now) (E.drawn self.new.entropy.now) self.old.disk.now self.new.disk.now }
        ensures fresh { IsTrue D.tells → LeavesOnly D.moment D.since self.old.disk.now self.new.disk.now (From SameFresh (D.images self.old.disk.now)) }
        ensures only_old { result ≡ Answer.EntropyFault → IsTrue D.tells → self.old.is_down ≡ false → LeavesOnly D.moment D.since self.old.disk.now self.new.disk.now
            (HoldsSessionPages (session_at self.old.sessions.items session) (main_of (D.reads self.old.disk.now)) (main_of (D.reads self.old.disk.now))) }
        // a commit alone draws, and each page that it seals anew has bytes of its own of those
        ensures drawn { IsTrue D.tells → IsTrue E.tells → self.old.is_down ≡ false → StepDraws self.old.layout step result (session_at self.old.sessions.items session)
            (main_of (D.reads self.new.disk.now)) (E.drawn self.old.entropy.now) (E.drawn self.new.entropy.now) }
        // a hall of plain files draws nothing
        ensures undrawn { is_plain self.old.layout ≡ true → (self.new.entropy.now ≡ self.old.entropy.now) × (result ≢ Answer.EntropyFault) }
        ensures disk_fault { result ≡ Answer.DiskFault → Rose (D.faults self.old.disk.now) (D.faults self.new.disk.now) }
        ensures entropy_fault { result ≡ Answer.EntropyFault → Rose (E.faults self.old.entropy.now) (E.faults self.new.entropy.now) }
        ensures later { (D.faults self.old.disk.now ≤ D.faults self.new.disk.now) × (E.faults self.old.entropy.now ≤ E.faults self.new.entropy.now) }
        ensures names { (self.new.disk.ghost_name ≡ self.old.disk.ghost_name) × (self.new.entropy.ghost_name ≡ self.old.entropy.ghost_name) }
        ensures layout { self.new.layout ≡ self.old.layout }
    {
        if self.is_down {
            return Answer::Down;
        }
        let answer = self.take(session as usize, step);
        if answer.is_fault() {
            self.is_down = true;
        }
        answer
    }

    // A step while no earlier one has failed.
    fn take(&mut self, i: usize, step: Step) -> Answer
        requires number { i < 16 }
        requires listed { IsListedStep step }
        requires kept { IsTrue D.tells → IsHallKept (D.reads self.old.disk.now) (D.images self.old.disk.now) self.old.sessions.items }
        ensures told { IsTrue D.tells → Steps (state (D.reads self.old.disk.now) self.old.layout self.old.sessions.items self.old.page) i step result
            (state (D.reads self.new.disk.now) self.new.layout self.new.sessions.items self.new.page) }
        ensures up_before { result ≢ Answer.Down }
        ensures settled { IsTrue D.tells → IsUp result → IsHallSettled (D.reads self.new.disk.now) (D.images self.new.disk.now) }
        ensures any_moment { IsTrue D.tells
            → StepLeaves D.reads D.moment D.since step result (session_at self.old.sessions.items i)
            (TellsDraws E.tells self.old.layout) (E.drawn self.old.entropy.now) (E.drawn self.new.entropy.now) self.old.disk.now self.new.disk.now }
        ensures fresh { IsTrue D.tells → LeavesOnly D.moment D.since self.old.disk.now self.new.disk.now (From SameFresh (D.images self.old.disk.now)) }
        ensures only_old { result ≡ Answer.EntropyFault → IsTrue D.tells → LeavesOnly D.moment D.since self.old.disk.now self.new.disk.now
            (HoldsSessionPages (session_at self.old.sessions.items i) (main_of (D.reads self.old.disk.now)) (main_of (D.reads self.old.disk.now))) }
        ensures drawn { IsTrue D.tells → IsTrue E.tells → StepDraws self.old.layout step result (session_at self.old.sessions.items i)
            (main_of (D.reads self.new.disk.now)) (E.drawn self.old.entropy.now) (E.drawn self.new.entropy.now) }
        ensures undrawn { is_plain self.old.layout ≡ true → (self.new.entropy.now ≡ self.old.entropy.now) × (result ≢ Answer.EntropyFault) }
        ensures disk_fault { result ≡ Answer.DiskFault → Rose (D.faults self.old.disk.now) (D.faults self.new.disk.now) }
        ensures entropy_fault { result ≡ Answer.EntropyFault → Rose (E.faults self.old.entropy.now) (E.faults self.new.entropy.now) }
        ensures later { (D.faults self.old.disk.now ≤ D.faults self.new.disk.now) × (E.faults self.old.entropy.now ≤ E.faults self.new.entropy.now) }
        ensures names { (self.new.disk.ghost_name ≡ self.old.disk.ghost_name) × (self.new.entropy.ghost_name ≡ self.old.entropy.ghost_name) }
        ensures up { (self.new.is_down ≡ self.old.is_down) × (self.new.layout ≡ self.old.layout) }
    {
        match step {
            Step::Open { secret, profile } => self.open_session(i, secret, profile),
            Step::Share => self.share(i),
            Step::Read { page } => self.read(i, page),
            Step::Reserve => self.reserve(i),
            Step::Change { page, at, byte } => self.change(i, page, at, byte),
            Step::Rekey { secret, profile } => self.rekey(i, secret, profile),
            Step::Commit => self.commit(i),
            Step::Release => self.release(i),
            Step::Stop => self.stop(),
        }
    }

    // Whether the session has this lock.
    fn has(&self, i: usize, lock: Lock) -> bool
        requires { i < 16 }
        ensures yes { result ≡ true → (session_at self.now.sessions.items i).lock ≡ lock }
        ensures no { result ≡ false → (session_at self.now.sessions.items i).lock ≢ lock }
    {
        self.sessions[i].lock() == lock
    }

    // Whether another session has this lock.
    fn other_has(&self, i: usize, lock: Lock) -> bool
        ensures yes { result ≡ true → HasOther lock i self.now.sessions.items }
        ensures no { result ≡ false → HasNoOther lock i self.now.sessions.items }
    {
        other_has(&self.sessions, i, lock)
    }

    // Whether the session may commit.
    fn may_commit(&self, i: usize) -> bool
        requires { i < 16 }
        ensures { result ≡ may_commit (state (D.reads self.now.disk.now) self.now.layout self.now.sessions.items self.now.page) i }
    {
        self.sessions[i].lock().is_writing()
    }

    // The session is open, with this secret.
    fn open_session(&mut self, i: usize, secret: Secret, profile: Profile) -> Answer
        requires number { i < 16 }
        requires listed { IsListed profile }
        ensures told { Opens (state (D.reads self.old.disk.now) self.old.layout self.old.sessions.items self.old.page) i (record { profile = profile; secret = secret }) result
            (state (D.reads self.new.disk.now) self.new.layout self.new.sessions.items self.new.page) }
        ensures disk { Untouched self.old.disk self.new.disk }
        ensures entropy { Untouched self.old.entropy self.new.entropy }
        ensures up { (self.new.is_down ≡ self.old.is_down) × (self.new.layout ≡ self.old.layout) }
    {
        if !self.may_open(i, &secret, &profile) {
            return Answer::Misuse;
        }
        self.sessions[i] = Session::new(self.alloc, Lock::Unlocked, Key::new(profile, secret));
        Answer::Done
    }

    // Whether the session may be opened with this secret.
    fn may_open(&self, i: usize, secret: &Secret, profile: &Profile) -> bool
        requires { i < 16 }
        ensures { result ≡ may_open (state (D.reads self.now.disk.now) self.now.layout self.now.sessions.items self.now.page) i (record { profile = profile.now; secret = secret.now }) }
    {
        self.sessions[i].lock().is_idle() && may_be_under(&self.layout, profile, secret)
    }

    // It may read from now on.
    fn share(&mut self, i: usize) -> Answer
        requires number { i < 16 }
        requires kept { IsTrue D.tells → IsHallKept (D.reads self.old.disk.now) (D.images self.old.disk.now) self.old.sessions.items }
        ensures told { IsTrue D.tells → Shares (state (D.reads self.old.disk.now) self.old.layout self.old.sessions.items self.old.page) i result
            (state (D.reads self.new.disk.now) self.new.layout self.new.sessions.items self.new.page) }
        ensures fault { result ≡ Answer.DiskFault → Rose (D.faults self.old.disk.now) (D.faults self.new.disk.now) }
        ensures calls { (result ≢ Answer.EntropyFault) × (result ≢ Answer.Down) }
        ensures disk { DiskRead D.tells D.reads D.images D.moment D.since D.faults self.old.disk self.new.disk }
        ensures entropy { Untouched self.old.entropy self.new.entropy }
        ensures up { (self.new.is_down ≡ self.old.is_down) × (self.new.layout ≡ self.old.layout) }
    {
        if !self.has(i, Lock::Unlocked) {
            return Answer::Misuse;
        }
        if self.other_has(i, Lock::Pending) {
            return Answer::Busy;
        }
        let counted = count_pages(self.alloc, &mut *self.disk, &mut self.sessions[i]);
        match counted {
            Ok(pages) => {
                self.sessions[i].share(pages);
                Answer::Done
            }
            Err(error) => open_answer(error),
        }
    }

    // It reads page n.
    fn read(&mut self, i: usize, n: u32) -> Answer
        requires number { i < 16 }
        requires kept { IsTrue D.tells → IsHallKept (D.reads self.old.disk.now) (D.images self.old.disk.now) self.old.sessions.items }
        ensures told { IsTrue D.tells → Reads (state (D.reads self.old.disk.now) self.old.layout self.old.sessions.items self.old.page) i n result
            (state (D.reads self.new.disk.now) self.new.layout self.new.sessions.items self.new.page) }
        ensures fault { result ≡ Answer.DiskFault → Rose (D.faults self.old.disk.now) (D.faults self.new.disk.now) }
        ensures calls { (result ≢ Answer.EntropyFault) × (result ≢ Answer.Down) }
        ensures disk { DiskRead D.tells D.reads D.images D.moment D.since D.faults self.old.disk self.new.disk }
        ensures entropy { Untouched self.old.entropy self.new.entropy }
        ensures up { (self.new.is_down ≡ self.old.is_down) × (self.new.layout ≡ self.old.layout) }
    {
        if !self.may_read(i, n) {
            return Answer::Misuse;
        }
        match see_page(self.alloc, &mut *self.disk, &mut self.sessions[i], n) {
            Ok(page) => {
                self.page = page;
                Answer::Page
            }
            Err(unseen) => unseen_answer(unseen, n),
        }
    }

    // Whether the session may read page n.
    fn may_read(&self, i: usize, n: u32) -> bool
        requires { i < 16 }
        ensures { result ≡ may_read (state (D.reads self.now.disk.now) self.now.layout self.now.sessions.items self.now.page) i n }
    {
        let session = &self.sessions[i];
        session.lock().is_holding() && (1 <= n && n <= session.pages())
    }

    // It may change pages from now on.
    fn reserve(&mut self, i: usize) -> Answer
        requires number { i < 16 }
        ensures told { Reserves (state (D.reads self.old.disk.now) self.old.layout self.old.sessions.items self.old.page) i result
            (state (D.reads self.new.disk.now) self.new.layout self.new.sessions.items self.new.page) }
        ensures disk { Untouched self.old.disk self.new.disk }
        ensures entropy { Untouched self.old.entropy self.new.entropy }
        ensures up { (self.new.is_down ≡ self.old.is_down) × (self.new.layout ≡ self.old.layout) }
    {
        if !self.has(i, Lock::Shared) {
            return Answer::Misuse;
        }
        if self.other_has(i, Lock::Reserved) {
            return Answer::Busy;
        }
        if self.other_has(i, Lock::Pending) {
            return Answer::Busy;
        }
        self.sessions[i].set_lock(Lock::Reserved);
        Answer::Done
    }

    // It drops its changes, and holds nothing.
    fn release(&mut self, i: usize) -> Answer
        requires number { i < 16 }
        ensures told { Releases (state (D.reads self.old.disk.now) self.old.layout self.old.sessions.items self.old.page) i result
            (state (D.reads self.new.disk.now) self.new.layout self.new.sessions.items self.new.page) }
        ensures disk { Untouched self.old.disk self.new.disk }
        ensures entropy { Untouched self.old.entropy self.new.entropy }
        ensures up { (self.new.is_down ≡ self.old.is_down) × (self.new.layout ≡ self.old.layout) }
    {
        if self.has(i, Lock::Closed) {
            return Answer::Misuse;
        }
        self.sessions[i].let_go(Lock::Unlocked);
        Answer::Done
    }

    // Its commit is to seal every page under another key.
    fn rekey(&mut self, i: usize, secret: Secret, profile: Profile) -> Answer
        requires number { i < 16 }
        requires listed { IsListed profile }
        requires kept { IsTrue D.tells → IsHallKept (D.reads self.old.disk.now) (D.images self.old.disk.now) self.old.sessions.items }
        ensures told { IsTrue D.tells → Rekeys (state (D.reads self.old.disk.now) self.old.layout self.old.sessions.items self.old.page) i (record { profile = profile; secret = secret }) result
            (state (D.reads self.new.disk.now) self.new.layout self.new.sessions.items self.new.page) }
        ensures fault { result ≡ Answer.DiskFault → Rose (D.faults self.old.disk.now) (D.faults self.new.disk.now) }
        ensures calls { (result ≢ Answer.EntropyFault) × (result ≢ Answer.Down) }
        ensures disk { DiskRead D.tells D.reads D.images D.moment D.since D.faults self.old.disk self.new.disk }
        ensures entropy { Untouched self.old.entropy self.new.entropy }
        ensures up { (self.new.is_down ≡ self.old.is_down) × (self.new.layout ≡ self.old.layout) }
    {
        if !self.may_rekey(i, &secret, &profile) {
            return Answer::Misuse;
        }
        match first_unseen(&mut *self.disk, &mut self.sessions[i]) {
            Ok(None) => {
                self.sessions[i].rekey(Key::new(profile, secret));
                Answer::Done
            }
            Ok(Some(page)) => Answer::TagRefused { page },
            Err(_) => Answer::DiskFault,
        }
    }

    // Whether the session may be rekeyed to this secret.
    fn may_rekey(&self, i: usize, secret: &Secret, profile: &Profile) -> bool
        requires { i < 16 }
        ensures { result ≡ may_rekey (state (D.reads self.now.disk.now) self.now.layout self.now.sessions.items self.now.page) i (record { profile = profile.now; secret = secret.now }) }
    {
        self.sessions[i].lock().is_reserved() && may_be_under(&self.layout, profile, secret)
    }

    // Its changes are committed.
    fn commit(&mut self, i: usize) -> Answer
        requires number { i < 16 }
        requires kept { IsTrue D.tells → IsHallKept (D.reads self.old.disk.now) (D.images self.old.disk.now) self.old.sessions.items }
        ensures told { IsTrue D.tells → Commits (state (D.reads self.old.disk.now) self.old.layout self.old.sessions.items self.old.page) i result
            (state (D.reads self.new.disk.now) self.new.layout self.new.sessions.items self.new.page) }
        ensures settled { IsTrue D.tells → IsUp result → IsHallSettled (D.reads self.new.disk.now) (D.images self.new.disk.now) }
        ensures awake { result ≢ Answer.Down }
        ensures any_moment { IsTrue D.tells → CommitLeaves D.reads D.moment D.since result (session_at self.old.sessions.items i)
            (TellsDraws E.tells self.old.layout) (E.drawn self.old.entropy.now) (E.drawn self.new.entropy.now) self.old.disk.now self.new.disk.now }
        ensures fresh { IsTrue D.tells → LeavesOnly D.moment D.since self.old.disk.now self.new.disk.now (From SameFresh (D.images self.old.disk.now)) }
        ensures only_old { result ≡ Answer.EntropyFault → IsTrue D.tells → LeavesOnly D.moment D.since self.old.disk.now self.new.disk.now
            (HoldsSessionPages (session_at self.old.sessions.items i) (main_of (D.reads self.old.disk.now)) (main_of (D.reads self.old.disk.now))) }
        ensures drawn { IsTrue D.tells → IsTrue E.tells → CommitDraws self.old.layout result (session_at self.old.sessions.items i)
            (main_of (D.reads self.new.disk.now)) (E.drawn self.old.entropy.now) (E.drawn self.new.entropy.now) }
        ensures undrawn { is_plain self.old.layout ≡ true → (self.new.entropy.now ≡ self.old.entropy.now) × (result ≢ Answer.EntropyFault) }
        ensures disk_fault { result ≡ Answer.DiskFault → Rose (D.faults self.old.disk.now) (D.faults self.new.disk.now) }
        ensures entropy_fault { result ≡ Answer.EntropyFault → Rose (E.faults self.old.entropy.now) (E.faults self.new.entropy.now) }
        ensures later { (D.faults self.old.disk.now ≤ D.faults self.new.disk.now) × (E.faults self.old.entropy.now ≤ E.faults self.new.entropy.now) }
        ensures names { (self.new.disk.ghost_name ≡ self.old.disk.ghost_name) × (self.new.entropy.ghost_name ≡ self.old.entropy.ghost_name) }
        ensures up { (self.new.is_down ≡ self.old.is_down) × (self.new.layout ≡ self.old.layout) }
    {
        if !self.may_commit(i) {
            return Answer::Misuse;
        }
        if self.other_has(i, Lock::Shared) {
            self.sessions[i].set_lock(Lock::Pending);
            return Answer::Busy;
        }
        let answer = commit_session(
            self.alloc,
            &self.layout,
            &mut *self.disk,
            &mut *self.entropy,
            &mut self.sessions[i],
        );
        answer
    }

    // All sessions end.
    fn stop(&mut self) -> Answer
        ensures told { Stops (state (D.reads self.old.disk.now) self.old.layout self.old.sessions.items self.old.page) result
            (state (D.reads self.new.disk.now) self.new.layout self.new.sessions.items self.new.page) }
        ensures disk { Untouched self.old.disk self.new.disk }
        ensures entropy { Untouched self.old.entropy self.new.entropy }
        ensures up { (self.new.is_down ≡ self.old.is_down) × (self.new.layout ≡ self.old.layout) }
    {
        close_all(&mut self.sessions);
        Answer::Done
    }

    // One byte of page n becomes this one.
    fn change(&mut self, i: usize, n: u32, at: u32, byte: u8) -> Answer
        requires number { i < 16 }
        requires kept { IsTrue D.tells → IsHallKept (D.reads self.old.disk.now) (D.images self.old.disk.now) self.old.sessions.items }
        ensures told { IsTrue D.tells → ChangesByte (state (D.reads self.old.disk.now) self.old.layout self.old.sessions.items self.old.page) i n at byte result
            (state (D.reads self.new.disk.now) self.new.layout self.new.sessions.items self.new.page) }
        ensures fault { result ≡ Answer.DiskFault → Rose (D.faults self.old.disk.now) (D.faults self.new.disk.now) }
        ensures calls { (result ≢ Answer.EntropyFault) × (result ≢ Answer.Down) }
        ensures disk { DiskRead D.tells D.reads D.images D.moment D.since D.faults self.old.disk self.new.disk }
        ensures entropy { Untouched self.old.entropy self.new.entropy }
        ensures up { (self.new.is_down ≡ self.old.is_down) × (self.new.layout ≡ self.old.layout) }
    {
        if !self.may_change(i, n, at) {
            return Answer::Misuse;
        }
        match see_page(self.alloc, &mut *self.disk, &mut self.sessions[i], n) {
            Ok(mut page) => {
                page.put(at as usize, byte);
                match self.sessions[i].change_to(n, page) {
                    Ok(()) => Answer::Done,
                    Err(_) => Answer::OutOfMemory,
                }
            }
            Err(unseen) => unseen_answer(unseen, n),
        }
    }

    // Whether the session may change this byte of page n.
    fn may_change(&self, i: usize, n: u32, at: u32) -> bool
        requires { i < 16 }
        ensures { result ≡ may_change (state (D.reads self.now.disk.now) self.now.layout self.now.sessions.items self.now.page) i n at }
    {
        let session = &self.sessions[i];
        let profile = session.profile();
        session.lock().is_reserved()
            && (1 <= n && n <= session.pages())
            && is_content(&profile, n, at)
    }
}

// The answer where page n is not seen.
fn unseen_answer(unseen: Unseen, n: u32) -> Answer
    ensures value { result ≡ unseen_answer unseen n }
    ensures disk { result ≡ Answer.DiskFault → unseen ≡ Unseen.DiskFault }
    ensures calls { (result ≢ Answer.EntropyFault) × (result ≢ Answer.Down) }
{
    match unseen {
        Unseen::TagRefused => Answer::TagRefused { page: n },
        Unseen::DiskFault => Answer::DiskFault,
        Unseen::OutOfMemory => Answer::OutOfMemory,
    }
}
