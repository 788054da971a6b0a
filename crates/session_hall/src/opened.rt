// A hall is opened.
ghost use Rattle.std.specs.Prelude.{[], ◌≡◌, ◌≢◌, ◌⊎◌, ◌≤◌, length, false, Err, IfOk, IfErr, IsTrue};
ghost use Rattle.edge_model.specs.Causes.{Rose};
ghost use Rattle.edge_model.specs.Files.{bytes_of};
ghost use Rattle.edge_model.specs.Images.{Each, From, LeavesOnly};
ghost use Rattle.rollback_journal.specs.Recovery.{HasByte, IsPlaybackDone, KeepsRecovered, answer_to, changes_nothing};
ghost use Rattle.cipher_profile.specs.Profile.{IsListed};
ghost use Rattle.session_hall.specs.Kept.{AreAllClosed, IsHallSettled, IsHallKept};

use crate::hall::{Hall, SESSIONS};
use crate::key::Key;
use crate::lock::Lock;
use crate::plain_page::PlainPage;
use crate::session::Session;
use cipher_profile::{Profile, Secret};
use edge_model::{Disk, Entropy, OutOfMemory};
use rollback_journal::{RecoverError, recover};
use std::alloc::Global;

/// Sixteen closed sessions, with all memory that a hall takes when it is opened.
#[derive(Drop)]
pub struct Seats {
    layout: Profile,
    sessions: Vec<Session>,
    alloc: Global,
    ghost many: { length sessions.items ≡ 16 },
    ghost all_closed: { AreAllClosed sessions.items },
}

impl Seats {
    /// Closed sessions for a hall of files of this profile.
    pub fn new(alloc: Global, profile: &Profile) -> Result<Seats, OutOfMemory>
        requires { IsListed profile.now }
        ensures layout { IfOk result (λ seats. seats.layout ≡ profile.now) }
    {
        match closed_sessions(alloc, profile) {
            Ok(sessions) => Ok(Seats {
                layout: *profile,
                sessions,
                alloc,
            }),
            Err(error) => Err(error),
        }
    }
}

impl<'d, D: Disk, E: Entropy> Hall<'d, D, E> {
    /// Recovers Main, and opens a hall on it. All sixteen sessions are closed. A caller that must know its disk after an `Err` takes the steps of
    /// this call itself: `Seats::new`, `recover` and `Hall::on`.
    pub fn open(
        alloc: Global,
        disk: &'d mut D,
        entropy: &'d mut E,
        profile: &Profile,
    ) -> Result<Hall<'d, D, E>, RecoverError>
        requires { IsListed profile.now }
        ensures kept { IfOk result (λ hall. IsTrue D.tells → IsHallKept (D.reads hall.disk.now) (D.images hall.disk.now) hall.sessions.items) }
        ensures many { IfOk result (λ hall. length hall.sessions.items ≡ 16) }
        ensures all_closed { IfOk result (λ hall. AreAllClosed hall.sessions.items) }
        ensures no_page { IfOk result (λ hall. hall.page ≡ []) }
        ensures layout { IfOk result (λ hall. hall.layout ≡ profile.now) }
        ensures up { IfOk result (λ hall. hall.is_down ≡ false) }
        ensures names { IfOk result (λ hall. (hall.disk.ghost_name ≡ disk.entry.ghost_name) × (hall.entropy.ghost_name ≡ entropy.entry.ghost_name)) }
        ensures entropy { IfOk result (λ hall. hall.entropy.now ≡ entropy.old) }
        ensures later { IfOk result (λ hall. D.faults disk.old ≤ D.faults hall.disk.now) }
        // Main is what is recovered of the files, and stays where nothing is; on the way each image recovers to what one at the start recovers to
        ensures recovered { IfOk result (λ hall. IsTrue D.tells → HasByte (bytes_of (D.reads disk.old).main)
            → Each (D.images hall.disk.now) (IsPlaybackDone profile.now.page_size (bytes_of (D.reads disk.old).main) (bytes_of (D.reads disk.old).journal))) }
        ensures idle { IfOk result (λ hall. IsTrue D.tells → IsTrue (changes_nothing (answer_to profile.now.page_size (D.reads disk.old))) → D.reads hall.disk.now ≡ D.reads disk.old) }
        ensures any_moment { IfOk result (λ hall. IsTrue D.tells
            → LeavesOnly D.moment D.since disk.old hall.disk.now (From (KeepsRecovered profile.now.page_size) (D.images disk.old))) }
        // a refusal is that of the recovery
        ensures refused { IfErr result (λ error. IsTrue D.tells → (Err error ≡ answer_to profile.now.page_size (D.reads disk.old))
            ⊎ (error ≡ RecoverError.DiskFault) ⊎ (error ≡ RecoverError.OutOfMemory)) }
    {
        let Ok(seats) = Seats::new(alloc, profile) else {
            return Err(RecoverError::OutOfMemory);
        };
        recover(alloc, &mut *disk, profile.page_size)?;
        Ok(Hall::on(seats, disk, entropy))
    }

    /// A hall on a disk that was recovered. No call of it is made.
    pub fn on(seats: Seats, disk: &'d mut D, entropy: &'d mut E) -> Hall<'d, D, E>
        requires { IsTrue D.tells → IsHallSettled (D.reads disk.old) (D.images disk.old) }
        ensures kept { IsTrue D.tells → IsHallKept (D.reads result.disk.now) (D.images result.disk.now) result.sessions.items }
        ensures many { length result.sessions.items ≡ 16 }
        ensures all_closed { AreAllClosed result.sessions.items }
        ensures no_page { result.page ≡ [] }
        ensures layout { result.layout ≡ seats.layout }
        ensures up { result.is_down ≡ false }
        ensures disk { (result.disk.ghost_name ≡ disk.entry.ghost_name) × (result.disk.now ≡ disk.old) }
        ensures entropy { (result.entropy.ghost_name ≡ entropy.entry.ghost_name) × (result.entropy.now ≡ entropy.old) }
    {
        let Seats {
            layout,
            sessions,
            alloc,
        } = seats;
        Hall {
            disk,
            entropy,
            alloc,
            layout,
            sessions,
            page: PlainPage::none(alloc),
            is_down: false,
        }
    }
}

// As many closed sessions as a hall has. The key of a closed session counts for nothing.
fn closed_sessions(alloc: Global, profile: &Profile) -> Result<Vec<Session>, OutOfMemory>
    requires { IsListed profile.now }
    ensures many { IfOk result (λ sessions. length sessions.items ≡ 16) }
    ensures all_closed { IfOk result (λ sessions. AreAllClosed sessions.items) }
{
    let mut sessions = Vec::new(alloc);
    for made in 0..SESSIONS {
        let key = Key::new(*profile, Secret::Raw([0; 32]));
        let session = Session::new(alloc, Lock::Closed, key);
        if sessions.push(session).is_err() {
            return Err(OutOfMemory);
        }
    }
    Ok(sessions)
}
