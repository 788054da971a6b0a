// The changes of a session are committed.
ghost use Rattle.std.specs.Prelude.{◌≡◌, ◌≢◌, ◌≤◌, ◌<◌, length, true, false, Ok, Err, Some, None, IfOk, IfErr, OnOk, IsTrue};
ghost use Rattle.edge_model.specs.Causes.{HasCause, Rose};
ghost use Rattle.edge_model.specs.Files.{main_of};
ghost use Rattle.atomic_commit.specs.Facts.{SameFresh};
ghost use Rattle.edge_model.specs.Images.{From, LeavesOnly};
ghost use Rattle.edge_model.specs.OnlyRead.{OnlyRead};
ghost use Rattle.cipher_profile.specs.Profile.{IsListed, is_plain};
ghost use Rattle.session_hall.specs.Commit.{Commitment, CommitsTo, HoldsSessionPages, IsUp, StopsCommit};
ghost use Rattle.session_hall.specs.Draws.{HasDrawn, TellsDraws};
ghost use Rattle.session_hall.specs.Kept.{IsHallSettled, IsSessionSound};
ghost use Rattle.session_hall.specs.Key.{codec_of};
ghost use Rattle.session_hall.specs.Locks.{is_holding};
ghost use Rattle.session_hall.specs.Machine.{HasSessionChanges, write_access};

use crate::hall::open_answer;
use crate::no_draws::NoDraws;
use crate::session::Session;
use crate::step::Answer;
use crate::writing::write_changes;
use cipher_profile::Profile;
use edge_model::{Disk, Entropy, Failed};
use page_codec::Codec;
use pager::{OpenedFile, read_main};
use std::alloc::Global;

/// How many frames are taken where the file is opened for a commit.
const FRAMES: u32 = 24;

/// Commits what the session changed, and all pages anew where it rekeys. All memory is taken before the first write. In a hall of plain
/// files the entropy is not called.
pub fn commit_session<D: Disk, E: Entropy>(
    alloc: Global,
    layout: &Profile,
    disk: &mut D,
    entropy: &mut E,
    session: &mut Session,
) -> Answer
    requires settled { IsTrue D.tells → IsHallSettled (D.reads disk.old) (D.images disk.old) }
    requires sound { IsTrue D.tells → IsSessionSound (main_of (D.reads disk.old)) session.old }
    requires holds { is_holding session.old.lock ≡ true }
    ensures told { IsTrue D.tells → CommitsTo session.old (main_of (D.reads disk.old)) result (main_of (D.reads disk.new)) session.new }
    ensures awake { result ≢ Answer.Down }
    ensures settled { IsTrue D.tells → IsUp result → IsHallSettled (D.reads disk.new) (D.images disk.new) }
    ensures any_moment { IsTrue D.tells → Commitment D.moment D.since session.old (main_of (D.reads disk.old))
        (TellsDraws E.tells layout.now) (E.drawn entropy.old) (E.drawn entropy.new) disk.old disk.new }
    ensures fresh { IsTrue D.tells → LeavesOnly D.moment D.since disk.old disk.new (From SameFresh (D.images disk.old)) }
    ensures only_old { result ≡ Answer.EntropyFault → IsTrue D.tells → LeavesOnly D.moment D.since disk.old disk.new
        (HoldsSessionPages session.old (main_of (D.reads disk.old)) (main_of (D.reads disk.old))) }
    ensures drawn { is_plain layout.now ≡ false → result ≡ Answer.Done → IsTrue D.tells → IsTrue E.tells
        → HasDrawn session.old (main_of (D.reads disk.new)) (E.drawn entropy.old) (E.drawn entropy.new) }
    ensures no_memory { result ≡ Answer.OutOfMemory → IsTrue D.tells → (entropy.new ≡ entropy.old) × OnlyRead D.reads D.images D.moment D.since disk.old disk.new }
    ensures undrawn { is_plain layout.now ≡ true → (entropy.new ≡ entropy.old) × (result ≢ Answer.EntropyFault) }
    ensures disk_fault { result ≡ Answer.DiskFault → Rose (D.faults disk.old) (D.faults disk.new) }
    ensures entropy_fault { result ≡ Answer.EntropyFault → Rose (E.faults entropy.old) (E.faults entropy.new) }
    ensures later { (D.faults disk.old ≤ D.faults disk.new) × (E.faults entropy.old ≤ E.faults entropy.new) }
{
    if layout.is_plain() {
        return commit_drawing(alloc, disk, &mut NoDraws, session);
    }
    commit_drawing(alloc, disk, entropy, session)
}

// The same, with the bytes that pages are sealed with from this entropy.
fn commit_drawing<D: Disk, E: Entropy>(
    alloc: Global,
    disk: &mut D,
    entropy: &mut E,
    session: &mut Session,
) -> Answer
    requires settled { IsTrue D.tells → IsHallSettled (D.reads disk.old) (D.images disk.old) }
    requires sound { IsTrue D.tells → IsSessionSound (main_of (D.reads disk.old)) session.old }
    requires holds { is_holding session.old.lock ≡ true }
    ensures told { IsTrue D.tells → CommitsTo session.old (main_of (D.reads disk.old)) result (main_of (D.reads disk.new)) session.new }
    ensures awake { result ≢ Answer.Down }
    ensures settled { IsTrue D.tells → IsUp result → IsHallSettled (D.reads disk.new) (D.images disk.new) }
    ensures drawn { result ≡ Answer.Done → IsTrue D.tells → IsTrue E.tells
        → HasDrawn session.old (main_of (D.reads disk.new)) (E.drawn entropy.old) (E.drawn entropy.new) }
    ensures no_memory { result ≡ Answer.OutOfMemory → IsTrue D.tells → (entropy.new ≡ entropy.old) × OnlyRead D.reads D.images D.moment D.since disk.old disk.new }
    ensures any_moment { IsTrue D.tells → Commitment D.moment D.since session.old (main_of (D.reads disk.old))
        (IsTrue E.tells) (E.drawn entropy.old) (E.drawn entropy.new) disk.old disk.new }
    ensures fresh { IsTrue D.tells → LeavesOnly D.moment D.since disk.old disk.new (From SameFresh (D.images disk.old)) }
    ensures only_old { result ≡ Answer.EntropyFault → IsTrue D.tells → LeavesOnly D.moment D.since disk.old disk.new
        (HoldsSessionPages session.old (main_of (D.reads disk.old)) (main_of (D.reads disk.old))) }
    ensures disk_fault { result ≡ Answer.DiskFault → Rose (D.faults disk.old) (D.faults disk.new) }
    ensures entropy_fault { result ≡ Answer.EntropyFault → Rose (E.faults entropy.old) (E.faults entropy.new) }
    ensures later { (D.faults disk.old ≤ D.faults disk.new) × (E.faults entropy.old ≤ E.faults entropy.new) }
{
    match write_pages(alloc, disk, entropy, session) {
        Ok(()) => {
            session.commit();
            Answer::Done
        }
        Err(answer) => answer,
    }
}

// The pages are written in one transaction, and each image has Main as it reads.
fn write_pages<D: Disk, E: Entropy>(
    alloc: Global,
    disk: &mut D,
    entropy: &mut E,
    session: &mut Session,
) -> Result<(), Answer>
    requires settled { IsTrue D.tells → IsHallSettled (D.reads disk.old) (D.images disk.old) }
    requires sound { IsTrue D.tells → IsSessionSound (main_of (D.reads disk.old)) session.old }
    requires holds { is_holding session.old.lock ≡ true }
    ensures committed { OnOk result (IsTrue D.tells → HasSessionChanges session.old (main_of (D.reads disk.old)) (main_of (D.reads disk.new))) }
    ensures drawn { OnOk result (IsTrue D.tells → IsTrue E.tells
        → HasDrawn session.old (main_of (D.reads disk.new)) (E.drawn entropy.old) (E.drawn entropy.new)) }
    ensures no_memory { result ≡ Err Answer.OutOfMemory → IsTrue D.tells → entropy.new ≡ entropy.old }
    ensures settled { OnOk result (IsTrue D.tells → IsHallSettled (D.reads disk.new) (D.images disk.new)) }
    ensures stopped { IfErr result (λ answer. IsTrue D.tells → StopsCommit D.reads D.images D.moment D.since disk.old disk.new answer) }
    ensures awake { IfErr result (λ answer. (answer ≢ Answer.Down) × (answer ≢ Answer.Done)) }
    ensures any_moment { IsTrue D.tells → Commitment D.moment D.since session.old (main_of (D.reads disk.old))
        (IsTrue E.tells) (E.drawn entropy.old) (E.drawn entropy.new) disk.old disk.new }
    ensures fresh { IsTrue D.tells → LeavesOnly D.moment D.since disk.old disk.new (From SameFresh (D.images disk.old)) }
    ensures only_old { result ≡ Err Answer.EntropyFault → IsTrue D.tells → LeavesOnly D.moment D.since disk.old disk.new
        (HoldsSessionPages session.old (main_of (D.reads disk.old)) (main_of (D.reads disk.old))) }
    ensures same { session.new ≡ session.old }
    ensures disk_fault { result ≡ Err Answer.DiskFault → Rose (D.faults disk.old) (D.faults disk.new) }
    ensures entropy_fault { result ≡ Err Answer.EntropyFault → Rose (E.faults entropy.old) (E.faults entropy.new) }
    ensures later { (D.faults disk.old ≤ D.faults disk.new) × (E.faults entropy.old ≤ E.faults entropy.new) }
{
    session.sizes();
    let Ok((read, write)) = codecs(disk, session) else {
        return Err(Answer::DiskFault);
    };
    let file = match OpenedFile::read(alloc, disk, read, FRAMES) {
        Ok(file) => file,
        Err(error) => return Err(open_answer(error)),
    };
    let pager = file.into_pager(disk, entropy);
    let (disk, entropy, written) = write_changes(alloc, pager, write, session);
    // Both end here as they are, entropy first: the prover learns of each from these lines.
    let _ = entropy;
    let _ = disk;
    written
}

// The codec by which the session reads, and that of its commit. The first bytes of the file stay.
fn codecs<D: Disk>(disk: &mut D, session: &mut Session) -> Result<(Codec, Codec), Failed>
    ensures read { IfOk result (λ both. IsTrue D.tells → 16 ≤ length (main_of (D.reads disk.old)) → both.0 ≡ codec_of session.old.access (main_of (D.reads disk.old))) }
    ensures write { IfOk result (λ both. IsTrue D.tells → 16 ≤ length (main_of (D.reads disk.old)) → both.1 ≡ codec_of (write_access session.old) (main_of (D.reads disk.old))) }
    ensures profiles { IfOk result (λ both. (both.0.profile ≡ session.old.access.profile) × (both.1.profile ≡ (write_access session.old).profile)) }
    ensures listed { IfOk result (λ both. IsListed both.0.profile × IsListed both.1.profile) }
    ensures same { session.new ≡ session.old }
    ensures cause { HasCause (D.faults disk.old) (D.faults disk.new) result }
    ensures only_read { IsTrue D.tells → OnlyRead D.reads D.images D.moment D.since disk.old disk.new }
{
    let mut first = [0u8; 16];
    read_main(disk, 0, &mut first)?;
    let read = session.codec(first);
    let write = session.write_codec(first);
    let _read_profile = read.profile();
    let _write_profile = write.profile();
    Ok((read, write))
}
