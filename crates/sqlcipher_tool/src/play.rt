// `play`: a script of sessions on the recovered file.
ghost use Rattle.std.specs.Prelude.{◌≡◌, ◌≢◌, ◌⊎◌, ◌≤◌, true, false, Err, IsErr, IsTrue};
ghost use Rattle.cipher_profile.specs.Profile.{IsListed, is_plain};
ghost use Rattle.edge_model.specs.Causes.{Rose};
ghost use Rattle.edge_model.specs.Files.{main_of};
ghost use Rattle.edge_model.specs.Images.{From, LeavesOnly};
ghost use Rattle.atomic_commit.specs.Facts.{SameFresh};
ghost use Rattle.session_hall.specs.Kept.{IsHallSettled, IsHallKept};
ghost use Rattle.session_hall.specs.Machine.{state};
ghost use Rattle.session_play.specs.Moments.{disk_told};
ghost use Rattle.sqlcipher_tool.specs.Answer.{IsEarly};
ghost use Rattle.sqlcipher_tool.specs.Crash.{KeepsFresh};
ghost use Rattle.sqlcipher_tool.specs.Holding.{disk_run};
ghost use Rattle.sqlcipher_tool.specs.Play.{EndsScript, IsScriptPlayedIn, IsScriptPlayedOn, PlaysScript};
ghost use Rattle.sqlcipher_tool.specs.Promises.{IsUnrecovered};
ghost use Rattle.sqlcipher_tool.specs.Recovered.{recovery_of};
ghost use Rattle.sqlcipher_tool.specs.Untouched.{IsUnwritten};

use crate::conclusion::{conclude_refusal, conclude_stop};
use crate::recovery::recover_main;
use crate::status::{Refusal, Status};
use cipher_profile::Profile;
use edge_model::{Disk, Entropy, Sink, Source};
use session_hall::{Hall, Seats};
use session_play::{PlayError, play};
use std::alloc::Global;

/// `play`: Main is recovered, and the script that comes from the input is played on it, line by line. All memory of the hall is taken
/// before the disk is touched.
pub fn play_file<K: Source, S: Sink, E: Entropy, D: Disk>(
    alloc: Global,
    profile: Profile,
    input: &mut K,
    out: &mut S,
    entropy: &mut E,
    disk: &mut D,
) -> Status
    requires { IsListed profile }
    ensures plays { PlaysScript profile result K.tells S.tells D.tells E.tells (disk_run D.reads D.images D.moment D.since disk.old disk.new)
        (K.left input.old) (K.left input.new) (S.taken out.old) (S.taken out.new) (E.drawn entropy.old) (E.drawn entropy.new) }
    ensures undrawn { is_plain profile ≡ true → (entropy.new ≡ entropy.old) × (result ≢ Status.EntropyFault) }
    ensures fresh { IsTrue D.tells → KeepsFresh (disk_run D.reads D.images D.moment D.since disk.old disk.new) }
    ensures unwritten { IsTrue D.tells → IsErr (recovery_of profile (D.reads disk.old)) → IsUnwritten (disk_run D.reads D.images D.moment D.since disk.old disk.new) }
    ensures unrecovered { IsTrue D.tells → IsUnrecovered result → D.reads disk.new ≡ D.reads disk.old }
    ensures late { IsEarly result → ⊥ }
    ensures input_fault { result ≡ Status.InputFault → Rose (K.faults input.old) (K.faults input.new) }
    ensures output_fault { result ≡ Status.OutputFault → Rose (S.faults out.old) (S.faults out.new) }
    ensures disk_fault { result ≡ Status.DiskFault → Rose (D.faults disk.old) (D.faults disk.new) }
    ensures entropy_fault { result ≡ Status.EntropyFault → Rose (E.faults entropy.old) (E.faults entropy.new) }
    ensures input_later { K.faults input.old ≤ K.faults input.new }
    ensures output_later { S.faults out.old ≤ S.faults out.new }
    ensures disk_later { D.faults disk.old ≤ D.faults disk.new }
    ensures entropy_later { E.faults entropy.old ≤ E.faults entropy.new }
{
    let Ok(seats) = Seats::new(alloc, &profile) else {
        return Status::OutOfMemory;
    };
    match recover_main(alloc, disk, profile) {
        Ok(_) => play_recovered(seats, profile, input, out, entropy, disk),
        Err(stop) => conclude_stop(out, stop),
    }
}

// A script on the recovered Main.
fn play_recovered<K: Source, S: Sink, E: Entropy, D: Disk>(
    seats: Seats,
    profile: Profile,
    input: &mut K,
    out: &mut S,
    entropy: &mut E,
    disk: &mut D,
) -> Status
    requires listed { IsListed profile }
    requires layout { seats.layout ≡ profile }
    requires settled { IsTrue D.tells → IsHallSettled (D.reads disk.old) (D.images disk.old) }
    ensures played { IsScriptPlayedOn profile (main_of (D.reads disk.old)) result K.tells S.tells D.tells E.tells (LeavesOnly D.moment D.since disk.old disk.new)
        (disk_told D.reads D.images D.moment D.since) disk.old disk.new (D.reads disk.new) (D.images disk.new) (K.left input.old) (K.left input.new) (S.taken out.old) (S.taken out.new) (E.drawn entropy.old) (E.drawn entropy.new) }
    ensures fresh { IsTrue D.tells → LeavesOnly D.moment D.since disk.old disk.new (From SameFresh (D.images disk.old)) }
    ensures undrawn { is_plain profile ≡ true → (entropy.new ≡ entropy.old) × (result ≢ Status.EntropyFault) }
    ensures recovered { IsUnrecovered result → ⊥ }
    ensures late { IsEarly result → ⊥ }
    ensures input_fault { result ≡ Status.InputFault → Rose (K.faults input.old) (K.faults input.new) }
    ensures output_fault { result ≡ Status.OutputFault → Rose (S.faults out.old) (S.faults out.new) }
    ensures disk_fault { result ≡ Status.DiskFault → Rose (D.faults disk.old) (D.faults disk.new) }
    ensures entropy_fault { result ≡ Status.EntropyFault → Rose (E.faults entropy.old) (E.faults entropy.new) }
    ensures input_later { K.faults input.old ≤ K.faults input.new }
    ensures output_later { S.faults out.old ≤ S.faults out.new }
    ensures disk_later { D.faults disk.old ≤ D.faults disk.new }
    ensures entropy_later { E.faults entropy.old ≤ E.faults entropy.new }
{
    let hall = Hall::on(seats, disk, entropy);
    let (disk, entropy, played) = play_in(&profile, input, out, hall);
    let status = conclude_script(out, played);
    // Both end here as they are, entropy first: the prover learns of each from these lines.
    let _ = entropy;
    let _ = disk;
    status
}

// A script in a hall. The disk and the entropy come back in any case.
fn play_in<'d, K: Source, S: Sink, D: Disk, E: Entropy>(
    profile: &Profile,
    input: &mut K,
    out: &mut S,
    hall: Hall<'d, D, E>,
) -> (&'d mut D, &'d mut E, Result<(), PlayError>)
    requires listed { IsListed profile.now }
    requires up { hall.is_down ≡ false }
    requires kept { IsTrue D.tells → IsHallKept (D.reads hall.disk.now) (D.images hall.disk.now) hall.sessions.items }
    ensures disk { result.0.ghost_name ≡ hall.entry.disk.ghost_name }
    ensures entropy { result.1.ghost_name ≡ hall.entry.entropy.ghost_name }
    ensures played { IsScriptPlayedIn profile.now result.2 K.tells S.tells D.tells E.tells (LeavesOnly D.moment D.since hall.entry.disk.now result.0.now)
        (disk_told D.reads D.images D.moment D.since) hall.entry.disk.now result.0.now
        (D.reads result.0.now) (D.images result.0.now) (K.left input.old) (K.left input.new) (S.taken out.old) (S.taken out.new) (E.drawn hall.entry.entropy.now) (E.drawn result.1.now)
        (state (D.reads hall.entry.disk.now) hall.entry.layout hall.entry.sessions.items hall.entry.page) }
    ensures fresh { IsTrue D.tells → LeavesOnly D.moment D.since hall.entry.disk.now result.0.now (From SameFresh (D.images hall.entry.disk.now)) }
    ensures undrawn { is_plain hall.entry.layout ≡ true → (result.1.now ≡ hall.entry.entropy.now) × (result.2 ≢ Err PlayError.EntropyFault) }
    ensures input_fault { result.2 ≡ Err PlayError.InputFault → Rose (K.faults input.old) (K.faults input.new) }
    ensures output_fault { result.2 ≡ Err PlayError.OutputFault → Rose (S.faults out.old) (S.faults out.new) }
    ensures disk_fault { result.2 ≡ Err PlayError.DiskFault → Rose (D.faults hall.entry.disk.now) (D.faults result.0.now) }
    ensures entropy_fault { result.2 ≡ Err PlayError.EntropyFault → Rose (E.faults hall.entry.entropy.now) (E.faults result.1.now) }
    ensures input_later { K.faults input.old ≤ K.faults input.new }
    ensures output_later { S.faults out.old ≤ S.faults out.new }
    ensures disk_later { D.faults hall.entry.disk.now ≤ D.faults result.0.now }
    ensures entropy_later { E.faults hall.entry.entropy.now ≤ E.faults result.1.now }
{
    let mut hall = hall;
    let played = play(profile, input, out, &mut hall);
    let (disk, entropy) = hall.close();
    (disk, entropy, played)
}

// How a script ends: the line that it is refused for is printed.
fn conclude_script<S: Sink>(out: &mut S, played: Result<(), PlayError>) -> Status
    ensures ends { EndsScript played result S.tells (S.taken out.old) (S.taken out.new) }
    ensures recovered { IsUnrecovered result → ⊥ }
    ensures late { IsEarly result → ⊥ }
    ensures input { result ≡ Status.InputFault → played ≡ Err PlayError.InputFault }
    ensures output { result ≡ Status.OutputFault → (played ≡ Err PlayError.OutputFault) ⊎ Rose (S.faults out.old) (S.faults out.new) }
    ensures disk { result ≡ Status.DiskFault → played ≡ Err PlayError.DiskFault }
    ensures entropy { result ≡ Status.EntropyFault → played ≡ Err PlayError.EntropyFault }
    ensures later { S.faults out.old ≤ S.faults out.new }
{
    match played {
        Ok(()) => Status::Done,
        Err(PlayError::ScriptLine { line }) => conclude_refusal(out, Refusal::ScriptLine { line }),
        Err(PlayError::LineTooLong { line }) => {
            conclude_refusal(out, Refusal::LineTooLong { line })
        }
        Err(PlayError::TooManyLines) => conclude_refusal(out, Refusal::TooManyLines),
        Err(PlayError::DiskFault) => Status::DiskFault,
        Err(PlayError::OutputFault) => Status::OutputFault,
        Err(PlayError::InputFault) => Status::InputFault,
        Err(PlayError::EntropyFault) => Status::EntropyFault,
        Err(PlayError::OutOfMemory) => Status::OutOfMemory,
    }
}
