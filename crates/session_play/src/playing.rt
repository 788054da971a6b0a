// A script is played.
ghost use Rattle.std.specs.Prelude.{◌≡◌, ◌≢◌, ◌≤◌, ℕ, false, true, drop, slice_index, Err, IsTrue};
ghost use Rattle.edge_model.specs.Causes.{Rose};
ghost use Rattle.atomic_commit.specs.Facts.{SameFresh};
ghost use Rattle.edge_model.specs.Images.{Each, From, LeavesOnly};
ghost use Rattle.cipher_profile.specs.Profile.{IsListed, is_plain};
ghost use Rattle.session_hall.specs.Kept.{IsHallKept};
ghost use Rattle.session_hall.specs.Machine.{state};
ghost use Rattle.session_play.specs.Moments.{disk_told};
ghost use Rattle.session_play.specs.Play.{Carries, StaysUp, PlaysLines};

use crate::answer::answer_line;
use crate::line::{Ending, MAX_TAKEN, Taken, take_ending, take_line};
use crate::script::{ScriptStep, step_of};
use cipher_profile::Profile;
use edge_model::{Disk, Entropy, Sink, Source};
use session_hall::{Answer, Hall};

/// How many lines a script may have.
pub const MAX_LINES: u32 = 100_000;

/// Why a script was not played to its end. Lines are counted from 1.
#[derive(Clone, Copy, Debug, PartialEq, Eq)]
pub enum PlayError {
    /// This line is no step.
    ScriptLine { line: u32 },
    /// 1,101 bytes of this line came without a line feed.
    LineTooLong { line: u32 },
    /// A byte follows the last line that a script may have.
    TooManyLines,
    /// The disk failed.
    DiskFault,
    /// The output failed.
    OutputFault,
    /// The input failed.
    InputFault,
    /// The source of random bytes failed.
    EntropyFault,
    /// Memory ran out.
    OutOfMemory,
}

/// Plays the script that comes from the input on an open hall: line by line, a line is read, its step is made, and its answer is printed.
pub fn play<K: Source, S: Sink, D: Disk, E: Entropy>(
    layout: &Profile,
    input: &mut K,
    out: &mut S,
    hall: &mut Hall<'_, D, E>,
) -> Result<(), PlayError>
    requires listed { IsListed layout.now }
    requires up { hall.old.is_down ≡ false }
    requires kept { IsTrue D.tells → IsHallKept (D.reads hall.old.disk.now) (D.images hall.old.disk.now) hall.old.sessions.items }
    // which lines are carried out, their answers and what is printed, that they are a run of the machine, what they draw, what a stop leaves at each
    // moment, and that the moments come in the order of the lines
    ensures played { PlaysLines layout.now result K.tells S.tells D.tells E.tells
        (LeavesOnly D.moment D.since hall.old.disk.now hall.new.disk.now) (Each (D.images hall.new.disk.now))
        (disk_told D.reads D.images D.moment D.since) hall.old.disk.now hall.new.disk.now
        (K.left input.old) (K.left input.new) (S.taken out.old) (S.taken out.new) (E.drawn hall.old.entropy.now) (E.drawn hall.new.entropy.now)
        (state (D.reads hall.old.disk.now) hall.old.layout hall.old.sessions.items hall.old.page) (state (D.reads hall.new.disk.now) hall.new.layout hall.new.sessions.items hall.new.page) }
    ensures fresh { IsTrue D.tells → LeavesOnly D.moment D.since hall.old.disk.now hall.new.disk.now (From SameFresh (D.images hall.old.disk.now)) }
    // where no step failed, each image is as the disk reads
    ensures up { StaysUp result → hall.new.is_down ≡ false }
    ensures kept { IsTrue D.tells → hall.new.is_down ≡ false → IsHallKept (D.reads hall.new.disk.now) (D.images hall.new.disk.now) hall.new.sessions.items }
    ensures taken { IsTrue K.tells → (n : ℕ) × (K.left input.new ≡ drop n (K.left input.old)) }
    ensures input_fault { result ≡ Err PlayError.InputFault → Rose (K.faults input.old) (K.faults input.new) }
    ensures output_fault { result ≡ Err PlayError.OutputFault → Rose (S.faults out.old) (S.faults out.new) }
    ensures disk_fault { result ≡ Err PlayError.DiskFault → Rose (D.faults hall.old.disk.now) (D.faults hall.new.disk.now) }
    ensures entropy_fault { result ≡ Err PlayError.EntropyFault → Rose (E.faults hall.old.entropy.now) (E.faults hall.new.entropy.now) }
    ensures input_later { K.faults input.old ≤ K.faults input.new }
    ensures output_later { S.faults out.old ≤ S.faults out.new }
    // a hall of plain files draws nothing
    ensures layout { hall.new.layout ≡ hall.old.layout }
    ensures undrawn { is_plain hall.old.layout ≡ true → (hall.new.entropy.now ≡ hall.old.entropy.now) × (result ≢ Err PlayError.EntropyFault) }
    ensures later { (D.faults hall.old.disk.now ≤ D.faults hall.new.disk.now) × (E.faults hall.old.entropy.now ≤ E.faults hall.new.entropy.now) }
    ensures names { (hall.new.disk.ghost_name ≡ hall.old.disk.ghost_name) × (hall.new.entropy.ghost_name ≡ hall.old.entropy.ghost_name) }
{
    for carried in 0..MAX_LINES {
        let mut buffer = [0u8; MAX_TAKEN];
        match take_line(input, &mut buffer) {
            Taken::Line { len } => {
                match play_line(layout, carried + 1, &buffer[..len], out, hall) {
                    Ok(()) => {}
                    Err(error) => return Err(error),
                }
            }
            Taken::NoLine => return Ok(()),
            Taken::TooLong => return Err(PlayError::LineTooLong { line: carried + 1 }),
            Taken::SourceFault => return Err(PlayError::InputFault),
        }
    }
    match take_ending(input) {
        Ending::End => Ok(()),
        Ending::More => Err(PlayError::TooManyLines),
        Ending::SourceFault => Err(PlayError::InputFault),
    }
}

// Carries out one line.
fn play_line<S: Sink, D: Disk, E: Entropy>(
    layout: &Profile,
    number: u32,
    line: &[u8],
    out: &mut S,
    hall: &mut Hall<'_, D, E>,
) -> Result<(), PlayError>
    requires listed { IsListed layout.now }
    requires up { hall.old.is_down ≡ false }
    requires kept { IsTrue D.tells → IsHallKept (D.reads hall.old.disk.now) (D.images hall.old.disk.now) hall.old.sessions.items }
    ensures carried { Carries layout.now number line.now S.tells D.tells E.tells (LeavesOnly D.moment D.since hall.old.disk.now hall.new.disk.now) result
        (S.taken out.old) (S.taken out.new) (E.drawn hall.old.entropy.now) (E.drawn hall.new.entropy.now)
        (state (D.reads hall.old.disk.now) hall.old.layout hall.old.sessions.items hall.old.page) (state (D.reads hall.new.disk.now) hall.new.layout hall.new.sessions.items hall.new.page) }
    ensures fresh { IsTrue D.tells → LeavesOnly D.moment D.since hall.old.disk.now hall.new.disk.now (From SameFresh (D.images hall.old.disk.now)) }
    ensures unmoved { (n : ℕ) → result ≡ Err (PlayError.ScriptLine n) → hall.new.disk.now ≡ hall.old.disk.now }
    ensures up { StaysUp result → hall.new.is_down ≡ false }
    ensures kept { IsTrue D.tells → hall.new.is_down ≡ false → IsHallKept (D.reads hall.new.disk.now) (D.images hall.new.disk.now) hall.new.sessions.items }
    ensures output_fault { result ≡ Err PlayError.OutputFault → Rose (S.faults out.old) (S.faults out.new) }
    ensures disk_fault { result ≡ Err PlayError.DiskFault → Rose (D.faults hall.old.disk.now) (D.faults hall.new.disk.now) }
    ensures entropy_fault { result ≡ Err PlayError.EntropyFault → Rose (E.faults hall.old.entropy.now) (E.faults hall.new.entropy.now) }
    ensures output_later { S.faults out.old ≤ S.faults out.new }
    ensures layout { hall.new.layout ≡ hall.old.layout }
    ensures undrawn { is_plain hall.old.layout ≡ true → (hall.new.entropy.now ≡ hall.old.entropy.now) × (result ≢ Err PlayError.EntropyFault) }
    ensures later { (D.faults hall.old.disk.now ≤ D.faults hall.new.disk.now) × (E.faults hall.old.entropy.now ≤ E.faults hall.new.entropy.now) }
    ensures names { (hall.new.disk.ghost_name ≡ hall.old.disk.ghost_name) × (hall.new.entropy.ghost_name ≡ hall.old.entropy.ghost_name) }
{
    let Some(entry) = step_of(layout, line) else {
        return Err(PlayError::ScriptLine { line: number });
    };
    let ScriptStep { session, step, at } = entry;
    let answer = hall.step(session, step);
    match answer {
        Answer::DiskFault => Err(PlayError::DiskFault),
        Answer::EntropyFault => Err(PlayError::EntropyFault),
        Answer::OutOfMemory => Err(PlayError::OutOfMemory),
        // a hall that is down is not played on
        Answer::Down => Err(PlayError::DiskFault),
        _ => {
            let byte = byte_at(hall.last(), at);
            match answer_line(answer, byte).put(out) {
                Ok(()) => Ok(()),
                Err(_) => Err(PlayError::OutputFault),
            }
        }
    }
}

// The byte of a page at this place, 0 behind its end.
fn byte_at(page: &[u8], at: u32) -> u8
    ensures { result ≡ slice_index page.now at }
{
    match page.get(at as usize) {
        Some(byte) => *byte,
        None => 0,
    }
}
