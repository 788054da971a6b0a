// The top call.
ghost use Rattle.std.specs.Prelude.{◌≡◌, ◌⊎◌, ◌≤◌, ◌∷◌, [], true, false, None, Some, Ok, Err, IsTrue, IsErr};
ghost use Rattle.cipher_profile.specs.declared.key_line.KeyError.{KeyError as KeyRefusal};
ghost use Rattle.edge_model.specs.Causes.{Rose};
ghost use Rattle.edge_model.specs.Files.{main_of};
ghost use Rattle.sqlcipher_tool.specs.Answer.{IsEarly, Puts, PutsLine, is_defect_status};
ghost use Rattle.sqlcipher_tool.specs.Behind.{LeavesRecovered};
ghost use Rattle.sqlcipher_tool.specs.Carried.{CarriesOut, Serves, device_run, stream_run};
ghost use Rattle.sqlcipher_tool.specs.Crash.{Keeps, KeepsFresh, ChangesBy, GaveKeys, DrewOwn};
ghost use Rattle.sqlcipher_tool.specs.Due.{due, key_answer, key_lines, word_refusal};
ghost use Rattle.sqlcipher_tool.specs.Holding.{disk_run};
ghost use Rattle.cipher_profile.specs.declared.profile.Profile.{Profile as Played};
ghost use Rattle.sqlcipher_tool.specs.Play.{AreNoWords, CanBePlayed, DrawsBytes, IsPlay, PlaysScript, TakesInput};
ghost use Rattle.sqlcipher_tool.specs.Promises.{AnswersOne, AreWordsThat, ComesLate, IsAnsweredEarly, IsUnrecovered, TakesLines, TellsKeys, is_in_the_way, WhereTaken, secrets_of};
ghost use Rattle.sqlcipher_tool.specs.Servable.{CanBeServed, IsDoneOrStarved, NoneRose};
ghost use Rattle.sqlcipher_tool.specs.Text.{usage_line};
ghost use Rattle.sqlcipher_tool.specs.Recovered.{recovery_of};
ghost use Rattle.sqlcipher_tool.specs.Untouched.{IsUnwritten, LeavesAlone};
ghost use Rattle.sqlcipher_tool.specs.declared.command.Command.{Command as Asked};
ghost use Rattle.sqlcipher_tool.specs.declared.status.Refusal.{Refusal as Refused};
ghost use Rattle.sqlcipher_tool.specs.declared.status.Refusal.TheVariants.{OnlyRead as ReadAlone};
ghost use Rattle.sqlcipher_tool.specs.Words.{alters, draws, finds, form, play_form, plays_with_log, texts, asked_keys, recovers_by, writes_beside, IsServed};
ghost use Rattle.pager.specs.Drawn.{drawn_since};

use crate::change::change_file;
use crate::command::{Command, parse_words, played_profile, plays_with_log};
use crate::conclusion::{conclude_key, conclude_refusal, conclude_wordless};
use crate::make::make_file;
use crate::no_entropy::NoEntropy;
use crate::play::play_file;
use crate::probe::probe;
use crate::reading::read_file;
use crate::recovery::report_recovery;
use crate::secrets::{Secrets, read_secrets};
use crate::status::Status;
use edge_model::{Disk, Entropy, Sink, Source};
use std::alloc::Global;

/// Carries out the command that the words make: key lines come from the input, lines go to the output, and the files
/// are those of the disk. `play` stands beside the commands: what holds of it is said at the end.
pub fn run<K: Source, S: Sink, E: Entropy, D: Disk>(
    alloc: Global,
    words: &[&str],
    input: &mut K,
    out: &mut S,
    entropy: &mut E,
    disk: &mut D,
) -> Status
    // Which answer comes: what the words decide, then what the input decides, then what the files decide.
    ensures usage { result ≡ Status.Usage → AreNoWords (texts words.now) }
    ensures usage_comes { AreNoWords (texts words.now) → (result ≡ Status.Usage) ⊎ (result ≡ Status.OutputFault) }
    ensures word_refusals { (command : Asked) (refusal : Refused) → form (texts words.now) ≡ Some command → word_refusal command ≡ Some refusal
        → (result ≡ Status.Refused refusal) ⊎ (result ≡ Status.OutputFault) }
    ensures key_refusals { IsTrue K.tells → WhereTaken (texts words.now) (λ command. (error : KeyRefusal)
        → key_lines (asked_keys command) (K.left input.old) ≡ Err error → IsAnsweredEarly result (key_answer error)) }
    ensures answer { TellsKeys K.tells (texts words.now) → IsTrue D.tells → play_form (texts words.now) ≡ None
        → AnswersOne (due (texts words.now) (K.left input.old) (D.reads disk.old) (D.reads disk.new)) result S.tells (S.taken out.old) (S.taken out.new) }
    ensures complete { TellsKeys K.tells (texts words.now) → IsTrue D.tells → CanBeServed (texts words.now) (K.left input.old) (D.reads disk.old)
        → NoneRose ((K.faults input.old, K.faults input.new) ∷ (S.faults out.old, S.faults out.new)
        ∷ (E.faults entropy.old, E.faults entropy.new) ∷ (D.faults disk.old, D.faults disk.new) ∷ []) → IsDoneOrStarved result }

    // When something outside failed in its place, or memory ran out.
    ensures input_fault { result ≡ Status.InputFault → Rose (K.faults input.old) (K.faults input.new) × TakesInput (texts words.now) }
    ensures output_fault { result ≡ Status.OutputFault → Rose (S.faults out.old) (S.faults out.new) }
    ensures disk_fault { result ≡ Status.DiskFault → Rose (D.faults disk.old) (D.faults disk.new) }
    ensures entropy_fault { result ≡ Status.EntropyFault → Rose (E.faults entropy.old) (E.faults entropy.new) × DrawsBytes (texts words.now) }
    ensures memory { result ≡ Status.OutOfMemory → ComesLate (texts words.now) K.tells (K.left input.old) ⊎ IsPlay (texts words.now) }
    ensures input_later { K.faults input.old ≤ K.faults input.new }
    ensures output_later { S.faults out.old ≤ S.faults out.new }
    ensures disk_later { D.faults disk.old ≤ D.faults disk.new }
    ensures entropy_later { E.faults entropy.old ≤ E.faults entropy.new }

    // What is printed, where the input or the disk does not tell.
    ensures usage_text { IsTrue S.tells → AreNoWords (texts words.now) → Puts result usage_line (S.taken out.old) (S.taken out.new) }
    // before the line of a defect that `find` met, rows may stand
    ensures line { IsTrue S.tells → play_form (texts words.now) ≡ None → (AreWordsThat finds (texts words.now) → is_defect_status result ≡ false) → PutsLine result (S.taken out.old) (S.taken out.new) }
    ensures input_text { play_form (texts words.now) ≡ None → result ≡ Status.InputFault → out.new ≡ out.old }

    // What is taken and drawn, and that an answer which needs no disk makes no call of it.
    ensures words_first { AreNoWords (texts words.now) → (input.new ≡ input.old) × (disk.new ≡ disk.old) }
    ensures refused_first { (command : Asked) (refusal : Refused) → form (texts words.now) ≡ Some command → word_refusal command ≡ Some refusal
        → (input.new ≡ input.old) × (disk.new ≡ disk.old) }
    ensures key_first { IsTrue K.tells → WhereTaken (texts words.now) (λ command. IsErr (key_lines (asked_keys command) (K.left input.old))
        → disk.new ≡ disk.old) }
    ensures early_first { IsEarly result → disk.new ≡ disk.old }
    ensures fault_first { play_form (texts words.now) ≡ None → result ≡ Status.InputFault → disk.new ≡ disk.old }
    ensures takes { IsTrue K.tells → WhereTaken (texts words.now) (λ command. TakesLines result (asked_keys command) (K.left input.old) (K.left input.new)) }
    ensures takes_none { (TakesInput (texts words.now) → ⊥) → input.new ≡ input.old }
    ensures draws { (DrawsBytes (texts words.now) → ⊥) → entropy.new ≡ entropy.old }
    ensures undrawn { IsTrue D.tells → (command : Asked) → form (texts words.now) ≡ Some command → is_in_the_way command (D.reads disk.old) ≡ true
        → entropy.new ≡ entropy.old }
    ensures own_draws { IsTrue D.tells → IsTrue E.tells → result ≡ Status.Done → (command : Asked) → form (texts words.now) ≡ Some command
        → DrewOwn command (GaveKeys K.tells (asked_keys command) (K.left input.old)) (main_of (D.reads disk.new)) (drawn_since (E.drawn entropy.old) (E.drawn entropy.new)) }

    // The disk, at every moment of the run and after every status.
    ensures unrecovered { IsTrue D.tells → IsUnrecovered result → D.reads disk.new ≡ D.reads disk.old }
    ensures recovered { IsTrue D.tells → (command : Asked) → form (texts words.now) ≡ Some command
        → LeavesRecovered result (alters command) (recovers_by command) (disk_run D.reads D.images D.moment D.since disk.old disk.new) }
    ensures untouched { IsTrue D.tells → (command : Asked) → form (texts words.now) ≡ Some command
        → LeavesAlone (recovers_by command) (disk_run D.reads D.images D.moment D.since disk.old disk.new) }
    ensures fresh_gone { IsTrue D.tells → result ≡ Status.Done → (command : Asked) → form (texts words.now) ≡ Some command → writes_beside command ≡ true
        → (D.reads disk.new).fresh ≡ None }
    ensures keeps { IsTrue D.tells → (command : Asked) → form (texts words.now) ≡ Some command
        → Keeps command (disk_run D.reads D.images D.moment D.since disk.old disk.new) }
    ensures changes { IsTrue D.tells → (command : Asked) → form (texts words.now) ≡ Some command
        → ChangesBy result command (GaveKeys K.tells (asked_keys command) (K.left input.old)) E.tells (drawn_since (E.drawn entropy.old) (E.drawn entropy.new)) (disk_run D.reads D.images D.moment D.since disk.old disk.new) }

    // A script of sessions on a file that is only read with its log: it is refused by its words.
    ensures play_refused { plays_with_log (texts words.now) ≡ true
        → ((result ≡ Status.Refused ReadAlone) ⊎ (result ≡ Status.OutputFault)) × (input.new ≡ input.old) × (disk.new ≡ disk.old) }

    // A script of sessions: what is printed, that the steps are a run of the machine, what they draw, and what a stop leaves at every moment.
    ensures plays { (profile : Played) → play_form (texts words.now) ≡ Some profile
        → PlaysScript profile result K.tells S.tells D.tells E.tells (disk_run D.reads D.images D.moment D.since disk.old disk.new)
        (K.left input.old) (K.left input.new) (S.taken out.old) (S.taken out.new) (E.drawn entropy.old) (E.drawn entropy.new) }
    ensures refused_play { IsTrue D.tells → (profile : Played) → play_form (texts words.now) ≡ Some profile → IsErr (recovery_of profile (D.reads disk.old))
        → IsUnwritten (disk_run D.reads D.images D.moment D.since disk.old disk.new) }
    ensures fresh_play { IsTrue D.tells → IsPlay (texts words.now) → KeepsFresh (disk_run D.reads D.images D.moment D.since disk.old disk.new) }
    ensures complete_play { IsTrue K.tells → IsTrue D.tells → CanBePlayed (texts words.now) (K.left input.old) (D.reads disk.old)
        → NoneRose ((K.faults input.old, K.faults input.new) ∷ (S.faults out.old, S.faults out.new)
        ∷ (E.faults entropy.old, E.faults entropy.new) ∷ (D.faults disk.old, D.faults disk.new) ∷ []) → IsDoneOrStarved result }
{
    if let Some(played) = played_profile(words) {
        return play_file(alloc, played, input, out, entropy, disk);
    }
    match parse_words(words) {
        None => conclude_wordless(out, plays_with_log(words)),
        Some(command) => serve(alloc, command, input, out, entropy, disk),
    }
}

// A command, with the input and the files.
fn serve<K: Source, S: Sink, E: Entropy, D: Disk>(
    alloc: Global,
    command: Command<'_>,
    input: &mut K,
    out: &mut S,
    entropy: &mut E,
    disk: &mut D,
) -> Status
    requires { IsServed command }
    ensures { Serves command.entry result
        (stream_run K.tells K.faults K.left input.old input.new) (stream_run S.tells S.faults S.taken out.old out.new)
        (stream_run E.tells E.faults E.drawn entropy.old entropy.new) (device_run D.tells D.faults D.reads D.images D.moment D.since disk.old disk.new) }
{
    if let Some(refusal) = command.refusal() {
        return conclude_refusal(out, refusal);
    }
    let asks = command.asked_keys();
    match read_secrets(asks, input) {
        Ok(secrets) => serve_with_secrets(alloc, command, &secrets, out, entropy, disk),
        Err(error) => conclude_key(out, error),
    }
}

// A command with its secrets. It gets the entropy only where it draws.
fn serve_with_secrets<S: Sink, E: Entropy, D: Disk>(
    alloc: Global,
    command: Command<'_>,
    secrets: &Secrets,
    out: &mut S,
    entropy: &mut E,
    disk: &mut D,
) -> Status
    requires served { IsServed command }
    requires unrefused { word_refusal command ≡ None }
    ensures { CarriesOut command.entry (draws command.entry) (secrets_of secrets.now) result
        (stream_run S.tells S.faults S.taken out.old out.new) (stream_run E.tells E.faults E.drawn entropy.old entropy.new)
        (device_run D.tells D.faults D.reads D.images D.moment D.since disk.old disk.new) }
{
    if command.draws() {
        carry_out(alloc, command, secrets, out, entropy, disk)
    } else {
        carry_out(alloc, command, secrets, out, &mut NoEntropy, disk)
    }
}

// A command with its secrets and the entropy that it may draw from.
fn carry_out<S: Sink, E: Entropy, D: Disk>(
    alloc: Global,
    command: Command<'_>,
    secrets: &Secrets,
    out: &mut S,
    entropy: &mut E,
    disk: &mut D,
) -> Status
    requires served { IsServed command }
    requires unrefused { word_refusal command ≡ None }
    ensures { CarriesOut command.entry (alters command.entry) (secrets_of secrets.now) result
        (stream_run S.tells S.faults S.taken out.old out.new) (stream_run E.tells E.faults E.drawn entropy.old entropy.new)
        (device_run D.tells D.faults D.reads D.images D.moment D.since disk.old disk.new) }
{
    match command {
        Command::Probe => probe(&secrets.first, out, disk),
        Command::Recover(profile) => report_recovery(alloc, profile, out, disk),
        Command::Read(profile, reading) => {
            read_file(alloc, profile, reading, &secrets.first, out, entropy, disk)
        }
        Command::Change(profile, change) => {
            change_file(alloc, profile, change, secrets, out, entropy, disk)
        }
        Command::Make { profile, rows } => {
            make_file(alloc, profile, rows, &secrets.first, out, entropy, disk)
        }
    }
}
