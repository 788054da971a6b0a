//! The program: the top call over the files of a folder, the standard streams and the system's random bytes.
#![tactic(auto)]

ghost use Rattle.std.specs.Prelude.{◌≡◌, ◌⊎◌, ◌≤◌, map, None, Some, IfOk, IfSome, IsErr, string_bytes};
ghost use Rattle.std.specs.Process.{exit_status};
ghost use Rattle.cipher_profile.specs.Profile.{IsListed};
ghost use Rattle.sqlcipher_cli.specs.Exit.{EndsAs, EndsCommand, EndsOn, ExitsAs, asks_help, asks_version, behind_file};
ghost use Rattle.sqlcipher_tool.specs.Answer.{code_of};
ghost use Rattle.sqlcipher_tool.specs.Due.{word_refusal};
ghost use Rattle.sqlcipher_tool.specs.Play.{AreNoWords, DrawsBytes, TakesInput};
ghost use Rattle.sqlcipher_tool.specs.Settling.{settled_by};
ghost use Rattle.sqlcipher_tool.specs.WithLog.{viewed_by};
ghost use Rattle.sqlcipher_tool.specs.Words.{form, texts};
ghost use Rattle.sqlcipher_tool.specs.declared.command.Command.{Command as Formed};
ghost use Rattle.sqlcipher_tool.specs.declared.status.Refusal.{Refusal as Refused};

mod advice;
mod asked;
mod commands;
mod ended;
mod fresh;
mod help;
mod key_words;
mod log_advice;
mod log_signs;
mod near;
mod others;
mod outcome;
mod plain;
mod playback;
mod refusals;
mod settings;
mod settle;
mod settle_advice;
mod usage;
mod version;
mod which_file;

use asked::Asked;
use cipher_profile::Profile;
use commands::Word;
use edge_files::{
    DeviceEntropy, HostDisk, InputSource, OutputSink, Paths, Progress, Purpose, StandIns, failed,
    say,
};
use ended::Ended;
use key_words::{explain_session_key, prompt_of};
use log_run::run_with_log;
use log_signs::{LogSigns, differ, salt_of};
use near::names_near;
use schema_names::NearName;
use settle::settle_with_log;
use settle_advice::explain_unlaid;
use sqlcipher_tool::{Status, profile_to_settle, profile_with_log, run};
use std::alloc::{AllocError, Global};
use std::process::ExitCode;
use std::{env, io};

fn main(rt: HostRuntime) -> ExitCode {
    let _stand_ins = StandIns::new(&rt);
    let words = arguments(&rt);
    exit_on(&rt, words)
}

// The exit status on these words of the command line, or where they could not be read.
fn exit_on(rt: &HostRuntime, words: io::Result<Vec<String>>) -> ExitCode
    ensures read { IfOk words (λ list. ExitsAs (EndsOn (map string_bytes list.items)) (exit_status result)) }
    ensures unread { IsErr words → ExitsAs (EndsAs Status.Usage) (exit_status result) }
    ensures codes { exit_status result ≤ 8 }
{
    report(status_of(rt, words))
}

// The code of a status. No other exit status is made.
fn report(status: Status) -> ExitCode
    ensures { exit_status result ≡ code_of status }
{
    ExitCode::from(status.code())
}

// The words of the command line, without the program's name.
fn arguments(rt: &HostRuntime) -> io::Result<Vec<String>> {
    let mut words = Vec::new(rt.alloc());
    for word in env::args(rt)?.skip(1) {
        words.push(word)?;
    }
    Ok(words)
}

// How the program ends on these words, or where they could not be read. Where memory does not suffice for the words and the paths,
// standard output has nothing.
fn status_of(rt: &HostRuntime, words: io::Result<Vec<String>>) -> Status
    ensures read { IfOk words (λ list. EndsOn (map string_bytes list.items) result) }
    ensures unread { IsErr words → EndsAs Status.Usage result }
{
    match words {
        Ok(words) => answer(rt, words.as_slice()),
        Err(error) if error.kind() == io::ErrorKind::OutOfMemory => out_of_memory(rt),
        // A word is not UTF-8, so the words are no command.
        Err(_) => serve(rt, "", &[]),
    }
}

fn answer(rt: &HostRuntime, words: &[String]) -> Status
    ensures { EndsOn (map string_bytes words.now) result }
{
    match borrowed(rt.alloc(), words) {
        Ok(words) => carry_out(rt, words.as_slice()),
        Err(_) => out_of_memory(rt),
    }
}

// The words, as they are lent.
fn borrowed<'w>(alloc: Global, words: &'w [String]) -> Result<Vec<&'w str>, AllocError>
    ensures { IfOk result (λ list. texts list.items ≡ map string_bytes words.now) }
{
    let mut list = Vec::new(alloc);
    for word in words {
        list.push(word.as_str())?;
    }
    Ok(list)
}

// Prints a text, or serves the command behind FILE.
fn carry_out(rt: &HostRuntime, words: &[&str]) -> Status
    ensures { EndsOn (texts words.now) result }
{
    if asks_help(words) {
        return print(rt, help::HELP);
    }
    if asks_version(words) {
        return print(rt, help::VERSION);
    }
    let file = words.first().copied().unwrap_or("");
    serve(rt, file, behind_file(words))
}

// The words of a command.
fn behind_file<'w, 't>(words: &'w [&'t str]) -> &'w [&'t str]
    ensures { texts result.now ≡ behind_file (texts words.now) }
{
    match words {
        [] => words,
        [_, rest @ ..] => rest,
    }
}

// Whether the words ask for the text of `--help`.
fn asks_help(words: &[&str]) -> bool
    ensures { result ≡ asks_help (texts words.now) }
{
    match words {
        [word] => *word == "--help" || *word == "-h" || *word == "help",
        [_, word] => *word == "--help",
        _ => false,
    }
}

// Whether they ask for the version.
fn asks_version(words: &[&str]) -> bool
    ensures { result ≡ asks_version (texts words.now) }
{
    match words {
        [word] => *word == "--version",
        _ => false,
    }
}

fn out_of_memory(rt: &HostRuntime) -> Status
    ensures { result ≡ Status.OutOfMemory }
{
    say(rt, advice::OUT_OF_MEMORY);
    Status::OutOfMemory
}

fn print(rt: &HostRuntime, text: &str) -> Status
    ensures { (result ≡ Status.Done) ⊎ (result ≡ Status.OutputFault) }
{
    match rt.print(text) {
        Ok(()) => Status::Done,
        Err(error) => {
            say(rt, failed("standard output", "write", error));
            Status::OutputFault
        }
    }
}

// How a command ended, and what standard error says of it beside.
#[derive(Drop)]
struct Served {
    status: Status,
    // the names that are near that of a `find`, where there is no table of it
    near: Option<Vec<NearName>>,
    // what was seen of the log
    signs: LogSigns,
}

// A command over the file and its log, of which nothing is changed.
fn serve_with_log<'a>(
    rt: &HostRuntime,
    words: &[&str],
    input: &mut InputSource,
    out: &mut OutputSink,
    entropy: &mut DeviceEntropy,
    profile: Profile,
    disk: HostDisk<'a>,
) -> (HostDisk<'a>, Served)
    requires listed { IsListed profile }
    requires asked { viewed_by (form (texts words.now)) ≡ Some profile }
    ensures { EndsCommand (texts words.now) result.1.status }
{
    let (status, seen) = run_with_log(rt.alloc(), profile, words, input, out, entropy, disk);
    match seen {
        Ok(mut view) => {
            let near = names_near(rt.alloc(), status, words, &input.line, entropy, &mut view);
            let salt = salt_of(&mut view);
            let mut disk = view.into_disk();
            let signs = LogSigns {
                has_other_salt: !profile.is_clear() && differ(salt_of(&mut disk), salt),
                was_dead: false,
                unlaid: 0,
                was_cut: false,
            };
            let served = Served {
                status,
                near,
                signs,
            };
            (disk, served)
        }
        Err(disk) => {
            let served = Served {
                status,
                near: None,
                signs: LogSigns::none(),
            };
            (disk, served)
        }
    }
}

// The same, over the file alone or with its log, as the words ask for it; or the two are settled.
fn serve_files<'a>(
    rt: &HostRuntime,
    words: &[&str],
    input: &mut InputSource,
    out: &mut OutputSink,
    entropy: &mut DeviceEntropy,
    with_log: Option<Profile>,
    settles: Option<Profile>,
    mut disk: HostDisk<'a>,
) -> (HostDisk<'a>, Served)
    requires listed { IfSome with_log IsListed }
    requires asked { with_log ≡ viewed_by (form (texts words.now)) }
    requires settled { IfSome settles IsListed }
    requires to_settle { settles ≡ settled_by (form (texts words.now)) }
    ensures { EndsCommand (texts words.now) result.1.status }
{
    if let Some(profile) = settles {
        let (disk, settled) = settle_with_log(
            rt.alloc(),
            words,
            input,
            out,
            entropy,
            profile,
            disk,
        );
        let served = Served {
            status: settled.status,
            near: None,
            signs: settled.signs,
        };
        return (disk, served);
    }
    match with_log {
        Some(profile) => serve_with_log(rt, words, input, out, entropy, profile, disk),
        None => {
            let status = run(rt.alloc(), words, input, out, entropy, &mut disk);
            let near = names_near(rt.alloc(), status, words, &input.line, entropy, &mut disk);
            let served = Served {
                status,
                near,
                signs: LogSigns::none(),
            };
            (disk, served)
        }
    }
}

// What the first run does to the files.
fn purpose_of(asked: &Asked, reads_log: bool, settles: bool) -> Purpose {
    if reads_log {
        Purpose::ReadLog
    } else if settles {
        Purpose::RecoverBesideLog
    } else if asked.is(Word::Probe) {
        Purpose::Probe
    } else {
        Purpose::Command
    }
}

// A command on the file, and what is to be said of it. The clauses are those of `run` that go by the words alone.
fn serve(rt: &HostRuntime, file: &str, words: &[&str]) -> Status
    ensures usage { AreNoWords (texts words.now) → EndsAs Status.Usage result }
    ensures refused { (command : Formed) (refusal : Refused) → form (texts words.now) ≡ Some command → word_refusal command ≡ Some refusal
        → EndsAs (Status.Refused refusal) result }
    ensures no_usage { result ≡ Status.Usage → AreNoWords (texts words.now) }
    ensures input_fault { result ≡ Status.InputFault → TakesInput (texts words.now) }
    ensures entropy_fault { result ≡ Status.EntropyFault → DrawsBytes (texts words.now) }
{
    let Ok(paths) = Paths::new(rt, file) else {
        return out_of_memory(rt);
    };
    let progress = Progress::new(rt);
    let with_log = profile_with_log(words);
    let settles = profile_to_settle(words);
    let asked = Asked::new(words);
    let purpose = purpose_of(&asked, with_log.is_some(), settles.is_some());
    let Ok(mut files) = HostDisk::new(rt, &paths, &progress, purpose) else {
        return out_of_memory(rt);
    };
    files.folder.is_decrypting = asked.decrypts();
    let is_play = asked.is(Word::Play);
    let mut input = InputSource::new(rt, is_play, prompt_of(&asked));
    let mut out = OutputSink::new(rt, &progress);
    let mut entropy = DeviceEntropy::new(rt);
    let alloc = rt.alloc();
    let (disk, served) = serve_files(
        rt,
        words,
        &mut input,
        &mut out,
        &mut entropy,
        with_log,
        settles,
        files,
    );
    progress.clear();
    let last = disk.last;
    let mut files = disk.settle();
    let status = served.status;
    let failure = match status {
        Status::DiskFault => last,
        Status::OutputFault => out.last,
        Status::InputFault => input.last,
        Status::EntropyFault => entropy.last,
        _ => None,
    };
    let run = Ended {
        status,
        path: file,
        asked,
        failure,
        near: served.near.unwrap_or(Vec::new(alloc)),
        signs: served.signs,
    };
    advice::explain(rt, &run, &input, &mut files);
    explain_unlaid(rt, &run, &files.folder);
    if status == Status::Done && asked.is(Word::Salvage) {
        advice::explain_salvaged(rt, out.last_line());
    }
    if out.has_refused_key && is_play {
        explain_session_key(rt);
    }
    status
}
