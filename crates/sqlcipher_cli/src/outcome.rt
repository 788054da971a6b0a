// What is said of the files where a fault has left open what they are.
use crate::commands::Word;
use crate::ended::Ended;
use crate::settle_advice::is_part_settled;
use crate::version::is_plain_word;
use crate::which_file::explain_either;
use edge_files::{Behind, Conflict, Folder, Shown, say};
use sqlcipher_tool::{Refusal, Status};

const COMMITS_STAY: &str = "what was committed stays in the file";

const NO_COMMIT: &str = "no line of the script has changed the file";

/// Says what the files are where a fault leaves it open.
pub fn explain_state(rt: &HostRuntime, run: &Ended, files: &Behind) {
    let folder = &files.folder;
    let deeds = folder.deeds;
    if run.asked.is(Word::Play) && is_cut_off(run.status) {
        say(
            rt,
            if deeds.has_changed {
                COMMITS_STAY
            } else {
                NO_COMMIT
            },
        );
        return;
    }
    if is_part_settled(rt, run, folder) {
        return;
    }
    if !matches!(
        run.status,
        Status::DiskFault | Status::OutputFault | Status::EntropyFault
    ) {
        return;
    }
    if deeds.has_changed && run.conflict() == Some(Conflict::JournalTaken) {
        explain_taken(rt, run, folder);
    } else if folder.has_own_journal() && run.conflict() == Some(Conflict::Replaced)
        || deeds.has_dropped_orphan
    {
        explain_replaced(rt, run, files);
    } else if deeds.has_changed || deeds.has_renamed {
        explain_either(rt, run, folder);
    } else if matches!(run.status, Status::DiskFault | Status::EntropyFault) {
        explain_untouched(rt, run, folder);
    }
}

// Whether a script ended before its last line, and not within a commit.
fn is_cut_off(status: Status) -> bool {
    matches!(
        status,
        Status::OutputFault
            | Status::InputFault
            | Status::OutOfMemory
            | Status::Refused(
                Refusal::ScriptLine { .. } | Refusal::LineTooLong { .. } | Refusal::TooManyLines
            )
    )
}

// The journal was taken away while the file was part new.
fn explain_taken(rt: &HostRuntime, run: &Ended, folder: &Folder) {
    let path = Shown(folder.main_path());
    if folder.is_journal_closed() {
        say(
            rt,
            format_args!("{path}: it is the new one; its journal was of no more use"),
        );
    } else if folder.deeds.is_played_back {
        let version = run.version();
        let by = if is_plain_word(version) || run.asked.is(Word::Play) {
            ""
        } else {
            " with the old key"
        };
        say(
            rt,
            format_args!(
                "{path}: it is the old one again, and nothing more was written: `verify {version}` it{by}"
            ),
        );
    } else {
        say(
            rt,
            format_args!(
                "{path}: it may be part old and part new; put its journal back, or take the copy made before"
            ),
        );
    }
}

// Another file has the name, beside the journal of the one that was being changed.
fn explain_replaced(rt: &HostRuntime, run: &Ended, files: &Behind) {
    let folder = &files.folder;
    if folder.deeds.has_dropped_orphan {
        let path = Shown(folder.main_path());
        say(
            rt,
            format_args!(
                "{path}: what has the name now was not touched; the file that was being changed is gone, and its journal was removed"
            ),
        );
        return;
    }
    match files.whereabouts() {
        Some(place) => explain_journal_of(rt, run, folder, place.as_path().as_str()),
        None => explain_journal_of(rt, run, folder, "the file that was being changed"),
    }
}

// The journal is that of a file which is elsewhere now.
fn explain_journal_of(rt: &HostRuntime, run: &Ended, folder: &Folder, moved: &str) {
    let path = Shown(folder.main_path());
    let journal = Shown(folder.journal_path());
    let moved = Shown(moved);
    let version = run.version();
    say(
        rt,
        format_args!(
            "{journal}: it belongs to {moved}, and would be played into what has the name {path} now: before anybody opens either of them move \
            it beside that file, under its name and `-journal`, and give `recover {version}` there"
        ),
    );
}

// Nothing was written, or nothing but a recovery.
fn explain_untouched(rt: &HostRuntime, run: &Ended, folder: &Folder) {
    let deeds = folder.deeds;
    if !run.asked.changes_file() && run.conflict().is_none()
        || deeds.laid > 0 && !deeds.has_dropped
    {
        return;
    }
    let path = Shown(folder.main_path());
    if deeds.laid > 0 {
        say(
            rt,
            format_args!("{path}: nothing was written to it after the recovery"),
        );
    } else {
        say(rt, format_args!("{path}: it was not touched"));
    }
    if folder.has_own_journal() {
        say(
            rt,
            format_args!(
                "{}: it was not begun to be used; `recover {}` removes it",
                Shown(folder.journal_path()),
                run.version()
            ),
        );
    }
}
