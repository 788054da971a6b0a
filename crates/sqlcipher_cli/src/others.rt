// What is said of others at the files: who was met, and what could not be looked for.
use crate::commands::Word;
use crate::ended::Ended;
use crate::log_advice::explain_log_conflict;
use edge_files::{Conflict, Failure, Folder, Shown, say};

const NOT_HELD: &str =
    "SQLite's lock on the file is not held, so other programs were looked for and not kept out";

const BLIND: &str =
    "other programs could not be looked for, since /proc/locks does not show the locks here";

/// Says what to do about somebody else at the files.
pub fn explain_conflict(rt: &HostRuntime, run: &Ended) {
    match run.conflict() {
        Some(Conflict::InTheWay) => say(
            rt,
            "`migrate` and `make` write their new file under this name: move away what is there, also where it is a whole database \
            that a stop kept from taking its place",
        ),
        Some(conflict) => explain_log_conflict(rt, run, conflict),
        None => {}
    }
}

/// Says who else was seen, and where nobody could be.
pub fn explain_others(rt: &HostRuntime, run: &Ended, folder: &Folder) {
    if let Some(error) = folder.unlocked() {
        say(
            rt,
            format_args!(
                "{}: lock: {error}: another run of sqlcipher-tool could not be looked for",
                Shown(folder.main_path())
            ),
        );
    }
    if folder.is_blind() {
        say(rt, BLIND);
    }
    if run.asked.is(Word::Probe) {
        explain_probed(rt, folder);
    } else if run.conflict().is_none() && folder.is_unguarded() {
        say(rt, NOT_HELD);
    }
}

// What `probe` saw beside the file, which every other command refuses.
fn explain_probed(rt: &HostRuntime, folder: &Folder) {
    if let Some(process) = folder.deeds.other {
        let other = Failure::of(folder.main_path(), Conflict::OtherProgram { process });
        say(rt, format_args!("{other}; every other command refuses it"));
    }
    if folder.deeds.has_log {
        let log = Failure::of(folder.log_path(), Conflict::Log);
        say(
            rt,
            format_args!(
                "{log}; every other command refuses it without the setting `:wal`, and `probe` looks at FILE alone"
            ),
        );
    }
}
