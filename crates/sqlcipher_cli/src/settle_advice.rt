// What is said of `settle`: that it serves a file in WAL mode, what a stop has left of the log, and what of it was not laid.
use crate::commands::Word;
use crate::ended::Ended;
use edge_files::{Folder, Shown, say};
use sqlcipher_tool::Status;

/// Says what takes the file out of WAL mode and auto-vacuum.
pub fn say_settle(rt: &HostRuntime, run: &Ended) {
    let version = run.version();
    say(
        rt,
        format_args!(
            "`settle {version}` lays FILE-wal into the file, where it is there, and takes the file out of WAL mode and auto-vacuum: every command serves it then"
        ),
    );
}

/// Says where a log stands that was not laid whole, or that was laid into a file which is not out of WAL mode. Answers whether it is so.
pub fn is_part_settled(rt: &HostRuntime, run: &Ended, folder: &Folder) -> bool {
    let deeds = folder.deeds;
    if !run.asked.is(Word::Settle) || run.status == Status::Done || deeds.has_changed {
        return false;
    }
    let version = run.version();
    if deeds.has_dropped_log {
        say(
            rt,
            format_args!(
                "{}: its log was laid into it and removed, and it may be in WAL mode still: give `settle {version}` again",
                Shown(folder.main_path())
            ),
        );
    } else if deeds.frames > 0 {
        say(
            rt,
            format_args!(
                "{}: part of it was laid into the file, and it stands: the two open as they did; keep it beside the file and give \
                `settle {version}` again",
                Shown(folder.log_path())
            ),
        );
    } else {
        return false;
    }
    true
}

/// Says where a log was removed of which nothing was laid.
pub fn explain_dead_log(rt: &HostRuntime, run: &Ended, folder: &Folder) {
    if run.signs.was_dead {
        say(
            rt,
            format_args!(
                "{}: no commit in it holds, as SQLite reads it, so nothing of it was laid, and it was removed; where rows are missing, look in a copy of it",
                Shown(folder.log_path())
            ),
        );
    }
}

/// Says what of a log that was laid stood behind its last commit, and is gone with it.
pub fn explain_unlaid(rt: &HostRuntime, run: &Ended, folder: &Folder) {
    let log = Shown(folder.log_path());
    if run.signs.was_cut {
        say(
            rt,
            format_args!(
                "{log}: it ended within a frame, so it was cut, or not copied whole: what stood behind its last commit was not laid, as SQLite reads \
                it; where rows are missing, copy FILE and FILE-wal together anew"
            ),
        );
    } else if run.signs.unlaid > 0 && !run.signs.was_dead {
        say(
            rt,
            format_args!(
                "{log}: {} frames behind its last commit were not laid, as SQLite reads it: of a change that was not committed, or of one whose rest \
                is missing or damaged; where rows are missing, look in a copy of it",
                run.signs.unlaid
            ),
        );
    }
}
