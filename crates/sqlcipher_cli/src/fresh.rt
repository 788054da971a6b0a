// What is said of FILE-migrated, which `migrate` and `make` write.
use crate::ended::Ended;
use edge_files::{Behind, Shown, say};
use sqlcipher_tool::Status;

/// Says what a new file is that has not taken the place of the old one.
pub fn explain_fresh(rt: &HostRuntime, run: &Ended, files: &mut Behind) {
    if run.status == Status::Usage
        || !run.asked.tells_leftovers() && !files.folder.has_own_fresh()
    {
        return;
    }
    let Some((path, is_unfinished)) = files.left_fresh() else {
        return;
    };
    let path = Shown(path);
    if is_unfinished {
        say(
            rt,
            format_args!(
                "{path}: an unfinished new file, or a second name of the file, and no part of the database; it may be removed"
            ),
        );
    } else {
        say(
            rt,
            format_args!(
                "{path}: it is there, and `migrate` and `make` refuse until it is moved away"
            ),
        );
    }
}
