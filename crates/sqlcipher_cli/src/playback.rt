// What is said of a journal that was found beside the file.
use crate::ended::Ended;
use edge_files::{Folder, Shown, say};
use sqlcipher_tool::{Refusal, Status};

const OTHER_JOURNAL: &str =
    "the journal may have been another file's, and its pages then stand in this one: a copy made before is the way back";

/// Says what was done with a journal that was found.
pub fn explain_playback(rt: &HostRuntime, run: &Ended, folder: &Folder) {
    let deeds = folder.deeds;
    let journal = Shown(folder.journal_path());
    let laid = deeds.laid;
    if laid > 0 && deeds.has_dropped {
        say(
            rt,
            format_args!(
                "{journal}: {laid} pages were played back from it into the file, and it was removed"
            ),
        );
    } else if laid > 0 {
        say(
            rt,
            format_args!(
                "{journal}: {laid} pages were played back from it, and it still stands: keep it beside the file and give `recover {}`",
                run.version()
            ),
        );
    } else if deeds.has_dropped {
        say(
            rt,
            format_args!("{journal}: it had nothing to play back, and it was removed"),
        );
    }
    if laid > 0 && is_spoilt(run.status) {
        say(rt, OTHER_JOURNAL);
    }
}

// Whether what was found is not what a file has under its own key.
fn is_spoilt(status: Status) -> bool {
    matches!(
        status,
        Status::KeyRefused
            | Status::Refused(
                Refusal::PageTag { .. }
                    | Refusal::Defect(_)
                    | Refusal::HeaderFault { .. }
                    | Refusal::Short { .. }
                    | Refusal::Ragged { .. }
            )
    )
}
