// The lines on standard error that say why, or what to do, in their order: what was met on the way, how the run ended, what the files then are.
use crate::ended::Ended;
use crate::fresh::explain_fresh;
use crate::key_words::{explain_key, explain_new_key};
use crate::log_advice::explain_view;
use crate::others::{explain_conflict, explain_others};
use crate::outcome::explain_state;
use crate::playback::explain_playback;
use crate::refusals::explain_refusal;
use crate::settle_advice::explain_dead_log;
use crate::usage::explain_usage;
use edge_files::{Behind, InputSource, Shown, say};
use sqlcipher_tool::{Refusal, Status};

/// Memory was refused.
pub const OUT_OF_MEMORY: &str = "memory ran out";

/// Says what the status and the lines of the output leave open.
pub fn explain(rt: &HostRuntime, run: &Ended, input: &InputSource, files: &mut Behind) {
    if let Some(failure) = run.failure {
        say(rt, failure);
    }
    explain_conflict(rt, run);
    explain_others(rt, run, &files.folder);
    explain_playback(rt, run, &files.folder);
    explain_status(rt, run, input, files);
    explain_view(rt, run, &files.folder);
    explain_dead_log(rt, run, &files.folder);
    explain_state(rt, run, files);
    explain_fresh(rt, run, files);
    if run.status == Status::Done {
        explain_new_key(rt, &run.asked, input);
    }
}

// What the status alone tells, and why the key may have been refused.
fn explain_status(rt: &HostRuntime, run: &Ended, input: &InputSource, files: &mut Behind) {
    let is_sought = run.status == Status::Done || run.status == Status::Refused(Refusal::Empty);
    if is_sought && files.folder.lacks_main() {
        say(
            rt,
            format_args!("{}: there is no such file", Shown(run.path)),
        );
    }
    match run.status {
        Status::Usage => explain_usage(rt, &run.asked),
        Status::OutOfMemory => say(rt, OUT_OF_MEMORY),
        Status::KeyRefused => explain_key(rt, run, input, files),
        Status::Refused(refusal) => explain_refusal(rt, run, refusal, files),
        _ => {}
    }
}

/// The counts of a salvage once more, since the output may be a file, and what they leave open.
pub fn explain_salvaged(rt: &HostRuntime, counts: &str) {
    say(
        rt,
        format_args!(
            "{counts}; rows that were deleted may be among them, and a row that changed its page may come twice. \
            sqlcipher-tool-salvage-to-sql turns them into SQL"
        ),
    );
}
