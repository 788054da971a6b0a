// What is said of a write-ahead log, and of the setting `:wal`, under which a file is read with it.
use crate::commands::Word;
use crate::ended::Ended;
use crate::plain;
use crate::settle_advice::say_settle;
use crate::version::{is_plain_word, log_setting, without_log};
use cipher_profile::Profile;
use edge_files::{Conflict, Folder, say};
use profile_word::probed_profiles;
use sqlcipher_tool::{Refusal, Status};

const TAKE_IN: &str =
    "to take the log in, open and close the database with the program that wrote it, or copy FILE and FILE-wal together and do so there; \
    a log that is another file's has to be moved away";

const ONE_MOMENT: &str =
    "FILE and FILE-wal are read as of one moment: copy FILE, FILE-wal and FILE-journal together while no program writes, and read the copy";

const LOG_VERSION: &str =
    "SQLite knows version 3007000 of the log alone, and opens no file beside another one: the log is damaged, or another file's; copy FILE \
    and FILE-wal together anew";

const LOG_SHORT: &str =
    "FILE or FILE-wal was cut, or not copied whole, or the log is another file's: copy both together anew";

const LOG_TOO_LARGE: &str =
    "at most 1,048,576 pages and 4,294,967,295 frames are read with a log: on a copy of FILE and FILE-wal let the program that wrote them take \
    it in";

const NO_LOG_MADE: &str = "no command writes a log: give the new version without `:wal`";

const OTHER_LOG: &str =
    "pages of FILE-wal were read in the place of FILE's: it may be another file's log, or of another moment";

const KEY_OF_LOG: &str =
    "page 1 may be that of FILE-wal, which may have a newer key or be another file's log; `probe` looks at FILE alone";

const OTHER_SALT: &str =
    "page 1 was read from FILE-wal, and its salt is not FILE's: the log is another file's, and then so are the rows, or page 1 of FILE is damaged; \
    SQLCipher itself refuses the key";

const OTHER_FILE: &str =
    "FILE opens by its own salt, and FILE-wal would give it another one: move FILE-wal away, and look for the log that belongs to FILE";

const TORN_PAGE: &str =
    "page 1 of FILE did not open by itself, so it was damaged, or torn by a stop: the one of FILE-wal took its place";

const LACKS_LOG: &str =
    "no FILE-wal with a page is beside it: where there was one, FILE is not whole without it, so copy both together";

const UNTAGGED: &str =
    "pages of FILE-wal were read in the place of FILE's, and these have no tags: a log that is another file's is not noticed";

/// Says how a file is read beside whose log, or in whose mode, the words don't serve it.
pub fn say_reader(rt: &HostRuntime, run: &Ended, what: &str) {
    let name = run.asked.reader().name();
    let version = run.version();
    say(
        rt,
        format_args!("`{name} {version}:wal` reads {what}, and changes nothing"),
    );
}

/// Says what to do about a log, or about a journal or another program where a file is read with its log.
pub fn explain_log_conflict(rt: &HostRuntime, run: &Ended, conflict: Conflict) {
    let cure = if is_plain_word(run.version()) {
        plain::LOG
    } else {
        TAKE_IN
    };
    match conflict {
        Conflict::Log if run.asked.is(Word::Make) => say(rt, cure),
        Conflict::Log => {
            say_reader(rt, run, "the file with its log");
            say_settle(rt, run);
            say(rt, cure);
        }
        Conflict::HotJournal => say(
            rt,
            format_args!(
                "SQLite plays the journal back first, and reads the log then: on a copy of the files move FILE-wal away, if it is there, give \
                `recover {}`, put FILE-wal back, and give this command again",
                without_log(run.version())
            ),
        ),
        Conflict::Changed | Conflict::Replaced if run.asked.profile_with_log().is_some() => {
            say(rt, ONE_MOMENT);
        }
        _ => {}
    }
}

/// Says what the line of a refusal leaves open, where it is one of a log. Answers whether it is.
pub fn is_log_explained(rt: &HostRuntime, run: &Ended, refusal: Refusal) -> bool {
    match refusal {
        Refusal::OnlyRead => explain_only_read(rt, run),
        Refusal::LogPageSize { found } => explain_log_pages(rt, run.version(), found),
        Refusal::LogVersion { .. } => say(rt, LOG_VERSION),
        Refusal::LogShort { .. } => say(rt, LOG_SHORT),
        Refusal::LogTooLarge => say(rt, LOG_TOO_LARGE),
        Refusal::LogOfOther => say(rt, OTHER_FILE),
        _ => return false,
    }
    true
}

// A command that changes a file, or makes one, under the setting.
fn explain_only_read(rt: &HostRuntime, run: &Ended) {
    let version = without_log(run.version());
    match run.asked.command() {
        Some(Word::Make) => say(rt, NO_LOG_MADE),
        Some(Word::Settle) => say(
            rt,
            format_args!(
                "`settle {version}` takes the log in: the setting is for commands that change nothing"
            ),
        ),
        Some(Word::Rekey | Word::Migrate) if log_setting(run.version()).is_empty() => {
            say(rt, NO_LOG_MADE);
        }
        Some(_) | None => say(
            rt,
            format_args!(
                "`export {version}:wal` reads it. To change it, give `settle {version}`, which takes the log in, and then this command with {version}"
            ),
        ),
    }
}

// A log whose pages have another size than those of the version that was given.
fn explain_log_pages(rt: &HostRuntime, version: &str, found: u32) {
    let beside = "the log has pages of another size: it is another file's, or";
    if is_plain_word(version) {
        say(
            rt,
            format_args!("{beside} the file is of plain:{found}:wal"),
        );
    } else if found == 1024 {
        say(
            rt,
            format_args!(
                "{beside} the file is of 3:wal, 2:wal, 1:wal or 4:1024:wal, and `probe` finds which"
            ),
        );
    } else if is_size_of_4(found) {
        say(
            rt,
            format_args!(
                "{beside} the file is of 4:{found}:wal, or of another version with this size"
            ),
        );
    } else {
        say(rt, format_args!("{beside} of a plain file"));
    }
}

fn is_size_of_4(found: u32) -> bool {
    probed_profiles()
        .iter()
        .any(|profile| profile.page_size == found)
}

/// Says what the log, or the want of one, may have to do with how a run over both ended.
pub fn explain_view(rt: &HostRuntime, run: &Ended, folder: &Folder) {
    let Some(profile) = run.asked.profile_beside_log() else {
        return;
    };
    if run.status == Status::DiskFault && run.failure.is_none() {
        say(rt, ONE_MOMENT);
    }
    let has_log = folder.has_seen_log() || folder.deeds.frames > 0;
    if let Some(words) = said_of_salt(run) {
        say(rt, words);
    } else if let Some(words) = said_of_view(run.status, profile, has_log) {
        say(rt, words);
    }
}

// What is said where page 1 is the log's, and has another salt than FILE.
fn said_of_salt(run: &Ended) -> Option<&'static str> {
    if !run.signs.has_other_salt || run.status == Status::Refused(Refusal::LogOfOther) {
        return None;
    }
    if run.asked.is(Word::Settle) && run.status == Status::Done {
        Some(TORN_PAGE)
    } else {
        Some(OTHER_SALT)
    }
}

fn said_of_view(status: Status, profile: Profile, has_log: bool) -> Option<&'static str> {
    match status {
        Status::Done if has_log && profile.tag_len == 0 => Some(UNTAGGED),
        Status::KeyRefused if has_log => Some(KEY_OF_LOG),
        Status::Refused(Refusal::PageTag { .. } | Refusal::Defect(_)) => Some(if has_log {
            OTHER_LOG
        } else {
            LACKS_LOG
        }),
        Status::Refused(Refusal::HeaderFault { .. }) if has_log => Some(OTHER_LOG),
        Status::Refused(Refusal::Short { .. } | Refusal::Ragged { .. }) if !has_log => Some(
            LACKS_LOG,
        ),
        _ => None,
    }
}
