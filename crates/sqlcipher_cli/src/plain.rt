// What is said of plain SQLite files: where one is refused, or takes the place of an encrypted file.
use crate::version::log_setting;
use cipher_profile::Profile;
use edge_files::{PlainHead, say};
use profile_word::profile_of;

/// Why the words of a plain file fit no file that does not begin with them.
pub const NO_MAGIC: &str =
    "the file does not begin with `SQLite format 3`, as every plain file does: it is encrypted, and `probe` finds the version by its \
    key, or it is no database";

/// Why a plain file has nothing to re-key.
pub const NO_KEY: &str =
    "a plain file has no key to change: `migrate` with the same words writes the database anew, encrypted or plain";

/// What encrypting a plain file leaves behind.
pub const OLD_ROWS: &str =
    "the old file's rows in the clear are gone from this name, but not from the device";

/// What to do about a log with newer pages.
pub const LOG: &str =
    "close the programs that use the database, and `sqlite3 FILE 'PRAGMA journal_mode = DELETE'` takes the log into the file; a log that is \
    another file's has to be moved away";

/// How a file gets out of WAL mode.
pub const LOG_MODE: &str =
    "it stays in WAL mode until it is told otherwise: close the programs that use it, and give \
    `sqlite3 FILE 'PRAGMA journal_mode = DELETE'`; of a copy, FILE-wal has to lie beside it";

/// How a file gets rid of its pages for auto-vacuum.
pub const VACUUM: &str =
    "without auto-vacuum: on a copy of FILE give `sqlite3 FILE 'PRAGMA auto_vacuum = 0; VACUUM'`";

/// Why a plain file has no tags.
pub const NO_TAGS: &str = "a plain file has no tags: `verify` checks its structure";

const RESERVED: &str =
    "where SQLCipher wrote it with its first bytes in the clear (`cipher_plaintext_header_size`), give 4:plain-header=32, and the key with its \
    salt, x' and 96 hex digits and '; where SQLite wrote it, `sqlite3 FILE .dump | sqlite3 NEW` gives a file without them (VACUUM keeps them, \
    and the user version has to be set anew)";

// The profile of a file that begins so, where its pages have a size of SQLite's.
fn profile_at(head: PlainHead) -> Option<Profile> {
    sized(head.field)
}

// The profile of plain files whose header has this number as the size of a page.
fn sized(field: u32) -> Option<Profile> {
    of_size(if field == 1 { 65_536 } else { field })
}

// The profile of plain files with pages of this size, in bytes.
fn of_size(size: u32) -> Option<Profile> {
    match size {
        512 => profile_of("plain:512"),
        1024 => profile_of("plain:1024"),
        2048 => profile_of("plain:2048"),
        4096 => profile_of("plain:4096"),
        8192 => profile_of("plain:8192"),
        16384 => profile_of("plain:16384"),
        32768 => profile_of("plain:32768"),
        65536 => profile_of("plain:65536"),
        _ => None,
    }
}

/// Says how a plain file is served, under which the key of an encrypted one was refused.
pub fn explain_unencrypted(rt: &HostRuntime, word: &str, head: PlainHead) {
    let begins = "the file begins with `SQLite format 3`";
    let setting = log_setting(word);
    let reserve = head.reserve;
    match profile_at(head) {
        Some(profile) if reserve == 0 => {
            let size = profile.page_size;
            say(
                rt,
                format_args!(
                    "{begins}: it is not encrypted. Give plain:{size}{setting} in the place of the version, and no key; `migrate plain:{size} 4` \
                    encrypts it"
                ),
            );
        }
        Some(_) => say(
            rt,
            format_args!("{begins}, and its pages have {reserve} reserved bytes: {RESERVED}"),
        ),
        None => say(
            rt,
            format_args!(
                "{begins}, but names no size of pages that SQLite has: it is damaged, or SQLCipher wrote it with its first 16 bytes alone in the \
                clear: then give 4:plain-header=16, and the key with its salt"
            ),
        ),
    }
}

/// Says what a field of a plain file's header means for its owner.
pub fn explain_header(rt: &HostRuntime, word: &str, offset: u32, found: u32) {
    match (offset, sized(found)) {
        (16, Some(profile)) => explain_size(rt, word, profile.page_size),
        (16, None) => say(
            rt,
            "its header names no size of pages that SQLite has: the file is damaged, or SQLCipher wrote it with its first 16 bytes alone in the \
             clear: then give 4:plain-header=16, and the key with its salt",
        ),
        (20, _) => say(
            rt,
            format_args!("its pages have {found} reserved bytes: {RESERVED}"),
        ),
        _ => {}
    }
}

/// Says which word the file has where another one was given. Answers whether there is something to say.
pub fn explain_other_size(rt: &HostRuntime, word: &str, head: Option<PlainHead>) -> bool {
    let found = match head {
        Some(head) => profile_at(head),
        None => None,
    };
    match (profile_of(word), found) {
        (Some(given), Some(profile)) if given.page_size != profile.page_size => {
            explain_size(rt, word, profile.page_size);
            true
        }
        _ => false,
    }
}

fn explain_size(rt: &HostRuntime, word: &str, size: u32) {
    let setting = log_setting(word);
    say(
        rt,
        format_args!("the pages of this file have {size} bytes: give plain:{size}{setting}"),
    );
}

/// Says which word has pages of the size that the journal beside a plain file has.
pub fn explain_journal(rt: &HostRuntime, found: u32) {
    let beside = "the journal beside the file has pages of another size";
    let unwritten = "nothing was written";
    match of_size(found) {
        Some(_) => say(
            rt,
            format_args!("{beside}: give plain:{found}; {unwritten}"),
        ),
        None => say(
            rt,
            format_args!("{beside}, and no file has such pages; {unwritten}"),
        ),
    }
}
