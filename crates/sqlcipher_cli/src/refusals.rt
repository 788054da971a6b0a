// What is said of a refusal beside its line: which word, journal or copy cures it.
use crate::asked::Asked;
use crate::commands::Word;
use crate::ended::Ended;
use crate::key_words::missing_key;
use crate::log_advice::{is_log_explained, say_reader};
use crate::near::explain_names;
use crate::plain;
use crate::settings::Pragmas;
use crate::settle_advice::say_settle;
use crate::version::is_plain_word;
use edge_files::{Behind, say};
use profile_word::probed_profiles;
use sqlcipher_tool::Refusal;

const SUPER_JOURNAL: &str =
    "the journal belongs to a transaction over several files, which only the program that wrote them can settle; \
    nothing was written";

const JOURNAL_THERE: &str =
    "a journal is there; if its file is too, then on a copy of both `recover 4` plays it back or removes it, or says with which \
    version `recover` does, as every other command does first";

const KEY_EMPTY: &str = "a key line is empty";

const KEY_TOO_LONG: &str = "a key line has at most 1,024 bytes";

const KEY_WITH_SALT: &str =
    "the key line has a raw key and 32 digits of salt; the file begins with its salt, so give the first 64 digits alone, as x'..'; where its first \
    bytes are in the clear, as under :plain-header=32, it does not, and the line is right";

const KEY_WITHOUT_SALT: &str =
    "a file whose first bytes are in the clear does not hold its salt: the key line is x' and 96 hex digits and ', the raw key and the salt \
    behind it, or under :key=hex the passphrase in hex digits, a comma and the salt in 32 of them";

const KEY_NOT_HEX: &str =
    "under :key=hex the key line is the passphrase in hex digits, two a byte, and nothing else: 616263 is abc; with :plain-header=N a comma \
    and the salt's 32 digits come behind it";

const LAYOUT_DIFFERS: &str =
    "the pages of these two versions differ: `migrate` writes the database anew";

const FILE_THERE: &str = "there is such a file already: `make` takes a new name";

const SHORT: &str =
    "the file ends before its last page: it was cut, or it was not copied whole; `salvage` prints the rows of the pages that are there";

const RAGGED: &str =
    "the file does not end with a page: it was cut, or something stands behind its pages; `salvage` prints the rows of its whole pages";

const DAMAGED: &str =
    "the file is damaged, or its journal is missing: put the FILE-journal of the same moment beside it and give `recover`; \
    else another copy is the way, or `salvage`, which prints the rows that can still be read";

const TAGS_REFUSED: &str =
    "a page that is not in use may never have been sealed: `verify` looks at those that are; where one of them is refused the file \
    is damaged, or its journal is missing";

const INDEXES_DIFFER: &str =
    "the rows are as `export` prints them; the indexes are not theirs: on a copy of the file SQL's `REINDEX` makes them anew from the rows, and \
    `find` shows the row of a rowid";

const IN_LOG_MODE: &str = "the file as it is";

const WITH_MAPS: &str = "a file with auto-vacuum as it is";

const SCRIPT_FORMS: &str =
    "a step is `open S PROFILE KEY`, `share S`, `read S N AT`, `reserve S`, `change S N AT BYTE`, `rekey S PROFILE KEY`, `commit S`, \
    `release S` or `stop`, its words parted by one space; --help says what they are";

/// Says what the line of a refusal leaves open.
pub fn explain_refusal(rt: &HostRuntime, run: &Ended, refusal: Refusal, files: &mut Behind) {
    if is_log_explained(rt, run, refusal)
        || is_plain_word(run.version()) && is_plain_explained(rt, run, refusal, files)
    {
        return;
    }
    match refusal {
        Refusal::KeyMissing => say(rt, missing_key(&run.asked)),
        Refusal::LayoutDiffers => say(rt, other_layout(&run.asked)),
        Refusal::NoTable => explain_names(rt, run.asked.third(), run.near.as_slice()),
        Refusal::JournalPageSize { found } => explain_journal(rt, run.version(), found, files),
        Refusal::WalMode | Refusal::AutoVacuum => {
            explain_mode(rt, run);
            say_settle(rt, run);
        }
        Refusal::ScriptLine { line } => say(
            rt,
            format_args!("line {line} of the script is no step: {SCRIPT_FORMS}"),
        ),
        Refusal::LineTooLong { line } => say(
            rt,
            format_args!("line {line} of the script is longer than 1,100 bytes: {SCRIPT_FORMS}"),
        ),
        Refusal::IndexesDiffer { .. } => say(rt, INDEXES_DIFFER),
        Refusal::TooManyLines => say(
            rt,
            "the script goes on after its first 100,000 lines, which were played: the others are a script of their own",
        ),
        _ => explain_briefly(rt, &run.asked, refusal, files.folder.deeds.laid > 0),
    }
}

// A refusal of which always the same is said.
fn explain_briefly(rt: &HostRuntime, asked: &Asked, refusal: Refusal, is_played: bool) {
    let words = match refusal {
        Refusal::KeyEmpty => KEY_EMPTY,
        Refusal::KeyTooLong => KEY_TOO_LONG,
        Refusal::KeyForm => KEY_WITH_SALT,
        Refusal::KeyUnsalted => KEY_WITHOUT_SALT,
        Refusal::KeyNotHex => KEY_NOT_HEX,
        Refusal::FileThere => FILE_THERE,
        Refusal::JournalThere => JOURNAL_THERE,
        Refusal::SuperJournal => SUPER_JOURNAL,
        Refusal::Short { .. } => SHORT,
        Refusal::Ragged { .. } => RAGGED,
        // After a playback it was said already what it may be.
        Refusal::PageTag { .. } | Refusal::Defect(_) if is_played => return,
        Refusal::PageTag { .. } if asked.is(Word::Tags) => TAGS_REFUSED,
        Refusal::PageTag { .. } | Refusal::Defect(_) => DAMAGED,
        _ => return,
    };
    say(rt, words);
}

// What two profiles are whose pages differ, or of which one has no key.
fn other_layout(asked: &Asked) -> &'static str {
    match asked.pair() {
        Some(pair) if pair.has_plain() => plain::NO_KEY,
        Some(_) | None => LAYOUT_DIFFERS,
    }
}

// Whether a refusal of a plain file was explained otherwise than one of an encrypted file. The word is that of its profile.
fn is_plain_explained(rt: &HostRuntime, run: &Ended, refusal: Refusal, files: &mut Behind) -> bool {
    let word = run.version();
    match refusal {
        Refusal::NoTags => say(rt, plain::NO_TAGS),
        Refusal::HeaderFault { offset, found } => plain::explain_header(rt, word, offset, found),
        Refusal::WalMode => {
            explain_plain_mode(rt, run, IN_LOG_MODE, plain::LOG_MODE);
            say_settle(rt, run);
        }
        Refusal::AutoVacuum => {
            explain_plain_mode(rt, run, WITH_MAPS, plain::VACUUM);
            say_settle(rt, run);
        }
        Refusal::Short { .. } => return plain::explain_other_size(rt, word, files.plain_head()),
        _ => return false,
    }
    true
}

// A journal whose pages have another size than those of the version that was given: of a plain file or of an encrypted one.
fn explain_journal(rt: &HostRuntime, version: &str, found: u32, files: &mut Behind) {
    if is_plain_word(version) || files.plain_head().is_some() {
        plain::explain_journal(rt, found);
    } else {
        explain_journal_pages(rt, found);
    }
}

fn explain_journal_pages(rt: &HostRuntime, found: u32) {
    let beside = "the journal beside the file has pages of another size";
    let unwritten = "nothing was written";
    let profiles = probed_profiles();
    if found == 1024 {
        say(
            rt,
            format_args!(
                "{beside}: give 3, 2, 1 or 4:1024, the version that wrote it; {unwritten}"
            ),
        );
    } else if found == 4096 {
        say(
            rt,
            format_args!(
                "{beside}: give 4, or another version with this size, as 3:4096; {unwritten}"
            ),
        );
    } else if profiles.iter().any(|profile| profile.page_size == found) {
        say(rt, format_args!("{beside}: give 4:{found}; {unwritten}"));
    } else {
        say(
            rt,
            format_args!("{beside}, and no version has such pages; {unwritten}"),
        );
    }
}

// A plain file that has a log's mode, or pointer-map pages.
fn explain_plain_mode(rt: &HostRuntime, run: &Ended, what: &str, cure: &str) {
    say_reader(rt, run, what);
    say(rt, cure);
}

// A file that has a log's mode, or pointer-map pages, or both.
fn explain_mode(rt: &HostRuntime, run: &Ended) {
    let version = run.version();
    say_reader(rt, run, "a file in WAL mode or with auto-vacuum");
    let settings = Pragmas(version);
    say(
        rt,
        format_args!(
            "without both: on a copy of FILE, with FILE-wal, give to `sqlcipher` 4: PRAGMA key = '..'; \
            {settings}PRAGMA journal_mode = DELETE; PRAGMA auto_vacuum = 0; VACUUM;"
        ),
    );
}
