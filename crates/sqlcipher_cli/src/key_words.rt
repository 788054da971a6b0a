// What is said of key lines: which is asked for, what one may have been meant as, why a key was refused. No byte of a key is printed.
use crate::asked::Asked;
use crate::commands::{Lines, Word};
use crate::ended::Ended;
use crate::plain::{self, OLD_ROWS};
use crate::version::{form_of, has_plain_header, is_plain_word, is_same_profile};
use edge_files::{Behind, InputSource, KeyLine, Prompt, say};
use profile_word::profile_of;

const OLD_KEY: &str =
    "the key of the file, and Enter; it is shown here, and sqlcipher-tool-ask does not show it";

const NEW_KEY: &str =
    "the new key, and Enter; it is shown here, and sqlcipher-tool-ask asks for it unseen and twice";

const KEY_MISSING: &str = "standard input ended before the key line: this command takes one";

const NEW_KEY_MISSING: &str =
    "standard input ended before the key line: from a plain file one is taken, the new key";

const OLD_KEY_MISSING: &str =
    "standard input ended before the key line: to a plain file one is taken, the old key";

const TWO_KEYS_MISSING: &str =
    "standard input ended before the last key line, or the file of the first key has no line feed at its end: this command takes two, \
    the old key and the new one";

const BARE_KEY: &str =
    "the key line is 64 hex digits and was taken as a passphrase; a raw key is written x'..'";

const BROKEN_RAW: &str =
    "the key line begins as a raw key does and was taken as a passphrase; a raw key is x' and 64 hex digits and '";

const STATEMENT: &str =
    "the key line is a statement, and all of it was taken as a passphrase; a key stands alone on its line";

const BYTE_ORDER_MARK: &str =
    "the key line begins with a byte-order mark, which was taken as part of the key";

const LEADING_SPACE: &str = "the key line begins with a space, which was taken as part of the key";

const CARRIAGE_RETURN: &str =
    "the key line ends in a carriage return, which was taken as part of the key";

const SPACE: &str = "the key line ends in a space, which was taken as part of the key";

const TAB: &str = "the key line has a tab, which was taken as part of the key";

const CONTROL: &str =
    "the key line has a control byte, which was taken as part of the key; not every program can be given it";

const QUOTES: &str =
    "the key line begins and ends with a quote, and both were taken as part of the key";

const SAME_KEY: &str =
    "the new key is the old one: every page was sealed anew, and nothing else has changed";

const VERSION_1: &str = "version 1 has no tags: a page that is changed later is not noticed";

const PLAIN_HEADER: &str =
    "the key, its salt or a setting is not the file's, or the file does not begin with `SQLite format 3`: then its first bytes are not in the \
    clear, or they are damaged. The README's section \"When the key is refused\" lists what else it may be";

const NO_TAGS: &str =
    "under hmac=off pages have no tags: a page that is changed later is not noticed";

/// What one is asked for who types the lines of this command.
pub fn prompt_of(asked: &Asked) -> Prompt {
    match asked.lines() {
        Lines::Script => one("the script, a step a line, and Ctrl-D behind the last one"),
        Lines::New | Lines::NewAlone => one(NEW_KEY),
        Lines::Both => Prompt {
            first: OLD_KEY,
            second: Some(NEW_KEY),
        },
        Lines::Nothing | Lines::Old | Lines::OldAlone => one(OLD_KEY),
    }
}

fn one(first: &'static str) -> Prompt {
    Prompt {
        first,
        second: None,
    }
}

/// How many key lines were to come, and which. A plain file has none.
pub fn missing_key(asked: &Asked) -> &'static str {
    match asked.lines() {
        Lines::NewAlone => NEW_KEY_MISSING,
        Lines::OldAlone => OLD_KEY_MISSING,
        Lines::Both => TWO_KEYS_MISSING,
        Lines::Nothing | Lines::Script | Lines::Old | Lines::New => KEY_MISSING,
    }
}

// What is said of a line as it was taken under this word: in hex, or with its salt, it has one form alone.
fn remark_under(word: &str, line: &KeyLine) -> Option<&'static str> {
    match form_of(word) {
        Some(form) if form.hex || form.salted => None,
        _ => remark_on(line),
    }
}

// What the form of a key line tells of how else it may have been meant.
fn remark_on(line: &KeyLine) -> Option<&'static str> {
    if line.is_bare_key() {
        Some(BARE_KEY)
    } else if line.ends_in_return() {
        Some(CARRIAGE_RETURN)
    } else if line.ends_in_space() {
        Some(SPACE)
    } else if line.is_broken_raw() {
        Some(BROKEN_RAW)
    } else if line.is_statement() {
        Some(STATEMENT)
    } else {
        remark_on_blanks(line)
    }
}

fn remark_on_blanks(line: &KeyLine) -> Option<&'static str> {
    if line.begins_with_mark() {
        Some(BYTE_ORDER_MARK)
    } else if line.begins_with_space() {
        Some(LEADING_SPACE)
    } else if line.has_tab() {
        Some(TAB)
    } else if line.has_control() {
        Some(CONTROL)
    } else if line.is_quoted() {
        Some(QUOTES)
    } else {
        None
    }
}

/// Says what the new key of a command that was done was taken as. A key that was set otherwise than it was meant opens the
/// file to nobody who does not know that.
pub fn explain_new_key(rt: &HostRuntime, asked: &Asked, input: &InputSource) {
    let new = asked.new_version();
    match asked.lines() {
        Lines::New => explain_line(rt, new, &input.line),
        Lines::NewAlone => {
            explain_line(rt, new, &input.line);
            explain_renewed(rt, asked, input);
        }
        Lines::Both => {
            explain_line(rt, new, &input.second);
            explain_renewed(rt, asked, input);
        }
        Lines::Nothing | Lines::Script | Lines::Old | Lines::OldAlone => return,
    }
    if input.goes_on() {
        say(
            rt,
            "the input goes on after the last key line; what follows was not taken",
        );
    }
}

// Says of a file with a new key what is the same, what is gone from it, or what it lacks.
fn explain_renewed(rt: &HostRuntime, asked: &Asked, input: &InputSource) {
    let (old, new) = (asked.version(), asked.new_version());
    if asked.is(Word::Rekey) {
        if is_same_profile(old, new) && input.line.is_same_key(&input.second) {
            say(rt, SAME_KEY);
        }
        return;
    }
    if asked.encrypts() {
        say(rt, OLD_ROWS);
    }
    if let Some(words) = untagged(new) {
        say(rt, words);
    }
}

// What is said of a version whose pages have no tags.
fn untagged(word: &str) -> Option<&'static str> {
    match profile_of(word) {
        Some(profile) if profile.tag_len > 0 => None,
        Some(profile) if profile.version == 1 => Some(VERSION_1),
        _ => Some(NO_TAGS),
    }
}

fn explain_line(rt: &HostRuntime, version: &str, line: &KeyLine) {
    let (is_hex, is_salted) = match form_of(version) {
        Some(form) => (form.hex, form.salted),
        None => (false, false),
    };
    let kind = match (is_hex, is_salted) {
        (true, true) =>
            "a passphrase in hex digits, with its salt, which the file does not hold: keep the line",
        (true, false) => "a passphrase in hex digits",
        (false, true) => "a raw key with its salt, which the file does not hold: keep the line",
        (false, false) if line.is_raw() => "a raw key",
        (false, false) => "a passphrase",
    };
    say(rt, format_args!("the new key was taken as {kind}"));
    if let Some(words) = remark_under(version, line) {
        say(rt, format_args!("of the new key: {words}"));
    }
}

/// Says why the key may have been refused.
pub fn explain_key(rt: &HostRuntime, run: &Ended, input: &InputSource, files: &mut Behind) {
    if is_plain_word(run.version()) {
        say(rt, plain::NO_MAGIC);
    } else if has_plain_header(run.version()) {
        say(rt, PLAIN_HEADER);
    } else if let Some(head) = files.plain_head() {
        plain::explain_unencrypted(rt, run.version(), head);
    } else if let Some(words) = remark_under(run.version(), &input.line) {
        say(rt, words);
    } else if run.asked.is(Word::Probe) {
        say(
            rt,
            "the key fits under no version that is tried: it is wrong, or the file has settings of its own. They are what the program that wrote \
            it gives to `PRAGMA cipher_page_size`, `kdf_iter`, `cipher_hmac_algorithm`, `cipher_kdf_algorithm` and `cipher_use_hmac`, or what \
            the dialog of DB Browser for SQLite shows: give them behind the version, as 4:rounds=4000:hmac=sha1. The README's section \"When \
            the key is refused\" lists what else it may be",
        );
    } else if run.asked.is(Word::Salvage) {
        say(
            rt,
            format_args!(
                "the key opens no page of the file under version {}: on a copy whose first page is whole `probe` finds the version. The \
                README's section \"When the key is refused\" lists what else it may be",
                run.version()
            ),
        );
    } else {
        let version = run.version();
        let order = match run.asked.lines() {
            Lines::Both => " The first line is the old key.",
            Lines::Nothing
            | Lines::Script
            | Lines::Old
            | Lines::New
            | Lines::OldAlone
            | Lines::NewAlone => "",
        };
        say(
            rt,
            format_args!(
                "the key does not fit under version {version}: {}.{order} The README's section \"When the key is refused\" lists what else it \
                may be. Where the first page is damaged, `salvage {version}` opens the others",
                whose_settings(version)
            ),
        );
    }
}

// Who tells the settings of a file: `probe` finds none but those that it tries.
fn whose_settings(version: &str) -> &'static str {
    if version.contains(':') {
        "its settings are those that the program that wrote it gives to the product; `probe` tries the versions' own, with the usual sizes of pages, \
        and those of two programs"
    } else {
        "`probe` finds the version and the size of its pages"
    }
}

/// What a refused key of a script may come of: the answers may be in a file, and the status is that of the whole script.
pub fn explain_session_key(rt: &HostRuntime) {
    say(
        rt,
        "an answer of the script is `key refused`: the key or the profile that its session was opened with does not fit the file, which may \
        have another key since a rekey of the script. The README's section \"When the key is refused\" lists what else it may be",
    );
}
