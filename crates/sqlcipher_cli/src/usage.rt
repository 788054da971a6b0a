// Why the words are no command.
use crate::asked::Asked;
use crate::commands::Form;
use crate::settings::explain_word;
use crate::version::is_version;
use edge_files::{Shown, say};

/// Says what is missing, or which word is none.
pub fn explain_usage(rt: &HostRuntime, asked: &Asked) {
    let Some(word) = asked.command() else {
        explain_unknown(rt, asked);
        return;
    };
    let name = word.name();
    match word.form() {
        Form::Alone => say(
            rt,
            format_args!("`{name}` takes no further word; --help lists the commands"),
        ),
        Form::Version => explain_one(rt, name, asked.behind()),
        Form::Versions => explain_pair(rt, name, asked.behind()),
        Form::More(form) => explain_form(rt, asked.behind().first(), form),
    }
}

// The first word is the name of no command, or there is none.
fn explain_unknown(rt: &HostRuntime, asked: &Asked) {
    match asked.name() {
        Some(name) => say(
            rt,
            format_args!(
                "unknown command `{}`; --help lists the commands",
                Shown(name)
            ),
        ),
        None => say(
            rt,
            "these words are no command, or one of them is not UTF-8; --help lists the commands",
        ),
    }
}

// A command that takes one version.
fn explain_one(rt: &HostRuntime, name: &str, words: &[&str]) {
    match words {
        [version] => explain_version(rt, version),
        [] => say(
            rt,
            format_args!(
                "`{name}` takes the version that wrote the file, 1, 2, 3 or 4, which `probe` finds, or of a plain file plain:SIZE; --help lists \
                the commands"
            ),
        ),
        [_, word, ..] if speaks_of_log(word) => explain_version(rt, word),
        _ => say(
            rt,
            format_args!("`{name}` takes a version and nothing else; --help lists the commands"),
        ),
    }
}

// A command that takes two versions.
fn explain_pair(rt: &HostRuntime, name: &str, words: &[&str]) {
    match words {
        [old, new] if is_version(old) => explain_version(rt, new),
        [old, _] => explain_version(rt, old),
        _ => say(
            rt,
            format_args!(
                "`{name}` takes two versions, that of the file, which `probe` finds, and that of the new one; --help lists the commands"
            ),
        ),
    }
}

// A command that takes a version and more.
fn explain_form(rt: &HostRuntime, version: Option<&&str>, form: &str) {
    match version {
        Some(word) if !is_version(word) => explain_version(rt, word),
        _ => say(rt, format_args!("{form}; --help lists the commands")),
    }
}

fn explain_version(rt: &HostRuntime, word: &str) {
    if !explain_word(rt, word) {
        say(
            rt,
            format_args!(
                "`{}` is no version: there are 1, 2, 3 and 4, each with settings behind colons, and `probe` finds that of a file; plain files are \
                plain:SIZE; --help lists the commands",
                Shown(word)
            ),
        );
    }
}

// Whether a word was to name the setting of a file that is read with its log.
fn speaks_of_log(word: &str) -> bool {
    word.contains("wal") || word.contains("WAL")
}
