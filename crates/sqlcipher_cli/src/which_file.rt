// What is said where a change was under way: the file is the old one or the new one, and how one tells which.
use crate::asked::Pair;
use crate::commands::Word;
use crate::ended::Ended;
use crate::version::is_tried;
use edge_files::{Folder, Shown, say};

/// Says that the file is the old one or the new one, and what to do about it.
pub fn explain_either(rt: &HostRuntime, run: &Ended, folder: &Folder) {
    if folder.has_own_journal() {
        say(
            rt,
            format_args!(
                "{}: it stands: keep it beside the file until it is played back",
                Shown(folder.journal_path())
            ),
        );
    }
    if let Some(word) = run.asked.command() {
        explain_change(rt, run, word);
    }
}

// How one tells which it is after this command.
fn explain_change(rt: &HostRuntime, run: &Ended, word: Word) {
    let version = run.version();
    match word {
        Word::Rekey | Word::Migrate => explain_keys(rt, run),
        Word::Stamp => say(
            rt,
            format_args!(
                "unless another program changed it meanwhile, the file is whole, with the old number or with the new one: \
                `recover {version}`, then `header {version}`"
            ),
        ),
        Word::Settle => say(
            rt,
            format_args!(
                "unless another program changed it meanwhile, the file is whole, its log is laid, and it is out of WAL mode or not: give \
                `settle {version}` again"
            ),
        ),
        Word::Make => say(
            rt,
            format_args!("there is no file, or the whole one: `verify {version}` tells which"),
        ),
        Word::Play => say(
            rt,
            format_args!(
                "unless another program changed it meanwhile, the file is whole, with each commit that was answered `done`, and with a later one \
                or without it: give `recover {version}`, and where that one was a rekey, `probe` with each key"
            ),
        ),
        Word::Tags
        | Word::Header
        | Word::Verify
        | Word::Export
        | Word::Agree
        | Word::Salvage
        | Word::Find
        | Word::Probe
        | Word::Recover => {}
    }
}

// The same, after a `rekey` or a `migrate`: by `probe`, where it finds both versions.
fn explain_keys(rt: &HostRuntime, run: &Ended) {
    let version = run.version();
    match run.asked.pair() {
        Some(pair) if pair.has_plain() => explain_plain(rt, pair),
        Some(Pair { old, new }) if !is_tried(old) || !is_tried(new) => say(
            rt,
            format_args!(
                "unless another program changed it meanwhile, the file is whole, under the old key or under the new one: \
                `recover {version}`, then `verify {old}` with the old key and `verify {new}` with the new one"
            ),
        ),
        Some(_) | None => say(
            rt,
            format_args!(
                "unless another program changed it meanwhile, the file is whole, under the old key or under the new one: \
                `recover {version}`, then `probe` with each key"
            ),
        ),
    }
}

// The same, where one of the two is plain.
fn explain_plain(rt: &HostRuntime, pair: Pair) {
    let Pair { old, new } = pair;
    say(
        rt,
        format_args!(
            "unless another program changed it meanwhile, the file is whole, the old one or the new one: `recover {old}`, then `verify {old}` \
            and `verify {new}`, each with its own key"
        ),
    );
}
