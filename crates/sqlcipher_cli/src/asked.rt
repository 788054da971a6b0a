// What the words behind FILE ask for. Here alone they are taken apart: the other modules ask a value of `Asked`.
ghost use Rattle.std.specs.Prelude.{◌≡◌, ◌↔◌, IsTrue, Some, codes, true, false, map, is_some};
ghost use Rattle.std.specs.Str.{bytes_eq};
ghost use Rattle.cipher_profile.specs.declared.profile.Profile.{Profile as ProfileOf};
ghost use Rattle.sqlcipher_cli.specs.KeyLines.{taken, third_of, version_of};
ghost use Rattle.sqlcipher_cli.specs.Named.{command_of, reads, word_of};
ghost use Rattle.sqlcipher_cli.specs.Plain.{decrypts, encrypts};
ghost use Rattle.sqlcipher_tool.specs.Words.{alters, asked_keys, form, play_form, texts};
ghost use Rattle.sqlcipher_tool.specs.declared.command.Command.{Command};
ghost use Rattle.sqlcipher_tool.specs.WithLog.{viewed_by};

use crate::commands::{Form, Lines, Word};
use crate::version::is_plain_word;
use cipher_profile::Profile;
use sqlcipher_tool::{profile_to_settle, profile_with_log};

/// The words behind FILE.
#[derive(Clone, Copy)]
pub struct Asked<'w> {
    words: &'w [&'w str],
}

/// The words of two profiles, that of the file and that of the new one.
#[derive(Clone, Copy)]
pub struct Pair<'w> {
    pub old: &'w str,
    pub new: &'w str,
}

impl<'w> Pair<'w> {
    /// Whether one of them names plain files.
    pub fn has_plain(&self) -> bool {
        is_plain_word(self.old) || is_plain_word(self.new)
    }
}

impl<'w> Asked<'w> {
    /// These words.
    pub fn new(words: &'w [&'w str]) -> Asked<'w>
        ensures { texts result.words.now ≡ texts words.now }
    {
        Asked { words }
    }

    /// The command, where the first of them is the name of one. Where they are a command that `run` carries out, or a script, it is that one.
    pub fn command(&self) -> Option<Word>
        ensures named { result ≡ command_of (texts self.now.words.now) }
        ensures carried { (command : Command) → form (texts self.now.words.now) ≡ Some command → result ≡ Some (word_of command) }
        ensures played { (profile : ProfileOf) → play_form (texts self.now.words.now) ≡ Some profile → result ≡ Some Word.Play }
    {
        command_of(self.words)
    }

    /// Whether they are of this command.
    pub fn is(&self, word: Word) -> bool
        ensures { IsTrue result ↔ (command_of (texts self.now.words.now) ≡ Some word) }
    {
        self.command() == Some(word)
    }

    /// Whether they are of a command that changes the file, or makes it.
    pub fn changes_file(&self) -> bool
        ensures { (command : Command) → form (texts self.now.words.now) ≡ Some command → result ≡ alters command }
    {
        match self.command() {
            Some(word) => word.changes_file(),
            None => false,
        }
    }

    /// Whether they ask what a stop has left beside the file.
    pub fn tells_leftovers(&self) -> bool {
        match self.command() {
            Some(word) => word.tells_leftovers(),
            None => false,
        }
    }

    /// The command that reads the file of these words: their own, or `export` where that one does not only read.
    pub fn reader(&self) -> Word
        ensures own { (command : Command) → form (texts self.now.words.now) ≡ Some command → reads command ≡ true → result ≡ word_of command }
        ensures other { (command : Command) → form (texts self.now.words.now) ≡ Some command → reads command ≡ false → result ≡ Word.Export }
    {
        match self.command() {
            Some(word) => word.reader(),
            None => Word::Export,
        }
    }

    /// The first of them, where there is one.
    pub fn name(&self) -> Option<&'w str> {
        self.words.first().copied()
    }

    /// Those behind the first.
    pub fn behind(&self) -> &'w [&'w str] {
        match self.words {
            [_, behind @ ..] => behind,
            [] => self.words,
        }
    }

    /// The version that they give of the file; 4 where they give none.
    pub fn version(&self) -> &'w str
        ensures { result.now ≡ version_of (texts self.now.words.now) }
    {
        match self.words {
            [_, version, ..] => version,
            _ => "4",
        }
    }

    /// The version of the new file, which of `make` is the one that they give.
    pub fn new_version(&self) -> &'w str {
        match self.pair() {
            Some(pair) => pair.new,
            None => self.version(),
        }
    }

    /// The third of them, as the table of a `find` and the new version of a `migrate`; no text where there is none.
    pub fn third(&self) -> &'w str
        ensures { result.now ≡ third_of (texts self.now.words.now) }
    {
        match self.words {
            [_, _, third, ..] => third,
            _ => "",
        }
    }

    /// The two versions of a `rekey` or a `migrate`.
    pub fn pair(&self) -> Option<Pair<'w>> {
        match (self.command()?.form(), self.words) {
            (Form::Versions, [_, old, new]) => Some(Pair { old, new }),
            _ => None,
        }
    }

    /// Whether they write the rows of an encrypted file in the clear.
    pub fn decrypts(&self) -> bool
        ensures { result ≡ decrypts (texts self.now.words.now) }
    {
        match self.words {
            [name, old, new] => is_migrate(name) && !is_plain_word(old) && is_plain_word(new),
            _ => false,
        }
    }

    /// Whether they write the rows of a plain file under a key.
    pub fn encrypts(&self) -> bool
        ensures { result ≡ encrypts (texts self.now.words.now) }
    {
        match self.words {
            [name, old, new] => is_migrate(name) && is_plain_word(old) && !is_plain_word(new),
            _ => false,
        }
    }

    /// The lines that they take of standard input: those for which the command has a key line read.
    pub fn lines(&self) -> Lines
        ensures { (command : Command) → form (texts self.now.words.now) ≡ Some command → taken result ≡ map is_some (asked_keys command) }
    {
        match self.command() {
            Some(word) => word.lines(is_plain_word(self.version()), is_plain_word(self.third())),
            None => Lines::Nothing,
        }
    }

    /// The profile by which they have a file read with its log, and nothing written.
    pub fn profile_with_log(&self) -> Option<Profile>
        ensures { result ≡ viewed_by (form (texts self.now.words.now)) }
    {
        profile_with_log(self.words)
    }

    /// The profile by which they have a file opened with its log: to read it, or to settle the two.
    pub fn profile_beside_log(&self) -> Option<Profile> {
        match self.profile_with_log() {
            None => profile_to_settle(self.words),
            profile => profile,
        }
    }
}

// The command of these words.
fn command_of(words: &[&str]) -> Option<Word>
    ensures { result ≡ command_of (texts words.now) }
{
    match words {
        [name, ..] => Word::named(name),
        [] => None,
    }
}

fn is_migrate(name: &str) -> bool
    ensures { result ≡ bytes_eq name.now (codes "migrate") }
{
    Word::named(name) == Some(Word::Migrate)
}
