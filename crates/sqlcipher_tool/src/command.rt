// The words of the command line.
ghost use Rattle.std.specs.Prelude.{◌≡◌, ◌∷◌, [], IfSome};
ghost use Rattle.sqlcipher_tool.specs.Due.{word_refusal};
ghost use Rattle.sqlcipher_tool.specs.declared.change.Change.TheVariants.{Rekey as RekeyOf, Migrate as MigrateOf};
ghost use Rattle.cipher_profile.specs.Profile.{IsListed};
ghost use Rattle.sqlcipher_tool.specs.Words.{form, play_form, find_form, stamp_form, two_profiles, make_form, field_named, rowid_named, texts, asked_keys, draws, is_only_read, lacks_tags, layouts_differ, plays_with_log, profile_with_log, IsServed};

use crate::change::Change;
use crate::reading::{Job, Reading};
use crate::status::Refusal;
use cipher_profile::{LineForm, Profile};
use profile_word::{profile_of, profile_without_log};
use std::marker::Model;
use text_lines::number_of;

/// The name of a table. Contracts see its bytes.
#[derive(Drop)]
pub struct Name<'w> {
    text: &'w str,
}

impl<'w> Model for Name<'w> {
    ghost use Rattle.std.specs.Prelude.{List, ℕ};

    ghost Value = { List ℕ };

    ghost view = { λ name. name.text.now };
}

impl<'w> Name<'w> {
    fn new(text: &'w str) -> Name<'w>
        ensures { result ≡ text.now }
    {
        Name { text }
    }

    /// Its bytes.
    pub fn as_bytes(&self) -> &[u8]
        ensures { result.now ≡ self.now }
    {
        self.text.as_bytes()
    }
}

/// A field of the database header that can be stamped.
#[derive(Clone, Copy, Debug, PartialEq, Eq)]
pub enum Field {
    /// The user version.
    UserVersion,
    /// The application id.
    ApplicationId,
}

/// What the words ask for.
#[derive(Drop)]
pub enum Command<'w> {
    /// Find the profile.
    Probe,
    /// Play back a journal that a stop has left.
    Recover(Profile),
    /// Recover a file of the profile, and read it.
    Read(Profile, Reading<'w>),
    /// Recover a file of the profile, and change it.
    Change(Profile, Change),
    /// Make a database where no file is.
    Make {
        /// Its profile.
        profile: Profile,
        /// How many rows it has.
        rows: u32,
    },
}

// The key line of `probe`: of a file that begins with its salt, and not in hex.
const PROBED_FORM: LineForm = LineForm {
    hex: false,
    salted: false,
};

impl<'w> Command<'w> {
    /// Why it is refused by its words alone, if it is.
    pub fn refusal(&self) -> Option<Refusal>
        ensures { result ≡ word_refusal self.now }
    {
        if self.is_only_read() {
            return Some(Refusal::OnlyRead);
        }
        if self.lacks_tags() {
            return Some(Refusal::NoTags);
        }
        if self.layouts_differ() {
            return Some(Refusal::LayoutDiffers);
        }
        None
    }

    /// For each of two secrets, that of the file and that of the new file, the form of the key line that is read for it, where one is.
    pub fn asked_keys(&self) -> (Option<LineForm>, Option<LineForm>)
        ensures { asked_keys self.now ≡ result.0 ∷ result.1 ∷ [] }
    {
        match self {
            Command::Probe => (Some(PROBED_FORM), None),
            Command::Recover(_) => (None, None),
            Command::Read(profile, _) => (profile.line_form(), None),
            Command::Change(profile, change) => (profile.line_form(), change.second_form()),
            Command::Make { profile, .. } => (profile.line_form(), None),
        }
    }

    /// Whether it draws from the entropy: it seals pages, and not those of a plain file.
    pub fn draws(&self) -> bool
        ensures { result ≡ draws self.now }
    {
        match self {
            Command::Change(profile, change) => !change.profile_after(*profile).is_plain(),
            Command::Make { profile, .. } => !profile.is_plain(),
            Command::Probe | Command::Recover(_) | Command::Read(_, _) => false,
        }
    }

    /// The profile of a file that is read with its log, where the command is one that only reads.
    pub fn with_log(&self) -> Option<Profile>
        ensures { result ≡ profile_with_log self.now }
    {
        match self {
            Command::Read(profile, _) if profile.reads_log => Some(*profile),
            _ => None,
        }
    }

    // Whether it would change a file that is only read with its log, or make one.
    fn is_only_read(&self) -> bool
        ensures { result ≡ is_only_read self.now }
    {
        match self {
            Command::Recover(profile) => profile.reads_log,
            Command::Change(profile, change) => {
                profile.reads_log || change.profile_after(*profile).reads_log
            }
            Command::Make { profile, .. } => profile.reads_log,
            Command::Probe | Command::Read(_, _) => false,
        }
    }

    // Whether it asks for tags that the profile has not.
    fn lacks_tags(&self) -> bool
        ensures { result ≡ lacks_tags self.now }
    {
        match self {
            Command::Read(profile, reading) => reading.asks_tags(profile),
            Command::Probe | Command::Recover(_) | Command::Change(_, _) | Command::Make { .. } =>
                false,
        }
    }

    // Whether it asks for new keys in place, of a profile whose pages have another size or reserve, or of a plain file.
    fn layouts_differ(&self) -> bool
        ensures { result ≡ layouts_differ self.now }
    {
        match self {
            Command::Change(profile, change) => change.changes_layout(profile),
            Command::Probe | Command::Recover(_) | Command::Read(_, _) | Command::Make { .. } =>
                false,
        }
    }
}

/// The profile of a `play`, where the words are one.
pub fn played_profile(words: &[&str]) -> Option<Profile>
    ensures form { result ≡ play_form (texts words.now) }
    ensures listed { IfSome result IsListed }
{
    match words {
        [name, word] if *name == "play" => profile_without_log(word.as_bytes()),
        _ => None,
    }
}

/// Whether the words are a `play` of a file that is read with its log. It is refused, since it may change the file.
pub fn plays_with_log(words: &[&str]) -> bool
    ensures { result ≡ plays_with_log (texts words.now) }
{
    match words {
        [name, word] if *name == "play" => match profile_of(word) {
            Some(profile) => profile.reads_log,
            None => false,
        },
        _ => false,
    }
}

/// The command that the words make.
pub fn parse_words<'w>(words: &[&'w str]) -> Option<Command<'w>>
    ensures form { result ≡ form (texts words.now) }
    ensures served { IfSome result IsServed }
{
    match words {
        [name] => command_alone(name),
        [name, word] => command_on(name, word),
        [name, first, second] => command_with(name, first, second),
        [name, first, second, third] => command_of_four(name, first, second, third),
        [name, first, second, third, fourth] => command_of_five(name, first, second, third, fourth),
        _ => None,
    }
}

// The command of this name alone.
fn command_alone<'w>(name: &str) -> Option<Command<'w>>
    ensures form { result ≡ form (name.now ∷ []) }
    ensures served { IfSome result IsServed }
{
    if name == "probe" {
        return Some(Command::Probe);
    }
    None
}

// The command of this name on a file of the profile that the word names.
fn command_on<'w>(name: &str, word: &str) -> Option<Command<'w>>
    ensures form { result ≡ form (name.now ∷ word.now ∷ []) }
    ensures served { IfSome result IsServed }
{
    let profile = profile_of(word);
    if name == "tags" {
        return Some(Command::Read(profile?, Reading::Tags));
    }
    if name == "header" {
        return Some(Command::Read(profile?, Reading::Header));
    }
    if name == "verify" {
        return Some(Command::Read(profile?, Reading::OnPages(Job::Verify)));
    }
    if name == "export" {
        return Some(Command::Read(profile?, Reading::OnPages(Job::Export)));
    }
    if name == "agree" {
        return Some(Command::Read(profile?, Reading::OnPages(Job::Agree)));
    }
    if name == "salvage" {
        return Some(Command::Read(profile?, Reading::Salvage));
    }
    if name == "recover" {
        return Some(Command::Recover(profile?));
    }
    if name == "settle" {
        return Some(Command::Change(profile?, Change::Settle { frames: 0 }));
    }
    None
}

// The command of this name with two words.
fn command_with<'w>(name: &str, first: &str, second: &str) -> Option<Command<'w>>
    ensures form { result ≡ form (name.now ∷ first.now ∷ second.now ∷ []) }
    ensures served { IfSome result IsServed }
{
    if name == "rekey" {
        return rekey_with(first, second);
    }
    if name == "migrate" {
        return migrate_with(first, second);
    }
    if name == "make" {
        return make_with(first, second);
    }
    None
}

// The command of this name with three words.
fn command_of_four<'w>(name: &str, first: &str, second: &str, third: &str) -> Option<Command<'w>>
    ensures form { result ≡ form (name.now ∷ first.now ∷ second.now ∷ third.now ∷ []) }
    ensures served { IfSome result IsServed }
{
    if name == "stamp" {
        return stamp_with(first, second, third);
    }
    None
}

// The command of this name with four words.
fn command_of_five<'w>(
    name: &str,
    first: &str,
    second: &'w str,
    third: &str,
    fourth: &str,
) -> Option<Command<'w>>
    ensures form { result ≡ form (name.now ∷ first.now ∷ second.now ∷ third.now ∷ fourth.now ∷ []) }
    ensures served { IfSome result IsServed }
{
    if name == "find" {
        return find_with(first, second, third, fourth);
    }
    None
}

// `find` with its four words.
fn find_with<'w>(first: &str, second: &'w str, third: &str, fourth: &str) -> Option<Command<'w>>
    ensures form { result ≡ find_form first.now second.now third.now fourth.now }
    ensures served { IfSome result IsServed }
{
    let profile = profile_of(first)?;
    let low = rowid_of(third)?;
    let high = rowid_of(fourth)?;
    let name = Name::new(second);
    Some(Command::Read(profile, Reading::OnPages(Job::Find { name, low, high })))
}

// `stamp` with its three words.
fn stamp_with<'w>(first: &str, second: &str, third: &str) -> Option<Command<'w>>
    ensures form { result ≡ stamp_form first.now second.now third.now }
    ensures served { IfSome result IsServed }
{
    let profile = profile_of(first)?;
    let field = field_of(second)?;
    let value = number_of(third.as_bytes())?;
    Some(Command::Change(profile, Change::Stamp { field, value }))
}

// `rekey` with its two words.
fn rekey_with<'w>(first: &str, second: &str) -> Option<Command<'w>>
    ensures form { result ≡ two_profiles RekeyOf first.now second.now }
    ensures served { IfSome result IsServed }
{
    let old = profile_of(first)?;
    let new = profile_of(second)?;
    Some(Command::Change(old, Change::Rekey(new)))
}

// `migrate` with its two words.
fn migrate_with<'w>(first: &str, second: &str) -> Option<Command<'w>>
    ensures form { result ≡ two_profiles MigrateOf first.now second.now }
    ensures served { IfSome result IsServed }
{
    let old = profile_of(first)?;
    let new = profile_of(second)?;
    Some(Command::Change(old, Change::Migrate(new)))
}

// `make` with its two words.
fn make_with<'w>(first: &str, second: &str) -> Option<Command<'w>>
    ensures form { result ≡ make_form first.now second.now }
    ensures served { IfSome result IsServed }
{
    let profile = profile_of(first)?;
    let rows = number_of(second.as_bytes())?;
    Some(Command::Make { profile, rows })
}

// The field that a word names.
fn field_of(word: &str) -> Option<Field>
    ensures { result ≡ field_named word.now }
{
    match word {
        "user-version" => Some(Field::UserVersion),
        "application-id" => Some(Field::ApplicationId),
        _ => None,
    }
}

// The rowid that a word of one to 19 digits names, with or without a minus before them, where eight bytes hold it.
fn rowid_of(word: &str) -> Option<i64>
    ensures { result ≡ rowid_named word.now }
{
    let bytes = word.as_bytes();
    if bytes.len() == 0 || bytes[0] == b'+' {
        return None;
    }
    let most = if bytes[0] == b'-' { 20 } else { 19 };
    if bytes.len() > most {
        return None;
    }
    match word.parse::<i64>() {
        Ok(number) => Some(number),
        Err(_) => None,
    }
}
