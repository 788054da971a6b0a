// The commands: their names, what each does, and what it takes behind its name. A new one is a case of `Word`, and a case more in each `match` over it.
ghost use Rattle.std.specs.Prelude.{◌≡◌, Some, true, false};
ghost use Rattle.sqlcipher_cli.specs.KeyLines.{lines_of};
ghost use Rattle.sqlcipher_cli.specs.Named.{changes_file, only_reads, word_named};

/// A command. Its name is the first word behind FILE.
#[derive(Clone, Copy, Debug, PartialEq, Eq)]
pub enum Word {
    /// `tags`
    Tags,
    /// `header`
    Header,
    /// `verify`
    Verify,
    /// `export`
    Export,
    /// `agree`
    Agree,
    /// `salvage`
    Salvage,
    /// `find`
    Find,
    /// `probe`
    Probe,
    /// `recover`
    Recover,
    /// `settle`
    Settle,
    /// `stamp`
    Stamp,
    /// `rekey`
    Rekey,
    /// `migrate`
    Migrate,
    /// `make`
    Make,
    /// `play`
    Play,
}

/// What a command takes behind its name.
#[derive(Clone, Copy)]
pub enum Form {
    /// Nothing.
    Alone,
    /// A version.
    Version,
    /// Two versions: that of the file, and that of the new one.
    Versions,
    /// A version and more, as this says.
    More(&'static str),
}

/// The lines of standard input that a command takes. A plain file has no key.
#[derive(Clone, Copy)]
pub enum Lines {
    /// None.
    Nothing,
    /// A script.
    Script,
    /// The key of the file.
    Old,
    /// The key of a file that is made.
    New,
    /// The key of the file, and the new one.
    Both,
    /// The key of the file, since the new one is plain.
    OldAlone,
    /// The new key, since the file is plain.
    NewAlone,
}

impl Word {
    /// The command of this name.
    pub fn named(text: &str) -> Option<Word>
        ensures { result ≡ word_named text.now }
    {
        match text {
            "tags" => Some(Word::Tags),
            "header" => Some(Word::Header),
            "verify" => Some(Word::Verify),
            "export" => Some(Word::Export),
            "agree" => Some(Word::Agree),
            "salvage" => Some(Word::Salvage),
            "find" => Some(Word::Find),
            "probe" => Some(Word::Probe),
            "recover" => Some(Word::Recover),
            "settle" => Some(Word::Settle),
            "stamp" => Some(Word::Stamp),
            "rekey" => Some(Word::Rekey),
            "migrate" => Some(Word::Migrate),
            "make" => Some(Word::Make),
            "play" => Some(Word::Play),
            _ => None,
        }
    }

    /// Its name, by which it is found again.
    pub fn name(self) -> &'static str
        ensures { word_named result.now ≡ Some self }
    {
        match self {
            Word::Tags => "tags",
            Word::Header => "header",
            Word::Verify => "verify",
            Word::Export => "export",
            Word::Agree => "agree",
            Word::Salvage => "salvage",
            Word::Find => "find",
            Word::Probe => "probe",
            Word::Recover => "recover",
            Word::Settle => "settle",
            Word::Stamp => "stamp",
            Word::Rekey => "rekey",
            Word::Migrate => "migrate",
            Word::Make => "make",
            Word::Play => "play",
        }
    }

    /// What it takes behind its name.
    pub fn form(self) -> Form {
        match self {
            Word::Probe => Form::Alone,
            Word::Tags
            | Word::Header
            | Word::Verify
            | Word::Export
            | Word::Agree
            | Word::Salvage
            | Word::Recover
            | Word::Settle
            | Word::Play => Form::Version,
            Word::Rekey | Word::Migrate => Form::Versions,
            Word::Stamp => Form::More(
                "`stamp` takes a version, `user-version` or `application-id`, and a number up to 4294967295",
            ),
            Word::Find => Form::More(
                "`find` takes a version, the name of a table, and the lowest and the highest rowid, each of at most 19 digits and of 64 bits",
            ),
            Word::Make => Form::More("`make` takes a version, and how many rows, up to 4294967295"),
        }
    }

    /// The lines that it takes, by whether the file is plain, and the new one.
    pub fn lines(self, is_plain: bool, is_new_plain: bool) -> Lines
        ensures { result ≡ lines_of self is_plain is_new_plain }
    {
        match self {
            Word::Recover => Lines::Nothing,
            Word::Play => Lines::Script,
            Word::Probe => Lines::Old,
            Word::Make => if is_plain { Lines::Nothing } else { Lines::New },
            Word::Rekey | Word::Migrate => match (is_plain, is_new_plain) {
                (false, false) => Lines::Both,
                (false, true) => Lines::OldAlone,
                (true, false) => Lines::NewAlone,
                (true, true) => Lines::Nothing,
            },
            Word::Tags
            | Word::Header
            | Word::Verify
            | Word::Export
            | Word::Agree
            | Word::Salvage
            | Word::Find
            | Word::Settle
            | Word::Stamp => if is_plain { Lines::Nothing } else { Lines::Old },
        }
    }

    /// Whether it only reads the file: the setting `:wal` is for these. `probe` looks at FILE alone, and `recover` may write.
    pub fn only_reads(self) -> bool
        ensures { result ≡ only_reads self }
    {
        match self {
            Word::Tags
            | Word::Header
            | Word::Verify
            | Word::Export
            | Word::Agree
            | Word::Salvage
            | Word::Find => true,
            Word::Probe
            | Word::Recover
            | Word::Settle
            | Word::Stamp
            | Word::Rekey
            | Word::Migrate
            | Word::Make
            | Word::Play => false,
        }
    }

    /// The command that reads the file of this one: itself, or `export`.
    pub fn reader(self) -> Word
        ensures own { only_reads self ≡ true → result ≡ self }
        ensures other { only_reads self ≡ false → result ≡ Word.Export }
    {
        if self.only_reads() {
            self
        } else {
            Word::Export
        }
    }

    /// Whether it changes the file, or makes it, beyond a recovery.
    pub fn changes_file(self) -> bool
        ensures { result ≡ changes_file self }
    {
        match self {
            Word::Settle | Word::Stamp | Word::Rekey | Word::Migrate | Word::Make | Word::Play =>
                true,
            Word::Tags
            | Word::Header
            | Word::Verify
            | Word::Export
            | Word::Agree
            | Word::Salvage
            | Word::Find
            | Word::Probe
            | Word::Recover => false,
        }
    }

    /// Whether it is asked what a stop has left beside the file, so that it tells of a new file there.
    pub fn tells_leftovers(self) -> bool {
        match self {
            Word::Verify | Word::Probe | Word::Recover => true,
            Word::Tags
            | Word::Header
            | Word::Export
            | Word::Agree
            | Word::Salvage
            | Word::Find
            | Word::Settle
            | Word::Stamp
            | Word::Rekey
            | Word::Migrate
            | Word::Make
            | Word::Play => false,
        }
    }
}
