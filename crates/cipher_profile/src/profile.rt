// The profiles of encrypted and of plain files: a record of what a file's pages and keys are.
ghost use Rattle.std.specs.Prelude.{◌≡◌};
ghost use Rattle.cipher_profile.specs.Profile.{IsLaidOut, IsListed, form_of, is_clear, is_plain, usable};

/// A hash of a profile.
#[derive(Clone, Copy, Debug, PartialEq, Eq)]
pub enum HashKind {
    /// SHA-1, with blocks of 64 bytes and digests of 20.
    Sha1,
    /// SHA-256, with blocks of 64 bytes and digests of 32.
    Sha256,
    /// SHA-512, with blocks of 128 bytes and digests of 64.
    Sha512,
}

/// A version of SQLCipher with its settings, or plain SQLite: how its pages are laid out and how its keys are made. Lengths are in bytes.
#[derive(Clone, Copy, Debug, PartialEq, Eq)]
pub struct Profile {
    /// The version, whose settings may be others; 0 for plain files.
    pub version: u8,
    /// The length of a stored page.
    pub page_size: u32,
    /// What of a stored page holds no content: the IV, the tag and padding.
    pub reserve: u32,
    /// The hash of the tags.
    pub hash: HashKind,
    /// The hash of the derivation of keys.
    pub kdf: HashKind,
    /// The rounds of PBKDF2 for a passphrase.
    pub rounds: u32,
    /// The length of a tag; 0 where pages have none.
    pub tag_len: u32,
    /// How many first bytes of page 1 stand in the clear, where the salt stands else; 0 where the salt stands there. It is brought with the key then.
    pub plain_header: u32,
    /// Whether the key line has the passphrase in hex digits: its word has the setting `key=hex`.
    pub hex_key: bool,
    /// Whether a file is read with its log, and only read: its word has the setting `wal`.
    pub reads_log: bool,
}

/// What the key line of an encrypted file holds.
#[derive(Clone, Copy, Debug, PartialEq, Eq)]
pub struct LineForm {
    /// Whether the line is a passphrase in hex digits. Else it is a raw key in its own form, or a passphrase as it stands.
    pub hex: bool,
    /// Whether the salt comes with the key, since the file does not hold it.
    pub salted: bool,
}

impl Profile {
    /// How many bytes of a stored page hold content.
    pub fn usable(&self) -> usize
        requires { IsListed self.now }
        ensures value { result ≡ usable self.now }
        ensures laid_out { IsLaidOut self.now }
    {
        (self.page_size - self.reserve) as usize
    }

    /// Whether files of this profile are plain: nothing in them is encrypted.
    pub fn is_plain(&self) -> bool
        ensures { result ≡ is_plain self.now }
    {
        self.version == 0
    }

    /// Whether page 1 begins as it is stored, with the magic: in a plain file, and in one with a plain header. Else it begins with the salt.
    pub fn is_clear(&self) -> bool
        ensures { result ≡ is_clear self.now }
    {
        self.version == 0 || self.plain_header > 0
    }

    /// What its key line holds, where it has one: a plain file has no key.
    pub fn line_form(&self) -> Option<LineForm>
        ensures { result ≡ form_of self.now }
    {
        if self.version == 0 {
            return None;
        }
        Some(LineForm {
            hex: self.hex_key,
            salted: self.plain_header > 0,
        })
    }
}
