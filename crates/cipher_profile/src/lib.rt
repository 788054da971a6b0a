//! What a version of SQLCipher asks of a file's keys: the profiles, the secrets of key lines, and the keys that they
//! give.
#![tactic(auto)]

mod key_line;
mod keys;
mod passphrase;
mod profile;

pub use key_line::{KeyError, read_key};
pub use keys::{PageKeys, Secret, derive, derive_beside};
pub use passphrase::PassBytes;
pub use profile::{HashKind, LineForm, Profile};
