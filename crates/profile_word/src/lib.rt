//! The words of the command line that name profiles: a version of SQLCipher, or plain SQLite, and settings behind colons.
//! And the profiles that are tried where no word is given.
#![tactic(auto)]

mod part;
mod setting;
mod tried;
mod word;
mod wording;

pub use setting::{Setting, Tags, setting_of};
pub use tried::probed_profiles;
pub use word::{Settings, profile_of, profile_of_bytes, profile_without_log};
pub use wording::push_word;
