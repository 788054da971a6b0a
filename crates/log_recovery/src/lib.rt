//! A file beside the log of SQLite's WAL mode: "Database File Format", section 4.
//!
//! The role Journal is the log here. Its committed pages are laid over Main, Main is cut and synced, and only then the log is removed.
//!
//! 1. Before anything is read, Main and the log are synced where they are there, and then the folder.
//! 2. A log is laid exactly where Main has a byte, the log's header holds, and a commit stands behind it. Every other log is only removed.
//! 3. A log of another version of the format, or one with a commit of pages of another size, is refused, and then nothing is written.
//! 4. Each committed page that is no higher than the database's size after the last commit is laid at its place, in order.
//! 5. While pages are laid and Main is cut, the log stands as it is, so after a stop the pair opens to the same file.
//! 6. The log is removed only when Main is that file and is synced, and the folder is synced before the answer.
//! 7. Memory is taken before the first call of the disk: the largest page and the 24 bytes of its frame, however long the log is.
#![tactic(auto)]

mod laying;
mod looking;
mod reading;
mod settling;
mod syncing;

pub use laying::LogReading;
pub use looking::{LogFound, look};
pub use reading::read_full;
pub use settling::{LogError, LogLaid, settle_log};
pub use syncing::sync_pair;
