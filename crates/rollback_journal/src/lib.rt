//! A rollback journal: recovery from one, and its writer. SQLite's "Database File Format", section 3, and "Atomic Commit In
//! SQLite".
//!
//! The rules of recovery, each with the clause that carries it. A function without a crate's name is of this crate.
//!
//! 1. Before anything is read, Main and Journal are synced where they are there, and then the folder: from then on every
//!    crash leaves what is read (`recover: settled`).
//! 2. A journal is played exactly where it is hot: Main has a byte, and the journal begins with a whole header whose
//!    sector size can be. A cold one is only removed (`recover: answer`, with `is_hot` of `journal_format`).
//! 3. A hot journal of pages of another size, or with the name of a super-journal at its end, is refused, and then nothing
//!    is written (`recover: answer, unchanged, only_synced`).
//! 4. Each record is laid at its page's place, in order, up to the first that is short, has number 0 or another checksum;
//!    one of a page above the initial size is passed over (`play: laid, counted`, with `played` of `journal_format`).
//! 5. While images are laid and Main is cut, the journal stands as it is, so after a stop it plays Main to the same file
//!    (`play: journal`, `recover: any_moment, holds`).
//! 6. The journal is closed, by a 0 over its first byte, only when Main is the recovered file and is synced
//!    (`close_gate: laid_back, settled`, which are its conditions).
//! 7. A journal is removed only when it is cold and no byte of Main is unsynced, and the folder is synced before the answer
//!    (`drop_journal: cold, settled`, which are its conditions; `recover: done`).
//! 8. Memory is taken before the first write: a page and the 8 bytes of its record, however long the journal is. `play` and
//!    all below it have no allocator (`recover: unchanged`).
//! 9. Fresh is left alone (`fresh` of `Keeps`, in `recover: any_moment`).
//!
//! The rules of writing, each with the clause that carries it. The calls are those of `JournalWriter`. The gate of a segment
//! is the first byte of its header: closed while it is 0, and open once it is d9 and synced.
//!
//! 1. A journal begins as the one byte 0, synced, and the folder is synced: its gate is closed, and no crash leaves a part
//!    of its name (`create: stands, names`).
//! 2. A record holds the page's stored bytes as they were, so that recovery needs no key. Records are written behind a closed
//!    gate, where nothing that they leave is played (`append: one_more, any_moment`).
//! 3. A gate is opened last: first all of the header's sector but its first byte, and a sync; then the byte d9, and a sync
//!    (`put_gate: headed, whole`, which are its conditions). Until then the journal plays as before, and from then on all its
//!    records; in between every crash leaves the one or the other (`open_gate: any_moment, stands`).
//! 4. The sector size is 512. The nonce is the number of the segment, from 1, and the count is exact; the padding of the first
//!    header begins with the mark of this tool (`first_sector`, with `sector_of`; `IsOpened`).
//! 5. A further segment begins at the next multiple of 512, with its gate closed (`next_segment: made, stands, any_moment`).
//! 6. The journal is closed by a 0 over its first byte and a sync. Where no gate was opened it is cold already, and nothing is
//!    written (`close_gate: one_byte, untouched, cold`). In between the whole journal plays, or none of it
//!    (`close_gate: any_moment`).
//! 7. Only a closed journal is removed, and the folder is synced before the answer (`remove: stage, gone`).
//! 8. What was written over Main is taken back from the journal: it is synced, each image that stands behind an open gate is
//!    laid at its page's place, and Main is synced (`lay_back: laid, journal, settled, any_moment`).
//! 9. No other call writes Main, and none writes Fresh (`others` of each call, `fresh` of `Keeps` in `lay_back: any_moment`).
//! 10. `new` takes a page and the 8 bytes of its record, and is the only call with an allocator.
#![tactic(auto)]

mod looking;
mod playback;
mod put;
mod recovery;
mod segments;
mod stage;
mod writer;

pub use recovery::{RecoverError, Recovery, recover};
pub use segments::{Reading, play};
pub use stage::Stage;
pub use writer::JournalWriter;
