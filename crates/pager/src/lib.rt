//! Plain pages of an encrypted database, lent out of a fixed number of frames, and transactions that change them.
//!
//! The rules of a transaction, each with the clause that carries it.
//!
//! 1. All memory is taken by `begin`, which calls neither the disk nor the entropy (`begin: disk, entropy`). No later call
//!    has an allocator, and no more changed pages stand in memory than there are frames (`few`).
//! 2. A page is seen out of its frame, else out of Main under the codec under which it stands there: that for writing once it was written,
//!    that for reading before (`load: told`, over `seen_pages`). A number out of range is always refused (`load: out_of_range`, and of each
//!    call).
//! 3. A call changes one page of what is seen (`write: changed, touched`, `page_zero: zeros, touched`). While a frame is free, nothing is
//!    written and nothing drawn (`write: unwritten`, `page_zero: unwritten`).
//! 4. Where a frame is wanted and none is free, all changed pages are written as one batch: each that has no record gets one, all behind
//!    one gate, and each is sealed with bytes of its own that are drawn then. Whatever becomes of it, each image has the old database
//!    (`write: any_moment`, `page_zero: any_moment`).
//! 5. A page that was written is accepted, is sealed with a draw of its own since the beginning, and has its record; every other page has
//!    its stored bytes of the start (`under_way` of each call).
//! 6. The end draws for the pages that are still in frames, writes them and commits. A stop at any moment leaves the old pages or the new
//!    ones, which are one and the same at every moment; where the bytes cannot be had, the old ones alone. After Ok each image has the new
//!    ones alone, and no journal (`end: any_moment, one_new, only_old, new, changed`).
//! 7. An abandon takes back what was written (`abandon: old, any_moment`). No call follows one that answered a fault, unless it is
//!    `into_parts`.
#![tactic(auto)]

mod ahead;
mod beginning;
mod changed;
mod children;
mod ending;
mod file;
mod fill;
mod main_file;
mod opening;
mod pager;
mod sealing;
mod side;
mod source;
mod spilled;
mod txn;
mod window;

pub use ahead::read_ahead;
pub use atomic_commit::CommitFault;
pub use beginning::{BeginError, is_same_layout};
pub use changed::ChangedPages;
pub use db_format::PageSource;
pub use file::OpenedFile;
pub use fill::PageError;
pub use main_file::{MAX_PAGE, file_length, read_main, read_page};
pub use opening::{OpenError, codec_of, served_length};
pub use pager::Pager;
pub use txn::Txn;
pub use window::{Wanted, Window, window_bytes};
