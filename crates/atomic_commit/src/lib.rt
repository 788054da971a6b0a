//! Changes of pages of a database, so that a stop at any moment leaves all of them or none: SQLite's "Atomic Commit In
//! SQLite".
//!
//! A database is the list of its stored pages, and all here is of stored bytes: no codec is named. An image of the disk holds
//! a database where recovery leads from it to a file with exactly these pages, and to no other (`HoldsOnly`). From the making
//! of the journal to its closing a transaction keeps the facts (`Facts`): from these each image holds the old database alone.
//!
//! The rules of a transaction, each with the clause that carries it.
//!
//! 1. The journal is made before anything else is written (`start: facts, none`).
//! 2. Before a page is changed for the first time, the stored bytes that it had at the start stand in a record; no page has
//!    two (`keep_old: fresh, one_more`).
//!    A record may come long before that change, with those of other pages behind one gate, and a page with a record need never be
//!    changed: laying it back writes what is there (`guard_ahead: batches, marks`).
//! 3. A page of Main is written only where its record stands behind an open gate. Whatever becomes of that write, the facts
//!    stand (`write_page: behind_gate, facts`).
//! 4. Changed pages may be written before the commit, in batches under the same rule: the pages of a batch that have no record get
//!    theirs in one segment of the journal. A batch leaves its own pages sealed, and every other page as it was
//!    (`write_batch: written, batches`).
//! 5. Main is synced before the journal is closed (`close: settled`, which is its condition).
//! 6. At every moment before the journal is closed each image holds the old database alone (`any_moment` of each step); while
//!    it is closed, the old one or the new one; after Ok the new one alone, and no journal (`finish: any_moment, new`).
//! 7. A commit leaves the changed pages sealed, and every other page as it was (`end_batches: changed`). Where the entropy fails,
//!    each image holds the old database alone (`end_batches: only_old`).
//! 8. What was written is taken back from the journal: each image then holds the old database, and no journal
//!    (`abandon: old, any_moment`; `undo_batches: old`).
//! 9. Fresh is left alone (`fresh` of each step).
//! 10. No call but `PageMarks::new` takes memory: none has an allocator.
//!
//! What a pager keeps beside its frames stands here too: which pages are marked, with their count (`PageMarks`); that the marked
//! pages are those that have a record, which gives room and freshness of the next one (`keep_marked`, with `AreRecorded`); and that
//! each page is sealed with bytes of its own (`OwnDraws`).
#![tactic(auto)]

mod ahead;
mod batches;
mod changes;
mod committing;
mod guarding;
mod journal;
mod marks;
mod recording;
mod steps;
mod writer;

pub use ahead::{PageRun, guard_ahead};
pub use batches::{end_batches, undo_batches, write_batch};
pub use changes::{Changes, DrawFailed, PageNumbers};
pub use committing::CommitFault;
pub use guarding::guard_batch;
pub use marks::{PageMarks, mark_pages};
pub use recording::keep_marked;
pub use rollback_journal::Stage;
pub use steps::{abandon, close, finish, keep_old, next, open, read_page, start, write_page};
pub use writer::RecordWriter;
