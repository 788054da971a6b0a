//! Sessions that share one encrypted file, step by step, under SQLite's lock states.
//!
//! The rules, each with the clause that carries it.
//!
//! 1. The answers are a run of a machine of plain records (`specs/Machine.antt`), a line of which is a row of the table of locks
//!    (`Hall::step: told`; `run_more_law` joins steps).
//! 2. A session sees its own changes over the committed pages, and no other's changes. From its share to its release it sees one committed
//!    state (`told`; `shared_file_stays_law`).
//! 3. Between two steps each image has Main and Journal as they read, and no journal beside a Main with a byte (`kept`).
//! 4. A step writes nothing but in a commit, and then each image has the pages from before it or those of one file that it makes
//!    (`any_moment`). Where the bytes cannot be had, it has those from before alone (`only_old`). Fresh stays (`fresh`).
//! 5. A commit alone draws, and seals each page with drawn bytes of its own (`drawn`). In a hall of plain files nothing is drawn (`undrawn`).
//! 6. After a fault of the disk or the entropy the hall is down, and answers nothing more (`down, falls`). A fault is answered only where
//!    the count of that object rose (`disk_fault, entropy_fault`).
//! 7. All memory of the seats is taken before the disk is touched (`Seats::new`); a hall begins with what is recovered of the files
//!    (`Hall::open: recovered, idle, any_moment`).
#![tactic(auto)]

mod commit;
mod hall;
mod key;
mod laws;
mod lock;
mod no_draws;
mod opened;
mod opening;
mod others;
mod plain_page;
mod reading;
mod session;
mod step;
mod writing;

pub use hall::Hall;
pub use laws::{run_more_law, shared_file_stays_law};
pub use lock::Lock;
pub use opened::Seats;
pub use step::{Answer, Step};
