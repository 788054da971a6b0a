//! The top call: what the program does with its words, its input and the files.
#![tactic(auto)]

mod agree;
mod change;
mod command;
mod complete;
mod conclusion;
mod export;
mod find;
mod first_page;
mod header;
mod in_use;
mod laws;
mod make;
mod maps;
mod migrate;
mod mute;
mod names;
mod no_entropy;
mod opening;
mod play;
mod probe;
mod reading;
mod recovery;
mod rekey;
mod salvage;
mod seams;
mod secrets;
mod settle;
mod settling;
mod stamp;
mod status;
mod tags;
mod text;
mod top;
mod verify;
mod walked;
mod with_log;

pub use complete::{
    complete_law, key_lines_law, made_migrates_law, made_servable_law, nothing_servable_law,
};
pub use laws::{
    agree_done_law, agree_law, agree_run_law, export_done_law, export_opens_law, export_run_law,
    find_done_law, made_clean_law, migrate_done_law, migrate_fits_law, migrate_opens_law,
    migrate_source_law, opens_law, rekey_clean_law, rekey_done_law, rekey_opens_law,
    unread_leaves_law, verify_clean_law, verify_done_law, verify_run_law,
};
pub use names::near_names;
pub use opening::Stop;
pub use seams::{read_alike_law, seams_law, settle_done_law, settle_law, settled_clean_law};
pub use secrets::Secrets;
pub use settling::{
    check_to_settle, key_to_settle, lay_log, profile_to_settle, recover_to_settle,
    refuse_other_log, settle_marks,
};
pub use status::{Refusal, Status};
pub use top::run;
pub use with_log::{MOST_PAGES, conclude_view, profile_with_log};
