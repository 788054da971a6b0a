//! The outside as the system has it: the three files of a folder, the standard streams and the system's random bytes, and who else
//! is at the files. The traits are those of `edge_model`. The files are a disk, and the streams and the random bytes are what their traits say,
//! over any calls that meet `system_calls`; the calls of the system that runs this program (`host_calls`, `host_streams`) tell nothing.
#![tactic(auto)]

mod attending;
mod behind;
mod beside;
mod deeds;
mod ending;
mod failure;
mod folder;
mod folder_disk;
mod guards;
mod held_lock;
mod host_calls;
mod host_streams;
mod input_end;
mod key_line;
mod line_input;
mod line_output;
mod lock_table;
mod paths;
mod plain_head;
mod progress;
mod prompt;
mod purpose;
mod random_bytes;
mod role_file;
mod stand_ins;
mod standard_error;
mod undo;

pub use behind::Behind;
pub use deeds::Deeds;
pub use failure::{Conflict, Failure, Shown, failed};
pub use folder::Folder;
pub use folder_disk::{FolderDisk, HostDisk};
pub use host_calls::HostCalls;
pub use host_streams::{HostDevice, HostInput, HostOutput};
pub use key_line::{KeptLine, KeyLine};
pub use line_input::{InputSource, LineInput};
pub use line_output::{LineOutput, OutputSink};
pub use paths::Paths;
pub use plain_head::PlainHead;
pub use progress::Progress;
pub use prompt::Prompt;
pub use purpose::Purpose;
pub use random_bytes::{DeviceEntropy, RandomBytes};
pub use role_file::LEAST_PAGE;
pub use stand_ins::StandIns;
pub use standard_error::say;
