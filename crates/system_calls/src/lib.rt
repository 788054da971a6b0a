//! The calls of the system that the files of a folder and the streams need, each one call, and what is asked of them. Over any such calls
//! three files are proved to be a disk, where nobody else acts; reads and writes of a stream are made again until they are done.
#![tactic(auto)]

mod calls;
mod found;
mod open_files;
mod read_ahead;
mod retries;
mod stream_calls;
mod transfer;

pub use calls::Calls;
pub use found::{Fault, Found, Identity, Mark, Place};
pub use open_files::OpenFiles;
pub use read_ahead::ReadAhead;
pub use retries::{read_some, read_whole, write_some};
pub use stream_calls::{DeviceCalls, InputCalls, OutputCalls};
pub use transfer::read_full;
