//! Forms of the outside in memory, for tests: a disk that keeps what a crash may leave, a source, a sink and an entropy. Each
//! fails where it is made to, and counts its calls. Beside each stands a silent form over it, which tells nothing of its bytes.
#![tactic(auto)]

mod gate;
mod mem_disk;
mod mem_entropy;
mod mem_sink;
mod mem_source;
mod pick;
mod silent_disk;
mod silent_entropy;
mod silent_sink;
mod silent_source;
mod supply;

pub use gate::{Gate, Refusal};
pub use mem_disk::{MemDisk, write_file};
pub use mem_entropy::MemEntropy;
pub use mem_sink::MemSink;
pub use mem_source::MemSource;
pub use pick::ImagePick;
pub use silent_disk::SilentDisk;
pub use silent_entropy::SilentEntropy;
pub use silent_sink::SilentSink;
pub use silent_source::SilentSource;
