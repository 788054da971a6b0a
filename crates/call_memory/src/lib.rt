//! The calls of a system on three files of a folder, in memory, for tests: they keep what a stop of the machine may leave, and
//! fail where they are made to.
#![tactic(auto)]

mod done;
mod folder;
mod mem_calls;
mod store;

pub use mem_calls::MemCalls;
