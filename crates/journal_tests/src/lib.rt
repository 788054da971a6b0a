//! Tests of the disk, of the journal and of transactions, by their public calls: each stop, each call that fails, and what recovery finds then.
#![tactic(auto)]

#[cfg(test)]
mod batches;
#[cfg(test)]
mod crashes;
#[cfg(test)]
mod files;
#[cfg(test)]
mod layout;
#[cfg(test)]
mod new_file;
#[cfg(test)]
mod recovery;
