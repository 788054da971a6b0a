//! Tests of the calls of a system in memory, and of the disk that its files are, by their public calls: what POSIX says of names and open
//! files, and that the disk answers as the one in memory does, with each call failing in turn.
#![tactic(auto)]

#[cfg(test)]
mod alike;
#[cfg(test)]
mod posix;
#[cfg(test)]
mod stuck;
