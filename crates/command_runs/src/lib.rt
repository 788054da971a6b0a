//! For tests of the commands: a command run over files in memory, and files of pages that are laid by hand.
#![tactic(auto)]

pub mod pages;
pub mod served;
