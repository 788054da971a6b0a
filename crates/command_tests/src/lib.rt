//! Runs of the commands that read a file, over files in memory, which are tests alone: the rows of each command, and the lines that it
//! prints.
#![tactic(auto)]

#[cfg(test)]
mod agrees;
#[cfg(test)]
mod exports;
#[cfg(test)]
mod finds;
#[cfg(test)]
mod key_lines;
#[cfg(test)]
mod lines;
#[cfg(test)]
mod moved_pages;
#[cfg(test)]
mod near_names;
#[cfg(test)]
mod rows;
#[cfg(test)]
mod salvages;
#[cfg(test)]
mod tagged;
