//! Runs of the commands that change or make a file, over files in memory, which are tests alone: several commands on one file, where what
//! one command leaves is looked at with the others; scripts; what a stop and a failed call leave; and the adapters over a real folder.
#![tactic(auto)]

#[cfg(test)]
mod plain_files;
#[cfg(test)]
mod plays;
#[cfg(test)]
mod real_folder;
#[cfg(test)]
mod renewal;
#[cfg(test)]
mod scripts;
#[cfg(test)]
mod sizes;
#[cfg(test)]
mod stops;
