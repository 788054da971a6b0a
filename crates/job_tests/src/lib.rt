//! Jobs on files in memory, which are tests alone: a new file, a made database, a rekey, a migration, an export and a salvage,
//! with their stops.
#![tactic(auto)]

#[cfg(test)]
mod exporting;
#[cfg(test)]
mod making;
#[cfg(test)]
mod migrating;
#[cfg(test)]
mod new_file;
#[cfg(test)]
mod rekeying;
#[cfg(test)]
mod salvaging;
#[cfg(test)]
mod sealed;
#[cfg(test)]
mod short_read;
