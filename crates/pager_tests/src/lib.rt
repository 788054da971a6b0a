//! Tests of the pager, by its public calls: pages that are lent or refused, and transactions that are ended, taken back or stopped.
#![tactic(auto)]

#[cfg(test)]
mod ahead;
#[cfg(test)]
mod reading;
#[cfg(test)]
mod sealed_file;
#[cfg(test)]
mod spills;
