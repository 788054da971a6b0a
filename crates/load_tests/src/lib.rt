//! Trees that are loaded, which are tests alone: one, two and three levels, each size of page and each limit, walked by a cursor, and
//! the bytes of made databases.
#![tactic(auto)]

#[cfg(test)]
mod levels;
#[cfg(test)]
mod loading;
#[cfg(test)]
mod made_databases;
#[cfg(test)]
mod reading;
#[cfg(test)]
mod tree_pages;
