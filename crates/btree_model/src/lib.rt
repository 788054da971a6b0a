//! The structure of a database as definitions: what a walk of its freelist, of a tree and of the whole file meets, what is
//! wrong with it, and what it holds. There is no code: the definitions are in `specs/`, the lemmas in `proofs/`.
//!
//! Section numbers are those of SQLite's "Database File Format".
#![tactic(auto)]
