//! The pointer-map pages of a database with auto-vacuum, and how they become pages of the freelist.
//!
//! Map pages hold nothing that is part of a database: each says of the pages behind it which page names them, so that SQLite can move
//! them. Where they are on the freelist, and page 1 no longer says that the database has them, it is one without auto-vacuum. Section
//! numbers are those of SQLite's "Database File Format".
#![tactic(auto)]

mod beside;
mod census;
mod laws;
mod maps;
mod trunk;

pub use beside::{BesideMaps, MapRefusal};
pub use census::census_beside;
pub use laws::settled_law;
pub use maps::{is_map_page, map_count, map_number};
pub use trunk::{first_trunk, is_new_trunk, trunk_head};
