// What a census finds.

use crate::Schema;
use space_map::FreeMap;

/// What the whole of a database has.
#[derive(Drop)]
pub struct Census {
    /// How many trees there are, that of the schema among them.
    pub trees: u32,
    /// How many entries they have.
    pub entries: u64,
    /// How many pages the freelist has, trunks and leaves.
    pub free: u32,
    /// How many pages have no place.
    pub unused: u32,
    pub schema: Schema,
    pub leaves: FreeMap,
}
