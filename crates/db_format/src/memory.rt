// Want of memory.

/// There was no memory for a call.
#[derive(Clone, Copy, Debug, PartialEq, Eq)]
pub struct OutOfMemory;
