// How a run has ended, for those who say what it leaves open.
use crate::asked::Asked;
use crate::log_signs::LogSigns;
use edge_files::{Conflict, Failure};
use schema_names::NearName;
use sqlcipher_tool::Status;

/// How a run has ended.
#[derive(Drop)]
pub struct Ended<'r, 'f> {
    pub status: Status,
    /// FILE, as it was given.
    pub path: &'r str,
    /// The words after FILE.
    pub asked: Asked<'r>,
    /// What failed, at status 4 to 7.
    pub failure: Option<Failure<'f>>,
    /// The names that are near that of `find`, where there is no table of it.
    pub near: Vec<NearName>,
    /// What was seen of the log.
    pub signs: LogSigns,
}

impl<'r, 'f> Ended<'r, 'f> {
    /// Somebody else at the files, where that is what failed.
    pub fn conflict(&self) -> Option<Conflict> {
        self.failure?.conflict()
    }

    /// The version that the words give of the file; 4 where they give none.
    pub fn version(&self) -> &'r str {
        self.asked.version()
    }
}
