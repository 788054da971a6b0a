// What a log shows of which the output says nothing: the salt of an encrypted file, by which a log of another file may be told, no commit, and frames
// behind the last one.
use edge_model::{Disk, Failed, Role};

/// The length of a log's header, in bytes.
const HEADER: u64 = 32;

/// Where a log's header has its salts, in bytes.
const SALTS_OF_HEADER: u64 = 16;

/// Where a frame has them.
const SALTS_OF_FRAME: u64 = 8;

/// What was seen of a log.
#[derive(Clone, Copy)]
pub struct LogSigns {
    /// Whether page 1 is the log's, and has another salt than the file.
    pub has_other_salt: bool,
    /// Whether it had bytes and no commit that holds, and was removed.
    pub was_dead: bool,
    /// How many of its own frames stood behind its last commit, and were not laid.
    pub unlaid: u64,
    /// Whether it ended within one of its own frames.
    pub was_cut: bool,
}

impl LogSigns {
    /// Nothing that is to be said.
    pub fn none() -> LogSigns {
        LogSigns {
            has_other_salt: false,
            was_dead: false,
            unlaid: 0,
            was_cut: false,
        }
    }
}

/// The frames that a log has of its own: they repeat the salts of its header. Those that stood there before it was begun anew have other ones, and
/// are of no more use.
#[derive(Clone, Copy)]
pub struct OwnFrames {
    /// How many are whole.
    pub whole: u64,
    /// Whether a part of one is at the end.
    pub has_part: bool,
}

/// The frames that the log, which has the role Journal, has of its own. Its pages have so many bytes.
pub fn own_frames<D: Disk>(disk: &mut D, page_size: u32) -> Result<OwnFrames, Failed> {
    let length = disk.length(Role::Journal)?.unwrap_or(0);
    let mut own = OwnFrames {
        whole: 0,
        has_part: false,
    };
    if length <= HEADER {
        return Ok(own);
    }
    let salts = salts_at(disk, SALTS_OF_HEADER)?;
    let frame = u64::from(page_size) + 24;
    let frames = (length - HEADER) / frame;
    for k in 0..frames {
        if salts_at(disk, salts_of(k, frame))? == salts {
            own.whole = own.whole.saturating_add(1);
        }
    }
    if (length - HEADER) % frame > 0 {
        let found = salts_at(disk, salts_of(frames, frame))?;
        // Where the part ends before its salts it is of the same age as the frame before it.
        own.has_part = found == salts || found.is_none() && own.whole == frames;
    }
    Ok(own)
}

// Where the frame with this number has its salts, in bytes. Frames are numbered from 0.
fn salts_of(k: u64, frame: u64) -> u64 {
    k.saturating_mul(frame)
        .saturating_add(HEADER + SALTS_OF_FRAME)
}

// The two salts that stand there, where the log has them.
fn salts_at<D: Disk>(disk: &mut D, at: u64) -> Result<Option<[u8; 8]>, Failed> {
    let mut salts = [0u8; 8];
    match disk.read_at(Role::Journal, at, &mut salts)? {
        8 => Ok(Some(salts)),
        _ => Ok(None),
    }
}

/// The first 16 bytes of Main, which are the salt of an encrypted file, where it has them.
pub fn salt_of<D: Disk>(disk: &mut D) -> Option<[u8; 16]> {
    let mut salt = [0u8; 16];
    match disk.read_at(Role::Main, 0, &mut salt) {
        Ok(16) => Some(salt),
        _ => None,
    }
}

/// Whether there are two, and they are not the same.
pub fn differ(first: Option<[u8; 16]>, second: Option<[u8; 16]>) -> bool {
    match (first, second) {
        (Some(first), Some(second)) => first.as_slice() != second.as_slice(),
        _ => false,
    }
}
