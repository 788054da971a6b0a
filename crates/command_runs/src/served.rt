// A command on files in memory.
use edge_memory::{ImagePick, MemDisk, MemEntropy, MemSink, MemSource};
use edge_model::Role;
use sqlcipher_tool::{Status, run};
use std::alloc::{AllocError, Global};

pub const KEY: &[u8] = b"x'000102030405060708090a0b0c0d0e0f101112131415161718191a1b1c1d1e1f'\n";

pub const OTHER_KEY: &[u8] =
    b"x'ffffffffffffffffffffffffffffffffffffffffffffffffffffffffffffffff'\n";

/// More bytes than any run here draws.
pub const AMPLE: usize = 400_000;

/// What a run is given beside its files: its words, its key lines, how many zeros are there to be drawn.
#[derive(Clone, Copy)]
pub struct Given<'a> {
    pub words: &'a [&'a str],
    pub lines: &'a [&'a [u8]],
    pub drawn: usize,
}

/// What a command printed, and how it ended.
#[derive(Drop)]
pub struct Served {
    pub text: Vec<u8>,
    pub status: Status,
}

/// Runs a command on this disk.
pub fn serve(alloc: Global, given: &Given<'_>, disk: &mut MemDisk) -> Result<Served, AllocError> {
    serve_failing(alloc, given, 0, 0, disk)
}

// `run` without its clauses: a caller that has a loop and all of them takes minutes to prove, and no test here speaks of any.
fn answer(
    alloc: Global,
    words: &[&str],
    input: &mut MemSource,
    out: &mut MemSink,
    entropy: &mut MemEntropy,
    disk: &mut MemDisk,
) -> Status {
    run(alloc, words, input, out, entropy, disk)
}

/// Runs a command where this call of the input fails, and this one of the output, counted from 1. Where no byte is there to be drawn, the
/// first call of the entropy fails, so that a call for no bytes is seen too.
pub fn serve_failing(
    alloc: Global,
    given: &Given<'_>,
    take: u64,
    put: u64,
    disk: &mut MemDisk,
) -> Result<Served, AllocError> {
    let mut keys = Vec::new(alloc);
    for line in given.lines {
        keys.extend_from_slice(line)?;
    }
    let zeros = vec![in alloc; 0u8; given.drawn]?;
    let mut input = MemSource::new(alloc, keys.as_slice(), &[take]).map_err(|_| AllocError)?;
    let mut out = MemSink::new(alloc, &[put]).map_err(|_| AllocError)?;
    let draw = if given.drawn == 0 { 1 } else { 0 };
    let mut entropy = MemEntropy::new(alloc, zeros.as_slice(), &[draw]).map_err(|_| AllocError)?;
    let status = answer(alloc, given.words, &mut input, &mut out, &mut entropy, disk);
    Ok(Served {
        text: out.bytes().to_vec(alloc)?,
        status,
    })
}

/// Which of several commands did not end as it says, counted from 0, and what it printed.
#[derive(Debug, Drop)]
pub enum Differs {
    /// Its status is this.
    Status(usize, u8, Vec<u8>),
    /// Its text is another.
    Text(usize, Vec<u8>),
    /// Memory was wanted, or a call of the disk had none.
    OutOfMemory,
}

impl From<AllocError> for Differs {
    fn from(_: AllocError) -> Differs {
        Differs::OutOfMemory
    }
}

/// A command, its key lines, what it prints, where that is known, and its status.
pub type Step<'a> = (&'a [&'a str], &'a [&'a [u8]], Option<&'a str>, u8);

/// Runs these commands one after another on this disk, each of which ends as it says. So many zeros are there for each.
pub fn serve_all(
    alloc: Global,
    disk: &mut MemDisk,
    drawn: usize,
    steps: &[Step<'_>],
) -> Result<(), Differs> {
    for (number, (words, lines, says, code)) in steps.iter().enumerate() {
        let given = Given {
            words,
            lines,
            drawn,
        };
        let served = serve(alloc, &given, disk)?;
        let status = served.status.code();
        if status != *code {
            return Err(Differs::Status(number, status, served.text));
        }
        if let Some(text) = says {
            if served.text.as_slice() != text.as_bytes() {
                return Err(Differs::Text(number, served.text));
            }
        }
    }
    if disk.starved() == 0 {
        Ok(())
    } else {
        Err(Differs::OutOfMemory)
    }
}

/// What a command prints of this file.
pub fn told(alloc: Global, words: &[&str], key: &[u8], file: &[u8]) -> Result<Vec<u8>, AllocError> {
    let mut disk = disk_with(alloc, file)?;
    let given = Given {
        words,
        lines: &[key],
        drawn: 0,
    };
    Ok(serve(alloc, &given, &mut disk)?.text)
}

/// The file that `make` makes in a profile, with so many rows. Every salt that is drawn is of zeros.
pub fn made(alloc: Global, profile: &str, rows: &str) -> Result<Vec<u8>, AllocError> {
    let mut disk = MemDisk::new(alloc);
    let given = Given {
        words: &["make", profile, rows],
        lines: &[KEY],
        drawn: AMPLE,
    };
    serve(alloc, &given, &mut disk)?;
    file_in(alloc, &disk, Role::Main)
}

/// A copy of the file in the role, none where there is no file.
pub fn file_in(alloc: Global, disk: &MemDisk, role: Role) -> Result<Vec<u8>, AllocError> {
    match disk.bytes(role) {
        Some(bytes) => bytes.to_vec(alloc),
        None => Ok(Vec::new(alloc)),
    }
}

/// A disk whose Main is this file, and which has no other.
pub fn disk_with(alloc: Global, main: &[u8]) -> Result<MemDisk, AllocError> {
    MemDisk::with_files(alloc, Some(main), None, None).map_err(|_| AllocError)
}

const PICKS: [ImagePick; 3] = [ImagePick::Lost, ImagePick::Kept, ImagePick::Torn];

/// How many of the three images of the disk are recovered, as files of this profile, to the one file, and how many to the other.
pub fn recovered(
    alloc: Global,
    disk: &MemDisk,
    profile: &str,
    one: &[u8],
    other: &[u8],
) -> Result<(usize, usize), AllocError> {
    let given = Given {
        words: &["recover", profile],
        lines: &[],
        drawn: 0,
    };
    let mut ones = 0usize;
    let mut others = 0usize;
    for pick in PICKS {
        let mut image = disk.image(pick).map_err(|_| AllocError)?;
        let served = serve(alloc, &given, &mut image)?;
        if served.status == Status::Done && image.bytes(Role::Journal).is_none() {
            if image.bytes(Role::Main) == Some(one) {
                ones = ones.saturating_add(1);
            }
            if image.bytes(Role::Main) == Some(other) {
                others = others.saturating_add(1);
            }
        }
    }
    Ok((ones, others))
}
