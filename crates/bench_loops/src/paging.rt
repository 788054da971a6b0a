// Pages are read, or changed, through a pager.
//
// `pager FILE P scan TIMES`: every page of FILE, which is of profile P, so many times in order, each read from the file and
// opened. `pager FILE P held TIMES`: so many pages that are held, in order. `pager FILE P change COUNT`: so many of the
// first pages are changed in one transaction, with the journal in the folder where the program runs. The key is the raw key of the
// bytes 0 to 31. It prints how many pages were lent, or changed. Without words the pages of a small file are read once.
mod changed_file;
mod changing;
mod read_file;

use self::changed_file::ChangedFile;
use self::changing::change;
use self::read_file::ReadFile;
use crate::words::{number, word_at};
use cipher_profile::Secret;
use edge_memory::{MemEntropy, SilentEntropy};
use edge_model::{Disk, Entropy};
use page_codec::Codec;
use pager::{PageSource, Pager, codec_of, served_length};
use profile_word::profile_of;
use std::fs::{File, OpenOptions};
use std::io;

const FRAMES: u32 = 64;

// The codec of the file under the key of the bytes 0 to 31.
fn codec_for<D: Disk>(file: &mut D, word: &str) -> Option<Codec> {
    let profile = profile_of(word)?;
    let mut key = [0u8; 32];
    for i in 0..32 {
        key[i] = i as u8;
    }
    served_length(file, &profile).ok()?;
    let (codec, fits) = codec_of(file, profile, &Secret::Raw(key)).ok()?;
    if fits { Some(codec) } else { None }
}

// How many of the first pages are lent, so many times in order.
fn lend<E: Entropy>(pager: &mut Pager<'_, ReadFile, E>, count: u32, times: u64) -> u64 {
    let mut lent = 0u64;
    for _ in 0..times {
        for n in 0..count {
            if pager.load(n.wrapping_add(1)).is_ok() && !pager.loaded().is_empty() {
                lent = lent.wrapping_add(1);
            }
        }
    }
    lent
}

fn read_pages(rt: &HostRuntime, words: &Vec<String>) -> io::Result<u64> {
    let path = word_at(words, 2, "sealed.db");
    let profile = word_at(words, 3, "3");
    let what = word_at(words, 4, "scan");
    let times = number(words, 5, 1);
    if what == "change" {
        let journal = format!(in rt.alloc(); "{path}-journal")?;
        let count = times.min(1_000_000) as u32;
        return change_file(rt, path, profile, journal.as_str(), count);
    }
    let mut file = ReadFile::new(File::open(rt, path)?);
    let Some(codec) = codec_for(&mut file, profile) else {
        return Err(io::ErrorKind::InvalidData.into());
    };
    let Ok(mut entropy) = MemEntropy::new(rt.alloc(), &[], &[]) else {
        return Err(io::ErrorKind::OutOfMemory.into());
    };
    let Ok(mut pager) = Pager::open(rt.alloc(), &mut file, &mut entropy, codec, FRAMES) else {
        return Err(io::ErrorKind::InvalidData.into());
    };
    let pages = pager.pages();
    let count = if what == "held" {
        pages.min(FRAMES)
    } else {
        pages
    };
    Ok(lend(&mut pager, count, times))
}

// The most bytes that a page is sealed with.
const RESERVE: usize = 80;

fn change_file(
    rt: &HostRuntime,
    path: &str,
    profile: &str,
    journal: &str,
    count: u32,
) -> io::Result<u64> {
    let opened = OpenOptions::new().read(true).write(true).open(rt, path)?;
    let mut file = ChangedFile::new(rt, opened, journal);
    let (Some(read), Some(write)) = (codec_for(&mut file, profile), codec_for(&mut file, profile))
    else {
        return Err(io::ErrorKind::InvalidData.into());
    };
    let drawn = vec![in rt.alloc(); 7u8; count as usize * RESERVE]?;
    let Ok(inner) = MemEntropy::new(rt.alloc(), &drawn, &[]) else {
        return Err(io::ErrorKind::OutOfMemory.into());
    };
    let mut entropy = SilentEntropy { inner };
    let Ok(pager) = Pager::open(rt.alloc(), &mut file, &mut entropy, read, FRAMES) else {
        return Err(io::ErrorKind::InvalidData.into());
    };
    Ok(u64::from(change(rt.alloc(), pager, write, count)))
}

/// Runs the loop by its words, and prints what it says.
pub fn run(rt: &HostRuntime, words: &Vec<String>) -> io::Result<()> {
    let lent = read_pages(rt, words)?;
    println!(rt; "{lent}")
}
