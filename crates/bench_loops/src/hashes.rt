// Messages of 4,096 bytes are hashed, one after another and all at once: four by SHA-512 and eight by SHA-1.
//
// `hash`: whether both ways give the same digests. `hash TIMES`: also, in a line for each hash, the least time that each way
// took, in nanoseconds, over so many tries that alternate.
use crate::words::number;
use hash_lanes::{sha1_of_eight, sha512_of_four};
use sha1::Sha1;
use sha2::{Digest, Sha512};
use std::io;
use std::time::Instant;

const LENGTH: usize = 4096;

const TEXT: usize = 32768;

fn four_after_another(text: &[u8; TEXT]) -> [u8; 256] {
    let mut out = [0u8; 256];
    for i in 0..4usize {
        let mut hasher = Sha512::new();
        hasher.update(&text[LENGTH * i..LENGTH * i + LENGTH]);
        out[64 * i..64 * i + 64].copy_from_slice(&hasher.finalize());
    }
    out
}

fn eight_after_another(text: &[u8; TEXT]) -> [u8; 160] {
    let mut out = [0u8; 160];
    for i in 0..8usize {
        let digest = Sha1::digest(&text[LENGTH * i..LENGTH * i + LENGTH]);
        out[20 * i..20 * i + 20].copy_from_slice(&digest);
    }
    out
}

/// Runs the loop by its words, and prints what it says.
pub fn run(rt: &HostRuntime, words: &Vec<String>) -> io::Result<()> {
    let times = number(words, 2, 1);
    let mut text = [0u8; TEXT];
    for i in 0..TEXT {
        text[i] = (i % 251) as u8;
    }
    let mut same = true;
    let mut least = [u128::MAX; 4];
    for _ in 0..times {
        let begun = Instant::now(rt)?;
        let first = four_after_another(&text);
        least[0] = least[0].min(begun.elapsed(rt)?.as_nanos());
        let begun = Instant::now(rt)?;
        let second = sha512_of_four(&text, LENGTH, LENGTH);
        least[1] = least[1].min(begun.elapsed(rt)?.as_nanos());
        same = same && first == second;
        let begun = Instant::now(rt)?;
        let third = eight_after_another(&text);
        least[2] = least[2].min(begun.elapsed(rt)?.as_nanos());
        let begun = Instant::now(rt)?;
        let fourth = sha1_of_eight(&text, LENGTH, LENGTH);
        least[3] = least[3].min(begun.elapsed(rt)?.as_nanos());
        same = same && third == fourth;
        text[0] = first[0];
    }
    println!(rt; "{same}")?;
    if times > 1 {
        println!(rt; "{} {}", least[0], least[1])?;
        println!(rt; "{} {}", least[2], least[3])?;
    }
    Ok(())
}
