//! Pairs of a file and its log, read through the log and then laid: pairs that the product left at several ages, and hostile ones by hand.
//!
//! `data/cases` lists them. What is to be said of each stands in `stdout`, which `tests/reference/oracle/log_model.py` writes from the
//! format alone; it compares the product's pairs with what the product itself leaves, byte for byte. `log_tests FOLDER` reads
//! the list and the pairs of another folder.
#![tactic(auto)]

mod case;
mod digest;
mod shrinking;
mod stops;
mod told;

use self::case::{Case, case_of};
use self::shrinking::show_shrinking;
use self::stops::show_stops;
use self::told::show;
use std::alloc::Global;
use std::{env, fs, io};

fn main(rt: HostRuntime) -> io::Result<()> {
    let words: Vec<String> = env::args(&rt)?.collect(rt.alloc())?;
    match words.get(1) {
        Some(folder) => run_all(&rt, folder.as_str()),
        None => run_all(&rt, "."),
    }
}

/// Each case of the folder's list.
fn run_all(rt: &HostRuntime, folder: &str) -> io::Result<()> {
    let list = fs::read_to_string(rt, format!(in rt.alloc(); "{folder}/cases")?.as_str())?;
    for line in list.as_str().lines() {
        let Some(case) = case_of(line) else {
            return Err(io::ErrorKind::InvalidData.into());
        };
        let path = format!(in rt.alloc(); "{folder}/{}", case.name)?;
        let main = fs::read(rt, format!(in rt.alloc(); "{path}.db")?.as_str())?;
        let log = fs::read(rt, format!(in rt.alloc(); "{path}.wal")?.as_str())?;
        run(rt, &case, main.as_slice(), log.as_slice())?;
    }
    Ok(())
}

/// The lines of a case.
fn run(rt: &HostRuntime, case: &Case<'_>, main: &[u8], log: &[u8]) -> io::Result<()> {
    let name = case.name;
    let size = case.size;
    match case.kind {
        "whole" => {
            print!(rt; "{name}: ")?;
            show(rt, size, Some(main), Some(log))
        }
        "alone" => {
            print!(rt; "{name}, no log: ")?;
            show(rt, size, Some(main), None)
        }
        "lost" => {
            print!(rt; "{name}, no Main: ")?;
            show(rt, size, None, Some(log))
        }
        "shorter" => {
            let main = main.get(..case.first).unwrap_or(main);
            print!(rt; "{name}, Main cut to {}: ", case.first)?;
            show(rt, size, Some(main), Some(log))
        }
        "flips" => show_turned(rt, case, main, log),
        "cuts" => show_cut(rt, case, main, log),
        "stops" => show_stops(rt, case, main, log),
        "shrinks" => show_shrinking(rt, case, main, log),
        _ => Err(io::ErrorKind::InvalidData.into()),
    }
}

/// The log with this byte turned.
fn turned(alloc: Global, log: &[u8], at: usize) -> io::Result<Vec<u8>> {
    let mut changed = log.to_vec(alloc)?;
    if at < changed.len() {
        changed[at] ^= 1;
    }
    Ok(changed)
}

// Each byte of a part of the log is turned.
fn show_turned(rt: &HostRuntime, case: &Case<'_>, main: &[u8], log: &[u8]) -> io::Result<()> {
    for at in case.first..case.second {
        let changed = turned(rt.alloc(), log, at)?;
        print!(rt; "{}, byte {at} turned: ", case.name)?;
        show(rt, case.size, Some(main), Some(changed.as_slice()))?;
    }
    Ok(())
}

// The log ends at each of so many lengths.
fn show_cut(rt: &HostRuntime, case: &Case<'_>, main: &[u8], log: &[u8]) -> io::Result<()> {
    let step = case.first.max(1);
    for k in 0..log.len() / step + 1 {
        let end = k.saturating_mul(step);
        print!(rt; "{}, cut to {end}: ", case.name)?;
        show(
            rt,
            case.size,
            Some(main),
            Some(log.get(..end).unwrap_or(log)),
        )?;
    }
    Ok(())
}
