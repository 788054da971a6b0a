//! Loops over single crates, to be timed by the scripts of `bench/`.
//!
//! `bench_loops LOOP WORD..`: LOOP is `hash`, `cbc`, `page`, `pager`, `cache`, `record`, `cell`, `walk` or `load`, and its module says
//! what the words are. `bench_loops` runs each loop once as it is without words, in the folder `data`, behind its name.
#![tactic(auto)]

mod caching;
mod cells;
mod chains;
mod hashes;
mod loads;
mod pages;
mod paging;
mod records;
mod walks;
mod words;

use std::{env, io};

const LOOPS: [&str; 9] = [
    "hash", "cbc", "page", "pager", "cache", "record", "cell", "walk", "load",
];

fn run(rt: &HostRuntime, name: &str, words: &Vec<String>) -> io::Result<()> {
    match name {
        "hash" => hashes::run(rt, words),
        "cbc" => chains::run(rt, words),
        "page" => pages::run(rt, words),
        "pager" => paging::run(rt, words),
        "cache" => caching::run(rt, words),
        "record" => records::run(rt, words),
        "cell" => cells::run(rt, words),
        "walk" => walks::run(rt, words),
        "load" => loads::run(rt, words),
        _ => Err(io::ErrorKind::InvalidInput.into()),
    }
}

fn main(rt: HostRuntime) -> io::Result<()> {
    let words: Vec<String> = env::args(&rt)?.collect(rt.alloc())?;
    if let Some(name) = words.get(1) {
        return run(&rt, name.as_str(), &words);
    }
    for name in LOOPS {
        print!(rt; "{name}: ")?;
        run(&rt, name, &words)?;
    }
    Ok(())
}
