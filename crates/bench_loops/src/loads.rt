// A tree is loaded into memory again and again.
//
// `load FAMILY PAGE ENTRIES TEXT TIMES`: a tree of so many entries, on pages of so many bytes without a reserve, is loaded
// and walked to its end, and then loaded so many times again, with room for its pages alone. FAMILY is `table` or `index`. An
// entry is the record of a number, from 100,000,000 on, and of a text of so many bytes that has the same number; in an index the text
// is first. Without words a small table is loaded. Prints how many entries the walk gave, how many bytes they have, and on how many pages.
mod entries;
mod loading;
mod reading;

ghost use Rattle.std.specs.Prelude.{◌≡◌, ◌≤◌};
ghost use Rattle.db_format.specs.Pages.{IsUsable};

use self::loading::{Tree, load};
use self::reading::read_back;
use crate::words::{number, word_at};
use btree_page::Family;
use std::alloc::Global;
use std::io;

// The tree that these words name.
fn tree_of(words: &Vec<String>) -> Tree {
    Tree {
        family: if word_at(words, 2, "table") == "index" {
            Family::Index
        } else {
            Family::Table
        },
        usable: number(words, 3, 1_024).max(480).min(65_536) as usize,
        entries: number(words, 4, 1_000).min(1 << 31) as u32,
        text: number(words, 5, 13).min(1 << 20) as usize,
    }
}

// More pages than a tree takes.
fn most_pages(tree: &Tree) -> u32
    ensures { 1 ≤ result }
{
    let bytes = (tree.entries as u64).saturating_mul((tree.text as u64).saturating_add(50));
    let pages = bytes / (tree.usable as u64 / 3);
    pages.saturating_add(100).min(1 << 31) as u32
}

// Loads and walks the tree, and loads it so many times again.
fn load_times(alloc: Global, tree: &Tree, times: u64) -> Option<(u64, u64, u32)> {
    let (out, root) = load(alloc, tree, most_pages(tree))?;
    let plain = out.plain();
    let pages = (plain.len() / tree.usable).min(1 << 31) as u32;
    let (entries, bytes) = read_back(alloc, tree.usable, plain, root)?;
    for _ in 0..times {
        let (_, again) = load(alloc, tree, pages.max(1))?;
        if again != root {
            return None;
        }
    }
    Some((entries, bytes, pages))
}

/// Runs the loop by its words, and prints what it says.
pub fn run(rt: &HostRuntime, words: &Vec<String>) -> io::Result<()> {
    let tree = tree_of(words);
    match load_times(rt.alloc(), &tree, number(words, 6, 1)) {
        Some((entries, bytes, pages)) => println!(rt; "{entries} {bytes} {pages}"),
        None => Err(io::ErrorKind::InvalidData.into()),
    }
}
