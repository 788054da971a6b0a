// The cells of one full leaf page are read again and again.
//
// `cell test BYTES TIMES`: a leaf of a table with rows of 20 bytes, of this usable size (480 to 65,536), is tested
// whole so many times. `cell cells BYTES TIMES`: it is tested once, and each time every cell is read. `cell
// steps BYTES TIMES`: each time every step is read by itself. Prints the count of cells, and a sum that rests on all.
ghost use Rattle.std.specs.Prelude.{◌≡◌, ◌≤◌, ◌<◌, length};
ghost use Rattle.db_format.specs.Pages.{IsUsable};

use crate::words::{number, word_at};
use btree_page::{Cell, PageView, Step, read_step};
use std::io;

const MOST: usize = 65_536;

// Makes the page a leaf of a table that is full of rows of 20 bytes.
fn fill(page: &mut [u8])
    requires { IsUsable (length page.old) }
    ensures { length page.new ≡ length page.old }
{
    let end = page.len();
    let count = (end - 8) / 25;
    page[0] = 13;
    page[3] = (count / 256) as u8;
    page[4] = (count % 256) as u8;
    for index in 0..count {
        let at = end - 23 * (index + 1);
        page[8 + 2 * index] = (at / 256) as u8;
        page[9 + 2 * index] = (at % 256) as u8;
        page[at] = 20;
        page[at + 1] = (128 + index / 128) as u8;
        page[at + 2] = (index % 128) as u8;
    }
}

// What a cell or a step of this length and these local bytes adds to the sum.
fn weight(length: u64, local: &[u8]) -> u64 {
    length.wrapping_add(local.len() as u64)
}

fn test(page: &[u8], times: u64) -> u64
    requires { IsUsable (length page.now) }
{
    let mut sum = 0u64;
    for _ in 0..times {
        if let Ok(view) = PageView::read(page, 2) {
            sum = sum.wrapping_add(view.count() as u64);
        }
    }
    sum
}

fn cells(page: &[u8], times: u64) -> u64
    requires { IsUsable (length page.now) }
{
    let mut sum = 0u64;
    if let Ok(view) = PageView::read(page, 2) {
        for _ in 0..times {
            for index in 0..view.count() {
                if let Cell::TableLeaf { length, local, .. } = view.cell(index) {
                    sum = sum.wrapping_add(weight(length, local));
                }
            }
        }
    }
    sum
}

fn steps(page: &[u8], times: u64) -> u64
    requires { IsUsable (length page.now) }
{
    let mut sum = 0u64;
    for _ in 0..times {
        for index in 0..u32::MAX {
            match read_step(page, 2, index) {
                Ok(Step::Entry { length, local, .. }) => sum = sum.wrapping_add(weight(
                    length, local,
                )),
                _ => break,
            }
        }
    }
    sum
}

/// Runs the loop by its words, and prints what it says.
pub fn run(rt: &HostRuntime, words: &Vec<String>) -> io::Result<()> {
    let bytes = number(words, 3, 4_016).max(480).min(MOST as u64) as usize;
    let times = number(words, 4, 3);
    let mut page = vec![in rt.alloc(); 0u8; MOST]?;
    fill(&mut page[..bytes]);
    let page = &page[..bytes];
    let sum = match word_at(words, 2, "cells") {
        "test" => test(page, times),
        "steps" => steps(page, times),
        _ => cells(page, times),
    };
    println!(rt; "{} {sum}", (bytes - 8) / 25)?;
    Ok(())
}
