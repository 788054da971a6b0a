// Pages without a place.
ghost use Rattle.std.specs.Prelude.{◌≡◌, not, count_by};
ghost use Rattle.std.specs.List.{range_with_len};
ghost use Rattle.db_format.specs.Seen.{marked};

use db_format::Seen;

/// How many of the pages from 1 on, of which there are so many, have no mark.
pub fn count_unmarked(seen: &Seen, pages: u32) -> u32
    ensures { result ≡ count_by (λ n. not (marked seen.now n)) (range_with_len 1 pages) }
{
    let mut unmarked = 0u32;
    for n in 0..pages {
        if seen.has(n + 1) {
            continue;
        }
        unmarked += 1;
    }
    unmarked
}
