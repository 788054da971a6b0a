// Changed pages that are written as a batch: sealed side by side before the first is written, or each as it is asked for.
ghost use Rattle.std.specs.Prelude.{◌≡◌, ◌≤◌, ◌<◌, ◌+◌, ◌*◌, ◌++◌, ℕ, false, length};
ghost use Rattle.cipher_profile.specs.Profile.{is_plain, usable};
ghost use Rattle.page_cache.specs.Pages.{is_held};
ghost use Rattle.page_codec.specs.Pages.{nth_page};
ghost use Rattle.pager.specs.Changed.{AreSealed, HasMagic, IsLaid, IsPageSealed};

use crate::changed::ChangedPages;
use atomic_commit::{Changes, DrawFailed, PageNumbers};
use page_codec::Codec;

/// So many pages are sealed side by side at least: fewer take as long one by one.
const FEWEST: usize = 30;

/// So many are at most.
const MOST: usize = 64;

/// Changed pages, the codec that seals them, and the bytes that were drawn for it, as many for each page as its reserve has. The first of
/// them, so many, are sealed already.
#[derive(Drop)]
pub(crate) struct Sealing<'a> {
    pub(crate) codec: &'a Codec,
    pub(crate) changed: &'a ChangedPages,
    pub(crate) draws: &'a [u8],
    pub(crate) stored: &'a [u8],
    pub(crate) sealed: usize,
    ghost fits: { changed.now.usable ≡ usable codec.now.profile },
    ghost begins: { is_plain codec.now.profile ≡ false → HasMagic changed.now.held },
    ghost drawn: { length changed.now.numbers * codec.now.profile.reserve ≤ length draws.now },
    ghost done: { AreSealed codec.now changed.now draws.now stored.now sealed },
}

impl<'a> PageNumbers for Sealing<'a> {
    ghost numbers = { λ s. s.changed.now.numbers };

    fn len(&self) -> usize {
        self.changed.len()
    }

    fn number(&self, k: usize) -> u32 {
        self.changed.number(k)
    }
}

impl<'a> Changes for Sealing<'a> {
    ghost seals = { λ s k stored. IsPageSealed s.codec.now s.changed.now s.draws.now k stored };

    ghost size = { λ s. s.codec.now.profile.page_size };

    ghost faults = { λ s. 0 };

    fn seal(&mut self, k: usize, out: &mut [u8]) -> Result<(), DrawFailed> {
        if k < self.sealed {
            let size = self.codec.profile().page_size as usize;
            out.copy_from_slice(&self.stored[size * k..size * k + size]);
            return Ok(());
        }
        let reserve = self.codec.profile().reserve as usize;
        let n = self.changed.number(k);
        let draw = &self.draws[k * reserve..k * reserve + reserve];
        self.codec.seal_page(n, self.changed.page(k), draw, out);
        Ok(())
    }
}

/// Seals the changed pages side by side at the start of this room, and answers how many: all or none. It is none where they are few, where
/// page 1 is among them, whose text is shorter, and where the room is too small.
pub(crate) fn seal_side_by_side(
    codec: &Codec,
    changed: &ChangedPages,
    draws: &[u8],
    room: &mut [u8],
) -> usize
    requires plain { changed.now.usable ≡ usable codec.now.profile }
    requires drawn { length changed.now.numbers * codec.now.profile.reserve ≤ length draws.now }
    ensures sealed { AreSealed codec.now changed.now draws.now room.new result }
    ensures size { length room.new ≡ length room.old }
{
    let count = changed.len();
    let size = codec.profile().page_size as usize;
    if count < FEWEST || count > MOST || changed.has(1) || room.len() < size * count {
        return 0;
    }
    seal_all(codec, changed, draws, &mut room[..size * count]);
    count
}

// Seals the changed pages, which are not too many and leave out page 1, one after another.
fn seal_all(codec: &Codec, changed: &ChangedPages, draws: &[u8], pages: &mut [u8])
    requires plain { changed.now.usable ≡ usable codec.now.profile }
    requires drawn { length changed.now.numbers * codec.now.profile.reserve ≤ length draws.now }
    requires others { is_held 1 changed.now.held ≡ false }
    requires most { length changed.now.numbers ≤ 64 }
    requires size { length pages.old ≡ codec.now.profile.page_size * length changed.now.numbers }
    ensures sealed { (k : ℕ) → k < length changed.now.numbers
        → IsPageSealed codec.now changed.now draws.now k (nth_page codec.now.profile.page_size pages.new k) }
    ensures size { length pages.new ≡ length pages.old }
{
    lay_out(codec, changed, draws, pages);
    codec.seal_pages(changed.numbers(), pages);
}

// Lays the changed pages one after another, each with its draw behind it.
fn lay_out(codec: &Codec, changed: &ChangedPages, draws: &[u8], pages: &mut [u8])
    requires plain { changed.now.usable ≡ usable codec.now.profile }
    requires drawn { length changed.now.numbers * codec.now.profile.reserve ≤ length draws.now }
    requires size { length pages.old ≡ codec.now.profile.page_size * length changed.now.numbers }
    ensures laid { (k : ℕ) → k < length changed.now.numbers
        → IsLaid codec.now changed.now draws.now k (nth_page codec.now.profile.page_size pages.new k) }
    ensures size { length pages.new ≡ length pages.old }
{
    let size = codec.profile().page_size as usize;
    let reserve = codec.profile().reserve as usize;
    let _usable = codec.profile().usable();
    'laying: for k in 0..changed.len() {
        let draw = &draws[k * reserve..k * reserve + reserve];
        lay(changed.page(k), draw, &mut pages[size * k..size * k + size]);
    }
}

// A plain page, and its draw behind it.
fn lay(plain: &[u8], draw: &[u8], page: &mut [u8])
    requires { length page.old ≡ length plain.now + length draw.now }
    ensures { page.new ≡ plain.now ++ draw.now }
{
    let (content, reserve) = page.split_at_mut(plain.len());
    content.copy_from_slice(plain);
    reserve.copy_from_slice(draw);
}
