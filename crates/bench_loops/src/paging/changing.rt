// Pages that are changed in one transaction.
ghost use Rattle.std.specs.Prelude.{◌≡◌, OnOk};
ghost use Rattle.pager.specs.UnderWay.{IsReadyFor, zeros};
ghost use Rattle.atomic_commit.specs.Facts.{IsBase};

use super::changed_file::ChangedFile;
use edge_memory::SilentEntropy;
use page_codec::Codec;
use pager::{PageError, Pager, Txn};
use std::alloc::Global;

const FRAMES: u32 = 64;

// A byte of each of the first pages is changed.
fn change_pages(
    txn: &mut Txn<'_, ChangedFile<'_>, SilentEntropy>,
    count: u32,
) -> Result<(), PageError>
    requires ready { IsReadyFor txn.old.recorded txn.old.writer }
    ensures ready { OnOk result (IsReadyFor txn.new.recorded txn.new.writer) }
{
    for n in 1..count.saturating_add(1) {
        if txn.usable() < 201 {
            return Err(PageError::OutOfRange);
        }
        txn.write(n, 200, &[(n % 256) as u8])?;
    }
    Ok(())
}

fn is_ended(txn: Txn<'_, ChangedFile<'_>, SilentEntropy>) -> bool
    requires ready { IsReadyFor txn.recorded txn.writer }
    requires base_is { IsBase (zeros txn.write.profile.page_size txn.count) }
{
    let (_disk, _entropy, done) = txn.end();
    done.is_ok()
}

/// Changes so many of the first pages in one transaction under this codec, and says how many are changed after it.
pub fn change(
    alloc: Global,
    pager: Pager<'_, ChangedFile<'_>, SilentEntropy>,
    write: Codec,
    count: u32,
) -> u32 {
    let Ok(mut txn) = pager.begin(alloc, write, FRAMES) else {
        return 0;
    };
    match change_pages(&mut txn, count) {
        Ok(()) => {
            if txn.pages() > 0 && txn.usable() > 200 && is_ended(txn) {
                count
            } else {
                0
            }
        }
        Err(_) => 0,
    }
}
