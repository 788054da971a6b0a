// One page, sealed and written to its place in Fresh.
ghost use Rattle.std.specs.Prelude.{◌≡◌, ◌≤◌, ◌++◌, ◌*◌, ◌-◌, length, take, IsTrue, OnOk, OnErr, Err};
ghost use Rattle.std.specs.Option.{option_map};
ghost use Rattle.cipher_profile.specs.Profile.{usable};
ghost use Rattle.edge_model.specs.Causes.{Rose};
ghost use Rattle.edge_model.specs.Files.{written};
ghost use Rattle.page_codec.specs.Page.{magic, sealed};
ghost use Rattle.fresh_disk.specs.Torn.{MayTear};
ghost use Rattle.fresh_file.specs.Sealed.{IsSealing};

use atomic_commit::CommitFault;
use fresh_disk::Side;
use page_codec::Codec;

/// Draws the page's own bytes, seals it as page n and writes it. `stored` is room for the stored page.
pub(crate) fn seal_page_to<T: Side>(
    codec: &Codec,
    draw: &mut [u8],
    stored: &mut [u8],
    side: &mut T,
    n: u32,
    plain: &[u8],
) -> Result<(), CommitFault>
    requires number { 1 ≤ n }
    requires plain_size { length plain.now ≡ usable codec.now.profile }
    requires draw_size { length draw.old ≡ codec.now.profile.reserve }
    requires stored_size { length stored.old ≡ codec.now.profile.page_size }
    requires magic { n ≡ 1 → take 16 plain.now ≡ magic }
    ensures done { OnOk result (IsTrue T.tells → T.fresh side.new
        ≡ option_map (written ((n - 1) * codec.now.profile.page_size) (sealed codec.now n plain.now draw.new)) (T.fresh side.old)) }
    ensures sealing { OnOk result (IsSealing codec.now n plain.now draw.new) }
    ensures own { OnOk result (IsTrue T.draws_tell → T.drawn side.new ≡ T.drawn side.old ++ draw.new) }
    ensures torn { IsTrue T.tells → MayTear ((n - 1) * codec.now.profile.page_size) codec.now.profile.page_size (T.fresh side.old) (T.fresh side.new) }
    ensures kept { T.only_fresh side.old side.new }
    ensures disk_later { T.disk_faults side.old ≤ T.disk_faults side.new }
    ensures draws_later { T.draw_faults side.old ≤ T.draw_faults side.new }
    ensures disk { result ≡ Err CommitFault.DiskFault → Rose (T.disk_faults side.old) (T.disk_faults side.new) }
    ensures entropy { result ≡ Err CommitFault.EntropyFault → Rose (T.draw_faults side.old) (T.draw_faults side.new) }
{
    let _usable = codec.profile().usable();
    let size = codec.profile().page_size as u64;
    draw_for(side, draw)?;
    codec.seal_page(n, plain, draw, stored);
    write_to(side, (n as u64 - 1) * size, stored)
}

/// Draws the bytes of one page. Where a page takes none, nothing is asked.
pub(crate) fn draw_for<T: Side>(side: &mut T, draw: &mut [u8]) -> Result<(), CommitFault>
    ensures own { OnOk result (IsTrue T.draws_tell → T.drawn side.new ≡ T.drawn side.old ++ draw.new) }
    ensures same { IsTrue T.tells → T.fresh side.new ≡ T.fresh side.old }
    ensures kept { T.only_fresh side.old side.new }
    ensures disk_later { T.disk_faults side.new ≡ T.disk_faults side.old }
    ensures draws_later { T.draw_faults side.old ≤ T.draw_faults side.new }
    ensures fault { OnErr result (Rose (T.draw_faults side.old) (T.draw_faults side.new)) }
    ensures error { OnErr result (result ≡ Err CommitFault.EntropyFault) }
{
    if draw.is_empty() {
        return Ok(());
    }
    match side.draw(draw) {
        Ok(()) => Ok(()),
        Err(_) => Err(CommitFault::EntropyFault),
    }
}

/// Writes the stored page to its offset.
pub(crate) fn write_to<T: Side>(side: &mut T, at: u64, stored: &[u8]) -> Result<(), CommitFault>
    ensures done { OnOk result (IsTrue T.tells → T.fresh side.new ≡ option_map (written at stored.now) (T.fresh side.old)) }
    ensures torn { IsTrue T.tells → MayTear at (length stored.now) (T.fresh side.old) (T.fresh side.new) }
    ensures drawn { T.drawn side.new ≡ T.drawn side.old }
    ensures kept { T.only_fresh side.old side.new }
    ensures draws_later { T.draw_faults side.new ≡ T.draw_faults side.old }
    ensures disk_later { T.disk_faults side.old ≤ T.disk_faults side.new }
    ensures fault { OnErr result (Rose (T.disk_faults side.old) (T.disk_faults side.new)) }
    ensures error { OnErr result (result ≡ Err CommitFault.DiskFault) }
{
    match side.side_write(at, stored) {
        Ok(()) => Ok(()),
        Err(_) => Err(CommitFault::DiskFault),
    }
}
