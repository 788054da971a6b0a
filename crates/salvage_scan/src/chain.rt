// Payloads that overflow, section 1.7.
ghost use Rattle.std.specs.Prelude.{◌≡◌, ◌≤◌, length, vec_len, IfOk, IfErr, IsTrue};
ghost use Rattle.edge_model.specs.OnlyRead.{OnlyRead};
ghost use Rattle.btree_page.specs.Payload.{max_payload};
ghost use Rattle.salvage_scan.specs.Room.{AreRooms};
ghost use Rattle.salvage_scan.specs.Salvage.{file_pages};
ghost use Rattle.salvage_scan.specs.Chain.{IsChainFollowed, IsPayloadRead};
ghost use Rattle.salvage_scan.specs.Scan.{IsDiskCause};

use crate::error::SalvageError;
use crate::room::Rooms;
use btree_walk::is_in_range;
use db_format::u32_at;
use edge_model::Disk;
use page_codec::Codec;

// Reads the `needed` overflow pages from page `first` on behind what `payload` has, and answers whether they are there.
fn read_links<D: Disk>(
    disk: &mut D,
    codec: &Codec,
    rooms: &mut Rooms,
    pages: u32,
    needed: usize,
    first: u32,
    payload: &mut Vec<u8>,
) -> Result<bool, SalvageError>
    requires rooms { AreRooms D.tells codec.now (D.reads disk.old) rooms.old }
    requires pages { IsTrue D.tells → pages ≡ (file_pages codec.now (D.reads disk.old)).count }
    ensures on { IfOk result (λ there. IsTrue D.tells
        → IsChainFollowed (file_pages codec.now (D.reads disk.old)) needed first payload.old.items there payload.new.items) }
    ensures rooms { AreRooms D.tells codec.now (D.reads disk.new) rooms.new }
    ensures cause { IfErr result (IsDiskCause (D.faults disk.old) (D.faults disk.new)) }
    ensures later { D.faults disk.old ≤ D.faults disk.new }
    ensures only_read { IsTrue D.tells → OnlyRead D.reads D.images D.moment D.since disk.old disk.new }
{
    let usable = codec.profile().usable();
    let mut n = first;
    for turn in 0..needed {
        if !is_in_range(n, pages) {
            return Ok(false);
        }
        match rooms.open(disk, codec, n) {
            Err(_) => return Err(SalvageError::DiskFault),
            Ok(false) => return Ok(false),
            Ok(true) => {}
        }
        let bytes = rooms.plain(n, usable);
        match payload.extend_from_slice(&bytes[4..]) {
            Err(_) => return Err(SalvageError::OutOfMemory),
            Ok(()) => {}
        }
        n = u32_at(bytes, 0);
    }
    Ok(true)
}

/// Reads a payload of so many bytes, of which `payload` has the local ones at first, and answers whether it is whole.
pub(crate) fn read_payload<D: Disk>(
    disk: &mut D,
    codec: &Codec,
    rooms: &mut Rooms,
    pages: u32,
    size: u64,
    first: u32,
    payload: &mut Vec<u8>,
) -> Result<bool, SalvageError>
    requires limit { size ≤ max_payload }
    requires rooms { AreRooms D.tells codec.now (D.reads disk.old) rooms.old }
    requires pages { IsTrue D.tells → pages ≡ (file_pages codec.now (D.reads disk.old)).count }
    ensures on { IfOk result (λ whole. IsTrue D.tells → IsPayloadRead (file_pages codec.now (D.reads disk.old))
        (record { size = size; local = payload.old.items; first = first }) whole payload.new.items) }
    ensures limit { IfOk result (λ whole. IsTrue whole → vec_len payload.new ≤ size) }
    ensures rooms { AreRooms D.tells codec.now (D.reads disk.new) rooms.new }
    ensures cause { IfErr result (IsDiskCause (D.faults disk.old) (D.faults disk.new)) }
    ensures later { D.faults disk.old ≤ D.faults disk.new }
    ensures only_read { IsTrue D.tells → OnlyRead D.reads D.images D.moment D.since disk.old disk.new }
{
    let usable = codec.profile().usable();
    let missing = (size as usize).saturating_sub(payload.len());
    let needed = (missing + (usable - 5)) / (usable - 4);
    if needed > pages as usize {
        return Ok(false);
    }
    match read_links(disk, codec, rooms, pages, needed, first, payload) {
        Err(error) => Err(error),
        Ok(false) => Ok(false),
        Ok(true) => {
            payload.truncate(size as usize);
            Ok(true)
        }
    }
}
