// The bytes that a disk in memory has now.
ghost use Rattle.std.specs.Prelude.{◌≡◌, ◌++◌, ◌+◌, ◌≤◌, ◌-◌, [], length, take, max, Some, None, IsErr, IsErrOf, IfOk, OnOk, OnErr};
ghost use Rattle.std.specs.Option.{option_map};
ghost use Rattle.edge_model.specs.Files.{written, spliced, filled_to};
ghost use Rattle.edge_memory.specs.Log.{items_of, showing, shown_at, put_shown, change_bytes};

use super::contents::Contents;
use crate::gate::Refusal;
use edge_model::Role;

// Zeros up to a length, where the file is shorter.
fn fill(file: &mut Vec<u8>, end: usize) -> Result<(), Refusal>
    ensures ok { OnOk result (file.new.items ≡ filled_to end file.old.items) }
    ensures err { OnErr result (file.new.items ≡ file.old.items) }
    ensures refusal { IsErrOf result Refusal.Absent → ⊥ }
{
    if end <= file.len() {
        return Ok(());
    }
    match file.resize(end, 0) {
        Ok(()) => Ok(()),
        Err(_) => Err(Refusal::Memory),
    }
}

/// These bytes in the place of those at the offset.
pub fn splice(file: &mut Vec<u8>, at: usize, bytes: &[u8])
    requires { at + length bytes.now ≤ length file.old.items }
    ensures { file.new.items ≡ spliced at bytes.now file.old.items }
{
    file[at..at + bytes.len()].copy_from_slice(bytes);
}

/// Writes the bytes at the offset, with zeros in a gap. A write of no bytes changes nothing.
pub fn write_file(file: &mut Vec<u8>, at: u64, bytes: &[u8]) -> Result<(), Refusal>
    ensures ok { OnOk result (file.new.items ≡ written at bytes.now file.old.items) }
    ensures err { OnErr result (file.new.items ≡ file.old.items) }
    ensures refusal { IsErrOf result Refusal.Absent → ⊥ }
{
    if bytes.is_empty() {
        return Ok(());
    }
    let at = at as usize;
    let Some(end) = at.checked_add(bytes.len()) else {
        return Err(Refusal::Memory);
    };
    fill(file, end)?;
    splice(file, at, bytes);
    Ok(())
}

fn write_slot(slot: &mut Option<Vec<u8>>, at: u64, bytes: &[u8]) -> Result<(), Refusal>
    ensures ok { OnOk result (items_of slot.new ≡ change_bytes (written at bytes.now) (items_of slot.old)) }
    ensures err { OnErr result (items_of slot.new ≡ items_of slot.old) }
    ensures absent { items_of slot.old ≡ None → IsErr result }
    ensures refusal { IsErrOf result Refusal.Absent → items_of slot.old ≡ None }
{
    match slot {
        Some(file) => write_file(file, at, bytes),
        None => Err(Refusal::Absent),
    }
}

/// Writes to the role's file.
pub fn write_role(now: &mut Contents, role: Role, at: u64, bytes: &[u8]) -> Result<(), Refusal>
    ensures ok { OnOk result (showing now.new ≡ put_shown (showing now.old) role (change_bytes (written at bytes.now) (shown_at (showing now.old) role))) }
    ensures err { OnErr result (showing now.new ≡ showing now.old) }
    ensures absent { shown_at (showing now.old) role ≡ None → IsErr result }
    ensures refusal { IsErrOf result Refusal.Absent → shown_at (showing now.old) role ≡ None }
{
    match role {
        Role::Main => write_slot(&mut now.main, at, bytes),
        Role::Journal => write_slot(&mut now.journal, at, bytes),
        Role::Fresh => write_slot(&mut now.fresh, at, bytes),
    }
}

fn cut_slot(slot: &mut Option<Vec<u8>>, len: u64)
    ensures { items_of slot.new ≡ change_bytes (take len) (items_of slot.old) }
{
    if let Some(file) = slot {
        file.truncate(len as usize);
    }
}

/// Cuts the role's file to a length.
pub fn cut_role(now: &mut Contents, role: Role, len: u64)
    ensures { showing now.new ≡ put_shown (showing now.old) role (change_bytes (take len) (shown_at (showing now.old) role)) }
{
    match role {
        Role::Main => cut_slot(&mut now.main, len),
        Role::Journal => cut_slot(&mut now.journal, len),
        Role::Fresh => cut_slot(&mut now.fresh, len),
    }
}

fn slice_of(slot: &Option<Vec<u8>>) -> Option<&[u8]>
    ensures { option_map (λ s. s.now) result ≡ items_of slot.now }
{
    match slot {
        Some(file) => Some(file.as_slice()),
        None => None,
    }
}

/// The role's file, or none.
pub fn file_in(now: &Contents, role: Role) -> Option<&[u8]>
    ensures { option_map (λ s. s.now) result ≡ shown_at (showing now.now) role }
{
    match role {
        Role::Main => slice_of(&now.main),
        Role::Journal => slice_of(&now.journal),
        Role::Fresh => slice_of(&now.fresh),
    }
}

/// Puts a file, or none, into the role.
pub fn set_role(now: &mut Contents, role: Role, file: Option<Vec<u8>>)
    ensures { showing now.new ≡ put_shown (showing now.old) role (items_of file) }
{
    match role {
        Role::Main => now.main = file,
        Role::Journal => now.journal = file,
        Role::Fresh => now.fresh = file,
    }
}

/// Main is what Fresh was.
pub fn rename_in(now: &mut Contents)
    ensures { showing now.new ≡ record { main = (showing now.old).fresh; journal = (showing now.old).journal; fresh = None } }
{
    now.main = now.fresh.take();
}
