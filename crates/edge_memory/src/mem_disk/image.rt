// Three images of a disk in memory, by going through its calls again.
ghost use Rattle.std.specs.Prelude.{◌≡◌, ◌+◌, ◌-◌, map, take, length, replicate, ◌++◌, OnOk, IfOk};
ghost use Rattle.edge_model.specs.Files.{Files, file_at, put_at, with_file_bytes, written, spliced, empty_file, created, removed, renamed};
ghost use Rattle.edge_memory.specs.Log.{after, file_of};
ghost use Rattle.edge_memory.specs.Picks.{as_read, as_synced, bare_step, lost_step, torn_step, torn_write};
ghost use Rattle.edge_memory.specs.Image.{numbered_file, image_files};

use super::contents::Call;
use super::slots::{splice, write_file};
use edge_model::{OutOfMemory, Role};
use std::alloc::Global;

/// A file with its number.
#[derive(Drop)]
pub struct Numbered {
    pub number: u64,
    pub bytes: Vec<u8>,
}

/// An image that is held as data.
#[derive(Drop)]
pub struct Image {
    pub main: Option<Numbered>,
    pub journal: Option<Numbered>,
    pub fresh: Option<Numbered>,
}

fn copy_file(alloc: Global, file: &Option<Numbered>) -> Result<Option<Numbered>, OutOfMemory>
    ensures { IfOk result (λ copy. numbered_file copy ≡ numbered_file file.now) }
{
    match file {
        None => Ok(None),
        Some(file) => match file.bytes.as_slice().to_vec(alloc) {
            Ok(bytes) => Ok(Some(Numbered {
                number: file.number,
                bytes,
            })),
            Err(_) => Err(OutOfMemory),
        },
    }
}

fn write_numbered(slot: &mut Option<Numbered>, at: u64, bytes: &[u8]) -> Result<(), OutOfMemory>
    ensures { OnOk result (numbered_file slot.new ≡ with_file_bytes (written at bytes.now) (numbered_file slot.old)) }
{
    match slot {
        None => Ok(()),
        Some(file) => match write_file(&mut file.bytes, at, bytes) {
            Ok(()) => Ok(()),
            Err(_) => Err(OutOfMemory),
        },
    }
}

fn turned(alloc: Global, bytes: &[u8]) -> Result<Vec<u8>, OutOfMemory>
    ensures { IfOk result (λ turned. turned.items ≡ map (λ b. 255 - b) bytes.now) }
{
    match bytes.iter().map(|byte| 255 - *byte).collect(alloc) {
        Ok(turned) => Ok(turned),
        Err(_) => Err(OutOfMemory),
    }
}

fn fill_torn(file: &mut Vec<u8>, end: usize) -> Result<(), OutOfMemory>
    ensures { OnOk result (file.new.items ≡ file.old.items ++ replicate (end - length file.old.items) 255) }
{
    if end <= file.len() {
        return Ok(());
    }
    match file.resize(end, 255) {
        Ok(()) => Ok(()),
        Err(_) => Err(OutOfMemory),
    }
}

fn tear(file: &mut Vec<u8>, at: u64, bytes: &[u8]) -> Result<(), OutOfMemory>
    ensures { OnOk result (file.new.items ≡ torn_write at bytes.now file.old.items) }
{
    if bytes.is_empty() {
        return Ok(());
    }
    let at = at as usize;
    let turned = turned(*file.allocator(), bytes)?;
    let Some(end) = at.checked_add(turned.len()) else {
        return Err(OutOfMemory);
    };
    fill_torn(file, end)?;
    splice(file, at, &turned);
    Ok(())
}

fn tear_numbered(slot: &mut Option<Numbered>, at: u64, bytes: &[u8]) -> Result<(), OutOfMemory>
    ensures { OnOk result (numbered_file slot.new ≡ with_file_bytes (torn_write at bytes.now) (numbered_file slot.old)) }
{
    match slot {
        None => Ok(()),
        Some(file) => tear(&mut file.bytes, at, bytes),
    }
}

/// A write that leaves 255 - b for each byte b.
pub fn tear_image(image: &mut Image, role: Role, at: u64, bytes: &[u8]) -> Result<(), OutOfMemory>
    ensures { OnOk result (image_files image.new ≡ put_at (image_files image.old) role (with_file_bytes (torn_write at bytes.now) (file_at (image_files image.old) role))) }
{
    match role {
        Role::Main => tear_numbered(&mut image.main, at, bytes),
        Role::Journal => tear_numbered(&mut image.journal, at, bytes),
        Role::Fresh => tear_numbered(&mut image.fresh, at, bytes),
    }
}

fn cut_numbered(slot: &mut Option<Numbered>, len: u64)
    ensures { numbered_file slot.new ≡ with_file_bytes (take len) (numbered_file slot.old) }
{
    if let Some(file) = slot {
        file.bytes.truncate(len as usize);
    }
}

// The file as it is read now, where it is that file.
fn read_into(
    alloc: Global,
    slot: &mut Option<Numbered>,
    now: &Option<Numbered>,
) -> Result<(), OutOfMemory>
    ensures { OnOk result (numbered_file slot.new ≡ as_read (numbered_file now.now) (numbered_file slot.old)) }
{
    let same = match (slot.as_ref(), now) {
        (Some(file), Some(now)) => now.number == file.number,
        _ => false,
    };
    if same {
        *slot = copy_file(alloc, now)?;
    }
    Ok(())
}

/// A write to the role's file.
pub fn write_image(image: &mut Image, role: Role, at: u64, bytes: &[u8]) -> Result<(), OutOfMemory>
    ensures { OnOk result (image_files image.new ≡ put_at (image_files image.old) role (with_file_bytes (written at bytes.now) (file_at (image_files image.old) role))) }
{
    match role {
        Role::Main => write_numbered(&mut image.main, at, bytes),
        Role::Journal => write_numbered(&mut image.journal, at, bytes),
        Role::Fresh => write_numbered(&mut image.fresh, at, bytes),
    }
}

/// A cut of the role's file.
pub fn cut_image(image: &mut Image, role: Role, len: u64)
    ensures { image_files image.new ≡ put_at (image_files image.old) role (with_file_bytes (take len) (file_at (image_files image.old) role)) }
{
    match role {
        Role::Main => cut_numbered(&mut image.main, len),
        Role::Journal => cut_numbered(&mut image.journal, len),
        Role::Fresh => cut_numbered(&mut image.fresh, len),
    }
}

/// Puts a file, or none, into the role.
pub fn set_image(image: &mut Image, role: Role, file: Option<Numbered>)
    ensures { image_files image.new ≡ put_at (image_files image.old) role (numbered_file file) }
{
    match role {
        Role::Main => image.main = file,
        Role::Journal => image.journal = file,
        Role::Fresh => image.fresh = file,
    }
}

/// Main is what Fresh was.
pub fn rename_image(image: &mut Image)
    ensures { image_files image.new ≡ renamed (image_files image.old) }
{
    image.main = image.fresh.take();
}

/// The role's file as it is read now, under whatever name the image has it.
pub fn sync_image(
    alloc: Global,
    image: &mut Image,
    now: &Image,
    role: Role,
) -> Result<(), OutOfMemory>
    ensures { OnOk result (image_files image.new ≡ as_synced role (image_files now.now) (image_files image.old)) }
{
    match role {
        Role::Main => {
            read_into(alloc, &mut image.main, &now.main)?;
            read_into(alloc, &mut image.fresh, &now.main)
        }
        Role::Journal => read_into(alloc, &mut image.journal, &now.journal),
        Role::Fresh => read_into(alloc, &mut image.fresh, &now.fresh),
    }
}

/// The same image again.
pub fn copy_image(alloc: Global, image: &Image) -> Result<Image, OutOfMemory>
    ensures { IfOk result (λ copy. image_files copy ≡ image_files image.now) }
{
    let main = copy_file(alloc, &image.main)?;
    let journal = copy_file(alloc, &image.journal)?;
    let fresh = copy_file(alloc, &image.fresh)?;
    Ok(Image {
        main,
        journal,
        fresh,
    })
}

fn new_file(alloc: Global, number: u64) -> Option<Numbered>
    ensures { numbered_file result ≡ empty_file number }
{
    Some(Numbered {
        number,
        bytes: Vec::new(alloc),
    })
}

/// All names, and of each file what was last synced, after a call.
pub fn bare_call(
    alloc: Global,
    bare: &mut Image,
    now: &Image,
    call: &Call,
    number: u64,
) -> Result<(), OutOfMemory>
    ensures { OnOk result (image_files bare.new ≡ bare_step call.now number (image_files now.now) (image_files bare.old)) }
{
    match call {
        Call::Sync(role) => sync_image(alloc, bare, now, *role),
        Call::Create(role) => {
            set_image(bare, *role, new_file(alloc, number));
            Ok(())
        }
        Call::Remove(role) => {
            set_image(bare, *role, None);
            Ok(())
        }
        Call::Rename => {
            rename_image(bare);
            Ok(())
        }
        Call::Write(_, _, _) | Call::Cut(_, _) | Call::SyncFolder => Ok(()),
    }
}

/// All that was done, with each unsynced byte turned, after a call.
pub fn torn_call(
    alloc: Global,
    torn: &mut Image,
    now: &Image,
    call: &Call,
    number: u64,
) -> Result<(), OutOfMemory>
    ensures { OnOk result (image_files torn.new ≡ torn_step call.now number (image_files now.now) (image_files torn.old)) }
{
    match call {
        Call::Write(role, at, bytes) => tear_image(torn, *role, *at, bytes),
        Call::Cut(role, len) => {
            cut_image(torn, *role, *len);
            Ok(())
        }
        Call::Sync(role) => sync_image(alloc, torn, now, *role),
        Call::Create(role) => {
            set_image(torn, *role, new_file(alloc, number));
            Ok(())
        }
        Call::Remove(role) => {
            set_image(torn, *role, None);
            Ok(())
        }
        Call::Rename => {
            rename_image(torn);
            Ok(())
        }
        Call::SyncFolder => Ok(()),
    }
}

/// Nothing since the last syncs, after a call.
pub fn lost_call(
    alloc: Global,
    lost: &mut Image,
    bare: &Image,
    now: &Image,
    call: &Call,
) -> Result<(), OutOfMemory>
    ensures { OnOk result (image_files lost.new ≡ lost_step call.now (image_files now.now) (image_files bare.now) (image_files lost.old)) }
{
    match call {
        Call::Sync(role) => sync_image(alloc, lost, now, *role),
        Call::SyncFolder => {
            *lost = copy_image(alloc, bare)?;
            Ok(())
        }
        Call::Write(_, _, _) | Call::Cut(_, _) | Call::Create(_) | Call::Remove(_) | Call::Rename =>
            Ok(()),
    }
}

/// What is read after a call.
pub fn after_call(
    alloc: Global,
    now: &mut Image,
    call: &Call,
    number: u64,
) -> Result<(), OutOfMemory>
    ensures { OnOk result (image_files now.new ≡ after call.now number (image_files now.old)) }
{
    match call {
        Call::Write(role, at, bytes) => write_image(now, *role, *at, bytes),
        Call::Cut(role, len) => {
            cut_image(now, *role, *len);
            Ok(())
        }
        Call::Create(role) => {
            set_image(now, *role, new_file(alloc, number));
            Ok(())
        }
        Call::Remove(role) => {
            set_image(now, *role, None);
            Ok(())
        }
        Call::Rename => {
            rename_image(now);
            Ok(())
        }
        Call::Sync(_) | Call::SyncFolder => Ok(()),
    }
}
