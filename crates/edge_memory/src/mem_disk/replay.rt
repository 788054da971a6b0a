// A disk in memory's calls, gone through again.
ghost use Rattle.std.specs.Prelude.{◌≡◌, ◌+◌, ◌∷◌, IfOk, OnOk, List, length};
ghost use Rattle.std.specs.Option.{option_map};
ghost use Rattle.edge_model.specs.Files.{Files, bytes_of};
ghost use Rattle.edge_memory.specs.Log.{file_of, files_of, next_number, newest_first};
ghost use Rattle.edge_memory.specs.Image.{image_files, numbered_file};
ghost use Rattle.edge_memory.specs.Picks.{picked};
ghost use Rattle.edge_memory.specs.Replay.{IsAfter};
ghost use Rattle.edge_memory.specs.declared.mem_disk.contents.Call.{Call as Done};

use super::contents::{Call, Contents};
use super::image::{Image, Numbered, after_call, bare_call, lost_call, torn_call};
use crate::ImagePick;
use edge_model::OutOfMemory;
use std::alloc::Global;

/// Four images that are kept while the calls are gone through.
#[derive(Drop)]
pub struct Replay {
    pub now: Image,
    pub bare: Image,
    pub lost: Image,
    pub torn: Image,
}

fn numbered(
    alloc: Global,
    file: &Option<Vec<u8>>,
    number: u64,
) -> Result<Option<Numbered>, OutOfMemory>
    ensures { IfOk result (λ copy. numbered_file copy ≡ file_of number file.now) }
{
    match file {
        None => Ok(None),
        Some(file) => match file.as_slice().to_vec(alloc) {
            Ok(bytes) => Ok(Some(Numbered { number, bytes })),
            Err(_) => Err(OutOfMemory),
        },
    }
}

fn first(alloc: Global, start: &Contents) -> Result<Image, OutOfMemory>
    ensures { IfOk result (λ image. image_files image ≡ files_of start.now) }
{
    let main = numbered(alloc, &start.main, 0)?;
    let journal = numbered(alloc, &start.journal, 1)?;
    let fresh = numbered(alloc, &start.fresh, 2)?;
    Ok(Image {
        main,
        journal,
        fresh,
    })
}

fn step(alloc: Global, replay: &mut Replay, call: &Call, number: u64) -> Result<(), OutOfMemory>
    ensures { OnOk result ((start : Files) (calls : List Done) → IsAfter start calls replay.old → number ≡ next_number calls → IsAfter start (call.now ∷ calls) replay.new) }
{
    lost_call(alloc, &mut replay.lost, &replay.bare, &replay.now, call)?;
    bare_call(alloc, &mut replay.bare, &replay.now, call, number)?;
    torn_call(alloc, &mut replay.torn, &replay.now, call, number)?;
    after_call(alloc, &mut replay.now, call, number)
}

/// The images after all the calls.
pub fn go_through(alloc: Global, start: &Contents, calls: &Vec<Call>) -> Result<Replay, OutOfMemory>
    ensures { IfOk result (λ replay. IsAfter (files_of start.now) (newest_first calls.now.items) replay) }
{
    let mut replay = Replay {
        now: first(alloc, start)?,
        bare: first(alloc, start)?,
        lost: first(alloc, start)?,
        torn: first(alloc, start)?,
    };
    let mut number = 3u64;
    for call in calls {
        step(alloc, &mut replay, call, number)?;
        let Some(next) = number.checked_add(1) else {
            return Err(OutOfMemory);
        };
        number = next;
    }
    Ok(replay)
}

/// The image that is asked for.
pub fn chosen(
    alloc: Global,
    start: &Contents,
    calls: &Vec<Call>,
    pick: ImagePick,
) -> Result<Image, OutOfMemory>
    ensures { IfOk result (λ image. image_files image ≡ picked pick (files_of start.now) (newest_first calls.now.items)) }
{
    let Replay {
        now,
        bare: _,
        lost,
        torn,
    } = go_through(alloc, start, calls)?;
    match pick {
        ImagePick::Lost => Ok(lost),
        ImagePick::Kept => Ok(now),
        ImagePick::Torn => Ok(torn),
    }
}

/// The bytes of a file of an image.
pub fn bytes_in(file: &Option<Numbered>) -> Option<&[u8]>
    ensures { option_map (λ s. s.now) result ≡ bytes_of (numbered_file file.now) }
{
    match file {
        None => None,
        Some(file) => Some(file.bytes.as_slice()),
    }
}
