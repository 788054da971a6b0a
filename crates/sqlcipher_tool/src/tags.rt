// `tags`: whether each whole page of Main is accepted.
ghost use Rattle.std.specs.Prelude.{◌≡◌, ◌⊎◌, ◌+◌, ◌-◌, ◌*◌, ◌/◌, ◌<◌, ◌≤◌, min, None, ◌++◌, ◌∷◌, [], length, slice_get, option_to_list, Some, IfOk, IfErr, OnOk, OnErr, IsTrue, Err};
ghost use Rattle.edge_model.specs.Causes.{HasCause, Rose};
ghost use Rattle.edge_model.specs.OnlyRead.{OnlyRead};
ghost use Rattle.cipher_profile.specs.Profile.{IsListed};
ghost use Rattle.page_codec.specs.Page.{keys_of};
ghost use Rattle.text_lines.specs.Text.{PutsPart};
ghost use Rattle.sqlcipher_tool.specs.Answer.{first_answer, Puts, PutsLine, IsAnswered, HasCauses};
ghost use Rattle.pager.specs.File.{whole_pages};
ghost use Rattle.sqlcipher_tool.specs.Tags.{AreKnown, refused_pages, refused_unless, pages_answer, tags_causes, tags_answer};
ghost use Rattle.sqlcipher_tool.specs.Stop.{stop_answer, IsLateStop};
ghost use Rattle.sqlcipher_tool.specs.Text.{tag_lines};
ghost use Rattle.edge_model.specs.Files.{main_of};

use crate::conclusion::{conclude, conclude_stop};
use crate::opening::{Stop, count_whole_pages, fitting_codec, served_length};
use crate::status::{Refusal, Status};
use crate::text::{refusal_line, tags_report};
use cipher_profile::{Profile, Secret};
use edge_model::{Disk, Failed, Sink};
use page_codec::Codec;
use pager::read_main;
use std::alloc::Global;

// How many bytes are read at once at most: the largest page.
const BUFFER: usize = 65536;

// And how many pages, whose tags are checked together.
const MOST_PAGES: usize = 16;

// The pages of Main of which it is known whether they are accepted: those after the first so many, up to so many.
#[derive(Clone, Copy, Debug, PartialEq, Eq)]
struct Batch {
    start: u32,
    end: u32,
}

// What failed while pages were checked.
#[derive(Clone, Copy, Debug, PartialEq, Eq)]
enum CheckFault {
    Disk,
    Output,
}

/// `tags` of Main as it reads.
pub fn tags<S: Sink, D: Disk>(
    profile: Profile,
    secret: &Secret,
    out: &mut S,
    disk: &mut D,
) -> Status
    requires listed { IsListed profile }
    requires tagged { 0 < profile.tag_len }
    ensures status { IsTrue D.tells → IsAnswered result (tags_answer profile secret.now (main_of (D.reads disk.old))) }
    ensures text { IsTrue S.tells → IsTrue D.tells → Puts result (tags_answer profile secret.now (main_of (D.reads disk.old))).text (S.taken out.old) (S.taken out.new) }
    ensures line { IsTrue S.tells → PutsLine result (S.taken out.old) (S.taken out.new) }
    ensures disk_text { IsTrue S.tells → IsTrue D.tells → result ≡ Status.DiskFault → PutsPart (tags_answer profile secret.now (main_of (D.reads disk.old))).begun (S.taken out.old) (S.taken out.new) }
    ensures memory { result ≡ Status.OutOfMemory → out.new ≡ out.old }
    ensures causes { HasCauses result (D.faults disk.old) (D.faults disk.new) (S.faults out.old) (S.faults out.new) }
    ensures only_read { IsTrue D.tells → OnlyRead D.reads D.images D.moment D.since disk.old disk.new }
{
    match open_for_tags(disk, profile, secret) {
        Ok((codec, pages)) => tags_of_pages(&codec, pages, out, disk),
        Err(stop) => conclude_stop(out, stop),
    }
}

// The codec of Main and the count of its whole pages, where nothing stands in the way.
fn open_for_tags<D: Disk>(
    disk: &mut D,
    profile: Profile,
    secret: &Secret,
) -> Result<(Codec, u32), Stop>
    requires { IsListed profile }
    ensures none { OnOk result (IsTrue D.tells → first_answer (tags_causes profile secret.now (main_of (D.reads disk.old))) ≡ None) }
    ensures codec { IfOk result (λ opened. IsTrue D.tells → opened.0 ≡ keys_of profile secret.now (main_of (D.reads disk.old))) }
    ensures pages { IfOk result (λ opened. IsTrue D.tells → opened.1 ≡ whole_pages profile (main_of (D.reads disk.old))) }
    ensures profile { IfOk result (λ opened. opened.0.profile ≡ profile) }
    ensures late { IfErr result IsLateStop }
    ensures stop { IfErr result (λ stop. IsTrue D.tells → (stop ≡ Stop.DiskFault) ⊎ (first_answer (tags_causes profile secret.now (main_of (D.reads disk.old))) ≡ stop_answer stop)) }
    ensures cause { IfErr result (λ stop. stop ≡ Stop.DiskFault → Rose (D.faults disk.old) (D.faults disk.new)) }
    ensures later { D.faults disk.old ≤ D.faults disk.new }
    ensures only_read { IsTrue D.tells → OnlyRead D.reads D.images D.moment D.since disk.old disk.new }
{
    let length = served_length(disk, profile)?;
    let pages = count_whole_pages(length, profile)?;
    let codec = fitting_codec(disk, profile, secret)?;
    Ok((codec, pages))
}

// `tags`, where nothing stands in the way.
fn tags_of_pages<S: Sink, D: Disk>(codec: &Codec, pages: u32, out: &mut S, disk: &mut D) -> Status
    requires listed { IsListed codec.now.profile }
    requires tagged { 0 < codec.now.profile.tag_len }
    requires whole { IsTrue D.tells → pages * codec.now.profile.page_size ≤ length (main_of (D.reads disk.old)) }
    ensures status { IsTrue D.tells → IsAnswered result (pages_answer pages (refused_pages codec.now (main_of (D.reads disk.old)) pages)) }
    ensures text { IsTrue S.tells → IsTrue D.tells → Puts result (pages_answer pages (refused_pages codec.now (main_of (D.reads disk.old)) pages)).text (S.taken out.old) (S.taken out.new) }
    ensures line { IsTrue S.tells → PutsLine result (S.taken out.old) (S.taken out.new) }
    ensures disk_text { IsTrue S.tells → IsTrue D.tells → result ≡ Status.DiskFault → PutsPart (pages_answer pages (refused_pages codec.now (main_of (D.reads disk.old)) pages)).begun (S.taken out.old) (S.taken out.new) }
    ensures memory { result ≡ Status.OutOfMemory → ⊥ }
    ensures causes { HasCauses result (D.faults disk.old) (D.faults disk.new) (S.faults out.old) (S.faults out.new) }
    ensures only_read { IsTrue D.tells → OnlyRead D.reads D.images D.moment D.since disk.old disk.new }
{
    match check_pages(out, disk, codec, pages) {
        Ok(None) => conclude(out, &tags_report(pages), Status::Done),
        Ok(Some(page)) => Status::Refused(Refusal::PageTag { page }),
        Err(CheckFault::Disk) => Status::DiskFault,
        Err(CheckFault::Output) => Status::OutputFault,
    }
}

// Checks so many pages of Main, from page 1 on, and prints a line for each that is not accepted. Answers the first of
// these.
fn check_pages<S: Sink, D: Disk>(
    out: &mut S,
    disk: &mut D,
    codec: &Codec,
    pages: u32,
) -> Result<Option<u32>, CheckFault>
    requires listed { IsListed codec.now.profile }
    requires tagged { 0 < codec.now.profile.tag_len }
    requires whole { IsTrue D.tells → pages * codec.now.profile.page_size ≤ length (main_of (D.reads disk.old)) }
    ensures first { IfOk result (λ first. IsTrue D.tells → first ≡ slice_get (refused_pages codec.now (main_of (D.reads disk.old)) pages) 0) }
    ensures text { OnOk result (IsTrue S.tells → IsTrue D.tells → S.taken out.new ≡ S.taken out.old ++ tag_lines (refused_pages codec.now (main_of (D.reads disk.old)) pages)) }
    ensures part { OnErr result (IsTrue S.tells → IsTrue D.tells → PutsPart (tag_lines (refused_pages codec.now (main_of (D.reads disk.old)) pages)) (S.taken out.old) (S.taken out.new)) }
    ensures disk_fault { result ≡ Err CheckFault.Disk → Rose (D.faults disk.old) (D.faults disk.new) }
    ensures output_fault { result ≡ Err CheckFault.Output → Rose (S.faults out.old) (S.faults out.new) }
    ensures disk_later { D.faults disk.old ≤ D.faults disk.new }
    ensures output_later { S.faults out.old ≤ S.faults out.new }
    ensures only_read { IsTrue D.tells → OnlyRead D.reads D.images D.moment D.since disk.old disk.new }
{
    let mut buffer = [0u8; BUFFER];
    let mut held = [false; MOST_PAGES];
    let mut batch = Batch { start: 0, end: 0 };
    let mut first = None;
    for done in 0..pages {
        match load_batch(disk, codec, done, pages, batch, &mut buffer, &mut held) {
            Ok(loaded) => batch = loaded,
            Err(_) => return Err(CheckFault::Disk),
        }
        match check_page(out, done + 1, held[place_of(batch, done)]) {
            Ok(refused) => first = first.or(refused),
            Err(_) => return Err(CheckFault::Output),
        }
    }
    Ok(first)
}

// The batch that has the page after so many: the one that is known, or else the next, which is read and checked.
fn load_batch<D: Disk>(
    disk: &mut D,
    codec: &Codec,
    done: u32,
    pages: u32,
    batch: Batch,
    buffer: &mut [u8],
    held: &mut [bool],
) -> Result<Batch, Failed>
    requires tagged { 0 < codec.now.profile.tag_len }
    requires room { length buffer.old ≡ 65536 }
    requires places { length held.old ≡ 16 }
    requires more { done < pages }
    requires whole { IsTrue D.tells → pages * codec.now.profile.page_size ≤ length (main_of (D.reads disk.old)) }
    requires before { batch.start ≤ done }
    requires bounded { batch.end ≤ batch.start + 16 }
    requires known { IsTrue D.tells → AreKnown codec.now batch.start batch.end held.old (main_of (D.reads disk.old)) }
    ensures here { IfOk result (λ batch. (batch.start ≤ done) × (done < batch.end)) }
    ensures bounded { IfOk result (λ batch. batch.end ≤ batch.start + 16) }
    ensures known { IfOk result (λ batch. IsTrue D.tells → AreKnown codec.now batch.start batch.end held.new (main_of (D.reads disk.old))) }
    ensures cause { HasCause (D.faults disk.old) (D.faults disk.new) result }
    ensures only_read { IsTrue D.tells → OnlyRead D.reads D.images D.moment D.since disk.old disk.new }
{
    if done < batch.end {
        return Ok(batch);
    }
    let profile = *codec.profile();
    let _usable = profile.usable();
    let size = profile.page_size as usize;
    let count = pages_at_once(size, pages - done);
    let length = count as usize * size;
    read_main(disk, done as u64 * size as u64, &mut buffer[..length])?;
    codec.tags_hold(done + 1, &buffer[..length], &mut held[..count as usize]);
    Ok(Batch {
        start: done,
        end: done + count,
    })
}

// How many pages of this length are read at once where so many are left: as many whole ones as the buffer holds, and 16 at most.
fn pages_at_once(size: usize, left: u32) -> u32
    requires range { (512 ≤ size) × (size ≤ 65536) }
    requires some { 1 ≤ left }
    ensures value { result ≡ min left (min 16 (65536 / size)) }
    ensures some { 1 ≤ result }
    ensures most { result ≤ 16 }
    ensures bounded { result * size ≤ 65536 }
{
    let held = MOST_PAGES.min(BUFFER / size);
    left.min(held as u32)
}

// Which page of its batch the page after so many is, counted from 0.
fn place_of(batch: Batch, done: u32) -> usize
    requires here { (batch.start ≤ done) × (done < batch.end) }
    requires bounded { batch.end ≤ batch.start + 16 }
    ensures value { result ≡ done - batch.start }
    ensures within { result < 16 }
{
    (done - batch.start) as usize
}

// Page n of a file, where its tag does not hold, for which it prints a line.
fn check_page<S: Sink>(out: &mut S, n: u32, holds: bool) -> Result<Option<u32>, Failed>
    ensures refused { IfOk result (λ refused. refused ≡ refused_unless holds n) }
    ensures text { IfOk result (λ refused. IsTrue S.tells → S.taken out.new ≡ S.taken out.old ++ tag_lines (option_to_list refused)) }
    ensures part { OnErr result (IsTrue S.tells → PutsPart (tag_lines (n ∷ [])) (S.taken out.old) (S.taken out.new)) }
    ensures is_refused { OnErr result (refused_unless holds n ≡ Some n) }
    ensures cause { HasCause (S.faults out.old) (S.faults out.new) result }
{
    if holds {
        return Ok(None);
    }
    refusal_line(&Refusal::PageTag { page: n }).put(out)?;
    Ok(Some(n))
}
