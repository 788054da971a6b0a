// A database is written into Fresh.
ghost use Rattle.std.specs.Prelude.{◌≡◌, ◌≤◌, ◌<◌, ℕ, List, false, Some, Err, IfOk, IfErr, OnOk, IsTrue, length};
ghost use Rattle.cipher_profile.specs.Profile.{IsListed, usable};
ghost use Rattle.db_format.specs.Header.{IsPageSize};
ghost use Rattle.edge_model.specs.Causes.{Rose};
ghost use Rattle.bulk_load.specs.Found.{IsTightBehind};
ghost use Rattle.bulk_load.specs.Out.{AreAllPut};
ghost use Rattle.db_format.specs.Header.{IsPageSize};
ghost use Rattle.db_maker.specs.Made.{IsFilled};
ghost use Rattle.db_maker.specs.Pages.{made_pages};
ghost use Rattle.db_maker.specs.Rows.{total_len};
ghost use Rattle.fresh_file.specs.State.{IsWellAs, most_pages, fresh_pages};
ghost use Rattle.make_job.specs.Made.{made_header};
ghost use Rattle.make_job.specs.Stops.{is_make_refusal, make_load_error};
ghost use Rattle.fresh_file.specs.Draws.{AreOwnDraws};
ghost use Rattle.make_job.specs.Written.{IsMadeWritten};

use crate::error::MakeError;
use bulk_load::{LoadError, OutError};
use cipher_profile::Profile;
use db_format::Header;
use db_maker::{Made, fill};
use fresh_disk::Side;
use fresh_file::{CommitFault, FreshState, StartError};
use page_codec::Codec;
use std::alloc::Global;

/// Fresh becomes the database of so many rows under this codec, synced. All memory is taken before the sync.
pub(crate) fn write_rows<T: Side>(
    alloc: Global,
    side: &mut T,
    codec: Codec,
    rows: u32,
) -> Result<Made, MakeError>
    ensures counts { IfOk result (λ made. (made.rows ≡ rows) × (made.bytes ≡ total_len rows)) }
    ensures written { OnOk result (IsTrue T.tells → IsMadeWritten codec rows (T.fresh side.new)) }
    ensures synced { OnOk result (IsTrue T.tells → T.synced side.new) }
    ensures own_draws { OnOk result (IsTrue T.tells → IsTrue T.draws_tell → (file : List ℕ) → T.fresh side.new ≡ Some file
        → AreOwnDraws codec file (length (T.drawn side.old)) (T.drawn side.new)) }
    ensures kept { T.only_fresh side.old side.new }
    ensures no_refusal { IfErr result (λ e. is_make_refusal e ≡ false) }
    ensures limit { (limit : ℕ) → result ≡ Err (MakeError.TooManyPages limit) → (limit ≡ most_pages codec.profile) × (most_pages codec.profile < made_pages (usable codec.profile) rows) }
    ensures disk_fault { result ≡ Err MakeError.DiskFault → Rose (T.disk_faults side.old) (T.disk_faults side.new) }
    ensures entropy_fault { result ≡ Err MakeError.EntropyFault → Rose (T.draw_faults side.old) (T.draw_faults side.new) }
    ensures disk_later { T.disk_faults side.old ≤ T.disk_faults side.new }
    ensures entropy_later { T.draw_faults side.old ≤ T.draw_faults side.new }
{
    let header = header_of(codec.profile());
    let mut state = match FreshState::start(alloc, side, codec) {
        Ok(state) => state,
        Err(StartError::DiskFault) => return Err(MakeError::DiskFault),
        Err(StartError::OutOfMemory) => return Err(MakeError::OutOfMemory),
    };
    let made = fill_state(alloc, &mut state, side, rows)?;
    match state.finish(side, &header) {
        Ok(_) => Ok(made),
        Err(CommitFault::DiskFault) => Err(MakeError::DiskFault),
        Err(CommitFault::EntropyFault) => Err(MakeError::EntropyFault),
    }
}

// The pages of the database, all but page 1 sealed and written.
fn fill_state<T: Side>(
    alloc: Global,
    state: &mut FreshState,
    side: &mut T,
    rows: u32,
) -> Result<Made, MakeError>
    requires none { ((fresh_pages state.old (T.fresh side.old)).count ≡ 1) × ((n : ℕ) → (fresh_pages state.old (T.fresh side.old)).accepts n ≡ false) }
    ensures counts { IfOk result (λ made. (made.rows ≡ rows) × (made.bytes ≡ total_len rows)) }
    ensures made { (start : ℕ) → IsWellAs state.old start T.tells T.draws_tell (T.fresh side.old) (T.drawn side.old)
        → OnOk result (IsFilled (fresh_pages state.new (T.fresh side.new)) rows) }
    ensures tight { (start : ℕ) → IsWellAs state.old start T.tells T.draws_tell (T.fresh side.old) (T.drawn side.old)
        → OnOk result (IsTightBehind (fresh_pages state.new (T.fresh side.new))) }
    ensures well { (start : ℕ) → IsWellAs state.old start T.tells T.draws_tell (T.fresh side.old) (T.drawn side.old)
        → OnOk result (IsWellAs state.new start T.tells T.draws_tell (T.fresh side.new) (T.drawn side.new)) }
    ensures whole { OnOk result (AreAllPut (fresh_pages state.new (T.fresh side.new))) }
    ensures same { (state.new.codec ≡ state.old.codec) × (state.new.limit ≡ state.old.limit) }
    ensures kept { T.only_fresh side.old side.new }
    ensures no_refusal { IfErr result (λ e. is_make_refusal e ≡ false) }
    ensures limit { (limit : ℕ) → result ≡ Err (MakeError.TooManyPages limit) → (limit ≡ state.old.limit) × (limit < made_pages (usable state.old.codec.profile) rows) }
    ensures disk_fault { result ≡ Err MakeError.DiskFault → Rose (T.disk_faults side.old) (T.disk_faults side.new) }
    ensures entropy_fault { result ≡ Err MakeError.EntropyFault → Rose (T.draw_faults side.old) (T.draw_faults side.new) }
    ensures disk_later { T.disk_faults side.old ≤ T.disk_faults side.new }
    ensures entropy_later { T.draw_faults side.old ≤ T.draw_faults side.new }
{
    let mut out = state.out(side);
    match fill(alloc, &mut out, rows) {
        Ok(made) => Ok(made),
        Err(error) => Err(load_error(error)),
    }
}

// How a load that failed stops the command.
fn load_error(error: LoadError) -> MakeError
    requires in_order { error ≡ LoadError.RowidOrder → ⊥ }
    requires shallow { error ≡ LoadError.TooDeep → ⊥ }
    ensures { make_load_error error ≡ Some result }
{
    match error {
        LoadError::Out(OutError::TooManyPages { limit }) => MakeError::TooManyPages { limit },
        LoadError::Out(OutError::DiskFault) => MakeError::DiskFault,
        LoadError::Out(OutError::EntropyFault) => MakeError::EntropyFault,
        LoadError::OutOfMemory => MakeError::OutOfMemory,
        LoadError::RowidOrder | LoadError::TooDeep => unreachable!(),
    }
}

// The header, but for the count of pages.
fn header_of(profile: &Profile) -> Header
    requires { IsListed profile.now }
    ensures value { result ≡ made_header profile.now 0 }
    ensures page_size { IsPageSize result.page_size }
    ensures reserve { result.reserve ≤ 255 }
{
    Header {
        page_size: profile.page_size,
        reserve: profile.reserve,
        change: 1,
        size_field: 0,
        first_trunk: 0,
        free_count: 0,
        cookie: 1,
        format: 4,
        cache: 0,
        encoding: 1,
        user_version: 0,
        application_id: 0,
        valid_for: 1,
        sqlite_number: 3_045_000,
    }
}
