// What holds of the definitions themselves.
ghost use Rattle.std.specs.Prelude.{◌≡◌, ◌≤◌, ◌∷◌, [], ℕ, ℤ, Bool, true, List, Ok, Some};
ghost use Rattle.std.specs.List.{Contains};
ghost use Rattle.btree_model.specs.Content.{Content};
ghost use Rattle.btree_model.specs.Finding.{is_sound};
ghost use Rattle.btree_model.specs.Freelist.{freelist_walk};
ghost use Rattle.btree_model.specs.Parts.{counts, parts};
ghost use Rattle.cipher_profile.specs.declared.keys.Secret.{Secret};
ghost use Rattle.cipher_profile.specs.declared.profile.Profile.{Profile};
ghost use Rattle.cipher_profile.specs.Profile.{IsListed, usable};
ghost use Rattle.export_rows.specs.Report.{export_report};
ghost use Rattle.index_report.specs.Report.{index_text};
ghost use Rattle.db_format.specs.Pages.{Pages, nothing};
ghost use Rattle.edge_model.specs.Files.{Files};
ghost use Rattle.fresh_file.specs.State.{most_pages};
ghost use Rattle.make_job.specs.Made.{IsMade, made_content};
ghost use Rattle.migrate_job.specs.Bound.{pages_at_most};
ghost use Rattle.migrate_job.specs.Migrated.{IsMigrated};
ghost use Rattle.page_codec.specs.Page.{FileKeys, fits, keys_of};
ghost use Rattle.pager.specs.File.{page_stored};
ghost use Rattle.pager.specs.Opening.{Opened, file_opened};
ghost use Rattle.pager.specs.Pages.{opened_pages};
ghost use Rattle.rekey_job.specs.Rekeyed.{IsRekeyed};
ghost use Rattle.rowid_find.specs.Found.{found_rows};
ghost use Rattle.rowid_find.specs.Lines.{found_report};
ghost use Rattle.sqlcipher_tool.specs.Answer.{Answer, done};
ghost use Rattle.sqlcipher_tool.specs.Due.{due, key_lines};
ghost use Rattle.sqlcipher_tool.specs.Reading.{job_answers};
ghost use Rattle.sqlcipher_tool.specs.Migrate.{migrate_answers, too_many};
ghost use Rattle.sqlcipher_tool.specs.Opening.{opened_with};
ghost use Rattle.sqlcipher_tool.specs.Plain.{HaveSamePages, IsClean, IsSameInUse, Opens};
ghost use Rattle.sqlcipher_tool.specs.Promises.{AnswersOne};
ghost use Rattle.sqlcipher_tool.specs.Rekey.{rekey_answers};
ghost use Rattle.sqlcipher_tool.specs.Reported.{CanBeMigrated, CanBeRekeyed, IsAgreed, IsExported, IsVerified, Reports};
ghost use Rattle.sqlcipher_tool.specs.Servable.{HasAgreeingIndexes, HasTable};
ghost use Rattle.sqlcipher_tool.specs.Text.{migrated_report, rekeyed_report, verify_report};
ghost use Rattle.sqlcipher_tool.specs.Words.{asked_keys, form};
ghost use Rattle.sqlcipher_tool.specs.declared.command.Command.TheVariants.{Read};
ghost use Rattle.sqlcipher_tool.specs.declared.reading.Job.TheVariants.{Agree, Export, Find, Verify};
ghost use Rattle.sqlcipher_tool.specs.declared.reading.Reading.TheVariants.{OnPages};
ghost use Rattle.sqlcipher_tool.specs.declared.status.Status.TheVariants.{Done};

/// A walk over a whole database reads no leaf of its freelist, whatever defects it meets behind the freelist.
pub fn unread_leaves_law()
    ensures { (old new : Pages) → is_sound (freelist_walk old nothing) ≡ true → IsSameInUse old new → parts new ≡ parts old }
{}

/// That a file opens, and what it holds then, rests on its plain pages and on which of those in use are accepted, alone:
/// another file under other keys with the same of these opens to the same content, where its key fits.
pub fn opens_law()
    ensures { (count : ℕ) (old_keys new_keys : FileKeys) (old new : List ℕ) (held : Content) → HaveSamePages count old_keys old new_keys new
        → fits new_keys (page_stored new_keys new 1) ≡ true → Opens old_keys old held → Opens new_keys new held }
{}

/// Of a file that opens and is clean nothing but the counts is due to `verify`.
pub fn verify_done_law()
    ensures { (profile : Profile) (secret : Secret) (file : List ℕ) (opened : Opened) → opened_with profile secret file ≡ Ok opened
        → IsClean (keys_of profile secret file) file
        → job_answers Verify profile secret file ≡ done (verify_report (counts (opened_pages (keys_of profile secret file) file opened.count))) ∷ [] }
{}

/// Where `verify` may be done, the file is clean, and the counts are its own.
pub fn verify_clean_law()
    ensures { (profile : Profile) (secret : Secret) (file : List ℕ) (answer : Answer) → Contains (job_answers Verify profile secret file) answer
        → answer.status ≡ Done → IsVerified (keys_of profile secret file) file answer.text }
{}

/// So where `verify` was done, as `run` answers it, the recovered file is clean, and its counts were printed.
pub fn verify_run_law()
    ensures { (words : List (List ℕ)) (left : List ℕ) (files after : Files) (profile : Profile) (secret : Secret) (rest : List Secret) (tells : Bool) (was now : List ℕ)
        → form words ≡ Some (Read profile (OnPages Verify)) → key_lines (asked_keys (Read profile (OnPages Verify))) left ≡ Ok (secret ∷ rest)
        → AnswersOne (due words left files after) Done tells was now
        → Reports profile files (λ file text. IsVerified (keys_of profile secret file) file text) tells was now }
{}

/// Of a file that opens nothing but the text of its content is due to `export`.
pub fn export_done_law()
    ensures { (profile : Profile) (secret : Secret) (file : List ℕ) (opened : Opened) (held : Content) → opened_with profile secret file ≡ Ok opened
        → Opens (keys_of profile secret file) file held → job_answers Export profile secret file ≡ done (export_report held) ∷ [] }
{}

/// Of a file that opens, whose database has no defect and whose indexes agree with their tables, nothing but the text that says so is due
/// to `agree`.
pub fn agree_done_law()
    ensures { (profile : Profile) (secret : Secret) (file : List ℕ) (has : HasAgreeingIndexes profile secret file)
        → job_answers Agree profile secret file ≡ done (index_text (opened_pages (keys_of profile secret file) file has.opened.count)) ∷ [] }
{}

/// Where `agree` may be done, the file opens, its database has no defect, each index that is checked agrees with its table, and the text
/// says so.
pub fn agree_law()
    ensures { (profile : Profile) (secret : Secret) (file : List ℕ) (answer : Answer) → Contains (job_answers Agree profile secret file) answer
        → answer.status ≡ Done → IsAgreed profile secret file answer.text }
{}

/// So where `agree` was done, each index of the recovered file that is checked agrees with its table, and the text that says so was printed.
pub fn agree_run_law()
    ensures { (words : List (List ℕ)) (left : List ℕ) (files after : Files) (profile : Profile) (secret : Secret) (rest : List Secret) (tells : Bool) (was now : List ℕ)
        → form words ≡ Some (Read profile (OnPages Agree)) → key_lines (asked_keys (Read profile (OnPages Agree))) left ≡ Ok (secret ∷ rest)
        → AnswersOne (due words left files after) Done tells was now → Reports profile files (IsAgreed profile secret) tells was now }
{}

/// Of a file that opens, whose schema has no defect and the table, and whose tree of that table has none, nothing but the rows of the range and
/// their number is due to `find`.
pub fn find_done_law()
    ensures { (profile : Profile) (secret : Secret) (file name : List ℕ) (low high : ℤ) (has : HasTable profile secret name file)
        → job_answers (Find name low high) profile secret file
        ≡ done (found_report (found_rows (opened_pages (keys_of profile secret file) file has.opened.count) has.root low high)) ∷ [] }
{}

/// Where `export` may be done, the file opens, and the text is that of its content.
pub fn export_opens_law()
    ensures { (profile : Profile) (secret : Secret) (file : List ℕ) (answer : Answer) → Contains (job_answers Export profile secret file) answer
        → answer.status ≡ Done → IsExported (keys_of profile secret file) file answer.text }
{}

/// So where `export` was done, the recovered file opens, and the text of its content was printed.
pub fn export_run_law()
    ensures { (words : List (List ℕ)) (left : List ℕ) (files after : Files) (profile : Profile) (secret : Secret) (rest : List Secret) (tells : Bool) (was now : List ℕ)
        → form words ≡ Some (Read profile (OnPages Export)) → key_lines (asked_keys (Read profile (OnPages Export))) left ≡ Ok (secret ∷ rest)
        → AnswersOne (due words left files after) Done tells was now
        → Reports profile files (λ file text. IsExported (keys_of profile secret file) file text) tells was now }
{}

/// A rekeyed file opens under the new keys to the content that the old one had, which was clean, where the old key fits that.
pub fn rekey_opens_law()
    ensures { (old_keys : FileKeys) (profile : Profile) (secret : Secret) (count : ℕ) (old new : List ℕ) → IsListed old_keys.profile → IsListed profile
        → profile.page_size ≡ old_keys.profile.page_size → profile.reserve ≡ old_keys.profile.reserve
        → fits old_keys (page_stored old_keys old 1) ≡ true → IsRekeyed old_keys (keys_of profile secret new) count old new
        → (clean : IsClean old_keys old) × Opens (keys_of profile secret new) new clean.held }
{}

/// Of a file that opens and is clean nothing but the count of its pages is due to `rekey`.
pub fn rekey_done_law()
    ensures { (profile : Profile) (secret : Secret) (file : List ℕ) (opened : Opened) → opened_with profile secret file ≡ Ok opened
        → IsClean (keys_of profile secret file) file → rekey_answers profile secret file ≡ done (rekeyed_report opened.count) ∷ [] }
{}

/// Where `rekey` may be done, the file is clean, and the count is its own.
pub fn rekey_clean_law()
    ensures { (profile : Profile) (secret : Secret) (file : List ℕ) (answer : Answer) → Contains (rekey_answers profile secret file) answer
        → answer.status ≡ Done → CanBeRekeyed (keys_of profile secret file) file answer.text }
{}

/// A migrated file of a file that opens, opens under the new keys to the content that the old one had.
pub fn migrate_opens_law()
    ensures { (old_keys : FileKeys) (profile : Profile) (secret : Secret) (old new : List ℕ) (opened : Opened) → file_opened old_keys old ≡ Ok opened
        → IsMigrated profile secret opened.header (opened_pages old_keys old opened.count) new
        → (held : Content) × Opens old_keys old held × Opens (keys_of profile secret new) new held }
{}

/// Of a file that opens nothing but the count of the new file's pages is due to `migrate`, and, only where the bound on its pages is above
/// the limit, that it has too many.
pub fn migrate_done_law()
    ensures { (old new : Profile) (secret : Secret) (count : ℕ) (file : List ℕ) (opened : Opened) (held : Content) → opened_with old secret file ≡ Ok opened
        → Opens (keys_of old secret file) file held → migrate_answers old secret new count file ≡ done (migrated_report count) ∷ too_many new held }
{}

/// Where `migrate` may be done, the old file opens, and the text has the count of the new one.
pub fn migrate_source_law()
    ensures { (old new : Profile) (secret : Secret) (count : ℕ) (file : List ℕ) (answer : Answer) → Contains (migrate_answers old secret new count file) answer
        → answer.status ≡ Done → CanBeMigrated (keys_of old secret file) file count answer.text }
{}

/// Where it is not above the limit, the count alone is due.
pub fn migrate_fits_law()
    ensures { (new : Profile) (held : Content) → pages_at_most (usable new) (most_pages new) held ≤ most_pages new → too_many new held ≡ [] }
{}

/// A made file is clean under its keys, and holds its rows: so nothing but the counts is due to `verify`, and nothing but its text to `export`.
pub fn made_clean_law()
    ensures { (profile : Profile) (secret : Secret) (rows : ℕ) (file : List ℕ) → IsMade profile secret rows file
        → (clean : IsClean (keys_of profile secret file) file) × (clean.held ≡ made_content rows) }
{}
