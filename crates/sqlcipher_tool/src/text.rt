// Printed lines, in place: none takes memory.
ghost use Rattle.std.specs.Prelude.{◌≡◌, ◌+◌, ◌≤◌, ◌++◌, [], length, codes};
ghost use Rattle.text_lines.specs.Text.{field_line};
ghost use Rattle.sqlcipher_tool.specs.Text.{defect_text, of_page, verify_report, refusal_text, refusal_line, tags_report, probe_report, recovery_line, stamped_report, settled_report, rekeyed_report, migrated_report, made_report, header_report, usage_line, key_refused_line};

use crate::status::Refusal;
use cipher_profile::Profile;
use db_format::{Defect, Header};
use profile_word::push_word;
use rollback_journal::Recovery;
use text_lines::Text;

// What is said of a page.
fn push_page(text: &mut Text, page: u32, what: &[u8])
    requires short { length what.now ≤ 40 }
    requires empty { text.old ≡ [] }
    ensures text { text.new ≡ of_page page what.now }
    ensures length { length text.new ≤ 70 }
{
    text.push_around(b"page ", u64::from(page), b": ");
    text.push(what);
}

// The text of a defect, without its line feed.
fn defect_text(defect: &Defect) -> Text
    ensures text { result ≡ defect_text defect.now }
    ensures short { length result ≤ 100 }
{
    let mut text = Text::new();
    match defect {
        Defect::TrunkFault { page } => push_page(&mut text, *page, b"trunk fault"),
        Defect::FreeCount { kept, found } => {
            text.push_around(b"free count ", u64::from(*kept), b", found ");
            text.push_number(u64::from(*found));
        }
        Defect::BadKind { page } => push_page(&mut text, *page, b"bad kind"),
        Defect::BadCell { page, index } => {
            push_page(&mut text, *page, b"bad cell ");
            text.push_number(*index as u64);
        }
        Defect::ChildOutOfRange { page } => push_page(&mut text, *page, b"child out of range"),
        Defect::PageTwice { page } => push_page(&mut text, *page, b"page twice"),
        Defect::TooDeep { page } => push_page(&mut text, *page, b"too deep"),
        Defect::ChainShort { page } => push_page(&mut text, *page, b"chain short"),
        Defect::ChainLong { page } => push_page(&mut text, *page, b"chain long"),
        Defect::RowidOrder { page } => push_page(&mut text, *page, b"rowid order"),
        Defect::RecordFault { page } => push_page(&mut text, *page, b"record fault"),
        Defect::SchemaRow { rowid } => text.push_signed(b"schema row ", *rowid),
        Defect::RootFault { rowid } => text.push_signed(b"root fault in row ", *rowid),
    }
    text
}

// The text of a refusal, without its line feed.
fn refusal_text(refusal: &Refusal) -> Text
    ensures text { result ≡ refusal_text refusal.now }
    ensures short { length result ≤ 100 }
{
    let mut text = Text::new();
    match refusal {
        Refusal::Defect(defect) => return defect_text(defect),
        Refusal::NoTags => text.push(b"profile has no tags"),
        Refusal::LayoutDiffers => text.push(b"layout differs"),
        Refusal::OnlyRead => text.push(b"a file with its log is only read"),
        Refusal::KeyMissing => text.push(b"key missing"),
        Refusal::KeyEmpty => text.push(b"key empty"),
        Refusal::KeyTooLong => text.push(b"key too long"),
        Refusal::KeyForm => text.push(b"key with salt"),
        Refusal::KeyUnsalted => text.push(b"key without salt"),
        Refusal::KeyNotHex => text.push(b"key is not hex"),
        Refusal::FileThere => text.push(b"file is there"),
        Refusal::JournalThere => text.push(b"journal is there"),
        Refusal::Empty => text.push(b"file is empty"),
        Refusal::Short { length } => text.push_around(b"file is short: ", *length, b" bytes"),
        Refusal::HeaderFault { offset, found } => {
            text.push_around(b"header fault at ", u64::from(*offset), b": ");
            text.push_number(u64::from(*found));
        }
        Refusal::WalMode => text.push(b"WAL mode"),
        Refusal::AutoVacuum => text.push(b"auto-vacuum"),
        Refusal::Ragged { length } => text.push_around(b"file is ragged: ", *length, b" bytes"),
        Refusal::TooLarge { pages } => text.push_around(b"file is too large: ", *pages, b" pages"),
        Refusal::PageTag { page } => text.push_around(b"page ", u64::from(*page), b": tag refused"),
        Refusal::JournalPageSize { found } => {
            text.push(b"journal page size ");
            text.push_number(u64::from(*found));
        }
        Refusal::LogVersion { found } => {
            text.push(b"log version ");
            text.push_number(u64::from(*found));
        }
        Refusal::LogPageSize { found } => {
            text.push(b"log page size ");
            text.push_number(u64::from(*found));
        }
        Refusal::LogShort { pages } => text.push_around(
            b"log is short: ",
            u64::from(*pages),
            b" pages",
        ),
        Refusal::LogTooLarge => text.push(b"log is too large"),
        Refusal::LogOfOther => text.push(b"log is another file's"),
        Refusal::SuperJournal => text.push(b"journal names a super-journal"),
        Refusal::TooManyPages { limit } => {
            text.push(b"too many pages: limit ");
            text.push_number(u64::from(*limit));
        }
        Refusal::NoTable => text.push(b"no such table"),
        Refusal::IndexesDiffer { differing, checked } => {
            text.push_around(b"indexes differ: ", *differing, b" of ");
            text.push_number(*checked);
        }
        Refusal::ScriptLine { line } => text.push_around(b"line ", u64::from(*line), b": no step"),
        Refusal::LineTooLong { line } => {
            text.push_around(b"line ", u64::from(*line), b": too long");
        }
        Refusal::TooManyLines => text.push(b"more than 100000 lines"),
    }
    text
}

/// The line that a refusal prints.
pub fn refusal_line(refusal: &Refusal) -> Text
    ensures { result ≡ refusal_line refusal.now }
{
    let mut text = refusal_text(refusal);
    text.push(b"\n");
    text
}

/// The line of a file whose pages are all accepted.
pub fn tags_report(pages: u32) -> Text
    ensures { result ≡ tags_report pages }
{
    let mut text = Text::new();
    text.push_around(b"tags hold: ", u64::from(pages), b" pages\n");
    text
}

/// The line of a file without a defect.
pub fn verify_report(trees: u64, rows: u64, free: u32, unused: u32) -> Text
    ensures { result ≡ verify_report (record { trees = trees; rows = rows; free = free; unused = unused }) }
{
    let mut text = Text::new();
    text.push_around(b"ok: ", trees, b" trees, ");
    text.push_number(rows);
    text.push_around(b" entries, ", free as u64, b" free pages, ");
    text.push_number(unused as u64);
    text.push(b" unused pages\n");
    text
}

/// The line of a profile whose key fits.
pub fn probe_report(profile: &Profile) -> Text
    ensures { result ≡ probe_report profile.now }
{
    let mut text = Text::new();
    text.push(b"profile ");
    push_word(&mut text, profile);
    text.push(b"\n");
    text
}

/// The line of a recovery.
pub fn recovery_line(recovery: &Recovery) -> Text
    ensures { result ≡ recovery_line recovery.now }
{
    let mut text = Text::new();
    match recovery {
        Recovery::Nothing => text.push(b"nothing\n"),
        Recovery::Cold => text.push(b"cold\n"),
        Recovery::Played { records } => text.push_around(b"played: ", *records, b"\n"),
    }
    text
}

/// The line of a field that was stamped.
pub fn stamped_report() -> Text
    ensures { result ≡ stamped_report }
{
    let mut text = Text::new();
    text.push(b"stamped\n");
    text
}

/// The line of a file whose pages were sealed under another key.
pub fn rekeyed_report(pages: u32) -> Text
    ensures { result ≡ rekeyed_report pages }
{
    let mut text = Text::new();
    text.push_around(b"rekeyed: ", u64::from(pages), b" pages\n");
    text
}

/// The line of a file that was written anew in another profile.
pub fn migrated_report(pages: u32) -> Text
    ensures { result ≡ migrated_report pages }
{
    let mut text = Text::new();
    text.push_around(b"migrated: ", u64::from(pages), b" pages\n");
    text
}

/// The line of a file that was settled: so many frames of its log were laid, so many pointer-map pages became free.
pub fn settled_report(frames: u64, maps: u64) -> Text
    ensures { result ≡ settled_report frames maps }
{
    let mut text = Text::new();
    text.push_around(b"settled: ", frames, b" log frames, ");
    text.push_number(maps);
    text.push(b" map pages\n");
    text
}

/// The line of a database that was made.
pub fn made_report(rows: u32, bytes: u64) -> Text
    ensures { result ≡ made_report rows bytes }
{
    let mut text = Text::new();
    text.push_around(b"made: ", u64::from(rows), b" rows, ");
    text.push_number(bytes);
    text.push(b" data bytes\n");
    text
}

/// The fields of a header, a line each.
pub fn header_report(header: &Header, pages: u32) -> Text
    ensures { result ≡ header_report header.now pages }
{
    let mut text = Text::new();
    push_layout(&mut text, header, pages);
    push_schema(&mut text, header);
    push_names(&mut text, header);
    text
}

fn push_layout(text: &mut Text, header: &Header, pages: u32)
    requires { length text.old ≤ 0 }
    ensures text { text.new ≡ text.old
        ++ field_line (codes "page size") header.now.page_size
        ++ field_line (codes "reserve") header.now.reserve
        ++ field_line (codes "pages") pages
        ++ field_line (codes "change counter") header.now.change
        ++ field_line (codes "freelist trunk") header.now.first_trunk
        ++ field_line (codes "freelist pages") header.now.free_count }
    ensures short { length text.new ≤ 250 }
{
    text.push_field(b"page size", header.page_size);
    text.push_field(b"reserve", header.reserve);
    text.push_field(b"pages", pages);
    text.push_field(b"change counter", header.change);
    text.push_field(b"freelist trunk", header.first_trunk);
    text.push_field(b"freelist pages", header.free_count);
}

fn push_schema(text: &mut Text, header: &Header)
    requires { length text.old ≤ 250 }
    ensures text { text.new ≡ text.old
        ++ field_line (codes "schema cookie") header.now.cookie
        ++ field_line (codes "schema format") header.now.format
        ++ field_line (codes "cache size") header.now.cache
        ++ field_line (codes "encoding") header.now.encoding }
    ensures short { length text.new ≤ 450 }
{
    text.push_field(b"schema cookie", header.cookie);
    text.push_field(b"schema format", header.format);
    text.push_field(b"cache size", header.cache);
    text.push_field(b"encoding", header.encoding);
}

fn push_names(text: &mut Text, header: &Header)
    requires { length text.old ≤ 450 }
    ensures { text.new ≡ text.old
        ++ field_line (codes "user version") header.now.user_version
        ++ field_line (codes "application id") header.now.application_id
        ++ field_line (codes "sqlite version") header.now.sqlite_number }
{
    text.push_field(b"user version", header.user_version);
    text.push_field(b"application id", header.application_id);
    text.push_field(b"sqlite version", header.sqlite_number);
}

/// The line of words that are no command.
pub fn usage_line() -> Text
    ensures { result ≡ usage_line }
{
    let mut text = Text::new();
    text.push(b"usage\n");
    text
}

/// The line of a key that does not fit.
pub fn key_refused_line() -> Text
    ensures { result ≡ key_refused_line }
{
    let mut text = Text::new();
    text.push(b"key refused\n");
    text
}
