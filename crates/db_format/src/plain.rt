// Bytes of a text that stand as themselves.
ghost use Rattle.std.specs.Prelude.{◌≡◌, ◌≤◌, ◌<◌, true, false, length, take, slice_index};
ghost use Rattle.std.specs.List.{list_all};
ghost use Rattle.db_format.specs.Text.{is_printable};

fn is_plain(byte: u8) -> bool
    ensures { result ≡ is_printable byte }
{
    32 <= byte && byte <= 126 && byte != b'\'' && byte != b'\\'
}

/// How many bytes at the start of a text stand as themselves where the text is written.
pub fn plain_run(text: &[u8]) -> usize
    ensures within { result ≤ length text.now }
    ensures plain { list_all is_printable (take result text.now) ≡ true }
    ensures end { result < length text.now → is_printable (slice_index text.now result) ≡ false }
{
    for (at, byte) in text.iter().enumerate() {
        if !is_plain(*byte) {
            return at;
        }
    }
    text.len()
}
