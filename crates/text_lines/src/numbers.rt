// Numbers in words.
ghost use Rattle.std.specs.Prelude.{◌≡◌, ◌≢◌, ◌≤◌, length, slice_index};
ghost use Rattle.text_lines.specs.Numbers.{number_named};

use std::str;

/// The number that a word of one to ten digits names, where four bytes hold it.
pub fn number_of(word: &[u8]) -> Option<u32>
    ensures { result ≡ number_named word.now }
{
    if word.len() == 0 || word.len() > 10 || word[0] == b'+' {
        return None;
    }
    match str::from_utf8(word) {
        Ok(digits) => parsed(digits),
        Err(_) => None,
    }
}

// The number that a text of at most ten bytes names, before which no plus stands.
fn parsed(digits: &str) -> Option<u32>
    requires few { length digits.now ≤ 10 }
    requires plain { slice_index digits.now 0 ≢ 43 }
    ensures { result ≡ number_named digits.now }
{
    match digits.parse::<u32>() {
        Ok(number) => Some(number),
        Err(_) => None,
    }
}

#[cfg(test)]
mod tests {
    use super::number_of;
    use std::test::Fail;

    #[test]
    fn a_word_of_digits_is_a_number(rt: HostRuntime) -> Result<(), Fail> {
        let rows: [(&str, Option<u32>); 12] = [
            ("0", Some(0)),
            ("7", Some(7)),
            ("0000000007", Some(7)),
            ("4294967295", Some(4_294_967_295)),
            ("4294967296", None),
            ("00000000007", None),
            ("", None),
            ("+7", None),
            ("-7", None),
            ("7 ", None),
            ("7a", None),
            ("\u{663}", None),
        ];
        for (word, number) in rows {
            assert_eq!(rt; number_of(word.as_bytes()), number, "{word}");
        }
        Ok(())
    }
}
