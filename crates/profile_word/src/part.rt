// The parts of a word, which stand between colons.
ghost use Rattle.std.specs.Prelude.{◌≡◌, ◌≤◌, ◌+◌, length, drop};
ghost use Rattle.std.specs.Option.{option_copied};
ghost use Rattle.profile_word.specs.Parts.{first_part, value_behind};

/// Where the part ends that begins here: at the next colon, or at the end of the word.
pub(crate) fn part_end(word: &[u8], at: usize) -> usize
    requires { at ≤ length word.now }
    ensures end { result ≡ at + length (first_part (drop at word.now)) }
    ensures within { result ≤ length word.now }
{
    for i in at..word.len() {
        if word[i] == b':' {
            return i;
        }
    }
    word.len()
}

/// What stands behind these bytes in a part that begins with them.
pub(crate) fn value_behind<'a>(name: &[u8], part: &'a [u8]) -> Option<&'a [u8]>
    ensures { option_copied result ≡ value_behind name.now part.now }
{
    if part.len() >= name.len() && &part[..name.len()] == name {
        Some(&part[name.len()..])
    } else {
        None
    }
}
