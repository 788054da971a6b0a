// The words that the program is run with.

/// The number that a word is, or this one where the word is missing or no number.
pub fn number(words: &Vec<String>, at: usize, otherwise: u64) -> u64 {
    match words.get(at) {
        Some(word) => word.as_str().parse::<u64>().unwrap_or(otherwise),
        None => otherwise,
    }
}

/// The word at this place, or this one where it is missing.
pub fn word_at<'a>(words: &'a Vec<String>, at: usize, otherwise: &'a str) -> &'a str {
    match words.get(at) {
        Some(word) => word.as_str(),
        None => otherwise,
    }
}
