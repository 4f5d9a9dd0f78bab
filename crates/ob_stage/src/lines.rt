//! Lines, word by word.

/// A word of a line, by its place from 0; empty where there is none.
pub fn word_of(line: &str, place: usize) -> &str {
    line.split_ascii_whitespace().nth(place).unwrap_or("")
}

/// The decimal number that a word says; `u32::MAX`, which no line has, where it says none.
pub fn number_of(word: &str) -> u32 {
    u32::from_str_radix(word, 10).unwrap_or(u32::MAX)
}

/// The number that a word says in hexadecimal; 0 where it says none.
pub(crate) fn bits_of(word: &str) -> u32 {
    u32::from_str_radix(word, 16).unwrap_or(0)
}

/// The two sides of a mark in a text; the second is empty where there is no mark.
pub fn sides_of<'a>(text: &'a str, mark: &str) -> (&'a str, &'a str) {
    text.split_once(mark).unwrap_or((text, ""))
}
