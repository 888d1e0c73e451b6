//! The words and numbers of a line.

use b67_word::Numbers;
use std::alloc::{AllocError, Global};

/// The first word of a line, and what stands behind it.
pub fn parted(line: &str) -> (&str, &str) {
    match line.split_once(' ') {
        Some(parts) => parts,
        None => (line, ""),
    }
}

/// What stands behind the first word of a line, if it is this word.
pub fn behind<'a>(line: &'a str, word: &str) -> Option<&'a str> {
    let (first, rest) = parted(line);
    if first == word { Some(rest) } else { None }
}

// Two quotes are the empty word.
fn unquoted(word: &str) -> &str {
    if word == "\"\"" { "" } else { word }
}

/// The words of a text.
pub fn words_of<'a>(alloc: Global, text: &'a str) -> Result<Vec<&'a str>, AllocError> {
    text.split_whitespace().map(unquoted).collect(alloc)
}

/// Whether a word is among these.
pub fn is_among(words: &[&str], word: &str) -> bool {
    words.contains(&word)
}

/// Whether each word of a text is a number.
pub fn are_numbers(text: &str) -> bool {
    text.split_whitespace()
        .all(|word| word.parse::<i64>().is_ok())
}

/// Appends the words of a text that are numbers.
pub fn put_numbers(numbers: &mut Numbers, text: &str) -> Result<(), AllocError> {
    for word in text.split_whitespace() {
        if let Ok(number) = word.parse::<i64>() {
            numbers.push(number)?;
        }
    }
    Ok(())
}
