//! Numbers in reports.

/// The number that a word writes; none where it writes none.
pub fn number(word: &[u8]) -> Option<usize> {
    match str::from_utf8(word) {
        Ok(text) => match text.parse::<usize>() {
            Ok(number) => Some(number),
            Err(_) => None,
        },
        Err(_) => None,
    }
}
