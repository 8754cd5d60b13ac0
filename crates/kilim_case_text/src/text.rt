//! The text of an answer.

use std::alloc::Global;

/// A text that grows. Once memory ran out, or something was missing, it is broken, and what is put behind it counts for nothing.
#[derive(Drop)]
pub struct Text {
    alloc: Global,
    bytes: Vec<u8>,
    is_broken: bool,
}

impl Text {
    /// An empty text.
    pub fn new(alloc: Global) -> Text {
        Text {
            alloc,
            bytes: Vec::new(alloc),
            is_broken: false,
        }
    }

    /// The text is broken.
    pub fn lacks(&mut self) {
        self.is_broken = true;
    }

    /// Bytes behind the text.
    pub fn bytes(&mut self, bytes: &[u8]) {
        let failed = self.bytes.extend_from_slice(bytes).is_err();
        self.is_broken |= failed;
    }

    /// A word behind the text.
    pub fn word(&mut self, word: &str) {
        self.bytes(word.as_bytes());
    }

    /// A number behind the text.
    pub fn number(&mut self, number: usize) {
        match format!(in self.alloc; "{number}") {
            Ok(word) => self.bytes(word.as_bytes()),
            Err(_) => self.is_broken = true,
        }
    }

    /// A number with its sign behind the text.
    pub fn signed(&mut self, number: i64) {
        match format!(in self.alloc; "{number}") {
            Ok(word) => self.bytes(word.as_bytes()),
            Err(_) => self.is_broken = true,
        }
    }

    /// A part behind the text; where there is none, the text is broken.
    pub fn part(&mut self, part: Option<Vec<u8>>) {
        match part {
            Some(part) => self.bytes(part.as_slice()),
            None => self.is_broken = true,
        }
    }

    /// The text, unless it is broken.
    pub fn whole(self) -> Option<Vec<u8>> {
        if self.is_broken {
            None
        } else {
            Some(self.bytes)
        }
    }
}
