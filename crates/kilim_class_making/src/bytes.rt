//! Bytes that grow.

use kilim_class_attributes::parts::{AnnotationPart, push_parts};
use kilim_units::{NoMemory, Seq, Units};
use std::alloc::Global;

/// Bytes that grow. Once memory ran out they are broken, and what is put behind them counts for nothing.
#[derive(Drop)]
pub struct Bytes {
    alloc: Global,
    bytes: Vec<u8>,
    is_broken: bool,
}

impl Bytes {
    /// No bytes.
    pub fn new(alloc: Global) -> Bytes {
        Bytes {
            alloc,
            bytes: Vec::new(alloc),
            is_broken: false,
        }
    }

    /// These bytes behind the others.
    pub fn all(&mut self, bytes: &[u8]) {
        match self.bytes.extend_from_slice(bytes) {
            Ok(()) => {}
            Err(_) => self.is_broken = true,
        }
    }

    /// A number of one byte.
    pub fn byte(&mut self, number: u8) {
        self.all(&[number]);
    }

    /// A number of two bytes.
    pub fn pair(&mut self, number: u16) {
        self.all(&number.to_be_bytes());
    }

    /// A number of four bytes.
    pub fn four(&mut self, number: u32) {
        self.all(&number.to_be_bytes());
    }

    /// A number of eight bytes.
    pub fn eight(&mut self, number: u64) {
        self.all(&number.to_be_bytes());
    }

    /// A number of one byte and one of two.
    pub fn tagged(&mut self, tag: u8, number: u16) {
        self.byte(tag);
        self.pair(number);
    }

    /// Two numbers of two bytes.
    pub fn two(&mut self, first: u16, second: u16) {
        self.pair(first);
        self.pair(second);
    }

    /// A count in two bytes.
    pub fn count(&mut self, count: usize) {
        self.pair((count % 65_536) as u16);
    }

    /// A length in four bytes.
    pub fn length(&mut self, length: usize) {
        self.four((length % 4_294_967_296) as u32);
    }

    /// Other bytes behind these.
    fn behind(&mut self, other: &Bytes) {
        self.all(other.bytes.as_slice());
        if other.is_broken {
            self.is_broken = true;
        }
    }

    /// The index of a name, a length, and so many bytes.
    pub fn named(&mut self, name: u16, content: &Bytes) {
        self.pair(name);
        self.length(content.bytes.len());
        self.behind(content);
    }

    // Only a text.
    fn spelled(&mut self, units: &Units) {
        match kilim_class_mutf8::write(units, &mut self.bytes) {
            Ok(()) => {}
            Err(_) => self.is_broken = true,
        }
    }

    /// A length, and a text.
    pub fn text(&mut self, units: &Units) {
        let mut content = Bytes::new(self.alloc);
        content.spelled(units);
        self.count(content.bytes.len());
        self.behind(&content);
    }

    /// Parts of annotations.
    pub fn parts(&mut self, parts: &Seq<AnnotationPart>) {
        match push_parts(parts, &mut self.bytes) {
            Ok(()) => {}
            Err(_) => self.is_broken = true,
        }
    }

    /// The bytes, unless they are broken.
    pub fn whole(self) -> Result<Vec<u8>, NoMemory> {
        if self.is_broken {
            Err(NoMemory)
        } else {
            Ok(self.bytes)
        }
    }
}
