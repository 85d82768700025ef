//! An answer while it is built, and how values are spelled in it: texts in hexadecimal, `-` for the empty text, numbers
//! in decimal, `.` for a missing value.

use bt_text::{Bytes, Excerpt, Shared};
use std::alloc::{AllocError, Global};
use std::fmt::Display;

/// A value that has a spelling in an answer.
pub trait Spelled {
    fn spell(&self, out: &mut Answer);
}

/// Appends the spellings of values to an answer.
macro_rules! put {
    ($out:expr; $($value:expr),+) => {{ $( $value.spell($out); )+ }};
}

pub(crate) use put;

/// Bytes as they are.
#[derive(Clone, Copy)]
pub struct Raw<'a>(pub &'a [u8]);

impl Spelled for Raw<'_> {
    fn spell(&self, out: &mut Answer) {
        out.put(self.0);
    }
}

impl Spelled for &str {
    fn spell(&self, out: &mut Answer) {
        out.put(self.as_bytes());
    }
}

impl Spelled for &[u8] {
    fn spell(&self, out: &mut Answer) {
        let digits = b"0123456789abcdef";
        if self.is_empty() {
            out.put(b"-");
        }
        for byte in self.iter() {
            out.put(&[digits[(*byte / 16) as usize], digits[(*byte % 16) as usize]]);
        }
    }
}

impl Spelled for Bytes {
    fn spell(&self, out: &mut Answer) {
        self.as_slice().spell(out);
    }
}

impl Spelled for Shared<Bytes> {
    fn spell(&self, out: &mut Answer) {
        self.as_slice().spell(out);
    }
}

impl Spelled for Excerpt {
    fn spell(&self, out: &mut Answer) {
        self.as_slice().spell(out);
    }
}

impl Spelled for bool {
    fn spell(&self, out: &mut Answer) {
        out.put(if *self { b"true" } else { b"false" });
    }
}

impl Spelled for usize {
    fn spell(&self, out: &mut Answer) {
        out.shown(self);
    }
}

impl<T: Spelled> Spelled for Option<T> {
    fn spell(&self, out: &mut Answer) {
        match self {
            Some(value) => value.spell(out),
            None => out.put(b"."),
        }
    }
}

/// An answer while it is built. Whether memory ran out shows at the end.
#[derive(Drop)]
pub struct Answer {
    alloc: Global,
    bytes: Bytes,
    is_out_of_memory: bool,
}

impl Answer {
    pub fn new(alloc: Global) -> Self {
        Answer {
            alloc,
            bytes: Bytes::new(alloc),
            is_out_of_memory: false,
        }
    }

    pub fn is_empty(&self) -> bool {
        self.bytes.len() == 0
    }

    pub fn put(&mut self, bytes: &[u8]) {
        if self.bytes.append(bytes).is_err() {
            self.is_out_of_memory = true;
        }
    }

    /// Appends a value as `format!` shows it.
    pub fn shown<T: Display>(&mut self, value: &T) {
        match format!(in self.alloc; "{value}") {
            Ok(words) => self.put(words.as_bytes()),
            Err(AllocError) => self.is_out_of_memory = true,
        }
    }

    /// Puts a separator before each of several things except the first.
    pub fn separator(&mut self, place: usize, sign: &str) {
        if 0 < place {
            self.put(sign.as_bytes());
        }
    }

    /// Appends a separator, if anything is there already.
    pub fn more(&mut self, sign: &str) {
        let place = self.bytes.len();
        self.separator(place, sign);
    }

    /// Appends a value as a word of its own.
    pub fn word<T: Spelled + Drop>(&mut self, value: T) {
        self.more(" ");
        value.spell(self);
    }

    /// Appends values with a separator between them.
    pub fn list<T: Spelled>(&mut self, begin: &str, values: &[T], sign: &str, end: &str) {
        begin.spell(self);
        for (place, value) in values.iter().enumerate() {
            self.separator(place, sign);
            value.spell(self);
        }
        end.spell(self);
    }

    /// The whole answer, unless memory ran out.
    pub fn end(self) -> Result<Bytes, AllocError> {
        if self.is_out_of_memory {
            return Err(AllocError);
        }
        Ok(self.bytes)
    }
}
