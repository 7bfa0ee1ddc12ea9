// Bytes in lent memory.
ghost use Rattle.std.specs.Prelude.{◌≡◌, ◌≤◌, [], ◌++◌, length, OnOk};

use crate::fault::Fault;
use std::fmt;
use std::fmt::{Display, Write};
use std::marker::Model;

// The first so many bytes of what is lent. Those for which there is no room are left out.
#[derive(Drop)]
pub struct Buffer<'a> {
    lent: &'a mut [u8],
    len: usize,
    ghost within: { len ≤ length lent.now },
}

// A clause sees the bytes.
impl<'a> Model for Buffer<'a> {
    ghost use Rattle.std.specs.Prelude.{ℕ, List, take};

    ghost Value = { List ℕ };

    ghost view = { λ b. take b.len b.lent.now };
}

impl<'a> Buffer<'a> {
    pub fn new(lent: &'a mut [u8]) -> Buffer<'a>
        ensures { result ≡ [] }
    {
        Buffer { lent, len: 0 }
    }

    pub fn bytes(&self) -> &[u8]
        ensures { result.now ≡ self.now }
    {
        &self.lent[..self.len]
    }

    pub fn clear(&mut self)
        ensures { self.new ≡ [] }
    {
        self.len = 0;
    }

    // Appends as many of these bytes as there is room for.
    pub fn push(&mut self, bytes: &[u8]) -> Result<(), Fault>
        ensures { OnOk result (self.new ≡ self.old ++ bytes.now) }
    {
        let n = bytes.len().min(self.lent.len() - self.len);
        let end = self.len + n;
        self.lent[self.len..end].copy_from_slice(&bytes[..n]);
        self.len = end;
        if n == bytes.len() {
            Ok(())
        } else {
            Err(Fault::TooLong)
        }
    }

    // Appends a value's text.
    pub fn put<D: Display + Drop>(&mut self, value: D) {
        // `write_str` never fails
        let _ = self.write(value);
    }

    // Appends a value's text and a line feed.
    pub fn put_line<D: Display + Drop>(&mut self, value: D) {
        let _ = self.writeln(value);
    }
}

impl Write for Buffer<'_> {
    fn write_str(&mut self, s: &str) -> fmt::Result {
        let _ = self.push(s.as_bytes());
        Ok(())
    }
}
