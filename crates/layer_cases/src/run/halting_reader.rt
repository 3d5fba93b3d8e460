//! A reader that fails in mid-stream.
use std::io;
use std::io::{ErrorKind, Read};

/// Gives two letters at its first and at its third read, fails at its second, and is at its end then.
#[derive(Drop)]
pub(crate) struct HaltingReader {
    pub(crate) reads: u8,
}

impl Read for HaltingReader {
    fn read(&mut self, buf: &mut [u8]) -> io::Result<usize> {
        self.reads = self.reads.saturating_add(1);
        if self.reads == 2 {
            return Err(io::Error::from(ErrorKind::Other));
        }
        if self.reads > 3 || buf.len() < 2 {
            return Ok(0);
        }
        buf[0] = b'a' + self.reads;
        buf[1] = b'A' + self.reads;
        Ok(2)
    }
}
