//! A writer that fails in mid-stream.
use std::io;
use std::io::{ErrorKind, Write};

/// Takes two bytes at its first and at its fourth write, fails at its second, and takes nothing at its third.
#[derive(Drop)]
pub(crate) struct HaltingWriter<'a> {
    pub(crate) writes: u8,
    pub(crate) taken: &'a mut [u8; 4],
    pub(crate) at: usize,
}

impl Write for HaltingWriter<'_> {
    fn write(&mut self, buf: &[u8]) -> io::Result<usize> {
        self.writes = self.writes.saturating_add(1);
        if self.writes == 2 {
            return Err(io::Error::from(ErrorKind::Other));
        }
        if self.writes == 3 || buf.len() < 2 || self.at > 2 {
            return Ok(0);
        }
        self.taken[self.at] = buf[0];
        self.taken[self.at + 1] = buf[1];
        self.at += 2;
        Ok(2)
    }

    fn flush(&mut self) -> io::Result<()> {
        Ok(())
    }
}
