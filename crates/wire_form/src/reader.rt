//! A reader over bytes, field by field. Each call takes its field from the front; Err says how many bytes were left where the field began that can't
//! be read, or that there was no memory. After an Err nothing is said of the bytes that the reader has left.
ghost use Rattle.std.specs.Prelude.{◌≡◌, length, IfOk};
ghost use Rattle.std.specs.Int.{w32, w64};
ghost use Rattle.wire_form.specs.Formats.{Gives};
ghost use Rattle.wire_form.specs.Fields.{byte_at, bytes_at, number_at, count_at, small_count_at, hash_at, name_at, truth_at, text_at, int_at};

use crate::reader_fault::ReaderFault;
use ledger_terms::limits::MOST_TEXT_BYTES;
use ledger_terms::{Hash, Name, Text};
use std::alloc::Global;
use std::marker::Model;

/// Reads from the front of bytes, which contracts see as the bytes that are left. After an error it stands nowhere in
/// particular: drop it.
#[derive(Drop)]
pub struct Reader<'a> {
    rest: &'a [u8],
}

impl<'a> Model for Reader<'a> {
    ghost use Rattle.std.specs.Prelude.{List, ℕ};

    ghost Value = { List ℕ };

    ghost view = { λ r. r.rest.now };
}

impl<'a> Reader<'a> {
    /// A reader at the front of bytes.
    pub fn new(bytes: &'a [u8]) -> Reader<'a>
        ensures { result ≡ bytes.now }
    {
        Reader { rest: bytes }
    }

    /// How many bytes are left.
    pub fn len(&self) -> usize
        ensures { result ≡ length self.now }
    {
        self.rest.len()
    }

    /// Takes the next byte; Err where none is left.
    pub fn byte(&mut self) -> Result<u8, ReaderFault>
        ensures { Gives (λ x. (x, self.new)) result (byte_at self.old) }
    {
        match self.rest {
            [] => Err(ReaderFault::Left(0)),
            [first, rest @ ..] => {
                self.rest = rest;
                Ok(*first)
            }
        }
    }

    /// Takes the next `count` bytes, as one field; Err where fewer are left.
    pub fn bytes(&mut self, count: usize) -> Result<&'a [u8], ReaderFault>
        ensures field { Gives (λ x. (x.now, self.new)) result (bytes_at count self.old) }
        ensures len { IfOk result (λ front. length front.now ≡ count) }
    {
        if self.rest.len() < count {
            return Err(ReaderFault::Left(self.rest.len()));
        }
        let (front, rest) = self.rest.split_at(count);
        self.rest = rest;
        Ok(front)
    }

    /// Takes a number of four bytes, high first; Err where fewer bytes are left.
    #[tactic(auto, unfolding(crate::specs::Fields::number_at))]
    pub fn u32(&mut self) -> Result<u32, ReaderFault>
        ensures { Gives (λ x. (x, self.new)) result (number_at w32 self.old) }
    {
        let front = self.bytes(4)?;
        Ok(u32::from_be_bytes([front[0], front[1], front[2], front[3]]))
    }

    /// Takes a number of eight bytes, high first; Err where fewer bytes are left.
    #[tactic(auto, unfolding(crate::specs::Fields::number_at))]
    pub fn u64(&mut self) -> Result<u64, ReaderFault>
        ensures { Gives (λ x. (x, self.new)) result (number_at w64 self.old) }
    {
        let front = self.bytes(8)?;
        Ok(u64::from_be_bytes([
            front[0], front[1], front[2], front[3], front[4], front[5], front[6], front[7],
        ]))
    }

    /// Takes a whole number of eight bytes in two's complement, high first; Err where fewer bytes are left.
    #[tactic(auto, unfolding(crate::specs::Fields::int_at))]
    pub fn int(&mut self) -> Result<i64, ReaderFault>
        ensures { Gives (λ x. (x, self.new)) result (int_at self.old) }
    {
        let front = self.bytes(8)?;
        Ok(i64::from_be_bytes([
            front[0], front[1], front[2], front[3], front[4], front[5], front[6], front[7],
        ]))
    }

    /// Takes a count of two bytes; Err where it is above `limit` or fewer bytes are left.
    #[tactic(auto, unfolding(crate::specs::Fields::count_at))]
    pub fn count(&mut self, limit: u16) -> Result<u16, ReaderFault>
        ensures { Gives (λ x. (x, self.new)) result (count_at limit self.old) }
    {
        let here = self.rest.len();
        let front = self.bytes(2)?;
        let count = u16::from_be_bytes([front[0], front[1]]);
        if count <= limit {
            Ok(count)
        } else {
            Err(ReaderFault::Left(here))
        }
    }

    /// Takes a count of one byte; Err where it is above `limit` or no byte is left.
    #[tactic(auto, unfolding(crate::specs::Fields::small_count_at))]
    pub fn small_count(&mut self, limit: u8) -> Result<u8, ReaderFault>
        ensures { Gives (λ x. (x, self.new)) result (small_count_at limit self.old) }
    {
        let here = self.rest.len();
        let count = self.byte()?;
        if count <= limit {
            Ok(count)
        } else {
            Err(ReaderFault::Left(here))
        }
    }

    /// Takes the 32 bytes of a hash; Err where fewer bytes are left.
    #[tactic(auto, unfolding(crate::specs::Fields::hash_at))]
    pub fn hash(&mut self) -> Result<Hash, ReaderFault>
        ensures { Gives (λ x. (x, self.new)) result (hash_at self.old) }
    {
        let front = self.bytes(32)?;
        let mut bytes = [0; 32];
        bytes.copy_from_slice(front);
        Ok(Hash(bytes))
    }

    /// Takes a name with its byte of length, as one field; Err where bytes lack or these aren't a name.
    #[tactic(auto, unfolding(crate::specs::Fields::name_at))]
    pub fn name(&mut self) -> Result<Name, ReaderFault>
        ensures { Gives (λ x. (x, self.new)) result (name_at self.old) }
    {
        let here = self.rest.len();
        let len = self.byte()? as usize;
        if self.rest.len() < len {
            return Err(ReaderFault::Left(here));
        }
        let (text, rest) = self.rest.split_at(len);
        self.rest = rest;
        match Name::of_bytes(text) {
            Some(name) => Ok(name),
            None => Err(ReaderFault::Left(here)),
        }
    }

    /// Takes a truth value: one byte, 0 for false and 1 for true; Err where it is another or none is left.
    #[tactic(auto, unfolding(crate::specs::Fields::truth_at))]
    pub fn truth(&mut self) -> Result<bool, ReaderFault>
        ensures { Gives (λ x. (x, self.new)) result (truth_at self.old) }
    {
        let here = self.rest.len();
        match self.byte()? {
            0 => Ok(false),
            1 => Ok(true),
            _ => Err(ReaderFault::Left(here)),
        }
    }

    /// Takes a text: two bytes of length, at most 256, and so many bytes of UTF-8. A length that is too great is the field that can't be read, and so
    /// are bytes that lack or aren't UTF-8.
    #[tactic(auto, unfolding(crate::specs::Fields::text_at))]
    pub fn text(&mut self, alloc: Global) -> Result<Text, ReaderFault>
        ensures { Gives (λ x. (x, self.new)) result (text_at self.old) }
    {
        let len = self.count(MOST_TEXT_BYTES as u16)?;
        let here = self.rest.len();
        let bytes = self.bytes(len as usize)?;
        match Text::of_bytes(alloc, bytes)? {
            Some(text) => Ok(text),
            None => Err(ReaderFault::Left(here)),
        }
    }
}
