//! Where reading stops.
ghost use Rattle.std.specs.Prelude.{◌≡◌};
ghost use Rattle.wire_form.specs.declared.reader_fault.ReaderFault.TheVariants.{Memory};

use std::alloc::AllocError;

/// Where reading stops: with so many bytes left at the field that can't be read, or for want of memory.
#[derive(Clone, Copy, PartialEq, Eq)]
pub enum ReaderFault {
    Left(usize),
    Memory,
}

impl From<AllocError> for ReaderFault {
    ghost from_gives = { λ _ e. e ≡ Memory };

    fn from(_e: AllocError) -> ReaderFault {
        ReaderFault::Memory
    }
}
