//! What was read, and the place after it.
ghost use Rattle.std.specs.Prelude.{◌≡◌};
ghost use Rattle.wire_form.specs.Placed.{answer_of};

use crate::reader_fault::ReaderFault;
use crate::wire_fault::WireFault;

/// What was read, and the place after it.
#[derive(Drop)]
pub struct Decoded<T> {
    pub value: T,
    pub next: usize,
}

// What a reader over the end of `len` bytes gave, with `left` bytes left after it.
pub(crate) fn placed<T: Drop>(
    len: usize,
    left: usize,
    read: Result<T, ReaderFault>,
) -> Result<Decoded<T>, WireFault>
    ensures { result ≡ answer_of len left read }
{
    match read {
        Ok(value) => Ok(Decoded {
            value,
            next: len.saturating_sub(left),
        }),
        Err(ReaderFault::Left(at)) => Err(WireFault::Bad {
            at: len.saturating_sub(at),
        }),
        Err(ReaderFault::Memory) => Err(WireFault::Memory),
    }
}
