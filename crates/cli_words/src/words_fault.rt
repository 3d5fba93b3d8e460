//! Why no job was read.
ghost use Rattle.std.specs.Prelude.{◌≡◌};

use std::alloc::AllocError;

/// Why no job was read: the words are not accepted, or memory was wanting.
#[derive(Clone, Copy, Debug, PartialEq, Eq)]
pub enum WordsFault {
    Usage,
    Memory,
}

impl From<AllocError> for WordsFault {
    ghost use Rattle.cli_words.specs.declared.words_fault.WordsFault.TheVariants.{Memory};

    ghost from_gives = { λ _ fault. fault ≡ Memory };

    fn from(_error: AllocError) -> WordsFault {
        WordsFault::Memory
    }
}
