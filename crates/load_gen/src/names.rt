//! Names with a number.
ghost use Rattle.std.specs.Prelude.{◌≡◌, ◌<◌, ◌+◌, IfOk, IsTrue};
ghost use Rattle.ledger_terms.specs.Names.{is_letter};
ghost use Rattle.load_gen.specs.Numbers.{numbered, participant_at, party_at, is_one_letter};

use ledger_terms::Name;
use std::alloc::{AllocError, Global};

/// The name of a letter with a number behind it, as `c7`.
pub(crate) fn numbered(alloc: Global, letter: &str, number: u32) -> Result<Name, AllocError>
    requires { IsTrue (is_one_letter letter.now) }
    ensures { IfOk result (λ name. name ≡ numbered letter.now number) }
{
    let text = format!(in alloc; "{letter}{number}")?;
    Ok(Name::read(text.as_str()).unwrap())
}

/// The name of the participant with this index, from 0: G1 to G4.
pub(crate) fn participant_at(alloc: Global, place: u8) -> Result<Name, AllocError>
    ensures { IfOk result (λ name. name ≡ participant_at place) }
{
    numbered(alloc, "G", u32::from(place) + 1)
}

/// The name of the party of the participant with this index, from 0: A1 to A4.
pub(crate) fn party_at(alloc: Global, place: u8) -> Result<Name, AllocError>
    ensures { IfOk result (λ name. name ≡ party_at place) }
{
    numbered(alloc, "A", u32::from(place) + 1)
}
