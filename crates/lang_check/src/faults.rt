//! Tests that give faults.
ghost use Rattle.std.specs.Prelude.{ok_or};
ghost use Rattle.lang_check.specs.Faults.{fault, tried, Walks};

use crate::check_fault::CheckFault;
use crate::check_kind::CheckKind;
use crate::stop::Stop;
use json_walk::Place;

/// Nothing where the test holds, else a fault of the kind there.
pub(crate) fn require(test: bool, kind: CheckKind, at: &Place) -> Result<(), Stop>
    ensures { Walks (λ _. tt) result (tried test kind at.now) }
{
    if test {
        return Ok(());
    }
    let at = at.pointer()?;
    Err(Stop::Fault(CheckFault { at, kind }))
}

/// The value, or where there is none a fault of the kind there.
pub(crate) fn found<T>(value: Option<T>, kind: CheckKind, at: &Place) -> Result<T, Stop>
    ensures { Walks (λ v. v) result (ok_or value (fault kind at.now)) }
{
    match value {
        Some(value) => Ok(value),
        None => {
            let at = at.pointer()?;
            Err(Stop::Fault(CheckFault { at, kind }))
        }
    }
}
