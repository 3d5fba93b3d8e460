//! The last slip that somebody has read. A slip ties entries: its own and all that stand before it in the history.
ghost use Rattle.std.specs.Prelude.{◌≡◌, ◌+◌, IsTrue, length};
ghost use Rattle.sync_shared.specs.Slips.{read_to, InRow};
ghost use mathlib.Core.List.{IsPrefix};

use log_row::{Row, Slip};

/// A second slip of the same entry; None where there is none.
pub fn again<'r>(last: &mut Option<Slip<'r>>) -> Option<Slip<'r>>
    ensures same { last.new ≡ last.old }
    ensures again { result ≡ last.old }
{
    match last {
        Some(slip) => Some(slip.again()),
        None => None,
    }
}

/// How many entries the slip ties, which is how many were read; 0 where there is none.
pub fn count_of(last: &Option<Slip<'_>>) -> u64
    ensures { result ≡ length (read_to last.now) }
{
    match last {
        Some(slip) => slip.place() + 1,
        None => 0,
    }
}

/// Changes nothing. The prover learns from it that what was read, up to the slip `last`, begins the list of `slip`, which is that of the next place.
pub fn tie<'r>(last: &mut Option<Slip<'r>>, slip: &mut Slip<'r>)
    requires row { InRow slip.old.row last.old }
    requires next { length slip.old.list ≡ length (read_to last.old) + 1 }
    ensures same { (last.new ≡ last.old) × (slip.new ≡ slip.old) }
    ensures begins { IsPrefix (read_to last.old) slip.old.list }
{
    if let Some(last) = last {
        last.compare(slip);
    }
}

// Whether the entry of `known` isn't behind that of `last`.
fn follows_slip<'r>(known: &mut Slip<'r>, last: &mut Slip<'r>) -> bool
    requires { last.old.row ≡ known.old.row }
    ensures same { (known.new ≡ known.old) × (last.new ≡ last.old) }
    ensures begins { IsTrue result → IsPrefix known.old.list last.old.list }
{
    known.compare(last);
    known.place() <= last.place()
}

/// Whether what somebody had read once, up to the slip `known`, begins what it has read by now, up to `last`, which is where the place of `last` isn't
/// less. Where `known` is None nothing had been read, so it is true; where only `last` is None, it is false.
pub fn follows<'r, S: Row>(known: &mut Option<Slip<'r>>, last: &mut Option<Slip<'r>>) -> bool
    requires known { InRow S.history known.old }
    requires last { InRow S.history last.old }
    ensures same { (known.new ≡ known.old) × (last.new ≡ last.old) }
    ensures begins { IsTrue result → IsPrefix (read_to known.old) (read_to last.old) }
{
    let Some(known) = known else {
        return true;
    };
    match last {
        Some(last) => follows_slip(known, last),
        None => false,
    }
}
