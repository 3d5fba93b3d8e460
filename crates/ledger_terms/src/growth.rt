//! Vectors that grow from one item.
ghost use Rattle.std.specs.Prelude.{◌≡◌, ◌++◌, ◌∷◌, [], OnOk, OnErr};

use std::alloc::AllocError;

/// Makes room for one more item of a vector that has none left: for one at first, since most lists of a ledger have no more, and then for twice as
/// many. An error says that there is no memory, and leaves the vector as it was.
pub fn make_room<T>(items: &mut Vec<T>) -> Result<(), AllocError>
    ensures { items.new.items ≡ items.old.items }
{
    let len = items.len();
    if len < items.capacity() {
        return Ok(());
    }
    items.reserve_exact(if len == 0 { 1 } else { len })
}

/// Puts an item at the end of a vector, for which `make_room` makes the room. An error says that there is no memory, and leaves the vector as it was.
pub fn push_closely<T: Drop>(items: &mut Vec<T>, item: T) -> Result<(), AllocError>
    ensures ok { OnOk result (items.new.items ≡ items.old.items ++ item ∷ []) }
    ensures err { OnErr result (items.new.items ≡ items.old.items) }
{
    make_room(items)?;
    items.push(item)?;
    Ok(())
}
