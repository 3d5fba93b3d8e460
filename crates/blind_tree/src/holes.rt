//! The holes of cores.
ghost use Rattle.std.specs.Prelude.{◌≡◌, ◌∷◌, []};
ghost use Rattle.wire_form.specs.Lengths.{capped};
ghost use Rattle.view_split.specs.Holed.{holes};
ghost use Rattle.view_split.specs.CoreLists.{children_of};

use view_split::{CoreChild, CoreChildList};

/// How many holes children of a core have, those below them counted, or the greatest usize where that is more.
#[cycle(holes)]
pub(crate) fn hole_count(children: &CoreChildList) -> usize
    ensures { result ≡ capped (holes children.now) }
{
    let mut count: usize = 0;
    for child in children.as_slice() {
        count = count.saturating_add(child_holes(child));
    }
    count
}

#[cycle(holes)]
fn child_holes(child: &CoreChild) -> usize
    ensures { result ≡ capped (holes (children_of (child.now ∷ []))) }
{
    match child {
        CoreChild::Inner(core) => hole_count(&core.children),
        CoreChild::Hole => 1,
    }
}
