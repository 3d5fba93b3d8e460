//! The packages. `alloc` gives the memory, and the only error is want of it.
ghost use Rattle.std.specs.Prelude.{◌≡◌, IfOk};
ghost use Rattle.load_gen.specs.Scripts.{packages};

use crate::iou::iou_package;
use lang_eval::Checked;
use ledger_terms::PackageList;
use std::alloc::{AllocError, Global};

/// The packages of a generated script, Iou behind what is built in, as checked ones: that they pass the check is proved, so none is made.
pub fn generated_packages(alloc: Global) -> Result<Checked, AllocError>
    ensures { IfOk result (λ checked. checked ≡ packages) }
{
    let mut given = PackageList::new(alloc);
    given.push(iou_package(alloc)?)?;
    Checked::of(alloc, given)
}
