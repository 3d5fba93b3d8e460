//! Writing cores as bytes.
ghost use Rattle.std.specs.Prelude.{◌≡◌, ◌++◌, OnOk};
ghost use Rattle.blind_tree.specs.Cores.{AreSpellableChildren, IsSpellableChild, IsSpellableCore, spell_child, spell_children, spell_core};

use ledger_terms::{Action, Bytes, Hash};
use std::alloc::AllocError;
use view_split::{CoreChild, CoreChildList};
use wire_form::{encode_action, encode_hash};

/// Puts the spelling of a core at the end.
#[cycle(core)]
pub(crate) fn encode_core(
    seed: &Hash,
    action: &Action,
    children: &CoreChildList,
    out: &mut Bytes,
) -> Result<(), AllocError>
    requires { IsSpellableCore (record { seed = seed.now; action = action.now }) children.now }
    ensures { OnOk result (out.new ≡ out.old ++ spell_core (record { seed = seed.now; action = action.now }) children.now) }
{
    encode_hash(seed, out)?;
    encode_action(action, out)?;
    out.extend(&(children.len() as u16).to_be_bytes())?;
    encode_children(children, out)
}

#[cycle(core)]
fn encode_children(children: &CoreChildList, out: &mut Bytes) -> Result<(), AllocError>
    requires { AreSpellableChildren children.now }
    ensures { OnOk result (out.new ≡ out.old ++ spell_children children.now) }
{
    for child in children.as_slice() {
        encode_child(child, out)?;
    }
    Ok(())
}

#[cycle(core)]
fn encode_child(child: &CoreChild, out: &mut Bytes) -> Result<(), AllocError>
    requires { IsSpellableChild child.now }
    ensures { OnOk result (out.new ≡ out.old ++ spell_child child.now) }
{
    match child {
        CoreChild::Inner(core) => {
            out.push(0)?;
            encode_core(&core.seed, &core.action, &core.children, out)
        }
        CoreChild::Hole => {
            out.push(1)?;
            Ok(())
        }
    }
}
