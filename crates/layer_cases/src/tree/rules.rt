//! What the rules of the ledger say of a transaction.
ghost use Rattle.std.specs.Prelude.{◌≡◌, true, All};
ghost use Rattle.ledger_terms.specs.Forest.{preorder};
ghost use Rattle.ledger_terms.specs.declared.act.Act.{Act};
ghost use Rattle.lang_eval.specs.Language.{has_roles};

use crate::answer::Answer;
use crate::tree::roles_given::{all_have_roles, children_have_roles, has_roles};
use authorise::{authorised, children_authorised};
use consist::find_unordered;
use interpret::{encoded_bytes, reexecute};
use lang_eval::{Checked, NativeList};
use ledger_terms::{ActionNode, ActionNodeList, Host, Tx};
use project::project;
use script_read::Script;
use std::alloc::{AllocError, Global};

/// Puts at the end how many bytes the actions take, whether the trees conform, are in order and are authorised, and the
/// projection to each participant.
pub(crate) fn put_rules(alloc: Global, script: &Script, tx: &Tx, out: &mut Answer) {
    let checked = &script.checked;
    out.put("bytes ");
    out.number(encoded_bytes(&tx.roots));
    out.put("\n");
    out.truth("conforming", conform(alloc, checked, &tx.roots));
    put_order(alloc, &tx.roots, out);
    out.truth("authorised", has_authority(alloc, checked, tx));
    put_projections(
        alloc,
        checked,
        script.topology.hosts.as_slice(),
        &tx.roots,
        out,
    );
}

/// Whether each root is possible in the model.
fn conform(alloc: Global, checked: &Checked, roots: &ActionNodeList) -> Result<bool, AllocError> {
    let natives = NativeList::new(alloc);
    for root in roots.as_slice() {
        if !reexecute(alloc, checked, &natives, root)? {
            return Ok(false);
        }
    }
    Ok(true)
}

/// Puts at the end whether no action follows the end of its contract, or the path of the first that does.
fn put_order(alloc: Global, roots: &ActionNodeList, out: &mut Answer) {
    match find_unordered(alloc, roots) {
        Ok(Some(path)) => {
            out.put("ordered no ");
            out.path(&path);
            out.put("\n");
        }
        Ok(None) => out.line(&["ordered yes"]),
        Err(_) => out.lack(),
    }
}

/// Whether the roots have roles and are authorised by who requests them, and each consequence by those above it.
fn has_authority(alloc: Global, checked: &Checked, tx: &Tx) -> Result<bool, AllocError> {
    for root in tx.roots.as_slice() {
        if !has_roles(alloc, checked, &root.root.action)
            || !authorised(alloc, checked, &root.root.action, &tx.act_as)?
        {
            return Ok(false);
        }
    }
    has_authority_below(alloc, checked, &tx.roots)
}

/// Whether the consequences of nodes have roles and are authorised.
fn has_authority_below(
    alloc: Global,
    checked: &Checked,
    nodes: &ActionNodeList,
) -> Result<bool, AllocError> {
    for node in nodes.as_slice() {
        if !gives_authority(alloc, checked, node)? {
            return Ok(false);
        }
        if !has_authority_below(alloc, checked, &node.below)? {
            return Ok(false);
        }
    }
    Ok(true)
}

/// Whether an action and its direct consequences have roles, and these are authorised.
fn gives_authority(
    alloc: Global,
    checked: &Checked,
    node: &ActionNode,
) -> Result<bool, AllocError> {
    if !has_roles(alloc, checked, &node.root.action)
        || !children_have_roles(alloc, checked, node.below.as_slice())
    {
        return Ok(false);
    }
    children_authorised(alloc, checked, node)
}

/// Puts the projection to each participant at the end, where all actions have roles.
fn put_projections(
    alloc: Global,
    checked: &Checked,
    hosts: &[Host],
    roots: &ActionNodeList,
    out: &mut Answer,
) {
    if !all_have_roles(alloc, checked, roots) {
        return;
    }
    for host in hosts {
        out.line(&["projection", host.name.as_str()]);
        match projected(alloc, checked, roots, host) {
            Ok(part) => out.trees(&part),
            Err(_) => out.lack(),
        }
    }
}

/// The projection to all parties that a participant hosts.
fn projected(
    alloc: Global,
    checked: &Checked,
    roots: &ActionNodeList,
    host: &Host,
) -> Result<ActionNodeList, AllocError>
    requires { All (λ (a : Act). has_roles checked.now a.action ≡ true) (preorder roots.now) }
{
    let hosted = host.parties.union(&host.observing)?;
    project(alloc, checked, roots, &hosted)
}
