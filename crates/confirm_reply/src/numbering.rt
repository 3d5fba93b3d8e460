//! The numbers of trees in pre-order.
ghost use Rattle.std.specs.Prelude.{◌≡◌, ◌+◌, ◌<◌, ◌^◌, suc, IfOk, OnOk};
ghost use Rattle.ledger_terms.specs.Forest.{join, number_from, size};
ghost use Rattle.confirm_reply.specs.Numbers.{numbered_trees};

use crate::numbered::Numbered;
use ledger_terms::ActionNodeList;
use std::alloc::{AllocError, Global};

fn count_of(trees: &ActionNodeList) -> usize
    requires { size trees.now < 2 ^ 63 }
    ensures { result ≡ size trees.now }
{
    let mut count: usize = 0;
    for node in trees.as_slice() {
        count += count_of(&node.below) + 1;
    }
    count
}

// Puts trees at the end, the first of which has this number.
fn number_into<'a>(
    trees: &'a ActionNodeList,
    first: usize,
    out: &mut Vec<Numbered<'a>>,
) -> Result<(), AllocError>
    requires { first + size trees.now < 2 ^ 63 }
    ensures { OnOk result (numbered_trees out.new.items ≡ join (numbered_trees out.old.items) (number_from first trees.now)) }
{
    let mut next = first;
    for node in trees.as_slice() {
        let below = count_of(&node.below);
        out.push(Numbered { number: next, node })?;
        next += below + 1;
    }
    Ok(())
}

/// Trees with the numbers of their roots in pre-order, where the first root has the number `first`.
pub(crate) fn numbered<'a>(
    alloc: Global,
    trees: &'a ActionNodeList,
    first: usize,
) -> Result<Vec<Numbered<'a>>, AllocError>
    requires { first + size trees.now < 2 ^ 63 }
    ensures { IfOk result (λ v. numbered_trees v.items ≡ number_from first trees.now) }
{
    let mut out = Vec::new(alloc);
    number_into(trees, first, &mut out)?;
    Ok(out)
}

/// The trees directly below one, with the numbers of their roots.
pub(crate) fn numbered_below<'a>(
    alloc: Global,
    tree: &Numbered<'a>,
) -> Result<Vec<Numbered<'a>>, AllocError>
    ensures { IfOk result (λ v. numbered_trees v.items ≡ number_from (suc tree.now.number) tree.now.node.now.below) }
{
    numbered(alloc, &tree.node.below, tree.number + 1)
}
