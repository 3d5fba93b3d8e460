//! The core of a view, line by line.
use crate::words::action_text;
use ledger_terms::{ListOf, Text};
use std::alloc::{AllocError, Global};
use view_split::{CoreChild, CoreChildList, SplitView};

/// An item of the walk through a core in pre-order, with its level below the view's first action. An action has its text; None is a hole, where a
/// view below starts.
#[derive(Drop)]
pub(crate) struct Step {
    pub level: u32,
    pub action: Option<Text>,
}

/// Steps in the order of the walk.
pub(crate) type StepList = ListOf<Step>;

/// The actions and holes of a view's core in pre-order, from its first action on.
pub(crate) fn steps_of(alloc: Global, view: &SplitView) -> Result<StepList, AllocError> {
    let mut steps = StepList::new(alloc);
    let action = Some(action_text(alloc, &view.first.action)?);
    steps.push(Step { level: 0, action })?;
    put_steps(alloc, &view.below, 1, &mut steps)?;
    Ok(steps)
}

/// Adds the children of an action, which are at this level, with all below them.
fn put_steps(
    alloc: Global,
    children: &CoreChildList,
    level: u32,
    steps: &mut StepList,
) -> Result<(), AllocError> {
    for child in children.as_slice() {
        match child {
            CoreChild::Inner(node) => {
                let action = Some(action_text(alloc, &node.action)?);
                steps.push(Step { level, action })?;
                put_steps(alloc, &node.children, level.saturating_add(1), steps)?;
            }
            CoreChild::Hole => steps.push(Step {
                level,
                action: None,
            })?,
        }
    }
    Ok(())
}
