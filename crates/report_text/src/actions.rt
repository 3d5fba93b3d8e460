//! The lines of actions. After want of memory nothing is said of the text that they were to be put into.
ghost use Rattle.std.specs.Prelude.{◌≡◌, ◌++◌, OnOk, string_bytes};
ghost use Rattle.report_text.specs.Actions.{action_text, indent, tree_lines};

use crate::values::{put_instance, put_names, put_value, put_values};
use ledger_terms::{Action, ActionNodeList};
use std::alloc::AllocError;

/// Puts an action at the end of the text: its kind, its contract's instance, and of an Exercise choice, arguments, actors and result, of a Fetch the
/// actors. Ids and salts aren't told.
pub fn put_action(out: &mut String, action: &Action) -> Result<(), AllocError>
    ensures { OnOk result (string_bytes out.new ≡ string_bytes out.old ++ action_text action.now) }
{
    match action {
        Action::Create { instance, .. } => {
            out.push_str("create ")?;
            put_instance(out, instance)
        }
        Action::Exercise {
            instance,
            choice,
            args,
            actors,
            consuming,
            result,
            ..
        } => {
            out.push_str(if *consuming { "consume " } else { "exercise " })?;
            put_instance(out, instance)?;
            out.push_str(" ")?;
            out.push_str(choice.as_str())?;
            put_values(out, args.as_slice())?;
            out.push_str(" by ")?;
            put_names(out, actors.as_slice())?;
            out.push_str(" = ")?;
            put_value(out, result)
        }
        Action::Fetch {
            instance,
            actors,
            ..
        } => {
            out.push_str("fetch ")?;
            put_instance(out, instance)?;
            out.push_str(" by ")?;
            put_names(out, actors.as_slice())
        }
    }
}

fn put_indent(out: &mut String, level: u64) -> Result<(), AllocError>
    ensures { OnOk result (string_bytes out.new ≡ string_bytes out.old ++ indent level) }
{
    'levels: for _ in 0..level {
        out.push_str("  ")?;
    }
    Ok(())
}

/// Puts a line at the end of the text for each action of the trees in pre-order, indented by two spaces for each level: `level` for roots, and one more
/// for each step down.
pub fn put_trees(out: &mut String, level: u64, trees: &ActionNodeList) -> Result<(), AllocError>
    ensures { OnOk result (string_bytes out.new ≡ string_bytes out.old ++ tree_lines level trees.now) }
{
    for node in trees.as_slice() {
        put_indent(out, level)?;
        put_action(out, &node.root.action)?;
        out.push_str("\n")?;
        // No memory holds a tree as deep as that.
        let Some(below) = level.checked_add(1) else {
            return Err(AllocError);
        };
        put_trees(out, below, &node.below)?;
    }
    Ok(())
}
