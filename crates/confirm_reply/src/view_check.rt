//! The local check of a view.
ghost use Rattle.std.specs.Prelude.{◌≡◌, ◌≤◌, Bool, All, Some, IfOk, length, option_map};
ghost use Rattle.ledger_model.specs.Opening.{OpenedView};
ghost use Rattle.ledger_model.specs.Terms.{Hash};
ghost use Rattle.ledger_model.specs.declared.status.Status.{Status};
ghost use Rattle.canton_model.specs.Reading.{Offer};
ghost use Rattle.view_split.specs.Placed.{shown_by};
ghost use Rattle.confirm_reply.specs.Fit.{IsCheckableAt};
ghost use Rattle.confirm_reply.specs.Nodes.{trees_in};
ghost use Rattle.confirm_reply.specs.Offered.{roots_shown};
ghost use Rattle.confirm_reply.specs.Tried.{all_reasons, verdict_after};
ghost use Rattle.confirm_reply.specs.Opened.{CanBeChecked, view_at};
ghost use Rattle.confirm_reply.specs.Verdict.{CanCheck, IsGivenKnown, verdict_by_known, verdict_of, verdict_of_opened};

use crate::check_input::CheckInput;
use crate::cores::found_at;
use crate::numbering::numbered;
use crate::opened::{actions_of, nodes_of, roots_of};
use crate::opened_input::OpenedInput;
use crate::sender::is_from_sender;
use crate::shown::Shown;
use crate::starts::starts_in;
use crate::trial::Trial;
use crate::well_split::is_well_split;
use canton_model::{LocalVerdict, Reason};
use lang_eval::NativeList;
use ledger_terms::{ActionNode, ActionNodeList, Path};
use std::alloc::{AllocError, Global};

/// The trees of all actions that are opened to the participant; none where nothing is. `check_view_among` asks for them.
pub fn put_together(alloc: Global, input: &CheckInput<'_>) -> Result<ActionNodeList, AllocError>
    ensures { IfOk result (λ roots. roots ≡ roots_shown input.now.shown) }
{
    match &input.shown {
        Shown::Fixed(_) => Ok(ActionNodeList::new(alloc)),
        Shown::Open(tree) => roots_of(alloc, &tree.opened().views),
    }
}

/// A participant's verdict on the view with this path, by what it was told of the request and knows of contracts (`input`). In this order are tried:
/// whether anything is opened (else the fixed reason), whether the view is (ViewMissing), whom the request is from (WrongSender), how the view is split
/// (WrongCommon), and nine reasons, each over the core. Choices of `natives` are asked in place of the contract language. Err is want of memory.
pub fn check_view(
    alloc: Global,
    natives: &NativeList,
    input: &CheckInput<'_>,
    view: &Path,
) -> Result<LocalVerdict, AllocError>
    requires checkable { CanCheck input.now view.now }
    ensures by_facts { IfOk result (λ verdict. verdict ≡ verdict_of input.now view.now) }
    ensures by_known { IfOk result (λ verdict. (known : Hash → Status) (held : Hash → Bool) (offer : Offer) → IsGivenKnown input.now known held view.now offer
        → verdict ≡ verdict_by_known input.now known held view.now offer) }
{
    let roots = put_together(alloc, input)?;
    check_view_among(alloc, natives, input, &roots, view)
}

/// The verdict that `check_view` gives on the view with this path. `roots` are the trees of all that is opened, as `put_together` gives them, once for
/// all views of a request.
pub fn check_view_among(
    alloc: Global,
    natives: &NativeList,
    input: &CheckInput<'_>,
    roots: &ActionNodeList,
    view: &Path,
) -> Result<LocalVerdict, AllocError>
    requires together { roots.now ≡ roots_shown input.now.shown }
    requires checkable { CanCheck input.now view.now }
    ensures by_facts { IfOk result (λ verdict. verdict ≡ verdict_of input.now view.now) }
    ensures by_known { IfOk result (λ verdict. (known : Hash → Status) (held : Hash → Bool) (offer : Offer) → IsGivenKnown input.now known held view.now offer
        → verdict ≡ verdict_by_known input.now known held view.now offer) }
{
    match &input.shown {
        Shown::Fixed(reason) => Ok(LocalVerdict::Reject {
            reason: *reason,
            action: 0,
        }),
        Shown::Open(tree) => {
            let tree = tree.opened();
            let opened = OpenedInput {
                setup: input.setup,
                me: input.me,
                sender: input.sender,
                time: input.time,
                tree,
                facts: &input.facts,
            };
            check_opened(alloc, natives, &opened, roots, view)
        }
    }
}

// The verdict on a view where something is opened.
fn check_opened(
    alloc: Global,
    natives: &NativeList,
    input: &OpenedInput<'_>,
    roots: &ActionNodeList,
    view: &Path,
) -> Result<LocalVerdict, AllocError>
    requires together { roots.now ≡ (shown_by input.now.tree.now).roots }
    requires checkable { (opened : OpenedView) → view_at view.now input.now.tree.now ≡ Some opened
        → CanBeChecked input.now.setup.now.checked (shown_by input.now.tree.now) opened }
    ensures { IfOk result (λ verdict. verdict ≡ verdict_of_opened input.now (view_at view.now input.now.tree.now)) }
{
    let nodes = nodes_of(alloc, roots)?;
    let nodes = nodes.as_slice();
    let trees = numbered(alloc, roots, 0)?;
    let trees = trees.as_slice();
    let Some(found) = found_at(alloc, &input.tree.views, trees, view)? else {
        return Ok(LocalVerdict::Reject {
            reason: Reason::ViewMissing,
            action: 0,
        });
    };
    if !is_from_sender(input) {
        return Ok(LocalVerdict::Reject {
            reason: Reason::WrongSender,
            action: 0,
        });
    }
    let starts = starts_in(alloc, &input.tree.views, trees, view)?;
    let starts = starts.as_slice();
    let is_split = is_well_split(alloc, &input.setup.checked, nodes, &found, starts)?;
    if !is_split {
        return Ok(LocalVerdict::Reject {
            reason: Reason::WrongCommon,
            action: 0,
        });
    }
    let core = found.core.as_slice();
    verdict_on(alloc, natives, input, nodes, core, view.len() == 1)
}

fn verdict_on<'a>(
    alloc: Global,
    natives: &'a NativeList,
    input: &'a OpenedInput<'_>,
    nodes: &'a [&ActionNode],
    core: &'a [usize],
    is_root: bool,
) -> Result<LocalVerdict, AllocError>
    requires checkable { All (IsCheckableAt input.now.setup.now.checked (trees_in nodes.now)) core.now }
    requires few { length core.now ≤ 65536 }
    ensures { IfOk result (λ verdict. verdict
        ≡ verdict_after input.now (record { trees = trees_in nodes.now; core = core.now; is_root = is_root }) all_reasons) }
{
    let earlier = actions_of(alloc, nodes)?;
    let trial = Trial {
        alloc,
        input,
        natives,
        nodes,
        earlier: earlier.as_slice(),
        core,
        is_root,
    };
    trial.verdict(&[
        Reason::IdMismatch,
        Reason::NotVetted,
        Reason::TimeSkew,
        Reason::Locked,
        Reason::Inactive,
        Reason::NotFresh,
        Reason::Unordered,
        Reason::NotConformant,
        Reason::NotAuthorised,
    ])
}
