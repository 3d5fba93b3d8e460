//! Whether an action shows a reason.
ghost use Rattle.std.specs.Prelude.{◌≡◌, ◌&&◌, [], true, not, IfOk};
ghost use Rattle.ledger_model.specs.Terms.{id_of, instance_of};
ghost use Rattle.ledger_model.specs.Status.{shows_not_fresh};
ghost use Rattle.canton_model.specs.Checks.{is_within};
ghost use Rattle.canton_model.specs.declared.reason.Reason.TheVariants.{NotAuthorised};
ghost use Rattle.wire_form.specs.Spellable.{IsSpellableInstance};
ghost use Rattle.lang_eval.specs.Language.{has_roles};
ghost use Rattle.interpret.specs.Ids.{is_authentic};
ghost use Rattle.interpret.specs.Tries.{is_tree_possible};
ghost use Rattle.confirm_reply.specs.Facts.{known_status};
ghost use Rattle.confirm_reply.specs.Opened.{IsCheckable};
ghost use Rattle.confirm_reply.specs.Tried.{is_hosted, is_requested, shows};

use crate::facts::{is_locked, status_of};
use crate::hosting::{has_hosted_stakeholder, has_vetted};
use crate::trial::Trial;
use authorise::{authorised, children_authorised};
use canton_model::Reason;
use consist::{Earlier, is_inactive, is_unordered};
use interpret::{is_authentic, reexecute};
use ledger_model::Status;
use ledger_terms::{Action, ActionNode};
use std::alloc::AllocError;

fn is_near(skew: u64, ledger_time: u64, time: u64) -> bool
    ensures { result ≡ is_within skew ledger_time time }
{
    ledger_time.saturating_sub(time) <= skew && time.saturating_sub(ledger_time) <= skew
}

fn is_used(status: Status, action: &Action) -> bool
    ensures { result ≡ shows_not_fresh (λ c. status) (record { seed = []; action = action.now }) }
{
    if !action.is_create() {
        return false;
    }
    match status {
        Status::Unknown => false,
        Status::Active => true,
        Status::Consumed => true,
    }
}

impl Trial<'_, '_, '_> {
    fn is_mismatched(&self, node: &ActionNode) -> Result<bool, AllocError>
        requires { IsSpellableInstance (instance_of node.now.root.action) }
        ensures { IfOk result (λ b. b ≡ not (is_authentic node.now.root)) }
    {
        Ok(!is_authentic(self.alloc, &node.root.seed, &node.root.action)?)
    }

    fn is_skewed(&self) -> bool
        ensures { result ≡ not (is_within self.now.input.now.setup.now.topology.params.skew self.now.input.now.tree.now.ledger_time self.now.input.now.time) }
    {
        let input = self.input;
        !is_near(
            input.setup.topology.params.skew,
            input.tree.ledger_time,
            input.time,
        )
    }

    // What is shown counts where a stakeholder is hosted.
    fn if_hosted(&self, shown: bool, action: &Action) -> Result<bool, AllocError>
        ensures { IfOk result (λ b. b ≡ (shown && is_hosted self.now.input.now (record { seed = []; action = action.now }))) }
    {
        if shown {
            has_hosted_stakeholder(
                self.alloc,
                self.input.setup,
                self.input.me,
                action.instance(),
            )
        } else {
            Ok(false)
        }
    }

    fn status(&self, action: &Action) -> Status
        ensures { result ≡ known_status self.now.input.now.facts.now (id_of action.now) }
    {
        status_of(self.input.facts, action.id())
    }

    fn conforms(&self, node: &ActionNode) -> Result<bool, AllocError>
        ensures { IfOk result (λ b. b ≡ is_tree_possible self.now.input.now.setup.now.checked node.now.root.action node.now.below) }
    {
        reexecute(self.alloc, &self.input.setup.checked, self.natives, node)
    }

    fn is_requested(&self, action: &Action) -> Result<bool, AllocError>
        requires { has_roles self.now.input.now.setup.now.checked action.now ≡ true }
        ensures { IfOk result (λ b. b ≡ is_requested self.now.input.now (record { seed = []; action = action.now })) }
    {
        match &self.input.tree.requesters {
            Some(requesters) => authorised(
                self.alloc,
                &self.input.setup.checked,
                action,
                requesters,
            ),
            None => Ok(false),
        }
    }

    fn lacks_authority(&self, node: &ActionNode, asks: bool) -> Result<bool, AllocError>
        requires { IsCheckable self.now.input.now.setup.now.checked node.now.root node.now.below }
        ensures { IfOk result (λ b. b ≡ shows self.now.input.now NotAuthorised node.now.root node.now.below [] asks) }
    {
        if !children_authorised(self.alloc, &self.input.setup.checked, node)? {
            return Ok(true);
        }
        if !asks {
            return Ok(false);
        }
        Ok(!self.is_requested(&node.root.action)?)
    }

    /// Whether an action shows a reason to reject its view, after the opened actions before it; `asks` tells whether the requesters have to authorise
    /// it. The four reasons that are a whole view's no action shows.
    pub(crate) fn shows(
        &self,
        reason: Reason,
        node: &ActionNode,
        earlier: &[Earlier<'_>],
        asks: bool,
    ) -> Result<bool, AllocError>
        requires { IsCheckable self.now.input.now.setup.now.checked node.now.root node.now.below }
        ensures { IfOk result (λ b. b ≡ shows self.now.input.now reason node.now.root node.now.below earlier.now asks) }
    {
        let action = &node.root.action;
        match reason {
            Reason::IdMismatch => self.is_mismatched(node),
            Reason::NotVetted => Ok(!has_vetted(self.input, action.instance().template.package)),
            Reason::TimeSkew => Ok(self.is_skewed()),
            Reason::Locked => { self.if_hosted(is_locked(self.input.facts, action.id()), action) }
            Reason::Inactive => {
                self.if_hosted(is_inactive(self.status(action), earlier, action), action)
            }
            Reason::NotFresh => self.if_hosted(is_used(self.status(action), action), action),
            Reason::Unordered => self.if_hosted(is_unordered(earlier, action), action),
            Reason::NotConformant => Ok(!self.conforms(node)?),
            Reason::NotAuthorised => self.lacks_authority(node, asks),
            Reason::RootMismatch
            | Reason::ViewMissing
            | Reason::WrongSender
            | Reason::WrongCommon => Ok(false),
        }
    }
}
