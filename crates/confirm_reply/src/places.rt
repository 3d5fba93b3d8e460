//! The reasons, one after another over a whole core.
ghost use Rattle.std.specs.Prelude.{◌≡◌, ◌&&◌, IfOk, slice_get, take};
ghost use Rattle.confirm_reply.specs.Fit.{IsCheckableAt, IsFit, matter_of};
ghost use Rattle.confirm_reply.specs.Nodes.{acts_of, trees_in};
ghost use Rattle.confirm_reply.specs.Opened.{IsCheckable};
ghost use Rattle.confirm_reply.specs.Tried.{first_alone, is_first, place_of, place_shown, shows, shows_at, verdict_after};

use crate::trial::Trial;
use canton_model::{LocalVerdict, Reason};
use consist::Earlier;
use ledger_terms::ActionNode;
use std::alloc::AllocError;

fn front<'a, 'b>(earlier: &'b [Earlier<'a>], count: usize) -> &'b [Earlier<'a>]
    ensures { result.now ≡ take count earlier.now }
{
    if count < earlier.len() {
        &earlier[..count]
    } else {
        earlier
    }
}

fn is_first(core: &[usize], number: usize) -> bool
    ensures { result ≡ is_first core.now number }
{
    match core.first() {
        Some(first) => *first == number,
        None => false,
    }
}

/// The node with a number, and None where there are fewer.
pub(crate) fn node_at<'n>(nodes: &[&'n ActionNode], number: usize) -> Option<&'n ActionNode>
    ensures { result ≡ slice_get nodes.now number }
{
    nodes.get(number).copied()
}

impl Trial<'_, '_, '_> {
    fn node_shows(
        &self,
        reason: Reason,
        number: usize,
        node: &ActionNode,
    ) -> Result<bool, AllocError>
        requires { IsCheckable self.now.input.now.setup.now.checked node.now.root node.now.below }
        ensures { IfOk result (λ b. b ≡ shows self.now.input.now reason node.now.root node.now.below (take number self.now.earlier.now)
            (self.now.is_root && is_first self.now.core.now number)) }
    {
        let asks = self.is_root && is_first(self.core, number);
        self.shows(reason, node, front(self.earlier, number), asks)
    }

    // Whether the action with a number shows a reason.
    fn shows_at(&self, reason: Reason, number: usize) -> Result<bool, AllocError>
        requires checkable { IsCheckableAt self.now.input.now.setup.now.checked (trees_in self.now.nodes.now) number }
        requires earlier { self.now.earlier.now ≡ acts_of self.now.nodes.now }
        ensures { IfOk result (λ b. b ≡ shows_at self.now.input.now (matter_of self.now) reason number) }
    {
        match node_at(self.nodes, number) {
            Some(node) => self.node_shows(reason, number, node),
            None => Ok(false),
        }
    }

    fn first_alone(&self, reason: Reason) -> Result<Option<u16>, AllocError>
        requires { IsFit self.now }
        ensures { IfOk result (λ place. place ≡ first_alone (shows_at self.now.input.now (matter_of self.now) reason) self.now.core.now) }
    {
        match self.core.first() {
            Some(number) => {
                if self.shows_at(reason, *number)? {
                    Ok(Some(0))
                } else {
                    Ok(None)
                }
            }
            None => Ok(None),
        }
    }

    fn place_shown(&self, reason: Reason) -> Result<Option<u16>, AllocError>
        requires { IsFit self.now }
        ensures { IfOk result (λ place. place ≡ place_shown (shows_at self.now.input.now (matter_of self.now) reason) self.now.core.now) }
    {
        let core = self.core;
        for at in 0..core.len() {
            if self.shows_at(reason, core[at])? {
                return Ok(Some(at as u16));
            }
        }
        Ok(None)
    }

    // The place in the core of the first action that shows a reason. Time and conformance are the whole view's.
    fn place_of(&self, reason: Reason) -> Result<Option<u16>, AllocError>
        requires { IsFit self.now }
        ensures { IfOk result (λ place. place ≡ place_of self.now.input.now (matter_of self.now) reason) }
    {
        match reason {
            Reason::TimeSkew => self.first_alone(reason),
            Reason::NotConformant => self.first_alone(reason),
            _ => self.place_shown(reason),
        }
    }

    /// The verdict on the core where these reasons are tried one after another: a rejection for the first that an action shows, else Approve.
    pub(crate) fn verdict(&self, reasons: &[Reason]) -> Result<LocalVerdict, AllocError>
        requires { IsFit self.now }
        ensures { IfOk result (λ verdict. verdict ≡ verdict_after self.now.input.now (matter_of self.now) reasons.now) }
    {
        for reason in reasons {
            if let Some(action) = self.place_of(*reason)? {
                return Ok(LocalVerdict::Reject {
                    reason: *reason,
                    action,
                });
            }
        }
        Ok(LocalVerdict::Approve)
    }
}
