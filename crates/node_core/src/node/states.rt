//! A participant's state, apart from it.
ghost use Rattle.std.specs.Prelude.{◌≡◌, ◌<◌, ◌≤◌, ◌^◌, ◌++◌, ◌∷◌, [], ℕ, List, true, false, IfOk, OnOk, length, map};
ghost use Rattle.std.specs.List.Sorted.{IsStrictlyIncreasing};
ghost use Rattle.canton_model.specs.Inbox.{Item as ItemValue, last_time};
ghost use Rattle.world_model.specs.Node.{waits_at, with_items};
ghost use Rattle.world_model.specs.Places.{has_place};
ghost use Rattle.node_inbox.specs.Beginnings.{start_of};
ghost use Rattle.node_inbox.specs.Raw.{IsCame, item_by};
ghost use Rattle.pruned_inbox.specs.Base;
ghost use Rattle.pruned_inbox.specs.Start.{GoesOn};
ghost use Rattle.node_core.specs.Duties.{AreToDistinct};
ghost use Rattle.node_core.specs.Participant.{IsPrunedTo, items_of, owes_there, params_of, pruned_at, reading_of, with_state};
ghost use Rattle.node_core.specs.States.{AreToCome, IsStateOf, MayBegin, MayWait, begun_again, read_nothing, responses_from, start_in};
ghost use Rattle.node_core.specs.States.{with_claimed, with_outbox};

use crate::copies::{copy_item, copy_response};
use crate::duties::Duties;
use crate::node::Node;
use canton_model::Response;
use confirm_reply::Setup;
use ledger_terms::U64List;
use node_inbox::{Beginning, Inbox};
use node_state::{Item, ItemList, NodeState, ResponseList};
use std::alloc::{AllocError, Global};

impl<'s> Node<'s> {
    /// What it keeps, as a state apart from it. Envelopes are shared and not copied.
    pub fn state(&self, alloc: Global) -> Result<NodeState, AllocError>
        ensures { IfOk result (λ state. IsStateOf self.now state) }
    {
        let beginning = self.inbox.beginning(alloc)?;
        let items = self.inbox.items(alloc)?;
        let outbox = self.duties.responses(alloc)?;
        let done = self.duties.done(alloc, beginning.base)?;
        Ok(self.state_with(beginning, items, outbox, done))
    }

    /// Its state, pruned to the base of its inbox, as if it had forgotten all that it read below that and kept what the inbox leaves there.
    pub fn pruned_state(&self, alloc: Global) -> Result<NodeState, AllocError>
        ensures base { IfOk result (λ state. state.base ≡ Base.base (params_of self.now) (items_of self.now)) }
        ensures start { IfOk result (λ state. GoesOn (reading_of self.now) (items_of self.now) state.base self.now.start (start_in state)) }
        ensures state { IfOk result (λ state. (whole : List ItemValue) → IsPrunedTo whole self.now
            → IsStateOf (pruned_at state.base (start_in state) self.now) state) }
    {
        let base = self.inbox.next_base();
        let beginning = self.inbox.beginning_at(alloc, base)?;
        let items = self.inbox.items_from(alloc, base)?;
        let outbox = self.duties.responses(alloc)?;
        let done = self.duties.done(alloc, base)?;
        Ok(self.state_with(beginning, items, outbox, done))
    }

    // A state of these parts, and of which participant it is and whether it is paused.
    fn state_with(
        &self,
        beginning: Beginning,
        items: ItemList,
        outbox: ResponseList,
        done: U64List,
    ) -> NodeState
        ensures me { result.me ≡ self.now.me }
        ensures base { result.base ≡ beginning.base }
        ensures base_time { result.base_time ≡ beginning.base_time }
        ensures paused { result.paused ≡ self.now.state.is_paused }
        ensures start { start_in result ≡ start_of beginning }
        ensures items { result.items ≡ items }
        ensures outbox { result.outbox ≡ outbox }
        ensures done { result.done ≡ done }
    {
        let Beginning {
            base,
            base_time,
            active,
            gone,
        } = beginning;
        NodeState {
            me: self.me,
            base,
            base_time,
            paused: self.is_paused,
            active,
            gone,
            items,
            outbox,
            done,
        }
    }

    // A participant that begins at the base of a state, and has read nothing there.
    fn begin_at(alloc: Global, setup: &'s Setup, state: &NodeState) -> Result<Node<'s>, AllocError>
        requires { MayBegin setup.now.topology setup.now.checked state.now }
        ensures { IfOk result (λ node. node ≡ read_nothing setup.now.topology setup.now.checked state.now) }
    {
        let beginning = Beginning::with_copies(
            alloc,
            state.base,
            state.base_time,
            state.active.as_slice(),
            state.gone.as_slice(),
        )?;
        let inbox = Inbox::begin_at(alloc, setup, state.me, beginning)?;
        Ok(Node {
            setup,
            me: state.me,
            inbox,
            duties: Duties::new(alloc),
            is_paused: state.paused,
        })
    }

    // Takes up an item that the state has.
    fn put(&mut self, item: Item) -> Result<(), AllocError>
        requires few { length (items_of self.old) < 2 ^ 63 }
        requires rises { last_time (items_of self.old) < item.time }
        requires came { IsCame self.old.topology self.old.packages self.old.me (items_of self.old) item.what }
        ensures { OnOk result (self.new ≡ with_state self.old (with_items self.old.state (items_of self.old ++ item_by self.old.topology item ∷ []))) }
    {
        let place = self.inbox.cursor();
        self.duties.reserve()?;
        self.inbox.put(item)?;
        if self.inbox.owes(place) {
            self.duties.owe(place);
        }
        Ok(())
    }

    // Takes up the items that the state has.
    fn put_all(&mut self, items: &[Item]) -> Result<(), AllocError>
        requires { AreToCome self.old.topology self.old.packages self.old.me (items_of self.old) items.now }
        ensures { OnOk result (self.new
            ≡ with_state self.old (with_items self.old.state (items_of self.old ++ map (item_by self.old.topology) items.now))) }
    {
        for item in items {
            let copy = copy_item(item)?;
            self.put(copy)?;
        }
        Ok(())
    }

    // Takes up the claim of a place whose job was done before.
    fn claim_done(&mut self, place: u64) -> Result<(), AllocError>
        requires owes { owes_there self.old place ≡ true }
        requires new { has_place self.old.state.claimed place ≡ false }
        ensures { OnOk result (self.new ≡ with_state self.old (with_claimed self.old.state (self.old.state.claimed ++ place ∷ []))) }
    {
        self.duties.claim_done(place)?;
        Ok(())
    }

    // Takes up the claims of places whose jobs were done before.
    fn claim_all(&mut self, places: &[u64]) -> Result<(), AllocError>
        requires owes { (k : ℕ) → has_place places.now k ≡ true → owes_there self.old k ≡ true }
        requires none { self.old.state.claimed ≡ [] }
        requires ascend { IsStrictlyIncreasing places.now }
        ensures { OnOk result (self.new ≡ with_state self.old (with_claimed self.old.state places.now)) }
    {
        for place in places {
            self.claim_done(*place)?;
        }
        Ok(())
    }

    // Takes up a response that waited before.
    fn wait(&mut self, response: Response) -> Result<(), AllocError>
        requires { MayWait self.old.state response.request }
        ensures { OnOk result (self.new ≡ with_state self.old (with_outbox self.old.state (self.old.state.outbox ++ response ∷ []))) }
    {
        self.duties.wait(response)?;
        Ok(())
    }

    // Takes up a copy of a response that waited before, unless its request is below the base.
    fn wait_from(&mut self, alloc: Global, base: u64, response: &Response) -> Result<(), AllocError>
        requires { base ≤ response.now.request → MayWait self.old.state response.now.request }
        ensures { OnOk result (self.new ≡ with_state self.old (with_outbox self.old.state
            (self.old.state.outbox ++ responses_from base (response.now ∷ [])))) }
    {
        if response.request < base {
            return Ok(());
        }
        let copy = copy_response(alloc, response)?;
        self.wait(copy)?;
        Ok(())
    }

    // Takes up the responses that waited before, but those to requests below the base.
    fn wait_all(
        &mut self,
        alloc: Global,
        base: u64,
        responses: &[Response],
    ) -> Result<(), AllocError>
        requires may { (k : ℕ) → base ≤ k → waits_at responses.now k ≡ true → MayWait self.old.state k }
        requires once { AreToDistinct responses.now }
        ensures { OnOk result (self.new ≡ with_state self.old (with_outbox self.old.state
            (self.old.state.outbox ++ responses_from base responses.now))) }
    {
        for response in responses {
            self.wait_from(alloc, base, response)?;
        }
        Ok(())
    }

    // Takes up all that the state keeps from its base on.
    fn take_up(&mut self, alloc: Global, state: &NodeState) -> Result<(), AllocError>
        requires begun { self.old ≡ read_nothing self.old.topology self.old.packages state.now }
        requires may { MayBegin self.old.topology self.old.packages state.now }
        ensures { OnOk result (self.new ≡ begun_again self.old.topology self.old.packages state.now) }
    {
        self.put_all(state.items.as_slice())?;
        self.claim_all(state.done.as_slice())?;
        self.wait_all(alloc, state.base, state.outbox.as_slice())?;
        Ok(())
    }

    /// The participant that begins again from a state. It answers every question but `state` as the one whose state it is (which is pruned, where the
    /// state is) would after putting back what that hasn't finished. Responses to requests below the base aren't taken up. Law
    /// `restarted_participants_are_pruned`.
    pub fn from_state(
        alloc: Global,
        setup: &'s Setup,
        state: &NodeState,
    ) -> Result<Node<'s>, AllocError>
        requires { MayBegin setup.now.topology setup.now.checked state.now }
        ensures { IfOk result (λ node. node ≡ begun_again setup.now.topology setup.now.checked state.now) }
    {
        let mut node = Node::begin_at(alloc, setup, state)?;
        node.take_up(alloc, state)?;
        Ok(node)
    }
}
