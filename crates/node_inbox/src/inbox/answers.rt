//! What is asked of an inbox.
ghost use Rattle.std.specs.Prelude.{◌≡◌, ◌<◌, ◌≤◌, ◌&&◌, ℕ, List, [], true, drop, length, is_some, map, option_copied, take, unwrap_or, IfOk};
ghost use Rattle.canton_model.specs.Inbox.{clean, clean_time, is_decided_in, is_locked_in_inbox, last_time, moments, node_log, notice_at, withheld};
ghost use Rattle.canton_model.specs.Timeline.{verdict_on};
ghost use Rattle.world_model.specs.Node.{owes_at};
ghost use Rattle.contract_store.specs.Active.{knowns};
ghost use Rattle.pruned_inbox.specs.Start.{GoesOn, active_kept, status_kept};
ghost use Rattle.contract_store.specs.Stored.{is_held};
ghost use Rattle.contract_store.specs.Written.{holding, written};
ghost use Rattle.inbox_registry.specs.Changes.{changes_since, pending_changes};
ghost use Rattle.inbox_registry.specs.Requests.{outcome_received};
ghost use Rattle.inbox_registry.specs.Registry.{known_status};
ghost use Rattle.validate_job.specs.Owed.{owed_on_each};
ghost use Rattle.prepare_request.specs.Hosted.{hosted_rows};
ghost use Rattle.node_inbox.specs.Beginnings.{start_of};
ghost use Rattle.node_inbox.specs.InboxState.{decided_since, owed_kept, params_of, reading_of};
ghost use Rattle.node_inbox.specs.Offered.{offered};
ghost use Rattle.node_inbox.specs.Raw.{AreCame, item_by};

use crate::active_rows::{active_rows, rows_below};
use crate::applied::applied;
use crate::beginning::Beginning;
use crate::decided_since::decided_since;
use crate::decision::decision_at;
use crate::hosting::Hosting;
use crate::inbox::Inbox;
use crate::items::{request_at, time_at, time_before};
use crate::job::job;
use crate::leaving::{gone_in, left_in};
use crate::offered_contracts::OfferedContracts;
use crate::outcomes::{is_decided, is_without_verdict};
use crate::raw_items::raw_items;
use crate::remains::InboxRemains;
use crate::taking::into_applied;
use crate::withheld::withheld;
use canton_model::{Decision, Outcome};
use contract_store::Store;
use ledger_model::CommitList;
use ledger_terms::{ActiveRowList, Exact, KnownList, U64List};
use node_state::ItemList;
use prepare_request::HostedContracts;
use prepare_request::laws::ids_tell_after_each_change;
use std::alloc::{AllocError, Global};
use validate_job::ValidateJob;

impl<'s> Inbox<'s> {
    /// A copy of what it began with: its base, the time of the entry before that, and what was left there.
    pub fn beginning(&self, alloc: Global) -> Result<Beginning, AllocError>
        ensures base { IfOk result (λ beginning. beginning.base ≡ self.now.base) }
        ensures base_time { IfOk result (λ beginning. beginning.base_time ≡ self.now.base_time) }
        ensures active { IfOk result (λ beginning. beginning.active ≡ self.now.start.active) }
        ensures gone { IfOk result (λ beginning. beginning.gone ≡ self.now.start.gone) }
    {
        let start = self.registry.start();
        let active = start.active().as_slice();
        Beginning::with_copies(alloc, self.base, self.base_time, active, start.gone())
    }

    /// What an inbox would begin with that forgets all that this one read below a place and goes on as this one. Goes through the places below that.
    pub fn beginning_at(&self, alloc: Global, place: u64) -> Result<Beginning, AllocError>
        requires { place ≤ length self.now.items }
        ensures base { IfOk result (λ beginning. beginning.base ≡ place) }
        ensures base_time { IfOk result (λ beginning. beginning.base_time ≡ last_time (take place self.now.items)) }
        ensures start { IfOk result (λ beginning. GoesOn (reading_of self.now) self.now.items place self.now.start (start_of beginning)) }
    {
        let start = self.registry.start();
        let live = rows_below(alloc, self.setup, &self.items, &self.registry, place)?;
        let active = left_in(alloc, start, &live)?;
        let gone = gone_in(alloc, start.gone(), &live)?;
        Ok(Beginning {
            base: place,
            base_time: time_before(&self.items, place),
            active,
            gone,
        })
    }

    /// The items that it read from its base on, as a state has them. Envelopes aren't copied.
    pub fn items(&self, alloc: Global) -> Result<ItemList, AllocError>
        ensures items { IfOk result (λ items. map (item_by self.now.topology) items ≡ drop self.now.base self.now.items) }
        ensures came { IfOk result (λ items. AreCame self.now.topology self.now.packages self.now.me self.now.base self.now.items items) }
    {
        let items = raw_items(alloc, &self.items, self.base)?;
        Ok(items)
    }

    /// The items that it read from a place on, as a state has them. Envelopes aren't copied.
    pub fn items_from(&self, alloc: Global, place: u64) -> Result<ItemList, AllocError>
        requires { place ≤ length self.now.items }
        ensures items { IfOk result (λ items. map (item_by self.now.topology) items ≡ drop place self.now.items) }
        ensures came { IfOk result (λ items. AreCame self.now.topology self.now.packages self.now.me place self.now.items items) }
    {
        let items = raw_items(alloc, &self.items, place)?;
        Ok(items)
    }

    /// The clean place: the place of the first request received that isn't decided at the cursor, and the cursor where there is none.
    pub fn clean(&self) -> u64
        ensures { result ≡ clean (params_of self.now) self.now.items }
    {
        self.registry.clean()
    }

    /// The time of the entry before the clean place, in microseconds, and 0 where there is none.
    pub fn clean_time(&self) -> u64
        ensures { result ≡ clean_time (params_of self.now) self.now.items }
    {
        let clean = self.clean();
        if clean == 0 {
            return 0;
        }
        time_at(&self.items, clean - 1)
    }

    /// What became of the request that was received at a place, and none exactly where none was.
    pub fn outcome(&self, place: u64) -> Option<Outcome>
        ensures { result ≡ outcome_received (params_of self.now) self.now.items place }
    {
        self.registry.outcome(place)
    }

    /// The decision of the verdict on the request at a place, and none where no request was received there or no verdict came on it. Goes through
    /// what was read from that place up to the verdict, and through nothing where none came on a request that was received.
    pub fn decision(&self, place: u64) -> Option<&Decision>
        ensures { option_copied result ≡ verdict_on place (moments self.now.items) }
    {
        if is_without_verdict(self.outcome(place)) {
            return None;
        }
        decision_at(&self.items, place)
    }

    /// Whether a request was received at a place and is decided at the cursor.
    pub fn is_decided(&self, place: u64) -> bool
        ensures { result ≡ (is_some (notice_at self.now.items place)
            && is_decided_in (params_of self.now) self.now.items place (length self.now.items)) }
    {
        is_decided(self.outcome(place))
    }

    /// Whether the participant confirms a view of the request at a place, and so owes verdicts to it, be it decided or not. It is false where none
    /// was received there.
    pub fn owes(&self, place: u64) -> bool
        ensures { result ≡ owes_at (reading_of self.now) self.now.me self.now.items place }
    {
        match request_at(&self.items, place) {
            Some(kept) => !kept.confirmed.is_empty(),
            None => false,
        }
    }

    /// What the participant knows of contracts at the cursor: a row for each, and which are held by requests that aren't decided there.
    pub fn store(&self) -> &Store
        ensures rows { result.now.rows ≡ written (changes_since (reading_of self.now) self.now.start self.now.items) [] }
        ensures holds { result.now.holds ≡ holding (pending_changes (reading_of self.now) (params_of self.now) self.now.items) }
        ensures status { (c : List ℕ) → known_status self.now.start result.now.rows c
            ≡ status_kept (reading_of self.now) self.now.start self.now.items (length self.now.items) c }
        ensures locked { (c : List ℕ) → is_held result.now.holds c
            ≡ is_locked_in_inbox (reading_of self.now) (params_of self.now) self.now.items (length self.now.items) c }
    {
        self.registry.store()
    }

    // The active contracts of the store with a hosted stakeholder.
    fn hosted_contracts(&self) -> HostedContracts<'_>
        ensures { hosted_rows result.hosted.now.ids result.store.now.rows
            ≡ knowns (offered (reading_of self.now) self.now.me (written (changes_since (reading_of self.now) self.now.start self.now.items) [])) }
    {
        ids_tell_after_each_change();
        HostedContracts {
            store: self.registry.store(),
            hosted: &self.hosted,
        }
    }

    /// The active contracts with a hosted stakeholder at a place, in order of creation, by all that was read. Up to the clean place they are the
    /// ledger's. Goes through the places below that one, or, where the inbox keeps those of an earlier place, through the places since alone.
    pub fn active_at(&self, alloc: Global, place: u64) -> Result<ActiveRowList, AllocError>
        ensures { IfOk result (λ rows. rows ≡ active_kept (reading_of self.now) self.now.me self.now.start self.now.items place) }
    {
        let hosting = Hosting::new(
            self.setup,
            self.me,
            self.registry.start(),
            self.hosted_contracts(),
        );
        active_rows(
            alloc,
            &hosting,
            &self.items,
            &self.registry,
            &self.active,
            place,
        )
    }

    // The active contracts with a hosted stakeholder at the cursor, as a list.
    fn listed(&self) -> Result<KnownList, AllocError>
        ensures { IfOk result (λ known. known ≡ knowns (active_kept (reading_of self.now) self.now.me self.now.start self.now.items (length self.now.items))) }
    {
        let alloc = *self.items.allocator();
        let rows = self.active_at(alloc, self.cursor())?;
        knowns_of(alloc, &rows)
    }

    /// The contracts that the participant offers: those with a hosted stakeholder that are active at the cursor, in order of creation. They are made
    /// into a list where a contract may have been created twice, since the store has of it what the first verdict told and not what its first Create
    /// says.
    pub fn known(&self) -> Result<OfferedContracts<'_>, AllocError>
        ensures { IfOk result (λ o. unwrap_or o.listed (hosted_rows o.stored.hosted.now.ids o.stored.store.now.rows)
            ≡ knowns (active_kept (reading_of self.now) self.now.me self.now.start self.now.items (length self.now.items))) }
    {
        let stored = self.hosted_contracts();
        if self.is_once {
            return Ok(OfferedContracts {
                stored,
                listed: None,
            });
        }
        let listed = self.listed()?;
        Ok(OfferedContracts {
            stored,
            listed: Some(listed),
        })
    }

    /// The first place at which the request at `place` is decided, and the cursor where it is undecided. Goes through what was read from the
    /// request's place on.
    pub fn decided_since(&self, place: u64) -> u64
        ensures { result ≡ decided_since (params_of self.now) self.now.items place }
    {
        decided_since(&self.setup.topology.params, &self.items, place)
    }

    /// The check that the participant owes to the request at a place, by what it knew when it had read that entry.
    pub fn job(&self, alloc: Global, place: u64) -> Result<ValidateJob<'s>, AllocError>
        requires { owes_at (reading_of self.now) self.now.me self.now.items place ≡ true }
        ensures place { IfOk result (λ job. job.given.place ≡ place) }
        ensures left { IfOk result (λ job. job.left ≡ length job.given.views) }
        ensures some { IfOk result (λ job. 0 < job.left) }
        ensures owed { IfOk result (λ job. owed_on_each job.given.input job.given.views
            ≡ owed_kept (reading_of self.now) (params_of self.now) self.now.me self.now.start self.now.items place) }
    {
        job(alloc, self.setup, self.me, &self.items, place)
    }

    /// The commits of the approved requests from the base on and below the clean place, as they are opened, without those of which nothing is opened.
    pub fn applied(&self, alloc: Global) -> Result<CommitList, AllocError>
        ensures { IfOk result (λ commits. commits ≡ node_log (params_of self.now) self.now.items) }
    {
        applied(
            alloc,
            self.setup,
            &self.items,
            &self.registry,
            &self.approved,
            self.clean(),
        )
    }

    /// The commits of the approved requests from the base on and below the clean place, as they are opened, without those of which nothing is opened.
    /// They are made of the inbox itself: actions that nobody else looks at are moved and not copied.
    pub fn into_applied(self) -> Result<CommitList, AllocError>
        ensures { IfOk result (λ commits. commits ≡ node_log (params_of self.entry) self.entry.items) }
    {
        let end = self.clean();
        let Inbox {
            setup,
            items,
            registry,
            ..
        } = self;
        into_applied(setup, items, &registry, end)
    }

    /// The places that are withheld from the participant, ascending: approved requests below the clean place of which it sees a view and has no
    /// complete envelope. Those below the base are forgotten and not among them.
    pub fn withheld(&self) -> Result<U64List, AllocError>
        ensures { IfOk result (λ places. places ≡ withheld (params_of self.now) self.now.items) }
    {
        withheld(
            *self.items.allocator(),
            self.setup,
            &self.items,
            &self.registry,
            &self.approved,
            self.clean(),
        )
    }

    /// Takes the inbox apart, when nobody asks it any more: all that it kept, without what it borrows. Of these remains nothing can be asked; they are
    /// dropped, or forgotten by a program that ends, since giving them back piece by piece would take long.
    pub fn into_remains(self) -> InboxRemains {
        let Inbox {
            items,
            registry,
            hosted,
            approved,
            active,
            ..
        } = self;
        InboxRemains::new(items, registry, hosted, approved, active)
    }

    /// The active contracts with a hosted stakeholder at the clean place, in order of creation. Goes through the places below that one, or, where the
    /// inbox keeps those of an earlier place, through the places since alone.
    pub fn active(&self, alloc: Global) -> Result<ActiveRowList, AllocError>
        ensures { IfOk result (λ rows. rows
            ≡ active_kept (reading_of self.now) self.now.me self.now.start self.now.items (clean (params_of self.now) self.now.items)) }
    {
        self.active_at(alloc, self.clean())
    }
}

// The contracts of active rows.
fn knowns_of(alloc: Global, rows: &ActiveRowList) -> Result<KnownList, AllocError>
    ensures { IfOk result (λ known. known ≡ knowns rows.now) }
{
    let mut known = KnownList::with_room(alloc, rows.len())?;
    for row in rows.as_slice() {
        known.push(row.known.copied()?)?;
    }
    Ok(known)
}
