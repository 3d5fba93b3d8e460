//! An inbox.
ghost use Rattle.std.specs.Prelude.{◌≡◌, ◌<◌, ◌^◌, ◌&&◌, true, is_some, length, option_copied, IfOk, OnOk, OnErr};
ghost use Rattle.canton_model.specs.declared.request.Request.{Request as RequestValue};
ghost use Rattle.canton_model.specs.declared.message.Message.TheVariants.{Request as RequestMessage};
ghost use Rattle.canton_model.specs.Inbox.{Nothing, Told, last_time, notice_at, received};
ghost use Rattle.framed_form.specs.Outlines.{IsOutline, IsOutlined};
ghost use Rattle.node_inbox.specs.Beginnings.{IsBeginning, start_of};
ghost use Rattle.node_inbox.specs.Coming.{IsTelling};
ghost use Rattle.node_inbox.specs.Entries.{item_from, told_if_received};
ghost use Rattle.node_inbox.specs.InboxState.{begun, begun_at, reading_of, with_item};
ghost use Rattle.node_inbox.specs.Raw.{IsCame, IsOfRequest, item_by};
ghost use Rattle.node_inbox.specs.Reads.{item_with};
ghost use Rattle.node_state.specs.declared.item_what.ItemWhat.TheVariants as Raw;

mod answers;
mod next_base;

use crate::added_ids::{added_ids, create_gone, put_ids};
use crate::approved_places::{ApprovedPlaces, bring_up};
use crate::beginning::{Beginning, write_start};
use crate::coming::coming;
use crate::coming_again::{RawRequest, coming_again};
use crate::kept_active::{KeptActive, are_at_most, is_far, keep_active_if};
use crate::kept_items::KeptItems;
use crate::putting::{put_nothing, put_request, put_verdict};
use crate::telling::{ComingVerdict, telling};
use canton_model::{Entry, Message, Request, Verdict};
use confirm_reply::Setup;
use inbox_registry::{KeptStart, Registry};
use ledger_terms::ParticipantId;
use node_state::{Item, ItemWhat};
use prepare_request::HostedIds;
use prepare_request::laws::ids_tell_after_each_change;
use proto_model::Outline;
use std::alloc::{AllocError, Global};
use std::marker::Model;

/// What a participant has read of the log, item by item, and what it keeps beside that.
#[derive(Drop)]
pub struct Inbox<'s> {
    setup: &'s Setup,
    me: ParticipantId,
    base: u64,
    base_time: u64,
    items: KeptItems,
    registry: Registry,
    hosted: HostedIds,
    // no contract was created twice, and none that is gone
    is_once: bool,
    approved: ApprovedPlaces,
    active: Option<KeptActive>,
}

impl<'s> Model for Inbox<'s> {
    ghost use Rattle.node_inbox.specs.InboxState.{InboxState};

    ghost Value = { InboxState };

    ghost use Rattle.ledger_terms.specs.Forest.{coded_forest};
    ghost use Rattle.ledger_terms.specs.Packages.{coded_package};
    ghost use Rattle.std.specs.Coded.{codes};

    ghost coded = { Prim.hlevel (codes, coded_forest, coded_package) };

    ghost use Rattle.node_inbox.specs.Items.{model_items};

    ghost view = { λ i. record {
      topology = i.setup.now.topology;
      packages = i.setup.now.checked;
      me = i.me;
      base = i.base;
      base_time = i.base_time;
      start = i.registry.start;
      items = model_items i.items.items;
    } };

    ghost use Rattle.node_inbox.specs.Kept.{BeginsAt, IsInbox};
    ghost use Rattle.framed_form.specs.FramedReading.{framed_reading};
    ghost use Rattle.prepare_request.specs.Hosted.{AreTold};
    ghost use Rattle.node_inbox.specs.Offered.{AreOnceIf};
    ghost use Rattle.node_inbox.specs.Places.{AreApproved};
    ghost use Rattle.node_inbox.specs.KeptActive.{AreActiveIf};

    ghost invariant = { λ i. IsInbox i.setup.now.topology i.setup.now.checked i.me i.items.items i.registry
        × AreTold (framed_reading i.setup.now.topology i.setup.now.checked) i.me i.hosted.ids i.registry.store.rows
        × AreOnceIf i.is_once (framed_reading i.setup.now.topology i.setup.now.checked) i.registry.start (model_items i.items.items)
        × AreApproved i.setup.now.topology.params (model_items i.items.items) i.approved
        × AreActiveIf (framed_reading i.setup.now.topology i.setup.now.checked) i.me i.registry.start (model_items i.items.items) i.active
        × BeginsAt i.base i.registry.start (model_items i.items.items) };
}

impl<'s> Inbox<'s> {
    /// An inbox of participant `me`, which has read nothing.
    pub fn new(alloc: Global, setup: &'s Setup, me: ParticipantId) -> Inbox<'s>
        ensures { result ≡ begun setup.now.topology setup.now.checked me }
    {
        let items = KeptItems::at(alloc, 0, 0);
        let registry = Registry::new(alloc);
        let hosted = HostedIds::new(alloc);
        let approved = ApprovedPlaces::new(alloc);
        ids_tell_after_each_change();
        Inbox {
            setup,
            me,
            base: 0,
            base_time: 0,
            items,
            registry,
            hosted,
            is_once: true,
            approved,
            active: None,
        }
    }

    /// An inbox of participant `me`, which has forgotten all that it read below a base but what the beginning says that it left there; its cursor is
    /// the base. The beginning has to be one that an inbox may have (`IsBeginning`): its active contracts were created below the base, stand in order
    /// of their places, each once, and none of them is gone. Err is want of memory.
    pub fn begin_at(
        alloc: Global,
        setup: &'s Setup,
        me: ParticipantId,
        beginning: Beginning,
    ) -> Result<Inbox<'s>, AllocError>
        requires { IsBeginning beginning.base beginning.base_time (start_of beginning) }
        ensures { IfOk result (λ inbox. inbox
            ≡ begun_at setup.now.topology setup.now.checked me beginning.base beginning.base_time (start_of beginning)) }
    {
        let Beginning {
            base,
            base_time,
            active,
            gone,
        } = beginning;
        let items = KeptItems::at(alloc, base, base_time);
        let start = KeptStart::of(alloc, active, &gone)?;
        let mut registry = Registry::at(alloc, base, start);
        let mut hosted = HostedIds::new(alloc);
        let approved = ApprovedPlaces::at(alloc, base);
        ids_tell_after_each_change();
        write_start(setup, me, &mut hosted, &mut registry)?;
        Ok(Inbox {
            setup,
            me,
            base,
            base_time,
            items,
            registry,
            hosted,
            is_once: true,
            approved,
            active: None,
        })
    }

    /// The place below which it has forgotten what it read. It is 0 where it has forgotten nothing. Takes no memory.
    pub fn base(&self) -> u64
        ensures { result ≡ self.now.base }
    {
        self.base
    }

    /// How many entries were read, with those that are forgotten: the place of the next one.
    pub fn cursor(&self) -> u64
        ensures { result ≡ length self.now.items }
    {
        self.items.len()
    }

    fn read_nothing(&mut self, time: u64) -> Result<(), AllocError>
        requires few { length self.old.items < 2 ^ 63 }
        requires rises { last_time self.old.items < time }
        ensures ok { OnOk result (self.new ≡ with_item self.old (item_with time Nothing)) }
        ensures err { OnErr result (self.new ≡ self.old) }
    {
        put_nothing(
            self.setup,
            self.me,
            &mut self.items,
            &mut self.registry,
            time,
        )
    }

    fn read_request(
        &mut self,
        time: u64,
        request: &Request,
        outline: &Outline,
    ) -> Result<(), AllocError>
        requires few { length self.old.items < 2 ^ 63 }
        requires rises { last_time self.old.items < time }
        requires framed { (reading_of self.old).is_framed request.now ≡ true }
        requires outline { IsOutline request.now outline.now }
        ensures ok { OnOk result (self.new ≡ with_item self.old (item_with time (received (reading_of self.old) self.old.me request.now))) }
        ensures err { OnErr result (self.new ≡ self.old) }
    {
        let alloc = *self.items.allocator();
        match coming(alloc, self.setup, self.me, request, outline)? {
            Some(coming) => put_request(
                self.setup,
                self.me,
                &mut self.items,
                &mut self.registry,
                time,
                coming,
            ),
            None => self.read_nothing(time),
        }
    }

    fn read_verdict(&mut self, time: u64, verdict: &Verdict) -> Result<(), AllocError>
        requires few { length self.old.items < 2 ^ 63 }
        requires rises { last_time self.old.items < time }
        ensures ok { OnOk result (self.new ≡ with_item self.old (item_with time (told_if_received self.old.items verdict.now))) }
        ensures err { OnErr result (self.new ≡ self.old) }
    {
        let alloc = *self.items.allocator();
        match telling(
            alloc,
            self.setup,
            self.me,
            &self.items,
            &self.registry,
            verdict,
        )? {
            Some(coming) => self.put_verdict(time, coming),
            None => self.read_nothing(time),
        }
    }

    fn put_verdict(&mut self, time: u64, coming: ComingVerdict) -> Result<(), AllocError>
        requires few { length self.old.items < 2 ^ 63 }
        requires rises { last_time self.old.items < time }
        requires coming { IsTelling (reading_of self.old) self.old.items coming.verdict coming }
        ensures ok { OnOk result (self.new ≡ with_item self.old (item_with time (Told coming.verdict))) }
        ensures err { OnErr result (self.new ≡ self.old) }
    {
        let place = coming.verdict.request;
        let (ids, are_new) = added_ids(
            *self.items.allocator(),
            self.setup,
            self.me,
            self.registry.store(),
            coming.changes.as_slice(),
        )?;
        let some_gone = create_gone(self.registry.start(), coming.changes.as_slice());
        self.hosted.reserve(ids.as_slice().len())?;
        put_verdict(
            self.setup,
            self.me,
            &mut self.items,
            &mut self.registry,
            time,
            coming,
        )?;
        ids_tell_after_each_change();
        put_ids(&mut self.hosted, &ids);
        let are_new = both(are_new, !some_gone);
        self.is_once = both(self.is_once, are_new);
        // what is kept was true below a place, and a verdict on a request there may come late
        let is_approved_kept = self.approved.below <= place;
        self.approved.keep_if(is_approved_kept, self.base);
        let is_active_kept = both(are_new, are_at_most(&self.active, place));
        keep_active_if(&mut self.active, is_active_kept);
        Ok(())
    }

    // The places of the approved requests are brought up to the clean place, as far as there is memory.
    fn bring_up(&mut self) -> Result<(), AllocError>
        ensures { self.new ≡ self.old }
    {
        let clean = self.clean();
        bring_up(&mut self.approved, &self.registry, clean)
    }

    // Whether a place is far behind that of the contracts that are kept, or behind the base, as many of them as there are.
    fn is_far(&self, place: u64) -> bool {
        match &self.active {
            Some(active) => active.is_far(place),
            None => is_far(self.base, self.registry.start().active().len(), place),
        }
    }

    // Where all that was read is decided, and more came since than a few times as many entries as contracts are kept, those at the
    // cursor take their place. So a question goes through hardly more than it answers, and few contracts are copied for each entry.
    fn move_on(&mut self) -> Result<(), AllocError>
        ensures { self.new ≡ self.old }
    {
        let place = self.cursor();
        if self.clean() == place && self.is_far(place) {
            let alloc = *self.items.allocator();
            let rows = self.active_at(alloc, place)?;
            self.active = Some(KeptActive { place, rows });
        }
        Ok(())
    }

    /// Reads the next entry of the log. Where it brings a request `outline` is what the request's mediator's bytes tell; else it isn't looked at. Takes
    /// all memory before it changes anything, so an error leaves the inbox as it was.
    pub fn read(&mut self, entry: &Entry, outline: Option<&Outline>) -> Result<(), AllocError>
        requires few { length self.old.items < 2 ^ 63 }
        requires rises { last_time self.old.items < entry.now.time }
        requires framed { (q : RequestValue) → entry.now.message ≡ RequestMessage q → (reading_of self.old).is_framed q ≡ true }
        requires outlined { IsOutlined entry.now.message (option_copied outline) }
        ensures ok { OnOk result (self.new ≡ with_item self.old (item_from (reading_of self.old) self.old.me self.old.items entry.now)) }
        ensures err { OnErr result (self.new ≡ self.old) }
    {
        self.bring_up()?;
        self.move_on()?;
        match &entry.message {
            Message::Request(request) => match outline {
                Some(outline) => self.read_request(entry.time, request, outline),
                None => unreachable!(),
            },
            Message::Verdict(verdict) => self.read_verdict(entry.time, verdict),
            Message::Response(_) => self.read_nothing(entry.time),
            Message::Tick => self.read_nothing(entry.time),
        }
    }

    // A request that came before comes again.
    fn put_again(&mut self, time: u64, raw: RawRequest) -> Result<(), AllocError>
        requires few { length self.old.items < 2 ^ 63 }
        requires rises { last_time self.old.items < time }
        requires came { IsOfRequest self.old.topology self.old.packages self.old.me raw.sender raw.command raw.root raw.seen raw.confirmed raw.envelope }
        ensures ok { OnOk result (self.new ≡ with_item self.old (item_by self.old.topology
            (record { time = time; what = Raw.Request raw.sender raw.command raw.root raw.seen raw.confirmed raw.envelope }))) }
        ensures err { OnErr result (self.new ≡ self.old) }
    {
        let alloc = *self.items.allocator();
        let coming = coming_again(alloc, self.setup, self.me, raw)?;
        put_request(
            self.setup,
            self.me,
            &mut self.items,
            &mut self.registry,
            time,
            coming,
        )
    }

    // A verdict that was told before is told again.
    fn tell_again(&mut self, time: u64, verdict: &Verdict) -> Result<(), AllocError>
        requires few { length self.old.items < 2 ^ 63 }
        requires rises { last_time self.old.items < time }
        requires received { is_some (notice_at self.old.items verdict.now.request) ≡ true }
        ensures ok { OnOk result (self.new ≡ with_item self.old (item_with time (Told verdict.now))) }
        ensures err { OnErr result (self.new ≡ self.old) }
    {
        self.read_verdict(time, verdict)
    }

    fn put_item(&mut self, item: Item) -> Result<(), AllocError>
        requires few { length self.old.items < 2 ^ 63 }
        requires rises { last_time self.old.items < item.time }
        requires came { IsCame self.old.topology self.old.packages self.old.me self.old.items item.what }
        ensures ok { OnOk result (self.new ≡ with_item self.old (item_by self.old.topology item)) }
        ensures err { OnErr result (self.new ≡ self.old) }
    {
        let Item { time, what } = item;
        match what {
            ItemWhat::Nothing => self.read_nothing(time),
            ItemWhat::Verdict(verdict) => self.tell_again(time, &verdict),
            ItemWhat::Request {
                sender,
                command,
                root,
                seen,
                confirmed,
                envelope,
            } => self.put_again(
                time,
                RawRequest {
                    sender,
                    command,
                    root,
                    seen,
                    confirmed,
                    envelope,
                },
            ),
        }
    }

    /// Puts a raw item, which an inbox of this participant had, behind those that were read. Takes all memory before it changes anything, so an error
    /// leaves the inbox as it was.
    pub fn put(&mut self, item: Item) -> Result<(), AllocError>
        requires few { length self.old.items < 2 ^ 63 }
        requires rises { last_time self.old.items < item.time }
        requires came { IsCame self.old.topology self.old.packages self.old.me self.old.items item.what }
        ensures ok { OnOk result (self.new ≡ with_item self.old (item_by self.old.topology item)) }
        ensures err { OnErr result (self.new ≡ self.old) }
    {
        self.bring_up()?;
        self.move_on()?;
        self.put_item(item)
    }
}

fn both(first: bool, second: bool) -> bool
    ensures { result ≡ (first && second) }
{
    first && second
}
