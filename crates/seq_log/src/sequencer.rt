//! The log with what is kept beside it.
ghost use Rattle.std.specs.Prelude.{◌≡◌, ◌+◌, ◌<◌, ◌≤◌, ◌^◌, ◌++◌, ◌∷◌, [], ℕ, List, None, Some, length, OnOk, OnErr, IfOk, IfErr, IfSome, IfNone};
ghost use Rattle.std.specs.Prelude.{vec_len, vec_capacity};
ghost use Rattle.std.specs.VecDeque.{deque_len, deque_capacity};
ghost use Rattle.indexmap.specs.IndexMap.{spare};
ghost use Rattle.canton_model.specs.Mediation.{has_responded};
ghost use Rattle.log_row.specs.LogPrefix.{LogPrefix};
ghost use Rattle.world_model.specs.Messages.{Entry};
ghost use Rattle.world_model.specs.Machine.{Machine};
ghost use Rattle.world_model.specs.Sequencing as s;
ghost use Rattle.world_model.specs.Fits.{MayStand};
ghost use Rattle.world_model.specs.Locks.{SequencerBehind};
ghost use Rattle.seq_log.specs.Indexed.{IsIndexOf};
ghost use Rattle.seq_log.specs.OpenRequests.{open_requests};
ghost use Rattle.seq_log.specs.Sequenced.{IsFor, LeftOpen, prefix_of, cause_of};
ghost use Rattle.seq_log.specs.Slips.{prefix_to};
ghost use mathlib.Core.List.{IsPrefix};

use crate::admission::Admission;
use crate::fault::{AppendFault, AppendRefusal};
use crate::key::key_of;
use crate::log_index::{LogIndex, need_of, next_time};
use crate::open_requests::OpenRequests;
use canton_model::{Entry, Message};
use indexmap::IndexMap;
use ledger_terms::{Params, ParticipantId, Topology};
use log_row::{LogRow, Pen, Slip};
use std::alloc::{AllocError, Global};
use std::collections::VecDeque;
use std::marker::Model;

/// The writer of a log, which hands out a slip for each place.
#[derive(Drop)]
pub struct Sequencer<'r> {
    topology: &'r Topology,
    pen: Pen<'r>,
    slips: Vec<Slip<'r>>,
    index: LogIndex,
}

impl<'r> Model for Sequencer<'r> {
    ghost use Rattle.std.specs.Prelude.{◌≡◌, ◌+◌, ◌≤◌, ◌^◌, length};
    ghost use Rattle.seq_log.specs.Sequenced.{Sequenced};

    ghost Value = { Sequenced };

    ghost use Rattle.seq_log.specs.Indexed.{IsIndexOf};
    ghost use Rattle.seq_log.specs.Slips.{Holds};

    ghost view = { λ s. record { row = s.pen.row; list = s.pen.list; capacity = s.index.capacity; topology = s.topology.now } };

    ghost invariant = { λ s. Holds s.pen s.slips.items × IsIndexOf s.index s.pen.list × (s.index.reserved ≤ s.index.capacity)
        × (s.index.last ≤ 10 ^ 16 + length s.pen.list) × (s.index.params ≡ s.topology.now.params) × (length s.topology.now.hosts ≤ 256) };
}

// Room for one more slip, one more place and one more open request.
fn make_room(slips: &mut Vec<Slip<'_>>, index: &mut LogIndex) -> Result<(), AllocError>
    ensures slips { slips.new.items ≡ slips.old.items }
    ensures kept { (list : List Entry) → IsIndexOf index.old list → IsIndexOf index.new list }
    ensures made { (index.new.params ≡ index.old.params) × (index.new.capacity ≡ index.old.capacity) }
    ensures numbers { (index.new.reserved ≡ index.old.reserved) × (index.new.last ≡ index.old.last) }
    ensures room { OnOk result ((vec_len slips.new < vec_capacity slips.new) × (0 < spare index.new.places)) }
    ensures open_room { OnOk result (deque_len index.new.open_requests.places < deque_capacity index.new.open_requests.places) }
{
    slips.reserve(1)?;
    index.reserve()
}

impl<'r> Sequencer<'r> {
    /// A sequencer of a new and empty log in `row`. `capacity` is how many entries its requests may need in all: two for a request
    /// and one for each confirming participant. The topology tells the times, and which requests are framed.
    pub fn new(
        alloc: Global,
        row: &'r mut LogRow,
        capacity: u64,
        topology: &'r Topology,
    ) -> Result<Sequencer<'r>, AllocError>
        requires { length topology.now.hosts ≤ 256 }
        ensures { IfOk result (λ q. q ≡ record { row = row.old; list = []; capacity = capacity; topology = topology.now }) }
    {
        let pen = row.open()?;
        Ok(Sequencer {
            topology,
            pen,
            slips: Vec::new(alloc),
            index: LogIndex {
                params: topology.params,
                capacity,
                places: IndexMap::new(alloc),
                open_requests: OpenRequests {
                    places: VecDeque::new(alloc),
                },
                reserved: 0,
                last: 0,
            },
        })
    }

    /// Appends the message, and gives its entry's slip. The entry's time is the microsecond after the last entry's; that of a Tick is `now`, in
    /// microseconds, where it is later. After a refusal all is as before, and the message comes back with the fault.
    pub fn append(&mut self, message: Message, now: u64) -> Result<Slip<'r>, AppendRefusal>
        requires { now ≤ 10 ^ 16 }
        ensures made { (self.new.row ≡ self.old.row) × (self.new.capacity ≡ self.old.capacity) × (self.new.topology ≡ self.old.topology) }
        ensures ok { OnOk result ((m : Machine) → IsFor m self.old → s.append_fault m self.old.list message ≡ None) }
        ensures entry { OnOk result (self.new.list ≡ self.old.list ++ s.entry_after now self.old.list message ∷ []) }
        ensures slip { IfOk result (λ slip. slip ≡ prefix_of self.new) }
        ensures err { OnErr result (self.new ≡ self.old) }
        ensures message { IfErr result (λ refusal. refusal.message ≡ message) }
        ensures cause { IfErr result (λ refusal. (m : Machine) → IsFor m self.old
            → IfSome (cause_of refusal.fault) (λ cause. s.append_fault m self.old.list message ≡ Some cause)) }
        ensures memory { IfErr result (λ refusal. (m : Machine) → IsFor m self.old
            → IfNone (cause_of refusal.fault) (LeftOpen (s.append_fault m self.old.list message))) }
        ensures behind { (m : Machine) → IsFor m self.old → SequencerBehind m self.old.list → MayStand m self.old.list message
            → SequencerBehind m self.new.list }
    {
        let alloc = *self.slips.allocator();
        let outline = match self
            .index
            .admit(alloc, self.topology, &self.slips, &message)
        {
            Ok(Admission::Taken(outline)) => outline,
            Ok(Admission::Refused(fault)) => return Err(AppendRefusal { fault, message }),
            Err(AllocError) => {
                let fault = AppendFault::Memory;
                return Err(AppendRefusal { fault, message });
            }
        };
        if make_room(&mut self.slips, &mut self.index).is_err() {
            let fault = AppendFault::Memory;
            return Err(AppendRefusal { fault, message });
        }
        let key = key_of(&message);
        let need = need_of(&message);
        let time = next_time(now, &message, self.index.last);
        let place = self.pen.len();
        match self.pen.publish(Entry { time, message }, outline) {
            Ok(mut slip) => {
                self.slips.push_reserved(slip.again());
                self.index.note(&self.slips, key, place, need, time);
                Ok(slip)
            }
            Err(entry) => Err(AppendRefusal {
                fault: AppendFault::Memory,
                message: entry.message,
            }),
        }
    }

    /// The slip of the entry at a place, counted from 0, and None exactly where the log doesn't reach so far.
    pub fn entry(&mut self, place: u64) -> Option<Slip<'r>>
        ensures same { self.new ≡ self.old }
        ensures some { IfSome result (λ slip. (place < length self.old.list) × (slip ≡ prefix_to (prefix_of self.old) (place + 1))) }
        ensures none { IfNone result (length self.old.list ≤ place) }
    {
        if place >= self.pen.len() {
            return None;
        }
        let slip = &mut self.slips[place as usize];
        Some(slip.again())
    }

    /// How many entries the log has.
    pub fn len(&self) -> u64
        ensures { result ≡ length self.now.list }
    {
        self.pen.len()
    }

    /// The places of the requests that are undecided in the whole log, in rising order.
    pub fn open_requests(&self) -> &VecDeque<u64>
        ensures { result.now.items ≡ open_requests self.now.topology.params self.now.list }
    {
        &self.index.open_requests.places
    }

    /// Whether a response of the participant to the request at a place stands in the log.
    pub fn has_response(&self, request: u64, from: ParticipantId) -> bool
        ensures { result ≡ has_responded request self.now.list from }
    {
        self.index.has_response(request, from)
    }

    /// The times of the topology, with which deadlines and decision times are reckoned.
    pub fn params(&self) -> &Params
        ensures { result.now ≡ self.now.topology.params }
    {
        &self.topology.params
    }

    /// Lets the prover know that the slip's list, which is of this log, begins it. Nothing changes when the program runs.
    pub fn reaches(&mut self, slip: &mut Slip<'r>)
        requires { slip.old.row ≡ self.old.row }
        ensures same { (self.new ≡ self.old) × (slip.new ≡ slip.old) }
        ensures begins { IsPrefix slip.old.list self.old.list }
    {
        self.pen.reaches(slip);
    }
}
