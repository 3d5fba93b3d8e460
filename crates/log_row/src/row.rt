//! The log with one writer.
ghost use Rattle.std.specs.Prelude.{◌≡◌, ℕ, ◌+◌, ◌<◌, ◌^◌, ◌++◌, ◌∷◌, [], length, Some, option_copied, slice_get, IfOk, MatchResult, OnErr, OnOk};
ghost use Rattle.canton_model.specs.declared.entry.Entry.{Entry as EntryValue};
ghost use Rattle.framed_form.specs.Outlines.{IsOutlined};
ghost use Rattle.log_row.specs.LogPrefix.{extended, Agree};
ghost use Rattle.log_row.specs.Seats.{writer};
ghost use mathlib.Core.List.{IsPrefix};

use crate::entry_rows::EntryRows;
use crate::seat::{Adds, Append, Copied, Joined, Learn, RowSeat, RowShared, RowTable};
use crate::stored::Stored;
use canton_model::Entry;
use framed_form::Outline;
use std::alloc::{AllocError, Global};
use std::marker::{Brand, Model};
use std::mem;

/// What the slips of one history have in common.
#[derive(Drop)]
struct Storage {
    entry_rows: EntryRows,
    table: RowTable,
}

impl Storage {
    fn new(alloc: Global) -> Result<(Storage, RowSeat), AllocError>
        ensures { IfOk result (λ g. (g.1.table_id ≡ g.0.table.shared.table_id) × (g.1.table_id.words ≡ 1) × (g.1.me ≡ (writer [], []))) }
    {
        let (table, seat) = RowTable::of_words(alloc, &[0], &())?;
        let entry_rows = EntryRows::new(alloc)?;
        Ok((Storage { entry_rows, table }, seat))
    }
}

// The history that is written, and the next one with the seat of its writer.
#[derive(Drop)]
struct Histories {
    alloc: Global,
    current: Storage,
    next: Storage,
    seat: RowSeat,
}

impl Histories {
    fn new(alloc: Global) -> Result<Histories, AllocError>
        ensures { IfOk result (λ h. (h.seat.table_id ≡ h.next.table.shared.table_id) × (h.seat.table_id.words ≡ 1) × (h.seat.me ≡ (writer [], []))) }
    {
        let (current, _seat) = Storage::new(alloc)?;
        let (next, seat) = Storage::new(alloc)?;
        Ok(Histories {
            alloc,
            current,
            next,
            seat,
        })
    }

    // The next one is written from here on, and a fresh one is next. It gives the seat of the writer. It stands alone since no clause
    // of `open` can say what a refusal leaves of a row that its answer may borrow.
    fn turn(&mut self) -> Result<RowSeat, AllocError>
        ensures seat { IfOk result (λ seat. seat ≡ self.old.seat) }
        ensures current { OnOk result (self.new.current ≡ self.old.next) }
        ensures next { OnOk result ((self.new.seat.table_id ≡ self.new.next.table.shared.table_id) × (self.new.seat.table_id.words ≡ 1)
            × (self.new.seat.me ≡ (writer [], []))) }
        ensures err { OnErr result (self.new ≡ self.old) }
    {
        let (fresh, fresh_seat) = Storage::new(self.alloc)?;
        self.current = mem::replace(&mut self.next, fresh);
        Ok(mem::replace(&mut self.seat, fresh_seat))
    }
}

/// The place of a log. To a contract it is the name of the history that `open` begins next.
#[derive(Drop)]
pub struct LogRow {
    histories: Histories,
}

impl Model for LogRow {
    ghost use Rattle.std.specs.Prelude.{◌≡◌, []};
    ghost use Rattle.atomic_table.specs.Seated.{TableId, table_id_coded};

    ghost Value = { TableId };

    ghost coded = { table_id_coded };

    ghost use Rattle.log_row.specs.Seats.{writer};

    ghost view = { λ r. r.histories.seat.table_id };

    ghost invariant = { λ r. (r.histories.seat.table_id ≡ r.histories.next.table.shared.table_id) × (r.histories.seat.table_id.words ≡ 1)
        × (r.histories.seat.me ≡ (writer [], [])) };
}

/// The one writer of a history.
#[derive(Drop)]
pub struct Pen<'r> {
    storage: &'r Storage,
    seat: RowSeat,
    count: u64,
}

impl<'r> Model for Pen<'r> {
    ghost use Rattle.std.specs.Prelude.{◌≡◌, [], length};
    ghost use Rattle.log_row.specs.LogPrefix.{LogPrefix};

    ghost Value = { LogPrefix };

    ghost use Rattle.log_row.specs.Seats.{writer};

    ghost view = { λ p. record { row = p.seat.table_id; list = p.seat.me.0.list } };

    ghost invariant = { λ p. (p.seat.table_id ≡ p.storage.now.table.shared.table_id) × (p.seat.table_id.words ≡ 1)
        × (p.seat.me ≡ (writer p.seat.me.0.list, [])) × (p.count ≡ length p.seat.me.0.list) };
}

/// One published entry, with all that stands before it.
#[derive(Drop)]
pub struct Slip<'r> {
    storage: &'r Storage,
    seat: RowSeat,
    place: u64,
    stored: &'r Stored,
}

impl<'r> Model for Slip<'r> {
    ghost use Rattle.std.specs.Prelude.{◌≡◌, ◌<◌, ◌^◌, []};
    ghost use Rattle.log_row.specs.LogPrefix.{LogPrefix, EndsAt};

    ghost Value = { LogPrefix };

    ghost use Rattle.log_row.specs.Seats.{reader};

    ghost view = { λ s. record { row = s.seat.table_id; list = s.seat.me.0.list } };

    ghost invariant = { λ s. (s.seat.table_id ≡ s.storage.now.table.shared.table_id) × (s.seat.table_id.words ≡ 1)
        × (s.seat.me ≡ (reader s.seat.me.0.list, [])) × EndsAt s.seat.me.0.list s.place s.stored.now × (s.place < 2 ^ 63) };
}

impl LogRow {
    /// A row in which no history has begun.
    pub fn new(alloc: Global) -> Result<LogRow, AllocError> {
        let histories = Histories::new(alloc)?;
        Ok(LogRow { histories })
    }

    /// Begins a new and empty history in the row, and gives the pen that alone writes it. All memory is taken before anything changes.
    pub fn open<'r>(&'r mut self) -> Result<Pen<'r>, AllocError>
        ensures named { IfOk result (λ p. p.row ≡ self.old) }
        ensures empty { IfOk result (λ p. p.list ≡ []) }
    {
        let seat = self.histories.turn()?;
        Ok(Pen {
            storage: &self.histories.current,
            seat,
            count: 0,
        })
    }
}

// The writer's seat adds one entry.
fn append<J: Adds>(row: &RowShared, seat: &mut RowSeat, entry: &Entry)
    requires names { J.entries ≡ entry.now ∷ [] }
    requires seat { (seat.old.table_id ≡ row.now.table_id) × (seat.old.table_id.words ≡ 1) × (seat.old.me ≡ (writer seat.old.me.0.list, [])) }
    requires room { length seat.old.me.0.list + 1 < 2 ^ 64 }
    ensures same { seat.new.table_id ≡ seat.old.table_id }
    ensures list { seat.new.me ≡ (writer (seat.old.me.0.list ++ entry.now ∷ []), []) }
{
    row.fetch_add::<Append<J>>(seat, 0, 1);
}

impl<'r> Pen<'r> {
    /// How many entries the history has.
    pub fn len(&self) -> u64
        ensures { result ≡ length self.now.list }
    {
        self.count
    }

    /// Appends the entry to the history, and gives its slip. `outline` is what the mediator's bytes tell where the entry brings a request, and is
    /// kept beside it. Where there is no memory the entry comes back as the Err, and nothing changes.
    pub fn publish(&mut self, entry: Entry, outline: Option<Outline>) -> Result<Slip<'r>, Entry>
        requires room { length self.old.list < 2 ^ 63 }
        requires outlined { IsOutlined entry.message outline }
        ensures { MatchResult result (λ s. (self.new ≡ extended self.old entry) × (s ≡ self.new)) (λ e. (self.new ≡ self.old) × (e ≡ entry)) }
    {
        let fresh = Stored::new(entry, outline);
        let stored = match self.storage.entry_rows.put(self.count, fresh) {
            Ok(stored) => stored,
            Err(stored) => return Err(stored.into_entry()),
        };
        append::<Brand>(&self.storage.table.shared, &mut self.seat, stored.entry());
        let seat = self
            .storage
            .table
            .shared
            .split_seat::<Copied>(&mut self.seat);
        let place = self.count;
        self.count += 1;
        Ok(Slip {
            storage: self.storage,
            seat,
            place,
            stored,
        })
    }

    /// Lets the prover know that the slip's list, which is of this history, begins it. Nothing changes when the program runs.
    pub fn reaches(&mut self, slip: &mut Slip<'r>)
        requires { slip.old.row ≡ self.old.row }
        ensures same { (self.new ≡ self.old) × (slip.new ≡ slip.old) }
        ensures begins { IsPrefix slip.old.list self.old.list }
    {
        let theirs = self
            .storage
            .table
            .shared
            .split_seat::<Copied>(&mut slip.seat);
        self.storage
            .table
            .shared
            .join_seat::<Joined>(&mut self.seat, theirs);
        self.storage.table.shared.load::<Learn>(&mut self.seat, 0);
    }
}

impl<'r> Slip<'r> {
    /// The place in the log of the entry that the slip stands for, counted from 0.
    pub fn place(&self) -> u64
        ensures place { length self.now.list ≡ result + 1 }
        ensures few { result < 2 ^ 63 }
    {
        self.place
    }

    /// The entry that the slip stands for.
    pub fn entry(&self) -> &Entry
        ensures { (k : ℕ) → length self.now.list ≡ k + 1 → slice_get self.now.list k ≡ Some result.now }
    {
        self.stored.entry()
    }

    /// What the mediator's bytes tell, where the entry brings a request. Where it brings another message this says nothing.
    pub fn outline(&self) -> Option<&Outline>
        ensures { (k : ℕ) (entry : EntryValue) → length self.now.list ≡ k + 1 → slice_get self.now.list k ≡ Some entry
            → IsOutlined entry.message (option_copied result) }
    {
        self.stored.outline()
    }

    /// A second slip of the same entry, which knows the same list.
    pub fn again(&mut self) -> Slip<'r>
        ensures same { self.new ≡ self.old }
        ensures again { result ≡ self.old }
    {
        let seat = self
            .storage
            .table
            .shared
            .split_seat::<Copied>(&mut self.seat);
        Slip {
            storage: self.storage,
            seat,
            place: self.place,
            stored: self.stored,
        }
    }

    /// Lets the prover know that the list of one of two slips of one history begins the other's. Nothing changes when the program runs.
    pub fn compare(&mut self, other: &mut Slip<'r>)
        requires { other.old.row ≡ self.old.row }
        ensures same { (self.new ≡ self.old) × (other.new ≡ other.old) }
        ensures agree { Agree self.old.list other.old.list }
    {
        let mut mine = self
            .storage
            .table
            .shared
            .split_seat::<Copied>(&mut self.seat);
        let theirs = self
            .storage
            .table
            .shared
            .split_seat::<Copied>(&mut other.seat);
        self.storage
            .table
            .shared
            .join_seat::<Joined>(&mut mine, theirs);
        self.storage.table.shared.load::<Learn>(&mut mine, 0);
    }
}
