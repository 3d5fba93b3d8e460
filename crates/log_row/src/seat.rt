//! What the seats of a row know, and the kinds of step.
use atomic_table::{Join, Play, Seat, Shared, Split, Table, TableRule};
use canton_model::Entry;
use std::alloc::Global;
use std::collections::LinkedList;
use std::marker::{Brand, PhantomData};

/// What a seat knows, which a pen or a slip has: whether it is the writer's, which entries there are, and the lists that were joined into it.
/// No value of it is made.
pub struct View {
    pub writes: bool,
    pub list: LinkedList<Entry>,
    pub joined: LinkedList<LinkedList<Entry>>,
}

/// The rule of a row's table: the list that a seat knows begins the writer's, and the table's word is the length of that.
pub struct Law;

impl TableRule<(), View, ()> for Law {
    ghost use Rattle.std.specs.Prelude.{[]};
    ghost use Rattle.log_row.specs.Seats.{Kept, writer};

    ghost holds = { λ _. Kept };

    ghost first = { λ _. writer [] };
}

/// Which entries a step adds. Each call picks them.
pub trait Adds {
    ghost use Rattle.std.specs.Prelude.{List};
    ghost use Rattle.canton_model.specs.declared.entry.Entry.{Entry};

    ghost entries: { List Entry };
}

impl Adds for Brand {
    ghost use Rattle.std.specs.Prelude.{[]};

    ghost entries = { [] };
}

/// The writer appends.
pub struct Append<J> {
    entries: PhantomData<J>,
}

impl<J: Adds> Play<(), View> for Append<J> {
    ghost use Rattle.log_row.specs.Seats.{Appends};

    ghost then = { Appends J.entries };
}

/// A seat learns that each list that was joined into its own begins that.
pub struct Learn;

impl Play<(), View> for Learn {
    ghost use Rattle.log_row.specs.Seats.{Learns};

    ghost then = { Learns };
}

/// A new seat with the same list.
pub struct Copied;

impl Split<View> for Copied {
    ghost use Rattle.log_row.specs.Seats.{copied};

    ghost left = { λ v. v };

    ghost right = { copied };
}

/// Two seats in one.
pub struct Joined;

impl Join<View> for Joined {
    ghost use Rattle.std.specs.Prelude.{[]};
    ghost use Rattle.log_row.specs.Seats.{joined, reader};

    ghost both = { joined };

    ghost spent = { reader [] };
}

/// The table behind a row, which the pen and the slips have in common.
pub type RowTable = Table<(), View, (), Law, Global>;

/// What the steps of all seats go through: the table's one word, which is the length of the history.
pub type RowShared = Shared<(), View, (), Law>;

/// The seat that a pen or a slip has at the table.
pub type RowSeat = Seat<(), View>;
