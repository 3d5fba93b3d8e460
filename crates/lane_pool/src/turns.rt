//! The turns that lanes have left.
ghost use Rattle.std.specs.Prelude.{◌≡◌, ◌+◌, ◌<◌, ◌≤◌};

mod turn;

use std::marker::{Model, PhantomData};
pub use turn::Turn;

/// Turns that are left to be taken, each once: of each of some lanes the same ones. All are made of one `T`, which goes with it, so
/// who can't make a `T` has each of them once. Contracts see of which lanes and which turns.
#[derive(Drop)]
pub(crate) struct Turns<T> {
    from: u32,
    end: u32,
    next: u64,
    turns: u64,
    of: PhantomData<T>,
}

impl<T> Model for Turns<T> {
    ghost use Rattle.lane_pool.specs.Turns.{TurnsLeft};

    ghost Value = { TurnsLeft };

    ghost view = { λ t. record { from = t.from; end = t.end; next = t.next; turns = t.turns } };
}

impl<T> Turns<T> {
    /// The turns 0 to `turns - 1` of each of the lanes 0 to `lanes - 1`.
    pub(crate) fn of(start: T, lanes: u32, turns: u64) -> Turns<T>
    where
        T: Drop,
        ensures { result ≡ record { from = 0; end = lanes; next = 0; turns = turns } }
    {
        drop(start);
        Turns {
            from: 0,
            end: lanes,
            next: 0,
            turns,
            of: PhantomData,
        }
    }

    /// The turns of the first `low` lanes, and the turns of the others.
    pub(crate) fn split(self, low: u32) -> (Turns<T>, Turns<T>)
        requires { self.from + low ≤ self.end }
        ensures low { result.0 ≡ record self { end = self.from + low } }
        ensures high { result.1 ≡ record self { from = self.from + low } }
    {
        let Turns {
            from,
            end,
            next,
            turns,
            of: _,
        } = self;
        let half = from + low;
        let low = Turns {
            from,
            end: half,
            next,
            turns,
            of: PhantomData,
        };
        let high = Turns {
            from: half,
            end,
            next,
            turns,
            of: PhantomData,
        };
        (low, high)
    }

    /// The number before which each lane's turns end.
    pub(crate) fn turns(&self) -> u64
        ensures { result ≡ self.now.turns }
    {
        self.turns
    }

    /// The next turn of the only lane.
    pub(crate) fn next(&mut self) -> Turn<T>
        requires one { self.old.end ≡ self.old.from + 1 }
        requires some { self.old.next < self.old.turns }
        ensures turn { result ≡ record { lane = self.old.from; number = self.old.next } }
        ensures left { self.new ≡ record self.old { next = self.old.next + 1 } }
    {
        let turn = Turn::of(self.from, self.next);
        self.next += 1;
        turn
    }
}
