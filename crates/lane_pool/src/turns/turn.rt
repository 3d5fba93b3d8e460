//! A turn of a lane.
ghost use Rattle.std.specs.Prelude.{◌≡◌};

use std::marker::{Model, PhantomData};

/// A turn of a lane that isn't taken yet. It goes with being taken, and only what hands out turns makes one. Contracts see its
/// lane and its number.
#[derive(Drop)]
pub struct Turn<T> {
    lane: u32,
    number: u64,
    of: PhantomData<T>,
}

impl<T> Model for Turn<T> {
    ghost use Rattle.lane_pool.specs.Turns.{OneTurn};

    ghost Value = { OneTurn };

    ghost view = { λ t. record { lane = t.lane; number = t.number } };
}

impl<T> Turn<T> {
    // The one that hands out turns is the module above.
    pub(super) fn of(lane: u32, number: u64) -> Turn<T>
        ensures { result ≡ record { lane = lane; number = number } }
    {
        Turn {
            lane,
            number,
            of: PhantomData,
        }
    }

    /// The number of the turn's lane, from 0.
    pub fn lane(&self) -> u32
        ensures { result ≡ self.now.lane }
    {
        self.lane
    }

    /// The turn's number among the turns of its lane, from 0.
    pub fn number(&self) -> u64
        ensures { result ≡ self.now.number }
    {
        self.number
    }
}
