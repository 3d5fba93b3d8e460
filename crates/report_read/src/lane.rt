//! Lanes: a report's participants by their order.

/// How many participants a report may have.
const MOST_LANES: usize = 8;

/// A participant, by its index in the report; in a chart it has a lane of its own.
#[derive(Clone, Copy, PartialEq, Eq)]
pub struct Lane(pub usize);

/// A set of participants of a report.
#[derive(Clone, Copy)]
pub struct LaneSet {
    lanes: [bool; MOST_LANES],
}

impl LaneSet {
    /// The empty set.
    pub fn none() -> LaneSet {
        LaneSet {
            lanes: [false; MOST_LANES],
        }
    }

    /// The set of the first `count` participants; of more than eight it has eight.
    pub fn first(count: usize) -> LaneSet {
        let mut lanes = LaneSet::none();
        for at in 0..count {
            lanes.insert(Lane(at));
        }
        lanes
    }

    /// Adds a participant. One that isn't among the first eight of the report is left out.
    pub fn insert(&mut self, lane: Lane) {
        if lane.0 < MOST_LANES {
            self.lanes[lane.0] = true;
        }
    }

    /// Whether a participant is in the set.
    pub fn contains(&self, lane: Lane) -> bool {
        lane.0 < MOST_LANES && self.lanes[lane.0]
    }
}
