//! Where things stand.
use report_read::Lane;
use svg_text::Point;

/// The width of every picture in units. A letter of the least size, 12, is then above 9 pixels high where a picture is 800 wide.
pub const WIDTH: u32 = 1_000;

/// The left edge of texts.
pub const LEFT: u32 = 20;

/// Where the lanes begin, and how wide they are together.
const LANES_LEFT: u32 = 150;

const LANES_WIDTH: u32 = 540;

/// How wide a lane is at most.
const MOST_STEP: u32 = 135;

/// Where the words for an entry begin, and how wide they may be.
pub const SAYS_LEFT: u32 = 712;

pub const SAYS_WIDTH: u32 = 276;

/// The height of an entry's row.
pub const ROW_HEIGHT: u32 = 48;

/// The height of a line of a list, and of the gap behind a list.
pub const LINE_HEIGHT: u32 = 20;

pub const LIST_GAP: u32 = 24;

/// Lanes beside those of the participants: the sequencer's log and the mediator.
const OTHER_LANES: u32 = 2;

/// Participants that have lanes.
const MOST_LANES: u32 = 8;

/// Where the lanes stand: one for each participant, one for the sequencer's log, one for the mediator.
#[derive(Clone, Copy)]
pub struct Lanes {
    participants: u32,
    step: u32,
}

impl Lanes {
    /// The lanes for so many participants, at most eight, which share the room, each at most `MOST_STEP` wide.
    pub fn of(participants: usize) -> Lanes {
        let participants = (participants.min(MOST_LANES as usize)) as u32;
        let step = (LANES_WIDTH / (participants + OTHER_LANES)).min(MOST_STEP);
        Lanes { participants, step }
    }

    /// How wide a lane is, in units.
    pub fn step(&self) -> u32 {
        self.step
    }

    /// How far from the left edge the middle of a participant's lane is, in units.
    pub fn participant(&self, lane: Lane) -> u32 {
        self.middle(lane.0.min(MOST_LANES as usize) as u32)
    }

    /// How far from the left edge the middle of the log's lane is, right of all participants'.
    pub fn sequencer(&self) -> u32 {
        self.middle(self.participants)
    }

    /// How far from the left edge the middle of the mediator's lane is, the last one.
    pub fn mediator(&self) -> u32 {
        self.middle(self.participants.saturating_add(1))
    }

    /// How far from the left edge the middle of the lane with this number is, counted from 0.
    fn middle(&self, index: u32) -> u32 {
        LANES_LEFT
            .saturating_add(self.step / 2)
            .saturating_add(self.step.saturating_mul(index))
    }
}

/// The point that is `x` units from the left and `y` units from the top.
pub fn at(x: u32, y: u32) -> Point {
    Point { x, y }
}
