//! Where the lines of the chart stand.
use crate::story::Story;
use ledger_terms::ParticipantId;
use ledger_terms::limits::MOST_PARTICIPANTS;

/// The width of the chart in units.
pub(crate) const WIDTH: u32 = 1_000;

/// Where the lanes begin, and how wide they are together and each at most.
const LEFT: u32 = 130;

const ROOM: u32 = 540;

const MOST_STEP: u32 = 135;

/// Lanes beside those of the participants.
const OTHERS: u32 = 2;

/// How far from the left edge the words that say what an entry is begin, in units.
pub(crate) const SAYS: u32 = 690;

/// The lanes: one for each participant of which the page tells, one for the log, and in the page of all one for the mediator.
#[derive(Clone, Copy)]
pub(crate) struct Lanes {
    participants: u32,
    step: u32,
}

impl Lanes {
    /// The lanes of a page: one for each participant of which it tells, then the log's and the mediator's, for which a page for one participant leaves
    /// room too. They share the room, each at most `MOST_STEP` wide.
    pub fn of(story: &Story<'_>) -> Lanes {
        let participants = story.tellers.len().min(MOST_PARTICIPANTS) as u32;
        let step = (ROOM / (participants + OTHERS)).min(MOST_STEP);
        Lanes { participants, step }
    }

    /// How wide a lane is, in units.
    pub fn step(&self) -> u32 {
        self.step
    }

    /// How far from the left edge the middle of the lane with this number is, in units. The numbers count from 0: the participants of which the page
    /// tells, then the log, then the mediator.
    pub fn middle(&self, number: u32) -> u32 {
        LEFT.saturating_add(self.step / 2)
            .saturating_add(self.step.saturating_mul(number))
    }

    /// How far from the left edge the middle of the log's lane is, in units.
    pub fn log(&self) -> u32 {
        self.middle(self.participants)
    }

    /// How far from the left edge the middle of the mediator's lane is, in units. A page for one participant has no such lane, and the log's stands
    /// for it.
    pub fn mediator(&self, story: &Story<'_>) -> u32 {
        match story.reader {
            Some(_) => self.log(),
            None => self.middle(self.participants.saturating_add(1)),
        }
    }

    /// How far from the left edge the middle of a participant's lane is, in units. None: the page doesn't tell of the participant.
    pub fn participant(&self, story: &Story<'_>, at: ParticipantId) -> Option<u32> {
        for (number, teller) in (0..=255u32).zip(story.tellers.as_slice()) {
            if teller.me == at {
                return Some(self.middle(number));
            }
        }
        None
    }
}
