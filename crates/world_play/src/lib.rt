//! The world of one synchroniser: its sequencer, its mediator and its participants, and the calls that move it.
#![tactic(auto)]

mod among;
mod answering;
mod beginning;
mod catching_up;
mod deciding;
mod event;
mod handing_in;
mod happening;
pub mod laws;
mod mediating;
mod moving;
mod pass;
mod playing;
mod reading;
mod reading_awake;
mod resuming;
mod scanning;
mod sending;
mod settling;
mod submitting;
mod submitting_each;
mod submitting_raw;
mod turn;
mod validating;
mod world;

pub use among::is_among;
pub use beginning::begin_round;
pub use event::{Event, EventList};
pub use playing::play;
pub use reading::read_to_end;
pub use settling::settle;
pub use submitting_each::submit_each;
pub use submitting_raw::hand_in_raw;
pub use world::{NodeList, World};
