//! Cases of what a participant's own checks and stores answer:
//! - `job NAME PLACE PATHS PARTICIPANT TIME FACTS SCRIPT`: the polls of the job in which a participant, given by its index, checks these views of
//!   the script's last transaction, by facts on contracts that are spelled as in `facts.rt`.
//! - `tracker begin PLACE DECISION`, `tracker advance COUNT`, `tracker expire TIME`, `tracker settle PLACE OUTCOME` and `tracker outcome PLACE`:
//!   what a tracker tells after the call.
//! - `store create FIRST STEP COUNT PLACE`, so `consume` and `hold`, `store contract NUMBER`, `store row AT NUMBER` and `store release PLACE`:
//!   what a store tells after the call.
//! - `requests CHANGE FIRST STEP COUNT OUTCOME`: tracker and store follow so many requests, and are compared with plain lists.
//! - `new`: tracker, store and lists begin anew; each other call goes on from those before it. A line that begins otherwise is written again.

mod case;
mod facts;
mod jobs;
mod plain;
mod polls;
mod received;
mod requests;
mod stores;
mod trackers;

pub(crate) use case::Cases;
pub(crate) use facts::paths_of;
pub(crate) use polls::put_poll;
