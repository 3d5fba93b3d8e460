//! What threads share of a synchroniser: the sequencer, the mediator and each participant behind a lock of its own, clients that
//! submit, and lanes that do the participants' work.
#![tactic(auto)]

mod client;
mod completing;
mod lane;
mod locked_log;
mod locked_mediator;
mod locked_node;
mod locked_nodes;
mod node_lock;
mod node_step;
mod prepared;
mod round_rules;
mod session;
mod shared;
mod slips;
mod submitting;
mod sync_parts;
mod ticket;
mod watched_job;

pub use client::Client;
pub use locked_log::last_of;
pub use round_rules::RoundRules;
pub use session::Session;
pub use shared::Shared;
pub use slips::again;
pub use sync_parts::SyncParts;
pub use ticket::Ticket;
