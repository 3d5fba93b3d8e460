//! Requests in blinded envelopes: how they are made, and what they open.
#![tactic(auto)]

pub mod laws;
mod mediator_tree;
mod naming;
mod notice;
mod opening;
mod participants;
mod sealing;
mod seeing;

pub use blind_tree::{OpenedFor, OpenedTree, RolesTree};
pub use canton_model::{
    Decision, Entry, EntryList, Envelope, EnvelopeList, LocalVerdict, Message, Outcome, Reason,
    Request, Response, SharedBytes, Verdict, ViewVerdict, ViewVerdictList,
};
pub use confirm_reply::Setup;
pub use framed_form::{Outline, framed, read_outline, tree_in};
pub use ledger_model::Status;
pub use mediator_tree::requested_views;
pub use notice::{Notice, if_known, read_notice};
pub use opening::envelope_of;
pub use sealing::seal;
pub use seeing::{has_root, seen_among};
