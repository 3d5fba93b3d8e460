//! One participant's inbox, with what is kept beside it: a store of contracts, the requests that it received, and what its checks
//! will need, so that no question goes through the whole inbox.
#![tactic(auto)]

mod actions;
mod active_rows;
mod added_ids;
mod applied;
mod approved_places;
mod beginning;
mod boxed_request;
mod change_lists;
mod coming;
mod coming_again;
mod decided_since;
mod decision;
mod facts;
mod hosting;
mod inbox;
mod item_ref;
mod items;
mod job;
mod kept_active;
mod kept_item;
mod kept_items;
mod kept_offer;
pub mod laws;
mod leaving;
mod live_row;
mod live_rows;
mod offered_contracts;
mod outcomes;
mod putting;
mod raw_items;
mod remains;
mod taking;
mod telling;
mod withheld;

pub use beginning::Beginning;
pub use boxed_request::BoxedRequest;
pub use inbox::Inbox;
pub use kept_item::{KeptContent, KeptItem, KeptRequest};
pub use kept_offer::KeptOffer;
pub use offered_contracts::OfferedContracts;
pub use remains::InboxRemains;
