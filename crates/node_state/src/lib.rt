//! What a participant keeps, as a state apart from it.
#![tactic(auto)]

mod item;
mod item_what;
mod node_state;

pub use item::{Item, ItemList};
pub use item_what::ItemWhat;
pub use node_state::{NodeState, ResponseList};
