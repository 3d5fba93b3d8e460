//! The views of a transaction: how it is split into them, and how they are put back.
#![tactic(auto)]

mod act_ref;
mod assembling;
mod begun;
mod core_node;
pub mod laws;
mod listing;
mod moving;
mod opened_tree;
mod placed_view;
mod split_fault;
mod split_view;
mod splitting;
mod trees;
mod views;

pub use act_ref::ActRef;
pub use assembling::assemble;
pub use core_node::{CoreChild, CoreChildList, CoreNode};
pub use listing::{acts_in_view, acts_in_views};
pub use moving::into_assembled;
pub use opened_tree::OpenedTree;
pub use placed_view::{PlacedView, PlacedViewList};
pub use split_fault::SplitFault;
pub use split_view::{SplitView, View, ViewList};
pub use splitting::split;
pub use views::Views;
