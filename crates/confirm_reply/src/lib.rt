//! What one participant checks of a view, and its verdict.
#![tactic(auto)]

mod check_input;
mod condition;
mod cores;
mod facts;
mod found_view;
mod hosting;
mod id_facts;
pub mod laws;
mod numbered;
mod numbering;
mod opened;
mod opened_input;
mod places;
mod reasons;
mod sender;
mod setup;
mod shared_tree;
mod shown;
mod starts;
mod trial;
mod view_check;
mod well_split;

pub use canton_model::{LocalVerdict, Reason, ViewVerdict, ViewVerdictList};
pub use check_input::CheckInput;
pub use condition::can_check;
pub use hosting::has_hosted_stakeholder;
pub use id_facts::{IdFacts, IdFactsList};
pub use setup::Setup;
pub use shared_tree::SharedTree;
pub use shown::Shown;
pub use view_check::{check_view, check_view_among, put_together};
