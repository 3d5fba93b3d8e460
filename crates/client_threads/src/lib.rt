//! What threads do with a synchroniser that they share: clients submit in threads of their own, beside lanes that do the participants'
//! work.
#![tactic(auto)]

mod answering;
mod beside;
mod lane_work;
mod result_queue;
mod served;
mod serving;
mod workers;

pub use beside::serve_beside;
pub use result_queue::ResultQueue;
pub use served::Served;
pub use workers::Workers;
