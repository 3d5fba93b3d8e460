//! Cases of transactions: the word `script`, a name, and a script as JSON. For each submission of the script it writes its
//! transaction, what the rules say of it, who is asked to confirm it, the tree of each participant and of the mediator, whether the
//! request has its bytes, and what is read of it; or why there is none. Each raw request it writes as it is read, and whether it is
//! framed. Of a script that is refused it writes the first fault. A line that begins otherwise is written again.

mod case;
mod given;
mod opened;
mod raws;
mod requests;
mod roles_given;
mod rules;
mod script;
mod submissions;
mod told;

pub(crate) use case::put_answer;
pub(crate) use opened::put_tree;
pub(crate) use requests::{recipients, sealed};
pub(crate) use script::script_in;
pub(crate) use submissions::transaction_of;
