//! Cases of a synchroniser that is shared, on one thread: the word `share`, a name, and a script as JSON. The first submission of each
//! of its first two rounds is submitted in a sharing of its own, the second one of what the first one left.
//!
//! In each a client submits, asks at once what became of it, takes turns as the only lane, and asks again. In the second a client asks
//! before that by the ticket of the first. Of each the answer has the ticket, what clients are told, and whether what the client had
//! seen stands in the log; and at the end the log with the outcomes. A line that begins otherwise is written again.

mod answers;
mod client;
mod kept;
mod script;
mod sharings;
mod telling;

pub(crate) use answers::put_answer;
