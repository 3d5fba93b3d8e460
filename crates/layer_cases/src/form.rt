//! Cases of spellings: `action`, `tree` or `state`, and bytes in hexadecimal digits. It writes what was read, the place after it and how it
//! is spelled again, or the place of the fault; of a tree also its root hash, and how many views it opens and tells; of a participant's
//! state how much it keeps of what. `opened-for`, a root hash, paths, whether requesters are asked for, and bytes: it writes what these
//! open. `commitments` and ids, each behind a plus or a minus: it writes whether each was added or taken out, and the root of the tree.
//! `difference` and two sets of ids with commas between them: it writes the first bucket in which their trees differ.

mod actions;
mod case;
mod commitments;
mod openings;
mod states;
mod trees;

pub(crate) use case::put_answer;
