//! Work to take the time of, a word and how often it is done. `hash` makes so many hashes of strings of 200 bytes, each from the one
//! before, and writes the last, and `short` of strings of 33 bytes. `wire` encodes the two actions whose digits follow by turns, so many
//! in all, into one buffer, decodes them and encodes them again, and writes how many bytes they took, how many were decoded, and whether
//! their bytes are the same again. `blind` makes and verifies the four trees of a transfer so often, and writes how many hashes were made
//! and how many trees were verified. `request` makes the request of that transfer so often from its command, and writes how many bytes
//! the requests have and how many hashes they took; `strings` makes as many hashes of as long strings and nothing else. `commit` adds so
//! many ids to a tree of commitments and takes them out again, with a root after each, and writes the last root of either; `buckets`
//! hashes as many strings as long as those of its buckets and nodes and nothing else, and writes how many and the last hash. `script` reads
//! what stands behind the number so often as a script, and writes how many bytes it has and how many submissions, or its fault, and
//! `json` as a JSON value and no more. A line that begins otherwise is written again.

mod actions;
mod buckets;
mod case;
mod commits;
mod hashes;
mod scripts;
mod strings;
mod transfers;
mod trees;

pub(crate) use case::put_answer;
