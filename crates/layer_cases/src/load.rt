//! Cases of the command line and of load. `words` with a bar before each word is answered by the job that the words ask for, or by
//! `usage`; `gen` with a count and a seed by the generated script: its participants, times and packages, and for each round the
//! submissions, of many the last alone. Each line is written again before its answer.

mod case;
mod commands;
mod jobs;
mod participants;
mod rounds;

pub(crate) use case::put_answer;
