//! The words of the command line.
#![tactic(auto)]

mod arguments;
mod job;
mod jobs;
mod laws;
mod limits;
mod numbers;
mod read;
mod run_options;
mod word_list;
mod words_fault;

pub use job::Job;
pub use laws::limits_are_those_of_the_words;
pub use limits::{MOST_COUNT, MOST_DIGITS, MOST_SEED, MOST_WORKERS};
pub use read::read_words;
pub use word_list::WordList;
pub use words_fault::WordsFault;
