//! Cases of a synchroniser: the word `play`, a name, events with commas between them, and a script as JSON. It plays the events on
//! the script's participants from an empty log on, settles where `settle` is the last word, and lets all participants read the whole
//! log. Then it writes the report, without results, and for each participant whether what it has applied is consistent.
//!
//! After the word `late`, a name and a participant's name it plays the events and then tells of that participant's job: it is polled
//! to its end, put back, claimed again and polled once, and put back and claimed once more. The participant reads an entry, and
//! the last job comes to its end. A line that begins otherwise is written again.
//!
//! An event is `submit` or `raw`, the next submission or raw request of the script's first round; `advance:` with microseconds; `read:`, `validate:`,
//! `reply:`, `lose:`, `pause:` or `wake:` with a participant's name; or `mediator`, `verdict` or `lose-verdict`.

mod answers;
mod events;
mod handed_in;
mod late;
mod late_jobs;
mod plan;
mod playing;
mod telling;

pub(crate) use answers::put_answer;
pub(crate) use telling::put_report;
