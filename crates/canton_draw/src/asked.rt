//! What the program is asked.
use ledger_terms::{Name, Text};

/// What the words ask for: the text of help, the chart of a report, a script's requests with their views, with all that is disclosed or
/// with what one participant is shown, or the page of a script's run, of all or of what one participant knows.
#[derive(Drop)]
pub(crate) enum Asked {
    Help(Text),
    Chart,
    Views { reader: Option<Name> },
    Page { reader: Option<Name> },
}
