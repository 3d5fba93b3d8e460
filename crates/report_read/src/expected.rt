//! What a report has where something else was found.
use std::fmt;

/// What was expected at a place of a report.
#[derive(Clone, Copy)]
pub enum Expected {
    Utf8,
    WholeLine,
    EndOfLine,
    EntryCount,
    Entry,
    Place,
    Time,
    Message,
    Command,
    Recipients,
    Participant,
    Request,
    Views,
    Decision,
    Round,
    Answer,
    Fault,
    Rule,
    Fired,
    OutcomeOrParticipant,
    ParticipantOrEnd,
    Clean,
    Base,
    Withheld,
    Action,
    Instance,
    NothingMore,
}

impl Expected {
    /// What was expected, as the line on a faulty report says it behind `expected`.
    pub fn words(&self) -> &'static str {
        match self {
            Expected::Utf8 => "UTF-8",
            Expected::WholeLine => "the rest of the line and a line feed",
            Expected::EndOfLine => "the end of the line",
            Expected::EntryCount => "'entries' and a number below 2^64",
            Expected::Entry => "an entry",
            Expected::Place => "the entry's place, which is the next",
            Expected::Time => "a time below 2^64",
            Expected::Message => "'request', 'response', 'verdict' or 'tick'",
            Expected::Command => "the name of a command",
            Expected::Recipients => "'to' and the recipients",
            Expected::Participant =>
                "one of the report's participants, of which there are at most 8",
            Expected::Request => "'for' and the place of a request",
            Expected::Views => "paths of views, each with '=' and a verdict",
            Expected::Decision => "a decision",
            Expected::Round => "the number of a round",
            Expected::Answer => "'sent' and a place, or 'refused' and a fault",
            Expected::Fault => "the name of a fault",
            Expected::Rule => "the name of a rule",
            Expected::Fired => "an instance, 'as' and the name of a command",
            Expected::OutcomeOrParticipant =>
                "a result, a rule that fired, an outcome or a participant",
            Expected::ParticipantOrEnd =>
                "a base, a withheld place, a commit, an active contract, a participant or 'end'",
            Expected::Clean => "'clean' and a place, 'time' and a time",
            Expected::Base => "the place to which a participant is pruned",
            Expected::Withheld => "the place of a withheld request",
            Expected::Action => "an action, at most one level below the one before",
            Expected::Instance => "a place and an instance",
            Expected::NothingMore => "nothing behind 'end'",
        }
    }
}

impl fmt::Display for Expected {
    fn fmt<W: fmt::Write>(&self, f: &mut fmt::Formatter<W>) -> fmt::Result {
        f.write_str(self.words())
    }
}
