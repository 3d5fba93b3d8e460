//! The participants of a report.
use crate::lane::Lane;
use crate::words::is_name;
use ledger_terms::ListOf;
use ledger_terms::limits::MOST_PARTICIPANTS;
use std::alloc::{AllocError, Global};

/// The names of a report's participants in order, at most eight. Where the report doesn't end as it has to, it may lack some.
#[derive(Drop)]
pub struct Hosts<'t> {
    names: ListOf<&'t str>,
    has_end: bool,
}

impl<'t> Hosts<'t> {
    /// The names in the lines of participants, the first eight of them.
    pub(crate) fn of(alloc: Global, text: &'t str) -> Result<Hosts<'t>, AllocError> {
        let mut names = ListOf::new(alloc);
        for line in text.lines() {
            if names.len() < MOST_PARTICIPANTS {
                if let Some(name) = participant_in(line) {
                    names.push(name)?;
                }
            }
        }
        Ok(Hosts {
            names,
            has_end: text.ends_with("\nend\n"),
        })
    }

    /// How many participants the report has, at most eight.
    pub fn len(&self) -> usize {
        self.names.len()
    }

    /// The name of the participant with this index. None: the report has fewer.
    pub fn name(&self, lane: Lane) -> Option<&'t str> {
        match self.names.get(lane.0) {
            Some(name) => Some(*name),
            None => None,
        }
    }

    /// The participant of a name, None where there is none. A report without its end is refused in any case, for that or for a line before. As it may
    /// lack lines of participants, each well-formed name is then taken for one, lest a good line before be refused.
    pub(crate) fn lane_of(&self, name: &str) -> Option<Lane> {
        for (at, host) in self.names.as_slice().iter().enumerate() {
            if *host == name {
                return Some(Lane(at));
            }
        }
        if self.has_end || !is_name(name) {
            None
        } else {
            Some(Lane(0))
        }
    }
}

/// The name in a line of the form `participant NAME ..`. None: the line has another form.
fn participant_in(line: &str) -> Option<&str> {
    let after = line.strip_prefix("participant ")?;
    let (name, _) = after.split_once(' ')?;
    if is_name(name) { Some(name) } else { None }
}
