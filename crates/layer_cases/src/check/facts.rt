//! Facts and paths of a case, from words.
use confirm_reply::{IdFacts, IdFactsList};
use ledger_model::Status;
use ledger_terms::{Hash, KnownList, Path, PathList};
use std::alloc::{AllocError, Global};

/// The facts that a word lists, with commas between them: each the number of a contract among those that are known, a point, and
/// its status, which ends in `!` where a request holds the contract.
pub(crate) fn facts_of(
    alloc: Global,
    known: &KnownList,
    word: &str,
) -> Result<IdFactsList, AllocError> {
    let mut facts = IdFactsList::new(alloc);
    for fact in word.split(',') {
        if let Some((number, status)) = fact.split_once('.') {
            if let Some(id) = id_at(known, number) {
                facts.push(fact_on(id, status))?;
            }
        }
    }
    Ok(facts)
}

fn id_at(known: &KnownList, number: &str) -> Option<Hash> {
    let at = number.parse::<usize>().ok()?;
    let found = known.as_slice().get(at)?;
    Some(found.id)
}

fn fact_on(id: Hash, status: &str) -> IdFacts {
    match status.strip_suffix('!') {
        Some(status) => IdFacts {
            id,
            status: status_of(status),
            locked: true,
        },
        None => IdFacts {
            id,
            status: status_of(status),
            locked: false,
        },
    }
}

fn status_of(word: &str) -> Status {
    match word {
        "active" => Status::Active,
        "consumed" => Status::Consumed,
        _ => Status::Unknown,
    }
}

/// The word for a status.
pub(crate) fn status_word(status: Status) -> &'static str {
    match status {
        Status::Active => "active",
        Status::Consumed => "consumed",
        Status::Unknown => "unknown",
    }
}

/// The paths that a word lists, with commas between them.
pub(crate) fn paths_of(alloc: Global, word: &str) -> Result<PathList, AllocError> {
    let mut paths = PathList::new(alloc);
    for path in word.split(',') {
        paths.push(path_of(alloc, path)?)?;
    }
    Ok(paths)
}

/// The path whose steps a word joins by points.
fn path_of(alloc: Global, word: &str) -> Result<Path, AllocError> {
    let mut path = Path::new(alloc);
    for step in word.split('.') {
        path.push(step.parse::<u16>().unwrap_or(0))?;
    }
    Ok(path)
}
