//! Places in rising order.
ghost use Rattle.std.specs.Prelude.{◌≡◌, ◌+◌, ◌<◌, ◌≤◌, ℕ, true, min, length, get_or, insert, remove, vec_len, vec_capacity, MatchOption};
ghost use Rattle.request_track.specs.Pairs.{Rising, in_place, without, first_or, put_if, drop_if};

// The place at an index of the vector.
fn place_at(places: &Vec<u64>, at: usize) -> u64
    requires { at < vec_len places.now }
    ensures { result ≡ get_or places.now.items at 0 }
{
    places[at]
}

// How many of the places are smaller than `place`.
fn count_below(places: &[u64], place: u64) -> usize
    requires { Rising places.now }
    ensures within { result ≤ length places.now }
    ensures below { (k : ℕ) → k < result → get_or places.now k 0 < place }
    ensures above { (k : ℕ) → result ≤ k → k < length places.now → place ≤ get_or places.now k 0 }
{
    places.partition_point(|there| *there < place)
}

// The index at which a place belongs: in front of the first that isn't smaller.
fn place_for(places: &Vec<u64>, place: u64) -> usize
    requires { Rising places.now.items }
    ensures within { result ≤ vec_len places.now }
    ensures parts { insert places.now.items result place ≡ in_place place places.now.items }
{
    count_below(places.as_slice(), place)
}

/// Puts one more place into rising places, in front of the first that isn't smaller. Room was made for it, so it takes no memory.
pub fn insert_place(places: &mut Vec<u64>, place: u64)
    requires room { vec_len places.old < vec_capacity places.old }
    requires rising { Rising places.old.items }
    ensures places { places.new.items ≡ in_place place places.old.items }
    ensures len { vec_len places.new ≡ vec_len places.old + 1 }
    ensures capacity { vec_capacity places.old ≤ vec_capacity places.new }
{
    let at = place_for(places, place);
    places.insert(at, place).unwrap();
}

// The index at which a place stands, and None where it isn't there.
fn place_of(places: &Vec<u64>, place: u64) -> Option<usize>
    requires { Rising places.now.items }
    ensures { MatchOption result (without place places.now.items ≡ places.now.items)
        (λ at. (at < vec_len places.now) × (remove places.now.items at ≡ without place places.now.items)) }
{
    let count = places.len();
    let at = count_below(places.as_slice(), place);
    if at == count {
        return None;
    }
    let there = place_at(places, at);
    if there == place {
        return Some(at);
    }
    None
}

/// Takes a place out of rising places, the first one where it stands there twice. Nothing changes where it isn't there.
pub fn remove_place(places: &mut Vec<u64>, place: u64)
    requires { Rising places.old.items }
    ensures places { places.new.items ≡ without place places.old.items }
    ensures len { vec_len places.new ≤ vec_len places.old }
    ensures capacity { vec_capacity places.new ≡ vec_capacity places.old }
{
    if let Some(at) = place_of(places, place) {
        let _ = places.remove(at);
    }
}

/// The first of the rising places, or the cursor, where the cursor is less or there is no place.
pub fn first_or(places: &Vec<u64>, cursor: u64) -> u64
    ensures { result ≡ first_or places.now.items cursor }
{
    match places.first() {
        Some(first) => { if *first < cursor { *first } else { cursor } }
        None => cursor,
    }
}

/// Puts one more place into rising places, in front of the first that isn't smaller, where `wanted` is true; else nothing changes. Room was made for
/// it, so it takes no memory.
pub fn insert_if(places: &mut Vec<u64>, wanted: bool, place: u64)
    requires room { vec_len places.old < vec_capacity places.old }
    requires rising { Rising places.old.items }
    ensures places { places.new.items ≡ put_if wanted place places.old.items }
    ensures capacity { vec_capacity places.old ≤ vec_capacity places.new }
{
    if wanted {
        insert_place(places, place);
    }
}

/// Takes a place out of rising places where `wanted` is true, the first one where it stands there twice. Else, or where it isn't there, nothing
/// changes.
pub fn remove_if(places: &mut Vec<u64>, wanted: bool, place: u64)
    requires { Rising places.old.items }
    ensures places { places.new.items ≡ drop_if wanted place places.old.items }
    ensures len { vec_len places.new ≤ vec_len places.old }
    ensures capacity { vec_capacity places.new ≡ vec_capacity places.old }
{
    if wanted {
        remove_place(places, place);
    }
}
