//! Comparisons of short texts, byte by byte.
ghost use Rattle.std.specs.Prelude.{◌≡◌, ◌≢◌, ◌++◌, ℕ, List, MatchOption};
ghost use Rattle.ledger_terms.specs.Parties.{same_name};

/// Whether two texts are the same. Most names differ in length or in their first byte, and a comparison of slices costs more.
pub(crate) fn is_same_text(one: &[u8], other: &[u8]) -> bool
    ensures { result ≡ same_name one.now other.now }
{
    if one.len() != other.len() {
        return false;
    }
    let mut at = 0;
    while at < one.len() {
        if one[at] != other[at] {
            return false;
        }
        at += 1;
    }
    true
}

/// What a text has behind a word, where it begins with it.
#[tactic(auto, using(crate::proofs::Spelled::begins_otherwise))]
pub(crate) fn behind_word<'a>(text: &'a [u8], word: &[u8]) -> Option<&'a [u8]>
    ensures { MatchOption result ((rest : List ℕ) → text.now ≢ word.now ++ rest) (λ rest. text.now ≡ word.now ++ rest.now) }
{
    if text.len() < word.len() {
        return None;
    }
    let (first, rest) = text.split_at(word.len());
    if is_same_text(first, word) {
        Some(rest)
    } else {
        None
    }
}
