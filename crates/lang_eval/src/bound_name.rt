//! Names that values are bound under.
ghost use Rattle.std.specs.Prelude.{◌≡◌, ◌≢◌, ◌++◌, ℕ, List, false, MatchOption, codes};
ghost use Rattle.ledger_terms.specs.Parties.{same_name};
ghost use Rattle.lang_eval.specs.Spellings.{owner_word};

use crate::owner::Owner;
use crate::short_text::{behind_word, is_same_text};
use crate::spelling::Spelling;
use ledger_terms::{Name, Text};
use std::marker::Model;

/// A name as a variable writes it, as `this.owner`, which contracts see as its text. It takes no memory of its own but where
/// it was given as a text.
#[derive(Drop)]
pub struct BoundName {
    spelling: Spelling,
}

impl Model for BoundName {
    ghost use Rattle.std.specs.Prelude.{List, ℕ};
    ghost use Rattle.lang_eval.specs.Spellings.{spelled};

    ghost Value = { List ℕ };

    ghost view = { λ n. spelled n.spelling };
}

/// What a text has behind a dot, or None where it doesn't begin with one.
fn behind_dot(text: &[u8]) -> Option<&[u8]>
    ensures { MatchOption result ((part : List ℕ) → text.now ≢ codes "." ++ part) (λ part. text.now ≡ codes "." ++ part.now) }
{
    match text.split_first() {
        Some((dot, part)) => { if *dot == b'.' { Some(part) } else { None } }
        None => None,
    }
}

/// What a text has behind an owner's word and a dot, or None where it doesn't begin with them.
pub(crate) fn field_part<'a>(text: &'a [u8], owner: &[u8]) -> Option<&'a [u8]>
    ensures { MatchOption result ((field : List ℕ) → same_name (owner.now ++ codes "." ++ field) text.now ≡ false)
        (λ part. (field : List ℕ) → same_name (owner.now ++ codes "." ++ field) text.now ≡ same_name field part.now) }
{
    match behind_word(text, owner) {
        Some(rest) => behind_dot(rest),
        None => None,
    }
}

fn is_field(text: &[u8], owner: &[u8], field: &[u8]) -> bool
    ensures { result ≡ same_name (owner.now ++ codes "." ++ field.now) text.now }
{
    match field_part(text, owner) {
        Some(part) => is_same_text(field, part),
        None => false,
    }
}

impl BoundName {
    /// The name that is spelled as this text, be it with a dot or without.
    pub fn written(text: Text) -> BoundName
        ensures { result ≡ text }
    {
        BoundName {
            spelling: Spelling::Written(text),
        }
    }

    /// The name `self`, which a body has for the contract on which its choice is exercised.
    pub fn itself() -> BoundName
        ensures { result ≡ codes "self" }
    {
        BoundName {
            spelling: Spelling::Itself,
        }
    }

    /// A name without a dot, as a statement of a body binds it.
    pub fn plain(name: Name) -> BoundName
        ensures { result ≡ name }
    {
        BoundName {
            spelling: Spelling::Plain(name),
        }
    }

    /// The name of a field or an argument: the word of its owner, a dot and `name`, as in `this.amount`.
    pub fn field(owner: Owner, name: Name) -> BoundName
        ensures { result ≡ owner_word owner ++ codes "." ++ name }
    {
        BoundName {
            spelling: Spelling::Field(owner, name),
        }
    }

    /// Whether this name is spelled as the text, so that a variable with that text means it.
    pub fn is_spelled(&self, text: &Text) -> bool
        ensures { result ≡ same_name self.now text.now }
    {
        match &self.spelling {
            Spelling::Written(name) => *name == *text,
            Spelling::Itself => "self" == text.as_str(),
            Spelling::Plain(name) => name.as_str() == text.as_str(),
            Spelling::Field(owner, name) => is_field(
                text.as_str().as_bytes(),
                owner.as_str().as_bytes(),
                name.as_bytes(),
            ),
        }
    }
}
