//! JSON pointers.
ghost use Rattle.std.specs.Prelude.{◌≡◌, ◌++◌, [], IfOk, OnOk};
ghost use Rattle.std.specs.List.{flat_map};
ghost use Rattle.ledger_terms.specs.Pointers.{is_reserved, escape_of, token_byte, at_member, at_item};

use crate::exact::Exact;
use crate::text::Text;
use std::alloc::{AllocError, Global};
use std::fmt;
use std::marker::Model;

/// A place in a JSON value (RFC 6901), which contracts see as the bytes of its text. The whole value is the empty text.
#[derive(Drop)]
pub struct Pointer {
    text: Text,
}

impl Model for Pointer {
    ghost use Rattle.std.specs.Prelude.{List, ℕ};

    ghost Value = { List ℕ };

    ghost view = { λ p. p.text };
}

fn is_reserved_byte(byte: u8) -> bool
    ensures { result ≡ is_reserved byte }
{
    byte == b'~' || byte == b'/'
}

fn escape(byte: u8) -> &'static str
    ensures { result.now ≡ escape_of byte }
{
    if byte == b'~' { "~0" } else { "~1" }
}

fn push_token(text: &mut Text, name: &str) -> Result<(), AllocError>
    ensures { OnOk result (text.new ≡ text.old ++ flat_map token_byte name.now) }
{
    let bytes = name.as_bytes();
    let mut start = 0;
    'bytes: for at in 0..bytes.len() {
        let byte = bytes[at];
        if is_reserved_byte(byte) {
            text.push_str(&name[start..at])?;
            text.push_str(escape(byte))?;
            start = at + 1;
        }
    }
    text.push_str(&name[start..])
}

impl Pointer {
    /// The pointer to the whole value, which is the empty text.
    pub fn root(alloc: Global) -> Pointer
        ensures { result ≡ [] }
    {
        Pointer {
            text: Text::new(alloc),
        }
    }

    /// The pointer to the member of this name of the object to which this pointer leads.
    #[tactic(auto, unfolding(crate::specs::Pointers::at_member))]
    pub fn member(&self, name: &str) -> Result<Pointer, AllocError>
        ensures { IfOk result (λ p. p ≡ at_member self.now name.now) }
    {
        let mut text = self.text.clone()?;
        text.push_str("/")?;
        push_token(&mut text, name)?;
        Ok(Pointer { text })
    }

    /// The pointer to the item at the index, counted from 0, of the list to which this pointer leads.
    #[tactic(auto, unfolding(crate::specs::Pointers::at_item))]
    pub fn item(&self, index: usize) -> Result<Pointer, AllocError>
        ensures { IfOk result (λ p. p ≡ at_item self.now index) }
    {
        let mut string = self.text.clone()?.into_string();
        write!(string, "/{index}")?;
        Ok(Pointer {
            text: Text::of_string(string),
        })
    }

    /// The pointer as it is written.
    pub fn as_str(&self) -> &str
        ensures { result.now ≡ self.now }
    {
        self.text.as_str()
    }
}

impl Clone for Pointer {
    ghost is_clone = { λ s t. t ≡ s };

    fn clone(&self) -> Result<Pointer, AllocError> {
        let text = self.text.clone()?;
        Ok(Pointer { text })
    }
}

impl PartialEq for Pointer {
    ghost use Rattle.std.specs.Prelude.{◌==◌};
    ghost use Rattle.std.specs.Cmp.Lexicographic.{pointwise, nat_list_eq_equiv};
    ghost use Rattle.std.specs.Cmp as laws;

    ghost eq = { pointwise ◌==◌ };

    ghost laws = { laws.partial_equiv_from_equiv nat_list_eq_equiv };

    fn eq(&self, other: &Pointer) -> bool {
        self.as_str() == other.as_str()
    }
}

impl Exact for Pointer {
    ghost same = { λ a b h. h };
}

impl fmt::Display for Pointer {
    ghost use Rattle.std.specs.Prelude.{Some};

    ghost output = { λ t. Some t };

    fn fmt<W: fmt::Write>(&self, f: &mut fmt::Formatter<W>) -> fmt::Result {
        f.write_str(self.as_str())
    }
}
