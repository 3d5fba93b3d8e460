//! Names with their values.
ghost use Rattle.std.specs.Prelude.{◌≡◌, ◌++◌, [], length, take, OnOk, OnErr, option_copied};
ghost use Rattle.lang_eval.specs.Names.{binding_of, value_bound, bound_to};

use crate::binding::Binding;
use crate::bound_name::BoundName;
use crate::given_names::GivenNames;
use crate::held_value::HeldValue;
use ledger_terms::{Text, Value};
use std::alloc::{AllocError, Global};
use std::marker::Model;

/// The names that an expression may use, with their values, which contracts see as a list. It keeps its allocator. What an
/// evaluation begins with is borrowed, so only names that a body binds take memory.
#[derive(Drop)]
pub struct Bindings<'a> {
    given: GivenNames<'a>,
    made: Vec<Binding<'a>>,
}

impl<'a> Model for Bindings<'a> {
    ghost use Rattle.std.specs.Prelude.{List, ◌++◌};
    ghost use Rattle.lang_eval.specs.declared.binding.Binding.{Binding};

    ghost Value = { List Binding };

    ghost view = { λ b. b.given ++ b.made.items };
}

fn made_value<'a>(made: &'a [Binding<'_>], name: &Text) -> Option<&'a Value>
    ensures { option_copied result ≡ value_bound (binding_of name.now made.now) }
{
    for binding in made {
        if binding.name.is_spelled(name) {
            return Some(binding.value.as_value());
        }
    }
    None
}

impl<'a> Bindings<'a> {
    /// A list of no names. Names that are bound later take their memory from `alloc`.
    pub fn new(alloc: Global) -> Bindings<'a>
        ensures { result ≡ [] }
    {
        Bindings {
            given: GivenNames::none(),
            made: Vec::new(alloc),
        }
    }

    /// The names that an evaluation begins with, and no others yet.
    pub(crate) fn of(alloc: Global, given: GivenNames<'a>) -> Bindings<'a>
        ensures { result ≡ given.entry }
    {
        Bindings {
            given,
            made: Vec::new(alloc),
        }
    }

    /// The allocator from which the names take memory. An evaluation takes it for the values that it makes, too.
    pub fn allocator(&self) -> &Global {
        self.made.allocator()
    }

    /// How many names are bound.
    pub fn len(&self) -> usize
        ensures { result ≡ length self.now }
    {
        self.given.len() + self.made.len()
    }

    /// The value of the first binding that a variable with the text `name` means; None where that name isn't bound.
    #[tactic(auto, using(crate::proofs::Given::bound_first, crate::proofs::Given::bound_second))]
    pub fn value(&self, name: &Text) -> Option<&Value>
        ensures { option_copied result ≡ value_bound (binding_of name.now self.now) }
    {
        if let Some(value) = self.given.value(name) {
            return Some(value);
        }
        made_value(self.made.as_slice(), name)
    }

    /// Makes room for `count` more names, as a Fetch does before it binds fields. No name is added, and after want of memory the names are as before,
    /// too.
    pub fn reserve(&mut self, count: usize) -> Result<(), AllocError>
        ensures { self.new ≡ self.old }
    {
        self.made.reserve(count)
    }

    /// Binds the name, which is given as its text, to the value, behind all names that are bound. After want of memory it isn't bound.
    pub fn bind(&mut self, name: Text, value: Value) -> Result<(), AllocError>
        ensures ok { OnOk result (self.new ≡ bound_to name value self.old) }
        ensures err { OnErr result (self.new ≡ self.old) }
    {
        self.bind_as(BoundName::written(name), value)
    }

    /// Binds the name, in whatever form it is kept, to the value, behind all names that are bound. After want of memory it isn't bound.
    pub fn bind_as(&mut self, name: BoundName, value: Value) -> Result<(), AllocError>
        ensures ok { OnOk result (self.new ≡ bound_to name value self.old) }
        ensures err { OnErr result (self.new ≡ self.old) }
    {
        self.bind_held(name, HeldValue::made(value))
    }

    /// Binds a name to a value that may stand elsewhere. After want of memory the names are as they were.
    pub(crate) fn bind_held(
        &mut self,
        name: BoundName,
        value: HeldValue<'a>,
    ) -> Result<(), AllocError>
        ensures ok { OnOk result (self.new ≡ bound_to name value.entry self.old) }
        ensures err { OnErr result (self.new ≡ self.old) }
    {
        self.made.push(Binding { name, value })?;
        Ok(())
    }

    /// Forgets all names behind the first `len`, and none where there are no more than that. The end of a `when` calls it for the names that its side
    /// bound.
    #[tactic(auto, using(crate::proofs::Given::taken_of_two))]
    pub fn truncate(&mut self, len: usize)
        ensures { self.new ≡ take len self.old }
    {
        let given = self.given.len();
        self.given.truncate(len);
        self.made.truncate(len.saturating_sub(given));
    }
}
