//! Names, most often one.
ghost use Rattle.std.specs.Prelude.{◌≡◌, ◌≤◌, ◌++◌, ◌∷◌, [], insert, length, IfOk, OnErr, OnOk};
ghost use Rattle.ledger_terms.specs.HeldNames.{names_held};

use crate::growth::make_room;
use crate::held_names::HeldNames;
use crate::name::Name;
use std::alloc::{AllocError, Global};
use std::marker::Model;
use std::slice;

/// Names in a row, which contracts see as a list. One alone takes no memory of its own, since most sets of parties have one.
#[derive(Drop)]
pub struct FewNames {
    alloc: Global,
    held: HeldNames,
}

impl Model for FewNames {
    ghost use Rattle.std.specs.Prelude.{List, ℕ};
    ghost use Rattle.ledger_terms.specs.HeldNames.{names_held};

    ghost Value = { List (List ℕ) };

    ghost view = { λ f. names_held f.held };
}

fn names_in(held: &HeldNames) -> &[Name]
    ensures { result.now ≡ names_held held.now }
{
    match held {
        HeldNames::Nothing => &[],
        HeldNames::One(name) => slice::from_ref(name),
        HeldNames::More(names) => names.as_slice(),
    }
}

// Two names, the second in front of the first where it belongs at 0.
fn both(alloc: Global, first: Name, at: usize, second: Name) -> Result<Vec<Name>, AllocError>
    requires { at ≤ 1 }
    ensures { IfOk result (λ names. names.items ≡ insert (first ∷ []) at second) }
{
    let mut names = Vec::new(alloc);
    names.reserve_exact(2)?;
    if at == 0 {
        names.push(second)?;
        names.push(first)?;
    } else {
        names.push(first)?;
        names.push(second)?;
    }
    Ok(names)
}

// Puts a name at a place among those that are held.
fn insert_at(alloc: Global, held: &mut HeldNames, at: usize, name: Name) -> Result<(), AllocError>
    requires { at ≤ length (names_held held.old) }
    ensures ok { OnOk result (names_held held.new ≡ insert (names_held held.old) at name) }
    ensures err { OnErr result (names_held held.new ≡ names_held held.old) }
{
    match held {
        HeldNames::Nothing => {
            *held = HeldNames::One(name);
        }
        HeldNames::One(first) => {
            let first = *first;
            *held = HeldNames::More(both(alloc, first, at, name)?);
        }
        HeldNames::More(names) => {
            make_room(names)?;
            names.insert(at, name)?;
        }
    }
    Ok(())
}

impl FewNames {
    /// No names.
    pub fn new(alloc: Global) -> FewNames
        ensures { result ≡ [] }
    {
        FewNames {
            alloc,
            held: HeldNames::Nothing,
        }
    }

    /// The names in order.
    pub fn as_slice(&self) -> &[Name]
        ensures { result.now ≡ self.now }
    {
        names_in(&self.held)
    }

    /// Puts a name at the index `at`, and those from there on one further.
    pub fn insert(&mut self, at: usize, name: Name) -> Result<(), AllocError>
        requires { at ≤ length self.old }
        ensures ok { OnOk result (self.new ≡ insert self.old at name) }
        ensures err { OnErr result (self.new ≡ self.old) }
    {
        insert_at(self.alloc, &mut self.held, at, name)
    }

    /// Puts a name at the end.
    #[tactic(auto, using(crate::proofs::FewNames::inserted_last))]
    pub fn push(&mut self, name: Name) -> Result<(), AllocError>
        ensures ok { OnOk result (self.new ≡ self.old ++ name ∷ []) }
        ensures err { OnErr result (self.new ≡ self.old) }
    {
        let at = self.as_slice().len();
        self.insert(at, name)
    }
}

impl Clone for FewNames {
    ghost is_clone = { λ s t. t ≡ s };

    fn clone(&self) -> Result<FewNames, AllocError> {
        Ok(FewNames {
            alloc: self.alloc,
            held: held_copy(&self.held)?,
        })
    }
}

fn held_copy(held: &HeldNames) -> Result<HeldNames, AllocError>
    ensures { IfOk result (λ copy. names_held copy ≡ names_held held.now) }
{
    match held {
        HeldNames::Nothing => Ok(HeldNames::Nothing),
        HeldNames::One(name) => Ok(HeldNames::One(*name)),
        HeldNames::More(names) => Ok(HeldNames::More(names.clone()?)),
    }
}
