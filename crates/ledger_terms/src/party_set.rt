//! Sets of parties.
ghost use Rattle.std.specs.Prelude.{◌≡◌, ◌++◌, ◌∷◌, ◌||◌, ◌↔◌, [], ℕ, ◌≤◌, IsTrue, List, true, false, insert, length, IfOk, OnOk, OnErr, cond};
ghost use Rattle.ledger_terms.specs.Parties.{with_party, with_parties, set_of, has_party, is_subset, meets_set, stands_above, IsRising};

use crate::exact::Exact;
use crate::few_names::FewNames;
use crate::name::{Name, NameList};
use std::alloc::{AllocError, Global};
use std::marker::Model;

/// A set of parties, which contracts see as its names in strictly rising order of their bytes.
#[derive(Drop)]
pub struct PartySet {
    names: FewNames,
}

impl Model for PartySet {
    ghost use Rattle.std.specs.Prelude.{List, ℕ};
    ghost use Rattle.ledger_terms.specs.Parties.{IsRising};

    ghost Value = { List (List ℕ) };

    ghost view = { λ s. s.names };

    ghost invariant = { λ s. IsRising s.names };
}

// Where a name stands, or belongs, and whether it is there.
fn place_of(names: &[Name], name: Name) -> (usize, bool)
    ensures within { result.0 ≤ length names.now }
    ensures there { result.1 ≡ true → with_party name names.now ≡ names.now }
    ensures apart { result.1 ≡ false → with_party name names.now ≡ insert names.now result.0 name }
{
    let mut at = 0;
    while at < names.len() && names[at] < name {
        at += 1;
    }
    (at, at < names.len() && names[at] == name)
}

fn insert_name(names: &mut FewNames, name: Name) -> Result<(), AllocError>
    ensures ok { OnOk result (names.new ≡ with_party name names.old) }
    ensures err { OnErr result (names.new ≡ names.old) }
{
    let (at, is_there) = place_of(names.as_slice(), name);
    if is_there {
        return Ok(());
    }
    names.insert(at, name)
}

#[tactic(auto, using(crate::proofs::Rising::above_last))]
fn is_above(names: &[Name], name: Name) -> bool
    ensures { result ≡ stands_above names.now name }
{
    match names.last() {
        Some(last) => *last < name,
        None => true,
    }
}

fn has_name(names: &[Name], name: Name) -> bool
    ensures { result ≡ has_party names.now name }
{
    names.iter().any(|n| *n == name)
}

fn all_in(names: &[Name], others: &[Name]) -> bool
    ensures { result ≡ is_subset names.now others.now }
{
    names.iter().all(|n| has_name(others, *n))
}

fn some_in(names: &[Name], others: &[Name]) -> bool
    ensures { result ≡ meets_set names.now others.now }
{
    names.iter().any(|n| has_name(others, *n))
}

impl PartySet {
    /// No parties.
    pub fn new(alloc: Global) -> PartySet
        ensures { result ≡ [] }
    {
        PartySet {
            names: FewNames::new(alloc),
        }
    }

    /// The set of the names, which may repeat and stand in any order.
    pub fn of(alloc: Global, names: &NameList) -> Result<PartySet, AllocError>
        ensures set { IfOk result (λ s. s ≡ set_of names.now) }
        ensures members { IfOk result (λ s. (party : List ℕ) → has_party s party ≡ has_party names.now party) }
    {
        let mut set = PartySet {
            names: FewNames::new(alloc),
        };
        for name in names.as_slice() {
            set.insert(*name)?;
        }
        Ok(set)
    }

    /// Puts a party into the set, which stays as it is where it has the party.
    pub fn insert(&mut self, party: Name) -> Result<(), AllocError>
        ensures ok { OnOk result (self.new ≡ with_party party self.old) }
        ensures err { OnErr result (self.new ≡ self.old) }
    {
        insert_name(&mut self.names, party)?;
        Ok(())
    }

    /// Puts the party at the end and says true, where it stands above all others by its bytes; else the set stays as it is, and it says false. Readers
    /// of spellings tell by it whether a set's names rise.
    pub fn push_above(&mut self, party: Name) -> Result<bool, AllocError>
        ensures put { IfOk result (λ above. (above ≡ stands_above self.old party) × (self.new ≡ cond above (self.old ++ party ∷ []) self.old)) }
        ensures err { OnErr result (self.new ≡ self.old) }
    {
        if !is_above(self.names.as_slice(), party) {
            return Ok(false);
        }
        self.names.push(party)?;
        Ok(true)
    }

    /// The set of the parties that are in either of the two sets.
    pub fn union(&self, other: &PartySet) -> Result<PartySet, AllocError>
        ensures set { IfOk result (λ s. s ≡ with_parties other.now self.now) }
        ensures members { IfOk result (λ s. (party : List ℕ) → has_party s party ≡ (has_party other.now party || has_party self.now party)) }
    {
        let mut set = self.clone()?;
        for name in other.as_slice() {
            set.insert(*name)?;
        }
        Ok(set)
    }

    /// How many parties there are.
    pub fn len(&self) -> usize
        ensures { result ≡ length self.now }
    {
        self.names.as_slice().len()
    }

    /// Whether there are no parties.
    pub fn is_empty(&self) -> bool
        ensures { IsTrue result ↔ (self.now ≡ []) }
    {
        self.names.as_slice().is_empty()
    }

    /// The names in rising order.
    pub fn as_slice(&self) -> &[Name]
        ensures names { result.now ≡ self.now }
        ensures rising { IsRising self.now }
    {
        self.names.as_slice()
    }

    /// Whether the party is in the set.
    pub fn contains(&self, party: Name) -> bool
        ensures { result ≡ has_party self.now party }
    {
        has_name(self.names.as_slice(), party)
    }

    /// Whether each party of this set is in the other.
    pub fn subset(&self, other: &PartySet) -> bool
        ensures { result ≡ is_subset self.now other.now }
    {
        all_in(self.as_slice(), other.as_slice())
    }

    /// Whether some party is in both sets.
    pub fn meets(&self, other: &PartySet) -> bool
        ensures { result ≡ meets_set self.now other.now }
    {
        some_in(self.as_slice(), other.as_slice())
    }
}

impl Clone for PartySet {
    ghost is_clone = { λ s t. t ≡ s };

    fn clone(&self) -> Result<PartySet, AllocError> {
        let names = self.names.clone()?;
        Ok(PartySet { names })
    }
}

impl PartialEq for PartySet {
    ghost use Rattle.std.specs.Prelude.{◌==◌};
    ghost use Rattle.std.specs.Cmp.Lexicographic.{pointwise, nat_list_eq_equiv, lists_equiv};
    ghost use Rattle.std.specs.Cmp as laws;

    ghost eq = { pointwise (pointwise ◌==◌) };

    ghost laws = { laws.partial_equiv_from_equiv (lists_equiv nat_list_eq_equiv) };

    fn eq(&self, other: &PartySet) -> bool {
        self.names.as_slice() == other.names.as_slice()
    }
}

impl Exact for PartySet {
    ghost same = { λ a b h. h };
}
