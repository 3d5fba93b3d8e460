//! Names with their kinds.
ghost use Rattle.std.specs.Prelude.{◌≡◌, ◌++◌, ◌∷◌, [], IfOk, OnOk, codes};
ghost use Rattle.lang_eval.specs.Typed.{kind_named, names_in, scope_of};
ghost use Rattle.lang_check.specs.Statements.{is_among, some_among};

use ledger_terms::{FieldDecl, Kind, Name, Text};
use std::alloc::{AllocError, Global};
use std::marker::Model;

/// The names that an expression may use, with their kinds, which contracts see as a list of pairs. It keeps its allocator.
#[derive(Drop)]
pub(crate) struct Scope {
    names: Vec<(Text, Kind)>,
}

impl Model for Scope {
    ghost use Rattle.lang_eval.specs.Typed.{Scope as NamesWithKinds};

    ghost Value = { NamesWithKinds };

    ghost view = { λ s. s.names.items };
}

fn kind_among(names: &[(Text, Kind)], name: &Text) -> Option<Kind>
    ensures { result ≡ kind_named name.now names.now }
{
    'names: for entry in names {
        if entry.0 == *name {
            return Some(entry.1);
        }
    }
    None
}

fn stands_among(names: &[(Text, Kind)], name: &Text) -> bool
    ensures { result ≡ is_among name.now (names_in names.now) }
{
    'names: for entry in names {
        if entry.0 == *name {
            return true;
        }
    }
    false
}

fn dotted_name(alloc: Global, first: &str, name: Name) -> Result<Text, AllocError>
    ensures { IfOk result (λ t. t ≡ first.now ++ codes "." ++ name) }
{
    let mut text = Text::of(alloc, first)?;
    text.push_str(".")?;
    text.push_str(name.as_str())?;
    Ok(text)
}

impl Scope {
    /// No names.
    pub(crate) fn new(alloc: Global) -> Scope
        ensures { result ≡ [] }
    {
        Scope {
            names: Vec::new(alloc),
        }
    }

    /// The allocator of the names, for what is made beside them.
    pub(crate) fn allocator(&self) -> &Global {
        self.names.allocator()
    }

    /// A scope with the same names, for what binds names of its own.
    pub(crate) fn copy(&self) -> Result<Scope, AllocError>
        ensures { IfOk result (λ s. s ≡ self.now) }
    {
        let mut copy = Scope::new(*self.allocator());
        'names: for entry in self.names.as_slice() {
            copy.bind(entry.0.clone()?, entry.1)?;
        }
        Ok(copy)
    }

    /// The kind of the name, where it is in scope.
    pub(crate) fn kind_of(&self, name: &Text) -> Option<Kind>
        ensures { result ≡ kind_named name.now self.now }
    {
        kind_among(self.names.as_slice(), name)
    }

    /// Whether the name is in scope.
    pub(crate) fn has(&self, name: &Text) -> bool
        ensures { result ≡ is_among name.now (names_in self.now) }
    {
        stands_among(self.names.as_slice(), name)
    }

    /// Whether one of the names of another scope is in this one.
    pub(crate) fn has_one_of(&self, other: &Scope) -> bool
        ensures { result ≡ some_among other.now self.now }
    {
        'names: for entry in other.names.as_slice() {
            if self.has(&entry.0) {
                return true;
            }
        }
        false
    }

    /// Puts a name at the end.
    pub(crate) fn bind(&mut self, name: Text, kind: Kind) -> Result<(), AllocError>
        ensures { OnOk result (self.new ≡ self.old ++ (name, kind) ∷ []) }
    {
        self.names.push((name, kind))?;
        Ok(())
    }

    /// Puts fields or parameters at the end, each after `first` and a dot.
    #[tactic(auto, using(crate::proofs::Scopes::declared_step))]
    pub(crate) fn declare(&mut self, first: &str, decls: &[FieldDecl]) -> Result<(), AllocError>
        ensures { OnOk result (self.new ≡ self.old ++ scope_of first.now decls.now) }
    {
        'decls: for decl in decls {
            let name = dotted_name(*self.allocator(), first, decl.name)?;
            self.bind(name, decl.kind)?;
        }
        Ok(())
    }
}
