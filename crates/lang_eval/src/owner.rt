//! Whose fields a variable names.
ghost use Rattle.std.specs.Prelude.{◌≡◌};
ghost use Rattle.lang_eval.specs.Spellings.{owner_word};

use ledger_terms::Name;

/// What a field's name stands behind, with a dot between them.
#[derive(Clone, Copy)]
pub enum Owner {
    /// The contract, as in `this.owner`.
    This,
    /// The arguments of the choice, as in `arg.amount`.
    Arguments,
    /// A contract that was fetched, under the name that it was bound to.
    Fetched(Name),
}

impl Owner {
    /// The word before the dot: `this`, `arg`, or the name to which a Fetch bound the contract.
    pub fn as_str(&self) -> &str
        ensures { result.now ≡ owner_word self.now }
    {
        match self {
            Owner::This => "this",
            Owner::Arguments => "arg",
            Owner::Fetched(name) => name.as_str(),
        }
    }
}
