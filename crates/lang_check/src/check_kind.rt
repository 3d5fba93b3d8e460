//! What is wrong with a package.
ghost use Rattle.std.specs.Prelude.{◌≡◌};
ghost use Rattle.lang_check.specs.KindNames.{kind_name};

use std::fmt;

/// The kind of a fault, or want of memory, which has no place in the packages.
#[derive(Clone, Copy, PartialEq, Eq)]
pub enum CheckKind {
    /// The name is declared or bound already.
    DuplicateName,
    /// A variable isn't in scope.
    UnknownName,
    /// No template that may be named here has the name.
    UnknownTemplate,
    /// The template has no choice of the name.
    UnknownChoice,
    /// An expression, an operand or a field has another kind than its place asks for.
    WrongKind,
    /// Fields or arguments aren't as many as declared.
    WrongCount,
    /// A choice is called Archive, as the one that each template has built in.
    Reserved,
    Memory,
}

impl CheckKind {
    /// The kind's word, as a refusal spells it; of want of memory `Memory`.
    pub fn as_str(&self) -> &'static str
        ensures { result.now ≡ kind_name self.now }
    {
        match self {
            CheckKind::DuplicateName => "DuplicateName",
            CheckKind::UnknownName => "UnknownName",
            CheckKind::UnknownTemplate => "UnknownTemplate",
            CheckKind::UnknownChoice => "UnknownChoice",
            CheckKind::WrongKind => "WrongKind",
            CheckKind::WrongCount => "WrongCount",
            CheckKind::Reserved => "Reserved",
            CheckKind::Memory => "Memory",
        }
    }
}

impl fmt::Display for CheckKind {
    ghost use Rattle.std.specs.Prelude.{Some};
    ghost use Rattle.lang_check.specs.KindNames.{kind_name};

    ghost output = { λ k. Some (kind_name k) };

    fn fmt<W: fmt::Write>(&self, f: &mut fmt::Formatter<W>) -> fmt::Result {
        f.write_str(self.as_str())
    }
}
