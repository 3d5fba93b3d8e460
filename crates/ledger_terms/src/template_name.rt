//! How a template is named.
use crate::exact::Exact;
use crate::name::Name;
use std::fmt;

/// A template's name, which is written `Package.Template`.
#[derive(Clone, Copy, PartialEq)]
pub struct TemplateName {
    pub package: Name,
    pub name: Name,
}

impl Exact for TemplateName {
    ghost same = { λ a b h. h };
}

impl fmt::Display for TemplateName {
    ghost use Rattle.std.specs.Prelude.{Some, ◌++◌, ◌∷◌};

    ghost output = { λ t. Some (t.«package» ++ 46 ∷ t.name) };

    fn fmt<W: fmt::Write>(&self, f: &mut fmt::Formatter<W>) -> fmt::Result {
        write!(f, "{}.{}", self.package, self.name)
    }
}
