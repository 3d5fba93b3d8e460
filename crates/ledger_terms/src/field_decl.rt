//! Declarations of fields and parameters.
use crate::kind::Kind;
use crate::list::ListOf;
use crate::name::Name;

/// A field of a template, or a parameter of a choice, with its kind.
#[derive(Clone, Copy, PartialEq)]
pub struct FieldDecl {
    pub name: Name,
    pub kind: Kind,
}

/// Fields or parameters.
pub type FieldDeclList = ListOf<FieldDecl>;
