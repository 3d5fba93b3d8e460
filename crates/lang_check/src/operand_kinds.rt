//! The kinds of the operands of an operator.
use ledger_terms::Kind;

/// The kinds of two operands, and of what an operator makes of them. An operator of one operand has the first alone.
#[derive(Clone, Copy)]
pub(crate) struct OperandKinds {
    pub(crate) first: Kind,
    pub(crate) second: Kind,
    pub(crate) whole: Kind,
}

/// Sums, differences and products.
pub(crate) const SUM: OperandKinds = OperandKinds {
    first: Kind::Int,
    second: Kind::Int,
    whole: Kind::Int,
};

/// Which of two numbers is less.
pub(crate) const ORDER: OperandKinds = OperandKinds {
    first: Kind::Int,
    second: Kind::Int,
    whole: Kind::Bool,
};

/// What joins or turns truth values.
pub(crate) const LOGIC: OperandKinds = OperandKinds {
    first: Kind::Bool,
    second: Kind::Bool,
    whole: Kind::Bool,
};

/// One text behind another.
pub(crate) const TEXTS: OperandKinds = OperandKinds {
    first: Kind::Text,
    second: Kind::Text,
    whole: Kind::Text,
};

/// The parties of two sets.
pub(crate) const UNION: OperandKinds = OperandKinds {
    first: Kind::Parties,
    second: Kind::Parties,
    whole: Kind::Parties,
};

/// Whether a set has a party.
pub(crate) const MEMBER: OperandKinds = OperandKinds {
    first: Kind::Parties,
    second: Kind::Party,
    whole: Kind::Bool,
};
