//! Operators of two operands.

/// An operator that is applied to the values of two operands.
#[derive(Clone, Copy)]
pub(crate) enum Operator {
    Add,
    Subtract,
    Multiply,
    Less,
    LessEq,
    Equal,
    Cat,
    Union,
    Has,
}
