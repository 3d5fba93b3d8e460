//! A name with its value.
use crate::bound_name::BoundName;
use crate::held_value::HeldValue;

/// A name with its value.
#[derive(Drop)]
pub struct Binding<'a> {
    pub name: BoundName,
    pub value: HeldValue<'a>,
}
