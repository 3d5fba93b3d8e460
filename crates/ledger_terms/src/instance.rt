//! What a contract says.
ghost use Rattle.std.specs.Prelude.{◌≡◌, IfOk};

use crate::exact::Exact;
use crate::template_name::TemplateName;
use crate::value::{SharedValues, ValueList};
use std::alloc::{AllocError, Global};

/// A contract's template and the values of its fields, in the order in which the template declares them. Copies share the values.
#[derive(Clone, Drop, PartialEq)]
pub struct Instance {
    pub template: TemplateName,
    pub fields: SharedValues,
}

impl Instance {
    /// The instance of a template with these values of its fields, in the order in which the template declares them.
    pub fn of(
        alloc: Global,
        template: TemplateName,
        values: ValueList,
    ) -> Result<Instance, AllocError>
        ensures { IfOk result (λ instance. instance ≡ record { template = template; fields = values }) }
    {
        let fields = SharedValues::new(alloc, values)?;
        Ok(Instance { template, fields })
    }
}

impl Exact for Instance {
    ghost use Rattle.std.proofs.Common.{rules};
    ghost use Rattle.std.proofs.lemmas.List.Elements.{same_from_all_zip};

    ghost same = { Prim.search (rules, same_from_all_zip) };
}
