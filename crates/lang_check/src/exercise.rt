//! What an exercise says.
ghost use Rattle.std.specs.Prelude.{◌≡◌};

use ledger_terms::{Expr, ExprList, Name, TemplateName};

/// The parts of an `exercise`.
#[derive(Clone, Copy)]
pub(crate) struct Exercise<'s> {
    pub(crate) bound: Name,
    pub(crate) template: TemplateName,
    pub(crate) contract: &'s Expr,
    pub(crate) choice: Name,
    pub(crate) args: &'s ExprList,
}

impl<'s> Exercise<'s> {
    /// An exercise of a choice on a contract, whose result is bound to a name.
    pub(crate) fn of(
        bound: Name,
        template: TemplateName,
        contract: &'s Expr,
        choice: Name,
        args: &'s ExprList,
    ) -> Exercise<'s>
        ensures names { (result.bound ≡ bound) × (result.template ≡ template) × (result.choice ≡ choice) }
        ensures contract { result.contract.now ≡ contract.now }
        ensures args { result.args.now ≡ args.now }
    {
        Exercise {
            bound,
            template,
            contract,
            choice,
            args,
        }
    }
}
