//! Statements of the contract language.

use crate::expr::{Expr, ExprList};
use crate::list::ListOf;
use crate::name::Name;
use crate::template_name::TemplateName;

/// A statement of a choice's body.
#[derive(Drop)]
pub enum Stmt {
    Bind {
        name: Name,
        value: Expr,
    },
    Assert(Expr),
    Create {
        bind: Name,
        template: TemplateName,
        fields: ExprList,
    },
    Exercise {
        bind: Name,
        template: TemplateName,
        contract: Expr,
        choice: Name,
        args: ExprList,
    },
    Fetch {
        bind: Name,
        template: TemplateName,
        contract: Expr,
    },
    When {
        test: Expr,
        yes: StmtList,
        no: StmtList,
    },
}

/// Statements in order.
pub type StmtList = ListOf<Stmt>;
