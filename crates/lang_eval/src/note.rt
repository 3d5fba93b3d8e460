//! The built-in package Note.
ghost use Rattle.std.specs.Prelude.{◌≡◌, ◌∷◌, [], ℕ, List, IfOk, codes};
ghost use Rattle.ledger_terms.specs.ExprForms.{expr_form, list_form};
ghost use Rattle.ledger_terms.specs.StmtForms.{stmt_form, stmt_list_form};
ghost use Rattle.ledger_terms.specs.Syntax.{Var, NoExprs, MoreExprs, Literal, Create, Exercise};
ghost use Rattle.ledger_terms.specs.declared.value.Value.TheVariants.{Text as TextValue};
ghost use Rattle.lang_eval.specs.Builtin.{archive_name, note_form, note_fields, note_template_form, flash_form, flash_body, one_party, note_template_name};

use crate::forms::{both, field, no_parties, one_party, variable};
use ledger_terms::{
    Choice, ChoiceList, Expr, ExprList, FieldDeclList, Kind, Name, Package, Stmt, StmtList,
    Template, TemplateList, TemplateName, Text, Value,
};
use std::alloc::{AllocError, Global};

/// The name `Archive` of the choice that each template has without being written.
pub fn archive_name() -> Name
    ensures { result ≡ archive_name }
{
    Name::read("Archive").unwrap()
}

/// The name `Note`, which both the built-in package and its one template have.
pub fn note_name() -> Name
    ensures { result ≡ codes "Note" }
{
    Name::read("Note").unwrap()
}

/// The full name of the template of notes: Note of the package Note.
pub fn note_template_name() -> TemplateName
    ensures { result ≡ note_template_name }
{
    TemplateName {
        package: note_name(),
        name: note_name(),
    }
}

fn note_fields(alloc: Global) -> Result<FieldDeclList, AllocError>
    ensures { IfOk result (λ f. f ≡ note_fields) }
{
    let mut fields = FieldDeclList::new(alloc);
    fields.push(field(Name::read("owner").unwrap(), Kind::Party))?;
    fields.push(field(Name::read("reader").unwrap(), Kind::Party))?;
    fields.push(field(Name::read("text").unwrap(), Kind::Text))?;
    Ok(fields)
}

fn flash_create(alloc: Global) -> Result<Stmt, AllocError>
    ensures { IfOk result (λ s. stmt_form s ≡ Create (codes "x") note_template_name
        (MoreExprs (Var (codes "this.owner")) (MoreExprs (Var (codes "this.reader")) (MoreExprs (Literal (TextValue (codes "flash"))) NoExprs)))) }
{
    let mut fields = ExprList::new(alloc);
    fields.push(variable(alloc, "this.owner")?)?;
    fields.push(variable(alloc, "this.reader")?)?;
    fields.push(Expr::Literal(Value::Text(Text::of(alloc, "flash")?)))?;
    Ok(Stmt::Create {
        bind: Name::read("x").unwrap(),
        template: note_template_name(),
        fields,
    })
}

fn flash_archive(alloc: Global) -> Result<Stmt, AllocError>
    ensures { IfOk result (λ s. stmt_form s ≡ Exercise (codes "y") note_template_name (Var (codes "x")) archive_name NoExprs) }
{
    Ok(Stmt::Exercise {
        bind: Name::read("y").unwrap(),
        template: note_template_name(),
        contract: variable(alloc, "x")?,
        choice: archive_name(),
        args: ExprList::new(alloc),
    })
}

fn flash_body(alloc: Global) -> Result<StmtList, AllocError>
    ensures { IfOk result (λ b. stmt_list_form b ≡ flash_body) }
{
    let mut body = StmtList::new(alloc);
    body.push(flash_create(alloc)?)?;
    body.push(flash_archive(alloc)?)?;
    Ok(body)
}

/// The choice Flash of notes, in the contract language. The note's owner controls it, and it doesn't consume the note: it creates a second note, with
/// the text `flash`, and archives that. `note_package` has it, and the native for Flash says by it what it stands for.
pub fn flash_choice(alloc: Global) -> Result<Choice, AllocError>
    ensures { IfOk result (λ c. c ≡ flash_form) }
{
    let (controllers, body) = both(one_party(alloc, "this.owner"), flash_body(alloc))?;
    Ok(Choice {
        name: Name::read("Flash").unwrap(),
        consuming: false,
        params: FieldDeclList::new(alloc),
        controllers,
        observers: no_parties(alloc),
        returns: Kind::Unit,
        body,
        result: Expr::Literal(Value::Unit),
    })
}

fn note_choices(alloc: Global) -> Result<ChoiceList, AllocError>
    ensures { IfOk result (λ c. c ≡ flash_form ∷ []) }
{
    let mut choices = ChoiceList::new(alloc);
    choices.push(flash_choice(alloc)?)?;
    Ok(choices)
}

fn note(alloc: Global) -> Result<Template, AllocError>
    ensures { IfOk result (λ t. t ≡ note_template_form) }
{
    let ((signatories, observers), (fields, choices)) = both(
        both(
            one_party(alloc, "this.owner"),
            one_party(alloc, "this.reader"),
        ),
        both(note_fields(alloc), note_choices(alloc)),
    )?;
    Ok(Template {
        name: note_name(),
        fields,
        ensure: Expr::Literal(Value::Bool(true)),
        signatories,
        observers,
        choices,
    })
}

/// The built-in package Note. Its one template is the note of an owner, who signs it, to a reader, who observes it, with the choice Flash. Archive
/// isn't among its choices yet.
pub fn note_package(alloc: Global) -> Result<Package, AllocError>
    ensures { IfOk result (λ p. p ≡ note_form) }
{
    let mut templates = TemplateList::new(alloc);
    templates.push(note(alloc)?)?;
    Ok(Package {
        name: note_name(),
        templates,
    })
}
