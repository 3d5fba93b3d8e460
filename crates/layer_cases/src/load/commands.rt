//! Commands.
use crate::answer::Answer;
use ledger_terms::{Arg, Command, ContractRef, TemplateName};

/// Puts a command at the end.
pub(crate) fn put_command(command: &Command, out: &mut Answer) {
    match command {
        Command::Create { template, fields } => {
            out.put("create ");
            put_template(template, out);
            put_args(fields.as_slice(), out);
        }
        Command::Exercise {
            template,
            contract,
            choice,
            args,
        } => {
            out.put("exercise ");
            put_template(template, out);
            out.put(" ");
            put_contract(contract, out);
            out.put(" ");
            out.put(choice.as_str());
            put_args(args.as_slice(), out);
        }
    }
}

fn put_template(template: &TemplateName, out: &mut Answer) {
    out.put(template.package.as_str());
    out.put(".");
    out.put(template.name.as_str());
}

/// Puts the label of a contract at the end.
fn put_contract(contract: &ContractRef, out: &mut Answer) {
    match contract {
        ContractRef::Label(label) => {
            out.put("#");
            out.put(label.participant.as_str());
            out.put(":");
            out.put(label.command.as_str());
            out.put(":");
            out.path(&label.path);
        }
        ContractRef::Id(_) => out.put("id"),
    }
}

/// Puts arguments in brackets at the end, with commas between them.
fn put_args(args: &[Arg], out: &mut Answer) {
    out.put("(");
    let mut gap = "";
    for arg in args {
        out.put(gap);
        put_arg(arg, out);
        gap = ",";
    }
    out.put(")");
}

fn put_arg(arg: &Arg, out: &mut Answer) {
    match arg {
        Arg::Plain(value) => out.value(value),
        Arg::Contract(_) => out.put("contract"),
    }
}
