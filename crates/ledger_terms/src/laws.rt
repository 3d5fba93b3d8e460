//! Laws of the terms.
ghost use Rattle.std.specs.Prelude.{◌≡◌, ◌^◌};
ghost use Rattle.std.specs.Str.{IsUtf8};
ghost use Rattle.ledger_terms.specs.declared.limits.TheConstants.{LEAST_COMMANDS, LEAST_WAIT, MOST_ACT_AS, MOST_ACTION_BYTES};
ghost use Rattle.ledger_terms.specs.declared.limits.TheConstants.{MOST_ACTION_DEPTH, MOST_ACTIONS, MOST_ADVANCE, MOST_ARGS_BYTES};
ghost use Rattle.ledger_terms.specs.declared.limits.TheConstants.{MOST_CHOICES, MOST_COMMANDS, MOST_DRAFT_DEPTH, MOST_DRAFTS};
ghost use Rattle.ledger_terms.specs.declared.limits.TheConstants.{MOST_EXPRESSION_DEPTH, MOST_FIELDS, MOST_INSTANCE_BYTES};
ghost use Rattle.ledger_terms.specs.declared.limits.TheConstants.{MOST_LABEL_STEP, MOST_LABEL_STEPS, MOST_LEDGER_TIME, MOST_NAME_BYTES};
ghost use Rattle.ledger_terms.specs.declared.limits.TheConstants.{MOST_PACKAGES, MOST_PARAMETERS, MOST_PARTICIPANTS, MOST_PARTIES};
ghost use Rattle.ledger_terms.specs.declared.limits.TheConstants.{MOST_PLACES, MOST_RAW_BYTES, MOST_RAWS, MOST_RESULT_BYTES, MOST_ROUNDS};
ghost use Rattle.ledger_terms.specs.declared.limits.TheConstants.{MOST_RULE_NAME_BYTES, MOST_RULES, MOST_SCRIPT_BYTES, MOST_SET_ITEMS};
ghost use Rattle.ledger_terms.specs.declared.limits.TheConstants.{MOST_STATEMENTS, MOST_SUBMISSIONS, MOST_TEMPLATES};
ghost use Rattle.ledger_terms.specs.declared.limits.TheConstants.{MOST_TEXT_BYTES, MOST_TREE_BYTES, MOST_WAIT};

use crate::text::Text;

/// The bytes of a text are UTF-8 (RFC 3629).
pub fn texts_are_utf8(text: &Text)
    ensures { IsUtf8 text.now }
{
    let _text = text.as_str();
}

/// The limits, as the formats have them. Definitions name the constants, and this law says which numbers they are.
pub fn limits_are_those_of_the_formats()
    ensures topologies { (MOST_NAME_BYTES ≡ 32) × (MOST_PARTICIPANTS ≡ 8) × (MOST_PARTIES ≡ 128) }
    ensures packages { (MOST_PACKAGES ≡ 8) × (MOST_TEMPLATES ≡ 64) × (MOST_FIELDS ≡ 12) × (MOST_PARAMETERS ≡ 12) × (MOST_CHOICES ≡ 16) }
    ensures bodies { (MOST_EXPRESSION_DEPTH ≡ 16) × (MOST_SET_ITEMS ≡ 16) × (MOST_STATEMENTS ≡ 64) × (MOST_TEXT_BYTES ≡ 256) }
    ensures sizes { (MOST_INSTANCE_BYTES ≡ 1024) × (MOST_ARGS_BYTES ≡ 1024) × (MOST_RESULT_BYTES ≡ 1024) }
    ensures transactions { (MOST_ACTIONS ≡ 64) × (MOST_ACTION_DEPTH ≡ 16) × (MOST_ACTION_BYTES ≡ 32768) × (MOST_TREE_BYTES ≡ 2 ^ 22) }
    ensures scripts { (MOST_ROUNDS ≡ 2048) × (MOST_SUBMISSIONS ≡ 2048) × (MOST_PLACES ≡ 20480) × (MOST_SCRIPT_BYTES ≡ 2 ^ 22) }
    ensures submissions { (LEAST_COMMANDS ≡ 1) × (MOST_COMMANDS ≡ 16) × (MOST_ACT_AS ≡ 128) }
    ensures drafts { (MOST_DRAFTS ≡ 64) × (MOST_DRAFT_DEPTH ≡ 16) × (MOST_LABEL_STEPS ≡ 16) × (MOST_LABEL_STEP ≡ 63) }
    ensures raws { (MOST_RAWS ≡ 64) × (MOST_RAW_BYTES ≡ 2 ^ 16) }
    ensures rules { (MOST_RULES ≡ 16) × (MOST_RULE_NAME_BYTES ≡ 20) }
    ensures times { (LEAST_WAIT ≡ 10 ^ 5) × (MOST_WAIT ≡ 10 ^ 12) × (MOST_ADVANCE ≡ 10 ^ 12) × (MOST_LEDGER_TIME ≡ 10 ^ 16) }
{}
