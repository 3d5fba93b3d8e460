//! The limits of scripts and packages.

use crate::limit::Limit;
use ledger_terms::limits::{
    LEAST_WAIT, MOST_ACT_AS, MOST_ADVANCE, MOST_CHOICES, MOST_COMMANDS, MOST_DRAFT_DEPTH,
    MOST_DRAFTS, MOST_EXPRESSION_DEPTH, MOST_FIELDS, MOST_LABEL_STEPS, MOST_LEDGER_TIME,
    MOST_PACKAGES, MOST_PARAMETERS, MOST_PARTICIPANTS, MOST_PARTIES, MOST_RAW_BYTES, MOST_RAWS,
    MOST_ROUNDS, MOST_RULE_NAME_BYTES, MOST_RULES, MOST_STATEMENTS, MOST_SUBMISSIONS,
    MOST_TEMPLATES, MOST_TEXT_BYTES, MOST_WAIT,
};

/// Participants of a script.
pub const PARTICIPANTS: Limit = Limit {
    number: 1,
    least: 1,
    most: MOST_PARTICIPANTS as u64,
};

/// Parties that all participants host.
pub const PARTIES: Limit = Limit {
    number: 2,
    least: 0,
    most: MOST_PARTIES as u64,
};

/// Packages of a script.
pub const PACKAGES: Limit = Limit {
    number: 3,
    least: 0,
    most: MOST_PACKAGES as u64,
};

/// Templates of all packages.
pub const TEMPLATES: Limit = Limit {
    number: 4,
    least: 0,
    most: MOST_TEMPLATES as u64,
};

/// Fields of a template or a contract.
pub const FIELDS: Limit = Limit {
    number: 5,
    least: 0,
    most: MOST_FIELDS as u64,
};

/// Parameters of a choice, or its arguments.
pub const PARAMETERS: Limit = Limit {
    number: 6,
    least: 0,
    most: MOST_PARAMETERS as u64,
};

/// Choices of a template.
pub const CHOICES: Limit = Limit {
    number: 7,
    least: 0,
    most: MOST_CHOICES as u64,
};

/// How deep an expression stands, the whole of one being 1 deep.
pub const EXPRESSION_DEPTH: Limit = Limit {
    number: 8,
    least: 0,
    most: MOST_EXPRESSION_DEPTH as u64,
};

/// Statements of a choice's body, those inside others counted.
pub const STATEMENTS: Limit = Limit {
    number: 9,
    least: 0,
    most: MOST_STATEMENTS as u64,
};

/// Bytes of a text.
pub const TEXT_BYTES: Limit = Limit {
    number: 10,
    least: 0,
    most: MOST_TEXT_BYTES as u64,
};

/// Rounds of a script.
pub const ROUNDS: Limit = Limit {
    number: 11,
    least: 0,
    most: MOST_ROUNDS as u64,
};

/// Submissions of all rounds.
pub const SUBMISSIONS: Limit = Limit {
    number: 12,
    least: 0,
    most: MOST_SUBMISSIONS as u64,
};

/// Commands or root drafts of a submission.
pub const COMMANDS: Limit = Limit {
    number: 13,
    least: 1,
    most: MOST_COMMANDS as u64,
};

/// Parties that a submission acts as.
pub const ACT_AS: Limit = Limit {
    number: 14,
    least: 1,
    most: MOST_ACT_AS as u64,
};

/// How far a round moves the time, in microseconds.
pub const ADVANCE: Limit = Limit {
    number: 15,
    least: 0,
    most: MOST_ADVANCE,
};

/// A timeout or the skew, in microseconds.
pub const TIMEOUT: Limit = Limit {
    number: 16,
    least: LEAST_WAIT,
    most: MOST_WAIT,
};

/// A ledger time, in microseconds.
pub const LEDGER_TIME: Limit = Limit {
    number: 17,
    least: 0,
    most: MOST_LEDGER_TIME,
};

/// Drafts of a prepared tree, children counted.
pub const DRAFTS: Limit = Limit {
    number: 18,
    least: 0,
    most: MOST_DRAFTS as u64,
};

/// How deep a draft stands, a root being 1 deep.
pub const DRAFT_DEPTH: Limit = Limit {
    number: 19,
    least: 0,
    most: MOST_DRAFT_DEPTH as u64,
};

/// Steps of a label's path.
pub const LABEL_STEPS: Limit = Limit {
    number: 20,
    least: 0,
    most: MOST_LABEL_STEPS as u64,
};

/// Raw requests of a round.
pub const RAWS: Limit = Limit {
    number: 21,
    least: 0,
    most: MOST_RAWS as u64,
};

/// Bytes that a text of a raw request spells.
pub const RAW_BYTES: Limit = Limit {
    number: 22,
    least: 0,
    most: MOST_RAW_BYTES as u64,
};

/// Rules of a script.
pub const RULES: Limit = Limit {
    number: 23,
    least: 0,
    most: MOST_RULES as u64,
};

/// Bytes of a rule's name.
pub const RULE_NAME_BYTES: Limit = Limit {
    number: 24,
    least: 0,
    most: MOST_RULE_NAME_BYTES as u64,
};
