//! Limits on topologies, packages, transactions and scripts.

/// Bytes of a name.
pub const MOST_NAME_BYTES: usize = 32;

/// Participants of a topology.
pub const MOST_PARTICIPANTS: usize = 8;

/// Parties of a topology.
pub const MOST_PARTIES: usize = 128;

/// Packages of a script.
pub const MOST_PACKAGES: usize = 8;

/// Templates of all packages of a script.
pub const MOST_TEMPLATES: usize = 64;

/// Fields of a template.
pub const MOST_FIELDS: usize = 12;

/// Parameters of a choice.
pub const MOST_PARAMETERS: usize = 12;

/// Choices of a template.
pub const MOST_CHOICES: usize = 16;

/// Levels of an expression.
pub const MOST_EXPRESSION_DEPTH: usize = 16;

/// Expressions of which a set of parties is made.
pub const MOST_SET_ITEMS: usize = 16;

/// Statements of a choice, nested ones counted.
pub const MOST_STATEMENTS: usize = 64;

/// Bytes of a text.
pub const MOST_TEXT_BYTES: usize = 256;

/// Bytes of an encoded instance.
pub const MOST_INSTANCE_BYTES: usize = 1_024;

/// Bytes of the encoded arguments of an Exercise.
pub const MOST_ARGS_BYTES: usize = 1_024;

/// Bytes of the encoded result of an Exercise.
pub const MOST_RESULT_BYTES: usize = 1_024;

/// Actions of a transaction.
pub const MOST_ACTIONS: usize = 64;

/// Levels of a transaction's actions.
pub const MOST_ACTION_DEPTH: usize = 16;

/// Bytes of the encoded actions of a transaction.
pub const MOST_ACTION_BYTES: usize = 32_768;

/// Rounds of a script.
pub const MOST_ROUNDS: usize = 2_048;

/// Submissions of all rounds of a script.
pub const MOST_SUBMISSIONS: usize = 2_048;

/// Commands or root drafts of a submission.
pub const MOST_COMMANDS: usize = 16;

/// Commands or root drafts that a submission has at least.
pub const LEAST_COMMANDS: usize = 1;

/// Parties that a submission acts as, which are at least one.
pub const MOST_ACT_AS: usize = 128;

/// Drafts of a prepared tree, counted with their children.
pub const MOST_DRAFTS: usize = 64;

/// Levels of a prepared tree.
pub const MOST_DRAFT_DEPTH: usize = 16;

/// Steps of a label, which has at least one.
pub const MOST_LABEL_STEPS: usize = 16;

/// The greatest step of a label.
pub const MOST_LABEL_STEP: u16 = 63;

/// Bytes of the tree that one recipient is sent.
pub const MOST_TREE_BYTES: usize = 4_194_304;

/// Raw requests of a round.
pub const MOST_RAWS: usize = 64;

/// Bytes that a text of a raw request spells.
pub const MOST_RAW_BYTES: usize = 65_536;

/// Rules of a script.
pub const MOST_RULES: usize = 16;

/// Bytes of a rule's name. A command's name has room for it, a dash and the number of a contract.
pub const MOST_RULE_NAME_BYTES: usize = 20;

/// Bytes of a script.
pub const MOST_SCRIPT_BYTES: usize = 4_194_304;

/// Places of a log, to which each round with an advance adds one.
pub const MOST_PLACES: usize = 20_480;

/// Microseconds by which a round can move the clock.
pub const MOST_ADVANCE: u64 = 1_000_000_000_000;

/// The least time of a timeout or a skew, in microseconds.
pub const LEAST_WAIT: u64 = 100_000;

/// The greatest time of a timeout or a skew, in microseconds.
pub const MOST_WAIT: u64 = 1_000_000_000_000;

/// The greatest ledger time, in microseconds.
pub const MOST_LEDGER_TIME: u64 = 10_000_000_000_000_000;
