//! Laws of the limits.
ghost use Rattle.std.specs.Prelude.{◌≡◌, ◌^◌};
ghost use Rattle.json_walk.specs.declared.limits.TheConstants.{ACT_AS, ADVANCE, CHOICES, COMMANDS, DRAFTS, DRAFT_DEPTH, EXPRESSION_DEPTH};
ghost use Rattle.json_walk.specs.declared.limits.TheConstants.{FIELDS, LABEL_STEPS, LEDGER_TIME, PACKAGES, PARAMETERS, PARTICIPANTS, PARTIES};
ghost use Rattle.json_walk.specs.declared.limits.TheConstants.{RAW_BYTES, RAWS, ROUNDS, RULE_NAME_BYTES, RULES};
ghost use Rattle.json_walk.specs.declared.limits.TheConstants.{STATEMENTS, SUBMISSIONS, TEMPLATES, TEXT_BYTES, TIMEOUT};

/// The limits of scripts and packages, as the formats have them: of each the number by which a fault names it, and the least and the most that it
/// allows.
pub fn limits_are_those_of_scripts()
    ensures topologies { (PARTICIPANTS ≡ record { number = 1; least = 1; most = 8 })
        × (PARTIES ≡ record { number = 2; least = 0; most = 128 })
        × (TIMEOUT ≡ record { number = 16; least = 10 ^ 5; most = 10 ^ 12 }) }
    ensures packages { (PACKAGES ≡ record { number = 3; least = 0; most = 8 })
        × (TEMPLATES ≡ record { number = 4; least = 0; most = 64 })
        × (FIELDS ≡ record { number = 5; least = 0; most = 12 })
        × (PARAMETERS ≡ record { number = 6; least = 0; most = 12 })
        × (CHOICES ≡ record { number = 7; least = 0; most = 16 }) }
    ensures bodies { (EXPRESSION_DEPTH ≡ record { number = 8; least = 0; most = 16 })
        × (STATEMENTS ≡ record { number = 9; least = 0; most = 64 })
        × (TEXT_BYTES ≡ record { number = 10; least = 0; most = 256 }) }
    ensures scripts { (ROUNDS ≡ record { number = 11; least = 0; most = 2048 })
        × (SUBMISSIONS ≡ record { number = 12; least = 0; most = 2048 })
        × (ADVANCE ≡ record { number = 15; least = 0; most = 10 ^ 12 }) }
    ensures submissions { (COMMANDS ≡ record { number = 13; least = 1; most = 16 })
        × (ACT_AS ≡ record { number = 14; least = 1; most = 128 })
        × (LEDGER_TIME ≡ record { number = 17; least = 0; most = 10 ^ 16 }) }
    ensures drafts { (DRAFTS ≡ record { number = 18; least = 0; most = 64 })
        × (DRAFT_DEPTH ≡ record { number = 19; least = 0; most = 16 })
        × (LABEL_STEPS ≡ record { number = 20; least = 0; most = 16 }) }
    ensures raws { (RAWS ≡ record { number = 21; least = 0; most = 64 })
        × (RAW_BYTES ≡ record { number = 22; least = 0; most = 2 ^ 16 }) }
    ensures rules { (RULES ≡ record { number = 23; least = 0; most = 16 })
        × (RULE_NAME_BYTES ≡ record { number = 24; least = 0; most = 20 }) }
{}
