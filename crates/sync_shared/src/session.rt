//! What one sharing of a synchroniser has in common.
use log_row::Row;
use std::marker::Brand;
use std::sync::ledger::Ledger;

/// Names a sharing of one synchroniser: its history, the book of what comes into the log, the topology, the packages, the machine, why submissions want
/// no request, the bases of the participants, which no call changes, and the log when the sharing began. A function that is generic in it is called with
/// `Brand`, and the call picks these.
pub trait Session: Row + Ledger {
    ghost use Rattle.std.specs.Prelude.{List};
    ghost use Rattle.ledger_terms.specs.declared.topology.Topology.{Topology};
    ghost use Rattle.lang_eval.specs.Found.{Packages};
    ghost use Rattle.world_model.specs.Messages.{Entry};
    ghost use Rattle.world_model.specs.Machine.{Machine};
    ghost use Rattle.world_model.specs.Rounds.{Why};
    ghost use Rattle.prepare_request.specs.declared.submit_fault.SubmitFault.{SubmitFault};
    ghost use Rattle.node_core.specs.Bases.{Bases};

    ghost topology: { Topology };

    ghost packages: { Packages };

    ghost machine: { Machine };

    ghost why: { Why SubmitFault };

    ghost bases: { Bases };

    ghost start: { List Entry };
}

impl Session for Brand {
    ghost use Rattle.std.specs.Prelude.{[]};
    ghost use Rattle.world_model.specs.Example as Example;
    ghost use Rattle.prepare_request.specs.declared.submit_fault.SubmitFault.TheVariants.{Memory};

    ghost topology = { record { hosts = []; params = Example.machine.params } };

    ghost packages = { [] };

    ghost machine = { Example.machine };

    ghost why = { λ what items now. Memory };

    ghost bases = { λ p. 0 };

    ghost start = { [] };
}
