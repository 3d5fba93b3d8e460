//! How the program ends.
ghost use Rattle.std.specs.Prelude.{◌≡◌};

use crate::fault::Fault;
use cn_io::ReadFault;
use report_read::ReportFault;
use script_read::ScriptFault;
use std::alloc::AllocError;

/// How the program ends: its status, and the fault where the line on standard error says more than the status.
#[derive(Drop)]
pub(crate) struct End {
    pub(crate) status: u8,
    pub(crate) fault: Option<Fault>,
}

impl End {
    /// An end with this status and no fault that says more.
    pub(crate) fn of(status: u8) -> End
        ensures { result.status ≡ status }
    {
        End {
            status,
            fault: None,
        }
    }

    /// An end with this status, whose line tells the fault.
    pub(crate) fn by(status: u8, fault: Fault) -> End {
        End {
            status,
            fault: Some(fault),
        }
    }
}

impl From<AllocError> for End {
    fn from(_error: AllocError) -> End {
        End::of(70)
    }
}

impl From<ReadFault> for End {
    fn from(fault: ReadFault) -> End {
        match fault {
            ReadFault::Failed => End::of(4),
            ReadFault::TooLong => End::of(6),
            ReadFault::Memory => End::of(70),
        }
    }
}

impl From<ReportFault> for End {
    fn from(fault: ReportFault) -> End {
        match fault {
            ReportFault::Line { number, expected } => End::by(
                3,
                Fault::Report { number, expected },
            ),
            ReportFault::Memory => End::of(70),
        }
    }
}

impl From<ScriptFault> for End {
    fn from(fault: ScriptFault) -> End {
        match fault {
            ScriptFault::Memory => End::of(70),
            fault => End::by(3, Fault::Script(fault)),
        }
    }
}
