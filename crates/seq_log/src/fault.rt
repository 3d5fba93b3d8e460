//! Why a message isn't appended.
use canton_model::Message;

/// Why a message isn't appended, in the order in which it is tried: it stands at `place` already; it is a request that isn't framed;
/// it is a request that needs more entries than the capacity leaves; its entry would come later than the decision time of its
/// request, both in microseconds; or there is no memory.
#[derive(Clone, Copy)]
pub enum AppendFault {
    Already { place: u64 },
    Unframed,
    LogFull { reserved: u64, need: u64 },
    TooLate { decision: u64, time: u64 },
    Memory,
}

/// A message that isn't appended.
#[derive(Drop)]
pub struct AppendRefusal {
    pub fault: AppendFault,
    pub message: Message,
}
